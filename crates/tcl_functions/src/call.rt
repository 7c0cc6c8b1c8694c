//! Calls of an embedder's functions.
ghost use Rattle.std.specs.Prelude.{◌≡◌, IfOk};
ghost use Rattle.tcl_functions.specs.Calls.{args_of, name_of, words_of};
ghost use Rattle.tcl_run.specs.Entering.{whole_entry};

use std::alloc::{AllocError, Global};
use tcl_flow::completion::Completion;
use tcl_run::entry::Entry;
use tcl_text::text::Text;
use tcl_value::value::Value;

/// A call of a function that is open: a script called an alias that leads past the top of its tree.
#[derive(Drop)]
pub struct Call {
    /// The path of the interpreter that calls, from the root of the tree downward.
    pub caller: Vec<Text>,
    /// The function's name, and behind it the words that the alias has and those of the call.
    pub words: Vec<Value>,
    /// How the entries that the function handed in for this call ended, in order. A stop by a limit
    /// is here the error that it is outside of the interpreter that it names.
    pub replies: Vec<Completion>,
}

impl Call {
    /// The function's name; empty where the alias has no word.
    ///
    /// # Errors
    /// Want of memory.
    pub fn name(&self, alloc: Global) -> Result<Text, AllocError>
        ensures { IfOk result (λ name. name ≡ name_of self.now.words.items) }
    {
        match self.words.as_slice() {
            [] => Text::new(alloc, ""),
            [name, ..] => name.text(alloc),
        }
    }

    /// The words behind the function's name. This takes no memory.
    pub fn args(&self) -> &[Value]
        ensures { result.now ≡ args_of self.now.words.items }
    {
        match self.words.as_slice() {
            [] => self.words.as_slice(),
            [_, args @ ..] => args,
        }
    }
}

/// The words with which a call comes.
///
/// # Errors
/// Want of memory.
pub(crate) fn words_of(alloc: Global, entry: &Entry) -> Result<Vec<Value>, AllocError>
    ensures { IfOk result (λ words. words.items ≡ words_of (whole_entry entry.now)) }
{
    match entry {
        Entry::CallWords(words) => Ok(Vec::from_clones(alloc, words.as_slice())?),
        _ => Ok(Vec::new(alloc)),
    }
}
