//! What an interpreter is asked for by another one, or from outside of the tree.
ghost use Rattle.std.specs.Prelude.{◌≡◌, ◌++◌, IfOk};

use std::alloc::{AllocError, Global};
use tcl_host::request::Request;
use tcl_text::text::Text;
use tcl_tree::alias::Alias;
use tcl_value::value::Value;

/// What can be asked about an interpreter.
#[derive(Drop)]
pub enum Question {
    /// Whether it is there.
    Exists,
    /// Whether it is safe.
    IsSafe,
    /// The names of its aliases.
    Aliases,
    /// The target command and the fixed words of its alias of this name.
    AliasOf(Text),
    /// The names of its hidden commands.
    Hidden,
    /// The names of its children.
    Slaves,
    /// Its limit of steps.
    CountLimitOf,
    /// Its limit of depth.
    DepthLimitOf,
}

/// What an interpreter is asked for that evaluates nothing.
#[derive(Drop)]
pub enum OwnEntry {
    /// That a name of it become an alias.
    SetAlias { name: Text, alias: Alias },
    /// That the alias of this name be taken away.
    ClearAlias(Text),
    /// That a command be hidden under another name.
    Hide { name: Text, hidden: Text },
    /// That a hidden command become a command of this name.
    Expose { hidden: Text, name: Text },
    /// That its limit of steps be this.
    SetCountLimit(Option<u64>),
    /// That its limit of depth be this.
    SetDepthLimit(u64),
    /// That it make a child, of this name or of one that it finds.
    Create { name: Option<Text>, safe: bool },
    /// That its child of this name be deleted.
    Delete(Text),
    /// The answer to a question.
    Ask(Question),
}

/// What an interpreter is asked for, or the host.
#[derive(Drop)]
pub enum Entry {
    /// That it evaluate a script.
    Eval(Value),
    /// That it call a command of these words, as an alias of another interpreter does.
    CallWords(Vec<Value>),
    /// That it call a hidden command, at level 0 where that is asked for.
    InvokeHidden { is_global: bool, words: Vec<Value> },
    /// What evaluates nothing.
    Own(OwnEntry),
    /// What only the host is asked for.
    AskHost(Request),
}

/// The words with which an alias calls its target: its own, and then those of the call. They share
/// what they keep.
///
/// # Errors
/// Want of memory.
#[inline(never)]
pub fn target_words(alloc: Global, own: &[Value], args: &[Value]) -> Result<Vec<Value>, AllocError>
    ensures { IfOk result (λ words. words.items ≡ own.now ++ args.now) }
{
    let mut words = Vec::with_capacity(alloc, own.len().saturating_add(args.len()))?;
    'own: for word in own {
        words.push(word.clone()?)?;
    }
    'args: for word in args {
        words.push(word.clone()?)?;
    }
    Ok(words)
}

impl Question {
    ghost use Rattle.tcl_run.specs.Entering.{question_of};

    /// The same question again.
    ///
    /// # Errors
    /// Want of memory.
    fn copy(&self) -> Result<Question, AllocError>
        ensures { IfOk result (λ made. question_of made ≡ question_of self.now) }
    {
        Ok(match self {
            Question::Exists => Question::Exists,
            Question::IsSafe => Question::IsSafe,
            Question::Aliases => Question::Aliases,
            Question::AliasOf(name) => Question::AliasOf(name.clone()?),
            Question::Hidden => Question::Hidden,
            Question::Slaves => Question::Slaves,
            Question::CountLimitOf => Question::CountLimitOf,
            Question::DepthLimitOf => Question::DepthLimitOf,
        })
    }
}

/// The same name again, if there is one.
fn copy_name(name: &Option<Text>) -> Result<Option<Text>, AllocError>
    ensures { IfOk result (λ made. made ≡ name.now) }
{
    match name {
        Some(name) => Ok(Some(name.clone()?)),
        None => Ok(None),
    }
}

impl OwnEntry {
    ghost use Rattle.tcl_run.specs.Entering.{entry_of};

    /// The same again.
    ///
    /// # Errors
    /// Want of memory.
    fn copy(&self) -> Result<OwnEntry, AllocError>
        ensures { IfOk result (λ made. entry_of made ≡ entry_of self.now) }
    {
        Ok(match self {
            OwnEntry::SetAlias { name, alias } => OwnEntry::SetAlias {
                name: name.clone()?,
                alias: alias.clone()?,
            },
            OwnEntry::ClearAlias(name) => OwnEntry::ClearAlias(name.clone()?),
            OwnEntry::Hide { name, hidden } => OwnEntry::Hide {
                name: name.clone()?,
                hidden: hidden.clone()?,
            },
            OwnEntry::Expose { hidden, name } => OwnEntry::Expose {
                hidden: hidden.clone()?,
                name: name.clone()?,
            },
            OwnEntry::SetCountLimit(limit) => OwnEntry::SetCountLimit(*limit),
            OwnEntry::SetDepthLimit(limit) => OwnEntry::SetDepthLimit(*limit),
            OwnEntry::Create { name, safe } => OwnEntry::Create {
                name: copy_name(name)?,
                safe: *safe,
            },
            OwnEntry::Delete(name) => OwnEntry::Delete(name.clone()?),
            OwnEntry::Ask(question) => OwnEntry::Ask(question.copy()?),
        })
    }
}

/// The same request again.
fn copy_request(request: &Request) -> Result<Request, AllocError>
    ensures { IfOk result (λ made. made ≡ request.now) }
{
    match request {
        Request::Open(name, mode) => Ok(Request::Open(name.clone()?, *mode)),
        Request::ReadLine(channel) => Ok(Request::ReadLine(channel.clone()?)),
        Request::ReadAll(channel) => Ok(Request::ReadAll(channel.clone()?)),
        Request::Write(channel, text) => Ok(Request::Write(channel.clone()?, text.clone()?)),
        Request::Flush(channel) => Ok(Request::Flush(channel.clone()?)),
        Request::Close(channel) => Ok(Request::Close(channel.clone()?)),
        Request::Eof(channel) => Ok(Request::Eof(channel.clone()?)),
    }
}

impl Entry {
    ghost use Rattle.tcl_core.specs.Entries.Entry.{CallWords};
    ghost use Rattle.tcl_run.specs.Entering.{whole_entry};

    /// What an alias asks its target for: that it call a command of the alias' own words and those
    /// of the call behind them. Nothing is read again.
    ///
    /// # Errors
    /// Want of memory.
    #[inline(never)]
    pub fn of_alias(alloc: Global, own: &[Value], args: &[Value]) -> Result<Entry, AllocError>
        ensures { IfOk result (λ made. whole_entry made ≡ CallWords (own.now ++ args.now)) }
    {
        let words = target_words(alloc, own, args)?;
        Ok(Entry::CallWords(words))
    }

    /// The same again. Its values share what they keep.
    ///
    /// # Errors
    /// Want of memory.
    pub fn copy(&self, alloc: Global) -> Result<Entry, AllocError>
        ensures { IfOk result (λ made. whole_entry made ≡ whole_entry self.now) }
    {
        match self {
            Entry::Eval(script) => Ok(Entry::Eval(script.clone()?)),
            Entry::CallWords(words) => {
                Ok(Entry::CallWords(Vec::from_clones(alloc, words.as_slice())?))
            }
            Entry::InvokeHidden { is_global, words } => Ok(Entry::InvokeHidden {
                is_global: *is_global,
                words: Vec::from_clones(alloc, words.as_slice())?,
            }),
            Entry::Own(own) => Ok(Entry::Own(own.copy()?)),
            Entry::AskHost(request) => Ok(Entry::AskHost(copy_request(request)?)),
        }
    }
}
