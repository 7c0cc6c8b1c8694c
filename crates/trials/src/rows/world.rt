//! What the rows of a group share, and which function answers a call.
use crate::rows::beginnings::{Way, beginnings};
use crate::rows::ending::{STEPS, evaluated};
use crate::rows::{evaluating, hosting, memory, playing, watching};
use row_runner::World;
use std::alloc::{AllocError, Global};
use tcl_host::memory::MemoryHost;
use tcl_recorder::crossing::Crossing;
use tcl_replay::saving::Saved;
use tcl_text::list::{ListError, read_list};
use tcl_text::text::Text;
use tcl_tree::tree::Tree;

/// An interpreter by itself that was kept under a label.
pub(crate) struct Kept {
    label: String,
    saved: Saved,
}

impl Drop for Kept {
    fn drop(self) {
        let Kept {
            label: _label,
            saved: _saved,
        } = self;
    }
}

/// A tree of interpreters, and what stands about it.
pub(crate) struct Trees {
    /// What is run first in each new tree.
    pub(crate) before: String,
    /// The tree.
    pub(crate) tree: Tree,
    /// The host of the tree and of the program.
    pub(crate) host: MemoryHost,
    /// What crossed the boundary of the interpreter that was watched last.
    pub(crate) crossings: Vec<Crossing>,
    /// What was told when moves were played last.
    pub(crate) told: Vec<Crossing>,
    kept: Vec<Kept>,
}

impl Drop for Trees {
    fn drop(self) {
        let Trees {
            before: _before,
            tree: _tree,
            host: _host,
            crossings: _crossings,
            told: _told,
            kept: _kept,
        } = self;
    }
}

impl Trees {
    /// A root alone, over a host without files and input.
    pub(crate) fn new(alloc: Global) -> Result<Trees, AllocError> {
        Ok(Trees {
            before: String::new(alloc),
            tree: Tree::new(alloc)?,
            host: MemoryHost::new(alloc)?,
            crossings: Vec::new(alloc),
            told: Vec::new(alloc),
            kept: Vec::new(alloc),
        })
    }

    /// Begins a new tree, in which the script is run that comes before, and gives how that ends.
    pub(crate) fn renew(&mut self, alloc: Global) -> Result<String, AllocError> {
        self.tree = Tree::new(alloc)?;
        evaluated(
            &mut self.tree,
            alloc,
            &mut self.host,
            &[],
            self.before.as_str(),
            STEPS,
        )
    }

    /// Keeps an interpreter under a label.
    pub(crate) fn keep(
        &mut self,
        alloc: Global,
        label: &str,
        saved: Saved,
    ) -> Result<(), AllocError> {
        let label = String::from_str(alloc, label)?;
        self.kept.push(Kept { label, saved })?;
        Ok(())
    }

    /// What was last kept under a label.
    pub(crate) fn kept(&self, label: &str) -> Option<&Saved> {
        let mut found = None;
        'kept: for kept in self.kept.as_slice() {
            if kept.label.as_str() == label {
                found = Some(&kept.saved);
            }
        }
        found
    }
}

/// The answer of a call that changes something.
pub(crate) fn done(alloc: Global) -> Result<String, AllocError> {
    String::from_str(alloc, "-")
}

/// The answer of what is no call.
pub(crate) fn no_call(alloc: Global) -> Result<String, AllocError> {
    String::from_str(alloc, "no call")
}

/// The number that a word spells.
pub(crate) fn number_of(word: &Text) -> Option<u64> {
    word.as_str().parse::<u64>().ok()
}

/// The count that a word spells.
pub(crate) fn count_of(word: &Text) -> Option<usize> {
    word.as_str().parse::<usize>().ok()
}

/// What a call of no words answers.
fn of_none(world: &mut Trees, alloc: Global, call: &str) -> Result<String, AllocError> {
    match call {
        "break" => evaluating::break_tree(world, alloc),
        "output" => hosting::output(world, alloc),
        "errors" => hosting::errors(world, alloc),
        "failures" => hosting::failures(world, alloc),
        "record" => watching::record(world, alloc),
        "crossings" => watching::crossings(world, alloc),
        "told" => playing::show(world, alloc),
        "last" => playing::last(world, alloc),
        _ => no_call(alloc),
    }
}

/// What a call of a script answers.
fn of_script(
    world: &mut Trees,
    alloc: Global,
    call: &str,
    script: &str,
) -> Result<String, AllocError> {
    match call {
        "tree" => evaluating::begin_tree(world, alloc, script),
        "prepare" => evaluating::prepare(world, alloc, script),
        "eval" => evaluating::eval_script(world, alloc, script),
        "eval_again" => memory::eval_again(world, alloc, script),
        "ends" => beginnings(world, alloc, Way::Root, script),
        "outside" => beginnings(world, alloc, Way::Outside, script),
        "inside" => beginnings(world, alloc, Way::Inside, script),
        _ => no_call(alloc),
    }
}

/// What a call of one word answers.
fn of_one(world: &mut Trees, alloc: Global, call: &str, word: &Text) -> Result<String, AllocError> {
    match call {
        "blanks" => evaluating::eval_blanks(world, alloc, word),
        "input" => hosting::input(world, alloc, word.as_str()),
        "fault" => hosting::fault(world, alloc, word),
        "eof" => hosting::eof(world, alloc, word.as_str()),
        _ => of_script(world, alloc, call, word.as_str()),
    }
}

/// What a call answers of an interpreter by its name or its label, and another word.
fn of_name(
    world: &mut Trees,
    alloc: Global,
    call: &str,
    name: &str,
    word: &Text,
) -> Result<String, AllocError> {
    match call {
        "watch" => watching::watch(world, alloc, name, word.as_str()),
        "watch_again" => memory::watch_again(world, alloc, name, word.as_str()),
        "save" => watching::save(world, alloc, name, word.as_str()),
        "save_again" => memory::save_again(world, alloc, name, word.as_str()),
        "same" => watching::same(world, alloc, name, word.as_str()),
        "replay" => playing::replay(world, alloc, name, word),
        _ => no_call(alloc),
    }
}

/// What a call of two words answers.
fn of_two(
    world: &mut Trees,
    alloc: Global,
    call: &str,
    word: &Text,
    other: &Text,
) -> Result<String, AllocError> {
    match call {
        "within" => evaluating::eval_within(world, alloc, word, other.as_str()),
        "open" => evaluating::eval_open(world, alloc, word, other.as_str()),
        "at" => evaluating::eval_at(world, alloc, word, other.as_str()),
        "inputs" => hosting::inputs(world, alloc, word, other.as_str()),
        "file" => hosting::file(world, alloc, word.as_str(), other.as_str()),
        _ => of_name(world, alloc, call, word.as_str(), other),
    }
}

/// What a call answers of an interpreter, a number of steps, and a script or moves.
fn of_three(
    world: &mut Trees,
    alloc: Global,
    call: &str,
    name: &str,
    steps: &Text,
    word: &str,
) -> Result<String, AllocError> {
    let Some(limit) = number_of(steps) else {
        return no_call(alloc);
    };
    match call {
        "watch_within" => watching::watch_within(world, alloc, name, limit, word),
        "play" => playing::play(world, alloc, name, limit, word),
        "play_again" => playing::play_again(world, alloc, name, limit, word),
        _ => no_call(alloc),
    }
}

/// What a call answers that takes as many words as it needs, or else by how many there are.
fn of_words(
    world: &mut Trees,
    alloc: Global,
    call: &str,
    words: &[Text],
) -> Result<String, AllocError> {
    match call {
        "tclsafe" => hosting::run_program(world, alloc, words),
        "nested" => evaluating::eval_nested(world, alloc, words),
        _ => match words {
            [] => of_none(world, alloc, call),
            [word] => of_one(world, alloc, call, word),
            [word, other] => of_two(world, alloc, call, word, other),
            [name, steps, word] => of_three(
                world,
                alloc,
                call,
                name.as_str(),
                steps,
                word.as_str(),
            ),
            _ => no_call(alloc),
        },
    }
}

/// What a call answers, by its words.
fn of_call(world: &mut Trees, alloc: Global, words: &[Text]) -> Result<String, AllocError> {
    match words {
        [call, others @ ..] => of_words(world, alloc, call.as_str(), others),
        _ => no_call(alloc),
    }
}

impl World for Trees {
    fn begin(&mut self, alloc: Global) -> Result<(), AllocError> {
        *self = Trees::new(alloc)?;
        Ok(())
    }

    fn answer(&mut self, alloc: Global, call: &str) -> Result<String, AllocError> {
        match read_list(alloc, call) {
            Ok(words) => of_call(self, alloc, words.as_slice()),
            Err(ListError::Memory) => Err(AllocError),
            Err(ListError::Fault(_)) => no_call(alloc),
        }
    }
}
