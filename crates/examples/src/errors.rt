//! How errors are printed: with the number that docs/REFUSALS.md has, and their text.

use std::alloc::Global;
use std::io;
use tcl_embed::dicts::{DictError, DictFault, EntryError};
use tcl_embed::hosts::{HostError, HostRefusal};
use tcl_embed::lists::{ListError, ListFault};
use tcl_embed::replays::Unplayed;
use tcl_embed::texts::{BooleanFault, IntegerFault};
use tcl_embed::trees::TreeError;
use tcl_embed::values::{ChangeError, ValueError};
use tcl_embed::watching::{Unwatched, eval_watched};
use tcl_embed::{EmbedError, MemoryHost, Path, Refused, Text, Tree};

/// Prints an error.
fn show(rt: &HostRuntime, error: EmbedError) -> io::Result<()> {
    println!(rt; "{error}")
}

/// Evaluates a script that deletes the stranger who is watched.
fn delete_watched(alloc: Global) -> Result<(), EmbedError> {
    let mut tree = Tree::new(alloc)?;
    tree.create(alloc, &[], &Text::new(alloc, "guest")?, true)?;
    let guest = Path::parse(alloc, "guest")?;
    let mut host = MemoryHost::new(alloc)?;
    let script = "interp delete guest";
    let (_host, watched) = eval_watched(
        &mut tree,
        alloc,
        &mut host,
        &[],
        script,
        100,
        guest.names(),
    );
    let (_end, _record) = watched?;
    Ok(())
}

/// Why nothing is evaluated.
const REFUSALS: [Refused; 5] = [
    Refused::Memory,
    Refused::Broken,
    Refused::NoInterpreter,
    Refused::CountTooLarge,
    Refused::TooLong,
];

/// Errors of evaluations, of records and of replays.
fn show_runs(rt: &HostRuntime) -> Result<(), EmbedError> {
    'refusals: for refused in REFUSALS {
        show(rt, EmbedError::from(refused))?;
    }
    show(rt, EmbedError::from(Unwatched::Refused(Refused::Broken)))?;
    if let Err(error) = delete_watched(rt.alloc()) {
        show(rt, error)?;
    }
    show(rt, EmbedError::from(Unplayed::Waits))?;
    Ok(())
}

/// Why a call on a tree is refused.
const TREE_ERRORS: [TreeError; 12] = [
    TreeError::Memory,
    TreeError::BadName,
    TreeError::BadCount,
    TreeError::NoInterpreter,
    TreeError::Exists,
    TreeError::Denied,
    TreeError::NoCommand,
    TreeError::NoHidden,
    TreeError::TooMany,
    TreeError::CountLimit(2),
    TreeError::DepthLimit(0),
    TreeError::BadDepthLimit,
];

/// Errors of calls on trees.
fn show_trees(rt: &HostRuntime) -> Result<(), EmbedError> {
    'errors: for error in TREE_ERRORS {
        show(rt, EmbedError::from(error))?;
    }
    Ok(())
}

/// Errors of values, and one of a host.
fn show_values(rt: &HostRuntime) -> Result<(), EmbedError> {
    show(
        rt,
        EmbedError::from(ListError::Fault(ListFault::UnmatchedBrace)),
    )?;
    let after = ListFault::AfterQuote(Text::new(rt.alloc(), "x")?);
    show(rt, EmbedError::from(ListError::Fault(after)))?;
    show(
        rt,
        EmbedError::from(DictError::Fault(DictFault::MissingValue)),
    )?;
    show(rt, EmbedError::from(EntryError::Memory))?;
    show(rt, EmbedError::from(ValueError::TooLong))?;
    show(rt, EmbedError::from(ChangeError::NoElement))?;
    show(rt, EmbedError::from(IntegerFault::TooLarge))?;
    show(rt, EmbedError::from(BooleanFault::NotBoolean))?;
    show(
        rt,
        EmbedError::from(HostError::Refused(HostRefusal::NoChannel)),
    )?;
    Ok(())
}

pub(crate) fn run(rt: &HostRuntime) -> Result<(), EmbedError> {
    show_runs(rt)?;
    show_trees(rt)?;
    show_values(rt)
}
