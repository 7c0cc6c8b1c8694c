//! Calls that watch and save interpreters.
use crate::rows::ending::{self, STEPS};
use crate::rows::world::{Trees, done, no_call};
use crate::rows::writing;
use std::alloc::{AllocError, Global};
use tcl_eval::running::{End, Refused};
use tcl_host::memory::MemoryHost;
use tcl_recorder::crossing::Crossing;
use tcl_recorder::record::Record;
use tcl_replay::saving::{self, Saved};
use tcl_replay::watching::{Deletion, Unwatched, eval_watched};
use tcl_text::text::Text;
use tcl_tree::tree::Tree;

/// How an evaluation that was watched came out.
#[derive(Drop)]
pub(crate) struct Watched {
    /// How it ended, behind `Deleted` where the watched interpreter was; or what refused it.
    pub(crate) ending: String,
    /// What crossed the boundary.
    pub(crate) crossings: Vec<Crossing>,
    /// The host after it.
    host: MemoryHost,
}

/// The path to the child of the root that this names, or to the root where the name is empty.
fn path_to(alloc: Global, name: &str) -> Result<Vec<Text>, AllocError> {
    let mut path = Vec::new(alloc);
    if !name.is_empty() {
        path.push(Text::new(alloc, name)?)?;
    }
    Ok(path)
}

/// How an evaluation ended in which the watched interpreter was deleted, and what crossed the
/// boundary until then.
fn show_deletion(alloc: Global, deletion: Deletion) -> Result<(String, Vec<Crossing>), AllocError> {
    let Deletion { end, until } = deletion;
    let end = ending::end(alloc, &end)?;
    let told = format!(in alloc; "Deleted: {end}", end = end.as_str())?;
    Ok((told, until.into_crossings()))
}

/// How an evaluation ended, or what refused it, and what crossed the boundary.
fn show(
    alloc: Global,
    given: Result<(End, Record), Unwatched>,
) -> Result<(String, Vec<Crossing>), AllocError> {
    match given {
        Ok((end, record)) => Ok((ending::end(alloc, &end)?, record.into_crossings())),
        Err(Unwatched::Deleted(deletion)) => show_deletion(alloc, deletion),
        Err(Unwatched::Refused(refused)) => {
            Ok((ending::refusal(alloc, refused)?, Vec::new(alloc)))
        }
    }
}

/// The host after a watched run, and how that ended, or why there is no record of it.
fn run_watched(
    tree: &mut Tree,
    alloc: Global,
    path: &[Text],
    script: &str,
    limit: u64,
    watched: &[Text],
) -> Result<(MemoryHost, Result<(End, Record), Unwatched>), AllocError> {
    let host = MemoryHost::new(alloc)?;
    Ok(eval_watched(tree, alloc, host, path, script, limit, watched))
}

/// A run of a script at a path that may make so many steps, the interpreter at another one being
/// watched.
fn watch_at(
    tree: &mut Tree,
    alloc: Global,
    path: &[Text],
    script: &str,
    limit: u64,
    watched: &[Text],
) -> Result<Watched, AllocError> {
    let (host, given) = run_watched(tree, alloc, path, script, limit, watched)?;
    let (ending, crossings) = show(alloc, given)?;
    Ok(Watched {
        ending,
        crossings,
        host,
    })
}

/// A run of a script in the root that may make so many steps, the child of this name being watched.
pub(crate) fn watch_outside(
    tree: &mut Tree,
    alloc: Global,
    name: &str,
    script: &str,
    limit: u64,
) -> Result<Watched, AllocError> {
    let watched = path_to(alloc, name)?;
    watch_at(tree, alloc, &[], script, limit, watched.as_slice())
}

/// A run of a script in the child of this name, which is watched.
pub(crate) fn watch_inside(
    tree: &mut Tree,
    alloc: Global,
    name: &str,
    script: &str,
) -> Result<Watched, AllocError> {
    let path = path_to(alloc, name)?;
    watch_at(tree, alloc, path.as_slice(), script, STEPS, path.as_slice())
}

/// Keeps what a watched run came to, and gives how it ended.
fn note(world: &mut Trees, watched: Watched) -> String {
    let Watched {
        ending,
        crossings,
        host,
    } = watched;
    world.crossings = crossings;
    world.host = host;
    ending
}

/// How a watched run ends that may make so many steps.
pub(crate) fn watch_within(
    world: &mut Trees,
    alloc: Global,
    name: &str,
    limit: u64,
    script: &str,
) -> Result<String, AllocError> {
    let watched = watch_outside(&mut world.tree, alloc, name, script, limit)?;
    Ok(note(world, watched))
}

/// How a watched run ends.
pub(crate) fn watch(
    world: &mut Trees,
    alloc: Global,
    name: &str,
    script: &str,
) -> Result<String, AllocError> {
    watch_within(world, alloc, name, STEPS, script)
}

/// What crossed the boundary.
pub(crate) fn record(world: &Trees, alloc: Global) -> Result<String, AllocError> {
    writing::crossings(alloc, world.crossings.as_slice())
}

/// How many crossings there were.
pub(crate) fn crossings(world: &Trees, alloc: Global) -> Result<String, AllocError> {
    let count = world.crossings.len();
    format!(in alloc; "{count}")
}

/// The child of this name by itself, or the root, or why it isn't saved.
pub(crate) fn saved(
    tree: &Tree,
    alloc: Global,
    name: &str,
) -> Result<Result<Saved, Refused>, AllocError> {
    let path = path_to(alloc, name)?;
    Ok(saving::save(tree, path.as_slice()))
}

/// Keeps what was saved under a label.
fn keep(
    world: &mut Trees,
    alloc: Global,
    label: &str,
    saved: Result<Saved, Refused>,
) -> Result<String, AllocError> {
    match saved {
        Ok(saved) => {
            world.keep(alloc, label, saved)?;
            done(alloc)
        }
        Err(refused) => ending::refusal(alloc, refused),
    }
}

/// Saves the child of this name.
pub(crate) fn save(
    world: &mut Trees,
    alloc: Global,
    name: &str,
    label: &str,
) -> Result<String, AllocError> {
    let saved = saved(&world.tree, alloc, name)?;
    keep(world, alloc, label, saved)
}

/// Whether two interpreters that were kept are the same.
pub(crate) fn same(
    world: &Trees,
    alloc: Global,
    label: &str,
    other: &str,
) -> Result<String, AllocError> {
    match (world.kept(label), world.kept(other)) {
        (Some(kept), Some(other)) => {
            String::from_str(alloc, if kept.same(other) { "yes" } else { "no" })
        }
        _ => no_call(alloc),
    }
}
