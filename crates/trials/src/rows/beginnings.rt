//! Every beginning of a script, each watched in a tree of its own in which another script was run
//! before.
use crate::rows::ending::{STEPS, evaluated};
use crate::rows::playing::played;
use crate::rows::scripts::is_told_incomplete;
use crate::rows::watching::{Watched, saved, watch_inside, watch_outside};
use crate::rows::world::Trees;
use crate::rows::writing::{crossings, show};
use std::alloc::{AllocError, Global};
use tcl_host::memory::MemoryHost;
use tcl_player::moves::moves_of;
use tcl_player::player::Outcome;
use tcl_recorder::crossing::Crossing;
use tcl_replay::replaying::Replayed;
use tcl_replay::saving::Saved;
use tcl_tree::tree::Tree;

/// Who evaluates the beginnings, and who is watched.
#[derive(Clone, Copy)]
pub(crate) enum Way {
    /// The root, which is watched.
    Root,
    /// The root, while the child `c` is watched.
    Outside,
    /// The child `c`, which is watched.
    Inside,
}

/// Runs a script in a tree that is new.
fn prepare(tree: &mut Tree, alloc: Global, before: &str) -> Result<(), AllocError> {
    let mut host = MemoryHost::new(alloc)?;
    evaluated(tree, alloc, &mut host, &[], before, STEPS)?;
    Ok(())
}

/// What crosses the boundary where a script is evaluated so.
fn watched_so(
    tree: &mut Tree,
    alloc: Global,
    way: Way,
    script: &str,
) -> Result<Watched, AllocError> {
    match way {
        Way::Root => watch_outside(tree, alloc, "", script, STEPS),
        Way::Outside => watch_outside(tree, alloc, "c", script, STEPS),
        Way::Inside => watch_inside(tree, alloc, "c", script),
    }
}

/// Whether a script is told incomplete where it is, and run to an end while the root is watched.
fn is_ended(tree: &mut Tree, alloc: Global, script: &str) -> Result<bool, AllocError> {
    if !is_told_incomplete(alloc, script)? {
        return Ok(false);
    }
    let watched = watched_so(tree, alloc, Way::Root, script)?;
    Ok(!watched.crossings.is_empty())
}

/// Whether the same was told by itself as where it was watched.
fn is_told_again(
    alloc: Global,
    outwards: &[Crossing],
    crossed: &[Crossing],
) -> Result<bool, AllocError> {
    let wanted = show(alloc, crossed)?;
    let found = crossings(alloc, outwards)?;
    Ok(found.as_str() == wanted.as_str())
}

/// Whether the child `c` of a tree is the same as one by itself.
fn is_left_so(tree: &Tree, alloc: Global, left: &Saved) -> Result<bool, AllocError> {
    match saved(tree, alloc, "c")? {
        Ok(saved) => Ok(left.same(&saved)),
        Err(_) => Ok(false),
    }
}

/// Whether moves came to their end, the same was told, and the child `c` was left so.
fn is_the_same(
    tree: &Tree,
    alloc: Global,
    replayed: &Replayed,
    crossed: &[Crossing],
) -> Result<bool, AllocError> {
    if replayed.outcome() != Outcome::Finished {
        return Ok(false);
    }
    if !is_told_again(alloc, replayed.outwards(), crossed)? {
        return Ok(false);
    }
    is_left_so(tree, alloc, replayed.saved())
}

/// Whether the same comes of the moves among crossings where they are played to the child as it was
/// before.
fn is_replayed(
    tree: &Tree,
    alloc: Global,
    before: &Saved,
    crossed: &[Crossing],
) -> Result<bool, AllocError> {
    let moves = moves_of(alloc, crossed)?;
    match played(before, alloc, moves.as_slice(), STEPS) {
        Ok(replayed) => is_the_same(tree, alloc, &replayed, crossed),
        Err(_) => Ok(false),
    }
}

/// The same of a script, the child as it is before it being given.
fn is_replayed_from(
    tree: &mut Tree,
    alloc: Global,
    before: &Saved,
    way: Way,
    script: &str,
) -> Result<bool, AllocError> {
    let watched = watched_so(tree, alloc, way, script)?;
    is_replayed(tree, alloc, before, watched.crossings.as_slice())
}

/// Whether of the child `c` by itself there comes what comes of it in a run of a script.
fn comes_again(tree: &mut Tree, alloc: Global, way: Way, script: &str) -> Result<bool, AllocError> {
    match saved(tree, alloc, "c")? {
        Ok(before) => is_replayed_from(tree, alloc, &before, way, script),
        Err(_) => Ok(false),
    }
}

/// Whether a script comes out as it must in a tree that is new.
fn comes_out_in(
    tree: &mut Tree,
    alloc: Global,
    way: Way,
    before: &str,
    script: &str,
) -> Result<bool, AllocError> {
    prepare(tree, alloc, before)?;
    match way {
        Way::Root => is_ended(tree, alloc, script),
        Way::Outside | Way::Inside => comes_again(tree, alloc, way, script),
    }
}

/// Whether a script comes out as it must.
fn comes_out(alloc: Global, way: Way, before: &str, script: &str) -> Result<bool, AllocError> {
    let mut tree = Tree::new(alloc)?;
    comes_out_in(&mut tree, alloc, way, before, script)
}

/// How many beginnings of a script, all of it too, come out as they must; or the first that
/// doesn't.
pub(crate) fn beginnings(
    world: &Trees,
    alloc: Global,
    way: Way,
    script: &str,
) -> Result<String, AllocError> {
    let mut seen: u64 = 0;
    'ends: for end in 0..=script.len() {
        if let Some(beginning) = script.get(..end) {
            if !comes_out(alloc, way, world.before.as_str(), beginning)? {
                return format!(in alloc; "not so: {beginning}");
            }
            seen = seen.saturating_add(1);
        }
    }
    format!(in alloc; "{seen}")
}
