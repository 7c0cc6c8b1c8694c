//! Calls that answer the same whichever of their allocations is refused: where memory was wanted,
//! they look at what then holds, and are made once more.
//!
//! `rt try --fail-alloc N` refuses the one of that number in the whole run, so that the call which
//! is made once more is answered.
use crate::rows::ending::{STEPS, evaluated};
use crate::rows::watching::{saved, watch_outside};
use crate::rows::world::Trees;
use crate::rows::{evaluating, watching};
use std::alloc::{AllocError, Global};
use tcl_eval::running::Refused;
use tcl_host::memory::MemoryHost;
use tcl_tree::tree::Tree;

/// Whether nothing is evaluated in a tree.
fn evaluates_nothing(tree: &mut Tree, alloc: Global) -> Result<bool, AllocError> {
    let mut host = MemoryHost::new(alloc)?;
    let ending = evaluated(tree, alloc, &mut host, &[], "set a", STEPS)?;
    Ok(ending.as_str() == "Broken")
}

/// Whether the child `c` of a tree isn't saved.
fn saves_nothing(tree: &Tree, alloc: Global) -> Result<bool, AllocError> {
    match saved(tree, alloc, "c")? {
        Ok(_saved) => Ok(false),
        Err(refused) => Ok(refused == Refused::Broken),
    }
}

/// Whether nothing is watched in a tree, and so nothing recorded.
fn watches_nothing(tree: &mut Tree, alloc: Global, script: &str) -> Result<bool, AllocError> {
    let watched = watch_outside(tree, alloc, "c", script, STEPS)?;
    Ok(watched.ending.as_str() == "Broken" && watched.crossings.is_empty())
}

/// Whether in a tree nothing is evaluated, watched or saved.
fn does_nothing(tree: &mut Tree, alloc: Global, script: &str) -> Result<bool, AllocError> {
    if !evaluates_nothing(tree, alloc)? {
        return Ok(false);
    }
    if !saves_nothing(tree, alloc)? {
        return Ok(false);
    }
    watches_nothing(tree, alloc, script)
}

/// Sees that the tree is broken, and begins a new one.
fn is_renewed(world: &mut Trees, alloc: Global, script: &str) -> Result<bool, AllocError> {
    let is_broken = does_nothing(&mut world.tree, alloc, script)?;
    world.renew(alloc)?;
    Ok(is_broken)
}

/// The answer where a tree isn't broken that must be.
fn not_broken(alloc: Global) -> Result<String, AllocError> {
    String::from_str(alloc, "not broken")
}

/// `eval_again SCRIPT`
pub(crate) fn eval_again(
    world: &mut Trees,
    alloc: Global,
    script: &str,
) -> Result<String, AllocError> {
    let ending = evaluating::eval_script(world, alloc, script)?;
    if ending.as_str() != "Memory" {
        return Ok(ending);
    }
    if !is_renewed(world, alloc, script)? {
        return not_broken(alloc);
    }
    evaluating::eval_script(world, alloc, script)
}

/// `watch_again NAME SCRIPT`
pub(crate) fn watch_again(
    world: &mut Trees,
    alloc: Global,
    name: &str,
    script: &str,
) -> Result<String, AllocError> {
    let ending = watching::watch(world, alloc, name, script)?;
    if ending.as_str() != "Memory" {
        return Ok(ending);
    }
    if !is_renewed(world, alloc, script)? {
        return not_broken(alloc);
    }
    watching::watch(world, alloc, name, script)
}

/// `save_again NAME LABEL`
pub(crate) fn save_again(
    world: &mut Trees,
    alloc: Global,
    name: &str,
    label: &str,
) -> Result<String, AllocError> {
    let answer = watching::save(world, alloc, name, label)?;
    if answer.as_str() != "Memory" {
        return Ok(answer);
    }
    watching::save(world, alloc, name, label)
}
