//! Scripts, each of them in a tree and over a host of its own.
use crate::rows::ending::{STEPS, evaluated, run};
use row_runner::World;
use std::alloc::{AllocError, Global};
use tcl_host::memory::MemoryHost;
use tcl_parser::reader::{is_complete, parse};
use tcl_text::integer::Integers;
use tcl_tree::tree::Tree;

/// Answers a script by how a run of it ends.
#[derive(Drop)]
pub(crate) struct Scripts {
    /// The style of integers of the trees.
    pub(crate) integers: Integers,
}

/// How a run of a script ends in a tree that is new.
fn run_in(tree: &mut Tree, alloc: Global, script: &str) -> Result<String, AllocError> {
    let mut host = MemoryHost::new(alloc)?;
    evaluated(tree, alloc, &mut host, &[], script, STEPS)
}

impl World for Scripts {
    fn begin(&mut self, _alloc: Global) -> Result<(), AllocError> {
        Ok(())
    }

    fn answer(&mut self, alloc: Global, call: &str) -> Result<String, AllocError> {
        let mut tree = Tree::with_integers(alloc, self.integers)?;
        run_in(&mut tree, alloc, call)
    }
}

/// Answers a beginning of a script by nothing where it is run to an end, and told incomplete where
/// its fault is a form that is open.
#[derive(Drop)]
pub(crate) struct Beginnings;

/// Whether a script's fault is a form that is open at its end.
fn has_open_form(alloc: Global, script: &str) -> Result<bool, AllocError> {
    match parse(alloc, script)?.fault {
        Some(fault) => Ok(fault.is_open()),
        None => Ok(false),
    }
}

/// Whether a script is told incomplete where its fault is a form that is open, and only there.
pub(crate) fn is_told_incomplete(alloc: Global, script: &str) -> Result<bool, AllocError> {
    let is_open = has_open_form(alloc, script)?;
    Ok(is_complete(alloc, script)? != is_open)
}

/// Whether a script is run to an end in a tree that is new.
fn is_run_in(tree: &mut Tree, alloc: Global, script: &str) -> Result<bool, AllocError> {
    let mut host = MemoryHost::new(alloc)?;
    Ok(run(tree, alloc, &mut host, &[], script, STEPS).is_ok())
}

/// Whether a script is run to an end.
fn is_run(alloc: Global, script: &str) -> Result<bool, AllocError> {
    let mut tree = Tree::new(alloc)?;
    is_run_in(&mut tree, alloc, script)
}

impl World for Beginnings {
    fn begin(&mut self, _alloc: Global) -> Result<(), AllocError> {
        Ok(())
    }

    fn answer(&mut self, alloc: Global, call: &str) -> Result<String, AllocError> {
        if !is_told_incomplete(alloc, call)? {
            return String::from_str(alloc, "is it complete?");
        }
        String::from_str(alloc, if is_run(alloc, call)? { "" } else { "not run" })
    }
}
