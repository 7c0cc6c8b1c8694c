//! How large the work of scripts is, and what they come to.
use std::alloc::{AllocError, Global};
use tcl_eval::running::{End, Refused, eval};
use tcl_host::memory::MemoryHost;
use tcl_tree::tree::Tree;

/// How large the work is.
#[derive(Clone, Copy)]
pub(crate) enum Size {
    /// What every run of the gate can afford.
    Small,
    /// What is measured.
    Full,
}

/// More steps than any of the scripts makes.
pub(crate) const STEPS: u64 = 1_000_000_000;

/// How a script in the root ends, with a host of its own.
pub(crate) fn run(
    alloc: Global,
    tree: &mut Tree,
    script: &str,
) -> Result<Result<End, Refused>, AllocError> {
    let mut host = MemoryHost::new(alloc)?;
    Ok(eval(tree, alloc, &mut host, &[], script, STEPS))
}

/// The text of a run's result.
pub(crate) fn result_of(alloc: Global, ended: Result<End, Refused>) -> Result<String, AllocError> {
    match ended {
        Ok(End::Done(completion)) => {
            String::from_str(alloc, completion.text.text(alloc)?.as_str())
        }
        _ => String::from_str(alloc, "no result"),
    }
}
