//! Programs of an embedder, run one after the other: strangers in safe children, functions of one's
//! own, a record and its replay, limits, errors. Each file but this one is a program by itself,
//! with `run` in the place of `main`. `trials` runs them.
#![tactic(auto)]

mod errors;
mod functions;
mod quota;
mod replay;
mod sandbox;

use tcl_embed::EmbedError;

/// Runs them.
///
/// # Errors
/// Out of memory, and what an example's own calls may answer.
pub fn run(rt: &HostRuntime) -> Result<(), EmbedError> {
    println!(rt; "# sandbox")?;
    sandbox::run(rt)?;
    println!(rt; "# functions")?;
    functions::run(rt)?;
    println!(rt; "# replay")?;
    replay::run(rt)?;
    println!(rt; "# quota")?;
    quota::run(rt)?;
    println!(rt; "# errors")?;
    errors::run(rt)
}
