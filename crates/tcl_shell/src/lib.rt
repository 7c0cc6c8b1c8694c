//! The program `tclsafe`, as a function of its words over a host.
#![tactic(auto)]

mod begun;
mod ending;
mod evaluating;
mod options;
mod program;
mod script;
mod telling;

pub use program::run_args;
pub use telling::MEMORY_LINE;
