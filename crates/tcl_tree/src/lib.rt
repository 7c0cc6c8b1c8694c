//! The interpreters of a tree, in one table: their frames, commands and limits, and what texts were
//! read as, kept so that a text that is evaluated again isn't read again.
#![tactic(auto)]

pub mod laws;
pub mod readings;
pub mod tree;

pub use tcl_interpreter::{alias, builtin, command, node, parameter, procedure, refusal};
