//! The command `format`.
#![tactic(auto)]

pub mod command;
pub mod pieces;
pub mod refusal;
pub mod specifier;
