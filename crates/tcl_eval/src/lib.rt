//! Runs of scripts in a tree of interpreters, with a host.
#![tactic(auto)]

pub mod running;
pub mod waiting;
