//! The isolation of a watched interpreter, told of the record of its boundary.
#![tactic(auto)]

pub mod laws;
