//! Reading scripts of the Tcl command language: their commands, words and parts, and the fault that
//! ends them.
#![tactic(auto)]

pub mod fault;
pub mod laws;
pub mod reader;
pub mod scan;
pub mod script;
pub mod skip;
