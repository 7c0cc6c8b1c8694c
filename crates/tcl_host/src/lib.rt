//! The host of an interpreter of the Tcl command language: the files and channels that its scripts
//! reach.
#![tactic(auto)]

pub mod bytes;
pub mod host;
pub mod laws;
mod lent;
pub mod memory;
pub mod open_mode;
pub mod reply;
pub mod request;
