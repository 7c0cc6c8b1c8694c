//! The texts of the Tcl command language: shared texts, and lists, numbers, truth values and
//! indexes written in texts.
#![tactic(auto)]

pub mod backslash;
pub mod boolean;
mod characters;
pub mod index;
pub mod integer;
pub mod limit;
pub mod list;
pub mod list_comparing;
pub mod list_writing;
pub mod measured;
pub mod messages;
pub mod text;
