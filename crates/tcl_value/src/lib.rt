//! Values: texts that are kept in the form in which they were made or last read.
#![tactic(auto)]

pub mod dict;
pub mod dict_fault;
mod element;
mod entries;
mod items;
pub mod list;
pub mod list_part;
pub mod value;
pub mod value_laws;
