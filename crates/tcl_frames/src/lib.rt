//! The variables of an interpreter: a chain of frames, whose names hold values, arrays or links.
#![tactic(auto)]

pub mod access;
mod arrays;
pub mod comparing;
pub mod fault;
mod few_names;
pub mod frame;
pub mod frames;
mod keys;
mod links;
mod many_names;
pub mod name;
pub mod name_map;
mod names;
pub mod scope;
mod steps;
pub mod variable;
pub mod variable_name;
