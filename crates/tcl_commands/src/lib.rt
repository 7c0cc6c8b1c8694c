//! The commands that run nothing inside, call nobody and count no step, by what each is called:
//! each is a function of its words and of the interpreter where it is called.
#![tactic(auto)]

pub mod answers;
pub mod arrays;
pub mod assigning;
pub mod changes;
pub mod changing;
pub mod definitions;
pub mod derivation;
pub mod dicts;
pub mod ends;
pub mod entries;
pub mod exits;
pub mod growing;
pub mod inspection;
pub mod keeping;
pub mod links;
pub mod lists;
pub mod named;
mod naming;
pub mod plain;
mod procedures;
pub mod steps;
pub mod subcommand;
mod sums;
pub mod texts;
pub mod unsetting;
pub mod variables;
pub mod walks;
