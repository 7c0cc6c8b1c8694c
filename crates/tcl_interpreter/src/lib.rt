//! An interpreter by itself: its variables, its commands and limits, and how its commands are
//! named.
#![tactic(auto)]

pub mod alias;
pub mod builtin;
pub mod command;
pub mod comparing;
pub mod copying;
pub mod name;
pub mod naming;
pub mod node;
pub mod parameter;
pub mod procedure;
pub mod refusal;
pub mod steps;
