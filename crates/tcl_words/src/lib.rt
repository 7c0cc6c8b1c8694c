//! The words of commands: what a command answers, how it refuses, and how its words are read.
#![tactic(auto)]

pub mod answer;
pub mod arguments;
pub mod limits;
pub mod reading;
pub mod refusal;
