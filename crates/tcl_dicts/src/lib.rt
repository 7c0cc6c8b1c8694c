//! The subcommands of `dict` as functions of their words.
#![tactic(auto)]

pub mod building;
pub mod changing;
pub mod finding;
pub mod listing;
pub mod reading;
mod values;
