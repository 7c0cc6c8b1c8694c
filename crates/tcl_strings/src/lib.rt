//! The command `string`: its subcommands as functions of their words, and all of them by name.
#![tactic(auto)]

pub mod comparing;
pub mod ensemble;
pub mod kinds;
pub mod making;
pub mod options;
pub mod parts;
pub mod searching;
pub mod spans;
pub mod subcommand;
