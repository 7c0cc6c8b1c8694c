//! The evaluation of scripts over a tree of interpreters.
#![tactic(auto)]

mod at_hand;
mod behind;
pub mod calls;
mod changes;
mod children;
mod collecting;
mod commands;
mod control;
pub mod crossing;
mod derivations;
mod entry_changes;
pub mod evaluation;
mod expressions;
pub mod hands;
mod hosting;
mod interpreters;
mod keeping;
mod list_parts;
mod loops;
mod operands;
mod sourcing;
pub mod sums;
mod switching;
mod trying;
pub mod waiting;
mod words;
