//! The laws of evaluations: with a host, given up on their way, and what a whole one counts. The
//! definitions stand in `specs/`, and each public function is a law.
#![tactic(auto)]

pub mod budgets;
pub mod hosting;
pub mod unfinished;
