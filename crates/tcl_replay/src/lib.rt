//! Watched evaluations, and interpreters that are saved by themselves and played to.
#![tactic(auto)]

pub mod laws;
pub mod open_watching;
pub mod replaying;
pub mod saving;
pub mod watching;
