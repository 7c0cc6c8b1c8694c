//! How evaluations end, and the steps that they are put together from.
#![tactic(auto)]

pub mod entry;
pub mod failure;
pub mod interruption;
pub mod levels;
pub mod outside;
pub mod steps;
