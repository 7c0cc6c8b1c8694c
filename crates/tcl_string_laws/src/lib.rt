//! What the definitions of strings come to, as laws.
#![tactic(auto)]

pub mod laws;
