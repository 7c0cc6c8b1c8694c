//! The recorder of one interpreter's boundary.
#![tactic(auto)]

pub mod crossing;
pub mod laws;
mod passing;
pub mod record;
pub mod recorder;
