//! How a script ends: completions with their options, and the rules by which they pass from one
//! evaluation to the next.
#![tactic(auto)]

pub mod completion;
pub mod messages;
pub mod reading;
pub mod returning;
pub mod stop;
