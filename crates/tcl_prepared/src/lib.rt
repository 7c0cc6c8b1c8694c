//! Scripts that are ready to be evaluated: what a text was read as, with its literals as values and
//! the scripts in brackets read along with it.
#![tactic(auto)]

pub mod kinds;
mod lists;
pub mod operand;
mod pieces;
pub mod prepared;
pub mod preparing;
