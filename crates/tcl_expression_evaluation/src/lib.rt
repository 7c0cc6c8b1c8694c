//! Expressions that are kept, evaluated step by step, and their operators and functions on values.
//! Those of numbers that are at hand are computed without a general evaluation.
#![tactic(auto)]

pub mod apply;
pub mod at_hand;
pub mod evaluation;
pub mod fault;
pub mod kind;
pub mod laws;
pub mod number_laws;
pub mod operator_laws;
pub mod result;
