//! Lists: the list commands as functions of their words, searching and sorting, texts split and
//! joined, and changes inside nested lists and dicts.
#![tactic(auto)]

pub mod building;
pub mod changing;
pub mod commands;
pub mod fault;
pub mod indexes;
pub mod joining;
pub mod laws;
pub mod lengthening;
pub mod nested;
pub mod numbers;
pub mod ordering;
pub mod places;
pub mod reading;
pub mod refusing;
pub mod rows;
pub mod search_options;
pub mod searching;
pub mod sort_options;
pub mod sorting;
pub mod splitting;
mod step;
