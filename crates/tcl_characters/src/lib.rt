//! Texts by their characters: their parts, places, order, case and maps, as the string commands of
//! the Tcl command language have them below their words.
#![tactic(auto)]

pub mod classes;
pub mod copies;
pub mod letters;
pub mod limit;
pub mod mapping;
pub mod order;
pub mod parts;
pub mod places;
pub mod starts;
pub mod trimming;
