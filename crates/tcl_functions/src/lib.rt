//! Functions of an embedder, which scripts call by aliases that lead past the top of their tree.
#![tactic(auto)]

pub mod action;
pub mod aliases;
pub mod call;
pub mod functions;
mod handing;
mod replies;
pub mod serving;
