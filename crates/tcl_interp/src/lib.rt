//! `interp` and a child's own command, where they evaluate no script, and `rename`.
//!
//! A subcommand that both commands have is one function. It takes the interpreter that it is about
//! as that was named, and the words behind. (interp(n))
#![tactic(auto, using(tcl_run::proofs::Losing::losing))]

pub mod alias;
pub mod creating;
pub mod deleting;
pub mod dispatch;
pub mod existing;
pub mod hidden;
pub mod hiding;
pub mod limits;
pub mod naming;
pub mod questions;
pub mod subcommand;
pub mod subject;
