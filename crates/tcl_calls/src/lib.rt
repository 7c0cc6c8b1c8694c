//! What calls of commands are put together from: the words of a command, the command that its first
//! word names, the frame of a procedure, and what interpreters ask of one another that evaluates
//! nothing.
#![tactic(auto)]

pub mod asking;
pub mod branches;
pub mod carrying;
pub mod catching;
pub mod collecting;
pub mod expressions;
pub mod failure;
pub mod files;
pub mod host_calls;
pub mod levels;
pub mod looking;
pub mod lookup;
pub mod naming;
pub mod procedures;
pub mod questions;
pub mod replies;
pub mod requests;
pub mod scripts;
pub mod serving;
pub mod setting;
pub mod switching;
pub mod trying;
pub mod turns;
pub mod walks;
pub mod words;
