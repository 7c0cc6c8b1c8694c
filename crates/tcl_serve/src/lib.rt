//! Trees of interpreters, served over lines of JSON on any reader and writer: the protocol, the
//! server, and its client as functions of an embedder, by which a script's call of the client is a
//! line to it.
#![tactic(auto)]

mod acting;
pub mod answers;
pub mod client;
pub mod entering;
mod evaluating;
pub mod fields;
mod hosts;
mod keeping;
pub mod kinds;
pub mod lines;
pub mod messages;
mod numbered;
pub mod open;
pub mod refusals;
mod served;
pub mod serving;
mod session;
pub mod talking;
