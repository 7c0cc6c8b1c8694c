//! Trees of interpreters with a host in memory, for callers that can't be called back.
//!
//! A call that leaves the tree ends the evaluation, which waits. Once the call is answered, the
//! script is evaluated again from its beginning, with the answers so far; what the host said to
//! requests before is told again and not asked again.
#![tactic(auto)]

pub mod calls;
pub mod evaluation;
pub mod files;
pub mod limits;
pub mod outcome;
pub mod records;
pub mod refusal;
pub mod session;
pub mod standing;
pub mod texts;
pub mod trees;
