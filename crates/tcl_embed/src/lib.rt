//! The one crate of an embedder: trees of interpreters, evaluation, hosts, functions of one's own,
//! watching, saving and replaying.
//!
//! Each module has one subject: the types and calls of the crates below that belong to it, under
//! the names that they have there, with a line on each. What nearly every program names stands
//! here, too. A program makes a tree, and evaluates scripts in it:
//!
//! ```text
//! let mut tree = Tree::new(alloc)?;
//! let mut host = MemoryHost::new(alloc)?;
//! let guest = Path::parse(alloc, "guest")?;
//! let run = eval(&mut tree, alloc, &mut host, guest.names(), "set a 1", 1_000);
//! ```
//!
//! Whatever allocates is passed the allocator and can answer that memory is wanted. Every error is
//! printed by `{}` with its number, as docs/REFUSALS.md has it.
#![tactic(auto)]

pub mod dicts;
pub mod errors;
pub mod evaluation;
pub mod functions;
pub mod hosts;
pub mod limits;
pub mod lists;
pub mod moves;
pub mod paths;
pub mod replays;
pub mod saving;
pub mod texts;
pub mod trees;
pub mod values;
pub mod watching;

pub use errors::EmbedError;
pub use evaluation::{End, OpenEnd, Refused, eval, open_run, open_run_text, run_text};
pub use hosts::{Host, MemoryHost};
pub use paths::Path;
pub use texts::Text;
pub use trees::Tree;
pub use values::Value;
