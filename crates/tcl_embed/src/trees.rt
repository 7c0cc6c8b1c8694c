//! Trees of interpreters, and what is done to them without a script.

/// A tree of interpreters, reached by their paths (see `paths`). `new` makes a root alone.
///
/// - Children: `create` and `delete`; `children`, `is_safe`.
/// - Commands: `set_alias_between`, `set_alias`, `clear_alias`, `set_proc`, `rename`, `hide` and
///   `expose`; `command`.
/// - Limits: `set_limit` and `set_depth_limit`; `limit`, `count`.
/// - Copies: `copy_at`, and `same`, which compares two trees.
pub use tcl_tree::tree::Tree;
/// Why a call on it did nothing (238, 245, 301 to 309). `text` is what a script is told.
pub use tcl_tree::refusal::TreeError;
/// An alias: so many levels up and these names down, and the words that stand before the call's.
pub use tcl_tree::alias::Alias;
/// A procedure.
pub use tcl_tree::procedure::Procedure;
/// A parameter of a procedure, and its default.
pub use tcl_tree::parameter::Parameter;
/// What the name of a command stands for.
pub use tcl_tree::command::Command;
/// An interpreter without its path, as an outside is told of it.
pub use tcl_tree::tree::Place;
