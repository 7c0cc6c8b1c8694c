//! Interpreters that are saved by themselves.

/// The interpreter at a path by itself, with all below it, as it stands (401, 402, 403).
pub use tcl_replay::saving::save;
/// What `save` gives: `same` compares two, and `replay` plays moves to one.
pub use tcl_replay::saving::Saved;
