//! Limits, and what ends an evaluation at one.

/// The most levels of evaluations that a new child may have in one another: 200.
pub use tcl_tree::tree::children::CHILD_DEPTH;
/// The most bytes of a value: 16777216.
pub use tcl_text::limit::MOST_BYTES;
/// The most children of an interpreter: 256.
pub use tcl_tree::tree::children::MOST_CHILDREN;
/// The most evaluations in one another, in any interpreter: 1000.
pub use tcl_tree::tree::limits::MOST_DEPTH;
/// The most counted steps of an interpreter: 9223372036854775807.
pub use tcl_tree::node::MOST_STEPS;
/// An end by a limit: of which kind it is, and how many levels up the interpreter stands whose
/// limit it is.
pub use tcl_flow::stop::Stop;
/// What a limit is set for: `Count`, the counted steps, or `Depth`, the evaluations in one another.
pub use tcl_flow::stop::StopKind;
