//! Entries of evaluations that wait for what their outside says, for those who play moves.
pub use tcl_evaluation::waiting::{enter, miss_entry};
