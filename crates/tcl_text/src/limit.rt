//! How long a value may be.

/// The most bytes of UTF-8 that a value may have.
pub const MOST_BYTES: usize = 16_777_216;
