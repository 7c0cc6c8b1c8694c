//! Values, which are texts of at most 16777216 bytes that keep what they were last read as.

/// A value: made by `from_text`, `from_int`, `from_list` and `from_dict`, read by `text`, `as_int`,
/// `as_list` and `as_dict`.
pub use tcl_value::value::Value;
/// Why none is made: memory is wanted, or the text would be too long (122).
pub use tcl_value::value::ValueError;
/// Why one isn't changed: the same, or a fault of the list that it is to be (101 to 104), or a
/// place that it doesn't have (243).
pub use tcl_value::value::ChangeError;
