//! Lists.

/// The list that a text spells, or its fault (101 to 104).
pub use tcl_text::list::read_list;
/// The text of a list of texts, which `read_list` reads as that list.
pub use tcl_text::list::write_list;
/// Why no list was read: memory is wanted, or a fault.
pub use tcl_text::list::ListError;
/// What is at fault in a text that spells no list (101 to 104).
pub use tcl_text::list::ListFault;
/// A list of values.
pub use tcl_value::list::List;
