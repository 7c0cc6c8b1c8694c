//! Texts in UTF-8, and how they are read as numbers and truth values.

/// A shared text, as a name is one; a clone shares the bytes.
pub use tcl_text::text::Text;
/// How `010` is read: as Tcl 8 does (8) or as Tcl 9 does (10). A tree has one style.
pub use tcl_text::integer::Integers;
/// What a text is as an integer of 64 bits.
pub use tcl_text::integer::read_int;
/// Why it is none: it doesn't spell one (111), or it takes more than 64 bits (112).
pub use tcl_text::integer::IntegerFault;
/// The decimal digits of an integer.
pub use tcl_text::integer::write_int;
/// What a text is as a truth value: `true`, `yes`, `on` and their opposites, or an integer.
pub use tcl_text::boolean::read_bool;
/// Why it is none (113).
pub use tcl_text::boolean::BooleanFault;
