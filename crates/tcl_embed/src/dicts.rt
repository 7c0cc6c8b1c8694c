//! Dicts: keys and values in the order in which the keys were first put in.

/// A dict: made by `new` and `from_list`, changed by `set` and `remove`, read by `get`.
pub use tcl_value::dict::Dict;
/// Why a list is no dict: memory is wanted, or a fault.
pub use tcl_value::dict_fault::DictError;
/// What is at fault in it: a fault of the list (101 to 104), or a key without a value (121).
pub use tcl_value::dict_fault::DictFault;
/// Why a dict in a value isn't changed: the same, or it would be too long (122).
pub use tcl_value::dict_fault::EntryError;
