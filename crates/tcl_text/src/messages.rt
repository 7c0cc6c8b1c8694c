//! The texts of errors that more than one crate tells.
ghost use Rattle.std.specs.Prelude.{◌≡◌, ◌++◌, codes, IfOk};

use crate::text::Text;
use std::alloc::{AllocError, Global};

/// A value would have more bytes than a value may have (122).
pub const TOO_LONG: &str = "value longer than 16777216 bytes";

/// There is no room for what is to be made. No script is told of it.
pub const OUT_OF_MEMORY: &str = "out of memory";

/// An integer takes more than 64 bits (112).
pub const TOO_LARGE: &str = "integer value too large to represent";

/// A key has no value (121).
pub const MISSING_VALUE: &str = "missing value to go with key";

/// A number takes more than 64 bits (212).
pub const OVERFLOW: &str = "integer overflow";

/// What stands before a word that is no option (221).
pub const BAD_OPTION: &str = "bad option \"";

/// A list has no such place (243).
pub const OUT_OF_RANGE: &str = "list index out of range";

/// No run ends with such a status (264).
pub const BAD_STATUS: &str = "exit status must be between 0 and 255";

/// What stands behind a name that is taken (236, 302).
pub const ALREADY_EXISTS: &str = " already exists";

/// An interpreter may not do this (304).
pub const DENIED: &str = "permission denied";

/// An interpreter has as many children as it may have (307).
pub const TOO_MANY: &str = "too many interpreters";

/// A step would pass the limit of commands (308).
pub const COUNT_LIMIT: &str = "command count limit exceeded";

/// An evaluation would pass the limit of depth (308).
pub const DEPTH_LIMIT: &str = "too many nested evaluations (infinite loop?)";

/// No limit of depth may be this (309).
pub const BAD_DEPTH_LIMIT: &str = "recursion limit must be between 1 and 1000";

/// The steps of a run and those before it would pass 9223372036854775807 together (404).
pub const COUNT_TOO_LARGE: &str = "the count of steps would pass its limit";

/// Memory ran out in an evaluation (401).
pub const BREAKS_TREE: &str = "out of memory, and the tree is broken";

/// Memory ran out in an earlier evaluation (402).
pub const TREE_BROKEN: &str = "the tree is broken";

/// A path leads to no interpreter (403).
pub const NO_INTERPRETER: &str = "no interpreter stands at the path";

/// The watched interpreter was deleted (411).
pub const WATCHED_DELETED: &str = "the watched interpreter was deleted";

/// What a replay came to waits for an answer (412).
pub const WAITS: &str = "it waits for an answer";

/// A call is open, and the tree isn't at rest (424, 510).
pub const CALL_OPEN: &str = "a call is open";

/// What stands before the name of a channel that there isn't (261).
pub const NO_CHANNEL: &str = "can not find channel named \"";

/// What stands before the name of what a device refused (262).
pub const DEVICE_FAULT: &str = "device fault on \"";

/// A front, a text and a quotation mark.
///
/// # Errors
/// Want of memory.
pub fn quoting(alloc: Global, front: &str, text: &str) -> Result<Text, AllocError>
    ensures { IfOk result (λ made. made ≡ front.now ++ text.now ++ codes "\"") }
{
    let mut made = String::from_str(alloc, front)?;
    made.push_str(text)?;
    made.push_str("\"")?;
    Text::from_string(alloc, made)
}
