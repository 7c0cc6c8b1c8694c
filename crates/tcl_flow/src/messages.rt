//! The texts of this crate's errors.
ghost use Rattle.std.specs.Prelude.{◌≡◌, ◌++◌, ◌≤◌, IfOk, codes, length};
ghost use Rattle.std.specs.Fmt.{signed_decimal};
ghost use Rattle.std.specs.String.{string_bytes};

use std::alloc::{AllocError, Global};
use tcl_text::text::Text;
use tcl_value::value::Value;

/// An interpreter was deleted while an evaluation was in progress in it (310).
pub const DELETED: &str = "interpreter was deleted";

/// The value of a text of few bytes.
pub(crate) fn short_value(alloc: Global, text: String) -> Result<Value, AllocError>
    requires { length (string_bytes text) ≤ 100 }
    ensures { IfOk result (λ value. value ≡ string_bytes text) }
{
    Ok(Value::from_short_text(Text::from_string(alloc, text)?))
}

/// `invoked "break" outside of a loop`
///
/// # Errors
/// Want of memory.
pub fn break_outside(alloc: Global) -> Result<Value, AllocError>
    ensures { IfOk result (λ value. value ≡ codes "invoked \"break\" outside of a loop") }
{
    short_value(
        alloc,
        String::from_str(alloc, "invoked \"break\" outside of a loop")?,
    )
}

/// `invoked "continue" outside of a loop`
///
/// # Errors
/// Want of memory.
pub fn continue_outside(alloc: Global) -> Result<Value, AllocError>
    ensures { IfOk result (λ value. value ≡ codes "invoked \"continue\" outside of a loop") }
{
    short_value(
        alloc,
        String::from_str(alloc, "invoked \"continue\" outside of a loop")?,
    )
}

/// `command returned bad code: 7`
///
/// # Errors
/// Want of memory.
pub fn bad_code(alloc: Global, code: i64) -> Result<Value, AllocError>
    ensures { IfOk result (λ value. value
        ≡ codes "command returned bad code: " ++ signed_decimal code) }
{
    let mut text = String::from_str(alloc, "command returned bad code: ")?;
    write!(text, "{code}")?;
    short_value(alloc, text)
}
