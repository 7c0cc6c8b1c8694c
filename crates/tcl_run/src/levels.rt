//! The levels that words name.
ghost use Rattle.std.specs.Prelude.{◌≡◌, ◌<◌, ◌^◌, Some};
ghost use Rattle.tcl_language.specs.Variables as variables;
ghost use Rattle.tcl_text.specs.Numbers.{integer_of};

use tcl_text::integer::{Integers, read_int};

/// The greatest level that an integer text names. No memory holds a chain that goes further.
pub const MOST_LEVELS: usize = 9_223_372_036_854_775_807;

/// The level of this number, where there is one.
fn level_numbered(current: usize, number: i64) -> Option<usize>
    ensures { result ≡ variables.level_at current (Some number) }
{
    if number < 0 {
        return None;
    }
    let level = number as usize;
    if level <= current { Some(level) } else { None }
}

/// The level that an integer text names, where there is one.
fn level_at(style: Integers, current: usize, number: &str) -> Option<usize>
    requires { current < 2 ^ 63 }
    ensures { result ≡ variables.level_at current (integer_of style number.now) }
{
    match read_int(number, style) {
        Ok(number) => level_numbered(current, number),
        Err(_) => None,
    }
}

/// The level that a word names, where there is one: `N` is N levels up, `#N` is level N.
pub fn level_of(style: Integers, current: usize, word: &str) -> Option<usize>
    requires { current < 2 ^ 63 }
    ensures { result ≡ variables.level_of style current word.now }
{
    match word.strip_prefix('#') {
        Some(number) => level_at(style, current, number),
        None => {
            let up = level_at(style, current, word)?;
            Some(current - up)
        }
    }
}
