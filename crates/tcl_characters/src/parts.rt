//! Parts of texts.
ghost use Rattle.std.specs.Prelude.{◌≡◌, length, take, drop};
ghost use Rattle.std.specs.Str.{chars};
ghost use Rattle.tcl_characters.specs.Texts.{text_of};

use crate::starts::{first_characters, skip_characters, starts_in};
use tcl_text::text::Text;

/// How many characters a text has.
pub fn character_count(text: &str) -> usize
    ensures { result ≡ length (chars text.now) }
{
    starts_in(text.as_bytes())
}

/// The same of a shared text. Those of a long one that is ASCII aren't counted.
pub fn characters_of(text: &Text) -> usize
    ensures { result ≡ length (chars text.now) }
{
    match text.known_count() {
        Some(count) => count,
        None => character_count(text.as_str()),
    }
}

/// The first characters of a text, as many as are asked for or all.
pub fn before(text: &str, end: usize) -> &str
    ensures { result.now ≡ text_of (take end (chars text.now)) }
{
    first_characters(text, end)
}

/// The characters from a place on.
pub fn from(text: &str, start: usize) -> &str
    ensures { result.now ≡ text_of (drop start (chars text.now)) }
{
    skip_characters(text, start)
}

/// The characters from the place `start` on that stand before the place `end`.
pub fn between(text: &str, start: usize, end: usize) -> &str
    ensures { result.now ≡ text_of (drop start (take end (chars text.now))) }
{
    skip_characters(first_characters(text, end), start)
}
