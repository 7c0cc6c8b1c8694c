//! Comparing texts with what is written, without writing it.
ghost use Rattle.std.specs.Prelude.{◌≡◌, ◌≢◌, ℕ, List, ◌++◌, ◌∷◌, [], ◌↔◌, IsTrue, MatchOption};
ghost use Rattle.std.specs.List.{flat_map};
ghost use Rattle.std.specs.Fmt.{signed_decimal};
ghost use Rattle.tcl_text.specs.Writing.{escaped_byte, hash_mark, written};

use crate::list_writing::{Form, form_of, is_comment, is_special, letter_of};
use itoa::Buffer;

/// Whether a text is an element as it is written in a list, where `first` says whether it is the
/// list's first. This takes no memory.
pub fn is_written(text: &[u8], element: &str, first: bool) -> bool
    ensures { IsTrue result ↔ (text.now ≡ written first element.now) }
{
    match form_of(element, first) {
        Form::Plain => text == element.as_bytes(),
        Form::Braced => is_braced(text, element.as_bytes()),
        Form::Escaped => match behind_hash_mark(text, is_comment(element, first)) {
            Some(rest) => is_escaped(rest, element.as_bytes()),
            None => false,
        },
    }
}

/// Whether a text is an integer as it is written. This takes no memory.
pub fn is_int(text: &[u8], number: i64) -> bool
    ensures { IsTrue result ↔ (text.now ≡ signed_decimal number) }
{
    text == Buffer::new().format(number).as_bytes()
}

/// Whether a text is another in braces.
fn is_braced(text: &[u8], inside: &[u8]) -> bool
    ensures { IsTrue result ↔ (text.now ≡ 123 ∷ (inside.now ++ 125 ∷ [])) }
{
    match text {
        [b'{', rest @ ..] => is_closed(rest, inside),
        _ => false,
    }
}

/// Whether a text is another with a close brace behind it.
fn is_closed(text: &[u8], inside: &[u8]) -> bool
    ensures { IsTrue result ↔ (text.now ≡ inside.now ++ 125 ∷ []) }
{
    match text {
        [front @ .., last] => *last == b'}' && front == inside,
        [] => false,
    }
}

/// What stands behind the backslash of a first element that begins with `#`.
fn behind_hash_mark(text: &[u8], comment: bool) -> Option<&[u8]>
    ensures { MatchOption result ((rest : List ℕ) → text.now ≢ hash_mark comment ++ rest)
        (λ rest. text.now ≡ hash_mark comment ++ rest.now) }
{
    if !comment {
        return Some(text);
    }
    match text {
        [b'\\', rest @ ..] => Some(rest),
        _ => None,
    }
}

/// What stands behind a byte that is written with a backslash where it is special.
fn behind_byte(text: &[u8], byte: u8) -> Option<&[u8]>
    ensures { MatchOption result ((rest : List ℕ) → text.now ≢ escaped_byte byte ++ rest)
        (λ rest. text.now ≡ escaped_byte byte ++ rest.now) }
{
    if !is_special(byte) {
        return match text {
            [first, rest @ ..] if *first == byte => Some(rest),
            _ => None,
        };
    }
    match text {
        [b'\\', letter, rest @ ..] if char::from(*letter) == letter_of(char::from(byte)) => Some(
            rest,
        ),
        _ => None,
    }
}

/// Whether a text is another with a backslash before each special character.
fn is_escaped(text: &[u8], element: &[u8]) -> bool
    ensures { IsTrue result ↔ (text.now ≡ flat_map escaped_byte element.now) }
{
    let mut rest = text;
    'bytes: for byte in element {
        match behind_byte(rest, *byte) {
            Some(behind) => rest = behind,
            None => return false,
        }
    }
    rest.is_empty()
}
