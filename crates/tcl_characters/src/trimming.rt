//! Texts without characters at their ends.
ghost use Rattle.std.specs.Prelude.{◌≡◌};
ghost use Rattle.std.specs.Str.{chars};
ghost use Rattle.tcl_characters.specs.Texts.{text_of, is_among, trim_start, trim_end};

/// White space and U+0000, which are trimmed where no other characters are named.
pub const WHITE: &str = " \t\n\u{b}\u{c}\r\0";

/// Whether a character is one of a set.
fn is_among(set: &str, letter: char) -> bool
    ensures { result ≡ is_among (chars set.now) letter }
{
    set.chars().any(|c| c == letter)
}

/// A text without the characters of a set that stand first in it.
pub fn trim_left<'a>(text: &'a str, set: &str) -> &'a str
    ensures { result.now ≡ text_of (trim_start (chars set.now) (chars text.now)) }
{
    let mut rest = text;
    'letters: loop {
        let mut characters = rest.chars();
        let Some(first) = characters.next() else {
            return rest;
        };
        if !is_among(set, first) {
            return rest;
        }
        rest = characters.as_str();
    }
}

/// A text without the characters of a set that stand last in it.
pub fn trim_right<'a>(text: &'a str, set: &str) -> &'a str
    ensures { result.now ≡ text_of (trim_end (chars set.now) (chars text.now)) }
{
    let mut rest = text;
    'letters: loop {
        let mut characters = rest.chars();
        let Some(last) = characters.next_back() else {
            return rest;
        };
        let front = characters.as_str();
        if !is_among(set, last) {
            return rest;
        }
        rest = front;
    }
}
