//! The bytes at which the characters of a text begin.
//!
//! A byte begins a character unless it continues one, so characters are counted, and their places
//! found, by single bytes: a block at a time, with no step for each character.
ghost use Rattle.std.specs.Prelude.{◌≡◌, ◌≤◌, ℕ, List, ◌++◌, length, take, drop, count_by};
ghost use Rattle.std.specs.Str.{chars, IsCharBoundary};
ghost use Rattle.tcl_characters.specs.Starts.{begins_character};

/// How many bytes are counted at once: so few that a byte holds their count.
const BLOCK: usize = 64;

/// Whether a byte of a text is the first of a character.
fn begins_character(byte: u8) -> bool
    ensures { result ≡ begins_character byte }
{
    byte < 0x80 || byte >= 0xC0
}

/// How many characters begin in a few bytes.
fn starts_in_block(block: &[u8]) -> u8
    requires { length block.now ≤ 255 }
    ensures { result ≡ count_by begins_character block.now }
{
    let mut count: u8 = 0;
    'bytes: for byte in block {
        if begins_character(*byte) {
            count += 1;
        }
    }
    count
}

/// How many characters begin in these bytes.
pub(crate) fn starts_in(bytes: &[u8]) -> usize
    ensures { result ≡ count_by begins_character bytes.now }
{
    let mut count: usize = 0;
    let mut at: usize = 0;
    'whole: while bytes.len() - at >= BLOCK {
        count += usize::from(starts_in_block(&bytes[at..at + BLOCK]));
        at += BLOCK;
    }
    count + usize::from(starts_in_block(&bytes[at..]))
}

/// The byte at which the character begins that `count` characters stand before, or the text's end.
fn start_behind(text: &str, count: usize) -> usize
    ensures cut { IsCharBoundary text.now result }
    ensures front { chars (take result text.now) ≡ take count (chars text.now) }
    ensures rest { chars (drop result text.now) ≡ drop count (chars text.now) }
{
    let bytes = text.as_bytes();
    let mut left = count;
    let mut at: usize = 0;
    'whole: while left >= BLOCK && bytes.len() - at >= BLOCK {
        left -= usize::from(starts_in_block(&bytes[at..at + BLOCK]));
        at += BLOCK;
    }
    'bytes: while at < bytes.len() {
        if begins_character(bytes[at]) {
            if left == 0 {
                return at;
            }
            left -= 1;
        }
        at += 1;
    }
    at
}

/// What follows the first `count` characters.
pub fn skip_characters(text: &str, count: usize) -> &str
    ensures rest { chars result.now ≡ drop count (chars text.now) }
    ensures cut { (front : List ℕ) × (text.now ≡ front ++ result.now) ×
        (chars front ≡ take count (chars text.now)) }
{
    let start = start_behind(text, count);
    &text[start..]
}

/// The first `count` characters, or all where there are fewer.
pub fn first_characters(text: &str, count: usize) -> &str
    ensures { chars result.now ≡ take count (chars text.now) }
{
    let end = start_behind(text, count);
    &text[..end]
}
