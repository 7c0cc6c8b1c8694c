//! Scripts that words are put together to.
ghost use Rattle.std.specs.Prelude.{◌≡◌, ◌<◌, ◌∷◌, [], true, false, IfOk, IfErr, IfSome, IsTrue};
ghost use Rattle.std.specs.Str.{chars};
ghost use Rattle.tcl_characters.specs.Texts.{is_among};
ghost use Rattle.tcl_core.specs.Endings.Reply.{Completed};
ghost use Rattle.tcl_language.specs.Instructions.{too_long as too_long_error, fits};
ghost use Rattle.tcl_language.specs.Words.{concat as concatenated};
ghost use Rattle.tcl_lists.specs.Joining.{trimmed, white};
ghost use Rattle.tcl_run.specs.Ends.{Interrupts};

use std::alloc::{AllocError, Global};
use tcl_lists::joining::concat;
use tcl_run::failure::refused;
use tcl_run::interruption::Interruption;
use tcl_text::limit::MOST_BYTES;
use tcl_value::value::Value;

/// Hands the place on that a value's text keeps: a hint, see [`Value::place`].
pub fn hand_place(from: &Value, to: &Value) {
    if let Some(place) = from.place() {
        to.keep_place(place);
    }
}

/// Whether a character comes behind the space, and so is none of the white space that `concat`
/// trims, which is ASCII alone.
fn is_past_white(letter: char) -> bool
    ensures { IsTrue result → is_among (chars white) letter ≡ false }
{
    letter > ' '
}

/// Whether a byte is ASCII and comes behind the space.
fn is_plain_byte(byte: u8) -> bool
    ensures ascii { IsTrue result → byte < 128 }
    ensures kept { IsTrue result → is_among (chars white) byte ≡ false }
{
    byte > b' ' && byte < 0x7f
}

/// Whether a text begins and ends with such bytes, as most do: the same as [`has_full_ends`], and
/// no character is read.
#[inline(always)]
fn has_plain_ends(text: &str) -> bool
    ensures { IsTrue result → trimmed text.now ≡ text.now }
{
    let bytes = text.as_bytes();
    if bytes.is_empty() {
        return false;
    }
    let first = bytes[0];
    let last = bytes[bytes.len() - 1];
    is_plain_byte(first) && is_plain_byte(last)
}

/// Whether a text begins and ends with characters that `concat` trims off none of.
#[inline(never)]
fn has_full_ends(text: &str) -> bool
    ensures { IsTrue result → trimmed text.now ≡ text.now }
{
    let mut letters = text.chars();
    let Some(first) = letters.next() else {
        return false;
    };
    let mut letters = text.chars();
    let Some(last) = letters.next_back() else {
        return false;
    };
    let _front = letters.as_str();
    is_past_white(first) && is_past_white(last)
}

/// Whether `concat` trims nothing off a text, told by its ends.
#[inline(always)]
fn ends_fully(text: &str) -> bool
    ensures { IsTrue result → trimmed text.now ≡ text.now }
{
    has_plain_ends(text) || has_full_ends(text)
}

/// Whether a single word is put together to itself, told at a glance.
#[inline(always)]
pub(crate) fn is_full_word(word: &Value) -> bool
    ensures { IsTrue result → (concatenated (word.now ∷ []) ≡ word.now) ×
        (fits (concatenated (word.now ∷ [])) ≡ true) }
{
    match word.as_text() {
        Some(text) => text.len() <= MOST_BYTES && ends_fully(text.as_str()),
        None => false,
    }
}

/// What a single word is put together to, where it is the word itself at a glance.
fn full_word(alloc: Global, word: &Value) -> Result<Option<Value>, AllocError>
    ensures { IfOk result (λ found. IfSome found (λ script.
        (script ≡ concatenated (word.now ∷ [])) ×
        (fits (concatenated (word.now ∷ [])) ≡ true))) }
{
    let text = word.text(alloc)?;
    if text.len() > MOST_BYTES || !ends_fully(text.as_str()) {
        return Ok(None);
    }
    Ok(Some(Value::from_short_text(text)))
}

/// The script that words are put together to, as `concat` puts them: trimmed of white space, with a
/// space between any two. (concat(n)) It keeps the place that the first word keeps.
///
/// # Errors
/// That it is too long for a value; want of memory.
pub fn script_of(alloc: Global, words: &[Value]) -> Result<Value, Interruption>
    ensures whole { IfOk result
        (λ text. (text ≡ concatenated words.now) × (fits (concatenated words.now) ≡ true)) }
    ensures refused { IfErr result
        (λ i. Interrupts i (λ e. (fits (concatenated words.now) ≡ false) ×
        (e ≡ Completed too_long_error))) }
{
    if let [word] = words {
        if let Some(script) = full_word(alloc, word)? {
            return Ok(script);
        }
    }
    match concat(alloc, words) {
        Ok(script) => {
            if let [first, ..] = words {
                hand_place(first, &script);
            }
            Ok(script)
        }
        Err(refusal) => Err(refused(alloc, refusal)),
    }
}
