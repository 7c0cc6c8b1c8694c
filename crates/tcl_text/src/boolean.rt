//! Boolean texts.
ghost use Rattle.std.specs.Prelude.{◌≡◌, ◌∷◌, [], ◌++◌, codes, IfOk, ok_or};
ghost use Rattle.tcl_text.specs.Booleans.{abbreviates, fitting, word_truth, boolean_of};

use crate::integer::{Integers, read_int};
use crate::messages::quoting;
use crate::text::Text;
use std::alloc::{AllocError, Global};
use std::cmp::{Eq, PartialEq};
use thiserror::Error;

/// Why a text has no truth value.
#[derive(Clone, Copy, Debug, Eq, Error, PartialEq)]
pub enum BooleanFault {
    /// It is no boolean text (113).
    #[error("113: expected boolean value")]
    NotBoolean,
}

/// The truth value of a text: `true`, `false`, `yes`, `no`, `on` or `off` in any ASCII case, an
/// abbreviation that fits one of them only, or an integer text inside 64 bits, 0 being false.
///
/// # Errors
/// `NotBoolean` for any other text.
pub fn read_bool(text: &str, style: Integers) -> Result<bool, BooleanFault>
    ensures { result ≡ ok_or (boolean_of style text.now) BooleanFault.NotBoolean }
{
    if let Some(truth) = word_truth(text.as_bytes()) {
        return Ok(truth);
    }
    match read_int(text, style) {
        Ok(number) => Ok(number != 0),
        Err(_) => Err(BooleanFault::NotBoolean),
    }
}

/// The truth value of a text that abbreviates one word only.
fn word_truth(text: &[u8]) -> Option<bool>
    ensures { result ≡ word_truth text.now }
{
    match (
        fitting(text, b"true", b"yes", b"on"),
        fitting(text, b"false", b"no", b"off"),
    ) {
        (1, 0) => Some(true),
        (0, 1) => Some(false),
        _ => None,
    }
}

/// How many of three words the text abbreviates.
fn fitting(text: &[u8], one: &[u8], two: &[u8], three: &[u8]) -> u8
    ensures { result ≡ fitting text.now (one.now ∷ two.now ∷ three.now ∷ []) }
{
    u8::from(abbreviates(text, one))
        + u8::from(abbreviates(text, two))
        + u8::from(abbreviates(text, three))
}

/// Whether a word begins with the text, whose ASCII letters may be of either case.
fn abbreviates(text: &[u8], word: &[u8]) -> bool
    ensures { result ≡ abbreviates text.now word.now }
{
    if word.len() < text.len() {
        return false;
    }
    'bytes: for (i, byte) in text.iter().enumerate() {
        if byte.to_ascii_lowercase() != word[i] {
            return false;
        }
    }
    true
}

/// What is told of a text that is no boolean (113).
///
/// # Errors
/// Want of memory.
pub fn not_boolean_message(alloc: Global, text: &str) -> Result<Text, AllocError>
    ensures { IfOk result (λ made. made
        ≡ codes "expected boolean value but got \"" ++ text.now ++ codes "\"") }
{
    quoting(alloc, "expected boolean value but got \"", text)
}
