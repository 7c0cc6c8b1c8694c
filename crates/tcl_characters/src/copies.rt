//! Texts made of the characters of others.
ghost use Rattle.std.specs.Prelude.{◌≡◌, ◌*◌, ◌<◌, ◌^◌, length, IfOk, map, reverse};
ghost use Rattle.std.specs.Char.{to_ascii_lowercase, to_ascii_uppercase};
ghost use Rattle.std.specs.Str.{chars};
ghost use Rattle.std.specs.String.{string_bytes};
ghost use Rattle.tcl_characters.specs.Texts.{text_of, copies};

use std::alloc::{AllocError, Global};

/// A text, so many times.
///
/// # Errors
/// Want of memory.
pub fn repeat(alloc: Global, text: &str, count: usize) -> Result<String, AllocError>
    requires { count * length text.now < 2 ^ 64 }
    ensures { IfOk result (λ made. string_bytes made ≡ copies count text.now) }
{
    let mut made = String::with_capacity(alloc, count * text.len())?;
    'copies: for _ in 0..count {
        made.push_str(text)?;
    }
    Ok(made)
}

/// The characters of a text from the last to the first.
///
/// # Errors
/// Want of memory.
#[tactic(auto, using(crate::proofs::LetterSteps::reversed_from_encodes))]
pub fn reverse(alloc: Global, text: &str) -> Result<String, AllocError>
    ensures { IfOk result (λ made. string_bytes made ≡ text_of (reverse (chars text.now))) }
{
    text.chars().rev().collect(alloc)
}

/// A text with its ASCII letters in lower case.
///
/// # Errors
/// Want of memory.
pub fn to_lower(alloc: Global, text: &str) -> Result<String, AllocError>
    ensures { IfOk result (λ made. string_bytes made
        ≡ text_of (map to_ascii_lowercase (chars text.now))) }
{
    text.chars().map(|c| c.to_ascii_lowercase()).collect(alloc)
}

/// A text with its ASCII letters in upper case.
///
/// # Errors
/// Want of memory.
pub fn to_upper(alloc: Global, text: &str) -> Result<String, AllocError>
    ensures { IfOk result (λ made. string_bytes made
        ≡ text_of (map to_ascii_uppercase (chars text.now))) }
{
    text.chars().map(|c| c.to_ascii_uppercase()).collect(alloc)
}
