//! What a specifier makes of a value.
ghost use Rattle.std.specs.Prelude.{◌≡◌, ◌<◌, ◌≤◌, ◌++◌, ◌∷◌, length, IfOk, OnOk, [], unsigned_abs};
ghost use Rattle.std.specs.Prelude.{false};
ghost use Rattle.std.specs.Char.{encode_utf8};
ghost use Rattle.std.specs.Fmt.{decimal};
ghost use Rattle.std.specs.Str.{chars};
ghost use Rattle.std.specs.String.{string_bytes};
ghost use Rattle.tcl_words.specs.Outcomes.{Gives, next};
ghost use Rattle.tcl_words.specs.Limits.{limited};
ghost use Rattle.tcl_words.specs.Words.{integer_word};
ghost use Rattle.tcl_format.specs.Specifiers.{shown};
ghost use Rattle.tcl_characters.specs.Texts.{copies};
ghost use Rattle.tcl_format.specs.Pieces.{padded, numbered, sign_of, pattern, digits_in, scalar_of};
ghost use Rattle.tcl_format.specs.Pieces.{cut, piece, room};
ghost use Rattle.tcl_format.specs.Layouts.{aligned, laid_out, zeros_before};

use crate::refusal::bad_format;
use crate::specifier::{Kind, Radix, Specifier};
use arrayvec::ArrayString;
use itoa::Buffer;
use std::alloc::Global;
use std::fmt;
use std::fmt::Write;
use tcl_characters::parts::{before, character_count};
use tcl_text::integer::Integers;
use tcl_text::limit::MOST_BYTES;
use tcl_value::value::Value;
use tcl_words::reading::integer_word;
use tcl_words::refusal::{Refusal, too_long};

/// Adds to the end of a text. It is inlined, so that an empty sign costs nothing.
///
/// # Errors
/// 122 where it would be longer than [`MOST_BYTES`]; want of memory.
#[inline(always)]
pub(crate) fn add(alloc: Global, made: &mut String, more: &str) -> Result<(), Refusal>
    requires { length (string_bytes made.old) ≤ 16777216 }
    ensures added { Gives
        (λ _. string_bytes made.new) result (limited (string_bytes made.old ++ more.now)) }
    ensures within { OnOk result (length (string_bytes made.new) ≤ 16777216) }
{
    if more.is_empty() {
        return Ok(());
    }
    if more.len() > MOST_BYTES - made.len() {
        return Err(too_long(alloc));
    }
    made.push_str(more)?;
    Ok(())
}

/// Adds a character to the end of a text.
///
/// # Errors
/// 122 where it would be longer than [`MOST_BYTES`]; want of memory.
pub(crate) fn add_letter(alloc: Global, made: &mut String, letter: char) -> Result<(), Refusal>
    requires { length (string_bytes made.old) ≤ 16777216 }
    ensures added { Gives
        (λ _. string_bytes made.new) result
        (limited (string_bytes made.old ++ encode_utf8 letter)) }
    ensures within { OnOk result (length (string_bytes made.new) ≤ 16777216) }
{
    if letter.len_utf8() > MOST_BYTES - made.len() {
        return Err(too_long(alloc));
    }
    made.push(letter)?;
    Ok(())
}

/// Adds a blank or a zero so many times.
///
/// # Errors
/// 122 where the text would be longer than [`MOST_BYTES`]; want of memory.
#[tactic(auto, using(crate::proofs::Layouts::copies_size))]
fn add_copies(alloc: Global, made: &mut String, letter: char, count: usize) -> Result<(), Refusal>
    requires within { length (string_bytes made.old) ≤ 16777216 }
    requires ascii { letter < 128 }
    ensures added { Gives
        (λ _. string_bytes made.new) result
        (limited (string_bytes made.old ++ copies count (letter ∷ []))) }
    ensures within { OnOk result (length (string_bytes made.new) ≤ 16777216) }
{
    if count > MOST_BYTES - made.len() {
        return Err(too_long(alloc));
    }
    'copies: for _ in 0..count {
        made.push(letter)?;
    }
    Ok(())
}

/// How many blanks and zeros stand around a sign and a body.
#[derive(Clone, Copy)]
struct Layout {
    /// Blanks before both.
    before: usize,
    /// Zeros between them.
    zeros: usize,
    /// Blanks behind both.
    behind: usize,
}

impl Layout {
    /// So many zeros, and so many blanks on the side that the flag `-` chooses.
    fn aligned(left: bool, blanks: usize, zeros: usize) -> Layout
        ensures { result ≡ aligned left blanks zeros }
    {
        if left {
            Layout {
                before: 0,
                zeros,
                behind: blanks,
            }
        } else {
            Layout {
                before: blanks,
                zeros,
                behind: 0,
            }
        }
    }
}

/// Adds a sign and a body with the blanks and zeros of a layout.
fn add_laid_out(
    alloc: Global,
    made: &mut String,
    layout: Layout,
    sign: &str,
    body: &str,
) -> Result<(), Refusal>
    requires { length (string_bytes made.old) ≤ 16777216 }
    ensures added { Gives
        (λ _. string_bytes made.new) result
        (limited (string_bytes made.old ++ laid_out layout sign.now body.now)) }
    ensures within { OnOk result (length (string_bytes made.new) ≤ 16777216) }
{
    add_copies(alloc, made, ' ', layout.before)?;
    add(alloc, made, sign)?;
    add_copies(alloc, made, '0', layout.zeros)?;
    add(alloc, made, body)?;
    add_copies(alloc, made, ' ', layout.behind)
}

/// How many characters are missing to a width.
fn room(width: usize, sign: &str, body: &str) -> usize
    ensures { result ≡ room width sign.now body.now }
{
    if width == 0 {
        return 0;
    }
    width
        .saturating_sub(sign.len())
        .saturating_sub(character_count(body))
}

/// Adds a text that is no number, with blanks where the width of a specifier asks for more
/// characters.
#[tactic(auto, using(crate::proofs::Layouts::padded_left, crate::proofs::Layouts::padded_right))]
pub(crate) fn add_aligned(
    alloc: Global,
    made: &mut String,
    specifier: Specifier,
    body: &str,
) -> Result<(), Refusal>
    requires { length (string_bytes made.old) ≤ 16777216 }
    ensures added { Gives
        (λ _. string_bytes made.new) result
        (limited (string_bytes made.old ++ padded specifier false [] body.now)) }
    ensures within { OnOk result (length (string_bytes made.new) ≤ 16777216) }
{
    let blanks = room(specifier.width, "", body);
    if specifier.flags.left {
        add(alloc, made, body)?;
        add_copies(alloc, made, ' ', blanks)
    } else {
        add_copies(alloc, made, ' ', blanks)?;
        add(alloc, made, body)
    }
}

/// How many zeros stand before the digits of a number, where so many characters are missing to the
/// width: as many as its precision asks for, or as the flag `0` does where there is none.
fn zeros_before(specifier: Specifier, missing: usize, digits: &str) -> usize
    ensures { result ≡ zeros_before specifier.precision specifier missing digits.now }
{
    match specifier.precision {
        Some(least) => least.saturating_sub(digits.len()),
        None if specifier.flags.zeros && !specifier.flags.left => missing,
        None => 0,
    }
}

/// Adds a number: its sign and its digits, of which a precision asks for so many, with blanks or
/// zeros where the width of a specifier asks for more characters.
#[tactic(auto, using(crate::proofs::Layouts::number_laid))]
fn add_number(
    alloc: Global,
    made: &mut String,
    specifier: Specifier,
    sign: &str,
    digits: &str,
) -> Result<(), Refusal>
    requires { length (string_bytes made.old) ≤ 16777216 }
    ensures added { Gives
        (λ _. string_bytes made.new) result
        (limited (string_bytes made.old
        ++ numbered specifier.precision specifier sign.now digits.now)) }
    ensures within { OnOk result (length (string_bytes made.new) ≤ 16777216) }
{
    let missing = room(specifier.width, sign, digits);
    let zeros = zeros_before(specifier, missing, digits);
    let layout = Layout::aligned(specifier.flags.left, missing.saturating_sub(zeros), zeros);
    add_laid_out(alloc, made, layout, sign, digits)
}

/// The sign of a number.
fn sign_of(plus: bool, number: i64) -> &'static str
    ensures { result.now ≡ sign_of plus number }
{
    if number < 0 {
        "-"
    } else if plus {
        "+"
    } else {
        ""
    }
}

/// The number that has the same 64 bits.
fn pattern(number: i64) -> u64
    ensures { result ≡ pattern number }
{
    if number < 0 {
        u64::MAX - (-(number + 1)) as u64
    } else {
        number as u64
    }
}

/// The digits of a number in a base, of which there are at most 64.
fn digits_in(radix: Radix, number: u64) -> Result<ArrayString<64>, fmt::Error>
    ensures { IfOk result (λ made. made.bytes ≡ digits_in radix number) }
{
    let mut made = ArrayString::new();
    match radix {
        Radix::Binary => write!(made, "{number:b}")?,
        Radix::Octal => write!(made, "{number:o}")?,
        Radix::Hexadecimal => write!(made, "{number:x}")?,
        Radix::UpperHexadecimal => write!(made, "{number:X}")?,
    }
    Ok(made)
}

/// The character of a number.
fn scalar_of(number: i64) -> Option<char>
    ensures { result ≡ scalar_of number }
{
    match u32::try_from(number) {
        Ok(code) => char::from_u32(code),
        Err(_) => None,
    }
}

/// A text of at most so many characters.
fn cut(precision: Option<usize>, text: &str) -> &str
    ensures { result.now ≡ cut precision text.now }
{
    match precision {
        None => text,
        Some(most) => before(text, most),
    }
}

/// The integer of a value. No text is made of a number.
///
/// # Errors
/// 111, 112; want of memory.
#[inline(always)]
fn integer_of(alloc: Global, style: Integers, value: &Value) -> Result<i64, Refusal>
    ensures { Gives (λ n. n) result (integer_word style value.now) }
{
    if let Some(number) = value.number() {
        return Ok(number);
    }
    let text = value.text(alloc)?;
    integer_word(alloc, style, text.as_str())
}

/// Adds a text of which a precision lets only so many characters stand, with blanks where the width
/// asks for more.
fn add_text(
    alloc: Global,
    made: &mut String,
    specifier: Specifier,
    text: &str,
) -> Result<(), Refusal>
    requires { length (string_bytes made.old) ≤ 16777216 }
    ensures added { Gives
        (λ _. string_bytes made.new) result
        (limited (string_bytes made.old
        ++ padded specifier false [] (cut specifier.precision text.now))) }
    ensures within { OnOk result (length (string_bytes made.new) ≤ 16777216) }
{
    add_aligned(alloc, made, specifier, cut(specifier.precision, text))
}

/// The same of the text of a value, of which none is made where it is kept as one or as a number.
fn add_text_of(
    alloc: Global,
    made: &mut String,
    specifier: Specifier,
    value: &Value,
) -> Result<(), Refusal>
    requires { length (string_bytes made.old) ≤ 16777216 }
    ensures added { Gives
        (λ _. string_bytes made.new) result
        (limited (string_bytes made.old
        ++ padded specifier false [] (cut specifier.precision value.now))) }
    ensures within { OnOk result (length (string_bytes made.new) ≤ 16777216) }
{
    if let Some(text) = value.as_text() {
        return add_text(alloc, made, specifier, text.as_str());
    }
    if let Some(number) = value.number() {
        return add_text(alloc, made, specifier, Buffer::new().format(number));
    }
    let text = value.text(alloc)?;
    add_text(alloc, made, specifier, text.as_str())
}

/// Adds an integer in decimal.
fn add_decimal(
    alloc: Global,
    made: &mut String,
    specifier: Specifier,
    number: i64,
) -> Result<(), Refusal>
    requires { length (string_bytes made.old) ≤ 16777216 }
    ensures added { Gives
        (λ _. string_bytes made.new) result
        (limited (string_bytes made.old ++ numbered specifier.precision specifier
        (sign_of specifier.flags.plus number) (decimal (unsigned_abs number)))) }
    ensures within { OnOk result (length (string_bytes made.new) ≤ 16777216) }
{
    let mut buffer = Buffer::new();
    let digits = buffer.format(number.unsigned_abs());
    add_number(
        alloc,
        made,
        specifier,
        sign_of(specifier.flags.plus, number),
        digits,
    )
}

/// Adds the 64 bits of an integer in a base.
fn add_pattern(
    alloc: Global,
    made: &mut String,
    specifier: Specifier,
    radix: Radix,
    number: i64,
) -> Result<(), Refusal>
    requires { length (string_bytes made.old) ≤ 16777216 }
    ensures added { Gives
        (λ _. string_bytes made.new) result
        (limited (string_bytes made.old ++ numbered specifier.precision specifier []
        (digits_in radix (pattern number)))) }
    ensures within { OnOk result (length (string_bytes made.new) ≤ 16777216) }
{
    let Ok(digits) = digits_in(radix, pattern(number)) else {
        return Err(Refusal::Memory);
    };
    add_number(alloc, made, specifier, "", digits.as_str())
}

/// Adds what a specifier makes of a value. The specifier's characters stand first in `text`, before
/// `rest`.
///
/// # Errors
/// 111, 112, 251, 122; want of memory.
pub(crate) fn add_piece(
    alloc: Global,
    style: Integers,
    made: &mut String,
    specifier: Specifier,
    kind: Kind,
    text: &str,
    rest: &str,
    value: &Value,
) -> Result<(), Refusal>
    requires { length (string_bytes made.old) ≤ 16777216 }
    ensures added { Gives
        (λ _. string_bytes made.new) result
        (next (piece style specifier (shown (chars text.now) (chars rest.now)) kind value.now)
        (λ t. limited (string_bytes made.old ++ t))) }
    ensures within { OnOk result (length (string_bytes made.new) ≤ 16777216) }
{
    match kind {
        Kind::Text => add_text_of(alloc, made, specifier, value),
        Kind::Decimal => {
            let number = integer_of(alloc, style, value)?;
            add_decimal(alloc, made, specifier, number)
        }
        Kind::Pattern(radix) => {
            let number = integer_of(alloc, style, value)?;
            add_pattern(alloc, made, specifier, radix, number)
        }
        Kind::Character => {
            let number = integer_of(alloc, style, value)?;
            let Some(letter) = scalar_of(number) else {
                return Err(bad_format(alloc, text, rest));
            };
            add_aligned(alloc, made, specifier, letter.encode_utf8(&mut [0; 4]))
        }
    }
}
