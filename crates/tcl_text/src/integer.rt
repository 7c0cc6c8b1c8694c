//! Integer texts.
ghost use Rattle.std.specs.Prelude.{◌≡◌, ℕ, ◌+◌, ◌*◌, ◌++◌, ◌≤◌, length, codes, IfOk, OnOk, OnErr};
ghost use Rattle.std.specs.Prelude.{option_map, ℤ, FitsSigned};
ghost use Rattle.std.specs.Int.{w64};
ghost use Rattle.std.specs.Fmt.{decimal, signed_decimal};
ghost use Rattle.std.specs.String.{string_bytes};
ghost use Rattle.tcl_text.specs.NumberForms.{IntegersByForm};
ghost use Rattle.tcl_text.specs.Numbers.{trim_start, trim_end, in_base, unsigned, with_sign};
ghost use Rattle.tcl_text.specs.Numbers.{signed, integer_of, in_64_bits, in_unsigned_64, IsKept};
ghost use Rattle.tcl_text.specs.declared.integer.Integers.{Integers};

use crate::list::is_white;
use crate::messages::{TOO_LARGE, quoting};
use crate::text::Text;
use itoa::Buffer;
use std::alloc::{AllocError, Global};
use std::cmp::{Eq, PartialEq};
use thiserror::Error;

/// How the digits of an integer text are read.
#[derive(Clone, Copy, Debug, PartialEq, Eq)]
pub enum Integers {
    /// A decimal text of more than one digit that begins with `0` is octal.
    Tcl8,
    /// Such a text is decimal.
    Tcl9,
}

/// Why a text has no integer of 64 bits.
#[derive(Clone, Copy, Debug, Eq, Error, PartialEq)]
pub enum IntegerFault {
    /// It is no integer text (111).
    #[error("111: expected integer")]
    NotInteger,
    /// Its number takes more than 64 bits (112).
    #[error("112: {}", TOO_LARGE)]
    TooLarge,
}

/// The integer of a text: white space, a sign or none, digits, white space. The digits are decimal,
/// or after `0x`, `0o` or `0b` of that base, or octal by the style.
///
/// # Errors
/// `NotInteger` where the text has another form, and `TooLarge` where the number takes more than 64
/// bits.
pub fn read_int(text: &str, style: Integers) -> Result<i64, IntegerFault>
    ensures { result ≡ in_64_bits (integer_of style text.now) }
{
    read_signed(trim_white_end(trim_white_start(text.as_bytes())), style)
}

pub(crate) fn trim_white_start(text: &[u8]) -> &[u8]
    ensures { result.now ≡ trim_start text.now }
{
    let mut rest = text;
    'rest: while let [first, tail @ ..] = rest {
        if !is_white(*first) {
            break;
        }
        rest = tail;
    }
    rest
}

pub(crate) fn trim_white_end(text: &[u8]) -> &[u8]
    ensures { result.now ≡ trim_end text.now }
{
    let mut rest = text;
    'rest: while let [head @ .., last] = rest {
        if !is_white(*last) {
            break;
        }
        rest = head;
    }
    rest
}

/// The integer of a text without white space.
pub(crate) fn read_signed(text: &[u8], style: Integers) -> Result<i64, IntegerFault>
    ensures { result ≡ in_64_bits (signed style text.now) }
{
    let (negative, digits) = split_sign(text);
    let magnitude = read_unsigned(digits, style)?;
    integer_with_sign(negative, magnitude)
}

/// Whether a minus sign stands first, and what follows the sign.
fn split_sign(text: &[u8]) -> (bool, &[u8])
    ensures { (style : Integers) →
        signed style text.now ≡ option_map (with_sign result.0) (unsigned style result.1.now) }
{
    match text {
        [b'-', digits @ ..] => (true, digits),
        [b'+', digits @ ..] => (false, digits),
        digits => (false, digits),
    }
}

fn integer_with_sign(negative: bool, magnitude: u64) -> Result<i64, IntegerFault>
    ensures { result ≡ in_64_bits (Some (with_sign negative magnitude)) }
{
    let number = if negative {
        0i64.checked_sub_unsigned(magnitude)
    } else {
        0i64.checked_add_unsigned(magnitude)
    };
    number.ok_or(IntegerFault::TooLarge)
}

/// The number of a text without sign and white space.
pub(crate) fn read_unsigned(text: &[u8], style: Integers) -> Result<u64, IntegerFault>
    ensures { result ≡ in_unsigned_64 (unsigned style text.now) }
{
    match text {
        [b'0', b'x' | b'X', digits @ ..] => read_digits(digits, 16),
        [b'0', b'o' | b'O', digits @ ..] => read_digits(digits, 8),
        [b'0', b'b' | b'B', digits @ ..] => read_digits(digits, 2),
        [b'0', _, ..] if style == Integers::Tcl8 => read_digits(text, 8),
        _ => read_digits(text, 10),
    }
}

/// The number that digits of a base write.
fn read_digits(digits: &[u8], base: u32) -> Result<u64, IntegerFault>
    requires { (2 ≤ base) × (base ≤ 16) }
    ensures { result ≡ in_unsigned_64 (in_base base digits.now) }
{
    if digits.is_empty() {
        return Err(IntegerFault::NotInteger);
    }
    let mut sum = Some(0u64);
    'digits: for byte in digits {
        let digit = char::from(*byte)
            .to_digit(base)
            .ok_or(IntegerFault::NotInteger)?;
        sum = one_more_digit(sum, base, digit);
    }
    sum.ok_or(IntegerFault::TooLarge)
}

/// The sum with a digit behind those that it was of, as long as it takes 64 bits.
fn one_more_digit(sum: Option<u64>, base: u32, digit: u32) -> Option<u64>
    requires { 2 ≤ base }
    ensures { (n : ℕ) → IsKept sum n → IsKept result (n * base + digit) }
{
    let scaled = sum?.checked_mul(u64::from(base))?;
    scaled.checked_add(u64::from(digit))
}

/// An integer written in decimal.
///
/// # Errors
/// Want of memory.
pub fn write_int(alloc: Global, number: i64) -> Result<String, AllocError>
    ensures { IfOk result (λ made. string_bytes made ≡ signed_decimal number) }
{
    String::from_str(alloc, Buffer::new().format(number))
}

/// Writes an integer in decimal at the end of a text.
///
/// # Errors
/// Want of memory, which leaves the text as it was.
pub fn push_int(text: &mut String, number: i64) -> Result<(), AllocError>
    ensures pushed { OnOk result
        (string_bytes text.new ≡ string_bytes text.old ++ signed_decimal number) }
    ensures unchanged { OnErr result (string_bytes text.new ≡ string_bytes text.old) }
{
    text.push_str(Buffer::new().format(number))
}

/// What is written of an integer reads as that integer, in both styles.
pub fn written_integers_read_back()
    ensures reads { (style : Integers) (n : ℤ) → FitsSigned w64 n →
        integer_of style (signed_decimal n) ≡ Some n }
    ensures fits { (n : ℤ) → FitsSigned w64 n → in_64_bits (Some n) ≡ Ok n }
{}

/// The integer texts by their form: white space, a sign or none, a number, white space.
pub fn integers_by_form()
    ensures { IntegersByForm }
{}

/// How many digits a number takes in decimal.
fn digit_count(number: u64) -> usize
    ensures digits { result ≡ length (decimal number) }
    ensures few { result ≤ 20 }
{
    let mut left = number;
    let mut count: usize = 1;
    'digits: while left >= 10 {
        left /= 10;
        count += 1;
    }
    count
}

/// How many bytes an integer takes in decimal.
pub fn int_len(number: i64) -> usize
    ensures { result ≡ length (signed_decimal number) }
{
    digit_count(number.unsigned_abs()) + usize::from(number < 0)
}

/// What is told of a text that is no integer (111).
///
/// # Errors
/// Want of memory.
pub fn not_integer_message(alloc: Global, text: &str) -> Result<Text, AllocError>
    ensures { IfOk result (λ made. made
        ≡ codes "expected integer but got \"" ++ text.now ++ codes "\"") }
{
    quoting(alloc, "expected integer but got \"", text)
}

/// What is told of an integer that takes more than 64 bits (112).
///
/// # Errors
/// Want of memory.
pub fn too_large_message(alloc: Global) -> Result<Text, AllocError>
    ensures { IfOk result (λ made. made ≡ codes "integer value too large to represent") }
{
    Text::new(alloc, TOO_LARGE)
}
