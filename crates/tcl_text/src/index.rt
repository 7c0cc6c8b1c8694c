//! Index texts.
ghost use Rattle.std.specs.Prelude.{◌≡◌, ◌++◌, ◌<◌, ◌==◌, ◌+ℤ◌, ◌-ℤ◌, if◌then◌else◌, length, codes};
ghost use Rattle.std.specs.Prelude.{IfSome, IfOk, ok_or, option_map};
ghost use Rattle.std.specs.Str.{bytes_eq};
ghost use Rattle.tcl_text.specs.NumberForms.{IndexesByForm};
ghost use Rattle.tcl_text.specs.Indexes.{only_inside, base_of, offset_of, is_operator};
ghost use Rattle.tcl_text.specs.Indexes.{last_operator, sum_around, index_of, place};

use crate::integer::{
    Integers, read_int, read_signed, read_unsigned, trim_white_end, trim_white_start,
};
use crate::messages::quoting;
use crate::text::Text;
use std::alloc::{AllocError, Global};
use std::cmp::{Eq, PartialEq};
use thiserror::Error;

/// The greatest place: no value has more bytes.
const LAST: i64 = 16_777_216;

/// Where an index points.
#[derive(Clone, Copy, Debug, PartialEq, Eq)]
pub enum Index {
    /// Before the first place.
    Before,
    /// At this place, from 0 to 16,777,216.
    At(u32),
    /// Beyond the place 16,777,216.
    Beyond,
}

/// Why a text is no index.
#[derive(Clone, Copy, Debug, Eq, Error, PartialEq)]
pub enum IndexFault {
    /// It is no index text (114).
    #[error("114: bad index")]
    BadIndex,
}

/// Where an index text points: `N`, `end`, `N+M`, `N-M`, `end+M` or `end-M`, N an integer text and
/// M one without a sign, with no white space inside, and both inside 64 bits. `end` is what the
/// word `end` stands for.
///
/// # Errors
/// `BadIndex` for any other text.
pub fn read_index(text: &str, style: Integers, end: i64) -> Result<Index, IndexFault>
    ensures { result ≡ ok_or (option_map place (index_of style end text.now)) IndexFault.BadIndex }
{
    if let Ok(number) = read_int(text, style) {
        return Ok(place(number));
    }
    let text = text.as_bytes();
    if is_end(text) {
        return Ok(place(end));
    }
    read_sum(text, style, end).ok_or(IndexFault::BadIndex)
}

/// The index texts by their forms.
pub fn indexes_by_form()
    ensures { IndexesByForm }
{}

/// The place of a sum or a difference.
fn read_sum(text: &[u8], style: Integers, end: i64) -> Option<Index>
    ensures { result ≡ option_map place (sum_around style end text.now (last_operator text.now)) }
{
    let at = last_operator(text)?;
    let base = read_base(&text[..at], style, end)?;
    let offset = read_offset(&text[at + 1..], style)?;
    Some(place_of_sum(text[at], base, offset))
}

/// The place of the sum, or of the difference where the operator is no `+`. Past 64 bits the place
/// is the same as at the greatest or the least number.
fn place_of_sum(operator: u8, base: i64, offset: i64) -> Index
    ensures { result ≡ place (if operator == 43 then base +ℤ offset else base -ℤ offset) }
{
    if operator == b'+' {
        place(base.saturating_add(offset))
    } else {
        place(base.saturating_sub(offset))
    }
}

/// The place of the last `+` or `-`.
fn last_operator(text: &[u8]) -> Option<usize>
    ensures place { result ≡ last_operator text.now }
    ensures within { IfSome result (λ at. at < length text.now) }
{
    let mut found = None;
    'bytes: for (i, byte) in text.iter().enumerate() {
        if is_operator(*byte) {
            found = Some(i);
        }
    }
    found
}

fn is_operator(byte: u8) -> bool
    ensures { result ≡ is_operator byte }
{
    byte == b'+' || byte == b'-'
}

/// What stands before the operator.
fn read_base(text: &[u8], style: Integers, end: i64) -> Option<i64>
    ensures { result ≡ base_of style end text.now }
{
    if is_end(text) {
        return Some(end);
    }
    read_signed(trim_white_start(text), style).ok()
}

/// What stands behind the operator.
fn read_offset(text: &[u8], style: Integers) -> Option<i64>
    ensures { result ≡ offset_of style text.now }
{
    let magnitude = read_unsigned(trim_white_end(text), style).ok()?;
    i64::try_from(magnitude).ok()
}

fn is_end(text: &[u8]) -> bool
    ensures { result ≡ bytes_eq text.now (codes "end") }
{
    text == b"end".as_slice()
}

/// Where the index that is a number points.
pub fn place(number: i64) -> Index
    ensures { result ≡ place number }
{
    if number < 0 {
        Index::Before
    } else if number <= LAST {
        Index::At(number as u32)
    } else {
        Index::Beyond
    }
}

/// What is told of a text that is no index (114).
///
/// # Errors
/// Want of memory.
pub fn bad_index_message(alloc: Global, text: &str) -> Result<Text, AllocError>
    ensures { IfOk result (λ made. made ≡ codes "bad index \"" ++ text.now ++ codes "\"") }
{
    quoting(alloc, "bad index \"", text)
}
