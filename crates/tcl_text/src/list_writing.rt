//! Writing a list.
ghost use Rattle.std.specs.Prelude.{◌≡◌, ℕ, List, ◌++◌, ◌∷◌, [], ◌+◌, ◌≤◌, ◌==◌, ◌&&◌, length};
ghost use Rattle.std.specs.Prelude.{take, IfOk, OnOk, OnErr, string_bytes};
ghost use Rattle.std.specs.Char.{encode_utf8};
ghost use Rattle.std.specs.List.{list_any, flat_map, count_by};
ghost use Rattle.tcl_text.specs.Writing.{is_special, has_special, begins_with_hash, is_comment};
ghost use Rattle.tcl_text.specs.Writing.{fits_braces, form_of, letter_of, escaped_byte, written};
ghost use Rattle.tcl_text.specs.Writing.{written_list, WrittenSpells, Extends, hash_mark};

use crate::list::{Braces, is_white};
use crate::text::Text;
use std::alloc::{AllocError, Global};

/// How an element is written.
#[derive(Clone, Copy)]
pub enum Form {
    /// As it is.
    Plain,
    /// In braces.
    Braced,
    /// With a backslash before each special character.
    Escaped,
}

pub(crate) fn is_special(byte: u8) -> bool
    ensures { result ≡ is_special byte }
{
    is_white(byte) || matches!(byte, b'{' | b'}' | b'[' | b']' | b'$' | b';' | b'"' | b'\\')
}

fn has_special(text: &str) -> bool
    ensures { result ≡ has_special text.now }
{
    text.as_bytes().iter().any(|byte| is_special(*byte))
}

/// Whether this is the first element of its list and begins with `#`.
pub(crate) fn is_comment(element: &str, first: bool) -> bool
    ensures { result ≡ is_comment first element.now }
{
    match element.as_bytes() {
        [b'#', ..] => first,
        _ => false,
    }
}

/// Whether these are a backslash and a newline.
pub(crate) fn joins_lines(last: u8, byte: u8) -> bool
    ensures { result ≡ ((last == 92) && (byte == 10)) }
{
    last == b'\\' && byte == b'\n'
}

/// Whether an element may stand in braces.
fn fits_braces(element: &str) -> bool
    ensures { result ≡ fits_braces element.now }
{
    let mut braces = Braces::NONE_OPEN;
    let mut last = 0;
    'bytes: for (i, byte) in element.as_bytes().iter().enumerate() {
        if joins_lines(last, *byte) {
            return false;
        }
        match braces.count(*byte) {
            Some(next) => braces = next,
            None => return false,
        }
        last = *byte;
    }
    braces.depth == 0 && !braces.skips && last != b'\\'
}

pub(crate) fn form_of(element: &str, first: bool) -> Form
    ensures { result ≡ form_of first element.now }
{
    if element.is_empty() {
        return Form::Braced;
    }
    if !has_special(element) && !is_comment(element, first) {
        return Form::Plain;
    }
    if fits_braces(element) {
        Form::Braced
    } else {
        Form::Escaped
    }
}

/// What stands behind the backslash of a special character.
pub(crate) fn letter_of(special: char) -> char
    ensures { result ≡ letter_of special }
{
    match special {
        '\n' => 'n',
        '\t' => 't',
        '\u{B}' => 'v',
        '\u{C}' => 'f',
        '\r' => 'r',
        other => other,
    }
}

fn is_special_character(character: char) -> bool
    ensures { result ≡ is_special character }
{
    character.is_ascii() && is_special(character as u8)
}

/// Adds a text with a backslash before each special character.
fn push_escaped(out: &mut String, text: &str) -> Result<(), AllocError>
    ensures added { OnOk result (string_bytes out.new
        ≡ string_bytes out.old ++ flat_map escaped_byte text.now) }
    ensures kept { Extends (string_bytes out.old) (string_bytes out.new) }
{
    let mut rest = text.chars();
    'characters: while let Some(character) = rest.next() {
        push_character(out, character)?;
    }
    Ok(())
}

fn push_character(out: &mut String, character: char) -> Result<(), AllocError>
    ensures added { OnOk result (string_bytes out.new
        ≡ string_bytes out.old ++ flat_map escaped_byte (encode_utf8 character)) }
    ensures kept { Extends (string_bytes out.old) (string_bytes out.new) }
{
    if !is_special_character(character) {
        return out.push(character);
    }
    out.push('\\')?;
    out.push(letter_of(character))
}

/// Adds the backslash of a first element that begins with `#`.
fn push_hash_mark(out: &mut String, comment: bool) -> Result<(), AllocError>
    ensures added { OnOk result (string_bytes out.new ≡ string_bytes out.old ++ hash_mark comment) }
    ensures kept { Extends (string_bytes out.old) (string_bytes out.new) }
{
    if comment { out.push('\\') } else { Ok(()) }
}

fn push_element(out: &mut String, element: &str, first: bool) -> Result<(), AllocError>
    ensures added { OnOk result
        (string_bytes out.new ≡ string_bytes out.old ++ written first element.now) }
    ensures kept { Extends (string_bytes out.old) (string_bytes out.new) }
{
    match form_of(element, first) {
        Form::Plain => out.push_str(element),
        Form::Braced => {
            out.push('{')?;
            out.push_str(element)?;
            out.push('}')
        }
        Form::Escaped => {
            push_hash_mark(out, is_comment(element, first))?;
            push_escaped(out, element)
        }
    }
}

/// Adds an element as it is written in a list, where `first` says whether it is the list's first.
///
/// # Errors
/// Want of memory, which leaves the text as it was.
pub fn write_element(out: &mut String, element: &str, first: bool) -> Result<(), AllocError>
    ensures added { OnOk result
        (string_bytes out.new ≡ string_bytes out.old ++ written first element.now) }
    ensures unchanged { OnErr result (string_bytes out.new ≡ string_bytes out.old) }
{
    let len = out.as_str().len();
    let added = push_element(out, element, first);
    if added.is_err() {
        out.truncate(len);
    }
    added
}

pub(crate) fn hash_mark_len(comment: bool) -> usize
    ensures { result ≡ length (hash_mark comment) }
{
    if comment { 1 } else { 0 }
}

fn count_special(text: &str) -> usize
    ensures count { result ≡ count_by is_special text.now }
    ensures bound { result ≤ length text.now }
{
    text.as_bytes()
        .iter()
        .filter(|byte| is_special(**byte))
        .count()
}

/// How many bytes an element takes as it is written in a list.
pub fn written_len(element: &str, first: bool) -> usize
    ensures { result ≡ length (written first element.now) }
{
    match form_of(element, first) {
        Form::Plain => element.len(),
        Form::Braced => element.len() + 2,
        Form::Escaped => {
            hash_mark_len(is_comment(element, first)) + element.len() + count_special(element)
        }
    }
}

/// The text of a list: its elements with one space between any two.
///
/// # Errors
/// Want of memory.
pub fn write_list(alloc: Global, list: &[Text]) -> Result<String, AllocError>
    ensures { IfOk result (λ text. string_bytes text ≡ written_list list.now) }
{
    let mut out = String::new(alloc);
    let Some((first, others)) = list.split_first() else {
        return Ok(out);
    };
    push_element(&mut out, first.as_str(), true)?;
    'elements: for element in others {
        out.push(' ')?;
        push_element(&mut out, element.as_str(), false)?;
    }
    Ok(out)
}

/// The text that a list is written as spells the list.
pub fn written_list_spells_it()
    ensures { WrittenSpells }
{}
