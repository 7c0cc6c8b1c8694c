//! Texts in which others are put in the place of keys.
ghost use Rattle.std.specs.Prelude.{◌≡◌, ℕ, suc, ◌<◌, ◌≤◌, List, [], ◌∷◌, ◌++◌, true, false};
ghost use Rattle.std.specs.Prelude.{length, drop, IfOk, OnOk, IsErrOf, IsFalse, IsTrue};
ghost use Rattle.std.specs.Prelude.{MatchOption, Some, None};
ghost use Rattle.std.specs.Str.{chars, IsUtf8};
ghost use Rattle.std.specs.String.{string_bytes};
ghost use Rattle.tcl_characters.specs.Places.{begins};
ghost use Rattle.tcl_glob.specs.Patterns.{letters};
ghost use Rattle.tcl_characters.specs.Mapping.{fits, fitting, mapped};

use crate::letters::split_first;
use crate::limit::{LimitError, append};
use memchr::memchr;
use std::alloc::Global;
use tcl_glob::characters::first_letter;
use tcl_text::text::Text;

/// What follows a key with which a text begins.
fn behind_key<'a>(text: &'a str, key: &str, nocase: bool) -> Option<&'a str>
    ensures { MatchOption result (begins (letters nocase key.now) (letters nocase text.now) ≡ false)
        (λ rest. (begins (letters nocase key.now) (letters nocase text.now) ≡ true) ×
        (chars rest.now ≡ drop (length (chars key.now)) (chars text.now))) }
{
    let mut rest = text;
    let mut left = key;
    'letters: while let Some((wanted, behind)) = first_letter(left, nocase) {
        let (letter, after) = first_letter(rest, nocase)?;
        if letter != wanted {
            return None;
        }
        left = behind;
        rest = after;
    }
    Some(rest)
}

/// What follows the first key of a mapping that fits, and what stands for that key.
fn fitting<'a, 'b>(mapping: &'b [Text], text: &'a str, nocase: bool) -> Option<(&'a str, &'b Text)>
    ensures { MatchOption result (fitting nocase mapping.now (chars text.now) ≡ None)
        (λ found. (n : ℕ) × (fitting nocase mapping.now (chars text.now)
        ≡ Some (suc n, found.1.now)) × (chars found.0.now ≡ drop (suc n) (chars text.now))) }
{
    let mut left = mapping;
    'keys: while let [key, new, more @ ..] = left {
        if let Some(behind) = behind_some_key(text, key.as_str(), nocase) {
            return Some((behind, new));
        }
        left = more;
    }
    None
}

/// Whether a text's first byte differs from a key's: then the text doesn't begin with the key.
fn begins_otherwise(text: &str, key: &str) -> bool
    ensures { IsTrue result → begins (chars key.now) (chars text.now) ≡ false }
{
    match (text.as_bytes(), key.as_bytes()) {
        ([first, ..], [wanted, ..]) => first != wanted,
        _ => false,
    }
}

/// What follows a key with which a text begins, where case counts.
fn behind_same<'a>(text: &'a str, key: &str) -> Option<&'a str>
    ensures { MatchOption result (begins (chars key.now) (chars text.now) ≡ false)
        (λ rest. (begins (chars key.now) (chars text.now) ≡ true) ×
        (chars rest.now ≡ drop (length (chars key.now)) (chars text.now))) }
{
    if begins_otherwise(text, key) {
        return None;
    }
    text.strip_prefix(key)
}

/// What follows a key that isn't empty and with which a text begins.
fn behind_some_key<'a>(text: &'a str, key: &str, nocase: bool) -> Option<&'a str>
    ensures { MatchOption result (fits (letters nocase key.now) (letters nocase text.now) ≡ false)
        (λ rest. (n : ℕ) × (length (chars key.now) ≡ suc n) ×
        (fits (letters nocase key.now) (letters nocase text.now) ≡ true) ×
        (chars rest.now ≡ drop (suc n) (chars text.now))) }
{
    if key.is_empty() {
        return None;
    }
    if nocase {
        return behind_key(text, key, nocase);
    }
    behind_same(text, key)
}

/// What stands behind the bytes that aren't the first of the only key.
fn behind_others<'a>(only_key: &str, text: &'a str) -> &'a str
    ensures { (front : List ℕ) × (text.now ≡ front ++ result.now) ×
        ((new : List ℕ) → mapped false (only_key.now ∷ new ∷ []) (chars text.now) 0
        ≡ front ++ mapped false (only_key.now ∷ new ∷ []) (chars result.now) 0) ×
        (length (chars result.now) ≤ length (chars text.now)) }
{
    if only_key.is_empty() {
        return text;
    }
    let bytes = only_key.as_bytes();
    match memchr(bytes[0], text.as_bytes()) {
        Some(at) => &text[at..],
        None => &text[text.len()..],
    }
}

/// Whether a key begins with a byte. If not, it fits no text that begins with that byte.
fn begins_with(key: &str, byte: u8) -> bool
    ensures unfit { IsFalse result → (rest : List ℕ) → IsUtf8 (byte ∷ rest) →
        fits (chars key.now) (chars (byte ∷ rest)) ≡ false }
    ensures edge { IsTrue result → 128 ≤ byte → 192 ≤ byte }
{
    match key.as_bytes() {
        [first, ..] => *first == byte,
        [] => false,
    }
}

/// Whether a key of a mapping begins with a byte. If not, none fits a text that begins with it.
fn begins_some_key(mapping: &[Text], byte: u8) -> bool
    ensures unfit { IsFalse result → (rest : List ℕ) → IsUtf8 (byte ∷ rest) →
        fitting false mapping.now (chars (byte ∷ rest)) ≡ None }
    ensures edge { IsTrue result → 128 ≤ byte → 192 ≤ byte }
{
    let mut left = mapping;
    'keys: while let [key, _new, more @ ..] = left {
        if begins_with(key.as_str(), byte) {
            return true;
        }
        left = more;
    }
    false
}

/// What stands behind the bytes with which no key of a mapping begins, where case counts.
fn behind_no_lead<'a>(mapping: &[Text], text: &'a str) -> &'a str
    ensures { (front : List ℕ) × (text.now ≡ front ++ result.now) ×
        (mapped false mapping.now (chars text.now) 0
        ≡ front ++ mapped false mapping.now (chars result.now) 0) ×
        (length (chars result.now) ≤ length (chars text.now)) }
{
    let bytes = text.as_bytes();
    let mut at = 0;
    'bytes: while at < bytes.len() {
        if begins_some_key(mapping, bytes[at]) {
            return &text[at..];
        }
        at += 1;
    }
    &text[text.len()..]
}

/// What stands behind places at which no key of a mapping fits, as far as one byte tells it: where
/// case counts.
fn behind_unfit<'a>(mapping: &[Text], text: &'a str, nocase: bool) -> &'a str
    ensures { (front : List ℕ) × (text.now ≡ front ++ result.now) ×
        (mapped nocase mapping.now (chars text.now) 0
        ≡ front ++ mapped nocase mapping.now (chars result.now) 0) ×
        (length (chars result.now) ≤ length (chars text.now)) }
{
    if !nocase {
        if let [key, _new] = mapping {
            return behind_others(key.as_str(), text);
        }
        return behind_no_lead(mapping, text);
    }
    text
}

/// The text before the first place at which a key of a mapping fits, what follows that key, and
/// what stands for it.
fn next_fit<'a, 'b>(
    mapping: &'b [Text],
    text: &'a str,
    nocase: bool,
) -> Option<(&'a str, &'a str, &'b Text)>
    ensures { MatchOption result (mapped nocase mapping.now (chars text.now) 0 ≡ text.now)
        (λ found. (mapped nocase mapping.now (chars text.now) 0 ≡ found.0.now ++
        (found.2.now ++ mapped nocase mapping.now (chars found.1.now) 0)) ×
        (length (chars found.1.now) < length (chars text.now))) }
{
    let mut rest = text;
    'places: while let Some((_, behind_first)) = split_first(rest) {
        if let Some((behind, new)) = fitting(mapping, rest, nocase) {
            let (kept, _) = text.split_at(text.len() - rest.len());
            return Some((kept, behind, new));
        }
        rest = behind_unfit(mapping, behind_first, nocase);
    }
    None
}

/// A text in which what stands for the keys of a mapping is put in their place: at each place the
/// first key of the mapping's order that fits there. What was put in isn't read again. The mapping
/// has keys and what stands for each in turn.
///
/// # Errors
/// `TooLong` where the text would be longer than [`tcl_text::limit::MOST_BYTES`]; want of memory.
pub fn map(alloc: Global, mapping: &[Text], text: &str, nocase: bool) -> Result<String, LimitError>
    ensures mapped { IfOk result
        (λ made. string_bytes made ≡ mapped nocase mapping.now (chars text.now) 0) }
    ensures within { OnOk result
        (length (mapped nocase mapping.now (chars text.now) 0) ≤ 16777216) }
    ensures refused { IsErrOf result LimitError.TooLong →
        16777216 < length (mapped nocase mapping.now (chars text.now) 0) }
{
    let mut made = String::new(alloc);
    let mut rest = text;
    'fits: while let Some((kept, behind, new)) = next_fit(mapping, rest, nocase) {
        append(&mut made, kept)?;
        append(&mut made, new.as_str())?;
        rest = behind;
    }
    append(&mut made, rest)?;
    Ok(made)
}
