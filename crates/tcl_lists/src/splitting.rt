//! The parts of a text: `split`.
ghost use Rattle.std.specs.Prelude.{◌≡◌, ◌≤◌, ◌+◌, ◌++◌, ◌∷◌, [], length, map, unwrap_or, OnOk};
ghost use Rattle.std.specs.Prelude.{IfOk, IfErr, Ok, MatchOption};
ghost use Rattle.std.specs.Option.{option_copied};
ghost use Rattle.std.specs.Str.{chars};
ghost use Rattle.std.specs.Char.{encode_utf8};
ghost use Rattle.std.specs.String.{string_bytes};
ghost use Rattle.tcl_words.specs.Outcomes.{Gives, Refuses};
ghost use Rattle.tcl_characters.specs.Texts.{text_of, is_among};
ghost use Rattle.tcl_lists.specs.Lists.{Texts, list_value};
ghost use Rattle.tcl_lists.specs.Splitting.{parts, part_texts, letter_text, split_at};
ghost use Rattle.tcl_lists.specs.Splitting.{separators, split_of};

use crate::building::list_value;
use crate::reading::one_or_two_words;
use crate::refusing::not_made;
use std::alloc::Global;
use tcl_text::text::Text;
use tcl_value::list::List;
use tcl_value::value::Value;
use tcl_words::refusal::Refusal;

/// Space, tab, newline and carriage return, between which a text is split where no other characters
/// are named.
const SEPARATORS: &str = " \t\n\r";

/// Whether a character is one of a set.
fn is_among(set: &str, letter: char) -> bool
    ensures { result ≡ is_among (chars set.now) letter }
{
    set.chars().any(|c| c == letter)
}

/// The first character of a text and what follows it.
fn split_first(text: &str) -> Option<(char, &str)>
    ensures { MatchOption result (chars text.now ≡ [])
        (λ found. (chars text.now ≡ found.0 ∷ chars found.1.now) ×
        (length text.now ≡ length (encode_utf8 found.0) + length found.1.now)) }
{
    let mut characters = text.chars();
    let first = characters.next()?;
    Some((first, characters.as_str()))
}

/// Adds a part of a text.
fn push_part(alloc: Global, made: &mut List, part: String) -> Result<(), Refusal>
    requires { length (string_bytes part) ≤ 16777216 }
    ensures pushed { OnOk result (made.new ≡ made.old ++ string_bytes part ∷ []) }
    ensures refused { (rest : Texts) → IfErr result
        (λ e. Refuses e (list_value (made.old ++ (string_bytes part ∷ rest)))) }
{
    let text = Text::from_string(alloc, part)?;
    if let Err(why) = made.push(alloc, Value::from_short_text(text)) {
        return Err(not_made(alloc, why));
    }
    Ok(())
}

/// The parts of a text between the characters of a set.
fn split_between(alloc: Global, text: &str, set: &str) -> Result<Value, Refusal>
    requires { length text.now ≤ 16777216 }
    ensures { Gives (λ value. value) result
        (list_value (part_texts (parts (chars set.now) (chars text.now)))) }
{
    let mut made = List::new(alloc)?;
    let mut part = String::new(alloc);
    let mut rest = text;
    'letters: while let Some((letter, behind)) = split_first(rest) {
        rest = behind;
        if is_among(set, letter) {
            push_part(alloc, &mut made, part)?;
            part = String::new(alloc);
        } else {
            part.push(letter)?;
        }
    }
    push_part(alloc, &mut made, part)?;
    list_value(alloc, made)
}

/// The characters of a text.
fn split_letters(alloc: Global, text: &str) -> Result<Value, Refusal>
    requires { length text.now ≤ 16777216 }
    ensures { Gives (λ value. value) result (list_value (map letter_text (chars text.now))) }
{
    let mut made = List::new(alloc)?;
    let mut rest = text;
    'letters: while let Some((letter, behind)) = split_first(rest) {
        rest = behind;
        let mut part = String::new(alloc);
        part.push(letter)?;
        push_part(alloc, &mut made, part)?;
    }
    list_value(alloc, made)
}

/// The parts of a text between the characters of a set, or its characters where the set is empty.
fn split_text(alloc: Global, text: &str, set: &str) -> Result<Value, Refusal>
    requires { length text.now ≤ 16777216 }
    ensures { Gives (λ value. value) result
        (list_value (split_at (chars set.now) (chars text.now))) }
{
    if text.is_empty() {
        return Ok(Value::empty());
    }
    if set.is_empty() {
        return split_letters(alloc, text);
    }
    split_between(alloc, text, set)
}

/// The text of a word.
fn short_text(alloc: Global, word: &Value) -> Result<Text, Refusal>
    ensures text { Gives (λ text. text) result (Ok word.now) }
    ensures within { IfOk result (λ text. length text ≤ 16777216) }
{
    word.keeps_limit();
    Ok(word.text(alloc)?)
}

/// The characters between which a text is split.
fn separator_text(alloc: Global, word: Option<&Value>) -> Result<Text, Refusal>
    ensures { Gives (λ text. text) result (Ok (unwrap_or (option_copied word.entry) separators)) }
{
    match word {
        Some(word) => Ok(word.text(alloc)?),
        None => Ok(Text::new(alloc, SEPARATORS)?),
    }
}

/// `split string ?splitChars?`: the parts of the text between characters of a set, which is space,
/// tab, newline and carriage return where none is named; each character where the set is empty.
///
/// # Errors
/// 241, 122; want of memory.
pub fn split(alloc: Global, words: &[Value]) -> Result<Value, Refusal>
    ensures { Gives (λ value. value) result (split_of words.now) }
{
    let (word, set) = one_or_two_words(alloc, words, "split string ?splitChars?")?;
    let text = short_text(alloc, word)?;
    let set = separator_text(alloc, set)?;
    split_text(alloc, text.as_str(), set.as_str())
}
