//! Texts of several: `join` and `concat`.
ghost use Rattle.std.specs.Prelude.{◌≡◌, ◌≤◌, ◌++◌, ◌∷◌, [], ℕ, List as Bytes, length, codes};
ghost use Rattle.std.specs.Prelude.{unwrap_or, OnOk, IfOk, IfSome, IfErr, Ok};
ghost use Rattle.std.specs.Bool.{OnTrue};
ghost use Rattle.std.specs.Option.{option_copied};
ghost use Rattle.std.specs.Str.{chars};
ghost use Rattle.std.specs.String.{string_bytes};
ghost use Rattle.tcl_words.specs.Outcomes.{Gives, Refuses};
ghost use Rattle.tcl_words.specs.Limits.{limited};
ghost use Rattle.tcl_characters.specs.Texts.{text_of, trim_start, trim_end};
ghost use Rattle.tcl_lists.specs.Joining.{joined, join_of, trimmed, with_part, gap, onto};
ghost use Rattle.tcl_lists.specs.Joining.{concat_of};

use crate::indexes::elements_of;
use crate::reading::{list_word, one_or_two_words};
use std::alloc::{AllocError, Global};
use tcl_characters::trimming::{trim_left, trim_right};
use tcl_text::limit::MOST_BYTES;
use tcl_text::text::Text;
use tcl_value::list::List;
use tcl_value::value::Value;
use tcl_words::refusal::{Refusal, too_long};

/// The six characters of white space.
const WHITE: &str = " \t\n\u{b}\u{c}\r";

/// The value of a text.
fn text_value(alloc: Global, made: String) -> Result<Value, Refusal>
    requires { length (string_bytes made) ≤ 16777216 }
    ensures { Gives (λ value. value) result (limited (string_bytes made)) }
{
    let text = Text::from_string(alloc, made)?;
    Ok(Value::from_short_text(text))
}

/// Adds a separator and a text.
fn add(alloc: Global, made: &mut String, separator: &str, more: &str) -> Result<(), Refusal>
    requires { length (string_bytes made.old) ≤ 16777216 }
    ensures added { OnOk result
        (string_bytes made.new ≡ string_bytes made.old ++ (separator.now ++ more.now)) }
    ensures within { OnOk result (length (string_bytes made.new) ≤ 16777216) }
    ensures refused { (rest : Bytes ℕ) → IfErr result
        (λ e. Refuses e (limited
        (string_bytes made.old ++ ((separator.now ++ more.now) ++ rest)))) }
{
    let room = MOST_BYTES - made.len();
    if separator.len() > room || more.len() > room - separator.len() {
        return Err(too_long(alloc));
    }
    made.push_str(separator)?;
    made.push_str(more)?;
    Ok(())
}

/// Values with a separator between any two, as one text.
fn joined(alloc: Global, values: &[Value], separator: &str) -> Result<Value, Refusal>
    ensures { Gives (λ value. value) result (limited (joined separator.now values.now)) }
{
    let [first, rest @ ..] = values else {
        return Ok(Value::empty());
    };
    let mut made = String::new(alloc);
    add_value(alloc, &mut made, "", first)?;
    'rest: for value in rest {
        add_value(alloc, &mut made, separator, value)?;
    }
    text_value(alloc, made)
}

/// Adds a separator and the text of a value.
fn add_value(
    alloc: Global,
    made: &mut String,
    separator: &str,
    value: &Value,
) -> Result<(), Refusal>
    requires { length (string_bytes made.old) ≤ 16777216 }
    ensures added { OnOk result (string_bytes made.new
        ≡ string_bytes made.old ++ (separator.now ++ value.now)) }
    ensures within { OnOk result (length (string_bytes made.new) ≤ 16777216) }
    ensures refused { (rest : Bytes ℕ) → IfErr result
        (λ e. Refuses e (limited
        (string_bytes made.old ++ ((separator.now ++ value.now) ++ rest)))) }
{
    let text = value.text(alloc)?;
    add(alloc, made, separator, text.as_str())
}

/// The separator of a word that may be left out: a space where it is.
fn separator_text(alloc: Global, word: Option<&Value>) -> Result<Text, Refusal>
    ensures { Gives (λ text. text) result (Ok (unwrap_or (option_copied word.entry) (codes " "))) }
{
    match word {
        Some(word) => Ok(word.text(alloc)?),
        None => Ok(Text::new(alloc, " ")?),
    }
}

/// `join list ?joinString?`: the elements of the list with a text between any two, a space where
/// none is named.
///
/// # Errors
/// 241, 101 to 104, 122; want of memory.
pub fn join(alloc: Global, words: &[Value]) -> Result<Value, Refusal>
    ensures { Gives (λ value. value) result (join_of words.now) }
{
    let (word, separator) = one_or_two_words(alloc, words, "join list ?joinString?")?;
    let list = list_word(alloc, word)?;
    let separator = separator_text(alloc, separator)?;
    let elements = elements_of(alloc, &list)?;
    joined(alloc, &elements, separator.as_str())
}

/// A text without white space at its ends.
fn trimmed(text: &str) -> &str
    ensures { result.now ≡ trimmed text.now }
{
    trim_right(trim_left(text, WHITE), WHITE)
}

/// What stands between a text and another that is added to it.
fn gap(made: &str) -> &'static str
    ensures { result.now ≡ gap made.now }
{
    if made.is_empty() { "" } else { " " }
}

/// Adds what is left of a text without white space at its ends, with a space before it unless it is
/// the first.
fn add_part(alloc: Global, made: &mut String, text: &str) -> Result<(), Refusal>
    requires { length (string_bytes made.old) ≤ 16777216 }
    ensures added { (l : Bytes (Bytes ℕ)) →
        OnOk result (onto (string_bytes made.new) l
        ≡ onto (string_bytes made.old) (with_part (trimmed text.now) l)) }
    ensures within { OnOk result (length (string_bytes made.new) ≤ 16777216) }
    ensures refused { (l : Bytes (Bytes ℕ)) → IfErr result
        (λ e. Refuses e (limited (onto (string_bytes made.old) (with_part (trimmed text.now) l)))) }
{
    let part = trimmed(text);
    if part.is_empty() {
        return Ok(());
    }
    let separator = gap(made.as_str());
    add(alloc, made, separator, part)
}

/// What a single word is put together to, where that is the word itself: its text isn't copied.
fn lone_word(alloc: Global, word: &Value) -> Result<Option<Value>, AllocError>
    ensures { IfOk result (λ found. IfSome found (λ value. concat_of (word.now ∷ []) ≡ Ok value)) }
{
    let text = word.text(alloc)?;
    if text.len() > MOST_BYTES || trimmed(text.as_str()) != text.as_str() {
        return Ok(None);
    }
    Ok(Some(Value::from_short_text(text)))
}

/// Adds all elements of another list. Says whether there was room for them, and memory.
fn add_list(made: &mut List, list: &List) -> bool
    ensures { OnTrue result (made.new ≡ made.old ++ list.now) }
{
    list.is_empty() || made.push_slice(list, 0, list.len()).is_ok()
}

/// What words are put together to, where each of them is at hand as a list of plain elements: the
/// list of all these elements, whose text isn't made.
fn concat_lists(alloc: Global, words: &[Value]) -> Result<Option<Value>, AllocError>
    ensures { IfOk result (λ found. IfSome found (λ value. concat_of words.now ≡ Ok value)) }
{
    let [first, rest @ ..] = words else {
        return Ok(None);
    };
    let Some(mut made) = first.plain_list(alloc)? else {
        return Ok(None);
    };
    'rest: for word in rest {
        let Some(list) = word.plain_list(alloc)? else {
            return Ok(None);
        };
        if !add_list(&mut made, &list) {
            return Ok(None);
        }
    }
    Ok(Value::from_list(alloc, made).ok())
}

/// What words are put together to, in a text of its own.
fn concat_all(alloc: Global, words: &[Value]) -> Result<Value, Refusal>
    ensures { Gives (λ value. value) result (concat_of words.now) }
{
    let mut made = String::new(alloc);
    'words: for word in words {
        let text = word.text(alloc)?;
        add_part(alloc, &mut made, text.as_str())?;
    }
    text_value(alloc, made)
}

/// `concat ?arg ...?`: the words without white space at their ends, those of which something is
/// left, with a space between any two. A single word without white space at its ends is handed on,
/// and words that are kept as lists of plain elements make one that is kept so.
///
/// # Errors
/// 122; want of memory.
pub fn concat(alloc: Global, words: &[Value]) -> Result<Value, Refusal>
    ensures { Gives (λ value. value) result (concat_of words.now) }
{
    let whole = match words {
        [word] => lone_word(alloc, word)?,
        _ => concat_lists(alloc, words)?,
    };
    match whole {
        Some(value) => Ok(value),
        None => concat_all(alloc, words),
    }
}
