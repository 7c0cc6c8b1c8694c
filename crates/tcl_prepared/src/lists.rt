//! The lists and dicts that literals keep: the words that a command reads as such, which would be
//! read from their texts each time that it is evaluated.
ghost use Rattle.std.specs.Prelude.{◌≡◌};

use crate::prepared::PreparedWord;
use std::alloc::Global;
use tcl_value::value::Value;

/// What a word is read as. A hint, of which contracts say nothing: a literal that keeps what it was
/// read as has its text as before, and a command of another meaning takes that.
#[derive(Clone, Copy, PartialEq, Eq, Drop)]
enum Reading {
    Text,
    List,
    Dict,
}

/// Whether a word is written as an option is.
fn is_option(word: &str) -> bool {
    matches!(word.as_bytes(), [b'-', ..])
}

/// Whether a command of these first two words reads that at a place behind its name as a list. So
/// many words stand from there to the end. No script stands at such a place: one that keeps a list
/// would have to be looked up at each evaluation.
fn is_list_place(name: &str, second: &str, place: usize, left: usize) -> bool {
    match name {
        "array" => second == "set" && place == 3,
        "dict" => second == "for" && place == 2,
        "foreach" | "lmap" => left > 1,
        "join" | "lassign" | "linsert" | "llength" | "lrange" | "lreplace" | "lreverse" => {
            place == 1
        }
        "lindex" => true,
        "lsearch" => left == 2,
        "lsort" => left == 1,
        "switch" => left == 1 && (place == 2 || is_option(second)),
        "try" => left > 1 && (place % 4 == 3 || place % 4 == 0),
        _ => false,
    }
}

/// Whether a `dict` with this subcommand reads the word at a place as a dict.
fn is_dict_place(subcommand: &str, place: usize) -> bool {
    match subcommand {
        "exists" | "get" | "keys" | "remove" | "replace" | "size" | "values" => place == 2,
        "for" => place == 3,
        "merge" => place > 1,
        _ => false,
    }
}

/// What a command of these first two words reads the word at a place as. So many words stand from
/// there to the end.
fn reading_at(name: &str, second: &str, place: usize, left: usize) -> Reading {
    if is_list_place(name, second, place, left) {
        return Reading::List;
    }
    if name == "dict" && is_dict_place(second, place) {
        return Reading::Dict;
    }
    Reading::Text
}

/// The text of a value that is kept as one. None that is a number or empty is a list of interest.
fn text_of(value: &Value) -> &str {
    match value.as_text() {
        Some(text) => text.as_str(),
        None => "",
    }
}

/// The text of a word that is a literal.
fn literal_text(word: &PreparedWord) -> &str {
    match word {
        PreparedWord::Literal(value) => text_of(value),
        _ => "",
    }
}

/// Whether a text holds white space. One that holds none is a list of itself at most.
fn has_white(text: &str) -> bool {
    text.as_bytes()
        .iter()
        .any(|byte| matches!(*byte, b' ' | b'\t'..=b'\r'))
}

/// What the value at a place is read as, among those that are the words of a command.
fn value_reading(values: &[Value], place: usize) -> Reading {
    let left = values.len().saturating_sub(place);
    match (values, values.get(place)) {
        ([name, second, ..], Some(value)) if has_white(text_of(value)) => {
            reading_at(text_of(name), text_of(second), place, left)
        }
        _ => Reading::Text,
    }
}

/// The same of words.
fn word_reading(words: &[PreparedWord], place: usize) -> Reading {
    let left = words.len().saturating_sub(place);
    match (words, words.get(place)) {
        ([name, second, ..], Some(word)) if has_white(literal_text(word)) => {
            reading_at(literal_text(name), literal_text(second), place, left)
        }
        _ => Reading::Text,
    }
}

/// Has a value keep what it is read as, if it is such a list or dict and there is memory for it.
fn keep(alloc: Global, reading: Reading, value: &mut Value)
    ensures { value.new ≡ value.old }
{
    match reading {
        Reading::List => {
            let _list = value.as_list(alloc);
        }
        Reading::Dict => {
            let _dict = value.as_dict(alloc);
        }
        Reading::Text => {}
    }
}

/// Has a literal keep it.
fn keep_in_word(alloc: Global, reading: Reading, word: &mut PreparedWord)
    ensures { word.new ≡ word.old }
{
    if let PreparedWord::Literal(value) = word {
        keep(alloc, reading, value);
    }
}

/// Has the values that are the words of a command keep what the command reads them as.
pub(crate) fn keep_in_values(alloc: Global, values: &mut Vec<Value>)
    ensures { values.new.items ≡ values.old.items }
{
    'places: for place in 1..values.len() {
        let reading = value_reading(values.as_slice(), place);
        keep(alloc, reading, &mut values[place]);
    }
}

/// The same of words that are literals.
pub(crate) fn keep_in_words(alloc: Global, words: &mut Vec<PreparedWord>)
    ensures { words.new.items ≡ words.old.items }
{
    'places: for place in 1..words.len() {
        let reading = word_reading(words.as_slice(), place);
        keep_in_word(alloc, reading, &mut words[place]);
    }
}

/// How many pieces the list has that a value keeps: itself, and its elements.
fn list_pieces(alloc: Global, value: &Value) -> usize {
    let Ok(mut own) = value.clone() else {
        return value.text_len();
    };
    match own.as_list(alloc) {
        Ok(list) => list.len().saturating_add(1),
        Err(_) => value.text_len(),
    }
}

/// How many pieces the dict has that a value keeps: three for itself, and its keys and values.
fn dict_pieces(alloc: Global, value: &Value) -> usize {
    let Ok(mut own) = value.clone() else {
        return value.text_len();
    };
    match own.as_dict(alloc) {
        Ok(dict) => dict.len().saturating_mul(2).saturating_add(3),
        Err(_) => value.text_len(),
    }
}

/// How many pieces a value keeps beside its text.
fn kept_pieces(alloc: Global, value: &Value) -> usize {
    if value.as_text().is_none() {
        return 0;
    }
    if !value.wants_list() {
        return list_pieces(alloc, value);
    }
    if !value.wants_dict() {
        return dict_pieces(alloc, value);
    }
    0
}

/// How many pieces values keep beside their texts.
pub(crate) fn pieces_in_values(alloc: Global, values: &[Value]) -> usize {
    let mut pieces: usize = 0;
    'values: for value in values {
        pieces = pieces.saturating_add(kept_pieces(alloc, value));
    }
    pieces
}

/// The same of the words that are literals.
pub(crate) fn pieces_in_words(alloc: Global, words: &[PreparedWord]) -> usize {
    let mut pieces: usize = 0;
    'words: for word in words {
        if let PreparedWord::Literal(value) = word {
            pieces = pieces.saturating_add(kept_pieces(alloc, value));
        }
    }
    pieces
}
