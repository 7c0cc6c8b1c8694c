//! Texts: lists, backslash sequences and patterns.
use crate::text_rows::answers::{list, no_call, whether};
use std::alloc::{AllocError, Global};
use tcl_glob::matches;
use tcl_text::backslash::read_escape;
use tcl_text::list::{ListError, read_list, write_element, write_list, written_len};
use tcl_text::text::Text;

/// How many elements a text has as a list.
fn count(alloc: Global, text: &str) -> Result<String, AllocError> {
    match read_list(alloc, text) {
        Ok(list) => {
            let count = list.len();
            format!(in alloc; "{count}")
        }
        Err(ListError::Memory) => Err(AllocError),
        Err(ListError::Fault(_)) => String::from_str(alloc, "no list"),
    }
}

/// The character of a backslash sequence, and what follows it.
fn escape(alloc: Global, text: &str) -> Result<String, AllocError> {
    let (character, rest) = read_escape(text);
    format!(in alloc; "<{character}><{rest}>")
}

/// How long an element is in a list, at the front of it or behind.
fn written_length(alloc: Global, place: &str, element: &str) -> Result<String, AllocError> {
    let length = written_len(element, place == "first");
    format!(in alloc; "{length}")
}

/// A text with an element behind it.
fn with_element(alloc: Global, text: &str, element: &str) -> Result<String, AllocError> {
    let mut written = String::from_str(alloc, text)?;
    write_element(&mut written, element, false)?;
    Ok(written)
}

/// What a verb answers to a text.
fn of_one(alloc: Global, verb: &str, text: &str) -> Result<String, AllocError> {
    match verb {
        "list" => list(alloc, text),
        "count" => count(alloc, text),
        "escape" => escape(alloc, text),
        _ => no_call(alloc),
    }
}

/// What a verb answers to two texts.
fn of_two(alloc: Global, verb: &str, one: &str, two: &str) -> Result<String, AllocError> {
    match verb {
        "matches" => whether(alloc, matches(one, two, false)),
        "matches_nocase" => whether(alloc, matches(one, two, true)),
        "written_len" => written_length(alloc, one, two),
        "write_element" => with_element(alloc, one, two),
        _ => no_call(alloc),
    }
}

/// What a verb answers.
pub(crate) fn answer(alloc: Global, verb: &str, words: &[Text]) -> Result<String, AllocError> {
    match verb {
        "write_list" => write_list(alloc, words),
        _ => match words {
            [text] => of_one(alloc, verb, text.as_str()),
            [one, two] => of_two(alloc, verb, one.as_str(), two.as_str()),
            _ => no_call(alloc),
        },
    }
}
