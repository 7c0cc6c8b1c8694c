//! How calls are read.
use std::alloc::Global;
use tcl_lists::indexes::elements_of;
use tcl_text::integer::Integers;
use tcl_text::list::{ListError, read_list};
use tcl_text::text::Text;
use tcl_value::value::{Value, ValueError};

/// What a call names.
#[derive(Clone, Copy)]
pub(crate) enum Verb<'a> {
    /// A command, or a method of values.
    Plain(&'a str),
    /// A subcommand of `dict`.
    OfDict(&'a str),
    /// A method of lists.
    List(&'a str),
    /// A method of dicts.
    Dict(&'a str),
}

/// A call without its words.
#[derive(Clone, Copy)]
pub(crate) struct Call<'a> {
    /// How the integers are read.
    pub(crate) style: Integers,
    /// What is called.
    pub(crate) verb: Verb<'a>,
}

/// A name, and what stands behind it.
fn name_and_rest(text: &str) -> (&str, &str) {
    text.split_once(" ").unwrap_or((text, ""))
}

/// What a name calls.
fn verb_of(name: &str) -> Verb<'_> {
    if let Some(method) = name.strip_prefix("List::") {
        return Verb::List(method);
    }
    match name.strip_prefix("Dict::") {
        Some(method) => Verb::Dict(method),
        None => Verb::Plain(name),
    }
}

/// What a text calls, and the words behind it.
fn verb_and_words(text: &str) -> (Verb<'_>, &str) {
    if let Some(rest) = text.strip_prefix("dict ") {
        let (name, words) = name_and_rest(rest);
        return (Verb::OfDict(name), words);
    }
    let (name, words) = name_and_rest(text);
    (verb_of(name), words)
}

/// The call of a text, and the words behind it.
pub(crate) fn call_and_words(text: &str) -> (Call<'_>, &str) {
    let (style, text) = match text.strip_prefix("tcl9 ") {
        Some(rest) => (Integers::Tcl9, rest),
        None => (Integers::Tcl8, text),
    };
    let (verb, words) = verb_and_words(text);
    (Call { style, verb }, words)
}

/// The words of a list.
pub(crate) fn words_of(alloc: Global, list: &str) -> Result<Vec<Text>, ValueError> {
    match read_list(alloc, list) {
        Ok(words) => Ok(words),
        Err(ListError::Memory) | Err(ListError::Fault(_)) => Err(ValueError::Memory),
    }
}

/// The number that a word spells.
pub(crate) fn number_of(alloc: Global, word: &Value) -> Result<usize, ValueError> {
    match word.text(alloc)?.as_str().parse::<usize>() {
        Ok(number) => Ok(number),
        Err(_) => Err(ValueError::Memory),
    }
}

/// The elements of the list that a word spells.
pub(crate) fn path_of(alloc: Global, word: &Value) -> Result<Vec<Value>, ValueError> {
    let mut own = word.clone()?;
    match own.as_list(alloc) {
        Ok(list) => Ok(elements_of(alloc, &list)?),
        Err(_) => Err(ValueError::Memory),
    }
}

/// The numbers of the list that a word spells.
pub(crate) fn places_of(alloc: Global, word: &Value) -> Result<Vec<usize>, ValueError> {
    let path = path_of(alloc, word)?;
    let mut places = Vec::new(alloc);
    'places: for place in path.iter() {
        places.push(number_of(alloc, place)?)?;
    }
    Ok(places)
}
