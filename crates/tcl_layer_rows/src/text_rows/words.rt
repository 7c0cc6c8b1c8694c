//! The words of commands: reading them, refusing them, and answering.
use crate::text_rows::answers::{answer as show, elements, no_call, refusal};
use std::alloc::{AllocError, Global};
use tcl_text::integer::Integers;
use tcl_text::limit::MOST_BYTES;
use tcl_text::text::Text;
use tcl_words::answer::Answer;
use tcl_words::arguments::{
    one_or_two_words, one_word, three_or_four_words, three_words, two_or_three_words, two_words,
};
use tcl_words::limits::{count_answer, limited, string_answer, text_answer};
use tcl_words::reading::{index_word, integer_word, list_word};
use tcl_words::refusal::{
    Refusal, bad_count, bad_option, missing_value, too_long, unknown_subcommand, wrong_arguments,
};

/// The last of the words that a verb reads.
fn last_needed<'a>(alloc: Global, verb: &str, words: &'a [Text]) -> Result<&'a Text, Refusal> {
    match verb {
        "one_word" => one_word(alloc, words, "f"),
        "two_words" => Ok(two_words(alloc, words, "f")?.1),
        "three_words" => Ok(three_words(alloc, words, "f")?.2),
        _ => Err(Refusal::Memory),
    }
}

/// The last of the words that a verb reads, or none where it is left out.
fn last_word<'a>(
    alloc: Global,
    verb: &str,
    words: &'a [Text],
) -> Result<Option<&'a Text>, Refusal> {
    match verb {
        "one_or_two_words" => Ok(one_or_two_words(alloc, words, "f")?.1),
        "two_or_three_words" => Ok(two_or_three_words(alloc, words, "f")?.2),
        "three_or_four_words" => Ok(three_or_four_words(alloc, words, "f")?.3),
        _ => Ok(Some(last_needed(alloc, verb, words)?)),
    }
}

/// The last word that a verb reads, or why there is none.
fn last_read<'a>(alloc: Global, verb: &str, words: &'a [Text]) -> &'a str {
    match last_word(alloc, verb, words) {
        Ok(Some(word)) => word.as_str(),
        Ok(None) => "left out",
        Err(Refusal::Fault(_)) => "refused",
        Err(Refusal::Memory) => "no call",
    }
}

/// The integer that a word says.
fn integer(alloc: Global, style: Integers, word: &str) -> Result<String, AllocError> {
    match integer_word(alloc, style, word) {
        Ok(number) => show(alloc, Ok(Answer::Number(number))),
        Err(refused) => refusal(alloc, refused),
    }
}

/// The list that a word says.
fn list(alloc: Global, word: &str) -> Result<String, AllocError> {
    match list_word(alloc, word) {
        Ok(list) => elements(alloc, list.as_slice()),
        Err(refused) => refusal(alloc, refused),
    }
}

/// The place that a word says among so many.
fn index(alloc: Global, style: Integers, count: usize, word: &str) -> Result<String, AllocError> {
    if count > MOST_BYTES {
        return no_call(alloc);
    }
    match index_word(alloc, style, count, word) {
        Ok(index) => format!(in alloc; "{index:?}"),
        Err(refused) => refusal(alloc, refused),
    }
}

/// A text where it isn't too long.
fn within(alloc: Global, text: &str) -> Result<String, AllocError> {
    match limited(alloc, text) {
        Ok(text) => String::from_str(alloc, text),
        Err(refused) => refusal(alloc, refused),
    }
}

/// What a verb that reads a word or answers it gives.
fn of_word(alloc: Global, style: Integers, verb: &str, word: &str) -> Result<String, AllocError> {
    match verb {
        "integer_word" => integer(alloc, style, word),
        "list_word" => list(alloc, word),
        "text_answer" => show(alloc, text_answer(alloc, word)),
        "string_answer" => {
            let string = String::from_str(alloc, word)?;
            show(alloc, string_answer(alloc, string))
        }
        "limited" => within(alloc, word),
        _ => no_call(alloc),
    }
}

/// What is told of a word that is refused.
fn of_refused(alloc: Global, verb: &str, word: &str) -> Option<Refusal> {
    match verb {
        "wrong_arguments" => Some(wrong_arguments(alloc, word)),
        "bad_option" => Some(bad_option(alloc, word)),
        "bad_count" => Some(bad_count(alloc, word)),
        "unknown_subcommand" => Some(unknown_subcommand(alloc, word)),
        "missing_value" => Some(missing_value(alloc)),
        "too_long" => Some(too_long(alloc)),
        _ => None,
    }
}

/// What a verb tells of a count, and of a word of so many.
fn of_count(
    alloc: Global,
    style: Integers,
    verb: &str,
    count: usize,
    words: &[Text],
) -> Result<String, AllocError> {
    match (verb, words) {
        ("count_answer", []) => show(alloc, count_answer(alloc, count)),
        ("index_word", [word]) => index(alloc, style, count, word.as_str()),
        _ => no_call(alloc),
    }
}

/// What a verb that begins with a count, or reads one word, answers.
fn of_first(
    alloc: Global,
    style: Integers,
    verb: &str,
    first: &str,
    words: &[Text],
) -> Result<String, AllocError> {
    match (verb, first.parse::<usize>()) {
        ("count_answer" | "index_word", Ok(count)) => of_count(alloc, style, verb, count, words),
        _ => match of_refused(alloc, verb, first) {
            Some(refused) => refusal(alloc, refused),
            None => of_word(alloc, style, verb, first),
        },
    }
}

/// What a verb answers.
pub(crate) fn answer(
    alloc: Global,
    style: Integers,
    verb: &str,
    words: &[Text],
) -> Result<String, AllocError> {
    if verb.ends_with("_words") || verb == "one_word" {
        return String::from_str(alloc, last_read(alloc, verb, words));
    }
    match words {
        [] => of_first(alloc, style, verb, "", words),
        [first, rest @ ..] => of_first(alloc, style, verb, first.as_str(), rest),
    }
}
