//! The subcommands that make texts: `tolower`, `toupper`, `repeat`, `cat`, `map`.
ghost use Rattle.std.specs.Prelude.{◌≡◌, Err};
ghost use Rattle.std.specs.Str.{chars};
ghost use Rattle.tcl_words.specs.Outcomes.{Outcome, Gives, Refuses, answer_text};
ghost use Rattle.tcl_words.specs.Limits.{limited};
ghost use Rattle.tcl_words.specs.Faults.{too_long};
ghost use Rattle.tcl_characters.specs.Texts.{copies};
ghost use Rattle.tcl_characters.specs.Mapping.{mapped};
ghost use Rattle.tcl_strings.specs.Making.{to_lower_of, to_upper_of, times, repeat_of, cat_of};
ghost use Rattle.tcl_strings.specs.Making.{mapping_word, map_of};

use crate::options::nocase_words;
use std::alloc::Global;
use tcl_characters::copies::{repeat, to_lower, to_upper};
use tcl_characters::limit::{LimitError, join};
use tcl_characters::mapping::map;
use tcl_text::integer::Integers;
use tcl_text::limit::MOST_BYTES;
use tcl_text::text::Text;
use tcl_words::answer::Answer;
use tcl_words::arguments::{one_word, two_words};
use tcl_words::limits::{string_answer, text_answer};
use tcl_words::reading::{integer_word, list_word};
use tcl_words::refusal::{Refusal, missing_value, too_long};

/// `string tolower s`: the text with its ASCII letters in lower case.
///
/// # Errors
/// 241; want of memory.
pub fn tolower(alloc: Global, words: &[Text]) -> Result<Answer, Refusal>
    ensures { Gives answer_text result (to_lower_of words.now) }
{
    let text = one_word(alloc, words, "string tolower s")?;
    let made = to_lower(alloc, text.as_str())?;
    string_answer(alloc, made)
}

/// `string toupper s`: the text with its ASCII letters in upper case.
///
/// # Errors
/// 241; want of memory.
pub fn toupper(alloc: Global, words: &[Text]) -> Result<Answer, Refusal>
    ensures { Gives answer_text result (to_upper_of words.now) }
{
    let text = one_word(alloc, words, "string toupper s")?;
    let made = to_upper(alloc, text.as_str())?;
    string_answer(alloc, made)
}

/// How often a text stands in what repeats it: not at all below 1.
fn times(count: i64) -> u64
    ensures { result ≡ times count }
{
    if count < 0 { 0 } else { count as u64 }
}

/// A text, so many times.
fn repeated(alloc: Global, text: &str, count: u64) -> Result<Answer, Refusal>
    ensures { Gives answer_text result (limited (copies count text.now)) }
{
    if text.is_empty() {
        return text_answer(alloc, "");
    }
    let most = (MOST_BYTES / text.len()) as u64;
    if count > most {
        return Err(too_long(alloc));
    }
    let made = repeat(alloc, text, count as usize)?;
    string_answer(alloc, made)
}

/// `string repeat s count`: the text, so many times.
///
/// # Errors
/// 241, 111, 112, 122; want of memory.
pub fn repeat_text(alloc: Global, style: Integers, words: &[Text]) -> Result<Answer, Refusal>
    ensures { Gives answer_text result (repeat_of style words.now) }
{
    let (text, count) = two_words(alloc, words, "string repeat s count")?;
    let count = integer_word(alloc, style, count.as_str())?;
    repeated(alloc, text.as_str(), times(count))
}

/// What is told of a text that isn't made.
fn not_made(alloc: Global, why: LimitError) -> Refusal
    ensures { (outcome : Outcome) → (why ≡ LimitError.TooLong → outcome ≡ Err too_long) →
        Refuses result outcome }
{
    match why {
        LimitError::Memory => Refusal::Memory,
        LimitError::TooLong => too_long(alloc),
    }
}

/// `string cat ?arg ...?`: the texts one behind another.
///
/// # Errors
/// 122; want of memory.
pub fn cat(alloc: Global, words: &[Text]) -> Result<Answer, Refusal>
    ensures { Gives answer_text result (cat_of words.now) }
{
    match join(alloc, words) {
        Ok(made) => string_answer(alloc, made),
        Err(why) => Err(not_made(alloc, why)),
    }
}

/// A text in which what stands for the keys of a mapping is put in their place.
fn mapped(alloc: Global, mapping: &[Text], text: &str, nocase: bool) -> Result<Answer, Refusal>
    ensures { Gives answer_text result (limited (mapped nocase mapping.now (chars text.now) 0)) }
{
    match map(alloc, mapping, text, nocase) {
        Ok(made) => string_answer(alloc, made),
        Err(why) => Err(not_made(alloc, why)),
    }
}

/// The mapping of a word: keys and what stands for each in turn.
fn mapping_word(alloc: Global, word: &str) -> Result<Vec<Text>, Refusal>
    ensures { Gives (λ list. list.items) result (mapping_word word.now) }
{
    let list = list_word(alloc, word)?;
    if list.len() % 2 != 0 {
        return Err(missing_value(alloc));
    }
    Ok(list)
}

/// `string map ?-nocase? mapping s`: the text in which what stands for the keys of the mapping is
/// put in their place, at each place the first key that fits. With `-nocase` the case of ASCII
/// letters doesn't count in the keys.
///
/// # Errors
/// 241, 221, 101 to 104, 121, 122; want of memory.
pub fn map_keys(alloc: Global, words: &[Text]) -> Result<Answer, Refusal>
    ensures { Gives answer_text result (map_of words.now) }
{
    let (nocase, mapping, text) = nocase_words(alloc, words, "string map ?-nocase? mapping s")?;
    let mapping = mapping_word(alloc, mapping.as_str())?;
    mapped(alloc, &mapping, text.as_str(), nocase)
}
