//! The subcommands that give parts of texts: `length`, `index`, `range`, `replace`, `reverse`,
//! `trim`, `trimleft`, `trimright`.
ghost use Rattle.std.specs.Prelude.{◌≡◌, [], unwrap_or};
ghost use Rattle.std.specs.Option.{option_copied};
ghost use Rattle.std.specs.Str.{chars};
ghost use Rattle.tcl_characters.specs.Texts.{text_of, trim_start, trim_end};
ghost use Rattle.tcl_words.specs.Outcomes.{Gives, answer_text};
ghost use Rattle.tcl_words.specs.Limits.{limited};
ghost use Rattle.tcl_strings.specs.Parts.{length_of, index_of, range_of, reverse_of, trim_of};
ghost use Rattle.tcl_strings.specs.Parts.{trim_left_of, trim_right_of, white, replaced, replace_of};

use crate::spans::{before, behind, counted_span, span};
use std::alloc::Global;
use tcl_characters::copies;
use tcl_characters::parts::characters_of;
use tcl_characters::trimming::{WHITE, trim_left, trim_right};
use tcl_text::index::Index;
use tcl_text::integer::Integers;
use tcl_text::text::Text;
use tcl_words::answer::Answer;
use tcl_words::arguments::{
    one_or_two_words, one_word, three_or_four_words, three_words, two_words,
};
use tcl_words::limits::{count_answer, string_answer, text_answer};
use tcl_words::reading::index_word;
use tcl_words::refusal::Refusal;

/// `string length s`: how many characters the text has.
///
/// # Errors
/// 241; want of memory.
pub fn length(alloc: Global, words: &[Text]) -> Result<Answer, Refusal>
    ensures { Gives answer_text result (length_of words.now) }
{
    let text = one_word(alloc, words, "string length s")?;
    count_answer(alloc, characters_of(text))
}

/// `string index s i`: the character at an index, or nothing where there is none.
///
/// # Errors
/// 241, 114; want of memory.
pub fn index(alloc: Global, style: Integers, words: &[Text]) -> Result<Answer, Refusal>
    ensures { Gives answer_text result (index_of style words.now) }
{
    let (text, at) = two_words(alloc, words, "string index s i")?;
    let count = characters_of(text);
    let at = index_word(alloc, style, count, at.as_str())?;
    text_answer(alloc, counted_span(text.as_str(), count, at, at))
}

/// `string range s first last`: the characters from one index to another.
///
/// # Errors
/// 241, 114; want of memory.
pub fn range(alloc: Global, style: Integers, words: &[Text]) -> Result<Answer, Refusal>
    ensures { Gives answer_text result (range_of style words.now) }
{
    let (text, first, last) = three_words(alloc, words, "string range s first last")?;
    let count = characters_of(text);
    let first = index_word(alloc, style, count, first.as_str())?;
    let last = index_word(alloc, style, count, last.as_str())?;
    text_answer(alloc, counted_span(text.as_str(), count, first, last))
}

/// `string reverse s`: the characters from the last to the first.
///
/// # Errors
/// 241; want of memory.
pub fn reverse(alloc: Global, words: &[Text]) -> Result<Answer, Refusal>
    ensures { Gives answer_text result (reverse_of words.now) }
{
    let text = one_word(alloc, words, "string reverse s")?;
    let made = copies::reverse(alloc, text.as_str())?;
    string_answer(alloc, made)
}

/// The characters that are trimmed: those of a word, or white space and U+0000.
fn trimmed_set(word: Option<&Text>) -> &str
    ensures { result.now ≡ unwrap_or (option_copied word.entry) white }
{
    match word {
        Some(set) => set.as_str(),
        None => WHITE,
    }
}

/// `string trimleft s ?chars?`: the text without the characters of a set that stand first.
///
/// # Errors
/// 241; want of memory.
pub fn trimleft(alloc: Global, words: &[Text]) -> Result<Answer, Refusal>
    ensures { Gives answer_text result (trim_left_of words.now) }
{
    let (text, set) = one_or_two_words(alloc, words, "string trimleft s ?chars?")?;
    text_answer(alloc, trim_left(text.as_str(), trimmed_set(set)))
}

/// `string trimright s ?chars?`: the text without the characters of a set that stand last.
///
/// # Errors
/// 241; want of memory.
pub fn trimright(alloc: Global, words: &[Text]) -> Result<Answer, Refusal>
    ensures { Gives answer_text result (trim_right_of words.now) }
{
    let (text, set) = one_or_two_words(alloc, words, "string trimright s ?chars?")?;
    text_answer(alloc, trim_right(text.as_str(), trimmed_set(set)))
}

/// A text without the characters of a set at both ends.
fn trimmed<'a>(text: &'a str, set: &str) -> &'a str
    ensures { result.now
        ≡ text_of (trim_end (chars set.now) (trim_start (chars set.now) (chars text.now))) }
{
    trim_right(trim_left(text, set), set)
}

/// `string trim s ?chars?`: the text without the characters of a set at both ends.
///
/// # Errors
/// 241; want of memory.
pub fn trim(alloc: Global, words: &[Text]) -> Result<Answer, Refusal>
    ensures { Gives answer_text result (trim_of words.now) }
{
    let (text, set) = one_or_two_words(alloc, words, "string trim s ?chars?")?;
    text_answer(alloc, trimmed(text.as_str(), trimmed_set(set)))
}

/// A text with another in the place of its characters between two places.
fn replaced(
    alloc: Global,
    text: &str,
    first: Index,
    last: Index,
    new: &str,
) -> Result<Answer, Refusal>
    ensures { Gives answer_text result (limited (replaced first last new.now text.now)) }
{
    if span(text, first, last).is_empty() {
        return text_answer(alloc, text);
    }
    let mut made = String::from_str(alloc, before(text, first))?;
    made.push_str(new)?;
    made.push_str(behind(text, last))?;
    string_answer(alloc, made)
}

/// The text of a word that may be left out.
fn or_empty(word: Option<&Text>) -> &str
    ensures { result.now ≡ unwrap_or (option_copied word.entry) [] }
{
    match word {
        Some(text) => text.as_str(),
        None => "",
    }
}

/// `string replace s first last ?new?`: the text with `new`, or nothing, in the place of the
/// characters from one index to another. It stays as it is where there are none.
///
/// # Errors
/// 241, 114, 122; want of memory.
pub fn replace(alloc: Global, style: Integers, words: &[Text]) -> Result<Answer, Refusal>
    ensures { Gives answer_text result (replace_of style words.now) }
{
    let (text, first, last, new) = three_or_four_words(
        alloc,
        words,
        "string replace s first last ?new?",
    )?;
    let count = characters_of(text);
    let first = index_word(alloc, style, count, first.as_str())?;
    let last = index_word(alloc, style, count, last.as_str())?;
    replaced(alloc, text.as_str(), first, last, or_empty(new))
}
