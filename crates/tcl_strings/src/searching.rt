//! The subcommands that search: `first`, `last`.
ghost use Rattle.std.specs.Prelude.{◌≡◌, length};
ghost use Rattle.std.specs.Option.{option_copied};
ghost use Rattle.tcl_words.specs.Spans.{start, end};
ghost use Rattle.tcl_words.specs.Outcomes.{Gives, answer_text};
ghost use Rattle.tcl_strings.specs.Searching.{place_or, index_or, first_of, last_of};

use std::alloc::Global;
use tcl_characters::parts::characters_of;
use tcl_characters::places::{first_place, last_place};
use tcl_text::index::Index;
use tcl_text::integer::Integers;
use tcl_text::text::Text;
use tcl_words::answer::Answer;
use tcl_words::arguments::two_or_three_words;
use tcl_words::limits::count_answer;
use tcl_words::reading::index_word;
use tcl_words::refusal::Refusal;

/// The place to which an index word points, or `left_out` where there is none.
fn index_or(
    alloc: Global,
    style: Integers,
    count: usize,
    left_out: Index,
    word: Option<&Text>,
) -> Result<Index, Refusal>
    ensures { Gives (λ place. place) result
        (index_or style count left_out (option_copied word.entry)) }
{
    match word {
        Some(word) => index_word(alloc, style, count, word.as_str()),
        None => Ok(left_out),
    }
}

/// How many of so many elements stand before a place.
fn start(count: usize, place: Index) -> usize
    ensures { result ≡ start count place }
{
    match place {
        Index::Before => 0,
        Index::At(n) => n as usize,
        Index::Beyond => count,
    }
}

/// How many of so many elements stand before the place behind this one.
fn end(count: usize, place: Index) -> usize
    ensures { result ≡ end count place }
{
    match place {
        Index::Before => 0,
        Index::At(n) => n as usize + 1,
        Index::Beyond => count,
    }
}

/// A place, or -1 where there is none, as the answer of a command.
fn place_answer(alloc: Global, place: Option<usize>) -> Result<Answer, Refusal>
    ensures { Gives answer_text result (place_or place) }
{
    match place {
        Some(place) => count_answer(alloc, place),
        None => Ok(Answer::Number(-1)),
    }
}

/// `string first needle s ?start?`: the first place, from an index on, at which the characters of
/// the needle stand in the text; -1 where there is none or the needle is empty.
///
/// # Errors
/// 241, 114; want of memory.
pub fn first(alloc: Global, style: Integers, words: &[Text]) -> Result<Answer, Refusal>
    ensures { Gives answer_text result (first_of style words.now) }
{
    let (needle, text, from) = two_or_three_words(alloc, words, "string first needle s ?start?")?;
    let count = characters_of(text);
    let from = index_or(alloc, style, count, Index::Before, from)?;
    place_answer(
        alloc,
        first_place(needle.as_str(), text.as_str(), start(count, from)),
    )
}

/// `string last needle s ?last?`: the last place at which the characters of the needle stand in the
/// text, none of them behind an index; -1 where there is none or the needle is empty.
///
/// # Errors
/// 241, 114; want of memory.
pub fn last(alloc: Global, style: Integers, words: &[Text]) -> Result<Answer, Refusal>
    ensures { Gives answer_text result (last_of style words.now) }
{
    let (needle, text, last) = two_or_three_words(alloc, words, "string last needle s ?last?")?;
    let count = characters_of(text);
    let last = index_or(alloc, style, count, Index::Beyond, last)?;
    place_answer(
        alloc,
        last_place(needle.as_str(), text.as_str(), end(count, last)),
    )
}
