//! How the words of list commands are read.
ghost use Rattle.std.specs.Prelude.{◌≡◌, ◌∷◌, [], Ok, Err, nat_le, if◌then◌else◌};
ghost use Rattle.std.specs.Bool.{OnTrue};
ghost use Rattle.tcl_text.specs.Indexes.{place};
ghost use Rattle.tcl_value.specs.Reading.{list_of};
ghost use Rattle.tcl_words.specs.Faults.{too_long};
ghost use Rattle.tcl_words.specs.Outcomes.{Gives};
ghost use Rattle.tcl_words.specs.Arguments.{one_word, three_words, one_or_two_words};
ghost use Rattle.tcl_words.specs.Arguments.{two_or_three_words};
ghost use Rattle.tcl_words.specs.Words.{integer_word, index_word, list_word};
ghost use Rattle.std.specs.Option.{option_copied};
ghost use Rattle.tcl_lists.specs.Lists.{first_and_rest, two_and_rest, three_and_rest, all_and_last};
ghost use Rattle.tcl_lists.specs.Lists.{first_middle_last};

use crate::refusing::no_list;
use std::alloc::Global;
use tcl_text::index::{Index, place};
use tcl_text::integer::Integers;
use tcl_text::limit::MOST_BYTES;
use tcl_text::list::ListError;
use tcl_value::list::List;
use tcl_value::value::Value;
use tcl_words::reading;
use tcl_words::refusal::{Refusal, too_long, wrong_arguments};

/// The only word.
///
/// # Errors
/// 241 with the form where there isn't just one; want of memory.
pub fn one_word<'a>(alloc: Global, words: &'a [Value], form: &str) -> Result<&'a Value, Refusal>
    ensures { Gives (λ a. a.now) result (one_word form.now words.now) }
{
    match words {
        [a] => Ok(a),
        _ => Err(wrong_arguments(alloc, form)),
    }
}

/// A word, and one that may be left out.
///
/// # Errors
/// 241 with the form where there is another number of words; want of memory.
pub fn one_or_two_words<'a>(
    alloc: Global,
    words: &'a [Value],
    form: &str,
) -> Result<(&'a Value, Option<&'a Value>), Refusal>
    ensures { Gives (λ p. (p.0.now, option_copied p.1)) result
        (one_or_two_words form.now words.now) }
{
    match words {
        [a] => Ok((a, None)),
        [a, b] => Ok((a, Some(b))),
        _ => Err(wrong_arguments(alloc, form)),
    }
}

/// The three words.
///
/// # Errors
/// 241 with the form where there aren't three; want of memory.
pub fn three_words<'a>(
    alloc: Global,
    words: &'a [Value],
    form: &str,
) -> Result<(&'a Value, &'a Value, &'a Value), Refusal>
    ensures { Gives (λ p. (p.0.now, p.1.now, p.2.now)) result (three_words form.now words.now) }
{
    match words {
        [a, b, c] => Ok((a, b, c)),
        _ => Err(wrong_arguments(alloc, form)),
    }
}

/// A word that must stand, and those behind it.
///
/// # Errors
/// 241 with the form where there is none; want of memory.
pub fn first_and_rest<'a>(
    alloc: Global,
    words: &'a [Value],
    form: &str,
) -> Result<(&'a Value, &'a [Value]), Refusal>
    ensures { Gives (λ p. (p.0.now, p.1.now)) result (first_and_rest form.now words.now) }
{
    match words {
        [a, rest @ ..] => Ok((a, rest)),
        _ => Err(wrong_arguments(alloc, form)),
    }
}

/// Two words that must stand, and those behind them.
///
/// # Errors
/// 241 with the form where there are fewer; want of memory.
pub fn two_and_rest<'a>(
    alloc: Global,
    words: &'a [Value],
    form: &str,
) -> Result<(&'a Value, &'a Value, &'a [Value]), Refusal>
    ensures { Gives (λ p. (p.0.now, p.1.now, p.2.now)) result (two_and_rest form.now words.now) }
{
    match words {
        [a, b, rest @ ..] => Ok((a, b, rest)),
        _ => Err(wrong_arguments(alloc, form)),
    }
}

/// Three words that must stand, and those behind them.
///
/// # Errors
/// 241 with the form where there are fewer; want of memory.
pub fn three_and_rest<'a>(
    alloc: Global,
    words: &'a [Value],
    form: &str,
) -> Result<(&'a Value, &'a Value, &'a Value, &'a [Value]), Refusal>
    ensures { Gives (λ p. (p.0.now, p.1.now, p.2.now, p.3.now)) result
        (three_and_rest form.now words.now) }
{
    match words {
        [a, b, c, rest @ ..] => Ok((a, b, c, rest)),
        _ => Err(wrong_arguments(alloc, form)),
    }
}

/// The last word, behind those before it.
///
/// # Errors
/// 241 with the form where there is none; want of memory.
pub fn all_and_last<'a>(
    alloc: Global,
    words: &'a [Value],
    form: &str,
) -> Result<(&'a [Value], &'a Value), Refusal>
    ensures { Gives (λ p. (p.0.now, p.1.now)) result (all_and_last form.now words.now) }
{
    match words {
        [rest @ .., last] => Ok((rest, last)),
        _ => Err(wrong_arguments(alloc, form)),
    }
}

/// The first word and the last one, and those between them.
///
/// # Errors
/// 241 with the form where there are fewer than two; want of memory.
pub fn first_middle_last<'a>(
    alloc: Global,
    words: &'a [Value],
    form: &str,
) -> Result<(&'a Value, &'a [Value], &'a Value), Refusal>
    ensures { Gives (λ p. (p.0.now, p.1.now, p.2.now)) result
        (first_middle_last form.now words.now) }
{
    let (first, rest) = first_and_rest(alloc, words, form)?;
    let (middle, last) = all_and_last(alloc, rest, form)?;
    Ok((first, middle, last))
}

/// Two words, and one that may be left out.
///
/// # Errors
/// 241 with the form where there is another number of words; want of memory.
pub fn two_or_three_words<'a>(
    alloc: Global,
    words: &'a [Value],
    form: &str,
) -> Result<(&'a Value, &'a Value, Option<&'a Value>), Refusal>
    ensures { Gives (λ p. (p.0.now, p.1.now, option_copied p.2)) result
        (two_or_three_words form.now words.now) }
{
    match words {
        [a, b] => Ok((a, b, None)),
        [a, b, c] => Ok((a, b, Some(c))),
        _ => Err(wrong_arguments(alloc, form)),
    }
}

/// The list of a word, which is shared where the word is kept as one.
///
/// # Errors
/// 101 to 104 where its text spells no list; want of memory.
pub fn list_word(alloc: Global, word: &Value) -> Result<List, Refusal>
    ensures { Gives (λ list. list) result (list_word word.now) }
{
    let mut own = word.clone()?;
    own_list(alloc, &mut own)
}

/// The list of a value, which keeps it.
///
/// # Errors
/// 101 to 104 where its text spells no list; want of memory.
pub fn own_list(alloc: Global, own: &mut Value) -> Result<List, Refusal>
    ensures read { Gives (λ list. list) result (list_word own.old) }
    ensures text { own.new ≡ own.old }
{
    match own.as_list(alloc) {
        Ok(list) => Ok(list),
        Err(ListError::Fault(fault)) => Err(no_list(alloc, &fault)),
        Err(ListError::Memory) => Err(Refusal::Memory),
    }
}

/// The integer of a word.
///
/// # Errors
/// 111 where it is no integer text, 112 where the number takes more than 64 bits; want of memory.
pub fn integer_word(alloc: Global, style: Integers, word: &Value) -> Result<i64, Refusal>
    ensures { Gives (λ n. n) result (integer_word style word.now) }
{
    let text = word.text(alloc)?;
    reading::integer_word(alloc, style, text.as_str())
}

/// The integer of a value, which keeps it. This makes no text of a number.
///
/// # Errors
/// 111 where it is no integer text, 112 where the number takes more than 64 bits; want of memory.
pub fn own_integer(alloc: Global, style: Integers, own: &mut Value) -> Result<i64, Refusal>
    ensures read { Gives (λ n. n) result (integer_word style own.old) }
    ensures text { own.new ≡ own.old }
{
    match own.as_int(style) {
        Ok(n) => Ok(n),
        Err(_) => integer_word(alloc, style, own),
    }
}

/// Whether a word is kept as a number, and so is a list whose only element it is.
pub(crate) fn is_number(word: &Value) -> bool
    ensures { OnTrue result (list_of word.now ≡ Ok (word.now ∷ [])) }
{
    word.number().is_some()
}

/// The place to which a number points in a list of so many elements.
fn number_place(alloc: Global, count: usize, number: i64) -> Result<Index, Refusal>
    ensures { Gives (λ place. place) result
        (if nat_le count 16777216 then Ok (place number) else Err too_long) }
{
    if count > MOST_BYTES {
        return Err(too_long(alloc));
    }
    Ok(place(number))
}

/// The place to which an index word points in a list of so many elements, of which `end` is the
/// last. This makes no text of a number.
///
/// # Errors
/// 114 where it is no index text, 122 where no value has so many elements; want of memory.
pub fn index_word(
    alloc: Global,
    style: Integers,
    count: usize,
    word: &Value,
) -> Result<Index, Refusal>
    ensures { Gives (λ place. place) result (index_word style count word.now) }
{
    if let Some(number) = word.number() {
        return number_place(alloc, count, number);
    }
    let text = word.text(alloc)?;
    reading::index_word(alloc, style, count, text.as_str())
}
