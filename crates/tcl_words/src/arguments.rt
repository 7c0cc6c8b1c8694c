//! The words of a command, by their number.
ghost use Rattle.std.specs.Prelude.{◌≡◌};
ghost use Rattle.std.specs.Option.{option_copied};
ghost use Rattle.tcl_words.specs.Outcomes.{Gives};
ghost use Rattle.tcl_words.specs.Arguments.{one_word, two_words, three_words, one_or_two_words};
ghost use Rattle.tcl_words.specs.Arguments.{two_or_three_words, three_or_four_words};

use crate::refusal::{Refusal, wrong_arguments};
use std::alloc::Global;
use tcl_text::text::Text;

/// The only word.
///
/// # Errors
/// 241 with the form where there isn't just one; want of memory.
pub fn one_word<'a>(alloc: Global, words: &'a [Text], form: &str) -> Result<&'a Text, Refusal>
    ensures { Gives (λ a. a.now) result (one_word form.now words.now) }
{
    match words {
        [a] => Ok(a),
        _ => Err(wrong_arguments(alloc, form)),
    }
}

/// The two words.
///
/// # Errors
/// 241 with the form where there aren't two; want of memory.
pub fn two_words<'a>(
    alloc: Global,
    words: &'a [Text],
    form: &str,
) -> Result<(&'a Text, &'a Text), Refusal>
    ensures { Gives (λ p. (p.0.now, p.1.now)) result (two_words form.now words.now) }
{
    match words {
        [a, b] => Ok((a, b)),
        _ => Err(wrong_arguments(alloc, form)),
    }
}

/// The three words.
///
/// # Errors
/// 241 with the form where there aren't three; want of memory.
pub fn three_words<'a>(
    alloc: Global,
    words: &'a [Text],
    form: &str,
) -> Result<(&'a Text, &'a Text, &'a Text), Refusal>
    ensures { Gives (λ p. (p.0.now, p.1.now, p.2.now)) result (three_words form.now words.now) }
{
    match words {
        [a, b, c] => Ok((a, b, c)),
        _ => Err(wrong_arguments(alloc, form)),
    }
}

/// A word, and one that may be left out.
///
/// # Errors
/// 241 with the form where there is another number of words; want of memory.
pub fn one_or_two_words<'a>(
    alloc: Global,
    words: &'a [Text],
    form: &str,
) -> Result<(&'a Text, Option<&'a Text>), Refusal>
    ensures { Gives (λ p. (p.0.now, option_copied p.1)) result
        (one_or_two_words form.now words.now) }
{
    match words {
        [a] => Ok((a, None)),
        [a, b] => Ok((a, Some(b))),
        _ => Err(wrong_arguments(alloc, form)),
    }
}

/// Two words, and one that may be left out.
///
/// # Errors
/// 241 with the form where there is another number of words; want of memory.
pub fn two_or_three_words<'a>(
    alloc: Global,
    words: &'a [Text],
    form: &str,
) -> Result<(&'a Text, &'a Text, Option<&'a Text>), Refusal>
    ensures { Gives (λ p. (p.0.now, p.1.now, option_copied p.2)) result
        (two_or_three_words form.now words.now) }
{
    match words {
        [a, b] => Ok((a, b, None)),
        [a, b, c] => Ok((a, b, Some(c))),
        _ => Err(wrong_arguments(alloc, form)),
    }
}

/// Three words, and one that may be left out.
///
/// # Errors
/// 241 with the form where there is another number of words; want of memory.
pub fn three_or_four_words<'a>(
    alloc: Global,
    words: &'a [Text],
    form: &str,
) -> Result<(&'a Text, &'a Text, &'a Text, Option<&'a Text>), Refusal>
    ensures { Gives (λ p. (p.0.now, p.1.now, p.2.now, option_copied p.3)) result
        (three_or_four_words form.now words.now) }
{
    match words {
        [a, b, c] => Ok((a, b, c, None)),
        [a, b, c, d] => Ok((a, b, c, Some(d))),
        _ => Err(wrong_arguments(alloc, form)),
    }
}
