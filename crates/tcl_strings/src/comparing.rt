//! The subcommands that compare: `equal`, `compare`, `match`.
ghost use Rattle.std.specs.Prelude.{◌≡◌};
ghost use Rattle.std.specs.Ordering.{is_eq};
ghost use Rattle.tcl_glob.specs.Patterns.{letters};
ghost use Rattle.tcl_characters.specs.Order.{order};
ghost use Rattle.tcl_words.specs.Outcomes.{Gives, answer_text};
ghost use Rattle.tcl_strings.specs.Comparing.{truth, sign, equal_of, compare_of, match_of};

use crate::options::nocase_words;
use std::alloc::Global;
use std::cmp::Ordering;
use tcl_characters::order;
use tcl_glob::matches;
use tcl_text::text::Text;
use tcl_words::answer::Answer;
use tcl_words::refusal::Refusal;

/// 1 of what holds and 0 of what doesn't.
pub(crate) fn truth(holds: bool) -> i64
    ensures { result ≡ truth holds }
{
    i64::from(holds)
}

/// -1, 0 or 1.
fn sign(ordering: Ordering) -> i64
    ensures { result ≡ sign ordering }
{
    match ordering {
        Ordering::Less => -1,
        Ordering::Equal => 0,
        Ordering::Greater => 1,
    }
}

/// Whether two texts have the same characters.
fn same(a: &str, b: &str, nocase: bool) -> bool
    ensures { result ≡ is_eq (order (letters nocase a.now) (letters nocase b.now)) }
{
    order::equal(a, b, nocase)
}

/// `string equal ?-nocase? a b`: 1 where the texts have the same characters, else 0. With `-nocase`
/// the case of ASCII letters doesn't count.
///
/// # Errors
/// 241, 221; want of memory.
pub fn equal(alloc: Global, words: &[Text]) -> Result<Answer, Refusal>
    ensures { Gives answer_text result (equal_of words.now) }
{
    let (nocase, a, b) = nocase_words(alloc, words, "string equal ?-nocase? a b")?;
    Ok(Answer::Number(truth(same(a.as_str(), b.as_str(), nocase))))
}

/// `string compare ?-nocase? a b`: -1, 0 or 1 as the first text comes before the second, is the
/// same or comes behind it, by the numbers of their characters. With `-nocase` the case of ASCII
/// letters doesn't count.
///
/// # Errors
/// 241, 221; want of memory.
pub fn compare(alloc: Global, words: &[Text]) -> Result<Answer, Refusal>
    ensures { Gives answer_text result (compare_of words.now) }
{
    let (nocase, a, b) = nocase_words(alloc, words, "string compare ?-nocase? a b")?;
    Ok(Answer::Number(sign(order::compare(a.as_str(), b.as_str(), nocase))))
}

/// `string match ?-nocase? pattern s`: 1 where the pattern matches the whole text, else 0. With
/// `-nocase` the case of ASCII letters doesn't count.
///
/// # Errors
/// 241, 221; want of memory.
pub fn match_pattern(alloc: Global, words: &[Text]) -> Result<Answer, Refusal>
    ensures { Gives answer_text result (match_of words.now) }
{
    let (nocase, pattern, text) = nocase_words(alloc, words, "string match ?-nocase? pattern s")?;
    Ok(Answer::Number(truth(matches(pattern.as_str(), text.as_str(), nocase))))
}
