//! The command.
ghost use Rattle.tcl_words.specs.Outcomes.{Gives, answer_text};
ghost use Rattle.tcl_strings.specs.Subcommands.{outcome_of, string_of};

use crate::comparing::{compare, equal, match_pattern};
use crate::kinds::is;
use crate::making::{cat, map_keys, repeat_text, tolower, toupper};
use crate::parts::{index, length, range, replace, reverse, trim, trimleft, trimright};
use crate::searching::{first, last};
use crate::subcommand::Subcommand;
use std::alloc::Global;
use tcl_text::integer::Integers;
use tcl_text::text::Text;
use tcl_words::answer::Answer;
use tcl_words::refusal::{Refusal, unknown_subcommand, wrong_arguments};

/// What a subcommand answers the words behind it.
///
/// # Errors
/// Those of the subcommand; want of memory.
pub fn run(
    alloc: Global,
    style: Integers,
    subcommand: Subcommand,
    words: &[Text],
) -> Result<Answer, Refusal>
    ensures { Gives answer_text result (outcome_of style subcommand words.now) }
{
    match subcommand {
        Subcommand::Length => length(alloc, words),
        Subcommand::Index => index(alloc, style, words),
        Subcommand::Range => range(alloc, style, words),
        Subcommand::Equal => equal(alloc, words),
        Subcommand::Compare => compare(alloc, words),
        Subcommand::Match => match_pattern(alloc, words),
        Subcommand::Map => map_keys(alloc, words),
        Subcommand::First => first(alloc, style, words),
        Subcommand::Last => last(alloc, style, words),
        Subcommand::Repeat => repeat_text(alloc, style, words),
        Subcommand::Reverse => reverse(alloc, words),
        Subcommand::Replace => replace(alloc, style, words),
        Subcommand::ToLower => tolower(alloc, words),
        Subcommand::ToUpper => toupper(alloc, words),
        Subcommand::Trim => trim(alloc, words),
        Subcommand::TrimLeft => trimleft(alloc, words),
        Subcommand::TrimRight => trimright(alloc, words),
        Subcommand::Cat => cat(alloc, words),
        Subcommand::Is => is(alloc, style, words),
    }
}

/// What `string` answers the words behind it: a subcommand and its words.
///
/// # Errors
/// 241 without a word, 244 where the first names no subcommand, and those of the subcommand; want
/// of memory.
pub fn string(alloc: Global, style: Integers, words: &[Text]) -> Result<Answer, Refusal>
    ensures { Gives answer_text result (string_of style words.now) }
{
    match words {
        [] => Err(wrong_arguments(alloc, "string subcommand ?arg ...?")),
        [name, rest @ ..] => match Subcommand::from_name(name.as_str()) {
            Some(subcommand) => run(alloc, style, subcommand, rest),
            None => Err(unknown_subcommand(alloc, name.as_str())),
        },
    }
}
