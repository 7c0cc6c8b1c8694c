//! The words of `lsearch`.
ghost use Rattle.std.specs.Prelude.{◌≡◌};
ghost use Rattle.tcl_words.specs.Outcomes.{Gives};
ghost use Rattle.tcl_lists.specs.SearchOptions.{plain, with_option, with_options};
ghost use Rattle.tcl_lists.specs.SearchOptions.{all_and_two};

use std::alloc::Global;
use tcl_value::value::Value;
use tcl_words::refusal::{Refusal, bad_option, wrong_arguments};

/// What is looked for in a list, and what is told of it.
#[derive(Clone, Copy, Drop)]
pub struct Search {
    /// An element has to be the pattern, not only to match it.
    pub exact: bool,
    /// All elements are wanted, not only the first.
    pub all: bool,
    /// The elements are told, not their places.
    pub inline: bool,
    /// Elements that don't fit are wanted.
    pub negated: bool,
}

impl Search {
    /// The search for the first place at which an element matches the pattern.
    pub fn plain() -> Search
        ensures { result ≡ plain }
    {
        Search {
            exact: false,
            all: false,
            inline: false,
            negated: false,
        }
    }

    /// The search with one more option.
    fn with_option(self, alloc: Global, word: &Value) -> Result<Search, Refusal>
        ensures { Gives (λ search. search) result (with_option self word.now) }
    {
        let text = word.text(alloc)?;
        match text.as_str() {
            "-exact" => Ok(Search {
                exact: true,
                ..self
            }),
            "-glob" => Ok(Search {
                exact: false,
                ..self
            }),
            "-all" => Ok(Search { all: true, ..self }),
            "-inline" => Ok(Search {
                inline: true,
                ..self
            }),
            "-not" => Ok(Search {
                negated: true,
                ..self
            }),
            _ => Err(bad_option(alloc, text.as_str())),
        }
    }

    /// The search with the options of words, from the left: of `-exact` and `-glob` the later is
    /// taken.
    ///
    /// # Errors
    /// 221; want of memory.
    pub fn with_options(self, alloc: Global, words: &[Value]) -> Result<Search, Refusal>
        ensures { Gives (λ search. search) result (with_options self words.now) }
    {
        let mut search = self;
        'words: for word in words {
            search = search.with_option(alloc, word)?;
        }
        Ok(search)
    }
}

/// The last two words, behind those before them.
///
/// # Errors
/// 241 with the form where there are fewer; want of memory.
pub fn all_and_two<'a>(
    alloc: Global,
    words: &'a [Value],
    form: &str,
) -> Result<(&'a [Value], &'a Value, &'a Value), Refusal>
    ensures { Gives (λ p. (p.0.now, p.1.now, p.2.now)) result (all_and_two form.now words.now) }
{
    match words {
        [rest @ .., a, b] => Ok((rest, a, b)),
        _ => Err(wrong_arguments(alloc, form)),
    }
}
