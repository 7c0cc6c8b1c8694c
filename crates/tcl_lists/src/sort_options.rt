//! The words of `lsort`.
ghost use Rattle.std.specs.Prelude.{◌≡◌};
ghost use Rattle.tcl_words.specs.Outcomes.{Gives};
ghost use Rattle.tcl_lists.specs.SortCommand.{plain, with_option, with_options};

use std::alloc::Global;
use tcl_value::value::Value;
use tcl_words::refusal::{Refusal, bad_option};

/// How a list is put in order.
#[derive(Clone, Copy, Drop)]
pub struct Sorting {
    /// By the integers of the elements, not by their texts.
    pub by_number: bool,
    /// From the greatest to the least.
    pub decreasing: bool,
    /// Of equal elements the last alone is kept.
    pub unique: bool,
}

impl Sorting {
    /// By the texts, from the least to the greatest, all elements.
    fn plain() -> Sorting
        ensures { result ≡ plain }
    {
        Sorting {
            by_number: false,
            decreasing: false,
            unique: false,
        }
    }

    /// With one more option.
    fn with_option(self, alloc: Global, word: &Value) -> Result<Sorting, Refusal>
        ensures { Gives (λ sorting. sorting) result (with_option self word.now) }
    {
        let text = word.text(alloc)?;
        match text.as_str() {
            "-ascii" => Ok(Sorting {
                by_number: false,
                ..self
            }),
            "-integer" => Ok(Sorting {
                by_number: true,
                ..self
            }),
            "-increasing" => Ok(Sorting {
                decreasing: false,
                ..self
            }),
            "-decreasing" => Ok(Sorting {
                decreasing: true,
                ..self
            }),
            "-unique" => Ok(Sorting {
                unique: true,
                ..self
            }),
            _ => Err(bad_option(alloc, text.as_str())),
        }
    }

    /// With the options of words, from the left: of two that exclude one another the later is
    /// taken.
    fn with_options(self, alloc: Global, words: &[Value]) -> Result<Sorting, Refusal>
        ensures { Gives (λ sorting. sorting) result (with_options self words.now) }
    {
        let mut sorting = self;
        'words: for word in words {
            sorting = sorting.with_option(alloc, word)?;
        }
        Ok(sorting)
    }

    /// What options ask for: without any by the texts, from the least to the greatest, all
    /// elements. Of two that exclude one another the later is taken.
    ///
    /// # Errors
    /// 221; want of memory.
    pub fn read(alloc: Global, words: &[Value]) -> Result<Sorting, Refusal>
        ensures { Gives (λ sorting. sorting) result (with_options plain words.now) }
    {
        Sorting::plain().with_options(alloc, words)
    }
}
