//! Words with an option.
ghost use Rattle.tcl_words.specs.Outcomes.{Gives};
ghost use Rattle.tcl_strings.specs.Options.{nocase_words};

use std::alloc::Global;
use tcl_text::text::Text;
use tcl_words::refusal::{Refusal, bad_option, wrong_arguments};

/// Two words, before which the option `-nocase` may stand: whether it does, and the words.
///
/// # Errors
/// 241 with the form where there is another number of words, 221 where the first of three is no
/// `-nocase`; want of memory.
pub fn nocase_words<'a>(
    alloc: Global,
    words: &'a [Text],
    form: &str,
) -> Result<(bool, &'a Text, &'a Text), Refusal>
    ensures { Gives (λ p. (p.0, p.1.now, p.2.now)) result (nocase_words form.now words.now) }
{
    match words {
        [a, b] => Ok((false, a, b)),
        [option, a, b] => {
            if option.as_str() == "-nocase" {
                Ok((true, a, b))
            } else {
                Err(bad_option(alloc, option.as_str()))
            }
        }
        _ => Err(wrong_arguments(alloc, form)),
    }
}
