//! How long a value may be.
ghost use Rattle.std.specs.Prelude.{◌≡◌};
ghost use Rattle.std.specs.String.{string_bytes};
ghost use Rattle.tcl_words.specs.Outcomes.{Gives, answer_text};
ghost use Rattle.tcl_words.specs.Limits.{limited, counted};

use crate::answer::Answer;
use crate::refusal::{Refusal, too_long};
use std::alloc::Global;
use tcl_text::limit::MOST_BYTES;
use tcl_text::text::Text;

/// A text, where it is one that a value may have.
///
/// # Errors
/// 122 where it is longer than [`MOST_BYTES`]; want of memory.
pub fn limited(alloc: Global, text: &str) -> Result<&str, Refusal>
    ensures { Gives (λ t. t.now) result (limited text.now) }
{
    if text.len() <= MOST_BYTES {
        Ok(text)
    } else {
        Err(too_long(alloc))
    }
}

/// A text as the answer of a command, where it is one that a value may have.
///
/// # Errors
/// 122 where it is longer than [`MOST_BYTES`]; want of memory.
pub fn text_answer(alloc: Global, text: &str) -> Result<Answer, Refusal>
    ensures { Gives answer_text result (limited text.now) }
{
    if text.len() > MOST_BYTES {
        return Err(too_long(alloc));
    }
    Ok(Answer::Text(Text::new(alloc, text)?))
}

/// A string as the answer of a command, whose bytes aren't copied, where it is one that a value may
/// have.
///
/// # Errors
/// 122 where it is longer than [`MOST_BYTES`]; want of memory.
pub fn string_answer(alloc: Global, text: String) -> Result<Answer, Refusal>
    ensures { Gives answer_text result (limited (string_bytes text)) }
{
    if text.len() > MOST_BYTES {
        return Err(too_long(alloc));
    }
    Ok(Answer::Text(Text::from_string(alloc, text)?))
}

/// A count as the answer of a command.
///
/// # Errors
/// 122 where no value has so many parts; want of memory.
pub fn count_answer(alloc: Global, count: usize) -> Result<Answer, Refusal>
    ensures { Gives answer_text result (counted count) }
{
    if count > MOST_BYTES {
        return Err(too_long(alloc));
    }
    Ok(Answer::Number(count as i64))
}
