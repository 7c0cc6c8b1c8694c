//! How `format` refuses.
ghost use Rattle.std.specs.Prelude.{◌≡◌, ℕ, List, Err, IfOk};
ghost use Rattle.std.specs.Str.{chars};
ghost use Rattle.tcl_words.specs.Outcomes.{Refuses};
ghost use Rattle.tcl_characters.specs.Texts.{text_of};
ghost use Rattle.tcl_format.specs.Specifiers.{shown};
ghost use Rattle.tcl_format.specs.Pieces.{bad_format};
ghost use Rattle.tcl_format.specs.Filling.{not_enough};

use std::alloc::{AllocError, Global};
use tcl_characters::parts::{before, character_count};
use tcl_text::messages::quoting;
use tcl_text::text::Text;
use tcl_words::refusal::Refusal;

/// The characters of a text before what follows them.
fn shown<'a>(text: &'a str, rest: &str) -> &'a str
    ensures { result.now ≡ text_of (shown (chars text.now) (chars rest.now)) }
{
    before(
        text,
        character_count(text).saturating_sub(character_count(rest)),
    )
}

/// The refusal of a text that was made, or want of memory.
fn fault_with(message: Result<Text, AllocError>) -> Refusal
    ensures { (text : List ℕ) → IfOk message (λ made. made ≡ text) →
        Refuses {X = List ℕ} result (Err text) }
{
    match message {
        Ok(text) => Refusal::Fault(text),
        Err(_) => Refusal::Memory,
    }
}

/// The text of a fault of the format.
fn bad_format_text(alloc: Global, text: &str, rest: &str) -> Result<Text, AllocError>
    ensures { IfOk result (λ made. made ≡ bad_format (shown (chars text.now) (chars rest.now))) }
{
    quoting(alloc, "bad format \"%", shown(text, rest))
}

/// What is told of a text behind `%` that is no specifier, or whose value has no character (251):
/// its characters before what follows.
pub fn bad_format(alloc: Global, text: &str, rest: &str) -> Refusal
    ensures { Refuses {X = List ℕ} result
        (Err (bad_format (shown (chars text.now) (chars rest.now)))) }
{
    fault_with(bad_format_text(alloc, text, rest))
}

/// What is told where no value is left for a specifier (251).
pub fn not_enough(alloc: Global) -> Refusal
    ensures { Refuses {X = List ℕ} result (Err not_enough) }
{
    fault_with(Text::new(alloc, "not enough arguments for all format specifiers"))
}
