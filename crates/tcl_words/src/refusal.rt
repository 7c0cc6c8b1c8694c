//! How commands refuse.
ghost use Rattle.std.specs.Prelude.{◌≡◌, ◌++◌, codes, Err, IfOk};
ghost use Rattle.std.specs.Prelude.{List, ℕ};
ghost use Rattle.tcl_words.specs.Outcomes.{Refuses};
ghost use Rattle.tcl_words.specs.Faults.{wrong_arguments, bad_option, bad_count};
ghost use Rattle.tcl_words.specs.Faults.{unknown_subcommand, missing_value, too_long};

use std::alloc::{AllocError, AllocFailed, Global};
use tcl_text::messages::{BAD_OPTION, MISSING_VALUE, OUT_OF_MEMORY, TOO_LONG, quoting};
use tcl_text::text::Text;
use thiserror::Error;

/// Why a command gives nothing.
#[derive(Debug, Drop, Error)]
pub enum Refusal {
    /// Want of memory.
    #[error("{}", OUT_OF_MEMORY)]
    Memory,
    /// The error with this text.
    #[error("{0}")]
    Fault(Text),
}

impl From<AllocError> for Refusal {
    ghost use Rattle.tcl_words.specs.declared.refusal.Refusal.TheVariants.{Memory};

    ghost from_gives = { λ _ e. e ≡ Memory };

    fn from(_e: AllocError) -> Refusal {
        Refusal::Memory
    }
}

impl<T: Drop> From<AllocFailed<T>> for Refusal {
    ghost use Rattle.tcl_words.specs.declared.refusal.Refusal.TheVariants.{Memory};

    ghost from_gives = { λ _ e. e ≡ Memory };

    fn from(_e: AllocFailed<T>) -> Refusal {
        Refusal::Memory
    }
}

/// The refusal with a text that was made, or want of memory.
pub(crate) fn fault_with(message: Result<Text, AllocError>) -> Refusal
    ensures { (text : List ℕ) → IfOk message (λ made. made ≡ text) →
        Refuses {X = List ℕ} result (Err text) }
{
    match message {
        Ok(text) => Refusal::Fault(text),
        Err(_) => Refusal::Memory,
    }
}

/// What is told of words that don't fit the form of their command (241).
pub fn wrong_arguments(alloc: Global, form: &str) -> Refusal
    ensures { Refuses {X = List ℕ} result (Err (wrong_arguments form.now)) }
{
    fault_with(quoting(alloc, "wrong # args: should be \"", form))
}

/// What is told of a word that is no option (221).
pub fn bad_option(alloc: Global, word: &str) -> Refusal
    ensures { Refuses {X = List ℕ} result (Err (bad_option word.now)) }
{
    fault_with(quoting(alloc, BAD_OPTION, word))
}

/// What is told of a count below 0 (245).
pub fn bad_count(alloc: Global, word: &str) -> Refusal
    ensures { Refuses {X = List ℕ} result (Err (bad_count word.now)) }
{
    fault_with(quoting(alloc, "bad count \"", word))
}

/// What is told of a word that is no subcommand (244).
pub fn unknown_subcommand(alloc: Global, word: &str) -> Refusal
    ensures { Refuses {X = List ℕ} result (Err (unknown_subcommand word.now)) }
{
    fault_with(quoting(alloc, "unknown subcommand \"", word))
}

/// What is told of a key without a value (121).
pub fn missing_value(alloc: Global) -> Refusal
    ensures { Refuses {X = List ℕ} result (Err missing_value) }
{
    fault_with(Text::new(alloc, MISSING_VALUE))
}

/// What is told of a value that would be too long (122).
pub fn too_long(alloc: Global) -> Refusal
    ensures { Refuses {X = List ℕ} result (Err too_long) }
{
    fault_with(Text::new(alloc, TOO_LONG))
}
