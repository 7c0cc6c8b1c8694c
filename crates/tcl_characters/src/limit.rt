//! How long a text may become.
ghost use Rattle.std.specs.Prelude.{◌≡◌, ◌+◌, ◌++◌, ◌<◌, ◌≤◌, length, OnOk, OnErr, IsErrOf, IfOk};
ghost use Rattle.std.specs.String.{string_bytes};
ghost use Rattle.tcl_characters.specs.Texts.{joined};

use std::alloc::{AllocError, AllocFailed, Global};
use tcl_text::limit::MOST_BYTES;
use tcl_text::messages::{OUT_OF_MEMORY, TOO_LONG};
use tcl_text::text::Text;
use thiserror::Error;

/// Why a text isn't made.
#[derive(Clone, Copy, Debug, Drop, Error)]
pub enum LimitError {
    /// Want of memory.
    #[error("{}", OUT_OF_MEMORY)]
    Memory,
    /// The text would be longer than [`MOST_BYTES`] (122).
    #[error("122: {}", TOO_LONG)]
    TooLong,
}

impl From<AllocError> for LimitError {
    ghost use Rattle.std.specs.Prelude.{◌≡◌};
    ghost use Rattle.tcl_characters.specs.declared.limit.LimitError.TheVariants.{Memory};

    ghost from_gives = { λ _ e. e ≡ Memory };

    fn from(_e: AllocError) -> LimitError {
        LimitError::Memory
    }
}

impl<T: Drop> From<AllocFailed<T>> for LimitError {
    ghost use Rattle.std.specs.Prelude.{◌≡◌};
    ghost use Rattle.tcl_characters.specs.declared.limit.LimitError.TheVariants.{Memory};

    ghost from_gives = { λ _ e. e ≡ Memory };

    fn from(_e: AllocFailed<T>) -> LimitError {
        LimitError::Memory
    }
}

/// Adds to the end of a text.
///
/// # Errors
/// `TooLong` where it would be longer than [`MOST_BYTES`]; want of memory. Either leaves it as it
/// was.
pub fn append(made: &mut String, more: &str) -> Result<(), LimitError>
    requires { length (string_bytes made.old) ≤ 16777216 }
    ensures appended { OnOk result (string_bytes made.new ≡ string_bytes made.old ++ more.now) }
    ensures within { OnOk result (length (string_bytes made.new) ≤ 16777216) }
    ensures refused { IsErrOf result LimitError.TooLong →
        16777216 < length (string_bytes made.old) + length more.now }
    ensures unchanged { OnErr result (string_bytes made.new ≡ string_bytes made.old) }
{
    if more.len() > MOST_BYTES - made.len() {
        return Err(LimitError::TooLong);
    }
    made.push_str(more)?;
    Ok(())
}

/// Texts one behind another.
///
/// # Errors
/// `TooLong` where they are longer than [`MOST_BYTES`] together; want of memory.
pub fn join(alloc: Global, texts: &[Text]) -> Result<String, LimitError>
    ensures joined { IfOk result (λ made. string_bytes made ≡ joined texts.now) }
    ensures within { OnOk result (length (joined texts.now) ≤ 16777216) }
    ensures refused { IsErrOf result LimitError.TooLong → 16777216 < length (joined texts.now) }
{
    let mut made = String::new(alloc);
    'texts: for text in texts {
        append(&mut made, text.as_str())?;
    }
    Ok(made)
}
