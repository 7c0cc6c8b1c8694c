//! Why a call on the tree is refused.
ghost use Rattle.std.specs.Prelude.{◌≡◌, ◌++◌, codes, IfOk};
ghost use Rattle.std.specs.String.{string_bytes};
ghost use Rattle.tcl_interpreter.specs.declared.refusal.TreeError.TheVariants.{Memory};

use std::alloc::{AllocError, AllocFailed, Global};
use tcl_text::messages::{
    ALREADY_EXISTS, BAD_DEPTH_LIMIT, COUNT_LIMIT, DENIED, DEPTH_LIMIT, OUT_OF_MEMORY, TOO_MANY,
};
use thiserror::Error;

/// Why a call on the tree did nothing.
#[derive(Clone, Copy, Debug, Drop, Error)]
pub enum TreeError {
    /// Want of memory.
    #[error("{}", OUT_OF_MEMORY)]
    Memory,
    /// No name of a command may be this (238).
    #[error("238: bad name")]
    BadName,
    /// No number of steps may be this (245).
    #[error("245: bad count")]
    BadCount,
    /// There is no such interpreter (301).
    #[error("301: could not find interpreter")]
    NoInterpreter,
    /// There is a command of this name (302).
    #[error("302: a command of this name already exists")]
    Exists,
    /// The interpreter may not do this (304).
    #[error("304: {}", DENIED)]
    Denied,
    /// There is no such command (305).
    #[error("305: invalid command name")]
    NoCommand,
    /// There is no such hidden command (306).
    #[error("306: invalid hidden command name")]
    NoHidden,
    /// The parent has as many children as it may have (307).
    #[error("307: {}", TOO_MANY)]
    TooMany,
    /// A step would pass the limit of the interpreter so many levels up (308).
    #[error("308: {}", COUNT_LIMIT)]
    CountLimit(usize),
    /// An evaluation would pass the limit of the interpreter so many levels up (308).
    #[error("308: {}", DEPTH_LIMIT)]
    DepthLimit(usize),
    /// No limit of depth may be this (309).
    #[error("309: {}", BAD_DEPTH_LIMIT)]
    BadDepthLimit,
}

impl From<AllocError> for TreeError {
    ghost from_gives = { λ _ e. e ≡ Memory };

    fn from(_error: AllocError) -> TreeError {
        TreeError::Memory
    }
}

impl<T: Drop> From<AllocFailed<T>> for TreeError {
    ghost from_gives = { λ _ e. e ≡ Memory };

    fn from(_error: AllocFailed<T>) -> TreeError {
        TreeError::Memory
    }
}

/// A word in quotation marks, and what stands behind it.
fn quoted(alloc: Global, word: &str, behind: &str) -> Result<String, AllocError>
    ensures { IfOk result (λ text.
        string_bytes text ≡ codes "\"" ++ word.now ++ codes "\"" ++ behind.now) }
{
    let mut text = String::from_str(alloc, "\"")?;
    text.push_str(word)?;
    text.push_str("\"")?;
    text.push_str(behind)?;
    Ok(text)
}

impl TreeError {
    ghost use Rattle.tcl_interpreter.specs.Refusals.{text_of};

    /// The text of the refusal; the word is the one that is refused, as it was written.
    ///
    /// # Errors
    /// Want of memory.
    pub fn text(self, alloc: Global, word: &str) -> Result<String, AllocError>
        ensures { IfOk result (λ text. string_bytes text ≡ text_of self word.now) }
    {
        match self {
            TreeError::Memory => String::from_str(alloc, OUT_OF_MEMORY),
            TreeError::BadName => format!(in alloc; "bad name \"{word}\""),
            TreeError::BadCount => format!(in alloc; "bad count \"{word}\""),
            TreeError::NoInterpreter => format!(in alloc; "could not find interpreter \"{word}\""),
            TreeError::Exists => quoted(alloc, word, ALREADY_EXISTS),
            TreeError::Denied => String::from_str(alloc, DENIED),
            TreeError::NoCommand => format!(in alloc; "invalid command name \"{word}\""),
            TreeError::NoHidden => format!(in alloc; "invalid hidden command name \"{word}\""),
            TreeError::TooMany => String::from_str(alloc, TOO_MANY),
            TreeError::CountLimit(_) => String::from_str(alloc, COUNT_LIMIT),
            TreeError::DepthLimit(_) => String::from_str(alloc, DEPTH_LIMIT),
            TreeError::BadDepthLimit => String::from_str(alloc, BAD_DEPTH_LIMIT),
        }
    }
}
