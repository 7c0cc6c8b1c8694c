//! How a file is opened.
ghost use Rattle.std.specs.Prelude.{◌≡◌, IfOk};
ghost use Rattle.tcl_host.specs.Modes.{mode_of, bad_mode_text};

use std::alloc::{AllocError, Global};
use tcl_text::text::Text;
use thiserror::Error;

/// What a channel to a file is for.
#[derive(Clone, Copy, Debug, PartialEq, Eq)]
pub enum OpenMode {
    /// Reading from the beginning of a file that is there: `r`.
    Read,
    /// Writing to a file that is made or emptied: `w`.
    Write,
    /// Writing at the end of a file that is made where it is missing: `a`.
    Append,
}

/// 266: a word names no mode.
#[derive(Clone, Copy, Debug, Eq, Error, PartialEq)]
#[error("266: bad mode")]
pub struct BadMode;

impl OpenMode {
    /// The mode that a word of a script names (Tcl open(n)).
    ///
    /// # Errors
    /// 266 where it names none.
    pub fn from_word(word: &str) -> Result<OpenMode, BadMode>
        ensures { result ≡ mode_of word.now }
    {
        match word {
            "r" => Ok(OpenMode::Read),
            "w" => Ok(OpenMode::Write),
            "a" => Ok(OpenMode::Append),
            _ => Err(BadMode),
        }
    }
}

impl BadMode {
    /// The text that a script sees, of the word.
    ///
    /// # Errors
    /// Want of memory.
    pub fn message(self, alloc: Global, word: &str) -> Result<Text, AllocError>
        ensures { IfOk result (λ text. text ≡ bad_mode_text word.now) }
    {
        Text::from_string(alloc, format!(in alloc; "bad mode \"{word}\"")?)
    }
}
