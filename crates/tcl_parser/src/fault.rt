//! What a script can be wrong in.
ghost use Rattle.std.specs.Prelude.{◌≡◌};

use thiserror::Error;

/// Why the text of a script can't be read on.
#[derive(Clone, Copy, Debug, Eq, Error, PartialEq)]
pub enum Fault {
    /// Refusal 201: the text ends inside a word in braces.
    #[error("201: missing close-brace")]
    CloseBrace,
    /// Refusal 201: the text ends inside the name of a variable in braces.
    #[error("201: missing close-brace for variable name")]
    VariableBrace,
    /// Refusal 202: the text ends inside a word in quotes.
    #[error("202: missing \"")]
    CloseQuote,
    /// Refusal 203: the text ends inside a script in brackets.
    #[error("203: missing close-bracket")]
    CloseBracket,
    /// Refusal 204: something follows a word's close brace.
    #[error("204: extra characters after close-brace")]
    AfterBrace,
    /// Refusal 204: something follows a word's close quote.
    #[error("204: extra characters after close-quote")]
    AfterQuote,
    /// Refusal 205: the text ends inside the index of a variable.
    #[error("205: missing )")]
    CloseParenthesis,
    /// Refusal 206: brackets stand inside one another more than 200 deep.
    #[error("206: too many nested brackets")]
    TooDeep,
}

impl Fault {
    ghost use Rattle.tcl_parser.specs.Faults.{message_of, is_open};

    /// The text of the error that a script shows.
    pub fn message(self) -> &'static str
        ensures { result.now ≡ message_of self }
    {
        match self {
            Fault::CloseBrace => "missing close-brace",
            Fault::VariableBrace => "missing close-brace for variable name",
            Fault::CloseQuote => "missing \"",
            Fault::CloseBracket => "missing close-bracket",
            Fault::AfterBrace => "extra characters after close-brace",
            Fault::AfterQuote => "extra characters after close-quote",
            Fault::CloseParenthesis => "missing )",
            Fault::TooDeep => "too many nested brackets",
        }
    }

    /// Whether something stands open at the end of the text, so that more text could mend the
    /// fault: refusals 201, 202, 203 and 205.
    pub fn is_open(self) -> bool
        ensures { result ≡ is_open self }
    {
        match self {
            Fault::CloseBrace
            | Fault::VariableBrace
            | Fault::CloseQuote
            | Fault::CloseBracket
            | Fault::CloseParenthesis => true,
            Fault::AfterBrace | Fault::AfterQuote | Fault::TooDeep => false,
        }
    }
}
