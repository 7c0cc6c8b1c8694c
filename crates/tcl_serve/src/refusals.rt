//! Why a message isn't done.
ghost use Rattle.std.specs.Prelude.{◌≡◌, IfOk};
ghost use Rattle.std.specs.String.{string_bytes};
ghost use Rattle.tcl_serve.specs.Refusals.{about, number_of, of_value, text_of, tree_number};
ghost use Rattle.tcl_serve.specs.declared.refusals.Refusal.TheVariants.{Memory, Nothing};
ghost use Rattle.tcl_serve.specs.declared.refusals.Refusal.TheVariants.{NotOpen};
ghost use Rattle.tcl_serve.specs.declared.refusals.Refusal.TheVariants.{WrongType};

use crate::fields::Field;
use std::alloc::{AllocError, AllocFailed, Global};
use tcl_interpreter::refusal::TreeError;
use tcl_text::messages::{
    BREAKS_TREE, CALL_OPEN, COUNT_TOO_LARGE, NO_INTERPRETER, OUT_OF_MEMORY, TOO_LONG, TREE_BROKEN,
    WAITS, WATCHED_DELETED,
};
use tcl_text::text::Text;
use tcl_value::value::ValueError;

/// Why a message isn't done. Each has a number, which docs/PROTOCOL.md tells.
#[derive(Drop)]
pub enum Refusal {
    /// 500: memory was wanted.
    Memory,
    /// 501: the line isn't UTF-8.
    NotUtf8,
    /// 502: the line isn't JSON, or nests too deep.
    NotJson,
    /// 503: the line isn't an object.
    NotObject,
    /// 504: no message does this.
    UnknownMessage(Text),
    /// 505: the message has no such field.
    UnknownField(Text),
    /// 506: the field is missing.
    Missing(Field),
    /// 507: what stands in the field is of another type.
    WrongType(Field),
    /// 508: the field can't have this value.
    OutOfRange(Field),
    /// 509: no tree, saved interpreter or record, as the field says, has the number.
    Nothing(Field, u64),
    /// 510: a call is open, and the message waits for its end.
    CallOpen,
    /// 511: the call of this number isn't the one that is open.
    NotOpen(u64),
    /// 512: an entry has no limit of its own.
    EntryLimit,
    /// 513: the root of a tree is neither made nor deleted.
    Root,
    /// 514: the line is longer than a line may be.
    LineTooLong,
    /// 515: the input ends inside a line.
    CutShort,
    /// 516: the input can't be read.
    Unreadable,
    /// 517: an interpreter refuses what is asked of it while a call is open; its words.
    Told(Text),
    /// A call on a tree did nothing; what it is about.
    Tree(TreeError, Text),
    /// 122: a text is longer than a value may be.
    TooLong,
    /// 401: memory ran out in an evaluation, and the tree is broken.
    Breaks,
    /// 402: the tree is broken.
    Broken,
    /// 403: no interpreter stands at the path.
    Nobody,
    /// 404: the count of steps would pass its limit.
    TooManySteps,
    /// 411: the watched interpreter was deleted in the run.
    Deleted,
    /// 412: what is to be replayed to waits for an answer.
    Waits,
    /// 265: what a file or a channel holds isn't UTF-8.
    NotText(Text),
}

impl From<AllocError> for Refusal {
    ghost from_gives = { λ _ e. e ≡ Memory };

    fn from(_error: AllocError) -> Refusal {
        Refusal::Memory
    }
}

impl<T: Drop> From<AllocFailed<T>> for Refusal {
    ghost from_gives = { λ _ e. e ≡ Memory };

    fn from(_error: AllocFailed<T>) -> Refusal {
        Refusal::Memory
    }
}

impl From<ValueError> for Refusal {
    ghost from_gives = { λ x e. e ≡ of_value x };

    fn from(error: ValueError) -> Refusal {
        match error {
            ValueError::Memory => Refusal::Memory,
            ValueError::TooLong => Refusal::TooLong,
        }
    }
}

/// The number of what a call on a tree answers.
fn tree_number(error: TreeError) -> u64
    ensures { result ≡ tree_number error }
{
    match error {
        TreeError::Memory => 500,
        TreeError::BadName => 238,
        TreeError::BadCount => 245,
        TreeError::NoInterpreter => 301,
        TreeError::Exists => 302,
        TreeError::Denied => 304,
        TreeError::NoCommand => 305,
        TreeError::NoHidden => 306,
        TreeError::TooMany => 307,
        TreeError::CountLimit(_) | TreeError::DepthLimit(_) => 308,
        TreeError::BadDepthLimit => 309,
    }
}

impl Refusal {
    /// Its number.
    pub fn number(&self) -> u64
        ensures { result ≡ number_of self.now }
    {
        match self {
            Refusal::Memory => 500,
            Refusal::NotUtf8 => 501,
            Refusal::NotJson => 502,
            Refusal::NotObject => 503,
            Refusal::UnknownMessage(_) => 504,
            Refusal::UnknownField(_) => 505,
            Refusal::Missing(_) => 506,
            Refusal::WrongType(_) => 507,
            Refusal::OutOfRange(_) => 508,
            Refusal::Nothing(_, _) => 509,
            Refusal::CallOpen => 510,
            Refusal::NotOpen(_) => 511,
            Refusal::EntryLimit => 512,
            Refusal::Root => 513,
            Refusal::LineTooLong => 514,
            Refusal::CutShort => 515,
            Refusal::Unreadable => 516,
            Refusal::Told(_) => 517,
            Refusal::Tree(error, _) => tree_number(*error),
            Refusal::TooLong => 122,
            Refusal::Breaks => 401,
            Refusal::Broken => 402,
            Refusal::Nobody => 403,
            Refusal::TooManySteps => 404,
            Refusal::Deleted => 411,
            Refusal::Waits => 412,
            Refusal::NotText(_) => 265,
        }
    }

    /// Its text.
    ///
    /// # Errors
    /// Want of memory.
    pub fn text(&self, alloc: Global) -> Result<String, AllocError>
        ensures { IfOk result (λ text. string_bytes text ≡ text_of self.now) }
    {
        match self {
            Refusal::Memory => String::from_str(alloc, OUT_OF_MEMORY),
            Refusal::NotUtf8 => String::from_str(alloc, "the line is not UTF-8"),
            Refusal::NotJson => String::from_str(alloc, "the line is not JSON"),
            Refusal::NotObject => String::from_str(alloc, "the line is not an object"),
            Refusal::UnknownMessage(word) => about(alloc, "unknown message ", word.as_str(), ""),
            Refusal::UnknownField(word) => about(alloc, "unknown field ", word.as_str(), ""),
            Refusal::Missing(field) => about(alloc, "the field ", field.name(), " is missing"),
            Refusal::WrongType(field) => wrong_type(alloc, *field),
            Refusal::OutOfRange(field) => {
                about(alloc, "the field ", field.name(), " is out of range")
            }
            Refusal::Nothing(field, number) => nothing(alloc, *field, *number),
            Refusal::CallOpen => String::from_str(alloc, CALL_OPEN),
            Refusal::NotOpen(number) => not_open(alloc, *number),
            Refusal::EntryLimit => String::from_str(alloc, "an entry has no limit of its own"),
            Refusal::Root => String::from_str(alloc, "the root is neither made nor deleted"),
            Refusal::LineTooLong => {
                String::from_str(alloc, "the line is longer than 67108864 bytes")
            }
            Refusal::CutShort => String::from_str(alloc, "the input ends inside a line"),
            Refusal::Unreadable => String::from_str(alloc, "the input can't be read"),
            Refusal::Told(text) => String::from_str(alloc, text.as_str()),
            Refusal::Tree(error, word) => error.text(alloc, word.as_str()),
            Refusal::TooLong => String::from_str(alloc, TOO_LONG),
            Refusal::Breaks => String::from_str(alloc, BREAKS_TREE),
            Refusal::Broken => String::from_str(alloc, TREE_BROKEN),
            Refusal::Nobody => String::from_str(alloc, NO_INTERPRETER),
            Refusal::TooManySteps => String::from_str(alloc, COUNT_TOO_LARGE),
            Refusal::Deleted => String::from_str(alloc, WATCHED_DELETED),
            Refusal::Waits => String::from_str(alloc, WAITS),
            Refusal::NotText(word) => about(alloc, "", word.as_str(), " is not UTF-8"),
        }
    }
}

/// A name in quotation marks, and what stands before and behind it.
fn about(alloc: Global, front: &str, name: &str, end: &str) -> Result<String, AllocError>
    ensures { IfOk result (λ text. string_bytes text ≡ about front.now name.now end.now) }
{
    let mut text = String::from_str(alloc, front)?;
    text.push_str("\"")?;
    text.push_str(name)?;
    text.push_str("\"")?;
    text.push_str(end)?;
    Ok(text)
}

/// The text of a field of another type.
fn wrong_type(alloc: Global, field: Field) -> Result<String, AllocError>
    ensures { IfOk result (λ text. string_bytes text ≡ text_of (WrongType field)) }
{
    let wanted = field.field_type().name();
    let end = format!(in alloc; " must be {wanted}")?;
    about(alloc, "the field ", field.name(), end.as_str())
}

/// The text of a number that nothing has.
fn nothing(alloc: Global, field: Field, number: u64) -> Result<String, AllocError>
    ensures { IfOk result (λ text. string_bytes text ≡ text_of (Nothing field number)) }
{
    let front = format!(in alloc; "nothing has the number {number} of the field ")?;
    about(alloc, front.as_str(), field.name(), "")
}

/// The text of a call that isn't the open one.
fn not_open(alloc: Global, number: u64) -> Result<String, AllocError>
    ensures { IfOk result (λ text. string_bytes text ≡ text_of (NotOpen number)) }
{
    format!(in alloc; "call {number} is not open")
}
