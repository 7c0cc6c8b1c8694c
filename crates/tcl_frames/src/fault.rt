//! Why a call on the variables is refused.
ghost use Rattle.std.specs.Prelude.{◌≡◌};
ghost use Rattle.tcl_frames.specs.declared.fault.FrameError.TheVariants.{Memory};
ghost use Rattle.tcl_frames.specs.declared.fault.FrameFault.TheVariants.{BadLevel, NotArray};
ghost use Rattle.tcl_frames.specs.declared.fault.Verb.TheVariants.{Set};
ghost use Rattle.tcl_frames.specs.VariableArrays.{element_name, told_first};
ghost use Rattle.tcl_frames.specs.Faults.{fault_of, IsRefusal};
ghost use Rattle.tcl_frames.specs.Messages.{verb_word, cannot, quoted, message};
ghost use Rattle.std.specs.Prelude.{IfOk};

use crate::name::element_text;
use std::alloc::{AllocError, AllocFailed, Global};
use tcl_text::messages::{ALREADY_EXISTS, OUT_OF_MEMORY};
use tcl_text::text::Text;
use tcl_value::value::Value;
use thiserror::Error;

/// What a call was about to do.
#[derive(Clone, Copy, Debug, Drop)]
pub enum Verb {
    Read,
    Set,
    Unset,
}

/// Why a call on the variables is refused. Each text is the name as it was written.
#[derive(Debug, Drop, Error)]
pub enum FrameFault {
    /// There is no such variable (231).
    #[error("231: can't {} \"{}\": no such variable", .0.word(), .1)]
    NoVariable(Verb, Text),
    /// The variable is an array (232).
    #[error("232: can't {} \"{}\": variable is array", .0.word(), .1)]
    IsArray(Verb, Text),
    /// The variable isn't an array (233).
    #[error("233: can't {} \"{}\": variable isn't array", .0.word(), .1)]
    NotArray(Verb, Text),
    /// The array has no such element (234).
    #[error("234: can't {} \"{}\": no such element in array", .0.word(), .1)]
    NoElement(Verb, Text),
    /// There is no such level (235).
    #[error("235: bad level \"{0}\"")]
    BadLevel(usize),
    /// The variable holds a value already (236).
    #[error("236: variable \"{}\"{}", .0, ALREADY_EXISTS)]
    Exists(Text),
    /// A link would lead through its own name (237).
    #[error("237: can't upvar from variable to itself")]
    Itself,
    /// No variable may have this name (238).
    #[error("238: bad name \"{0}\"")]
    BadName(Text),
}

impl Verb {
    /// Its word.
    fn word(self) -> &'static str
        ensures { result.now ≡ verb_word self }
    {
        match self {
            Verb::Read => "read",
            Verb::Set => "set",
            Verb::Unset => "unset",
        }
    }
}

/// `can't read "x": no such variable`
fn cannot(alloc: Global, verb: Verb, name: &Text, why: &str) -> Result<Text, AllocError>
    ensures { IfOk result (λ text. text ≡ cannot verb name.now why.now) }
{
    let mut text = String::from_str(alloc, "can't ")?;
    text.push_str(verb.word())?;
    text.push_str(" \"")?;
    text.push_str(name.as_str())?;
    text.push_str("\": ")?;
    text.push_str(why)?;
    Text::from_string(alloc, text)
}

/// A text in quotation marks, between two others: `bad name "x"`.
///
/// # Errors
/// Want of memory.
pub fn quoted(alloc: Global, before: &str, name: &str, after: &str) -> Result<Text, AllocError>
    ensures { IfOk result (λ text. text ≡ quoted before.now name.now after.now) }
{
    let mut text = String::from_str(alloc, before)?;
    text.push_str("\"")?;
    text.push_str(name)?;
    text.push_str("\"")?;
    text.push_str(after)?;
    Text::from_string(alloc, text)
}

/// `bad level "7"`
fn bad_level(alloc: Global, level: usize) -> Result<Text, AllocError>
    ensures { IfOk result (λ text. text ≡ message (BadLevel level)) }
{
    let number = format!(in alloc; "{level}")?;
    quoted(alloc, "bad level ", number.as_str(), "")
}

impl FrameFault {
    /// What a script is told of the refusal, as `can't read "x": no such variable`.
    ///
    /// # Errors
    /// Want of memory.
    pub fn message(&self, alloc: Global) -> Result<Text, AllocError>
        ensures { IfOk result (λ text. text ≡ message self.now) }
    {
        match self {
            FrameFault::NoVariable(verb, name) => cannot(alloc, *verb, name, "no such variable"),
            FrameFault::IsArray(verb, name) => cannot(alloc, *verb, name, "variable is array"),
            FrameFault::NotArray(verb, name) => cannot(alloc, *verb, name, "variable isn't array"),
            FrameFault::NoElement(verb, name) => {
                cannot(alloc, *verb, name, "no such element in array")
            }
            FrameFault::BadLevel(level) => bad_level(alloc, *level),
            FrameFault::Exists(name) => {
                quoted(alloc, "variable ", name.as_str(), ALREADY_EXISTS)
            }
            FrameFault::Itself => Text::new(alloc, "can't upvar from variable to itself"),
            FrameFault::BadName(name) => quoted(alloc, "bad name ", name.as_str(), ""),
        }
    }
}

/// Why a call on the variables did nothing.
#[derive(Debug, Drop, Error)]
pub enum FrameError {
    /// Want of memory.
    #[error("{}", OUT_OF_MEMORY)]
    Memory,
    /// A refusal.
    #[error(transparent)]
    Fault(FrameFault),
}

impl From<AllocError> for FrameError {
    ghost from_gives = { λ _ e. e ≡ Memory };

    fn from(_error: AllocError) -> FrameError {
        FrameError::Memory
    }
}

impl<T: Drop> From<AllocFailed<T>> for FrameError {
    ghost from_gives = { λ _ e. e ≡ Memory };

    fn from(_error: AllocFailed<T>) -> FrameError {
        FrameError::Memory
    }
}

/// Which refusal a name meets.
#[derive(Clone, Copy)]
pub enum NameFault {
    NoVariable(Verb),
    IsArray(Verb),
    NotArray(Verb),
    NoElement(Verb),
    Exists,
    BadName,
}

/// The refusal with the name in it.
fn fault(refusal: NameFault, name: Text) -> FrameFault
    ensures { result ≡ fault_of refusal name }
{
    match refusal {
        NameFault::NoVariable(verb) => FrameFault::NoVariable(verb, name),
        NameFault::IsArray(verb) => FrameFault::IsArray(verb, name),
        NameFault::NotArray(verb) => FrameFault::NotArray(verb, name),
        NameFault::NoElement(verb) => FrameFault::NoElement(verb, name),
        NameFault::Exists => FrameFault::Exists(name),
        NameFault::BadName => FrameFault::BadName(name),
    }
}

/// The refusal of a name.
pub fn refused(refusal: NameFault, name: &Text) -> FrameError
    ensures { IsRefusal result (fault_of refusal name.now) }
{
    match name.clone() {
        Ok(name) => FrameError::Fault(fault(refusal, name)),
        Err(_) => FrameError::Memory,
    }
}

/// The refusal of setting an element of what is no array.
fn refused_element(alloc: Global, name: &Text, key: &Text) -> FrameError
    ensures { IsRefusal result (NotArray Set (element_name name.now key.now)) }
{
    match element_text(alloc, name, key) {
        Ok(told) => FrameError::Fault(FrameFault::NotArray(Verb::Set, told)),
        Err(_) => FrameError::Memory,
    }
}

/// The refusal of setting elements of what is no array: it names the first of them, or the name
/// where there is none.
pub fn refused_elements(alloc: Global, name: &Text, elements: &[(Text, Value)]) -> FrameError
    ensures { IsRefusal result (NotArray Set (told_first name.now elements.now)) }
{
    match elements.first() {
        Some(first) => refused_element(alloc, name, &first.0),
        None => refused(NameFault::NotArray(Verb::Set), name),
    }
}
