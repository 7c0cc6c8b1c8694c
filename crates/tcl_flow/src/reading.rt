//! The options that the words of `return` give.
ghost use Rattle.std.specs.Prelude.{◌≡◌, ◌++◌, ◌<◌, ◌≤◌, ◌^◌, ◌*◌, Ok, Err, Some, None, IfOk, OnOk};
ghost use Rattle.std.specs.Prelude.{IfErr, reverse, length, drop};
ghost use Rattle.tcl_flow.specs.View.{options_of, completion_of};
ghost use Rattle.tcl_flow.specs.Returning.{code_of, level_of, plain};
ghost use Rattle.tcl_flow.specs.OptionReading.{in_place, options_in, result_in, option_name};
ghost use Rattle.tcl_flow.specs.OptionReading.{meaning, Reads, Makes, IsRefused, Gave, OneReading};
ghost use Rattle.tcl_flow.specs.OptionReading.{SomeReading, ReadsSo, MakesSo};
ghost use Rattle.tcl_flow.specs.declared.returning.OptionsFault.TheVariants.{BadOption, BadCode};
ghost use Rattle.tcl_flow.specs.declared.reading.OptionsError.TheVariants.{Memory};
ghost use Rattle.tcl_value.specs.Dicts.{dict_of};

use crate::completion::{Completion, Options};
use crate::returning::{OptionsFault, code_of, level_of, make_return};
use std::alloc::{AllocError, AllocFailed, Global};
use tcl_text::integer::Integers;
use tcl_text::messages::OUT_OF_MEMORY;
use tcl_text::text::Text;
use tcl_value::dict::Dict;
use tcl_value::dict_fault::DictError;
use tcl_value::value::Value;
use thiserror::Error;

/// Why no options are read.
#[derive(Debug, Drop, Error)]
pub enum OptionsError {
    /// Want of memory.
    #[error("{}", OUT_OF_MEMORY)]
    Memory,
    /// A refusal (221).
    #[error(transparent)]
    Fault(OptionsFault),
}

impl From<AllocError> for OptionsError {
    ghost from_gives = { λ _ e. e ≡ Memory };

    fn from(_error: AllocError) -> OptionsError {
        OptionsError::Memory
    }
}

impl<T: Drop> From<AllocFailed<T>> for OptionsError {
    ghost from_gives = { λ _ e. e ≡ Memory };

    fn from(_error: AllocFailed<T>) -> OptionsError {
        OptionsError::Memory
    }
}

/// Which option a name means.
#[derive(Clone, Copy)]
enum OptionName {
    Code,
    Level,
    Errorcode,
    Nested,
    Other,
}

/// The option that a name means.
fn option_name(name: &str) -> OptionName
    ensures { result ≡ option_name name.now }
{
    if name == "-code" {
        OptionName::Code
    } else if name == "-level" {
        OptionName::Level
    } else if name == "-errorcode" {
        OptionName::Errorcode
    } else if name == "-options" {
        OptionName::Nested
    } else {
        OptionName::Other
    }
}

/// The code that an option gives.
fn code_given(alloc: Global, style: Integers, value: Value) -> Result<i64, OptionsError>
    ensures given { IfOk result (λ code. code_of style value ≡ Some code) }
    ensures refused { IfErr result
        (λ e. IsRefused e (λ f. (code_of style value ≡ None) × (f ≡ BadCode value))) }
{
    let mut value = value;
    match code_of(alloc, style, &mut value)? {
        Some(code) => Ok(code),
        None => Err(OptionsError::Fault(OptionsFault::BadCode(value.text(alloc)?))),
    }
}

/// The level that an option gives.
fn level_given(alloc: Global, style: Integers, value: Value) -> Result<u64, OptionsError>
    ensures given { IfOk result (λ level. level_of style value ≡ Some level) }
    ensures small { IfOk result (λ level. level < 2 ^ 63) }
    ensures refused { IfErr result
        (λ e. IsRefused e (λ f. (level_of style value ≡ None) × (f ≡ BadOption value))) }
{
    let mut value = value;
    match level_of(style, &mut value) {
        Some(level) => Ok(level),
        None => Err(OptionsError::Fault(OptionsFault::BadOption(value.text(alloc)?))),
    }
}

/// The dict of options that an option gives.
fn options_given(alloc: Global, value: Value) -> Result<Dict, OptionsError>
    ensures given { IfOk result (λ dict. dict_of value ≡ Ok dict) }
    ensures refused { IfErr result
        (λ e. IsRefused e (λ f. (in_place (dict_of value) value ≡ Err f))) }
{
    let mut value = value;
    match value.as_dict(alloc) {
        Ok(dict) => Ok(dict),
        Err(DictError::Memory) => Err(OptionsError::Memory),
        Err(DictError::Fault(_)) => Err(OptionsError::Fault(OptionsFault::BadOption(value.text(
            alloc,
        )?))),
    }
}

impl Options {
    /// Sets what an option gives, or answers the dict whose entries stand in its place.
    fn give(
        &mut self,
        alloc: Global,
        style: Integers,
        name: &Text,
        value: Value,
    ) -> Result<Option<Dict>, OptionsError>
        ensures given { IfOk result
            (λ found. Gave found (options_of self.new) (options_of self.old)
            (meaning (option_name name.now) style value (options_of self.old))) }
        ensures refused { IfErr result
            (λ e. IsRefused e (λ f. meaning (option_name name.now) style value (options_of self.old)
            ≡ Err f)) }
        ensures small { self.old.level < 2 ^ 63 → OnOk result (self.new.level < 2 ^ 63) }
    {
        match option_name(name.as_str()) {
            OptionName::Code => {
                self.code = code_given(alloc, style, value)?;
                Ok(None)
            }
            OptionName::Level => {
                self.level = level_given(alloc, style, value)?;
                Ok(None)
            }
            OptionName::Errorcode => {
                self.errorcode = Some(value);
                Ok(None)
            }
            OptionName::Nested => Ok(Some(options_given(alloc, value)?)),
            OptionName::Other => Ok(None),
        }
    }
}

/// Adds the entries of a dict, the first of them last.
fn push_entries(pending: &mut Vec<(Text, Value)>, dict: &Dict) -> Result<(), AllocError>
    ensures { OnOk result (pending.new.items ≡ pending.old.items ++ reverse dict.now) }
{
    let mut left = dict.len();
    'entries: while left > 0 {
        left -= 1;
        pending.push((dict.key(left)?, dict.value(left)?))?;
    }
    Ok(())
}

/// The options among the words of a return, the first of them last.
fn pending_words(alloc: Global, words: &[Value]) -> Result<Vec<(Text, Value)>, AllocError>
    ensures { IfOk result (λ pending. pending.items ≡ reverse (options_in words.now)) }
{
    let mut pending = Vec::new(alloc);
    let mut left = words.len() / 2;
    'options: while left > 0 {
        left -= 1;
        let name = words[2 * left].text(alloc)?;
        pending.push((name, words[2 * left + 1].clone()?))?;
    }
    Ok(pending)
}

/// Reads the options that are pending, the last of them first.
fn read_pending(
    alloc: Global,
    style: Integers,
    options: Options,
    pending: Vec<(Text, Value)>,
) -> Result<Options, OptionsError>
    requires { options.level < 2 ^ 63 }
    ensures given { IfOk result
        (λ o. Reads style (reverse pending.items) (options_of options) (Ok (options_of o))) }
    ensures refused { IfErr result
        (λ e. IsRefused e (λ f. Reads style (reverse pending.items) (options_of options) (Err f))) }
    ensures small { IfOk result (λ o. o.level < 2 ^ 63) }
{
    let mut options = options;
    let mut pending = pending;
    'options: while let Some((name, value)) = pending.pop() {
        if let Some(dict) = options.give(alloc, style, &name, value)? {
            push_entries(&mut pending, &dict)?;
        }
    }
    Ok(options)
}

/// The text of the result among the words of a return.
fn result_word(words: &[Value]) -> Result<Value, AllocError>
    ensures { IfOk result (λ text. text ≡ result_in words.now) }
{
    if words.len() % 2 == 0 {
        return Ok(Value::empty());
    }
    words[words.len() - 1].clone()
}

impl Options {
    /// The options that the words of a return give, which are names and values in turn: `-code c`,
    /// `-level n`, `-errorcode e`, and `-options d`, a dict that is read as if its entries stood
    /// there. They are read from the left, so that later ones win; other names are dropped with
    /// their values, and so is a word that is left over. (return(n))
    ///
    /// # Errors
    /// Refusal 221: `bad completion code "x"`, of a code that is neither a word nor an integer;
    /// `bad option "x"`, of a level that is no integer from 0 up and of options that are no dict.
    /// The first that is refused is told. Want of memory.
    pub fn read(alloc: Global, style: Integers, words: &[Value]) -> Result<Options, OptionsError>
        ensures given { IfOk result
            (λ o. Reads style (options_in words.now) plain (Ok (options_of o))) }
        ensures refused { IfErr result
            (λ e. IsRefused e (λ f. Reads style (options_in words.now) plain (Err f))) }
        ensures small { IfOk result (λ o. o.level < 2 ^ 63) }
    {
        read_pending(alloc, style, Options::new(), pending_words(alloc, words)?)
    }
}

/// The completion that `return` makes with these words: names of options and values in turn, and
/// perhaps a result behind them.
///
/// # Errors
/// As of [`Options::read`].
pub fn return_words(
    alloc: Global,
    style: Integers,
    words: &[Value],
) -> Result<Completion, OptionsError>
    ensures made { IfOk result (λ c. Makes style words.now (completion_of c)) }
    ensures refused { IfErr result
        (λ e. IsRefused e (λ f. Reads style (options_in words.now) plain (Err f))) }
{
    let options = Options::read(alloc, style, words)?;
    Ok(make_return(options, result_word(words)?))
}

/// Words are read one way at most.
pub fn options_are_read_one_way()
    ensures { OneReading }
{}

/// Words are read, whatever they are.
pub fn options_are_read()
    ensures { SomeReading }
{}

/// What words are read as, and the completion that they make, are given by functions.
pub fn options_are_given()
    ensures reads { ReadsSo }
    ensures makes { MakesSo }
{}
