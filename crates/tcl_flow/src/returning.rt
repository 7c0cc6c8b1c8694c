//! `return`, and the options dictionary of a completion.
ghost use Rattle.std.specs.Prelude.{◌≡◌, ◌++◌, ◌∷◌, [], ◌<◌, ◌^◌, ◌-◌, IfOk, IfSome, OnOk, IsErrOf};
ghost use Rattle.std.specs.Fmt.{decimal, signed_decimal};
ghost use Rattle.tcl_flow.specs.Caught.{seen_caught};
ghost use Rattle.tcl_value.specs.Limits.{IsPast};
ghost use Rattle.tcl_value.specs.Writing.{write};
ghost use Rattle.std.specs.Option.{option_copied};
ghost use Rattle.tcl_flow.specs.View.{options_of, completion_of, errorcode_of};
ghost use Rattle.tcl_flow.specs.Returning.{code_word, code_of, level_of, plain, raised, returned};
ghost use Rattle.tcl_flow.specs.Returning.{errorcode_shown, shown, caught, options_message};

use crate::completion::{Completion, ERROR, OK, Options, RETURN};
use std::alloc::{AllocError, Global};
use tcl_text::integer::Integers;
use tcl_text::list::write_list;
use tcl_text::messages::{BAD_OPTION, quoting};
use tcl_text::text::Text;
use tcl_value::value::{Value, ValueError};
use thiserror::Error;

/// Why the options of a return are refused (221).
#[derive(Debug, Drop, Error)]
pub enum OptionsFault {
    /// A level that is no integer from 0 up, or options that are no dict.
    #[error("221: bad option \"{0}\"")]
    BadOption(Text),
    /// A code that is neither a word nor an integer.
    #[error("221: bad completion code \"{0}\"")]
    BadCode(Text),
}

impl OptionsFault {
    /// What a script is told of the refusal.
    ///
    /// # Errors
    /// Want of memory.
    pub fn message(&self, alloc: Global) -> Result<Text, AllocError>
        ensures { IfOk result (λ text. text ≡ options_message self.now) }
    {
        match self {
            OptionsFault::BadOption(name) => quoting(alloc, BAD_OPTION, name.as_str()),
            OptionsFault::BadCode(name) => quoting(alloc, "bad completion code \"", name.as_str()),
        }
    }
}

/// The code of a word.
fn code_word(word: &str) -> Option<i64>
    ensures { result ≡ code_word word.now }
{
    if word == "ok" {
        Some(0)
    } else if word == "error" {
        Some(1)
    } else if word == "return" {
        Some(2)
    } else if word == "break" {
        Some(3)
    } else if word == "continue" {
        Some(4)
    } else {
        None
    }
}

/// The code that a value is: `ok`, `error`, `return`, `break`, `continue` or an integer of 64 bits.
///
/// # Errors
/// Want of memory.
pub fn code_of(alloc: Global, style: Integers, value: &mut Value) -> Result<Option<i64>, AllocError>
    ensures read { IfOk result (λ code. code ≡ code_of style value.old) }
    ensures text { value.new ≡ value.old }
{
    let text = value.text(alloc)?;
    match code_word(text.as_str()) {
        Some(code) => Ok(Some(code)),
        None => match value.as_int(style) {
            Ok(code) => Ok(Some(code)),
            Err(_) => Ok(None),
        },
    }
}

/// The level that a value is: an integer from 0 up. This takes no memory.
pub fn level_of(style: Integers, value: &mut Value) -> Option<u64>
    ensures read { result ≡ level_of style value.old }
    ensures small { IfSome result (λ level. level < 2 ^ 63) }
    ensures text { value.new ≡ value.old }
{
    match value.as_int(style) {
        Ok(level) => u64::try_from(level).ok(),
        Err(_) => None,
    }
}

impl Options {
    /// The options of a return that is given none: its text is that of the procedure that it
    /// leaves.
    pub fn new() -> Options
        ensures { options_of result ≡ plain }
    {
        Options {
            code: OK,
            level: 1,
            errorcode: None,
        }
    }

    /// The same, where a return of a return is a return one level higher.
    fn raised(self) -> Options
        requires { self.level < 2 ^ 64 - 1 }
        ensures { options_of result ≡ raised (options_of self) }
    {
        match self.code {
            RETURN => {
                let Options {
                    code: _,
                    level,
                    errorcode,
                } = self;
                Options {
                    code: OK,
                    level: level + 1,
                    errorcode,
                }
            }
            _ => self,
        }
    }
}

/// The completion of `return` with these options and this result: at level 0 the code applies at
/// once, and `-code return` is `-code ok` one level higher.
pub fn make_return(options: Options, text: Value) -> Completion
    requires { options.level < 2 ^ 64 - 1 }
    ensures { completion_of result ≡ returned (raised (options_of options)) text }
{
    let options = options.raised();
    let code = if options.level == 0 {
        options.code
    } else {
        RETURN
    };
    Completion {
        code,
        text,
        options,
    }
}

/// What a caught completion shows of its options.
#[derive(Clone, Copy)]
struct CaughtOptions<'a> {
    code: i64,
    level: u64,
    errorcode: Option<&'a Value>,
}

/// What a caught completion shows: of one that is no return its code, at level 0.
fn caught(completion: &Completion) -> CaughtOptions<'_>
    ensures { seen_caught result ≡ caught (completion_of completion.now) }
{
    let errorcode = completion.options.errorcode.as_ref();
    match completion.code {
        RETURN => CaughtOptions {
            code: completion.options.code,
            level: completion.options.level,
            errorcode,
        },
        code => CaughtOptions {
            code,
            level: 0,
            errorcode,
        },
    }
}

/// Adds a key and its value.
fn push_pair(words: &mut Vec<Text>, alloc: Global, key: &str, value: Text) -> Result<(), AllocError>
    ensures { OnOk result (words.new.items ≡ words.old.items ++ key.now ∷ value ∷ []) }
{
    words.push(Text::new(alloc, key)?)?;
    words.push(value)?;
    Ok(())
}

/// The text of an errorcode.
fn errorcode_text(alloc: Global, errorcode: Option<&Value>) -> Result<Text, AllocError>
    ensures { IfOk result (λ text. text ≡ errorcode_of (option_copied errorcode.entry)) }
{
    match errorcode {
        Some(errorcode) => errorcode.text(alloc),
        None => Text::new(alloc, "NONE"),
    }
}

/// Adds the errorcode of an error.
fn push_errorcode(
    words: &mut Vec<Text>,
    alloc: Global,
    code: i64,
    errorcode: Option<&Value>,
) -> Result<(), AllocError>
    ensures { OnOk result
        (words.new.items ≡ words.old.items ++ errorcode_shown code
        (errorcode_of (option_copied errorcode.entry))) }
{
    match code {
        ERROR => push_pair(
            words,
            alloc,
            "-errorcode",
            errorcode_text(alloc, errorcode)?,
        ),
        _ => Ok(()),
    }
}

/// The text of a code.
fn code_text(alloc: Global, code: i64) -> Result<Text, AllocError>
    ensures { IfOk result (λ text. text ≡ signed_decimal code) }
{
    Text::from_string(alloc, format!(in alloc; "{code}")?)
}

/// The text of a level.
fn level_text(alloc: Global, level: u64) -> Result<Text, AllocError>
    ensures { IfOk result (λ text. text ≡ decimal level) }
{
    Text::from_string(alloc, format!(in alloc; "{level}")?)
}

/// The keys and values of the options dictionary.
fn shown(alloc: Global, options: &CaughtOptions<'_>) -> Result<Vec<Text>, AllocError>
    ensures { IfOk result (λ words. words.items ≡ shown (seen_caught options.now)) }
{
    let mut words = Vec::new(alloc);
    push_pair(&mut words, alloc, "-code", code_text(alloc, options.code)?)?;
    push_pair(
        &mut words,
        alloc,
        "-level",
        level_text(alloc, options.level)?,
    )?;
    push_errorcode(&mut words, alloc, options.code, options.errorcode)?;
    Ok(words)
}

/// The text of the options dictionary.
fn options_text(alloc: Global, completion: &Completion) -> Result<Text, AllocError>
    ensures { IfOk result (λ text. text ≡ write (shown (caught (completion_of completion.now)))) }
{
    let words = shown(alloc, &caught(completion))?;
    Text::from_string(alloc, write_list(alloc, words.as_slice())?)
}

/// The options dictionary of a completion that was caught: `-code c -level n` and, where c is 1,
/// `-errorcode e`. Where it is no return, c is its code and n is 0.
///
/// # Errors
/// [`ValueError::TooLong`] only where the dictionary would be too long for a value; want of memory.
pub fn caught_options(alloc: Global, completion: &Completion) -> Result<Value, ValueError>
    ensures made { IfOk result
        (λ value. value ≡ write (shown (caught (completion_of completion.now)))) }
    ensures refused { IsErrOf result ValueError.TooLong →
        IsPast (write (shown (caught (completion_of completion.now)))) }
{
    let text = options_text(alloc, completion)?;
    Value::from_text(text)
}
