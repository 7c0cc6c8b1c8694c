//! Completions, and the options of `return`.
//!
//! A call is a list, which is made on one completion; one that changes it answers `-`. A completion
//! is told as its code, the code and the level of its options and its text, and options as their
//! code, their level and their errorcode.
use crate::tree_rows::answers::{Answer, Told, given, no_call, number, refused, value, written};
use crate::tree_rows::words::{value_of, values_of, words_of};
use row_runner::World;
use std::alloc::{AllocError, Global};
use tcl_flow::completion::{
    Completion, OK, Options, RETURN, error, leave_file, leave_proc, settle,
};
use tcl_flow::messages::continue_outside;
use tcl_flow::reading::{OptionsError, return_words};
use tcl_flow::returning::{OptionsFault, caught_options, code_of, level_of, make_return};
use tcl_flow::stop::StopKind;
use tcl_text::integer::Integers;
use tcl_text::text::Text;
use tcl_value::value::Value;

impl Told for OptionsError {
    fn show(&self, alloc: Global) -> Result<String, AllocError> {
        match self {
            OptionsError::Fault(fault) => String::from_str(alloc, fault.message(alloc)?.as_str()),
            OptionsError::Memory => Err(AllocError),
        }
    }
}

/// The code that a word spells; one that spells none is a code that no row has.
fn code_in(word: &Text) -> i64 {
    match word.as_str().parse::<i64>() {
        Ok(code) => code,
        Err(_) => i64::MIN,
    }
}

/// The level that a word spells.
fn level_in(word: &Text) -> u32 {
    match word.as_str().parse::<u32>() {
        Ok(level) => level,
        Err(_) => u32::MAX,
    }
}

/// A code, or `none`.
fn show_code(alloc: Global, code: Option<i64>) -> Result<Answer, AllocError> {
    match code {
        Some(code) => Ok(Answer::Given(format!(in alloc; "{code}")?)),
        None => given(alloc, "none"),
    }
}

/// An errorcode as it is told.
fn show_errorcode(alloc: Global, errorcode: Option<&Value>) -> Result<Text, AllocError> {
    match errorcode {
        Some(errorcode) => errorcode.text(alloc),
        None => Text::new(alloc, "NONE"),
    }
}

/// Options as they are told.
fn show_options(alloc: Global, options: &Options) -> Result<Answer, AllocError> {
    let errorcode = show_errorcode(alloc, options.errorcode.as_ref())?;
    let (code, level) = (options.code, options.level);
    Ok(Answer::Given(format!(in alloc; "{code} {level} {}", errorcode.as_str())?))
}

/// A completion as it is told.
fn show_completion(alloc: Global, made: &Completion) -> Result<Answer, AllocError> {
    let text = made.text.text(alloc)?;
    let (code, last, level) = (made.code, made.options.code, made.options.level);
    Ok(Answer::Given(format!(in alloc; "{code} {last} {level} {}", text.as_str())?))
}

/// `options ?WORD ..?`: what options come to.
fn read(alloc: Global, words: &[Value]) -> Result<Answer, AllocError> {
    match Options::read(alloc, Integers::Tcl8, words) {
        Ok(options) => show_options(alloc, &options),
        Err(error) => refused(alloc, &error),
    }
}

/// `return ?WORD ..?`: what `return` makes.
fn made(alloc: Global, words: &[Value]) -> Result<Answer, AllocError> {
    match return_words(alloc, Integers::Tcl9, words) {
        Ok(made) => show_completion(alloc, &made),
        Err(error) => refused(alloc, &error),
    }
}

/// `code-of WORD`: the code that a word means.
fn show_code_of(alloc: Global, mut word: Value) -> Result<Answer, AllocError> {
    let code = code_of(alloc, Integers::Tcl8, &mut word)?;
    show_code(alloc, code)
}

/// `level-of WORD`: the level that a word means.
fn show_level_of(alloc: Global, mut word: Value) -> Result<Answer, AllocError> {
    number(alloc, level_of(Integers::Tcl8, &mut word))
}

/// `bad-option WORD` and `bad-code WORD`: what is told of a fault.
fn show_fault(alloc: Global, fault: &OptionsFault) -> Result<Answer, AllocError> {
    given(alloc, fault.message(alloc)?.as_str())
}

/// `shown`: the options that a completion shows.
fn shown(alloc: Global, own: &Completion) -> Result<Answer, AllocError> {
    match caught_options(alloc, own) {
        Ok(options) => value(alloc, &options),
        Err(_) => Err(AllocError),
    }
}

/// `count`: what is told at the limit of commands.
fn show_stop(alloc: Global) -> Result<Answer, AllocError> {
    value(alloc, &StopKind::Count.error(alloc)?.text)
}

/// `begin CODE LEVEL`: a return of the number 1.
fn begin(own: &mut Completion, code: i64, level: u32) {
    *own = Completion {
        code: RETURN,
        text: Value::from_int(1),
        options: Options {
            code,
            level: u64::from(level),
            errorcode: None,
        },
    };
}

/// `make CODE LEVEL TEXT`: a return that is made with these options.
fn make(own: &mut Completion, code: i64, level: u32, text: Value) {
    let options = Options {
        code,
        level: u64::from(level),
        errorcode: None,
    };
    *own = make_return(options, text);
}

/// `plain CODE TEXT`: a return that is made with plain options but for the code.
fn plain(own: &mut Completion, code: i64, text: Value) {
    let mut options = Options::new();
    options.code = code;
    *own = make_return(options, text);
}

/// What a call of no words answers that looks at the completion, or tells a message.
fn looked_at(own: &Completion, alloc: Global, call: &str) -> Result<Answer, AllocError> {
    match call {
        "code" => show_code(alloc, Some(own.code)),
        "last" => show_code(alloc, Some(own.options.code)),
        "level" => number(alloc, Some(own.options.level)),
        "text" => value(alloc, &own.text),
        "shown" => shown(alloc, own),
        "continue" => value(alloc, &continue_outside(alloc)?),
        "count" => show_stop(alloc),
        _ => no_call(alloc),
    }
}

/// What a call of no words answers. `settle`, `proc` and `file` settle the completion, and let it
/// leave a procedure and a file.
fn of_none(own: &mut Completion, alloc: Global, call: &str) -> Result<Answer, AllocError> {
    match call {
        "settle" => settle(alloc, own)?,
        "proc" => leave_proc(alloc, own)?,
        "file" => leave_file(own),
        _ => return looked_at(own, alloc, call),
    }
    given(alloc, "-")
}

/// What a call of one word answers. `error TEXT` makes an error, and `errorcode LIST` gives the
/// completion its errorcode.
fn of_one(
    own: &mut Completion,
    alloc: Global,
    call: &str,
    word: &Text,
) -> Result<Answer, AllocError> {
    match call {
        "error" => *own = error(value_of(word)?),
        "errorcode" => own.options.errorcode = Some(value_of(word)?),
        "code-of" => return show_code_of(alloc, value_of(word)?),
        "level-of" => return show_level_of(alloc, value_of(word)?),
        "bad-option" => return show_fault(alloc, &OptionsFault::BadOption(word.clone()?)),
        "bad-code" => return show_fault(alloc, &OptionsFault::BadCode(word.clone()?)),
        _ => return no_call(alloc),
    }
    given(alloc, "-")
}

/// What a call answers that isn't of any number of words.
fn of_few(
    own: &mut Completion,
    alloc: Global,
    call: &str,
    words: &[Text],
) -> Result<Answer, AllocError> {
    match words {
        [] => return of_none(own, alloc, call),
        [word] => return of_one(own, alloc, call, word),
        [code, level] if call == "begin" => begin(own, code_in(code), level_in(level)),
        [code, text] if call == "plain" => plain(own, code_in(code), value_of(text)?),
        [code, level, text] if call == "make" => {
            make(own, code_in(code), level_in(level), value_of(text)?);
        }
        _ => return no_call(alloc),
    }
    given(alloc, "-")
}

/// What a call answers, by its words.
fn answer(own: &mut Completion, alloc: Global, words: &[Text]) -> Result<Answer, AllocError> {
    match words {
        [call, others @ ..] => match call.as_str() {
            "options" => read(alloc, &values_of(alloc, others)?),
            "return" => made(alloc, &values_of(alloc, others)?),
            call => of_few(own, alloc, call, others),
        },
        [] => no_call(alloc),
    }
}

/// A completion, which is that of the empty text at first.
pub(crate) struct Completions {
    own: Completion,
}

impl Drop for Completions {
    fn drop(self) {
        let Completions { own: _own } = self;
    }
}

impl Completions {
    pub(crate) fn new() -> Completions {
        Completions {
            own: Completion::new(OK, Value::empty()),
        }
    }
}

impl World for Completions {
    fn begin(&mut self, _alloc: Global) -> Result<(), AllocError> {
        *self = Completions::new();
        Ok(())
    }

    fn answer(&mut self, alloc: Global, call: &str) -> Result<String, AllocError> {
        let words = words_of(alloc, call)?;
        Ok(written(answer(&mut self.own, alloc, &words)?))
    }
}
