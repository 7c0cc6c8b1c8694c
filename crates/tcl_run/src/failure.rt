//! The errors of scripts.
ghost use Rattle.std.specs.Prelude.{◌≡◌, ◌++◌, [], IfOk, codes};
ghost use Rattle.tcl_language.specs.Faults as faults;
ghost use Rattle.tcl_language.specs.Interpreters as interpreters;
ghost use Rattle.tcl_language.specs.Interpreters.{no_interpreter};
ghost use Rattle.tcl_text.specs.Writing.{written_list};
ghost use Rattle.tcl_frames.specs.Messages.{quoted};
ghost use Rattle.tcl_core.specs.Endings as core;
ghost use Rattle.tcl_core.specs.Endings.Reply.{Completed};
ghost use Rattle.tcl_language.specs.Instructions as language;
ghost use Rattle.tcl_run.specs.Ends.{Interrupts, WordsTell, failing, too_deep_at};

use crate::interruption::Interruption;
use std::alloc::{AllocError, Global};
use tcl_flow::completion;
use tcl_flow::stop::{Stop, StopKind};
use tcl_frames::fault::quoted;
use tcl_frames::name::with_colons;
use tcl_text::list::write_list;
use tcl_text::messages::{ALREADY_EXISTS, DENIED, TOO_LONG};
use tcl_text::text::Text;
use tcl_value::value::Value;
use tcl_words::refusal::Refusal;

/// The error of a message within the limit of a value.
fn error(alloc: Global, message: Value) -> Interruption
    ensures { Interrupts result (λ e. e ≡ Completed (core.error message)) }
{
    Interruption::of_completion(alloc, completion::error(message))
}

/// The error that a value would be longer than its limit.
pub fn too_long(alloc: Global) -> Interruption
    ensures { Interrupts result (λ e. e ≡ Completed language.too_long) }
{
    match Text::new(alloc, TOO_LONG) {
        Ok(message) => error(alloc, Value::from_short_text(message)),
        Err(_) => Interruption::Memory,
    }
}

/// The error of this message, or that the message is too long.
pub fn failure(alloc: Global, message: Text) -> Interruption
    ensures { Interrupts result (λ e. e ≡ Completed (failing message)) }
{
    match Value::from_text(message) {
        Ok(message) => error(alloc, message),
        Err(_) => too_long(alloc),
    }
}

/// The error that a command's refusal of its words is.
pub fn refused(alloc: Global, refusal: Refusal) -> Interruption
    ensures { WordsTell refusal result }
{
    match refusal {
        Refusal::Memory => Interruption::Memory,
        Refusal::Fault(message) => failure(alloc, message),
    }
}

/// What becomes of an evaluation that would be too deep for the interpreter so many levels up:
/// where that is its own, an error; else a stop.
pub fn too_deep(alloc: Global, levels: usize) -> Interruption
    ensures { Interrupts result (λ e. e ≡ too_deep_at levels) }
{
    if levels > 0 {
        return Interruption::Stopped(Stop {
            levels_up: levels,
            kind: StopKind::Depth,
        });
    }
    match StopKind::Depth.error(alloc) {
        Ok(completion) => Interruption::of_completion(alloc, completion),
        Err(_) => Interruption::Memory,
    }
}

/// The error of a message that quotes a text, between two others.
pub fn failure_quoting(alloc: Global, front: &str, text: &str, end: &str) -> Interruption
    ensures { Interrupts result (λ e. e ≡ Completed (failing (quoted front.now text.now end.now))) }
{
    match quoted(alloc, front, text, end) {
        Ok(message) => failure(alloc, message),
        Err(_) => Interruption::Memory,
    }
}

/// The error of a message that ends with a text that it quotes.
pub fn failure_about(alloc: Global, front: &str, text: &str) -> Interruption
    ensures { Interrupts result (λ e. e ≡ Completed (failing (quoted front.now text.now []))) }
{
    failure_quoting(alloc, front, text, "")
}

/// There is a command of this name.
pub fn already_exists(alloc: Global, name: &str) -> Interruption
    ensures { Interrupts result
        (λ e. e ≡ Completed (failing (interpreters.already_exists name.now))) }
{
    failure_quoting(alloc, "", name, ALREADY_EXISTS)
}

/// The error of this text.
pub fn plain_failure(alloc: Global, message: &str) -> Interruption
    ensures { Interrupts result (λ e. e ≡ Completed (failing message.now)) }
{
    match Text::new(alloc, message) {
        Ok(message) => failure(alloc, message),
        Err(_) => Interruption::Memory,
    }
}

/// The interpreter may not do this.
pub fn denied(alloc: Global) -> Interruption
    ensures { Interrupts result (λ e. e ≡ Completed (failing interpreters.denied)) }
{
    plain_failure(alloc, DENIED)
}

/// The words of a command don't have its form.
pub fn wrong_args(alloc: Global, form: &str) -> Interruption
    ensures { Interrupts result (λ e. e ≡ Completed (failing (faults.wrong_args form.now))) }
{
    failure_about(alloc, "wrong # args: should be ", form)
}

/// There is no such command.
pub fn invalid_command(alloc: Global, name: &str) -> Interruption
    ensures { Interrupts result (λ e. e ≡ Completed (failing (faults.invalid_command name.now))) }
{
    failure_about(alloc, "invalid command name ", name)
}

/// There is no such hidden command, or there can be none, since the name holds two colons.
pub fn invalid_hidden(alloc: Global, name: &str) -> Interruption
    ensures { Interrupts result (λ e. e ≡ Completed (failing (faults.invalid_hidden name.now))) }
{
    if with_colons(name) {
        return bad_name(alloc, name);
    }
    failure_about(alloc, "invalid hidden command name ", name)
}

/// There is no such interpreter.
pub fn no_interpreter(alloc: Global, path: &str) -> Interruption
    ensures { Interrupts result (λ e. e ≡ Completed (failing (no_interpreter path.now))) }
{
    failure_about(alloc, "could not find interpreter ", path)
}

/// The text of a path: its names as a list.
fn path_text(alloc: Global, path: &[Text]) -> Result<Text, AllocError>
    ensures { IfOk result (λ text. text ≡ written_list path.now) }
{
    Text::from_string(alloc, write_list(alloc, path)?)
}

/// Nobody is at the path for which an entry was handed in.
pub fn nobody_at(alloc: Global, path: &[Text]) -> Interruption
    ensures { Interrupts result (λ e. e ≡ Completed (interpreters.nobody_at path.now)) }
{
    match path_text(alloc, path) {
        Ok(text) => no_interpreter(alloc, text.as_str()),
        Err(_) => Interruption::Memory,
    }
}

/// The target of an alias that was called so isn't there.
pub fn lost_alias(alloc: Global, word: &str) -> Interruption
    ensures { Interrupts result (λ e. e ≡ Completed (failing (faults.lost_alias word.now))) }
{
    failure_about(alloc, "could not find the target of alias ", word)
}

/// Nothing may have this name.
pub fn bad_name(alloc: Global, name: &str) -> Interruption
    ensures { Interrupts result (λ e. e ≡ Completed (failing (faults.bad_name name.now))) }
{
    failure_about(alloc, "bad name ", name)
}

/// There is no such procedure.
pub fn no_procedure(alloc: Global, name: &str) -> Interruption
    ensures { Interrupts result (λ e. e ≡ Completed (failing (faults.no_procedure name.now))) }
{
    failure_quoting(alloc, "", name, " isn't a procedure")
}

/// There is no such option.
pub fn bad_option(alloc: Global, word: &str) -> Interruption
    ensures { Interrupts result (λ e. e ≡ Completed (failing (interpreters.bad_option word.now))) }
{
    failure_about(alloc, "bad option ", word)
}

/// There is no such level.
pub fn bad_level(alloc: Global, level: &str) -> Interruption
    ensures { Interrupts result (λ e. e ≡ Completed (failing (faults.bad_level level.now))) }
{
    failure_about(alloc, "bad level ", level)
}

/// The command has no such subcommand.
pub fn unknown_subcommand(alloc: Global, name: &str) -> Interruption
    ensures { Interrupts result (λ e. e
        ≡ Completed (failing (faults.unknown_subcommand name.now))) }
{
    failure_about(alloc, "unknown subcommand ", name)
}
