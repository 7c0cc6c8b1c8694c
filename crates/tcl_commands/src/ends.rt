//! The commands that end scripts.
ghost use Rattle.std.specs.Prelude.{◌≡◌, [], IfOk};
ghost use Rattle.tcl_core.specs.Endings as core;
ghost use Rattle.tcl_flow.specs.View.{completion_of};
ghost use Rattle.tcl_language.specs.Control as control;
ghost use Rattle.tcl_run.specs.Ends.{Interrupts};
ghost use Rattle.tcl_run.specs.Plain.{Acts};
ghost use Rattle.tcl_run.specs.Runs.{IsLevel};
ghost use Rattle.tcl_commands.specs.Endings.{error_of, TellsOptions};

use std::alloc::{AllocError, Global};
use tcl_flow::completion::{self, BREAK, CONTINUE, Completion, ERROR, Options};
use tcl_flow::reading::{OptionsError, return_words};
use tcl_run::failure::{failure, wrong_args};
use tcl_run::interruption::Interruption;
use tcl_tree::tree::{Place, Tree};
use tcl_value::value::Value;

/// The error of this message, of no kind.
fn plain_error(message: &Value) -> Result<Completion, AllocError>
    ensures { IfOk result (λ c. completion_of c ≡ core.error message.now) }
{
    Ok(completion::error(message.clone()?))
}

/// The error of this message, of this kind.
fn error_of(message: &Value, errorcode: &Value) -> Result<Completion, AllocError>
    ensures { IfOk result (λ c. completion_of c ≡ error_of message.now errorcode.now) }
{
    Ok(Completion {
        code: ERROR,
        text: message.clone()?,
        options: Options {
            code: ERROR,
            level: 0,
            errorcode: Some(errorcode.clone()?),
        },
    })
}

/// `error message ?errorInfo? ?errorCode?`: an error of this message; what it would add to a trace
/// is dropped.
///
/// # Errors
/// The error; 241; want of memory.
pub fn error(
    tree: &mut Tree,
    alloc: Global,
    place: Place,
    args: &[Value],
) -> Result<Value, Interruption>
    ensures acts { Acts tree.old place (λ _. control.error args.now) tree.new result }
    ensures level { IsLevel tree.old tree.new }
{
    match args {
        [message] => Err(Interruption::of_completion(alloc, plain_error(message)?)),
        [message, _] => Err(Interruption::of_completion(alloc, plain_error(message)?)),
        [message, _, errorcode] => Err(Interruption::of_completion(
            alloc,
            error_of(message, errorcode)?,
        )),
        _ => Err(wrong_args(alloc, "error message ?errorInfo? ?errorCode?")),
    }
}

/// `throw type message`: an error of this message, whose kind is this text as it is.
///
/// # Errors
/// The error; 241; want of memory.
pub fn throw(
    tree: &mut Tree,
    alloc: Global,
    place: Place,
    args: &[Value],
) -> Result<Value, Interruption>
    ensures acts { Acts tree.old place (λ _. control.throw args.now) tree.new result }
    ensures level { IsLevel tree.old tree.new }
{
    match args {
        [kind, message] => Err(Interruption::of_completion(alloc, error_of(message, kind)?)),
        _ => Err(wrong_args(alloc, "throw type message")),
    }
}

/// The completion of this code with no text.
fn bare(alloc: Global, code: i64) -> Interruption
    ensures { Interrupts result (λ e. e ≡ core.Reply.Completed (core.completion code [])) }
{
    Interruption::of_completion(alloc, Completion::new(code, Value::empty()))
}

/// `break`
///
/// # Errors
/// The break; 241; want of memory.
pub fn breaks(
    tree: &mut Tree,
    alloc: Global,
    place: Place,
    args: &[Value],
) -> Result<Value, Interruption>
    ensures acts { Acts tree.old place (λ _. control.breaks args.now) tree.new result }
    ensures level { IsLevel tree.old tree.new }
{
    match args {
        [] => Err(bare(alloc, BREAK)),
        _ => Err(wrong_args(alloc, "break")),
    }
}

/// `continue`
///
/// # Errors
/// The continue; 241; want of memory.
pub fn continues(
    tree: &mut Tree,
    alloc: Global,
    place: Place,
    args: &[Value],
) -> Result<Value, Interruption>
    ensures acts { Acts tree.old place (λ _. control.continues args.now) tree.new result }
    ensures level { IsLevel tree.old tree.new }
{
    match args {
        [] => Err(bare(alloc, CONTINUE)),
        _ => Err(wrong_args(alloc, "continue")),
    }
}

/// What a script is told of options that are refused.
fn options_failure(alloc: Global, error: OptionsError) -> Interruption
    ensures { TellsOptions error result }
{
    match error {
        OptionsError::Memory => Interruption::Memory,
        OptionsError::Fault(fault) => match fault.message(alloc) {
            Ok(message) => failure(alloc, message),
            Err(_) => Interruption::Memory,
        },
    }
}

/// `return ?option value ...? ?result?`: the completion that the options make of the result.
///
/// # Errors
/// That completion, also where it is an ordinary one; 221; want of memory.
#[inline(always)]
pub fn returns(
    tree: &mut Tree,
    alloc: Global,
    place: Place,
    args: &[Value],
) -> Result<Value, Interruption>
    ensures acts { Acts tree.old place (λ style. control.returns style args.now) tree.new result }
    ensures level { IsLevel tree.old tree.new }
{
    match return_words(alloc, tree.integers(), args) {
        Ok(completion) => Err(Interruption::of_completion(alloc, completion)),
        Err(error) => Err(options_failure(alloc, error)),
    }
}
