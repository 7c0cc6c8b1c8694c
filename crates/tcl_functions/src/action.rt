//! What an embedder's function does next.
ghost use Rattle.std.specs.Prelude.{◌≡◌, IfOk};
ghost use Rattle.tcl_core.specs.Endings.{ok};
ghost use Rattle.tcl_core.specs.Entries.Entry.{Eval};
ghost use Rattle.tcl_functions.specs.Actions.{action_of};
ghost use Rattle.tcl_functions.specs.Actions.ActionView.{Completes, Enters};
ghost use Rattle.tcl_flow.specs.View.{completion_of};
ghost use Rattle.tcl_language.specs.Faults as faults;
ghost use Rattle.tcl_language.specs.Instructions.{either, fits, too_long};
ghost use Rattle.tcl_run.specs.Ends.{failing};

use std::alloc::{AllocError, Global};
use tcl_flow::completion::{self, Completion};
use tcl_run::entry::Entry;
use tcl_run::failure::wrong_args;
use tcl_run::interruption::Interruption;
use tcl_text::messages::TOO_LONG;
use tcl_text::text::Text;
use tcl_value::value::{Value, ValueError};

/// What a function does next for an open call.
#[derive(Drop)]
pub enum Action {
    /// It ends the call, by this completion.
    Complete(Completion),
    /// It asks something of an interpreter first. Once that is done, the function is asked again,
    /// with one reply more.
    Enter {
        /// The path of the interpreter, from the root of the tree downward.
        target: Vec<Text>,
        /// What is asked of it. An alias that is set gets the shortest way to its target: where its
        /// way goes up and comes down again by the same names, these are left out.
        entry: Entry,
    },
    /// It ends the whole run with this status.
    Exit(i64),
}

/// The error that a value would be longer than its limit.
fn too_long(alloc: Global) -> Result<Completion, AllocError>
    ensures { IfOk result (λ c. completion_of c ≡ too_long) }
{
    let message = Text::new(alloc, TOO_LONG)?;
    Ok(completion::error(Value::from_short_text(message)))
}

impl Action {
    /// Ends the call by an ordinary result; of a text that is longer than a value may be, by that
    /// error (122).
    ///
    /// # Errors
    /// Want of memory.
    pub fn answer(alloc: Global, text: &str) -> Result<Action, AllocError>
        ensures { IfOk result (λ action. action_of action
            ≡ Completes (either (fits text.now) (ok text.now) too_long)) }
    {
        match Value::from_text(Text::new(alloc, text)?) {
            Ok(value) => Ok(Action::Complete(completion::ok(value))),
            Err(ValueError::TooLong) => Ok(Action::Complete(too_long(alloc)?)),
            Err(ValueError::Memory) => Err(AllocError),
        }
    }

    /// Ends the call by an error with this message; by another one where the message is longer than
    /// a value may be (122).
    ///
    /// # Errors
    /// Want of memory.
    pub fn fail(alloc: Global, message: &str) -> Result<Action, AllocError>
        ensures { IfOk result (λ action. action_of action ≡ Completes (failing message.now)) }
    {
        match Value::from_text(Text::new(alloc, message)?) {
            Ok(message) => Ok(Action::Complete(completion::error(message))),
            Err(ValueError::TooLong) => Ok(Action::Complete(too_long(alloc)?)),
            Err(ValueError::Memory) => Err(AllocError),
        }
    }

    /// Ends the call by the error of words that don't have this form, such as `twice script` (241).
    ///
    /// # Errors
    /// Want of memory.
    pub fn wrong_args(alloc: Global, form: &str) -> Result<Action, AllocError>
        ensures { IfOk result (λ action. action_of action
            ≡ Completes (failing (faults.wrong_args form.now))) }
    {
        match wrong_args(alloc, form) {
            Interruption::Completed(completion) => {
                Ok(Action::Complete(Box::into_inner(completion)))
            }
            _ => Err(AllocError),
        }
    }

    /// Evaluates a script in the interpreter at a path first; where the script is longer than a
    /// value may be, it ends the call by that error (122).
    ///
    /// # Errors
    /// Want of memory.
    pub fn eval(alloc: Global, path: &[Text], script: &str) -> Result<Action, AllocError>
        ensures { IfOk result (λ action. action_of action
            ≡ either (fits script.now) (Enters path.now (Eval script.now)) (Completes too_long)) }
    {
        match Value::from_text(Text::new(alloc, script)?) {
            Ok(script) => enter(alloc, path, script),
            Err(ValueError::TooLong) => Ok(Action::Complete(too_long(alloc)?)),
            Err(ValueError::Memory) => Err(AllocError),
        }
    }
}

/// Evaluates a script in the interpreter at a path first.
fn enter(alloc: Global, path: &[Text], script: Value) -> Result<Action, AllocError>
    ensures { IfOk result (λ action. action_of action ≡ Enters path.now (Eval script)) }
{
    let target = Vec::from_clones(alloc, path)?;
    Ok(Action::Enter {
        target,
        entry: Entry::Eval(script),
    })
}
