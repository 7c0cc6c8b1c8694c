//! What messages come to while a call is open.
ghost use Rattle.std.specs.Prelude.{◌≡◌, IfErr, IfOk, MatchResult};
ghost use Rattle.tcl_serve.specs.Entering.{IsEntry, IsMisfit};
ghost use Rattle.tcl_serve.specs.Opened.{IsNext, IsOpen, RefusesOpen, last_of};
ghost use Rattle.tcl_core.specs.Endings.{completion};
ghost use Rattle.tcl_flow.specs.View.{completion_of};
ghost use Rattle.tcl_serve.specs.Messages.{asks_of};
ghost use Rattle.tcl_serve.specs.declared.refusals.Refusal.TheVariants.{CallOpen, NotOpen};

use crate::entering::{Asked, entry_of, evaluation};
use crate::messages::{Message, Return};
use crate::refusals::Refusal;
use std::alloc::Global;
use tcl_flow::completion::Completion;
use tcl_value::value::Value;

/// A message that is done as an entry, and is answered once the entry is.
#[derive(Clone, Copy)]
pub struct Awaited {
    /// The message's id.
    pub id: u64,
    /// Whether the entry evaluates a script.
    pub evaluates: bool,
}

/// What is between the lines in a run.
pub struct Talk {
    /// The number of the tree that the run is in.
    pub tree: u64,
    /// The numbers of the open calls, the last one opened last.
    pub calls: Vec<u64>,
    /// The messages that are done as entries, the last one begun last.
    pub awaited: Vec<Awaited>,
    /// The number that was given last to a call.
    pub last_call: u64,
    /// Whether the client ended the run, or is gone.
    pub cut: bool,
}

impl Drop for Talk {
    fn drop(self) {
        let Talk {
            tree: _,
            calls: _calls,
            awaited: _awaited,
            last_call: _,
            cut: _,
        } = self;
    }
}

/// What a message comes to while a call is open.
pub(crate) enum Next {
    /// An interpreter does it; whether that evaluates a script.
    Enters(Asked, bool),
    /// It answers the call.
    Returns(Completion),
    /// It ends the run.
    Ends,
}

impl Talk {
    /// What a message comes to while a call is open.
    ///
    /// # Errors
    /// 510, 511, 512, 513; 122; want of memory.
    pub(crate) fn next_of(&self, alloc: Global, message: Message) -> Result<Next, Refusal>
        ensures next { IfOk result (IsNext self.now (asks_of message)) }
        ensures refused { IfErr result (RefusesOpen self.now (asks_of message)) }
    {
        match message {
            Message::Evaluate(message) => {
                self.is_here(message.interpreter.tree)?;
                Ok(Next::Enters(evaluation(message)?, true))
            }
            Message::OnTree(number, ask) => {
                self.is_here(number)?;
                Ok(Next::Enters(entry_of(alloc, ask)?, false))
            }
            Message::Return(message) => {
                self.is_open(message.call)?;
                Ok(Next::Returns(completion_of(message)?))
            }
            Message::EndRun(call) => {
                self.is_open(call)?;
                Ok(Next::Ends)
            }
            _ => Err(Refusal::CallOpen),
        }
    }

    /// Looks whether the run is in the tree of this number.
    ///
    /// # Errors
    /// 510.
    fn is_here(&self, tree: u64) -> Result<(), Refusal>
        ensures { MatchResult result (λ _. tree ≡ self.now.tree)
            (λ e. (e ≡ CallOpen) × ¬ (tree ≡ self.now.tree)) }
    {
        if tree == self.tree {
            return Ok(());
        }
        Err(Refusal::CallOpen)
    }

    /// Looks whether the call of this number is the one that is open.
    ///
    /// # Errors
    /// 511.
    fn is_open(&self, number: u64) -> Result<(), Refusal>
        ensures { MatchResult result (λ _. IsOpen self.now number)
            (λ e. (e ≡ NotOpen number) × ¬ (IsOpen self.now number)) }
    {
        let Some(last) = self.last_call() else {
            return Err(Refusal::NotOpen(number));
        };
        if last != number {
            return Err(Refusal::NotOpen(number));
        }
        Ok(())
    }

    /// The number of the call that was opened last, of those that are open.
    fn last_call(&self) -> Option<u64>
        ensures { result ≡ last_of self.now.calls.items }
    {
        self.calls.as_slice().last().copied()
    }
}

/// The completion by which a call is answered.
///
/// # Errors
/// 122; want of memory.
fn completion_of(answer: Return) -> Result<Completion, Refusal>
    ensures is { IfOk result (λ made. completion_of made ≡ completion answer.code answer.text) }
    ensures fault { IfErr result IsMisfit }
{
    let Return {
        call: _,
        code,
        text,
    } = answer;
    let text = Value::from_text(text)?;
    Ok(Completion::new(code, text))
}
