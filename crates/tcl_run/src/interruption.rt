//! What ends an evaluation other than an ordinary result.
ghost use Rattle.std.specs.Prelude.{◌≡◌};
ghost use Rattle.tcl_run.specs.Ends.{Catches};
ghost use Rattle.tcl_run.specs.declared.interruption.Interruption.TheVariants.{Memory};

use std::alloc::{AllocError, AllocFailed, Global};
use tcl_flow::completion::{self, Completion};
use tcl_flow::stop::Stop;
use tcl_value::value::Value;

/// What cuts an evaluation off from outside its tree.
#[derive(Clone, Copy, Drop)]
pub enum Cause {
    /// A stop that names an interpreter above the tree.
    Above,
    /// The run is over: its budget is spent, or a move didn't fit.
    Over,
}

/// Why an evaluation has no ordinary result.
#[derive(Drop)]
pub enum Interruption {
    /// Memory was wanted. No script is told of it.
    Memory,
    /// It completed otherwise, as by an error or a return.
    Completed(Box<Completion>),
    /// A step or a level would have passed a limit. No script of the interpreters that it ends is
    /// told of it.
    Stopped(Stop),
    /// The whole run ends with this status.
    Exited(i64),
    /// It was ended from outside its tree.
    Cut(Cause),
}

impl Interruption {
    ghost use Rattle.tcl_core.specs.Endings.Reply.{Completed};
    ghost use Rattle.tcl_flow.specs.View.{completion_of};
    ghost use Rattle.tcl_run.specs.Ends.{Interrupts};

    /// An evaluation that completed so, or that memory was wanted to say it.
    #[inline(always)]
    pub fn of_completion(alloc: Global, completion: Completion) -> Interruption
        ensures { Interrupts result (λ e. e ≡ Completed (completion_of completion)) }
    {
        match Box::new(alloc, completion) {
            Ok(completion) => Interruption::Completed(completion),
            Err(_) => Interruption::Memory,
        }
    }
}

impl From<AllocError> for Interruption {
    ghost from_gives = { λ _ interruption. interruption ≡ Memory };

    fn from(_e: AllocError) -> Interruption {
        Interruption::Memory
    }
}

impl<T: Drop> From<AllocFailed<T>> for Interruption {
    ghost from_gives = { λ _ interruption. interruption ≡ Memory };

    fn from(_e: AllocFailed<T>) -> Interruption {
        Interruption::Memory
    }
}

/// Returns the completion that an evaluation ended in.
///
/// # Errors
/// A stop, an exit, a cut and want of memory are no completions: they are returned as they came,
/// and no script catches them.
#[inline(never)]
pub fn caught(ended: Result<Value, Interruption>) -> Result<Completion, Interruption>
    ensures { Catches ended result }
{
    match ended {
        Ok(text) => Ok(completion::ok(text)),
        Err(Interruption::Completed(completion)) => Ok(Box::into_inner(completion)),
        Err(interruption) => Err(interruption),
    }
}
