//! What a loop keeps of what its body gives.
ghost use Rattle.tcl_calls.specs.Collecting.{Collects, CollectsCompleted, Keeps};
ghost use Rattle.tcl_calls.specs.Words.{EndsBy};
ghost use Rattle.tcl_flow.specs.View.{completion_of};
ghost use Rattle.tcl_language.specs.Instructions.{gives};
ghost use Rattle.tcl_run.specs.Ends.{IfEnded};
ghost use Rattle.tcl_text.specs.Writing.{written_list};

use std::alloc::Global;
use tcl_flow::completion::{BREAK, CONTINUE, Completion, OK};
use tcl_run::failure::too_long;
use tcl_run::interruption::Interruption;
use tcl_value::list::List;
use tcl_value::value::{Value, ValueError};

/// Adds what the body of a turn gave to what the turns before gave.
///
/// # Errors
/// That the list is too long for a value; want of memory.
fn keep(alloc: Global, made: &mut List, value: Value) -> Result<bool, Interruption>
    ensures { Keeps made.old made.new value result }
{
    match made.push(alloc, value) {
        Ok(()) => Ok(true),
        Err(ValueError::TooLong) => Err(too_long(alloc)),
        Err(ValueError::Memory) => Err(Interruption::Memory),
    }
}

/// Whether a loop goes on after its body completed so, with what an ordinary end gave added to what
/// it keeps.
///
/// # Errors
/// Every other completion; that the list is too long for a value; want of memory.
fn collects_completed(
    alloc: Global,
    made: &mut List,
    completion: Box<Completion>,
) -> Result<bool, Interruption>
    ensures { CollectsCompleted (completion_of completion.value) made.old made.new result }
{
    if completion.code == OK {
        return keep(alloc, made, Box::into_inner(completion).text);
    }
    if completion.code == CONTINUE {
        return Ok(true);
    }
    if completion.code == BREAK {
        return Ok(false);
    }
    Err(Interruption::Completed(completion))
}

/// Whether a loop goes on after its body ended so, with what an ordinary end gave added to what it
/// keeps; a `continue` adds nothing, and after a `break` the loop is over. (lmap(n))
///
/// # Errors
/// Every other end, which is the loop's own; that the list is too long for a value; want of memory.
#[inline(never)]
pub fn collects(
    alloc: Global,
    made: &mut List,
    ended: Result<Value, Interruption>,
) -> Result<bool, Interruption>
    ensures { Collects ended made.old made.new result }
{
    match ended {
        Ok(value) => keep(alloc, made, value),
        Err(Interruption::Completed(completion)) => collects_completed(alloc, made, completion),
        Err(interruption) => Err(interruption),
    }
}

/// What a loop gives that keeps what its body gave. (lmap(n))
///
/// # Errors
/// That the list is too long for a value; want of memory.
#[inline(never)]
pub fn collected(alloc: Global, made: List) -> Result<Value, Interruption>
    ensures { IfEnded result (EndsBy (gives (written_list made))) }
{
    match Value::from_list(alloc, made) {
        Ok(value) => Ok(value),
        Err(ValueError::TooLong) => Err(too_long(alloc)),
        Err(ValueError::Memory) => Err(Interruption::Memory),
    }
}
