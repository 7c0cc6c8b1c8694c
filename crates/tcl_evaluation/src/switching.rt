//! `switch`.
ghost use Rattle.tcl_language.specs.Switching as switching;
ghost use Rattle.tcl_run.specs.Ends.{OnCompletion};
ghost use Rattle.tcl_run.specs.Runs.{IsHere, IsRunning, Keeps, ProceedsIn, ways};

use crate::evaluation::eval_value;
use std::alloc::Global;
use tcl_calls::switching::chosen_body;
use tcl_run::interruption::Interruption;
use tcl_run::outside::Outside;
use tcl_tree::tree::{Place, Tree};
use tcl_value::value::Value;

/// `switch ?option ...? string ?pattern body ...?`: evaluates the body of the first pattern that
/// fits. (switch(n))
///
/// # Errors
/// 241; 221 of the options; 101 to 104 of the list of pairs; those of the body; want of memory.
#[cycle(eval)]
#[inline(never)]
pub fn switch<O: Outside>(
    tree: &mut Tree,
    alloc: Global,
    outside: &mut O,
    place: Place,
    args: &[Value],
) -> Result<Value, Interruption>
    requires { IsRunning tree.old place }
    ensures runs { ProceedsIn (ways O.goes O.loses) tree.old outside.old place
        (λ style. switching.switch args.now) tree.new outside.new result }
    ensures here { OnCompletion result (IsHere tree.old tree.new place) }
    ensures keeps { Keeps O.entries_left tree.old tree.new outside.old outside.new }
{
    let Some(body) = chosen_body(alloc, args)? else {
        return Ok(Value::empty());
    };
    eval_value(tree, alloc, outside, place, &body)
}
