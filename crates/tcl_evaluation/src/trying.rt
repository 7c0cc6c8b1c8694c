//! `try`.
ghost use Rattle.std.specs.Option.{option_copied};
ghost use Rattle.tcl_calls.specs.Trying.{handlers_of};
ghost use Rattle.tcl_flow.specs.View.{completion_of};
ghost use Rattle.tcl_language.specs.Expressions.{runs_last};
ghost use Rattle.tcl_language.specs.Trying as trying;
ghost use Rattle.tcl_run.specs.Ends.{OnCompletion};
ghost use Rattle.tcl_run.specs.Runs.{IsHere, IsRunning, Keeps, ProceedsIn, ways};

use crate::evaluation::eval_value;
use std::alloc::Global;
use tcl_calls::trying::{Handler, TRY, Tried, handler_for, keep_named, read_tried, released};
use tcl_flow::completion::Completion;
use tcl_run::failure::wrong_args;
use tcl_run::interruption::{Interruption, caught};
use tcl_run::outside::Outside;
use tcl_run::steps::on_ok;
use tcl_tree::tree::{Place, Tree};
use tcl_value::value::Value;

/// Evaluates the script of a handler, where it has one.
///
/// # Errors
/// Those of the script; want of memory.
#[cycle(eval)]
#[inline(never)]
fn run_handler<O: Outside>(
    tree: &mut Tree,
    alloc: Global,
    outside: &mut O,
    place: Place,
    chosen: Option<&Value>,
) -> Result<Value, Interruption>
    requires { IsRunning tree.old place }
    ensures runs { ProceedsIn (ways O.goes O.loses) tree.old outside.old place
        (λ style. runs_last (option_copied chosen.entry)) tree.new outside.new result }
    ensures here { OnCompletion result (IsHere tree.old tree.new place) }
    ensures keeps { Keeps O.entries_left tree.old tree.new outside.old outside.new }
{
    let Some(script) = chosen else {
        return Ok(Value::empty());
    };
    eval_value(tree, alloc, outside, place, script)
}

/// Sets the variables of the first handler that handles a completion, and evaluates its script.
///
/// # Errors
/// The completion where no handler handles it; 101 to 104 of the list of the variables; 232, 233
/// and 238 of the variables; 122 of the options; those of the script; want of memory.
#[cycle(eval)]
#[inline(never)]
fn handle<O: Outside>(
    tree: &mut Tree,
    alloc: Global,
    outside: &mut O,
    place: Place,
    completion: Completion,
    handlers: &[Handler<'_>],
) -> Result<Value, Interruption>
    requires { IsRunning tree.old place }
    ensures runs { ProceedsIn (ways O.goes O.loses) tree.old outside.old place
        (λ style. trying.handled_by (completion_of completion) (handlers_of handlers.now)) tree.new
        outside.new result }
    ensures here { OnCompletion result (IsHere tree.old tree.new place) }
    ensures keeps { Keeps O.entries_left tree.old tree.new outside.old outside.new }
{
    let Some((names, script)) = handler_for(alloc, &completion, handlers)? else {
        return released(alloc, completion);
    };
    keep_named(tree, alloc, place, names, &completion)?;
    run_handler(tree, alloc, outside, place, script)
}

/// Evaluates the body of a `try`, and the script of the first handler that handles its completion.
///
/// # Errors
/// Those of the body where no handler handles its completion; those of the handler; what no script
/// catches: a stop, an exit, an end from outside; want of memory.
#[cycle(eval)]
#[inline(never)]
fn handled<O: Outside>(
    tree: &mut Tree,
    alloc: Global,
    outside: &mut O,
    place: Place,
    body: &Value,
    handlers: &[Handler<'_>],
) -> Result<Value, Interruption>
    requires { IsRunning tree.old place }
    ensures runs { ProceedsIn (ways O.goes O.loses) tree.old outside.old place
        (λ style. trying.handled body.now (handlers_of handlers.now)) tree.new outside.new result }
    ensures here { OnCompletion result (IsHere tree.old tree.new place) }
    ensures keeps { Keeps O.entries_left tree.old tree.new outside.old outside.new }
{
    let completion = caught(eval_value(tree, alloc, outside, place, body))?;
    handle(tree, alloc, outside, place, completion, handlers)
}

/// `try body ?handler ...? ?finally script?`: evaluates the body and a handler of its completion,
/// and last the script behind `finally`, whatever the completion is. (try(n))
///
/// # Errors
/// 241; 221 of a code; 101 to 104 of a pattern and of the names that a handler sets; 122 of the
/// options; 232, 233 and 238 of the variables; those of the body, its handler and the last script;
/// what no script catches: a stop, an exit, an end from outside; want of memory.
#[cycle(eval)]
#[inline(never)]
pub fn try_script<O: Outside>(
    tree: &mut Tree,
    alloc: Global,
    outside: &mut O,
    place: Place,
    args: &[Value],
) -> Result<Value, Interruption>
    requires { IsRunning tree.old place }
    ensures runs { ProceedsIn (ways O.goes O.loses) tree.old outside.old place
        (λ style. trying.try_script style args.now) tree.new outside.new result }
    ensures here { OnCompletion result (IsHere tree.old tree.new place) }
    ensures keeps { Keeps O.entries_left tree.old tree.new outside.old outside.new }
{
    let [body, words @ ..] = args else {
        return Err(wrong_args(alloc, TRY));
    };
    let tried = read_tried(alloc, tree.integers(), words)?;
    let Tried { handlers, last } = tried;
    let ended = handled(tree, alloc, outside, place, body, handlers.as_slice());
    let Some(last) = last else {
        return ended;
    };
    let completion = caught(ended)?;
    on_ok(eval_value(tree, alloc, outside, place, last))?;
    released(alloc, completion)
}
