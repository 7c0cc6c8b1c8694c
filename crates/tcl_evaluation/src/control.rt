//! The commands that evaluate scripts in their own interpreter.
ghost use Rattle.std.specs.Prelude.{◌≡◌};
ghost use Rattle.tcl_language.specs.Control as control;
ghost use Rattle.tcl_run.specs.Ends.{OnCompletion};
ghost use Rattle.tcl_run.specs.Runs.{IsHere, IsRunning, Keeps, ProceedsIn, ways};

use crate::evaluation::eval_value;
use std::alloc::Global;
use tcl_calls::catching::keep_caught;
use tcl_calls::scripts::script_of;
use tcl_run::failure::wrong_args;
use tcl_run::interruption::{Interruption, caught};
use tcl_run::outside::Outside;
use tcl_tree::tree::{Place, Tree};
use tcl_value::value::Value;

/// `eval arg ?arg ...?`: evaluates the script that the words are put together to. (eval(n))
///
/// # Errors
/// 241; 122 of the script; those of the script; want of memory.
#[cycle(eval)]
#[inline(never)]
pub fn eval<O: Outside>(
    tree: &mut Tree,
    alloc: Global,
    outside: &mut O,
    place: Place,
    args: &[Value],
) -> Result<Value, Interruption>
    requires { IsRunning tree.old place }
    ensures runs { ProceedsIn (ways O.goes O.loses) tree.old outside.old place
        (λ style. control.eval args.now) tree.new outside.new result }
    ensures here { OnCompletion result (IsHere tree.old tree.new place) }
    ensures keeps { Keeps O.entries_left tree.old tree.new outside.old outside.new }
{
    if args.is_empty() {
        return Err(wrong_args(alloc, "eval arg ?arg ...?"));
    }
    let script = script_of(alloc, args)?;
    eval_value(tree, alloc, outside, place, &script)
}

/// `catch script ?resultVarName? ?optionVarName?`: evaluates a script and gives the code of its
/// completion, whatever that is. (catch(n))
///
/// # Errors
/// 241; 232, 233 and 238 of the variables; 122 of the options; what no script catches: a stop, an
/// exit, an end from outside; want of memory.
#[cycle(eval)]
#[inline(never)]
pub fn catch<O: Outside>(
    tree: &mut Tree,
    alloc: Global,
    outside: &mut O,
    place: Place,
    args: &[Value],
) -> Result<Value, Interruption>
    requires { IsRunning tree.old place }
    ensures runs { ProceedsIn (ways O.goes O.loses) tree.old outside.old place
        (λ style. control.catch args.now) tree.new outside.new result }
    ensures here { OnCompletion result (IsHere tree.old tree.new place) }
    ensures keeps { Keeps O.entries_left tree.old tree.new outside.old outside.new }
{
    let [script, names @ ..] = args else {
        return Err(wrong_args(alloc, CATCH));
    };
    if names.len() > 2 {
        return Err(wrong_args(alloc, CATCH));
    }
    let completion = caught(eval_value(tree, alloc, outside, place, script))?;
    keep_caught(tree, alloc, place, names, &completion)?;
    Ok(Value::from_int(completion.code))
}

/// The form of `catch`.
const CATCH: &str = "catch script ?resultVarName? ?optionVarName?";
