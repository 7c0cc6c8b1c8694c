//! Calls of plain commands.
ghost use Rattle.std.specs.Prelude.{◌≡◌, true};
ghost use Rattle.tcl_commands.specs.Kinds.{is_plain};
ghost use Rattle.tcl_run.specs.Ends.{IfRan, OnCompletion};
ghost use Rattle.tcl_run.specs.Runs.{IsHere, IsRunning, Keeps, ways};
ghost use Rattle.tcl_evaluation.specs.Sums.{CallsBuiltin};

use std::alloc::Global;
use tcl_commands::plain::call_plain;
use tcl_run::interruption::Interruption;
use tcl_run::outside::Outside;
use tcl_run::steps::charge;
use tcl_tree::builtin::Builtin;
use tcl_tree::tree::{Place, Tree};
use tcl_value::value::Value;

/// Makes a step and calls a plain command, which its first word names.
///
/// # Errors
/// The stop 308; those of the command; want of memory.
pub fn call_plain_command<O: Outside>(
    tree: &mut Tree,
    alloc: Global,
    outside: &mut O,
    place: Place,
    builtin: Builtin,
    args: &[Value],
) -> Result<Value, Interruption>
    requires running { IsRunning tree.old place }
    requires plain { is_plain builtin ≡ true }
    ensures runs { IfRan result (CallsBuiltin (ways O.goes O.loses) tree.old outside.old place
        builtin args.now tree.new outside.new) }
    ensures here { OnCompletion result (IsHere tree.old tree.new place) }
    ensures keeps { Keeps O.entries_left tree.old tree.new outside.old outside.new }
{
    charge(tree, outside, place)?;
    call_plain(tree, alloc, place, builtin, args)
}
