//! Requests of interpreters, whose answers are all that is left.
#![tactic(auto, using(tcl_run::proofs::Losing::losing))]

ghost use Rattle.tcl_core.specs.Programs.Prog.{done};
ghost use Rattle.tcl_language.specs.Interpreters as interpreters;
ghost use Rattle.tcl_run.specs.Runs.{Evaluates, IsHere, IsRunning, KeepsAndLoses};
ghost use Rattle.tcl_run.specs.Entering.{entry_of};
ghost use Rattle.tcl_calls.specs.Telling.{TellsAs};

use crate::asking::ask;
use std::alloc::Global;
use tcl_flow::completion::OK;
use tcl_run::entry::OwnEntry;
use tcl_run::interruption::Interruption;
use tcl_run::outside::Outside;
use tcl_text::text::Text;
use tcl_tree::tree::{Place, Tree};
use tcl_value::value::Value;

/// Asks the interpreter at a path.
pub fn ask_at<O: Outside>(
    tree: &mut Tree,
    alloc: Global,
    outside: &mut O,
    place: Place,
    path: &[Text],
    entry: OwnEntry,
) -> Result<Value, Interruption>
    requires { IsRunning tree.old place }
    ensures evaluates { Evaluates O.goes tree.old outside.old place
        (λ style. interpreters.asks_at path.now (entry_of entry) done) tree.new outside.new result }
    ensures keeps { KeepsAndLoses O.entries_left O.loses tree.old tree.new outside.old outside.new }
    ensures here { IsHere tree.old tree.new place }
{
    ask(tree, alloc, outside, place, path, entry)
}

/// What an end comes to where an ordinary result is told as this value.
fn answered_with(ended: Result<Value, Interruption>, value: Value) -> Result<Value, Interruption>
    ensures { TellsAs ended value result }
{
    match ended {
        Ok(_) => Ok(value),
        Err(Interruption::Completed(completion)) => {
            if completion.code == OK {
                Ok(value)
            } else {
                Err(Interruption::Completed(completion))
            }
        }
        Err(interruption) => Err(interruption),
    }
}

/// Asks the interpreter at a path, and tells its ordinary answer as this value.
pub fn ask_telling<O: Outside>(
    tree: &mut Tree,
    alloc: Global,
    outside: &mut O,
    place: Place,
    path: &[Text],
    entry: OwnEntry,
    value: Value,
) -> Result<Value, Interruption>
    requires { IsRunning tree.old place }
    ensures evaluates { Evaluates O.goes tree.old outside.old place
        (λ style. interpreters.asks_at path.now (entry_of entry) (interpreters.with_text value))
        tree.new outside.new result }
    ensures keeps { KeepsAndLoses O.entries_left O.loses tree.old tree.new outside.old outside.new }
    ensures here { IsHere tree.old tree.new place }
{
    answered_with(ask(tree, alloc, outside, place, path, entry), value)
}
