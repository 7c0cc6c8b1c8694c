//! The commands that children are called by.
ghost use Rattle.std.specs.Prelude.{◌≡◌, IfOk};
ghost use Rattle.tcl_language.specs.Interpreters as interpreters;
ghost use Rattle.tcl_language.specs.Naming.{command_name};
ghost use Rattle.tcl_language.specs.Table as table;
ghost use Rattle.tcl_run.specs.Ends.{OnCompletion};
ghost use Rattle.tcl_run.specs.Runs.{IsHere, IsRunning, Keeps, ProceedsIn, ways};

use crate::interpreters::call_subcommand;
use std::alloc::{AllocError, Global};
use tcl_calls::lookup::kept_name;
use tcl_interp::subcommand::child_subcommand;
use tcl_interp::subject::{Subject, wrong_child_args};
use tcl_run::failure::unknown_subcommand;
use tcl_run::interruption::Interruption;
use tcl_run::outside::Outside;
use tcl_text::text::Text;
use tcl_tree::tree::{Place, Tree};
use tcl_value::value::Value;

/// `NAME subcommand ?arg ...?`: asks the child whose command the word names. (interp(n))
///
/// # Errors
/// 241; 244; those of the subcommand; want of memory.
#[cycle(eval)]
#[inline(never)]
pub fn child<O: Outside>(
    tree: &mut Tree,
    alloc: Global,
    outside: &mut O,
    place: Place,
    word: &Value,
    args: &[Value],
) -> Result<Value, Interruption>
    requires { IsRunning tree.old place }
    ensures runs { ProceedsIn (ways O.goes O.loses) tree.old outside.old place
        (λ style. interpreters.child style (table.child_name (command_name word.now)) args.now)
        tree.new outside.new result }
    ensures here { OnCompletion result (IsHere tree.old tree.new place) }
    ensures keeps { Keeps O.entries_left tree.old tree.new outside.old outside.new }
{
    let name = child_name(alloc, word)?;
    let [first, words @ ..] = args else {
        return Err(wrong_child_args(alloc, &name, "subcommand ?arg ...?"));
    };
    let text = first.text(alloc)?;
    let Some(subcommand) = child_subcommand(text.as_str()) else {
        return Err(unknown_subcommand(alloc, text.as_str()));
    };
    let subject = Subject::Child(&name);
    call_subcommand(tree, alloc, outside, place, subject, subcommand, words)
}

/// The name by which a child is kept, whose command was called so.
fn child_name(alloc: Global, word: &Value) -> Result<Text, AllocError>
    ensures { IfOk result (λ name. name ≡ table.child_name (command_name word.now)) }
{
    match kept_name(alloc, word)? {
        Some(name) => Ok(name),
        None => Text::new(alloc, ""),
    }
}
