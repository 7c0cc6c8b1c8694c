//! `interp delete`.
ghost use Rattle.tcl_core.specs.Entries.Entry.{Delete};
ghost use Rattle.tcl_language.specs.Interpreters as interpreters;
ghost use Rattle.tcl_run.specs.Runs.{Evaluates, IsHere, IsRunning, KeepsAndLoses};
ghost use Rattle.tcl_calls.specs.Asking.{Steps};
ghost use Rattle.tcl_interp.specs.Deleting.{Deletes};

use std::alloc::Global;
use tcl_calls::asking::{ask, path_at};
use tcl_calls::failure::in_use;
use tcl_flow::completion::OK;
use tcl_run::entry::OwnEntry;
use tcl_run::interruption::Interruption;
use tcl_run::outside::Outside;
use tcl_text::text::Text;
use tcl_tree::tree::{Place, Tree};
use tcl_value::value::Value;

/// What the end of asking to delete comes to: nothing, where it is an ordinary result.
fn deleted(ended: Result<Value, Interruption>) -> Result<(), Interruption>
    ensures { Deletes ended result }
{
    match ended {
        Ok(_) => Ok(()),
        Err(Interruption::Completed(completion)) => {
            if completion.code == OK {
                Ok(())
            } else {
                Err(Interruption::Completed(completion))
            }
        }
        Err(interruption) => Err(interruption),
    }
}

/// Deletes a child of the interpreter at a path.
fn delete_below<O: Outside>(
    tree: &mut Tree,
    alloc: Global,
    outside: &mut O,
    place: Place,
    above: &[Text],
    name: &Text,
) -> Result<(), Interruption>
    requires { IsRunning tree.old place }
    ensures steps { Steps O.goes tree.old outside.old place
        (λ rest style. interpreters.deletes_at (above.now, name.now) (rest style)) tree.new
        outside.new result }
    ensures keeps { KeepsAndLoses O.entries_left O.loses tree.old tree.new outside.old outside.new }
    ensures here { IsHere tree.old tree.new place }
{
    let entry = OwnEntry::Delete(name.clone()?);
    let ended = ask(tree, alloc, outside, place, above, entry);
    deleted(ended)
}

/// Deletes the interpreter at a path, which isn't the one that asks.
fn delete_at<O: Outside>(
    tree: &mut Tree,
    alloc: Global,
    outside: &mut O,
    place: Place,
    text: &Text,
    path: &[Text],
) -> Result<(), Interruption>
    requires { IsRunning tree.old place }
    ensures steps { Steps O.goes tree.old outside.old place
        (λ rest style. interpreters.deletes_named text.now path.now (rest style)) tree.new
        outside.new result }
    ensures keeps { KeepsAndLoses O.entries_left O.loses tree.old tree.new outside.old outside.new }
    ensures here { IsHere tree.old tree.new place }
{
    match path {
        [above @ .., name] => delete_below(tree, alloc, outside, place, above, name),
        [] => Err(in_use(alloc, text.as_str())),
    }
}

/// Deletes the interpreter at the path that a text is, with all below it, also where an evaluation
/// is in progress in it.
///
/// # Errors
/// Those of the path: 101 to 104 and 301; 303 where it is the interpreter that asks; want of
/// memory.
pub fn delete_there<O: Outside>(
    tree: &mut Tree,
    alloc: Global,
    outside: &mut O,
    place: Place,
    text: &Text,
) -> Result<(), Interruption>
    requires { IsRunning tree.old place }
    ensures steps { Steps O.goes tree.old outside.old place
        (λ rest style. interpreters.at_path text.now
        (λ path n. interpreters.deletes_named text.now path (rest style))) tree.new outside.new
        result }
    ensures keeps { KeepsAndLoses O.entries_left O.loses tree.old tree.new outside.old outside.new }
    ensures here { IsHere tree.old tree.new place }
{
    let found = path_at(tree, alloc, place, text)?;
    delete_at(tree, alloc, outside, place, text, found.path.as_slice())
}

/// `interp delete ?path ...?`: deletes each interpreter in turn, with all below it, also where an
/// evaluation is in progress in it, up to the first that is refused. (interp(n))
///
/// # Errors
/// Of each path in turn, 101 to 104, 301, and 303 where it is the interpreter that asks; want of
/// memory.
pub fn delete<O: Outside>(
    tree: &mut Tree,
    alloc: Global,
    outside: &mut O,
    place: Place,
    args: &[Value],
) -> Result<Value, Interruption>
    requires { IsRunning tree.old place }
    ensures evaluates { Evaluates O.goes tree.old outside.old place
        (λ style. interpreters.delete args.now) tree.new outside.new result }
    ensures keeps { KeepsAndLoses O.entries_left O.loses tree.old tree.new outside.old outside.new }
    ensures here { IsHere tree.old tree.new place }
{
    'paths: for path in args {
        let text = path.text(alloc)?;
        delete_there(tree, alloc, outside, place, &text)?;
    }
    Ok(Value::empty())
}
