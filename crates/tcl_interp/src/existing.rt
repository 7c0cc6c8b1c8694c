//! `interp exists`.
ghost use Rattle.std.specs.Prelude.{◌∷◌, []};
ghost use Rattle.tcl_core.specs.Programs.Act.{Look};
ghost use Rattle.tcl_core.specs.Programs.Prog.{act};
ghost use Rattle.tcl_language.specs.Interpreters as interpreters;
ghost use Rattle.tcl_run.specs.Runs.{Evaluates, IsHere, IsRunning, KeepsAndLoses};

use crate::questions::ask_about;
use std::alloc::Global;
use tcl_calls::looking::names_of;
use tcl_calls::requests::ask_at;
use tcl_run::entry::{OwnEntry, Question};
use tcl_run::interruption::Interruption;
use tcl_run::outside::Outside;
use tcl_text::text::Text;
use tcl_tree::tree::places::Reach;
use tcl_tree::tree::{Place, Tree};
use tcl_value::value::Value;

/// Whether an interpreter is at a path.
fn exists_at<O: Outside>(
    tree: &mut Tree,
    alloc: Global,
    outside: &mut O,
    place: Place,
    path: &[Text],
) -> Result<Value, Interruption>
    requires { IsRunning tree.old place }
    ensures evaluates { Evaluates O.goes tree.old outside.old place
        (λ style. act Look (λ T. interpreters.exists_at path.now (T path.now))) tree.new outside.new
        result }
    ensures keeps { KeepsAndLoses O.entries_left O.loses tree.old tree.new outside.old outside.new }
    ensures here { IsHere tree.old tree.new place }
{
    match tree.reach(place, 0, path) {
        Reach::There(_) => {
            let entry = OwnEntry::Ask(Question::Exists);
            ask_at(tree, alloc, outside, place, path, entry)
        }
        Reach::Missing => Ok(Value::from_int(0)),
        Reach::Outside => unreachable!(),
    }
}

/// Whether an interpreter is at the path that a word is.
fn exists_there<O: Outside>(
    tree: &mut Tree,
    alloc: Global,
    outside: &mut O,
    place: Place,
    word: &Value,
) -> Result<Value, Interruption>
    requires { IsRunning tree.old place }
    ensures evaluates { Evaluates O.goes tree.old outside.old place
        (λ style. interpreters.exists (word.now ∷ [])) tree.new outside.new result }
    ensures keeps { KeepsAndLoses O.entries_left O.loses tree.old tree.new outside.old outside.new }
    ensures here { IsHere tree.old tree.new place }
{
    let names = names_of(tree, alloc, place, word)?;
    exists_at(tree, alloc, outside, place, names.as_slice())
}

/// `interp exists ?path?`: 1 where an interpreter is at the path, else 0. (interp(n))
///
/// # Errors
/// 241; 101 to 104 where the path is no list; want of memory.
pub fn exists<O: Outside>(
    tree: &mut Tree,
    alloc: Global,
    outside: &mut O,
    place: Place,
    args: &[Value],
) -> Result<Value, Interruption>
    requires { IsRunning tree.old place }
    ensures evaluates { Evaluates O.goes tree.old outside.old place
        (λ style. interpreters.exists args.now) tree.new outside.new result }
    ensures keeps { KeepsAndLoses O.entries_left O.loses tree.old tree.new outside.old outside.new }
    ensures here { IsHere tree.old tree.new place }
{
    match args {
        [word] => exists_there(tree, alloc, outside, place, word),
        _ => ask_about(
            tree,
            alloc,
            outside,
            place,
            "interp exists ?path?",
            Question::Exists,
            args,
        ),
    }
}
