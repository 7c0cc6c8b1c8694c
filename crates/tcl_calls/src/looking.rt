//! What commands that ask interpreters look for before they ask.
#![tactic(auto, using(tcl_run::proofs::Losing::losing))]

ghost use Rattle.tcl_core.specs.Paths.{Path};
ghost use Rattle.tcl_core.specs.Programs.Act.{Look};
ghost use Rattle.tcl_core.specs.Programs.Prog.{act};
ghost use Rattle.tcl_language.specs.Instructions.{or_fails};
ghost use Rattle.tcl_language.specs.Interpreters as interpreters;
ghost use Rattle.tcl_text.specs.Lists.{list_of};
ghost use Rattle.tcl_text.specs.Writing.{fault_message};
ghost use Rattle.tcl_tree.specs.TreeOf.{Names};
ghost use Rattle.tcl_calls.specs.Looking.{Finds, Passes};

use crate::asking::read_path;
use crate::questions::node;
use std::alloc::Global;
use tcl_run::failure::{denied, no_interpreter};
use tcl_run::interruption::Interruption;
use tcl_text::text::Text;
use tcl_tree::tree::places::Reach;
use tcl_tree::tree::{Place, Tree};
use tcl_value::value::Value;

/// Sees to it that the interpreter that asks isn't safe.
///
/// # Errors
/// 304; want of memory.
pub fn permit(tree: &Tree, alloc: Global, place: Place) -> Result<(), Interruption>
    requires { (p : Path) × Names tree.now place p }
    ensures { Passes tree.now place (λ rest style. interpreters.permitted (rest style)) result }
{
    if node(tree, place).state.safe {
        return Err(denied(alloc));
    }
    Ok(())
}

/// The names that a word is.
///
/// # Errors
/// 101 to 104; want of memory.
pub fn names_of(
    tree: &Tree,
    alloc: Global,
    place: Place,
    word: &Value,
) -> Result<Vec<Text>, Interruption>
    ensures { Finds tree.now place (λ names. names.items)
        (λ rest style. or_fails fault_message (list_of word.now) (λ names. rest names style))
        result }
{
    let (_tree, _place) = (tree, place);
    read_path(alloc, &word.text(alloc)?)
}

/// Sees to it that an interpreter is at the path that a word is.
///
/// # Errors
/// 301, with the word; want of memory.
pub fn stands(
    tree: &Tree,
    alloc: Global,
    place: Place,
    word: &Value,
    path: &[Text],
) -> Result<(), Interruption>
    requires { (p : Path) × Names tree.now place p }
    ensures { Passes tree.now place
        (λ rest style. act Look (λ T. interpreters.where_it_stands word.now
        (λ n. rest style) (T path.now))) result }
{
    match tree.reach(place, 0, path) {
        Reach::There(_) => Ok(()),
        Reach::Missing => Err(no_interpreter(alloc, word.text(alloc)?.as_str())),
        Reach::Outside => unreachable!(),
    }
}
