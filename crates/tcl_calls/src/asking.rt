//! Asking an interpreter, wherever it is in the tree.
#![tactic(auto, using(tcl_run::proofs::Losing::losing))]

ghost use Rattle.std.specs.Prelude.{◌≡◌, ◌++◌, IfOk, IfErr, Ok};
ghost use Rattle.tcl_core.specs.Paths.{Path};
ghost use Rattle.tcl_language.specs.Interpreters as interpreters;
ghost use Rattle.tcl_run.specs.Ends.{Interrupts, IsFailure};
ghost use Rattle.tcl_run.specs.Runs.{EvaluatesAt, IsHere, IsRunning, KeepsAndLoses};
ghost use Rattle.tcl_text.specs.Lists.{list_of};
ghost use Rattle.tcl_text.specs.Writing.{fault_message};
ghost use Rattle.tcl_tree.specs.TreeOf.{Names};
ghost use Rattle.tcl_calls.specs.Asking.{Asks, AsksBelow};
ghost use Rattle.tcl_calls.specs.Looking.{Finds};
ghost use Rattle.tcl_run.specs.Entering.{IsOwn, entry_of, whole_entry};
ghost use Rattle.tcl_language.specs.Table as table;

use crate::carrying::return_to_caller;
use crate::serving::serve;
use std::alloc::Global;
use tcl_run::entry::{Entry, OwnEntry};
use tcl_run::failure::no_interpreter;
use tcl_run::interruption::Interruption;
use tcl_run::outside::{Happening, Outside};
use tcl_run::steps::list_failure;
use tcl_text::list::read_list;
use tcl_text::text::Text;
use tcl_tree::tree::places::Reach;
use tcl_tree::tree::{Place, Tree};
use tcl_value::value::Value;

/// Asks the interpreter at a path, which begins at the one that the place names, for something that
/// evaluates nothing.
///
/// # Errors
/// 301 where none is there; those of the entry, as they are told to one that stands above; want of
/// memory.
pub fn ask<O: Outside>(
    tree: &mut Tree,
    alloc: Global,
    outside: &mut O,
    place: Place,
    path: &[Text],
    entry: OwnEntry,
) -> Result<Value, Interruption>
    requires { IsRunning tree.old place }
    ensures asks { Asks O.goes tree.old outside.old place path.now
        (entry_of entry) tree.new outside.new
        result }
    ensures keeps { KeepsAndLoses O.entries_left O.loses tree.old tree.new outside.old outside.new }
    ensures here { IsHere tree.old tree.new place }
{
    if path.is_empty() {
        return serve(tree, alloc, outside, place, &entry);
    }
    ask_below(tree, alloc, outside, place, path, Entry::Own(entry))
}

/// Asks an interpreter below the one that the place names for something that evaluates nothing. The
/// outside is told of it.
fn ask_below<O: Outside>(
    tree: &mut Tree,
    alloc: Global,
    outside: &mut O,
    place: Place,
    path: &[Text],
    entry: Entry,
) -> Result<Value, Interruption>
    requires running { IsRunning tree.old place }
    requires own { IsOwn entry }
    ensures calls { AsksBelow O.goes tree.old outside.old place path.now
        (whole_entry entry) tree.new
        outside.new result }
    ensures keeps { KeepsAndLoses O.entries_left O.loses tree.old tree.new outside.old outside.new }
    ensures here { IsHere tree.old tree.new place }
{
    match tree.reach(place, 0, path) {
        Reach::There(there) => {
            let happening = Happening::Entered {
                caller: place,
                up: 0,
                down: path,
                entry: &entry,
            };
            outside.notify(alloc, tree, happening)?;
            let ended = serve_own(tree, alloc, outside, there, &entry);
            return_to_caller(tree, alloc, outside, place, 0, path, ended)
        }
        Reach::Missing => {
            let told = Err(no_interpreter(alloc, ""));
            let happening = Happening::Missed {
                caller: place,
                up: 0,
                down: path,
                entry: &entry,
                told: &told,
            };
            outside.notify(alloc, tree, happening)?;
            told
        }
        Reach::Outside => unreachable!(),
    }
}

/// Does what the interpreter that the place names is asked for.
fn serve_own<O: Outside>(
    tree: &mut Tree,
    alloc: Global,
    outside: &mut O,
    place: Place,
    entry: &Entry,
) -> Result<Value, Interruption>
    requires own { IsOwn entry.now }
    requires there { (p : Path) × Names tree.old place p }
    ensures runs { EvaluatesAt O.goes tree.old outside.old place
        (λ style. table.serve style (whole_entry entry.now)) tree.new outside.new result }
    ensures keeps { KeepsAndLoses O.entries_left O.loses tree.old tree.new outside.old outside.new }
    ensures here { IsHere tree.old tree.new place }
{
    let Entry::Own(own) = entry else {
        unreachable!();
    };
    serve(tree, alloc, outside, place, own)
}

/// A path that was read: the names from one interpreter downward, and the interpreter to which they
/// lead.
#[derive(Drop)]
pub struct FoundPath {
    pub path: Vec<Text>,
    pub place: Place,
}

/// The names that a word is, and the interpreter to which they lead from the one that the place
/// names.
///
/// # Errors
/// 101 to 104 where the word is no list; 301 where no interpreter is there; want of memory.
pub fn path_of(
    tree: &Tree,
    alloc: Global,
    place: Place,
    word: &Value,
) -> Result<FoundPath, Interruption>
    requires { IsRunning tree.now place }
    ensures found { IfOk result
        (λ found. (p : Path) → Names tree.now place p →
        Names tree.now found.place (p ++ found.path.items)) }
    ensures read { Finds tree.now place (λ found. found.path.items)
        (λ rest style. interpreters.at_path word.now (λ path n. rest path style)) result }
{
    let text = word.text(alloc)?;
    path_at(tree, alloc, place, &text)
}

/// The same of a text.
///
/// # Errors
/// 101 to 104 where the text is no list; 301 where no interpreter is there; want of memory.
pub fn path_at(
    tree: &Tree,
    alloc: Global,
    place: Place,
    text: &Text,
) -> Result<FoundPath, Interruption>
    requires { IsRunning tree.now place }
    ensures found { IfOk result
        (λ found. (p : Path) → Names tree.now place p →
        Names tree.now found.place (p ++ found.path.items)) }
    ensures read { Finds tree.now place (λ found. found.path.items)
        (λ rest style. interpreters.at_path text.now (λ path n. rest path style)) result }
{
    let path = read_path(alloc, text)?;
    match tree.reach(place, 0, path.as_slice()) {
        Reach::There(there) => Ok(FoundPath { path, place: there }),
        Reach::Missing => Err(no_interpreter(alloc, text.as_str())),
        Reach::Outside => unreachable!(),
    }
}

/// The names that a text is.
///
/// # Errors
/// 101 to 104; want of memory.
pub fn read_path(alloc: Global, text: &Text) -> Result<Vec<Text>, Interruption>
    ensures read { IfOk result (λ path. list_of text.now ≡ Ok path.items) }
    ensures refused { IfErr result
        (λ i. Interrupts i (IsFailure fault_message (list_of text.now))) }
{
    match read_list(alloc, text.as_str()) {
        Ok(path) => Ok(path),
        Err(error) => Err(list_failure(alloc, error)),
    }
}
