//! `interp create`.
ghost use Rattle.std.specs.Prelude.{◌≡◌, false, [], IfOk, IfErr, Some};
ghost use Rattle.tcl_core.specs.Paths.{Path};
ghost use Rattle.tcl_core.specs.Trees as core;
ghost use Rattle.tcl_language.specs.Instructions.{or_fails};
ghost use Rattle.tcl_language.specs.Interpreters as interpreters;
ghost use Rattle.tcl_run.specs.Ends.{Interrupts};
ghost use Rattle.tcl_run.specs.Runs.{Evaluates, IsHere, IsRunning, KeepsAndLoses};
ghost use Rattle.tcl_text.specs.Lists.{list_of};
ghost use Rattle.tcl_text.specs.Writing.{fault_message};
ghost use Rattle.tcl_tree.specs.Own.{Own};
ghost use Rattle.tcl_tree.specs.TreeOf.{tree_of, Names};
ghost use Rattle.tcl_value.specs.Limits.{IsWithin};
ghost use Rattle.tcl_interp.specs.Failing.{FailsSo};

use std::alloc::{AllocError, Global};
use tcl_calls::looking::{names_of, stands};
use tcl_calls::questions::node;
use tcl_calls::requests::ask_telling;
use tcl_calls::serving::child_name;
use tcl_run::entry::OwnEntry;
use tcl_run::failure::{bad_name, bad_option, wrong_args};
use tcl_run::interruption::Interruption;
use tcl_run::outside::Outside;
use tcl_text::text::Text;
use tcl_tree::tree::{Place, Tree};
use tcl_value::value::Value;

/// Makes a child of the interpreter at a path, and tells the word that named it.
fn create_below<O: Outside>(
    tree: &mut Tree,
    alloc: Global,
    outside: &mut O,
    place: Place,
    word: &Value,
    above: &[Text],
    name: &Text,
    safe: bool,
) -> Result<Value, Interruption>
    requires { IsRunning tree.old place }
    ensures evaluates { Evaluates O.goes tree.old outside.old place
        (λ style. interpreters.makes_at word.now safe (above.now, name.now)) tree.new outside.new
        result }
    ensures keeps { KeepsAndLoses O.entries_left O.loses tree.old tree.new outside.old outside.new }
    ensures here { IsHere tree.old tree.new place }
{
    stands(tree, alloc, place, word, above)?;
    let told = word.clone()?;
    let name = Some(name.clone()?);
    let entry = OwnEntry::Create { name, safe };
    ask_telling(tree, alloc, outside, place, above, entry, told)
}

/// Makes the interpreter at a path, whose last name is the child's.
fn create_at<O: Outside>(
    tree: &mut Tree,
    alloc: Global,
    outside: &mut O,
    place: Place,
    word: &Value,
    path: &[Text],
    safe: bool,
) -> Result<Value, Interruption>
    requires { IsRunning tree.old place }
    ensures evaluates { Evaluates O.goes tree.old outside.old place
        (λ style. interpreters.makes_named word.now safe path.now) tree.new outside.new result }
    ensures keeps { KeepsAndLoses O.entries_left O.loses tree.old tree.new outside.old outside.new }
    ensures here { IsHere tree.old tree.new place }
{
    match path {
        [above @ .., name] => create_below(tree, alloc, outside, place, word, above, name, safe),
        [] => Err(bad_name(alloc, "")),
    }
}

/// Makes the interpreter at the path that a word is.
fn create_there<O: Outside>(
    tree: &mut Tree,
    alloc: Global,
    outside: &mut O,
    place: Place,
    word: &Value,
    safe: bool,
) -> Result<Value, Interruption>
    requires { IsRunning tree.old place }
    ensures evaluates { Evaluates O.goes tree.old outside.old place
        (λ style. or_fails fault_message (list_of word.now)
        (interpreters.makes_named word.now safe)) tree.new outside.new result }
    ensures keeps { KeepsAndLoses O.entries_left O.loses tree.old tree.new outside.old outside.new }
    ensures here { IsHere tree.old tree.new place }
{
    let names = names_of(tree, alloc, place, word)?;
    create_at(tree, alloc, outside, place, word, names.as_slice(), safe)
}

/// The name of a child that is given none.
fn free_name(tree: &Tree, alloc: Global, place: Place) -> Result<Text, AllocError>
    requires { (p : Path) × Names tree.now place p }
    ensures free { IfOk result
        (λ name. (p : Path) (n : core.Node Own) → Names tree.now place p →
        tree_of tree.now p ≡ Some n → name ≡ interpreters.free_name n.own) }
    ensures within { IfOk result (λ name. IsWithin name) }
{
    let _few = node(tree, place).state.commands.len();
    child_name(tree, alloc, place)
}

/// Makes a child of the interpreter that asks, under a name that is found, and tells that.
fn create_unnamed<O: Outside>(
    tree: &mut Tree,
    alloc: Global,
    outside: &mut O,
    place: Place,
    safe: bool,
) -> Result<Value, Interruption>
    requires { IsRunning tree.old place }
    ensures evaluates { Evaluates O.goes tree.old outside.old place
        (λ style. interpreters.create_path safe []) tree.new outside.new result }
    ensures keeps { KeepsAndLoses O.entries_left O.loses tree.old tree.new outside.old outside.new }
    ensures here { IsHere tree.old tree.new place }
{
    let name = free_name(tree, alloc, place)?;
    let told = Value::from_short_text(name.clone()?);
    let name = Some(name);
    let entry = OwnEntry::Create { name, safe };
    ask_telling(tree, alloc, outside, place, &[], entry, told)
}

/// Makes the interpreter that the words behind the options name.
fn create_named<O: Outside>(
    tree: &mut Tree,
    alloc: Global,
    outside: &mut O,
    place: Place,
    safe: bool,
    words: &[Value],
) -> Result<Value, Interruption>
    requires { IsRunning tree.old place }
    ensures evaluates { Evaluates O.goes tree.old outside.old place
        (λ style. interpreters.create_path safe words.now) tree.new outside.new result }
    ensures keeps { KeepsAndLoses O.entries_left O.loses tree.old tree.new outside.old outside.new }
    ensures here { IsHere tree.old tree.new place }
{
    match words {
        [] => create_unnamed(tree, alloc, outside, place, safe),
        [word] => create_there(tree, alloc, outside, place, word, safe),
        _ => Err(wrong_args(alloc, "interp create ?-safe? ?--? ?path?")),
    }
}

/// Whether a word is an option.
fn is_option(word: &str) -> bool
    ensures { result ≡ interpreters.is_option word.now }
{
    match word.as_bytes() {
        [first, ..] => *first == b'-',
        [] => false,
    }
}

/// Whether the options ask for a safe child, and the words behind them.
fn read_options(alloc: Global, args: &[Value]) -> Result<(bool, &[Value]), Interruption>
    ensures read { IfOk result
        (λ found. interpreters.create_options false args.now
        ≡ interpreters.create_path found.0 found.1.now) }
    ensures refused { IfErr result
        (λ i. Interrupts i (FailsSo (interpreters.create_options false args.now))) }
{
    let mut safe = false;
    'words: for index in 0..args.len() {
        let word = args[index].text(alloc)?;
        if !is_option(word.as_str()) {
            return Ok((safe, &args[index..]));
        }
        if word.as_str() == "--" {
            return Ok((safe, &args[index + 1..]));
        }
        if word.as_str() != "-safe" {
            return Err(bad_option(alloc, word.as_str()));
        }
        safe = true;
    }
    Ok((safe, &[]))
}

/// `interp create ?-safe? ?--? ?path?`: makes an interpreter, safe where that is asked for or the
/// one that asks is safe, and tells its path; where none is given, the first of `interp0`,
/// `interp1` and so on that no command is named. (interp(n))
///
/// # Errors
/// 221; 241; those of the path: 101 to 104 and 301; 238, 302 and 307; want of memory.
pub fn create<O: Outside>(
    tree: &mut Tree,
    alloc: Global,
    outside: &mut O,
    place: Place,
    args: &[Value],
) -> Result<Value, Interruption>
    requires { IsRunning tree.old place }
    ensures evaluates { Evaluates O.goes tree.old outside.old place
        (λ style. interpreters.create_options false args.now) tree.new outside.new result }
    ensures keeps { KeepsAndLoses O.entries_left O.loses tree.old tree.new outside.old outside.new }
    ensures here { IsHere tree.old tree.new place }
{
    let (safe, words) = read_options(alloc, args)?;
    create_named(tree, alloc, outside, place, safe, words)
}
