//! `rename`.
ghost use Rattle.std.specs.Prelude.{◌∷◌, [], Some};
ghost use Rattle.tcl_language.specs.Definitions as definitions;
ghost use Rattle.tcl_run.specs.Runs.{Evaluates, IsHere, IsRunning, KeepsAndLoses};

use crate::deleting::delete_there;
use std::alloc::Global;
use tcl_calls::naming::kept_name;
use tcl_calls::serving::path_text;
use tcl_commands::definitions::{names_child, remove, rename_to};
use tcl_run::failure::wrong_args;
use tcl_run::interruption::Interruption;
use tcl_run::outside::Outside;
use tcl_text::text::Text;
use tcl_tree::tree::{Place, Tree};
use tcl_value::value::Value;

/// Deletes the child that has a name.
fn delete_child<O: Outside>(
    tree: &mut Tree,
    alloc: Global,
    outside: &mut O,
    place: Place,
    name: &Text,
) -> Result<Value, Interruption>
    requires { IsRunning tree.old place }
    ensures evaluates { Evaluates O.goes tree.old outside.old place
        (λ style. definitions.deletes_child (Some name.now)) tree.new outside.new result }
    ensures keeps { KeepsAndLoses O.entries_left O.loses tree.old tree.new outside.old outside.new }
    ensures here { IsHere tree.old tree.new place }
{
    let path = path_text(alloc, name)?;
    delete_there(tree, alloc, outside, place, &path)?;
    Ok(Value::empty())
}

/// Takes a command away, and where it is a child's, deletes the child.
fn take_away<O: Outside>(
    tree: &mut Tree,
    alloc: Global,
    outside: &mut O,
    place: Place,
    word: &Value,
) -> Result<Value, Interruption>
    requires { IsRunning tree.old place }
    ensures evaluates { Evaluates O.goes tree.old outside.old place
        (λ style. definitions.takes_away word.now) tree.new outside.new result }
    ensures keeps { KeepsAndLoses O.entries_left O.loses tree.old tree.new outside.old outside.new }
    ensures here { IsHere tree.old tree.new place }
{
    let is_child = names_child(tree, alloc, place, word)?;
    if !is_child {
        return remove(tree, alloc, place, word);
    }
    let text = word.text(alloc)?;
    let name = kept_name(alloc, &text)?;
    delete_child(tree, alloc, outside, place, &name)
}

/// Gives a command another name, or takes it away where that is empty.
fn rename_as<O: Outside>(
    tree: &mut Tree,
    alloc: Global,
    outside: &mut O,
    place: Place,
    old: &Value,
    new: &Value,
) -> Result<Value, Interruption>
    requires { IsRunning tree.old place }
    ensures evaluates { Evaluates O.goes tree.old outside.old place
        (λ style. definitions.rename (old.now ∷ new.now ∷ [])) tree.new outside.new result }
    ensures keeps { KeepsAndLoses O.entries_left O.loses tree.old tree.new outside.old outside.new }
    ensures here { IsHere tree.old tree.new place }
{
    if new.is_text(b"") {
        return take_away(tree, alloc, outside, place, old);
    }
    rename_to(tree, alloc, place, old, new)
}

/// `rename oldName newName`: gives a command another name, or takes it away where that is empty; to
/// take a child's command away deletes the child, with all below it, also where an evaluation is in
/// progress in it. (rename(n))
///
/// # Errors
/// 241; 238, 302 and 305; want of memory.
pub fn rename<O: Outside>(
    tree: &mut Tree,
    alloc: Global,
    outside: &mut O,
    place: Place,
    args: &[Value],
) -> Result<Value, Interruption>
    requires { IsRunning tree.old place }
    ensures evaluates { Evaluates O.goes tree.old outside.old place
        (λ style. definitions.rename args.now) tree.new outside.new result }
    ensures keeps { KeepsAndLoses O.entries_left O.loses tree.old tree.new outside.old outside.new }
    ensures here { IsHere tree.old tree.new place }
{
    match args {
        [old, new] => rename_as(tree, alloc, outside, place, old, new),
        _ => Err(wrong_args(alloc, "rename oldName newName")),
    }
}
