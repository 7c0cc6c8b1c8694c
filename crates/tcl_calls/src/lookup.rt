//! The commands that words name.
ghost use Rattle.std.specs.Prelude.{◌≡◌, IfOk, IfSome, Some, None, Ok};
ghost use Rattle.tcl_core.specs.Paths.{Path};
ghost use Rattle.tcl_core.specs.Trees as core;
ghost use Rattle.tcl_interpreter.specs.declared.command.Command.TheVariants as variant;
ghost use Rattle.tcl_language.specs.Naming.{command_name, without_colons};
ghost use Rattle.tcl_run.specs.Ends.{Gave, itself};
ghost use Rattle.tcl_tree.specs.Own.{Own};
ghost use Rattle.tcl_tree.specs.TreeOf.{tree_of, Names};
ghost use Rattle.tcl_calls.specs.Found.{found, hidden_found, callee_command};

use std::alloc::{AllocError, Global};
use tcl_frames::name::{after_leading, with_colons};
use tcl_run::failure::{bad_name, invalid_command, invalid_hidden};
use tcl_run::interruption::Interruption;
use tcl_text::text::Text;
use tcl_tree::builtin::Builtin;
use tcl_tree::command::Command;
use tcl_tree::tree::{Place, Tree};
use tcl_value::value::Value;

/// The name, where no two colons stand side by side in it.
pub(crate) fn plain(name: Text) -> Option<Text>
    ensures { result ≡ without_colons name }
{
    if with_colons(name.as_str()) {
        return None;
    }
    Some(name)
}

/// The name by which a command is kept that is called so, if one can be: two leading colons name
/// the global level, which is the only one.
///
/// # Errors
/// Want of memory.
#[inline(never)]
pub fn kept_name(alloc: Global, word: &Value) -> Result<Option<Text>, AllocError>
    ensures { IfOk result (λ name. name ≡ command_name word.now) }
{
    let name = word.text(alloc)?;
    if !with_colons(name.as_str()) {
        return Ok(Some(name));
    }
    match after_leading(name.as_str()) {
        Some(rest) => Ok(plain(Text::new(alloc, rest)?)),
        None => Ok(None),
    }
}

/// The command that a word names in the interpreter, where it stands at the place that the word
/// keeps. The word isn't read: no command there has two colons side by side in its name. This takes
/// no memory.
fn standing<'t>(tree: &'t Tree, place: Place, word: &Value) -> Option<&'t Command>
    ensures { IfSome result (λ command. (p : Path) (n : core.Node Own) → Names tree.now place p →
        tree_of tree.now p ≡ Some n → found n word.now ≡ Ok command.now) }
{
    let command = tree.command_kept(place, word)?;
    Some(command)
}

/// The built-in command that a word names in the interpreter, where it stands at the place that the
/// word keeps. This takes no memory.
pub fn builtin_named(tree: &Tree, place: Place, word: &Value) -> Option<Builtin>
    ensures { IfSome result (λ builtin. (p : Path) (n : core.Node Own) → Names tree.now place p →
        tree_of tree.now p ≡ Some n → found n word.now ≡ Ok (variant.Builtin builtin)) }
{
    match standing(tree, place, word)? {
        Command::Builtin(builtin) => Some(*builtin),
        Command::Procedure(_) | Command::Alias(_) | Command::Child => None,
    }
}

/// A command as a call finds it: a built-in one, of which nothing is shared, or another.
#[derive(Drop)]
pub enum Callee {
    Builtin(Builtin),
    Other(Command),
}

/// A command as a call finds it. Where memory is wanting, none.
#[inline(always)]
fn callee_of(command: &Command) -> Option<Callee>
    ensures { IfSome result (λ callee. callee_command callee ≡ command.now) }
{
    match command {
        Command::Builtin(builtin) => Some(Callee::Builtin(*builtin)),
        Command::Procedure(_) | Command::Alias(_) | Command::Child => {
            Some(Callee::Other(command.clone().ok()?))
        }
    }
}

/// The command that a word names in the interpreter, if it names one. Where memory is wanting,
/// none.
#[inline(always)]
pub fn callee_named(tree: &Tree, alloc: Global, place: Place, word: &Value) -> Option<Callee>
    ensures { IfSome result (λ callee. (p : Path) (n : core.Node Own) → Names tree.now place p →
        tree_of tree.now p ≡ Some n → found n word.now ≡ Ok (callee_command callee)) }
{
    match standing(tree, place, word) {
        Some(command) => callee_of(command),
        None => seek_callee(tree, alloc, place, word),
    }
}

/// The same, found by its name.
#[inline(never)]
fn seek_callee(tree: &Tree, alloc: Global, place: Place, word: &Value) -> Option<Callee>
    ensures { IfSome result (λ callee. (p : Path) (n : core.Node Own) → Names tree.now place p →
        tree_of tree.now p ≡ Some n → found n word.now ≡ Ok (callee_command callee)) }
{
    let Ok(Some(name)) = kept_name(alloc, word) else {
        return None;
    };
    callee_of(tree.command_near(place, &name)?)
}

/// The command that a word names in the interpreter, in less time where it stands at the place that
/// the word keeps.
#[inline(never)]
pub fn find_command(
    tree: &Tree,
    alloc: Global,
    place: Place,
    word: &Value,
) -> Result<Command, Interruption>
    ensures { (p : Path) (n : core.Node Own) → Names tree.now place p →
        tree_of tree.now p ≡ Some n → Gave itself (found n word.now) result }
{
    if let Some(command) = standing(tree, place, word) {
        return Ok(command.clone()?);
    }
    let Some(name) = kept_name(alloc, word)? else {
        return Err(bad_name(alloc, word.text(alloc)?.as_str()));
    };
    match tree.command_near(place, &name) {
        Some(command) => Ok(command.clone()?),
        None => Err(invalid_command(alloc, word.text(alloc)?.as_str())),
    }
}

/// The hidden command of this name in the interpreter.
#[inline(never)]
pub fn find_hidden(
    tree: &Tree,
    alloc: Global,
    place: Place,
    word: &Value,
) -> Result<Command, Interruption>
    ensures { (p : Path) (n : core.Node Own) → Names tree.now place p →
        tree_of tree.now p ≡ Some n → Gave itself (hidden_found n word.now) result }
{
    let name = word.text(alloc)?;
    match tree.hidden_at(place, &name) {
        Some(command) => Ok(command.clone()?),
        None => Err(invalid_hidden(alloc, name.as_str())),
    }
}
