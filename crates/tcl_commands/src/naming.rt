//! How commands are named, and what is told where they can't be.
ghost use Rattle.std.specs.Prelude.{◌≡◌, IfOk, IfErr, OnOk, Some, None};
ghost use Rattle.tcl_core.specs.Paths.{Path};
ghost use Rattle.tcl_core.specs.Trees as core;
ghost use Rattle.tcl_language.specs.Naming.{command_name, without_colons};
ghost use Rattle.tcl_run.specs.Ends.{Interrupts};
ghost use Rattle.tcl_tree.specs.Own.{Own, command_in};
ghost use Rattle.tcl_tree.specs.TreeOf.{tree_of, Names};
ghost use Rattle.tcl_commands.specs.Renaming.{IsBadName, IsNoOwnCommand, IsOwnCommand};
ghost use Rattle.tcl_commands.specs.Renaming.{TellsRefusal};

use std::alloc::{AllocError, Global};
use tcl_frames::name::{after_leading, with_colons};
use tcl_run::failure::{already_exists, bad_name, denied, invalid_command, invalid_hidden};
use tcl_run::interruption::Interruption;
use tcl_text::text::Text;
use tcl_tree::command::Command;
use tcl_tree::refusal::TreeError;
use tcl_tree::tree::{Place, Tree};
use tcl_value::value::Value;

/// The name, where no two colons stand side by side in it.
fn plain(name: Text) -> Option<Text>
    ensures { result ≡ without_colons name }
{
    if with_colons(name.as_str()) {
        return None;
    }
    Some(name)
}

/// The name by which a command is kept that is named so, where one can be: two leading colons name
/// the global level, which is the only one.
pub(crate) fn name_of(alloc: Global, word: &Value) -> Result<Option<Text>, AllocError>
    ensures { IfOk result (λ name. name ≡ command_name word.now) }
{
    let name = word.text(alloc)?;
    if let Some(rest) = after_leading(name.as_str()) {
        return Ok(plain(Text::new(alloc, rest)?));
    }
    Ok(plain(name))
}

/// The name by which a command is kept that is named so.
///
/// # Errors
/// 238; want of memory.
pub(crate) fn kept_name(alloc: Global, word: &Value) -> Result<Text, Interruption>
    ensures kept { IfOk result (λ name. command_name word.now ≡ Some name) }
    ensures refused { IfErr result
        (λ i. Interrupts i (IsBadName word.now (command_name word.now))) }
{
    match name_of(alloc, word)? {
        Some(name) => Ok(name),
        None => Err(bad_name(alloc, word.text(alloc)?.as_str())),
    }
}

/// What is told of a refusal to name a command, with the word that is wrong.
pub(crate) fn naming_failure(alloc: Global, refusal: TreeError, word: &Value) -> Interruption
    ensures { TellsRefusal refusal word.now result }
{
    let Ok(text) = word.text(alloc) else {
        return Interruption::Memory;
    };
    match refusal {
        TreeError::Memory => Interruption::Memory,
        TreeError::BadName => bad_name(alloc, text.as_str()),
        TreeError::Exists => already_exists(alloc, text.as_str()),
        TreeError::NoCommand => invalid_command(alloc, text.as_str()),
        TreeError::NoHidden => invalid_hidden(alloc, text.as_str()),
        TreeError::BadCount => denied(alloc),
        TreeError::NoInterpreter => denied(alloc),
        TreeError::Denied => denied(alloc),
        TreeError::TooMany => denied(alloc),
        TreeError::CountLimit(_) => denied(alloc),
        TreeError::DepthLimit(_) => denied(alloc),
        TreeError::BadDepthLimit => denied(alloc),
    }
}

/// Sees to it that a name is that of a command, and not of a child.
///
/// # Errors
/// 305 and 302, with the word that is wrong; want of memory.
pub(crate) fn own_command(
    tree: &Tree,
    alloc: Global,
    place: Place,
    name: &Text,
    word: &Value,
) -> Result<(), Interruption>
    ensures there { OnOk result ((p : Path) (n : core.Node Own) → Names tree.now place p →
        tree_of tree.now p ≡ Some n → IsOwnCommand (command_in n.own name.now)) }
    ensures refused { IfErr result
        (λ i. Interrupts i (λ e. (p : Path) (n : core.Node Own) → Names tree.now place p →
        tree_of tree.now p ≡ Some n → IsNoOwnCommand word.now (command_in n.own name.now) e)) }
{
    match tree.command_at(place, name) {
        None => Err(naming_failure(alloc, TreeError::NoCommand, word)),
        Some(command) => not_child(alloc, command, word),
    }
}

/// Sees to it that a command isn't a child.
fn not_child(alloc: Global, command: &Command, word: &Value) -> Result<(), Interruption>
    ensures own { OnOk result (IsOwnCommand (Some command.now)) }
    ensures refused { IfErr result
        (λ i. Interrupts i (IsNoOwnCommand word.now (Some command.now))) }
{
    match command {
        Command::Child => Err(naming_failure(alloc, TreeError::Exists, word)),
        Command::Builtin(_) => Ok(()),
        Command::Procedure(_) => Ok(()),
        Command::Alias(_) => Ok(()),
    }
}
