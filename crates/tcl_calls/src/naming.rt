//! The names of commands.
#![tactic(auto, using(tcl_run::proofs::Losing::losing))]

ghost use Rattle.std.specs.Prelude.{◌≡◌, IfOk, IfErr, Some, None, is_some};
ghost use Rattle.std.specs.Option.{option_copied};
ghost use Rattle.tcl_core.specs.Endings.Reply.{Completed};
ghost use Rattle.tcl_core.specs.Paths.{Path};
ghost use Rattle.tcl_core.specs.Trees as core;
ghost use Rattle.tcl_language.specs.Faults as faults;
ghost use Rattle.tcl_language.specs.Naming.{command_name};
ghost use Rattle.tcl_run.specs.Ends.{Interrupts, failing};
ghost use Rattle.tcl_tree.specs.Changes.{is_child};
ghost use Rattle.tcl_tree.specs.Own.{Own, command_in, hidden_in};
ghost use Rattle.tcl_tree.specs.TreeOf.{tree_of, Names};

use crate::lookup::plain;
use std::alloc::{AllocError, Global};
use tcl_frames::name::after_leading;
use tcl_run::failure::bad_name;
use tcl_run::interruption::Interruption;
use tcl_text::text::Text;
use tcl_tree::command::Command;
use tcl_tree::tree::{Place, Tree};

/// The name by which a command is kept that is called so, if one can be: two leading colons name
/// the global level, which is the only one.
fn plain_name(alloc: Global, name: &Text) -> Result<Option<Text>, AllocError>
    ensures { IfOk result (λ kept. kept ≡ command_name name.now) }
{
    match after_leading(name.as_str()) {
        Some(rest) => Ok(plain(Text::new(alloc, rest)?)),
        None => Ok(plain(name.clone()?)),
    }
}

/// The name by which a command is kept that is called so.
///
/// # Errors
/// 238; want of memory.
pub fn kept_name(alloc: Global, name: &Text) -> Result<Text, Interruption>
    ensures kept { IfOk result (λ kept. command_name name.now ≡ Some kept) }
    ensures refused { IfErr result
        (λ i. Interrupts i (λ e. (command_name name.now ≡ None) ×
        (e ≡ Completed (failing (faults.bad_name name.now))))) }
{
    match plain_name(alloc, name)? {
        Some(kept) => Ok(kept),
        None => Err(bad_name(alloc, name.as_str())),
    }
}

/// Whether a command is a child interpreter.
fn stands_for_child(command: Option<&Command>) -> bool
    ensures { result ≡ is_child (option_copied command.entry) }
{
    match command {
        Some(Command::Child) => true,
        Some(Command::Builtin(_)) => false,
        Some(Command::Procedure(_)) => false,
        Some(Command::Alias(_)) => false,
        None => false,
    }
}

/// Whether the name is that of a child of the interpreter that the place names.
pub fn names_child(tree: &Tree, place: Place, name: &Text) -> bool
    ensures { (p : Path) (n : core.Node Own) → Names tree.now place p →
        tree_of tree.now p ≡ Some n → result ≡ is_child (command_in n.own name.now) }
{
    stands_for_child(tree.command_at(place, name))
}

/// Whether a command of the interpreter that the place names is hidden under the name.
pub fn names_hidden(tree: &Tree, place: Place, name: &Text) -> bool
    ensures { (p : Path) (n : core.Node Own) → Names tree.now place p →
        tree_of tree.now p ≡ Some n → result ≡ is_some (hidden_in n.own name.now) }
{
    tree.hidden_at(place, name).is_some()
}
