//! Variables that commands set by the names that their words are.
ghost use Rattle.std.specs.Prelude.{◌≡◌};
ghost use Rattle.tcl_core.specs.Paths.{Path};
ghost use Rattle.tcl_language.specs.Variables.{sets};
ghost use Rattle.tcl_run.specs.Plain.{Steps};
ghost use Rattle.tcl_run.specs.Runs.{IsLevel};
ghost use Rattle.tcl_tree.specs.TreeOf.{Names};

use std::alloc::Global;
use tcl_frames::variable_name::VariableName;
use tcl_run::interruption::Interruption;
use tcl_run::steps::{write_by_word, write_named};
use tcl_tree::tree::{Place, Tree};
use tcl_value::value::Value;

/// Sets the variable that a word names.
///
/// # Errors
/// Why it can't be set; want of memory.
#[inline(never)]
pub fn set_named(
    tree: &mut Tree,
    alloc: Global,
    place: Place,
    name: &Value,
    value: Value,
) -> Result<(), Interruption>
    requires { (p : Path) × Names tree.old place p }
    ensures set { Steps tree.old place (sets name.now value) tree.new result }
    ensures level { IsLevel tree.old tree.new }
{
    write_by_word(tree, alloc, place, name, value)
}

/// Sets the variable of a name, in less time where it stands where it was found last.
///
/// # Errors
/// Why it can't be set; want of memory.
#[inline]
pub fn set_variable(
    tree: &mut Tree,
    alloc: Global,
    place: Place,
    name: &VariableName,
    value: Value,
) -> Result<(), Interruption>
    requires { (p : Path) × Names tree.old place p }
    ensures set { Steps tree.old place (sets name.now value) tree.new result }
    ensures level { IsLevel tree.old tree.new }
{
    write_named(tree, alloc, place, name, value)
}
