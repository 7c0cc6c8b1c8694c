//! `unset`.
ghost use Rattle.std.specs.Prelude.{◌≡◌, Bool};
ghost use Rattle.tcl_core.specs.Paths.{Path};
ghost use Rattle.tcl_language.specs.Variables as variables;
ghost use Rattle.tcl_run.specs.Plain.{Acts};
ghost use Rattle.tcl_run.specs.Runs.{IsLevel};
ghost use Rattle.tcl_tree.specs.TreeOf.{Names};

use crate::steps::unset_variable;
use std::alloc::Global;
use tcl_run::interruption::Interruption;
use tcl_tree::tree::{Place, Tree};
use tcl_value::value::Value;

/// What stands behind the end of the options, if that is marked.
fn behind_options(words: &[Value]) -> &[Value]
    ensures { (hides : Bool) → variables.after_dashes hides words.now
        ≡ variables.unset_all hides result.now }
{
    match words {
        [word, names @ ..] => { if word.is_text(b"--") { names } else { words } }
        [] => words,
    }
}

/// Unsets variables from the left.
fn unset_all(
    tree: &mut Tree,
    alloc: Global,
    place: Place,
    hides: bool,
    names: &[Value],
) -> Result<Value, Interruption>
    requires { (p : Path) × Names tree.old place p }
    ensures acts { Acts tree.old place
        (λ style. variables.unset_all hides names.now) tree.new result }
    ensures level { IsLevel tree.old tree.new }
{
    'names: for name in names {
        let name = name.text(alloc)?;
        unset_variable(tree, alloc, place, hides, &name)?;
    }
    Ok(Value::empty())
}

/// `unset ?-nocomplain? ?--? ?name ...?`: unsets variables from the left, up to the first that is
/// refused. With `-nocomplain` only names that no variable may have are refused. (unset(n))
///
/// # Errors
/// 231, 233, 234 and 238; want of memory.
pub fn unset(
    tree: &mut Tree,
    alloc: Global,
    place: Place,
    args: &[Value],
) -> Result<Value, Interruption>
    requires { (p : Path) × Names tree.old place p }
    ensures acts { Acts tree.old place (λ style. variables.unset args.now) tree.new result }
    ensures level { IsLevel tree.old tree.new }
{
    match args {
        [] => Ok(Value::empty()),
        [word, words @ ..] => {
            if word.is_text(b"-nocomplain") {
                unset_all(tree, alloc, place, true, behind_options(words))
            } else {
                unset_all(tree, alloc, place, false, behind_options(args))
            }
        }
    }
}
