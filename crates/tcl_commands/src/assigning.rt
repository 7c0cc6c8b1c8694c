//! `lassign`.
ghost use Rattle.std.specs.Prelude.{◌≡◌};
ghost use Rattle.tcl_core.specs.Paths.{Path};
ghost use Rattle.tcl_language.specs.Data as collections;
ghost use Rattle.tcl_run.specs.Plain.{Acts};
ghost use Rattle.tcl_run.specs.Runs.{IsLevel};
ghost use Rattle.tcl_tree.specs.TreeOf.{Names};

use crate::answers::answered;
use crate::walks::set_names;
use std::alloc::Global;
use tcl_lists::commands::lassign_rest;
use tcl_run::failure::wrong_args;
use tcl_run::interruption::Interruption;
use tcl_run::steps::read_list;
use tcl_tree::tree::{Place, Tree};
use tcl_value::value::Value;

/// `lassign list ?varName ...?`: sets variables to the elements of a list, from the left, and to
/// empty values where none is left; gives the elements that are left. (lassign(n))
///
/// # Errors
/// 241; 101 to 104 of the list; 232, 233 and 238 of the first variable that is refused; want of
/// memory.
pub fn lassign(
    tree: &mut Tree,
    alloc: Global,
    place: Place,
    args: &[Value],
) -> Result<Value, Interruption>
    requires { (p : Path) × Names tree.old place p }
    ensures acts { Acts tree.old place (λ style. collections.lassign args.now) tree.new result }
    ensures level { IsLevel tree.old tree.new }
{
    match args {
        [] => Err(wrong_args(alloc, "lassign list ?varName ...?")),
        [list, names @ ..] => {
            let mut own = list.clone()?;
            let elements = read_list(alloc, &mut own)?;
            set_names(tree, alloc, place, names, &elements, 0)?;
            answered(alloc, lassign_rest(alloc, names.len(), &elements))
        }
    }
}
