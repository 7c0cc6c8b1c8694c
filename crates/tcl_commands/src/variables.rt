//! The commands that read and change variables.
ghost use Rattle.tcl_core.specs.Paths.{Path};
ghost use Rattle.tcl_language.specs.Variables as variables;
ghost use Rattle.tcl_run.specs.Plain.{Acts};
ghost use Rattle.tcl_run.specs.Runs.{IsLevel};
ghost use Rattle.tcl_tree.specs.TreeOf.{Names};

use crate::growing::{Growth, grow_named};
use crate::steps::set_variable;
use std::alloc::Global;
use tcl_run::failure::wrong_args;
use tcl_run::interruption::Interruption;
use tcl_run::steps::read_by_word;
use tcl_tree::tree::{Place, Tree};
use tcl_value::value::Value;

/// `set varName ?newValue?`: what a variable holds, after it is set where there is a value for it.
/// (set(n))
///
/// # Errors
/// 241; 231 to 234 and 238; want of memory.
pub fn set(
    tree: &mut Tree,
    alloc: Global,
    place: Place,
    args: &[Value],
) -> Result<Value, Interruption>
    requires { (p : Path) × Names tree.old place p }
    ensures acts { Acts tree.old place (λ style. variables.set args.now) tree.new result }
    ensures level { IsLevel tree.old tree.new }
{
    match args {
        [name] => read_by_word(tree, alloc, place, name),
        [name, value] => {
            set_variable(tree, alloc, place, name, value.clone()?)?;
            Ok(value.clone()?)
        }
        _ => Err(wrong_args(alloc, "set varName ?newValue?")),
    }
}

/// `incr varName ?increment?`: adds to the integer of a variable, which is 0 where there is none.
/// (incr(n))
///
/// # Errors
/// 241; 232, 233 and 238; 111 and 112 of the variable and then of the increment; 113 of the sum;
/// want of memory.
pub fn incr(
    tree: &mut Tree,
    alloc: Global,
    place: Place,
    args: &[Value],
) -> Result<Value, Interruption>
    requires { (p : Path) × Names tree.old place p }
    ensures acts { Acts tree.old place (λ style. variables.incr style args.now) tree.new result }
    ensures level { IsLevel tree.old tree.new }
{
    match args {
        [name, words @ ..] if words.len() < 2 => {
            let growth = Growth::Sum(tree.integers());
            grow_named(tree, alloc, place, name, growth, words)
        }
        _ => Err(wrong_args(alloc, "incr varName ?increment?")),
    }
}
