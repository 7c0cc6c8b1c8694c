//! Variables that are set to the elements of a list.
ghost use Rattle.std.specs.Prelude.{◌≡◌, ◌-◌, ℕ, [], List, drop, length, slice_index_or, IfOk};
ghost use Rattle.std.specs.Prelude.{IfErr};
ghost use Rattle.tcl_core.specs.Paths.{Path};
ghost use Rattle.tcl_language.specs.Control as control;
ghost use Rattle.tcl_language.specs.Instructions.{Program};
ghost use Rattle.tcl_run.specs.Ends.{Interrupts};
ghost use Rattle.tcl_run.specs.Runs.{IsLevel};
ghost use Rattle.tcl_tree.specs.TreeOf.{Names};
ghost use Rattle.tcl_commands.specs.Reaching.{GetsTo, GetsToEnd};

use std::alloc::{AllocError, Global};
use tcl_run::interruption::Interruption;
use tcl_run::steps::write_by_word;
use tcl_tree::tree::{Place, Tree};
use tcl_value::list::List as Elements;
use tcl_value::value::Value;

/// The element at a place, or the empty value past the end.
fn element_at(elements: &Elements, at: usize) -> Result<Value, AllocError>
    ensures { IfOk result (λ value. value ≡ slice_index_or elements.now at []) }
{
    if at < elements.len() {
        return elements.get(at);
    }
    Ok(Value::empty())
}

/// The place after one, where that isn't past the end.
fn place_after(elements: &Elements, at: usize) -> usize
    ensures { drop result elements.now ≡ drop 1 (drop at elements.now) }
{
    if at < elements.len() { at + 1 } else { at }
}

/// Sets the variables that words name to the elements of a list from a place on, and to empty
/// values where none is left. Gives the place of what is left.
///
/// # Errors
/// 232, 233 and 238 of the first that is refused; want of memory.
pub(crate) fn set_names(
    tree: &mut Tree,
    alloc: Global,
    place: Place,
    names: &[Value],
    elements: &Elements,
    from: usize,
) -> Result<usize, Interruption>
    requires { (p : Path) × Names tree.old place p }
    ensures set { IfOk result
        (λ at. (k : List (List ℕ) → Program) →
        GetsTo tree.old place (control.sets_names names.now (drop from elements.now) k) tree.new
        (k (drop at elements.now))) }
    ensures fewer { IfOk result
        (λ at. length (drop at elements.now) ≡ length (drop from elements.now) - length names.now) }
    ensures refused { IfErr result
        (λ i. Interrupts i (λ e. (k : List (List ℕ) → Program) →
        GetsToEnd tree.old place (control.sets_names names.now (drop from elements.now) k) tree.new
        e)) }
    ensures level { IsLevel tree.old tree.new }
{
    let mut at = from;
    'names: for name in names {
        let value = element_at(elements, at)?;
        write_by_word(tree, alloc, place, name, value)?;
        at = place_after(elements, at);
    }
    Ok(at)
}
