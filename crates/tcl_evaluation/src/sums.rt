//! Counting what sums and answers take.
ghost use Rattle.std.specs.Prelude.{◌≡◌, OnOk, IfErr, IsTrue, Some, false};
ghost use Rattle.tcl_core.specs.Endings.{ok};
ghost use Rattle.tcl_core.specs.Endings.Reply.{Completed};
ghost use Rattle.tcl_core.specs.Paths.{Path};
ghost use Rattle.tcl_run.specs.Ends.{Breaks, Stays};
ghost use Rattle.tcl_run.specs.Runs.{IsHere, Keeps, ways};
ghost use Rattle.tcl_tree.specs.TreeOf.{Names};
ghost use Rattle.tcl_evaluation.specs.Hands.{KeepsOwn};
ghost use Rattle.tcl_evaluation.specs.Sums.{Sums};

use std::alloc::Global;
use tcl_run::failure::too_deep;
use tcl_run::interruption::Interruption;
use tcl_run::outside::Outside;
use tcl_run::steps::charge;
use tcl_tree::tree::{Place, Tree};

/// Counts what a sum or an answer takes: a level, and in it the step of its command.
///
/// # Errors
/// 308, of the level or of the step; want of memory for its error.
#[inline]
pub fn count_sum<O: Outside>(
    tree: &mut Tree,
    alloc: Global,
    outside: &mut O,
    place: Place,
) -> Result<(), Interruption>
    requires { (p : Path) × Names tree.old place p }
    ensures sums { OnOk result (Sums (ways O.goes O.loses) tree.old outside.old place tree.new
        outside.new (λ text. Some (Completed (ok text)))) }
    ensures breaks { IfErr result
        (λ i. Breaks i (λ e. Stays e × Sums (ways O.goes O.loses) tree.old outside.old place
        tree.new outside.new (λ text. e))) }
    ensures own { OnOk result (KeepsOwn tree.old tree.new place) }
    ensures here { IsHere tree.old tree.new place }
    ensures keeps { Keeps O.entries_left tree.old tree.new outside.old outside.new }
{
    if let Err(levels) = tree.nest_at(place) {
        return Err(too_deep(alloc, levels));
    }
    let counted = charge(tree, outside, place);
    tree.unnest(place);
    counted
}

/// Counts what words that are at hand take before their call: a sum or an answer among them, if
/// there is one.
///
/// # Errors
/// 308, of the level or of the step; want of memory for its error.
#[inline]
pub fn count_first<O: Outside>(
    tree: &mut Tree,
    alloc: Global,
    outside: &mut O,
    place: Place,
    sums: bool,
) -> Result<(), Interruption>
    requires { (p : Path) × Names tree.old place p }
    ensures sums { OnOk result (IsTrue sums → Sums (ways O.goes O.loses) tree.old outside.old place
        tree.new outside.new (λ text. Some (Completed (ok text)))) }
    ensures own { OnOk result (IsTrue sums → KeepsOwn tree.old tree.new place) }
    ensures plain { OnOk result
        (sums ≡ false → (tree.new ≡ tree.old) × (outside.new ≡ outside.old)) }
    ensures breaks { IfErr result (λ i. IsTrue sums × Breaks i
        (λ e. Stays e × Sums (ways O.goes O.loses) tree.old outside.old place tree.new outside.new
        (λ text. e))) }
    ensures here { IsHere tree.old tree.new place }
    ensures keeps { Keeps O.entries_left tree.old tree.new outside.old outside.new }
{
    if !sums {
        return Ok(());
    }
    count_sum(tree, alloc, outside, place)
}
