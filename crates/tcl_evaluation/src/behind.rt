//! Expressions whose first operand is a script in brackets that is a sum or an answer at hand, and
//! whose other operands are numbers at hand.
ghost use Rattle.std.specs.Prelude.{◌≡◌, ◌∷◌, [], IfErr, IfSome, OnOk, Some};
ghost use Rattle.std.specs.Fmt.{signed_decimal};
ghost use Rattle.tcl_core.specs.Endings.{ok};
ghost use Rattle.tcl_core.specs.Endings.Reply.{Completed};
ghost use Rattle.tcl_core.specs.Paths.{Path};
ghost use Rattle.tcl_core.specs.Trees as core;
ghost use Rattle.tcl_expr.specs.declared.tree.Node.TheVariants.{Operand};
ghost use Rattle.tcl_expr.specs.declared.token.Leaf.TheVariants.{Substituted};
ghost use Rattle.tcl_expression_evaluation.specs.AtHand.{IsNumberFrom};
ghost use Rattle.tcl_run.specs.Ends.{Breaks, Stays};
ghost use Rattle.tcl_run.specs.Runs.{IsHere, Keeps, ways};
ghost use Rattle.tcl_tree.specs.Own.{Own};
ghost use Rattle.tcl_tree.specs.TreeOf.{tree_of, Names};
ghost use Rattle.tcl_evaluation.specs.Behind.{begins_with, ComputesBehind, IsNumberBehindIn};

use crate::hands::{bracket_of, counted_at_hand};
use crate::sums::count_sum;
use std::alloc::Global;
use tcl_expr::token::Leaf;
use tcl_expr::tree::{ExprTree, Node};
use tcl_expression_evaluation::at_hand::{may_be_numbers, number_from};
use tcl_prepared::kinds::BracketKind;
use tcl_prepared::operand::Operand as Substitution;
use tcl_prepared::prepared::Bracket;
use tcl_run::interruption::Interruption;
use tcl_run::outside::Outside;
use tcl_run::steps::frames_seen;
use tcl_text::integer::Integers;
use tcl_tree::tree::{Place, Tree};
use tcl_value::value::Value;

/// The operand that a step is, where it is substituted.
fn substituted(step: &Node) -> Option<&Substitution>
    ensures { IfSome result (λ operand. step.now ≡ Operand (Substituted operand.now)) }
{
    match step {
        Node::Operand(Leaf::Substituted(operand)) => Some(operand),
        _ => None,
    }
}

/// The script in brackets that the first operand is, and the steps behind it, where the script may
/// be a sum or an answer at hand.
fn first_bracket(steps: &[Node]) -> Option<(&Bracket, &[Node])>
    ensures { IfSome result (λ found. steps.now ≡ begins_with found.0.now found.1.now) }
{
    let [first, rest @ ..] = steps else {
        return None;
    };
    let bracket = bracket_of(substituted(first)?.word())?;
    match bracket.kind() {
        BracketKind::Other => None,
        _ => Some((bracket, rest)),
    }
}

/// The number that steps come to in the interpreter, behind a value that waits for its operator
/// already.
fn number_from_at(
    tree: &Tree,
    place: Place,
    style: Integers,
    first: &Value,
    rest: &[Node],
) -> Option<i64>
    ensures { IfSome result (λ n. (p : Path) (m : core.Node Own) → Names tree.now place p →
        tree_of tree.now p ≡ Some m →
        IsNumberFrom m.own.chain.frames style (first.now ∷ []) rest.now n) }
{
    let Some(frames) = frames_seen(tree, place) else {
        return None;
    };
    number_from(frames, style, first, rest)
}

/// The number that an expression comes to whose first operand is this script in brackets, where
/// that is a sum or an answer at hand, and the operands among the rest of the steps are numbers at
/// hand.
#[inline(never)]
fn number_of_bracket(
    tree: &Tree,
    alloc: Global,
    place: Place,
    bracket: &Bracket,
    rest: &[Node],
) -> Option<i64>
    ensures { IfSome result
        (λ n. IsNumberBehindIn tree.now place (begins_with bracket.now rest.now) n) }
{
    let value = counted_at_hand(tree, alloc, place, bracket.kind(), bracket.script())?;
    number_from_at(tree, place, tree.integers(), &value, rest)
}

/// The number that an expression comes to whose first operand is a script in brackets that is a sum
/// or an answer at hand, and whose other operands are numbers at hand. Nothing is counted:
/// [`count_behind`] does that.
pub(crate) fn number_behind(
    tree: &Tree,
    alloc: Global,
    place: Place,
    kept: &ExprTree,
) -> Option<i64>
    ensures { IfSome result (λ n. IsNumberBehindIn tree.now place kept.now.nodes.items n) }
{
    let (bracket, rest) = first_bracket(kept.nodes.as_slice())?;
    if !may_be_numbers(rest) {
        return None;
    }
    number_of_bracket(tree, alloc, place, bracket, rest)
}

/// Counts what such an expression takes: the level and the step of its script in brackets.
///
/// # Errors
/// 308, of the level or of the step; want of memory for its error.
#[inline(never)]
pub(crate) fn count_behind<O: Outside>(
    tree: &mut Tree,
    alloc: Global,
    outside: &mut O,
    place: Place,
) -> Result<(), Interruption>
    requires { (p : Path) × Names tree.old place p }
    ensures computed { OnOk result (ComputesBehind (ways O.goes O.loses) tree.old outside.old place
        tree.new outside.new (λ n. Some (Completed (ok (signed_decimal n))))) }
    ensures breaks { IfErr result (λ i. Breaks i (λ e. Stays e ×
        ComputesBehind (ways O.goes O.loses) tree.old outside.old place tree.new outside.new
        (λ n. e))) }
    ensures here { IsHere tree.old tree.new place }
    ensures keeps { Keeps O.entries_left tree.old tree.new outside.old outside.new }
{
    count_sum(tree, alloc, outside, place)
}
