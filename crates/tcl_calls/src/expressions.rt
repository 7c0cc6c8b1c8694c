//! Expressions that commands read, and what their values come to.
ghost use Rattle.std.specs.Prelude.{◌≡◌, ◌++◌, ◌∷◌, ◌-◌, [], Some, IfOk, IfErr, IfSome, length};
ghost use Rattle.std.specs.Prelude.{true};
ghost use Rattle.tcl_core.specs.Paths.{Path};
ghost use Rattle.tcl_core.specs.Trees as core;
ghost use Rattle.tcl_expr.specs.Expressions.{expression_of};
ghost use Rattle.tcl_expr.specs.Faults.{message_of};
ghost use Rattle.tcl_expression_evaluation.specs.Steps.{from};
ghost use Rattle.tcl_expression_evaluation.specs.AtHand.{IsNumberAtHand};
ghost use Rattle.tcl_expression_evaluation.specs.Apply.{truth};
ghost use Rattle.tcl_expression_evaluation.specs.Messages.{message_of as operator_message};
ghost use Rattle.tcl_language.specs.Instructions.{fits};
ghost use Rattle.tcl_language.specs.Words.{concat as concatenated};
ghost use Rattle.tcl_run.specs.Ends.{Gave, IfEnded, Interrupts, IsFailure};
ghost use Rattle.tcl_tree.specs.Own.{Own};
ghost use Rattle.tcl_tree.specs.TreeOf.{tree_of, Names};
ghost use Rattle.tcl_calls.specs.Expressions.{GivesPart, IsKept, IsNearer, OperatorTells, settles};
ghost use Rattle.tcl_calls.specs.Expressions.{settles_two};
ghost use Rattle.tcl_calls.specs.Words.{EndsBy};

use crate::scripts::{hand_place, is_full_word, script_of};
use std::alloc::Global;
use std::rc::Rc;
use tcl_expr::fault::ExprError;
use tcl_expr::operator::BinaryOperator;
use tcl_expr::tree::ExprTree;
use tcl_expression_evaluation::apply::{apply_binary, truth_of};
use tcl_expression_evaluation::at_hand::{number_at_hand, number_of_values};
use tcl_expression_evaluation::evaluation::{Evaluation, Progress};
use tcl_expression_evaluation::fault::ApplyError;
use tcl_expression_evaluation::result::final_value;
use tcl_run::failure::failure;
use tcl_run::interruption::Interruption;
use tcl_run::steps::frames_seen;
use tcl_text::integer::Integers;
use tcl_tree::tree::{Place, Tree};
use tcl_value::value::Value;

/// Reads a value as an expression, in a style of integers: anew only where its text wasn't read
/// before in the tree. (expr(n))
///
/// # Errors
/// Why its text is no expression; want of memory.
#[inline]
pub fn read_expression(
    tree: &Tree,
    alloc: Global,
    style: Integers,
    value: &Value,
) -> Result<Rc<ExprTree>, Interruption>
    ensures read { IfOk result (λ kept. IsKept style value.now kept.value) }
    ensures refused { IfErr result
        (λ i. Interrupts i (IsFailure (message_of value.now) (expression_of style value.now))) }
{
    match tree.expression_kept(value, style) {
        Some(kept) => Ok(kept),
        None => seek_expression(tree, alloc, style, value),
    }
}

/// The same, found by its text or read anew.
#[inline(never)]
fn seek_expression(
    tree: &Tree,
    alloc: Global,
    style: Integers,
    value: &Value,
) -> Result<Rc<ExprTree>, Interruption>
    ensures read { IfOk result (λ kept. IsKept style value.now kept.value) }
    ensures refused { IfErr result
        (λ i. Interrupts i (IsFailure (message_of value.now) (expression_of style value.now))) }
{
    match tree.expression_of(alloc, value, style) {
        Ok(kept) => Ok(kept),
        Err(ExprError::Fault(fault)) => {
            let text = value.text(alloc)?;
            Err(failure(alloc, fault.message(alloc, text.as_str())?))
        }
        Err(ExprError::Memory) => Err(Interruption::Memory),
    }
}

/// The expression that the words of an `expr` are put together to, if they are one. Where memory is
/// wanting, none.
#[inline(always)]
pub fn expression_of_words(
    tree: &Tree,
    alloc: Global,
    style: Integers,
    words: &[Value],
) -> Option<Rc<ExprTree>>
    ensures short { IfSome result (λ _. fits (concatenated words.now) ≡ true) }
    ensures read { IfSome result (λ kept. IsKept style (concatenated words.now) kept.value) }
{
    if let [word] = words {
        if is_full_word(word) {
            return read_expression(tree, alloc, style, word).ok();
        }
    }
    let Ok(text) = script_of(alloc, words) else {
        return None;
    };
    let Ok(kept) = read_expression(tree, alloc, style, &text) else {
        return None;
    };
    if let [first, ..] = words {
        hand_place(&text, first);
    }
    Some(kept)
}

/// The value of an expression that was read, where each of its operands is a literal or a variable
/// of the current frame, and all of them are integers, and it is one that fits 64 bits. This takes
/// no memory.
pub fn number_at(tree: &Tree, place: Place, style: Integers, kept: &ExprTree) -> Option<i64>
    ensures { IfSome result (λ n. (p : Path) (m : core.Node Own) → Names tree.now place p →
        tree_of tree.now p ≡ Some m →
        IsNumberAtHand m.own.chain.frames style kept.now.nodes.items n) }
{
    let Some(frames) = frames_seen(tree, place) else {
        return None;
    };
    number_at_hand(frames, style, kept)
}

/// The error that a refusal of an operator is.
#[inline(never)]
pub fn operator_failure(alloc: Global, error: ApplyError) -> Interruption
    ensures { OperatorTells error result }
{
    match error {
        ApplyError::Memory => Interruption::Memory,
        ApplyError::Fault(fault) => match fault.message(alloc) {
            Ok(message) => failure(alloc, message),
            Err(_) => Interruption::Memory,
        },
    }
}

/// Goes on to the next part of an expression that is to be substituted, or to its value.
///
/// # Errors
/// The refusal of an operator; want of memory.
pub fn next_part<'t>(
    evaluation: &mut Evaluation,
    alloc: Global,
    kept: &'t ExprTree,
    style: Integers,
) -> Result<Progress<'t>, Interruption>
    ensures nearer { IsNearer result (length kept.now.nodes.items - evaluation.old.next)
        (length kept.now.nodes.items - evaluation.new.next) }
    ensures gives { GivesPart result (from style kept.now.nodes.items evaluation.old.next
        evaluation.old.values.items) (λ v. from style kept.now.nodes.items evaluation.new.next
        (evaluation.new.values.items ++ v ∷ [])) }
{
    match evaluation.advance(alloc, kept, style) {
        Ok(progress) => Ok(progress),
        Err(error) => Err(operator_failure(alloc, error)),
    }
}

/// What an expression of this value comes to.
pub fn settle(alloc: Global, style: Integers, value: Value) -> Result<Value, Interruption>
    ensures { IfEnded result (EndsBy (settles style value)) }
{
    match final_value(value, style) {
        Ok(settled) => Ok(settled),
        Err(fault) => Err(operator_failure(alloc, ApplyError::Fault(fault))),
    }
}

/// What an expression of an operator and of two operands comes to, of which these are the values.
pub fn settle_two(
    alloc: Global,
    style: Integers,
    operator: BinaryOperator,
    left: Value,
    right: Value,
) -> Result<Value, Interruption>
    ensures { IfEnded result (EndsBy (settles_two style operator left right)) }
{
    if let Some(number) = number_of_values(operator, &left, &right, style) {
        return Ok(Value::from_int(number));
    }
    settle_applied(alloc, style, operator, left, right)
}

/// The same, whatever the values read as.
#[inline(never)]
fn settle_applied(
    alloc: Global,
    style: Integers,
    operator: BinaryOperator,
    left: Value,
    right: Value,
) -> Result<Value, Interruption>
    ensures { IfEnded result (EndsBy (settles_two style operator left right)) }
{
    let mut left = left;
    let mut right = right;
    match apply_binary(alloc, operator, &mut left, &mut right, style) {
        Ok(value) => settle(alloc, style, value),
        Err(error) => Err(operator_failure(alloc, error)),
    }
}

/// Whether a condition of this value holds.
#[inline(never)]
pub fn holds(alloc: Global, style: Integers, value: Value) -> Result<bool, Interruption>
    ensures { Gave operator_message (truth style value) result }
{
    let mut value = value;
    match truth_of(alloc, &mut value, style) {
        Ok(truth) => Ok(truth),
        Err(error) => Err(operator_failure(alloc, error)),
    }
}
