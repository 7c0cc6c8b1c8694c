//! Expressions, and the commands with conditions.
ghost use Rattle.std.specs.Option.{option_copied};
ghost use Rattle.std.specs.Prelude.{◌≡◌, ◌∷◌, [], MatchResult};
ghost use Rattle.tcl_expr.specs.declared.tree.ExprTree.{ExprTree as ReadExpression};
ghost use Rattle.tcl_expression_evaluation.specs.AtHand.{steps_of_two};
ghost use Rattle.tcl_language.specs.Expressions as expressions;
ghost use Rattle.tcl_parser.specs.Reading.{read_script};
ghost use Rattle.tcl_run.specs.Ends.{Breaks, OnCompletion};
ghost use Rattle.tcl_run.specs.Runs.{IsHere, IsRunning, Keeps, ProceedsIn, ways};
ghost use Rattle.tcl_evaluation.specs.Conditional.{Computes, TestGoes, TestBreaks, TurnGoes};
ghost use Rattle.tcl_evaluation.specs.Conditional.{TurnBreaks};

use crate::behind::{count_behind, number_behind};
use crate::evaluation::{eval_read, eval_value};
use crate::operands::{eval_leaf, eval_operand};
use std::alloc::Global;
use tcl_calls::branches::{Branches, branches_of, one_branch};
use tcl_calls::expressions::{holds, next_part, number_at, read_expression, settle, settle_two};
use tcl_calls::scripts::{hand_place, script_of};
use tcl_calls::turns::{goes_on, turns_on};
use tcl_expr::operator::BinaryOperator;
use tcl_expr::token::Leaf;
use tcl_expr::tree::ExprTree;
use tcl_expression_evaluation::at_hand::operator_between;
use tcl_expression_evaluation::evaluation::{Evaluation, Progress};
use tcl_prepared::prepared::Prepared;
use tcl_run::failure::wrong_args;
use tcl_run::interruption::Interruption;
use tcl_run::outside::Outside;
use tcl_run::steps::{charge, on_ok};
use tcl_tree::tree::{Place, Tree};
use tcl_value::value::Value;

/// The value of an expression that was read. Its parts are substituted as they are needed, from
/// left to right.
///
/// # Errors
/// 111 to 113 and 212 to 216 of the operands; those of what is substituted; want of memory.
#[cycle(eval)]
#[inline(never)]
fn compute_parts<O: Outside>(
    tree: &mut Tree,
    alloc: Global,
    outside: &mut O,
    place: Place,
    evaluation: &mut Evaluation,
    kept: &ExprTree,
) -> Result<Value, Interruption>
    requires { IsRunning tree.old place }
    ensures runs { Computes
        (ways O.goes O.loses) tree.old outside.old place kept.now tree.new outside.new
        result }
    ensures here { OnCompletion result (IsHere tree.old tree.new place) }
    ensures keeps { Keeps O.entries_left tree.old tree.new outside.old outside.new }
{
    let style = tree.integers();
    evaluation.restart();
    'parts: loop {
        match next_part(evaluation, alloc, kept, style)? {
            Progress::Wants(operand) => {
                let value = on_ok(eval_operand(tree, alloc, outside, place, operand))?;
                evaluation.supply(value)?;
            }
            Progress::Done(value) => return settle(alloc, style, value),
        }
    }
}

/// The value of an expression of two operands and an operator. The operands are substituted from
/// left to right.
///
/// # Errors
/// 111 to 113 and 212 to 216 of the operands; those of what is substituted; want of memory.
#[cycle(eval)]
#[inline(never)]
fn compute_two<O: Outside>(
    tree: &mut Tree,
    alloc: Global,
    outside: &mut O,
    place: Place,
    left: &Leaf,
    operator: BinaryOperator,
    right: &Leaf,
) -> Result<Value, Interruption>
    requires { IsRunning tree.old place }
    ensures runs { (kept : ReadExpression) →
        kept.nodes.items ≡ steps_of_two left.now operator right.now →
        Computes (ways O.goes O.loses) tree.old outside.old place kept tree.new outside.new result }
    ensures here { OnCompletion result (IsHere tree.old tree.new place) }
    ensures keeps { Keeps O.entries_left tree.old tree.new outside.old outside.new }
{
    let style = tree.integers();
    let first = eval_leaf(tree, alloc, outside, place, left)?;
    let second = eval_leaf(tree, alloc, outside, place, right)?;
    settle_two(alloc, style, operator, first, second)
}

/// The same of any expression that was read.
///
/// # Errors
/// 111 to 113 and 212 to 216 of the operands; those of what is substituted; want of memory.
#[cycle(eval)]
fn compute<O: Outside>(
    tree: &mut Tree,
    alloc: Global,
    outside: &mut O,
    place: Place,
    evaluation: &mut Evaluation,
    kept: &ExprTree,
) -> Result<Value, Interruption>
    requires { IsRunning tree.old place }
    ensures runs { Computes
        (ways O.goes O.loses) tree.old outside.old place kept.now tree.new outside.new
        result }
    ensures here { OnCompletion result (IsHere tree.old tree.new place) }
    ensures keeps { Keeps O.entries_left tree.old tree.new outside.old outside.new }
{
    if let Some((left, operator, right)) = operator_between(kept.nodes.as_slice()) {
        return compute_two(tree, alloc, outside, place, left, operator, right);
    }
    compute_parts(tree, alloc, outside, place, evaluation, kept)
}

/// The same. Where all operands are numbers at hand, but for the first, which may be a sum or an
/// answer at hand in brackets, it is computed at once.
///
/// # Errors
/// 111 to 113 and 212 to 216 of the operands; those of what is substituted; want of memory.
#[cycle(eval)]
fn expression<O: Outside>(
    tree: &mut Tree,
    alloc: Global,
    outside: &mut O,
    place: Place,
    kept: &ExprTree,
) -> Result<Value, Interruption>
    requires { IsRunning tree.old place }
    ensures runs { Computes
        (ways O.goes O.loses) tree.old outside.old place kept.now tree.new outside.new
        result }
    ensures here { OnCompletion result (IsHere tree.old tree.new place) }
    ensures keeps { Keeps O.entries_left tree.old tree.new outside.old outside.new }
{
    let style = tree.integers();
    if let Some(number) = number_at(tree, place, style, kept) {
        return Ok(Value::from_int(number));
    }
    if let Some(number) = number_behind(tree, alloc, place, kept) {
        count_behind(tree, alloc, outside, place)?;
        return Ok(Value::from_int(number));
    }
    let mut evaluation = Evaluation::new(alloc);
    compute(tree, alloc, outside, place, &mut evaluation, kept)
}

/// Whether a condition that was read holds.
#[cycle(eval)]
fn condition<O: Outside>(
    tree: &mut Tree,
    alloc: Global,
    outside: &mut O,
    place: Place,
    evaluation: &mut Evaluation,
    test: &ExprTree,
) -> Result<bool, Interruption>
    requires { IsRunning tree.old place }
    ensures runs { MatchResult result
        (λ holds. TestGoes (ways O.goes O.loses) tree.old outside.old place test.now tree.new
        outside.new holds)
        (λ i. Breaks i (TestBreaks (ways O.goes O.loses) tree.old outside.old place test.now
        tree.new outside.new)) }
    ensures here { OnCompletion result (IsHere tree.old tree.new place) }
    ensures keeps { Keeps O.entries_left tree.old tree.new outside.old outside.new }
{
    let style = tree.integers();
    if let Some(number) = number_at(tree, place, style, test) {
        return Ok(number != 0);
    }
    if let Some(number) = number_behind(tree, alloc, place, test) {
        count_behind(tree, alloc, outside, place)?;
        return Ok(number != 0);
    }
    let value = on_ok(compute(tree, alloc, outside, place, evaluation, test))?;
    holds(alloc, style, value)
}

/// `expr arg ?arg ...?`: the value of the expression that the words are put together to. (expr(n))
///
/// # Errors
/// 241; 122; 211 and 217 of the text; 111 to 113 and 212 to 216 of the operands; those of what is
/// substituted; want of memory.
#[cycle(eval)]
#[inline(never)]
pub fn expr<O: Outside>(
    tree: &mut Tree,
    alloc: Global,
    outside: &mut O,
    place: Place,
    args: &[Value],
) -> Result<Value, Interruption>
    requires { IsRunning tree.old place }
    ensures runs { ProceedsIn (ways O.goes O.loses) tree.old outside.old place
        (λ style. expressions.expr args.now) tree.new outside.new result }
    ensures here { OnCompletion result (IsHere tree.old tree.new place) }
    ensures keeps { Keeps O.entries_left tree.old tree.new outside.old outside.new }
{
    if args.is_empty() {
        return Err(wrong_args(alloc, "expr arg ?arg ...?"));
    }
    let text = script_of(alloc, args)?;
    let kept = read_expression(tree, alloc, tree.integers(), &text)?;
    hand_place(&text, &args[0]);
    expression(tree, alloc, outside, place, &kept)
}

/// An `if` with one condition: evaluates its body where it holds, and the last body where it
/// doesn't.
#[cycle(eval)]
fn if_one<O: Outside>(
    tree: &mut Tree,
    alloc: Global,
    outside: &mut O,
    place: Place,
    test: &Value,
    body: &Value,
    last: Option<&Value>,
) -> Result<Value, Interruption>
    requires { IsRunning tree.old place }
    ensures runs { ProceedsIn (ways O.goes O.loses) tree.old outside.old place
        (λ style. expressions.first_true style ((test.now, body.now) ∷ [])
        (option_copied last.entry)) tree.new outside.new result }
    ensures here { OnCompletion result (IsHere tree.old tree.new place) }
    ensures keeps { Keeps O.entries_left tree.old tree.new outside.old outside.new }
{
    let kept = read_expression(tree, alloc, tree.integers(), test)?;
    let mut evaluation = Evaluation::new(alloc);
    if condition(tree, alloc, outside, place, &mut evaluation, &kept)? {
        return eval_value(tree, alloc, outside, place, body);
    }
    let Some(last) = last else {
        return Ok(Value::empty());
    };
    eval_value(tree, alloc, outside, place, last)
}

/// `if expr1 ?then? body1 ?elseif expr2 ?then? body2 ...? ?else? ?bodyN?`: evaluates the first body
/// whose condition holds. (if(n))
///
/// # Errors
/// 241; those of the conditions, as of `expr`; those of the body; want of memory.
#[cycle(eval)]
pub fn if_first<O: Outside>(
    tree: &mut Tree,
    alloc: Global,
    outside: &mut O,
    place: Place,
    args: &[Value],
) -> Result<Value, Interruption>
    requires { IsRunning tree.old place }
    ensures runs { ProceedsIn (ways O.goes O.loses) tree.old outside.old place
        (λ style. expressions.if_first style args.now) tree.new outside.new result }
    ensures here { OnCompletion result (IsHere tree.old tree.new place) }
    ensures keeps { Keeps O.entries_left tree.old tree.new outside.old outside.new }
{
    if let Some((branch, last)) = one_branch(args) {
        return if_one(tree, alloc, outside, place, branch.test, branch.body, last);
    }
    if_many(tree, alloc, outside, place, args)
}

/// The same, of any number of conditions.
#[cycle(eval)]
#[inline(never)]
fn if_many<O: Outside>(
    tree: &mut Tree,
    alloc: Global,
    outside: &mut O,
    place: Place,
    args: &[Value],
) -> Result<Value, Interruption>
    requires { IsRunning tree.old place }
    ensures runs { ProceedsIn (ways O.goes O.loses) tree.old outside.old place
        (λ style. expressions.if_first style args.now) tree.new outside.new result }
    ensures here { OnCompletion result (IsHere tree.old tree.new place) }
    ensures keeps { Keeps O.entries_left tree.old tree.new outside.old outside.new }
{
    let Some(branches) = branches_of(alloc, args)? else {
        return Err(wrong_args(alloc, IF));
    };
    let Branches { tests, last } = branches;
    let mut evaluation = Evaluation::new(alloc);
    'tests: for branch in &tests {
        let test = read_expression(tree, alloc, tree.integers(), branch.test)?;
        if condition(tree, alloc, outside, place, &mut evaluation, &test)? {
            return eval_value(tree, alloc, outside, place, branch.body);
        }
    }
    let Some(last) = last else {
        return Ok(Value::empty());
    };
    eval_value(tree, alloc, outside, place, last)
}

/// A turn of a loop with a condition: whether the loop goes on. Where the condition holds, the turn
/// is counted and the body runs, whose script was read before.
#[cycle(eval)]
#[inline(always)]
fn turn<O: Outside>(
    tree: &mut Tree,
    alloc: Global,
    outside: &mut O,
    place: Place,
    evaluation: &mut Evaluation,
    test: &ExprTree,
    body: &Value,
    script: &Prepared,
) -> Result<bool, Interruption>
    requires running { IsRunning tree.old place }
    requires read { script.now ≡ read_script body.now }
    ensures runs { MatchResult result
        (λ on. TurnGoes (ways O.goes O.loses) tree.old outside.old place test.now body.now tree.new
        outside.new on)
        (λ i. Breaks i (TurnBreaks (ways O.goes O.loses) tree.old outside.old place test.now
        body.now tree.new outside.new)) }
    ensures here { OnCompletion result (IsHere tree.old tree.new place) }
    ensures keeps { Keeps O.entries_left tree.old tree.new outside.old outside.new }
{
    if !condition(tree, alloc, outside, place, evaluation, test)? {
        return Ok(false);
    }
    charge(tree, outside, place)?;
    goes_on(eval_read(tree, alloc, outside, place, body, script))
}

/// `while test command`: a counted turn as long as the condition holds. The condition and the body
/// are read once. (while(n)) A loop has fewer turns than its count of steps can be, and so never
/// comes to the end of the numbers.
///
/// # Errors
/// 241; those of the condition, as of `expr`; the stop 308; those of the body but for `break` and
/// `continue`; want of memory.
#[cycle(eval)]
#[inline(never)]
pub fn while_loop<O: Outside>(
    tree: &mut Tree,
    alloc: Global,
    outside: &mut O,
    place: Place,
    args: &[Value],
) -> Result<Value, Interruption>
    requires { IsRunning tree.old place }
    ensures runs { ProceedsIn (ways O.goes O.loses) tree.old outside.old place
        (λ style. expressions.while_loop args.now) tree.new outside.new result }
    ensures here { OnCompletion result (IsHere tree.old tree.new place) }
    ensures keeps { Keeps O.entries_left tree.old tree.new outside.old outside.new }
{
    let [test, body] = args else {
        return Err(wrong_args(alloc, "while test command"));
    };
    let test = read_expression(tree, alloc, tree.integers(), test)?;
    let script = tree.script_of(alloc, body)?;
    let mut state = Evaluation::new(alloc);
    'turns: for _turn in 0..u64::MAX {
        if !turn(
            tree, alloc, outside, place, &mut state, &test, body, &script,
        )? {
            return Ok(Value::empty());
        }
    }
    Err(Interruption::Memory)
}

/// `for start test next command`: a counted turn as long as the condition holds. The condition and
/// the scripts of a turn are read once, behind the first script. (for(n))
///
/// # Errors
/// 241; those of the first script; those of the condition, as of `expr`; the stop 308; those of the
/// body but for `break` and `continue`, and of the script between two turns but for `break`; want
/// of memory.
#[cycle(eval)]
#[inline(never)]
pub fn for_loop<O: Outside>(
    tree: &mut Tree,
    alloc: Global,
    outside: &mut O,
    place: Place,
    args: &[Value],
) -> Result<Value, Interruption>
    requires { IsRunning tree.old place }
    ensures runs { ProceedsIn (ways O.goes O.loses) tree.old outside.old place
        (λ style. expressions.for_loop args.now) tree.new outside.new result }
    ensures here { OnCompletion result (IsHere tree.old tree.new place) }
    ensures keeps { Keeps O.entries_left tree.old tree.new outside.old outside.new }
{
    let [start, test, next, body] = args else {
        return Err(wrong_args(alloc, "for start test next command"));
    };
    on_ok(eval_value(tree, alloc, outside, place, start))?;
    let test = read_expression(tree, alloc, tree.integers(), test)?;
    let script = tree.script_of(alloc, body)?;
    let between = tree.script_of(alloc, next)?;
    let mut state = Evaluation::new(alloc);
    'turns: for _turn in 0..u64::MAX {
        if !turn(
            tree, alloc, outside, place, &mut state, &test, body, &script,
        )? {
            return Ok(Value::empty());
        }
        if !turns_on(eval_read(tree, alloc, outside, place, next, &between))? {
            return Ok(Value::empty());
        }
    }
    Err(Interruption::Memory)
}

/// The form of `if`.
const IF: &str = "if expr1 ?then? body1 ?elseif expr2 ?then? body2 ...? ?else? ?bodyN?";
