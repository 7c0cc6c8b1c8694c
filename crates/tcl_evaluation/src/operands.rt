//! The operands of expressions.
ghost use Rattle.std.specs.Prelude.{[], MatchResult};
ghost use Rattle.tcl_language.specs.Scripts as scripts;
ghost use Rattle.tcl_run.specs.Ends.{Breaks, OnCompletion};
ghost use Rattle.tcl_run.specs.Runs.{IsHere, IsRunning, Keeps, ProceedsIn, ways};
ghost use Rattle.tcl_evaluation.specs.Conditional.{OperandGoes, OperandBreaks};

use crate::evaluation::{eval_lone_part, eval_word};
use std::alloc::Global;
use tcl_expr::token::Leaf;
use tcl_prepared::operand::Operand;
use tcl_prepared::prepared::PreparedWord;
use tcl_run::interruption::Interruption;
use tcl_run::outside::Outside;
use tcl_run::steps::{on_ok, read_named};
use tcl_tree::tree::{Place, Tree};
use tcl_value::value::Value;

/// The text of an operand that is substituted.
///
/// # Errors
/// 231 to 234 and 238 of variables; those of scripts; 122; want of memory.
#[cycle(eval)]
#[inline]
pub fn eval_operand<O: Outside>(
    tree: &mut Tree,
    alloc: Global,
    outside: &mut O,
    place: Place,
    operand: &Operand,
) -> Result<Value, Interruption>
    requires running { IsRunning tree.old place }
    ensures runs { ProceedsIn (ways O.goes O.loses) tree.old outside.old place
        (λ style. scripts.parts operand.now.parts [] []) tree.new outside.new result }
    ensures here { OnCompletion result (IsHere tree.old tree.new place) }
    ensures keeps { Keeps O.entries_left tree.old tree.new outside.old outside.new }
{
    match operand.variable() {
        Some(name) => read_named(tree, alloc, place, name),
        None => match operand.word() {
            PreparedWord::Lone(part) => eval_lone_part(tree, alloc, outside, place, part),
            word => eval_word(tree, alloc, outside, place, word),
        },
    }
}

/// The value of an operand: a literal, or the text of what is substituted.
///
/// # Errors
/// Those of what is substituted, as of [`eval_operand`]; want of memory.
#[cycle(eval)]
pub fn eval_leaf<O: Outside>(
    tree: &mut Tree,
    alloc: Global,
    outside: &mut O,
    place: Place,
    leaf: &Leaf,
) -> Result<Value, Interruption>
    requires { IsRunning tree.old place }
    ensures runs { MatchResult result
        (λ value. OperandGoes (ways O.goes O.loses) tree.old outside.old place leaf.now tree.new
        outside.new value)
        (λ i. Breaks i (OperandBreaks (ways O.goes O.loses) tree.old outside.old place leaf.now
        tree.new outside.new)) }
    ensures here { OnCompletion result (IsHere tree.old tree.new place) }
    ensures keeps { Keeps O.entries_left tree.old tree.new outside.old outside.new }
{
    match leaf {
        Leaf::Literal(value) => Ok(value.clone()?),
        Leaf::Substituted(operand) => on_ok(eval_operand(tree, alloc, outside, place, operand)),
    }
}
