//! Evaluating a kept expression.
ghost use Rattle.std.specs.Prelude.{◌≡◌, ◌∷◌, ◌++◌, ◌<◌, ◌≤◌, ◌^◌, ◌-◌, List, [], drop, length, Ok};
ghost use Rattle.std.specs.Prelude.{Err, OnOk};
ghost use Rattle.tcl_text.specs.declared.integer.Integers.{Integers as Style};
ghost use Rattle.tcl_expression_evaluation.specs.Apply.{Gives, truth, answer, apply_unary};
ghost use Rattle.tcl_expression_evaluation.specs.Apply.{apply_binary};
ghost use Rattle.tcl_value.specs.Limits.{Bytes};
ghost use Rattle.tcl_expression_evaluation.specs.Computations.{takes, call};
ghost use Rattle.tcl_expression_evaluation.specs.Steps.{top, below, last_of, without, passed};
ghost use Rattle.tcl_expression_evaluation.specs.Steps.{mode_of, leaving, does, goes, from, Pushes};
ghost use Rattle.tcl_expression_evaluation.specs.Steps.{Answers, Needs, Acts, Nears, Advances};

use crate::apply::{apply_binary, apply_func, apply_unary, truth_of};
use crate::fault::{ApplyError, Operator, OperatorFault};
use std::alloc::{AllocError, Global};
use tcl_expr::operator::{BinaryOperator, Function, UnaryOperator};
use tcl_expr::token::Leaf;
use tcl_expr::tree::{ExprTree, Node};
use tcl_prepared::operand::Operand;
use tcl_text::integer::Integers;
use tcl_value::value::Value;

/// How far an evaluation has come.
#[derive(Drop)]
pub enum Progress<'t> {
    /// This part is to be substituted, and its value supplied.
    Wants(&'t Operand),
    /// Everything is computed, and this is the value.
    Done(Value),
}

/// An evaluation of a kept expression. It hands out each part that is to be substituted when it is
/// needed, and takes the part's value.
///
/// It takes memory for the values that wait for their operator, which `restart` keeps for the next
/// evaluation.
pub struct Evaluation {
    /// The values that wait for their operator, the last one last.
    values: Vec<Value>,
    /// The step that comes next.
    next: usize,
}

impl Drop for Evaluation {
    fn drop(self) {
        let Evaluation {
            values: _values,
            next: _,
        } = self;
    }
}

impl Evaluation {
    /// An evaluation that has computed nothing yet. This takes no memory.
    pub fn new(alloc: Global) -> Evaluation
        ensures values { result.values.items ≡ [] }
        ensures next { result.next ≡ 0 }
    {
        Evaluation {
            values: Vec::new(alloc),
            next: 0,
        }
    }

    /// Goes back to the beginning, of the same expression or of another one.
    pub fn restart(&mut self)
        ensures values { self.new.values.items ≡ [] }
        ensures next { self.new.next ≡ 0 }
    {
        self.values.clear();
        self.next = 0;
    }

    /// Takes the value of the part that was handed out last.
    ///
    /// # Errors
    /// Want of memory.
    #[inline]
    pub fn supply(&mut self, value: Value) -> Result<(), AllocError>
        ensures values { OnOk result (self.new.values.items ≡ self.old.values.items ++ value ∷ []) }
        ensures next { self.new.next ≡ self.old.next }
    {
        self.values.push(value)?;
        Ok(())
    }

    /// The value that came last.
    fn take(&mut self) -> Value
        ensures value { result ≡ top self.old.values.items }
        ensures values { self.new.values.items ≡ below self.old.values.items }
        ensures next { self.new.next ≡ self.old.next }
    {
        match self.values.pop() {
            Some(value) => value,
            None => Value::empty(),
        }
    }

    /// Applies an operator to the value that came last.
    fn unary(
        &mut self,
        alloc: Global,
        operator: UnaryOperator,
        style: Integers,
    ) -> Result<(), ApplyError>
        ensures pushes { Pushes result (apply_unary style operator (top self.old.values.items))
            (below self.old.values.items) self.new.values.items }
        ensures next { self.new.next ≡ self.old.next }
    {
        let mut operand = self.take();
        let value = apply_unary(alloc, operator, &mut operand, style)?;
        self.supply(value)?;
        Ok(())
    }

    /// Applies an operator to the two values that came last.
    fn binary(
        &mut self,
        alloc: Global,
        operator: BinaryOperator,
        style: Integers,
    ) -> Result<(), ApplyError>
        ensures pushes { Pushes result
            (apply_binary style operator (top (below self.old.values.items))
            (top self.old.values.items)) (below (below self.old.values.items))
            self.new.values.items }
        ensures next { self.new.next ≡ self.old.next }
    {
        let mut right = self.take();
        let mut left = self.take();
        let value = apply_binary(alloc, operator, &mut left, &mut right, style)?;
        self.supply(value)?;
        Ok(())
    }

    /// Applies a function to so many values that came last.
    fn call(&mut self, function: Function, count: usize, style: Integers) -> Result<(), ApplyError>
        ensures pushes { Pushes result (call style function (last_of count self.old.values.items))
            (without count self.old.values.items) self.new.values.items }
        ensures next { self.new.next ≡ self.old.next }
    {
        let start = self.values.len().saturating_sub(count);
        let value = apply_call(function, &mut self.values[start..], style)?;
        self.values.truncate(start);
        self.supply(value)?;
        Ok(())
    }

    /// Whether the second operand is needed, behind the first. Where it isn't, the answer stands
    /// for both.
    fn needs(
        &mut self,
        alloc: Global,
        operator: BinaryOperator,
        style: Integers,
    ) -> Result<bool, ApplyError>
        ensures needs { Needs result style operator (top self.old.values.items)
            (below self.old.values.items)
            self.new.values.items }
        ensures next { self.new.next ≡ self.old.next }
    {
        let mut first = self.take();
        match answer_at(alloc, operator, &mut first, style)? {
            Some(value) => {
                self.supply(value)?;
                Ok(false)
            }
            None => {
                self.supply(first)?;
                Ok(true)
            }
        }
    }

    /// The truth of the value that came last, which goes.
    fn decides(&mut self, alloc: Global, style: Integers) -> Result<bool, ApplyError>
        ensures truth { Gives result (truth style (top self.old.values.items)) }
        ensures values { self.new.values.items ≡ below self.old.values.items }
        ensures next { self.new.next ≡ self.old.next }
    {
        let mut value = self.take();
        truth_of(alloc, &mut value, style)
    }

    /// Leaves out the steps up to the mark that ends what isn't needed.
    fn skip(&mut self, nodes: &[Node])
        ensures later { self.old.next ≤ self.new.next }
        ensures goes { (style : Style) (s : List Bytes) →
            goes style (drop self.old.next nodes.now) (leaving 0) s
            ≡ from style nodes.now self.new.next s }
        ensures values { self.new.values.items ≡ self.old.values.items }
    {
        let mut depth = 0;
        'marks: while let Some(node) = nodes.get(self.next) {
            self.next += 1;
            match passed(node, depth) {
                Some(deeper) => depth = deeper,
                None => return,
            }
        }
    }

    /// Does a step, behind which the next one stands. What is to be substituted is handed out.
    fn act<'t>(
        &mut self,
        alloc: Global,
        nodes: &'t [Node],
        node: &'t Node,
        style: Integers,
    ) -> Result<Option<&'t Operand>, ApplyError>
        ensures later { self.old.next ≤ self.new.next }
        ensures acts { Acts
            (λ w. w.now) result (does style node.now self.old.values.items
            (goes style (drop self.old.next nodes.now)))
            (from style nodes.now self.new.next self.new.values.items)
            (λ v. from style nodes.now self.new.next (self.new.values.items ++ v ∷ [])) }
    {
        match node {
            Node::Operand(Leaf::Literal(value)) => {
                self.supply(value.clone()?)?;
                Ok(None)
            }
            Node::Operand(Leaf::Substituted(operand)) => Ok(Some(operand)),
            Node::Unary(operator) => {
                self.unary(alloc, *operator, style)?;
                Ok(None)
            }
            Node::Binary(operator) => {
                self.binary(alloc, *operator, style)?;
                Ok(None)
            }
            Node::Call(function, count) => {
                self.call(*function, *count, style)?;
                Ok(None)
            }
            Node::Needed(operator) => {
                if self.needs(alloc, *operator, style)? {
                    return Ok(None);
                }
                self.skip(nodes);
                Ok(None)
            }
            Node::Question => {
                if self.decides(alloc, style)? {
                    return Ok(None);
                }
                self.skip(nodes);
                Ok(None)
            }
            Node::Colon => {
                self.skip(nodes);
                Ok(None)
            }
            Node::Choice => Ok(None),
        }
    }

    /// Goes on to the next part that is to be substituted, or to the end. Fewer steps are left
    /// behind each part, so this can be asked for no longer than the expression is long.
    ///
    /// # Errors
    /// The refusal of an operator, a function or a truth value, of which [`OperatorFault`] tells;
    /// want of memory. The evaluation is then over, and can only be restarted.
    pub fn advance<'t>(
        &mut self,
        alloc: Global,
        tree: &'t ExprTree,
        style: Integers,
    ) -> Result<Progress<'t>, ApplyError>
        ensures nearer { Nears result (length tree.now.nodes.items - self.old.next)
            (length tree.now.nodes.items - self.new.next) }
        ensures computes { Advances result
            (from style tree.now.nodes.items self.old.next self.old.values.items)
            (λ v. from style tree.now.nodes.items self.new.next (self.new.values.items ++ v ∷ [])) }
    {
        self.run(alloc, tree.nodes.as_slice(), style)
    }

    /// Does step after step, up to the next part that is to be substituted, or to the end.
    fn run<'t>(
        &mut self,
        alloc: Global,
        nodes: &'t [Node],
        style: Integers,
    ) -> Result<Progress<'t>, ApplyError>
        ensures nearer { Nears result (length nodes.now - self.old.next)
            (length nodes.now - self.new.next) }
        ensures computes { Advances result
            (from style nodes.now self.old.next self.old.values.items)
            (λ v. from style nodes.now self.new.next (self.new.values.items ++ v ∷ [])) }
    {
        'steps: while let Some(node) = nodes.get(self.next) {
            self.next += 1;
            if let Some(operand) = self.act(alloc, nodes, node, style)? {
                return Ok(Progress::Wants(operand));
            }
        }
        Ok(Progress::Done(self.take()))
    }
}

/// 1 or 0.
fn answer(truth: bool) -> Value
    ensures { result ≡ answer truth }
{
    Value::from_int(if truth { 1 } else { 0 })
}

/// The answer of an operator, where its first operand tells it: of `&&` where that is false, and of
/// `||` where it is true.
fn answer_at(
    alloc: Global,
    operator: BinaryOperator,
    first: &mut Value,
    style: Integers,
) -> Result<Option<Value>, ApplyError>
    ensures answers { Answers result style operator first.old }
    ensures text { first.new ≡ first.old }
{
    match operator {
        BinaryOperator::And => {
            if truth_of(alloc, first, style)? {
                Ok(None)
            } else {
                Ok(Some(answer(false)))
            }
        }
        BinaryOperator::Or => {
            if truth_of(alloc, first, style)? {
                Ok(Some(answer(true)))
            } else {
                Ok(None)
            }
        }
        _ => Ok(None),
    }
}

/// Whether a function takes so many arguments.
fn takes(function: Function, arguments: &[Value]) -> bool
    ensures { result ≡ takes function arguments.now }
{
    match function {
        Function::Absolute => arguments.len() == 1,
        Function::Least | Function::Greatest => !arguments.is_empty(),
    }
}

/// What a function makes of its arguments.
fn apply_call(
    function: Function,
    arguments: &mut [Value],
    style: Integers,
) -> Result<Value, OperatorFault>
    ensures value { result ≡ call style function arguments.old }
    ensures arguments { arguments.new ≡ arguments.old }
{
    if takes(function, arguments) {
        apply_func(function, arguments, style)
    } else {
        Err(OperatorFault::NotNumeric(Operator::Function(function)))
    }
}

/// How many marks stand between a step that is left out, where so many stood before it, and the one
/// that ends what isn't needed. None where that is this step.
pub(crate) fn passed(node: &Node, depth: usize) -> Option<usize>
    requires { depth < 2 ^ 63 }
    ensures { passed node.now depth ≡ mode_of result }
{
    match node {
        Node::Needed(_) | Node::Question => Some(depth + 1),
        Node::Binary(BinaryOperator::And | BinaryOperator::Or) | Node::Choice => {
            depth.checked_sub(1)
        }
        Node::Colon if depth == 0 => None,
        _ => Some(depth),
    }
}
