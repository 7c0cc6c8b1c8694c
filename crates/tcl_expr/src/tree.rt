//! Expressions as they are kept.
use crate::operator::{BinaryOperator, Function, UnaryOperator};
use crate::token::Leaf;

/// A step of computing an expression.
#[derive(Drop)]
pub enum Node {
    /// An operand is taken.
    Operand(Leaf),
    /// An operator is applied to the last value.
    Unary(UnaryOperator),
    /// `&&` or `||`: the last value tells whether the second operand is needed.
    Needed(BinaryOperator),
    /// An operator is applied to the last two values.
    Binary(BinaryOperator),
    /// The last value tells which operand of a choice is needed.
    Question,
    /// The second operand of a choice ends.
    Colon,
    /// The third operand of a choice ends.
    Choice,
    /// A function is applied to so many values.
    Call(Function, usize),
}

/// An expression, kept flat: the steps of computing it, in order. However long the expression is,
/// no value here holds another of its type.
#[derive(Drop)]
pub struct ExprTree {
    /// The steps: those of an operand before those of its operator.
    pub nodes: Vec<Node>,
}
