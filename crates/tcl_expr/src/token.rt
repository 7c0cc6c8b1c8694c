//! The tokens that expressions are made of.
use crate::operator::{BinaryOperator, Function, UnaryOperator};
use tcl_prepared::operand::Operand;
use tcl_value::value::Value;

/// What an expression computes with: a literal, or what is substituted when it is evaluated.
#[derive(Drop)]
pub enum Leaf {
    /// A number, a boolean word or a text in braces.
    Literal(Value),
    /// A text in quotes, a variable or a script in brackets: its parts make the value.
    Substituted(Operand),
}

/// A token of an expression.
#[derive(Drop)]
pub enum Token {
    /// An operand.
    Operand(Leaf),
    /// The digits of 9223372036854775808 behind a minus that nothing separates from them: both
    /// together are a literal.
    Lowest(Value),
    /// `+`, before an operand or between two.
    Plus,
    /// `-`, before an operand or between two.
    Minus,
    /// `~` or `!`
    Prefix(UnaryOperator),
    /// Every other operator.
    Infix(BinaryOperator),
    /// A function's name.
    Function(Function),
    /// `(`
    Open,
    /// `)`
    Close,
    /// `,`
    Comma,
    /// `?`
    Question,
    /// `:`
    Colon,
}
