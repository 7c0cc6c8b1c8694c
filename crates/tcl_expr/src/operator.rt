//! The operators and functions of expressions.

/// An operator before its operand, as `expr(n)` has it.
#[derive(Clone, Copy)]
pub enum UnaryOperator {
    /// `-x`
    Negate,
    /// `+x`
    Plus,
    /// `~x`
    Complement,
    /// `!x`
    Not,
}

/// An operator between its operands, tightest first, as `expr(n)` has it.
#[derive(Clone, Copy)]
pub enum BinaryOperator {
    /// `**`, which groups to the right
    Power,
    /// `*`
    Multiply,
    /// `/`
    Divide,
    /// `%`
    Remainder,
    /// `+`
    Add,
    /// `-`
    Subtract,
    /// `<<`
    ShiftLeft,
    /// `>>`
    ShiftRight,
    /// `<`
    Less,
    /// `>`
    Greater,
    /// `<=`
    AtMost,
    /// `>=`
    AtLeast,
    /// `==`
    Equal,
    /// `!=`
    Unequal,
    /// `eq`
    SameText,
    /// `ne`
    OtherText,
    /// `in`
    Within,
    /// `ni`
    Without,
    /// `&`
    BitAnd,
    /// `^`
    BitXor,
    /// `|`
    BitOr,
    /// `&&`, which runs its second operand only where the first is true
    And,
    /// `||`, which runs its second operand only where the first is false
    Or,
}

/// A function of whole numbers.
#[derive(Clone, Copy)]
pub enum Function {
    /// `abs(x)`
    Absolute,
    /// `min(x, ..)`
    Least,
    /// `max(x, ..)`
    Greatest,
}
