//! What the operators between two operands do.
ghost use Rattle.std.specs.Prelude.{◌≡◌};
ghost use Rattle.tcl_expression_evaluation.specs.Kinds.{kind_of};

use tcl_expr::operator::BinaryOperator;

/// An operator that makes a whole number of two.
#[derive(Clone, Copy)]
pub enum Arithmetic {
    /// A product of so many equal factors.
    Power,
    /// A product.
    Multiply,
    /// A quotient, rounded down.
    Divide,
    /// What is left of a division, with the sign of the divisor.
    Remainder,
    /// A sum.
    Add,
    /// A difference.
    Subtract,
    /// A product with a power of two.
    ShiftLeft,
    /// A quotient of a power of two, rounded down.
    ShiftRight,
    /// The digits that both numbers have.
    BitAnd,
    /// The digits that one of the numbers alone has.
    BitXor,
    /// The digits that either number has.
    BitOr,
}

/// A question about the order of two values.
#[derive(Clone, Copy)]
pub enum Comparison {
    /// Whether the first comes before the second.
    Less,
    /// Whether the first comes behind the second.
    Greater,
    /// Whether the first doesn't come behind the second.
    AtMost,
    /// Whether the first doesn't come before the second.
    AtLeast,
    /// Whether neither comes before the other.
    Equal,
    /// Whether one comes before the other.
    Unequal,
}

/// What an operator does with its operands.
#[derive(Clone, Copy)]
pub enum Kind {
    /// It computes with whole numbers.
    Arithmetic(Arithmetic),
    /// It compares numbers or texts.
    Comparison(Comparison),
    /// It tells whether two texts are the same.
    SameText,
    /// It tells whether two texts differ.
    OtherText,
    /// It tells whether a text is among the elements of a list.
    Within,
    /// It tells whether a text is none of the elements of a list.
    Without,
    /// It tells whether both operands are true.
    And,
    /// It tells whether an operand is true.
    Or,
}

/// What an operator does.
pub fn kind_of(operator: BinaryOperator) -> Kind
    ensures { result ≡ kind_of operator }
{
    match operator {
        BinaryOperator::Power => Kind::Arithmetic(Arithmetic::Power),
        BinaryOperator::Multiply => Kind::Arithmetic(Arithmetic::Multiply),
        BinaryOperator::Divide => Kind::Arithmetic(Arithmetic::Divide),
        BinaryOperator::Remainder => Kind::Arithmetic(Arithmetic::Remainder),
        BinaryOperator::Add => Kind::Arithmetic(Arithmetic::Add),
        BinaryOperator::Subtract => Kind::Arithmetic(Arithmetic::Subtract),
        BinaryOperator::ShiftLeft => Kind::Arithmetic(Arithmetic::ShiftLeft),
        BinaryOperator::ShiftRight => Kind::Arithmetic(Arithmetic::ShiftRight),
        BinaryOperator::Less => Kind::Comparison(Comparison::Less),
        BinaryOperator::Greater => Kind::Comparison(Comparison::Greater),
        BinaryOperator::AtMost => Kind::Comparison(Comparison::AtMost),
        BinaryOperator::AtLeast => Kind::Comparison(Comparison::AtLeast),
        BinaryOperator::Equal => Kind::Comparison(Comparison::Equal),
        BinaryOperator::Unequal => Kind::Comparison(Comparison::Unequal),
        BinaryOperator::SameText => Kind::SameText,
        BinaryOperator::OtherText => Kind::OtherText,
        BinaryOperator::Within => Kind::Within,
        BinaryOperator::Without => Kind::Without,
        BinaryOperator::BitAnd => Kind::Arithmetic(Arithmetic::BitAnd),
        BinaryOperator::BitXor => Kind::Arithmetic(Arithmetic::BitXor),
        BinaryOperator::BitOr => Kind::Arithmetic(Arithmetic::BitOr),
        BinaryOperator::And => Kind::And,
        BinaryOperator::Or => Kind::Or,
    }
}
