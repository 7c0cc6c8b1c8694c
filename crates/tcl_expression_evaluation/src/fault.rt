//! Why an operator or a function has no result.
ghost use Rattle.std.specs.Prelude.{◌≡◌, ◌++◌, IfOk, codes};
ghost use Rattle.tcl_expression_evaluation.specs.Messages.{unary_symbol, binary_symbol};
ghost use Rattle.tcl_expression_evaluation.specs.Messages.{function_symbol};
ghost use Rattle.tcl_expression_evaluation.specs.Messages.{symbol_of, arithmetic_message};
ghost use Rattle.tcl_expression_evaluation.specs.Messages.{message_of};
ghost use Rattle.tcl_expression_evaluation.specs.declared.fault.ApplyError.TheVariants.{Memory};

use std::alloc::{AllocError, Global};
use std::fmt;
use tcl_arithmetic::ArithmeticFault;
use tcl_expr::operator::{BinaryOperator, Function, UnaryOperator};
use tcl_text::boolean::not_boolean_message;
use tcl_text::integer::too_large_message;
use tcl_text::list::{ListError, ListFault};
use tcl_text::messages::{OUT_OF_MEMORY, OVERFLOW, TOO_LARGE, quoting};
use tcl_text::text::Text;
use thiserror::Error;

/// What is applied to values.
#[derive(Clone, Copy)]
pub enum Operator {
    /// An operator before its operand.
    Unary(UnaryOperator),
    /// An operator between its operands.
    Binary(BinaryOperator),
    /// A function.
    Function(Function),
}

impl fmt::Debug for Operator {
    fn fmt<W: fmt::Write>(&self, f: &mut fmt::Formatter<W>) -> fmt::Result {
        f.write_str(self.symbol())
    }
}

/// Why values have no result.
#[derive(Debug, Drop, Error)]
pub enum OperatorFault {
    /// 112: an operand is an integer text whose number takes more than 64 bits.
    #[error("112: {}", TOO_LARGE)]
    TooLarge,
    /// 113: this text has no truth value.
    #[error("113: expected boolean value but got \"{0}\"")]
    NotBoolean(Text),
    /// 214: this needs a whole number, and an operand isn't one.
    #[error("214: can't use non-numeric string as operand of \"{}\"", .0.symbol())]
    NotNumeric(Operator),
    /// 212, 213, 215 and 216: the whole numbers have no result.
    #[error(transparent)]
    Arithmetic(ArithmeticFault),
    /// 101 to 104: an operand spells no list.
    #[error(transparent)]
    List(ListFault),
}

/// Why nothing was computed.
#[derive(Debug, Drop, Error)]
pub enum ApplyError {
    /// Memory ran out.
    #[error("{}", OUT_OF_MEMORY)]
    Memory,
    /// The values have no result.
    #[error(transparent)]
    Fault(OperatorFault),
}

impl From<AllocError> for ApplyError {
    ghost from_gives = { λ _ e. e ≡ Memory };

    fn from(_e: AllocError) -> ApplyError {
        ApplyError::Memory
    }
}

impl From<OperatorFault> for ApplyError {
    ghost use Rattle.std.specs.Prelude.{◌≡◌};
    ghost use Rattle.tcl_expression_evaluation.specs.declared.fault.ApplyError.TheVariants.{Fault};

    ghost from_gives = { λ fault e. e ≡ Fault fault };

    fn from(fault: OperatorFault) -> ApplyError {
        ApplyError::Fault(fault)
    }
}

impl From<ListError> for ApplyError {
    ghost use Rattle.std.specs.Prelude.{◌≡◌};
    ghost use Rattle.tcl_expression_evaluation.specs.Apply.{error_of_list};

    ghost from_gives = { λ x e. e ≡ error_of_list x };

    fn from(e: ListError) -> ApplyError {
        match e {
            ListError::Memory => ApplyError::Memory,
            ListError::Fault(fault) => ApplyError::Fault(OperatorFault::List(fault)),
        }
    }
}

impl From<ArithmeticFault> for OperatorFault {
    ghost use Rattle.std.specs.Prelude.{◌≡◌};
    ghost use Rattle.tcl_expression_evaluation.specs.Apply.{fault_of_arithmetic};

    ghost from_gives = { λ fault e. e ≡ fault_of_arithmetic fault };

    fn from(fault: ArithmeticFault) -> OperatorFault {
        OperatorFault::Arithmetic(fault)
    }
}

/// How an operator before its operand is written.
pub fn unary_symbol(operator: UnaryOperator) -> &'static str
    ensures { result.now ≡ unary_symbol operator }
{
    match operator {
        UnaryOperator::Negate => "-",
        UnaryOperator::Plus => "+",
        UnaryOperator::Complement => "~",
        UnaryOperator::Not => "!",
    }
}

/// How an operator between its operands is written.
pub fn binary_symbol(operator: BinaryOperator) -> &'static str
    ensures { result.now ≡ binary_symbol operator }
{
    match operator {
        BinaryOperator::Power => "**",
        BinaryOperator::Multiply => "*",
        BinaryOperator::Divide => "/",
        BinaryOperator::Remainder => "%",
        BinaryOperator::Add => "+",
        BinaryOperator::Subtract => "-",
        BinaryOperator::ShiftLeft => "<<",
        BinaryOperator::ShiftRight => ">>",
        BinaryOperator::Less => "<",
        BinaryOperator::Greater => ">",
        BinaryOperator::AtMost => "<=",
        BinaryOperator::AtLeast => ">=",
        BinaryOperator::Equal => "==",
        BinaryOperator::Unequal => "!=",
        BinaryOperator::SameText => "eq",
        BinaryOperator::OtherText => "ne",
        BinaryOperator::Within => "in",
        BinaryOperator::Without => "ni",
        BinaryOperator::BitAnd => "&",
        BinaryOperator::BitXor => "^",
        BinaryOperator::BitOr => "|",
        BinaryOperator::And => "&&",
        BinaryOperator::Or => "||",
    }
}

/// What a function is called.
pub fn function_name(function: Function) -> &'static str
    ensures { result.now ≡ function_symbol function }
{
    match function {
        Function::Absolute => "abs",
        Function::Least => "min",
        Function::Greatest => "max",
    }
}

impl Operator {
    /// How it is written.
    pub fn symbol(self) -> &'static str
        ensures { result.now ≡ symbol_of self }
    {
        match self {
            Operator::Unary(operator) => unary_symbol(operator),
            Operator::Binary(operator) => binary_symbol(operator),
            Operator::Function(function) => function_name(function),
        }
    }
}

/// What is told of whole numbers that have no result.
fn arithmetic_message(fault: ArithmeticFault) -> &'static str
    ensures { result.now ≡ arithmetic_message fault }
{
    match fault {
        ArithmeticFault::Overflow => OVERFLOW,
        ArithmeticFault::DivideByZero => "divide by zero",
        ArithmeticFault::NegativeShift => "negative shift argument",
        ArithmeticFault::NegativeExponent => "negative exponent",
    }
}

impl OperatorFault {
    /// What an error says of it.
    ///
    /// # Errors
    /// Want of memory.
    pub fn message(&self, alloc: Global) -> Result<Text, AllocError>
        ensures { IfOk result (λ made. made ≡ message_of self.now) }
    {
        match self {
            OperatorFault::TooLarge => too_large_message(alloc),
            OperatorFault::NotBoolean(text) => not_boolean_message(alloc, text.as_str()),
            OperatorFault::NotNumeric(operator) => not_numeric_message(alloc, *operator),
            OperatorFault::Arithmetic(fault) => Text::new(alloc, arithmetic_message(*fault)),
            OperatorFault::List(fault) => fault.message(alloc),
        }
    }
}

/// What is told of an operand that isn't a whole number (214).
fn not_numeric_message(alloc: Global, operator: Operator) -> Result<Text, AllocError>
    ensures { IfOk result (λ made. made
        ≡ codes "can't use non-numeric string as operand of \"" ++ symbol_of operator ++ codes
        "\"") }
{
    let front = "can't use non-numeric string as operand of \"";
    quoting(alloc, front, operator.symbol())
}
