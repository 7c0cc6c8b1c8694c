//! Operators and functions applied to values that are at hand. An operator or a function is named
//! as it is written, and `truth` is whether a text is true.
use crate::text_rows::answers::{no_call, text as show, whether};
use std::alloc::{AllocError, Global};
use tcl_expr::operator::{BinaryOperator, Function, UnaryOperator};
use tcl_expression_evaluation::apply::{apply_binary, apply_func, apply_unary, truth_of};
use tcl_expression_evaluation::fault::{ApplyError, OperatorFault};
use tcl_text::integer::Integers;
use tcl_text::text::Text;
use tcl_value::value::Value;

/// The operator before its operand that is written so.
fn unary(symbol: &str) -> Option<UnaryOperator> {
    match symbol {
        "-" => Some(UnaryOperator::Negate),
        "+" => Some(UnaryOperator::Plus),
        "~" => Some(UnaryOperator::Complement),
        "!" => Some(UnaryOperator::Not),
        _ => None,
    }
}

/// The operator between its operands that is written so, of those that rows name.
fn binary(symbol: &str) -> Option<BinaryOperator> {
    match symbol {
        "-" => Some(BinaryOperator::Subtract),
        "==" => Some(BinaryOperator::Equal),
        "&&" => Some(BinaryOperator::And),
        _ => None,
    }
}

/// The function of several numbers that is written so.
fn choice(symbol: &str) -> Option<Function> {
    match symbol {
        "min" => Some(Function::Least),
        "max" => Some(Function::Greatest),
        _ => None,
    }
}

/// A value of a text.
fn value(text: &Text) -> Result<Value, AllocError> {
    match Value::from_text(text.clone()?) {
        Ok(value) => Ok(value),
        Err(_) => Err(AllocError),
    }
}

/// The text of a result, or what is told of its fault.
fn outcome(alloc: Global, outcome: Result<Value, ApplyError>) -> Result<String, AllocError> {
    match outcome {
        Ok(value) => show(alloc, &value.text(alloc)?),
        Err(ApplyError::Memory) => Err(AllocError),
        Err(ApplyError::Fault(fault)) => show(alloc, &fault.message(alloc)?),
    }
}

/// What an operator makes of the operand behind it.
fn before(
    alloc: Global,
    style: Integers,
    operator: UnaryOperator,
    operand: &Text,
) -> Result<String, AllocError> {
    let mut operand = value(operand)?;
    outcome(alloc, apply_unary(alloc, operator, &mut operand, style))
}

/// What an operator makes of the operands on both sides.
fn between(
    alloc: Global,
    style: Integers,
    operator: BinaryOperator,
    left: &Text,
    right: &Text,
) -> Result<String, AllocError> {
    let mut left = value(left)?;
    let mut right = value(right)?;
    outcome(
        alloc,
        apply_binary(alloc, operator, &mut left, &mut right, style),
    )
}

/// What the function of a number's size makes of an operand.
fn size(alloc: Global, style: Integers, operand: &Text) -> Result<String, AllocError> {
    let mut operands = [value(operand)?];
    let size = apply_func(Function::Absolute, &mut operands, style);
    outcome(alloc, size.map_err(ApplyError::Fault))
}

/// What a function that chooses makes of three operands.
fn chosen(
    alloc: Global,
    style: Integers,
    function: Function,
    texts: (&Text, &Text, &Text),
) -> Result<String, AllocError> {
    let mut operands = [value(texts.0)?, value(texts.1)?, value(texts.2)?];
    let chosen = match function {
        Function::Absolute => Err(OperatorFault::TooLarge),
        Function::Least | Function::Greatest => apply_func(function, &mut operands, style),
    };
    outcome(alloc, chosen.map_err(ApplyError::Fault))
}

/// Whether a text is true.
fn truth(alloc: Global, style: Integers, text: &Text) -> Result<String, AllocError> {
    let mut value = value(text)?;
    match truth_of(alloc, &mut value, style) {
        Ok(truth) => whether(alloc, truth),
        Err(fault) => outcome(alloc, Err(fault)),
    }
}

/// What is made of one operand.
fn of_one(
    alloc: Global,
    style: Integers,
    symbol: &str,
    operand: &Text,
) -> Result<String, AllocError> {
    match (unary(symbol), symbol) {
        (Some(operator), _) => before(alloc, style, operator, operand),
        (None, "abs") => size(alloc, style, operand),
        (None, "truth") => truth(alloc, style, operand),
        (None, _) => no_call(alloc),
    }
}

/// What an operator or a function makes of its operands.
pub(crate) fn apply(
    alloc: Global,
    style: Integers,
    symbol: &str,
    operands: &[Text],
) -> Result<String, AllocError> {
    match operands {
        [operand] => of_one(alloc, style, symbol, operand),
        [left, right] => match binary(symbol) {
            Some(operator) => between(alloc, style, operator, left, right),
            None => no_call(alloc),
        },
        [one, two, three] => match choice(symbol) {
            Some(function) => chosen(alloc, style, function, (one, two, three)),
            None => no_call(alloc),
        },
        _ => no_call(alloc),
    }
}
