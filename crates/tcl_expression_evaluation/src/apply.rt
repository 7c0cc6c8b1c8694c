//! Operators and functions applied to values.
ghost use Rattle.std.specs.Prelude.{◌≡◌, ◌<◌, pos, neg_ℤ, unsigned_abs, unwrap_or, Ok, Err, IfOk};
ghost use Rattle.std.specs.Prelude.{IfErr};
ghost use Rattle.std.specs.Ordering.{nat_cmp};
ghost use Rattle.std.specs.Str.{bytes_eq};
ghost use Rattle.std.specs.Cmp.Lexicographic.{slice_cmp};
ghost use Rattle.tcl_expression_evaluation.specs.WholeNumbers.{complement_of, computed, in_range};
ghost use Rattle.tcl_expression_evaluation.specs.WholeNumbers.{checked};
ghost use Rattle.tcl_expression_evaluation.specs.Apply.{Gives, integer_read, arithmetic_read};
ghost use Rattle.tcl_expression_evaluation.specs.Apply.{integer, truth};
ghost use Rattle.tcl_expression_evaluation.specs.Apply.{arithmetic, order_read, order, holds};
ghost use Rattle.tcl_expression_evaluation.specs.Apply.{answer, is_among};
ghost use Rattle.tcl_expression_evaluation.specs.Apply.{among, and_then, or_else, apply_binary};
ghost use Rattle.tcl_expression_evaluation.specs.Apply.{apply_unary};
ghost use Rattle.tcl_expression_evaluation.specs.Apply.{chosen, choose, Takes, apply_func};
ghost use Rattle.tcl_value.specs.Limits.{Bytes};

use crate::fault::{ApplyError, Operator, OperatorFault};
use crate::kind::{Arithmetic, Comparison, Kind, kind_of};
use std::alloc::{AllocError, Global};
use std::cmp::Ordering;
use tcl_arithmetic::{
    ArithmeticFault, absolute, bitwise_and, bitwise_or, bitwise_xor, complement, difference,
    negation, power_of, product, quotient, remainder, shift_left, shift_right, sum,
};
use tcl_expr::operator::{BinaryOperator, Function, UnaryOperator};
use tcl_text::boolean::read_bool;
use tcl_text::integer::{IntegerFault, Integers};
use tcl_value::list::List;
use tcl_value::value::Value;

/// What reading an operand as a whole number gives.
fn read_operand(operator: Operator, read: Result<i64, IntegerFault>) -> Result<i64, OperatorFault>
    ensures { result ≡ integer_read operator read }
{
    match read {
        Ok(number) => Ok(number),
        Err(IntegerFault::NotInteger) => Err(OperatorFault::NotNumeric(operator)),
        Err(IntegerFault::TooLarge) => Err(OperatorFault::TooLarge),
    }
}

/// The whole number of an operand.
fn integer_of(operator: Operator, value: &mut Value, style: Integers) -> Result<i64, OperatorFault>
    ensures read { result ≡ integer style operator value.old }
    ensures text { value.new ≡ value.old }
{
    read_operand(operator, value.as_int(style))
}

/// The truth value of a value, as a condition has it: a boolean word, an abbreviation of one, or an
/// integer text, which is false where it is 0.
///
/// # Errors
/// 113 exactly where the text has no truth value; want of memory. The text stays in either case.
pub fn truth_of(alloc: Global, value: &mut Value, style: Integers) -> Result<bool, ApplyError>
    ensures truth { Gives result (truth style value.old) }
    ensures text { value.new ≡ value.old }
{
    if let Ok(number) = value.as_int(style) {
        return Ok(number != 0);
    }
    let text = value.text(alloc)?;
    match read_bool(text.as_str(), style) {
        Ok(truth) => Ok(truth),
        Err(_) => Err(ApplyError::Fault(OperatorFault::NotBoolean(text))),
    }
}

/// 1 or 0.
fn answer(truth: bool) -> Value
    ensures { result ≡ answer truth }
{
    Value::from_int(if truth { 1 } else { 0 })
}

/// Whether two values have the same text.
fn is_same_text(alloc: Global, left: &Value, right: &Value) -> Result<bool, AllocError>
    ensures { IfOk result (λ same. same ≡ bytes_eq left.now right.now) }
{
    Ok(left.text(alloc)? == right.text(alloc)?)
}

/// Whether a value is among the elements of a list.
fn is_element(alloc: Global, value: &Value, list: &List) -> Result<bool, AllocError>
    ensures { IfOk result (λ found. found ≡ is_among value.now list.now) }
{
    'elements: for i in 0..list.len() {
        let element = list.get(i)?;
        if is_same_text(alloc, value, &element)? {
            return Ok(true);
        }
    }
    Ok(false)
}

/// Whether the text of a value is among the elements of the list that another spells.
fn is_among(alloc: Global, value: &Value, list: &mut Value) -> Result<bool, ApplyError>
    ensures found { Gives result (among value.now list.old) }
    ensures text { list.new ≡ list.old }
{
    let list = list.as_list(alloc)?;
    Ok(is_element(alloc, value, &list)?)
}

/// The order of two numbers, where both operands are such. None where texts are to be compared.
fn order_of_numbers(
    left: Result<i64, IntegerFault>,
    right: Result<i64, IntegerFault>,
) -> Result<Option<Ordering>, OperatorFault>
    ensures ordered { IfOk result
        (λ found. (a b : Bytes) → order_read a b left right
        ≡ Ok (unwrap_or found (slice_cmp nat_cmp a b))) }
    ensures refused { IfErr result
        (λ fault. (a b : Bytes) → order_read a b left right ≡ Err fault) }
{
    match (left, right) {
        (Err(IntegerFault::TooLarge), _) | (_, Err(IntegerFault::TooLarge)) => {
            Err(OperatorFault::TooLarge)
        }
        (Ok(x), Ok(y)) => Ok(Some(x.cmp(&y))),
        _ => Ok(None),
    }
}

/// The order of two values: of their numbers where both are integer texts, and otherwise of their
/// texts.
fn order_of(
    alloc: Global,
    left: &mut Value,
    right: &mut Value,
    style: Integers,
) -> Result<Ordering, ApplyError>
    ensures order { Gives result (order style left.old right.old) }
    ensures left { left.new ≡ left.old }
    ensures right { right.new ≡ right.old }
{
    match order_of_numbers(left.as_int(style), right.as_int(style))? {
        Some(order) => Ok(order),
        None => {
            let (x, y) = (left.text(alloc)?, right.text(alloc)?);
            Ok(x.as_str().cmp(y.as_str()))
        }
    }
}

/// Whether an order answers a question.
pub fn holds(comparison: Comparison, order: Ordering) -> bool
    ensures { result ≡ holds comparison order }
{
    match comparison {
        Comparison::Less => order.is_lt(),
        Comparison::Greater => order.is_gt(),
        Comparison::AtMost => order.is_le(),
        Comparison::AtLeast => order.is_ge(),
        Comparison::Equal => order.is_eq(),
        Comparison::Unequal => order.is_ne(),
    }
}

/// The number that an operator makes of two.
///
/// # Errors
/// 212, 213, 215 and 216 of the numbers.
#[inline(always)]
pub fn compute(operator: Arithmetic, x: i64, y: i64) -> Result<i64, ArithmeticFault>
    ensures { result ≡ in_range (computed operator x y) }
{
    match operator {
        Arithmetic::Power => power_of(x, y),
        Arithmetic::Multiply => product(x, y),
        Arithmetic::Divide => quotient(x, y),
        Arithmetic::Remainder => remainder(x, y),
        Arithmetic::Add => sum(x, y),
        Arithmetic::Subtract => difference(x, y),
        Arithmetic::ShiftLeft => shift_left(x, y),
        Arithmetic::ShiftRight => shift_right(x, y),
        Arithmetic::BitAnd => Ok(bitwise_and(x, y)),
        Arithmetic::BitXor => Ok(bitwise_xor(x, y)),
        Arithmetic::BitOr => Ok(bitwise_or(x, y)),
    }
}

/// What an operator makes of two whole numbers.
fn apply_arithmetic(
    operator: BinaryOperator,
    computation: Arithmetic,
    left: &mut Value,
    right: &mut Value,
    style: Integers,
) -> Result<Value, OperatorFault>
    ensures value { result ≡ arithmetic style operator computation left.old right.old }
    ensures left { left.new ≡ left.old }
    ensures right { right.new ≡ right.old }
{
    let x = integer_of(Operator::Binary(operator), left, style)?;
    let y = integer_of(Operator::Binary(operator), right, style)?;
    Ok(Value::from_int(compute(computation, x, y)?))
}

/// What `&&` makes of the truth of its first operand and of its second, which is looked at where
/// the first is true.
fn apply_and(
    alloc: Global,
    left: bool,
    right: &mut Value,
    style: Integers,
) -> Result<Value, ApplyError>
    ensures value { Gives result (and_then style left right.old) }
    ensures right { right.new ≡ right.old }
{
    if !left {
        return Ok(answer(false));
    }
    Ok(answer(truth_of(alloc, right, style)?))
}

/// What `||` makes of the truth of its first operand and of its second, which is looked at where
/// the first is false.
fn apply_or(
    alloc: Global,
    left: bool,
    right: &mut Value,
    style: Integers,
) -> Result<Value, ApplyError>
    ensures value { Gives result (or_else style left right.old) }
    ensures right { right.new ≡ right.old }
{
    if left {
        return Ok(answer(true));
    }
    Ok(answer(truth_of(alloc, right, style)?))
}

/// What an operator makes of two values, as `expr(n)` has it. Both operands of `&&` and `||` are at
/// hand here: the second is looked at only where it tells the result.
///
/// # Errors
/// The operands are looked at from the left. 112 where an integer text is out of range, in
/// comparisons too; 214 where a number is needed and a text is no integer; 113 where a truth value
/// is needed and a text has none; 101 to 104 where a text spells no list; then 212, 213, 215 and
/// 216 of the numbers. Want of memory. The operands' texts stay.
pub fn apply_binary(
    alloc: Global,
    operator: BinaryOperator,
    left: &mut Value,
    right: &mut Value,
    style: Integers,
) -> Result<Value, ApplyError>
    ensures value { Gives result (apply_binary style operator left.old right.old) }
    ensures left { left.new ≡ left.old }
    ensures right { right.new ≡ right.old }
{
    match kind_of(operator) {
        Kind::Arithmetic(computation) => {
            Ok(apply_arithmetic(operator, computation, left, right, style)?)
        }
        Kind::Comparison(comparison) => {
            let order = order_of(alloc, left, right, style)?;
            Ok(answer(holds(comparison, order)))
        }
        Kind::SameText => Ok(answer(is_same_text(alloc, left, right)?)),
        Kind::OtherText => Ok(answer(!is_same_text(alloc, left, right)?)),
        Kind::Within => Ok(answer(is_among(alloc, left, right)?)),
        Kind::Without => Ok(answer(!is_among(alloc, left, right)?)),
        Kind::And => {
            let truth = truth_of(alloc, left, style)?;
            apply_and(alloc, truth, right, style)
        }
        Kind::Or => {
            let truth = truth_of(alloc, left, style)?;
            apply_or(alloc, truth, right, style)
        }
    }
}

/// What an operator makes of the value behind it, as `expr(n)` has it.
///
/// # Errors
/// 112 and 214 of an operand that has to be a whole number, and 113 of the operand of `!`; 212 of
/// the least number behind a minus. Want of memory. The operand's text stays.
pub fn apply_unary(
    alloc: Global,
    operator: UnaryOperator,
    operand: &mut Value,
    style: Integers,
) -> Result<Value, ApplyError>
    ensures value { Gives result (apply_unary style operator operand.old) }
    ensures operand { operand.new ≡ operand.old }
{
    match operator {
        UnaryOperator::Negate => {
            let number = integer_of(Operator::Unary(operator), operand, style)?;
            Ok(Value::from_int(negate(number)?))
        }
        UnaryOperator::Plus => {
            let number = integer_of(Operator::Unary(operator), operand, style)?;
            Ok(Value::from_int(number))
        }
        UnaryOperator::Complement => {
            let number = integer_of(Operator::Unary(operator), operand, style)?;
            Ok(Value::from_int(inverted(number)))
        }
        UnaryOperator::Not => Ok(answer(!truth_of(alloc, operand, style)?)),
    }
}

/// The number on the other side of zero.
fn negate(number: i64) -> Result<i64, OperatorFault>
    ensures { result ≡ arithmetic_read (checked (neg_ℤ number)) }
{
    Ok(negation(number)?)
}

/// The number of the other digits.
fn inverted(number: i64) -> i64
    ensures { result ≡ complement_of number }
{
    complement(number)
}

/// The size of a number.
fn size_of(number: i64) -> Result<i64, OperatorFault>
    ensures { result ≡ arithmetic_read (checked (pos (unsigned_abs number))) }
{
    Ok(absolute(number)?)
}

/// The one of two numbers that a function chooses.
fn choose(function: Function, x: i64, y: i64) -> i64
    ensures { result ≡ chosen function x y }
{
    match function {
        Function::Absolute => x,
        Function::Least => x.min(y),
        Function::Greatest => x.max(y),
    }
}

/// The one that a function chooses among a number and those of more operands.
fn choose_among(
    function: Function,
    first: i64,
    others: &mut [Value],
    style: Integers,
) -> Result<i64, OperatorFault>
    ensures chosen { result ≡ choose style function first others.old }
    ensures texts { others.new ≡ others.old }
{
    let mut best = first;
    'others: for i in 0..others.len() {
        let number = integer_of(Operator::Function(function), &mut others[i], style)?;
        best = choose(function, best, number);
    }
    Ok(best)
}

/// What a function makes of values, as `expr(n)` has it: the size of one, or the least or greatest
/// of all.
///
/// # Errors
/// From the left, 112 and 214 of an operand that isn't a whole number; 212 of the size of the least
/// number. The operands' texts stay.
pub fn apply_func(
    function: Function,
    operands: &mut [Value],
    style: Integers,
) -> Result<Value, OperatorFault>
    requires { Takes function operands.old }
    ensures value { result ≡ apply_func style function operands.old }
    ensures operands { operands.new ≡ operands.old }
{
    let Some((first, others)) = operands.split_first_mut() else {
        return Err(OperatorFault::NotNumeric(Operator::Function(function)));
    };
    let number = integer_of(Operator::Function(function), first, style)?;
    let best = choose_among(function, number, others, style)?;
    match function {
        Function::Absolute => Ok(Value::from_int(size_of(best)?)),
        Function::Least | Function::Greatest => Ok(Value::from_int(best)),
    }
}
