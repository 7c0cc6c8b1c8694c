//! Adding to the integer that a value is.
ghost use Rattle.std.specs.Fmt.{signed_decimal};
ghost use Rattle.std.specs.Prelude.{◌≡◌, ◌+ℤ◌, IfOk, IfSome, Ok, FitsSigned};
ghost use Rattle.std.specs.Int.{w64};
ghost use Rattle.tcl_core.specs.Endings.Reply.{Completed};
ghost use Rattle.tcl_language.specs.Variables as variables;
ghost use Rattle.tcl_run.specs.Ends.{Interrupts, failing};
ghost use Rattle.tcl_commands.specs.Growing.{GrowsTo};
ghost use Rattle.tcl_commands.specs.Sums.{Reads, added_words, increment, raised, sum_text};

use crate::steps::{integer, integer_of};
use std::alloc::Global;
use tcl_run::failure::plain_failure;
use tcl_run::interruption::Interruption;
use tcl_text::integer::Integers;
use tcl_text::messages::OVERFLOW;
use tcl_value::value::Value;

/// The error of a sum that takes more than 64 bits.
fn overflow(alloc: Global) -> Interruption
    ensures { Interrupts result (λ e. e ≡ Completed (failing variables.overflow)) }
{
    plain_failure(alloc, OVERFLOW)
}

/// What is added: 1, or the integer of the first word.
fn increment(style: Integers, alloc: Global, words: &[Value]) -> Result<i64, Interruption>
    ensures read { Reads (increment style words.now) result }
    ensures fits { IfOk result (λ n. FitsSigned w64 n) }
{
    match words {
        [] => Ok(1),
        [word, ..] => integer_of(style, alloc, word),
    }
}

/// Makes a value the sum of two integers, and gives what it then is.
fn make_sum(alloc: Global, value: &mut Value, n: i64, increment: i64) -> Result<Value, Interruption>
    ensures { GrowsTo value.old (λ _. sum_text (n +ℤ increment)) value.new result }
{
    match n.checked_add(increment) {
        Some(sum) => {
            value.set_int(sum);
            Ok(Value::from_int(sum))
        }
        None => Err(overflow(alloc)),
    }
}

/// What is added, where it is a number at hand.
fn increment_at_hand(words: &[Value]) -> Option<i64>
    ensures { IfSome result (λ n. (style : Integers) → increment style words.now ≡ Ok n) }
{
    match words {
        [] => Some(1),
        [word, ..] => word.number(),
    }
}

/// The sum of a value and what is added to it, where both are numbers at hand and it has 64 bits.
fn sum_at_hand(value: &Value, words: &[Value]) -> Option<i64>
    ensures { IfSome result (λ sum. (style : Integers) →
        raised style words.now value.now ≡ Ok (signed_decimal sum)) }
{
    let n = value.number()?;
    let increment = increment_at_hand(words)?;
    n.checked_add(increment)
}

/// Adds to the integer of a value, and gives what it then is.
#[inline]
pub(crate) fn raise(
    style: Integers,
    alloc: Global,
    value: &mut Value,
    words: &[Value],
) -> Result<Value, Interruption>
    ensures { GrowsTo value.old (raised style words.now) value.new result }
{
    if let Some(sum) = sum_at_hand(value, words) {
        value.set_int(sum);
        return Ok(Value::from_int(sum));
    }
    raise_read(style, alloc, value, words)
}

/// What is added: the number, or 1.
fn number_added(by: Option<i64>) -> i64
    ensures { (style : Integers) → increment style (added_words by) ≡ Ok result }
{
    match by {
        Some(n) => n,
        None => 1,
    }
}

/// The sum of a value and a number, or 1, where the value is a number at hand and it has 64 bits.
#[inline(always)]
fn sum_with(value: &Value, by: Option<i64>) -> Option<i64>
    ensures { IfSome result (λ sum. (style : Integers) →
        raised style (added_words by) value.now ≡ Ok (signed_decimal sum)) }
{
    let n = value.number()?;
    let increment = number_added(by);
    n.checked_add(increment)
}

/// Adds a number, or 1, to the integer of a value, and gives what it then is.
#[inline(always)]
pub(crate) fn raise_value(
    style: Integers,
    alloc: Global,
    value: &mut Value,
    by: Option<i64>,
) -> Result<Value, Interruption>
    ensures { GrowsTo value.old (raised style (added_words by)) value.new result }
{
    if let Some(sum) = sum_with(value, by) {
        value.set_int(sum);
        return Ok(Value::from_int(sum));
    }
    raise_by(style, alloc, value, by)
}

/// The same, whose integer is read. It isn't inlined, so that numbers at hand cost little.
#[inline(never)]
pub(crate) fn raise_by(
    style: Integers,
    alloc: Global,
    value: &mut Value,
    by: Option<i64>,
) -> Result<Value, Interruption>
    ensures { GrowsTo value.old (raised style (added_words by)) value.new result }
{
    match by {
        Some(n) => raise_read(style, alloc, value, &[Value::from_int(n)]),
        None => raise_read(style, alloc, value, &[]),
    }
}

/// The same, whose integers are read.
#[inline(never)]
fn raise_read(
    style: Integers,
    alloc: Global,
    value: &mut Value,
    words: &[Value],
) -> Result<Value, Interruption>
    ensures { GrowsTo value.old (raised style words.now) value.new result }
{
    let n = integer(style, alloc, value)?;
    let increment = increment(style, alloc, words)?;
    make_sum(alloc, value, n, increment)
}
