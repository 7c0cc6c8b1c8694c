//! What becomes of an expression's value.
ghost use Rattle.std.specs.Prelude.{◌≡◌};
ghost use Rattle.tcl_expression_evaluation.specs.Computations.{final};

use crate::fault::OperatorFault;
use tcl_text::integer::{IntegerFault, Integers};
use tcl_value::value::Value;

/// The result of an expression of which this is the value: an integer text is written in decimal,
/// and any other text is itself, as `expr(n)` has it.
///
/// # Errors
/// 112 where the value is an integer text out of range.
pub fn final_value(value: Value, style: Integers) -> Result<Value, OperatorFault>
    ensures { result ≡ final style value }
{
    let mut value = value;
    match value.as_int(style) {
        Ok(number) => Ok(Value::from_int(number)),
        Err(IntegerFault::NotInteger) => Ok(value),
        Err(IntegerFault::TooLarge) => Err(OperatorFault::TooLarge),
    }
}
