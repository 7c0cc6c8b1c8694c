//! What expressions compute. Behind a bar stands what they asked for. The values of `$s`, `$i` and
//! `$z` are 7, 3 and 0, and that of any other part is a text which is no number.
use crate::text_rows::answers::text as show;
use crate::text_rows::trees::parts_of;
use std::alloc::{AllocError, Global};
use tcl_expr::fault::ExprError;
use tcl_expr::parser::parse_expr;
use tcl_expr::tree::ExprTree;
use tcl_expression_evaluation::evaluation::{Evaluation, Progress};
use tcl_expression_evaluation::fault::ApplyError;
use tcl_expression_evaluation::result::final_value;
use tcl_prepared::operand::Operand;
use tcl_prepared::prepared::{PreparedPart, PreparedWord};
use tcl_text::integer::Integers;
use tcl_text::text::Text;
use tcl_value::value::Value;

/// What is asked for with a part: the name of a variable, or the text of a script.
fn asked_of(part: &PreparedPart) -> &str {
    match part {
        PreparedPart::Variable(name) => name.as_str(),
        PreparedPart::Literal(text) | PreparedPart::Deep(text) | PreparedPart::Element(text) => {
            text.as_str()
        }
        PreparedPart::Bracket(script) => script.text().as_str(),
        PreparedPart::EndElement => "",
    }
}

/// What is asked for with an operand.
fn push_asked(alloc: Global, asked: &mut String, operand: &Operand) -> Result<(), AllocError> {
    if let PreparedWord::Literal(value) = operand.word() {
        value.write_to(alloc, asked)?;
    }
    'parts: for part in parts_of(operand.word()) {
        asked.push_str(asked_of(part))?;
    }
    asked.push_str(";")
}

/// A text that is no number.
fn no_number(alloc: Global) -> Result<Value, AllocError> {
    match Value::from_text(Text::new(alloc, "text")?) {
        Ok(value) => Ok(value),
        Err(_) => Err(AllocError),
    }
}

/// The value of what is asked for.
fn value_of(alloc: Global, operand: &Operand) -> Result<Value, AllocError> {
    let Some(name) = operand.variable() else {
        return Ok(Value::empty());
    };
    match name.as_str() {
        "s" => Ok(Value::from_int(7)),
        "i" => Ok(Value::from_int(3)),
        "z" => Ok(Value::from_int(0)),
        _ => no_number(alloc),
    }
}

/// Supplies what is asked for.
fn supply(
    alloc: Global,
    evaluation: &mut Evaluation,
    operand: &Operand,
    asked: &mut String,
) -> Result<(), AllocError> {
    push_asked(alloc, asked, operand)?;
    evaluation.supply(value_of(alloc, operand)?)
}

/// The text of a value, once it is settled.
fn settled(alloc: Global, value: Value, style: Integers) -> Result<String, AllocError> {
    match final_value(value, style) {
        Ok(value) => show(alloc, &value.text(alloc)?),
        Err(fault) => show(alloc, &fault.message(alloc)?),
    }
}

/// Goes on with an evaluation, and gives its result when it has come to its end.
fn go_on(
    alloc: Global,
    evaluation: &mut Evaluation,
    tree: &ExprTree,
    style: Integers,
    asked: &mut String,
) -> Result<Option<String>, AllocError> {
    match evaluation.advance(alloc, tree, style) {
        Ok(Progress::Wants(operand)) => {
            supply(alloc, evaluation, operand, asked)?;
            Ok(None)
        }
        Ok(Progress::Done(value)) => Ok(Some(settled(alloc, value, style)?)),
        Err(ApplyError::Memory) => Err(AllocError),
        Err(ApplyError::Fault(fault)) => Ok(Some(show(alloc, &fault.message(alloc)?)?)),
    }
}

/// What an evaluation comes to.
fn computed(
    alloc: Global,
    evaluation: &mut Evaluation,
    tree: &ExprTree,
    style: Integers,
) -> Result<String, AllocError> {
    let mut asked = String::new(alloc);
    'parts: for _ in 0..1000 {
        if let Some(mut result) = go_on(alloc, evaluation, tree, style, &mut asked)? {
            if !asked.is_empty() {
                result.push_str("|")?;
                result.push_str(asked.as_str())?;
            }
            return Ok(result);
        }
    }
    String::from_str(alloc, "no end")
}

/// What a tree computes: at once, or once more when it has been computed.
fn evaluated(
    alloc: Global,
    tree: &ExprTree,
    style: Integers,
    again: bool,
) -> Result<String, AllocError> {
    let mut evaluation = Evaluation::new(alloc);
    if again {
        let _first = computed(alloc, &mut evaluation, tree, style)?;
        evaluation.restart();
    }
    computed(alloc, &mut evaluation, tree, style)
}

/// What an expression computes, or what is told of its fault; where it is asked again, what it
/// computes the second time.
pub(crate) fn result(
    alloc: Global,
    text: &str,
    style: Integers,
    again: bool,
) -> Result<String, AllocError> {
    match parse_expr(alloc, text, style) {
        Ok(tree) => evaluated(alloc, &tree, style, again),
        Err(ExprError::Memory) => Err(AllocError),
        Err(ExprError::Fault(fault)) => show(alloc, &fault.message(alloc, text)?),
    }
}
