//! How commands end that are functions of their words.
ghost use Rattle.std.specs.Prelude.{◌≡◌, IfOk};
ghost use Rattle.tcl_language.specs.Variables.{is_odd};
ghost use Rattle.tcl_commands.specs.Answers.{IsGiven};
ghost use Rattle.tcl_words.specs.Outcomes.{Outcome, Gives, answer_text};
ghost use Rattle.tcl_value.specs.Limits.{IsWithin};

use std::alloc::{AllocError, Global};
use tcl_run::failure::failure;
use tcl_run::interruption::Interruption;
use tcl_text::text::Text;
use tcl_value::value::Value;
use tcl_words::answer::Answer;
use tcl_words::refusal::Refusal;

/// The end of a command that gives a value or refuses its words.
pub fn answered(alloc: Global, given: Result<Value, Refusal>) -> Result<Value, Interruption>
    ensures { (outcome : Outcome) → Gives (λ value. value) given outcome → IsGiven outcome result }
{
    match given {
        Ok(value) => Ok(value),
        Err(Refusal::Fault(message)) => Err(failure(alloc, message)),
        Err(Refusal::Memory) => Err(Interruption::Memory),
    }
}

/// The texts of values.
pub(crate) fn texts_of(alloc: Global, values: &[Value]) -> Result<Vec<Text>, AllocError>
    ensures { IfOk result (λ texts. texts.items ≡ values.now) }
{
    let mut texts = Vec::with_capacity(alloc, values.len())?;
    'values: for value in values {
        texts.push(value.text(alloc)?)?;
    }
    Ok(texts)
}

/// The value of an answer.
pub(crate) fn answer_value(answer: Answer) -> Value
    requires { IsWithin (answer_text answer) }
    ensures { result ≡ answer_text answer }
{
    match answer {
        Answer::Text(text) => Value::from_short_text(text),
        Answer::Number(n) => Value::from_int(n),
    }
}

/// Whether there is an odd number of words.
pub(crate) fn is_odd(words: &[Value]) -> bool
    ensures { result ≡ is_odd words.now }
{
    words.len() % 2 == 1
}
