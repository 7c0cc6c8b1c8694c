//! What becomes of a key's value.
ghost use Rattle.std.specs.Prelude.{◌≡◌, ◌++◌, ◌+ℤ◌, ℕ, List, Err, pos, IfOk};
ghost use Rattle.std.specs.Option.{option_copied};
ghost use Rattle.tcl_words.specs.Outcomes.{Gives, Refuses};
ghost use Rattle.tcl_words.specs.Limits.{limited};
ghost use Rattle.tcl_lists.specs.Nested.{value_or_empty};
ghost use Rattle.tcl_dicts.specs.Changing.{integer_or, overflow, number_value, incremented, joined};
ghost use Rattle.tcl_dicts.specs.Changing.{appended, lengthened};

use std::alloc::Global;
use tcl_arithmetic::sum;
use tcl_lists::lengthening;
use tcl_lists::reading::own_integer;
use tcl_lists::refusing::not_made;
use tcl_text::integer::Integers;
use tcl_text::messages::OVERFLOW;
use tcl_text::text::Text;
use tcl_value::value::Value;
use tcl_words::refusal::Refusal;

/// The integer of a value, or another one where there is none.
fn integer_or(
    alloc: Global,
    other: i64,
    style: Integers,
    found: Option<Value>,
) -> Result<i64, Refusal>
    ensures { Gives (λ n. n) result (integer_or other style found) }
{
    match found {
        Some(value) => {
            let mut own = value;
            own_integer(alloc, style, &mut own)
        }
        None => Ok(other),
    }
}

/// The value of a word that may be left out.
fn own_word(word: Option<&Value>) -> Result<Option<Value>, Refusal>
    ensures { Gives (λ own. own) result (Ok (option_copied word.entry)) }
{
    match word {
        Some(value) => Ok(Some(value.clone()?)),
        None => Ok(None),
    }
}

/// What is told of a number that takes more than 64 bits (212).
fn overflow(alloc: Global) -> Refusal
    ensures { Refuses {X = List ℕ} result (Err overflow) }
{
    match Text::new(alloc, OVERFLOW) {
        Ok(text) => Refusal::Fault(text),
        Err(_) => Refusal::Memory,
    }
}

/// The sum of two numbers as a value.
fn sum_value(alloc: Global, a: i64, b: i64) -> Result<Value, Refusal>
    ensures { Gives (λ value. value) result (number_value (a +ℤ b)) }
{
    match sum(a, b) {
        Ok(n) => Ok(Value::from_int(n)),
        Err(_) => Err(overflow(alloc)),
    }
}

/// A number, which is 0 where there is none, with another one added, which is 1 where none is
/// given.
pub(crate) fn incremented(
    alloc: Global,
    style: Integers,
    by: Option<&Value>,
    found: Option<Value>,
) -> Result<Value, Refusal>
    ensures { Gives (λ value. value) result (incremented style (option_copied by.entry) found) }
{
    let old = integer_or(alloc, 0, style, found)?;
    let by = own_word(by)?;
    let more = integer_or(alloc, 1, style, by)?;
    sum_value(alloc, old, more)
}

/// What was found, or the empty value.
fn or_empty(found: Option<Value>) -> Value
    ensures { result ≡ value_or_empty found }
{
    match found {
        Some(value) => value,
        None => Value::empty(),
    }
}

/// A value with the texts of words behind its own.
fn with_texts(alloc: Global, value: Value, words: &[Value]) -> Result<Value, Refusal>
    ensures { Gives (λ value. value) result (limited (value ++ joined words.now)) }
{
    let mut made = value;
    'words: for word in words {
        let text = word.text(alloc)?;
        if let Err(why) = made.append(alloc, text.as_str()) {
            return Err(not_made(alloc, why));
        }
    }
    made.keeps_limit();
    Ok(made)
}

/// The texts of words behind one another, where a value may have so long a text.
pub(crate) fn joined(alloc: Global, words: &[Value]) -> Result<Text, Refusal>
    ensures { IfOk result (λ text. text ≡ joined words.now) }
{
    if let [word] = words {
        return Ok(word.text(alloc)?);
    }
    let made = with_texts(alloc, Value::empty(), words)?;
    Ok(made.text(alloc)?)
}

/// A value, which is empty where there is none, with the texts of words behind its own.
pub(crate) fn appended(
    alloc: Global,
    words: &[Value],
    found: Option<Value>,
) -> Result<Value, Refusal>
    ensures { Gives (λ value. value) result (appended words.now found) }
{
    with_texts(alloc, or_empty(found), words)
}

/// A list, which is empty where there is none, with words behind its elements.
pub(crate) fn lengthened(
    alloc: Global,
    words: &[Value],
    found: Option<Value>,
) -> Result<Value, Refusal>
    ensures { Gives (λ value. value) result (lengthened words.now found) }
{
    let mut made = or_empty(found);
    lengthening::lappend(alloc, &mut made, words)?;
    Ok(made)
}
