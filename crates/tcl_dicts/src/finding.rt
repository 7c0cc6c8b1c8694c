//! The subcommands that read dicts: `get`, `exists`, `size`.
ghost use Rattle.std.specs.Prelude.{◌≡◌, ◌∷◌, Ok, Bool};
ghost use Rattle.tcl_words.specs.Outcomes.{Outcome, Gives};
ghost use Rattle.tcl_words.specs.Limits.{counted};
ghost use Rattle.tcl_dicts.specs.Dicts.{value_at, at_key, at_keys, get_at, get_of, is_given, truth};
ghost use Rattle.tcl_dicts.specs.Dicts.{exists_of, size_of};

use crate::reading::{dict_value, dict_word, unknown_key};
use std::alloc::Global;
use tcl_lists::reading::{first_and_rest, one_word, two_and_rest};
use tcl_text::limit::MOST_BYTES;
use tcl_value::dict::Dict;
use tcl_value::value::Value;
use tcl_words::refusal::{Refusal, too_long};

/// The value of a key.
fn value_at(alloc: Global, dict: &Dict, key: &Value) -> Result<Value, Refusal>
    ensures { Gives (λ value. value) result (value_at dict.now key.now) }
{
    let key = key.text(alloc)?;
    match dict.get(&key)? {
        Some(value) => Ok(value),
        None => Err(unknown_key(alloc, key.as_str())),
    }
}

/// The value of a key in the dict that a value reads as.
fn at_key(alloc: Global, value: &Value, key: &Value) -> Result<Value, Refusal>
    ensures { Gives (λ value. value) result (at_key value.now key.now) }
{
    let dict = dict_word(alloc, value)?;
    value_at(alloc, &dict, key)
}

/// The value of a key in a value, of the next key in that, and so on.
fn at_keys(alloc: Global, value: &Value, keys: &[Value]) -> Result<Value, Refusal>
    ensures { Gives (λ value. value) result (at_keys value.now keys.now) }
{
    let mut at = value.clone()?;
    'keys: for key in keys {
        at = at_key(alloc, &at, key)?;
    }
    Ok(at)
}

/// What stands in a value at keys; without any the dict itself.
fn get_at(alloc: Global, value: &Value, keys: &[Value]) -> Result<Value, Refusal>
    ensures { Gives (λ value. value) result (get_at value.now keys.now) }
{
    match keys {
        [] => {
            let dict = dict_word(alloc, value)?;
            dict_value(alloc, dict)
        }
        _ => at_keys(alloc, value, keys),
    }
}

/// `dict get dictionary ?key ...?`: the value of the first key, of the second key in that, and so
/// on; without a key the dict.
///
/// # Errors
/// 241, 101 to 104, 121, 242, 122; want of memory.
pub fn get(alloc: Global, words: &[Value]) -> Result<Value, Refusal>
    ensures { Gives (λ value. value) result (get_of words.now) }
{
    if let [value, key] = words {
        return at_key(alloc, value, key);
    }
    let (value, keys) = first_and_rest(alloc, words, "dict get dictionary ?key ...?")?;
    get_at(alloc, value, keys)
}

/// What stands in a value at a key, and at further keys in that.
fn at_some_keys(alloc: Global, value: &Value, key: &Value, keys: &[Value]) -> Result<Value, Refusal>
    ensures { Gives (λ value. value) result (at_keys value.now (key.now ∷ keys.now)) }
{
    let found = at_key(alloc, value, key)?;
    at_keys(alloc, &found, keys)
}

/// Whether there is a value, unless memory ran out.
fn is_given(found: Result<Value, Refusal>) -> Result<bool, Refusal>
    ensures { (outcome : Outcome) → Gives (λ value. value) found outcome → Gives {Y = Bool}
        (λ given. given) result (Ok (is_given outcome)) }
{
    match found {
        Ok(_) => Ok(true),
        Err(Refusal::Fault(_)) => Ok(false),
        Err(Refusal::Memory) => Err(Refusal::Memory),
    }
}

/// 1 of what holds and 0 of what doesn't.
fn truth(holds: bool) -> Value
    ensures { truth holds ≡ Ok result }
{
    Value::from_int(i64::from(holds))
}

/// `dict exists dictionary key ?key ...?`: 1 where there is a value for the keys, 0 where one is
/// missing or a value on the way is no dict.
///
/// # Errors
/// 241; want of memory.
pub fn exists(alloc: Global, words: &[Value]) -> Result<Value, Refusal>
    ensures { Gives (λ value. value) result (exists_of words.now) }
{
    let (value, key, keys) = two_and_rest(alloc, words, "dict exists dictionary key ?key ...?")?;
    let given = is_given(at_some_keys(alloc, value, key, keys))?;
    Ok(truth(given))
}

/// `dict size dictionary`: how many keys the dict has.
///
/// # Errors
/// 241, 101 to 104, 121; want of memory.
pub fn size(alloc: Global, words: &[Value]) -> Result<Value, Refusal>
    ensures { Gives (λ value. value) result (size_of words.now) }
{
    let word = one_word(alloc, words, "dict size dictionary")?;
    let dict = dict_word(alloc, word)?;
    count_value(alloc, dict.len())
}

/// A count as a value.
fn count_value(alloc: Global, count: usize) -> Result<Value, Refusal>
    ensures { Gives (λ value. value) result (counted count) }
{
    if count > MOST_BYTES {
        return Err(too_long(alloc));
    }
    Ok(Value::from_int(count as i64))
}
