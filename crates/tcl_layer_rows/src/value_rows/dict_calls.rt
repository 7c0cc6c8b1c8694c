//! Calls on dicts that stand by themselves.
use crate::value_rows::answers::{Answer, count, done, no_call, show, text, yes_or_no};
use crate::value_rows::reading::number_of;
use std::alloc::Global;
use tcl_text::text::Text;
use tcl_value::dict::Dict;
use tcl_value::value::Value;

/// What a call answers that looks at a dict. `as_value` is the value of the dict.
fn looked(alloc: Global, verb: &str, dict: &Dict) -> Answer {
    match verb {
        "len" => count(alloc, dict.len()),
        "is_empty" => yes_or_no(alloc, dict.is_empty()),
        "is_within" => yes_or_no(alloc, dict.is_within()),
        "as_value" => show(alloc, &Value::from_dict(dict.clone()?)?),
        _ => no_call(alloc),
    }
}

/// The key at a place.
fn key(alloc: Global, dict: &Dict, index: usize) -> Answer {
    if index >= dict.len() {
        return text(alloc, "no key");
    }
    text(alloc, dict.key(index)?.as_str())
}

/// The value at a place.
fn value(alloc: Global, dict: &Dict, index: usize) -> Answer {
    if index >= dict.len() {
        return text(alloc, "no value");
    }
    show(alloc, &dict.value(index)?)
}

/// The value of a key.
fn value_of(alloc: Global, dict: &Dict, key: &Text) -> Answer {
    match dict.get(key)? {
        Some(value) => show(alloc, &value),
        None => text(alloc, "no value"),
    }
}

/// What a call of one word answers.
fn of_one(alloc: Global, verb: &str, dict: &mut Dict, word: &Value) -> Answer {
    let key_text = word.text(alloc)?;
    match verb {
        "key" => key(alloc, dict, number_of(alloc, word)?),
        "value" => value(alloc, dict, number_of(alloc, word)?),
        "get" => value_of(alloc, dict, &key_text),
        "contains_key" => yes_or_no(alloc, dict.contains_key(&key_text)),
        "drop_key" => done(alloc, dict.drop_key(&key_text)),
        "remove" => done(alloc, dict.remove(&key_text)),
        _ => no_call(alloc),
    }
}

/// What a call on a dict answers.
pub(crate) fn of_dict(alloc: Global, verb: &str, dict: &mut Dict, words: &[Value]) -> Answer {
    match words {
        [] => looked(alloc, verb, dict),
        [word] => of_one(alloc, verb, dict, word),
        [key, value] if verb == "set" => done(alloc, dict.set(alloc, key, value.clone()?)),
        [key, value] if verb == "put" => done(alloc, dict.put(alloc, key, value.clone()?)),
        _ => no_call(alloc),
    }
}
