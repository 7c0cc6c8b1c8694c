//! Calls on lists that stand by themselves.
use crate::value_rows::answers::{Answer, count, done, no_call, show, text, yes_or_no};
use crate::value_rows::reading::number_of;
use std::alloc::Global;
use tcl_value::list::List;
use tcl_value::value::Value;

/// How a list is written, if it isn't too long.
fn written(alloc: Global, list: &List) -> Answer {
    if !list.is_within() {
        return text(alloc, "too long");
    }
    Ok(list.write(alloc)?)
}

/// What a call answers that looks at a list. `as_value` is the value of the list.
fn looked(alloc: Global, verb: &str, list: &List) -> Answer {
    match verb {
        "len" => count(alloc, list.len()),
        "is_empty" => yes_or_no(alloc, list.is_empty()),
        "is_within" => yes_or_no(alloc, list.is_within()),
        "write" => written(alloc, list),
        "as_value" => show(alloc, &Value::from_list(alloc, list.clone()?)?),
        _ => no_call(alloc),
    }
}

/// The element at a place.
fn element(alloc: Global, list: &List, index: usize) -> Answer {
    if index >= list.len() {
        return text(alloc, "no element");
    }
    show(alloc, &list.get(index)?)
}

/// Whether the element at a place is this text.
fn is_at(alloc: Global, list: &List, index: usize, value: &Value) -> Answer {
    if index >= list.len() {
        return text(alloc, "no element");
    }
    let wanted = value.text(alloc)?;
    yes_or_no(alloc, list.is_at(index, wanted.as_str()))
}

/// Puts a value in the place of an element.
fn set(alloc: Global, list: &mut List, index: usize, value: &Value) -> Answer {
    if index >= list.len() {
        return text(alloc, "no element");
    }
    done(alloc, list.set(alloc, index, value.clone()?))
}

/// Adds an element of another list: `List::push_from LIST OTHER INDEX`.
pub(crate) fn push_from(alloc: Global, list: &mut List, other: &List, index: usize) -> Answer {
    if index >= other.len() {
        return text(alloc, "no element");
    }
    done(alloc, list.push_from(other, index))
}

/// What a call on a list answers.
pub(crate) fn of_list(alloc: Global, verb: &str, list: &mut List, words: &[Value]) -> Answer {
    match words {
        [] => looked(alloc, verb, list),
        [index] if verb == "get" => element(alloc, list, number_of(alloc, index)?),
        [value] if verb == "push" => done(alloc, list.push(alloc, value.clone()?)),
        [index, value] if verb == "set" => set(alloc, list, number_of(alloc, index)?, value),
        [index, value] if verb == "is_at" => is_at(alloc, list, number_of(alloc, index)?, value),
        _ => no_call(alloc),
    }
}
