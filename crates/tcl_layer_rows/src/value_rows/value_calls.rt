//! Calls on values, and on what is nested in them.
use crate::value_rows::answers::{
    Answer, changed, changed_inside, count, no_call, refused, show, text, yes_or_no,
};
use crate::value_rows::commands::changed_by_command;
use crate::value_rows::reading::{Call, Verb, number_of, path_of, places_of};
use std::alloc::Global;
use tcl_lists::fault::NestedError;
use tcl_lists::nested::{remove_key, set_element, set_value};
use tcl_text::integer::{IntegerFault, Integers};
use tcl_text::list::ListError;
use tcl_tree::readings::Readings;
use tcl_value::dict_fault::DictError;
use tcl_value::value::{Value, ValueError};
use tcl_words::refusal::Refusal;

/// The number that a value is read as.
fn number(alloc: Global, style: Integers, own: &mut Value) -> Answer {
    match own.as_int(style) {
        Ok(number) => Ok(format!(in alloc; "{number}")?),
        Err(fault) => Ok(format!(in alloc; "{fault:?}")?),
    }
}

/// The number that a value is kept as, if it is one.
fn kept_number(alloc: Global, own: &Value) -> Answer {
    match own.number() {
        Some(number) => Ok(format!(in alloc; "{number}")?),
        None => text(alloc, "none"),
    }
}

/// How many elements the list has that a value is read as.
fn list_len(alloc: Global, own: &mut Value) -> Answer {
    match own.as_list(alloc) {
        Ok(list) => count(alloc, list.len()),
        Err(ListError::Fault(fault)) => text(alloc, fault.message(alloc)?.as_str()),
        Err(ListError::Memory) => Err(ValueError::Memory),
    }
}

/// How many keys the dict has that a value is read as.
fn dict_len(alloc: Global, own: &mut Value) -> Answer {
    match own.as_dict(alloc) {
        Ok(dict) => count(alloc, dict.len()),
        Err(DictError::Fault(fault)) => text(alloc, fault.message(alloc)?.as_str()),
        Err(DictError::Memory) => Err(ValueError::Memory),
    }
}

/// How many commands the script has that a value is.
fn script_len(alloc: Global, own: &mut Value) -> Answer {
    let script = Readings::new(alloc).script_of(alloc, own)?;
    count(alloc, script.commands().len())
}

/// What a call answers that looks at a value: of a list, a dict and a script the number of
/// elements, keys and commands.
fn looked(alloc: Global, style: Integers, verb: &str, own: &mut Value) -> Answer {
    match verb {
        "text" => show(alloc, own),
        "text_len" => count(alloc, own.text_len()),
        "as_int" => number(alloc, style, own),
        "number" => kept_number(alloc, own),
        "as_list" => list_len(alloc, own),
        "as_dict" => dict_len(alloc, own),
        "as_script" => script_len(alloc, own),
        _ => no_call(alloc),
    }
}

/// Counts up the number that a value is read as, so many times.
fn count_up(own: &mut Value, times: usize) -> Result<(), IntegerFault> {
    'counted: for _ in 0..times {
        let number = own.as_int(Integers::Tcl8)?;
        own.set_int(number.wrapping_add(1));
    }
    Ok(())
}

/// What a call of one word answers.
fn of_one(alloc: Global, verb: &str, own: &mut Value, word: &Value) -> Answer {
    let more = word.text(alloc)?;
    match verb {
        "is_text" => yes_or_no(alloc, own.is_text(more.as_str().as_bytes())),
        "same" => yes_or_no(alloc, own.same(word)),
        "count_up" => changed(alloc, count_up(own, number_of(alloc, word)?), own),
        "append" => changed(alloc, own.append(alloc, more.as_str()), own),
        "push" => changed(alloc, own.push(alloc, word.clone()?), own),
        "remove_key" => changed(alloc, own.remove_key(alloc, &more), own),
        _ => no_call(alloc),
    }
}

/// What a value is after a nested change, or why it isn't changed.
fn nested(alloc: Global, outcome: Result<(), NestedError>, own: &Value) -> Answer {
    match outcome {
        Err(NestedError::Fault(fault)) => text(alloc, fault.message(alloc)?.as_str()),
        other => changed(alloc, other, own),
    }
}

/// What a change at a path of keys makes of a value. `remove_nested` is `remove_key` of nested
/// dicts.
fn of_keys(alloc: Global, verb: &str, own: &mut Value, path: &[Value], word: &Value) -> Answer {
    match verb {
        "set_value" => nested(alloc, set_value(alloc, own, path, word.clone()?), own),
        "remove_nested" => nested(alloc, remove_key(alloc, own, path, word), own),
        "set_inside" => changed_inside(alloc, own.set_inside(alloc, path, word), own),
        "append_inside" => {
            let more = word.text(alloc)?;
            changed_inside(alloc, own.append_inside(alloc, path, more), own)
        }
        "remove_inside" => changed_inside(alloc, own.remove_inside(alloc, path, word), own),
        _ => no_call(alloc),
    }
}

/// What a call of two words answers, the first of which is mostly a path.
fn of_two(
    alloc: Global,
    style: Integers,
    verb: &str,
    own: &mut Value,
    words: (&Value, &Value),
) -> Answer {
    let (first, second) = words;
    match verb {
        "set_at" => {
            let index = number_of(alloc, first)?;
            changed(alloc, own.set_at(alloc, index, second.clone()?), own)
        }
        "set_key" => changed(alloc, own.set_key(alloc, first, second.clone()?), own),
        "put_inside" => {
            let places = places_of(alloc, first)?;
            changed_inside(alloc, own.put_inside(alloc, &places, second), own)
        }
        "set_element" => {
            let path = path_of(alloc, first)?;
            let new = second.clone()?;
            nested(alloc, set_element(alloc, style, own, &path, new), own)
        }
        _ => of_keys(alloc, verb, own, &path_of(alloc, first)?, second),
    }
}

/// What a value is after elements were added to a list inside it: `extend_inside VALUE PATH ELEMENT
/// ..`.
fn extended_inside(alloc: Global, own: &mut Value, words: &[Value]) -> Answer {
    match words {
        [path, elements @ ..] => {
            let path = path_of(alloc, path)?;
            changed_inside(alloc, own.extend_inside(alloc, &path, elements), own)
        }
        [] => no_call(alloc),
    }
}

/// What a method of a value answers, by the words behind it.
fn of_method(
    alloc: Global,
    style: Integers,
    verb: &str,
    own: &mut Value,
    words: &[Value],
) -> Answer {
    match verb {
        "extend" => changed(alloc, own.extend(alloc, words), own),
        "extend_inside" => extended_inside(alloc, own, words),
        _ => match words {
            [] => looked(alloc, style, verb, own),
            [word] => of_one(alloc, verb, own, word),
            [first, second] => of_two(alloc, style, verb, own, (first, second)),
            _ => no_call(alloc),
        },
    }
}

/// What a value is after a command changed it, or the message of the refusal.
fn changed_by(alloc: Global, outcome: Result<(), Refusal>, own: &Value) -> Answer {
    match outcome {
        Ok(()) => show(alloc, own),
        Err(why) => refused(alloc, why),
    }
}

/// What a call on a value answers, the first of whose words stands for that value.
pub(crate) fn answered(alloc: Global, call: Call<'_>, own: &mut Value, words: &[Value]) -> Answer {
    if let Some(outcome) = changed_by_command(alloc, call, own, words) {
        return changed_by(alloc, outcome, own);
    }
    match (call.verb, words) {
        (Verb::Plain(verb), [_, rest @ ..]) => of_method(alloc, call.style, verb, own, rest),
        _ => no_call(alloc),
    }
}
