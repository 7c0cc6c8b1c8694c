//! How answers are written.
use std::alloc::Global;
use std::fmt;
use tcl_value::value::{Value, ValueError};
use tcl_words::refusal::Refusal;

/// What a call answers. A call that can't be read, or for which memory is wanting, has no answer.
pub(crate) type Answer = Result<String, ValueError>;

/// The most bytes of a value that is told by its text.
const MOST_TOLD: usize = 1000;

/// A text.
pub(crate) fn text(alloc: Global, text: &str) -> Answer {
    Ok(String::from_str(alloc, text)?)
}

/// The answer of a call that isn't known, which no row wants.
pub(crate) fn no_call(alloc: Global) -> Answer {
    text(alloc, "no call")
}

/// Whether something is so.
pub(crate) fn yes_or_no(alloc: Global, is_so: bool) -> Answer {
    text(alloc, if is_so { "yes" } else { "no" })
}

/// A count.
pub(crate) fn count(alloc: Global, count: usize) -> Answer {
    Ok(format!(in alloc; "{count}")?)
}

/// `-` for what is done, or the name of the refusal.
pub(crate) fn done<E: fmt::Debug + Drop>(alloc: Global, outcome: Result<(), E>) -> Answer {
    match outcome {
        Ok(()) => text(alloc, "-"),
        Err(error) => Ok(format!(in alloc; "{error:?}")?),
    }
}

/// The text of a value that isn't long. It has as many bytes as are told of it, or both are shown.
fn show_whole(alloc: Global, value: &Value, len: usize) -> Answer {
    let whole = value.text(alloc)?;
    if whole.len() == len {
        return text(alloc, whole.as_str());
    }
    let whole = whole.as_str();
    Ok(format!(in alloc; "{len} bytes: {whole}")?)
}

/// The text of a value, or how many bytes a long one has.
pub(crate) fn show(alloc: Global, value: &Value) -> Answer {
    let len = value.text_len();
    if len > MOST_TOLD {
        return Ok(format!(in alloc; "{len} bytes")?);
    }
    show_whole(alloc, value, len)
}

/// What a value is after a change, or the name of the refusal.
pub(crate) fn changed<E: fmt::Debug + Drop>(
    alloc: Global,
    outcome: Result<(), E>,
    own: &Value,
) -> Answer {
    match outcome {
        Ok(()) => show(alloc, own),
        Err(error) => Ok(format!(in alloc; "{error:?}")?),
    }
}

/// What a value is after a change inside it, or `no` where it isn't changed.
pub(crate) fn changed_inside(alloc: Global, is_changed: bool, own: &Value) -> Answer {
    if is_changed {
        return show(alloc, own);
    }
    text(alloc, "no")
}

/// The message of a refusal.
pub(crate) fn refused(alloc: Global, why: Refusal) -> Answer {
    match why {
        Refusal::Fault(fault) => text(alloc, fault.as_str()),
        Refusal::Memory => Err(ValueError::Memory),
    }
}

/// What a command gives, or the message of its refusal.
pub(crate) fn given(alloc: Global, given: Result<Value, Refusal>) -> Answer {
    match given {
        Ok(value) => show(alloc, &value),
        Err(why) => refused(alloc, why),
    }
}
