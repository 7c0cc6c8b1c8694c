//! The commands that values are made by, and those that change the value of a variable.
use crate::value_rows::parts::{no_place, written};
use crate::value_rows::reading::{Call, Verb};
use std::alloc::Global;
use tcl_dicts::changing;
use tcl_lists::changing::{lset, lset_words};
use tcl_lists::commands::list;
use tcl_lists::lengthening::lrepeat;
use tcl_text::integer::Integers;
use tcl_value::value::Value;
use tcl_words::refusal::Refusal;

/// What a command gives, or a call below the commands, if it is one that gives a value.
pub(crate) fn given_by_command(
    alloc: Global,
    call: Call<'_>,
    words: &[Value],
) -> Option<Result<Value, Refusal>> {
    match call.verb {
        Verb::Plain("list") => Some(list(alloc, words)),
        Verb::Plain("lrepeat") => Some(lrepeat(alloc, call.style, words)),
        Verb::Plain("write_to") => Some(written(alloc, words)),
        Verb::Plain("no_place") => Some(no_place(alloc)),
        _ => None,
    }
}

/// `lset`
fn set_element(
    alloc: Global,
    style: Integers,
    own: &mut Value,
    words: &[Value],
) -> Result<(), Refusal> {
    let (_own, indexes, new) = lset_words(alloc, words)?;
    lset(alloc, style, own, indexes, new)
}

/// `dict set`
fn set_value(alloc: Global, own: &mut Value, words: &[Value]) -> Result<(), Refusal> {
    let (_own, keys, value) = changing::set_words(alloc, words)?;
    changing::set(alloc, own, keys, value)
}

/// `dict unset`
fn unset_key(alloc: Global, own: &mut Value, words: &[Value]) -> Result<(), Refusal> {
    let (_own, path, key) = changing::unset_words(alloc, words)?;
    changing::unset(alloc, own, path, key)
}

/// `dict append`
fn append_texts(alloc: Global, own: &mut Value, words: &[Value]) -> Result<(), Refusal> {
    let (_own, key, texts) = changing::append_words(alloc, words)?;
    changing::append(alloc, own, key, texts)
}

/// `dict lappend`
fn append_values(alloc: Global, own: &mut Value, words: &[Value]) -> Result<(), Refusal> {
    let (_own, key, values) = changing::lappend_words(alloc, words)?;
    changing::lappend(alloc, own, key, values)
}

/// What comes of a subcommand of `dict` that changes a value.
fn changed_by_dict(
    alloc: Global,
    name: &str,
    own: &mut Value,
    words: &[Value],
) -> Option<Result<(), Refusal>> {
    match name {
        "set" => Some(set_value(alloc, own, words)),
        "unset" => Some(unset_key(alloc, own, words)),
        "append" => Some(append_texts(alloc, own, words)),
        "lappend" => Some(append_values(alloc, own, words)),
        _ => None,
    }
}

/// What comes of a command that changes a value, if it is one. The first word stands for that
/// value, and isn't looked at.
pub(crate) fn changed_by_command(
    alloc: Global,
    call: Call<'_>,
    own: &mut Value,
    words: &[Value],
) -> Option<Result<(), Refusal>> {
    match call.verb {
        Verb::Plain("lset") => Some(set_element(alloc, call.style, own, words)),
        Verb::OfDict(name) => changed_by_dict(alloc, name, own, words),
        _ => None,
    }
}
