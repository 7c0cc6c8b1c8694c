//! The elements of arrays, as they are listed.
ghost use Rattle.std.specs.Prelude.{◌≡◌, ◌<◌, ◌+◌, ◌++◌, length, drop, IfOk, OnOk};
ghost use Rattle.std.specs.Map.{keys_of};
ghost use Rattle.std.specs.Option.{option_copied};
ghost use Rattle.tcl_frames.specs.VariableArrays.{is_taken, taken};
ghost use Rattle.tcl_frames.specs.Arrays.{element_if};

use crate::name_map::NameMap;
use crate::names::push_if;
use std::alloc::{AllocError, Global};
use tcl_glob::matches;
use tcl_text::text::Text;
use tcl_value::value::Value;

/// Whether a pattern takes a key; where there is none, each is taken.
fn is_taken(pattern: Option<&Text>, key: &str) -> bool
    ensures { result ≡ is_taken (option_copied pattern.entry) key.now }
{
    match pattern {
        Some(pattern) => matches(pattern.as_str(), key, false),
        None => true,
    }
}

/// Adds the key of an element, if a pattern takes it.
fn push_key(
    keys: &mut Vec<Text>,
    alloc: Global,
    elements: &NameMap<Value>,
    pattern: Option<&Text>,
    index: usize,
) -> Result<(), AllocError>
    requires { index < length elements.now }
    ensures { OnOk result
        (keys.new.items ++ keys_of (taken (option_copied pattern.entry)
        (drop (index + 1) elements.now))
        ≡ keys.old.items ++ keys_of (taken (option_copied pattern.entry)
        (drop index elements.now))) }
{
    match elements.entry(index) {
        Some((key, _)) => push_if(keys, alloc, is_taken(pattern, key), key),
        None => unreachable!(),
    }
}

/// The keys that a pattern takes.
pub(crate) fn keys_taken(
    alloc: Global,
    elements: &NameMap<Value>,
    pattern: Option<&Text>,
) -> Result<Vec<Text>, AllocError>
    ensures { IfOk result (λ keys. keys.items
        ≡ keys_of (taken (option_copied pattern.entry) elements.now)) }
{
    let mut keys = Vec::new(alloc);
    'keys: for index in 0..elements.len() {
        push_key(&mut keys, alloc, elements, pattern, index)?;
    }
    Ok(keys)
}

/// Adds an element to its end, if it is wanted.
fn push_element_if(
    elements: &mut Vec<(Text, Value)>,
    alloc: Global,
    is_wanted: bool,
    key: &str,
    value: &Value,
) -> Result<(), AllocError>
    ensures { OnOk result
        (elements.new.items ≡ elements.old.items ++ element_if is_wanted (key.now, value.now)) }
{
    if is_wanted {
        elements.push((Text::new(alloc, key)?, value.clone()?))?;
    }
    Ok(())
}

/// Adds an element, if a pattern takes its key.
fn push_element(
    pairs: &mut Vec<(Text, Value)>,
    alloc: Global,
    elements: &NameMap<Value>,
    pattern: Option<&Text>,
    index: usize,
) -> Result<(), AllocError>
    requires { index < length elements.now }
    ensures { OnOk result
        (pairs.new.items ++ taken (option_copied pattern.entry) (drop (index + 1) elements.now)
        ≡ pairs.old.items ++ taken (option_copied pattern.entry) (drop index elements.now)) }
{
    match elements.entry(index) {
        Some((key, value)) => push_element_if(pairs, alloc, is_taken(pattern, key), key, value),
        None => unreachable!(),
    }
}

/// The elements whose keys a pattern takes, which share the values.
pub(crate) fn elements_taken(
    alloc: Global,
    elements: &NameMap<Value>,
    pattern: Option<&Text>,
) -> Result<Vec<(Text, Value)>, AllocError>
    ensures { IfOk result (λ pairs. pairs.items
        ≡ taken (option_copied pattern.entry) elements.now) }
{
    let mut pairs = Vec::new(alloc);
    'pairs: for index in 0..elements.len() {
        push_element(&mut pairs, alloc, elements, pattern, index)?;
    }
    Ok(pairs)
}

/// The same pattern, to keep.
pub(crate) fn owned_pattern(pattern: Option<&Text>) -> Result<Option<Text>, AllocError>
    ensures { IfOk result (λ owned. owned ≡ option_copied pattern.entry) }
{
    match pattern {
        Some(pattern) => Ok(Some(pattern.clone()?)),
        None => Ok(None),
    }
}
