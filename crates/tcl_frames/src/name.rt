//! The names that scripts write for variables.
ghost use Rattle.std.specs.Prelude.{◌≡◌, IfOk};
ghost use Rattle.std.specs.Option.{option_map, option_copied};
ghost use Rattle.tcl_frames.specs.VariableArrays.{element_name};
ghost use Rattle.tcl_frames.specs.Names.{element_of, has_colons, after_colons, without_colons};
ghost use Rattle.tcl_frames.specs.Names.{of_level, is_plain, is_simple, name_of};
ghost use Rattle.tcl_frames.specs.Written.{seen, seen_pair};

use std::alloc::{AllocError, Global};
use tcl_text::text::Text;

/// A name that was read: of level 0 or of the level where it is written, and perhaps of an element.
#[derive(Clone, Copy)]
pub struct Written<'a> {
    pub is_global: bool,
    pub base: &'a str,
    pub key: Option<&'a str>,
}

/// The array and the key of an element's name.
fn element_parts(name: &str) -> Option<(&str, &str)>
    ensures { option_map seen_pair result ≡ element_of name.now }
{
    name.strip_suffix(')')?.split_once('(')
}

/// What follows two leading colons, where they stand. This takes no memory.
pub fn after_leading(name: &str) -> Option<&str>
    ensures { option_copied result ≡ after_colons name.now }
{
    name.strip_prefix(':')?.strip_prefix(':')
}

/// Whether two colons stand side by side. This takes no memory.
pub fn with_colons(name: &str) -> bool
    ensures { result ≡ has_colons name.now }
{
    let mut after_colon = false;
    for b in name.as_bytes() {
        let is_colon = *b == b':';
        if after_colon && is_colon {
            return true;
        }
        after_colon = is_colon;
    }
    false
}

/// The name with this base, where no two colons stand in that.
fn without_colons<'a>(is_global: bool, base: &'a str, key: Option<&'a str>) -> Option<Written<'a>>
    ensures { option_map seen result ≡ without_colons is_global base.now (option_copied key.entry) }
{
    if with_colons(base) {
        return None;
    }
    Some(Written {
        is_global,
        base,
        key,
    })
}

/// The name with this base, before which two colons may stand.
fn of_level<'a>(base: &'a str, key: Option<&'a str>) -> Option<Written<'a>>
    ensures { option_map seen result
        ≡ of_level (after_colons base.now) base.now (option_copied key.entry) }
{
    match after_leading(base) {
        Some(rest) => without_colons(true, rest, key),
        None => without_colons(false, base, key),
    }
}

/// Whether a text holds neither a colon nor a close parenthesis, as most names do.
pub(crate) fn is_simple(name: &str) -> bool
    ensures { result ≡ is_simple name.now }
{
    for b in name.as_bytes() {
        if *b == b':' {
            return false;
        }
        if *b == b')' {
            return false;
        }
    }
    true
}

/// Reads a name, if it is one.
pub fn read_name(name: &str) -> Option<Written<'_>>
    ensures { option_map seen result ≡ name_of name.now }
{
    if is_simple(name) {
        return Some(Written {
            is_global: false,
            base: name,
            key: None,
        });
    }
    match element_parts(name) {
        Some((array, key)) => of_level(array, Some(key)),
        None => of_level(name, None),
    }
}

/// Whether a parameter or a link may have the name.
pub fn is_plain_name(name: &str) -> bool
    ensures { result ≡ is_plain name.now }
{
    element_parts(name).is_none() && !with_colons(name)
}

/// The name of an element, `a(k)`.
///
/// # Errors
/// Want of memory.
pub fn element_text(alloc: Global, name: &Text, key: &Text) -> Result<Text, AllocError>
    ensures { IfOk result (λ text. text ≡ element_name name.now key.now) }
{
    let mut text = String::from_str(alloc, name.as_str())?;
    text.push_str("(")?;
    text.push_str(key.as_str())?;
    text.push_str(")")?;
    Text::from_string(alloc, text)
}
