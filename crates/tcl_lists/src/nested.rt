//! Changes inside nested lists and dicts.
ghost use Rattle.std.specs.Prelude.{◌≡◌, ◌≤◌, ◌-ℤ◌, pos, length, Ok, Err, IfOk, IfErr, IfSome};
ghost use Rattle.std.specs.Prelude.{OnOk, OnErr, ok_or, option_map};
ghost use Rattle.std.specs.Bool.{OnTrue, OnFalse};
ghost use Rattle.tcl_text.specs.Indexes.{index_of, place};
ghost use Rattle.tcl_value.specs.Writing.{write};
ghost use Rattle.tcl_value.specs.Texts.{flat};
ghost use Rattle.tcl_value.specs.Dicts.{put, without, value_of, dict_of};
ghost use Rattle.tcl_value.specs.Reading.{list_of};
ghost use Rattle.tcl_value.specs.Changes.{AtList};
ghost use Rattle.tcl_value.specs.DictChanges.{AtDict};
ghost use Rattle.tcl_lists.specs.Nested.{next, list_in, dict_in, place_within, place_found};
ghost use Rattle.tcl_lists.specs.Nested.{place_or, place_in};
ghost use Rattle.tcl_lists.specs.Nested.{element_at, with_element, element_changed};
ghost use Rattle.tcl_lists.specs.Nested.{value_or_empty, value_changed, known, key_removed};
ghost use Rattle.tcl_lists.specs.Nested.{Refuses, RefusesText};
ghost use Rattle.tcl_lists.specs.Steps.{Leads};

use crate::fault::{NestedError, NestedFault};
use crate::step::{Step, with_innermost};
use std::alloc::{AllocError, Global};
use tcl_text::index::{Index, place, read_index};
use tcl_text::integer::Integers;
use tcl_text::limit::MOST_BYTES;
use tcl_value::dict::Dict;
use tcl_value::list::List;
use tcl_value::value::Value;

/// How many levels a path may have for a change in place: more lists and dicts never stand in one
/// another without a text.
const MOST_LEVELS: usize = 100;

/// Puts a value at a path of indexes: the first names a place in the list that a value reads as,
/// the next a place in the list that stands there, and so on. The place behind the last element
/// adds one, and what is added is empty where the path leads on. A list that is changed is written
/// anew; without an index the value becomes the new one as it is. A list on the way that is kept as
/// one and that nobody shares is changed in place.
///
/// # Errors
/// [`NestedError::Fault`]: from the left 101 to 104 where there is no list, then 114 where an index
/// is none, then 243 where it names another place. [`NestedError::TooLong`] exactly where the
/// changed text would be too long (122); want of memory. Any leaves the value as it was.
pub fn set_element(
    alloc: Global,
    style: Integers,
    own: &mut Value,
    path: &[Value],
    value: Value,
) -> Result<(), NestedError>
    ensures changed { OnOk result (element_changed style path.now value own.old ≡ Ok own.new) }
    ensures refused { IfErr result
        (λ e. RefusesText e (element_changed style path.now value own.old)) }
    ensures unchanged { OnErr result (own.new ≡ own.old) }
{
    if put_in_place(alloc, style, own, path, &value) {
        return Ok(());
    }
    // Here the lists inside the outermost one are copied.
    match path {
        [] => {
            *own = value;
            Ok(())
        }
        [last] => {
            let place = find_place(alloc, style, own, last)?;
            put_element(alloc, own, place, value)
        }
        [index, rest @ ..] => {
            let (place, inner) = find_in(alloc, style, own, index)?;
            let inner = element_changed(alloc, style, inner, rest, value)?;
            put_element(alloc, own, place, inner)
        }
    }
}

/// Puts a value at a path of several indexes, where each list on the way is kept as one. Says
/// whether it did; where it didn't, nothing is changed.
fn put_in_place(
    alloc: Global,
    style: Integers,
    own: &mut Value,
    path: &[Value],
    value: &Value,
) -> bool
    ensures changed { OnTrue result
        (element_changed style path.now value.now own.old ≡ Ok own.new) }
    ensures unchanged { OnFalse result (own.new ≡ own.old) }
{
    if path.len() < 2 || path.len() > MOST_LEVELS {
        return false;
    }
    let mut places = Vec::new(alloc);
    if !find_places(alloc, style, own, path, &mut places) {
        return false;
    }
    own.put_inside(alloc, &places, value)
}

/// Adds the places that indexes name one inside the other. Says whether there are all of them.
fn find_places(
    alloc: Global,
    style: Integers,
    own: &mut Value,
    path: &[Value],
    places: &mut Vec<usize>,
) -> bool
    ensures found { OnTrue result (Leads style path.now places.old.items places.new.items own.old) }
    ensures text { own.new ≡ own.old }
{
    let [index, rest @ ..] = path else {
        return true;
    };
    let Ok((place, inner)) = find_in(alloc, style, own, index) else {
        return false;
    };
    if places.push(place).is_err() {
        return false;
    }
    let mut inner = inner;
    find_places(alloc, style, &mut inner, rest, places)
}

/// Gives a value to a path of keys: the first is a key of the dict that a value reads as, the next
/// one of the dict that is its value, and so on. A key that is missing is new. A dict that is
/// changed is written anew; without a key the value becomes the new one as it is. A dict on the way
/// that is kept as one and that nobody shares is changed in place.
///
/// # Errors
/// [`NestedError::Fault`] where there is no dict (101 to 104, 121), the first from the left.
/// [`NestedError::TooLong`] exactly where the changed text would be too long (122); want of memory.
/// Any leaves the value as it was.
pub fn set_value(
    alloc: Global,
    own: &mut Value,
    path: &[Value],
    value: Value,
) -> Result<(), NestedError>
    ensures changed { OnOk result (value_changed path.now value own.old ≡ Ok own.new) }
    ensures refused { IfErr result (λ e. RefusesText e (value_changed path.now value own.old)) }
    ensures unchanged { OnErr result (own.new ≡ own.old) }
{
    if path.len() > 1 && set_in_place(alloc, own, path, &value) {
        return Ok(());
    }
    set_value_anew(alloc, own, path, value)
}

/// Gives a value to a path of keys, where each dict on the way is kept as one. Says whether it did;
/// where it didn't, nothing is changed.
fn set_in_place(alloc: Global, own: &mut Value, path: &[Value], value: &Value) -> bool
    ensures changed { OnTrue result (value_changed path.now value.now own.old ≡ Ok own.new) }
    ensures unchanged { OnFalse result (own.new ≡ own.old) }
{
    own.set_inside(alloc, path, value)
}

/// Gives a value to a path of keys, where the dicts inside the outermost one are copied.
fn set_value_anew(
    alloc: Global,
    own: &mut Value,
    path: &[Value],
    value: Value,
) -> Result<(), NestedError>
    ensures changed { OnOk result (value_changed path.now value own.old ≡ Ok own.new) }
    ensures refused { IfErr result (λ e. RefusesText e (value_changed path.now value own.old)) }
    ensures unchanged { OnErr result (own.new ≡ own.old) }
{
    match path {
        [] => {
            *own = value;
            Ok(())
        }
        [last] => {
            own.set_key(alloc, last, value)?;
            Ok(())
        }
        [key, rest @ ..] => {
            let found = value_in(alloc, own, key)?;
            let inner = value_changed(alloc, or_empty(found), rest, value)?;
            own.set_key(alloc, key, inner)?;
            Ok(())
        }
    }
}

/// Removes a key from the dict to which a path of other keys leads, if it is there. A dict that is
/// changed is written anew. A dict that is kept as one and that nobody shares is changed in place.
///
/// # Errors
/// [`NestedError::Fault`], the first from the left: 101 to 104 and 121 where there is no dict, 242
/// where a key of the path is missing. [`NestedError::TooLong`] exactly where the changed text
/// would be too long (122); want of memory. Any leaves the value as it was.
pub fn remove_key(
    alloc: Global,
    own: &mut Value,
    path: &[Value],
    key: &Value,
) -> Result<(), NestedError>
    ensures changed { OnOk result (key_removed path.now key.now own.old ≡ Ok own.new) }
    ensures refused { IfErr result (λ e. RefusesText e (key_removed path.now key.now own.old)) }
    ensures unchanged { OnErr result (own.new ≡ own.old) }
{
    if !path.is_empty() && remove_in_place(alloc, own, path, key) {
        return Ok(());
    }
    remove_key_anew(alloc, own, path, key)
}

/// Removes a key from the dict to which a path of other keys leads, where that dict and each on the
/// way is kept as one. Says whether it did; where it didn't, nothing is changed.
fn remove_in_place(alloc: Global, own: &mut Value, path: &[Value], key: &Value) -> bool
    ensures changed { OnTrue result (key_removed path.now key.now own.old ≡ Ok own.new) }
    ensures unchanged { OnFalse result (own.new ≡ own.old) }
{
    own.remove_inside(alloc, path, key)
}

/// Removes a key from the dict to which a path of other keys leads, where the dicts inside the
/// outermost one are copied.
fn remove_key_anew(
    alloc: Global,
    own: &mut Value,
    path: &[Value],
    key: &Value,
) -> Result<(), NestedError>
    ensures changed { OnOk result (key_removed path.now key.now own.old ≡ Ok own.new) }
    ensures refused { IfErr result (λ e. RefusesText e (key_removed path.now key.now own.old)) }
    ensures unchanged { OnErr result (own.new ≡ own.old) }
{
    match path {
        [] => {
            let key = key.text(alloc)?;
            own.remove_key(alloc, &key)?;
            Ok(())
        }
        [first, rest @ ..] => {
            let found = value_in(alloc, own, first)?;
            let inner = known(alloc, first, found)?;
            let inner = key_removed(alloc, inner, rest, key)?;
            own.set_key(alloc, first, inner)?;
            Ok(())
        }
    }
}

/// The place of the last of so many elements, -1 where there is none.
fn last_place(count: usize) -> i64
    requires { count ≤ 16777216 }
    ensures { result ≡ pos count -ℤ pos 1 }
{
    count as i64 - 1
}

/// The place to which an index points, where it is one of so many elements or that behind the last.
fn place_within(place: Index, count: usize) -> Option<usize>
    ensures { result ≡ place_within count place }
{
    match place {
        Index::At(n) if n as usize <= count => Some(n as usize),
        Index::Before | Index::At(_) | Index::Beyond => None,
    }
}

/// The place to which an index points, or 243 where it is none of those.
fn place_or_fault(place: Index, count: usize) -> Result<usize, NestedError>
    ensures found { IfOk result (λ n. place_found (place_within count place) ≡ Ok n) }
    ensures refused { IfErr result (λ e. Refuses e (place_found (place_within count place))) }
{
    place_within(place, count).ok_or(NestedError::Fault(NestedFault::NoPlace))
}

/// The place that an index names among so many elements, or behind the last. This makes no text of
/// a number.
fn place_among(
    alloc: Global,
    style: Integers,
    count: usize,
    index: &Value,
) -> Result<usize, NestedError>
    ensures found { IfOk result
        (λ n. place_or index.now count
        (option_map place (index_of style (pos count -ℤ pos 1) index.now)) ≡ Ok n) }
    ensures refused { IfErr result
        (λ e. Refuses e (place_or index.now count
        (option_map place (index_of style (pos count -ℤ pos 1) index.now)))) }
{
    if count > MOST_BYTES {
        return Err(NestedError::Memory);
    }
    if let Some(number) = index.number() {
        return place_or_fault(place(number), count);
    }
    let text = index.text(alloc)?;
    match read_index(text.as_str(), style, last_place(count)) {
        Ok(place) => place_or_fault(place, count),
        Err(_) => Err(NestedError::Fault(NestedFault::BadIndex(text))),
    }
}

/// The element at a place, which is empty where there is none yet.
fn element_at(list: &List, place: usize) -> Result<Value, AllocError>
    ensures { IfOk result (λ value. value ≡ element_at place list.now) }
{
    if place < list.len() {
        list.get(place)
    } else {
        Ok(Value::empty())
    }
}

/// The list that a value reads as, the place that an index names in it, and the element there.
fn enter_list(
    alloc: Global,
    style: Integers,
    own: &mut Value,
    index: &Value,
) -> Result<(List, usize, Value), NestedError>
    ensures found { IfOk result
        (λ p. (list_of own.old ≡ Ok p.0) × (place_in style p.0 index.now ≡ Ok p.1) ×
        (p.2 ≡ element_at p.1 p.0)) }
    ensures refused { IfErr result
        (λ e. Refuses e (next (list_in own.old) (λ l. place_in style l index.now))) }
    ensures text { own.new ≡ own.old }
{
    let list = own.as_list(alloc)?;
    let place = place_among(alloc, style, list.len(), index)?;
    let inner = element_at(&list, place)?;
    Ok((list, place, inner))
}

/// The place that an index names in the list that a value reads as.
fn find_place(
    alloc: Global,
    style: Integers,
    own: &mut Value,
    index: &Value,
) -> Result<usize, NestedError>
    ensures found { IfOk result (λ n. AtList (list_of own.old)
        (λ l. place_in style l index.now ≡ Ok n)) }
    ensures refused { IfErr result
        (λ e. Refuses e (next (list_in own.old) (λ l. place_in style l index.now))) }
    ensures text { own.new ≡ own.old }
{
    let count = own.as_list(alloc)?.len();
    place_among(alloc, style, count, index)
}

/// The place that an index names in the list that a value reads as, and the element there.
fn find_in(
    alloc: Global,
    style: Integers,
    own: &mut Value,
    index: &Value,
) -> Result<(usize, Value), NestedError>
    ensures found { IfOk result
        (λ p. AtList (list_of own.old)
        (λ l. (place_in style l index.now ≡ Ok p.0) × (p.1 ≡ element_at p.0 l))) }
    ensures refused { IfErr result
        (λ e. Refuses e (next (list_in own.old) (λ l. place_in style l index.now))) }
    ensures text { own.new ≡ own.old }
{
    let (_list, place, inner) = enter_list(alloc, style, own, index)?;
    Ok((place, inner))
}

/// Puts an element at a place of the list that a value reads as, where it goes last if there is
/// none yet.
fn put_element(
    alloc: Global,
    own: &mut Value,
    place: usize,
    element: Value,
) -> Result<(), NestedError>
    ensures changed { OnOk result (next (list_in own.old)
        (λ l. Ok (write (with_element place element l))) ≡ Ok own.new) }
    ensures refused { IfErr result
        (λ e. RefusesText e (next (list_in own.old)
        (λ l. Ok (write (with_element place element l))))) }
    ensures unchanged { OnErr result (own.new ≡ own.old) }
{
    let count = own.as_list(alloc)?.len();
    if place < count {
        own.set_at(alloc, place, element)?;
    } else {
        own.push(alloc, element)?;
    }
    Ok(())
}

/// A value with another one at a path of indexes.
fn element_changed(
    alloc: Global,
    style: Integers,
    own: Value,
    path: &[Value],
    value: Value,
) -> Result<Value, NestedError>
    ensures changed { IfOk result (λ made. element_changed style path.now value own ≡ Ok made) }
    ensures refused { IfErr result (λ e. RefusesText e (element_changed style path.now value own)) }
{
    let mut steps = Vec::new(alloc);
    let mut at = own;
    'path: for index in path {
        let (list, place, inner) = enter_list(alloc, style, &mut at, index)?;
        steps.push(Step::Element(list, place))?;
        at = inner;
    }
    Ok(with_innermost(alloc, steps, value)?)
}

/// The dict that a value reads as, and what it has for a key.
fn enter_dict(
    alloc: Global,
    own: &mut Value,
    key: &Value,
) -> Result<(Dict, Option<Value>), NestedError>
    ensures found { IfOk result (λ p. (dict_of own.old ≡ Ok p.0) × (p.1 ≡ value_of p.0 key.now)) }
    ensures refused { IfErr result (λ e. Refuses e (dict_in own.old)) }
    ensures text { own.new ≡ own.old }
{
    let dict = own.as_dict(alloc)?;
    let key = key.text(alloc)?;
    let found = dict.get(&key)?;
    Ok((dict, found))
}

/// What the dict that a value reads as has for a key.
fn value_in(alloc: Global, own: &mut Value, key: &Value) -> Result<Option<Value>, NestedError>
    ensures found { IfOk result
        (λ found. AtDict (dict_of own.old) (λ es. found ≡ value_of es key.now)) }
    ensures refused { IfErr result (λ e. Refuses e (dict_in own.old)) }
    ensures text { own.new ≡ own.old }
{
    let (_dict, found) = enter_dict(alloc, own, key)?;
    Ok(found)
}

/// What was found, or the empty value.
fn or_empty(found: Option<Value>) -> Value
    ensures { result ≡ value_or_empty found }
{
    match found {
        Some(value) => value,
        None => Value::empty(),
    }
}

/// What was found for a key, which has to be there.
fn known(alloc: Global, key: &Value, found: Option<Value>) -> Result<Value, NestedError>
    ensures found { IfOk result (λ value. known key.now found ≡ Ok value) }
    ensures refused { IfErr result (λ e. Refuses e (known key.now found)) }
{
    match found {
        Some(value) => Ok(value),
        None => Err(NestedError::Fault(NestedFault::UnknownKey(key.text(alloc)?))),
    }
}

/// A value with another one at a path of keys.
fn value_changed(
    alloc: Global,
    own: Value,
    path: &[Value],
    value: Value,
) -> Result<Value, NestedError>
    ensures changed { IfOk result (λ made. value_changed path.now value own ≡ Ok made) }
    ensures refused { IfErr result (λ e. RefusesText e (value_changed path.now value own)) }
{
    let mut steps = Vec::new(alloc);
    let mut at = own;
    'path: for key in path {
        let (dict, found) = enter_dict(alloc, &mut at, key)?;
        steps.push(Step::Entry(dict, key.clone()?))?;
        at = or_empty(found);
    }
    Ok(with_innermost(alloc, steps, value)?)
}

/// A value without a key of the dict to which a path of other keys leads.
fn key_removed(alloc: Global, own: Value, path: &[Value], key: &Value) -> Result<Value, NestedError>
    ensures changed { IfOk result (λ made. key_removed path.now key.now own ≡ Ok made) }
    ensures refused { IfErr result (λ e. RefusesText e (key_removed path.now key.now own)) }
{
    let mut steps = Vec::new(alloc);
    let mut at = own;
    'path: for first in path {
        let (dict, found) = enter_dict(alloc, &mut at, first)?;
        let inner = known(alloc, first, found)?;
        steps.push(Step::Entry(dict, first.clone()?))?;
        at = inner;
    }
    let key = key.text(alloc)?;
    at.remove_key(alloc, &key)?;
    Ok(with_innermost(alloc, steps, at)?)
}
