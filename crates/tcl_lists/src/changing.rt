//! The change that `lset` makes.
ghost use Rattle.std.specs.Prelude.{◌≡◌, List, ℕ, Result, Ok, codes};
ghost use Rattle.std.specs.Bool.{OnTrue, OnFalse};
ghost use Rattle.tcl_words.specs.Outcomes.{Gives, Refuses};
ghost use Rattle.tcl_lists.specs.Nested.{element_changed};
ghost use Rattle.tcl_lists.specs.Lists.{Texts, Changes, first_middle_last};
ghost use Rattle.tcl_lists.specs.Changing.{nested_outcome, path_or, path_of, lset_of};

use crate::indexes::{are_numbers, indexes_of};
use crate::nested::set_element;
use crate::reading::{first_middle_last, own_list};
use crate::refusing::nested_refusal;
use std::alloc::Global;
use tcl_text::index::{Index, place};
use tcl_text::integer::Integers;
use tcl_value::value::Value;
use tcl_words::refusal::Refusal;

/// The words of `lset varName ?index ...? newValue`: the name, those of the indexes, and the new
/// value.
///
/// # Errors
/// 241 where there are fewer than two; want of memory.
pub fn lset_words(alloc: Global, words: &[Value]) -> Result<(&Value, &[Value], &Value), Refusal>
    ensures { Gives (λ p. (p.0.now, p.1.now, p.2.now)) result
        (first_middle_last (codes "lset varName ?index ...? newValue") words.now) }
{
    first_middle_last(alloc, words, "lset varName ?index ...? newValue")
}

/// What is told of index words that spell no lists: a fault of the list that is to be changed comes
/// first.
fn list_first(alloc: Global, old: &mut Value, why: Refusal) -> Refusal
    ensures told { (path : Result Texts (List ℕ)) → Refuses why path →
        Refuses result (path_or old.old path) }
    ensures text { old.new ≡ old.old }
{
    match why {
        Refusal::Memory => Refusal::Memory,
        Refusal::Fault(text) => match own_list(alloc, old) {
            Ok(_) => Refusal::Fault(text),
            Err(first) => first,
        },
    }
}

/// The indexes of words each of which is a list of them, into the list that a value reads as.
fn path_of(alloc: Global, old: &mut Value, words: &[Value]) -> Result<Vec<Value>, Refusal>
    ensures read { Gives (λ path. path.items) result (path_of old.old words.now) }
    ensures text { old.new ≡ old.old }
{
    match indexes_of(alloc, words) {
        Ok(path) => Ok(path),
        Err(why) => Err(list_first(alloc, old, why)),
    }
}

/// The list of a value with another element at a path of indexes.
fn set_at_path(
    alloc: Global,
    style: Integers,
    old: &mut Value,
    path: &[Value],
    new: Value,
) -> Result<(), Refusal>
    ensures { Changes result old.old old.new
        (nested_outcome (element_changed style path.now new old.old)) }
{
    match set_element(alloc, style, old, path, new) {
        Ok(()) => {
            old.keeps_limit();
            Ok(())
        }
        Err(why) => Err(nested_refusal(alloc, why)),
    }
}

/// Puts a value in the place of the element that a lone index word names, where the word is kept as
/// a number and the list as one. Says whether it did; where it didn't, nothing is changed, and the
/// change is one to be made otherwise.
fn put_at_number(alloc: Global, old: &mut Value, words: &[Value], new: &Value) -> bool
    ensures changed { OnTrue result
        ((style : Integers) → lset_of style old.old words.now new.now ≡ Ok old.new) }
    ensures unchanged { OnFalse result (old.new ≡ old.old) }
{
    let [index] = words else {
        return false;
    };
    let Some(number) = index.number() else {
        return false;
    };
    let Index::At(at) = place(number) else {
        return false;
    };
    old.replace_at(alloc, at as usize, new)
}

/// What `lset varName ?index ...? newValue` makes of the variable's value: another element stands
/// at the first index in its list, at the next index in the list that stands there, and so on. The
/// place behind the last element adds one. Each word may be a list of indexes; where they name
/// none, the value becomes the new one as it is. Where nobody shares the outermost list it is
/// changed in place. A refusal leaves the value as it was.
///
/// # Errors
/// 101 to 104 where the value is no list, then where one of the words is none; then from the left
/// 114 where an index is none, 243 where it names another place, and 101 to 104 where an element on
/// the way is no list; 122; want of memory.
pub fn lset(
    alloc: Global,
    style: Integers,
    old: &mut Value,
    words: &[Value],
    new: &Value,
) -> Result<(), Refusal>
    ensures { Changes result old.old old.new (lset_of style old.old words.now new.now) }
{
    if put_at_number(alloc, old, words, new) {
        return Ok(());
    }
    let own = new.clone()?;
    if are_numbers(words) {
        return set_at_path(alloc, style, old, words, own);
    }
    let path = path_of(alloc, old, words)?;
    set_at_path(alloc, style, old, &path, own)
}
