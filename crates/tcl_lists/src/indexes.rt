//! The command that reads by indexes.
ghost use Rattle.std.specs.Prelude.{◌≡◌, ◌++◌, ◌∷◌, [], ℕ, List as Lists, Ok, OnOk, IfOk};
ghost use Rattle.std.specs.Bool.{OnTrue};
ghost use Rattle.tcl_words.specs.Outcomes.{Gives, Refuses, next};
ghost use Rattle.tcl_words.specs.Words.{list_word};
ghost use Rattle.tcl_lists.specs.Lists.{element, at_index, at_indexes, indexes_of, read_at};
ghost use Rattle.tcl_lists.specs.Lists.{Texts, at_words, lindex_of};

use crate::reading::{first_and_rest, index_word, is_number, list_word, own_list};
use std::alloc::{AllocError, Global};
use tcl_text::index::Index;
use tcl_text::integer::Integers;
use tcl_value::list::List;
use tcl_value::value::Value;
use tcl_words::refusal::Refusal;

/// The element at a place, or nothing where there is none.
fn element(list: &List, place: Index) -> Result<Value, AllocError>
    ensures { IfOk result (λ value. value ≡ element place list.now) }
{
    let Index::At(n) = place else {
        return Ok(Value::empty());
    };
    if n as usize >= list.len() {
        return Ok(Value::empty());
    }
    list.get(n as usize)
}

/// What stands at an index of the list that a value reads as.
fn at_index(alloc: Global, style: Integers, value: &Value, index: &Value) -> Result<Value, Refusal>
    ensures { Gives (λ value. value) result (at_index style value.now index.now) }
{
    let list = list_word(alloc, value)?;
    let place = index_word(alloc, style, list.len(), index)?;
    Ok(element(&list, place)?)
}

/// What stands at an index, at the next index of that, and so on.
fn at_indexes(
    alloc: Global,
    style: Integers,
    value: Value,
    indexes: &[Value],
) -> Result<Value, Refusal>
    ensures { Gives (λ value. value) result (at_indexes style value indexes.now) }
{
    let mut at = value;
    'indexes: for index in indexes {
        at = at_index(alloc, style, &at, index)?;
    }
    Ok(at)
}

/// Adds the elements of a list.
fn push_all(made: &mut Vec<Value>, list: &List) -> Result<(), AllocError>
    ensures { OnOk result (made.new.items ≡ made.old.items ++ list.now) }
{
    'elements: for index in 0..list.len() {
        made.push(list.get(index)?)?;
    }
    Ok(())
}

/// The elements of a list.
///
/// # Errors
/// Want of memory.
pub fn elements_of(alloc: Global, list: &List) -> Result<Vec<Value>, AllocError>
    ensures { IfOk result (λ made. made.items ≡ list.now) }
{
    let mut made = Vec::with_capacity(alloc, list.len())?;
    push_all(&mut made, list)?;
    Ok(made)
}

/// Whether the words are a number or two, as they are kept: they are their indexes then.
pub(crate) fn are_numbers(words: &[Value]) -> bool
    ensures { OnTrue result (indexes_of words.now ≡ Ok words.now) }
{
    match words {
        [index] => is_number(index),
        [first, second] => is_number(first) && is_number(second),
        _ => false,
    }
}

/// The indexes of words each of which is a list of them.
///
/// # Errors
/// 101 to 104 where a word spells no list; want of memory.
pub fn indexes_of(alloc: Global, words: &[Value]) -> Result<Vec<Value>, Refusal>
    ensures { Gives (λ made. made.items) result (indexes_of words.now) }
{
    let mut made = Vec::new(alloc);
    'words: for word in words {
        let list = list_word(alloc, word)?;
        push_all(&mut made, &list)?;
    }
    Ok(made)
}

/// What stands in a value at the indexes of words, the value being read first.
fn read_at(alloc: Global, style: Integers, value: &Value, words: &[Value]) -> Result<Value, Refusal>
    ensures { Gives (λ value. value) result (read_at style value.now words.now) }
{
    let mut own = value.clone()?;
    let _list = own_list(alloc, &mut own)?;
    let indexes = indexes_of(alloc, words)?;
    at_indexes(alloc, style, own, &indexes)
}

/// What stands in a list at indexes, which one word was read as.
fn at_list(alloc: Global, style: Integers, value: &Value, indexes: &List) -> Result<Value, Refusal>
    ensures { Gives (λ value. value) result
        (next (list_word value.now) (λ _. at_indexes style value.now indexes.now)) }
{
    let mut own = value.clone()?;
    let _list = own_list(alloc, &mut own)?;
    let indexes = elements_of(alloc, indexes)?;
    at_indexes(alloc, style, own, &indexes)
}

/// How a word is refused that reads as no list: behind the value, where that is none either.
fn refuse_word(alloc: Global, value: &Value, word: &Value, refusal: Refusal) -> Refusal
    requires { Refuses {X = Texts} refusal (list_word word.now) }
    ensures { (style : Integers) → Refuses {X = Lists ℕ} result
        (at_words style value.now (word.now ∷ [])) }
{
    let _word = word;
    match refusal {
        Refusal::Memory => Refusal::Memory,
        Refusal::Fault(message) => match list_word(alloc, value) {
            Ok(_) => Refusal::Fault(message),
            Err(earlier) => earlier,
        },
    }
}

/// What stands in a value at the indexes of one word; without any the value itself.
fn at_word(alloc: Global, style: Integers, value: &Value, word: &Value) -> Result<Value, Refusal>
    ensures { Gives (λ value. value) result (at_words style value.now (word.now ∷ [])) }
{
    match list_word(alloc, word) {
        Ok(indexes) => {
            if indexes.is_empty() {
                return Ok(value.clone()?);
            }
            at_list(alloc, style, value, &indexes)
        }
        Err(refusal) => Err(refuse_word(alloc, value, word, refusal)),
    }
}

/// What stands in a value at the indexes of words.
fn at_words(
    alloc: Global,
    style: Integers,
    value: &Value,
    words: &[Value],
) -> Result<Value, Refusal>
    ensures { Gives (λ value. value) result (at_words style value.now words.now) }
{
    if are_numbers(words) {
        return at_indexes(alloc, style, value.clone()?, words);
    }
    match words {
        [] => Ok(value.clone()?),
        [word] => at_word(alloc, style, value, word),
        _ => read_at(alloc, style, value, words),
    }
}

/// `lindex list ?index ...?`: what stands at the first index of the list, at the second index of
/// that, and so on; nothing where there is none. Each word may be a list of indexes. The list is
/// read first, then each of the other words as a list, and then one index after the other. Without
/// other words, and with one that is an empty list, the first is given as it is, also where it is
/// no list. (lindex(n))
///
/// # Errors
/// 241, 101 to 104, 114; want of memory.
pub fn lindex(alloc: Global, style: Integers, words: &[Value]) -> Result<Value, Refusal>
    ensures { Gives (λ value. value) result (lindex_of style words.now) }
{
    let (value, indexes) = first_and_rest(alloc, words, "lindex list ?index ...?")?;
    at_words(alloc, style, value, indexes)
}
