//! The command that searches a list.
ghost use Rattle.std.specs.Prelude.{◌≡◌, ◌<◌, ◌++◌, ◌∷◌, [], pos, map, length, Ok, OnOk, IfOk};
ghost use Rattle.std.specs.Prelude.{IfErr, slice_index_or};
ghost use Rattle.std.specs.Fmt.{signed_decimal};
ghost use Rattle.tcl_words.specs.Outcomes.{Gives, Refuses};
ghost use Rattle.tcl_lists.specs.Lists.{Texts, list_value};
ghost use Rattle.tcl_lists.specs.Searching.{is_like, takes, placed, taken, told};
ghost use Rattle.tcl_lists.specs.Searching.{nothing_told, first_told, found, lsearch_of};

use crate::building::list_value;
use crate::reading::list_word;
use crate::refusing::not_made;
use crate::search_options::{Search, all_and_two};
use std::alloc::{AllocError, Global};
use tcl_glob::matches;
use tcl_value::list::List;
use tcl_value::value::Value;
use tcl_words::refusal::Refusal;

/// Whether the element at a place is the pattern, or matches it.
fn is_like(
    alloc: Global,
    exact: bool,
    pattern: &str,
    list: &List,
    index: usize,
) -> Result<bool, AllocError>
    requires { index < length list.now }
    ensures { IfOk result
        (λ like. like ≡ is_like exact pattern.now (slice_index_or list.now index [])) }
{
    if exact {
        return Ok(list.is_at(index, pattern));
    }
    let text = list.get(index)?.text(alloc)?;
    Ok(matches(pattern, text.as_str(), false))
}

/// Whether a search takes the element at a place.
fn takes(
    alloc: Global,
    search: Search,
    pattern: &str,
    list: &List,
    index: usize,
) -> Result<bool, AllocError>
    requires { index < length list.now }
    ensures { IfOk result
        (λ taken. taken ≡ takes search pattern.now (slice_index_or list.now index [])) }
{
    let like = is_like(alloc, search.exact, pattern, list, index)?;
    Ok(if search.negated { !like } else { like })
}

/// The number of a place. No memory holds so many elements that a place takes more than 63 bits.
fn place_value(index: usize) -> Result<Value, Refusal>
    ensures { Gives (λ value. value) result (Ok (signed_decimal (pos index))) }
{
    match i64::try_from(index) {
        Ok(n) => Ok(Value::from_int(n)),
        Err(_) => Err(Refusal::Memory),
    }
}

/// What is told of an element at a place: itself, or the place.
fn found_value(inline: bool, index: usize, value: Value) -> Result<Value, Refusal>
    ensures { Gives (λ value. value) result (Ok (told inline (index, value))) }
{
    if inline {
        return Ok(value);
    }
    place_value(index)
}

/// What is told where no element is taken: nothing, or -1.
fn nothing_told(inline: bool) -> Value
    ensures { result ≡ nothing_told inline }
{
    if inline {
        Value::empty()
    } else {
        Value::from_int(-1)
    }
}

/// What is told of the first element that a search takes.
fn first_told(alloc: Global, search: Search, pattern: &str, list: &List) -> Result<Value, Refusal>
    ensures { Gives (λ value. value) result
        (Ok (first_told search.inline (taken search pattern.now (placed 0 list.now)))) }
{
    'elements: for index in 0..list.len() {
        if takes(alloc, search, pattern, list, index)? {
            return found_value(search.inline, index, list.get(index)?);
        }
    }
    Ok(nothing_told(search.inline))
}

/// Adds what is told of an element at a place.
fn push_told(
    alloc: Global,
    made: &mut List,
    inline: bool,
    index: usize,
    value: Value,
) -> Result<(), Refusal>
    ensures pushed { OnOk result (made.new ≡ made.old ++ told inline (index, value) ∷ []) }
    ensures refused { (rest : Texts) → IfErr result
        (λ e. Refuses e (list_value (made.old ++ (told inline (index, value) ∷ rest)))) }
{
    let own = found_value(inline, index, value)?;
    if let Err(why) = made.push(alloc, own) {
        return Err(not_made(alloc, why));
    }
    Ok(())
}

/// The list of what is told of all elements that a search takes.
fn all_told(alloc: Global, search: Search, pattern: &str, list: &List) -> Result<Value, Refusal>
    ensures { Gives (λ value. value) result
        (list_value (map (told search.inline) (taken search pattern.now (placed 0 list.now)))) }
{
    let mut made = List::new(alloc)?;
    'elements: for index in 0..list.len() {
        if takes(alloc, search, pattern, list, index)? {
            push_told(alloc, &mut made, search.inline, index, list.get(index)?)?;
        }
    }
    list_value(alloc, made)
}

/// What a search of a list finds.
fn found(alloc: Global, search: Search, pattern: &Value, list: &List) -> Result<Value, Refusal>
    ensures { Gives (λ value. value) result (found search pattern.now list.now) }
{
    let pattern = pattern.text(alloc)?;
    if search.all {
        all_told(alloc, search, pattern.as_str(), list)
    } else {
        first_told(alloc, search, pattern.as_str(), list)
    }
}

/// `lsearch ?option ...? list pattern`: the first place at which an element matches the pattern, -1
/// where there is none. With `-exact` the element has to be the pattern (`-glob` undoes it), with
/// `-not` it has to be none that fits; `-all` gives all such places in a list, and `-inline` the
/// elements in place of the places: nothing where there is none.
///
/// # Errors
/// 241, 221, 101 to 104, 122; want of memory.
pub fn lsearch(alloc: Global, words: &[Value]) -> Result<Value, Refusal>
    ensures { Gives (λ value. value) result (lsearch_of words.now) }
{
    let (options, word, pattern) = all_and_two(alloc, words, "lsearch ?option ...? list pattern")?;
    let search = Search::plain().with_options(alloc, options)?;
    let list = list_word(alloc, word)?;
    found(alloc, search, pattern, &list)
}
