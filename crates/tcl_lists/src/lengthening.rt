//! The change that `lappend` makes, and `lrepeat`.
ghost use Rattle.std.specs.Prelude.{◌≡◌, ◌∷◌, []};
ghost use Rattle.tcl_words.specs.Outcomes.{Gives};
ghost use Rattle.tcl_lists.specs.Lists.{list_value, copies, counted_copies, lappend_of, lrepeat_of};
ghost use Rattle.tcl_lists.specs.Lists.{Changes};

use crate::building::{list_value, push_words};
use crate::reading::{first_and_rest, integer_word};
use crate::refusing::not_changed;
use std::alloc::Global;
use tcl_text::integer::Integers;
use tcl_value::list::List;
use tcl_value::value::Value;
use tcl_words::refusal::{Refusal, bad_count, too_long};

/// The list of a value with a word behind its elements: in place where the value is kept as a list
/// that isn't shared.
fn push(alloc: Global, old: &mut Value, word: &Value) -> Result<(), Refusal>
    ensures { Changes result old.old old.new (lappend_of old.old (word.now ∷ [])) }
{
    let own = word.clone()?;
    match old.push(alloc, own) {
        Ok(()) => Ok(()),
        Err(why) => Err(not_changed(alloc, why)),
    }
}

/// The list of a value with words behind its elements: in place where the value is kept as a list
/// that isn't shared.
fn extend(alloc: Global, old: &mut Value, words: &[Value]) -> Result<(), Refusal>
    ensures { Changes result old.old old.new (lappend_of old.old words.now) }
{
    match old.extend(alloc, words) {
        Ok(()) => Ok(()),
        Err(why) => Err(not_changed(alloc, why)),
    }
}

/// What `lappend varName ?value ...?` makes of the variable's value: the list with the words behind
/// its elements. Where the value is kept as a list that nobody shares it is changed in place. A
/// refusal leaves the value as it was.
///
/// # Errors
/// 101 to 104 where the value is no list, 122; want of memory.
pub fn lappend(alloc: Global, old: &mut Value, words: &[Value]) -> Result<(), Refusal>
    ensures { Changes result old.old old.new (lappend_of old.old words.now) }
{
    match words {
        [word] => push(alloc, old, word),
        _ => extend(alloc, old, words),
    }
}

/// More copies of a word than this take more bytes than a value may have.
const MOST_COPIES: u64 = 16_777_217;

/// The list of words, so many times, of a count that is not negative.
fn copies_value(alloc: Global, count: u64, words: &[Value]) -> Result<Value, Refusal>
    ensures { Gives (λ value. value) result (list_value (copies count words.now)) }
{
    if words.is_empty() {
        return Ok(Value::empty());
    }
    if count > MOST_COPIES {
        return Err(too_long(alloc));
    }
    let mut made = List::new(alloc)?;
    'copies: for _ in 0..count {
        push_words(alloc, &mut made, words)?;
    }
    list_value(alloc, made)
}

/// `lrepeat count ?value ...?`: the list of the words, so many times.
///
/// # Errors
/// 241, 111, 112, 245 where the count is negative, 122; want of memory.
pub fn lrepeat(alloc: Global, style: Integers, words: &[Value]) -> Result<Value, Refusal>
    ensures { Gives (λ value. value) result (lrepeat_of style words.now) }
{
    let (word, values) = first_and_rest(alloc, words, "lrepeat count ?value ...?")?;
    let count = integer_word(alloc, style, word)?;
    counted_copies(alloc, word, values, count)
}

/// The list of words, as often as a count says that is the integer of a word.
fn counted_copies(
    alloc: Global,
    word: &Value,
    words: &[Value],
    count: i64,
) -> Result<Value, Refusal>
    ensures { Gives (λ value. value) result (counted_copies word.now words.now count) }
{
    if count < 0 {
        let text = word.text(alloc)?;
        return Err(bad_count(alloc, text.as_str()));
    }
    copies_value(alloc, count as u64, words)
}
