//! The commands that read and make lists.
ghost use Rattle.std.specs.Prelude.{◌≡◌, ◌+◌, reverse, ◌++◌};
ghost use Rattle.tcl_words.specs.Outcomes.{Gives};
ghost use Rattle.tcl_words.specs.Limits.{counted};
ghost use Rattle.tcl_words.specs.Spans.{before, from, span};
ghost use Rattle.tcl_words.specs.Words.{index_word};
ghost use Rattle.tcl_lists.specs.Lists.{list_value, list_of, llength_of, lrange_of, linsert_of};
ghost use Rattle.tcl_lists.specs.Lists.{lreplace_of, lreverse_of, lassign_rest, behind_span};
ghost use Rattle.tcl_lists.specs.Lists.{GivesPart};

use crate::building::{list_value, part_value, push_words, spliced_value};
use crate::places::{before_place, up_to_place};
use crate::reading::{index_word, list_word, one_word, three_and_rest, three_words, two_and_rest};
use crate::refusing::not_made;
use std::alloc::Global;
use tcl_text::index::Index;
use tcl_text::integer::Integers;
use tcl_text::limit::MOST_BYTES;
use tcl_value::list::List;
use tcl_value::list_part::ListPart;
use tcl_value::value::Value;
use tcl_words::refusal::{Refusal, too_long};

/// `list ?arg ...?`: the list of the words.
///
/// # Errors
/// 122; want of memory.
pub fn list(alloc: Global, words: &[Value]) -> Result<Value, Refusal>
    ensures { Gives (λ value. value) result (list_of words.now) }
{
    let mut made = List::new(alloc)?;
    push_words(alloc, &mut made, words)?;
    list_value(alloc, made)
}

/// A count as a value.
fn count_value(alloc: Global, count: usize) -> Result<Value, Refusal>
    ensures { Gives (λ value. value) result (counted count) }
{
    if count > MOST_BYTES {
        return Err(too_long(alloc));
    }
    Ok(Value::from_int(count as i64))
}

/// `llength list`: how many elements the list has.
///
/// # Errors
/// 241, 101 to 104; want of memory.
pub fn llength(alloc: Global, words: &[Value]) -> Result<Value, Refusal>
    ensures { Gives (λ value. value) result (llength_of words.now) }
{
    let word = one_word(alloc, words, "llength list")?;
    let list = list_word(alloc, word)?;
    count_value(alloc, list.len())
}

/// The elements from one place of a list to another.
fn span_part(list: List, first: Index, last: Index) -> ListPart
    ensures { result ≡ span first last list }
{
    let end = up_to_place(last, list.len());
    let first = before_place(first, list.len()).min(end);
    ListPart::new(list, first, end)
}

/// The elements that `lrange` gives, which aren't made a list of their own yet.
///
/// # Errors
/// 241, 101 to 104, 114; want of memory.
pub fn lrange_part(alloc: Global, style: Integers, words: &[Value]) -> Result<ListPart, Refusal>
    ensures { GivesPart result (lrange_of style words.now) }
{
    let (word, first, last) = three_words(alloc, words, "lrange list first last")?;
    let list = list_word(alloc, word)?;
    let first = index_word(alloc, style, list.len(), first)?;
    let last = index_word(alloc, style, list.len(), last)?;
    Ok(span_part(list, first, last))
}

/// `lrange list first last`: the elements from one index to another.
///
/// # Errors
/// 241, 101 to 104, 114, 122; want of memory.
pub fn lrange(alloc: Global, style: Integers, words: &[Value]) -> Result<Value, Refusal>
    ensures { Gives (λ value. value) result (lrange_of style words.now) }
{
    let part = lrange_part(alloc, style, words)?;
    let list = part.into_list(alloc)?;
    list_value(alloc, list)
}

/// A list with words before a place.
fn inserted_value(alloc: Global, list: &List, at: Index, words: &[Value]) -> Result<Value, Refusal>
    ensures { Gives (λ value. value) result
        (list_value (before at list.now ++ words.now ++ from at list.now)) }
{
    let place = before_place(at, list.len());
    spliced_value(alloc, list, place, place, words)
}

/// `linsert list index ?element ...?`: the elements with others before an index; `end` is the place
/// past the last.
///
/// # Errors
/// 241, 101 to 104, 114, 122; want of memory.
pub fn linsert(alloc: Global, style: Integers, words: &[Value]) -> Result<Value, Refusal>
    ensures { Gives (λ value. value) result (linsert_of style words.now) }
{
    let (word, at, elements) = two_and_rest(alloc, words, "linsert list index ?element ...?")?;
    let list = list_word(alloc, word)?;
    let at = insertion_word(alloc, style, list.len(), at)?;
    inserted_value(alloc, &list, at, elements)
}

/// The place to which an index word points in a list of so many elements, of which `end` is the
/// place past the last.
fn insertion_word(
    alloc: Global,
    style: Integers,
    count: usize,
    word: &Value,
) -> Result<Index, Refusal>
    ensures { Gives (λ place. place) result (index_word style (count + 1) word.now) }
{
    if count >= MOST_BYTES {
        return Err(too_long(alloc));
    }
    index_word(alloc, style, count + 1, word)
}

/// A list with words in the place of its elements between two places.
fn replaced_value(
    alloc: Global,
    list: &List,
    first: Index,
    last: Index,
    words: &[Value],
) -> Result<Value, Refusal>
    ensures { Gives (λ value. value) result
        (list_value (before first list.now ++ words.now ++ behind_span first last list.now)) }
{
    let place = before_place(first, list.len());
    let end = up_to_place(last, list.len()).max(place);
    spliced_value(alloc, list, place, end, words)
}

/// `lreplace list first last ?element ...?`: the elements with others in the place of those between
/// two indexes. A place outside is brought to the nearer end.
///
/// # Errors
/// 241, 101 to 104, 114, 122; want of memory.
pub fn lreplace(alloc: Global, style: Integers, words: &[Value]) -> Result<Value, Refusal>
    ensures { Gives (λ value. value) result (lreplace_of style words.now) }
{
    let form = "lreplace list first last ?element ...?";
    let (word, first, last, elements) = three_and_rest(alloc, words, form)?;
    let list = list_word(alloc, word)?;
    let first = index_word(alloc, style, list.len(), first)?;
    let last = index_word(alloc, style, list.len(), last)?;
    replaced_value(alloc, &list, first, last, elements)
}

/// The elements of a list from the last to the first.
fn reversed(alloc: Global, list: &List) -> Result<Value, Refusal>
    ensures { Gives (λ value. value) result (list_value (reverse list.now)) }
{
    let mut made = List::new(alloc)?;
    let count = list.len();
    'elements: for index in 0..count {
        if let Err(why) = made.push_from(list, count - 1 - index) {
            return Err(not_made(alloc, why));
        }
    }
    list_value(alloc, made)
}

/// `lreverse list`: the elements from the last to the first.
///
/// # Errors
/// 241, 101 to 104, 122; want of memory.
pub fn lreverse(alloc: Global, words: &[Value]) -> Result<Value, Refusal>
    ensures { Gives (λ value. value) result (lreverse_of words.now) }
{
    let word = one_word(alloc, words, "lreverse list")?;
    let list = list_word(alloc, word)?;
    reversed(alloc, &list)
}

/// What `lassign` leaves of a list: all but as many elements as there are names.
///
/// # Errors
/// 122; want of memory.
pub fn lassign_rest(alloc: Global, names: usize, list: &List) -> Result<Value, Refusal>
    ensures { Gives (λ value. value) result (lassign_rest names list.now) }
{
    let count = list.len();
    part_value(alloc, list, names.min(count), count)
}
