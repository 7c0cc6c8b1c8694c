//! How words are read.
ghost use Rattle.std.specs.Prelude.{◌≡◌, ◌≤◌, pos, ◌-ℤ◌};
ghost use Rattle.tcl_words.specs.Outcomes.{Gives};
ghost use Rattle.tcl_words.specs.Words.{integer_word, index_word, list_word};

use crate::refusal::{Refusal, fault_with, too_long};
use std::alloc::Global;
use tcl_text::index::{Index, bad_index_message, read_index};
use tcl_text::integer::{IntegerFault, Integers, not_integer_message, read_int, too_large_message};
use tcl_text::limit::MOST_BYTES;
use tcl_text::list::{ListError, read_list};
use tcl_text::text::Text;

/// The integer of a word.
///
/// # Errors
/// 111 where it is no integer text, 112 where the number takes more than 64 bits; want of memory.
pub fn integer_word(alloc: Global, style: Integers, word: &str) -> Result<i64, Refusal>
    ensures { Gives (λ n. n) result (integer_word style word.now) }
{
    match read_int(word, style) {
        Ok(n) => Ok(n),
        Err(IntegerFault::NotInteger) => Err(fault_with(not_integer_message(alloc, word))),
        Err(IntegerFault::TooLarge) => Err(fault_with(too_large_message(alloc))),
    }
}

/// The place of the last of so many elements, -1 where there is none.
fn last_place(count: usize) -> i64
    requires { count ≤ 16777216 }
    ensures { result ≡ pos count -ℤ pos 1 }
{
    count as i64 - 1
}

/// The place to which an index word points in a text or list of so many elements, of which `end` is
/// the last.
///
/// # Errors
/// 114 where it is no index text, 122 where no value has so many elements; want of memory.
pub fn index_word(
    alloc: Global,
    style: Integers,
    count: usize,
    word: &str,
) -> Result<Index, Refusal>
    ensures { Gives (λ place. place) result (index_word style count word.now) }
{
    if count > MOST_BYTES {
        return Err(too_long(alloc));
    }
    match read_index(word, style, last_place(count)) {
        Ok(place) => Ok(place),
        Err(_) => Err(fault_with(bad_index_message(alloc, word))),
    }
}

/// The list of a word.
///
/// # Errors
/// 101 to 104 where its text spells no list; want of memory.
pub fn list_word(alloc: Global, word: &str) -> Result<Vec<Text>, Refusal>
    ensures { Gives (λ list. list.items) result (list_word word.now) }
{
    match read_list(alloc, word) {
        Ok(list) => Ok(list),
        Err(ListError::Fault(fault)) => Err(fault_with(fault.message(alloc))),
        Err(ListError::Memory) => Err(Refusal::Memory),
    }
}
