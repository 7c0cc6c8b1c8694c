//! Lists in the order of their integers.
ghost use Rattle.std.specs.Prelude.{◌≡◌, ◌<◌, ◌+◌, ◌++◌, ◌∷◌, ◌&&◌, [], pos, length, drop};
ghost use Rattle.std.specs.Prelude.{slice_index_or, OnOk, IfOk, IfErr};
ghost use Rattle.tcl_words.specs.Outcomes.{Gives, Refuses};
ghost use Rattle.tcl_words.specs.Words.{integer_word};
ghost use Rattle.tcl_lists.specs.Lists.{Texts, list_value};
ghost use Rattle.tcl_lists.specs.Sorting.{is_repeated, kept, same_number, with_number};
ghost use Rattle.tcl_lists.specs.Sorting.{numbered, elements_of, GivesSome};
ghost use Rattle.tcl_lists.specs.Sorting.{IsSortedNumbers};

use crate::building::list_value;
use crate::ordering::{push_value, put_in_order};
use crate::reading::integer_word;
use crate::rows::NumberRow;
use std::alloc::Global;
use tcl_text::integer::Integers;
use tcl_value::list::List;
use tcl_value::value::Value;
use tcl_words::refusal::Refusal;

/// The integer of a value, which keeps it.
fn number_of(alloc: Global, style: Integers, value: &mut Value) -> Result<i64, Refusal>
    ensures number { Gives (λ n. n) result (integer_word style value.old) }
    ensures text { value.new ≡ value.old }
{
    match value.as_int(style) {
        Ok(n) => Ok(n),
        Err(_) => integer_word(alloc, style, value),
    }
}

/// An element of a list with its integer.
fn row_of(alloc: Global, style: Integers, list: &List, index: usize) -> Result<NumberRow, Refusal>
    requires { index < length list.now }
    ensures { Gives (λ row. row) result (with_number style (slice_index_or list.now index [])) }
{
    let mut value = list.get(index)?;
    let number = number_of(alloc, style, &mut value)?;
    Ok(NumberRow::new(number, value))
}

/// The elements of a list with their integers.
fn numbered(alloc: Global, style: Integers, list: &List) -> Result<Vec<NumberRow>, Refusal>
    ensures { Gives (λ rows. rows.items) result (numbered style list.now) }
{
    let mut rows = Vec::with_capacity(alloc, list.len())?;
    'elements: for index in 0..list.len() {
        rows.push(row_of(alloc, style, list, index)?)?;
    }
    Ok(rows)
}

/// Whether the row at a place has the same integer as the next, where only the last of equal rows
/// is wanted.
fn is_left_out(rows: &[NumberRow], index: usize, unique: bool) -> bool
    requires { index < length rows.now }
    ensures { result
        ≡ (unique && is_repeated same_number (slice_index_or rows.now index ([], pos 0))
        (drop (index + 1) rows.now)) }
{
    unique && index + 1 < rows.len() && rows[index] == rows[index + 1]
}

/// The list of the elements of rows in order, or of the last of each run of equal ones.
fn rows_value(alloc: Global, rows: &[NumberRow], unique: bool) -> Result<Value, Refusal>
    ensures { Gives (λ value. value) result
        (list_value (elements_of (kept same_number unique rows.now))) }
{
    let mut made = List::new(alloc)?;
    'rows: for index in 0..rows.len() {
        if is_left_out(rows, index, unique) {
            continue;
        }
        push_value(alloc, &mut made, rows[index].value())?;
    }
    list_value(alloc, made)
}

/// The elements of a list in the order of their integers, or in the opposite order; equal ones stay
/// as they stood, or the last of them alone is kept.
///
/// # Errors
/// 111 and 112 of the first element that has no integer, 122; want of memory.
pub fn sorted_numbers(
    alloc: Global,
    style: Integers,
    list: &List,
    decreasing: bool,
    unique: bool,
) -> Result<Value, Refusal>
    ensures { GivesSome result (IsSortedNumbers style list.now decreasing unique) }
{
    let mut rows = numbered(alloc, style, list)?;
    put_in_order(&mut rows, decreasing)?;
    rows_value(alloc, &rows, unique)
}
