//! Rows in order.
ghost use Rattle.std.specs.Prelude.{◌≡◌, ◌<◌, ◌+◌, ◌++◌, ◌∷◌, ◌&&◌, [], true, length, drop};
ghost use Rattle.std.specs.Prelude.{slice_index_or, OnOk, IfOk, IfErr};
ghost use Rattle.tcl_words.specs.Outcomes.{Gives, Refuses};
ghost use Rattle.tcl_lists.specs.Lists.{Texts, list_value};
ghost use Rattle.tcl_lists.specs.Sorting.{is_before, IsOrdered, is_repeated, kept};
ghost use Rattle.tcl_lists.specs.Sorting.{same_text, GivesSome, IsSortedList};

use crate::building::list_value;
use crate::refusing::not_made;
use crate::rows::TextRow;
use std::alloc::{AllocError, Global};
use tcl_value::list::List;
use tcl_value::value::Value;
use tcl_words::refusal::Refusal;

/// Puts rows in order, so that those of which neither comes before the other stay as they stood.
///
/// # Errors
/// Want of memory.
pub fn put_in_order<T: Ord>(rows: &mut Vec<T>, decreasing: bool) -> Result<(), AllocError>
    ensures { OnOk result (IsOrdered (is_before T.cmp decreasing) rows.old.items rows.new.items) }
{
    if decreasing {
        return put_in_opposite_order(rows);
    }
    rows.sort()?;
    Ok(())
}

/// Puts rows in the opposite order: from behind they are in order.
fn put_in_opposite_order<T: Ord>(rows: &mut Vec<T>) -> Result<(), AllocError>
    ensures { OnOk result (IsOrdered (is_before T.cmp true) rows.old.items rows.new.items) }
{
    rows.reverse();
    rows.sort()?;
    rows.reverse();
    Ok(())
}

/// Whether the row at a place is equal to the next, where only the last of equal rows is wanted.
fn is_left_out(rows: &[TextRow], index: usize, unique: bool) -> bool
    requires { index < length rows.now }
    ensures { result
        ≡ (unique && is_repeated same_text (slice_index_or rows.now index [])
        (drop (index + 1) rows.now)) }
{
    unique && index + 1 < rows.len() && rows[index] == rows[index + 1]
}

/// The list of rows in order, or of the last of each run of equal ones.
///
/// # Errors
/// 122; want of memory.
pub fn rows_value(alloc: Global, rows: &[TextRow], unique: bool) -> Result<Value, Refusal>
    ensures { Gives (λ value. value) result (list_value (kept same_text unique rows.now)) }
{
    let mut made = List::new(alloc)?;
    'rows: for index in 0..rows.len() {
        if is_left_out(rows, index, unique) {
            continue;
        }
        push_value(alloc, &mut made, rows[index].value())?;
    }
    list_value(alloc, made)
}

/// Adds a value to a list.
pub(crate) fn push_value(alloc: Global, made: &mut List, value: &Value) -> Result<(), Refusal>
    ensures pushed { OnOk result (made.new ≡ made.old ++ value.now ∷ []) }
    ensures refused { (rest : Texts) → IfErr result
        (λ e. Refuses e (list_value (made.old ++ (value.now ∷ rest)))) }
{
    let own = value.clone()?;
    if let Err(why) = made.push(alloc, own) {
        return Err(not_made(alloc, why));
    }
    Ok(())
}

/// The elements of a list with their texts.
fn rows_of(alloc: Global, list: &List) -> Result<Vec<TextRow>, AllocError>
    ensures { IfOk result (λ rows. rows.items ≡ list.now) }
{
    let mut rows = Vec::with_capacity(alloc, list.len())?;
    'elements: for index in 0..list.len() {
        let value = list.get(index)?;
        let text = value.text(alloc)?;
        rows.push(TextRow::new(text, value))?;
    }
    Ok(rows)
}

/// The elements of a list in the order of their texts, or in the opposite order; equal ones stay as
/// they stood, or the last of them alone is kept.
///
/// # Errors
/// 122; want of memory.
pub fn sorted_texts(
    alloc: Global,
    list: &List,
    decreasing: bool,
    unique: bool,
) -> Result<Value, Refusal>
    ensures { GivesSome result (IsSortedList list.now decreasing unique) }
{
    let mut rows = rows_of(alloc, list)?;
    put_in_order(&mut rows, decreasing)?;
    rows_value(alloc, &rows, unique)
}
