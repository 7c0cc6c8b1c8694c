//! The command that puts a list in order.
ghost use Rattle.tcl_words.specs.Outcomes.{Gives};
ghost use Rattle.tcl_words.specs.Words.{list_word};
ghost use Rattle.tcl_lists.specs.Computed.{lsort_of};
ghost use Rattle.tcl_lists.specs.Sorting.{After, GivesSome};
ghost use Rattle.tcl_lists.specs.SortCommand.{plain, with_options, IsSortedAs};
ghost use Rattle.tcl_lists.specs.SortCommand.{IsSortedWord, IsLsort};

use crate::numbers::sorted_numbers;
use crate::ordering::sorted_texts;
use crate::reading::{all_and_last, list_word};
use crate::sort_options::Sorting;
use std::alloc::Global;
use tcl_text::integer::Integers;
use tcl_value::list::List;
use tcl_value::value::Value;
use tcl_words::refusal::Refusal;

/// A list in order.
fn sorted(alloc: Global, style: Integers, sorting: Sorting, list: &List) -> Result<Value, Refusal>
    ensures { GivesSome result (IsSortedAs style sorting sorting.by_number list.now) }
{
    if sorting.by_number {
        sorted_numbers(alloc, style, list, sorting.decreasing, sorting.unique)
    } else {
        sorted_texts(alloc, list, sorting.decreasing, sorting.unique)
    }
}

/// The list of a word in order.
fn sorted_word(
    alloc: Global,
    style: Integers,
    sorting: Sorting,
    word: &Value,
) -> Result<Value, Refusal>
    ensures { GivesSome result
        (After (list_word word.now) (IsSortedAs style sorting sorting.by_number)) }
{
    let list = list_word(alloc, word)?;
    sorted(alloc, style, sorting, &list)
}

/// The list of a word in the order that options name.
fn sorted_by_options(
    alloc: Global,
    style: Integers,
    options: &[Value],
    word: &Value,
) -> Result<Value, Refusal>
    ensures { GivesSome result
        (After (with_options plain options.now) (IsSortedWord style word.now)) }
{
    let sorting = Sorting::read(alloc, options)?;
    sorted_word(alloc, style, sorting, word)
}

/// The list of the last word in the order that the words before it name.
fn sorted_by_words(alloc: Global, style: Integers, words: &[Value]) -> Result<Value, Refusal>
    ensures { GivesSome result (IsLsort style words.now) }
{
    let (options, word) = all_and_last(alloc, words, "lsort ?option ...? list")?;
    sorted_by_options(alloc, style, options, word)
}

/// `lsort ?option ...? list`: the elements in the order of their texts, by the numbers of their
/// characters, or with `-integer` in the order of their integers; with `-decreasing` from the
/// greatest to the least. Equal elements stay as they stood; with `-unique` the last of them alone
/// is kept. `-ascii` and `-increasing` undo what came before them.
///
/// # Errors
/// 241, 221, 101 to 104, 111, 112, 122; want of memory.
pub fn lsort(alloc: Global, style: Integers, words: &[Value]) -> Result<Value, Refusal>
    ensures sorted { GivesSome result (IsLsort style words.now) }
    ensures computed { Gives (λ value. value) result (lsort_of style words.now) }
{
    sorted_by_words(alloc, style, words)
}
