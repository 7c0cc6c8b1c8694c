//! How lists are built from parts of others and from words.
ghost use Rattle.std.specs.Prelude.{◌≡◌, ◌≤◌, ℕ, ◌++◌, length, take, drop, OnOk, IfErr};
ghost use Rattle.tcl_words.specs.Outcomes.{Gives, Refuses};
ghost use Rattle.tcl_lists.specs.Lists.{Texts, list_value};

use crate::refusing::not_made;
use std::alloc::Global;
use tcl_value::list::List;
use tcl_value::value::Value;
use tcl_words::refusal::Refusal;

/// The value of a list.
///
/// # Errors
/// 122; want of memory.
pub fn list_value(alloc: Global, list: List) -> Result<Value, Refusal>
    ensures { Gives (λ value. value) result (list_value list) }
{
    match Value::from_list(alloc, list) {
        Ok(value) => Ok(value),
        Err(why) => Err(not_made(alloc, why)),
    }
}

/// Adds the elements of another list from one place up to another.
///
/// # Errors
/// 122 only where no list that begins so is a value; want of memory.
pub fn push_part(
    alloc: Global,
    made: &mut List,
    list: &List,
    first: usize,
    end: usize,
) -> Result<(), Refusal>
    requires order { first ≤ end }
    requires within { end ≤ length list.now }
    ensures pushed { OnOk result (made.new ≡ made.old ++ drop first (take end list.now)) }
    ensures refused { (rest : Texts) → IfErr result
        (λ e. Refuses e (list_value (made.old ++ (drop first (take end list.now) ++ rest)))) }
    ensures refused_here { IfErr result
        (λ e. Refuses e (list_value (made.old ++ drop first (take end list.now)))) }
{
    match made.push_slice(list, first, end) {
        Ok(()) => Ok(()),
        Err(why) => Err(not_made(alloc, why)),
    }
}

/// Adds words.
///
/// # Errors
/// 122 only where no list that begins so is a value; want of memory.
pub fn push_words(alloc: Global, made: &mut List, words: &[Value]) -> Result<(), Refusal>
    ensures pushed { OnOk result (made.new ≡ made.old ++ words.now) }
    ensures refused { (rest : Texts) → IfErr result
        (λ e. Refuses e (list_value (made.old ++ (words.now ++ rest)))) }
    ensures refused_here { IfErr result (λ e. Refuses e (list_value (made.old ++ words.now))) }
{
    'words: for word in words {
        let own = word.clone()?;
        if let Err(why) = made.push(alloc, own) {
            return Err(not_made(alloc, why));
        }
    }
    Ok(())
}

/// The value of the elements of a list from one place up to another.
///
/// # Errors
/// 122; want of memory.
pub fn part_value(alloc: Global, list: &List, first: usize, end: usize) -> Result<Value, Refusal>
    requires order { first ≤ end }
    requires within { end ≤ length list.now }
    ensures { Gives (λ value. value) result (list_value (drop first (take end list.now))) }
{
    let made = list.slice(alloc, first, end)?;
    list_value(alloc, made)
}

/// The value of a list with words in the place of its elements from one place up to another.
///
/// # Errors
/// 122; want of memory.
pub fn spliced_value(
    alloc: Global,
    list: &List,
    first: usize,
    end: usize,
    words: &[Value],
) -> Result<Value, Refusal>
    requires order { first ≤ end }
    requires within { end ≤ length list.now }
    ensures { Gives (λ value. value) result
        (list_value (take first list.now ++ words.now ++ drop end list.now)) }
{
    let mut made = list.slice(alloc, 0, first)?;
    push_words(alloc, &mut made, words)?;
    push_part(alloc, &mut made, list, end, list.len())?;
    list_value(alloc, made)
}
