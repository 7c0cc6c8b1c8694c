//! The changes that subcommands of `dict` make to a variable's value.
ghost use Rattle.std.specs.Prelude.{◌≡◌, codes, Ok, IfOk, OnErr};
ghost use Rattle.std.specs.Bool.{OnTrue, OnFalse};
ghost use Rattle.std.specs.Option.{option_copied};
ghost use Rattle.tcl_words.specs.Outcomes.{Gives};
ghost use Rattle.tcl_words.specs.Arguments.{two_or_three_words};
ghost use Rattle.tcl_value.specs.Limits.{IsWithin};
ghost use Rattle.tcl_lists.specs.Lists.{Changes, two_and_rest, first_middle_last};
ghost use Rattle.tcl_dicts.specs.Changing.{with_keys, set_words_of, set_of, unset_of, found_of};
ghost use Rattle.tcl_dicts.specs.Changing.{put_of, incr_of, append_of, lappend_of};

use crate::reading::{not_changed, own_dict};
use crate::values::{appended, incremented, joined, lengthened};
use std::alloc::{AllocError, Global};
use tcl_lists::nested::{remove_key, set_value};
use tcl_lists::reading::{first_middle_last, two_and_rest, two_or_three_words};
use tcl_lists::refusing::nested_refusal;
use tcl_text::integer::Integers;
use tcl_value::value::Value;
use tcl_words::refusal::{Refusal, wrong_arguments};

/// A name, keys and a value, where there is a key.
fn with_keys<'a>(
    alloc: Global,
    name: &'a Value,
    keys: &'a [Value],
    value: &'a Value,
    form: &str,
) -> Result<(&'a Value, &'a [Value], &'a Value), Refusal>
    ensures { Gives (λ p. (p.0.now, p.1.now, p.2.now)) result
        (with_keys form.now (name.now, keys.now, value.now)) }
{
    match keys {
        [] => Err(wrong_arguments(alloc, form)),
        [_, ..] => Ok((name, keys, value)),
    }
}

/// The words of `dict set varName key ?key ...? value`: the name, the keys, the value.
///
/// # Errors
/// 241 where there are fewer than three; want of memory.
pub fn set_words(alloc: Global, words: &[Value]) -> Result<(&Value, &[Value], &Value), Refusal>
    ensures { Gives (λ p. (p.0.now, p.1.now, p.2.now)) result (set_words_of words.now) }
{
    let form = "dict set varName key ?key ...? value";
    let (name, keys, value) = first_middle_last(alloc, words, form)?;
    with_keys(alloc, name, keys, value, form)
}

/// What `dict set varName key ?key ...? value` makes of the variable's value: the first key is one
/// of its dict, the next one of the dict that is its value, and so on; a key that is missing is
/// new. A dict on the way that is kept as one and that nobody shares is changed in place. A refusal
/// leaves the value as it was.
///
/// # Errors
/// 101 to 104 and 121 where a value on the way is no dict; 122; want of memory.
pub fn set(alloc: Global, old: &mut Value, keys: &[Value], value: &Value) -> Result<(), Refusal>
    ensures { Changes result old.old old.new (set_of old.old keys.now value.now) }
{
    let own = value.clone()?;
    match set_value(alloc, old, keys, own) {
        Ok(()) => {
            old.keeps_limit();
            Ok(())
        }
        Err(why) => Err(nested_refusal(alloc, why)),
    }
}

/// The words of `dict unset varName key ?key ...?`: the name, the keys that lead to a dict, the key
/// that goes from it.
///
/// # Errors
/// 241 where there are fewer than two; want of memory.
pub fn unset_words(alloc: Global, words: &[Value]) -> Result<(&Value, &[Value], &Value), Refusal>
    ensures { Gives (λ p. (p.0.now, p.1.now, p.2.now)) result
        (first_middle_last (codes "dict unset varName key ?key ...?") words.now) }
{
    first_middle_last(alloc, words, "dict unset varName key ?key ...?")
}

/// What `dict unset varName key ?key ...?` makes of the variable's value: the dict to which the
/// keys before the last one lead is without the last. A dict on the way that is kept as one and
/// that nobody shares is changed in place. A refusal leaves the value as it was.
///
/// # Errors
/// 101 to 104 and 121 where a value on the way is no dict, 242 where a key on the way is missing;
/// 122; want of memory.
pub fn unset(alloc: Global, old: &mut Value, path: &[Value], key: &Value) -> Result<(), Refusal>
    ensures { Changes result old.old old.new (unset_of old.old path.now key.now) }
{
    match remove_key(alloc, old, path, key) {
        Ok(()) => {
            old.keeps_limit();
            Ok(())
        }
        Err(why) => Err(nested_refusal(alloc, why)),
    }
}

/// What the dict that a value reads as has for a key.
fn found_in(alloc: Global, own: &mut Value, key: &Value) -> Result<Option<Value>, Refusal>
    ensures found { Gives (λ found. found) result (found_of own.old key.now) }
    ensures text { own.new ≡ own.old }
{
    let dict = own_dict(alloc, own)?;
    let key = key.text(alloc)?;
    Ok(dict.get(&key)?)
}

/// Gives a key a value in the dict that a value reads as.
fn put(alloc: Global, old: &mut Value, key: &Value, value: Value) -> Result<(), Refusal>
    ensures { Changes result old.old old.new (put_of old.old key.now value) }
{
    match old.set_key(alloc, key, value) {
        Ok(()) => Ok(()),
        Err(why) => Err(not_changed(alloc, why)),
    }
}

/// The words of `dict incr varName key ?increment?`.
///
/// # Errors
/// 241 where there are fewer than two or more than three; want of memory.
pub fn incr_words(
    alloc: Global,
    words: &[Value],
) -> Result<(&Value, &Value, Option<&Value>), Refusal>
    ensures { Gives (λ p. (p.0.now, p.1.now, option_copied p.2)) result
        (two_or_three_words (codes "dict incr varName key ?increment?") words.now) }
{
    two_or_three_words(alloc, words, "dict incr varName key ?increment?")
}

/// What `dict incr varName key ?increment?` makes of the variable's value: the value of the key,
/// which counts as 0 where it is missing, has the increment added, which is 1 where none is given.
/// Where nobody shares the dict it is changed in place. A refusal leaves the value as it was.
///
/// # Errors
/// 101 to 104, 121, 111 or 112 of the key's value and then of the increment, 212, 122; want of
/// memory.
pub fn incr(
    alloc: Global,
    style: Integers,
    old: &mut Value,
    key: &Value,
    by: Option<&Value>,
) -> Result<(), Refusal>
    ensures { Changes result old.old old.new
        (incr_of style old.old key.now (option_copied by.entry)) }
{
    let found = found_in(alloc, old, key)?;
    let made = incremented(alloc, style, by, found)?;
    put(alloc, old, key, made)
}

/// The words of `dict append varName key ?string ...?`.
///
/// # Errors
/// 241 where there are fewer than two; want of memory.
pub fn append_words(alloc: Global, words: &[Value]) -> Result<(&Value, &Value, &[Value]), Refusal>
    ensures { Gives (λ p. (p.0.now, p.1.now, p.2.now)) result
        (two_and_rest (codes "dict append varName key ?string ...?") words.now) }
{
    two_and_rest(alloc, words, "dict append varName key ?string ...?")
}

/// What `dict append varName key ?string ...?` makes of the variable's value: the value of the key,
/// which is empty where it is missing, has the strings behind it. Where nobody shares the dict it
/// is changed in place, and so is the key's value where it is kept as a text. A refusal leaves the
/// value as it was.
///
/// # Errors
/// 101 to 104, 121, 122; want of memory.
pub fn append(alloc: Global, old: &mut Value, key: &Value, words: &[Value]) -> Result<(), Refusal>
    ensures { Changes result old.old old.new (append_of old.old key.now words.now) }
{
    if appended_in_place(alloc, old, key, words)? {
        return Ok(());
    }
    append_anew(alloc, old, key, words)
}

/// Puts words behind a key's value, where it is kept as a text. Says whether it did; where it
/// didn't, nothing is changed.
fn appended_in_place(
    alloc: Global,
    old: &mut Value,
    key: &Value,
    words: &[Value],
) -> Result<bool, AllocError>
    ensures changed { IfOk result
        (λ done. OnTrue done (append_of old.old key.now words.now ≡ Ok old.new)) }
    ensures within { IfOk result (λ done. OnTrue done (IsWithin old.new)) }
    ensures unchanged { IfOk result (λ done. OnFalse done (old.new ≡ old.old)) }
    ensures memory { OnErr result (old.new ≡ old.old) }
{
    let Ok(more) = joined(alloc, words) else {
        return Ok(false);
    };
    let path = [key.clone()?];
    let done = old.append_inside(alloc, &path, more);
    old.keeps_limit();
    Ok(done)
}

/// What `dict append` makes of a value, where the key's value is copied.
fn append_anew(alloc: Global, old: &mut Value, key: &Value, words: &[Value]) -> Result<(), Refusal>
    ensures { Changes result old.old old.new (append_of old.old key.now words.now) }
{
    let found = found_in(alloc, old, key)?;
    let made = appended(alloc, words, found)?;
    put(alloc, old, key, made)
}

/// The words of `dict lappend varName key ?value ...?`.
///
/// # Errors
/// 241 where there are fewer than two; want of memory.
pub fn lappend_words(alloc: Global, words: &[Value]) -> Result<(&Value, &Value, &[Value]), Refusal>
    ensures { Gives (λ p. (p.0.now, p.1.now, p.2.now)) result
        (two_and_rest (codes "dict lappend varName key ?value ...?") words.now) }
{
    two_and_rest(alloc, words, "dict lappend varName key ?value ...?")
}

/// What `dict lappend varName key ?value ...?` makes of the variable's value: the list of the key's
/// value, which is empty where it is missing, has the values behind its elements. Where nobody
/// shares the dict it is changed in place, and so is the key's list where it is kept as one. A
/// refusal leaves the value as it was.
///
/// # Errors
/// 101 to 104 and 121 of the dict, 101 to 104 of the key's value, 122; want of memory.
pub fn lappend(alloc: Global, old: &mut Value, key: &Value, words: &[Value]) -> Result<(), Refusal>
    ensures { Changes result old.old old.new (lappend_of old.old key.now words.now) }
{
    if lengthened_in_place(alloc, old, key, words)? {
        return Ok(());
    }
    lappend_anew(alloc, old, key, words)
}

/// Puts words behind the elements of a key's list, where it is kept as one. Says whether it did;
/// where it didn't, nothing is changed.
fn lengthened_in_place(
    alloc: Global,
    old: &mut Value,
    key: &Value,
    words: &[Value],
) -> Result<bool, AllocError>
    ensures changed { IfOk result
        (λ done. OnTrue done (lappend_of old.old key.now words.now ≡ Ok old.new)) }
    ensures within { IfOk result (λ done. OnTrue done (IsWithin old.new)) }
    ensures unchanged { IfOk result (λ done. OnFalse done (old.new ≡ old.old)) }
    ensures memory { OnErr result (old.new ≡ old.old) }
{
    let path = [key.clone()?];
    let done = old.extend_inside(alloc, &path, words);
    old.keeps_limit();
    Ok(done)
}

/// What `dict lappend` makes of a value, where the key's list is copied.
fn lappend_anew(alloc: Global, old: &mut Value, key: &Value, words: &[Value]) -> Result<(), Refusal>
    ensures { Changes result old.old old.new (lappend_of old.old key.now words.now) }
{
    let found = found_in(alloc, old, key)?;
    let made = lengthened(alloc, words, found)?;
    put(alloc, old, key, made)
}
