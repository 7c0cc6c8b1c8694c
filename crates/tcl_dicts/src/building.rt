//! The subcommands that make dicts: `create`, `replace`, `merge`, `remove`.
ghost use Rattle.std.specs.Prelude.{◌≡◌};
ghost use Rattle.tcl_words.specs.Outcomes.{Gives};
ghost use Rattle.tcl_value.specs.Texts.{flat};
ghost use Rattle.tcl_dicts.specs.Dicts.{put_within, put_words, in_pairs, create_of, replace_of};
ghost use Rattle.tcl_dicts.specs.Dicts.{merged, merge_of, without_within, without_words, remove_of};

use crate::reading::{dict_value, dict_word};
use std::alloc::Global;
use tcl_lists::indexes::elements_of;
use tcl_lists::reading::first_and_rest;
use tcl_lists::refusing::not_made;
use tcl_value::dict::Dict;
use tcl_value::value::Value;
use tcl_words::refusal::{Refusal, wrong_arguments};

/// A dict with a value for a key.
fn put(alloc: Global, dict: Dict, key: &Value, value: &Value) -> Result<Dict, Refusal>
    ensures { Gives (λ dict. dict) result (put_within dict key.now value.now) }
{
    let mut made = dict;
    let own = value.clone()?;
    match made.set(alloc, key, own) {
        Ok(()) => Ok(made),
        Err(why) => Err(not_made(alloc, why)),
    }
}

/// A dict after each key of the words gets the value that follows it.
fn put_words(alloc: Global, dict: Dict, words: &[Value]) -> Result<Dict, Refusal>
    ensures { Gives (λ dict. dict) result (put_words dict words.now) }
{
    let mut made = dict;
    let mut left = words;
    'pairs: while let [key, value, more @ ..] = left {
        made = put(alloc, made, key, value)?;
        left = more;
    }
    Ok(made)
}

/// Keys and values in turn.
fn in_pairs<'a>(alloc: Global, words: &'a [Value], form: &str) -> Result<&'a [Value], Refusal>
    ensures { Gives (λ pairs. pairs.now) result (in_pairs form.now words.now) }
{
    if words.len() % 2 != 0 {
        return Err(wrong_arguments(alloc, form));
    }
    Ok(words)
}

/// `dict create ?key value ...?`: the dict of these keys and values; a repeated key keeps its first
/// place and its last value.
///
/// # Errors
/// 241, 122; want of memory.
pub fn create(alloc: Global, words: &[Value]) -> Result<Value, Refusal>
    ensures { Gives (λ value. value) result (create_of words.now) }
{
    let pairs = in_pairs(alloc, words, "dict create ?key value ...?")?;
    let made = put_words(alloc, Dict::new(alloc)?, pairs)?;
    dict_value(alloc, made)
}

/// `dict replace dictionary ?key value ...?`: the dict with these values for these keys.
///
/// # Errors
/// 241, 101 to 104, 121, 122; want of memory.
pub fn replace(alloc: Global, words: &[Value]) -> Result<Value, Refusal>
    ensures { Gives (λ value. value) result (replace_of words.now) }
{
    let form = "dict replace dictionary ?key value ...?";
    let (word, pairs) = first_and_rest(alloc, words, form)?;
    let pairs = in_pairs(alloc, pairs, form)?;
    let dict = dict_word(alloc, word)?;
    let made = put_words(alloc, dict, pairs)?;
    dict_value(alloc, made)
}

/// A dict after each key of another one gets its value there.
fn put_dict(alloc: Global, dict: Dict, other: &Dict) -> Result<Dict, Refusal>
    ensures { Gives (λ dict. dict) result (put_words dict (flat other.now)) }
{
    let list = other.to_list(alloc)?;
    let words = elements_of(alloc, &list)?;
    put_words(alloc, dict, &words)
}

/// A dict after the dicts of words are put into it.
fn merged(alloc: Global, dict: Dict, words: &[Value]) -> Result<Dict, Refusal>
    ensures { Gives (λ dict. dict) result (merged dict words.now) }
{
    let mut made = dict;
    'words: for word in words {
        let other = dict_word(alloc, word)?;
        made = put_dict(alloc, made, &other)?;
    }
    Ok(made)
}

/// `dict merge ?dictionary ...?`: the dict of all keys of these dicts, where the value of a key
/// that several have is that of the last of them, and its place that in the first.
///
/// # Errors
/// 101 to 104, 121, 122; want of memory.
pub fn merge(alloc: Global, words: &[Value]) -> Result<Value, Refusal>
    ensures { Gives (λ value. value) result (merge_of words.now) }
{
    let made = merged(alloc, Dict::new(alloc)?, words)?;
    dict_value(alloc, made)
}

/// A dict without a key.
fn without(alloc: Global, dict: Dict, key: &Value) -> Result<Dict, Refusal>
    ensures { Gives (λ dict. dict) result (without_within dict key.now) }
{
    let mut made = dict;
    let key = key.text(alloc)?;
    match made.remove(&key) {
        Ok(()) => Ok(made),
        Err(why) => Err(not_made(alloc, why)),
    }
}

/// A dict without the keys of words.
fn without_words(alloc: Global, dict: Dict, words: &[Value]) -> Result<Dict, Refusal>
    ensures { Gives (λ dict. dict) result (without_words dict words.now) }
{
    let mut made = dict;
    'keys: for key in words {
        made = without(alloc, made, key)?;
    }
    Ok(made)
}

/// `dict remove dictionary ?key ...?`: the dict without these keys.
///
/// # Errors
/// 241, 101 to 104, 121, 122; want of memory.
pub fn remove(alloc: Global, words: &[Value]) -> Result<Value, Refusal>
    ensures { Gives (λ value. value) result (remove_of words.now) }
{
    let (word, keys) = first_and_rest(alloc, words, "dict remove dictionary ?key ...?")?;
    let dict = dict_word(alloc, word)?;
    let made = without_words(alloc, dict, keys)?;
    dict_value(alloc, made)
}
