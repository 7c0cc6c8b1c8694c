//! The subcommands that list what dicts have: `keys`, `values`.
ghost use Rattle.std.specs.Prelude.{◌≡◌, ◌++◌, ◌∷◌, [], filter, IfOk, IfErr, OnOk};
ghost use Rattle.std.specs.Option.{option_copied};
ghost use Rattle.tcl_words.specs.Outcomes.{Gives, Refuses};
ghost use Rattle.tcl_lists.specs.Lists.{Texts, list_value};
ghost use Rattle.tcl_dicts.specs.Dicts.{fits, keys_in, keys_of, values_in, values_of};

use crate::reading::dict_word;
use std::alloc::{AllocError, Global};
use tcl_glob::matches;
use tcl_lists::building::list_value;
use tcl_lists::reading::one_or_two_words;
use tcl_lists::refusing::not_made;
use tcl_text::text::Text;
use tcl_value::dict::Dict;
use tcl_value::list::List;
use tcl_value::value::Value;
use tcl_words::refusal::Refusal;

/// The pattern of a word that may be left out.
fn pattern_of(alloc: Global, word: Option<&Value>) -> Result<Option<Text>, AllocError>
    ensures { IfOk result (λ pattern. pattern ≡ option_copied word.entry) }
{
    match word {
        Some(value) => Ok(Some(value.text(alloc)?)),
        None => Ok(None),
    }
}

/// Whether a text fits a pattern that may be left out.
fn fits(pattern: &Option<Text>, text: &Text) -> bool
    ensures { result ≡ fits pattern.now text.now }
{
    match pattern {
        Some(pattern) => matches(pattern.as_str(), text.as_str(), false),
        None => true,
    }
}

/// Whether the text of a value fits a pattern that may be left out.
fn value_fits(alloc: Global, pattern: &Option<Text>, value: &Value) -> Result<bool, AllocError>
    ensures { IfOk result (λ fit. fit ≡ fits pattern.now value.now) }
{
    match pattern {
        Some(pattern) => {
            let text = value.text(alloc)?;
            Ok(matches(pattern.as_str(), text.as_str(), false))
        }
        None => Ok(true),
    }
}

/// Adds a value to a list.
fn push(alloc: Global, made: &mut List, value: Value) -> Result<(), Refusal>
    ensures pushed { OnOk result (made.new ≡ made.old ++ value ∷ []) }
    ensures refused { (rest : Texts) → IfErr result
        (λ e. Refuses e (list_value (made.old ++ (value ∷ rest)))) }
{
    if let Err(why) = made.push(alloc, value) {
        return Err(not_made(alloc, why));
    }
    Ok(())
}

/// Adds a text to a list.
fn push_text(alloc: Global, made: &mut List, text: Text) -> Result<(), Refusal>
    ensures pushed { OnOk result (made.new ≡ made.old ++ text ∷ []) }
    ensures refused { (rest : Texts) → IfErr result
        (λ e. Refuses e (list_value (made.old ++ (text ∷ rest)))) }
{
    match Value::from_text(text) {
        Ok(value) => push(alloc, made, value),
        Err(why) => Err(not_made(alloc, why)),
    }
}

/// The list of the keys that fit a pattern.
fn keys_value(alloc: Global, pattern: &Option<Text>, dict: &Dict) -> Result<Value, Refusal>
    ensures { Gives (λ value. value) result
        (list_value (filter (fits pattern.now) (keys_in dict.now))) }
{
    let mut made = List::new(alloc)?;
    'entries: for index in 0..dict.len() {
        let key = dict.key(index)?;
        if fits(pattern, &key) {
            push_text(alloc, &mut made, key)?;
        }
    }
    list_value(alloc, made)
}

/// `dict keys dictionary ?pattern?`: the keys in the order in which they came first, those that
/// match the pattern where there is one.
///
/// # Errors
/// 241, 101 to 104, 121, 122; want of memory.
pub fn keys(alloc: Global, words: &[Value]) -> Result<Value, Refusal>
    ensures { Gives (λ value. value) result (keys_of words.now) }
{
    let (word, pattern) = one_or_two_words(alloc, words, "dict keys dictionary ?pattern?")?;
    let dict = dict_word(alloc, word)?;
    let pattern = pattern_of(alloc, pattern)?;
    keys_value(alloc, &pattern, &dict)
}

/// The list of the values that fit a pattern.
fn values_value(alloc: Global, pattern: &Option<Text>, dict: &Dict) -> Result<Value, Refusal>
    ensures { Gives (λ value. value) result
        (list_value (filter (fits pattern.now) (values_in dict.now))) }
{
    let mut made = List::new(alloc)?;
    'entries: for index in 0..dict.len() {
        let value = dict.value(index)?;
        if value_fits(alloc, pattern, &value)? {
            push(alloc, &mut made, value)?;
        }
    }
    list_value(alloc, made)
}

/// `dict values dictionary ?pattern?`: the values in the order of their keys, those that match the
/// pattern where there is one.
///
/// # Errors
/// 241, 101 to 104, 121, 122; want of memory.
pub fn values(alloc: Global, words: &[Value]) -> Result<Value, Refusal>
    ensures { Gives (λ value. value) result (values_of words.now) }
{
    let (word, pattern) = one_or_two_words(alloc, words, "dict values dictionary ?pattern?")?;
    let dict = dict_word(alloc, word)?;
    let pattern = pattern_of(alloc, pattern)?;
    values_value(alloc, &pattern, &dict)
}
