//! How dicts are read from words, made values, and refused.
ghost use Rattle.std.specs.Prelude.{◌≡◌, ℕ, List, Err};
ghost use Rattle.tcl_words.specs.Outcomes.{Gives, Refuses};
ghost use Rattle.tcl_value.specs.DictMessages.{dict_message};
ghost use Rattle.tcl_dicts.specs.Dicts.{dict_word, dict_value};
ghost use Rattle.tcl_lists.specs.Errors.{unknown_key};
ghost use Rattle.tcl_dicts.specs.Refusing.{RefusesEntry};

use std::alloc::Global;
use tcl_lists::fault::unknown_key_message;
use tcl_lists::refusing::not_made;
use tcl_value::dict::Dict;
use tcl_value::dict_fault::{DictError, DictFault, EntryError};
use tcl_value::value::Value;
use tcl_words::refusal::{Refusal, too_long};

/// What is told of a text that spells no dict.
pub fn no_dict(alloc: Global, fault: &DictFault) -> Refusal
    ensures { Refuses {X = List ℕ} result (Err (dict_message fault.now)) }
{
    match fault.message(alloc) {
        Ok(text) => Refusal::Fault(text),
        Err(_) => Refusal::Memory,
    }
}

/// The dict of a value, which keeps it.
///
/// # Errors
/// 101 to 104 where its text spells no list, 121 where the last key has no value; want of memory.
pub fn own_dict(alloc: Global, own: &mut Value) -> Result<Dict, Refusal>
    ensures read { Gives (λ dict. dict) result (dict_word own.old) }
    ensures text { own.new ≡ own.old }
{
    match own.as_dict(alloc) {
        Ok(dict) => Ok(dict),
        Err(DictError::Fault(fault)) => Err(no_dict(alloc, &fault)),
        Err(DictError::Memory) => Err(Refusal::Memory),
    }
}

/// The dict of a word, which is shared where the word is kept as one.
///
/// # Errors
/// 101 to 104 where its text spells no list, 121 where the last key has no value; want of memory.
pub fn dict_word(alloc: Global, word: &Value) -> Result<Dict, Refusal>
    ensures { Gives (λ dict. dict) result (dict_word word.now) }
{
    let mut own = word.clone()?;
    own_dict(alloc, &mut own)
}

/// The value of a dict.
///
/// # Errors
/// 122; want of memory.
pub fn dict_value(alloc: Global, dict: Dict) -> Result<Value, Refusal>
    ensures { Gives (λ value. value) result (dict_value dict) }
{
    match Value::from_dict(dict) {
        Ok(value) => Ok(value),
        Err(why) => Err(not_made(alloc, why)),
    }
}

/// What is told of a key that a dict hasn't (242).
pub fn unknown_key(alloc: Global, key: &str) -> Refusal
    ensures { Refuses {X = List ℕ} result (Err (unknown_key key.now)) }
{
    match unknown_key_message(alloc, key) {
        Ok(text) => Refusal::Fault(text),
        Err(_) => Refusal::Memory,
    }
}

/// What is told of a dict in a value that isn't changed.
pub fn not_changed(alloc: Global, why: EntryError) -> Refusal
    ensures { RefusesEntry result why }
{
    match why {
        EntryError::Memory => Refusal::Memory,
        EntryError::TooLong => too_long(alloc),
        EntryError::Fault(fault) => no_dict(alloc, &fault),
    }
}
