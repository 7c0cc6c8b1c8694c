//! Dicts, whose values are values.
ghost use Rattle.std.specs.Prelude.{◌≡◌, ◌<◌, ◌≤◌, ◌==◌, ◌%◌, ◌↔◌, [], length, IfOk, OnOk, OnErr};
ghost use Rattle.std.specs.Prelude.{IsErrOf, IsTrue, is_some, slice_index_or};
ghost use Rattle.tcl_value.specs.Limits.{IsWithin, IsPast};
ghost use Rattle.tcl_value.specs.Writing.{write};
ghost use Rattle.tcl_value.specs.Texts.{flat, element_text, IsElement};
ghost use Rattle.tcl_value.specs.Dicts.{put, without, value_of, dict_of_list, GivesDict};

use crate::dict_fault::{DictError, DictFault};
use crate::element::Element;
use crate::entries::{Entries, MOST_WEIGHT};
use crate::list::List;
use crate::value::{Value, ValueError};
use std::alloc::{AllocError, Global};
use std::marker::Model;
use std::rc::Rc;
use tcl_text::text::Text;

/// A dict, which contracts see as the list of its keys with their values, in the order in which the
/// keys came first.
///
/// A clone shares the entries. A dict that isn't shared is changed in place.
pub struct Dict {
    entries: Rc<Entries>,
}

impl Drop for Dict {
    fn drop(self) {
        let Dict { entries: _entries } = self;
    }
}

impl Model for Dict {
    ghost use Rattle.std.specs.Prelude.{ℕ, List};

    ghost Value = { List (List ℕ × List ℕ) };

    ghost view = { λ a. a.entries.value };
}

impl Dict {
    /// The dict with no entry.
    ///
    /// # Errors
    /// Want of memory.
    pub fn new(alloc: Global) -> Result<Dict, AllocError>
        ensures { IfOk result (λ dict. dict ≡ []) }
    {
        let entries = Rc::new(alloc, Entries::new(alloc))?;
        Ok(Dict { entries })
    }

    /// The dict of these entries.
    pub(crate) fn from_entries(entries: Rc<Entries>) -> Dict
        ensures { result ≡ entries.value }
    {
        Dict { entries }
    }

    /// Its entries.
    pub(crate) fn into_entries(self) -> Rc<Entries>
        ensures { result.value ≡ self }
    {
        let Dict { entries } = self;
        entries
    }

    /// The dict of a list of keys and values in turn: a repeated key keeps its first place and its
    /// last value.
    ///
    /// # Errors
    /// [`DictFault::MissingValue`] exactly where the list has an odd number of elements; want of
    /// memory.
    pub fn from_list(alloc: Global, list: &List) -> Result<Dict, DictError>
        ensures { GivesDict result (dict_of_list list.now) }
    {
        if list.len() % 2 == 1 {
            return Err(DictError::Fault(DictFault::MissingValue));
        }
        let entries = Rc::new(alloc, Entries::read(alloc, list.items())?)?;
        Ok(Dict { entries })
    }

    /// The list of its keys and values in turn.
    ///
    /// # Errors
    /// Want of memory.
    pub fn to_list(&self, alloc: Global) -> Result<List, AllocError>
        ensures { IfOk result (λ list. list ≡ flat self.now) }
    {
        List::of_entries(alloc, &self.entries)
    }

    /// Whether its text is short enough for a value.
    pub fn is_within(&self) -> bool
        ensures { IsTrue result ↔ IsWithin (write (flat self.now)) }
    {
        self.entries.is_within()
    }

    /// How many entries it has.
    pub fn len(&self) -> usize
        ensures { result ≡ length self.now }
    {
        self.entries.len()
    }

    /// Whether it has no entry.
    pub fn is_empty(&self) -> bool
        ensures { result ≡ (length self.now == 0) }
    {
        self.entries.len() == 0
    }

    /// Whether it has a key. This takes no memory.
    pub fn contains_key(&self, key: &Text) -> bool
        ensures { result ≡ is_some (value_of self.now key.now) }
    {
        self.entries.get(key).is_some()
    }

    /// The value of a key.
    ///
    /// # Errors
    /// Want of memory.
    pub fn get(&self, key: &Text) -> Result<Option<Value>, AllocError>
        ensures { IfOk result (λ found. found ≡ value_of self.now key.now) }
    {
        match self.entries.get(key) {
            Some(element) => Ok(Some(Value::from_element(element)?)),
            None => Ok(None),
        }
    }

    /// The key at a place, in the order in which the keys came first.
    ///
    /// # Errors
    /// Want of memory.
    pub fn key(&self, index: usize) -> Result<Text, AllocError>
        requires { index < length self.now }
        ensures { IfOk result (λ key. key ≡ (slice_index_or self.now index (key, [])).0) }
    {
        self.entries.key(index).clone()
    }

    /// The value at a place, in the order in which the keys came first.
    ///
    /// # Errors
    /// Want of memory.
    pub fn value(&self, index: usize) -> Result<Value, AllocError>
        requires { index < length self.now }
        ensures { IfOk result (λ value. value ≡ (slice_index_or self.now index ([], value)).1) }
    {
        Value::from_element(self.entries.value(index))
    }

    /// Gives a key a value: where the key stands, or at the end; in place where the dict isn't
    /// shared.
    pub(crate) fn set_element(&mut self, key: Text, element: Element) -> Result<(), ValueError>
        requires key { IsWithin key }
        requires element { IsElement element }
        ensures set { OnOk result (self.new ≡ put self.old key (element_text element)) }
        ensures within { OnOk result (IsWithin (write (flat self.new))) }
        ensures refused { IsErrOf result ValueError.TooLong →
            IsPast (write (flat (put self.old key (element_text element)))) }
        ensures unchanged { OnErr result (self.new ≡ self.old) }
    {
        Rc::make_mut(&mut self.entries)?.set(key, element)
    }

    /// Gives a key a value: where the key stands, or at the end; in place where the dict isn't
    /// shared.
    ///
    /// # Errors
    /// [`ValueError::TooLong`] only where the dict's text would be too long for a value; want of
    /// memory. Either leaves the dict as it was.
    pub fn set(&mut self, alloc: Global, key: &Value, value: Value) -> Result<(), ValueError>
        ensures set { OnOk result (self.new ≡ put self.old key.now value) }
        ensures within { OnOk result (IsWithin (write (flat self.new))) }
        ensures refused { IsErrOf result ValueError.TooLong →
            IsPast (write (flat (put self.old key.now value))) }
        ensures unchanged { OnErr result (self.new ≡ self.old) }
    {
        let key = key.key_text(alloc)?;
        let element = value.into_element(alloc)?;
        self.set_element(key, element)
    }

    /// Gives a key a value, however long the dict's text then is: where the key stands, or at the
    /// end; in place where the dict isn't shared.
    ///
    /// # Errors
    /// Want of memory, which leaves the dict as it was.
    pub fn put(&mut self, alloc: Global, key: &Value, value: Value) -> Result<(), AllocError>
        ensures put { OnOk result (self.new ≡ put self.old key.now value) }
        ensures unchanged { OnErr result (self.new ≡ self.old) }
    {
        let key = key.key_text(alloc)?;
        let element = value.into_element(alloc)?;
        Rc::make_mut(&mut self.entries)?.put_any(key, element)
    }

    /// Removes a key, if it is there, however long the text of what is left is: in place where the
    /// dict isn't shared.
    ///
    /// # Errors
    /// Want of memory, which leaves the dict as it was.
    pub fn drop_key(&mut self, key: &Text) -> Result<(), AllocError>
        ensures removed { OnOk result (self.new ≡ without self.old key.now) }
        ensures unchanged { OnErr result (self.new ≡ self.old) }
    {
        Rc::make_mut(&mut self.entries)?.remove_any(key)
    }

    /// Removes a key, if it is there: in place where the dict isn't shared.
    ///
    /// # Errors
    /// [`ValueError::TooLong`] only where the text of what is left would be too long for a value;
    /// want of memory. Either leaves the dict as it was.
    pub fn remove(&mut self, key: &Text) -> Result<(), ValueError>
        ensures removed { OnOk result (self.new ≡ without self.old key.now) }
        ensures within { OnOk result (IsWithin (write (flat self.new))) }
        ensures refused { IsErrOf result ValueError.TooLong →
            IsPast (write (flat (without self.old key.now))) }
        ensures unchanged { OnErr result (self.new ≡ self.old) }
    {
        Rc::make_mut(&mut self.entries)?.remove(key)
    }
}

impl Clone for Dict {
    ghost is_clone = { λ x y. y ≡ x };

    fn clone(&self) -> Result<Dict, AllocError> {
        let entries = self.entries.clone()?;
        Ok(Dict { entries })
    }
}
