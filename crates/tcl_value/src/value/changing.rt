//! What changes a value: in place where what it is kept as is its own.
ghost use Rattle.std.specs.Prelude.{◌≡◌, ◌≤◌, ◌<◌, ◌++◌, ◌∷◌, ◌↔◌, [], length, Ok, IfOk, OnOk};
ghost use Rattle.std.specs.Prelude.{OnErr, IsErrOf, IfErr, IfSome, Some, false, IsTrue, slice_set};
ghost use Rattle.std.specs.Bool.{OnTrue, OnFalse};
ghost use Rattle.std.specs.Fmt.{signed_decimal};
ghost use Rattle.tcl_value.specs.Limits.{IsWithin, IsPast};
ghost use Rattle.tcl_value.specs.Writing.{write};
ghost use Rattle.tcl_value.specs.Texts.{element_text, texts, flat, ends_in_backslash, IsElement};
ghost use Rattle.tcl_value.specs.Texts.{AreElements};
ghost use Rattle.tcl_value.specs.Inside.{element_put, entry_changed, entry_made, elements_added};
ghost use Rattle.tcl_value.specs.Inside.{key_dropped, IsChange};
ghost use Rattle.tcl_value.specs.Reading.{list_of};
ghost use Rattle.tcl_text.specs.Reading.{Gives};
ghost use Rattle.tcl_value.specs.Changes.{AtList, Refuses};
ghost use Rattle.tcl_value.specs.Dicts.{put, without, dict_of};
ghost use Rattle.tcl_value.specs.DictChanges.{AtDict, RefusesEntry};

use crate::dict::Dict;
use crate::dict_fault::EntryError;
use crate::element::{Change, Element, MOST_DEPTH, change_shared, has_backslash_end, put_inner};
use crate::list::List;
use crate::value::shared::{extend_shared, push_shared, put_shared, remove_shared, set_shared};
use crate::value::{ChangeError, Form, Value, ValueError};
use std::alloc::{AllocError, Global};
use tcl_text::limit::MOST_BYTES;
use tcl_text::text::Text;

impl Value {
    /// Makes it a number, whatever it was. This takes no memory.
    #[inline(always)]
    pub fn set_int(&mut self, n: i64)
        ensures { self.new ≡ signed_decimal n }
    {
        if let Form::Number(own) = &mut self.form {
            *own = n;
            return;
        }
        self.become_int(n);
    }

    /// The same of one that isn't kept as a number. It isn't inlined, so that a change of a
    /// number costs little.
    #[inline(never)]
    fn become_int(&mut self, n: i64)
        ensures { self.new ≡ signed_decimal n }
    {
        *self = Value::from_int(n);
    }

    /// Adds to its text: in place where the text isn't shared.
    ///
    /// # Errors
    /// [`ValueError::TooLong`] exactly where the text would be longer than [`MOST_BYTES`]; want of
    /// memory. Either leaves the value as it was.
    pub fn append(&mut self, alloc: Global, more: &str) -> Result<(), ValueError>
        ensures appended { OnOk result (self.new ≡ self.old ++ more.now) }
        ensures within { OnOk result (IsWithin (self.old ++ more.now)) }
        ensures refused { IsErrOf result ValueError.TooLong ↔ IsPast (self.old ++ more.now) }
        ensures unchanged { OnErr result (self.new ≡ self.old) }
    {
        if more.len() > MOST_BYTES - self.text_len() {
            return Err(ValueError::TooLong);
        }
        self.forget_reading()?;
        if let Form::Text(text) = &mut self.form {
            text.append(more)?;
            return Ok(());
        }
        let mut text = self.text(alloc)?;
        text.append(more)?;
        *self = Value::from_short_text(text);
        Ok(())
    }

    /// Adds an element to the list that it reads as: in place where it is kept as a list that isn't
    /// shared.
    ///
    /// # Errors
    /// [`ChangeError::List`] exactly where the text spells no list, [`ChangeError::TooLong`]
    /// exactly where the list's text would be longer than [`MOST_BYTES`]; want of memory. Any
    /// leaves the value as it was.
    pub fn push(&mut self, alloc: Global, value: Value) -> Result<(), ChangeError>
        ensures pushed { OnOk result (AtList (list_of self.old)
            (λ list. (self.new ≡ write (list ++ value ∷ [])) × IsWithin
            (write (list ++ value ∷ [])))) }
        ensures refused { IfErr result
            (λ e. Refuses e (list_of self.old) (λ list. IsPast (write (list ++ value ∷ [])))
            (λ _. ⊥)) }
        ensures unchanged { OnErr result (self.new ≡ self.old) }
    {
        let element = value.into_element(alloc)?;
        if let Form::List(items) = &mut self.form {
            return push_shared(items, element);
        }
        let mut list = self.to_list(alloc)?;
        self.forget_reading()?;
        list.push_element(element)?;
        *self = Value::from_list(alloc, list)?;
        Ok(())
    }

    /// Adds elements to the list that it reads as, all of them or none: in place where it is kept
    /// as a list that isn't shared.
    ///
    /// # Errors
    /// [`ChangeError::List`] exactly where the text spells no list, [`ChangeError::TooLong`]
    /// exactly where the list's text would be longer than [`MOST_BYTES`]; want of memory. Any
    /// leaves the value as it was.
    pub fn extend(&mut self, alloc: Global, values: &[Value]) -> Result<(), ChangeError>
        ensures extended { OnOk result (AtList (list_of self.old)
            (λ list. (self.new ≡ write (list ++ values.now)) × IsWithin
            (write (list ++ values.now)))) }
        ensures refused { IfErr result
            (λ e. Refuses e (list_of self.old) (λ list. IsPast (write (list ++ values.now)))
            (λ _. ⊥)) }
        ensures unchanged { OnErr result (self.new ≡ self.old) }
    {
        let elements = elements_of(alloc, values)?;
        if let Form::List(items) = &mut self.form {
            return extend_shared(items, elements);
        }
        let mut list = self.to_list(alloc)?;
        self.forget_reading()?;
        list.extend_elements(elements)?;
        *self = Value::from_list(alloc, list)?;
        Ok(())
    }

    /// Puts an element in the place of another in the list that it reads as: in place where it is
    /// kept as a list that isn't shared.
    ///
    /// # Errors
    /// [`ChangeError::List`] exactly where the text spells no list, [`ChangeError::NoElement`]
    /// exactly where the list has no element at the place, [`ChangeError::TooLong`] exactly where
    /// the list's text would be longer than [`MOST_BYTES`]; want of memory. Any leaves the value as
    /// it was.
    pub fn set_at(&mut self, alloc: Global, index: usize, value: Value) -> Result<(), ChangeError>
        ensures set { OnOk result (AtList (list_of self.old)
            (λ list. (index < length list) × (self.new ≡ write (slice_set list index value)) ×
            IsWithin (write (slice_set list index value)))) }
        ensures refused { IfErr result
            (λ e. Refuses e (list_of self.old) (λ list. IsPast (write (slice_set list index value)))
            (λ list. length list ≤ index)) }
        ensures unchanged { OnErr result (self.new ≡ self.old) }
    {
        let element = value.into_element(alloc)?;
        if let Form::List(items) = &mut self.form {
            return set_shared(items, index, element);
        }
        let mut list = self.to_list(alloc)?;
        self.forget_reading()?;
        list.set_element(index, element)?;
        *self = Value::from_list(alloc, list)?;
        Ok(())
    }

    /// Puts an element in the place of another in the list that it is kept as: in place where that
    /// isn't shared. Says whether it did; where it didn't, nothing is changed, and the change is
    /// one to be made otherwise.
    pub fn replace_at(&mut self, alloc: Global, place: usize, value: &Value) -> bool
        ensures set { OnTrue result (AtList (list_of self.old)
            (λ list. (place < length list) × (self.new ≡ write (slice_set list place value.now)) ×
            IsWithin (write (slice_set list place value.now)))) }
        ensures unchanged { OnFalse result (self.new ≡ self.old) }
    {
        let Ok(element) = own_element(alloc, value) else {
            return false;
        };
        if let Form::List(items) = &mut self.form {
            return set_shared(items, place, element).is_ok();
        }
        false
    }

    /// Gives a key a value in the dict that it reads as: in place where it is kept as a dict that
    /// isn't shared.
    ///
    /// # Errors
    /// [`EntryError::Fault`] exactly where the text spells no dict, [`EntryError::TooLong`] exactly
    /// where the dict's text would be longer than [`MOST_BYTES`]; want of memory. Any leaves the
    /// value as it was.
    pub fn set_key(&mut self, alloc: Global, key: &Value, value: Value) -> Result<(), EntryError>
        ensures set { OnOk result (AtDict (dict_of self.old)
            (λ es. (self.new ≡ write (flat (put es key.now value))) × IsWithin
            (write (flat (put es key.now value))))) }
        ensures refused { IfErr result
            (λ e. RefusesEntry e (dict_of self.old)
            (λ es. IsPast (write (flat (put es key.now value))))) }
        ensures unchanged { OnErr result (self.new ≡ self.old) }
    {
        let key = key.key_text(alloc)?;
        let element = value.into_element(alloc)?;
        if let Form::Dict(entries) = &mut self.form {
            entries.reads_back();
            return put_shared(entries, key, element);
        }
        let mut dict = self.to_dict(alloc)?;
        self.forget_reading()?;
        dict.set_element(key, element)?;
        *self = Value::from_dict(dict)?;
        Ok(())
    }

    /// Removes a key, if it is there, from the dict that it reads as: in place where it is kept as
    /// a dict that isn't shared.
    ///
    /// # Errors
    /// [`EntryError::Fault`] exactly where the text spells no dict, [`EntryError::TooLong`] exactly
    /// where the text of what is left would be longer than [`MOST_BYTES`]; want of memory. Any
    /// leaves the value as it was.
    pub fn remove_key(&mut self, alloc: Global, key: &Text) -> Result<(), EntryError>
        ensures removed { OnOk result (AtDict (dict_of self.old)
            (λ es. (self.new ≡ write (flat (without es key.now))) × IsWithin
            (write (flat (without es key.now))))) }
        ensures refused { IfErr result
            (λ e. RefusesEntry e (dict_of self.old)
            (λ es. IsPast (write (flat (without es key.now))))) }
        ensures unchanged { OnErr result (self.new ≡ self.old) }
    {
        if let Form::Dict(entries) = &mut self.form {
            entries.reads_back();
            return remove_shared(entries, key);
        }
        let mut dict = self.to_dict(alloc)?;
        self.forget_reading()?;
        dict.remove(key)?;
        *self = Value::from_dict(dict)?;
        Ok(())
    }

    /// Puts an element at a path of places in it, where the lists on the way are kept as lists.
    fn put_element(&mut self, path: &[usize], element: Element) -> bool
        requires element { IsElement element }
        requires ends { ends_in_backslash (element_text element) ≡ false }
        ensures put { OnTrue result
            (element_put path.now (element_text element) self.old ≡ Some self.new) }
        ensures unchanged { OnFalse result (self.new ≡ self.old) }
    {
        let room = MOST_BYTES - self.text_len();
        if let Form::List(items) = &mut self.form {
            return put_inner(items, path, element, room);
        }
        false
    }

    /// Changes what stands at the end of a path of keys in it, where the dicts on the way are kept
    /// as dicts.
    fn change_entry(&mut self, alloc: Global, path: &[Value], change: Change) -> bool
        requires { IsChange change }
        ensures changed { OnTrue result (entry_changed path.now change self.old ≡ Some self.new) }
        ensures unchanged { OnFalse result (self.new ≡ self.old) }
    {
        let room = MOST_BYTES - self.text_len();
        if let Form::Dict(entries) = &mut self.form {
            return change_shared(entries, alloc, path, change, room);
        }
        false
    }

    /// Puts an element at a path of places in the lists that stand in one another, where each of
    /// them is kept as a list: in place where it isn't shared. Says whether it did; where it
    /// didn't, nothing is changed, and the change is one to be made otherwise.
    pub fn put_inside(&mut self, alloc: Global, path: &[usize], value: &Value) -> bool
        ensures put { OnTrue result (element_put path.now value.now self.old ≡ Some self.new) }
        ensures unchanged { OnFalse result (self.new ≡ self.old) }
    {
        match inner_element(alloc, value, path.len()) {
            Some(element) => self.put_element(path, element),
            None => false,
        }
    }

    /// Gives a value to a path of keys in the dicts that stand in one another, where each of them
    /// is kept as a dict: in place where it isn't shared. Says whether it did; where it didn't,
    /// nothing is changed, and the change is one to be made otherwise.
    pub fn set_inside(&mut self, alloc: Global, path: &[Value], value: &Value) -> bool
        ensures set { OnTrue result
            (entry_made path.now (λ _. Some value.now) self.old ≡ Some self.new) }
        ensures unchanged { OnFalse result (self.new ≡ self.old) }
    {
        match inner_element(alloc, value, path.len()) {
            Some(element) => self.change_entry(alloc, path, Change::Value(element)),
            None => false,
        }
    }

    /// Adds to the value at the end of a path of keys, where the dicts on the way are kept as dicts
    /// and the value as a text: in place where they aren't shared. Says whether it did; where it
    /// didn't, nothing is changed, and the change is one to be made otherwise.
    pub fn append_inside(&mut self, alloc: Global, path: &[Value], more: Text) -> bool
        ensures appended { OnTrue result (entry_made path.now
            (λ text. Some (text ++ more)) self.old ≡ Some self.new) }
        ensures unchanged { OnFalse result (self.new ≡ self.old) }
    {
        if more.is_empty() || has_backslash_end(more.as_str().as_bytes()) {
            return false;
        }
        self.change_entry(alloc, path, Change::Text(more))
    }

    /// Adds elements to the list at the end of a path of keys, where the dicts on the way are kept
    /// as dicts and the list as a list: in place where they aren't shared. Says whether it did;
    /// where it didn't, nothing is changed, and the change is one to be made otherwise.
    pub fn extend_inside(&mut self, alloc: Global, path: &[Value], values: &[Value]) -> bool
        ensures extended { OnTrue result (entry_made path.now (elements_added values.now) self.old
            ≡ Some self.new) }
        ensures unchanged { OnFalse result (self.new ≡ self.old) }
    {
        let Ok(elements) = elements_of(alloc, values) else {
            return false;
        };
        if !may_come_last(&elements, path.len()) {
            return false;
        }
        self.change_entry(alloc, path, Change::Elements(elements))
    }

    /// Removes a key, if it is there, from the dict at the end of a path of keys, where that dict
    /// and those on the way are kept as dicts: in place where they aren't shared. Says whether it
    /// did; where it didn't, nothing is changed, and the change is one to be made otherwise.
    pub fn remove_inside(&mut self, alloc: Global, path: &[Value], key: &Value) -> bool
        ensures removed { OnTrue result
            (entry_made path.now (key_dropped key.now) self.old ≡ Some self.new) }
        ensures unchanged { OnFalse result (self.new ≡ self.old) }
    {
        match key.text(alloc) {
            Ok(key) => self.change_entry(alloc, path, Change::Without(key)),
            Err(_) => false,
        }
    }
}

/// A value as an element that may stand so many levels deep in lists and dicts that carry no text,
/// if it is one.
fn inner_element(alloc: Global, value: &Value, levels: usize) -> Option<Element>
    ensures text { IfSome result (λ element. element_text element ≡ value.now) }
    ensures element { IfSome result IsElement }
    ensures ends { IfSome result (λ element. ends_in_backslash (element_text element) ≡ false) }
{
    let Ok(element) = own_element(alloc, value) else {
        return None;
    };
    if element.ends_in_backslash() || !stands_in(&element, levels) {
        return None;
    }
    Some(element)
}

/// A clone of a value as an element.
fn own_element(alloc: Global, value: &Value) -> Result<Element, AllocError>
    ensures text { IfOk result (λ element. element_text element ≡ value.now) }
    ensures element { IfOk result IsElement }
{
    match &value.form {
        Form::Number(n) => Ok(Element::Number(*n)),
        Form::Text(text) => Ok(Element::Text(text.clone()?)),
        _ => value.share()?.into_element(alloc),
    }
}

/// Whether lists and dicts aren't too deep in one another where an element stands so many levels
/// deep.
fn stands_in(element: &Element, levels: usize) -> bool {
    let most = MOST_DEPTH as usize;
    levels < most && element.depth() as usize + levels < most
}

/// Whether elements may come last in a list that stands so many levels deep in lists and dicts that
/// carry no text.
fn may_come_last(elements: &[Element], levels: usize) -> bool
    requires { AreElements elements.now }
    ensures some { IsTrue result → 1 ≤ length elements.now }
    ensures ends { IsTrue result → ends_in_backslash (write (texts elements.now)) ≡ false }
{
    match elements.last() {
        None => false,
        Some(last) => !last.ends_in_backslash()
            && elements.iter().all(|element| stands_in(element, levels)),
    }
}

/// Values as the elements of a list.
fn elements_of(alloc: Global, values: &[Value]) -> Result<Vec<Element>, AllocError>
    ensures texts { IfOk result (λ made. texts made.items ≡ values.now) }
    ensures elements { IfOk result (λ made. AreElements made.items) }
{
    let mut elements = Vec::with_capacity(alloc, values.len())?;
    'values: for value in values {
        elements.push(value.clone()?.into_element(alloc)?)?;
    }
    Ok(elements)
}
