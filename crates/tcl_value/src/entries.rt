//! Dicts that carry no text.
ghost use Rattle.std.specs.Prelude.{◌≡◌, ◌≤◌, ◌<◌, ◌+◌, ◌++◌, ◌∷◌, ◌↔◌, [], length, IfOk, OnOk};
ghost use Rattle.std.specs.Prelude.{OnErr, IfErr, IsErrOf, IsTrue, IfSome, MatchOption, option_map};
ghost use Rattle.std.specs.Prelude.{slice_index_or};
ghost use Rattle.std.specs.Bool.{OnTrue, OnFalse};
ghost use Rattle.std.specs.String.{string_bytes};
ghost use Rattle.tcl_text.specs.Writing.{Extends};
ghost use Rattle.tcl_value.specs.Limits.{IsWithin, IsPast};
ghost use Rattle.tcl_value.specs.Writing.{write, write_element};
ghost use Rattle.tcl_value.specs.Texts.{texts, flat, element_text, IsElement, IsInner, AreElements};
ghost use Rattle.tcl_value.specs.Texts.{weight, element_shown, ends_in_backslash};
ghost use Rattle.tcl_value.specs.Dicts.{put, without, value_of, put_all, place_of, value_set};
ghost use Rattle.tcl_value.specs.Dicts.{entry_dropped};
ghost use Rattle.tcl_value.specs.Inside.{DictChange, IsChange};

use crate::element::{Change, Element, MOST_DEPTH, behind_key};
use crate::items::Items;
use crate::value::{Value, ValueError};
use indexmap::IndexSet;
use std::alloc::{AllocError, Global};
use std::marker::Model;
use tcl_text::list::{write_element, written_len};
use tcl_text::text::Text;

/// The weight of a dict whose text is as long as a value may be: its bytes and one more.
pub(crate) const MOST_WEIGHT: u128 = 16_777_217;

/// The entries of a dict: keys in the order in which they came, and at the same places their
/// values.
#[cycle(element)]
pub(crate) struct Entries {
    keys: IndexSet<Text>,
    values: Vec<Element>,
    weight: u128,
    depth: u32,
}

impl Drop for Entries {
    #[cycle(element)]
    fn drop(self) {
        let Entries {
            keys: _keys,
            values: _values,
            weight: _weight,
            depth: _depth,
        } = self;
    }
}

impl Model for Entries {
    ghost use Rattle.std.specs.Prelude.{List, ℕ, length};

    ghost Value = { List (List ℕ × List ℕ) };

    ghost use Rattle.std.proofs.Common.{arith};
    ghost use Rattle.tcl_value.specs.Writing.{write};
    ghost use Rattle.tcl_value.specs.Texts.{texts, pairs, flat, IsEntries};

    ghost view = { λ a. pairs a.keys.keys (texts a.values.items) };

    ghost invariant = { λ a. IsEntries a.weight a.keys.keys (texts a.values.items) a.values.items };

    ghost size = { λ v. length (write (flat v)) };

    ghost use Rattle.tcl_value.specs.Falls.{entries_fall};

    ghost size_decreases = { λ a h.
        Prim.omega (arith, entries_fall a.weight a.keys.keys a.values.items h) };
}

impl Entries {
    /// The dict with no entry.
    pub(crate) fn new(alloc: Global) -> Entries
        ensures { result ≡ [] }
    {
        Entries {
            keys: IndexSet::new(alloc),
            values: Vec::new(alloc),
            weight: 0,
            depth: 0,
        }
    }

    /// How many entries it has.
    pub(crate) fn len(&self) -> usize
        ensures { result ≡ length self.now }
    {
        self.values.len()
    }

    /// Where a key stands.
    pub(crate) fn find(&self, key: &Text) -> Option<usize>
        ensures { MatchOption result (place_of self.now key.now ≡ length self.now)
            (λ i. (place_of self.now key.now ≡ i) × (i < length self.now)) }
    {
        self.keys.get_index_of(key)
    }

    /// The key at a place.
    pub(crate) fn key(&self, index: usize) -> &Text
        requires { index < length self.now }
        ensures key { result.now ≡ (slice_index_or self.now index (result.now, [])).0 }
        ensures within { IsWithin result.now }
    {
        self.keys.get_index(index).unwrap()
    }

    /// The value at a place.
    pub(crate) fn value(&self, index: usize) -> &Element
        requires { index < length self.now }
        ensures text { element_text result.now ≡ (slice_index_or self.now index
            ([], element_text result.now)).1 }
        ensures element { IsElement result.now }
    {
        &self.values[index]
    }

    /// What it would weigh with a value in the place of another.
    fn weight_with_at(&self, index: usize, value: &Element) -> u128
        requires element { IsElement value.now }
        requires in_bounds { index < length self.now }
        ensures { result ≡ weight (flat (value_set self.now index (element_text value.now))) }
    {
        let less = self.values[index].written_len(false);
        let more = value.written_len(false);
        self.weight + more as u128 - less as u128
    }

    /// Puts a value in the place of another, where it then weighs at most this much.
    fn set_at(&mut self, index: usize, value: Element, most: u128) -> Result<(), ValueError>
        requires element { IsElement value }
        requires in_bounds { index < length self.old }
        ensures set { OnOk result (self.new ≡ value_set self.old index (element_text value)) }
        ensures light { OnOk result (weight (flat self.new) ≤ most) }
        ensures refused { IsErrOf result ValueError.TooLong ↔
            (most < weight (flat (value_set self.old index (element_text value)))) }
        ensures unchanged { OnErr result (self.new ≡ self.old) }
    {
        let weight = self.weight_with_at(index, &value);
        if weight > most {
            return Err(ValueError::TooLong);
        }
        let depth = self.depth.max(value.depth());
        self.values[index] = value;
        self.weight = weight;
        self.depth = depth;
        Ok(())
    }

    /// What it would weigh with one more entry.
    fn weight_with(&self, key: &Text, value: &Element) -> u128
        requires key { IsWithin key.now }
        requires element { IsElement value.now }
        ensures { result ≡ weight (flat (self.now ++ (key.now, element_text value.now) ∷ [])) }
    {
        let first = self.values.is_empty();
        let more = written_len(key.as_str(), first) as u128 + value.written_len(false) as u128;
        self.weight + more + 2
    }

    /// Adds an entry at the end, where it then weighs at most this much.
    fn add(&mut self, key: Text, value: Element, most: u128) -> Result<(), ValueError>
        requires key { IsWithin key }
        requires new { place_of self.old key ≡ length self.old }
        requires element { IsElement value }
        ensures added { OnOk result (self.new ≡ self.old ++ (key, element_text value) ∷ []) }
        ensures light { OnOk result (weight (flat self.new) ≤ most) }
        ensures refused { IsErrOf result ValueError.TooLong ↔
            (most < weight (flat (self.old ++ (key, element_text value) ∷ []))) }
        ensures unchanged { OnErr result (self.new ≡ self.old) }
    {
        let weight = self.weight_with(&key, &value);
        if weight > most {
            return Err(ValueError::TooLong);
        }
        let depth = self.depth.max(value.depth());
        self.values.reserve(1)?;
        self.keys.insert(key)?;
        self.values.push_reserved(value);
        self.weight = weight;
        self.depth = depth;
        Ok(())
    }

    /// Gives a key a value, where it then weighs at most this much: where the key stands, or at the
    /// end.
    ///
    /// # Errors
    /// [`ValueError::TooLong`] exactly where it would weigh more; want of memory.
    pub(crate) fn put(&mut self, key: Text, value: Element, most: u128) -> Result<(), ValueError>
        requires key { IsWithin key }
        requires element { IsElement value }
        ensures put { OnOk result (self.new ≡ put self.old key (element_text value)) }
        ensures light { OnOk result (weight (flat self.new) ≤ most) }
        ensures refused { IsErrOf result ValueError.TooLong ↔
            (most < weight (flat (put self.old key (element_text value)))) }
        ensures unchanged { OnErr result (self.new ≡ self.old) }
    {
        match self.find(&key) {
            Some(index) => self.set_at(index, value, most),
            None => self.add(key, value, most),
        }
    }

    /// Gives a key a value, whatever it then weighs.
    pub(crate) fn put_any(&mut self, key: Text, value: Element) -> Result<(), AllocError>
        requires key { IsWithin key }
        requires element { IsElement value }
        ensures put { OnOk result (self.new ≡ put self.old key (element_text value)) }
        ensures unchanged { OnErr result (self.new ≡ self.old) }
    {
        match self.put(key, value, u128::MAX) {
            Ok(()) => Ok(()),
            Err(_) => Err(AllocError),
        }
    }

    /// What it would weigh without an entry.
    fn weight_without(&self, index: usize) -> u128
        requires { index < length self.now }
        ensures { result ≡ weight (flat (entry_dropped self.now index)) }
    {
        let key = written_len(self.key(index).as_str(), index == 0) as u128;
        let value = self.value(index).written_len(false) as u128;
        let rest = self.weight - (key + value + 2);
        if index > 0 || self.len() == 1 {
            return rest;
        }
        let next = self.key(1).as_str();
        let less = written_len(next, false) as u128;
        let more = written_len(next, true) as u128;
        rest - less + more
    }

    /// Removes the entry at a place, where it then weighs at most this much.
    fn remove_at(&mut self, index: usize, most: u128) -> Result<(), ValueError>
        requires { index < length self.old }
        ensures removed { OnOk result (self.new ≡ entry_dropped self.old index) }
        ensures light { OnOk result (weight (flat self.new) ≤ most) }
        ensures refused { IsErrOf result ValueError.TooLong ↔
            (most < weight (flat (entry_dropped self.old index))) }
        ensures unchanged { OnErr result (self.new ≡ self.old) }
    {
        let weight = self.weight_without(index);
        if weight > most {
            return Err(ValueError::TooLong);
        }
        let _ = self.keys.shift_remove_index(index);
        let _ = self.values.remove(index);
        self.weight = weight;
        Ok(())
    }

    /// Removes a key, if it is there, whatever is left weighs.
    pub(crate) fn remove_any(&mut self, key: &Text) -> Result<(), AllocError>
        ensures removed { OnOk result (self.new ≡ without self.old key.now) }
        ensures unchanged { OnErr result (self.new ≡ self.old) }
    {
        let Some(index) = self.find(key) else {
            return Ok(());
        };
        match self.remove_at(index, u128::MAX) {
            Ok(()) => Ok(()),
            Err(_) => Err(AllocError),
        }
    }

    /// The dict of keys and values in turn, where a repeated key keeps its first place and its last
    /// value.
    ///
    /// # Errors
    /// Want of memory.
    pub(crate) fn read(alloc: Global, items: &Items) -> Result<Entries, AllocError>
        ensures { IfOk result (λ entries. entries ≡ put_all [] items.now) }
    {
        let mut entries = Entries::new(alloc);
        'pairs: for pair in 0..items.len() / 2 {
            let key = items.get(2 * pair).text(alloc)?;
            let value = items.get(2 * pair + 1).clone()?;
            entries.put_any(key, value)?;
        }
        Ok(entries)
    }

    /// The value of a key.
    pub(crate) fn get(&self, key: &Text) -> Option<&Element>
        ensures text { option_map element_shown result ≡ value_of self.now key.now }
        ensures element { IfSome result (λ element. IsElement element.now) }
    {
        match self.find(key) {
            Some(index) => Some(self.value(index)),
            None => None,
        }
    }

    /// Whether its text is short enough for a value.
    pub(crate) fn is_within(&self) -> bool
        ensures { IsTrue result ↔ IsWithin (write (flat self.now)) }
    {
        self.weight <= MOST_WEIGHT
    }

    /// Gives a key a value: where the key stands, or at the end.
    ///
    /// # Errors
    /// [`ValueError::TooLong`] exactly where the text would be too long for a value; want of
    /// memory.
    pub(crate) fn set(&mut self, key: Text, value: Element) -> Result<(), ValueError>
        requires key { IsWithin key }
        requires element { IsElement value }
        ensures set { OnOk result (self.new ≡ put self.old key (element_text value)) }
        ensures within { OnOk result (IsWithin (write (flat self.new))) }
        ensures refused { IsErrOf result ValueError.TooLong ↔ IsPast
            (write (flat (put self.old key (element_text value)))) }
        ensures unchanged { OnErr result (self.new ≡ self.old) }
    {
        self.put(key, value, MOST_WEIGHT)
    }

    /// Removes a key, if it is there.
    ///
    /// # Errors
    /// [`ValueError::TooLong`] only where the text of what is left would be too long for a value.
    pub(crate) fn remove(&mut self, key: &Text) -> Result<(), ValueError>
        ensures removed { OnOk result (self.new ≡ without self.old key.now) }
        ensures within { OnOk result (IsWithin (write (flat self.new))) }
        ensures refused { IsErrOf result ValueError.TooLong ↔ IsPast
            (write (flat (without self.old key.now))) }
        ensures unchanged { OnErr result (self.new ≡ self.old) }
    {
        match self.find(key) {
            Some(index) => self.remove_at(index, MOST_WEIGHT),
            None if self.is_within() => Ok(()),
            None => Err(ValueError::TooLong),
        }
    }

    /// Gives a key a value, where its text is then longer by at most so many bytes. Says whether it
    /// did; where it didn't, nothing is changed.
    fn change_key(&mut self, key: Text, change: Change, room: usize) -> bool
        requires key { IsWithin key }
        requires change { IsChange change }
        ensures change { OnTrue result (DictChange (key ∷ []) change room self.old self.new) }
        ensures unchanged { OnFalse result (self.new ≡ self.old) }
    {
        let Change::Value(value) = change else {
            return false;
        };
        self.reads_back();
        let most = self.weight + room as u128;
        self.put(key, value, most).is_ok()
    }

    /// Whether its text ends in a backslash without the entry at a place.
    fn ends_in_backslash_without(&self, index: usize) -> bool
        requires { index < length self.now }
        ensures { result ≡ ends_in_backslash (write (flat (entry_dropped self.now index))) }
    {
        let last = self.len() - 1;
        if index < last {
            return self.value(last).ends_in_backslash();
        }
        last > 0 && self.value(last - 1).ends_in_backslash()
    }

    /// Removes a key, if it is there, where that is the change, and the text then ends in no
    /// backslash and is longer by at most so many bytes. Says whether it did; where it didn't,
    /// nothing is changed.
    fn remove_by(&mut self, change: Change, room: usize) -> bool
        ensures change { OnTrue result (DictChange [] change room self.old self.new) }
        ensures unchanged { OnFalse result (self.new ≡ self.old) }
    {
        let Change::Without(key) = change else {
            return false;
        };
        self.reads_back();
        let Some(index) = self.find(&key) else {
            return self.len() > 0;
        };
        if self.ends_in_backslash_without(index) {
            return false;
        }
        let most = self.weight + room as u128;
        self.remove_at(index, most).is_ok()
    }

    /// Changes what stands at the end of a path of keys in the value of a key, where the text is
    /// then longer by at most so many bytes. Says whether it did; where it didn't, nothing is
    /// changed.
    #[cycle(change)]
    fn change_deeper(
        &mut self,
        alloc: Global,
        key: &Text,
        path: &[Value],
        change: Change,
        room: usize,
    ) -> bool
        requires change { IsChange change }
        requires room { length (write (flat self.old)) + room ≤ 16777216 }
        ensures change { OnTrue result
            (DictChange (key.now ∷ path.now) change room self.old self.new) }
        ensures unchanged { OnFalse result (self.new ≡ self.old) }
    {
        self.reads_back();
        let Some(index) = self.find(key) else {
            return false;
        };
        let less = self.value(index).written_len(false);
        let inner = &mut self.values[index];
        if !inner.change(alloc, path, change, room) {
            return false;
        }
        let more = inner.written_len(false);
        let depth = inner.depth();
        self.depth = self.depth.max(depth);
        self.weight = self.weight + more as u128 - less as u128;
        true
    }

    /// Changes what stands at the end of a path of keys in dicts that stand in one another, where
    /// each of them is kept as a dict, and the text is then longer by at most so many bytes. What
    /// isn't shared is changed in place. Says whether it did; where it didn't, nothing is changed.
    #[cycle(change)]
    pub(crate) fn change(
        &mut self,
        alloc: Global,
        path: &[Value],
        change: Change,
        room: usize,
    ) -> bool
        requires change { IsChange change }
        requires room { length (write (flat self.old)) + room ≤ 16777216 }
        ensures change { OnTrue result (DictChange path.now change room self.old self.new) }
        ensures unchanged { OnFalse result (self.new ≡ self.old) }
    {
        let [key, rest @ ..] = path else {
            return self.remove_by(change, room);
        };
        let Ok(key) = key.key_text(alloc) else {
            return false;
        };
        if rest.is_empty() && matches!(change, Change::Value(_)) {
            return self.change_key(key, change, room);
        }
        self.change_deeper(alloc, &key, rest, change, room)
    }

    /// Its keys and values in turn read as itself.
    pub(crate) fn reads_back(&self)
        ensures { put_all [] (flat self.now) ≡ self.now }
    {
        let _ = &self.keys;
    }

    /// Its keys and values in turn.
    ///
    /// # Errors
    /// Want of memory.
    pub(crate) fn to_elements(&self, alloc: Global) -> Result<Vec<Element>, AllocError>
        ensures texts { IfOk result (λ made. texts made.items ≡ flat self.now) }
        ensures elements { IfOk result (λ made. AreElements made.items) }
    {
        let mut elements = Vec::new(alloc);
        'entries: for (index, value) in self.values.iter().enumerate() {
            let key = self.keys.get_index(index).unwrap();
            elements.push(Element::Text(key.clone()?))?;
            elements.push(value.clone()?)?;
        }
        Ok(elements)
    }

    /// How many bytes its text has.
    pub(crate) fn written_len(&self) -> usize
        requires { IsWithin (write (flat self.now)) }
        ensures { result ≡ length (write (flat self.now)) }
    {
        (self.weight as usize).saturating_sub(1)
    }

    /// Writes its text to the end of a string.
    ///
    /// # Errors
    /// Want of memory, where a part of it may have been written.
    #[cycle(write)]
    pub(crate) fn write_to(&self, out: &mut String) -> Result<(), AllocError>
        ensures written { OnOk result
            (string_bytes out.new ≡ string_bytes out.old ++ write (flat self.now)) }
        ensures kept { Extends (string_bytes out.old) (string_bytes out.new) }
    {
        'entries: for (index, value) in self.values.iter().enumerate() {
            if index > 0 {
                out.push(' ')?;
            }
            let key = self.keys.get_index(index).unwrap();
            write_element(out, key.as_str(), index == 0)?;
            out.push(' ')?;
            value.write_to(false, out)?;
        }
        Ok(())
    }

    /// Whether its text is this one. This takes no memory.
    #[cycle(compare)]
    pub(crate) fn is_text(&self, text: &[u8]) -> bool
        ensures { IsTrue result ↔ (text.now ≡ write (flat self.now)) }
    {
        let mut rest = text;
        'entries: for (index, value) in self.values.iter().enumerate() {
            let key = self.keys.get_index(index).unwrap();
            let Some(behind) = behind_key(rest, key, index == 0) else {
                return false;
            };
            match value.behind(false, behind) {
                Some(behind) => rest = behind,
                None => return false,
            }
        }
        rest.is_empty()
    }

    /// Whether another dict has the same entries in the same order. This takes no memory.
    #[cycle(same)]
    pub(crate) fn same(&self, other: &Entries) -> bool
        ensures { IsTrue result ↔ (self.now ≡ other.now) }
    {
        if self.len() != other.len() {
            return false;
        }
        'entries: for index in 0..self.len() {
            if self.key(index) != other.key(index) {
                return false;
            }
            if !self.value(index).same(other.value(index)) {
                return false;
            }
        }
        true
    }

    /// Its text.
    ///
    /// # Errors
    /// Want of memory.
    pub(crate) fn write(&self, alloc: Global) -> Result<String, AllocError>
        requires { IsWithin (write (flat self.now)) }
        ensures { IfOk result (λ text. string_bytes text ≡ write (flat self.now)) }
    {
        let mut text = String::with_capacity(alloc, self.written_len())?;
        self.write_to(&mut text)?;
        Ok(text)
    }

    /// Whether it may stand in a list or dict without a text: its text is then written in braces.
    pub(crate) fn fits_inside(&self) -> bool
        requires within { IsWithin (write (flat self.now)) }
        requires some { 1 ≤ length self.now }
        ensures { IsTrue result → IsInner (write (flat self.now)) }
    {
        match self.values.last() {
            None => false,
            Some(last) => self.depth < MOST_DEPTH && !last.ends_in_backslash(),
        }
    }

    /// How deep lists and dicts stand in it, at most.
    pub(crate) fn depth(&self) -> u32 {
        self.depth
    }
}

impl Clone for Entries {
    ghost is_clone = { λ x y. y ≡ x };

    fn clone(&self) -> Result<Entries, AllocError> {
        let keys = self.keys.clone()?;
        let values = self.values.clone()?;
        let weight = self.weight;
        let depth = self.depth;
        Ok(Entries {
            keys,
            values,
            weight,
            depth,
        })
    }
}
