//! Lists that carry no text.
ghost use Rattle.std.specs.Prelude.{◌≡◌, ◌<◌, ◌≤◌, ◌++◌, ◌∷◌, ◌^◌, ◌+◌, ◌==◌, false, ◌&&◌, ◌↔◌, []};
ghost use Rattle.std.specs.Prelude.{length, IfOk, OnOk, OnErr, IfErr, IfSome, IsErr, IsErrOf};
ghost use Rattle.std.specs.Prelude.{ℕ, true, IsTrue};
ghost use Rattle.std.specs.Fmt.{signed_decimal};
ghost use Rattle.std.specs.Prelude.{slice_index_or, slice_set, take, drop};
ghost use Rattle.std.specs.Bool.{OnTrue, OnFalse};
ghost use Rattle.std.specs.List.{list_all};
ghost use Rattle.std.specs.String.{string_bytes};
ghost use Rattle.tcl_text.specs.Writing.{Extends};
ghost use Rattle.tcl_value.specs.Limits.{IsWithin, IsPast};
ghost use Rattle.tcl_value.specs.Writing.{write};
ghost use Rattle.tcl_value.specs.Texts.{element_text, texts, flat, IsElement, IsInner, AreElements};
ghost use Rattle.tcl_value.specs.Texts.{ends_in_backslash, weight, weight_from};
ghost use Rattle.tcl_value.specs.Inside.{ListPut};
ghost use Rattle.tcl_value.specs.Plain.{ArePlain, is_plain_element};

use crate::element::{Element, MOST_DEPTH};
use crate::entries::Entries;
use crate::value::ValueError;
use std::alloc::{AllocError, Global};
use std::marker::Model;

/// The weight of a list whose text is as long as a value may be: its bytes and one more.
const MOST_WEIGHT: u128 = 16_777_217;

/// The elements of a list, the weight of their text and a bound on how deep lists stand in them.
#[cycle(element)]
pub(crate) struct Items {
    elements: Vec<Element>,
    weight: u128,
    depth: u32,
}

impl Drop for Items {
    #[cycle(element)]
    fn drop(self) {
        let Items {
            elements: _elements,
            weight: _weight,
            depth: _depth,
        } = self;
    }
}

impl Model for Items {
    ghost use Rattle.std.specs.Prelude.{List, ℕ, length};

    ghost Value = { List (List ℕ) };

    ghost use Rattle.std.proofs.Common.{arith};
    ghost use Rattle.tcl_value.specs.Writing.{write};
    ghost use Rattle.tcl_value.specs.Texts.{texts, IsItems};

    ghost view = { λ a. texts a.elements.items };

    ghost invariant = { λ a. IsItems a.weight (texts a.elements.items) a.elements.items };

    ghost size = { λ v. length (write v) };

    ghost use Rattle.tcl_value.specs.Falls.{items_fall};

    ghost size_decreases = { λ a h. Prim.omega (arith, items_fall a.weight a.elements.items h) };
}

impl Items {
    /// The list with no element.
    pub(crate) fn new(alloc: Global) -> Items
        ensures { result ≡ [] }
    {
        Items {
            elements: Vec::new(alloc),
            weight: 0,
            depth: 0,
        }
    }

    /// The list of these elements.
    pub(crate) fn from_elements(elements: Vec<Element>) -> Items
        requires { AreElements elements.items }
        ensures { result ≡ texts elements.items }
    {
        let weight = weigh(&elements);
        let depth = elements
            .iter()
            .map(|element| element.depth())
            .max()
            .unwrap_or(0);
        Items {
            elements,
            weight,
            depth,
        }
    }

    /// How many elements it has.
    pub(crate) fn len(&self) -> usize
        ensures { result ≡ length self.now }
    {
        self.elements.len()
    }

    /// The element at a place.
    pub(crate) fn get(&self, index: usize) -> &Element
        requires { index < length self.now }
        ensures text { element_text result.now ≡ slice_index_or self.now index
            (element_text result.now) }
        ensures element { IsElement result.now }
    {
        &self.elements[index]
    }

    /// The number that is its only element, where it is kept as one.
    pub(crate) fn lone_number(&self) -> Option<i64>
        ensures { IfSome result (λ n. write self.now ≡ signed_decimal n) }
    {
        if self.len() != 1 {
            return None;
        }
        match self.get(0) {
            Element::Number(n) => Some(*n),
            _ => None,
        }
    }

    /// How many bytes its text has.
    pub(crate) fn written_len(&self) -> usize
        requires { IsWithin (write self.now) }
        ensures { result ≡ length (write self.now) }
    {
        (self.weight as usize).saturating_sub(1)
    }

    /// Whether its text is short enough for a value.
    pub(crate) fn is_within(&self) -> bool
        ensures { IsTrue result ↔ IsWithin (write self.now) }
    {
        self.weight <= MOST_WEIGHT
    }

    /// Whether it may stand in a list or dict without a text: its text is then written in braces.
    pub(crate) fn fits_inside(&self) -> bool
        requires within { IsWithin (write self.now) }
        requires several { 2 ≤ length self.now }
        ensures { IsTrue result → IsInner (write self.now) }
    {
        match self.elements.last() {
            None => false,
            Some(last) => self.depth < MOST_DEPTH && !last.ends_in_backslash(),
        }
    }

    /// How deep lists and dicts stand in it, at most.
    pub(crate) fn depth(&self) -> u32 {
        self.depth
    }

    /// Whether each of its elements is known to be plain (see [`Element::is_plain`]).
    pub(crate) fn is_plain(&self) -> bool
        ensures { IsTrue result → ArePlain self.now }
    {
        are_plain(&self.elements)
    }

    /// Writes its text to the end of a string.
    ///
    /// # Errors
    /// Want of memory, where a part of it may have been written.
    #[cycle(write)]
    pub(crate) fn write_to(&self, out: &mut String) -> Result<(), AllocError>
        ensures written { OnOk result
            (string_bytes out.new ≡ string_bytes out.old ++ write self.now) }
        ensures kept { Extends (string_bytes out.old) (string_bytes out.new) }
    {
        'elements: for (index, element) in self.elements.iter().enumerate() {
            if index > 0 {
                out.push(' ')?;
            }
            element.write_to(index == 0, out)?;
        }
        Ok(())
    }

    /// Whether its text is this one. This takes no memory.
    #[cycle(compare)]
    pub(crate) fn is_text(&self, text: &[u8]) -> bool
        ensures { IsTrue result ↔ (text.now ≡ write self.now) }
    {
        let mut rest = text;
        'elements: for (index, element) in self.elements.iter().enumerate() {
            match element.behind(index == 0, rest) {
                Some(behind) => rest = behind,
                None => return false,
            }
        }
        rest.is_empty()
    }

    /// Whether another list has the same elements. This takes no memory.
    #[cycle(same)]
    pub(crate) fn same(&self, other: &Items) -> bool
        ensures { IsTrue result ↔ (self.now ≡ other.now) }
    {
        if self.len() != other.len() {
            return false;
        }
        'elements: for (index, element) in self.elements.iter().enumerate() {
            if !element.same(other.get(index)) {
                return false;
            }
        }
        true
    }

    /// Whether its elements are the keys and values of a dict in turn. This takes no memory.
    #[cycle(same)]
    pub(crate) fn same_entries(&self, entries: &Entries) -> bool
        ensures { IsTrue result ↔ (self.now ≡ flat entries.now) }
    {
        if self.len() % 2 == 1 {
            return false;
        }
        if self.len() / 2 != entries.len() {
            return false;
        }
        'entries: for index in 0..entries.len() {
            let key = entries.key(index).as_str().as_bytes();
            if !self.get(2 * index).is_text(key) {
                return false;
            }
            if !self.get(2 * index + 1).same(entries.value(index)) {
                return false;
            }
        }
        true
    }

    /// Its text.
    ///
    /// # Errors
    /// Want of memory.
    pub(crate) fn write(&self, alloc: Global) -> Result<String, AllocError>
        requires { IsWithin (write self.now) }
        ensures { IfOk result (λ text. string_bytes text ≡ write self.now) }
    {
        let mut text = String::with_capacity(alloc, self.written_len())?;
        self.write_to(&mut text)?;
        Ok(text)
    }

    /// What it would weigh with one more element.
    #[inline(always)]
    fn weight_with(&self, element: &Element) -> u128
        requires { IsElement element.now }
        ensures { result ≡ weight (self.now ++ element_text element.now ∷ []) }
    {
        let more = element.written_len(self.elements.is_empty());
        self.weight + more as u128 + 1
    }

    /// What it would weigh with an element in the place of another.
    fn weight_with_at(&self, index: usize, element: &Element) -> u128
        requires element { IsElement element.now }
        requires in_bounds { index < length self.now }
        ensures { result ≡ weight (slice_set self.now index (element_text element.now)) }
    {
        let first = index == 0;
        let less = self.elements[index].written_len(first);
        let more = element.written_len(first);
        self.weight + more as u128 - less as u128
    }

    /// Adds an element at the end, where it then weighs at most this much.
    ///
    /// # Errors
    /// [`ValueError::TooLong`] exactly where it would weigh more; want of memory.
    #[inline(always)]
    fn push_light(&mut self, element: Element, most: u128) -> Result<(), ValueError>
        requires { IsElement element }
        ensures pushed { OnOk result (self.new ≡ self.old ++ element_text element ∷ []) }
        ensures light { OnOk result (weight self.new ≤ most) }
        ensures refused { IsErrOf result ValueError.TooLong ↔
            (most < weight (self.old ++ element_text element ∷ [])) }
        ensures unchanged { OnErr result (self.new ≡ self.old) }
    {
        let weight = self.weight_with(&element);
        if weight > most {
            return Err(ValueError::TooLong);
        }
        let depth = self.depth.max(element.depth());
        self.elements.push(element)?;
        self.weight = weight;
        self.depth = depth;
        Ok(())
    }

    /// Adds an element at the end.
    ///
    /// # Errors
    /// [`ValueError::TooLong`] exactly where the text would be too long for a value; want of
    /// memory.
    pub(crate) fn push(&mut self, element: Element) -> Result<(), ValueError>
        requires { IsElement element }
        ensures pushed { OnOk result (self.new ≡ self.old ++ element_text element ∷ []) }
        ensures within { OnOk result (IsWithin (write self.new)) }
        ensures refused { IsErrOf result ValueError.TooLong ↔ IsPast
            (write (self.old ++ element_text element ∷ [])) }
        ensures unchanged { OnErr result (self.new ≡ self.old) }
    {
        self.push_light(element, MOST_WEIGHT)
    }

    /// Adds elements at the end, all of them or none, where it then weighs at most this much.
    ///
    /// # Errors
    /// [`ValueError::TooLong`] exactly where it would weigh more; want of memory.
    fn extend_light(&mut self, elements: Vec<Element>, most: u128) -> Result<(), ValueError>
        requires { AreElements elements.items }
        ensures extended { OnOk result (self.new ≡ self.old ++ texts elements.items) }
        ensures light { OnOk result (weight self.new ≤ most) }
        ensures refused { IsErrOf result ValueError.TooLong ↔
            (most < weight (self.old ++ texts elements.items)) }
        ensures unchanged { OnErr result (self.new ≡ self.old) }
    {
        let mut elements = elements;
        let weight = self.weight + weigh_from(self.elements.is_empty(), &elements);
        if weight > most {
            return Err(ValueError::TooLong);
        }
        let depth = self.depth.max(deepest(&elements));
        self.elements.append(&mut elements)?;
        self.weight = weight;
        self.depth = depth;
        Ok(())
    }

    /// Adds elements at the end, all of them or none.
    ///
    /// # Errors
    /// [`ValueError::TooLong`] exactly where the text would be too long for a value; want of
    /// memory.
    pub(crate) fn extend(&mut self, elements: Vec<Element>) -> Result<(), ValueError>
        requires { AreElements elements.items }
        ensures extended { OnOk result (self.new ≡ self.old ++ texts elements.items) }
        ensures within { OnOk result (IsWithin (write self.new)) }
        ensures refused { IsErrOf result ValueError.TooLong ↔ IsPast
            (write (self.old ++ texts elements.items)) }
        ensures unchanged { OnErr result (self.new ≡ self.old) }
    {
        self.extend_light(elements, MOST_WEIGHT)
    }

    /// Adds elements at the end, where its text is then longer by at most so many bytes. Says
    /// whether it did; where it didn't, nothing is changed.
    pub(crate) fn extend_within(&mut self, elements: Vec<Element>, room: usize) -> bool
        requires { AreElements elements.items }
        ensures extended { OnTrue result ((self.new ≡ self.old ++ texts elements.items) ×
            (length (write self.new) ≤ length (write self.old) + room)) }
        ensures unchanged { OnFalse result (self.new ≡ self.old) }
    {
        let most = self.weight + room as u128;
        self.extend_light(elements, most).is_ok()
    }

    /// What its elements from one place up to another weigh in a list, where the first of them is
    /// the list's first or not. This measures what is left out of it, and one element.
    fn weight_by_rest(&self, first: bool, from: usize, to: usize) -> u128
        requires order { from < to }
        requires within { to ≤ length self.now }
        ensures weight { result ≡ weight_from first (drop from (take to self.now)) }
        ensures few { result < 2 ^ 90 }
    {
        let before = weigh(&self.elements[..from]);
        let behind = weigh_from(false, &self.elements[to..]);
        let leading = &self.elements[from];
        let less = leading.written_len(from == 0);
        let more = leading.written_len(first);
        self.weight + more as u128 - before - behind - less as u128
    }

    /// What its elements from one place up to another weigh in a list, where the first of them is
    /// the list's first or not. This measures no more than half of its elements and one.
    fn part_weight(&self, first: bool, from: usize, to: usize) -> u128
        requires order { from ≤ to }
        requires within { to ≤ length self.now }
        ensures weight { result ≡ weight_from first (drop from (take to self.now)) }
        ensures few { result < 2 ^ 90 }
    {
        if to - from <= self.elements.len() / 2 {
            return weigh_from(first, &self.elements[from..to]);
        }
        self.weight_by_rest(first, from, to)
    }

    /// How deep lists and dicts stand in its elements from one place up to another, at most.
    fn part_depth(&self, from: usize, to: usize) -> u32
        requires order { from ≤ to }
        requires within { to ≤ length self.now }
    {
        if self.depth == 0 {
            return 0;
        }
        deepest(&self.elements[from..to])
    }

    /// Its elements from one place up to another.
    ///
    /// # Errors
    /// Want of memory.
    pub(crate) fn part(&self, alloc: Global, from: usize, to: usize) -> Result<Items, AllocError>
        requires order { from ≤ to }
        requires within { to ≤ length self.now }
        ensures { IfOk result (λ part. part ≡ drop from (take to self.now)) }
    {
        let weight = self.part_weight(true, from, to);
        let depth = self.part_depth(from, to);
        let elements = self.elements[from..to].to_vec(alloc)?;
        Ok(Items {
            elements,
            weight,
            depth,
        })
    }

    /// Whether all its elements are so few bytes that any part which begins at a place is short
    /// enough for a value. This measures one element.
    fn has_small_parts(&self, from: usize) -> bool
        requires { from < length self.now }
        ensures { IsTrue result → (to : ℕ) → from < to → to ≤ length self.now →
            weight_from true (drop from (take to self.now)) ≤ 16777217 }
    {
        let leading = &self.elements[from];
        self.weight + leading.written_len(true) as u128 <= MOST_WEIGHT
    }

    /// Whether the text of its elements from one place up to another is short enough for a value.
    pub(crate) fn is_part_within(&self, from: usize, to: usize) -> bool
        requires order { from ≤ to }
        requires within { to ≤ length self.now }
        ensures { IsTrue result ↔ IsWithin (write (drop from (take to self.now))) }
    {
        if from < to && self.has_small_parts(from) {
            return true;
        }
        self.part_weight(true, from, to) <= MOST_WEIGHT
    }

    /// Keeps its elements from one place up to another, and lets all others go.
    pub(crate) fn keep(&mut self, from: usize, to: usize)
        requires order { from ≤ to }
        requires within { to ≤ length self.old }
        ensures { self.new ≡ drop from (take to self.old) }
    {
        let weight = self.part_weight(true, from, to);
        let depth = self.part_depth(from, to);
        self.elements.truncate(to);
        self.elements.rotate_left(from);
        self.elements.truncate(to - from);
        self.weight = weight;
        self.depth = depth;
    }

    /// Adds the elements of another list from one place up to another, all of them or none.
    ///
    /// # Errors
    /// [`ValueError::TooLong`] exactly where the text would be too long for a value; want of
    /// memory.
    pub(crate) fn extend_part(
        &mut self,
        other: &Items,
        from: usize,
        to: usize,
    ) -> Result<(), ValueError>
        requires order { from ≤ to }
        requires within { to ≤ length other.now }
        ensures extended { OnOk result (self.new ≡ self.old ++ drop from (take to other.now)) }
        ensures within { OnOk result (IsWithin (write self.new)) }
        ensures refused { IsErrOf result ValueError.TooLong ↔ IsPast
            (write (self.old ++ drop from (take to other.now))) }
        ensures unchanged { OnErr result (self.new ≡ self.old) }
    {
        let weight = self.weight + other.part_weight(self.elements.is_empty(), from, to);
        if weight > MOST_WEIGHT {
            return Err(ValueError::TooLong);
        }
        let depth = self.depth.max(other.part_depth(from, to));
        self.elements.extend_from_slice(&other.elements[from..to])?;
        self.weight = weight;
        self.depth = depth;
        Ok(())
    }

    /// Puts an element in the place of another, where it then weighs at most this much.
    ///
    /// # Errors
    /// [`ValueError::TooLong`] exactly where it would weigh more.
    fn set_light(&mut self, index: usize, element: Element, most: u128) -> Result<(), ValueError>
        requires element { IsElement element }
        requires in_bounds { index < length self.old }
        ensures set { OnOk result (self.new ≡ slice_set self.old index (element_text element)) }
        ensures light { OnOk result (weight self.new ≤ most) }
        ensures refused { IsErr result ↔
            (most < weight (slice_set self.old index (element_text element))) }
        ensures error { IfErr result (λ e. e ≡ ValueError.TooLong) }
        ensures unchanged { OnErr result (self.new ≡ self.old) }
    {
        let weight = self.weight_with_at(index, &element);
        if weight > most {
            return Err(ValueError::TooLong);
        }
        let depth = self.depth.max(element.depth());
        self.elements[index] = element;
        self.weight = weight;
        self.depth = depth;
        Ok(())
    }

    /// Puts an element in the place of another.
    ///
    /// # Errors
    /// [`ValueError::TooLong`] exactly where the text would be too long for a value.
    pub(crate) fn set(&mut self, index: usize, element: Element) -> Result<(), ValueError>
        requires element { IsElement element }
        requires in_bounds { index < length self.old }
        ensures set { OnOk result (self.new ≡ slice_set self.old index (element_text element)) }
        ensures within { OnOk result (IsWithin (write self.new)) }
        ensures refused { IsErr result ↔ IsPast
            (write (slice_set self.old index (element_text element))) }
        ensures error { IfErr result (λ e. e ≡ ValueError.TooLong) }
        ensures unchanged { OnErr result (self.new ≡ self.old) }
    {
        self.set_light(index, element, MOST_WEIGHT)
    }

    /// Puts an element in the place of another or behind the last, where its text is then longer by
    /// at most so many bytes. Says whether it did; where it didn't, nothing is changed.
    fn put_at(&mut self, place: usize, element: Element, room: usize) -> bool
        requires element { IsElement element }
        requires ends { ends_in_backslash (element_text element) ≡ false }
        ensures put { OnTrue result
            (ListPut (place ∷ []) (element_text element) room self.old self.new) }
        ensures unchanged { OnFalse result (self.new ≡ self.old) }
    {
        let most = self.weight + room as u128;
        if place < self.len() {
            return self.set_light(place, element, most).is_ok();
        }
        if place > self.len() {
            return false;
        }
        self.push_light(element, most).is_ok()
    }

    /// Puts an element at a path of places in an element, where the text is then longer by at most
    /// so many bytes. Says whether it did; where it didn't, nothing is changed.
    #[cycle(put)]
    fn put_deeper(&mut self, place: usize, path: &[usize], element: Element, room: usize) -> bool
        requires element { IsElement element }
        requires ends { ends_in_backslash (element_text element) ≡ false }
        requires room { length (write self.old) + room ≤ 16777216 }
        ensures put { OnTrue result (ListPut (place ∷ path.now) (element_text element) room self.old
            self.new) }
        ensures unchanged { OnFalse result (self.new ≡ self.old) }
    {
        if place >= self.elements.len() {
            return false;
        }
        let first = place == 0;
        let less = self.elements[place].written_len(first);
        let inner = &mut self.elements[place];
        if !inner.put(path, element, room) {
            return false;
        }
        let more = self.elements[place].written_len(first);
        self.depth = self.depth.max(self.elements[place].depth());
        self.weight = self.weight + more as u128 - less as u128;
        true
    }

    /// Puts an element at a path of places in lists that stand in one another, where each of them
    /// is kept as a list, and the text is then longer by at most so many bytes. What isn't shared
    /// is changed in place. Says whether it did; where it didn't, nothing is changed.
    #[cycle(put)]
    pub(crate) fn put(&mut self, path: &[usize], element: Element, room: usize) -> bool
        requires element { IsElement element }
        requires ends { ends_in_backslash (element_text element) ≡ false }
        requires room { length (write self.old) + room ≤ 16777216 }
        ensures put { OnTrue result
            (ListPut path.now (element_text element) room self.old self.new) }
        ensures unchanged { OnFalse result (self.new ≡ self.old) }
    {
        match path {
            [] => false,
            [place] => self.put_at(*place, element, room),
            [place, rest @ ..] => self.put_deeper(*place, rest, element, room),
        }
    }
}

/// What a list of these elements weighs.
fn weigh(elements: &[Element]) -> u128
    requires { AreElements elements.now }
    ensures { result ≡ weight (texts elements.now) }
{
    let mut weight = 0;
    'elements: for (index, element) in elements.iter().enumerate() {
        weight += element.written_len(index == 0) as u128 + 1;
    }
    weight
}

/// What these elements add to the weight of a list, where the first of them is the list's first or
/// not.
fn weigh_from(first: bool, elements: &[Element]) -> u128
    requires { AreElements elements.now }
    ensures weight { result ≡ weight_from first (texts elements.now) }
    ensures few { result < 2 ^ 90 }
{
    let mut weight = 0;
    'elements: for (index, element) in elements.iter().enumerate() {
        weight += element.written_len(leads(first, index)) as u128 + 1;
    }
    weight
}

/// Whether the element at a place of some elements is the first of the list that they end, which
/// they begin or not.
fn leads(first: bool, index: usize) -> bool
    ensures { result ≡ (first && (index == 0)) }
{
    first && index == 0
}

/// How deep lists and dicts stand in these elements, at most.
fn deepest(elements: &[Element]) -> u32 {
    elements
        .iter()
        .map(|element| element.depth())
        .max()
        .unwrap_or(0)
}

/// Whether each of these elements is known to be plain.
fn are_plain(elements: &[Element]) -> bool
    ensures { result ≡ list_all is_plain_element elements.now }
{
    elements.iter().all(|element| element.is_plain())
}

impl Clone for Items {
    ghost is_clone = { λ x y. y ≡ x };

    fn clone(&self) -> Result<Items, AllocError> {
        let elements = self.elements.clone()?;
        let weight = self.weight;
        let depth = self.depth;
        Ok(Items {
            elements,
            weight,
            depth,
        })
    }
}
