//! Lists, whose elements are values.
ghost use Rattle.std.specs.Prelude.{◌≡◌, ◌<◌, ◌≤◌, Ok, ◌==◌, ◌++◌, ◌∷◌, ◌↔◌, [], length, IfOk};
ghost use Rattle.std.specs.Prelude.{OnOk, OnErr, IsErr, IfErr, IsErrOf, IsTrue, slice_index_or};
ghost use Rattle.std.specs.Prelude.{slice_set, take, drop};
ghost use Rattle.std.specs.Fmt.{signed_decimal};
ghost use Rattle.std.specs.String.{string_bytes};
ghost use Rattle.tcl_value.specs.Limits.{IsWithin, IsPast};
ghost use Rattle.tcl_value.specs.Writing.{write};
ghost use Rattle.tcl_value.specs.Reading.{list_of};
ghost use Rattle.tcl_text.specs.Reading.{Gives};
ghost use Rattle.tcl_value.specs.Changes.{Refuses};
ghost use Rattle.tcl_value.specs.Texts.{element_text, texts as texts_of, flat, IsElement};
ghost use Rattle.tcl_value.specs.Texts.{AreElements};

use crate::element::Element;
use crate::entries::Entries;
use crate::items::Items;
use crate::value::shared::set_shared;
use crate::value::{ChangeError, Value, ValueError};
use std::alloc::{AllocError, Global};
use std::marker::Model;
use std::rc::Rc;
use tcl_text::limit::MOST_BYTES;
use tcl_text::list::{ListError, read_list};
use tcl_text::text::Text;

/// A list of values, which contracts see as the list of their texts.
///
/// A clone shares the elements. A list that isn't shared is changed in place.
pub struct List {
    items: Rc<Items>,
}

impl Drop for List {
    fn drop(self) {
        let List { items: _items } = self;
    }
}

impl Model for List {
    ghost use Rattle.std.specs.Prelude.{ℕ, List as Items};

    ghost Value = { Items (Items ℕ) };

    ghost view = { λ a. a.items.value };
}

impl List {
    /// The list with no element.
    ///
    /// # Errors
    /// Want of memory.
    pub fn new(alloc: Global) -> Result<List, AllocError>
        ensures { IfOk result (λ list. list ≡ []) }
    {
        let items = Rc::new(alloc, Items::new(alloc))?;
        Ok(List { items })
    }

    /// The list of these elements.
    pub(crate) fn from_items(items: Rc<Items>) -> List
        ensures { result ≡ items.value }
    {
        List { items }
    }

    /// Its elements.
    pub(crate) fn into_items(self) -> Rc<Items>
        ensures { result.value ≡ self }
    {
        let List { items } = self;
        items
    }

    /// Its elements, borrowed.
    pub(crate) fn items(&self) -> &Items
        ensures { result.now ≡ self.now }
    {
        &self.items
    }

    /// The list that a text spells.
    pub(crate) fn read(alloc: Global, text: &str) -> Result<List, ListError>
        ensures { Gives (λ list. list) result (list_of text.now) }
    {
        let texts = read_list(alloc, text)?;
        let elements = elements_of(alloc, &texts)?;
        let items = Rc::new(alloc, Items::from_elements(elements))?;
        Ok(List { items })
    }

    /// The keys and values of a dict in turn.
    pub(crate) fn of_entries(alloc: Global, entries: &Entries) -> Result<List, AllocError>
        ensures { IfOk result (λ list. list ≡ flat entries.now) }
    {
        let items = Rc::new(alloc, Items::from_elements(entries.to_elements(alloc)?))?;
        Ok(List { items })
    }

    /// The list of one number.
    pub(crate) fn of_number(alloc: Global, n: i64) -> Result<List, AllocError>
        ensures { IfOk result (λ list. list ≡ signed_decimal n ∷ []) }
    {
        let mut elements = Vec::new(alloc);
        elements.push(Element::Number(n))?;
        let items = Rc::new(alloc, Items::from_elements(elements))?;
        Ok(List { items })
    }

    /// Whether its text is short enough for a value.
    pub fn is_within(&self) -> bool
        ensures { IsTrue result ↔ IsWithin (write self.now) }
    {
        self.items.is_within()
    }

    /// Its text.
    ///
    /// # Errors
    /// Want of memory.
    pub fn write(&self, alloc: Global) -> Result<String, AllocError>
        requires { IsWithin (write self.now) }
        ensures { IfOk result (λ text. string_bytes text ≡ write self.now) }
    {
        self.items.write(alloc)
    }

    /// How many elements it has.
    pub fn len(&self) -> usize
        ensures { result ≡ length self.now }
    {
        self.items.len()
    }

    /// Whether it has no element.
    pub fn is_empty(&self) -> bool
        ensures { result ≡ (length self.now == 0) }
    {
        self.items.len() == 0
    }

    /// The element at a place.
    ///
    /// # Errors
    /// Want of memory.
    pub fn get(&self, index: usize) -> Result<Value, AllocError>
        requires { index < length self.now }
        ensures { IfOk result (λ value. value ≡ slice_index_or self.now index value) }
    {
        Value::from_element(self.items.get(index))
    }

    /// Whether the element at a place is this text, however it is kept. This takes no memory.
    pub fn is_at(&self, index: usize, text: &str) -> bool
        requires { index < length self.now }
        ensures { IsTrue result ↔ (slice_index_or self.now index [] ≡ text.now) }
    {
        self.items.get(index).is_str(text)
    }

    /// Adds an element at the end: in place where the list isn't shared.
    ///
    /// # Errors
    /// [`ValueError::TooLong`] exactly where the list's text would be too long for a value; want of
    /// memory.
    pub(crate) fn push_element(&mut self, element: Element) -> Result<(), ValueError>
        requires { IsElement element }
        ensures pushed { OnOk result (self.new ≡ self.old ++ element_text element ∷ []) }
        ensures within { OnOk result (IsWithin (write self.new)) }
        ensures refused { IsErrOf result ValueError.TooLong →
            IsPast (write (self.old ++ element_text element ∷ [])) }
        ensures unchanged { OnErr result (self.new ≡ self.old) }
    {
        Rc::make_mut(&mut self.items)?.push(element)
    }

    /// Adds elements at the end, all of them or none: in place where the list isn't shared.
    pub(crate) fn extend_elements(&mut self, elements: Vec<Element>) -> Result<(), ValueError>
        requires { AreElements elements.items }
        ensures extended { OnOk result (self.new ≡ self.old ++ texts_of elements.items) }
        ensures within { OnOk result (IsWithin (write self.new)) }
        ensures refused { IsErrOf result ValueError.TooLong →
            IsPast (write (self.old ++ texts_of elements.items)) }
        ensures unchanged { OnErr result (self.new ≡ self.old) }
    {
        Rc::make_mut(&mut self.items)?.extend(elements)
    }

    /// Adds an element at the end: in place where the list isn't shared.
    ///
    /// # Errors
    /// [`ValueError::TooLong`] only where the list's text would be too long for a value; want of
    /// memory.
    pub fn push(&mut self, alloc: Global, value: Value) -> Result<(), ValueError>
        ensures pushed { OnOk result (self.new ≡ self.old ++ value ∷ []) }
        ensures within { OnOk result (IsWithin (write self.new)) }
        ensures refused { IsErrOf result ValueError.TooLong →
            IsPast (write (self.old ++ value ∷ [])) }
        ensures unchanged { OnErr result (self.new ≡ self.old) }
    {
        let element = value.into_element(alloc)?;
        self.push_element(element)
    }

    /// Adds an element of another list at the end.
    ///
    /// # Errors
    /// [`ValueError::TooLong`] only where the list's text would be too long for a value; want of
    /// memory.
    pub fn push_from(&mut self, list: &List, index: usize) -> Result<(), ValueError>
        requires { index < length list.now }
        ensures pushed { OnOk result
            (self.new ≡ self.old ++ slice_index_or list.now index [] ∷ []) }
        ensures within { OnOk result (IsWithin (write self.new)) }
        ensures refused { IsErrOf result ValueError.TooLong →
            IsPast (write (self.old ++ slice_index_or list.now index [] ∷ [])) }
        ensures unchanged { OnErr result (self.new ≡ self.old) }
    {
        let element = list.items.get(index).clone()?;
        self.push_element(element)
    }

    /// Its elements from one place up to another, as a list that is made in one go. The whole list
    /// is shared.
    ///
    /// # Errors
    /// Want of memory.
    pub fn slice(&self, alloc: Global, from: usize, to: usize) -> Result<List, AllocError>
        requires order { from ≤ to }
        requires within { to ≤ length self.now }
        ensures { IfOk result (λ part. part ≡ drop from (take to self.now)) }
    {
        if to - from == self.items.len() {
            return self.clone();
        }
        let items = Rc::new(alloc, self.items.part(alloc, from, to)?)?;
        Ok(List { items })
    }

    /// Whether the text of its elements from one place up to another is short enough for a value.
    pub(crate) fn is_part_within(&self, from: usize, to: usize) -> bool
        requires order { from ≤ to }
        requires within { to ≤ length self.now }
        ensures { IsTrue result ↔ IsWithin (write (drop from (take to self.now))) }
    {
        self.items.is_part_within(from, to)
    }

    /// Its elements from one place up to another. Where nobody shares it and they are half of it or
    /// more, it loses all others, and nothing is copied.
    pub(crate) fn into_part(self, alloc: Global, from: usize, to: usize) -> Result<List, AllocError>
        requires order { from ≤ to }
        requires within { to ≤ length self }
        ensures { IfOk result (λ part. part ≡ drop from (take to self)) }
    {
        let is_shared = Rc::strong_count(&self.items) > 1;
        if is_shared || to - from < self.items.len() / 2 {
            return self.slice(alloc, from, to);
        }
        let List { mut items } = self;
        Rc::make_mut(&mut items)?.keep(from, to);
        Ok(List { items })
    }

    /// Adds the elements of another list from one place up to another, all of them or none.
    ///
    /// # Errors
    /// [`ValueError::TooLong`] only where the list's text would be too long for a value; want of
    /// memory. Either leaves the list as it was.
    pub fn push_slice(&mut self, list: &List, from: usize, to: usize) -> Result<(), ValueError>
        requires order { from ≤ to }
        requires within { to ≤ length list.now }
        ensures pushed { OnOk result (self.new ≡ self.old ++ drop from (take to list.now)) }
        ensures within { OnOk result (IsWithin (write self.new)) }
        ensures refused { IsErrOf result ValueError.TooLong →
            IsPast (write (self.old ++ drop from (take to list.now))) }
        ensures unchanged { OnErr result (self.new ≡ self.old) }
    {
        Rc::make_mut(&mut self.items)?.extend_part(&list.items, from, to)
    }

    /// Puts an element in the place of another: in place where the list isn't shared.
    ///
    /// # Errors
    /// [`ValueError::TooLong`] only where the list's text would be too long for a value; want of
    /// memory. Either leaves the list as it was.
    pub fn set(&mut self, alloc: Global, index: usize, value: Value) -> Result<(), ValueError>
        requires { index < length self.old }
        ensures set { OnOk result (self.new ≡ slice_set self.old index value) }
        ensures within { OnOk result (IsWithin (write self.new)) }
        ensures refused { IsErrOf result ValueError.TooLong →
            IsPast (write (slice_set self.old index value)) }
        ensures unchanged { OnErr result (self.new ≡ self.old) }
    {
        let element = value.into_element(alloc)?;
        Rc::make_mut(&mut self.items)?.set(index, element)
    }

    /// Puts an element in the place of another: in place where the list isn't shared.
    ///
    /// # Errors
    /// [`ChangeError::NoElement`] exactly where there is no element at the place,
    /// [`ChangeError::TooLong`] where the list's text would be too long for a value; want of
    /// memory.
    pub(crate) fn set_element(&mut self, index: usize, element: Element) -> Result<(), ChangeError>
        requires { IsElement element }
        ensures set { OnOk result ((index < length self.old) ×
            (self.new ≡ slice_set self.old index (element_text element))) }
        ensures within { OnOk result (IsWithin (write self.new)) }
        ensures refused { IfErr result
            (λ e. Refuses e (Ok self.old) (λ list. IsPast
            (write (slice_set list index (element_text element)))) (λ list. length list ≤ index)) }
        ensures unchanged { OnErr result (self.new ≡ self.old) }
    {
        set_shared(&mut self.items, index, element)
    }
}

/// The elements of these texts.
fn elements_of(alloc: Global, texts: &[Text]) -> Result<Vec<Element>, AllocError>
    ensures texts { IfOk result (λ made. texts_of made.items ≡ texts.now) }
    ensures elements { IfOk result (λ made. AreElements made.items) }
{
    let mut elements = Vec::with_capacity(alloc, texts.len())?;
    'texts: for text in texts {
        if text.len() > MOST_BYTES {
            return Err(AllocError);
        }
        elements.push(Element::Text(text.clone()?))?;
    }
    Ok(elements)
}

impl Clone for List {
    ghost is_clone = { λ x y. y ≡ x };

    fn clone(&self) -> Result<List, AllocError> {
        let items = self.items.clone()?;
        Ok(List { items })
    }
}
