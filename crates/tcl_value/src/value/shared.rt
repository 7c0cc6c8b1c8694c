//! Lists and dicts that may be shared: changed in place where they aren't.
ghost use Rattle.std.specs.Prelude.{◌≡◌, ◌≤◌, ◌<◌, ◌++◌, ◌∷◌, [], length, Ok, OnOk, OnErr, IfErr};
ghost use Rattle.std.specs.Prelude.{slice_set};
ghost use Rattle.tcl_value.specs.Limits.{IsWithin, IsPast};
ghost use Rattle.tcl_value.specs.Writing.{write};
ghost use Rattle.tcl_value.specs.Texts.{element_text, texts, flat, IsElement, AreElements};
ghost use Rattle.tcl_text.specs.Reading.{Gives};
ghost use Rattle.tcl_value.specs.Changes.{Refuses};
ghost use Rattle.tcl_value.specs.Dicts.{put, without};
ghost use Rattle.tcl_value.specs.DictChanges.{RefusesEntry};

use crate::dict_fault::EntryError;
use crate::element::Element;
use crate::entries::Entries;
use crate::items::Items;
use crate::value::ChangeError;
use std::rc::Rc;
use tcl_text::text::Text;

/// Puts an element in the place of another in a list: in place where it isn't shared.
#[inline(always)]
pub(crate) fn set_shared(
    items: &mut Rc<Items>,
    index: usize,
    element: Element,
) -> Result<(), ChangeError>
    requires { IsElement element }
    ensures set { OnOk result ((index < length items.old.value) ×
        (items.new.value ≡ slice_set items.old.value index (element_text element))) }
    ensures within { OnOk result (IsWithin (write items.new.value)) }
    ensures refused { IfErr result
        (λ e. Refuses e (Ok items.old.value)
        (λ list. IsPast (write (slice_set list index (element_text element))))
        (λ list. length list ≤ index)) }
    ensures unchanged { OnErr result (items.new.value ≡ items.old.value) }
{
    if index >= items.len() {
        return Err(ChangeError::NoElement);
    }
    match Rc::make_mut(items) {
        Ok(own) => own.set(index, element).map_err(ChangeError::from),
        Err(_) => Err(ChangeError::Memory),
    }
}

/// Adds an element to a list: in place where it isn't shared.
pub(crate) fn push_shared(items: &mut Rc<Items>, element: Element) -> Result<(), ChangeError>
    requires { IsElement element }
    ensures pushed { OnOk result (items.new.value ≡ items.old.value ++ element_text element ∷ []) }
    ensures within { OnOk result (IsWithin (write items.new.value)) }
    ensures refused { IfErr result
        (λ e. Refuses e (Ok items.old.value)
        (λ list. IsPast (write (list ++ element_text element ∷ []))) (λ _. ⊥)) }
    ensures unchanged { OnErr result (items.new.value ≡ items.old.value) }
{
    match Rc::make_mut(items) {
        Ok(own) => own.push(element).map_err(ChangeError::from),
        Err(_) => Err(ChangeError::Memory),
    }
}

/// Adds elements to a list, all of them or none: in place where it isn't shared.
pub(crate) fn extend_shared(
    items: &mut Rc<Items>,
    elements: Vec<Element>,
) -> Result<(), ChangeError>
    requires { AreElements elements.items }
    ensures extended { OnOk result (items.new.value ≡ items.old.value ++ texts elements.items) }
    ensures within { OnOk result (IsWithin (write items.new.value)) }
    ensures refused { IfErr result
        (λ e. Refuses e (Ok items.old.value) (λ list. IsPast (write (list ++ texts elements.items)))
        (λ _. ⊥)) }
    ensures unchanged { OnErr result (items.new.value ≡ items.old.value) }
{
    match Rc::make_mut(items) {
        Ok(own) => own.extend(elements).map_err(ChangeError::from),
        Err(_) => Err(ChangeError::Memory),
    }
}

/// Gives a key of a dict a value: in place where the dict isn't shared.
pub(crate) fn put_shared(
    entries: &mut Rc<Entries>,
    key: Text,
    element: Element,
) -> Result<(), EntryError>
    requires key { IsWithin key }
    requires element { IsElement element }
    ensures set { OnOk result
        (entries.new.value ≡ put entries.old.value key (element_text element)) }
    ensures within { OnOk result (IsWithin (write (flat entries.new.value))) }
    ensures refused { IfErr result
        (λ e. RefusesEntry e (Ok entries.old.value)
        (λ es. IsPast (write (flat (put es key (element_text element)))))) }
    ensures unchanged { OnErr result (entries.new.value ≡ entries.old.value) }
{
    match Rc::make_mut(entries) {
        Ok(own) => own.set(key, element).map_err(EntryError::from),
        Err(_) => Err(EntryError::Memory),
    }
}

/// Removes a key from a dict: in place where the dict isn't shared.
pub(crate) fn remove_shared(entries: &mut Rc<Entries>, key: &Text) -> Result<(), EntryError>
    ensures removed { OnOk result (entries.new.value ≡ without entries.old.value key.now) }
    ensures within { OnOk result (IsWithin (write (flat entries.new.value))) }
    ensures refused { IfErr result
        (λ e. RefusesEntry e (Ok entries.old.value)
        (λ es. IsPast (write (flat (without es key.now))))) }
    ensures unchanged { OnErr result (entries.new.value ≡ entries.old.value) }
{
    match Rc::make_mut(entries) {
        Ok(own) => own.remove(key).map_err(EntryError::from),
        Err(_) => Err(EntryError::Memory),
    }
}
