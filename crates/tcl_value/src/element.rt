//! The elements of lists and the values of dicts.
ghost use Rattle.std.specs.Prelude.{◌≡◌, ◌≢◌, ◌≤◌, ◌+◌, false, ◌++◌, ◌∷◌, ◌↔◌, [], length, OnOk};
ghost use Rattle.std.specs.Prelude.{OnErr, IfOk, IsTrue, MatchOption, Bool};
ghost use Rattle.std.specs.Bool.{OnTrue, OnFalse};
ghost use Rattle.std.specs.List.{list_all};
ghost use Rattle.std.specs.String.{string_bytes};
ghost use Rattle.std.specs.Fmt.{signed_decimal};
ghost use Rattle.tcl_text.specs.Writing.{Extends};
ghost use Rattle.tcl_value.specs.Limits.{Bytes, IsWithin};
ghost use Rattle.tcl_value.specs.Writing.{write, write_element, placed, space};
ghost use Rattle.tcl_value.specs.Texts.{element_text, texts, flat, AreElements, ends_in_backslash};
ghost use Rattle.tcl_value.specs.Texts.{IsElement, IsInner};
ghost use Rattle.tcl_value.specs.Inside.{ListPut, InnerChange, DictChange, IsChange, element_put};
ghost use Rattle.tcl_value.specs.Inside.{entry_changed, changed_by};
ghost use Rattle.tcl_value.specs.Plain.{is_plain_byte, is_plain, is_plain_element};

use crate::entries::Entries;
use crate::items::Items;
use crate::value::Value;
use itoa::Buffer;
use std::alloc::{AllocError, Global};
use std::rc::Rc;
use tcl_text::integer::{int_len, push_int, write_int};
use tcl_text::list::{write_element, written_len};
use tcl_text::list_comparing::{is_int, is_written};
use tcl_text::measured::Measured;
use tcl_text::text::Text;

/// How deep lists and dicts may stand in one another without a text: what writes, drops or copies
/// them goes down as deep.
pub(crate) const MOST_DEPTH: u32 = 100;

/// An element, which may be kept as the number, the list or the dict that its text writes. A text
/// that was added to in place is kept with what it takes to know how many bytes write it.
#[cycle(element)]
pub(crate) enum Element {
    Text(Text),
    Grown(Rc<Measured>),
    Number(i64),
    List(Rc<Items>),
    Dict(Rc<Entries>),
}

impl Drop for Element {
    #[cycle(element)]
    #[inline(always)]
    fn drop(self) {
        match self {
            Element::Text(_text) => {}
            Element::Grown(_grown) => {}
            Element::Number(_n) => {}
            Element::List(_items) => {}
            Element::Dict(_entries) => {}
        }
    }
}

/// What becomes of the value at the end of a path of keys.
#[derive(Drop)]
pub(crate) enum Change {
    /// This one takes its place.
    Value(Element),
    /// These come behind the elements of its list.
    Elements(Vec<Element>),
    /// This comes behind its text.
    Text(Text),
    /// Its dict loses this key.
    Without(Text),
}

impl Element {
    /// Its text.
    ///
    /// # Errors
    /// Want of memory.
    pub(crate) fn text(&self, alloc: Global) -> Result<Text, AllocError>
        requires { IsElement self.now }
        ensures text { IfOk result (λ text. text ≡ element_text self.now) }
        ensures within { IfOk result IsWithin }
    {
        match self {
            Element::Text(text) => text.clone(),
            Element::Grown(grown) => grown.text().clone(),
            Element::Number(n) => Text::from_string(alloc, write_int(alloc, *n)?),
            Element::List(items) => Text::from_string(alloc, items.write(alloc)?),
            Element::Dict(entries) => Text::from_string(alloc, entries.write(alloc)?),
        }
    }

    /// How many bytes write it in a list, where it is the first element or another.
    #[inline(always)]
    pub(crate) fn written_len(&self, first: bool) -> usize
        requires { IsElement self.now }
        ensures len { result ≡ length (write_element first (element_text self.now)) }
        ensures few { result ≤ 33554434 }
    {
        match self {
            Element::Text(text) => written_len(text.as_str(), first),
            Element::Grown(grown) => grown.written_len(first),
            Element::Number(n) => number_len(*n, first),
            Element::List(items) => items.written_len() + 2,
            Element::Dict(entries) => entries.written_len() + 2,
        }
    }

    /// Whether its text ends in a backslash.
    pub(crate) fn ends_in_backslash(&self) -> bool
        requires { IsElement self.now }
        ensures { result ≡ ends_in_backslash (element_text self.now) }
    {
        match self {
            Element::Text(text) => has_backslash_end(text.as_str().as_bytes()),
            Element::Grown(grown) => has_backslash_end(grown.text().as_str().as_bytes()),
            Element::Number(_) | Element::List(_) | Element::Dict(_) => false,
        }
    }

    /// Whether its text is known to be plain: that of a number is, a text is looked at, and what is
    /// kept in any other form isn't known to be.
    pub(crate) fn is_plain(&self) -> bool
        ensures { result ≡ is_plain_element self.now }
    {
        match self {
            Element::Text(text) => is_plain(text.as_str().as_bytes()),
            Element::Number(_) => true,
            Element::Grown(_) | Element::List(_) | Element::Dict(_) => false,
        }
    }

    /// Writes it as an element of a list, the first or another, to the end of a string.
    ///
    /// # Errors
    /// Want of memory, where a part of it may have been written.
    #[cycle(write)]
    pub(crate) fn write_to(&self, first: bool, out: &mut String) -> Result<(), AllocError>
        requires { IsElement self.now }
        ensures written { OnOk result (string_bytes out.new
            ≡ string_bytes out.old ++ write_element first (element_text self.now)) }
        ensures kept { Extends (string_bytes out.old) (string_bytes out.new) }
    {
        match self {
            Element::Text(text) => write_element(out, text.as_str(), first),
            Element::Grown(grown) => write_element(out, grown.text().as_str(), first),
            Element::Number(n) => write_number_to(*n, first, out),
            Element::List(items) => {
                out.push('{')?;
                items.write_to(out)?;
                out.push('}')
            }
            Element::Dict(entries) => {
                out.push('{')?;
                entries.write_to(out)?;
                out.push('}')
            }
        }
    }

    /// Whether a text is it as an element of a list, the first or another. This takes no memory.
    #[cycle(compare)]
    fn is_written(&self, first: bool, text: &[u8]) -> bool
        requires { IsElement self.now }
        ensures { IsTrue result ↔ (text.now ≡ write_element first (element_text self.now)) }
    {
        match self {
            Element::Text(own) => is_written(text, own.as_str(), first),
            Element::Grown(own) => is_written(text, own.text().as_str(), first),
            Element::Number(n) => is_written_number(text, *n, first),
            Element::List(items) => match inside_braces(text) {
                Some(inside) => items.is_text(inside),
                None => false,
            },
            Element::Dict(entries) => match inside_braces(text) {
                Some(inside) => entries.is_text(inside),
                None => false,
            },
        }
    }

    /// What stands behind it in a text where it is an element of a list, the first or another. This
    /// takes no memory.
    #[cycle(compare)]
    pub(crate) fn behind<'a>(&self, first: bool, text: &'a [u8]) -> Option<&'a [u8]>
        requires { IsElement self.now }
        ensures { MatchOption result
            ((rest : Bytes) → text.now ≢ placed first (element_text self.now) ++ rest)
            (λ rest. text.now ≡ placed first (element_text self.now) ++ rest.now) }
    {
        let text = behind_space(text, first)?;
        let (front, rest) = split_off(text, self.written_len(first))?;
        if self.is_written(first, front) {
            Some(rest)
        } else {
            None
        }
    }

    /// Whether its text is this one. This takes no memory.
    pub(crate) fn is_text(&self, text: &[u8]) -> bool
        requires { IsElement self.now }
        ensures { IsTrue result ↔ (text.now ≡ element_text self.now) }
    {
        match self {
            Element::Text(own) => text == own.as_str().as_bytes(),
            Element::Grown(own) => text == own.text().as_str().as_bytes(),
            Element::Number(n) => is_int(text, *n),
            Element::List(items) => items.is_text(text),
            Element::Dict(entries) => entries.is_text(text),
        }
    }

    /// The same, in less time where it is kept as a text.
    pub(crate) fn is_str(&self, text: &str) -> bool
        requires { IsElement self.now }
        ensures { IsTrue result ↔ (text.now ≡ element_text self.now) }
    {
        match self {
            Element::Text(own) => text == own.as_str(),
            _ => self.is_text(text.as_bytes()),
        }
    }

    /// Whether its text is that of a number. This takes no memory.
    fn is_number(&self, n: i64) -> bool
        requires { IsElement self.now }
        ensures { IsTrue result ↔ (signed_decimal n ≡ element_text self.now) }
    {
        self.is_text(Buffer::new().format(n).as_bytes())
    }

    /// Whether its text is that of another, however each is kept. This takes no memory.
    #[cycle(same)]
    pub(crate) fn same(&self, other: &Element) -> bool
        requires own { IsElement self.now }
        requires other { IsElement other.now }
        ensures { IsTrue result ↔ (element_text self.now ≡ element_text other.now) }
    {
        match (self, other) {
            (Element::Text(own), other) => other.is_text(own.as_str().as_bytes()),
            (own, Element::Text(text)) => own.is_text(text.as_str().as_bytes()),
            (Element::Grown(own), other) => other.is_text(own.text().as_str().as_bytes()),
            (own, Element::Grown(grown)) => own.is_text(grown.text().as_str().as_bytes()),
            (Element::Number(n), other) => other.is_number(*n),
            (own, Element::Number(n)) => own.is_number(*n),
            (Element::List(own), Element::List(items)) => own.same(items),
            (Element::List(own), Element::Dict(entries)) => own.same_entries(entries),
            (Element::Dict(own), Element::List(items)) => items.same_entries(own),
            (Element::Dict(own), Element::Dict(entries)) => own.same(entries),
        }
    }

    /// Puts an element at a path of places in it, where it is kept as a list, and what is written
    /// of it is then longer by at most so many bytes. What isn't shared is changed in place. Says
    /// whether it did; where it didn't, nothing is changed.
    #[cycle(put)]
    pub(crate) fn put(&mut self, path: &[usize], element: Element, room: usize) -> bool
        requires own { IsElement self.old }
        requires element { IsElement element }
        requires ends { ends_in_backslash (element_text element) ≡ false }
        requires room { length (element_text self.old) + room ≤ 16777216 }
        ensures put { OnTrue result (InnerChange
            (element_put path.now (element_text element) (element_text self.old)) room
            (element_text self.old) (element_text self.new)) }
        ensures element { IsElement self.new }
        ensures unchanged { OnFalse result (element_text self.new ≡ element_text self.old) }
    {
        match self {
            Element::List(items) => put_inner(items, path, element, room),
            Element::Text(_) | Element::Grown(_) | Element::Number(_) | Element::Dict(_) => false,
        }
    }

    /// Changes it at the end of a path of keys in it, where each dict on the way is kept as one,
    /// and what is written of it is then longer by at most so many bytes. What isn't shared is
    /// changed in place. Says whether it did; where it didn't, nothing is changed.
    #[cycle(change)]
    pub(crate) fn change(
        &mut self,
        alloc: Global,
        path: &[Value],
        change: Change,
        room: usize,
    ) -> bool
        requires own { IsElement self.old }
        requires change { IsChange change }
        requires room { length (element_text self.old) + room ≤ 16777216 }
        ensures change { OnTrue result
            (InnerChange (entry_changed path.now change (element_text self.old)) room
            (element_text self.old) (element_text self.new)) }
        ensures element { IsElement self.new }
        ensures unchanged { OnFalse result (element_text self.new ≡ element_text self.old) }
    {
        if let Element::Dict(entries) = self {
            return change_shared(entries, alloc, path, change, room);
        }
        path.is_empty() && self.change_itself(alloc, change, room)
    }

    /// Changes it, where it is kept in the form that the change asks for, and what is written of it
    /// is then longer by at most so many bytes. What isn't shared is changed in place. Says whether
    /// it did; where it didn't, nothing is changed.
    fn change_itself(&mut self, alloc: Global, change: Change, room: usize) -> bool
        requires own { IsElement self.old }
        requires change { IsChange change }
        requires room { length (element_text self.old) + room ≤ 16777216 }
        ensures change { OnTrue result (InnerChange (changed_by change (element_text self.old)) room
            (element_text self.old) (element_text self.new)) }
        ensures element { IsElement self.new }
        ensures unchanged { OnFalse result (element_text self.new ≡ element_text self.old) }
    {
        match self {
            Element::List(items) => extend_by(items, change, room),
            Element::Grown(grown) => append_by(grown, change, room),
            Element::Text(text) => match measured(alloc, text) {
                Ok(grown) => self.append_first(grown, change, room),
                Err(_) => false,
            },
            Element::Number(_) | Element::Dict(_) => false,
        }
    }

    /// Takes a text in its place that is the same, and adds to it, where that is the change and
    /// what is written of it is then longer by at most so many bytes. Says whether it did; where it
    /// didn't, nothing is changed.
    fn append_first(&mut self, grown: Rc<Measured>, change: Change, room: usize) -> bool
        requires own { IsElement self.old }
        requires same { grown.value ≡ element_text self.old }
        requires change { IsChange change }
        requires room { length (element_text self.old) + room ≤ 16777216 }
        ensures change { OnTrue result (InnerChange (changed_by change (element_text self.old)) room
            (element_text self.old) (element_text self.new)) }
        ensures element { IsElement self.new }
        ensures unchanged { OnFalse result (element_text self.new ≡ element_text self.old) }
    {
        let mut grown = grown;
        let done = append_by(&mut grown, change, room);
        *self = Element::Grown(grown);
        done
    }

    /// How deep lists and dicts stand in it, at most.
    pub(crate) fn depth(&self) -> u32 {
        match self {
            Element::Text(_) | Element::Grown(_) | Element::Number(_) => 0,
            Element::List(items) => items.depth().saturating_add(1),
            Element::Dict(entries) => entries.depth().saturating_add(1),
        }
    }
}

/// Puts an element at a path of places in a list: in place where the list isn't shared.
#[cycle(put)]
pub(crate) fn put_inner(
    items: &mut Rc<Items>,
    path: &[usize],
    element: Element,
    room: usize,
) -> bool
    requires element { IsElement element }
    requires ends { ends_in_backslash (element_text element) ≡ false }
    requires room { length (write items.old.value) + room ≤ 16777216 }
    ensures put { OnTrue result (ListPut path.now (element_text element) room items.old.value
        items.new.value) }
    ensures unchanged { OnFalse result (items.new.value ≡ items.old.value) }
{
    match Rc::make_mut(items) {
        Ok(own) => own.put(path, element, room),
        Err(_) => false,
    }
}

/// Changes what stands at the end of a path of keys in a dict: in place where the dict isn't
/// shared.
#[cycle(change)]
pub(crate) fn change_shared(
    entries: &mut Rc<Entries>,
    alloc: Global,
    path: &[Value],
    change: Change,
    room: usize,
) -> bool
    requires change { IsChange change }
    requires room { length (write (flat entries.old.value)) + room ≤ 16777216 }
    ensures change { OnTrue result
        (DictChange path.now change room entries.old.value entries.new.value) }
    ensures unchanged { OnFalse result (entries.new.value ≡ entries.old.value) }
{
    match Rc::make_mut(entries) {
        Ok(own) => own.change(alloc, path, change, room),
        Err(_) => false,
    }
}

/// Adds elements to a list, where that is the change and its text is then longer by at most so many
/// bytes: in place where it isn't shared. Says whether it did; where it didn't, nothing is changed.
fn extend_by(items: &mut Rc<Items>, change: Change, room: usize) -> bool
    requires own { IsInner (write items.old.value) × (2 ≤ length items.old.value) }
    requires change { IsChange change }
    requires room { length (write items.old.value) + room ≤ 16777216 }
    ensures change { OnTrue result (InnerChange (changed_by change (write items.old.value)) room
        (write items.old.value) (write items.new.value)) }
    ensures inner { IsInner (write items.new.value) × (2 ≤ length items.new.value) }
    ensures unchanged { OnFalse result (write items.new.value ≡ write items.old.value) }
{
    let Change::Elements(elements) = change else {
        return false;
    };
    extend_shared(items, elements, room)
}

/// Adds elements to a list, where its text is then longer by at most so many bytes: in place where
/// it isn't shared. Says whether it did; where it didn't, nothing is changed.
fn extend_shared(items: &mut Rc<Items>, elements: Vec<Element>, room: usize) -> bool
    requires { AreElements elements.items }
    ensures extended { OnTrue result ((items.new.value ≡ items.old.value ++ texts elements.items) ×
        (length (write items.new.value) ≤ length (write items.old.value) + room)) }
    ensures unchanged { OnFalse result (items.new.value ≡ items.old.value) }
{
    match Rc::make_mut(items) {
        Ok(own) => own.extend_within(elements, room),
        Err(_) => false,
    }
}

/// A text as one that is added to.
fn measured(alloc: Global, text: &Text) -> Result<Rc<Measured>, AllocError>
    ensures { IfOk result (λ made. made.value ≡ text.now) }
{
    let grown = Rc::new(alloc, Measured::new(text.clone()?))?;
    Ok(grown)
}

/// Adds to the end of a text, where that is the change and what is written of the text is then
/// longer by at most so many bytes: in place where it isn't shared. Says whether it did; where it
/// didn't, nothing is changed.
fn append_by(grown: &mut Rc<Measured>, change: Change, room: usize) -> bool
    requires own { IsWithin grown.old.value }
    requires change { IsChange change }
    requires room { length grown.old.value + room ≤ 16777216 }
    ensures change { OnTrue result
        (InnerChange (changed_by change grown.old.value) room grown.old.value
        grown.new.value) }
    ensures within { IsWithin grown.new.value }
    ensures unchanged { OnFalse result (grown.new.value ≡ grown.old.value) }
{
    let Change::Text(more) = change else {
        return false;
    };
    if more.len() > room {
        return false;
    }
    append_shared(grown, &more, room)
}

/// Adds to the end of a text, where what is written of it is then longer by at most so many bytes:
/// in place where it isn't shared. Says whether it did; where it didn't, nothing is changed.
fn append_shared(grown: &mut Rc<Measured>, more: &Text, room: usize) -> bool
    ensures appended { OnTrue result (grown.new.value ≡ grown.old.value ++ more.now) }
    ensures light { OnTrue result ((first : Bool) →
        length (write_element first grown.new.value) ≤ length
        (write_element first grown.old.value) + room) }
    ensures unchanged { OnFalse result (grown.new.value ≡ grown.old.value) }
{
    match Rc::make_mut(grown) {
        Ok(own) => own.append_within(more.as_str(), room),
        Err(_) => false,
    }
}

/// Whether the last byte is a backslash.
pub(crate) fn has_backslash_end(text: &[u8]) -> bool
    ensures { result ≡ ends_in_backslash text.now }
{
    match text {
        [] => false,
        [.., last] => *last == b'\\',
    }
}

/// Whether a byte is ASCII and isn't special.
fn is_plain_byte(byte: u8) -> bool
    ensures { result ≡ is_plain_byte byte }
{
    match byte {
        b'\t'..=b'\r' | b' ' | b'{' | b'}' | b'[' | b']' | b'$' | b';' | b'"' | b'\\' => false,
        _ => byte.is_ascii(),
    }
}

/// Whether each of these bytes is ASCII and isn't special.
fn are_plain_bytes(bytes: &[u8]) -> bool
    ensures { result ≡ list_all is_plain_byte bytes.now }
{
    bytes.iter().all(|byte| is_plain_byte(*byte))
}

/// Whether a text is plain: ASCII, and written as it is anywhere in a list.
fn is_plain(text: &[u8]) -> bool
    ensures { result ≡ is_plain text.now }
{
    match text {
        [] => false,
        [first, ..] => *first != b'#' && are_plain_bytes(text),
    }
}

/// How many bytes write a number in a list.
fn number_len(n: i64, first: bool) -> usize
    ensures len { result ≡ length (write_element first (signed_decimal n)) }
    ensures few { result ≤ 21 }
{
    let _first = first;
    int_len(n)
}

/// Whether a text is a number as an element of a list.
fn is_written_number(text: &[u8], n: i64, first: bool) -> bool
    ensures { IsTrue result ↔ (text.now ≡ write_element first (signed_decimal n)) }
{
    let _first = first;
    is_int(text, n)
}

/// What stands in braces, where a text is that.
fn inside_braces(text: &[u8]) -> Option<&[u8]>
    ensures { MatchOption result ((inside : Bytes) → text.now ≢ 123 ∷ inside ++ 125 ∷ [])
        (λ inside. text.now ≡ 123 ∷ inside.now ++ 125 ∷ []) }
{
    match text {
        [b'{', rest @ ..] => before_brace(rest),
        _ => None,
    }
}

/// What stands before a close brace that ends a text.
fn before_brace(text: &[u8]) -> Option<&[u8]>
    ensures { MatchOption result ((front : Bytes) → text.now ≢ front ++ 125 ∷ [])
        (λ front. text.now ≡ front.now ++ 125 ∷ []) }
{
    match text {
        [front @ .., last] if *last == b'}' => Some(front),
        _ => None,
    }
}

/// What stands behind the space before an element that isn't the first.
fn behind_space(text: &[u8], first: bool) -> Option<&[u8]>
    ensures { MatchOption result ((rest : Bytes) → text.now ≢ space first ++ rest)
        (λ rest. text.now ≡ space first ++ rest.now) }
{
    if first {
        return Some(text);
    }
    match text {
        [b' ', rest @ ..] => Some(rest),
        _ => None,
    }
}

/// The first bytes of a text, and what is behind them.
fn split_off(text: &[u8], len: usize) -> Option<(&[u8], &[u8])>
    ensures { MatchOption result
        ((front rest : Bytes) → length front ≡ len → text.now ≢ front ++ rest)
        (λ parts. (length parts.0.now ≡ len) × (text.now ≡ parts.0.now ++ parts.1.now)) }
{
    if len > text.len() {
        return None;
    }
    Some(text.split_at(len))
}

/// What stands behind a key in a text where it is an element of a list, the first or another.
pub(crate) fn behind_key<'a>(text: &'a [u8], key: &Text, first: bool) -> Option<&'a [u8]>
    ensures { MatchOption result ((rest : Bytes) → text.now ≢ placed first key.now ++ rest)
        (λ rest. text.now ≡ placed first key.now ++ rest.now) }
{
    let text = behind_space(text, first)?;
    let key = key.as_str();
    let (front, rest) = split_off(text, written_len(key, first))?;
    if is_written(front, key, first) {
        Some(rest)
    } else {
        None
    }
}

/// Writes a number as an element of a list to the end of a string, or nothing.
fn write_number_to(n: i64, first: bool, out: &mut String) -> Result<(), AllocError>
    ensures written { OnOk result (string_bytes out.new
        ≡ string_bytes out.old ++ write_element first (signed_decimal n)) }
    ensures unchanged { OnErr result (string_bytes out.new ≡ string_bytes out.old) }
{
    let _first = first;
    push_int(out, n)
}

impl Clone for Element {
    ghost use Rattle.tcl_value.specs.Texts.{IsSame};

    ghost is_clone = { IsSame };

    fn clone(&self) -> Result<Element, AllocError> {
        match self {
            Element::Text(text) => Ok(Element::Text(text.clone()?)),
            Element::Grown(grown) => Ok(Element::Grown(grown.clone()?)),
            Element::Number(n) => Ok(Element::Number(*n)),
            Element::List(items) => Ok(Element::List(items.clone()?)),
            Element::Dict(entries) => Ok(Element::Dict(entries.clone()?)),
        }
    }
}
