//! Values, each of which is seen as its text.
ghost use Rattle.std.specs.Prelude.{◌≡◌, ◌≤◌, ◌<◌, ◌++◌, ◌∷◌, ◌↔◌, [], length, Ok, IfOk};
ghost use Rattle.std.specs.Prelude.{OnOk, OnErr};
ghost use Rattle.std.specs.Prelude.{IsErrOf, IfErr, MatchResult, IfSome, Some, false, IsTrue};
ghost use Rattle.std.specs.Fmt.{signed_decimal};
ghost use Rattle.std.specs.String.{string_bytes};
ghost use Rattle.tcl_value.specs.Limits.{IsWithin, IsPast};
ghost use Rattle.tcl_value.specs.Writing.{write};
ghost use Rattle.tcl_value.specs.Texts.{element_text, flat, IsElement};
ghost use Rattle.tcl_value.specs.Reading.{int_of, list_of};
ghost use Rattle.tcl_text.specs.Reading.{Gives};
ghost use Rattle.tcl_text.specs.Writing.{Extends};
ghost use Rattle.tcl_value.specs.Dicts.{without, dict_of, GivesDict};
ghost use Rattle.tcl_value.specs.Plain.{ArePlain};

mod changing;
pub(crate) mod read_text;
pub(crate) mod shared;

use crate::dict::Dict;
use crate::dict_fault::DictError;
use crate::element::Element;
use crate::entries::Entries;
use crate::items::Items;
use crate::list::List;
use crate::value::read_text::ReadText;
use itoa::Buffer;
use std::alloc::{AllocError, AllocFailed, Global};
use std::marker::Model;
use std::rc::Rc;
use tcl_text::integer::{IntegerFault, Integers, int_len, push_int, read_int, write_int};
use tcl_text::limit::MOST_BYTES;
use tcl_text::list::{ListError, ListFault};
use tcl_text::list_comparing::is_int;
use tcl_text::messages::{OUT_OF_MEMORY, OUT_OF_RANGE, TOO_LONG};
use tcl_text::text::Text;
use thiserror::Error;

/// Why a value isn't made or changed.
#[derive(Clone, Copy, Debug, Drop, Error)]
pub enum ValueError {
    /// Want of memory.
    #[error("{}", OUT_OF_MEMORY)]
    Memory,
    /// The text would be longer than [`MOST_BYTES`] (refusal 122).
    #[error("122: {}", TOO_LONG)]
    TooLong,
}

impl From<AllocError> for ValueError {
    ghost use Rattle.std.specs.Prelude.{◌≡◌};
    ghost use Rattle.tcl_value.specs.declared.value.ValueError.TheVariants.{Memory};

    ghost from_gives = { λ _ e. e ≡ Memory };

    fn from(_e: AllocError) -> ValueError {
        ValueError::Memory
    }
}

impl<T: Drop> From<AllocFailed<T>> for ValueError {
    ghost use Rattle.std.specs.Prelude.{◌≡◌};
    ghost use Rattle.tcl_value.specs.declared.value.ValueError.TheVariants.{Memory};

    ghost from_gives = { λ _ e. e ≡ Memory };

    fn from(_e: AllocFailed<T>) -> ValueError {
        ValueError::Memory
    }
}

/// Why a list or dict in a value isn't changed.
#[derive(Debug, Drop, Error)]
pub enum ChangeError {
    /// Want of memory.
    #[error("{}", OUT_OF_MEMORY)]
    Memory,
    /// The text would be longer than [`MOST_BYTES`] (refusal 122).
    #[error("122: {}", TOO_LONG)]
    TooLong,
    /// The text spells no list (101 to 104).
    #[error(transparent)]
    List(ListFault),
    /// The list has no element at that place (243).
    #[error("243: {}", OUT_OF_RANGE)]
    NoElement,
}

impl From<AllocError> for ChangeError {
    ghost use Rattle.std.specs.Prelude.{◌≡◌};
    ghost use Rattle.tcl_value.specs.declared.value.ChangeError.TheVariants.{Memory};

    ghost from_gives = { λ _ e. e ≡ Memory };

    fn from(_e: AllocError) -> ChangeError {
        ChangeError::Memory
    }
}

impl From<ValueError> for ChangeError {
    ghost use Rattle.tcl_value.specs.Changes.{change_of_value};
    ghost use Rattle.std.specs.Prelude.{◌≡◌};

    ghost from_gives = { λ x e. e ≡ change_of_value x };

    fn from(e: ValueError) -> ChangeError {
        match e {
            ValueError::Memory => ChangeError::Memory,
            ValueError::TooLong => ChangeError::TooLong,
        }
    }
}

impl From<ListError> for ChangeError {
    ghost use Rattle.tcl_value.specs.Changes.{change_of_list};
    ghost use Rattle.std.specs.Prelude.{◌≡◌};

    ghost from_gives = { λ x e. e ≡ change_of_list x };

    fn from(e: ListError) -> ChangeError {
        match e {
            ListError::Memory => ChangeError::Memory,
            ListError::Fault(fault) => ChangeError::List(fault),
        }
    }
}

/// How a value is kept.
#[derive(Drop)]
enum Form {
    Empty,
    Text(Text),
    Number(i64),
    List(Rc<Items>),
    Dict(Rc<Entries>),
    /// A text with what it was last read as.
    Read(Rc<ReadText>),
}

/// A value of the language, which contracts see as its text: the list of its bytes in UTF-8, of
/// which there are at most [`MOST_BYTES`].
///
/// A number, a list or a dict that was built carries no text until one is asked for. A text that
/// was read as a list or as a dict keeps it, and one that was read as an integer is kept as that
/// number where it is just what the number writes. A clone shares what is kept. What isn't shared
/// is changed in place.
pub struct Value {
    form: Form,
}

impl Drop for Value {
    #[inline]
    fn drop(self) {
        let Value { form } = self;
        match form {
            Form::Empty => {}
            Form::Number(_n) => {}
            Form::Text(text) => let_go(text),
            Form::List(items) => let_list_go(items),
            Form::Dict(entries) => let_dict_go(entries),
            Form::Read(read) => let_read_go(read),
        }
    }
}

/// Lets a text go. It isn't inlined, so that the end of a value that shares nothing costs little.
#[inline(never)]
fn let_go(text: Text) {
    let _text = text;
}

/// The same of the elements of a list.
#[inline(never)]
fn let_list_go(items: Rc<Items>) {
    let _items = items;
}

/// The same of the entries of a dict.
#[inline(never)]
fn let_dict_go(entries: Rc<Entries>) {
    let _entries = entries;
}

/// The same of a text with what it was last read as.
#[inline(never)]
fn let_read_go(read: Rc<ReadText>) {
    let _read = read;
}

impl Model for Value {
    ghost use Rattle.std.specs.Prelude.{List, ℕ};

    ghost Value = { List ℕ };

    ghost use Rattle.tcl_value.specs.Forms.{form_text, IsForm};

    ghost view = { λ a. form_text a.form };

    ghost invariant = { λ a. IsForm a.form };
}

impl Value {
    /// The empty value, which takes no memory.
    pub fn empty() -> Value
        ensures { result ≡ [] }
    {
        Value { form: Form::Empty }
    }

    /// The value of a text. This takes no memory.
    ///
    /// # Errors
    /// [`ValueError::TooLong`] exactly where the text has more than [`MOST_BYTES`].
    pub fn from_text(text: Text) -> Result<Value, ValueError>
        ensures { MatchResult result (λ value. (value ≡ text) × IsWithin text)
            (λ e. (e ≡ ValueError.TooLong) × IsPast text) }
    {
        if text.len() > MOST_BYTES {
            return Err(ValueError::TooLong);
        }
        Ok(Value::from_short_text(text))
    }

    /// The value of a text that is known to be short enough. This takes no memory.
    pub fn from_short_text(text: Text) -> Value
        requires { IsWithin text }
        ensures { result ≡ text }
    {
        Value {
            form: Form::Text(text),
        }
    }

    /// The value of a number, which takes no memory and carries no text.
    pub fn from_int(n: i64) -> Value
        ensures { result ≡ signed_decimal n }
    {
        Value {
            form: Form::Number(n),
        }
    }

    /// The value that an element is.
    ///
    /// # Errors
    /// Want of memory.
    pub(crate) fn from_element(element: &Element) -> Result<Value, AllocError>
        requires { IsElement element.now }
        ensures { IfOk result (λ value. value ≡ element_text element.now) }
    {
        let form = match element {
            Element::Text(text) => Form::Text(text.clone()?),
            Element::Grown(grown) => Form::Text(grown.text().clone()?),
            Element::Number(n) => Form::Number(*n),
            Element::List(items) => Form::List(items.clone()?),
            Element::Dict(entries) => Form::Dict(entries.clone()?),
        };
        Ok(Value { form })
    }

    /// Its text, which is written if there is none yet.
    ///
    /// # Errors
    /// Want of memory.
    pub fn text(&self, alloc: Global) -> Result<Text, AllocError>
        ensures { IfOk result (λ text. text ≡ self.now) }
    {
        match &self.form {
            Form::Empty => Text::new(alloc, ""),
            Form::Text(text) => text.clone(),
            Form::Read(read) => read.text().clone(),
            Form::Number(n) => Text::from_string(alloc, write_int(alloc, *n)?),
            Form::List(items) => Text::from_string(alloc, items.write(alloc)?),
            Form::Dict(entries) => Text::from_string(alloc, entries.write(alloc)?),
        }
    }

    /// Its text, borrowed, where it is kept as one.
    pub fn as_text(&self) -> Option<&Text>
        ensures { IfSome result (λ text. text.now ≡ self.now) }
    {
        match &self.form {
            Form::Text(text) => Some(text),
            Form::Read(read) => Some(read.text()),
            Form::Empty | Form::Number(_) | Form::List(_) | Form::Dict(_) => None,
        }
    }

    /// That its text is within the limit, for whoever proves something of it. This does nothing.
    pub fn keeps_limit(&self)
        ensures { IsWithin self.now }
    {
        let _form = &self.form;
    }

    /// How many bytes its text has. This takes no memory.
    pub fn text_len(&self) -> usize
        ensures len { result ≡ length self.now }
        ensures within { IsWithin self.now }
    {
        match &self.form {
            Form::Empty => 0,
            Form::Text(text) => text.len(),
            Form::Read(read) => read.text().len(),
            Form::Number(n) => int_len(*n),
            Form::List(items) => items.written_len(),
            Form::Dict(entries) => entries.written_len(),
        }
    }

    /// Adds its text to the end of a string, or a part of it where memory is wanting.
    fn push_to(&self, out: &mut String) -> Result<(), AllocError>
        ensures written { OnOk result (string_bytes out.new ≡ string_bytes out.old ++ self.now) }
        ensures kept { Extends (string_bytes out.old) (string_bytes out.new) }
    {
        match &self.form {
            Form::Empty => Ok(()),
            Form::Text(text) => out.push_str(text.as_str()),
            Form::Read(read) => out.push_str(read.text().as_str()),
            Form::Number(n) => push_int(out, *n),
            Form::List(items) => items.write_to(out),
            Form::Dict(entries) => entries.write_to(out),
        }
    }

    /// Writes its text to the end of a string.
    ///
    /// # Errors
    /// Want of memory, which leaves the string as it was.
    pub fn write_to(&self, _alloc: Global, out: &mut String) -> Result<(), AllocError>
        ensures written { OnOk result (string_bytes out.new ≡ string_bytes out.old ++ self.now) }
        ensures unchanged { OnErr result (string_bytes out.new ≡ string_bytes out.old) }
    {
        let len = out.as_str().len();
        let written = self.push_to(out);
        if written.is_err() {
            out.truncate(len);
        }
        written
    }

    /// Whether its text is this one. This takes no memory.
    pub fn is_text(&self, text: &[u8]) -> bool
        ensures { IsTrue result ↔ (self.now ≡ text.now) }
    {
        match &self.form {
            Form::Empty => text.is_empty(),
            Form::Text(own) => own.as_str().as_bytes() == text,
            Form::Read(read) => read.text().as_str().as_bytes() == text,
            Form::Number(n) => is_int(text, *n),
            Form::List(items) => items.is_text(text),
            Form::Dict(entries) => entries.is_text(text),
        }
    }

    /// Whether its text is this one, in less time than `is_text` takes where it is kept as a text.
    /// This takes no memory.
    pub fn is_shared_text(&self, text: &Text) -> bool
        ensures { IsTrue result ↔ (self.now ≡ text.now) }
    {
        match &self.form {
            Form::Text(own) => own == text,
            _ => self.is_other_text(text),
        }
    }

    /// The same of one that isn't kept as a text alone. It isn't inlined, so that a comparison of
    /// texts costs little.
    #[inline(never)]
    fn is_other_text(&self, text: &Text) -> bool
        ensures { IsTrue result ↔ (self.now ≡ text.now) }
    {
        match &self.form {
            Form::Read(read) => read.text() == text,
            _ => self.is_text(text.as_str().as_bytes()),
        }
    }

    /// Whether its text is that of another, however each is kept. This takes no memory.
    pub fn same(&self, other: &Value) -> bool
        ensures { IsTrue result ↔ (self.now ≡ other.now) }
    {
        if self.text_len() != other.text_len() {
            return false;
        }
        match (&self.form, &other.form) {
            (Form::Empty, _) => other.is_text(b""),
            (_, Form::Empty) => self.is_text(b""),
            (Form::Text(text), _) => other.is_shared_text(text),
            (_, Form::Text(text)) => self.is_shared_text(text),
            (Form::Read(read), _) => other.is_shared_text(read.text()),
            (_, Form::Read(read)) => self.is_shared_text(read.text()),
            (Form::Number(n), _) => other.is_number(*n),
            (_, Form::Number(n)) => self.is_number(*n),
            (Form::List(own), Form::List(items)) => own.same(items),
            (Form::List(own), Form::Dict(entries)) => own.same_entries(entries),
            (Form::Dict(own), Form::List(items)) => items.same_entries(own),
            (Form::Dict(own), Form::Dict(entries)) => own.same(entries),
        }
    }

    /// Whether its text is that of a number. This takes no memory.
    fn is_number(&self, n: i64) -> bool
        ensures { IsTrue result ↔ (self.now ≡ signed_decimal n) }
    {
        self.is_text(Buffer::new().format(n).as_bytes())
    }

    /// The number that it is kept as, where it is kept as one: the text is then the number's own,
    /// which reads as that number in either style, and as a list whose only element it is. This
    /// takes no memory.
    pub fn number(&self) -> Option<i64>
        ensures text { IfSome result (λ n. self.now ≡ signed_decimal n) }
        ensures integer { IfSome result (λ n. (style : Integers) → int_of style self.now ≡ Ok n) }
        ensures list { IfSome result (λ _. list_of self.now ≡ Ok (self.now ∷ [])) }
    {
        match &self.form {
            Form::Number(n) => Some(*n),
            Form::Empty | Form::Text(_) | Form::List(_) | Form::Dict(_) | Form::Read(_) => None,
        }
    }

    /// The integer that its text reads as, in a style. This takes no memory.
    ///
    /// # Errors
    /// [`IntegerFault`]: 111 where the text is no integer text, 112 where the number doesn't fit 64
    /// bits.
    #[inline(always)]
    pub fn int(&self, style: Integers) -> Result<i64, IntegerFault>
        ensures { result ≡ int_of style self.now }
    {
        match &self.form {
            Form::Number(n) => number_of(*n, style),
            _ => self.int_of_text(style),
        }
    }

    /// The same of one that isn't kept as a number. It isn't inlined, so that the number of one
    /// that is costs little.
    #[inline(never)]
    fn int_of_text(&self, style: Integers) -> Result<i64, IntegerFault>
        ensures { result ≡ int_of style self.now }
    {
        match &self.form {
            Form::Number(n) => number_of(*n, style),
            Form::Text(text) => read_int(text.as_str(), style),
            Form::Read(read) => read_int(read.text().as_str(), style),
            Form::Empty | Form::List(_) | Form::Dict(_) => Err(IntegerFault::NotInteger),
        }
    }

    /// The same. A text that is just what the number writes is kept as the number from then on.
    ///
    /// # Errors
    /// Those of [`Value::int`].
    #[inline(always)]
    pub fn as_int(&mut self, style: Integers) -> Result<i64, IntegerFault>
        ensures read { result ≡ int_of style self.old }
        ensures text { self.new ≡ self.old }
    {
        match &self.form {
            Form::Number(n) => number_of(*n, style),
            _ => self.read_as_int(style),
        }
    }

    /// The same of one that isn't kept as a number, which isn't inlined either.
    #[inline(never)]
    fn read_as_int(&mut self, style: Integers) -> Result<i64, IntegerFault>
        ensures read { result ≡ int_of style self.old }
        ensures text { self.new ≡ self.old }
    {
        let n = self.int_of_text(style)?;
        if self.is_number(n) {
            *self = Value::from_int(n);
        }
        Ok(n)
    }
}

impl Value {
    /// The list that is at hand without reading its text: a list that was built, or what the text
    /// was last read as.
    fn list_at_hand(&self) -> Result<Option<List>, AllocError>
        ensures { IfOk result (λ found. IfSome found (λ list. list_of self.now ≡ Ok list)) }
    {
        match &self.form {
            Form::List(items) => Ok(Some(List::from_items(items.clone()?))),
            Form::Read(read) => match read.list() {
                Some(list) => Ok(Some(list.clone()?)),
                None => Ok(None),
            },
            _ => Ok(None),
        }
    }

    /// The list whose text this is, where that is at hand without reading the text and each of its
    /// elements is known to be plain, which is written as it is anywhere in a list. A list that was
    /// built is shared.
    ///
    /// # Errors
    /// Want of memory.
    pub fn plain_list(&self, alloc: Global) -> Result<Option<List>, AllocError>
        ensures text { IfOk result (λ found. IfSome found (λ list. self.now ≡ write list)) }
        ensures plain { IfOk result (λ found. IfSome found ArePlain) }
    {
        match &self.form {
            Form::Empty => Ok(Some(List::new(alloc)?)),
            Form::Number(n) => Ok(Some(List::of_number(alloc, *n)?)),
            Form::List(items) => plain_items(items),
            Form::Text(text) if text.is_empty() => Ok(Some(List::new(alloc)?)),
            Form::Read(read) => plain_reading(read),
            _ => Ok(None),
        }
    }

    /// The list that its text reads as, read anew.
    fn read_list(&self, alloc: Global) -> Result<List, ListError>
        ensures { Gives (λ list. list) result (list_of self.now) }
    {
        match &self.form {
            Form::Empty => Ok(List::new(alloc)?),
            Form::Text(text) => List::read(alloc, text.as_str()),
            Form::Read(read) => List::read(alloc, read.text().as_str()),
            Form::Number(n) => Ok(List::of_number(alloc, *n)?),
            Form::List(items) => Ok(List::from_items(items.clone()?)),
            Form::Dict(entries) => Ok(List::of_entries(alloc, entries)?),
        }
    }

    /// The list that its text spells, which is kept where it is kept as a text.
    ///
    /// # Errors
    /// [`ListError::Fault`] exactly where the text spells no list (101 to 104); want of memory.
    pub fn as_list(&mut self, alloc: Global) -> Result<List, ListError>
        ensures read { Gives (λ list. list) result (list_of self.old) }
        ensures text { self.new ≡ self.old }
    {
        if let Some(list) = self.list_at_hand()? {
            return Ok(list);
        }
        let list = self.read_list(alloc)?;
        self.keep_list(alloc, &list)?;
        Ok(list)
    }

    /// The list that its text spells: what is at hand, or what is read anew. It isn't kept.
    fn to_list(&self, alloc: Global) -> Result<List, ListError>
        ensures { Gives (λ list. list) result (list_of self.now) }
    {
        match self.list_at_hand()? {
            Some(list) => Ok(list),
            None => self.read_list(alloc),
        }
    }

    /// Keeps the list that its text reads as, where it is kept as a text.
    fn keep_list(&mut self, alloc: Global, list: &List) -> Result<(), AllocError>
        requires { list_of self.old ≡ Ok list.now }
        ensures { self.new ≡ self.old }
    {
        self.keeps_limit();
        if let Some(text) = self.as_text() {
            let read = ReadText::of_list(text.clone()?, list.clone()?);
            self.form = Form::Read(Rc::new(alloc, read)?);
        }
        Ok(())
    }

    /// Lets go what its text was last read as, so that its text isn't shared by that.
    fn forget_reading(&mut self) -> Result<(), AllocError>
        ensures { self.new ≡ self.old }
    {
        if let Form::Read(read) = &self.form {
            let text = read.text().clone()?;
            self.form = Form::Text(text);
        }
        Ok(())
    }

    /// The value of a list.
    ///
    /// # Errors
    /// [`ValueError::TooLong`] exactly where the list's text would be longer than [`MOST_BYTES`];
    /// want of memory.
    pub fn from_list(alloc: Global, list: List) -> Result<Value, ValueError>
        ensures made { IfOk result (λ value. (value ≡ write list) × IsWithin (write list)) }
        ensures refused { IsErrOf result ValueError.TooLong ↔ IsPast (write list) }
    {
        if !list.is_within() {
            return Err(ValueError::TooLong);
        }
        match list.len() {
            0 => Ok(Value::empty()),
            1 => Ok(Value::from_one(alloc, list)?),
            _ => Ok(Value {
                form: Form::List(list.into_items()),
            }),
        }
    }

    /// The value of a list of one element: a number where the element is kept as one, and otherwise
    /// the text that is written, with the list.
    fn from_one(alloc: Global, list: List) -> Result<Value, AllocError>
        requires { IsWithin (write list) }
        ensures { IfOk result (λ value. value ≡ write list) }
    {
        if let Some(n) = list.items().lone_number() {
            return Ok(Value::from_int(n));
        }
        let text = Text::from_string(alloc, list.write(alloc)?)?;
        let read = ReadText::of_list(text, list);
        Ok(Value {
            form: Form::Read(Rc::new(alloc, read)?),
        })
    }

    /// It as an element of a list or the value of a key: without a text where its form allows.
    pub(crate) fn into_element(self, alloc: Global) -> Result<Element, AllocError>
        ensures text { IfOk result (λ element. element_text element ≡ self) }
        ensures element { IfOk result IsElement }
    {
        let Value { form } = self;
        match form {
            Form::Empty => Ok(Element::Text(Text::new(alloc, "")?)),
            Form::Text(text) => Ok(Element::Text(text)),
            Form::Read(read) => Ok(Element::Text(read.text().clone()?)),
            Form::Number(n) => Ok(Element::Number(n)),
            Form::List(items) => inner_list(alloc, items),
            Form::Dict(entries) => inner_dict(alloc, entries),
        }
    }

    /// The dict that is at hand without reading a text or a list: a dict that was built, or what
    /// the text was last read as.
    fn dict_at_hand(&self) -> Result<Option<Dict>, AllocError>
        ensures { IfOk result (λ found. IfSome found (λ dict. dict_of self.now ≡ Ok dict)) }
    {
        match &self.form {
            Form::Dict(entries) => {
                entries.reads_back();
                Ok(Some(Dict::from_entries(entries.clone()?)))
            }
            Form::Read(read) => match read.dict() {
                Some(dict) => Ok(Some(dict.clone()?)),
                None => Ok(None),
            },
            _ => Ok(None),
        }
    }

    /// The dict that its text reads as, made of the list that it spells.
    fn read_dict(&self, alloc: Global) -> Result<Dict, DictError>
        ensures { GivesDict result (dict_of self.now) }
    {
        let list = self.to_list(alloc)?;
        Dict::from_list(alloc, &list)
    }

    /// The dict that its text spells: what is at hand, or what is read anew. It isn't kept.
    fn to_dict(&self, alloc: Global) -> Result<Dict, DictError>
        ensures { GivesDict result (dict_of self.now) }
    {
        match self.dict_at_hand()? {
            Some(dict) => Ok(dict),
            None => self.read_dict(alloc),
        }
    }

    /// Keeps the dict that its text reads as, where it is kept as a text.
    fn keep_dict(&mut self, alloc: Global, dict: &Dict) -> Result<(), AllocError>
        requires { dict_of self.old ≡ Ok dict.now }
        ensures { self.new ≡ self.old }
    {
        self.keeps_limit();
        if let Some(text) = self.as_text() {
            let read = ReadText::of_dict(text.clone()?, dict.clone()?);
            self.form = Form::Read(Rc::new(alloc, read)?);
        }
        Ok(())
    }

    /// The dict that its text spells, which is kept where it is kept as a text: a list of keys and
    /// values in turn, where a repeated key keeps its first place and its last value.
    ///
    /// # Errors
    /// [`DictError::Fault`] exactly where the text spells no list (101 to 104), or one with an odd
    /// number of elements (121); want of memory.
    pub fn as_dict(&mut self, alloc: Global) -> Result<Dict, DictError>
        ensures read { GivesDict result (dict_of self.old) }
        ensures text { self.new ≡ self.old }
    {
        if let Some(dict) = self.dict_at_hand()? {
            return Ok(dict);
        }
        let dict = self.read_dict(alloc)?;
        self.keep_dict(alloc, &dict)?;
        Ok(dict)
    }

    /// The value of a dict.
    ///
    /// # Errors
    /// [`ValueError::TooLong`] exactly where the dict's text would be longer than [`MOST_BYTES`].
    pub fn from_dict(dict: Dict) -> Result<Value, ValueError>
        ensures made { IfOk result
            (λ value. (value ≡ write (flat dict)) × IsWithin (write (flat dict))) }
        ensures refused { IfErr result
            (λ e. (e ≡ ValueError.TooLong) × IsPast (write (flat dict))) }
    {
        if !dict.is_within() {
            return Err(ValueError::TooLong);
        }
        Ok(Value {
            form: Form::Dict(dict.into_entries()),
        })
    }

    /// The same value, which shares what is kept. It isn't inlined, so that the copy of a value
    /// that shares nothing or a text alone costs little.
    #[inline(never)]
    fn share(&self) -> Result<Value, AllocError>
        ensures { IfOk result (λ value. value ≡ self.now) }
    {
        let form = self.form.clone()?;
        Ok(Value { form })
    }

    /// Its text as a key.
    pub(crate) fn key_text(&self, alloc: Global) -> Result<Text, AllocError>
        ensures text { IfOk result (λ text. text ≡ self.now) }
        ensures within { IfOk result IsWithin }
    {
        let _within = self.text_len();
        self.text(alloc)
    }

    /// The place that its text keeps (see [`Text::hint`]), where it is kept as a text alone: where
    /// its reading as a script or as an expression, or the variable or the command that it names,
    /// was found last. It says nothing of the text, and may be any: whoever takes it looks at what
    /// stands there.
    pub fn place(&self) -> Option<usize> {
        match &self.form {
            Form::Text(text) => Some(text.hint()),
            _ => None,
        }
    }

    /// Keeps a place with its text, for all values that share it.
    pub fn keep_place(&self, place: usize) {
        if let Form::Text(text) = &self.form {
            text.set_hint(place);
        }
    }

    /// Whether it is kept as a text whose list isn't at hand, so that [`Value::as_list`] would read
    /// the text and keep what it spells. A hint, of which contracts say nothing.
    #[inline]
    pub fn wants_list(&self) -> bool {
        match &self.form {
            Form::Text(_) => true,
            Form::Read(read) => read.list().is_none(),
            Form::Empty | Form::Number(_) | Form::List(_) | Form::Dict(_) => false,
        }
    }

    /// The same of its dict and [`Value::as_dict`].
    #[inline]
    pub fn wants_dict(&self) -> bool {
        match &self.form {
            Form::Text(_) => true,
            Form::Read(read) => read.dict().is_none(),
            Form::Empty | Form::Number(_) | Form::List(_) | Form::Dict(_) => false,
        }
    }
}

/// The list of these elements, which is shared, where they are known to be plain.
fn plain_items(items: &Rc<Items>) -> Result<Option<List>, AllocError>
    ensures list { IfOk result (λ found. IfSome found (λ list. list ≡ items.now.value)) }
    ensures plain { IfOk result (λ found. IfSome found ArePlain) }
{
    if !items.is_plain() {
        return Ok(None);
    }
    Ok(Some(List::from_items(items.clone()?)))
}

/// The list that a text was read as, where its elements are known to be plain and the text is just
/// what it writes.
fn plain_reading(read: &ReadText) -> Result<Option<List>, AllocError>
    ensures text { IfOk result (λ found. IfSome found (λ list. read.now ≡ write list)) }
    ensures plain { IfOk result (λ found. IfSome found ArePlain) }
{
    let Some(list) = read.list() else {
        return Ok(None);
    };
    let text = read.text().as_str().as_bytes();
    if !list.items().is_plain() || !list.items().is_text(text) {
        return Ok(None);
    }
    Ok(Some(list.clone()?))
}

/// A list as an element: without a text where its text is written in braces.
fn inner_list(alloc: Global, items: Rc<Items>) -> Result<Element, AllocError>
    requires within { IsWithin (write items.value) }
    requires several { 2 ≤ length items.value }
    ensures text { IfOk result (λ element. element_text element ≡ write items.value) }
    ensures element { IfOk result IsElement }
{
    if items.fits_inside() {
        return Ok(Element::List(items));
    }
    Ok(Element::Text(Text::from_string(alloc, items.write(alloc)?)?))
}

/// A dict as an element: without a text where its text is written in braces.
fn inner_dict(alloc: Global, entries: Rc<Entries>) -> Result<Element, AllocError>
    requires { IsWithin (write (flat entries.value)) }
    ensures text { IfOk result (λ element. element_text element ≡ write (flat entries.value)) }
    ensures element { IfOk result IsElement }
{
    if entries.len() > 0 && entries.fits_inside() {
        return Ok(Element::Dict(entries));
    }
    Ok(Element::Text(Text::from_string(alloc, entries.write(alloc)?)?))
}

/// The integer that the text of a number reads as.
fn number_of(n: i64, style: Integers) -> Result<i64, IntegerFault>
    ensures { result ≡ int_of style (signed_decimal n) }
{
    let _style = style;
    Ok(n)
}

impl Clone for Form {
    ghost use Rattle.tcl_value.specs.Forms.{IsSameForm};

    ghost is_clone = { IsSameForm };

    fn clone(&self) -> Result<Form, AllocError> {
        match self {
            Form::Empty => Ok(Form::Empty),
            Form::Text(text) => Ok(Form::Text(text.clone()?)),
            Form::Number(n) => Ok(Form::Number(*n)),
            Form::List(items) => Ok(Form::List(items.clone()?)),
            Form::Dict(entries) => Ok(Form::Dict(entries.clone()?)),
            Form::Read(read) => Ok(Form::Read(read.clone()?)),
        }
    }
}

impl Default for Value {
    ghost use Rattle.std.specs.Prelude.{◌≡◌, []};

    ghost is_default = { λ x. x ≡ [] };

    fn default() -> Value {
        Value::empty()
    }
}

impl Clone for Value {
    ghost is_clone = { λ x y. y ≡ x };

    #[inline]
    fn clone(&self) -> Result<Value, AllocError> {
        let form = match &self.form {
            Form::Number(n) => Form::Number(*n),
            Form::Text(text) => Form::Text(text.clone()?),
            _ => return self.share(),
        };
        Ok(Value { form })
    }
}
