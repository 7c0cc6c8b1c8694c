//! Lists in texts.
ghost use Rattle.std.specs.Prelude.{◌≡◌, ◌≢◌, ℕ, List, ◌++◌, ◌∷◌, [], ◌+◌, ◌≤◌, ◌<◌, ◌^◌, length};
ghost use Rattle.std.specs.Prelude.{take, drop, Some, None, Ok, MatchOption, IfOk, IfErr, Err, not};
ghost use Rattle.std.specs.List.{prefix_len, take_while};
ghost use Rattle.std.specs.Str.{chars};
ghost use Rattle.tcl_text.specs.Lists.{is_white, close_brace, none_open, count, units, ends};
ghost use Rattle.tcl_text.specs.Lists.{offending, element_at, list_of, Spells, HasFault, Decided};
ghost use Rattle.tcl_text.specs.Lists.{OneList, OneFault, NeverBoth, GivesList, GivesFault};
ghost use Rattle.tcl_text.specs.Reading.{is_plain, stop_test, Gives, IfFault};
ghost use Rattle.tcl_text.specs.Writing.{fault_message, shown_after};
ghost use Rattle.tcl_text.specs.declared.list.ListFault.{ListFault};
ghost use Rattle.tcl_text.specs.declared.list.ListError.TheVariants.{Memory};

use crate::backslash::read_escape;
use crate::characters::first_characters;
pub use crate::list_writing::{write_element, write_list, written_len, written_list_spells_it};
use crate::messages::OUT_OF_MEMORY;
use crate::text::Text;
use std::alloc::{AllocError, AllocFailed, Global};
use thiserror::Error;

/// What is at fault in a text that spells no list.
#[derive(Debug, Drop, Error, PartialEq)]
pub enum ListFault {
    /// 101: an open brace has no close brace.
    #[error("101: unmatched open brace in list")]
    UnmatchedBrace,
    /// 102: an open quote has no close quote.
    #[error("102: unmatched open quote in list")]
    UnmatchedQuote,
    /// 103: this text follows an element in braces in place of white space.
    #[error("103: list element in braces followed by \"{0}\" instead of space")]
    AfterBrace(Text),
    /// 104: this text follows an element in quotes in place of white space.
    #[error("104: list element in quotes followed by \"{0}\" instead of space")]
    AfterQuote(Text),
}

impl ListFault {
    /// What an error says of it.
    ///
    /// # Errors
    /// Want of memory.
    pub fn message(&self, alloc: Global) -> Result<Text, AllocError>
        ensures { IfOk result (λ made. made ≡ fault_message self.now) }
    {
        match self {
            ListFault::UnmatchedBrace => Text::new(alloc, "unmatched open brace in list"),
            ListFault::UnmatchedQuote => Text::new(alloc, "unmatched open quote in list"),
            ListFault::AfterBrace(shown) => followed_message(alloc, "braces", shown),
            ListFault::AfterQuote(shown) => followed_message(alloc, "quotes", shown),
        }
    }
}

fn followed_message(alloc: Global, kind: &str, shown: &Text) -> Result<Text, AllocError>
    ensures { IfOk result (λ made. made ≡ shown_after kind.now shown.now) }
{
    let mut message = String::from_str(alloc, "list element in ")?;
    message.push_str(kind)?;
    message.push_str(" followed by \"")?;
    message.push_str(shown.as_str())?;
    message.push_str("\" instead of space")?;
    Text::from_string(alloc, message)
}

/// Why no list was read.
#[derive(Debug, Drop, Error, PartialEq)]
pub enum ListError {
    /// Memory ran out.
    #[error("{}", OUT_OF_MEMORY)]
    Memory,
    /// The text spells no list.
    #[error(transparent)]
    Fault(ListFault),
}

impl From<AllocError> for ListError {
    ghost from_gives = { λ _ e. e ≡ Memory };

    fn from(_e: AllocError) -> ListError {
        ListError::Memory
    }
}

impl<T: Drop> From<AllocFailed<T>> for ListError {
    ghost from_gives = { λ _ e. e ≡ Memory };

    fn from(_e: AllocFailed<T>) -> ListError {
        ListError::Memory
    }
}

pub(crate) fn is_white(byte: u8) -> bool
    ensures { result ≡ is_white byte }
{
    byte == b' ' || (9..=13).contains(&byte)
}

/// The text without the white space at its head.
fn skip_white(text: &str) -> &str
    ensures rest { result.now ≡ drop (prefix_len is_white text.now) text.now }
{
    let bytes = text.as_bytes();
    let mut count = 0;
    'white: while count < bytes.len() && is_white(bytes[count]) {
        count += 1;
    }
    let (_, rest) = text.split_at(count);
    rest
}

/// Whether an element may end before this text: at its end, or at white space.
fn is_end(text: &str) -> bool
    ensures { result ≡ ends text.now }
{
    match text.as_bytes() {
        [] => true,
        [first, ..] => is_white(*first),
    }
}

/// Braces as they are counted, from the left.
#[derive(Clone, Copy)]
pub(crate) struct Braces {
    /// How many are open.
    pub(crate) depth: usize,
    /// Whether the next character is skipped, since a backslash stands before it.
    pub(crate) skips: bool,
}

impl Braces {
    /// Before the first byte.
    pub(crate) const NONE_OPEN: Braces = Braces {
        depth: 0,
        skips: false,
    };

    /// Counts a byte; `None` where it closes a brace that isn't open.
    pub(crate) fn count(self, byte: u8) -> Option<Braces>
        requires { self.depth + 1 < 2 ^ 64 }
        ensures { result ≡ count self byte }
    {
        let depth = self.depth;
        let plain = Braces {
            depth,
            skips: false,
        };
        if self.skips {
            return Some(plain);
        }
        match byte {
            b'\\' => Some(Braces { depth, skips: true }),
            b'{' => Some(Braces {
                depth: depth + 1,
                skips: false,
            }),
            b'}' if depth == 0 => None,
            b'}' => Some(Braces {
                depth: depth - 1,
                skips: false,
            }),
            _ => Some(plain),
        }
    }
}

/// The text before the close brace of an open brace that stands before this text, and the text
/// behind it.
pub fn split_braced(text: &str) -> Option<(&str, &str)>
    ensures { MatchOption result (close_brace text.now none_open ≡ None)
        (λ parts. close_brace text.now none_open ≡ Some (parts.0.now, parts.1.now)) }
{
    let mut braces = Braces::NONE_OPEN;
    'bytes: for (i, byte) in text.as_bytes().iter().enumerate() {
        match braces.count(*byte) {
            Some(next) => braces = next,
            None => {
                let (inside, _) = text.split_at(i);
                let (_, after) = text.split_at(i + 1);
                return Some((inside, after));
            }
        }
    }
    None
}

/// What ends a run of units.
#[derive(Clone, Copy)]
enum UnitEnd {
    White,
    Quote,
}

impl UnitEnd {
    fn is_at(self, byte: u8) -> bool
        ensures { result ≡ stop_test self byte }
    {
        match self {
            UnitEnd::White => is_white(byte),
            UnitEnd::Quote => byte == b'"',
        }
    }

    /// Whether a byte stands for itself, within a run that ends so.
    fn is_plain(self, byte: u8) -> bool
        ensures { result ≡ is_plain (stop_test self) byte }
    {
        byte != b'\\' && !self.is_at(byte)
    }

    /// The text before the first backslash or the end of the run, and from there on.
    fn split_plain(self, text: &str) -> (&str, &str)
        ensures plain { result.0.now ≡ take
            (prefix_len (is_plain (stop_test self)) text.now) text.now }
        ensures rest { result.1.now ≡ drop
            (prefix_len (is_plain (stop_test self)) text.now) text.now }
    {
        let bytes = text.as_bytes();
        let mut count = 0;
        'plain: while count < bytes.len() && self.is_plain(bytes[count]) {
            count += 1;
        }
        text.split_at(count)
    }
}

/// What follows this ASCII character at the head of a text.
fn strip_mark(text: &str, mark: char) -> Option<&str>
    requires { mark < 128 }
    ensures { MatchOption result ((rest : List ℕ) → text.now ≢ mark ∷ rest)
        (λ rest. text.now ≡ mark ∷ rest.now) }
{
    text.strip_prefix(mark)
}

/// What the units up to the end of the run mean, and the text from there on.
fn read_units(alloc: Global, text: &str, stop: UnitEnd) -> Result<(Text, &str), AllocError>
    ensures { IfOk result (λ read. units (stop_test stop) text.now 0 ≡ (read.0, read.1.now)) }
{
    let (plain, rest) = stop.split_plain(text);
    let Some(_) = strip_mark(rest, '\\') else {
        return Ok((Text::new(alloc, plain)?, rest));
    };
    let mut meaning = String::from_str(alloc, plain)?;
    let mut rest = rest;
    'sequences: while let Some(after) = strip_mark(rest, '\\') {
        let (character, after) = read_escape(after);
        let (plain, after) = stop.split_plain(after);
        meaning.push(character)?;
        meaning.push_str(plain)?;
        rest = after;
    }
    Ok((Text::from_string(alloc, meaning)?, rest))
}

/// The text up to its first white space.
fn first_word(text: &str) -> &str
    ensures { result.now ≡ take_while (λ b. not (is_white b)) text.now }
{
    let bytes = text.as_bytes();
    let mut count = 0;
    'dark: while count < bytes.len() && !is_white(bytes[count]) {
        count += 1;
    }
    let (word, _) = text.split_at(count);
    word
}

/// The text up to its first white space, and at most 20 characters of it.
fn offending_text(alloc: Global, text: &str) -> Result<Text, AllocError>
    ensures { IfOk result (λ made. made ≡ offending text.now) }
{
    Text::new(alloc, first_characters(first_word(text), 20))
}

/// The element at the head of a text, and what follows it.
fn read_element(alloc: Global, text: &str) -> Result<(Text, &str), ListError>
    ensures { Gives (λ read. (read.0, read.1.now)) result (element_at text.now) }
{
    if let Some(inside) = strip_mark(text, '{') {
        let Some((inside, rest)) = split_braced(inside) else {
            return Err(ListError::Fault(ListFault::UnmatchedBrace));
        };
        if !is_end(rest) {
            let shown = offending_text(alloc, rest)?;
            return Err(ListError::Fault(ListFault::AfterBrace(shown)));
        }
        return Ok((Text::new(alloc, inside)?, rest));
    }
    if let Some(inside) = strip_mark(text, '"') {
        let (element, rest) = read_units(alloc, inside, UnitEnd::Quote)?;
        let Some(rest) = strip_mark(rest, '"') else {
            return Err(ListError::Fault(ListFault::UnmatchedQuote));
        };
        if !is_end(rest) {
            let shown = offending_text(alloc, rest)?;
            return Err(ListError::Fault(ListFault::AfterQuote(shown)));
        }
        return Ok((element, rest));
    }
    Ok(read_units(alloc, text, UnitEnd::White)?)
}

/// The list that a text spells: elements in braces, in quotes or bare, with white space between
/// them. A backslash and what follows it have their meaning in quotes and in bare elements, and
/// nothing else is replaced.
///
/// # Errors
/// The fault of a text that spells none, and want of memory.
pub fn read_list(alloc: Global, text: &str) -> Result<Vec<Text>, ListError>
    ensures reads { Gives (λ list. list.items) result (list_of text.now) }
    ensures found { IfOk result (λ list. Spells list.items text.now) }
    ensures only { (list : List (List ℕ)) → Spells list text.now → Gives
        (λ found. found.items) result (Ok list) }
    ensures fault { IfErr result (λ error. IfFault error (HasFault text.now)) }
    ensures only_fault { (fault : ListFault) → HasFault text.now fault → Gives
        (λ found. found.items) result (Err fault) }
{
    read_all(alloc, text)
}

fn read_all(alloc: Global, text: &str) -> Result<Vec<Text>, ListError>
    ensures { Gives (λ list. list.items) result (list_of text.now) }
{
    let mut list = Vec::new(alloc);
    let mut rest = skip_white(text);
    'elements: while !rest.is_empty() {
        let (element, after) = read_element(alloc, rest)?;
        list.push(element)?;
        rest = skip_white(after);
    }
    Ok(list)
}

/// Each text spells a list or has a fault.
pub fn each_text_is_decided()
    ensures { Decided }
{}

/// No text spells two lists.
pub fn one_list_at_most()
    ensures { OneList }
{}

/// No text has two faults.
pub fn one_fault_at_most()
    ensures { OneFault }
{}

/// No text that spells a list has a fault.
pub fn never_list_and_fault()
    ensures { NeverBoth }
{}

/// `list_of` gives the list that a text spells, and the fault that it has, and nothing else.
pub fn list_of_decides()
    ensures list { GivesList }
    ensures fault { GivesFault }
{}
