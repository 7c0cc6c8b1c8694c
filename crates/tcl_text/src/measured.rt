//! Texts whose length as elements of a list is known without reading them again as they grow.
ghost use Rattle.std.specs.Prelude.{◌≡◌, ◌++◌, ◌≤◌, ◌+◌, ◌<◌, ◌^◌, length, Bool, List, ℕ};
ghost use Rattle.std.specs.Bool.{OnTrue, OnFalse};
ghost use Rattle.tcl_text.specs.Measuring.{tallied, tally_with, tally_of, fits_by, form_by};
ghost use Rattle.tcl_text.specs.Measuring.{HasRoom};
ghost use Rattle.tcl_text.specs.Writing.{is_comment, written};

use crate::list::Braces;
use crate::list_writing::{Form, hash_mark_len, is_comment, is_special, joins_lines};
use crate::text::Text;
use std::alloc::AllocError;
use std::marker::Model;

/// What the length of a text as an element of a list depends on, beside its own length and its
/// first byte.
#[derive(Clone, Copy)]
pub(crate) struct Tally {
    /// How many special characters it has.
    special: usize,
    /// Its braces as they are counted, if none closes that isn't open.
    braces: Option<Braces>,
    /// Its last byte.
    last: u8,
    /// Whether a backslash stands right before a newline.
    joins: bool,
}

impl Tally {
    /// Before the first byte.
    const NOTHING: Tally = Tally {
        special: 0,
        braces: Some(Braces::NONE_OPEN),
        last: 0,
        joins: false,
    };

    /// With one more byte.
    fn with_byte(self, byte: u8) -> Tally
        requires { HasRoom self 1 }
        ensures { result ≡ tallied self byte }
    {
        let special = if is_special(byte) {
            self.special + 1
        } else {
            self.special
        };
        let braces = match self.braces {
            Some(braces) => braces.count(byte),
            None => None,
        };
        Tally {
            special,
            braces,
            last: byte,
            joins: self.joins || joins_lines(self.last, byte),
        }
    }

    /// With the bytes of a text.
    fn with_text(self, text: &str) -> Tally
        requires { HasRoom self (length text.now) }
        ensures { result ≡ tally_with self text.now }
    {
        let mut tally = self;
        'bytes: for byte in text.as_bytes() {
            tally = tally.with_byte(*byte);
        }
        tally
    }

    /// Whether a text with this tally may stand in braces.
    fn fits_braces(self) -> bool
        ensures { result ≡ fits_by self }
    {
        let closed = match self.braces {
            Some(braces) => braces.depth == 0 && !braces.skips,
            None => false,
        };
        closed && self.last != b'\\' && !self.joins
    }

    /// How a text with this tally is written, which has so many bytes.
    fn form(self, len: u128, comment: bool) -> Form
        ensures { result ≡ form_by self len comment }
    {
        if len == 0 {
            return Form::Braced;
        }
        if self.special == 0 && !comment {
            return Form::Plain;
        }
        if self.fits_braces() {
            Form::Braced
        } else {
            Form::Escaped
        }
    }

    /// How many bytes write the text that has this tally and so many bytes.
    fn written_len(self, len: u128, comment: bool) -> u128
        requires { len < 2 ^ 66 }
        ensures { (first : Bool) (x : List ℕ) → self ≡ tally_of x → len ≡ length x →
            comment ≡ is_comment first x → result ≡ length (written first x) }
    {
        match self.form(len, comment) {
            Form::Plain => len,
            Form::Braced => len + 2,
            Form::Escaped => hash_mark_len(comment) as u128 + len + self.special as u128,
        }
    }
}

/// A text, which contracts see as the list of its bytes.
///
/// It knows how many bytes write it as an element of a list, and knows it again when it has grown,
/// without reading what stood there before. A clone shares the bytes; a text that isn't shared
/// grows in place.
#[derive(Drop)]
pub struct Measured {
    text: Text,
    tally: Tally,
}

impl Model for Measured {
    ghost use Rattle.std.specs.Prelude.{◌≡◌, List, ℕ};

    ghost Value = { List ℕ };

    ghost use Rattle.tcl_text.specs.Measuring.{tally_of};

    ghost view = { λ a. a.text };

    ghost invariant = { λ a. a.tally ≡ tally_of a.text };
}

impl Measured {
    /// A text, which is read once for this.
    pub fn new(text: Text) -> Measured
        ensures { result ≡ text }
    {
        let tally = Tally::NOTHING.with_text(text.as_str());
        Measured { text, tally }
    }

    /// The text itself.
    pub fn text(&self) -> &Text
        ensures { result.now ≡ self.now }
    {
        &self.text
    }

    /// How many bytes it takes as it is written in a list, where it is the first element or
    /// another.
    pub fn written_len(&self, first: bool) -> usize
        ensures { result ≡ length (written first self.now) }
    {
        let comment = is_comment(self.text.as_str(), first);
        self.tally.written_len(self.text.len() as u128, comment) as usize
    }

    /// Its tally with more behind it.
    fn tally_with(&self, more: &str) -> Tally
        ensures { result ≡ tally_of (self.now ++ more.now) }
    {
        let _text = self.text.as_str();
        self.tally.with_text(more)
    }

    /// Whether with more behind it it is a first element that begins with `#`.
    fn is_comment_with(&self, more: &str, first: bool) -> bool
        ensures { result ≡ is_comment first (self.now ++ more.now) }
    {
        if self.text.is_empty() {
            is_comment(more, first)
        } else {
            is_comment(self.text.as_str(), first)
        }
    }

    /// Whether more behind it, with which it has this tally, makes what is written of it longer by
    /// at most so many bytes.
    fn has_room(&self, more: &str, tally: Tally, first: bool, room: usize) -> bool
        requires { tally ≡ tally_of (self.now ++ more.now) }
        ensures { OnTrue result
            (length (written first (self.now ++ more.now)) ≤ length
            (written first self.now) + room) }
    {
        let len = self.text.len() as u128 + more.len() as u128;
        let after = tally.written_len(len, self.is_comment_with(more, first));
        after <= self.written_len(first) as u128 + room as u128
    }

    /// Adds to its end, where what is written of it, wherever it stands, is then longer by at most
    /// so many bytes: in place where the text isn't shared. Says whether it did; where it didn't,
    /// nothing is changed.
    pub fn append_within(&mut self, more: &str, room: usize) -> bool
        ensures appended { OnTrue result (self.new ≡ self.old ++ more.now) }
        ensures light { OnTrue result ((first : Bool) →
            length (written first self.new) ≤ length (written first self.old) + room) }
        ensures unchanged { OnFalse result (self.new ≡ self.old) }
    {
        let tally = self.tally_with(more);
        if !self.has_room(more, tally, true, room) || !self.has_room(more, tally, false, room) {
            return false;
        }
        if self.text.append(more).is_err() {
            return false;
        }
        self.tally = tally;
        true
    }
}

impl Clone for Measured {
    ghost use Rattle.std.specs.Prelude.{◌≡◌};

    ghost is_clone = { λ x y. y ≡ x };

    fn clone(&self) -> Result<Measured, AllocError> {
        let text = self.text.clone()?;
        let tally = self.tally;
        Ok(Measured { text, tally })
    }
}
