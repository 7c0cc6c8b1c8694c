//! Texts that are shared, and are changed in place where they are not.
ghost use Rattle.std.specs.Prelude.{◌≡◌, ◌++◌, ◌==◌, length, IfOk, IfSome, OnOk, OnErr};
ghost use Rattle.std.specs.Prelude.{IsTrue};
ghost use Rattle.std.specs.Str.{chars, IsAscii};
ghost use Rattle.std.specs.String.{string_bytes};
ghost use Rattle.tcl_text.specs.Eight.{eight, IsFront};

use std::alloc::{AllocError, Global};
use std::cell::Cell;
use std::cmp::{Eq, PartialEq};
use std::fmt;
use std::hash::{Hash, Hasher};
use std::marker::Model;
use std::rc::Rc;

/// What the clones of a text share.
///
/// Its first eight bytes stand as one number beside it, by which texts that differ are mostly told
/// apart, and short ones compared, without a look at their bytes. Of a long one it is kept whether
/// it is known to be ASCII.
#[derive(Drop)]
struct Shared {
    text: String,
    front: u64,
    hint: Cell<u32>,
    is_ascii: bool,
}

impl Clone for Shared {
    ghost use Rattle.std.specs.Prelude.{◌≡◌};
    ghost use Rattle.std.specs.String.{string_bytes};

    ghost is_clone = { λ x y. (string_bytes y.text ≡ string_bytes x.text) ×
        (y.front ≡ x.front) × (y.is_ascii ≡ x.is_ascii) };

    fn clone(&self) -> Result<Shared, AllocError> {
        Ok(Shared {
            text: self.text.clone()?,
            front: self.front,
            hint: Cell::new(0),
            is_ascii: self.is_ascii,
        })
    }
}

/// The first eight bytes, 0 for each that isn't there.
fn eight_of(bytes: &[u8]) -> [u8; 8]
    ensures { result ≡ eight bytes.now }
{
    match bytes {
        [] => [0; 8],
        [a] => [*a, 0, 0, 0, 0, 0, 0, 0],
        [a, b] => [*a, *b, 0, 0, 0, 0, 0, 0],
        [a, b, c] => [*a, *b, *c, 0, 0, 0, 0, 0],
        [a, b, c, d] => [*a, *b, *c, *d, 0, 0, 0, 0],
        [a, b, c, d, e] => [*a, *b, *c, *d, *e, 0, 0, 0],
        [a, b, c, d, e, f] => [*a, *b, *c, *d, *e, *f, 0, 0],
        [a, b, c, d, e, f, g] => [*a, *b, *c, *d, *e, *f, *g, 0],
        [a, b, c, d, e, f, g, h, ..] => [*a, *b, *c, *d, *e, *f, *g, *h],
    }
}

/// The first eight bytes of a text as a number, the first byte its lowest.
fn front_of(text: &str) -> u64
    ensures { IsFront text.now result }
{
    u64::from_le_bytes(eight_of(text.as_bytes()))
}

/// How many bytes a text has at the least of which it is kept that it is ASCII: the characters of a
/// shorter one are soon counted.
const LONG: usize = 32;

/// Whether a text is long and ASCII.
fn is_long_ascii(text: &str) -> bool
    ensures { IsTrue result → IsAscii text.now }
{
    text.len() >= LONG && text.is_ascii()
}

/// Whether a text is long and ASCII with more at its end, of which only what is added is looked at
/// where the text is long already.
fn stays_ascii(shared: &Shared, more: &str) -> bool
    requires { IsTrue shared.now.is_ascii → IsAscii (string_bytes shared.now.text) }
    ensures { IsTrue result → IsAscii (string_bytes shared.now.text ++ more.now) }
{
    let text = shared.text.as_str();
    if text.len() >= LONG {
        return shared.is_ascii && more.is_ascii();
    }
    more.len() >= LONG - text.len() && text.is_ascii() && more.is_ascii()
}

/// A text in UTF-8, which contracts see as the list of its bytes.
///
/// A clone shares the bytes. A text that isn't shared grows in place.
///
/// A text and its clones keep a place at which what the text names, or what it was read as, was
/// found last. That is a hint, of which contracts say nothing and which may be any number: whoever
/// takes it looks at what stands there.
pub struct Text {
    shared: Rc<Shared>,
}

impl Drop for Text {
    fn drop(self) {
        let Text { shared: _shared } = self;
    }
}

impl Model for Text {
    ghost use Rattle.std.specs.Prelude.{List, ℕ, IsTrue};
    ghost use Rattle.std.specs.Str.{IsAscii};
    ghost use Rattle.std.specs.String.{string_bytes};
    ghost use Rattle.tcl_text.specs.Eight.{IsFront};

    ghost Value = { List ℕ };

    ghost view = { λ a. string_bytes a.shared.value.text };

    ghost invariant = { λ a. IsFront (string_bytes a.shared.value.text) a.shared.value.front ×
        (IsTrue a.shared.value.is_ascii → IsAscii (string_bytes a.shared.value.text)) };
}

impl Text {
    /// A text with these bytes.
    ///
    /// # Errors
    /// Want of memory.
    pub fn new(alloc: Global, text: &str) -> Result<Text, AllocError>
        ensures { IfOk result (λ made. made ≡ text.now) }
    {
        Text::from_string(alloc, String::from_str(alloc, text)?)
    }

    /// The text of a string, whose bytes aren't copied.
    ///
    /// # Errors
    /// Want of memory.
    pub fn from_string(alloc: Global, text: String) -> Result<Text, AllocError>
        ensures { IfOk result (λ made. made ≡ string_bytes text) }
    {
        let shared = Shared {
            front: front_of(text.as_str()),
            hint: Cell::new(0),
            is_ascii: is_long_ascii(text.as_str()),
            text,
        };
        Ok(Text {
            shared: Rc::new(alloc, shared)?,
        })
    }

    /// Its characters, borrowed.
    pub fn as_str(&self) -> &str
        ensures { result.now ≡ self.now }
    {
        self.shared.text.as_str()
    }

    /// The place that was kept last, 0 at first.
    pub fn hint(&self) -> usize {
        self.shared.hint.get() as usize
    }

    /// Keeps a place, for all clones. One that takes more than four bytes isn't kept.
    pub fn set_hint(&self, place: usize) {
        if let Ok(place) = u32::try_from(place) {
            self.shared.hint.set(place);
        }
    }

    /// How many bytes it has.
    pub fn len(&self) -> usize
        ensures { result ≡ length self.now }
    {
        self.as_str().len()
    }

    /// How many characters it has, where that is known and they needn't be counted: where it has 32
    /// bytes or more, and all of them are ASCII.
    pub fn known_count(&self) -> Option<usize>
        ensures { IfSome result (λ count. count ≡ length (chars self.now)) }
    {
        if self.shared.is_ascii {
            Some(self.len())
        } else {
            None
        }
    }

    /// Whether it has no byte.
    pub fn is_empty(&self) -> bool
        ensures { result ≡ (length self.now == 0) }
    {
        self.as_str().is_empty()
    }

    /// Whether it is the other, told by their first bytes alone, so that longer ones aren't looked
    /// at: of texts of more than eight bytes this says nothing.
    #[inline(always)]
    pub fn is_same_short(&self, other: &Text) -> bool
        ensures { IsTrue result → self.now ≡ other.now }
    {
        let (text, others) = (self.as_str(), other.as_str());
        if self.shared.front != other.shared.front || text.len() != others.len() {
            return false;
        }
        text.len() <= 8
    }

    /// Adds to its end: in place where the text isn't shared, and otherwise to a copy of its own.
    ///
    /// # Errors
    /// Want of memory, which leaves the text as it was.
    pub fn append(&mut self, more: &str) -> Result<(), AllocError>
        ensures appended { OnOk result (self.new ≡ self.old ++ more.now) }
        ensures unchanged { OnErr result (self.new ≡ self.old) }
    {
        let shared = Rc::make_mut(&mut self.shared)?;
        let is_ascii = stays_ascii(shared, more);
        shared.text.push_str(more)?;
        shared.front = front_of(shared.text.as_str());
        shared.is_ascii = is_ascii;
        Ok(())
    }
}

impl Clone for Text {
    ghost is_clone = { λ x y. y ≡ x };

    fn clone(&self) -> Result<Text, AllocError> {
        let shared = self.shared.clone()?;
        Ok(Text { shared })
    }
}

impl PartialEq for Text {
    ghost use Rattle.std.specs.Str.{bytes_eq};
    ghost use Rattle.std.specs.Cmp.Lexicographic.{nat_list_eq_equiv};
    ghost use Rattle.std.specs.Cmp as Cmp;

    ghost eq = { bytes_eq };

    ghost laws = { Cmp.partial_equiv_from_equiv nat_list_eq_equiv };

    fn eq(&self, other: &Text) -> bool {
        let (text, others) = (self.as_str(), other.as_str());
        if self.shared.front != other.shared.front || text.len() != others.len() {
            return false;
        }
        text.len() <= 8 || text == others
    }
}

impl Eq for Text {
    ghost use Rattle.std.specs.Cmp.Lexicographic.{nat_list_eq_equiv};

    ghost laws = { nat_list_eq_equiv };
}

impl Hash for Text {
    ghost use Rattle.std.specs.Hash as fed;
    ghost use Rattle.std.proofs.Common.{ap};
    ghost use Rattle.std.specs.Cmp.Lexicographic.{bytes_decides};

    ghost hash_input = { λ s. fed.str s };

    ghost respects_eq = { λ x y h. ap fed.str ((bytes_decides x y).0 h) };

    fn hash<H: Hasher>(&self, state: &mut H) {
        self.as_str().hash(state);
    }
}

impl fmt::Debug for Text {
    fn fmt<W: fmt::Write>(&self, f: &mut fmt::Formatter<W>) -> fmt::Result {
        let text = self.as_str();
        write!(f, "{text:?}")
    }
}

impl fmt::Display for Text {
    fn fmt<W: fmt::Write>(&self, f: &mut fmt::Formatter<W>) -> fmt::Result {
        f.write_str(self.as_str())
    }
}
