//! Names of variables as scripts have them.
ghost use Rattle.std.specs.Prelude.{◌≡◌};
ghost use Rattle.tcl_frames.specs.Names.{is_simple};

use crate::name::is_simple;
use std::marker::Model;
use tcl_text::text::Text;

/// The name of a variable in a script, which contracts see as its text. Its kind is decided when it
/// is made.
///
/// Its text keeps at which place of a frame it was found last. That is a hint: whoever takes it
/// looks whether the name stands there. So contracts say nothing of it, and it may be any.
pub struct VariableName {
    text: Text,
    simple: bool,
}

impl Drop for VariableName {
    fn drop(self) {
        let VariableName {
            text: _text,
            simple: _,
        } = self;
    }
}

impl Model for VariableName {
    ghost use Rattle.std.specs.Prelude.{List, ℕ, ◌≡◌};
    ghost use Rattle.tcl_frames.specs.Names.{is_simple};

    ghost Value = { List ℕ };

    ghost view = { λ a. a.text };

    ghost invariant = { λ a. a.simple ≡ is_simple a.text };
}

impl VariableName {
    /// A name of this text. This takes no memory.
    pub fn new(text: Text) -> VariableName
        ensures { result ≡ text }
    {
        let simple = is_simple(text.as_str());
        VariableName { text, simple }
    }

    /// Its text.
    pub fn text(&self) -> &Text
        ensures { result.now ≡ self.now }
    {
        &self.text
    }

    /// Its text, as a slice.
    pub fn as_str(&self) -> &str
        ensures { result.now ≡ self.now }
    {
        self.text.as_str()
    }

    /// Whether it holds neither a colon nor a close parenthesis: it names a variable of the current
    /// frame, and no element.
    pub fn is_simple(&self) -> bool
        ensures { result ≡ is_simple self.now }
    {
        self.simple
    }

    /// The place at which it may stand.
    pub(crate) fn hint(&self) -> usize {
        self.text.hint()
    }

    /// Keeps the place at which it stands.
    pub(crate) fn set_hint(&self, place: usize) {
        self.text.set_hint(place);
    }
}
