//! Texts with what they were last read as.
ghost use Rattle.std.specs.Prelude.{◌≡◌, Ok, IfSome};
ghost use Rattle.tcl_value.specs.Reading.{list_of};
ghost use Rattle.tcl_value.specs.Dicts.{dict_of};

use crate::dict::Dict;
use crate::list::List;
use std::marker::Model;
use tcl_text::text::Text;

/// What a text reads as.
enum Reading {
    List(List),
    Dict(Dict),
}

impl Drop for Reading {
    fn drop(self) {
        match self {
            Reading::List(_list) => {}
            Reading::Dict(_dict) => {}
        }
    }
}

/// A text with the list or the dict that it reads as, which contracts see as the text.
pub(crate) struct ReadText {
    text: Text,
    reading: Reading,
}

impl Drop for ReadText {
    fn drop(self) {
        let ReadText {
            text: _text,
            reading: _reading,
        } = self;
    }
}

impl Model for ReadText {
    ghost use Rattle.std.specs.Prelude.{List, ℕ};

    ghost Value = { List ℕ };

    ghost use Rattle.tcl_value.specs.ReadTexts.{IsReading};

    ghost view = { λ a. a.text };

    ghost invariant = { λ a. IsReading a.text a.reading };
}

impl ReadText {
    /// A text with the list that it reads as.
    pub(crate) fn of_list(text: Text, list: List) -> ReadText
        requires { list_of text ≡ Ok list }
        ensures { result ≡ text }
    {
        ReadText {
            text,
            reading: Reading::List(list),
        }
    }

    /// A text with the dict that it reads as.
    pub(crate) fn of_dict(text: Text, dict: Dict) -> ReadText
        requires { dict_of text ≡ Ok dict }
        ensures { result ≡ text }
    {
        ReadText {
            text,
            reading: Reading::Dict(dict),
        }
    }

    /// Its text.
    pub(crate) fn text(&self) -> &Text
        ensures { result.now ≡ self.now }
    {
        &self.text
    }

    /// The list that its text was last read as, if it was read as a list.
    pub(crate) fn list(&self) -> Option<&List>
        ensures { IfSome result (λ list. list_of self.now ≡ Ok list.now) }
    {
        match &self.reading {
            Reading::List(list) => Some(list),
            Reading::Dict(_) => None,
        }
    }

    /// The dict that its text was last read as, if it was read as a dict.
    pub(crate) fn dict(&self) -> Option<&Dict>
        ensures { IfSome result (λ dict. dict_of self.now ≡ Ok dict.now) }
    {
        match &self.reading {
            Reading::Dict(dict) => Some(dict),
            Reading::List(_) => None,
        }
    }
}
