//! Operands of expressions that are substituted.
ghost use Rattle.std.specs.Prelude.{◌≡◌, ◌∷◌, [], IfSome};
ghost use Rattle.tcl_parser.specs.declared.script.Part.TheVariants.{Variable};
ghost use Rattle.tcl_prepared.specs.Views.{seen_word};

use crate::pieces::word_pieces;
use crate::prepared::{PreparedPart, PreparedWord};
use std::marker::Model;
use tcl_frames::variable_name::VariableName;

/// An operand of an expression that is substituted when it is needed, ready for that. Contracts see
/// it as the word that was read.
pub struct Operand {
    word: PreparedWord,
}

impl Drop for Operand {
    fn drop(self) {
        let Operand { word: _word } = self;
    }
}

impl Model for Operand {
    ghost use Rattle.tcl_parser.specs.Words.{WordRead};
    ghost use Rattle.tcl_prepared.specs.Views.{seen_word};

    ghost Value = { WordRead };

    ghost view = { λ a. seen_word a.word };
}

impl Operand {
    /// The operand that a word is.
    pub(crate) fn new(word: PreparedWord) -> Operand
        ensures { result ≡ seen_word word }
    {
        Operand { word }
    }

    /// The word that it is.
    pub fn word(&self) -> &PreparedWord
        ensures { seen_word result.now ≡ self.now }
    {
        &self.word
    }

    /// The name of the variable whose value it is, if it is no more than that.
    pub fn variable(&self) -> Option<&VariableName>
        ensures { IfSome result (λ name. self.now.parts ≡ Variable name.now ∷ []) }
    {
        match &self.word {
            PreparedWord::Lone(PreparedPart::Variable(name)) => Some(name),
            _ => None,
        }
    }

    /// How many pieces it has: itself, its parts, and those of the scripts in its brackets.
    pub fn pieces(&self) -> usize {
        word_pieces(&self.word)
    }
}
