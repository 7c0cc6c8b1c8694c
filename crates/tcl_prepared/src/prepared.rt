//! Scripts that are ready to be evaluated.
ghost use Rattle.std.specs.Prelude.{◌≡◌, map, IfOk};
ghost use Rattle.tcl_parser.specs.Reading.{read_script};
ghost use Rattle.tcl_value.specs.Limits.{IsWithin};
ghost use Rattle.tcl_value.specs.Texts.{AllWithin};
ghost use Rattle.tcl_prepared.specs.Views.{seen_command};
ghost use Rattle.tcl_prepared.specs.Brackets.{IsBracket};

use crate::kinds::{BracketKind, kind_of};
use crate::pieces::commands_pieces;
use std::alloc::{AllocError, Global};
use std::marker::Model;
use tcl_frames::variable_name::VariableName;
use tcl_parser::fault::Fault;
use tcl_text::text::Text;
use tcl_value::value::Value;

/// The words of a command each of which stands for itself. Contracts see them as their texts.
pub struct Literals {
    values: Vec<Value>,
}

impl Drop for Literals {
    fn drop(self) {
        let Literals { values: _values } = self;
    }
}

impl Model for Literals {
    ghost use Rattle.std.specs.Prelude.{List, ℕ};

    ghost Value = { List (List ℕ) };

    ghost view = { λ a. a.values.items };

    ghost use Rattle.tcl_value.specs.Texts.{AllWithin};

    ghost invariant = { λ a. AllWithin a.values.items };
}

impl Literals {
    /// The words that have these values.
    pub(crate) fn new(values: Vec<Value>) -> Literals
        requires { AllWithin values.items }
        ensures { result ≡ values.items }
    {
        Literals { values }
    }

    /// The words, as values.
    pub fn words(&self) -> &[Value]
        ensures words { result.now ≡ self.now }
        ensures within { AllWithin self.now }
    {
        self.values.as_slice()
    }
}

/// A word that stands for itself and is to name a variable. Contracts see it as its text.
pub struct NameWord {
    name: VariableName,
}

impl Drop for NameWord {
    fn drop(self) {
        let NameWord { name: _name } = self;
    }
}

impl Model for NameWord {
    ghost use Rattle.std.specs.Prelude.{List, ℕ};

    ghost Value = { List ℕ };

    ghost view = { λ a. a.name };

    ghost use Rattle.tcl_value.specs.Limits.{IsWithin};

    ghost invariant = { λ a. IsWithin a.name };
}

impl NameWord {
    /// The word of this text.
    pub(crate) fn new(text: Text) -> NameWord
        requires { IsWithin text }
        ensures { result ≡ text }
    {
        NameWord {
            name: VariableName::new(text),
        }
    }

    /// The name.
    pub fn name(&self) -> &VariableName
        ensures name { result.now ≡ self.now }
        ensures within { IsWithin self.now }
    {
        &self.name
    }

    /// The text as a value, which shares it.
    ///
    /// # Errors
    /// Want of memory.
    pub fn value(&self) -> Result<Value, AllocError>
        ensures { IfOk result (λ value. value ≡ self.now) }
    {
        Ok(Value::from_short_text(self.name.text().clone()?))
    }
}

/// A part of a word, as of a word that was read.
#[cycle(prepared)]
#[derive(Drop)]
pub enum PreparedPart {
    /// A text that stands for itself.
    Literal(Text),
    /// The value of the variable of this name.
    Variable(VariableName),
    /// The value of an element of the array of this name. Its index is made of the parts up to the
    /// `EndElement` that belongs to it.
    Element(Text),
    /// The end of an index.
    EndElement,
    /// The result of a script in brackets, which was read.
    Bracket(Bracket),
    /// The result of the script of this text, which stands too deep in brackets, or is too long, to
    /// be read before it is evaluated.
    Deep(Text),
}

/// A word of a command.
#[cycle(prepared)]
#[derive(Drop)]
pub enum PreparedWord {
    /// The text that it stands for, as a value.
    Literal(Value),
    /// The same, where that is to name a variable.
    Name(NameWord),
    /// One part.
    Lone(PreparedPart),
    /// The parts that it is made of.
    Parts(Vec<PreparedPart>),
    /// The same with `{*}` before them: the value is a list, whose elements are words.
    Spread(Vec<PreparedPart>),
}

/// A command.
#[cycle(prepared)]
#[derive(Drop)]
pub enum PreparedCommand {
    /// Each word stands for itself. They are lent as they are to whoever calls the command.
    Constant(Literals),
    /// Words that may be at hand: a literal, and one to four that are plain, or of which one is a
    /// script in brackets that may be at hand. A hint: they may be words of any kind.
    AtHand(Vec<PreparedWord>),
    /// Words of any kind.
    General(Vec<PreparedWord>),
}

/// A script that is ready to be evaluated, which contracts see as the script that was read.
///
/// What it takes is bounded by the text. Each command, word and part of the script and of those in
/// its brackets begins at a byte of its own, so a text of n bytes has at most n of each, all levels
/// together. The texts of literals, names and brackets come to at most n bytes at each of 17
/// levels, of which those of literals may have room for twice their bytes.
#[cycle(prepared)]
pub struct Prepared {
    commands: Vec<PreparedCommand>,
    fault: Option<Fault>,
    pieces: usize,
}

/// A script in brackets with what its text was read as. Contracts see it as the text.
#[cycle(prepared)]
pub struct Bracket {
    text: Text,
    script: Box<Prepared>,
    kind: BracketKind,
}

impl Drop for Prepared {
    #[cycle(dropping)]
    fn drop(self) {
        let Prepared {
            commands: _commands,
            fault: _,
            pieces: _,
        } = self;
    }
}

impl Drop for Bracket {
    #[cycle(dropping)]
    fn drop(self) {
        let Bracket {
            text: _text,
            script: _script,
            kind: _,
        } = self;
    }
}

impl Model for Prepared {
    ghost use Rattle.std.specs.Prelude.{map};
    ghost use Rattle.tcl_parser.specs.Words.{Reading};
    ghost use Rattle.tcl_prepared.specs.Views.{seen_command};

    ghost Value = { Reading };

    ghost view = { λ a. record { commands = map seen_command a.commands.items; fault = a.fault } };

    ghost use Rattle.tcl_prepared.specs.Brackets.{weight};

    ghost size = { weight };

    ghost use Rattle.std.proofs.Common.{arith};
    ghost use Rattle.tcl_prepared.specs.Falls.{commands_fall};

    ghost size_decreases = { λ a h. Prim.omega (arith, commands_fall a.commands.items) };
}

impl Model for Bracket {
    ghost use Rattle.std.specs.Prelude.{List, ℕ, length};

    ghost Value = { List ℕ };

    ghost view = { λ a. a.text };

    ghost use Rattle.tcl_prepared.specs.Brackets.{IsBracket};

    ghost invariant = { λ a. IsBracket a.text a.script.value };

    ghost size = { length };

    ghost use Rattle.std.proofs.Common.{arith};

    ghost size_decreases = { λ a h. Prim.omega (arith, h.below) };
}

impl Prepared {
    /// A script of these commands, with the fault that comes after them.
    pub(crate) fn new(
        alloc: Global,
        commands: Vec<PreparedCommand>,
        fault: Option<Fault>,
    ) -> Prepared
        ensures commands { result.commands ≡ map seen_command commands.items }
        ensures fault { result.fault ≡ fault }
    {
        let pieces = commands_pieces(alloc, commands.as_slice());
        Prepared {
            commands,
            fault,
            pieces,
        }
    }

    /// Its commands in order.
    pub fn commands(&self) -> &[PreparedCommand]
        ensures { map seen_command result.now ≡ self.now.commands }
    {
        self.commands.as_slice()
    }

    /// Why the text can't be read on after them, if it can't.
    pub fn fault(&self) -> Option<Fault>
        ensures { result ≡ self.now.fault }
    {
        self.fault
    }

    /// How many pieces it is made of: its commands, words and parts, with those of the scripts in
    /// its brackets, and the lists and dicts that literals keep with what is in them. A piece takes
    /// at most 120 bytes and the bytes of its text.
    pub fn pieces(&self) -> usize {
        self.pieces
    }
}

impl Bracket {
    /// A text with what it was read as. The scripts in its brackets are shorter than it is.
    pub(crate) fn new(text: Text, script: Box<Prepared>) -> Bracket
        requires { IsBracket text script.value }
        ensures { result ≡ text }
    {
        let kind = kind_of(&script);
        Bracket { text, script, kind }
    }

    /// The text between the brackets.
    pub fn text(&self) -> &Text
        ensures { result.now ≡ self.now }
    {
        &self.text
    }

    /// What may be known of its result before it is evaluated. A hint: whoever takes it looks at
    /// the script.
    pub fn kind(&self) -> BracketKind {
        self.kind
    }

    /// What the text was read as.
    pub fn script(&self) -> &Prepared
        ensures { result.now ≡ read_script self.now }
    {
        &self.script
    }
}
