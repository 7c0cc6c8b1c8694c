//! Scripts as they are read: commands of words, and words of parts.
use crate::fault::Fault;
use std::marker::Model;
use tcl_text::text::Text;

/// A part of a word.
///
/// The parts of a word are kept flat: an `Element` opens an index, whose parts follow up to its
/// `EndElement`. So no value here holds another of its type, however deep indexes stand inside one
/// another.
#[derive(Debug, Drop)]
pub enum Part {
    /// A text that stands for itself, with its backslash sequences replaced. It isn't empty, and no
    /// literal follows another.
    Literal(Text),
    /// The value of the variable of this name.
    Variable(Text),
    /// The value of an element of the array of this name, which may be empty. Its index is made of
    /// the parts up to the `EndElement` that belongs to it.
    Element(Text),
    /// The end of an index.
    EndElement,
    /// The result of the script of this text.
    Script(Text),
}

/// A word of a command.
#[derive(Debug, Drop)]
pub struct Word {
    /// What it is made of, in order. An empty word has no parts.
    pub parts: Vec<Part>,
    /// Whether `{*}` stands before it: its value is a list, whose elements are words.
    pub expand: bool,
}

impl Model for Word {
    ghost use Rattle.tcl_parser.specs.Words.{WordRead};

    ghost Value = { WordRead };

    ghost view = { λ word. record { parts = word.parts.items; expand = word.expand } };
}

/// A command: one word or more.
#[derive(Debug, Drop)]
pub struct Command {
    /// Its words in order.
    pub words: Vec<Word>,
}

impl Model for Command {
    ghost use Rattle.std.specs.Prelude.{List};
    ghost use Rattle.tcl_parser.specs.Words.{WordRead};

    ghost Value = { List WordRead };

    ghost view = { λ command. command.words.items };
}

/// A script: its commands, and the fault that comes after them.
#[derive(Debug, Drop)]
pub struct Script {
    /// The commands that can be read, in order.
    pub commands: Vec<Command>,
    /// Why the text can't be read on after them, if it can't.
    pub fault: Option<Fault>,
}

impl Model for Script {
    ghost use Rattle.tcl_parser.specs.Words.{Reading};

    ghost Value = { Reading };

    ghost view = { λ script. record { commands = script.commands.items; fault = script.fault } };
}
