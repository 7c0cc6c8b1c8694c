//! Reading scripts.
ghost use Rattle.std.specs.Prelude.{◌≡◌, ◌∷◌, [], ◌++◌, false, zero, Ok, Err, OnOk, IfOk};
ghost use Rattle.std.specs.String.{string_bytes};
ghost use Rattle.tcl_parser.specs.Building.{Yields, Adds};
ghost use Rattle.tcl_parser.specs.Pieces.{part_of};
ghost use Rattle.tcl_parser.specs.Reading.{with_literal, joined_parts, read_parts, in_braces};
ghost use Rattle.tcl_parser.specs.Reading.{read_word_parts, read_word, read_command, read_script};
ghost use Rattle.tcl_parser.specs.Reading.{level_at};
ghost use Rattle.tcl_parser.specs.Faults.{is_complete_with};
ghost use Rattle.tcl_parser.specs.Grammar.{ReadsAll};

use crate::fault::Fault;
use crate::scan::{
    BracePiece, command_ends, next_in_braces, skip_command_end, skip_gap, skip_white, strip_byte,
    strip_mark,
};
use crate::script::{Command, Part, Script, Word};
use crate::skip::{Piece, Seen, closed, next_part};
use std::alloc::{AllocError, AllocFailed, Global};
use std::mem;
use tcl_text::messages::OUT_OF_MEMORY;
use tcl_text::text::Text;
use thiserror::Error;

/// Why reading stops.
#[derive(Debug, Drop, Error)]
pub enum ReadError {
    /// Want of memory.
    #[error("{}", OUT_OF_MEMORY)]
    Memory,
    /// The text can't be read on.
    #[error(transparent)]
    Fault(Fault),
}

impl From<AllocError> for ReadError {
    ghost use Rattle.std.specs.Prelude.{◌≡◌};
    ghost use Rattle.tcl_parser.specs.declared.reader.ReadError.TheVariants.{Memory};

    ghost from_gives = { λ _ e. e ≡ Memory };

    fn from(_error: AllocError) -> ReadError {
        ReadError::Memory
    }
}

impl<T: Drop> From<AllocFailed<T>> for ReadError {
    ghost use Rattle.std.specs.Prelude.{◌≡◌};
    ghost use Rattle.tcl_parser.specs.declared.reader.ReadError.TheVariants.{Memory};

    ghost from_gives = { λ _ e. e ≡ Memory };

    fn from(_error: AllocFailed<T>) -> ReadError {
        ReadError::Memory
    }
}

impl From<Fault> for ReadError {
    ghost use Rattle.std.specs.Prelude.{◌≡◌};
    ghost use Rattle.tcl_parser.specs.declared.reader.ReadError.TheVariants as stops;

    ghost from_gives = { λ fault e. e ≡ stops.Fault fault };

    fn from(fault: Fault) -> ReadError {
        ReadError::Fault(fault)
    }
}

/// Adds a literal to parts, unless it is empty.
fn push_literal(alloc: Global, parts: &mut Vec<Part>, literal: String) -> Result<(), AllocError>
    ensures { OnOk result
        (parts.new.items ≡ parts.old.items ++ with_literal (string_bytes literal) []) }
{
    if literal.is_empty() {
        return Ok(());
    }
    let text = Text::from_string(alloc, literal)?;
    parts.push(Part::Literal(text))?;
    Ok(())
}

/// Adds a part that is no literal behind a literal, which is then begun anew.
fn push_part(
    alloc: Global,
    parts: &mut Vec<Part>,
    literal: &mut String,
    part: Part,
) -> Result<(), AllocError>
    ensures parts { OnOk result (parts.new.items
        ≡ (parts.old.items ++ with_literal (string_bytes literal.old) []) ++ part ∷ []) }
    ensures literal { OnOk result (string_bytes literal.new ≡ []) }
{
    push_literal(alloc, parts, mem::replace(literal, String::new(alloc)))?;
    parts.push(part)?;
    Ok(())
}

/// Adds a part to parts whose last one is a literal that may still grow.
fn add(
    alloc: Global,
    parts: &mut Vec<Part>,
    literal: &mut String,
    seen: Seen<'_>,
) -> Result<(), AllocError>
    ensures { OnOk result
        (Adds parts.old.items (string_bytes literal.old) (part_of seen.entry) parts.new.items
        (string_bytes literal.new)) }
{
    match seen {
        Seen::Literal(text) => literal.push_str(text),
        Seen::Character(character) => literal.push(character),
        Seen::Variable(name) => {
            let name = Text::new(alloc, name)?;
            push_part(alloc, parts, literal, Part::Variable(name))
        }
        Seen::Element(name) => {
            let name = Text::new(alloc, name)?;
            push_part(alloc, parts, literal, Part::Element(name))
        }
        Seen::EndElement => push_part(alloc, parts, literal, Part::EndElement),
        Seen::Script(text) => {
            let text = Text::new(alloc, text)?;
            push_part(alloc, parts, literal, Part::Script(text))
        }
    }
}

/// The parts of a word, in quotes or by itself, and what follows them.
///
/// # Errors
/// The first fault of the text, or want of memory.
pub fn read_parts(alloc: Global, text: &str, quoted: bool) -> Result<(Vec<Part>, &str), ReadError>
    ensures { Yields (λ x. (x.0.items, x.1.now)) result
        (joined_parts (read_parts (level_at 0) quoted (zero, text.now))) }
{
    let mut parts = Vec::new(alloc);
    let mut literal = String::new(alloc);
    let mut rest = text;
    let mut indexes = 0;
    'parts: loop {
        match next_part(rest, 0, quoted, indexes)? {
            Piece::Over(after) => {
                push_literal(alloc, &mut parts, literal)?;
                return Ok((parts, after));
            }
            Piece::Part(seen, deeper, after) => {
                add(alloc, &mut parts, &mut literal, seen)?;
                indexes = deeper;
                rest = after;
            }
        }
    }
}

/// The text of a word in braces, from behind its open brace on, and what follows it.
fn read_braces(alloc: Global, text: &str) -> Result<(String, &str), ReadError>
    ensures { Yields (λ x. (string_bytes x.0, x.1.now)) result (in_braces false zero text.now) }
{
    let mut word = String::new(alloc);
    let mut rest = text;
    let mut depth = 0;
    'braces: loop {
        match next_in_braces(rest, depth)? {
            BracePiece::Close(after) => return Ok((word, after)),
            BracePiece::Characters(characters, deeper, after) => {
                word.push_str(characters)?;
                depth = deeper;
                rest = after;
            }
            BracePiece::Line(after) => {
                word.push_str(" ")?;
                rest = after;
            }
        }
    }
}

/// The parts of a word, behind its mark `{*}`, and what follows it.
fn read_word_parts(alloc: Global, text: &str) -> Result<(Vec<Part>, &str), ReadError>
    ensures { Yields (λ x. (x.0.items, x.1.now)) result (read_word_parts (level_at 0) text.now) }
{
    if let Some(rest) = strip_byte(text, b'"') {
        let (parts, after) = read_parts(alloc, rest, true)?;
        return Ok((parts, closed(after, false, Fault::AfterQuote)?));
    }
    if let Some(rest) = strip_byte(text, b'{') {
        let (word, after) = read_braces(alloc, rest)?;
        let after = closed(after, false, Fault::AfterBrace)?;
        let mut parts = Vec::new(alloc);
        push_literal(alloc, &mut parts, word)?;
        return Ok((parts, after));
    }
    read_parts(alloc, text, false)
}

/// A word and what follows it.
fn read_word(alloc: Global, text: &str) -> Result<(Word, &str), ReadError>
    ensures { Yields (λ x. (x.0, x.1.now)) result (read_word (level_at 0) text.now) }
{
    let (expand, text) = match strip_mark(false, text) {
        Some(rest) => (true, rest),
        None => (false, text),
    };
    let (parts, rest) = read_word_parts(alloc, text)?;
    Ok((Word { parts, expand }, rest))
}

/// The words of a command, and what follows it. There are none only where the script ends.
fn read_command(alloc: Global, text: &str) -> Result<(Vec<Word>, &str), ReadError>
    ensures { Yields (λ x. (x.0.items, x.1.now)) result (read_command (level_at 0) text.now) }
{
    let mut words = Vec::new(alloc);
    let mut rest = skip_gap(text);
    'words: loop {
        let start = skip_white(rest);
        if command_ends(false, start) {
            return Ok((words, skip_command_end(start)));
        }
        let (word, after) = read_word(alloc, start)?;
        words.push(word)?;
        rest = after;
    }
}

/// Reads a script: its commands in order, up to its end or to its first fault, as `Tcl(n)` has it,
/// rules 1 to 11. A command is read with the scripts in its brackets, which stay texts.
///
/// # Errors
/// Want of memory alone: a fault of the text is part of the script.
pub fn parse(alloc: Global, text: &str) -> Result<Script, AllocError>
    ensures function { IfOk result (λ script. script ≡ read_script text.now) }
    ensures grammar { IfOk result (λ script. ReadsAll text.now script.commands script.fault) }
{
    let mut commands = Vec::new(alloc);
    let mut rest = text;
    'commands: loop {
        match read_command(alloc, rest) {
            Ok((words, after)) => {
                if words.is_empty() {
                    return Ok(Script {
                        commands,
                        fault: None,
                    });
                }
                commands.push(Command { words })?;
                rest = after;
            }
            Err(stop) => {
                return match stop {
                    ReadError::Memory => Err(AllocError),
                    ReadError::Fault(fault) => Ok(Script {
                        commands,
                        fault: Some(fault),
                    }),
                };
            }
        }
    }
}

/// Whether a text is a complete script: nothing stands open at its end, neither braces, quotes,
/// brackets nor an index. A script with another fault is complete.
///
/// # Errors
/// Want of memory.
pub fn is_complete(alloc: Global, text: &str) -> Result<bool, AllocError>
    ensures { IfOk result (λ complete. complete ≡ is_complete_with (read_script text.now).fault) }
{
    let script = parse(alloc, text)?;
    Ok(match script.fault {
        None => true,
        Some(fault) => !fault.is_open(),
    })
}
