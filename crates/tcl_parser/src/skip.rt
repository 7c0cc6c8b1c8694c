//! The ends of words, commands and scripts, found with nothing built.
ghost use Rattle.std.specs.Prelude.{◌≡◌, ◌∷◌, ◌+◌, ◌-◌, ◌^◌, ◌<◌, ◌≤◌, length, nat_lt, false, zero};
ghost use Rattle.std.specs.Prelude.{Ok, Err, MatchOption, IfOk, if◌then◌else◌};
ghost use Rattle.tcl_parser.specs.Reading.{after_dollar, braced_variable, run_at, missing};
ghost use Rattle.tcl_parser.specs.Reading.{part_end, level_at, read_part, substituted, read_parts};
ghost use Rattle.tcl_parser.specs.Reading.{in_braces, read_word, read_word_parts, read_command};
ghost use Rattle.tcl_parser.specs.Reading.{after_script, before, word_ends};
ghost use Rattle.tcl_parser.specs.Runs.{after_run};
ghost use Rattle.tcl_parser.specs.Pieces.{Gives, turn_of, rest_of, skimmed};

use crate::fault::Fault;
use crate::scan::{
    BracePiece, Run, before, command_ends, next_in_braces, skip_command_end, skip_gap, skip_name,
    skip_white, split_ascii, split_run, strip_byte, strip_mark, word_ends,
};
use tcl_text::backslash::read_escape;

/// How deep brackets may stand inside one another.
const DEEPEST: usize = 200;

/// A part of a word, as it stands in the text.
#[derive(Clone, Copy)]
pub enum Seen<'a> {
    /// Characters that stand for themselves.
    Literal(&'a str),
    /// The character that a backslash sequence means.
    Character(char),
    /// The name of a variable.
    Variable(&'a str),
    /// The name of an array, whose element's index follows.
    Element(&'a str),
    /// The end of an index.
    EndElement,
    /// A script in brackets.
    Script(&'a str),
}

/// A part of a word, or its end.
#[derive(Clone, Copy)]
pub enum Piece<'a> {
    /// The word has ended; what follows it.
    Over(&'a str),
    /// A part; then how many indexes are open, and what follows.
    Part(Seen<'a>, usize, &'a str),
}

/// What stands for itself where so many indexes are open.
fn run_at(inside: bool, quoted: bool, indexes: usize) -> Run
    ensures { result ≡ run_at inside quoted indexes }
{
    if indexes > 0 {
        Run::Index
    } else if quoted {
        Run::Quotes
    } else {
        Run::Bare(inside)
    }
}

/// The variable whose name begins behind `${`.
fn read_braced_variable(text: &str, indexes: usize) -> Result<Piece<'_>, Fault>
    ensures { Gives turn_of result
        (braced_variable indexes text.now (after_run Run.VariableName text.now)) }
{
    let (name, stop) = split_run(text, Run::VariableName);
    match strip_byte(stop, b'}') {
        Some(rest) => Ok(Piece::Part(Seen::Variable(name), indexes, rest)),
        None => Err(Fault::VariableBrace),
    }
}

/// What begins behind a `$`: a variable, an element's name, or nothing, where the `$` stands for
/// itself.
fn read_variable(text: &str, indexes: usize) -> Result<Piece<'_>, Fault>
    requires { indexes + length text.now < 2 ^ 64 }
    ensures { Gives turn_of result (after_dollar indexes text.now) }
{
    if let Some(rest) = strip_byte(text, b'{') {
        return read_braced_variable(rest, indexes);
    }
    let rest = skip_name(text);
    if let Some(after) = strip_byte(rest, b'(') {
        let name = before(text, rest);
        return Ok(Piece::Part(Seen::Element(name), indexes + 1, after));
    }
    if rest.len() == text.len() {
        return Ok(Piece::Part(Seen::Literal("$"), indexes, text));
    }
    Ok(Piece::Part(Seen::Variable(before(text, rest)), indexes, rest))
}

/// What follows the close brace of a word in braces, from behind its open brace on.
///
/// # Errors
/// The text ends inside the word.
pub fn skip_braces(text: &str) -> Result<&str, Fault>
    ensures { Gives (λ rest. rest.now) result (rest_of (in_braces false zero text.now)) }
{
    let mut rest = text;
    let mut depth = 0;
    'braces: loop {
        match next_in_braces(rest, depth)? {
            BracePiece::Close(after) => return Ok(after),
            BracePiece::Characters(_, deeper, after) => {
                depth = deeper;
                rest = after;
            }
            BracePiece::Line(after) => rest = after,
        }
    }
}

/// What follows a word in braces or quotes, which may be white space, a command's end or the text's
/// end.
///
/// # Errors
/// The fault, where something else follows.
pub fn closed(rest: &str, inside: bool, fault: Fault) -> Result<&str, Fault>
    ensures { Gives (λ after. after.now) result
        (if word_ends inside rest.now then Ok rest.now else Err fault) }
{
    if word_ends(inside, rest) {
        Ok(rest)
    } else {
        Err(fault)
    }
}

/// What the text lacks where it ends in an index or in quotes.
fn missing(indexes: usize) -> Fault
    ensures { result ≡ missing indexes }
{
    if indexes == 0 {
        Fault::CloseQuote
    } else {
        Fault::CloseParenthesis
    }
}

/// The end of that in which a part would stand: of an index, of a word in quotes or of a word by
/// itself. None where a part comes.
fn part_end(text: &str, inside: bool, quoted: bool, indexes: usize) -> Option<Piece<'_>>
    ensures { MatchOption result (part_end inside quoted (indexes, text.now) ≡ None)
        (λ piece. part_end inside quoted (indexes, text.now) ≡ Some (turn_of piece)) }
{
    if indexes > 0 {
        let rest = strip_byte(text, b')')?;
        return Some(Piece::Part(Seen::EndElement, indexes - 1, rest));
    }
    if quoted {
        let rest = strip_byte(text, b'"')?;
        return Some(Piece::Over(rest));
    }
    if word_ends(inside, text) {
        Some(Piece::Over(text))
    } else {
        None
    }
}

/// A part of a word, where what it stands in doesn't end.
#[cycle(skip)]
fn read_substitution(
    text: &str,
    brackets: usize,
    quoted: bool,
    indexes: usize,
) -> Result<Piece<'_>, Fault>
    requires deep { brackets ≤ 200 }
    requires room { indexes + length text.now < 2 ^ 64 }
    ensures { Gives turn_of result (substituted (level_at brackets) quoted indexes text.now) }
{
    if text.is_empty() {
        return Err(missing(indexes));
    }
    match split_ascii(text) {
        Some((b'$', rest)) => read_variable(rest, indexes),
        Some((b'[', rest)) => {
            let (script, after) = skip_script(rest, brackets)?;
            Ok(Piece::Part(Seen::Script(script), indexes, after))
        }
        Some((b'\\', rest)) => {
            let (character, after) = read_escape(rest);
            Ok(Piece::Part(Seen::Character(character), indexes, after))
        }
        _ => {
            let (run, after) = split_run(text, run_at(brackets > 0, quoted, indexes));
            Ok(Piece::Part(Seen::Literal(run), indexes, after))
        }
    }
}

/// A part of a word, which stands in quotes or doesn't, or the end of an index or of the word. So
/// many brackets stand open, and so many indexes of the word.
///
/// # Errors
/// The first fault that the text has there.
#[cycle(skip)]
pub fn next_part(
    text: &str,
    brackets: usize,
    quoted: bool,
    indexes: usize,
) -> Result<Piece<'_>, Fault>
    requires deep { brackets ≤ 200 }
    requires room { indexes + length text.now < 2 ^ 64 }
    ensures { Gives turn_of result (read_part (level_at brackets) quoted (indexes, text.now)) }
{
    match part_end(text, brackets > 0, quoted, indexes) {
        Some(piece) => Ok(piece),
        None => read_substitution(text, brackets, quoted, indexes),
    }
}

/// What follows the parts of a word.
#[cycle(skip)]
fn skip_parts(text: &str, brackets: usize, quoted: bool) -> Result<&str, Fault>
    requires { brackets ≤ 200 }
    ensures { Gives (λ rest. rest.now) result
        (read_parts (level_at brackets) quoted (zero, text.now)).ended }
{
    let mut rest = text;
    let mut indexes = 0;
    'parts: loop {
        match next_part(rest, brackets, quoted, indexes)? {
            Piece::Over(after) => return Ok(after),
            Piece::Part(_, deeper, after) => {
                indexes = deeper;
                rest = after;
            }
        }
    }
}

/// What follows a word, behind its mark `{*}`.
#[cycle(skip)]
fn skip_word_parts(text: &str, brackets: usize) -> Result<&str, Fault>
    requires { brackets ≤ 200 }
    ensures { Gives (λ rest. rest.now) result
        (rest_of (read_word_parts (level_at brackets) text.now)) }
{
    if let Some(rest) = strip_byte(text, b'"') {
        let after = skip_parts(rest, brackets, true)?;
        return closed(after, brackets > 0, Fault::AfterQuote);
    }
    if let Some(rest) = strip_byte(text, b'{') {
        let after = skip_braces(rest)?;
        return closed(after, brackets > 0, Fault::AfterBrace);
    }
    skip_parts(text, brackets, false)
}

/// What follows a word.
#[cycle(skip)]
fn skip_word(text: &str, brackets: usize) -> Result<&str, Fault>
    requires { brackets ≤ 200 }
    ensures { Gives (λ rest. rest.now) result (rest_of (read_word (level_at brackets) text.now)) }
{
    match strip_mark(brackets > 0, text) {
        Some(rest) => skip_word_parts(rest, brackets),
        None => skip_word_parts(text, brackets),
    }
}

/// Whether a command comes, and what follows it.
#[cycle(skip)]
fn skip_command(text: &str, brackets: usize) -> Result<(bool, &str), Fault>
    requires { brackets ≤ 200 }
    ensures { Gives (λ x. (x.0, x.1.now)) result
        (skimmed (read_command (level_at brackets) text.now)) }
{
    let mut rest = skip_gap(text);
    let mut some = false;
    'words: loop {
        let start = skip_white(rest);
        if command_ends(brackets > 0, start) {
            return Ok((some, skip_command_end(start)));
        }
        rest = skip_word(start, brackets)?;
        some = true;
    }
}

/// The script that stands behind a `[`, and what follows its close bracket. So many brackets stand
/// open outside it.
#[cycle(skip)]
fn skip_script(text: &str, brackets: usize) -> Result<(&str, &str), Fault>
    requires { brackets ≤ 200 }
    ensures ends { Gives (λ x. 93 ∷ x.1.now) result (after_script (200 - brackets) text.now) }
    ensures script { IfOk result (λ x. x.0.now ≡ before text.now (93 ∷ x.1.now)) }
{
    if brackets == DEEPEST {
        return Err(Fault::TooDeep);
    }
    let mut rest = text;
    'commands: loop {
        let (some, after) = skip_command(rest, brackets + 1)?;
        if !some {
            return match strip_byte(after, b']') {
                Some(behind) => Ok((before(text, after), behind)),
                None => Err(Fault::CloseBracket),
            };
        }
        rest = after;
    }
}
