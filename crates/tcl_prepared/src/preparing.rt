//! The preparation of scripts that were read.
ghost use Rattle.std.specs.Prelude.{◌≡◌, ◌≤◌, ◌∷◌, [], false, map, IfOk, IfSome, IsTrue};
ghost use Rattle.std.specs.Fmt.{signed_decimal};
ghost use Rattle.tcl_parser.specs.Reading.{read_script};
ghost use Rattle.tcl_parser.specs.declared.script.Part.TheVariants.{Literal, Script as InScript};
ghost use Rattle.tcl_value.specs.Limits.{IsWithin};
ghost use Rattle.tcl_value.specs.Texts.{AllWithin};
ghost use Rattle.tcl_prepared.specs.Views.{seen_part, seen_word, seen_command};
ghost use Rattle.tcl_prepared.specs.Views.{literal_parts, literal_word};
ghost use Rattle.tcl_prepared.specs.Brackets.{part_weight, parts_weight, words_weight};
ghost use Rattle.tcl_prepared.specs.Brackets.{commands_weight};

use crate::kinds::{change_one_variable, may_be_at_hand, want_name};
use crate::lists::{keep_in_values, keep_in_words};
use crate::operand::Operand;
use crate::prepared::{
    Bracket, Literals, NameWord, Prepared, PreparedCommand, PreparedPart, PreparedWord,
};
use std::alloc::{AllocError, Global};
use tcl_frames::variable_name::VariableName;
use tcl_parser::reader::parse;
use tcl_parser::script::{Command, Part, Script, Word};
use tcl_text::integer::{Integers, read_int};
use tcl_text::list_comparing::is_int;
use tcl_text::text::Text;
use tcl_value::value::Value;

/// How deep scripts in brackets are read with the script that they stand in.
pub const MOST_LEVELS: u32 = 16;

/// The most bytes of a script in brackets that is.
pub const LONGEST: usize = 1 << 16;

/// Whether a part is at most so heavy.
fn is_part_light(part: &Part, most: usize) -> bool
    ensures { IsTrue result → part_weight part.now ≤ most }
{
    match part {
        Part::Script(text) => text.len() < most,
        Part::Literal(_) | Part::Variable(_) | Part::Element(_) | Part::EndElement => true,
    }
}

/// Whether these parts are.
fn are_parts_light(parts: &[Part], most: usize) -> bool
    ensures { IsTrue result → parts_weight parts.now ≤ most }
{
    'parts: for part in parts {
        if !is_part_light(part, most) {
            return false;
        }
    }
    true
}

/// Whether these words are.
fn are_words_light(words: &[Word], most: usize) -> bool
    ensures { IsTrue result → words_weight words.now ≤ most }
{
    'words: for word in words {
        if !are_parts_light(word.parts.as_slice(), most) {
            return false;
        }
    }
    true
}

/// Whether these commands are.
fn are_commands_light(commands: &[Command], most: usize) -> bool
    ensures { IsTrue result → commands_weight commands.now ≤ most }
{
    'commands: for command in commands {
        if !are_words_light(command.words.as_slice(), most) {
            return false;
        }
    }
    true
}

/// The number that a text writes in decimal, as numbers are written.
fn number_of(text: &str) -> Option<i64>
    ensures { IfSome result (λ n. text.now ≡ signed_decimal n) }
{
    let number = read_int(text, Integers::Tcl9).ok()?;
    if is_int(text.as_bytes(), number) {
        return Some(number);
    }
    None
}

/// The value of a literal, unless it is longer than a value may be: the number alone, where the
/// text is as that is written, so that it is read but once.
fn literal_text(text: &Text) -> Result<Option<Value>, AllocError>
    ensures text { IfOk result (λ found. IfSome found (λ value. value ≡ text.now)) }
{
    if let Some(number) = number_of(text.as_str()) {
        return Ok(Some(Value::from_int(number)));
    }
    match Value::from_text(text.clone()?) {
        Ok(value) => Ok(Some(value)),
        Err(_) => Ok(None),
    }
}

/// The value of a literal, unless it is longer than a value may be, or empty.
fn text_value(text: &Text) -> Result<Option<Value>, AllocError>
    ensures parts { IfOk result
        (λ found. IfSome found (λ value. literal_parts value ≡ Literal text.now ∷ [])) }
    ensures within { IfOk result (λ found. IfSome found IsWithin) }
{
    if text.is_empty() {
        return Ok(None);
    }
    match literal_text(text)? {
        Some(value) => {
            let _within = value.text_len();
            Ok(Some(value))
        }
        None => Ok(None),
    }
}

/// The value that parts are, if they are no more than a literal.
fn literal(parts: &[Part]) -> Result<Option<Value>, AllocError>
    ensures parts { IfOk result (λ found. IfSome found (λ value. literal_parts value ≡ parts.now)) }
    ensures within { IfOk result (λ found. IfSome found IsWithin) }
{
    match parts {
        [] => Ok(Some(Value::empty())),
        [Part::Literal(text)] => text_value(text),
        _ => Ok(None),
    }
}

/// The value that a word is, if it stands for itself.
fn literal_value(word: &Word) -> Result<Option<Value>, AllocError>
    ensures word { IfOk result (λ found. IfSome found (λ value. literal_word value ≡ word.now)) }
    ensures within { IfOk result (λ found. IfSome found IsWithin) }
{
    if word.expand {
        return Ok(None);
    }
    literal(word.parts.as_slice())
}

/// The values that words are, if each stands for itself.
fn literal_values(alloc: Global, words: &[Word]) -> Result<Option<Literals>, AllocError>
    ensures { IfOk result (λ found. IfSome found (λ texts. map literal_word texts ≡ words.now)) }
{
    let mut values = Vec::with_capacity(alloc, words.len())?;
    'words: for word in words {
        match literal_value(word)? {
            Some(value) => values.push(value)?,
            None => return Ok(None),
        }
    }
    keep_in_values(alloc, &mut values);
    Ok(Some(Literals::new(values)))
}

/// The script that a text is, prepared, with the scripts in its brackets down to [`MOST_LEVELS`].
/// Where the text has more than [`LONGEST`] bytes they stay texts.
///
/// # Errors
/// Want of memory.
pub fn prepare(alloc: Global, text: &str) -> Result<Prepared, AllocError>
    ensures { IfOk result (λ prepared. prepared ≡ read_script text.now) }
{
    let script = parse(alloc, text)?;
    prepare_to(alloc, &script, levels_for(text.len()))
}

/// How deep scripts in brackets are read with a text of so many bytes.
fn levels_for(len: usize) -> u32 {
    if len > LONGEST { 0 } else { MOST_LEVELS }
}

/// Prepares a word that is an operand of an expression, with the scripts in its brackets down to
/// [`MOST_LEVELS`]. They stay texts where more than [`LONGEST`] bytes of the expression stand from
/// the word on.
///
/// # Errors
/// Want of memory.
pub fn prepare_operand(alloc: Global, word: &Word, len: usize) -> Result<Operand, AllocError>
    ensures { IfOk result (λ operand. operand ≡ word.now) }
{
    Ok(Operand::new(prepare_word(alloc, word, levels_for(len))?))
}

/// Prepares a script that was read, with the scripts in its brackets down to so many levels. Where
/// that is none, the time that it takes is that of a pass over what was read.
#[cycle(preparing)]
fn prepare_to(alloc: Global, script: &Script, levels: u32) -> Result<Prepared, AllocError>
    ensures { IfOk result (λ prepared. prepared ≡ script.now) }
{
    let mut commands = Vec::with_capacity(alloc, script.commands.len())?;
    'commands: for command in &script.commands {
        commands.push(prepare_command(alloc, command, levels)?)?;
    }
    Ok(Prepared::new(alloc, commands, script.fault))
}

/// Prepares a command.
#[cycle(preparing)]
fn prepare_command(
    alloc: Global,
    command: &Command,
    levels: u32,
) -> Result<PreparedCommand, AllocError>
    ensures { IfOk result (λ prepared. seen_command prepared ≡ command.now) }
{
    if let Some(literals) = literal_values(alloc, command.words.as_slice())? {
        if !change_one_variable(literals.words()) {
            return Ok(PreparedCommand::Constant(literals));
        }
    }
    let mut words = prepare_words(alloc, command.words.as_slice(), levels)?;
    keep_in_words(alloc, &mut words);
    Ok(command_of(words))
}

/// A word as the name of a variable, where one is wanted and it is a literal.
fn named(is_name: bool, word: PreparedWord) -> Result<PreparedWord, AllocError>
    ensures { IfOk result (λ named. seen_word named ≡ seen_word word) }
{
    if is_name { as_name(word) } else { Ok(word) }
}

/// A literal as the name of a variable. Another word, and a number, stays as it is.
fn as_name(word: PreparedWord) -> Result<PreparedWord, AllocError>
    ensures { IfOk result (λ named. seen_word named ≡ seen_word word) }
{
    if let PreparedWord::Literal(value) = &word {
        if let Some(text) = value.as_text() {
            value.keeps_limit();
            return Ok(PreparedWord::Name(NameWord::new(text.clone()?)));
        }
    }
    Ok(word)
}

/// A command of these words.
fn command_of(words: Vec<PreparedWord>) -> PreparedCommand
    ensures { seen_command result ≡ map seen_word words.items }
{
    if may_be_at_hand(words.as_slice()) {
        PreparedCommand::AtHand(words)
    } else {
        PreparedCommand::General(words)
    }
}

/// Prepares words.
#[cycle(preparing)]
fn prepare_words(
    alloc: Global,
    words: &[Word],
    levels: u32,
) -> Result<Vec<PreparedWord>, AllocError>
    ensures { IfOk result (λ prepared. map seen_word prepared.items ≡ words.now) }
{
    let mut prepared = Vec::with_capacity(alloc, words.len())?;
    'words: for word in words {
        let is_name = want_name(prepared.as_slice());
        let made = prepare_word(alloc, word, levels)?;
        prepared.push(named(is_name, made)?)?;
    }
    Ok(prepared)
}

/// Prepares a word.
#[cycle(preparing)]
fn prepare_word(alloc: Global, word: &Word, levels: u32) -> Result<PreparedWord, AllocError>
    ensures { IfOk result (λ prepared. seen_word prepared ≡ word.now) }
{
    if word.expand {
        return Ok(PreparedWord::Spread(prepare_parts(alloc, word.parts.as_slice(), levels)?));
    }
    match literal_value(word)? {
        Some(value) => Ok(PreparedWord::Literal(value)),
        None => prepare_compound(alloc, word, levels),
    }
}

/// Prepares a word that isn't spread, by its parts.
#[cycle(preparing)]
fn prepare_compound(alloc: Global, word: &Word, levels: u32) -> Result<PreparedWord, AllocError>
    requires { word.now.expand ≡ false }
    ensures { IfOk result (λ prepared. seen_word prepared ≡ word.now) }
{
    match word.parts.as_slice() {
        [part] => Ok(PreparedWord::Lone(prepare_part(alloc, part, levels)?)),
        parts => Ok(PreparedWord::Parts(prepare_parts(alloc, parts, levels)?)),
    }
}

/// Prepares parts, with the scripts in brackets among them down to so many levels.
#[cycle(preparing)]
fn prepare_parts(
    alloc: Global,
    parts: &[Part],
    levels: u32,
) -> Result<Vec<PreparedPart>, AllocError>
    ensures { IfOk result (λ prepared. map seen_part prepared.items ≡ parts.now) }
{
    let mut prepared = Vec::with_capacity(alloc, parts.len())?;
    'parts: for part in parts {
        prepared.push(prepare_part(alloc, part, levels)?)?;
    }
    Ok(prepared)
}

/// Prepares a part.
#[cycle(preparing)]
fn prepare_part(alloc: Global, part: &Part, levels: u32) -> Result<PreparedPart, AllocError>
    ensures { IfOk result (λ prepared. seen_part prepared ≡ part.now) }
{
    match part {
        Part::Literal(text) => Ok(PreparedPart::Literal(text.clone()?)),
        Part::Variable(name) => Ok(PreparedPart::Variable(VariableName::new(name.clone()?))),
        Part::Element(name) => Ok(PreparedPart::Element(name.clone()?)),
        Part::EndElement => Ok(PreparedPart::EndElement),
        Part::Script(text) => prepare_bracket(alloc, text, levels),
    }
}

/// Prepares a script in brackets. It stays a text below the last level, and where it is too long,
/// or empty.
#[cycle(preparing)]
fn prepare_bracket(alloc: Global, text: &Text, levels: u32) -> Result<PreparedPart, AllocError>
    ensures { IfOk result (λ prepared. seen_part prepared ≡ InScript text.now) }
{
    let len = text.len();
    if levels == 0 || len == 0 || len > LONGEST {
        return Ok(PreparedPart::Deep(text.clone()?));
    }
    let inner = parse(alloc, text.as_str())?;
    // Each bracket in it is shorter by two, so this holds of all that is read.
    if !are_commands_light(inner.commands.as_slice(), len - 1) {
        return Ok(PreparedPart::Deep(text.clone()?));
    }
    let script = Box::new(alloc, prepare_to(alloc, &inner, levels - 1)?)?;
    Ok(PreparedPart::Bracket(Bracket::new(text.clone()?, script)))
}
