//! Records and replays as lines of text, for people and logs.
//!
//! A line is a list. Its first word is `in`, `done`, `out` or `back`, and the second the path of
//! the interpreter where that is seen, from the watched one downward. What follows depends on it:
//!
//! - `in` (an entry comes in): what is asked.
//! - `done` (an entry is done): how it ended.
//! - `out` (a call goes out): the levels that it leads up, or `host`; the names down from there;
//!   and what is asked.
//! - `back` (an answer comes back): the levels, or `host`; and how the call ended, or what the host
//!   says.
//!
//! What is asked is `eval` and a script, `call` and words, `invokehidden` and words, or the name
//! of another command and its words. How it ended is `code`, a number and a text; `stop`, the
//! levels up to the interpreter that it names, and whose limit it is, `commands` or
//! `recursionlimit`, or `deleted`; `exit` and a status; or `ended`, by the outside. What the host
//! says is a word, and what belongs to it: of bytes that it read how many they are. Where nobody is
//! there who could answer the call, `nobody` stands there. In place of each newline stand a
//! backslash and an `n`.
ghost use Rattle.std.specs.Prelude.{◌≡◌, ◌++◌, ◌∷◌, IfOk, OnOk};
ghost use Rattle.std.specs.String.{string_bytes};
ghost use Rattle.tcl_player.specs.Lines.{event_lines, line, lines, one_line, outcome_text};
ghost use Rattle.tcl_player.specs.Lines.{replay_lines};
ghost use Rattle.tcl_player.specs.Words.{crossing_words, height_word};
ghost use Rattle.tcl_recorder.specs.Crossings.{event_of};
ghost use Rattle.tcl_text.specs.Writing.{written_list};

use crate::entries::entry_words;
use crate::player::Outcome;
use crate::replies::{answer_words, reply_words};
use crate::words::{count_text, list_text, one};
use std::alloc::{AllocError, Global};
use tcl_recorder::crossing::Crossing;
use tcl_recorder::record::Record;
use tcl_text::list::write_list;
use tcl_text::text::Text;

/// A crossing as a line, without a newline.
///
/// # Errors
/// Want of memory.
pub fn crossing_line(alloc: Global, crossing: &Crossing) -> Result<String, AllocError>
    ensures { IfOk result (λ text. string_bytes text ≡ line crossing.now) }
{
    let words = crossing_words(alloc, crossing)?;
    let text = write_list(alloc, words.as_slice())?;
    one_line(alloc, text.as_str())
}

/// Crossings in their order, each as a line with a newline.
///
/// # Errors
/// Want of memory.
pub fn crossing_lines(alloc: Global, crossings: &[Crossing]) -> Result<String, AllocError>
    ensures { IfOk result (λ text. string_bytes text ≡ lines crossings.now) }
{
    let mut text = String::new(alloc);
    'crossings: for crossing in crossings {
        let line = crossing_line(alloc, crossing)?;
        text.push_str(line.as_str())?;
        text.push('\n')?;
    }
    Ok(text)
}

/// What crossed the boundary of the watched interpreter, in order, each crossing as a line with a
/// newline.
///
/// # Errors
/// Want of memory.
pub fn record_lines(alloc: Global, recorded: &Record) -> Result<String, AllocError>
    ensures { IfOk result (λ text. string_bytes text ≡ event_lines recorded.now.crossings) }
{
    crossing_lines(alloc, recorded.crossings())
}

/// What came of moves that were played: `finished`, `waiting`, `ended`, `exited STATUS`, `spent` or
/// `misfit`.
///
/// # Errors
/// Want of memory.
pub fn outcome_text(alloc: Global, outcome: Outcome) -> Result<String, AllocError>
    ensures { IfOk result (λ text. string_bytes text ≡ outcome_text outcome) }
{
    match outcome {
        Outcome::Finished => String::from_str(alloc, "finished"),
        Outcome::Waiting => String::from_str(alloc, "waiting"),
        Outcome::Ended => String::from_str(alloc, "ended"),
        Outcome::Exited(status) => format!(in alloc; "exited {status}"),
        Outcome::Spent => String::from_str(alloc, "spent"),
        Outcome::Misfit => String::from_str(alloc, "misfit"),
    }
}

/// A replay's result: what the interpreter told, in order, each crossing as a line; and a last line
/// with what came of the moves.
///
/// # Errors
/// Want of memory.
pub fn replay_lines(
    alloc: Global,
    outwards: &[Crossing],
    outcome: Outcome,
) -> Result<String, AllocError>
    ensures { IfOk result (λ text. string_bytes text ≡ replay_lines outwards.now outcome) }
{
    let mut text = crossing_lines(alloc, outwards)?;
    let outcome = outcome_text(alloc, outcome)?;
    text.push_str(outcome.as_str())?;
    text.push('\n')?;
    Ok(text)
}

/// A text with a backslash and an `n` in place of each newline.
fn one_line(alloc: Global, text: &str) -> Result<String, AllocError>
    ensures { IfOk result (λ made. string_bytes made ≡ one_line text.now) }
{
    let mut made = String::new(alloc);
    let mut rest = text;
    'newlines: while let Some((before, behind)) = rest.split_once('\n') {
        made.push_str(before)?;
        made.push_str("\\n")?;
        rest = behind;
    }
    made.push_str(rest)?;
    Ok(made)
}

/// To whom a call goes.
fn height_word(alloc: Global, up: Option<usize>) -> Result<Text, AllocError>
    ensures { IfOk result (λ text. text ≡ height_word up) }
{
    match up {
        Some(levels) => count_text(alloc, levels),
        None => Text::new(alloc, "host"),
    }
}

/// A kind of crossing, the path of the interpreter where it is seen, and more words.
fn words_at(
    alloc: Global,
    kind: &str,
    path: &[Text],
    more: Vec<Text>,
) -> Result<Vec<Text>, AllocError>
    ensures { IfOk result (λ words. words.items
        ≡ kind.now ∷ written_list path.now ∷ more.items) }
{
    let mut words = one(alloc, kind)?;
    words.push(list_text(alloc, path)?)?;
    append(&mut words, more)?;
    Ok(words)
}

/// Words behind others.
fn append(words: &mut Vec<Text>, more: Vec<Text>) -> Result<(), AllocError>
    ensures { OnOk result (words.new.items ≡ words.old.items ++ more.items) }
{
    let mut more = more;
    words.append(&mut more)
}

/// A crossing's words.
fn crossing_words(alloc: Global, crossing: &Crossing) -> Result<Vec<Text>, AllocError>
    ensures { IfOk result (λ words. words.items
        ≡ crossing_words (event_of crossing.now).place (event_of crossing.now).what) }
{
    match crossing {
        Crossing::In { target, entry } => {
            words_at(alloc, "in", target.as_slice(), entry_words(alloc, entry)?)
        }
        Crossing::Done { target, reply } => {
            words_at(alloc, "done", target.as_slice(), reply_words(alloc, reply)?)
        }
        Crossing::Out {
            caller,
            up,
            down,
            entry,
        } => {
            let way = way_words(alloc, *up, down.as_slice(), entry_words(alloc, entry)?)?;
            words_at(alloc, "out", caller.as_slice(), way)
        }
        Crossing::Back { caller, up, answer } => {
            let back = height_words(alloc, *up, answer_words(alloc, answer)?)?;
            words_at(alloc, "back", caller.as_slice(), back)
        }
    }
}

/// To whom a call goes, and more words.
fn height_words(alloc: Global, up: Option<usize>, more: Vec<Text>) -> Result<Vec<Text>, AllocError>
    ensures { IfOk result (λ words. words.items ≡ height_word up ∷ more.items) }
{
    let mut words = Vec::new(alloc);
    words.push(height_word(alloc, up)?)?;
    append(&mut words, more)?;
    Ok(words)
}

/// The way of a call, and more words.
fn way_words(
    alloc: Global,
    up: Option<usize>,
    down: &[Text],
    more: Vec<Text>,
) -> Result<Vec<Text>, AllocError>
    ensures { IfOk result (λ words. words.items
        ≡ height_word up ∷ written_list down.now ∷ more.items) }
{
    let mut words = Vec::new(alloc);
    words.push(height_word(alloc, up)?)?;
    words.push(list_text(alloc, down)?)?;
    append(&mut words, more)?;
    Ok(words)
}
