//! Calls that play moves.
//!
//! A move is a line: `in` and the script that comes to the interpreter, or what answers a call.
//! That is `back` and an ordinary completion; `stop` and how many levels up the interpreter is that
//! a stop names; `exit`, the exit of status 3; `ended`, an end from outside; or what a host says:
//! `line` and the line, `rest` and all that was left, `refused` and the number of a refusal.
use crate::rows::world::{Trees, no_call, number_of};
use crate::rows::writing;
use std::alloc::{AllocError, Global};
use tcl_flow::completion;
use tcl_flow::stop::{Stop, StopKind};
use tcl_host::bytes::Bytes;
use tcl_host::reply::{HostRefusal, HostReply};
use tcl_player::moves::{Move, moves_of};
use tcl_recorder::crossing::{Answer, Reply};
use tcl_replay::replaying::{Replayed, Unplayed};
use tcl_replay::saving::Saved;
use tcl_run::entry::Entry;
use tcl_text::text::Text;
use tcl_value::value::Value;

/// The label of what moves were played to last.
const PLAYED: &str = "played";

/// A text of a row as a value: it isn't too long.
fn value(alloc: Global, text: &str) -> Result<Value, AllocError> {
    match Value::from_text(Text::new(alloc, text)?) {
        Ok(value) => Ok(value),
        Err(_) => Err(AllocError),
    }
}

/// A script that comes to the interpreter.
fn entering(alloc: Global, script: &str) -> Result<Move, AllocError> {
    Ok(Move::Enter {
        target: Vec::new(alloc),
        entry: Entry::Eval(value(alloc, script)?),
    })
}

/// An ordinary completion that answers a call.
fn answering(alloc: Global, text: &str) -> Result<Move, AllocError> {
    let completion = completion::ok(value(alloc, text)?);
    Ok(Move::Come(Answer::Replied(Reply::Completed(completion))))
}

/// A stop that answers a call.
fn stopping(levels: &str) -> Result<Move, AllocError> {
    match levels.parse::<usize>() {
        Ok(levels_up) => Ok(Move::Come(Answer::Replied(Reply::Stopped(Stop {
            levels_up,
            kind: StopKind::Count,
        })))),
        Err(_) => Err(AllocError),
    }
}

/// The refusal of a number.
fn refusal_of(number: &str) -> HostRefusal {
    match number {
        "261" => HostRefusal::NoChannel,
        "262" => HostRefusal::DeviceFault,
        _ => HostRefusal::NotOpened,
    }
}

/// What a host says that answers a call, by its word.
fn heard(alloc: Global, word: &str, text: &str) -> Result<Move, AllocError> {
    let reply = match word {
        "line" => HostReply::Line(Bytes::copy_of(alloc, text.as_bytes())?),
        "rest" => HostReply::Rest(Bytes::copy_of(alloc, text.as_bytes())?),
        _ => HostReply::Refused(refusal_of(text)),
    };
    Ok(Move::Come(Answer::Heard(reply)))
}

/// The move of a line.
fn move_of(alloc: Global, line: &str) -> Result<Move, AllocError> {
    match line.split_once(" ") {
        Some(("in", script)) => entering(alloc, script),
        Some(("back", text)) => answering(alloc, text),
        Some(("stop", levels)) => stopping(levels),
        Some((word, text)) => heard(alloc, word, text),
        None if line == "exit" => Ok(Move::Come(Answer::Replied(Reply::Exited(3)))),
        None => Ok(Move::Come(Answer::Replied(Reply::Ended))),
    }
}

/// The moves of lines.
fn moves_of_lines(alloc: Global, lines: &str) -> Result<Vec<Move>, AllocError> {
    let mut moves = Vec::new(alloc);
    'lines: for line in lines.lines() {
        moves.push(move_of(alloc, line)?)?;
    }
    Ok(moves)
}

/// What comes of moves that are played to an interpreter by itself.
pub(crate) fn played(
    saved: &Saved,
    alloc: Global,
    moves: &[Move],
    limit: u64,
) -> Result<Replayed, Unplayed> {
    saved.replay(alloc, moves, limit)
}

/// Keeps what came of moves, and gives their outcome.
fn note(world: &mut Trees, alloc: Global, replayed: Replayed) -> Result<String, AllocError> {
    let (outcome, told, saved) = replayed.into_parts();
    world.told = told;
    world.keep(alloc, PLAYED, saved)?;
    format!(in alloc; "{outcome:?}")
}

/// What came of moves, or why they weren't played.
fn reach(
    world: &mut Trees,
    alloc: Global,
    played: Result<Replayed, Unplayed>,
) -> Result<String, AllocError> {
    match played {
        Ok(replayed) => note(world, alloc, replayed),
        Err(why) => format!(in alloc; "{why:?}"),
    }
}

/// What comes of moves that are played to what was kept under a label.
fn play_moves(
    world: &mut Trees,
    alloc: Global,
    label: &str,
    limit: u64,
    moves: &[Move],
) -> Result<String, AllocError> {
    let played = match world.kept(label) {
        Some(saved) => played(saved, alloc, moves, limit),
        None => return no_call(alloc),
    };
    reach(world, alloc, played)
}

/// `play LABEL STEPS MOVES`
pub(crate) fn play(
    world: &mut Trees,
    alloc: Global,
    label: &str,
    limit: u64,
    lines: &str,
) -> Result<String, AllocError> {
    let moves = moves_of_lines(alloc, lines)?;
    play_moves(world, alloc, label, limit, moves.as_slice())
}

/// `replay LABEL STEPS`
pub(crate) fn replay(
    world: &mut Trees,
    alloc: Global,
    label: &str,
    steps: &Text,
) -> Result<String, AllocError> {
    let Some(limit) = number_of(steps) else {
        return no_call(alloc);
    };
    let moves = moves_of(alloc, world.crossings.as_slice())?;
    play_moves(world, alloc, label, limit, moves.as_slice())
}

/// What comes of moves, which are played again where memory was wanted.
fn replayed_again(
    saved: &Saved,
    alloc: Global,
    moves: &[Move],
    limit: u64,
) -> Result<Replayed, Unplayed> {
    match played(saved, alloc, moves, limit) {
        Err(Unplayed::Memory) => played(saved, alloc, moves, limit),
        come => come,
    }
}

/// `play_again LABEL STEPS MOVES`
pub(crate) fn play_again(
    world: &mut Trees,
    alloc: Global,
    label: &str,
    limit: u64,
    lines: &str,
) -> Result<String, AllocError> {
    let moves = moves_of_lines(alloc, lines)?;
    let played = match world.kept(label) {
        Some(saved) => replayed_again(saved, alloc, moves.as_slice(), limit),
        None => return no_call(alloc),
    };
    reach(world, alloc, played)
}

/// What was told.
pub(crate) fn show(world: &Trees, alloc: Global) -> Result<String, AllocError> {
    writing::crossings(alloc, world.told.as_slice())
}

/// What was told last.
pub(crate) fn last(world: &Trees, alloc: Global) -> Result<String, AllocError> {
    match world.told.last() {
        Some(told) => writing::crossing(alloc, told),
        None => String::from_str(alloc, "nothing"),
    }
}
