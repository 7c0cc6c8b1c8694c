//! Answers to calls that left the tree: which a call can have, and how it ends by them.
ghost use Rattle.std.specs.Prelude.{◌≡◌, Some, IfOk};
ghost use Rattle.tcl_core.specs.Entries as core;
ghost use Rattle.tcl_core.specs.Runs.{is_exit, is_own, is_told, names_gone};
ghost use Rattle.tcl_flow.specs.Stopping.{kind_of};
ghost use Rattle.tcl_player.specs.Answering.{IsTold, is_cut};
ghost use Rattle.tcl_run.specs.Entering.{whole_entry};
ghost use Rattle.tcl_recorder.specs.Crossings.{answer_of};

use std::alloc::Global;
use tcl_flow::stop::{Stop, StopKind};
use tcl_recorder::crossing::{Answer, Reply, copy_completion, copy_heard};
use tcl_run::entry::Entry;
use tcl_run::interruption::{Cause, Interruption};
use tcl_run::outside::Turn;

/// Whether an alias that leads so many levels up may be answered so: not by a stop that names an
/// interpreter as far up.
fn answers_alias(levels: usize, answer: &Answer) -> bool
    ensures { (i : core.Entry) → result ≡ is_own (Some levels) i (answer_of answer.now) }
{
    match answer {
        Answer::Replied(Reply::Stopped(stop)) => stop.levels_up < levels,
        Answer::Replied(_) | Answer::Nobody => true,
        Answer::Heard(_) => false,
    }
}

/// Whether a request may be answered so.
fn answers_request(entry: &Entry, answer: &Answer) -> bool
    ensures { result ≡ is_own None (whole_entry entry.now) (answer_of answer.now) }
{
    match answer {
        Answer::Replied(Reply::Exited(_)) | Answer::Replied(Reply::Ended) => true,
        Answer::Replied(_) => false,
        Answer::Heard(reply) => match entry {
            Entry::AskHost(request) => reply.is_reply_to(request),
            _ => false,
        },
        Answer::Nobody => false,
    }
}

/// Whether it is the stop of an interpreter that is gone, so many levels up.
fn names_gone(levels: usize, stop: Stop) -> bool
    ensures { result ≡ names_gone levels (kind_of stop.kind) stop.levels_up }
{
    match stop.kind {
        StopKind::Gone => stop.levels_up == levels,
        StopKind::Count | StopKind::Depth => false,
    }
}

/// Whether the call that goes so high up, or to the host, may be answered so, where its caller is
/// gone so many levels up: by no completion, by no word of the host, and not since nobody is there.
fn answers_gone(levels: usize, up: Option<usize>, answer: &Answer) -> bool
    ensures { (i : core.Entry) → result ≡ is_told (Some levels) up i (answer_of answer.now) }
{
    match answer {
        Answer::Replied(Reply::Stopped(stop)) => match up {
            Some(height) => stop.levels_up < height,
            None => names_gone(levels, *stop),
        },
        Answer::Replied(Reply::Exited(_)) | Answer::Replied(Reply::Ended) => true,
        Answer::Replied(Reply::Completed(_)) | Answer::Heard(_) | Answer::Nobody => false,
    }
}

/// Whether the call that goes so many levels up, or to the host, may be answered so, where its
/// caller is gone so many levels up, or stands.
pub(crate) fn answers_call(
    gone: Option<usize>,
    up: Option<usize>,
    entry: &Entry,
    answer: &Answer,
) -> bool
    ensures { result ≡ is_told gone up (whole_entry entry.now) (answer_of answer.now) }
{
    match gone {
        Some(levels) => answers_gone(levels, up, answer),
        None => match up {
            Some(height) => answers_alias(height, answer),
            None => answers_request(entry, answer),
        },
    }
}

/// Whether it is the exit with this status.
pub(crate) fn exits(status: i64, answer: &Answer) -> bool
    ensures { result ≡ is_exit status (answer_of answer.now) }
{
    match answer {
        Answer::Replied(Reply::Exited(other)) => *other == status,
        _ => false,
    }
}

/// Whether it is an end from outside.
pub(crate) fn cuts(answer: &Answer) -> bool
    ensures { result ≡ is_cut (answer_of answer.now) }
{
    matches!(answer, Answer::Replied(Reply::Ended))
}

/// How a call ends that is answered so.
///
/// # Errors
/// The end, where it is no word of a host, nor that nobody is there; want of memory.
pub(crate) fn turn_of(alloc: Global, answer: &Answer) -> Result<Turn, Interruption>
    ensures { IsTold (answer_of answer.now) result }
{
    match answer {
        Answer::Heard(reply) => Ok(Turn::Heard(copy_heard(reply)?)),
        Answer::Nobody => Ok(Turn::Nobody),
        Answer::Replied(Reply::Completed(completion)) => {
            Err(Interruption::of_completion(alloc, copy_completion(completion)?))
        }
        Answer::Replied(Reply::Stopped(stop)) => Err(Interruption::Stopped(*stop)),
        Answer::Replied(Reply::Exited(status)) => Err(Interruption::Exited(*status)),
        Answer::Replied(Reply::Ended) => Err(Interruption::Cut(Cause::Above)),
    }
}
