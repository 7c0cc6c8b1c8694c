//! What is handed to an interpreter from outside of it.
ghost use Rattle.std.specs.Prelude.{◌≡◌, ◌∷◌, [], IfOk, is_some};
ghost use Rattle.tcl_core.specs.Paths.{rise_to};
ghost use Rattle.tcl_core.specs.Views as views;
ghost use Rattle.tcl_player.specs.Moves.{listed, moves_in};
ghost use Rattle.tcl_recorder.specs.Crossings.{answer_of, event_of, events_of, reply_of};

use std::alloc::{AllocError, Global};
use tcl_recorder::crossing::{Answer, Crossing, Reply, copy_completion, copy_heard};
use tcl_run::entry::Entry;
use tcl_text::text::Text;

/// What is handed to an interpreter from outside of it. Paths lead from it downward.
#[derive(Drop)]
pub enum Move {
    /// An entry into the interpreter at a path.
    Enter { target: Vec<Text>, entry: Entry },
    /// The answer to the call that is open.
    Come(Answer),
}

/// The moves among these crossings, in order: the entries, and the answers to calls that leave the
/// interpreter.
///
/// # Errors
/// Want of memory.
pub fn moves_of(alloc: Global, crossings: &[Crossing]) -> Result<Vec<Move>, AllocError>
    ensures { IfOk result (λ made. moves_in made.items ≡ views.moves_of (events_of crossings.now)) }
{
    let mut moves = Vec::new(alloc);
    for crossing in crossings {
        if let Some(made) = move_of(alloc, crossing)? {
            moves.push(made)?;
        }
    }
    Ok(moves)
}

/// The move that a crossing is, if it is one.
fn move_of(alloc: Global, crossing: &Crossing) -> Result<Option<Move>, AllocError>
    ensures { IfOk result (λ made. listed made ≡ views.moves_of (event_of crossing.now ∷ [])) }
{
    match crossing {
        Crossing::In { target, entry } => Ok(Some(Move::Enter {
            target: Vec::from_clones(alloc, target.as_slice())?,
            entry: entry.copy(alloc)?,
        })),
        Crossing::Back { caller, up, answer } => {
            if stays_within(caller.as_slice(), *up) {
                return Ok(None);
            }
            Ok(Some(Move::Come(copy_answer(answer)?)))
        }
        Crossing::Out { .. } | Crossing::Done { .. } => Ok(None),
    }
}

/// Whether a way so many levels up from a path ends at its top or below.
fn stays_within(path: &[Text], up: Option<usize>) -> bool
    ensures { result ≡ is_some (rise_to up path.now) }
{
    match up {
        Some(levels) => levels <= path.len(),
        None => false,
    }
}

/// The same answer again.
fn copy_answer(answer: &Answer) -> Result<Answer, AllocError>
    ensures { IfOk result (λ made. answer_of made ≡ answer_of answer.now) }
{
    match answer {
        Answer::Replied(reply) => Ok(Answer::Replied(copy_reply(reply)?)),
        Answer::Heard(reply) => Ok(Answer::Heard(copy_heard(reply)?)),
        Answer::Nobody => Ok(Answer::Nobody),
    }
}

/// The same reply again.
fn copy_reply(reply: &Reply) -> Result<Reply, AllocError>
    ensures { IfOk result (λ made. reply_of made ≡ reply_of reply.now) }
{
    match reply {
        Reply::Completed(completion) => Ok(Reply::Completed(copy_completion(completion)?)),
        Reply::Stopped(stop) => Ok(Reply::Stopped(*stop)),
        Reply::Exited(status) => Ok(Reply::Exited(*status)),
        Reply::Ended => Ok(Reply::Ended),
    }
}
