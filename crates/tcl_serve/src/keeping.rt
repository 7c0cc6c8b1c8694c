//! Records, and what they come to when they are replayed.
ghost use Rattle.std.specs.Prelude.{◌≡◌, ◌↔◌, IfOk, IsTrue};
ghost use Rattle.tcl_player.specs.Lines.{line};
ghost use Rattle.tcl_recorder.specs.Crossings.{event_of, events_of};
ghost use Rattle.tcl_replay.specs.Saved.{saved_of};
ghost use Rattle.tcl_serve.specs.Keeping.{Plays, leads_out, lines_in, of_unplayed, of_unsaved};
ghost use Rattle.tcl_serve.specs.Keeping.{SavesAt, outward, under};

use crate::answers::Replayed;
use crate::evaluating::refusal_of;
use crate::refusals::Refusal;
use std::alloc::{AllocError, Global};
use tcl_eval::running::Refused;
use tcl_player::lines::{crossing_line, outcome_text};
use tcl_player::moves::moves_of;
use tcl_recorder::crossing::Crossing;
use tcl_recorder::record::Record;
use tcl_replay::replaying::Unplayed;
use tcl_replay::saving::{Saved, save};
use tcl_text::text::Text;
use tcl_tree::tree::Tree;

/// What an interpreter told in a replay.
#[derive(Drop)]
pub(crate) struct Told {
    /// What came of the moves.
    pub outcome: Text,
    /// Whether it is what it tells in the record.
    pub same: bool,
    /// A line for each crossing.
    pub lines: Vec<Text>,
}

impl Told {
    /// The same, and the number under which is kept what the replay left.
    pub fn under(self, number: u64) -> Replayed
        ensures { result ≡ under self number }
    {
        let Told {
            outcome,
            same,
            lines,
        } = self;
        Replayed {
            outcome,
            same,
            saved: number,
            lines,
        }
    }
}

/// A replay: what was told in it, and what it left.
#[derive(Drop)]
pub(crate) struct Left {
    /// What was told.
    pub told: Told,
    /// The interpreter as it was left.
    pub saved: Saved,
}

/// Replays a record to a saved interpreter.
///
/// # Errors
/// 404 and 412; want of memory.
pub(crate) fn replayed(
    alloc: Global,
    saved: &Saved,
    kept: &Record,
    limit: u64,
) -> Result<Left, Refusal>
    ensures { Plays (saved_of saved.now) kept.now.crossings limit result }
{
    let moves = moves_of(alloc, kept.crossings())?;
    match saved.replay(alloc, moves.as_slice(), limit) {
        Ok(replayed) => {
            let (outcome, outwards, saved) = replayed.into_parts();
            let outcome = Text::from_string(alloc, outcome_text(alloc, outcome)?)?;
            let lines = lines_of(alloc, outwards.as_slice())?;
            let same = tells_same(alloc, kept.crossings(), lines.as_slice())?;
            Ok(Left {
                told: Told {
                    outcome,
                    same,
                    lines,
                },
                saved,
            })
        }
        Err(unplayed) => Err(unplayed_refusal(unplayed)),
    }
}

/// The line of a crossing.
fn line_of(alloc: Global, crossing: &Crossing) -> Result<Text, AllocError>
    ensures { IfOk result (λ text. text ≡ line crossing.now) }
{
    let line = crossing_line(alloc, crossing)?;
    Text::from_string(alloc, line)
}

/// The lines of crossings.
///
/// # Errors
/// Want of memory.
pub(crate) fn lines_of(alloc: Global, crossings: &[Crossing]) -> Result<Vec<Text>, AllocError>
    ensures { IfOk result (λ made. made.items ≡ lines_in (events_of crossings.now)) }
{
    let mut lines = Vec::new(alloc);
    'crossings: for crossing in crossings {
        lines.push(line_of(alloc, crossing)?)?;
    }
    Ok(lines)
}

/// Whether a crossing leads outwards: it is a call, or the end of an entry.
fn leads_out(crossing: &Crossing) -> bool
    ensures { result ≡ leads_out (event_of crossing.now) }
{
    matches!(crossing, Crossing::Out { .. } | Crossing::Done { .. })
}

/// The lines of those crossings that lead outwards.
fn told_lines(alloc: Global, crossings: &[Crossing]) -> Result<Vec<Text>, AllocError>
    ensures { IfOk result (λ made. made.items ≡ lines_in (outward (events_of crossings.now))) }
{
    let mut lines = Vec::new(alloc);
    'crossings: for crossing in crossings {
        if leads_out(crossing) {
            lines.push(line_of(alloc, crossing)?)?;
        }
    }
    Ok(lines)
}

/// Whether those crossings that lead outwards have these lines.
fn tells_same(alloc: Global, crossings: &[Crossing], lines: &[Text]) -> Result<bool, AllocError>
    ensures { IfOk result
        (λ same. IsTrue same ↔ (lines.now ≡ lines_in (outward (events_of crossings.now)))) }
{
    let wanted = told_lines(alloc, crossings)?;
    Ok(same_lines(lines, wanted.as_slice()))
}

/// Whether these lines are the others.
fn same_lines(lines: &[Text], others: &[Text]) -> bool
    ensures { IsTrue result ↔ (lines.now ≡ others.now) }
{
    lines == others
}

/// Why nothing was replayed.
fn unplayed_refusal(unplayed: Unplayed) -> Refusal
    ensures { result ≡ of_unplayed unplayed }
{
    match unplayed {
        Unplayed::Memory => Refusal::Memory,
        Unplayed::CountTooLarge => Refusal::TooManySteps,
        Unplayed::Waits => Refusal::Waits,
    }
}

/// Saves the interpreter at a path by itself.
///
/// # Errors
/// 402 and 403; want of memory, which breaks nothing.
pub(crate) fn save_at(tree: &Tree, path: &[Text]) -> Result<Saved, Refusal>
    ensures { SavesAt tree.now path.now result }
{
    match save(tree, path) {
        Ok(saved) => Ok(saved),
        Err(refused) => Err(unsaved_refusal(refused)),
    }
}

/// Why an interpreter isn't saved. Want of memory breaks nothing then.
fn unsaved_refusal(refused: Refused) -> Refusal
    ensures { result ≡ of_unsaved refused }
{
    match refused {
        Refused::Memory => Refusal::Memory,
        other => refusal_of(other),
    }
}
