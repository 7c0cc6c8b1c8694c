//! Records, and interpreters that are saved by themselves.
ghost use Rattle.std.specs.Prelude.{◌≡◌, IfErr, IfOk, false};
ghost use Rattle.std.specs.String.{string_bytes};
ghost use Rattle.tcl_core.specs.Lives.{React};
ghost use Rattle.tcl_core.specs.Trees.{at};
ghost use Rattle.tcl_core.specs.Views.{moves_of};
ghost use Rattle.tcl_run.specs.Language.{language};
ghost use Rattle.tcl_player.specs.Players.{result_of};
ghost use Rattle.tcl_player.specs.Lines.{event_lines, replay_lines};
ghost use Rattle.tcl_recorder.specs.Crossings.{events_of};
ghost use Rattle.tcl_replay.specs.Saved.{saved_of};
ghost use Rattle.tcl_sessions.specs.Records.{IsUnplayed, IsUnsaved, Takes};
ghost use Rattle.tcl_tree.specs.TreeOf.{marks_of, tree_of};

use crate::refusal::Refusal;
use crate::session::{Session, Watch};
use std::alloc::Global;
use std::mem::replace;
use tcl_player::lines::{record_lines, replay_lines};
use tcl_player::moves::moves_of;
use tcl_recorder::record::Record;
use tcl_replay::replaying::Replayed;
use tcl_replay::saving::{Saved, save};
use tcl_text::text::Text;

impl Session {
    /// Takes the record of the last evaluation out.
    ///
    /// # Errors
    /// 424; 427 where it wasn't watched, or its record was taken; 411 where the watched interpreter
    /// was deleted in it. They change nothing.
    pub fn take_record(&mut self) -> Result<Record, Refusal>
        ensures { Takes self.old result self.new }
    {
        self.at_rest()?;
        match replace(&mut self.watch, Watch::Nothing) {
            Watch::Recorded(record) => Ok(record),
            Watch::Deleted => {
                self.watch = Watch::Deleted;
                Err(Refusal::Deleted)
            }
            Watch::Nothing => Err(Refusal::NoRecord),
        }
    }

    /// The interpreter at a path by itself, with all below it.
    ///
    /// # Errors
    /// 424; 402, 403; 401.
    pub fn save(&self, path: &[Text]) -> Result<Saved, Refusal>
        ensures refused { IfErr result (IsUnsaved self.now path.now) }
        ensures saved { IfOk result
            (λ s. saved_of s ≡ record {
              tree = at (tree_of self.now.tree) path.now;
              integers = (marks_of self.now.tree).integers;
              waits =
                  false;
            }) }
    {
        self.at_rest()?;
        Ok(save(&self.tree, path)?)
    }
}

/// The crossings of a record, a line for each.
///
/// # Errors
/// 401.
pub fn lines_of_record(alloc: Global, recorded: &Record) -> Result<String, Refusal>
    ensures { IfOk result (λ text. string_bytes text ≡ event_lines recorded.now.crossings) }
{
    Ok(record_lines(alloc, recorded)?)
}

/// Plays the moves of a record to a saved interpreter by itself, with at most so many steps.
///
/// # Errors
/// 412, 404; 401.
pub fn replay_record(
    alloc: Global,
    saved: &Saved,
    recorded: &Record,
    limit: u64,
) -> Result<Replayed, Refusal>
    ensures refused { IfErr result (IsUnplayed saved.now limit) }
    ensures reacts { IfOk result
        (λ r. React (language (saved_of saved.now).integers) (saved_of saved.now).tree
        (moves_of recorded.now.crossings) limit (result_of r.outcome) (events_of r.outwards.items)
        (saved_of r.saved).tree) }
    ensures style { IfOk result
        (λ r. (saved_of r.saved).integers ≡ (saved_of saved.now).integers) }
{
    let moves = moves_of(alloc, recorded.crossings())?;
    Ok(saved.replay(alloc, moves.as_slice(), limit)?)
}

/// What a saved interpreter told in a replay, a line for each, and what came of the moves.
///
/// # Errors
/// 401.
pub fn lines_of_replay(alloc: Global, replayed: &Replayed) -> Result<String, Refusal>
    ensures { IfOk result (λ text. string_bytes text
        ≡ replay_lines replayed.now.outwards.items replayed.now.outcome) }
{
    Ok(replay_lines(alloc, replayed.outwards(), replayed.outcome())?)
}
