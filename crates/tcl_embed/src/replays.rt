//! Records that are replayed to a saved interpreter by itself.
ghost use Rattle.std.specs.Prelude.{◌≡◌, IfOk};
ghost use Rattle.std.specs.String.{string_bytes};
ghost use Rattle.tcl_player.specs.Lines.{replay_lines};

use std::alloc::{AllocError, Global};
use tcl_player::lines;

/// The moves among crossings, as those of a record: the entries, and the answers that came back.
pub use tcl_player::moves::moves_of;
/// A move: what the outside hands to an interpreter. `saving::Saved::replay` plays them.
pub use tcl_player::moves::Move;
/// What came of moves: `Finished`, `Waiting`, `Ended`, `Exited`, `Spent` or `Misfit`.
pub use tcl_player::player::Outcome;
/// An outcome in words.
pub use tcl_player::lines::outcome_text;
/// What a replay gives: the outcome, what the interpreter told, and how it was left.
pub use tcl_replay::replaying::Replayed;
/// Why nothing was replayed (401, 404, 412).
pub use tcl_replay::replaying::Unplayed;

/// A replay's result as lines of text: what the interpreter told, in order, each crossing as a
/// line (see `watching::record_lines`); and a last line with the outcome.
///
/// # Errors
/// Want of memory.
pub fn replay_lines(alloc: Global, replayed: &Replayed) -> Result<String, AllocError>
    ensures { IfOk result (λ text. string_bytes text
        ≡ replay_lines replayed.now.outwards.items replayed.now.outcome) }
{
    lines::replay_lines(alloc, replayed.outwards(), replayed.outcome())
}
