//! Moves that are played to a saved interpreter.
ghost use Rattle.std.specs.Prelude.{◌≡◌, ◌+◌, ◌≤◌, false, length, nat_le, IfErr, IfNone, IfOk};
ghost use Rattle.std.specs.Prelude.{IfSome, OnOk};
ghost use Rattle.tcl_core.specs.Lives.{React};
ghost use Rattle.tcl_eval.specs.Running.{most_steps, root_count};
ghost use Rattle.tcl_run.specs.Language.{language};
ghost use Rattle.tcl_player.specs.Moves.{moves_in};
ghost use Rattle.tcl_player.specs.Players.{Stands, player_of, result_of};
ghost use Rattle.tcl_reactions.specs.Playing as playing;
ghost use Rattle.tcl_reactions.specs.Playing.{IsOver, Lived, beginner, tree_left};
ghost use Rattle.tcl_replay.specs.Replaying.{PlaysEntry, ReactsSo, Serves, is_waiting, unfit};
ghost use Rattle.tcl_replay.specs.Replaying.{wants_memory};
ghost use Rattle.tcl_replay.specs.Saved.{saved_of};
ghost use Rattle.tcl_replay.specs.declared.replaying.Unplayed.TheVariants.{Memory};
ghost use Rattle.tcl_run.specs.Entering.{whole_entry};
ghost use Rattle.tcl_run_laws.specs.Budgets.{DepthsComeBack};
ghost use Rattle.tcl_tree.specs.Own.{Own};
ghost use Rattle.tcl_tree.specs.TreeOf.{Names, marks_of, tree_of};
ghost use Rattle.tcl_recorder.specs.Crossings.{events_of};

use crate::saving::Saved;
use std::alloc::{AllocError, Global};
use tcl_eval::waiting::{enter, miss_entry};
use tcl_player::moves::Move;
use tcl_player::player::{Outcome, Player};
use tcl_recorder::crossing::Crossing;
use tcl_run::entry::Entry;
use tcl_run::interruption::Interruption;
use tcl_run::outside::{Happening, Outside};
use tcl_text::messages::{COUNT_TOO_LARGE, OUT_OF_MEMORY};
use tcl_text::text::Text;
use tcl_tree::node::MOST_STEPS;
use tcl_tree::tree::{Place, Tree};
use tcl_value::value::Value;
use thiserror::Error;

/// What came of moves that were played to a saved interpreter.
#[derive(Drop)]
pub struct Replayed {
    outcome: Outcome,
    outwards: Vec<Crossing>,
    saved: Saved,
}

impl Replayed {
    /// What came of the moves.
    pub fn outcome(&self) -> Outcome
        ensures { result ≡ self.now.outcome }
    {
        self.outcome
    }

    /// What the interpreter told the outside, in order: its calls, and how its entries ended.
    pub fn outwards(&self) -> &[Crossing]
        ensures { result.now ≡ self.now.outwards.items }
    {
        self.outwards.as_slice()
    }

    /// The interpreter as it was left: where it waits, as it stood at the open call.
    pub fn saved(&self) -> &Saved
        ensures { result.now ≡ self.now.saved }
    {
        &self.saved
    }

    /// All three.
    pub fn into_parts(self) -> (Outcome, Vec<Crossing>, Saved)
        ensures { result ≡ (self.outcome, self.outwards, self.saved) }
    {
        let Replayed {
            outcome,
            outwards,
            saved,
        } = self;
        (outcome, outwards, saved)
    }
}

/// Why nothing was replayed.
#[derive(Clone, Copy, Debug, Eq, Error, PartialEq)]
pub enum Unplayed {
    /// 401: memory was wanted.
    #[error("401: {}", OUT_OF_MEMORY)]
    Memory,
    /// 404: the steps that were counted in the interpreter and those of the replay pass
    /// 9223372036854775807 together.
    #[error("404: {}", COUNT_TOO_LARGE)]
    CountTooLarge,
    /// 412: it was left by a replay at an open call, and waits there.
    #[error("412: the interpreter waits for an answer")]
    Waits,
}

impl Saved {
    /// Plays moves to the interpreter by itself, in order, up to what first ends that, with at most
    /// so many counted steps. An entry for a path where nobody stands is told the path. But where
    /// it is left at an open call, each interpreter is in use afterwards as deeply as before, or
    /// not at all, as one that was deleted and made anew.
    ///
    /// # Errors
    /// 412 and 404, which are looked for in this order; and 401.
    pub fn replay(&self, alloc: Global, moves: &[Move], limit: u64) -> Result<Replayed, Unplayed>
        ensures refused { IfSome (unfit (saved_of self.now) limit) (λ e. result ≡ Err e) }
        ensures begun { IfNone (unfit (saved_of self.now) limit) (IfErr result (λ e. e ≡ Memory)) }
        ensures reacts { IfOk result
            (λ r. React (language (saved_of self.now).integers) (saved_of self.now).tree
            (moves_in moves.now) limit (result_of r.outcome) (events_of r.outwards.items)
            (saved_of r.saved).tree) }
        ensures reacts_so { IfOk result
            (λ r. ReactsSo (saved_of self.now).integers (saved_of self.now).tree
            (moves_in moves.now) limit (result_of r.outcome) (events_of r.outwards.items)
            (saved_of r.saved).tree) }
        ensures style { IfOk result
            (λ r. (saved_of r.saved).integers ≡ (saved_of self.now).integers) }
        ensures waits { IfOk result
            (λ r. (saved_of r.saved).waits ≡ is_waiting (result_of r.outcome)) }
        ensures depths { IfOk result (λ r. is_waiting (result_of r.outcome) ≡ false →
            DepthsComeBack (saved_of self.now).tree (saved_of r.saved).tree) }
    {
        if self.waits {
            return Err(Unplayed::Waits);
        }
        if !counts_on(&self.tree, limit) {
            return Err(Unplayed::CountTooLarge);
        }
        match play(&self.tree, alloc, moves, limit) {
            Ok(replayed) => Ok(replayed),
            Err(_) => Err(Unplayed::Memory),
        }
    }
}

/// Whether the root can be counted so many steps more.
fn counts_on(tree: &Tree, limit: u64) -> bool
    ensures { result ≡ nat_le (root_count tree.now + limit) most_steps }
{
    match steps_of(tree).checked_add(limit) {
        Some(most) => most <= MOST_STEPS,
        None => false,
    }
}

/// How many steps were counted in the root.
fn steps_of(tree: &Tree) -> u64
    ensures { result ≡ root_count tree.now }
{
    match tree.node_at(tree.root()) {
        Some(node) => node.state.count,
        None => unreachable!(),
    }
}

/// Plays moves to a copy of the tree, with at most so many counted steps.
///
/// # Errors
/// Want of memory.
fn play(tree: &Tree, alloc: Global, moves: &[Move], limit: u64) -> Result<Replayed, AllocError>
    ensures reacts { IfOk result
        (λ r. React (language (marks_of tree.now).integers) (tree_of tree.now) (moves_in moves.now)
        limit (result_of r.outcome) (events_of r.outwards.items) (saved_of r.saved).tree) }
    ensures reacts_so { IfOk result
        (λ r. ReactsSo (marks_of tree.now).integers (tree_of tree.now) (moves_in moves.now) limit
        (result_of r.outcome) (events_of r.outwards.items) (saved_of r.saved).tree) }
    ensures style { IfOk result (λ r. (saved_of r.saved).integers ≡ (marks_of tree.now).integers) }
    ensures waits { IfOk result (λ r. (saved_of r.saved).waits ≡ is_waiting (result_of r.outcome)) }
    ensures depths { IfOk result (λ r. is_waiting (result_of r.outcome) ≡ false →
        DepthsComeBack (tree_of tree.now) (saved_of r.saved).tree) }
{
    let mut played = copy_of(tree)?;
    let mut player = Player::new(alloc, moves, limit);
    play_entries(&mut played, alloc, &mut player)?;
    let outcome = player.outcome();
    let (outwards, stood) = player.into_parts();
    let saved = left(played, stood, outcome)?;
    Ok(Replayed {
        outcome,
        outwards,
        saved,
    })
}

/// The same tree again.
fn copy_of(tree: &Tree) -> Result<Tree, AllocError>
    ensures tree { IfOk result (λ made. tree_of made ≡ tree_of tree.now) }
    ensures style { IfOk result (λ made. (marks_of made).integers ≡ (marks_of tree.now).integers) }
{
    match tree.copy_at(&[]) {
        Ok(made) => Ok(made),
        Err(_) => Err(AllocError),
    }
}

/// What is left after moves were played: the tree that stood at the open call, where there is one,
/// or else the tree after all.
///
/// # Errors
/// Want of memory.
fn left(tree: Tree, stood: Option<Tree>, outcome: Outcome) -> Result<Saved, AllocError>
    ensures tree { IfOk result
        (λ made. (o : playing.Player Own) → Stands stood o.fate →
        (saved_of made).tree ≡ tree_left o (tree_of tree)) }
    ensures style { IfOk result (λ made. (saved_of made).integers ≡ (marks_of tree).integers) }
    ensures waits { IfOk result (λ made. (saved_of made).waits ≡ is_waiting (result_of outcome)) }
{
    let waits = matches!(outcome, Outcome::Waiting);
    let Some(waiting) = stood else {
        return Ok(Saved { tree, waits });
    };
    // It is a copy of the tree as it then was, and so of its style.
    if waiting.integers() != tree.integers() {
        return Err(AllocError);
    }
    Ok(Saved {
        tree: waiting,
        waits,
    })
}

/// Plays entry by entry, until the playing is over.
///
/// # Errors
/// Want of memory.
fn play_entries<'a>(
    tree: &mut Tree,
    alloc: Global,
    player: &mut Player<'a>,
) -> Result<(), AllocError>
    ensures lived { OnOk result (Lived (language (marks_of tree.old).integers) (tree_of tree.old)
        (player_of player.old) (tree_of tree.new) (player_of player.new)) }
    ensures over { OnOk result (IsOver (player_of player.new)) }
    ensures marks { OnOk result (marks_of tree.new ≡ marks_of tree.old) }
{
    'entries: loop {
        match player.next_entry(alloc)? {
            Some((target, entry)) => play_entry(tree, alloc, player, target, entry)?,
            None => return Ok(()),
        }
    }
}

/// Plays one entry, which was handed in for the interpreter at the path. Where none is there, the
/// player is told that.
///
/// # Errors
/// Want of memory.
fn play_entry<'a>(
    tree: &mut Tree,
    alloc: Global,
    player: &mut Player<'a>,
    target: Vec<Text>,
    entry: Entry,
) -> Result<(), AllocError>
    ensures plays { OnOk result
        (PlaysEntry (marks_of tree.old).integers (tree_of tree.old) player.old target.items
        (whole_entry entry) (tree_of tree.new) player.new) }
    ensures marks { OnOk result (marks_of tree.new ≡ marks_of tree.old) }
    ensures left { length (player_of player.new).left ≤ length (player_of player.old).left }
{
    let path = target.as_slice();
    match tree.place(path) {
        Some(place) => serve_there(tree, alloc, player, path, place, entry),
        None => miss_entry(tree, alloc, player, path, &entry),
    }
}

/// Plays one entry to the interpreter at the path, which the place names.
///
/// # Errors
/// Want of memory.
fn serve_there<'a>(
    tree: &mut Tree,
    alloc: Global,
    player: &mut Player<'a>,
    path: &[Text],
    place: Place,
    entry: Entry,
) -> Result<(), AllocError>
    requires there { Names tree.old place path.now }
    ensures serves { OnOk result
        (Serves (marks_of tree.old).integers (tree_of tree.old) (player_of player.old) path.now
        (whole_entry entry) (tree_of tree.new) (player_of player.new)) }
    ensures marks { OnOk result (marks_of tree.new ≡ marks_of tree.old) }
    ensures left { length (player_of player.new).left ≤ length (player_of player.old).left }
{
    let ended = enter(tree, alloc, player, path, place, entry);
    if is_want(&ended) {
        return Err(AllocError);
    }
    let done = Happening::EntryDone {
        target: path,
        ended: &ended,
    };
    player.notify(alloc, tree, done)
}

/// Whether an evaluation ended for want of memory.
fn is_want(ended: &Result<Value, Interruption>) -> bool
    ensures { result ≡ wants_memory ended.now }
{
    matches!(ended, Err(Interruption::Memory))
}
