//! Who plays moves to a tree by itself.
ghost use Rattle.std.specs.Prelude.{◌≡◌, ℕ, ◌<◌, ◌≤◌, length, None, Some, IfNone, IfOk, IfSome};
ghost use Rattle.std.specs.Prelude.{OnOk};
ghost use Rattle.tcl_core.specs.Endings.Reply.{Exit};
ghost use Rattle.tcl_core.specs.Entries.Answer.{Replied};
ghost use Rattle.tcl_core.specs.Lives.{outcome_of};
ghost use Rattle.tcl_core.specs.Lives.Outcome.{Finished};
ghost use Rattle.tcl_core.specs.Execution.{event};
ghost use Rattle.tcl_core.specs.Paths.{Path, rise_to};
ghost use Rattle.tcl_core.specs.Runs as runs;
ghost use Rattle.tcl_core.specs.Trees as core;
ghost use Rattle.tcl_core.specs.Trees.What.{Back, Done, Out};
ghost use Rattle.tcl_player.specs.Moves.{move_of};
ghost use Rattle.tcl_player.specs.Answering.{IsKnown, cuts_off, fits_call, last_outcome};
ghost use Rattle.tcl_reactions.specs.Playing as playing;
ghost use Rattle.tcl_run.specs.Ends.{IfEnded};
ghost use Rattle.tcl_run.specs.Entering.{whole_entry};
ghost use Rattle.tcl_tree.specs.Own.{Own};
ghost use Rattle.tcl_tree.specs.TreeOf.{Names, tree_of};
ghost use Rattle.tcl_recorder.specs.Crossings.{events_of};

use crate::answers::{answers_call, cuts, exits, turn_of};
use crate::moves::Move;
use crate::telling::{end_told, exit_of};
use std::alloc::{AllocError, Global};
use tcl_recorder::crossing::Crossing;
use tcl_run::entry::Entry;
use tcl_run::interruption::{Cause, Interruption};
use tcl_run::outside::{Happening, Outside, Turn};
use tcl_text::text::Text;
use tcl_tree::tree::{Place, Tree};
use tcl_value::value::Value;

/// Why a playing is over before its last entry came to its end.
#[derive(Drop)]
pub enum Fate {
    /// All moves were read, and a call was open: the tree as it stood at that call.
    Waits(Tree),
    /// The next move didn't fit the open call.
    Unfits,
    /// The open call was answered by an end from outside.
    EndsAbove,
    /// A step was to be made, and none was left.
    Spends,
}

/// What comes of moves that are played.
#[derive(Clone, Copy, Debug, PartialEq, Eq)]
pub enum Outcome {
    /// All moves were used, and no call is open.
    Finished,
    /// All moves were used, and a call is open.
    Waiting,
    /// An open call was answered by an end from outside.
    Ended,
    /// An entry from outside ended by this exit.
    Exited(i64),
    /// The budget refused the next step.
    Spent,
    /// A move didn't fit: an answer where no call was open, or what doesn't answer the open call.
    Misfit,
}

/// Who plays moves to a tree, with so many counted steps, and keeps what the tree tells.
#[derive(Drop)]
pub struct Player<'a> {
    left: &'a [Move],
    steps: u64,
    outs: Vec<Crossing>,
    /// The status of the exit by which the last entry ended, if it did.
    exited: Option<i64>,
    fate: Option<Fate>,
    ghost last: { outcome_of (events_of outs.items) Finished ≡ last_outcome exited },
}

/// The same tree again.
fn copy_of(tree: &Tree) -> Result<Tree, AllocError>
    ensures { IfOk result (λ made. tree_of made ≡ tree_of tree.now) }
{
    match tree.copy_at(&[]) {
        Ok(made) => Ok(made),
        Err(_) => Err(AllocError),
    }
}

/// Whether a move suits the call that goes so many levels up, or to the host, where its caller is
/// gone so many levels up or stands, and the last entry ended by this exit or otherwise.
fn suits(
    exited: Option<i64>,
    gone: Option<usize>,
    up: Option<usize>,
    entry: &Entry,
    next: &Move,
) -> bool
    ensures { result
        ≡ fits_call (last_outcome exited) gone up (whole_entry entry.now) (move_of next.now) }
{
    match next {
        Move::Enter { .. } => exited.is_none(),
        Move::Come(answer) => match exited {
            Some(status) => exits(status, answer),
            None => answers_call(gone, up, entry, answer),
        },
    }
}

/// Whether a move is an end from outside.
fn ends_above(next: &Move) -> bool
    ensures { result ≡ cuts_off (move_of next.now) }
{
    match next {
        Move::Enter { .. } => false,
        Move::Come(answer) => cuts(answer),
    }
}

impl<'a> Player<'a> {
    ghost use Rattle.tcl_player.specs.Moves.{moves_in};
    ghost use Rattle.tcl_player.specs.Players.{Begins, GoesOn, IsAtEnd, IsOverBy, Stands};
    ghost use Rattle.tcl_player.specs.Players.{played, player_of, result_of};

    /// Who is to play these moves, with so many counted steps.
    pub fn new(alloc: Global, moves: &'a [Move], steps: u64) -> Player<'a>
        ensures { player_of result ≡ playing.beginner (moves_in moves.now) steps }
    {
        Player {
            left: moves,
            steps,
            outs: Vec::new(alloc),
            exited: None,
            fate: None,
        }
    }

    /// The next entry, where the playing goes on: the last one came to its end, and not by an exit,
    /// and an entry comes next. Between two entries no call is open.
    ///
    /// # Errors
    /// Want of memory.
    pub fn next_entry(&mut self, alloc: Global) -> Result<Option<(Vec<Text>, Entry)>, AllocError>
        ensures begins { IfOk result
            (λ read. IfSome read (λ x. Begins (player_of self.old) x.0.items (whole_entry x.1)
            (player_of self.new))) }
        ensures ends { IfOk result
            (λ read. IfNone read (IsAtEnd (player_of self.old) (player_of self.new))) }
        ensures fewer { IfOk result
            (λ read. IfSome read (λ _. length (player_of self.new).left < length
            (player_of self.old).left)) }
    {
        if self.fate.is_some() || self.exited.is_some() {
            return Ok(None);
        }
        let left = self.left;
        match left.split_first() {
            Some((Move::Enter { target, entry }, later)) => {
                let target = Vec::from_clones(alloc, target.as_slice())?;
                let entry = entry.copy(alloc)?;
                self.left = later;
                Ok(Some((target, entry)))
            }
            _ => Ok(None),
        }
    }

    /// What came of the moves, once no entry comes next.
    pub fn outcome(&self) -> Outcome
        ensures { result_of result ≡ playing.outcome (player_of self.now) }
    {
        match &self.fate {
            Some(Fate::Waits(_)) => Outcome::Waiting,
            Some(Fate::Unfits) => Outcome::Misfit,
            Some(Fate::EndsAbove) => Outcome::Ended,
            Some(Fate::Spends) => Outcome::Spent,
            None => match self.exited {
                Some(status) => Outcome::Exited(status),
                None if self.left.is_empty() => Outcome::Finished,
                None => Outcome::Misfit,
            },
        }
    }

    /// What the tree told, in order, and the tree as it stood at the open call, where the playing
    /// waits at one.
    pub fn into_parts(self) -> (Vec<Crossing>, Option<Tree>)
        ensures outs { events_of result.0.items ≡ (player_of self.entry).outs }
        ensures stands { Stands result.1 (player_of self.entry).fate }
    {
        let Player { outs, fate, .. } = self;
        match fate {
            Some(Fate::Waits(tree)) => (outs, Some(tree)),
            _ => (outs, None),
        }
    }

    /// Reads the next move, where a call is open that goes so many levels up, or to the host, and
    /// whose caller is gone so many levels up or stands. None where the playing is over.
    ///
    /// # Errors
    /// Want of memory.
    fn read_on(
        &mut self,
        tree: &Tree,
        gone: Option<usize>,
        up: Option<usize>,
        entry: &Entry,
    ) -> Result<Option<&'a Move>, AllocError>
        ensures reads { IfOk result
            (λ read. IfSome read (λ m. (p : Path) (d : ℕ) →
            IsKnown self.old.exited gone (runs.gone d (tree_of tree.now) p) →
            GoesOn (tree_of tree.now) p d (player_of self.old) up (whole_entry entry.now)
            (move_of m.now) (player_of self.new))) }
        ensures over { IfOk result
            (λ read. IfNone read ((p : Path) (d : ℕ) →
            IsKnown self.old.exited gone (runs.gone d (tree_of tree.now) p) →
            IsOverBy (tree_of tree.now) p d (player_of self.old) up (whole_entry entry.now)
            (player_of self.new))) }
        ensures fewer { IfOk result
            (λ read. IfSome read (λ m. length (player_of self.new).left < length
            (player_of self.old).left)) }
        ensures left { length (player_of self.new).left ≤ length (player_of self.old).left }
    {
        if self.fate.is_some() {
            return Ok(None);
        }
        let left = self.left;
        let Some((first, later)) = left.split_first() else {
            self.fate = Some(Fate::Waits(copy_of(tree)?));
            return Ok(None);
        };
        if !suits(self.exited, gone, up, entry, first) {
            self.fate = Some(Fate::Unfits);
            return Ok(None);
        }
        self.left = later;
        if ends_above(first) {
            self.fate = Some(Fate::EndsAbove);
            return Ok(None);
        }
        Ok(Some(first))
    }

    /// The interpreter that the place names calls past the top of the tree, which is told unless
    /// the playing is over.
    ///
    /// # Errors
    /// Want of memory.
    fn call_goes(
        &mut self,
        alloc: Global,
        tree: &Tree,
        caller: Place,
        up: Option<usize>,
        down: &[Text],
        entry: &Entry,
    ) -> Result<(), AllocError>
        ensures told { OnOk result ((p : Path) → Names tree.now caller p → rise_to up p ≡ None →
            played (tree_of tree.now) self.old None
            (event p (Out up down.now (whole_entry entry.now))) self.new) }
        ensures left { length (player_of self.new).left ≤ length (player_of self.old).left }
    {
        if self.fate.is_some() {
            return Ok(());
        }
        let call = Crossing::Out {
            caller: tree.path_of(alloc, caller)?,
            up,
            down: Vec::from_clones(alloc, down)?,
            entry: entry.copy(alloc)?,
        };
        self.outs.push(call)?;
        Ok(())
    }

    /// The last entry ended so at the path, which is told unless the playing is over.
    ///
    /// # Errors
    /// Want of memory.
    fn entry_ends(
        &mut self,
        alloc: Global,
        target: &[Text],
        ended: &Result<Value, Interruption>,
    ) -> Result<(), AllocError>
        ensures told { OnOk result ((T : core.Tree Own) → IfEnded ended.now
            (λ r. played T self.old None (event target.now (Done None r)) self.new)) }
        ensures left { length (player_of self.new).left ≤ length (player_of self.old).left }
    {
        if self.fate.is_some() {
            return Ok(());
        }
        let reply = end_told(ended)?;
        let exited = exit_of(&reply);
        self.outs.push(Crossing::Done {
            target: Vec::from_clones(alloc, target)?,
            reply,
        })?;
        self.exited = exited;
        Ok(())
    }

    /// The last entry ended by this exit. So what comes next to the open call is that exit, or the
    /// playing is over: nothing else suits, whether its caller is gone or not.
    ///
    /// # Errors
    /// Want of memory.
    fn exit_comes(
        &mut self,
        tree: &Tree,
        up: Option<usize>,
        entry: &Entry,
        status: i64,
    ) -> Result<(), AllocError>
        ensures told { OnOk result ((p : Path) (d : ℕ) → rise_to up p ≡ None →
            played (tree_of tree.now) self.old (Some (up, whole_entry entry.now, d))
            (event p (Back up (Replied (Exit status)))) self.new) }
        ensures left { length (player_of self.new).left ≤ length (player_of self.old).left }
    {
        if self.fate.is_some() {
            return Ok(());
        }
        // (As long as the playing goes on, each exit of an entry is kept.)
        if self.exited.is_none() {
            return Err(AllocError);
        }
        match self.read_on(tree, None, up, entry)? {
            None => Ok(()),
            Some(Move::Come(answer)) if exits(status, answer) => Ok(()),
            Some(_) => Err(AllocError),
        }
    }
}

impl<'a> Outside for Player<'a> {
    ghost use Rattle.tcl_player.specs.Answering.{pays_on};
    ghost use Rattle.tcl_player.specs.Players.{played, player_of};

    ghost goes = { λ T o s ev z. played T o s ev z };

    // what is played until an evaluation is given up is not spoken of
    ghost loses = { λ o z. Unit {0} };

    ghost entries_left = { λ o. length (player_of o).left };

    ghost hands_in = { Unit {0} };

    ghost has_steps = { λ o. pays_on (player_of o).fate (player_of o).steps };

    fn grants_step(&self) -> bool {
        self.fate.is_none() && self.steps > 0
    }

    fn makes_step(&mut self) {
        self.steps -= 1;
    }

    fn refuses_step(&mut self) {
        if self.fate.is_none() {
            self.fate = Some(Fate::Spends);
        }
    }

    fn notify(
        &mut self,
        alloc: Global,
        tree: &Tree,
        happening: Happening<'_>,
    ) -> Result<(), AllocError> {
        match happening {
            Happening::PassedTop {
                caller,
                up,
                down,
                entry,
            } => self.call_goes(alloc, tree, caller, up, down, entry),
            Happening::EntryDone { target, ended } => self.entry_ends(alloc, target, ended),
            Happening::Unfound { target, told, .. } => self.entry_ends(alloc, target, told),
            Happening::ExitCameBack {
                up,
                entry,
                status,
                ..
            } => self.exit_comes(tree, up, entry, status),
            _ => Ok(()),
        }
    }

    fn next(
        &mut self,
        alloc: Global,
        tree: &Tree,
        caller: Place,
        up: Option<usize>,
        entry: &Entry,
    ) -> Result<Turn, Interruption> {
        let gone = tree.is_gone(caller);
        match self.read_on(tree, gone, up, entry)? {
            Some(Move::Enter { target, entry }) => Ok(Turn::Entry(
                Vec::from_clones(alloc, target.as_slice())?,
                entry.copy(alloc)?,
            )),
            Some(Move::Come(answer)) => turn_of(alloc, answer),
            None => Err(Interruption::Cut(Cause::Over)),
        }
    }
}
