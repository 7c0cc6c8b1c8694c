//! Runs of the moves of an outside: entries that it hands in while no call is open, with a budget
//! of steps beside the limits of the tree.
ghost use Rattle.std.specs.Prelude.{◌≡◌, ◌<◌, ◌≤◌, ◌+◌, Bool, true, false, None, Some, IfErr};
ghost use Rattle.std.specs.Option.{option_map};
ghost use Rattle.std.specs.Prelude.{[], IfNone, IfOk, IfSome, IsErrOf, is_some};
ghost use Rattle.tcl_core.specs.Execution.{event};
ghost use Rattle.tcl_core.specs.Trees as core;
ghost use Rattle.tcl_core.specs.Trees.What.{In};
ghost use Rattle.tcl_eval.specs.Waiting.{ExitOf};
ghost use Rattle.tcl_embed.specs.OpenMoves.{ComesOf, GivesUp, GivesUpIn, GivesUpOn};
ghost use Rattle.tcl_embed.specs.OpenMoves.{IsDenied, IsGivenUp, KeepsCounts, Serves};
ghost use Rattle.tcl_embed.specs.OpenMoves.{by_budget, grants, halt_at, halt_of, hands};
ghost use Rattle.tcl_embed.specs.OpenMoves.{last_end, result_of};
ghost use Rattle.tcl_embed.specs.declared.moves.Outcome.TheVariants.{Denied, Finished};
ghost use Rattle.tcl_eval.specs.Running.{root_count, unfit};
ghost use Rattle.tcl_eval.specs.declared.running.Refused.TheVariants.{Memory};
ghost use Rattle.tcl_run.specs.Language.{language};
ghost use Rattle.tcl_reactions.specs.Moving as moving;
ghost use Rattle.tcl_reactions.specs.Moving.{Lived, Moved};
ghost use Rattle.tcl_run.specs.Entering.{whole_entry};
ghost use Rattle.tcl_run.specs.Runs.{IsLoss, IsSteady, ways};
ghost use Rattle.tcl_tree.specs.Own.{Own};
ghost use Rattle.tcl_tree.specs.TreeOf.{Names, marks_of, tree_of};

use std::alloc::{AllocError, Global};
use tcl_eval::running::{self, Refused};
use tcl_eval::waiting::{enter, miss_entry};
use tcl_run::entry::Entry;
use tcl_run::interruption::{Cause, Interruption};
use tcl_run::outside::{Happening, Outside, Turn};
use tcl_text::text::Text;
use tcl_tree::tree::{Place, Tree};
use tcl_value::value::Value;

/// An outside that hands in entries while no call is open.
pub trait Mover: Outside {
    // whether an entry comes next
    ghost hands_next: { Self → Bool };

    /// The next entry, for the interpreter at a path, or none where no more entries come.
    ///
    /// # Errors
    /// Want of memory.
    fn next_entry(&mut self, alloc: Global) -> Result<Option<(Vec<Text>, Entry)>, AllocError>
        ensures comes { IfOk result
            (λ read. IfSome read (λ x. (T : core.Tree Own) → Self.goes T self.old None
            (event x.0.items (In None (whole_entry x.1))) self.new)) }
        ensures is_next { IfOk result (λ read. is_some read ≡ hands_next self.old) }
        ensures hands { IfOk result (λ read. IfSome read (λ _. Self.hands_in)) }
        ensures none { IfOk result (λ read. IfNone read (self.new ≡ self.old)) }
        ensures fewer { IfOk result
            (λ read. IfSome read
            (λ _. Self.entries_left self.new < Self.entries_left self.old)) }
        // of an entry that finds nobody, and is then given up, nothing was told
        ensures handed { IfOk result (λ read. IfSome read (λ _. Self.loses self.old self.new)) }
        ensures lost { IfErr result (λ _. Self.loses self.old self.new) };
}

/// What came of the moves.
#[derive(Clone, Copy, Debug, Eq, PartialEq)]
pub enum Outcome {
    /// All entries that the outside handed in came to their end.
    Finished,
    /// An entry ended by this exit.
    Exited(i64),
    /// An open call was answered by an end from outside.
    Ended,
    /// A step was to be made, and none was left of the budget.
    Spent,
    /// The outside refused a step for which there was a budget.
    Denied,
}

/// Why a life is over before its last entry came to its end by itself.
#[derive(Clone, Copy)]
enum Halt {
    /// An open call was answered by an end from outside.
    Cuts,
    /// A step was to be made, and none was left.
    Spends,
    /// The outside refused a step.
    Refuses,
}

/// An outside with a budget of steps. Once the life is over, the outside is neither told nor asked,
/// no step is made, and each open call is ended at once.
#[derive(Drop)]
pub struct Budgeted<O> {
    outside: O,
    left: u64,
    halt: Option<Halt>,
}

impl<O: Outside> Budgeted<O> {
    fn new(outside: O, limit: u64) -> Budgeted<O>
        ensures { result ≡ record { outside = outside; left = limit; halt = None } }
    {
        Budgeted {
            outside,
            left: limit,
            halt: None,
        }
    }

    fn into_parts(self) -> (O, Option<Halt>)
        ensures outside { result.0 ≡ self.outside }
        ensures halt { result.1 ≡ self.halt }
    {
        let Budgeted {
            outside,
            left: _,
            halt,
        } = self;
        (outside, halt)
    }
}

/// Why the life is over by what came next to an open call, if it is.
fn halt_at(turn: &Result<Turn, Interruption>) -> Option<Halt>
    ensures { result ≡ halt_at turn.now }
{
    match turn {
        Err(Interruption::Cut(_)) => Some(Halt::Cuts),
        _ => None,
    }
}

#[tactic(auto, using(tcl_run::proofs::Losing::losing))]
impl<O: Outside> Outside for Budgeted<O> {
    ghost goes = { λ T o s ev z. by_budget O.goes T o s ev z };

    ghost loses = { λ o z. IsLoss O.loses o.outside z.outside };

    ghost entries_left = { λ o. O.entries_left o.outside };

    ghost hands_in = { O.hands_in };

    ghost has_steps = { λ o. grants o.halt o.left (O.has_steps o.outside) };

    fn grants_step(&self) -> bool {
        if self.halt.is_some() || self.left == 0 {
            return false;
        }
        self.outside.grants_step()
    }

    fn makes_step(&mut self) {
        self.left -= 1;
        self.outside.makes_step();
    }

    fn refuses_step(&mut self) {
        if self.halt.is_some() {
            return;
        }
        if self.left == 0 {
            self.halt = Some(Halt::Spends);
            return;
        }
        self.outside.refuses_step();
        self.halt = Some(Halt::Refuses);
    }

    fn notify(
        &mut self,
        alloc: Global,
        tree: &Tree,
        happening: Happening<'_>,
    ) -> Result<(), AllocError> {
        if self.halt.is_some() {
            return Ok(());
        }
        self.outside.notify(alloc, tree, happening)
    }

    fn next(
        &mut self,
        alloc: Global,
        tree: &Tree,
        caller: Place,
        up: Option<usize>,
        entry: &Entry,
    ) -> Result<Turn, Interruption> {
        if self.halt.is_some() {
            return Err(Interruption::Cut(Cause::Over));
        }
        let turn = self.outside.next(alloc, tree, caller, up, entry);
        self.halt = halt_at(&turn);
        turn
    }
}

#[tactic(auto, using(tcl_run::proofs::Losing::losing))]
impl<O: Mover> Mover for Budgeted<O> {
    ghost hands_next = { λ o. hands o.halt (O.hands_next o.outside) };

    fn next_entry(&mut self, alloc: Global) -> Result<Option<(Vec<Text>, Entry)>, AllocError> {
        if self.halt.is_some() {
            return Ok(None);
        }
        self.outside.next_entry(alloc)
    }
}

/// Evaluates entry by entry what the outside hands in, for any interpreters of the tree, with at
/// most so many counted steps in all, and tells the outside of all that happens, until no more
/// entries come, one ends by an exit, a step is refused by the budget, or the outside ends it: by
/// how it answers an open call, or by refusing a step. The outside is told of nothing behind that.
///
/// # Errors
/// 402 and 404, which are looked for in this order and change nothing; and 401, since when the tree
/// is broken.
pub fn open_moves<O: Mover>(
    tree: &mut Tree,
    alloc: Global,
    outside: O,
    limit: u64,
) -> (O, Result<Outcome, Refused>)
    ensures refused { IfSome (unfit tree.old [] [] limit) (λ e. result.1 ≡ Err e) }
    ensures unchanged { IfSome (unfit tree.old [] [] limit)
        (λ _. (tree.new ≡ tree.old) × (result.0 ≡ outside)) }
    ensures begun { IfNone (unfit tree.old [] [] limit) (IfErr result.1 (λ e. e ≡ Memory)) }
    ensures broken { IsErrOf result.1 Memory → (marks_of tree.new).broken ≡ true }
    ensures marks { IfOk result.1 (λ _. marks_of tree.new ≡ marks_of tree.old) }
    ensures style { (marks_of tree.new).integers ≡ (marks_of tree.old).integers }
    ensures counted { KeepsCounts tree.old tree.new }
    ensures given_up { IfNone (unfit tree.old [] [] limit)
        (IfErr result.1 (λ _. IsGivenUp (ways O.goes O.loses) (marks_of tree.old).integers
        (tree_of tree.old) outside limit result.0)) }
    ensures moved { IfOk result.1 (λ x. Moved O.goes (language (marks_of tree.old).integers)
        (tree_of tree.old) outside limit (result_of x) (tree_of tree.new) result.0) }
    ensures denied { IfOk result.1
        (λ x. x ≡ Denied → IsDenied O.goes (tree_of tree.old) outside limit result.0) }
    ensures bounded { IfOk result.1 (λ _. root_count tree.new ≤ root_count tree.old + limit) }
    ensures ends { IfOk result.1 (λ x. x ≡ Finished → O.hands_next result.0 ≡ false) }
{
    if let Some(refused) = refusal(tree, limit) {
        return (outside, Err(refused));
    }
    let mut budgeted = Budgeted::new(outside, limit);
    let lived = live_within(tree, alloc, &mut budgeted);
    let (outside, halt) = budgeted.into_parts();
    match lived {
        Ok(exited) => (outside, Ok(outcome_of(halt, exited))),
        Err(_) => {
            tree.mark_broken();
            (outside, Err(Refused::Memory))
        }
    }
}

/// Why such a run would be refused, want of memory aside: as a run of the empty script would be.
fn refusal(tree: &Tree, limit: u64) -> Option<Refused>
    ensures { result ≡ unfit tree.now [] [] limit }
{
    running::refusal(tree, &[], "", limit)
}

/// What came of a life that was over by this, or else ended as its last entry did.
fn outcome_of(halt: Option<Halt>, exited: Option<i64>) -> Outcome
    ensures { result_of result ≡ moving.result_by (option_map halt_of halt) (last_end exited) }
{
    match (halt, exited) {
        (None, None) => Outcome::Finished,
        (None, Some(status)) => Outcome::Exited(status),
        (Some(Halt::Cuts), _) => Outcome::Ended,
        (Some(Halt::Spends), _) => Outcome::Spent,
        (Some(Halt::Refuses), _) => Outcome::Denied,
    }
}

/// The same as `live`, of an outside with a budget.
///
/// # Errors
/// Want of memory.
fn live_within<O: Mover>(
    tree: &mut Tree,
    alloc: Global,
    budgeted: &mut Budgeted<O>,
) -> Result<Option<i64>, AllocError>
    ensures lived { IfOk result
        (λ x. Lived (by_budget O.goes) (language (marks_of tree.old).integers) (tree_of tree.old)
        budgeted.old (tree_of tree.new) budgeted.new (last_end x)) }
    ensures given_up { IfErr result
        (λ _. GivesUp (ways (by_budget O.goes) (λ a b. IsLoss O.loses a.outside b.outside))
        (marks_of tree.old).integers (tree_of tree.old) budgeted.old budgeted.new) }
    ensures ends { IfOk result
        (λ x. x ≡ None → hands budgeted.new.halt (O.hands_next budgeted.new.outside) ≡ false) }
    ensures steady { IsSteady tree.old tree.new }
{
    live(tree, alloc, budgeted)
}

/// Evaluates entry by entry what the outside hands in, until none comes or one ends by an exit,
/// whose status is returned.
///
/// # Errors
/// Want of memory.
fn live<M: Mover>(
    tree: &mut Tree,
    alloc: Global,
    outside: &mut M,
) -> Result<Option<i64>, AllocError>
    ensures lived { IfOk result
        (λ x. Lived M.goes (language (marks_of tree.old).integers) (tree_of tree.old) outside.old
        (tree_of tree.new) outside.new (last_end x)) }
    ensures given_up { IfErr result
        (λ _. GivesUp (ways M.goes M.loses) (marks_of tree.old).integers (tree_of tree.old)
        outside.old outside.new) }
    ensures ends { IfOk result (λ x. x ≡ None → M.hands_next outside.new ≡ false) }
    ensures steady { IsSteady tree.old tree.new }
{
    'entries: loop {
        match outside.next_entry(alloc)? {
            Some((target, entry)) => {
                let exited = live_through(tree, alloc, outside, target, entry)?;
                if exited.is_some() {
                    return Ok(exited);
                }
            }
            None => return Ok(None),
        }
    }
}

/// Evaluates one entry, which was handed in for the interpreter at the path, and tells the outside
/// how it ended, or that nobody is there. The status, where it ended by an exit.
///
/// # Errors
/// Want of memory.
fn live_through<M: Mover>(
    tree: &mut Tree,
    alloc: Global,
    outside: &mut M,
    target: Vec<Text>,
    entry: Entry,
) -> Result<Option<i64>, AllocError>
    requires hands { M.hands_in }
    ensures comes { IfOk result
        (λ x. ComesOf M.goes (marks_of tree.old).integers (tree_of tree.old) outside.old
        target.items (whole_entry entry) (tree_of tree.new) outside.new (last_end x)) }
    ensures given_up { IfErr result
        (λ _. GivesUpOn (ways M.goes M.loses) (marks_of tree.old).integers (tree_of tree.old)
        outside.old target.items (whole_entry entry) outside.new) }
    ensures steady { IsSteady tree.old tree.new }
    ensures left { M.entries_left outside.new ≤ M.entries_left outside.old }
{
    let path = target.as_slice();
    let Some(place) = tree.place(path) else {
        miss_entry(tree, alloc, outside, path, &entry)?;
        return Ok(None);
    };
    live_in(tree, alloc, outside, path, place, entry)
}

/// Evaluates one entry for the interpreter at the path, which the place names, and tells the
/// outside how it ended. The status, where that was an exit.
///
/// # Errors
/// Want of memory.
fn live_in<M: Mover>(
    tree: &mut Tree,
    alloc: Global,
    outside: &mut M,
    path: &[Text],
    place: Place,
    entry: Entry,
) -> Result<Option<i64>, AllocError>
    requires there { Names tree.old place path.now }
    ensures serves { IfOk result
        (λ x. Serves M.goes (marks_of tree.old).integers (tree_of tree.old) outside.old path.now
        (whole_entry entry) (tree_of tree.new) outside.new (last_end x)) }
    ensures given_up { IfErr result
        (λ _. GivesUpIn (ways M.goes M.loses) (marks_of tree.old).integers (tree_of tree.old)
        outside.old path.now (whole_entry entry) outside.new) }
    ensures steady { IsSteady tree.old tree.new }
    ensures left { M.entries_left outside.new ≤ M.entries_left outside.old }
{
    let ended = enter(tree, alloc, outside, path, place, entry);
    let done = Happening::EntryDone {
        target: path,
        ended: &ended,
    };
    outside.notify(alloc, tree, done)?;
    exit_of(&ended)
}

/// The status of the exit by which an entry ended, where it did.
fn exit_of(ended: &Result<Value, Interruption>) -> Result<Option<i64>, AllocError>
    ensures { IfOk result (λ status. ExitOf ended.now status) }
{
    match ended {
        Err(Interruption::Exited(status)) => Ok(Some(*status)),
        Err(Interruption::Memory) => Err(AllocError),
        _ => Ok(None),
    }
}
