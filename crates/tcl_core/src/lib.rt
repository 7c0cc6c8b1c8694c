//! The core of a tree of interpreters: its definitions stand in `specs/`, and each function here is
//! a law. `O` is the own part of an interpreter, `I` what can be going on in one; each law holds
//! for every table of commands.
#![tactic(auto)]

ghost use Rattle.tcl_core.specs.Deletion.{WorkedDeletion};
ghost use Rattle.tcl_core.specs.Example.{WorkedLife, WorkedReactions, WorkedUnfound};
ghost use Rattle.tcl_core.specs.Laws.{AllAgree, Bounded, Counting, Determinism, Disciplined};
ghost use Rattle.tcl_core.specs.Laws.{GoneIsDropped, Happenings, Inner, Isolation};
ghost use Rattle.tcl_core.specs.Laws.{IsolationToDrop, IsolationUntil, Limiting, LimitsKept};
ghost use Rattle.tcl_core.specs.Laws.{LivesWithin, Moments, MoreMoves, NonInterference};
ghost use Rattle.tcl_core.specs.Laws.{NoRequests, OneReaction, Passing, QuietOutside, Steady};
ghost use Rattle.tcl_core.specs.Laws.{Stopping, TwoWorlds, Untouched};
ghost use Rattle.tcl_core.specs.Meaning.{RulesAreRuns, ExecutionsAreRuns, Unrolling};

/// A run is what `Unrolled` says of runs.
pub fn unrolling<O, I>()
    ensures { Unrolling O I }
{}

/// The rules say what a run is.
pub fn rules_are_runs<O, I>()
    ensures { RulesAreRuns O I }
{}

/// What code executes is a run over the tape of what happened.
pub fn executions_are_runs<O, I, S>()
    ensures { ExecutionsAreRuns O I S }
{}

/// From the same tree, with the same handed in, the same happens.
pub fn determinism<O, I>()
    ensures { Determinism O I }
{}

/// A subtree's life is that of a tree of its own, to which the crossings into it are handed in.
pub fn lives_within<O, I>()
    ensures { LivesWithin O I }
{}

/// Two lives in which a subtree is the same at first, and is handed the same, are the same in it.
pub fn non_interference<O, I>()
    ensures { NonInterference O I }
{}

/// After any happenings the subtree at a place is as those in it leave it.
pub fn moments<O>()
    ensures { Moments O }
{}

/// A call within the tree reads no move.
pub fn inner<O>()
    ensures { Inner O }
{}

/// What is handed in after a run is not looked at.
pub fn more_moves<O, I>()
    ensures { MoreMoves O I }
{}

/// A run is what it makes happen, and its tree is what that leaves.
pub fn happenings<O, I>()
    ensures { Happenings O I }
{}

/// An interpreter's count rises by the steps that are made in its subtree.
pub fn counting<O, I>()
    ensures { Counting O I }
{}

/// With a limit that nobody raises or takes away, a count ends at most at the greater of the limit
/// and the count before.
pub fn limiting<O, I>()
    ensures { Limiting O I }
{}

/// What an evaluation anywhere in the tree does in a subtree is what that subtree alone does with
/// the crossings into it.
pub fn isolation<O, I>()
    ensures { Isolation O I }
{}

/// Where a tree by itself stops by itself, that is all that it does with these moves and this
/// budget.
pub fn one_reaction<O, I>()
    ensures { OneReaction O I }
{}

/// Where an entry is ended from outside, what is told before that is a beginning of what the
/// subtree alone tells.
pub fn isolation_until<O, I>()
    ensures { IsolationUntil O I }
{}

/// Up to where a subtree is dropped, what is done in it is what it does alone with the crossings
/// into it until then.
pub fn isolation_to_drop<O, I>()
    ensures { IsolationToDrop O I }
{}

/// From an entry into a subtree to the next call or end that leaves it, nothing outside it changes.
pub fn quiet_outside<O, I>()
    ensures { QuietOutside O I }
{}

/// Where an evaluation is in a subtree and nobody there calls outside it, all outside it is
/// afterwards what it was.
pub fn untouched<O, I>()
    ensures { Untouched O I }
{}

/// Once a stop that names an interpreter or one above it is raised in its subtree or comes into it,
/// no step is made there before it has left.
pub fn stopping<O, I>()
    ensures { Stopping O I }
{}

/// What a safe subtree whose commands keep a discipline does keeps it, where what is handed in
/// does.
pub fn disciplined<O, I>()
    ensures { Disciplined O I }
{}

/// After a run each depth is what it was, and what was in use still stands.
pub fn steady<O, I>()
    ensures { Steady O I }
{}

/// Who is gone after a run is who was dropped in it, and the depths that are left tell it.
pub fn gone_is_dropped<O, I>()
    ensures { GoneIsDropped O I }
{}

/// A safe interpreter in whose subtree nobody has a host command asks the host for nothing, where
/// nobody exposes one from outside.
pub fn no_requests<O, I>()
    ensures { NoRequests O I }
{}

/// In the subtree of a safe interpreter no script changes a limit.
pub fn limits_kept<O, I>()
    ensures { LimitsKept O I }
{}

/// Two worlds in which a subtree is the same, and is first handed the same: the same happens there
/// up to the first move that differs.
pub fn two_worlds<O, I>()
    ensures { TwoWorlds O I }
{}

/// Two worlds in which a subtree is the same, and is handed the same: all that happens there is the
/// same, and what is left.
pub fn all_agree<O, I>()
    ensures { AllAgree O I }
{}

/// Under a budget no more steps are made than it has.
pub fn bounded<O, I>()
    ensures { Bounded O I }
{}

/// Where an act, an inner evaluation or a call ends by a stop, an exit or from outside, the whole
/// ends by it: no program goes on after one.
pub fn passing<O, I>()
    ensures { Passing O I }
{}

/// A worked life: what it does, and what it is to the child in it.
pub fn worked_life()
    ensures { WorkedLife }
{}

/// What the child of that life does by itself, with a budget that is enough, with none, and handed
/// what it did not ask for.
pub fn worked_reactions()
    ensures { WorkedReactions }
{}

/// A worked life in which an entry from outside finds nobody.
pub fn worked_unfound()
    ensures { WorkedUnfound }
{}

/// Worked lives in which an interpreter is deleted while it is in use.
pub fn worked_deletion()
    ensures { WorkedDeletion }
{}
