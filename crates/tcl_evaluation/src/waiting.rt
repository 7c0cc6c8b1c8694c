//! Waiting for what stands outside of the tree, and what it hands in meanwhile.
ghost use Rattle.std.specs.Prelude.{◌≡◌, ◌≤◌, ℕ, None, Some, Ok, IfErr, IfOk, OnOk};
ghost use Rattle.tcl_core.specs.Endings.Reply.{Completed};
ghost use Rattle.tcl_core.specs.Paths.{Path, rise_to};
ghost use Rattle.tcl_core.specs.Runs.{gone};
ghost use Rattle.tcl_flow.specs.declared.stop.StopKind.TheVariants.{Gone};
ghost use Rattle.tcl_language.specs.Interpreters as interpreters;
ghost use Rattle.tcl_run.specs.Ends.{OnCompletion, Says};
ghost use Rattle.tcl_run.specs.Entering.{whole_entry};
ghost use Rattle.tcl_run.specs.Outsides.{IsAsked};
ghost use Rattle.tcl_run.specs.Runs.{IsHere, IsLoss, IsRunning, Keeps, ways};
ghost use Rattle.tcl_run.specs.declared.interruption.Interruption.TheVariants.{Stopped};
ghost use Rattle.tcl_tree.specs.Gone.{Holds};
ghost use Rattle.tcl_tree.specs.TreeOf.{tree_of, Names};
ghost use Rattle.tcl_evaluation.specs.Waiting.{EndsEntry, ExitOf, HandsIn, IsAnswer};
ghost use Rattle.tcl_evaluation.specs.Waiting.{IsNoCompletion, MissesEntry, Waits, told_next};

use crate::crossing::serve_entry;
use std::alloc::{AllocError, Global};
use tcl_flow::stop::{Stop, StopKind};
use tcl_host::reply::HostReply;
use tcl_run::entry::Entry;
use tcl_run::failure::nobody_at;
use tcl_run::interruption::Interruption;
use tcl_run::outside::{Happening, Outside, Turn};
use tcl_text::text::Text;
use tcl_tree::tree::{Place, Tree};
use tcl_value::value::Value;

/// What is said to a call that passed the top of its tree.
#[derive(Drop)]
pub enum Said {
    /// That it completed by an ordinary result.
    Completed(Value),
    /// What the host replies to a request.
    Heard(HostReply),
    /// That nobody is there who could answer it.
    Missed,
}

/// The stop of an evaluation whose interpreter is gone, the highest that is so many levels up.
fn gone_stop(levels_up: usize) -> Interruption
    ensures { result ≡ Stopped (record { levels_up = levels_up; kind = Gone }) }
{
    Interruption::Stopped(Stop {
        levels_up,
        kind: StopKind::Gone,
    })
}

/// What a caller that is gone is told for an answer that isn't an entry, the highest that is gone
/// being so many levels up.
fn turn_for_gone(levels_up: usize, turn: Turn) -> Result<Turn, Interruption>
    ensures { result ≡ told_next (Some levels_up) (Ok turn) }
{
    if let Turn::Entry(_, _) = &turn {
        return Ok(turn);
    }
    Err(gone_stop(levels_up))
}

/// What a caller is told for what comes next to its call: one that is gone is told of no
/// completion, of no word of the host, and not that nobody is there.
///
/// # Errors
/// How the call ended otherwise than by an ordinary result; that the caller is gone, in place of
/// what it can't be told; want of memory.
fn told_next(
    tree: &Tree,
    caller: Place,
    next: Result<Turn, Interruption>,
) -> Result<Turn, Interruption>
    requires { (p : Path) × (d : ℕ) × Holds tree.now caller p d }
    ensures { (p : Path) (d : ℕ) → Holds tree.now caller p d →
        result ≡ told_next (gone d (tree_of tree.now) p) next }
{
    let Some(levels_up) = tree.is_gone(caller) else {
        return next;
    };
    match next {
        Ok(turn) => turn_for_gone(levels_up, turn),
        Err(Interruption::Completed(_)) => Err(gone_stop(levels_up)),
        other => other,
    }
}

/// Waits for the answer to the caller's call, which passed the top of the tree, and lets the
/// interpreters do what they are asked for meanwhile. A caller that is gone by the time of an
/// answer is told of no completion, and of no word of the host.
///
/// # Errors
/// How the call ended otherwise than by an ordinary result; that the caller is gone, in place of
/// what it can't be told; an exit of what was handed in; want of memory.
#[cycle(eval)]
#[inline(never)]
pub fn wait<O: Outside>(
    tree: &mut Tree,
    alloc: Global,
    outside: &mut O,
    place: Place,
    up: Option<usize>,
    entry: &Entry,
) -> Result<Said, Interruption>
    requires running { IsRunning tree.old place }
    requires above { (p : Path) → Names tree.old place p → rise_to up p ≡ None }
    requires asked { IsAsked up (whole_entry entry.now) }
    ensures runs { Waits (ways O.goes O.loses) tree.old outside.old place up
        (whole_entry entry.now) tree.new
        outside.new result }
    ensures own { IfOk result (λ said. IsAnswer up (whole_entry entry.now) said) }
    ensures here { OnCompletion result (IsHere tree.old tree.new place) }
    ensures keeps { Keeps O.entries_left tree.old tree.new outside.old outside.new }
{
    'turns: loop {
        let coming = outside.next(alloc, tree, place, up, entry);
        match told_next(tree, place, coming)? {
            Turn::Entry(target, inner) => {
                hand_in(tree, alloc, outside, place, up, entry, target, inner)?;
            }
            Turn::Completed(value) => return Ok(Said::Completed(value)),
            Turn::Heard(reply) => return Ok(Said::Heard(reply)),
            Turn::Nobody => return Ok(Said::Missed),
        }
    }
}

/// Lets the interpreter at the path do what it is asked for from outside of the tree, while a call
/// is open. Where none is there, the outside is told that.
///
/// # Errors
/// An exit, by which the call ends too; want of memory.
#[cycle(eval)]
#[inline(never)]
fn hand_in<O: Outside>(
    tree: &mut Tree,
    alloc: Global,
    outside: &mut O,
    place: Place,
    up: Option<usize>,
    entry: &Entry,
    target: Vec<Text>,
    inner: Entry,
) -> Result<(), Interruption>
    requires handed { O.hands_in }
    ensures runs { HandsIn (ways O.goes O.loses) tree.old outside.old place up
        (whole_entry entry.now)
        target.items (whole_entry inner) tree.new outside.new result }
    ensures quits { IfErr result IsNoCompletion }
    ensures keeps { Keeps O.entries_left tree.old tree.new outside.old outside.new }
{
    let path = target.as_slice();
    match tree.place(path) {
        Some(there) => hand_to(tree, alloc, outside, place, up, entry, path, there, inner),
        None => {
            miss_entry(tree, alloc, outside, path, &inner)?;
            Ok(())
        }
    }
}

/// Lets the interpreter at the path, which the second place names, do what it is asked for from
/// outside of the tree, while a call is open.
///
/// # Errors
/// An exit, by which the call ends too; want of memory.
#[cycle(eval)]
#[inline(never)]
fn hand_to<O: Outside>(
    tree: &mut Tree,
    alloc: Global,
    outside: &mut O,
    place: Place,
    up: Option<usize>,
    entry: &Entry,
    path: &[Text],
    there: Place,
    inner: Entry,
) -> Result<(), Interruption>
    requires handed { O.hands_in }
    requires there { Names tree.old there path.now }
    ensures runs { HandsIn (ways O.goes O.loses) tree.old outside.old place up
        (whole_entry entry.now)
        path.now (whole_entry inner) tree.new outside.new result }
    ensures quits { IfErr result IsNoCompletion }
    ensures keeps { Keeps O.entries_left tree.old tree.new outside.old outside.new }
{
    let ended = enter(tree, alloc, outside, path, there, inner);
    let done = Happening::EntryDone {
        target: path,
        ended: &ended,
    };
    outside.notify(alloc, tree, done)?;
    let Some(status) = exit_of(&ended)? else {
        return Ok(());
    };
    let exit = Happening::ExitCameBack {
        caller: place,
        up,
        entry,
        status,
    };
    outside.notify(alloc, tree, exit)?;
    Err(Interruption::Exited(status))
}

/// What an entry is told that finds nobody at its path.
///
/// # Errors
/// Want of memory.
fn nobody_told(alloc: Global, path: &[Text]) -> Result<Interruption, AllocError>
    ensures { IfOk result (λ i. Says i (λ e. e ≡ Completed (interpreters.nobody_at path.now))) }
{
    match nobody_at(alloc, path) {
        Interruption::Completed(completion) => Ok(Interruption::Completed(completion)),
        _other => Err(AllocError),
    }
}

/// Tells the outside that an entry, which it handed in for the path, found nobody there.
///
/// # Errors
/// Want of memory.
#[inline(never)]
#[tactic(auto, using(tcl_run::proofs::Losing::losing))]
pub fn miss_entry<O: Outside>(
    tree: &Tree,
    alloc: Global,
    outside: &mut O,
    path: &[Text],
    inner: &Entry,
) -> Result<(), AllocError>
    requires handed { O.hands_in }
    requires missing { tree_of tree.now path.now ≡ None }
    ensures misses { OnOk result (MissesEntry O.goes tree.now outside.old path.now
        (whole_entry inner.now) outside.new) }
    ensures lost { IsLoss O.loses outside.old outside.new }
    ensures left { O.entries_left outside.new ≤ O.entries_left outside.old }
{
    let told = Err(nobody_told(alloc, path)?);
    let unfound = Happening::Unfound {
        target: path,
        entry: inner,
        told: &told,
    };
    outside.notify(alloc, tree, unfound)
}

/// The status by which the run ended, where it did.
fn exit_of(ended: &Result<Value, Interruption>) -> Result<Option<i64>, AllocError>
    ensures { IfOk result (λ status. ExitOf ended.now status) }
{
    match ended {
        Err(Interruption::Exited(status)) => Ok(Some(*status)),
        Err(Interruption::Memory) => Err(AllocError),
        _ => Ok(None),
    }
}

/// Lets the interpreter at the path, which the place names, do what it is asked for from outside of
/// the tree.
///
/// # Errors
/// Those of the entry; want of memory.
#[cycle(eval)]
#[inline(never)]
pub fn enter<O: Outside>(
    tree: &mut Tree,
    alloc: Global,
    outside: &mut O,
    target: &[Text],
    place: Place,
    entry: Entry,
) -> Result<Value, Interruption>
    requires { Names tree.old place target.now }
    ensures runs { EndsEntry (ways O.goes O.loses) tree.old outside.old target.now
        (whole_entry entry) tree.new
        outside.new result }
    ensures here { OnCompletion result (IsHere tree.old tree.new place) }
    ensures keeps { Keeps O.entries_left tree.old tree.new outside.old outside.new }
{
    serve_entry(tree, alloc, outside, place, entry)
}
