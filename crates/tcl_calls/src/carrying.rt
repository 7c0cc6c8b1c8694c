//! Calls that cross to another interpreter: their words, and how their ends are told to the caller.
ghost use Rattle.std.specs.Prelude.{◌≡◌, ℕ, ◌≤◌, Some, None, IfOk, IfSome, IfNone};
ghost use Rattle.std.specs.Prelude.{MatchOption};
ghost use Rattle.tcl_core.specs.Endings.{Reply};
ghost use Rattle.tcl_core.specs.Endings.Reply.{Completed};
ghost use Rattle.tcl_core.specs.Paths.{Path, rise_to};
ghost use Rattle.tcl_core.specs.Runs as core;
ghost use Rattle.tcl_core.specs.Runs.{carried, carried_by, gone};
ghost use Rattle.tcl_flow.specs.Stopping.{reply_of};
ghost use Rattle.tcl_language.specs.Faults as faults;
ghost use Rattle.tcl_language.specs.Table.{some_words};
ghost use Rattle.tcl_run.specs.Ends.{Completes, IfEnded, Interrupts, OnCompletion, failing};
ghost use Rattle.tcl_run.specs.Runs.{IsLoss};
ghost use Rattle.tcl_tree.specs.Gone.{Holds};
ghost use Rattle.tcl_tree.specs.TreeOf.{tree_of};
ghost use Rattle.tcl_flow.specs.declared.stop.StopKind.TheVariants.{Gone};
ghost use Rattle.tcl_run.specs.declared.interruption.Interruption.TheVariants.{Memory, Stopped};
ghost use Rattle.tcl_calls.specs.Carrying.{ComesBack, EndedBy, IsStanding, Settles};

use std::alloc::{AllocError, Global};
use tcl_flow::completion::settle;
use tcl_flow::stop::{Stop, StopKind};
use tcl_run::interruption::Interruption;
use tcl_run::outside::{Happening, Outside};
use tcl_text::text::Text;
use tcl_tree::alias::in_common;
use tcl_tree::tree::{Place, Tree};
use tcl_value::value::Value;

/// The words of a call, where no word is one empty word.
#[inline(never)]
pub fn some_words(words: Vec<Value>) -> Result<Vec<Value>, AllocError>
    ensures { IfOk result (λ given. given.items ≡ some_words words.items) }
{
    let mut words = words;
    if words.is_empty() {
        words.push(Value::empty())?;
    }
    Ok(words)
}

/// What an end comes to where only ok and error may pass.
///
/// # Errors
/// Every end but an ordinary one; want of memory.
#[inline(never)]
pub fn settled(alloc: Global, ended: Result<Value, Interruption>) -> Result<Value, Interruption>
    ensures { Settles ended result }
{
    match ended {
        Err(Interruption::Completed(completion)) => {
            let mut completion = completion;
            settle(alloc, &mut completion)?;
            Err(Interruption::Completed(completion))
        }
        other => other,
    }
}

/// Tells the outside that a call came to its end, so many levels up and these names down from the
/// caller, and gives how the caller is told it: by no completion, where the caller is gone.
///
/// # Errors
/// Every end but an ordinary one; want of memory.
#[inline(never)]
#[tactic(auto, using(tcl_run::proofs::Losing::losing))]
pub fn return_to_caller<O: Outside>(
    tree: &Tree,
    alloc: Global,
    outside: &mut O,
    caller: Place,
    up: usize,
    down: &[Text],
    ended: Result<Value, Interruption>,
) -> Result<Value, Interruption>
    requires { (p : Path) × (d : ℕ) × Holds tree.now caller p d }
    ensures comes { IfEnded result
        (λ r. (p a : Path) (d : ℕ) → Holds tree.now caller p d → rise_to (Some up) p ≡ Some a →
        ComesBack O.goes (tree_of tree.now) outside.old p d up a down.now ended r outside.new) }
    ensures stands { OnCompletion result (IsStanding tree.now caller) }
    ensures lost { IsLoss O.loses outside.old outside.new }
    ensures left { O.entries_left outside.new ≤ O.entries_left outside.old }
{
    match told_instead(tree, alloc, caller, up, down, &ended) {
        Some(instead) => {
            let told = Err(instead);
            let happening = Happening::Returned {
                caller,
                up,
                down,
                ended: &ended,
                told: &told,
            };
            outside.notify(alloc, tree, happening)?;
            told
        }
        None => {
            let happening = Happening::Returned {
                caller,
                up,
                down,
                ended: &ended,
                told: &ended,
            };
            outside.notify(alloc, tree, happening)?;
            ended
        }
    }
}

/// What the caller is told of an end in place of it: of a stop how it sees that, and that it is
/// gone, where it is, of a completion. None where it is told the end as it is.
fn told_instead(
    tree: &Tree,
    alloc: Global,
    caller: Place,
    up: usize,
    down: &[Text],
    ended: &Result<Value, Interruption>,
) -> Option<Interruption>
    requires { (p : Path) × (d : ℕ) × Holds tree.now caller p d }
    ensures instead { IfSome result
        (λ told. (s : Reply) × EndedBy ended.now s × Interrupts told (λ r. (p : Path) (d : ℕ) →
        Holds tree.now caller p d → r ≡ carried (gone d (tree_of tree.now) p) (Some up) p down.now
        s)) }
    ensures itself { IfNone result ((p : Path) (d : ℕ) (s : Reply) → Holds tree.now caller p d →
        EndedBy ended.now s → s ≡ carried (gone d (tree_of tree.now) p) (Some up) p down.now s) }
    ensures stands { MatchOption result
        (OnCompletion ended.now (IsStanding tree.now caller))
        (λ told. Completes told (IsStanding tree.now caller)) }
{
    let gone = tree.is_gone(caller);
    match ended {
        Err(Interruption::Stopped(stop)) => {
            Some(unless_gone(gone, stop_for_caller(tree, alloc, caller, up, down, *stop)))
        }
        Ok(_) => Some(gone_stop(gone?)),
        Err(Interruption::Completed(_)) => Some(gone_stop(gone?)),
        _ => None,
    }
}

/// The stop of an evaluation whose interpreter is gone, the highest that is so many levels up.
fn gone_stop(levels_up: usize) -> Interruption
    ensures { result ≡ Stopped (record { levels_up = levels_up; kind = Gone }) }
{
    Interruption::Stopped(Stop {
        levels_up,
        kind: StopKind::Gone,
    })
}

/// What a caller is told of an end, which is no completion where the caller is gone.
fn unless_gone(gone: Option<usize>, told: Interruption) -> Interruption
    ensures told { Interrupts told (λ r. Interrupts result (λ e. e ≡ core.ended gone r)) }
    ensures memory { told ≡ Memory → result ≡ Memory }
    ensures stands { Completes result (gone ≡ None) }
{
    let Some(levels_up) = gone else {
        return told;
    };
    match told {
        Interruption::Completed(_) => gone_stop(levels_up),
        other => other,
    }
}

/// A stop as the caller sees it: where it doesn't stand below the interpreter that is full, an
/// error. More levels than a number of the machine holds, which no tree has, are answered as want
/// of memory.
fn stop_for_caller(
    tree: &Tree,
    alloc: Global,
    place: Place,
    up: usize,
    down: &[Text],
    stop: Stop,
) -> Interruption
    requires { (p : Path) × (d : ℕ) × Holds tree.now place p d }
    ensures { Interrupts result (λ e. (p : Path) (d : ℕ) → Holds tree.now place p d →
        e ≡ carried_by (reply_of stop) (Some up) p down.now) }
{
    let Ok(names) = tree.last_names(alloc, place, up) else {
        return Interruption::Memory;
    };
    let common = in_common(names.as_slice(), down);
    let apart = down.len() - common;
    if stop.levels_up < apart {
        return match stop.kind.error(alloc) {
            Ok(completion) => Interruption::of_completion(alloc, completion),
            Err(_) => Interruption::Memory,
        };
    }
    match (stop.levels_up - apart).checked_add(up - common) {
        Some(levels_up) => Interruption::Stopped(Stop {
            levels_up,
            kind: stop.kind,
        }),
        None => Interruption::Memory,
    }
}
