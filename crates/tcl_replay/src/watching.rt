//! Evaluations whose crossings of one boundary are recorded.
ghost use Rattle.std.specs.Prelude.{◌≡◌, ◌+◌, Err, IfErr, IfNone, IfOk, IfSome, IsErrOf, None};
ghost use Rattle.std.specs.Prelude.{OnOk, [], false, true};
ghost use Rattle.tcl_core.specs.Entries.Entry.{Eval};
ghost use Rattle.tcl_core.specs.Execution.{event};
ghost use Rattle.tcl_core.specs.Trees.What.{In};
ghost use Rattle.tcl_eval.specs.Running.{AsksFirst, IsGivenUp, IsRun, IsWhole, KeepsCounts};
ghost use Rattle.tcl_eval.specs.Running.{root_count, root_limit, unfit};
ghost use Rattle.tcl_eval.specs.declared.running.Refused.TheVariants.{Memory};
ghost use Rattle.tcl_language.specs.Instructions.{fits};
ghost use Rattle.tcl_run.specs.Outsides.{hosted};
ghost use Rattle.tcl_run.specs.Runs.{ways};
ghost use Rattle.tcl_tree.specs.TreeOf.{marks_of, tree_of};
ghost use Rattle.tcl_recorder.specs.Recording.{noted};
ghost use Rattle.tcl_replay.specs.Watched.{AsksTheHostNothing, Counts, CountStaysWithin, IfDeleted};
ghost use Rattle.tcl_replay.specs.Watched.{IfEnds, IfRefused, IsDeletion, IsEntryRun, IsRecord};
ghost use Rattle.tcl_replay.specs.Watched.{LeavesTheOutside, LimitsStay, Reacts, ReactsSo};
ghost use Rattle.tcl_replay.specs.Watched.{ReactsToDrop, ReactsUntil, Stops, Watches, answer_of};
ghost use Rattle.tcl_replay.specs.Watched.{unwatchable, watching};
ghost use Rattle.tcl_replay.specs.declared.watching.Unwatched.TheVariants as unwatched;

use std::alloc::{AllocError, Global};
use std::fmt;
use tcl_eval::running::{End, Refused, open_run, ran, refusal};
use tcl_host::host::Host;
use tcl_isolation::laws::{asks_the_host_nothing, limits_stay, scripts_stay_within};
use tcl_recorder::record::Record;
use tcl_recorder::recorder::Recorder;
use tcl_run::entry::Entry;
use tcl_run::outside::Outside;
use tcl_text::messages::WATCHED_DELETED;
use tcl_text::text::Text;
use tcl_tree::tree::Tree;
use tcl_value::value::Value;
use thiserror::Error;

/// Why there is no record of an evaluation.
#[derive(Drop, Error)]
pub enum Unwatched {
    /// 401, 402, 403, 404 or 122: there was no run, or none that came to its end.
    #[error(transparent)]
    Refused(Refused),
    /// 411: the watched interpreter was deleted in the run.
    #[error("411: {}", WATCHED_DELETED)]
    Deleted(Deletion),
}

/// What there is of an evaluation in which the watched interpreter was deleted, it or one above it.
#[derive(Drop)]
pub struct Deletion {
    /// How the whole evaluation ended.
    pub end: End,
    /// What crossed the boundary until the interpreter was deleted.
    pub until: Record,
}

impl fmt::Debug for Unwatched {
    fn fmt<W: fmt::Write>(&self, f: &mut fmt::Formatter<W>) -> fmt::Result {
        write!(f, "{self}")
    }
}

/// Evaluates a script in the interpreter at the path, as `eval` does, and records what crosses the
/// boundary of the interpreter at `watched`: the entries into its subtree, its calls that leave the
/// subtree, and how they end. The host is given back.
///
/// # Errors
/// 402; 403 where no interpreter stands at the path, or none at `watched`; 404; 122: they are
/// looked for in this order, and change nothing. 401, by which the tree is broken; until then the
/// host was asked what the script asks it first. 411, with the end of the run and the record until
/// then, where the watched interpreter was deleted in it, or one above it.
pub fn eval_watched<H: Host>(
    tree: &mut Tree,
    alloc: Global,
    host: H,
    path: &[Text],
    script: &str,
    limit: u64,
    watched: &[Text],
) -> (H, Result<(End, Record), Unwatched>)
    ensures refused { IfSome (unwatchable tree.old path.now script.now limit watched.now)
        (λ e. result.1 ≡ Err (unwatched.Refused e)) }
    ensures unchanged { IfSome (unwatchable tree.old path.now script.now limit watched.now)
        (λ _. (tree.new ≡ tree.old) × (result.0 ≡ host)) }
    ensures begun { IfNone (unwatchable tree.old path.now script.now limit watched.now)
        (IfRefused result.1 (λ e. e ≡ Memory)) }
    ensures broken { IfRefused result.1 (λ e. e ≡ Memory → (marks_of tree.new).broken ≡ true) }
    ensures given_up { IfNone (unwatchable tree.old path.now script.now limit watched.now)
        (IfRefused result.1 (λ _. IsGivenUp (ways (hosted H.step) (λ o z. z ≡ o)) tree.old host
        path.now script.now (root_count tree.old + limit) result.0)) }
    ensures asked { IfNone (unwatchable tree.old path.now script.now limit watched.now)
        (IfRefused result.1 (λ _. AsksFirst H.step tree.old host path.now script.now limit
        result.0)) }
    ensures marks { IfEnds result.1 (λ _. marks_of tree.new ≡ marks_of tree.old) }
    ensures style { (marks_of tree.new).integers ≡ (marks_of tree.old).integers }
    ensures root_limit { root_limit tree.new ≡ root_limit tree.old }
    ensures counted { KeepsCounts tree.old path.now limit tree.new }
    ensures runs { IfEnds result.1
        (λ end. IsRun (hosted H.step) tree.old host path.now script.now
        (root_count tree.old + limit) tree.new result.0 end) }
    ensures whole { IfEnds result.1
        (λ end. IsWhole H.step tree.old host path.now script.now limit tree.new result.0 end) }
    ensures recorded { IfOk result.1
        (λ r. IsRecord H.step (watching tree.old host path.now script.now limit watched.now) r.1
        tree.new result.0 r.0) }
    ensures deleted { IfDeleted result.1
        (λ d. IsDeletion H.step (watching tree.old host path.now script.now limit watched.now)
        d.until tree.new result.0 d.end) }
    ensures reacts_to_drop { IfDeleted result.1
        (λ d. ReactsToDrop H.step (watching tree.old host path.now script.now limit watched.now)
        d.until tree.new result.0 d.end) }
    ensures reacts { IfOk result.1 (λ r. Reacts tree.old watched.now r.1.crossings tree.new) }
    ensures reacts_so { IfOk result.1 (λ r. ReactsSo tree.old watched.now r.1.crossings tree.new) }
    ensures reacts_until { IfOk result.1
        (λ r. ReactsUntil tree.old watched.now r.1.crossings tree.new) }
    ensures leaves_the_outside { IfOk result.1
        (λ r. LeavesTheOutside tree.old host path.now watched.now r.1.crossings tree.new result.0) }
    ensures asks_nothing { IfOk result.1
        (λ r. AsksTheHostNothing tree.old watched.now r.1.crossings) }
    ensures counts { IfOk result.1
        (λ r. Counts H.step (watching tree.old host path.now script.now limit watched.now) r.1
        tree.new result.0 r.0) }
    ensures stops { IfOk result.1
        (λ r. Stops H.step (watching tree.old host path.now script.now limit watched.now) r.1
        tree.new result.0 r.0) }
    ensures count_stays_within { IfOk result.1
        (λ r. CountStaysWithin tree.old watched.now r.1.crossings tree.new) }
    ensures limits_stay { IfOk result.1
        (λ r. LimitsStay H.step (watching tree.old host path.now script.now limit watched.now) r.1
        tree.new result.0 r.0) }
{
    asks_the_host_nothing::<H>();
    limits_stay::<H>();
    scripts_stay_within::<H>();
    if let Some(refused) = refusal_to_watch(tree, path, script, limit, watched) {
        return (host, Err(Unwatched::Refused(refused)));
    }
    watch(tree, alloc, host, path, script, limit, watched)
}

/// Why an evaluation that is watched would be refused, want of memory aside: the first of 402; 403
/// where no interpreter stands at the path, or none at `watched`; 404; 122. This takes no memory.
pub fn refusal_to_watch(
    tree: &Tree,
    path: &[Text],
    script: &str,
    limit: u64,
    watched: &[Text],
) -> Option<Refused>
    ensures { result ≡ unwatchable tree.now path.now script.now limit watched.now }
{
    let first = refusal(tree, path, script, limit);
    if tree.is_broken() {
        return first;
    }
    match tree.place(watched) {
        Some(_) => first,
        None => Some(Refused::NoInterpreter),
    }
}

/// Evaluates the script and records it.
fn watch<H: Host>(
    tree: &mut Tree,
    alloc: Global,
    host: H,
    path: &[Text],
    script: &str,
    limit: u64,
    watched: &[Text],
) -> (H, Result<(End, Record), Unwatched>)
    requires fit { unfit tree.old path.now script.now limit ≡ None }
    ensures watches { Watches H.step (watching tree.old host path.now script.now limit watched.now)
        tree.new result.0
        result.1 }
    ensures marks { IfEnds result.1 (λ _. marks_of tree.new ≡ marks_of tree.old) }
    ensures style { (marks_of tree.new).integers ≡ (marks_of tree.old).integers }
    ensures root_limit { root_limit tree.new ≡ root_limit tree.old }
    ensures counted { KeepsCounts tree.old path.now limit tree.new }
{
    let names = match Vec::from_clones(alloc, watched) {
        Ok(names) => names,
        Err(_) => {
            tree.mark_broken();
            return (host, Err(Unwatched::Refused(Refused::Memory)));
        }
    };
    let mut recorder = Recorder::new(alloc, host, names);
    let ended = run(tree, alloc, &mut recorder, path, script, limit);
    let (host, kept, deleted) = recorder.into_parts();
    (host, outcome_of(ended, kept, deleted))
}

/// Evaluates the script, whose entry the recorder is told of, and its end.
fn run<H: Host>(
    tree: &mut Tree,
    alloc: Global,
    recorder: &mut Recorder<H>,
    path: &[Text],
    script: &str,
    limit: u64,
) -> Result<End, Refused>
    requires fit { unfit tree.old path.now script.now limit ≡ None }
    ensures memory { IfErr result (λ e. e ≡ Memory) }
    ensures broken { IsErrOf result Memory → (marks_of tree.new).broken ≡ true }
    ensures marks { IfOk result (λ _. marks_of tree.new ≡ marks_of tree.old) }
    ensures style { (marks_of tree.new).integers ≡ (marks_of tree.old).integers }
    ensures root_limit { root_limit tree.new ≡ root_limit tree.old }
    ensures counted { KeepsCounts tree.old path.now limit tree.new }
    ensures given_up { IfErr result
        (λ _. IsGivenUp (ways (hosted H.step) (λ o z. z ≡ o)) tree.old recorder.old.outside path.now
        script.now (root_count tree.old + limit) recorder.new.outside) }
    ensures runs { IfOk result
        (λ end. IsEntryRun H.step tree.old recorder.old path.now script.now limit tree.new
        recorder.new end) }
{
    match begin_record(alloc, recorder, path, script) {
        Ok(()) => {
            let opened = open_run(tree, alloc, recorder, path, script, limit);
            ran(opened)
        }
        Err(_) => {
            tree.mark_broken();
            Err(Refused::Memory)
        }
    }
}

/// Tells a recorder that a script comes to the interpreter at the path, where one stands. What it
/// holds isn't told.
///
/// # Errors
/// Want of memory.
pub fn begin_record<O: Outside>(
    alloc: Global,
    recorder: &mut Recorder<O>,
    path: &[Text],
    script: &str,
) -> Result<(), AllocError>
    requires short { fits script.now ≡ true }
    ensures noted { OnOk result
        (recorder.new ≡ noted recorder.old (event path.now (In None (Eval script.now)))) }
    ensures outside { recorder.new.outside ≡ recorder.old.outside }
{
    let entry = Entry::Eval(Value::from_short_text(Text::new(alloc, script)?));
    recorder.entry_begins(alloc, path, &entry)
}

/// What is answered where the run ended so, with this record, and the watched interpreter was
/// deleted or not.
fn outcome_of(
    ended: Result<End, Refused>,
    kept: Record,
    deleted: bool,
) -> Result<(End, Record), Unwatched>
    ensures { result ≡ answer_of ended kept deleted }
{
    match ended {
        Err(refused) => Err(Unwatched::Refused(refused)),
        Ok(end) => {
            if deleted {
                return Err(Unwatched::Deleted(Deletion { end, until: kept }));
            }
            Ok((end, kept))
        }
    }
}
