//! Evaluations over any outside whose crossings of one boundary are recorded.
ghost use Rattle.std.specs.Prelude.{◌≡◌, ◌+◌, Err, IfErr, IfNone, IfOk, IfSome, IsErrOf, None};
ghost use Rattle.std.specs.Prelude.{true};
ghost use Rattle.tcl_core.specs.Entries.Entry.{Eval};
ghost use Rattle.tcl_core.specs.Execution.{event};
ghost use Rattle.tcl_core.specs.Trees.What.{In};
ghost use Rattle.tcl_eval.specs.Running.{IsGivenUp, IsOpenRun, KeepsCounts, root_count, root_limit};
ghost use Rattle.tcl_eval.specs.Running.{unfit};
ghost use Rattle.tcl_eval.specs.declared.running.Refused.TheVariants.{Memory};
ghost use Rattle.tcl_replay.specs.OpenWatched.{IfDeleted, IfEnds, IfRefused};
ghost use Rattle.tcl_replay.specs.OpenWatched.{IsOpenDeletion, IsOpenRecord, ReactsToDrop};
ghost use Rattle.tcl_replay.specs.OpenWatched.{Watches, answer_of};
ghost use Rattle.tcl_replay.specs.declared.open_watching.OpenUnwatched.TheVariants as unwatched;
ghost use Rattle.tcl_recorder.specs.Recording.{noted, recorded};
ghost use Rattle.tcl_replay.specs.Watched.{AsksTheHostNothing, CountStaysWithin, Reacts, ReactsSo};
ghost use Rattle.tcl_replay.specs.Watched.{ReactsUntil, unwatchable};
ghost use Rattle.tcl_run.specs.Runs.{ways};
ghost use Rattle.tcl_tree.specs.TreeOf.{marks_of, tree_of};

use crate::watching::{begin_record, refusal_to_watch};
use std::alloc::Global;
use std::fmt;
use tcl_eval::running::{OpenEnd, Refused, open_run};
use tcl_isolation::laws::{asks_the_host_nothing, scripts_stay_within};
use tcl_recorder::record::Record;
use tcl_recorder::recorder::Recorder;
use tcl_run::outside::Outside;
use tcl_text::messages::WATCHED_DELETED;
use tcl_text::text::Text;
use tcl_tree::tree::Tree;
use thiserror::Error;

/// Why there is no record of an open evaluation.
#[derive(Drop, Error)]
pub enum OpenUnwatched {
    /// 401, 402, 403, 404 or 122: there was no run, or none that came to its end.
    #[error(transparent)]
    Refused(Refused),
    /// 411: the watched interpreter was deleted in the run.
    #[error("411: {}", WATCHED_DELETED)]
    Deleted(OpenDeletion),
}

/// What there is of an open evaluation in which the watched interpreter was deleted, it or one
/// above it.
#[derive(Drop)]
pub struct OpenDeletion {
    /// How the whole evaluation ended.
    pub end: OpenEnd,
    /// What crossed the boundary until the interpreter was deleted.
    pub until: Record,
}

/// As it is printed by `{}`.
impl fmt::Debug for OpenUnwatched {
    fn fmt<W: fmt::Write>(&self, f: &mut fmt::Formatter<W>) -> fmt::Result {
        write!(f, "{self}")
    }
}

/// Evaluates a script in the interpreter at the path over an outside, as `open_run` does, and
/// records what crosses the boundary of the interpreter at `watched`: the entries into its subtree,
/// those that the outside hands in among them, its calls that leave the subtree, those past the top
/// of the tree among them, and how they end. The outside is given back.
///
/// # Errors
/// 402; 403 where no interpreter stands at the path, or none at `watched`; 404; 122: they are
/// looked for in this order, and change nothing. 401, by which the tree is broken. 411, with the
/// end of the run and the record until then, where the watched interpreter was deleted in it, or
/// one above it.
pub fn open_watched<O: Outside>(
    tree: &mut Tree,
    alloc: Global,
    outside: O,
    path: &[Text],
    script: &str,
    limit: u64,
    watched: &[Text],
) -> (O, Result<(OpenEnd, Record), OpenUnwatched>)
    ensures refused { IfSome (unwatchable tree.old path.now script.now limit watched.now)
        (λ e. result.1 ≡ Err (unwatched.Refused e)) }
    ensures unchanged { IfSome (unwatchable tree.old path.now script.now limit watched.now)
        (λ _. (tree.new ≡ tree.old) × (result.0 ≡ outside)) }
    ensures begun { IfNone (unwatchable tree.old path.now script.now limit watched.now)
        (IfRefused result.1 (λ e. e ≡ Memory)) }
    ensures broken { IfRefused result.1 (λ e. e ≡ Memory → (marks_of tree.new).broken ≡ true) }
    ensures given_up { IfNone (unwatchable tree.old path.now script.now limit watched.now)
        (IfRefused result.1 (λ _. IsGivenUp (ways O.goes O.loses) tree.old outside path.now
        script.now (root_count tree.old + limit) result.0)) }
    ensures marks { IfEnds result.1 (λ _. marks_of tree.new ≡ marks_of tree.old) }
    ensures style { (marks_of tree.new).integers ≡ (marks_of tree.old).integers }
    ensures root_limit { root_limit tree.new ≡ root_limit tree.old }
    ensures counted { KeepsCounts tree.old path.now limit tree.new }
    ensures runs { IfEnds result.1
        (λ end. IsOpenRun O.goes tree.old outside path.now script.now
        (root_count tree.old + limit) tree.new result.0 end) }
    ensures recorded { IfOk result.1
        (λ r. IsOpenRecord O.goes tree.old outside path.now script.now limit watched.now r.1
        tree.new result.0 r.0) }
    ensures deleted { IfDeleted result.1
        (λ d. IsOpenDeletion O.goes tree.old outside path.now script.now limit watched.now d.until
        tree.new result.0 d.end) }
    ensures reacts_to_drop { IfDeleted result.1
        (λ d. ReactsToDrop O.goes tree.old outside path.now script.now limit watched.now d.until
        tree.new result.0 d.end) }
    ensures reacts { IfOk result.1 (λ r. Reacts tree.old watched.now r.1.crossings tree.new) }
    ensures reacts_so { IfOk result.1 (λ r. ReactsSo tree.old watched.now r.1.crossings tree.new) }
    ensures reacts_until { IfOk result.1
        (λ r. ReactsUntil tree.old watched.now r.1.crossings tree.new) }
    ensures asks_nothing { IfOk result.1
        (λ r. AsksTheHostNothing tree.old watched.now r.1.crossings) }
    ensures count_stays_within { IfOk result.1
        (λ r. CountStaysWithin tree.old watched.now r.1.crossings tree.new) }
{
    asks_the_host_nothing::<O>();
    scripts_stay_within::<O>();
    if let Some(refused) = refusal_to_watch(tree, path, script, limit, watched) {
        return (outside, Err(OpenUnwatched::Refused(refused)));
    }
    watch(tree, alloc, outside, path, script, limit, watched)
}

/// Evaluates the script and records it.
fn watch<O: Outside>(
    tree: &mut Tree,
    alloc: Global,
    outside: O,
    path: &[Text],
    script: &str,
    limit: u64,
    watched: &[Text],
) -> (O, Result<(OpenEnd, Record), OpenUnwatched>)
    requires fit { unfit tree.old path.now script.now limit ≡ None }
    ensures watches { Watches O.goes O.loses tree.old outside path.now script.now limit watched.now
        tree.new result.0 result.1 }
    ensures marks { IfEnds result.1 (λ _. marks_of tree.new ≡ marks_of tree.old) }
    ensures style { (marks_of tree.new).integers ≡ (marks_of tree.old).integers }
    ensures root_limit { root_limit tree.new ≡ root_limit tree.old }
    ensures counted { KeepsCounts tree.old path.now limit tree.new }
{
    let names = match Vec::from_clones(alloc, watched) {
        Ok(names) => names,
        Err(_) => {
            tree.mark_broken();
            return (outside, Err(OpenUnwatched::Refused(Refused::Memory)));
        }
    };
    let mut recorder = Recorder::new(alloc, outside, names);
    let ended = run(tree, alloc, &mut recorder, path, script, limit);
    let (outside, kept, deleted) = recorder.into_parts();
    (outside, outcome_of(ended, kept, deleted))
}

/// Evaluates the script, whose entry the recorder is told of, and its end.
fn run<O: Outside>(
    tree: &mut Tree,
    alloc: Global,
    recorder: &mut Recorder<O>,
    path: &[Text],
    script: &str,
    limit: u64,
) -> Result<OpenEnd, Refused>
    requires fit { unfit tree.old path.now script.now limit ≡ None }
    ensures memory { IfErr result (λ e. e ≡ Memory) }
    ensures broken { IsErrOf result Memory → (marks_of tree.new).broken ≡ true }
    ensures marks { IfOk result (λ _. marks_of tree.new ≡ marks_of tree.old) }
    ensures style { (marks_of tree.new).integers ≡ (marks_of tree.old).integers }
    ensures root_limit { root_limit tree.new ≡ root_limit tree.old }
    ensures counted { KeepsCounts tree.old path.now limit tree.new }
    ensures given_up { IfErr result
        (λ _. IsGivenUp (ways O.goes O.loses) tree.old recorder.old.outside path.now script.now
        (root_count tree.old + limit) recorder.new.outside) }
    ensures runs { IfOk result
        (λ end. IsOpenRun (recorded O.goes) tree.old
        (noted recorder.old (event path.now (In None (Eval script.now)))) path.now script.now
        (root_count tree.old + limit) tree.new recorder.new end) }
{
    match begin_record(alloc, recorder, path, script) {
        Ok(()) => open_run(tree, alloc, recorder, path, script, limit),
        Err(_) => {
            tree.mark_broken();
            Err(Refused::Memory)
        }
    }
}

/// What is answered where the run ended so, with this record, and the watched interpreter was
/// deleted or not.
fn outcome_of(
    ended: Result<OpenEnd, Refused>,
    kept: Record,
    deleted: bool,
) -> Result<(OpenEnd, Record), OpenUnwatched>
    ensures { result ≡ answer_of ended kept deleted }
{
    match ended {
        Err(refused) => Err(OpenUnwatched::Refused(refused)),
        Ok(end) => {
            if deleted {
                return Err(OpenUnwatched::Deleted(OpenDeletion { end, until: kept }));
            }
            Ok((end, kept))
        }
    }
}
