//! Evaluations, which wait where a call leaves the tree.
ghost use Rattle.std.specs.Prelude.{◌≡◌, IfOk, Some, false};
ghost use Rattle.tcl_sessions.specs.Evaluations.{Attempts, Ends, Evaluates, Runs, ShowsOpen, Tells};
ghost use Rattle.tcl_sessions.specs.Evaluations.{kept_of, watched_of};
ghost use Rattle.tcl_tree.specs.TreeOf.{marks_of, tree_of};

use crate::outcome::{Outcome, Report};
use crate::refusal::Refusal;
use crate::session::{Session, Watch};
use crate::standing::Standing;
use std::alloc::{AllocError, Global};
use std::mem::replace;
use tcl_eval::running::{OpenEnd, open_run};
use tcl_recorder::record::Record;
use tcl_replay::open_watching::{OpenUnwatched, open_watched};
use tcl_text::text::Text;
use tcl_tree::tree::Tree;

/// What is evaluated.
#[derive(Drop)]
pub struct Evaluation {
    /// The path of the interpreter in which it is.
    pub path: Vec<Text>,
    /// The script.
    pub script: Text,
    /// The most steps that it may make in the whole tree.
    pub limit: u64,
    /// The path of the interpreter whose boundary is recorded.
    pub watched: Option<Vec<Text>>,
}

/// What is told of an evaluation, and what there is of its record.
#[derive(Drop)]
struct Told {
    report: Report,
    watch: Watch,
}

impl Session {
    /// Evaluates a script in an interpreter of the tree, with at most so many steps. Where a call
    /// leaves the tree, the evaluation waits, and the tree is as before it.
    ///
    /// # Errors
    /// 424, which changes nothing. 403 where nobody stands at the path, or at that of the watched
    /// interpreter; 404; 122; 401: they leave the tree as it was, and 401 alone may come after the
    /// host was asked for something.
    pub fn evaluate(&mut self, alloc: Global, evaluation: Evaluation) -> Result<Outcome, Refusal>
        ensures { Evaluates self.old evaluation result self.new }
    {
        self.at_rest()?;
        self.standing.begin();
        self.run(alloc, evaluation)
    }

    /// Evaluates a script, with the answers that came so far.
    ///
    /// # Errors
    /// As `evaluate`.
    pub(crate) fn run(&mut self, alloc: Global, evaluation: Evaluation) -> Result<Outcome, Refusal>
        ensures { Runs self.old evaluation result self.new }
    {
        let start = copy_of(&self.tree)?;
        match attempt(&mut self.tree, alloc, &mut self.standing, &evaluation) {
            Ok(told) => Ok(self.tell(start, evaluation, told)),
            Err(refusal) => {
                self.tree = start;
                Err(refusal)
            }
        }
    }

    /// An evaluation came to its end; or it waits, and then the tree is that from before it.
    fn tell(&mut self, start: Tree, evaluation: Evaluation, told: Told) -> Outcome
        ensures { Tells self.old start evaluation told self.new result }
    {
        let Told { report, watch } = told;
        let outcome = report.outcome;
        self.report = report;
        match outcome {
            Outcome::Open => {
                self.tree = start;
                self.waiting = Some(evaluation);
            }
            Outcome::Done | Outcome::Stopped | Outcome::Exited => self.watch = watch,
        }
        outcome
    }
}

/// The same tree again.
fn copy_of(tree: &Tree) -> Result<Tree, AllocError>
    ensures tree { IfOk result (λ made. tree_of made ≡ tree_of tree.now) }
    ensures marks { IfOk result
        (λ made. marks_of made ≡ record {
          integers = (marks_of tree.now).integers;
          broken =
              false;
        }) }
{
    match tree.copy_at(&[]) {
        Ok(made) => Ok(made),
        Err(_) => Err(AllocError),
    }
}

/// Evaluates the script from its beginning, and tells what came of it.
///
/// # Errors
/// Those of `evaluate`, but for 424. 401 may come after the script was evaluated.
fn attempt(
    tree: &mut Tree,
    alloc: Global,
    standing: &mut Standing,
    evaluation: &Evaluation,
) -> Result<Told, Refusal>
    ensures { Attempts tree.old standing.old evaluation.now tree.new standing.new result }
{
    standing.begin_again();
    let (end, watch) = run_script(tree, alloc, standing, evaluation)?;
    let report = report_of(alloc, standing, &end)?;
    Ok(Told { report, watch })
}

/// What is told of an end, or of the call that is open.
///
/// # Errors
/// 401; also where no call is open that should be, which can't be.
fn report_of(alloc: Global, standing: &Standing, end: &OpenEnd) -> Result<Report, Refusal>
    ensures { ShowsOpen standing.now end.now result }
{
    match end {
        OpenEnd::Ran(end) => Ok(Report::of_end(alloc, end)?),
        OpenEnd::CutOff => match &standing.call {
            Some(call) => Ok(Report::of_call(alloc, call)?),
            None => Err(Refusal::Memory),
        },
    }
}

/// Evaluates the script, watched or not.
fn run_script(
    tree: &mut Tree,
    alloc: Global,
    standing: &mut Standing,
    evaluation: &Evaluation,
) -> Result<(OpenEnd, Watch), Refusal>
    ensures { Ends tree.old standing.old evaluation.now (watched_of evaluation.now) tree.new
        standing.new result }
{
    match &evaluation.watched {
        Some(watched) => run_watched(tree, alloc, standing, evaluation, watched.as_slice()),
        None => {
            let path = evaluation.path.as_slice();
            let script = evaluation.script.as_str();
            let end = open_run(tree, alloc, standing, path, script, evaluation.limit)?;
            Ok((end, Watch::Nothing))
        }
    }
}

/// Evaluates the script, and records what crosses the boundary of the interpreter at `watched`.
fn run_watched(
    tree: &mut Tree,
    alloc: Global,
    standing: &mut Standing,
    evaluation: &Evaluation,
    watched: &[Text],
) -> Result<(OpenEnd, Watch), Refusal>
    ensures { Ends tree.old standing.old evaluation.now (Some watched.now) tree.new standing.new
        result }
{
    let path = evaluation.path.as_slice();
    let script = evaluation.script.as_str();
    let limit = evaluation.limit;
    let lent = replace(standing, Standing::new(alloc)?);
    let (back, ended) = open_watched(tree, alloc, lent, path, script, limit, watched);
    *standing = back;
    kept(ended)
}

/// What there is of the record of an evaluation that ended so.
fn kept(ended: Result<(OpenEnd, Record), OpenUnwatched>) -> Result<(OpenEnd, Watch), Refusal>
    ensures { result ≡ kept_of ended }
{
    match ended {
        Ok((end, record)) => Ok((end, Watch::Recorded(record))),
        Err(OpenUnwatched::Deleted(deletion)) => Ok((deletion.end, Watch::Deleted)),
        Err(OpenUnwatched::Refused(refused)) => Err(Refusal::from(refused)),
    }
}
