//! Runs of scripts in a tree of interpreters, with a host.
ghost use Rattle.std.specs.Prelude.{◌≡◌, ℕ, ◌+◌, ◌<◌, ◌≤◌, true, Some, None, IfOk, IfErr, IfSome};
ghost use Rattle.std.specs.Prelude.{IfNone, IsErrOf, length};
ghost use Rattle.tcl_core.specs.Paths.{Path};
ghost use Rattle.tcl_language.specs.Instructions.{fits};
ghost use Rattle.tcl_flow.specs.Stopping.{reply_of};
ghost use Rattle.tcl_run.specs.Outsides.{hosted};
ghost use Rattle.tcl_core.specs.Execution.{event};
ghost use Rattle.tcl_core.specs.Trees as core;
ghost use Rattle.tcl_run.specs.Ends.{IfEnded};
ghost use Rattle.tcl_tree.specs.TreeOf.{marks_of, tree_of, Names};
ghost use Rattle.tcl_core.specs.Lives.{end_at};
ghost use Rattle.tcl_run.specs.Runs.{IsLoss, ways};
ghost use Rattle.tcl_eval.specs.Running.{AsksFirst, IsBudgeted, IsGivenUp, IsOpenRun, IsRun};
ghost use Rattle.tcl_eval.specs.Running.{IsUncut, IsWhole, KeepsCounts, Tells, ending_of, ran_of};
ghost use Rattle.tcl_eval.specs.Running.{root_count, root_limit, unfit};
ghost use Rattle.tcl_eval.specs.declared.running.Refused.TheVariants.{Memory};

use std::alloc::{AllocError, Global};
use tcl_evaluation::crossing::serve_eval;
use tcl_flow::completion::{self, Completion};
use tcl_flow::stop::{Stop, StopKind};
use tcl_host::host::Host;
use tcl_run::interruption::Interruption;
use tcl_run::outside::{Happening, Outside};
use tcl_run_laws::budgets::scripts_keep_budgets;
use tcl_text::limit::MOST_BYTES;
use tcl_text::messages::{BREAKS_TREE, COUNT_TOO_LARGE, NO_INTERPRETER, TOO_LONG, TREE_BROKEN};
use tcl_text::text::Text;
use tcl_tree::node::MOST_STEPS;
use tcl_tree::tree::{Place, Tree};
use tcl_value::value::Value;
use thiserror::Error;

/// How a run ended.
#[derive(Drop)]
pub enum End {
    /// The script completed, by an ordinary result or by an error.
    Done(Completion),
    /// A limit of the root would have been passed: that of steps, which is the run's own, or that
    /// of depth.
    Stopped(StopKind),
    /// The script ended the run with this status.
    Exit(i64),
}

/// How an open run ended.
#[derive(Drop)]
pub enum OpenEnd {
    /// As the run of a script ends.
    Ran(End),
    /// The outside ended it: it refused a step, or answered an open call by an end from outside.
    CutOff,
}

/// Why there was no run, or none that came to its end.
#[derive(Clone, Copy, Debug, Eq, Error, PartialEq)]
pub enum Refused {
    /// 401: memory was wanted. The tree is broken since then.
    #[error("401: {}", BREAKS_TREE)]
    Memory,
    /// 402: the tree was broken before.
    #[error("402: {}", TREE_BROKEN)]
    Broken,
    /// 403: no interpreter stands at the path.
    #[error("403: {}", NO_INTERPRETER)]
    NoInterpreter,
    /// 404: the steps that were counted in the root and those of the run pass 9223372036854775807
    /// together.
    #[error("404: {}", COUNT_TOO_LARGE)]
    CountTooLarge,
    /// 122: the script is longer than 16777216 bytes.
    #[error("122: {}", TOO_LONG)]
    TooLong,
}

/// What a run begins with.
#[derive(Clone, Copy)]
struct Start {
    /// Where the script is evaluated.
    place: Place,
    /// The limit of steps that the root has during the run.
    most: u64,
    /// And its own.
    own: Option<u64>,
}

/// Evaluates a script in the interpreter at the path, as one entry into it, with at most so many
/// counted steps in the whole tree.
///
/// # Errors
/// 402, 403, 404 and 122, which are looked for in this order and change nothing; and 401, until
/// when the host was asked what the script asks it first, and what the whole evaluation does.
pub fn eval<H: Host>(
    tree: &mut Tree,
    alloc: Global,
    host: &mut H,
    path: &[Text],
    script: &str,
    limit: u64,
) -> Result<End, Refused>
    ensures refused { IfSome (unfit tree.old path.now script.now limit) (λ e. result ≡ Err e) }
    ensures unchanged { IfSome (unfit tree.old path.now script.now limit)
        (λ _. (tree.new ≡ tree.old) × (host.new ≡ host.old)) }
    ensures begun { IfNone (unfit tree.old path.now script.now limit)
        (IfErr result (λ e. e ≡ Memory)) }
    ensures broken { IsErrOf result Memory → (marks_of tree.new).broken ≡ true }
    ensures marks { IfOk result (λ _. marks_of tree.new ≡ marks_of tree.old) }
    ensures style { (marks_of tree.new).integers ≡ (marks_of tree.old).integers }
    ensures root_limit { root_limit tree.new ≡ root_limit tree.old }
    ensures counted { KeepsCounts tree.old path.now limit tree.new }
    ensures given_up { IfNone (unfit tree.old path.now script.now limit)
        (IfErr result (λ _. IsGivenUp (ways (hosted H.step) (λ o z. z ≡ o)) tree.old host.old
        path.now script.now (root_count tree.old + limit) host.new)) }
    ensures asked { IfNone (unfit tree.old path.now script.now limit)
        (IfErr result (λ _. AsksFirst H.step tree.old host.old path.now script.now limit
        host.new)) }
    ensures runs { IfOk result
        (λ end. IsRun (hosted H.step) tree.old host.old path.now script.now
        (root_count tree.old + limit) tree.new host.new end) }
    ensures whole { IfOk result
        (λ end. IsWhole H.step tree.old host.old path.now script.now limit tree.new host.new end) }
    ensures budget { IfOk result
        (λ end. IsBudgeted H.step tree.old host.old path.now script.now limit tree.new host.new
        end) }
{
    scripts_keep_budgets();
    let opened = open_run(tree, alloc, host, path, script, limit);
    ran(opened)
}

/// The end of a run that no outside ended.
pub fn ran(opened: Result<OpenEnd, Refused>) -> Result<End, Refused>
    requires { IsUncut opened }
    ensures { result ≡ ran_of opened }
{
    match opened {
        Ok(OpenEnd::Ran(end)) => Ok(end),
        Ok(OpenEnd::CutOff) => unreachable!(),
        Err(refused) => Err(refused),
    }
}

/// The same over any outside, which was told that the script comes in, and is told how the entry
/// ends. An outside may refuse a step, or answer a call by an end from outside: that ends the run,
/// and the tree is as sound afterwards as after any other end.
///
/// # Errors
/// Those of `eval`.
pub fn open_run<O: Outside>(
    tree: &mut Tree,
    alloc: Global,
    outside: &mut O,
    path: &[Text],
    script: &str,
    limit: u64,
) -> Result<OpenEnd, Refused>
    ensures refused { IfSome (unfit tree.old path.now script.now limit) (λ e. result ≡ Err e) }
    ensures unchanged { IfSome (unfit tree.old path.now script.now limit)
        (λ _. (tree.new ≡ tree.old) × (outside.new ≡ outside.old)) }
    ensures begun { IfNone (unfit tree.old path.now script.now limit)
        (IfErr result (λ e. e ≡ Memory)) }
    ensures broken { IsErrOf result Memory → (marks_of tree.new).broken ≡ true }
    ensures marks { IfOk result (λ _. marks_of tree.new ≡ marks_of tree.old) }
    ensures style { (marks_of tree.new).integers ≡ (marks_of tree.old).integers }
    ensures root_limit { root_limit tree.new ≡ root_limit tree.old }
    ensures counted { KeepsCounts tree.old path.now limit tree.new }
    ensures given_up { IfNone (unfit tree.old path.now script.now limit)
        (IfErr result (λ _. IsGivenUp (ways O.goes O.loses) tree.old outside.old path.now script.now
        (root_count tree.old + limit) outside.new)) }
    ensures runs { IfOk result
        (λ end. IsOpenRun O.goes tree.old outside.old path.now script.now
        (root_count tree.old + limit) tree.new outside.new end) }
{
    let start = start_of(tree, path, script, limit)?;
    match run(tree, alloc, outside, start, path, script) {
        Ok(end) => Ok(end),
        Err(_) => {
            tree.mark_broken();
            Err(Refused::Memory)
        }
    }
}

/// Why a run would be refused, want of memory aside. This takes no memory.
pub fn refusal(tree: &Tree, path: &[Text], script: &str, limit: u64) -> Option<Refused>
    ensures { result ≡ unfit tree.now path.now script.now limit }
{
    match start_of(tree, path, script, limit) {
        Ok(_) => None,
        Err(refused) => Some(refused),
    }
}

/// What a run begins with, or why there is none.
fn start_of(tree: &Tree, path: &[Text], script: &str, limit: u64) -> Result<Start, Refused>
    ensures refused { IfErr result (λ e. unfit tree.now path.now script.now limit ≡ Some e) }
    ensures fit { IfOk result (λ _. unfit tree.now path.now script.now limit ≡ None) }
    ensures short { IfOk result (λ _. fits script.now ≡ true) }
    ensures place { IfOk result (λ start. Names tree.now start.place path.now) }
    ensures most { IfOk result (λ start. start.most ≡ root_count tree.now + limit) }
    ensures own { IfOk result (λ start. start.own ≡ root_limit tree.now) }
{
    if tree.is_broken() {
        return Err(Refused::Broken);
    }
    let Some(place) = tree.place(path) else {
        return Err(Refused::NoInterpreter);
    };
    let (count, own) = root_meters(tree);
    let Some(most) = most_of(count, limit) else {
        return Err(Refused::CountTooLarge);
    };
    if script.len() > MOST_BYTES {
        return Err(Refused::TooLong);
    }
    Ok(Start { place, most, own })
}

/// How many steps were counted in the root, and its limit.
fn root_meters(tree: &Tree) -> (u64, Option<u64>)
    ensures count { result.0 ≡ root_count tree.now }
    ensures limit { result.1 ≡ root_limit tree.now }
{
    match tree.node_at(tree.root()) {
        Some(node) => (node.state.count, node.state.limit),
        None => unreachable!(),
    }
}

/// The limit of a root that may be counted so many steps more, where steps can be counted so far.
fn most_of(count: u64, limit: u64) -> Option<u64>
    ensures most { IfSome result
        (λ most. (most ≡ count + limit) × (count + limit ≤ 9223372036854775807)) }
    ensures none { IfNone result (9223372036854775807 < count + limit) }
{
    let most = count.checked_add(limit)?;
    if most > MOST_STEPS {
        return None;
    }
    Some(most)
}

/// Evaluates the script, while the root has the limit of the run, and tells the outside how that
/// ended.
fn run<O: Outside>(
    tree: &mut Tree,
    alloc: Global,
    outside: &mut O,
    start: Start,
    path: &[Text],
    script: &str,
) -> Result<OpenEnd, AllocError>
    requires short { fits script.now ≡ true }
    requires place { Names tree.old start.place path.now }
    requires own { start.own ≡ root_limit tree.old }
    ensures marks { marks_of tree.new ≡ marks_of tree.old }
    ensures root_limit { root_limit tree.new ≡ root_limit tree.old }
    ensures counted { (limit : ℕ) → start.most ≡ root_count tree.old + limit →
        KeepsCounts tree.old path.now limit tree.new }
    ensures given_up { IfErr result
        (λ _. IsGivenUp (ways O.goes O.loses) tree.old outside.old path.now script.now start.most
        outside.new) }
    ensures runs { IfOk result
        (λ end. IsOpenRun O.goes tree.old outside.old path.now script.now start.most tree.new
        outside.new end) }
{
    let script = Value::from_short_text(Text::new(alloc, script)?);
    tree.set_run_limit(Some(start.most));
    let ended = serve_eval(tree, alloc, outside, start.place, &script);
    let told = leave(tree, alloc, outside, path, ended);
    tree.set_run_limit(start.own);
    told
}

/// Tells the outside how the entry into the interpreter at the path ended, and whoever began the
/// run.
#[tactic(auto, using(tcl_run::proofs::Losing::losing))]
fn leave<O: Outside>(
    tree: &Tree,
    alloc: Global,
    outside: &mut O,
    path: &[Text],
    ended: Result<Value, Interruption>,
) -> Result<OpenEnd, AllocError>
    ensures tells { Tells path.now ended result }
    ensures lost { IsLoss O.loses outside.old outside.new }
    ensures told { IfOk result
        (λ _. IfEnded ended (λ r. O.goes (tree_of tree.now) outside.old None
        (event path.now (core.What.Done None r)) outside.new)) }
{
    let done = Happening::EntryDone {
        target: path,
        ended: &ended,
    };
    outside.notify(alloc, tree, done)?;
    end_of(alloc, path, ended)
}

/// How a run ended whose entry into the interpreter at the path ended so.
fn end_of(
    alloc: Global,
    path: &[Text],
    ended: Result<Value, Interruption>,
) -> Result<OpenEnd, AllocError>
    ensures { Tells path.now ended result }
{
    match ended {
        Ok(text) => Ok(OpenEnd::Ran(End::Done(completion::ok(text)))),
        Err(Interruption::Completed(completion)) => {
            Ok(OpenEnd::Ran(End::Done(Box::into_inner(completion))))
        }
        Err(Interruption::Stopped(stop)) => Ok(OpenEnd::Ran(stopped(alloc, path, stop)?)),
        Err(Interruption::Exited(status)) => Ok(OpenEnd::Ran(End::Exit(status))),
        Err(Interruption::Cut(_)) => Ok(OpenEnd::CutOff),
        Err(Interruption::Memory) => Err(AllocError),
    }
}

/// What a stop is to whoever began the run: an error where it names an interpreter below the root,
/// and else the run's end.
fn stopped(alloc: Global, path: &[Text], stop: Stop) -> Result<End, AllocError>
    ensures { IfOk result (λ end. end_at path.now (reply_of stop) ≡ Some (ending_of end)) }
{
    if stop.levels_up < path.len() {
        return Ok(End::Done(stop.kind.error(alloc)?));
    }
    Ok(End::Stopped(stop.kind))
}
