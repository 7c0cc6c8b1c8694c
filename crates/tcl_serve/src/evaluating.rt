//! Evaluations, with the client outside of the tree.
ghost use Rattle.std.specs.Prelude.{◌≡◌, IfOk, MatchResult};
ghost use Rattle.tcl_serve.specs.Clients.{IsOver};
ghost use Rattle.tcl_eval.specs.Running.{open_ending};
ghost use Rattle.tcl_serve.specs.Messages.{evaluation_of};
ghost use Rattle.tcl_serve.specs.declared.answers.Ended.TheVariants.{Completed};
ghost use Rattle.tcl_serve.specs.Evaluating.{Begins, Evaluates, EvaluatesFor, Says, SaysRecord};
ghost use Rattle.tcl_serve.specs.Evaluating.{Watches, WatchesFor, ended_as, of_refused};

use crate::answers::{Answer, Ended, Watched};
use crate::client::Client;
use crate::keeping::lines_of;
use crate::messages::{Evaluate, STEPS, Watch};
use crate::numbered::Numbered;
use crate::refusals::Refusal;
use crate::served::ServedTree;
use std::alloc::{AllocError, Global};
use std::io::{BufRead, Write};
use std::mem::replace;
use tcl_eval::running::{End, OpenEnd, Refused, open_run};
use tcl_flow::completion::Completion;
use tcl_functions::serving::WithFunctions;
use tcl_host::memory::MemoryHost;
use tcl_recorder::record::Record;
use tcl_replay::open_watching::{OpenUnwatched, open_watched};
use tcl_text::text::Text;

/// The client and the host of a tree, as what stands outside of the tree.
type Both<R, W> = WithFunctions<Client<R, W>, MemoryHost>;

/// The client and the host of a served tree, for a run in that tree, which has this number; where
/// memory is wanted, the client again.
fn outside_of<R: BufRead + Drop, W: Write + Drop>(
    alloc: Global,
    client: Client<R, W>,
    served: &mut ServedTree,
    number: u64,
) -> Result<Both<R, W>, Client<R, W>>
    ensures { MatchResult result (λ both. Begins served.old client number both served.new)
        (λ back. (back ≡ client) × (served.new ≡ served.old)) }
{
    let Ok(spare) = MemoryHost::new(alloc) else {
        return Err(client);
    };
    let mut client = client;
    client.begin(number);
    let host = replace(&mut served.host.host, spare);
    Ok(WithFunctions::new(alloc, client, host))
}

/// The client again, once the run is over; the tree has its host again.
fn client_of<R: BufRead + Drop, W: Write + Drop>(
    alloc: Global,
    both: Both<R, W>,
    served: &mut ServedTree,
) -> Client<R, W>
    ensures over { IsOver both.functions result }
    ensures tree { served.new.tree ≡ served.old.tree }
    ensures host { served.new.host ≡ record served.old.host { host = both.host } }
{
    let (mut client, host) = both.into_parts();
    served.host.host = host;
    client.finish(alloc);
    client
}

/// Evaluates a script, with the client outside of the tree.
///
/// # Errors
/// 401 to 404 and 122; want of memory.
pub(crate) fn evaluate<R: BufRead + Drop, W: Write + Drop>(
    alloc: Global,
    client: Client<R, W>,
    served: &mut ServedTree,
    message: &Evaluate,
) -> (Client<R, W>, Result<Answer, Refusal>)
    ensures { EvaluatesFor (evaluation_of message.now) served.old client served.new result.0
        result.1 }
{
    let number = message.interpreter.tree;
    let path = message.interpreter.path.as_slice();
    let script = message.script.as_str();
    let limit = message.limit.unwrap_or(STEPS);
    run(alloc, client, served, number, path, script, limit)
}

/// Evaluates a script in the interpreter at the path, in the tree of this number, with at most so
/// many steps.
///
/// # Errors
/// 401 to 404 and 122; want of memory.
fn run<R: BufRead + Drop, W: Write + Drop>(
    alloc: Global,
    client: Client<R, W>,
    served: &mut ServedTree,
    number: u64,
    path: &[Text],
    script: &str,
    limit: u64,
) -> (Client<R, W>, Result<Answer, Refusal>)
    ensures { Evaluates number path.now script.now limit served.old client served.new result.0
        result.1 }
{
    match outside_of(alloc, client, served, number) {
        Ok(mut both) => {
            let run = open_run(&mut served.tree, alloc, &mut both, path, script, limit);
            let client = client_of(alloc, both, served);
            let answer = said(alloc, client.is_cut(), run);
            (client, answer)
        }
        Err(client) => (client, Err(Refusal::Memory)),
    }
}

/// What is said of a run, which the client cut off or not.
///
/// # Errors
/// 401 to 404 and 122; want of memory.
fn said(alloc: Global, cut: bool, run: Result<OpenEnd, Refused>) -> Result<Answer, Refusal>
    ensures { Says cut run result }
{
    match run {
        Ok(end) => Ok(Answer::Ended(ended(alloc, cut, &end)?)),
        Err(refused) => Err(refusal_of(refused)),
    }
}

/// How a run ended, which the client cut off or not.
fn ended(alloc: Global, cut: bool, end: &OpenEnd) -> Result<Ended, AllocError>
    ensures { IfOk result (λ e. e ≡ ended_as cut (open_ending end.now)) }
{
    if cut {
        return Ok(Ended::Cut);
    }
    match end {
        OpenEnd::Ran(End::Done(completion)) => completed(alloc, completion),
        OpenEnd::Ran(End::Stopped(kind)) => Ok(Ended::Stopped(*kind)),
        OpenEnd::Ran(End::Exit(status)) => Ok(Ended::Exited(*status)),
        OpenEnd::CutOff => Ok(Ended::Cut),
    }
}

/// How a run ended that completed so.
fn completed(alloc: Global, completion: &Completion) -> Result<Ended, AllocError>
    ensures { IfOk result (λ e. e ≡ Completed completion.now.code completion.now.text) }
{
    let text = completion.text.text(alloc)?;
    Ok(Ended::Completed(completion.code, text))
}

/// Evaluates a script so, and keeps the record of what crosses the boundary of an interpreter.
///
/// # Errors
/// 401 to 404, 122 and 411; want of memory.
pub(crate) fn watch<R: BufRead + Drop, W: Write + Drop>(
    alloc: Global,
    client: Client<R, W>,
    served: &mut ServedTree,
    message: &Watch,
    records: &mut Numbered<Record>,
) -> (Client<R, W>, Result<Answer, Refusal>)
    ensures { WatchesFor (evaluation_of message.now.evaluate) message.now.watched.items served.old
        client records.old served.new result.0 records.new result.1 }
{
    let evaluate = &message.evaluate;
    let number = evaluate.interpreter.tree;
    let path = evaluate.interpreter.path.as_slice();
    let script = evaluate.script.as_str();
    let limit = evaluate.limit.unwrap_or(STEPS);
    let watched = message.watched.as_slice();
    run_watched(
        alloc, client, served, number, path, script, limit, watched, records,
    )
}

/// Evaluates a script so, and keeps the record of the boundary of the interpreter at `watched`.
///
/// # Errors
/// 401 to 404, 122 and 411; want of memory.
fn run_watched<R: BufRead + Drop, W: Write + Drop>(
    alloc: Global,
    client: Client<R, W>,
    served: &mut ServedTree,
    number: u64,
    path: &[Text],
    script: &str,
    limit: u64,
    watched: &[Text],
    records: &mut Numbered<Record>,
) -> (Client<R, W>, Result<Answer, Refusal>)
    ensures { Watches number path.now script.now limit watched.now served.old client records.old
        served.new result.0 records.new result.1 }
{
    match outside_of(alloc, client, served, number) {
        Ok(both) => {
            let tree = &mut served.tree;
            let (both, run) = open_watched(tree, alloc, both, path, script, limit, watched);
            let client = client_of(alloc, both, served);
            let answer = recorded(alloc, client.is_cut(), run, records);
            (client, answer)
        }
        Err(client) => (client, Err(Refusal::Memory)),
    }
}

/// What is said of an evaluation that was watched, whose record is kept.
fn recorded(
    alloc: Global,
    cut: bool,
    run: Result<(OpenEnd, Record), OpenUnwatched>,
    records: &mut Numbered<Record>,
) -> Result<Answer, Refusal>
    ensures { SaysRecord cut run records.old result records.new }
{
    match run {
        Ok((end, kept)) => {
            let ended = ended(alloc, cut, &end)?;
            let lines = lines_of(alloc, kept.crossings())?;
            let number = records.add(kept)?;
            Ok(Answer::Watched(Watched {
                ended,
                number,
                lines,
            }))
        }
        Err(OpenUnwatched::Refused(refused)) => Err(refusal_of(refused)),
        Err(OpenUnwatched::Deleted(_deletion)) => Err(Refusal::Deleted),
    }
}

/// Why there was no run, or none that came to its end.
pub(crate) fn refusal_of(refused: Refused) -> Refusal
    ensures { result ≡ of_refused refused }
{
    match refused {
        Refused::Memory => Refusal::Breaks,
        Refused::Broken => Refusal::Broken,
        Refused::NoInterpreter => Refusal::Nobody,
        Refused::CountTooLarge => Refusal::TooManySteps,
        Refused::TooLong => Refusal::TooLong,
    }
}
