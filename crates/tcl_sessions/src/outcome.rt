//! What evaluations came to.
ghost use Rattle.std.specs.Prelude.{◌≡◌, IfOk};
ghost use Rattle.tcl_text.specs.Writing.{written_list};
ghost use Rattle.tcl_sessions.specs.Outcomes.{ShowsCall, ShowsEnd, ShowsOptions, number_of};
ghost use Rattle.tcl_sessions.specs.Outcomes.{nothing_yet, replay_number, stop_text};

use crate::standing::OpenCall;
use std::alloc::{AllocError, Global};
use tcl_eval::running::End;
use tcl_flow::completion::Completion;
use tcl_flow::messages::DELETED;
use tcl_flow::returning::caught_options;
use tcl_flow::stop::StopKind;
use tcl_player::player;
use tcl_text::list::write_list;
use tcl_text::messages::{COUNT_LIMIT, DEPTH_LIMIT};
use tcl_text::text::Text;
use tcl_value::value::ValueError;

/// How far an evaluation came.
#[derive(Clone, Copy)]
pub enum Outcome {
    /// 0: the script completed, by an ordinary result or otherwise.
    Done,
    /// 1: a call left the tree, and waits for its answer.
    Open,
    /// 2: a limit of the root would have been passed.
    Stopped,
    /// 3: the script ended the run with a status.
    Exited,
}

impl Outcome {
    /// Its number.
    pub fn number(self) -> i32
        ensures { result ≡ number_of self }
    {
        match self {
            Outcome::Done => 0,
            Outcome::Open => 1,
            Outcome::Stopped => 2,
            Outcome::Exited => 3,
        }
    }
}

/// The number of what came of moves that were played: 0 where all were used, and no call is open; 1
/// where one is; 2 where no step was left; 3 at an exit; 4 at an end from outside; 5 where a move
/// didn't fit.
pub fn replay_number(outcome: player::Outcome) -> i32
    ensures { result ≡ replay_number outcome }
{
    match outcome {
        player::Outcome::Finished => 0,
        player::Outcome::Waiting => 1,
        player::Outcome::Spent => 2,
        player::Outcome::Exited(_) => 3,
        player::Outcome::Ended => 4,
        player::Outcome::Misfit => 5,
    }
}

/// What is told of an evaluation.
#[derive(Drop)]
pub struct Report {
    /// How far it came.
    pub outcome: Outcome,
    /// The code of the completion, or the status of the exit; else 0.
    pub code: i64,
    /// The result or the message; of a stop which limit it is; of a call that is open its words, a
    /// list; else empty.
    pub text: Text,
    /// The options of the completion, a dictionary; else empty. They are empty too where they are
    /// longer than a value may be.
    pub options: Text,
    /// The path of the interpreter whose call is open, a list; else empty.
    pub caller: Text,
}

impl Report {
    /// What is told before any evaluation: an empty result.
    ///
    /// # Errors
    /// Want of memory.
    pub(crate) fn nothing_yet(alloc: Global) -> Result<Report, AllocError>
        ensures { IfOk result (λ report. report ≡ nothing_yet) }
    {
        Report::plain(alloc, Outcome::Done, 0, "")
    }

    /// What is told of an end.
    ///
    /// # Errors
    /// Want of memory.
    pub(crate) fn of_end(alloc: Global, end: &End) -> Result<Report, AllocError>
        ensures { IfOk result (λ report. ShowsEnd end.now report) }
    {
        match end {
            End::Done(completion) => Report::of_completion(alloc, completion),
            End::Stopped(kind) => Report::plain(alloc, Outcome::Stopped, 0, stop_text(*kind)),
            End::Exit(status) => Report::plain(alloc, Outcome::Exited, *status, ""),
        }
    }

    /// What is told of a call that is open.
    ///
    /// # Errors
    /// Want of memory.
    pub(crate) fn of_call(alloc: Global, call: &OpenCall) -> Result<Report, AllocError>
        ensures { IfOk result (λ report. ShowsCall call.now report) }
    {
        Ok(Report {
            outcome: Outcome::Open,
            code: 0,
            text: list_text(alloc, call.words.as_slice())?,
            options: Text::new(alloc, "")?,
            caller: list_text(alloc, call.caller.as_slice())?,
        })
    }

    /// What is told of a completion.
    fn of_completion(alloc: Global, completion: &Completion) -> Result<Report, AllocError>
        ensures { IfOk result (λ report. ShowsEnd (End.Done completion.now) report) }
    {
        Ok(Report {
            outcome: Outcome::Done,
            code: completion.code,
            text: completion.text.text(alloc)?,
            options: options_text(alloc, completion)?,
            caller: Text::new(alloc, "")?,
        })
    }

    /// What is told where there are no options and no caller.
    fn plain(alloc: Global, outcome: Outcome, code: i64, text: &str) -> Result<Report, AllocError>
        ensures { IfOk result (λ report. report ≡ record nothing_yet
            { outcome = outcome; code = code; text = text.now }) }
    {
        Ok(Report {
            outcome,
            code,
            text: Text::new(alloc, text)?,
            options: Text::new(alloc, "")?,
            caller: Text::new(alloc, "")?,
        })
    }
}

/// The text of a stop.
fn stop_text(kind: StopKind) -> &'static str
    ensures { result.now ≡ stop_text kind }
{
    match kind {
        StopKind::Count => COUNT_LIMIT,
        StopKind::Depth => DEPTH_LIMIT,
        StopKind::Gone => DELETED,
    }
}

/// The text of a list.
fn list_text(alloc: Global, list: &[Text]) -> Result<Text, AllocError>
    ensures { IfOk result (λ text. text ≡ written_list list.now) }
{
    Text::from_string(alloc, write_list(alloc, list)?)
}

/// The options of a completion; empty where they are longer than a value may be.
fn options_text(alloc: Global, completion: &Completion) -> Result<Text, AllocError>
    ensures { IfOk result (λ text. ShowsOptions completion.now text) }
{
    match caught_options(alloc, completion) {
        Ok(options) => options.text(alloc),
        Err(ValueError::TooLong) => Text::new(alloc, ""),
        Err(ValueError::Memory) => Err(AllocError),
    }
}
