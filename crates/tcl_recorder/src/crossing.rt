//! What crosses the boundary of an interpreter.
ghost use Rattle.std.specs.Prelude.{◌≡◌, IfOk};
ghost use Rattle.tcl_core.specs.Endings.{ok};
ghost use Rattle.tcl_core.specs.Endings as core;
ghost use Rattle.tcl_core.specs.Trees.{seen_reply};
ghost use Rattle.tcl_flow.specs.Stopping as stopping;
ghost use Rattle.std.specs.Option.{option_copied};
ghost use Rattle.tcl_flow.specs.View.{completion_of, errorcode_of};
ghost use Rattle.tcl_run.specs.Ends.{IfEnded, Interrupts};

use std::alloc::AllocError;
use tcl_flow::completion::{self, Completion, Options};
use tcl_flow::stop::{Stop, StopKind};
use tcl_host::reply::HostReply;
use tcl_run::entry::Entry;
use tcl_run::interruption::Interruption;
use tcl_text::text::Text;
use tcl_value::value::Value;

/// How an entry ended, as it is told in the watched interpreter.
#[derive(Drop)]
pub enum Reply {
    /// By a completion.
    Completed(Completion),
    /// By a stop, which names the watched interpreter or one below it. Where one above it is gone
    /// the stop names the watched one, which is gone with it.
    Stopped(Stop),
    /// By the exit of the whole run.
    Exited(i64),
    /// It was ended from outside the watched interpreter, as by a stop for a limit of one above it.
    Ended,
}

/// What came back to a call.
#[derive(Drop)]
pub enum Answer {
    /// How the call ended.
    Replied(Reply),
    /// What the host said to a request.
    Heard(HostReply),
    /// Nobody was there who could have answered it.
    Nobody,
}

/// What crosses the boundary of an interpreter. Paths lead from it downward.
#[derive(Drop)]
pub enum Crossing {
    /// An entry into the interpreter at a path.
    In {
        target: Vec<Text>,
        entry: Entry,
    },
    /// The end of such an entry.
    Done {
        target: Vec<Text>,
        reply: Reply,
    },
    /// A call of the interpreter at a path, so many levels up from it, or to the host, and these
    /// names down.
    Out {
        caller: Vec<Text>,
        up: Option<usize>,
        down: Vec<Text>,
        entry: Entry,
    },
    /// The answer to such a call.
    Back {
        caller: Vec<Text>,
        up: Option<usize>,
        answer: Answer,
    },
}

impl Crossing {
    ghost use Rattle.tcl_recorder.specs.Crossings.{levels_above};

    /// How many levels above the watched interpreter the way of a call goes up; none where it goes
    /// to the host, and none of an entry.
    pub fn levels_above(&self) -> Option<usize>
        ensures { result ≡ levels_above self.now }
    {
        match self {
            Crossing::Out { caller, up, .. } | Crossing::Back { caller, up, .. } => match up {
                Some(levels) => Some(levels.saturating_sub(caller.len())),
                None => None,
            },
            Crossing::In { .. } | Crossing::Done { .. } => None,
        }
    }
}

/// The same errorcode again.
fn copy_errorcode(errorcode: Option<&Value>) -> Result<Option<Value>, AllocError>
    ensures { IfOk result (λ made. errorcode_of made
        ≡ errorcode_of (option_copied errorcode.entry)) }
{
    match errorcode {
        Some(errorcode) => Ok(Some(errorcode.clone()?)),
        None => Ok(None),
    }
}

/// How a completion is told again. Its values share what they keep.
pub fn copy_completion(completion: &Completion) -> Result<Completion, AllocError>
    ensures { IfOk result (λ made. completion_of made ≡ completion_of completion.now) }
{
    Ok(Completion {
        code: completion.code,
        text: completion.text.clone()?,
        options: Options {
            code: completion.options.code,
            level: completion.options.level,
            errorcode: copy_errorcode(completion.options.errorcode.as_ref())?,
        },
    })
}

/// The same reply of a host again.
pub fn copy_heard(reply: &HostReply) -> Result<HostReply, AllocError>
    ensures { IfOk result (λ made. made ≡ reply.now) }
{
    match reply {
        HostReply::Opened(channel) => Ok(HostReply::Opened(channel.clone()?)),
        HostReply::Line(line) => Ok(HostReply::Line(line.clone()?)),
        HostReply::End => Ok(HostReply::End),
        HostReply::Rest(bytes) => Ok(HostReply::Rest(bytes.clone()?)),
        HostReply::Done => Ok(HostReply::Done),
        HostReply::AtEnd(ended) => Ok(HostReply::AtEnd(*ended)),
        HostReply::Refused(why) => Ok(HostReply::Refused(*why)),
    }
}

impl Reply {
    ghost use Rattle.tcl_recorder.specs.Crossings.{reply_of};

    /// How an ordinary result is told.
    ///
    /// # Errors
    /// Want of memory.
    pub fn of_value(value: &Value) -> Result<Reply, AllocError>
        ensures { IfOk result (λ told. reply_of told ≡ core.Reply.Completed (ok value.now)) }
    {
        Ok(Reply::Completed(completion::ok(value.clone()?)))
    }

    /// How a stop is told that ends an evaluation at this path.
    fn of_stop(stop: Stop, path: &[Text]) -> Reply
        ensures { reply_of result ≡ seen_reply path.now (stopping.reply_of stop) }
    {
        if stop.levels_up <= path.len() {
            return Reply::Stopped(stop);
        }
        match stop.kind {
            StopKind::Gone => Reply::Stopped(Stop {
                levels_up: path.len(),
                kind: StopKind::Gone,
            }),
            StopKind::Count | StopKind::Depth => Reply::Ended,
        }
    }

    /// How the end of an evaluation at this path is told that has no ordinary result.
    ///
    /// # Errors
    /// Want of memory, that of the evaluation too.
    pub(crate) fn of_interruption(
        interruption: &Interruption,
        path: &[Text],
    ) -> Result<Reply, AllocError>
        ensures { IfOk result (λ told. Interrupts interruption.now
            (λ e. reply_of told ≡ seen_reply path.now e)) }
    {
        match interruption {
            Interruption::Memory => Err(AllocError),
            Interruption::Completed(completion) => {
                Ok(Reply::Completed(copy_completion(completion)?))
            }
            Interruption::Stopped(stop) => Ok(Reply::of_stop(*stop, path)),
            Interruption::Exited(status) => Ok(Reply::Exited(*status)),
            Interruption::Cut(_) => Ok(Reply::Ended),
        }
    }

    /// How the end of an evaluation at this path is told.
    ///
    /// # Errors
    /// Want of memory, that of the evaluation too.
    pub(crate) fn of_end(
        ended: &Result<Value, Interruption>,
        path: &[Text],
    ) -> Result<Reply, AllocError>
        ensures { IfOk result (λ told. IfEnded ended.now
            (λ e. reply_of told ≡ seen_reply path.now e)) }
    {
        match ended {
            Ok(value) => Reply::of_value(value),
            Err(interruption) => Reply::of_interruption(interruption, path),
        }
    }
}
