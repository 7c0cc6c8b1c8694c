//! The scripts of files: what is read of one, and how it is left.
ghost use Rattle.std.specs.Prelude.{◌≡◌};
ghost use Rattle.tcl_core.specs.Entries as core;
ghost use Rattle.tcl_language.specs.Sourcing as sourcing;
ghost use Rattle.tcl_run.specs.Outsides.{reply_of};
ghost use Rattle.tcl_calls.specs.HostCalls.{IsOpened, IsScript, LeavesFile};

use crate::replies::{refused_by_host, value_read};
use std::alloc::Global;
use tcl_flow::completion::leave_file;
use tcl_host::bytes::Bytes;
use tcl_host::reply::HostReply;
use tcl_run::interruption::Interruption;
use tcl_text::text::Text;
use tcl_value::value::Value;

/// The channel to a file that was to be opened.
///
/// # Errors
/// 262 and 267, of the file; want of memory.
pub fn opened_channel(alloc: Global, file: &Text, reply: HostReply) -> Result<Text, Interruption>
    ensures { IsOpened file.now (reply_of reply) result }
{
    match reply {
        HostReply::Opened(channel) => Ok(channel),
        HostReply::Refused(why) => Err(refused_by_host(alloc, why, file)),
        _other => Err(Interruption::Memory),
    }
}

/// The script of a file, by the replies to the read of all of it and to the close behind that.
///
/// # Errors
/// 261 and 262 of the read, and then of the close; 122 and 265; all of them of the file; want of
/// memory.
pub fn script_of_file(
    alloc: Global,
    file: &Text,
    read: HostReply,
    closed: &HostReply,
) -> Result<Value, Interruption>
    ensures { IsScript (sourcing.closed file.now (reply_of read) (reply_of closed.now)) result }
{
    match read {
        HostReply::Rest(bytes) => closed_behind(alloc, file, bytes, closed),
        HostReply::Refused(why) => Err(refused_by_host(alloc, why, file)),
        _other => Err(Interruption::Memory),
    }
}

/// The script that bytes are, where the file was closed behind them.
fn closed_behind(
    alloc: Global,
    file: &Text,
    bytes: Bytes,
    closed: &HostReply,
) -> Result<Value, Interruption>
    ensures { IsScript
        (sourcing.closed file.now (core.HostReply.TheRest bytes) (reply_of closed.now)) result }
{
    match closed {
        HostReply::Refused(why) => Err(refused_by_host(alloc, *why, file)),
        _ => value_read(alloc, file, bytes),
    }
}

/// The end of a file whose script ended so: a return comes one level nearer. (source(n))
pub fn left_file(ended: Result<Value, Interruption>) -> Result<Value, Interruption>
    ensures { LeavesFile ended result }
{
    match ended {
        Err(Interruption::Completed(completion)) => {
            let mut completion = completion;
            leave_file(&mut completion);
            Err(Interruption::Completed(completion))
        }
        other => other,
    }
}
