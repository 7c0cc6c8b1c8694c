//! How the end of an evaluation is told to the outside, as it is.
ghost use Rattle.std.specs.Prelude.{◌≡◌, IfOk};
ghost use Rattle.tcl_player.specs.Answering.{IsExitOf};
ghost use Rattle.tcl_run.specs.Ends.{IfEnded, Interrupts};
ghost use Rattle.tcl_recorder.specs.Crossings.{reply_of};

use std::alloc::AllocError;
use tcl_recorder::crossing::{Reply, copy_completion};
use tcl_run::interruption::{Cause, Interruption};
use tcl_value::value::Value;

/// How an end is told that is no ordinary result.
///
/// # Errors
/// Want of memory, that of the evaluation too. (An evaluation that was cut off since the run is
/// over isn't told of: it is answered so too.)
fn interruption_told(interruption: &Interruption) -> Result<Reply, AllocError>
    ensures { IfOk result (λ told. Interrupts interruption.now (λ e. reply_of told ≡ e)) }
{
    match interruption {
        Interruption::Memory => Err(AllocError),
        Interruption::Completed(completion) => Ok(Reply::Completed(copy_completion(completion)?)),
        Interruption::Stopped(stop) => Ok(Reply::Stopped(*stop)),
        Interruption::Exited(status) => Ok(Reply::Exited(*status)),
        Interruption::Cut(Cause::Above) => Ok(Reply::Ended),
        Interruption::Cut(Cause::Over) => Err(AllocError),
    }
}

/// How an end is told.
///
/// # Errors
/// Those of an interruption.
pub(crate) fn end_told(ended: &Result<Value, Interruption>) -> Result<Reply, AllocError>
    ensures { IfOk result (λ told. IfEnded ended.now (λ e. reply_of told ≡ e)) }
{
    match ended {
        Ok(value) => Reply::of_value(value),
        Err(interruption) => interruption_told(interruption),
    }
}

/// The status of an exit, where it is one.
pub(crate) fn exit_of(reply: &Reply) -> Option<i64>
    ensures { IsExitOf (reply_of reply.now) result }
{
    match reply {
        Reply::Exited(status) => Some(*status),
        _ => None,
    }
}
