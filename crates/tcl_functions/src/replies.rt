//! How entries end, as a function sees it.
ghost use Rattle.std.specs.Option.{option_copied};
ghost use Rattle.std.specs.Prelude.{◌≡◌, IfOk};
ghost use Rattle.tcl_flow.specs.View.{completion_of, errorcode_of};
ghost use Rattle.tcl_functions.specs.Replies.{Sees};
ghost use Rattle.tcl_run.specs.Ends.{IfEnded, Interrupts};

use std::alloc::{AllocError, Global};
use tcl_flow::completion::{self, Completion, Options};
use tcl_run::interruption::Interruption;
use tcl_value::value::Value;

/// The completion that a function sees of an entry that it handed in; none where the entry ended by
/// an exit of the whole run, of which no function is told.
///
/// # Errors
/// Want of memory, that of the evaluation too. (Nobody cuts off an evaluation that has functions
/// outside of it: it is answered so too.)
pub(crate) fn reply_of(
    alloc: Global,
    ended: &Result<Value, Interruption>,
) -> Result<Option<Completion>, AllocError>
    ensures { IfOk result (λ reply. IfEnded ended.now (Sees reply)) }
{
    match ended {
        Ok(value) => Ok(Some(completion::ok(value.clone()?))),
        Err(interruption) => reply_of_interruption(alloc, interruption),
    }
}

/// The same of an entry that ended otherwise than by an ordinary result.
fn reply_of_interruption(
    alloc: Global,
    interruption: &Interruption,
) -> Result<Option<Completion>, AllocError>
    ensures { IfOk result (λ reply. Interrupts interruption.now (Sees reply)) }
{
    match interruption {
        Interruption::Completed(completion) => Ok(Some(copy_completion(completion)?)),
        Interruption::Stopped(stop) => Ok(Some(stop.kind.error(alloc)?)),
        Interruption::Exited(_) => Ok(None),
        Interruption::Memory | Interruption::Cut(_) => Err(AllocError),
    }
}

/// The same completion again. Its values share what they keep.
fn copy_completion(completion: &Completion) -> Result<Completion, AllocError>
    ensures { IfOk result (λ made. completion_of made ≡ completion_of completion.now) }
{
    Ok(Completion {
        code: completion.code,
        text: completion.text.clone()?,
        options: Options {
            code: completion.options.code,
            level: completion.options.level,
            errorcode: copy_errorcode(completion.options.errorcode.as_ref())?,
        },
    })
}

/// The same errorcode again.
fn copy_errorcode(errorcode: Option<&Value>) -> Result<Option<Value>, AllocError>
    ensures { IfOk result (λ made. errorcode_of made
        ≡ errorcode_of (option_copied errorcode.entry)) }
{
    match errorcode {
        Some(errorcode) => Ok(Some(errorcode.clone()?)),
        None => Ok(None),
    }
}
