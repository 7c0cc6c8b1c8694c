//! `exit`.
ghost use Rattle.std.specs.Prelude.{◌≡◌};
ghost use Rattle.tcl_core.specs.Endings.Reply.{Completed};
ghost use Rattle.tcl_language.specs.Hosting as hosting;
ghost use Rattle.tcl_run.specs.Ends.{Interrupts, failing};
ghost use Rattle.tcl_run.specs.Plain.{Acts};
ghost use Rattle.tcl_run.specs.Runs.{IsLevel};
ghost use Rattle.tcl_commands.specs.Exiting.{IsExit};
ghost use Rattle.tcl_text.specs.Messages as messages;

use crate::steps::word_integer;
use std::alloc::Global;
use tcl_run::failure::{plain_failure, wrong_args};
use tcl_run::interruption::Interruption;
use tcl_text::messages::BAD_STATUS;
use tcl_tree::tree::{Place, Tree};
use tcl_value::value::Value;

/// The error of a status that no run ends with.
fn bad_status(alloc: Global) -> Interruption
    ensures { Interrupts result (λ e. e ≡ Completed (failing messages.bad_status)) }
{
    plain_failure(alloc, BAD_STATUS)
}

/// The end of the run with a status, or the error that none has it.
fn exit_with(alloc: Global, status: i64) -> Interruption
    ensures { IsExit status result }
{
    if (0..=255).contains(&status) {
        Interruption::Exited(status)
    } else {
        bad_status(alloc)
    }
}

/// `exit ?status?`: the whole run ends, with status 0 where none is given.
///
/// # Errors
/// The end; 241; 111 and 112 of the status, and 264 where it isn't from 0 to 255; want of memory.
pub fn exit(
    tree: &mut Tree,
    alloc: Global,
    place: Place,
    args: &[Value],
) -> Result<Value, Interruption>
    ensures acts { Acts tree.old place (λ style. hosting.exit_with style args.now) tree.new result }
    ensures level { IsLevel tree.old tree.new }
{
    match args {
        [] => Err(Interruption::Exited(0)),
        [status] => {
            let status = word_integer(tree, alloc, status)?;
            Err(exit_with(alloc, status))
        }
        _ => Err(wrong_args(alloc, "exit ?status?")),
    }
}
