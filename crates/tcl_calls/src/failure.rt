//! The errors of asking interpreters.
#![tactic(auto, using(tcl_run::proofs::Losing::losing))]

ghost use Rattle.std.specs.Prelude.{◌≡◌};
ghost use Rattle.tcl_core.specs.Endings.Reply.{Completed};
ghost use Rattle.tcl_language.specs.Interpreters as interpreters;
ghost use Rattle.tcl_run.specs.Ends.{Interrupts, failing};
ghost use Rattle.tcl_calls.specs.Naming.{Tells, hiding_text};
ghost use Rattle.tcl_text.specs.Messages as messages;

use std::alloc::Global;
use tcl_run::failure::{
    already_exists, bad_name, denied, failure_about, failure_quoting, invalid_command,
    invalid_hidden, plain_failure,
};
use tcl_run::interruption::Interruption;
use tcl_text::messages::{BAD_DEPTH_LIMIT, TOO_MANY};
use tcl_tree::refusal::TreeError;

/// The error that a refusal to name a command is, with the word that is wrong.
pub fn refusal_failure(alloc: Global, refusal: TreeError, word: &str) -> Interruption
    ensures { Tells refusal (interpreters.refusal_text refusal word.now) result }
{
    match refusal {
        TreeError::Memory => Interruption::Memory,
        TreeError::BadName => bad_name(alloc, word),
        TreeError::Exists => already_exists(alloc, word),
        TreeError::NoCommand => invalid_command(alloc, word),
        TreeError::NoHidden => invalid_hidden(alloc, word),
        TreeError::BadCount
        | TreeError::NoInterpreter
        | TreeError::Denied
        | TreeError::TooMany
        | TreeError::CountLimit(_)
        | TreeError::DepthLimit(_)
        | TreeError::BadDepthLimit => denied(alloc),
    }
}

/// The error that a refusal to hide a command is: no such command, or a name that can't be given.
pub fn hiding_failure(alloc: Global, refusal: TreeError, name: &str, hidden: &str) -> Interruption
    ensures { Tells refusal (hiding_text refusal name.now hidden.now) result }
{
    match refusal {
        TreeError::NoCommand => invalid_command(alloc, name),
        other => refusal_failure(alloc, other, hidden),
    }
}

/// The interpreter is the one that asks, which doesn't delete itself.
pub fn in_use(alloc: Global, path: &str) -> Interruption
    ensures { Interrupts result (λ e. e ≡ Completed (failing (interpreters.in_use path.now))) }
{
    failure_quoting(alloc, "interpreter ", path, " is in use")
}

/// No number of steps may be this.
pub fn bad_count(alloc: Global, word: &str) -> Interruption
    ensures { Interrupts result (λ e. e ≡ Completed (failing (interpreters.bad_count word.now))) }
{
    failure_about(alloc, "bad count ", word)
}

/// The interpreter has as many children as it may have.
pub fn too_many(alloc: Global) -> Interruption
    ensures { Interrupts result (λ e. e ≡ Completed (failing messages.too_many)) }
{
    plain_failure(alloc, TOO_MANY)
}

/// No limit of depth may be this.
pub fn bad_depth_limit(alloc: Global) -> Interruption
    ensures { Interrupts result (λ e. e ≡ Completed (failing messages.bad_depth_limit)) }
{
    plain_failure(alloc, BAD_DEPTH_LIMIT)
}
