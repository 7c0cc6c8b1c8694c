//! What an embedder implements.
ghost use Rattle.std.specs.Prelude.{IfOk};
ghost use Rattle.tcl_functions.specs.Actions.{ActionView, action_of};
ghost use Rattle.tcl_functions.specs.declared.call.Call.{Call};

use crate::action::Action;
use crate::call::Call;
use std::alloc::{AllocError, Global};

/// Functions of an embedder, by their names.
///
/// A function is asked what it does next for a call, once or more: it may enter interpreters of the
/// tree, as the one that calls, before it ends the call. So it can be written over the replies that
/// the call has so far, and needs no state of its own for that. While an entry is done, other calls
/// may come and end; each has its own replies.
pub trait Functions {
    // from one state to the next, by what is done next for an open call
    ghost serves: { Self → Call → ActionView → Self → Type 0 };

    /// What the function does next for the call.
    ///
    /// # Errors
    /// Want of memory, which ends the whole run (401).
    fn call(&mut self, alloc: Global, call: &Call) -> Result<Action, AllocError>
        ensures { IfOk result (λ action. serves self.old call.now (action_of action) self.new) };
}
