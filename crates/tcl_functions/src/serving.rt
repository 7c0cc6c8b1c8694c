//! Functions and a host, which stand outside of a tree together.
ghost use Rattle.std.specs.Prelude.{◌≡◌, ◌<◌, ◌≤◌, [], false, true, IfErr, MatchResult};
ghost use Rattle.std.specs.Prelude.{OnOk};
ghost use Rattle.tcl_core.specs.Paths.{Path};
ghost use Rattle.tcl_functions.specs.Actions.{action_of};
ghost use Rattle.tcl_functions.specs.Replies.{seen};
ghost use Rattle.tcl_functions.specs.Serving.{Begins, ClosesByExit, EndsSo, Hands, HearsEnd};
ghost use Rattle.tcl_functions.specs.Serving.{IsSpent, Reopens, Serves, TakesReply, going};
ghost use Rattle.tcl_functions.specs.Serving.{most_entries};
ghost use Rattle.tcl_flow.specs.View.{completion_of};
ghost use Rattle.tcl_run.specs.Ends.{IfEnded, Interrupts};
ghost use Rattle.tcl_run.specs.Entering.{whole_entry};
ghost use Rattle.tcl_run.specs.Outsides.{OnEntry};
ghost use Rattle.tcl_tree.specs.TreeOf.{Names};

use crate::action::Action;
use crate::call::{Call, words_of};
use crate::functions::Functions;
use crate::handing::handed;
use crate::replies::reply_of;
use std::alloc::{AllocError, Global};
use tcl_flow::completion::Completion;
use tcl_host::host::{Host, ask};
use tcl_run::entry::Entry;
use tcl_run::failure::plain_failure;
use tcl_run::interruption::Interruption;
use tcl_run::outside::{Happening, Outside, Turn};
use tcl_text::text::Text;
use tcl_tree::tree::{Place, Tree};
use tcl_value::value::Value;

/// What a call ends by, as an error, whose function has handed in as many entries as it may.
pub const TOO_MANY_ENTRIES: &str = "too many entries";

/// Functions of an embedder, and a host: the functions answer the calls of aliases that lead past
/// the top of the tree, and the host all requests. They refuse no step, and answer no call by a
/// cut.
///
/// In all, the functions may hand in 18446744073709551615 entries; what would be one more ends its
/// call by the error [`TOO_MANY_ENTRIES`].
pub struct WithFunctions<F, H> {
    functions: F,
    host: H,
    // the open calls of functions, the last one opened last
    calls: Vec<Call>,
    // how many entries may still be handed in
    entries: u64,
    // whether an entry of the last open call ended by an exit
    exits: bool,
}

impl<F: Drop, H: Drop> Drop for WithFunctions<F, H> {
    fn drop(self) {
        let WithFunctions {
            functions: _functions,
            host: _host,
            calls: _calls,
            entries: _,
            exits: _,
        } = self;
    }
}

impl<F: Functions, H: Host> WithFunctions<F, H> {
    /// These functions and this host, with no call open.
    pub fn new(alloc: Global, functions: F, host: H) -> WithFunctions<F, H>
        ensures functions { result.functions ≡ functions }
        ensures host { result.host ≡ host }
        ensures calls { result.calls.items ≡ [] }
        ensures entries { result.entries ≡ most_entries }
        ensures exits { result.exits ≡ false }
    {
        WithFunctions {
            functions,
            host,
            calls: Vec::new(alloc),
            entries: u64::MAX,
            exits: false,
        }
    }

    /// The functions.
    pub fn functions(&self) -> &F
        ensures { result.now ≡ self.now.functions }
    {
        &self.functions
    }

    /// The host.
    pub fn host(&self) -> &H
        ensures { result.now ≡ self.now.host }
    {
        &self.host
    }

    /// The functions and the host.
    pub fn into_parts(self) -> (F, H)
        ensures { result ≡ (self.functions, self.host) }
    {
        let WithFunctions {
            functions,
            host,
            calls: _calls,
            entries: _,
            exits: _,
        } = self;
        (functions, host)
    }

    /// A function is called by the interpreter that the place names.
    fn begin(
        &mut self,
        alloc: Global,
        tree: &Tree,
        caller: Place,
        entry: &Entry,
    ) -> Result<(), AllocError>
        ensures begins { OnOk result ((p : Path) → Names tree.now caller p →
            Begins self.old p (whole_entry entry.now) self.new) }
        ensures left { self.new.entries ≤ self.old.entries }
    {
        let path = tree.path_of(alloc, caller)?;
        let words = words_of(alloc, entry)?;
        self.calls.push(Call {
            caller: path,
            words,
            replies: Vec::new(alloc),
        })?;
        self.exits = false;
        Ok(())
    }

    /// An entry ended so that the last open call handed in; where none is open, the whole run ends.
    fn add_reply(&mut self, reply: Completion) -> Result<(), AllocError>
        ensures taken { OnOk result (TakesReply self.old (completion_of reply) self.new) }
        ensures left { self.new.entries ≤ self.old.entries }
    {
        let Some(mut call) = self.calls.pop() else {
            return Ok(());
        };
        call.replies.push(reply)?;
        self.calls.push(call)?;
        Ok(())
    }

    /// An entry ended so that a function handed in, or found nobody, which is told so.
    fn hear_end(
        &mut self,
        alloc: Global,
        ended: &Result<Value, Interruption>,
    ) -> Result<(), AllocError>
        ensures hears { OnOk result
            (IfEnded ended.now (λ r. HearsEnd (seen r) self.old self.new)) }
        ensures left { self.new.entries ≤ self.old.entries }
    {
        match reply_of(alloc, ended)? {
            Some(reply) => self.add_reply(reply),
            None => {
                self.exits = true;
                Ok(())
            }
        }
    }

    /// The last open call ends with its entry, which ended by an exit.
    fn close(&mut self) -> Result<(), AllocError>
        ensures closes { OnOk result (ClosesByExit self.old self.new) }
        ensures left { self.new.entries ≤ self.old.entries }
    {
        if !self.exits {
            return Err(AllocError);
        }
        match self.calls.pop() {
            Some(_call) => Ok(()),
            None => Err(AllocError),
        }
    }

    /// The call is open again, and hands in an entry.
    ///
    /// # Errors
    /// [`TOO_MANY_ENTRIES`]; want of memory.
    fn reopen(&mut self, alloc: Global, call: Call) -> Result<(), Interruption>
        ensures reopens { OnOk result (Reopens self.old call self.new) }
        ensures spent { IfErr result (λ e. Interrupts e (IsSpent self.old self.new)) }
        ensures fewer { OnOk result (self.new.entries < self.old.entries) }
        ensures left { self.new.entries ≤ self.old.entries }
    {
        if self.entries == 0 {
            return Err(plain_failure(alloc, TOO_MANY_ENTRIES));
        }
        self.entries -= 1;
        self.calls.push(call)?;
        Ok(())
    }

    /// What comes next to the last open call; that nobody is there, where none is open.
    fn serve(&mut self, alloc: Global) -> Result<Turn, Interruption>
        ensures serves { Serves F.serves self.old self.new result }
        ensures fewer { OnEntry result (self.new.entries < self.old.entries) }
        ensures left { self.new.entries ≤ self.old.entries }
    {
        let Some(call) = self.calls.pop() else {
            return Ok(Turn::Nobody);
        };
        let action = self.functions.call(alloc, &call)?;
        match entry_of(alloc, action) {
            Ok((target, entry)) => match self.reopen(alloc, call) {
                Ok(()) => Ok(Turn::Entry(target, entry)),
                Err(interruption) => Err(interruption),
            },
            Err(interruption) => {
                drop(call);
                Err(interruption)
            }
        }
    }
}

/// The entry that a function asks for, as it is handed in, and for which interpreter.
///
/// # Errors
/// How it ends its call, where it does; want of memory.
fn entry_of(alloc: Global, action: Action) -> Result<(Vec<Text>, Entry), Interruption>
    ensures { MatchResult result (λ x. Hands (action_of action) x.0.items (whole_entry x.1))
        (λ e. Interrupts e (EndsSo (action_of action))) }
{
    match action {
        Action::Complete(completion) => Err(Interruption::of_completion(alloc, completion)),
        Action::Enter { target, entry } => {
            let entry = handed(alloc, entry, target.as_slice())?;
            Ok((target, entry))
        }
        Action::Exit(status) => Err(Interruption::Exited(status)),
    }
}

impl<F: Functions, H: Host> Outside for WithFunctions<F, H> {
    ghost goes = { λ T o s ev z. going F.serves H.step T o s ev z };

    // what was done until an evaluation is given up is not spoken of
    ghost loses = { λ o z. Unit {0} };

    ghost entries_left = { λ o. o.entries };

    ghost hands_in = { Unit {0} };

    ghost has_steps = { λ o. true };

    fn grants_step(&self) -> bool {
        true
    }

    fn makes_step(&mut self) {}

    fn refuses_step(&mut self) {}

    fn notify(
        &mut self,
        alloc: Global,
        tree: &Tree,
        happening: Happening<'_>,
    ) -> Result<(), AllocError> {
        match happening {
            Happening::PassedTop {
                caller,
                up,
                entry,
                ..
            } => match up {
                Some(_) => self.begin(alloc, tree, caller, entry),
                None => Ok(()),
            },
            Happening::EntryDone { ended, .. } => self.hear_end(alloc, ended),
            Happening::Unfound { told, .. } => self.hear_end(alloc, told),
            Happening::ExitCameBack { up, .. } => match up {
                Some(_) => self.close(),
                None => Err(AllocError),
            },
            _ => Ok(()),
        }
    }

    fn next(
        &mut self,
        alloc: Global,
        _tree: &Tree,
        _caller: Place,
        up: Option<usize>,
        entry: &Entry,
    ) -> Result<Turn, Interruption> {
        match (up, entry) {
            (None, Entry::AskHost(request)) => {
                Ok(Turn::Heard(ask(&mut self.host, alloc, request)?))
            }
            (None, _) => Ok(Turn::Nobody),
            (Some(_), _) => self.serve(alloc),
        }
    }
}
