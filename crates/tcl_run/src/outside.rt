//! What stands outside of a tree.
ghost use Rattle.std.specs.Prelude.{◌≡◌, ℕ, ◌≤◌, ◌<◌, ◌&&◌, Bool, true, false, None, OnOk};
ghost use Rattle.tcl_core.specs.Paths.{Path, rise_to};
ghost use Rattle.tcl_core.specs.Programs.{Wait};
ghost use Rattle.tcl_core.specs.Execution.{event};
ghost use Rattle.tcl_core.specs.Trees as core;
ghost use Rattle.tcl_core.specs.Trees.{Event};
ghost use Rattle.tcl_core.specs.Endings.Meter.{Count};
ghost use Rattle.tcl_core.specs.Trees.What.{Charged, Refused};
ghost use Rattle.tcl_run.specs.Ends.{WhereMemory};
ghost use Rattle.tcl_run.specs.Entering.{whole_entry};
ghost use Rattle.tcl_run.specs.Notifying.{Notified};
ghost use Rattle.tcl_run.specs.Outsides.{ComesNext, IsAsked, OnEntry, hosted};
ghost use Rattle.tcl_tree.specs.Gone.{Holds};
ghost use Rattle.tcl_tree.specs.Own.{Own};
ghost use Rattle.tcl_tree.specs.TreeOf.{tree_of};

use crate::entry::Entry;
use crate::interruption::Interruption;
use std::alloc::{AllocError, Global};
use tcl_host::host::{Host, ask};
use tcl_host::reply::HostReply;
use tcl_text::text::Text;
use tcl_tree::tree::{Place, Tree};
use tcl_value::value::Value;

/// What comes next to a call that passed the top of its tree.
#[derive(Drop)]
pub enum Turn {
    /// An entry into the interpreter at a path.
    Entry(Vec<Text>, Entry),
    /// The ordinary result of the call.
    Completed(Value),
    /// What the host says to a request.
    Heard(HostReply),
    /// Nobody is there who could answer the call, which isn't the host's.
    Nobody,
}

/// What an outside is told of: what happened in the tree, or at its top.
#[derive(Clone, Copy)]
pub enum Happening<'a> {
    /// The child of this name was dropped, with all below it.
    Dropped {
        /// The interpreter whose child it was.
        parent: Place,
        /// The child's name.
        name: &'a Text,
    },
    /// The caller's call goes out, so many levels up and these names down, and comes in there.
    Entered {
        /// The interpreter that calls.
        caller: Place,
        /// How many levels up the call goes.
        up: usize,
        /// By which names it goes down from there.
        down: &'a [Text],
        /// What is asked for there.
        entry: &'a Entry,
    },
    /// The caller's call is done there by one end, and answered by another: by what that end is to
    /// the caller, which may be gone.
    Returned {
        /// The interpreter that called.
        caller: Place,
        /// How many levels up the call went.
        up: usize,
        /// By which names it went down from there.
        down: &'a [Text],
        /// How it ended there.
        ended: &'a Result<Value, Interruption>,
        /// How the caller is answered.
        told: &'a Result<Value, Interruption>,
    },
    /// The caller's call finds nobody, and is answered by that.
    Missed {
        /// The interpreter that calls.
        caller: Place,
        /// How many levels up the call goes.
        up: usize,
        /// By which names it goes down from there.
        down: &'a [Text],
        /// What is asked for.
        entry: &'a Entry,
        /// How the caller is answered.
        told: &'a Result<Value, Interruption>,
    },
    /// The caller's call passes the top of the tree.
    PassedTop {
        /// The interpreter that calls.
        caller: Place,
        /// How many levels up the call goes; none where it goes to the host.
        up: Option<usize>,
        /// By which names it goes down from there.
        down: &'a [Text],
        /// What is asked for.
        entry: &'a Entry,
    },
    /// An entry that was handed in is done by the interpreter at the path.
    EntryDone {
        /// The path of that interpreter.
        target: &'a [Text],
        /// How the entry ended.
        ended: &'a Result<Value, Interruption>,
    },
    /// An entry that was handed in finds nobody at its path, and is told that.
    Unfound {
        /// The path.
        target: &'a [Text],
        /// What is asked for there.
        entry: &'a Entry,
        /// What is told.
        told: &'a Result<Value, Interruption>,
    },
    /// The caller's call, in which an entry that was handed in ended by this exit, ends by it too.
    ExitCameBack {
        /// The interpreter that called. It may be gone.
        caller: Place,
        /// How many levels up the call went; none where it went to the host.
        up: Option<usize>,
        /// What was asked for.
        entry: &'a Entry,
        /// The status of the exit.
        status: i64,
    },
}

/// What stands outside of a tree. It is told of each crossing between two interpreters of the tree,
/// and asked for what passes the tree's top; it grants steps, and is told of each, and of each
/// interpreter that is dropped.
pub trait Outside {
    // from one state to the next, by what it is told, the tree being what it then is
    ghost goes: { core.Tree Own → Self → Wait → Event Own → Self → Type 0 };

    // what may have become of a state, where an evaluation is given up, by all that it is told, by
    // a question for which it wants memory, and by an entry that it hands in
    ghost loses: { Self → Self → Type 0 };

    // how many entries it may still hand in
    ghost entries_left: { Self → ℕ };

    // whether it hands in entries at all
    ghost hands_in: { Type 0 };

    // whether it grants a step more
    ghost has_steps: { Self → Bool };

    /// Whether it grants a step more.
    fn grants_step(&self) -> bool
        ensures { result ≡ has_steps self.now };

    /// A step is made that it granted.
    fn makes_step(&mut self)
        requires { has_steps self.old ≡ true }
        ensures told { (T : core.Tree Own) (p : Path) →
            goes T self.old None (event p Charged) self.new }
        ensures lost { loses self.old self.new }
        ensures left { entries_left self.new ≤ entries_left self.old };

    /// It refuses a step, having none left.
    fn refuses_step(&mut self)
        ensures told { has_steps self.old ≡ false → (T : core.Tree Own) (p : Path) →
            goes T self.old None (event p (Refused Count None)) self.new }
        ensures lost { loses self.old self.new }
        ensures left { entries_left self.new ≤ entries_left self.old };

    /// It is told of what happened in the tree, or at its top.
    ///
    /// # Errors
    /// Want of memory.
    fn notify(
        &mut self,
        alloc: Global,
        tree: &Tree,
        happening: Happening<'_>,
    ) -> Result<(), AllocError>
        ensures told { OnOk result
            (Notified goes hands_in tree.now self.old happening.entry self.new) }
        ensures lost { loses self.old self.new }
        ensures left { entries_left self.new ≤ entries_left self.old };

    /// What comes next to the caller's call, which passed the top of the tree. A caller that is
    /// gone is told of no completion, and of no word of the host (`told_to`).
    ///
    /// # Errors
    /// How the call ended otherwise than by an ordinary result; want of memory.
    fn next(
        &mut self,
        alloc: Global,
        tree: &Tree,
        caller: Place,
        up: Option<usize>,
        entry: &Entry,
    ) -> Result<Turn, Interruption>
        requires asked { IsAsked up (whole_entry entry.now) }
        requires held { (p : Path) × (d : ℕ) × Holds tree.now caller p d }
        ensures comes { (p : Path) (d : ℕ) → Holds tree.now caller p d → rise_to up p ≡ None →
            ComesNext goes hands_in (tree_of tree.now) self.old p d up (whole_entry entry.now)
            self.new result }
        ensures lost { WhereMemory result (loses self.old self.new) }
        ensures handed { OnEntry result (loses self.old self.new) }
        ensures fewer { OnEntry result (entries_left self.new < entries_left self.old) }
        ensures left { entries_left self.new ≤ entries_left self.old };
}

/// A host by itself: it does what it is asked, hands in nothing, and above the tree no interpreter
/// is.
impl<H: Host> Outside for H {
    ghost goes = { λ T o s ev u. hosted H.step T o s ev u };

    ghost loses = { λ o z. z ≡ o };

    ghost entries_left = { λ o. 0 };

    ghost hands_in = { Prim.⊥ };

    ghost has_steps = { λ o. true };

    fn grants_step(&self) -> bool {
        true
    }

    fn makes_step(&mut self) {}

    fn refuses_step(&mut self) {}

    fn notify(
        &mut self,
        _alloc: Global,
        _tree: &Tree,
        _happening: Happening<'_>,
    ) -> Result<(), AllocError> {
        Ok(())
    }

    fn next(
        &mut self,
        alloc: Global,
        _tree: &Tree,
        _caller: Place,
        up: Option<usize>,
        entry: &Entry,
    ) -> Result<Turn, Interruption> {
        match (up, entry) {
            (None, Entry::AskHost(request)) => Ok(Turn::Heard(ask(self, alloc, request)?)),
            _ => Ok(Turn::Nobody),
        }
    }
}
