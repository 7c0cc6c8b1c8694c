//! The recorder of one boundary.
ghost use Rattle.std.specs.Prelude.{◌≡◌, false, [], ◌∷◌, ◌++◌, OnOk};
ghost use Rattle.tcl_core.specs.Execution.{event};
ghost use Rattle.tcl_core.specs.Trees.What.{In, Done};
ghost use Rattle.tcl_run.specs.Ends.{IfEnded};
ghost use Rattle.tcl_run.specs.Entering.{whole_entry};

use crate::record::Record;
use std::alloc::{AllocError, Global};
use tcl_run::entry::Entry;
use tcl_run::interruption::Interruption;
use tcl_run::outside::{Happening, Outside, Turn};
use tcl_text::text::Text;
use tcl_tree::tree::{Place, Tree};
use tcl_value::value::Value;

/// An outside that records what crosses the boundary of one interpreter, and whether that one was
/// dropped: from then on nothing more is recorded.
///
/// Where memory is wanted to record what the outside that it holds has answered, or handed in,
/// that is passed on nevertheless, since the outside is past it. From then on the record is
/// incomplete, and whatever happens next is answered by want of memory.
#[derive(Drop)]
pub struct Recorder<O> {
    outside: O,
    kept: Record,
    deleted: bool,
    incomplete: bool,
}

impl<O: Outside> Recorder<O> {
    ghost use Rattle.tcl_core.specs.Paths.{Path};
    ghost use Rattle.tcl_core.specs.Programs.{either};
    ghost use Rattle.tcl_core.specs.Trees.What.{Dropped};
    ghost use Rattle.tcl_tree.specs.TreeOf.{Names};
    ghost use Rattle.tcl_recorder.specs.Recording.{falls, noted};

    /// A recorder of the interpreter at a path, which holds an outside. The interpreter wasn't
    /// dropped yet.
    pub fn new(alloc: Global, outside: O, watched: Vec<Text>) -> Recorder<O>
        ensures { result
            ≡ record {
              outside = outside;
              kept = record { watched = watched.items; crossings = [] };
              deleted = false;
              incomplete = false;
            } }
    {
        Recorder {
            outside,
            kept: Record::new(alloc, watched),
            deleted: false,
            incomplete: false,
        }
    }

    /// The outside that it held, the record, and whether the interpreter was dropped.
    pub fn into_parts(self) -> (O, Record, bool)
        ensures { result ≡ (self.outside, self.kept, self.deleted) }
    {
        let Recorder {
            outside,
            kept,
            deleted,
            incomplete: _,
        } = self;
        (outside, kept, deleted)
    }

    // Nothing is missing from the record.
    fn goes_on(&self) -> Result<(), AllocError>
        ensures { OnOk result (self.now.incomplete ≡ false) }
    {
        if self.incomplete {
            return Err(AllocError);
        }
        Ok(())
    }

    // The child of this name was dropped, with all below it.
    fn note_drop(
        &mut self,
        alloc: Global,
        tree: &Tree,
        parent: Place,
        name: &Text,
    ) -> Result<(), AllocError>
        ensures fate { OnOk result ((p : Path) → Names tree.now parent p →
            self.new.deleted ≡ either
            (falls self.old.kept.watched (event (p ++ name.now ∷ []) Dropped)) self.old.deleted) }
        ensures kept { self.new.kept ≡ self.old.kept }
        ensures outside { self.new.outside ≡ self.old.outside }
        ensures incomplete { self.new.incomplete ≡ self.old.incomplete }
    {
        let mut path = tree.path_of(alloc, parent)?;
        path.push(name.clone()?)?;
        if self.kept.falls_with(path.as_slice()) {
            self.deleted = true;
        }
        Ok(())
    }

    /// An entry of a run comes to the interpreter at a path, of which the outside that it holds
    /// isn't told.
    ///
    /// # Errors
    /// Want of memory.
    pub fn entry_begins(
        &mut self,
        alloc: Global,
        target: &[Text],
        entry: &Entry,
    ) -> Result<(), AllocError>
        ensures noted { OnOk result
            (self.new ≡ noted self.old (event target.now (In None (whole_entry entry.now)))) }
        ensures outside { self.new.outside ≡ self.old.outside }
    {
        if self.deleted {
            return Ok(());
        }
        self.kept.entry_comes(alloc, target, entry)
    }

    /// It ends.
    ///
    /// # Errors
    /// Want of memory, that of the evaluation too.
    pub fn entry_ends(
        &mut self,
        alloc: Global,
        target: &[Text],
        ended: &Result<Value, Interruption>,
    ) -> Result<(), AllocError>
        ensures { OnOk result
            (IfEnded ended.now (λ r. self.new ≡ noted self.old (event target.now (Done None r)))) }
    {
        if self.deleted {
            return Ok(());
        }
        self.kept.entry_ends(alloc, target, ended)
    }
}

#[tactic(auto, using(tcl_run::proofs::Losing::losing))]
impl<O: Outside> Outside for Recorder<O> {
    ghost use Rattle.tcl_recorder.specs.Recording.{Records};
    ghost use Rattle.tcl_run.specs.Runs.{IsLoss};

    ghost goes = { λ T o s ev z. Records O.goes T o s ev z };

    // of what is recorded until an evaluation is given up nothing is said, but of the outside
    ghost loses = { λ o z. IsLoss O.loses o.outside z.outside };

    ghost entries_left = { λ o. O.entries_left o.outside };

    ghost hands_in = { O.hands_in };

    ghost has_steps = { λ o. O.has_steps o.outside };

    fn grants_step(&self) -> bool {
        self.outside.grants_step()
    }

    fn makes_step(&mut self) {
        self.outside.makes_step();
    }

    fn refuses_step(&mut self) {
        self.outside.refuses_step();
    }

    fn notify(
        &mut self,
        alloc: Global,
        tree: &Tree,
        happening: Happening<'_>,
    ) -> Result<(), AllocError> {
        self.goes_on()?;
        self.outside.notify(alloc, tree, happening)?;
        if self.deleted {
            return Ok(());
        }
        match happening {
            Happening::Dropped { parent, name } => self.note_drop(alloc, tree, parent, name),
            Happening::Entered {
                caller,
                up,
                down,
                entry,
            } => {
                let path = tree.path_of(alloc, caller)?;
                self.kept
                    .call_enters(alloc, path.as_slice(), up, down, entry)
            }
            Happening::Returned {
                caller,
                up,
                down,
                ended,
                told,
            } => {
                let path = tree.path_of(alloc, caller)?;
                self.kept
                    .call_returns(alloc, path.as_slice(), up, down, ended, told)
            }
            Happening::Missed {
                caller,
                up,
                down,
                entry,
                told,
            } => {
                let path = tree.path_of(alloc, caller)?;
                self.kept
                    .call_misses(alloc, path.as_slice(), up, down, entry, told)
            }
            Happening::PassedTop {
                caller,
                up,
                down,
                entry,
            } => {
                let path = tree.path_of(alloc, caller)?;
                self.kept.call_goes(alloc, path.as_slice(), up, down, entry)
            }
            Happening::EntryDone { target, ended } => self.kept.entry_ends(alloc, target, ended),
            Happening::Unfound {
                target,
                entry,
                told,
            } => self.kept.stray_comes(alloc, target, entry, told),
            Happening::ExitCameBack {
                caller,
                up,
                status,
                ..
            } => {
                let path = tree.path_of(alloc, caller)?;
                self.kept.exit_comes(alloc, path.as_slice(), up, status)
            }
        }
    }

    fn next(
        &mut self,
        alloc: Global,
        tree: &Tree,
        caller: Place,
        up: Option<usize>,
        entry: &Entry,
    ) -> Result<Turn, Interruption> {
        self.goes_on()?;
        if self.deleted {
            return self.outside.next(alloc, tree, caller, up, entry);
        }
        let path = tree.path_of(alloc, caller)?;
        let gone = tree.is_gone(caller);
        let turn = self.outside.next(alloc, tree, caller, up, entry);
        let noted = self
            .kept
            .turn_comes(alloc, tree, path.as_slice(), gone, up, &turn);
        self.incomplete = noted.is_err();
        turn
    }
}
