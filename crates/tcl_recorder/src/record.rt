//! The record of one boundary.
ghost use Rattle.std.specs.Prelude.{◌≡◌, ◌++◌, [], Some, None, OnOk, length};
ghost use Rattle.tcl_core.specs.Endings.{ok};
ghost use Rattle.tcl_core.specs.Endings as endings;
ghost use Rattle.tcl_core.specs.Endings.Kind.{Gone};
ghost use Rattle.tcl_core.specs.Endings.Reply.{Completed, Exit};
ghost use Rattle.tcl_core.specs.Entries.Answer.{Replied, Heard, Nobody};
ghost use Rattle.tcl_core.specs.Paths.{Path, rise_to};
ghost use Rattle.tcl_core.specs.Execution.{event};
ghost use Rattle.tcl_core.specs.Trees.{seen_reply};
ghost use Rattle.tcl_core.specs.Trees.What.{Dropped, Out, In, Done, Back, Unfound};
ghost use Rattle.tcl_run.specs.Ends.{IfEnded, Interrupts};
ghost use Rattle.tcl_run.specs.Entering.{whole_entry};
ghost use Rattle.tcl_run.specs.Outsides as outsides;
ghost use Rattle.tcl_tree.specs.TreeOf.{tree_of};

use crate::crossing::{Answer, Crossing, Reply, copy_heard};
use crate::passing::{arriving, below, passing, top_of_way};
use std::alloc::{AllocError, Global};
use std::marker::Model;
use tcl_flow::stop::{Stop, StopKind};
use tcl_host::reply::HostReply;
use tcl_run::entry::Entry;
use tcl_run::interruption::Interruption;
use tcl_run::outside::Turn;
use tcl_text::text::Text;
use tcl_tree::tree::Tree;
use tcl_value::value::Value;

/// What crossed the boundary of one interpreter, in order.
#[derive(Drop)]
pub struct Record {
    watched: Vec<Text>,
    crossings: Vec<Crossing>,
}

impl Model for Record {
    ghost use Rattle.tcl_recorder.specs.Crossings.{events_of};
    ghost use Rattle.tcl_recorder.specs.Records.{RecordView};

    ghost Value = { RecordView };

    ghost view = { λ a. record
        { watched = a.watched.items; crossings = events_of a.crossings.items } };
}

impl Record {
    ghost use Rattle.tcl_recorder.specs.Crossings.{answer_of, events_of, reply_of};
    ghost use Rattle.tcl_recorder.specs.Records.{longer};
    ghost use Rattle.tcl_recorder.specs.Recording.{HasCome, Turns, after, crossed, falls, met};

    /// An empty record, of the interpreter at a path.
    pub(crate) fn new(alloc: Global, watched: Vec<Text>) -> Record
        ensures { result ≡ record { watched = watched.items; crossings = [] } }
    {
        Record {
            watched,
            crossings: Vec::new(alloc),
        }
    }

    /// The crossings so far.
    pub fn crossings(&self) -> &[Crossing]
        ensures { events_of result.now ≡ self.now.crossings }
    {
        self.crossings.as_slice()
    }

    /// The crossings.
    pub fn into_crossings(self) -> Vec<Crossing>
        ensures { events_of result.items ≡ self.crossings }
    {
        let Record {
            watched: _,
            crossings,
        } = self;
        crossings
    }

    /// Whether the watched interpreter is dropped with the one at a path: it is that one, or below
    /// it. This takes no memory.
    pub(crate) fn falls_with(&self, path: &[Text]) -> bool
        ensures { result ≡ falls self.now.watched (event path.now Dropped) }
    {
        below(path, self.watched.as_slice()).is_some()
    }

    // An entry comes to the interpreter at a path below the watched one.
    fn add_entry(&mut self, alloc: Global, path: &[Text], entry: &Entry) -> Result<(), AllocError>
        ensures { OnOk result
            (self.new ≡ longer self.old (event path.now (In None (whole_entry entry.now)))) }
    {
        self.crossings.push(Crossing::In {
            target: Vec::from_clones(alloc, path)?,
            entry: entry.copy(alloc)?,
        })?;
        Ok(())
    }

    // An entry there ends.
    fn add_end(
        &mut self,
        alloc: Global,
        path: &[Text],
        ended: &Result<Value, Interruption>,
    ) -> Result<(), AllocError>
        ensures { OnOk result
            (IfEnded ended.now (λ r. self.new
            ≡ longer self.old (event path.now (Done None (seen_reply path.now r))))) }
    {
        let reply = Reply::of_end(ended, path)?;
        self.crossings.push(Crossing::Done {
            target: Vec::from_clones(alloc, path)?,
            reply,
        })?;
        Ok(())
    }

    // An answer comes back to the interpreter at a path below the watched one.
    fn add_answer(
        &mut self,
        alloc: Global,
        path: &[Text],
        up: Option<usize>,
        answer: Answer,
    ) -> Result<(), AllocError>
        ensures { OnOk result
            (self.new ≡ longer self.old (event path.now (Back up (answer_of answer)))) }
    {
        self.crossings.push(Crossing::Back {
            caller: Vec::from_clones(alloc, path)?,
            up,
            answer,
        })?;
        Ok(())
    }

    /// The call of an interpreter goes out, so high up and these names down.
    ///
    /// # Errors
    /// Want of memory.
    pub(crate) fn call_goes(
        &mut self,
        alloc: Global,
        caller: &[Text],
        up: Option<usize>,
        down: &[Text],
        entry: &Entry,
    ) -> Result<(), AllocError>
        ensures { OnOk result
            (self.new ≡ crossed self.old
            (event caller.now (Out up down.now (whole_entry entry.now)))) }
    {
        let Some(path) = passing(self.watched.as_slice(), caller, up) else {
            return Ok(());
        };
        self.crossings.push(Crossing::Out {
            caller: Vec::from_clones(alloc, path)?,
            up,
            down: Vec::from_clones(alloc, down)?,
            entry: entry.copy(alloc)?,
        })?;
        Ok(())
    }

    /// An entry comes from outside of the tree.
    ///
    /// # Errors
    /// Want of memory.
    pub(crate) fn entry_comes(
        &mut self,
        alloc: Global,
        target: &[Text],
        entry: &Entry,
    ) -> Result<(), AllocError>
        ensures { OnOk result
            (self.new ≡ crossed self.old (event target.now (In None (whole_entry entry.now)))) }
    {
        match passing(self.watched.as_slice(), target, None) {
            Some(path) => self.add_entry(alloc, path, entry),
            None => Ok(()),
        }
    }

    /// It ends.
    ///
    /// # Errors
    /// Want of memory, that of the evaluation too.
    pub(crate) fn entry_ends(
        &mut self,
        alloc: Global,
        target: &[Text],
        ended: &Result<Value, Interruption>,
    ) -> Result<(), AllocError>
        ensures { OnOk result
            (IfEnded ended.now (λ r. self.new
            ≡ crossed self.old (event target.now (Done None r)))) }
    {
        match passing(self.watched.as_slice(), target, None) {
            Some(path) => self.add_end(alloc, path, ended),
            None => Ok(()),
        }
    }

    /// An entry comes from another interpreter, by these names down.
    ///
    /// # Errors
    /// Want of memory.
    pub(crate) fn call_comes(
        &mut self,
        alloc: Global,
        from: &[Text],
        down: &[Text],
        entry: &Entry,
    ) -> Result<(), AllocError>
        ensures { OnOk result
            (self.new ≡ crossed self.old
            (event (from.now ++ down.now) (In (Some (length down.now)) (whole_entry entry.now)))) }
    {
        match arriving(self.watched.as_slice(), from, down) {
            Some(path) => self.add_entry(alloc, path, entry),
            None => Ok(()),
        }
    }

    /// It ends.
    ///
    /// # Errors
    /// Want of memory, that of the evaluation too.
    pub(crate) fn call_ends(
        &mut self,
        alloc: Global,
        from: &[Text],
        down: &[Text],
        ended: &Result<Value, Interruption>,
    ) -> Result<(), AllocError>
        ensures { OnOk result
            (IfEnded ended.now (λ r. self.new
            ≡ crossed self.old (event (from.now ++ down.now) (Done (Some (length down.now)) r)))) }
    {
        match arriving(self.watched.as_slice(), from, down) {
            Some(path) => self.add_end(alloc, path, ended),
            None => Ok(()),
        }
    }

    // The ordinary result of a call comes back.
    fn value_comes(
        &mut self,
        alloc: Global,
        caller: &[Text],
        up: Option<usize>,
        value: &Value,
    ) -> Result<(), AllocError>
        ensures { OnOk result
            (self.new ≡ crossed self.old
            (event caller.now (Back up (Replied (Completed (ok value.now)))))) }
    {
        match passing(self.watched.as_slice(), caller, up) {
            Some(path) => {
                let reply = Reply::of_value(value)?;
                self.add_answer(alloc, path, up, Answer::Replied(reply))
            }
            None => Ok(()),
        }
    }

    // A call has no ordinary result.
    fn interruption_comes(
        &mut self,
        alloc: Global,
        caller: &[Text],
        up: Option<usize>,
        interruption: &Interruption,
    ) -> Result<(), AllocError>
        ensures { OnOk result
            (Interrupts interruption.now (λ r. self.new
            ≡ crossed self.old (event caller.now (Back up (Replied r))))) }
    {
        match passing(self.watched.as_slice(), caller, up) {
            Some(path) => {
                let reply = Reply::of_interruption(interruption, path)?;
                self.add_answer(alloc, path, up, Answer::Replied(reply))
            }
            None => Ok(()),
        }
    }

    // The host's reply to a request comes back.
    fn reply_comes(
        &mut self,
        alloc: Global,
        caller: &[Text],
        up: Option<usize>,
        reply: &HostReply,
    ) -> Result<(), AllocError>
        ensures { OnOk result
            (self.new ≡ crossed self.old
            (event caller.now (Back up (Heard (outsides.reply_of reply.now))))) }
    {
        match passing(self.watched.as_slice(), caller, up) {
            Some(path) => {
                let reply = copy_heard(reply)?;
                self.add_answer(alloc, path, up, Answer::Heard(reply))
            }
            None => Ok(()),
        }
    }

    // That nobody is there who could answer a call comes back.
    fn nobody_comes(
        &mut self,
        alloc: Global,
        caller: &[Text],
        up: Option<usize>,
    ) -> Result<(), AllocError>
        ensures { OnOk result
            (self.new ≡ crossed self.old (event caller.now (Back up Nobody))) }
    {
        match passing(self.watched.as_slice(), caller, up) {
            Some(path) => self.add_answer(alloc, path, up, Answer::Nobody),
            None => Ok(()),
        }
    }

    /// The answer to a call comes back, by which it ended.
    ///
    /// # Errors
    /// Want of memory, that of the evaluation too.
    pub(crate) fn answer_comes(
        &mut self,
        alloc: Global,
        caller: &[Text],
        up: Option<usize>,
        told: &Result<Value, Interruption>,
    ) -> Result<(), AllocError>
        ensures { OnOk result
            (IfEnded told.now (λ r. self.new
            ≡ crossed self.old (event caller.now (Back up (Replied r))))) }
    {
        match told {
            Ok(value) => self.value_comes(alloc, caller, up, value),
            Err(interruption) => self.interruption_comes(alloc, caller, up, interruption),
        }
    }

    /// The call of an interpreter goes out, so many levels up and these names down, and comes in
    /// there.
    ///
    /// # Errors
    /// Want of memory.
    pub(crate) fn call_enters(
        &mut self,
        alloc: Global,
        caller: &[Text],
        up: usize,
        down: &[Text],
        entry: &Entry,
    ) -> Result<(), AllocError>
        ensures { OnOk result
            ((a : Path) → rise_to (Some up) caller.now ≡ Some a →
            self.new ≡ crossed (crossed self.old
            (event caller.now (Out (Some up) down.now (whole_entry entry.now))))
            (event (a ++ down.now) (In (Some (length down.now)) (whole_entry entry.now)))) }
    {
        let Some(above) = top_of_way(caller, up) else {
            return Ok(());
        };
        self.call_goes(alloc, caller, Some(up), down, entry)?;
        self.call_comes(alloc, above, down, entry)
    }

    /// It is done there, and answered.
    ///
    /// # Errors
    /// Want of memory, that of the evaluation too.
    pub(crate) fn call_returns(
        &mut self,
        alloc: Global,
        caller: &[Text],
        up: usize,
        down: &[Text],
        ended: &Result<Value, Interruption>,
        told: &Result<Value, Interruption>,
    ) -> Result<(), AllocError>
        ensures { OnOk result
            (IfEnded ended.now (λ s. IfEnded told.now
            (λ r. (a : Path) → rise_to (Some up) caller.now ≡ Some a →
            self.new ≡ crossed (crossed self.old
            (event (a ++ down.now) (Done (Some (length down.now)) s)))
            (event caller.now (Back (Some up) (Replied r)))))) }
    {
        let Some(above) = top_of_way(caller, up) else {
            return Ok(());
        };
        self.call_ends(alloc, above, down, ended)?;
        self.answer_comes(alloc, caller, Some(up), told)
    }

    /// The call of an interpreter finds nobody, and is answered by that.
    ///
    /// # Errors
    /// Want of memory, that of the evaluation too.
    pub(crate) fn call_misses(
        &mut self,
        alloc: Global,
        caller: &[Text],
        up: usize,
        down: &[Text],
        entry: &Entry,
        told: &Result<Value, Interruption>,
    ) -> Result<(), AllocError>
        ensures { OnOk result
            (IfEnded told.now (λ r. self.new
            ≡ crossed (crossed self.old
            (event caller.now (Out (Some up) down.now (whole_entry entry.now))))
            (event caller.now (Back (Some up) (Replied r))))) }
    {
        self.call_goes(alloc, caller, Some(up), down, entry)?;
        self.answer_comes(alloc, caller, Some(up), told)
    }

    // An entry comes from outside of the tree: where somebody stands at its path, it comes in.
    fn entry_met(
        &mut self,
        alloc: Global,
        tree: &Tree,
        target: &[Text],
        entry: &Entry,
    ) -> Result<(), AllocError>
        ensures { OnOk result
            (self.new ≡ after self.old (met (tree_of tree.now)
            (event target.now (In None (whole_entry entry.now))))) }
    {
        if !tree.exists(target) {
            return Ok(());
        }
        self.entry_comes(alloc, target, entry)
    }

    // The stop comes to a call by which who is gone so many levels up is told an answer.
    fn stop_comes(
        &mut self,
        alloc: Global,
        caller: &[Text],
        up: Option<usize>,
        levels: usize,
    ) -> Result<(), AllocError>
        ensures { OnOk result
            (self.new ≡ crossed self.old
            (event caller.now (Back up (Replied (endings.Reply.Stop levels Gone))))) }
    {
        let stop = Interruption::Stopped(Stop {
            levels_up: levels,
            kind: StopKind::Gone,
        });
        self.interruption_comes(alloc, caller, up, &stop)
    }

    // The ordinary result of a call comes to its caller, which may be gone.
    fn value_told(
        &mut self,
        alloc: Global,
        caller: &[Text],
        gone: Option<usize>,
        up: Option<usize>,
        value: &Value,
    ) -> Result<(), AllocError>
        ensures { OnOk result
            (HasCome self.old caller.now gone up (Replied (Completed (ok value.now))) self.new) }
    {
        match gone {
            Some(levels) => self.stop_comes(alloc, caller, up, levels),
            None => self.value_comes(alloc, caller, up, value),
        }
    }

    // The same of the host's reply to a request.
    fn reply_told(
        &mut self,
        alloc: Global,
        caller: &[Text],
        gone: Option<usize>,
        up: Option<usize>,
        reply: &HostReply,
    ) -> Result<(), AllocError>
        ensures { OnOk result
            (HasCome self.old caller.now gone up (Heard (outsides.reply_of reply.now)) self.new) }
    {
        match gone {
            Some(levels) => self.stop_comes(alloc, caller, up, levels),
            None => self.reply_comes(alloc, caller, up, reply),
        }
    }

    // The same where nobody is there who could answer.
    fn nobody_told(
        &mut self,
        alloc: Global,
        caller: &[Text],
        gone: Option<usize>,
        up: Option<usize>,
    ) -> Result<(), AllocError>
        ensures { OnOk result (HasCome self.old caller.now gone up Nobody self.new) }
    {
        match gone {
            Some(levels) => self.stop_comes(alloc, caller, up, levels),
            None => self.nobody_comes(alloc, caller, up),
        }
    }

    // The same of a call that has no ordinary result.
    fn interruption_told(
        &mut self,
        alloc: Global,
        caller: &[Text],
        gone: Option<usize>,
        up: Option<usize>,
        interruption: &Interruption,
    ) -> Result<(), AllocError>
        ensures { OnOk result
            (Interrupts interruption.now
            (λ r. HasCome self.old caller.now gone up (Replied r) self.new)) }
    {
        let Some(levels) = gone else {
            return self.interruption_comes(alloc, caller, up, interruption);
        };
        match interruption {
            Interruption::Completed(_) => self.stop_comes(alloc, caller, up, levels),
            _ => self.interruption_comes(alloc, caller, up, interruption),
        }
    }

    /// What comes next to an open call comes. Its caller may be gone, so many levels up.
    ///
    /// # Errors
    /// Want of memory, that of the call too.
    pub(crate) fn turn_comes(
        &mut self,
        alloc: Global,
        tree: &Tree,
        caller: &[Text],
        gone: Option<usize>,
        up: Option<usize>,
        turn: &Result<Turn, Interruption>,
    ) -> Result<(), AllocError>
        ensures { OnOk result
            (Turns self.old (tree_of tree.now) caller.now gone up turn.now self.new) }
    {
        match turn {
            Ok(Turn::Entry(target, entry)) => {
                self.entry_met(alloc, tree, target.as_slice(), entry)
            }
            Ok(Turn::Completed(value)) => self.value_told(alloc, caller, gone, up, value),
            Ok(Turn::Heard(reply)) => self.reply_told(alloc, caller, gone, up, reply),
            Ok(Turn::Nobody) => self.nobody_told(alloc, caller, gone, up),
            Err(interruption) => self.interruption_told(alloc, caller, gone, up, interruption),
        }
    }

    /// An entry from outside of the tree found nobody at its path, and was told that: of the whole
    /// tree it is recorded, with its end.
    ///
    /// # Errors
    /// Want of memory, that of the evaluation too.
    pub(crate) fn stray_comes(
        &mut self,
        alloc: Global,
        target: &[Text],
        entry: &Entry,
        told: &Result<Value, Interruption>,
    ) -> Result<(), AllocError>
        ensures { OnOk result
            (IfEnded told.now (λ r. (c : endings.Completion) → r ≡ Completed c → self.new
            ≡ crossed self.old (event [] (Unfound target.now (whole_entry entry.now) c)))) }
    {
        if !self.watched.is_empty() {
            return Ok(());
        }
        self.add_entry(alloc, target, entry)?;
        self.add_end(alloc, target, told)
    }

    /// The call of an interpreter ends by the exit by which an entry of it ended.
    ///
    /// # Errors
    /// Want of memory.
    pub(crate) fn exit_comes(
        &mut self,
        alloc: Global,
        caller: &[Text],
        up: Option<usize>,
        status: i64,
    ) -> Result<(), AllocError>
        ensures { OnOk result
            (self.new ≡ crossed self.old (event caller.now (Back up (Replied (Exit status))))) }
    {
        match passing(self.watched.as_slice(), caller, up) {
            Some(path) => {
                self.add_answer(alloc, path, up, Answer::Replied(Reply::Exited(status)))
            }
            None => Ok(()),
        }
    }
}
