//! What a session keeps: trees, saved interpreters and records, under their numbers.
ghost use Rattle.std.specs.Prelude.{◌≡◌};
ghost use Rattle.tcl_serve.specs.Messages.{asks_of, evaluation_of, place_of, ask_of};
ghost use Rattle.tcl_serve.specs.Messages as asks;
ghost use Rattle.tcl_serve.specs.Sessions.{Answers, Does, IsEmpty};

use crate::answers::Answer;
use crate::client::Client;
use crate::evaluating::{evaluate, watch};
use crate::fields::Field;
use crate::keeping::{replayed, save_at};
use crate::messages::{Ask, Compare, Evaluate, Interpreter, Message, Replay, Watch};
use crate::numbered::Numbered;
use crate::refusals::Refusal;
use crate::served::ServedTree;
use std::alloc::Global;
use std::io::{BufRead, Write};
use tcl_recorder::record::Record;
use tcl_replay::saving::Saved;
use tcl_text::integer::Integers;

/// The trees, saved interpreters and records of a session.
pub struct Session {
    trees: Numbered<ServedTree>,
    saved: Numbered<Saved>,
    records: Numbered<Record>,
}

impl Drop for Session {
    fn drop(self) {
        let Session {
            trees: _trees,
            saved: _saved,
            records: _records,
        } = self;
    }
}

impl Session {
    /// Nothing is kept yet.
    pub(crate) fn new(alloc: Global) -> Session
        ensures { IsEmpty result }
    {
        Session {
            trees: Numbered::new(alloc),
            saved: Numbered::new(alloc),
            records: Numbered::new(alloc),
        }
    }

    /// Does what a message asks for, while no call is open.
    pub(crate) fn answer<R: BufRead + Drop, W: Write + Drop>(
        &mut self,
        alloc: Global,
        client: Client<R, W>,
        message: Message,
    ) -> (Client<R, W>, Result<Answer, Refusal>)
        ensures { Answers self.old client (asks_of message) self.new result.0 result.1 }
    {
        match message {
            Message::Evaluate(message) => self.evaluate(alloc, client, &message),
            Message::Watch(message) => self.watch(alloc, client, &message),
            other => {
                let answer = self.act(alloc, &other);
                (client, answer)
            }
        }
    }

    /// Evaluates a script.
    fn evaluate<R: BufRead + Drop, W: Write + Drop>(
        &mut self,
        alloc: Global,
        client: Client<R, W>,
        message: &Evaluate,
    ) -> (Client<R, W>, Result<Answer, Refusal>)
        ensures { Answers self.old client (asks.Evaluate (evaluation_of message.now)) self.new
            result.0 result.1 }
    {
        let number = message.interpreter.tree;
        match self.trees.held.get_mut(&number) {
            Some(served) => evaluate(alloc, client, served, message),
            None => (client, Err(Refusal::Nothing(Field::Tree, number))),
        }
    }

    /// Evaluates a script, and keeps the record of a boundary.
    fn watch<R: BufRead + Drop, W: Write + Drop>(
        &mut self,
        alloc: Global,
        client: Client<R, W>,
        message: &Watch,
    ) -> (Client<R, W>, Result<Answer, Refusal>)
        ensures { Answers self.old client
            (asks.Watch (evaluation_of message.now.evaluate) message.now.watched.items) self.new
            result.0 result.1 }
    {
        let number = message.evaluate.interpreter.tree;
        match self.trees.held.get_mut(&number) {
            Some(served) => watch(alloc, client, served, message, &mut self.records),
            None => (client, Err(Refusal::Nothing(Field::Tree, number))),
        }
    }

    /// Does what a message asks for that evaluates nothing.
    fn act(&mut self, alloc: Global, message: &Message) -> Result<Answer, Refusal>
        ensures { Does self.old (asks_of message.now) result self.new }
    {
        match message {
            Message::MakeTree(integers) => self.make_tree(alloc, *integers),
            Message::DropTree(number) => self.drop_tree(*number),
            Message::OnTree(number, ask) => self.ask(alloc, *number, ask),
            Message::Save(message) => self.save(message),
            Message::Compare(message) => self.compare(*message),
            Message::Replay(message) => self.replay(alloc, *message),
            Message::DropSaved(number) => self.drop_saved(*number),
            Message::DropRecord(number) => self.drop_record(*number),
            Message::Return(message) => Err(Refusal::NotOpen(message.call)),
            Message::EndRun(call) => Err(Refusal::NotOpen(*call)),
            Message::Evaluate(_) | Message::Watch(_) => Err(Refusal::CallOpen),
        }
    }

    /// Makes a tree.
    fn make_tree(&mut self, alloc: Global, integers: Integers) -> Result<Answer, Refusal>
        ensures { Does self.old (asks.MakeTree integers) result self.new }
    {
        let served = ServedTree::new(alloc, integers)?;
        Ok(Answer::Tree(self.trees.add(served)?))
    }

    /// Drops a tree.
    fn drop_tree(&mut self, number: u64) -> Result<Answer, Refusal>
        ensures { Does self.old (asks.DropTree number) result self.new }
    {
        match self.trees.remove(number) {
            Some(_served) => Ok(Answer::Done),
            None => Err(Refusal::Nothing(Field::Tree, number)),
        }
    }

    /// Does what is asked of a tree.
    fn ask(&mut self, alloc: Global, number: u64, ask: &Ask) -> Result<Answer, Refusal>
        ensures { Does self.old (asks.OnTree number (ask_of ask.now)) result self.new }
    {
        match self.trees.held.get_mut(&number) {
            Some(served) => served.act(alloc, ask),
            None => Err(Refusal::Nothing(Field::Tree, number)),
        }
    }

    /// Saves an interpreter.
    fn save(&mut self, message: &Interpreter) -> Result<Answer, Refusal>
        ensures { Does self.old (asks.Save (place_of message.now)) result self.new }
    {
        let Some(served) = self.trees.get(message.tree) else {
            return Err(Refusal::Nothing(Field::Tree, message.tree));
        };
        let saved = save_at(&served.tree, message.path.as_slice())?;
        Ok(Answer::Saved(self.saved.add(saved)?))
    }

    /// Compares two saved interpreters.
    fn compare(&self, message: Compare) -> Result<Answer, Refusal>
        ensures { Does self.now (asks.Compare message.saved message.with) result self.now }
    {
        let Some(one) = self.saved.get(message.saved) else {
            return Err(Refusal::Nothing(Field::Saved, message.saved));
        };
        let Some(other) = self.saved.get(message.with) else {
            return Err(Refusal::Nothing(Field::With, message.with));
        };
        Ok(Answer::Same(one.same(other)))
    }

    /// Replays a record to a saved interpreter, and keeps what that leaves.
    fn replay(&mut self, alloc: Global, message: Replay) -> Result<Answer, Refusal>
        ensures { Does self.old (asks.Replay message.saved message.played message.limit) result
            self.new }
    {
        let Some(saved) = self.saved.get(message.saved) else {
            return Err(Refusal::Nothing(Field::Saved, message.saved));
        };
        let Some(kept) = self.records.get(message.played) else {
            return Err(Refusal::Nothing(Field::Record, message.played));
        };
        let replay = replayed(alloc, saved, kept, message.limit)?;
        let number = self.saved.add(replay.saved)?;
        Ok(Answer::Replayed(replay.told.under(number)))
    }

    /// Drops a saved interpreter.
    fn drop_saved(&mut self, number: u64) -> Result<Answer, Refusal>
        ensures { Does self.old (asks.DropSaved number) result self.new }
    {
        match self.saved.remove(number) {
            Some(_saved) => Ok(Answer::Done),
            None => Err(Refusal::Nothing(Field::Saved, number)),
        }
    }

    /// Drops a record.
    fn drop_record(&mut self, number: u64) -> Result<Answer, Refusal>
        ensures { Does self.old (asks.DropRecord number) result self.new }
    {
        match self.records.remove(number) {
            Some(_record) => Ok(Answer::Done),
            None => Err(Refusal::Nothing(Field::Record, number)),
        }
    }
}
