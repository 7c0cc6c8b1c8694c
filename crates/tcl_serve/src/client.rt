//! The client, who is reached by lines.
ghost use Rattle.std.specs.Prelude.{◌≡◌, ◌∷◌, ◌++◌, [], Err, IfOk, None, Ok, Some, false, pos};
ghost use Rattle.std.specs.String.{string_bytes};
ghost use Rattle.tcl_serve.specs.Clients.{Acts, AllCut, Follows, HearsEntry, IsCallLine, IsOver};
ghost use Rattle.tcl_serve.specs.Clients.{IsQuiet, Opens, Serves, Stays, Tells, Turns, Waits};
ghost use Rattle.tcl_serve.specs.Clients.{entry_answer};
ghost use Rattle.tcl_serve.specs.Views.{ClientView};
ghost use Rattle.tcl_serve.specs.declared.open.Next.TheVariants as next;
ghost use Rattle.tcl_functions.specs.Actions.{action_of};
ghost use Rattle.tcl_serve.specs.Talking.{Listens, Replies};

use crate::answers::{Answer, ClientCall, Ended, call_line};
use crate::entering::Asked;
use crate::lines::{Ending, Lines};
use crate::messages::Message;
use crate::open::{Awaited, Next, Talk};
use crate::refusals::Refusal;
use crate::talking::{hear, reply};
use std::alloc::{AllocError, Global};
use std::io::{BufRead, Write};
use std::marker::Model;
use tcl_flow::completion::{Completion, OK};
use tcl_functions::action::Action;
use tcl_functions::call::Call;
use tcl_functions::functions::Functions;
use tcl_text::text::Text;
use tcl_value::value::Value;

/// The client at the other end of a reader and a writer of lines.
pub struct Client<R: BufRead + Drop, W: Write + Drop> {
    lines: Lines<R, W>,
    talk: Talk,
}

impl<R: BufRead + Drop, W: Write + Drop> Drop for Client<R, W> {
    fn drop(self) {
        let Client {
            lines: _lines,
            talk: _talk,
        } = self;
    }
}

impl<R: BufRead + Drop, W: Write + Drop> Model for Client<R, W> {
    ghost use Rattle.tcl_serve.specs.Views.{ClientView};

    ghost Value = { ClientView };

    ghost view = { λ c. record { lines = c.lines; talk = c.talk } };
}

/// The texts of these values.
///
/// # Errors
/// Want of memory.
fn texts_of(alloc: Global, values: &[Value]) -> Result<Vec<Text>, AllocError>
    ensures { IfOk result (λ texts. texts.items ≡ values.now) }
{
    let mut texts = Vec::new(alloc);
    'values: for value in values {
        texts.push(value.text(alloc)?)?;
    }
    Ok(texts)
}

/// The line that calls the client, by this number in the tree of that one.
///
/// # Errors
/// Want of memory.
fn line_of(alloc: Global, number: u64, tree: u64, call: &Call) -> Result<String, AllocError>
    ensures { IfOk result (λ line. IsCallLine number tree call.now (string_bytes line)) }
{
    let asked = ClientCall {
        number,
        tree,
        interpreter: Vec::from_clones(alloc, call.caller.as_slice())?,
        words: texts_of(alloc, call.words.as_slice())?,
    };
    let line = call_line(alloc, &asked)?;
    Ok(line)
}

/// What is said of an entry that ended by this completion, and evaluates a script or not.
///
/// # Errors
/// Want of memory.
fn entry_answer(
    alloc: Global,
    evaluates: bool,
    completion: &Completion,
) -> Result<Result<Answer, Refusal>, AllocError>
    ensures { IfOk result
        (λ said. said ≡ entry_answer evaluates completion.now.code completion.now.text) }
{
    let text = completion.text.text(alloc)?;
    if evaluates {
        return Ok(Ok(Answer::Ended(Ended::Completed(completion.code, text))));
    }
    if completion.code == OK {
        return Ok(Ok(Answer::Done));
    }
    Ok(Err(Refusal::Told(text)))
}

/// Answers messages whose entries won't come to an end, since their run is over.
fn cut_off<R: BufRead + Drop, W: Write + Drop>(
    lines: &mut Lines<R, W>,
    alloc: Global,
    awaited: &mut Vec<Awaited>,
)
    ensures cut { AllCut lines.old awaited.old.items lines.new }
    ensures none { awaited.new.items ≡ [] }
{
    'awaited: while let Some(last) = awaited.pop() {
        reply(lines, alloc, Some(last.id), Ok(Answer::Ended(Ended::Cut)));
    }
}

impl<R: BufRead + Drop, W: Write + Drop> Client<R, W> {
    /// The client at the other end of this reader and this writer.
    pub fn new(alloc: Global, reader: R, writer: W) -> Client<R, W>
        ensures lines { result.lines ≡ record {
          unread = R.remaining reader;
          written = W.contents writer;
          ending = None;
        } }
        ensures quiet { IsQuiet result.talk }
    {
        Client {
            lines: Lines::new(reader, writer),
            talk: Talk {
                tree: 0,
                calls: Vec::new(alloc),
                awaited: Vec::new(alloc),
                last_call: 0,
                cut: false,
            },
        }
    }

    /// Why no line is read any more, where none is.
    pub fn ending(&self) -> Option<Ending>
        ensures { result ≡ self.now.lines.ending }
    {
        self.lines.ending()
    }

    /// Hears a message. A line that isn't understood is answered, and gives none; where no line
    /// comes any more, there is an ending then, and a fault of the input is said.
    pub fn hear(&mut self, alloc: Global) -> Option<(u64, Message)>
        requires { self.old.lines.ending ≡ None }
        ensures listens { Listens self.old.lines result self.new.lines }
        ensures talk { self.new.talk ≡ self.old.talk }
    {
        hear(&mut self.lines, alloc)
    }

    /// Answers a message.
    pub fn reply(&mut self, alloc: Global, id: u64, answer: Result<Answer, Refusal>)
        ensures replies { Replies self.old.lines (Some id) answer self.new.lines }
        ensures talk { self.new.talk ≡ self.old.talk }
    {
        reply(&mut self.lines, alloc, Some(id), answer);
    }

    /// A run begins in the tree of this number.
    pub fn begin(&mut self, tree: u64)
        ensures { self.new ≡ record self.old {
          talk = record self.old.talk { tree = tree; cut = false };
        } }
    {
        self.talk.tree = tree;
        self.talk.cut = false;
    }

    /// The run is over. Messages that are done as entries, and that it left without an end, are
    /// answered by that.
    pub fn finish(&mut self, alloc: Global)
        ensures { IsOver self.old self.new }
    {
        cut_off(&mut self.lines, alloc, &mut self.talk.awaited);
        self.talk.calls.clear();
    }

    /// Whether the client ended the run, or was gone in it.
    pub fn is_cut(&self) -> bool
        ensures { result ≡ self.now.talk.cut }
    {
        self.talk.cut
    }

    /// Says what a call is about: that it is open, or how the entry ended that was handed in last
    /// for it.
    fn tell(&mut self, alloc: Global, call: &Call) -> Result<(), AllocError>
        ensures { IfOk result (λ _. Tells self.old call.now self.new) }
    {
        match call.replies.as_slice().last() {
            Some(completion) => self.entry_ends(alloc, completion),
            None => self.open(alloc, call),
        }
    }

    /// A call is opened.
    fn open(&mut self, alloc: Global, call: &Call) -> Result<(), AllocError>
        ensures { IfOk result (λ _. Opens self.old call.now self.new) }
    {
        if self.talk.last_call == u64::MAX {
            // So many calls take longer than anybody waits.
            return Err(AllocError);
        }
        let number = self.talk.last_call + 1;
        let line = line_of(alloc, number, self.talk.tree, call)?;
        self.talk.calls.push(number)?;
        self.talk.last_call = number;
        self.lines.say(line.as_str());
        Ok(())
    }

    /// The entry ended by which the message is done that is awaited last.
    fn entry_ends(&mut self, alloc: Global, completion: &Completion) -> Result<(), AllocError>
        ensures { IfOk result (λ _. HearsEntry self.old completion.now self.new) }
    {
        let Some(awaited) = self.talk.awaited.pop() else {
            return Err(AllocError);
        };
        let answer = entry_answer(alloc, awaited.evaluates, completion)?;
        self.reply(alloc, awaited.id, answer);
        Ok(())
    }

    /// What is done next for the call that is open, by the lines that the client writes.
    ///
    /// # Errors
    /// Want of memory.
    fn serve(&mut self, alloc: Global) -> Result<Action, AllocError>
        ensures { IfOk result (λ action. (left : ClientView) × Waits self.old left ×
            Acts left (action_of action) self.new) }
    {
        'lines: for _ in 0..u64::MAX {
            if let Some(action) = self.turn(alloc) {
                return Ok(action);
            }
        }
        // So many lines take longer than anybody waits.
        Err(AllocError)
    }

    /// Hears a line; what is done next for the open call then, if anything is. A client that is
    /// gone ends the run.
    fn turn(&mut self, alloc: Global) -> Option<Action>
        ensures { Turns self.old result self.new }
    {
        if self.lines.ending().is_some() {
            self.talk.cut = true;
            return Some(Action::Exit(0));
        }
        let (id, message) = self.hear(alloc)?;
        match self.talk.next_of(alloc, message) {
            Ok(next) => self.follow(alloc, id, next),
            Err(refusal) => {
                self.reply(alloc, id, Err(refusal));
                None
            }
        }
    }

    /// Does what the message of this id comes to.
    fn follow(&mut self, alloc: Global, id: u64, next: Next) -> Option<Action>
        ensures { Follows self.old id next result self.new }
    {
        match next {
            Next::Enters(asked, evaluates) => {
                self.enter(alloc, Awaited { id, evaluates }, asked)
            }
            Next::Returns(completion) => {
                self.reply(alloc, id, Ok(Answer::Done));
                let _ = self.talk.calls.pop();
                Some(Action::Complete(completion))
            }
            Next::Ends => {
                self.reply(alloc, id, Ok(Answer::Done));
                self.talk.cut = true;
                Some(Action::Exit(0))
            }
        }
    }

    /// Hands in the entry by which a message is done, where there is memory to await its end.
    fn enter(&mut self, alloc: Global, awaited: Awaited, asked: Asked) -> Option<Action>
        ensures { Follows self.old awaited.id (next.Enters asked awaited.evaluates) result
            self.new }
    {
        match self.talk.awaited.push(awaited) {
            Ok(()) => {
                let (target, entry) = asked;
                Some(Action::Enter { target, entry })
            }
            Err(_) => {
                self.reply(alloc, awaited.id, Err(Refusal::Memory));
                None
            }
        }
    }
}

impl<R: BufRead + Drop, W: Write + Drop> Functions for Client<R, W> {
    ghost serves = { λ o call action z. Serves o call action z };

    fn call(&mut self, alloc: Global, call: &Call) -> Result<Action, AllocError> {
        self.tell(alloc, call)?;
        self.serve(alloc)
    }
}
