//! What stands outside of a tree whose calls may have to wait.
ghost use Rattle.std.specs.Prelude.{◌≡◌, ℕ, ◌++◌, ◌∷◌, [], true, None, IfOk, OnErr, OnOk};
ghost use Rattle.tcl_core.specs.Entries as core;
ghost use Rattle.tcl_core.specs.Paths.{Path, rise_to};
ghost use Rattle.tcl_host.specs.MemoryHost.{new_host};
ghost use Rattle.tcl_run.specs.Entering.{whole_entry};
ghost use Rattle.tcl_run.specs.Outsides.{ComesNext, OnEntry};
ghost use Rattle.tcl_sessions.specs.Standing.{AnswersAgain, Hears, IsFresh, IsRecalled, Waits};
ghost use Rattle.tcl_sessions.specs.Standing.{begun_again, goes, words_of};
ghost use Rattle.tcl_tree.specs.Gone.{Holds, held_of};
ghost use Rattle.tcl_tree.specs.Held.{StoodAt};
ghost use Rattle.tcl_tree.specs.TreeOf.{tree_of};

use std::alloc::{AllocError, Global};
use tcl_flow::completion::Completion;
use tcl_host::host::ask;
use tcl_host::memory::MemoryHost;
use tcl_host::reply::HostReply;
use tcl_host::request::Request;
use tcl_recorder::crossing::{copy_completion, copy_heard};
use tcl_run::entry::Entry;
use tcl_run::interruption::{Cause, Interruption};
use tcl_run::outside::{Happening, Outside, Turn};
use tcl_text::text::Text;
use tcl_tree::tree::{Place, Tree};
use tcl_value::value::Value;

/// What came back from outside of the tree before, in an evaluation that began again since.
#[derive(Drop)]
pub enum Answer {
    /// What the host said to a request.
    Heard(HostReply),
    /// How a call that left the tree ended.
    Completed(Completion),
}

impl Answer {
    ghost use Rattle.tcl_sessions.specs.Standing.{answer_of};

    /// The same again.
    ///
    /// # Errors
    /// Want of memory.
    fn copy(&self) -> Result<Answer, AllocError>
        ensures { IfOk result (λ made. answer_of made ≡ answer_of self.now) }
    {
        match self {
            Answer::Heard(reply) => Ok(Answer::Heard(copy_heard(reply)?)),
            Answer::Completed(completion) => { Ok(Answer::Completed(copy_completion(completion)?)) }
        }
    }
}

/// A call that left the tree and waits for its answer.
#[derive(Drop)]
pub struct OpenCall {
    /// The path of the interpreter that calls, from the root downward.
    pub caller: Vec<Text>,
    /// The words of the call, the name that the alias has for its target first.
    pub words: Vec<Text>,
}

/// A host in memory, and the answers that came so far.
///
/// What came before in the same evaluation is told again, in order. Behind that a request is asked
/// of the host, whose reply is kept; and a call that leaves the tree is kept as open, and ends the
/// evaluation from outside.
pub struct Standing {
    pub(crate) host: MemoryHost,
    // what came back so far, in order
    pub(crate) answers: Vec<Answer>,
    // how many of these came back in the evaluation that is in progress
    pub(crate) given: usize,
    // the call that is open
    pub(crate) call: Option<OpenCall>,
}

impl Drop for Standing {
    fn drop(self) {
        let Standing {
            host: _host,
            answers: _answers,
            given: _,
            call: _call,
        } = self;
    }
}

impl Standing {
    /// A host with no files, and no answers.
    ///
    /// # Errors
    /// Want of memory.
    pub fn new(alloc: Global) -> Result<Standing, AllocError>
        ensures host { IfOk result (λ made. made.host ≡ new_host) }
        ensures answers { IfOk result (λ made. made.answers.items ≡ []) }
        ensures call { IfOk result (λ made. made.call ≡ None) }
    {
        Ok(Standing {
            host: MemoryHost::new(alloc)?,
            answers: Vec::new(alloc),
            given: 0,
            call: None,
        })
    }

    /// The evaluation begins again: no answer came back in it yet, and no call is open.
    pub(crate) fn begin_again(&mut self)
        ensures { self.new ≡ begun_again self.old }
    {
        self.given = 0;
        self.call = None;
    }

    /// Another evaluation begins, in which nothing came back yet.
    pub(crate) fn begin(&mut self)
        ensures host { self.new.host ≡ self.old.host }
        ensures answers { self.new.answers.items ≡ [] }
        ensures given { self.new.given ≡ 0 }
        ensures call { self.new.call ≡ None }
    {
        self.answers.clear();
        self.begin_again();
    }

    /// How the open call ended, which comes back once the evaluation begins again.
    ///
    /// # Errors
    /// Want of memory, which changes nothing.
    pub(crate) fn add(&mut self, completion: Completion) -> Result<(), AllocError>
        ensures host { self.new.host ≡ self.old.host }
        ensures answers { OnOk result
            (self.new.answers.items ≡ self.old.answers.items ++ Answer.Completed completion ∷ []) }
        ensures unchanged { OnErr result (self.new.answers.items ≡ self.old.answers.items) }
    {
        self.answers.push(Answer::Completed(completion))?;
        Ok(())
    }

    /// The next of the answers that came before, which comes back now; none behind the last.
    ///
    /// # Errors
    /// Want of memory, which changes nothing.
    fn recall(&mut self) -> Result<Option<Answer>, AllocError>
        ensures { IsRecalled self.old result self.new }
    {
        let Some(answer) = self.answers.get(self.given) else {
            return Ok(None);
        };
        let answer = answer.copy()?;
        self.given += 1;
        Ok(Some(answer))
    }

    /// The host's reply to a request, which is kept.
    ///
    /// # Errors
    /// Want of memory.
    fn hear(&mut self, alloc: Global, request: &Request) -> Result<HostReply, AllocError>
        ensures { IfOk result (λ reply. Hears self.old request.now reply self.new) }
    {
        let reply = ask(&mut self.host, alloc, request)?;
        self.answers.push(Answer::Heard(copy_heard(&reply)?))?;
        self.given = self.answers.len();
        Ok(reply)
    }

    /// A call of the interpreter that the place names is kept as open.
    ///
    /// # Errors
    /// Want of memory.
    fn wait(
        &mut self,
        alloc: Global,
        tree: &Tree,
        caller: Place,
        entry: &Entry,
    ) -> Result<(), AllocError>
        ensures { OnOk result ((p : Path) → StoodAt (held_of tree.now) caller.key p →
            Waits self.old p (whole_entry entry.now) self.new) }
    {
        let path = tree.path_of(alloc, caller)?;
        let words = words_of(alloc, entry)?;
        self.call = Some(OpenCall {
            caller: path,
            words,
        });
        Ok(())
    }

    /// What comes back to a call for which no answer came before.
    ///
    /// # Errors
    /// That the call is cut off. Want of memory; also where the host is asked for no request, which
    /// can't be.
    fn turn(
        &mut self,
        alloc: Global,
        tree: &Tree,
        caller: Place,
        up: Option<usize>,
        entry: &Entry,
    ) -> Result<Turn, Interruption>
        requires { IsFresh self.old }
        ensures comes { (p : Path) (d : ℕ) → Holds tree.now caller p d → rise_to up p ≡ None →
            ComesNext goes Prim.⊥ (tree_of tree.now) self.old p d up (whole_entry entry.now)
            self.new result }
        ensures no_entry { OnEntry result Prim.⊥ }
    {
        match (up, entry) {
            (None, Entry::AskHost(request)) => Ok(Turn::Heard(self.hear(alloc, request)?)),
            (None, _) => Err(Interruption::Memory),
            (Some(_), _) => {
                self.wait(alloc, tree, caller, entry)?;
                Err(Interruption::Cut(Cause::Above))
            }
        }
    }
}

/// The words with which a call comes, as texts; none where something else is asked for.
///
/// # Errors
/// Want of memory.
fn words_of(alloc: Global, entry: &Entry) -> Result<Vec<Text>, AllocError>
    ensures { IfOk result (λ words. words.items ≡ words_of (whole_entry entry.now)) }
{
    match entry {
        Entry::CallWords(words) => texts_of(alloc, words.as_slice()),
        _ => Ok(Vec::new(alloc)),
    }
}

/// The texts of values.
///
/// # Errors
/// Want of memory.
fn texts_of(alloc: Global, values: &[Value]) -> Result<Vec<Text>, AllocError>
    ensures { IfOk result (λ texts. texts.items ≡ values.now) }
{
    let mut texts = Vec::new(alloc);
    'values: for value in values {
        texts.push(value.text(alloc)?)?;
    }
    Ok(texts)
}

/// What comes back to a call again.
///
/// # Errors
/// How the call ended. Want of memory; also where the answer is none to such a call, which can't
/// be.
fn answer_again(
    alloc: Global,
    up: Option<usize>,
    entry: &Entry,
    answer: Answer,
) -> Result<Turn, Interruption>
    ensures { AnswersAgain up (whole_entry entry.now) answer result }
{
    match answer {
        Answer::Heard(reply) => hear_again(up, entry, reply),
        Answer::Completed(completion) => complete_again(alloc, up, completion),
    }
}

/// The host's reply to a request again.
///
/// # Errors
/// Want of memory, where this is none to such a call.
fn hear_again(up: Option<usize>, entry: &Entry, reply: HostReply) -> Result<Turn, Interruption>
    ensures { AnswersAgain up (whole_entry entry.now) (Answer.Heard reply) result }
{
    match (up, entry) {
        (None, Entry::AskHost(request)) if reply.is_reply_to(request) => Ok(Turn::Heard(reply)),
        _ => Err(Interruption::Memory),
    }
}

/// The end of a call that left the tree again.
///
/// # Errors
/// That end. Want of memory, also where nobody was called.
fn complete_again(
    alloc: Global,
    up: Option<usize>,
    completion: Completion,
) -> Result<Turn, Interruption>
    ensures { (i : core.Entry) → AnswersAgain up i (Answer.Completed completion) result }
{
    match up {
        Some(_) => Err(Interruption::of_completion(alloc, completion)),
        None => Err(Interruption::Memory),
    }
}

impl Outside for Standing {
    ghost goes = { goes };

    // what was done until an evaluation is given up is not spoken of
    ghost loses = { λ o z. Unit {0} };

    ghost entries_left = { λ o. 0 };

    ghost hands_in = { Prim.⊥ };

    ghost has_steps = { λ o. true };

    fn next(
        &mut self,
        alloc: Global,
        tree: &Tree,
        caller: Place,
        up: Option<usize>,
        entry: &Entry,
    ) -> Result<Turn, Interruption> {
        match self.recall()? {
            Some(answer) => answer_again(alloc, up, entry, answer),
            None => self.turn(alloc, tree, caller, up, entry),
        }
    }

    fn grants_step(&self) -> bool {
        true
    }

    fn makes_step(&mut self) {}

    fn refuses_step(&mut self) {}

    fn notify(
        &mut self,
        _alloc: Global,
        _tree: &Tree,
        _happening: Happening<'_>,
    ) -> Result<(), AllocError> {
        Ok(())
    }
}
