//! Calls that left the tree.
ghost use Rattle.std.specs.Prelude.{◌≡◌, IfOk, None, OnErr, OnOk, pos, is_some};
ghost use Rattle.tcl_c.specs.Acts.{AnswersCall};
ghost use Rattle.tcl_c.specs.Objects.{IsUnchanged, KeepsTree, OnTrees};
ghost use Rattle.tcl_sessions.specs.Calls.{IsLeft};
ghost use Rattle.tcl_sessions.specs.Sessions.{SameSession, SameTree};

use crate::codes::{NOTHING_HELD, code_of, outcome_code};
use crate::handle::{Handle, with_object};
use crate::object::{Object, on_tree};
use std::alloc::Global;
use tcl_sessions::outcome::Outcome;
use tcl_sessions::refusal::Refusal;
use tcl_sessions::session::Session;
use tcl_sessions::texts::{value_of, write_front};

/// Ends the open call by this code and this text.
fn answer(session: &mut Session, alloc: Global, code: i64, text: &[u8]) -> Result<Outcome, Refusal>
    ensures done { IfOk result (λ x. AnswersCall code text.now x session.old session.new) }
    ensures refused { OnErr result (SameTree session.old session.new) }
{
    let text = value_of(alloc, text)?;
    session.answer(alloc, code, text)
}

/// Gives up the evaluation whose call is open.
fn abandon(session: &mut Session) -> Result<(), Refusal>
    ensures done { OnOk result (IsLeft session.old session.new) }
    ensures refused { OnErr result (SameSession session.old session.new) }
{
    session.abandon()
}

impl Object {
    fn answer(&mut self, alloc: Global, code: i64, text: &[u8]) -> Result<Outcome, Refusal>
        ensures done { IfOk result (λ x. OnTrees (AnswersCall code text.now x) self.old self.new) }
        ensures refused { OnErr result (KeepsTree self.old self.new) }
    {
        on_tree!(self, session => answer(session, alloc, code, text))
    }

    fn abandon(&mut self) -> Result<(), Refusal>
        ensures done { OnOk result (OnTrees (IsLeft) self.old self.new) }
        ensures refused { OnErr result (IsUnchanged self.old self.new) }
    {
        on_tree!(self, session => abandon(session))
    }

    /// Writes the path of who calls; nothing where no call is open.
    fn write_caller(&self, room: &mut [u8]) -> usize {
        match self.session() {
            Ok(session) => write_front(session.report().caller.as_str().as_bytes(), room),
            Err(_) => write_front(b"", room),
        }
    }

    /// How many words the open call has; 0 where none is open.
    fn word_count(&self) -> usize {
        match self.session() {
            Ok(session) => session.call_words().len(),
            Err(_) => 0,
        }
    }

    /// Writes a word of the open call; nothing where it has no such word.
    fn write_word(&self, index: usize, room: &mut [u8]) -> usize {
        let Ok(session) = self.session() else {
            return write_front(b"", room);
        };
        match session.call_words().get(index) {
            Some(word) => write_front(word.as_str().as_bytes(), room),
            None => write_front(b"", room),
        }
    }
}

/// Ends the open call by this code and this text: 0 and the result, 1 and the message of an error,
/// or another code of a completion. Then the script is evaluated again from its beginning, with all
/// answers so far, on to the next call or its end.
///
/// Reads the text; reads and writes the handle. Answers as `tclsafe_eval`; 425 where no call is
/// open. 401 may give the evaluation up, and each other refusal changes nothing.
#[unsafe(no_mangle)]
pub extern "C" fn tclsafe_answer(alloc: Global, tree: &mut Handle, code: i64, text: &[u8]) -> i32
    ensures held { is_some tree.new.sealed.value ≡ is_some tree.old.sealed.value }
    ensures nothing { tree.old.sealed.value ≡ None → result ≡ pos 421 }
{
    with_object!(alloc, tree, NOTHING_HELD, mut object => {
        outcome_code(object.answer(alloc, code, text))
    })
}

/// Gives up the evaluation whose call is open. The tree is as before it; what the host was asked
/// for stays done.
///
/// Reads and writes the handle. Answers 0, or a refusal, which changes nothing: 421, 423; 425.
#[unsafe(no_mangle)]
pub extern "C" fn tclsafe_abandon(alloc: Global, tree: &mut Handle) -> i32
    ensures held { is_some tree.new.sealed.value ≡ is_some tree.old.sealed.value }
    ensures nothing { tree.old.sealed.value ≡ None → result ≡ pos 421 }
{
    with_object!(alloc, tree, NOTHING_HELD, mut object => {
        code_of(object.abandon())
    })
}

/// Writes the path of the interpreter whose call is open, a list of names; else an empty text. It
/// is written as `tclsafe_error_text` writes.
///
/// Writes the room; reads and writes the handle. Answers the length of the whole text.
#[unsafe(no_mangle)]
pub extern "C" fn tclsafe_caller(alloc: Global, tree: &mut Handle, room: &mut [u8]) -> usize
    ensures { tree.new.sealed.value ≡ tree.old.sealed.value }
{
    with_object!(alloc, tree, write_front(b"", room), object => {
        object.write_caller(room)
    })
}

/// How many words the open call has, those of its alias first; 0 where no call is open.
///
/// Reads and writes the handle.
#[unsafe(no_mangle)]
pub extern "C" fn tclsafe_word_count(alloc: Global, tree: &mut Handle) -> usize
    ensures { tree.new.sealed.value ≡ tree.old.sealed.value }
{
    with_object!(alloc, tree, 0, object => object.word_count())
}

/// Writes a word of the open call, the first of which is 0; an empty text where there is none. It
/// is written as `tclsafe_error_text` writes.
///
/// Writes the room; reads and writes the handle. Answers the length of the whole text.
#[unsafe(no_mangle)]
pub extern "C" fn tclsafe_word(
    alloc: Global,
    tree: &mut Handle,
    index: usize,
    room: &mut [u8],
) -> usize
    ensures { tree.new.sealed.value ≡ tree.old.sealed.value }
{
    with_object!(alloc, tree, write_front(b"", room), object => {
        object.write_word(index, room)
    })
}
