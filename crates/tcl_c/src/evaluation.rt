//! Evaluation.
ghost use Rattle.std.specs.Option.{option_copied};
ghost use Rattle.std.specs.Prelude.{◌≡◌, IfOk, None, OnErr, Some, pos, is_some};
ghost use Rattle.tcl_c.specs.Acts.{Evals, IsPlan};
ghost use Rattle.tcl_c.specs.Objects.{KeepsTree, OnTrees};
ghost use Rattle.tcl_sessions.specs.Sessions.{SameTree};

use crate::codes::{NOTHING_HELD, outcome_code};
use crate::handle::{Handle, with_object};
use crate::object::{Object, on_tree};
use std::alloc::Global;
use tcl_sessions::evaluation::Evaluation;
use tcl_sessions::outcome::Outcome;
use tcl_sessions::refusal::Refusal;
use tcl_sessions::session::Session;
use tcl_sessions::texts::{name_of, path_of, write_front};

/// What is to be evaluated, and whose boundary is to be recorded.
fn plan(
    alloc: Global,
    path: &[u8],
    script: &[u8],
    limit: u64,
    watched: Option<&[u8]>,
) -> Result<Evaluation, Refusal>
    ensures { IfOk result (IsPlan path.now script.now limit (option_copied watched.entry)) }
{
    let path = path_of(alloc, path)?;
    let script = name_of(alloc, script)?;
    let watched = match watched {
        Some(watched) => Some(path_of(alloc, watched)?),
        None => None,
    };
    Ok(Evaluation {
        path,
        script,
        limit,
        watched,
    })
}

/// Evaluates a script in the interpreter at the path.
fn eval(
    session: &mut Session,
    alloc: Global,
    path: &[u8],
    script: &[u8],
    limit: u64,
    watched: Option<&[u8]>,
) -> Result<Outcome, Refusal>
    ensures done { IfOk result
        (λ x. Evals path.now script.now limit (option_copied watched.entry) x session.old
        session.new) }
    ensures refused { OnErr result (SameTree session.old session.new) }
{
    let evaluation = plan(alloc, path, script, limit, watched)?;
    session.evaluate(alloc, evaluation)
}

impl Object {
    fn eval(
        &mut self,
        alloc: Global,
        path: &[u8],
        script: &[u8],
        limit: u64,
        watched: Option<&[u8]>,
    ) -> Result<Outcome, Refusal>
        ensures done { IfOk result
            (λ x. OnTrees (Evals path.now script.now limit (option_copied watched.entry) x) self.old
            self.new) }
        ensures refused { OnErr result (KeepsTree self.old self.new) }
    {
        on_tree!(self, session => eval(session, alloc, path, script, limit, watched))
    }

    /// The code or the status; 0 of what is no tree.
    fn code(&self) -> i64 {
        match self.session() {
            Ok(session) => session.report().code,
            Err(_) => 0,
        }
    }

    /// Writes the result; nothing of what is no tree.
    fn write_result(&self, room: &mut [u8]) -> usize {
        match self.session() {
            Ok(session) => write_front(session.report().text.as_str().as_bytes(), room),
            Err(_) => write_front(b"", room),
        }
    }

    /// Writes the options; nothing of what is no tree.
    fn write_options(&self, room: &mut [u8]) -> usize {
        match self.session() {
            Ok(session) => write_front(session.report().options.as_str().as_bytes(), room),
            Err(_) => write_front(b"", room),
        }
    }
}

/// Evaluates a script in the interpreter at the path, with at most so many steps in the whole tree.
///
/// Reads the texts; reads and writes the handle. Answers 0 where the script completed, by whatever
/// code; 1 where a call left the tree and waits for `tclsafe_answer`; 2 where a limit of the root
/// was met; 3 where the script ended the run by a status. Else a refusal, by which the tree is as
/// before: 421, 423; 122, 265, 101 to 104; 424; 403, 404; 401, before which the host may have been
/// asked for something.
#[unsafe(no_mangle)]
pub extern "C" fn tclsafe_eval(
    alloc: Global,
    tree: &mut Handle,
    path: &[u8],
    script: &[u8],
    limit: u64,
) -> i32
    ensures held { is_some tree.new.sealed.value ≡ is_some tree.old.sealed.value }
    ensures nothing { tree.old.sealed.value ≡ None → result ≡ pos 421 }
{
    with_object!(alloc, tree, NOTHING_HELD, mut object => {
        outcome_code(object.eval(alloc, path, script, limit, None))
    })
}

/// Evaluates a script as `tclsafe_eval` does, and records what crosses the boundary of the
/// interpreter at the path `watched`, for `tclsafe_take_record`.
///
/// Reads the texts; reads and writes the handle. Answers as `tclsafe_eval`; 403 also where nobody
/// stands at the path `watched`.
#[unsafe(no_mangle)]
pub extern "C" fn tclsafe_eval_watched(
    alloc: Global,
    tree: &mut Handle,
    path: &[u8],
    script: &[u8],
    limit: u64,
    watched: &[u8],
) -> i32
    ensures held { is_some tree.new.sealed.value ≡ is_some tree.old.sealed.value }
    ensures nothing { tree.old.sealed.value ≡ None → result ≡ pos 421 }
{
    with_object!(alloc, tree, NOTHING_HELD, mut object => {
        outcome_code(object.eval(alloc, path, script, limit, Some(watched)))
    })
}

/// The code with which the last evaluation completed: 0 ok, 1 error, 2 return, 3 break, 4 continue
/// or another number; or the status by which it ended; else 0.
///
/// Reads and writes the handle.
#[unsafe(no_mangle)]
pub extern "C" fn tclsafe_code(alloc: Global, tree: &mut Handle) -> i64
    ensures { tree.new.sealed.value ≡ tree.old.sealed.value }
{
    with_object!(alloc, tree, 0, object => object.code())
}

/// Writes the result of the last evaluation, or the message of its error; which limit of the root
/// was met; or the words of the open call, a list. It is written as `tclsafe_error_text` writes.
///
/// Writes the room; reads and writes the handle. Answers the length of the whole text.
#[unsafe(no_mangle)]
pub extern "C" fn tclsafe_result(alloc: Global, tree: &mut Handle, room: &mut [u8]) -> usize
    ensures { tree.new.sealed.value ≡ tree.old.sealed.value }
{
    with_object!(alloc, tree, write_front(b"", room), object => {
        object.write_result(room)
    })
}

/// Writes the options with which the last evaluation completed, a dictionary with `-code`, `-level`
/// and of an error `-errorcode`; else an empty text. It is written as `tclsafe_error_text` writes.
///
/// Writes the room; reads and writes the handle. Answers the length of the whole text.
#[unsafe(no_mangle)]
pub extern "C" fn tclsafe_options(alloc: Global, tree: &mut Handle, room: &mut [u8]) -> usize
    ensures { tree.new.sealed.value ≡ tree.old.sealed.value }
{
    with_object!(alloc, tree, write_front(b"", room), object => {
        object.write_options(room)
    })
}
