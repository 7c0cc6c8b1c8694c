//! Limits.
ghost use Rattle.std.specs.Prelude.{◌≡◌, None, OnErr, OnOk, pos, is_some};
ghost use Rattle.tcl_c.specs.Acts.{Limits, LimitsDepth, limit_of};
ghost use Rattle.tcl_c.specs.Objects.{IsUnchanged, OnTrees};
ghost use Rattle.tcl_sessions.specs.Sessions.{SameSession};

use crate::codes::{DONE, NOTHING_HELD, code_of};
use crate::handle::{Handle, with_object};
use crate::object::{Object, on_tree};
use std::alloc::Global;
use tcl_sessions::refusal::Refusal;
use tcl_sessions::session::Session;
use tcl_sessions::texts::path_of;

/// What stands for no limit.
const NO_LIMIT: u64 = u64::MAX;

/// The limit that a number stands for.
fn limit_of(number: u64) -> Option<u64>
    ensures { result ≡ limit_of number }
{
    if number == NO_LIMIT {
        return None;
    }
    Some(number)
}

/// Gives the interpreter at the path a limit of steps, or takes it away.
fn set_limit(session: &mut Session, alloc: Global, path: &[u8], limit: u64) -> Result<(), Refusal>
    ensures done { OnOk result (Limits path.now limit session.old session.new) }
    ensures refused { OnErr result (SameSession session.old session.new) }
{
    let path = path_of(alloc, path)?;
    session.set_limit(path.as_slice(), limit_of(limit))
}

/// Gives the interpreter at the path a limit of depth.
fn set_depth_limit(
    session: &mut Session,
    alloc: Global,
    path: &[u8],
    limit: u64,
) -> Result<(), Refusal>
    ensures done { OnOk result (LimitsDepth path.now limit session.old session.new) }
    ensures refused { OnErr result (SameSession session.old session.new) }
{
    let path = path_of(alloc, path)?;
    session.set_depth_limit(path.as_slice(), limit)
}

impl Object {
    fn set_limit(&mut self, alloc: Global, path: &[u8], limit: u64) -> Result<(), Refusal>
        ensures done { OnOk result (OnTrees (Limits path.now limit) self.old self.new) }
        ensures refused { OnErr result (IsUnchanged self.old self.new) }
    {
        on_tree!(self, session => set_limit(session, alloc, path, limit))
    }

    fn set_depth_limit(&mut self, alloc: Global, path: &[u8], limit: u64) -> Result<(), Refusal>
        ensures done { OnOk result (OnTrees (LimitsDepth path.now limit) self.old self.new) }
        ensures refused { OnErr result (IsUnchanged self.old self.new) }
    {
        on_tree!(self, session => set_depth_limit(session, alloc, path, limit))
    }

    fn count(&self, alloc: Global, path: &[u8]) -> Result<u64, Refusal> {
        let session = self.session()?;
        let path = path_of(alloc, path)?;
        session.count(path.as_slice())
    }

    fn limit(&self, alloc: Global, path: &[u8]) -> Result<u64, Refusal> {
        let session = self.session()?;
        let path = path_of(alloc, path)?;
        Ok(session.limit(path.as_slice())?.unwrap_or(NO_LIMIT))
    }

    fn depth_limit(&self, alloc: Global, path: &[u8]) -> Result<u64, Refusal> {
        let session = self.session()?;
        let path = path_of(alloc, path)?;
        session.depth_limit(path.as_slice())
    }
}

/// Writes what was found, if it was.
fn write_number(found: Result<u64, Refusal>, number: &mut u64) -> i32 {
    match found {
        Ok(found) => {
            *number = found;
            DONE
        }
        Err(refusal) => refusal.number(),
    }
}

/// Gives the interpreter at the path a limit of steps, which its count of all its life may not
/// pass; 18446744073709551615 takes it away. The root has none but that of each evaluation.
///
/// Reads the path; reads and writes the handle. Answers 0, or a refusal, which changes nothing:
/// 421, 423; 122, 265, 101 to 104; 424; 304 for the root, 301, 245; 401.
#[unsafe(no_mangle)]
pub extern "C" fn tclsafe_set_limit(
    alloc: Global,
    tree: &mut Handle,
    path: &[u8],
    limit: u64,
) -> i32
    ensures held { is_some tree.new.sealed.value ≡ is_some tree.old.sealed.value }
    ensures nothing { tree.old.sealed.value ≡ None → result ≡ pos 421 }
{
    with_object!(alloc, tree, NOTHING_HELD, mut object => {
        code_of(object.set_limit(alloc, path, limit))
    })
}

/// Gives the interpreter at the path a limit of the evaluations that may be in progress in it at
/// once, from 1 to 1000. A new child has 200, and the root 1000.
///
/// Reads the path; reads and writes the handle. Answers 0, or a refusal, which changes nothing:
/// 421, 423; 122, 265, 101 to 104; 424; 301, 304 for the root, 309; 401.
#[unsafe(no_mangle)]
pub extern "C" fn tclsafe_set_depth_limit(
    alloc: Global,
    tree: &mut Handle,
    path: &[u8],
    limit: u64,
) -> i32
    ensures held { is_some tree.new.sealed.value ≡ is_some tree.old.sealed.value }
    ensures nothing { tree.old.sealed.value ≡ None → result ≡ pos 421 }
{
    with_object!(alloc, tree, NOTHING_HELD, mut object => {
        code_of(object.set_depth_limit(alloc, path, limit))
    })
}

/// How many steps the interpreter at the path has made, with those below it.
///
/// Reads the path; reads and writes the handle; writes the count where it answers 0. Answers 0, or
/// 421, 423; 122, 265, 101 to 104; 301; 401.
#[unsafe(no_mangle)]
pub extern "C" fn tclsafe_count(
    alloc: Global,
    tree: &mut Handle,
    path: &[u8],
    count: &mut u64,
) -> i32
    ensures same { tree.new.sealed.value ≡ tree.old.sealed.value }
    ensures nothing { tree.old.sealed.value ≡ None → result ≡ pos 421 }
{
    with_object!(alloc, tree, NOTHING_HELD, object => {
        write_number(object.count(alloc, path), count)
    })
}

/// The limit of steps of the interpreter at the path; 18446744073709551615 where it has none.
///
/// Reads the path; reads and writes the handle; writes the limit where it answers 0. Answers 0, or
/// 421, 423; 122, 265, 101 to 104; 301; 401.
#[unsafe(no_mangle)]
pub extern "C" fn tclsafe_limit(
    alloc: Global,
    tree: &mut Handle,
    path: &[u8],
    limit: &mut u64,
) -> i32
    ensures same { tree.new.sealed.value ≡ tree.old.sealed.value }
    ensures nothing { tree.old.sealed.value ≡ None → result ≡ pos 421 }
{
    with_object!(alloc, tree, NOTHING_HELD, object => {
        write_number(object.limit(alloc, path), limit)
    })
}

/// The limit of depth of the interpreter at the path.
///
/// Reads the path; reads and writes the handle; writes the limit where it answers 0. Answers 0, or
/// 421, 423; 122, 265, 101 to 104; 301; 401.
#[unsafe(no_mangle)]
pub extern "C" fn tclsafe_depth_limit(
    alloc: Global,
    tree: &mut Handle,
    path: &[u8],
    limit: &mut u64,
) -> i32
    ensures same { tree.new.sealed.value ≡ tree.old.sealed.value }
    ensures nothing { tree.old.sealed.value ≡ None → result ≡ pos 421 }
{
    with_object!(alloc, tree, NOTHING_HELD, object => {
        write_number(object.depth_limit(alloc, path), limit)
    })
}
