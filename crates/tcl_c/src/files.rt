//! The host in memory.
ghost use Rattle.std.specs.Prelude.{◌≡◌, None, OnErr, OnOk, pos, is_some};
ghost use Rattle.tcl_c.specs.Acts.{PutsFile, PutsInput, RenewsHost};
ghost use Rattle.tcl_c.specs.Objects.{IsUnchanged, OnTrees};
ghost use Rattle.tcl_c.specs.Written.{WritesLength};
ghost use Rattle.tcl_sessions.specs.Sessions.{SameSession};

use crate::codes::{DONE, NOTHING_HELD, code_of};
use crate::handle::{Handle, with_object};
use crate::object::{Object, on_tree};
use std::alloc::Global;
use tcl_sessions::refusal::Refusal;
use tcl_sessions::session::Session;
use tcl_sessions::texts::{behind, text_of, write_front};

/// Puts a file there.
fn put_file(session: &mut Session, alloc: Global, name: &[u8], bytes: &[u8]) -> Result<(), Refusal>
    ensures done { OnOk result (PutsFile name.now bytes.now session.old session.new) }
    ensures refused { OnErr result (SameSession session.old session.new) }
{
    let name = text_of(name)?;
    session.put_file(alloc, name, bytes)
}

/// Puts bytes at the end of what scripts can read.
fn put_input(session: &mut Session, bytes: &[u8]) -> Result<(), Refusal>
    ensures done { OnOk result (PutsInput bytes.now session.old session.new) }
    ensures refused { OnErr result (SameSession session.old session.new) }
{
    session.put_input(bytes)
}

/// Puts a host with no files in place of the host.
fn renew_host(session: &mut Session, alloc: Global) -> Result<(), Refusal>
    ensures done { OnOk result (RenewsHost session.old session.new) }
    ensures refused { OnErr result (SameSession session.old session.new) }
{
    session.renew_host(alloc)
}

impl Object {
    fn put_file(&mut self, alloc: Global, name: &[u8], bytes: &[u8]) -> Result<(), Refusal>
        ensures done { OnOk result (OnTrees (PutsFile name.now bytes.now) self.old self.new) }
        ensures refused { OnErr result (IsUnchanged self.old self.new) }
    {
        on_tree!(self, session => put_file(session, alloc, name, bytes))
    }

    fn put_input(&mut self, bytes: &[u8]) -> Result<(), Refusal>
        ensures done { OnOk result (OnTrees (PutsInput bytes.now) self.old self.new) }
        ensures refused { OnErr result (IsUnchanged self.old self.new) }
    {
        on_tree!(self, session => put_input(session, bytes))
    }

    fn renew_host(&mut self, alloc: Global) -> Result<(), Refusal>
        ensures done { OnOk result (OnTrees (RenewsHost) self.old self.new) }
        ensures refused { OnErr result (IsUnchanged self.old self.new) }
    {
        on_tree!(self, session => renew_host(session, alloc))
    }

    /// Writes what a file holds, and gives how long that is.
    fn write_file(&self, name: &[u8], room: &mut [u8]) -> Result<usize, Refusal> {
        let session = self.session()?;
        let name = text_of(name)?;
        Ok(write_front(session.file(name)?, room))
    }

    /// Writes the output from there on; nothing of what is no tree.
    fn write_output(&self, from: usize, room: &mut [u8]) -> usize {
        match self.session() {
            Ok(session) => write_front(behind(session.output(), from), room),
            Err(_) => write_front(b"", room),
        }
    }

    /// Writes the errors from there on; nothing of what is no tree.
    fn write_errors(&self, from: usize, room: &mut [u8]) -> usize {
        match self.session() {
            Ok(session) => write_front(behind(session.errors(), from), room),
            Err(_) => write_front(b"", room),
        }
    }
}

/// Writes how long what was written is, if it was.
pub(crate) fn write_length(written: Result<usize, Refusal>, length: &mut usize) -> i32
    ensures { WritesLength written length.old result length.new }
{
    match written {
        Ok(written) => {
            *length = written;
            DONE
        }
        Err(refusal) => refusal.number(),
    }
}

/// Puts a file there that scripts can open, in the place of any that has its name. Its bytes are
/// copied.
///
/// Reads the name and the bytes; reads and writes the handle. Answers 0, or a refusal, which
/// changes nothing: 421, 423; 122, 265; 401.
#[unsafe(no_mangle)]
pub extern "C" fn tclsafe_put_file(
    alloc: Global,
    tree: &mut Handle,
    name: &[u8],
    bytes: &[u8],
) -> i32
    ensures held { is_some tree.new.sealed.value ≡ is_some tree.old.sealed.value }
    ensures nothing { tree.old.sealed.value ≡ None → result ≡ pos 421 }
{
    with_object!(alloc, tree, NOTHING_HELD, mut object => {
        code_of(object.put_file(alloc, name, bytes))
    })
}

/// Writes what a file holds, and the length of all of it. It is written as `tclsafe_error_text`
/// writes.
///
/// Reads the name; writes the room, and the length where it answers 0; reads and writes the handle.
/// Answers 0, or 421, 423; 122, 265; 267.
#[unsafe(no_mangle)]
pub extern "C" fn tclsafe_file(
    alloc: Global,
    tree: &mut Handle,
    name: &[u8],
    room: &mut [u8],
    length: &mut usize,
) -> i32
    ensures same { tree.new.sealed.value ≡ tree.old.sealed.value }
    ensures nothing { tree.old.sealed.value ≡ None → result ≡ pos 421 }
{
    with_object!(alloc, tree, NOTHING_HELD, object => {
        write_length(object.write_file(name, room), length)
    })
}

/// Puts bytes at the end of what scripts can read from `stdin`. They are copied.
///
/// Reads the bytes; reads and writes the handle. Answers 0, or a refusal, which changes nothing:
/// 421, 423; 401.
#[unsafe(no_mangle)]
pub extern "C" fn tclsafe_put_input(alloc: Global, tree: &mut Handle, bytes: &[u8]) -> i32
    ensures held { is_some tree.new.sealed.value ≡ is_some tree.old.sealed.value }
    ensures nothing { tree.old.sealed.value ≡ None → result ≡ pos 421 }
{
    with_object!(alloc, tree, NOTHING_HELD, mut object => {
        code_of(object.put_input(bytes))
    })
}

/// Writes what scripts wrote to `stdout`, from that byte on. It is written as `tclsafe_error_text`
/// writes.
///
/// Writes the room; reads and writes the handle. Answers the length of all from that byte on.
#[unsafe(no_mangle)]
pub extern "C" fn tclsafe_output(
    alloc: Global,
    tree: &mut Handle,
    from: usize,
    room: &mut [u8],
) -> usize
    ensures { tree.new.sealed.value ≡ tree.old.sealed.value }
{
    with_object!(alloc, tree, write_front(b"", room), object => {
        object.write_output(from, room)
    })
}

/// Writes what scripts wrote to `stderr`, from that byte on. It is written as `tclsafe_error_text`
/// writes.
///
/// Writes the room; reads and writes the handle. Answers the length of all from that byte on.
#[unsafe(no_mangle)]
pub extern "C" fn tclsafe_errors(
    alloc: Global,
    tree: &mut Handle,
    from: usize,
    room: &mut [u8],
) -> usize
    ensures { tree.new.sealed.value ≡ tree.old.sealed.value }
{
    with_object!(alloc, tree, write_front(b"", room), object => {
        object.write_errors(from, room)
    })
}

/// Puts a host with no files in place of the host. Its channels, and what was written, go with it.
///
/// Reads and writes the handle. Answers 0, or a refusal, which changes nothing: 421, 423; 424; 401.
#[unsafe(no_mangle)]
pub extern "C" fn tclsafe_renew_host(alloc: Global, tree: &mut Handle) -> i32
    ensures held { is_some tree.new.sealed.value ≡ is_some tree.old.sealed.value }
    ensures nothing { tree.old.sealed.value ≡ None → result ≡ pos 421 }
{
    with_object!(alloc, tree, NOTHING_HELD, mut object => {
        code_of(object.renew_host(alloc))
    })
}
