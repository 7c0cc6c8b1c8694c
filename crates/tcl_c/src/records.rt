//! Records, and interpreters that are saved by themselves.
ghost use Rattle.std.specs.Prelude.{◌≡◌, None, OnErr, is_some, pos};
ghost use Rattle.tcl_c.specs.Handles.{Fills};
ghost use Rattle.tcl_c.specs.Objects.{IsUnchanged};
ghost use Rattle.tcl_sessions.specs.Sessions.{SameSession};

use crate::codes::{DONE, NOTHING_HELD};
use crate::files::write_length;
use crate::handle::{Handle, with_object};
use crate::object::{Object, on_tree};
use std::alloc::Global;
use tcl_recorder::record::Record;
use tcl_replay::replaying::Replayed;
use tcl_replay::saving::Saved;
use tcl_sessions::outcome::replay_number;
use tcl_sessions::records::{lines_of_record, lines_of_replay, replay_record};
use tcl_sessions::refusal::Refusal;
use tcl_sessions::session::Session;
use tcl_sessions::texts::{path_of, write_front};

fn take_record(session: &mut Session) -> Result<Record, Refusal>
    ensures { OnErr result (SameSession session.old session.new) }
{
    session.take_record()
}

impl Object {
    fn take_record(&mut self) -> Result<Record, Refusal>
        ensures { OnErr result (IsUnchanged self.old self.new) }
    {
        on_tree!(self, session => take_record(session))
    }

    fn save(&self, alloc: Global, path: &[u8]) -> Result<Saved, Refusal> {
        let session = self.session()?;
        let path = path_of(alloc, path)?;
        session.save(path.as_slice())
    }

    /// Writes the lines of a record, and gives how long they are.
    fn write_record(&self, alloc: Global, room: &mut [u8]) -> Result<usize, Refusal> {
        let lines = lines_of_record(alloc, self.record()?)?;
        Ok(write_front(lines.as_str().as_bytes(), room))
    }

    /// Writes the lines of a replay, and gives how long they are.
    fn write_replay(&self, alloc: Global, room: &mut [u8]) -> Result<usize, Refusal> {
        let lines = lines_of_replay(alloc, self.replayed()?)?;
        Ok(write_front(lines.as_str().as_bytes(), room))
    }
}

/// What comes of a record that is replayed.
fn replay(
    alloc: Global,
    saved: &Object,
    recorded: &Object,
    limit: u64,
) -> Result<Replayed, Refusal> {
    replay_record(alloc, saved.saved()?, recorded.record()?, limit)
}

/// Whether two interpreters that are saved are equal.
fn equal(one: &Object, other: &Object) -> Result<bool, Refusal> {
    Ok(one.saved()?.same(other.saved()?))
}

/// Takes the record of the last evaluation out of a tree, and puts it into a handle that holds
/// nothing.
///
/// Reads and writes both handles; `tclsafe_free` frees the record. Answers 0, or a refusal, which
/// changes nothing: 422, 401; 421, 423; 424; 427 where it wasn't watched, or its record was taken;
/// 411 where the watched interpreter was deleted in it.
#[unsafe(no_mangle)]
pub extern "C" fn tclsafe_take_record(
    alloc: Global,
    tree: &mut Handle,
    recorded: &mut Handle,
) -> i32
    ensures tree { is_some tree.new.sealed.value ≡ is_some tree.old.sealed.value }
    ensures filled { Fills recorded.old.sealed.value result recorded.new.sealed.value }
{
    let mut room = match recorded.room(alloc) {
        Ok(room) => room,
        Err(refusal) => return refusal.number(),
    };
    let taken = with_object!(alloc, tree, Err(Refusal::NothingHeld), mut object => {
        object.take_record()
    });
    match taken {
        Ok(taken) => {
            room.object = Object::Record(taken);
            recorded.put(room);
            DONE
        }
        Err(refusal) => refusal.number(),
    }
}

/// Writes the crossings of a record, a line for each, and the length of all of them. They are
/// written as `tclsafe_error_text` writes.
///
/// Writes the room, and the length where it answers 0; reads and writes the handle. Answers 0, or
/// 421, 423; 401.
#[unsafe(no_mangle)]
pub extern "C" fn tclsafe_record_lines(
    alloc: Global,
    recorded: &mut Handle,
    room: &mut [u8],
    length: &mut usize,
) -> i32
    ensures held { is_some recorded.new.sealed.value ≡ is_some recorded.old.sealed.value }
    ensures nothing { recorded.old.sealed.value ≡ None → result ≡ pos 421 }
{
    with_object!(alloc, recorded, NOTHING_HELD, object => {
        write_length(object.write_record(alloc, room), length)
    })
}

/// Copies the interpreter at the path with all below it, by itself, and puts it into a handle that
/// holds nothing.
///
/// Reads the path; reads and writes both handles; `tclsafe_free` frees what is saved. Answers 0, or
/// a refusal, which changes nothing: 422, 401; 421, 423; 122, 265, 101 to 104; 424; 403; 401.
#[unsafe(no_mangle)]
pub extern "C" fn tclsafe_save(
    alloc: Global,
    tree: &mut Handle,
    path: &[u8],
    saved: &mut Handle,
) -> i32
    ensures tree { is_some tree.new.sealed.value ≡ is_some tree.old.sealed.value }
    ensures filled { Fills saved.old.sealed.value result saved.new.sealed.value }
{
    let mut room = match saved.room(alloc) {
        Ok(room) => room,
        Err(refusal) => return refusal.number(),
    };
    let made = with_object!(alloc, tree, Err(Refusal::NothingHeld), object => {
        object.save(alloc, path)
    });
    match made {
        Ok(made) => {
            room.object = Object::Saved(made);
            saved.put(room);
            DONE
        }
        Err(refusal) => refusal.number(),
    }
}

/// Plays what was handed in by a record to a saved interpreter by itself, with at most so many
/// steps, and puts what it then is into a third handle, which holds nothing. The first two stay as
/// they are.
///
/// Reads and writes the handles; `tclsafe_free` frees what is put there. Answers 0 where all was
/// used and no call is open; 1 where one is; 2 where no step was left; 3 where an entry ended by an
/// exit; 4 where a call was answered by an end from outside; 5 where something didn't fit. Else a
/// refusal, which changes nothing: 422, 401; 421, 423; 412 where a replay left it at an open call;
/// 404; 401.
#[unsafe(no_mangle)]
pub extern "C" fn tclsafe_replay(
    alloc: Global,
    saved: &mut Handle,
    recorded: &mut Handle,
    limit: u64,
    after: &mut Handle,
) -> i32
    ensures saved { is_some saved.new.sealed.value ≡ is_some saved.old.sealed.value }
    ensures recorded { is_some recorded.new.sealed.value ≡ is_some recorded.old.sealed.value }
{
    let mut room = match after.room(alloc) {
        Ok(room) => room,
        Err(refusal) => return refusal.number(),
    };
    let replayed = with_object!(alloc, saved, Err(Refusal::NothingHeld), one => {
        with_object!(alloc, recorded, Err(Refusal::NothingHeld), other => {
            replay(alloc, one, other, limit)
        })
    });
    match replayed {
        Ok(replayed) => {
            let number = replay_number(replayed.outcome());
            room.object = Object::Replayed(replayed);
            after.put(room);
            number
        }
        Err(refusal) => refusal.number(),
    }
}

/// Writes what an interpreter told in the replay that left it, a line for each, last what came of
/// the moves, and the length of all of it. They are written as `tclsafe_error_text` writes.
///
/// Writes the room, and the length where it answers 0; reads and writes the handle. Answers 0, or
/// 421, 423; 401.
#[unsafe(no_mangle)]
pub extern "C" fn tclsafe_replay_lines(
    alloc: Global,
    after: &mut Handle,
    room: &mut [u8],
    length: &mut usize,
) -> i32
    ensures held { is_some after.new.sealed.value ≡ is_some after.old.sealed.value }
    ensures nothing { after.old.sealed.value ≡ None → result ≡ pos 421 }
{
    with_object!(alloc, after, NOTHING_HELD, object => {
        write_length(object.write_replay(alloc, room), length)
    })
}

/// Whether two interpreters by themselves, in two handles, are equal, with all that they have and
/// all orders of names.
///
/// Reads and writes the handles; writes the answer where it answers 0. Answers 0, or 421, 423.
#[unsafe(no_mangle)]
pub extern "C" fn tclsafe_same(
    alloc: Global,
    one: &mut Handle,
    other: &mut Handle,
    same: &mut bool,
) -> i32
    ensures one { is_some one.new.sealed.value ≡ is_some one.old.sealed.value }
    ensures other { is_some other.new.sealed.value ≡ is_some other.old.sealed.value }
{
    let compared = with_object!(alloc, one, Err(Refusal::NothingHeld), first => {
        with_object!(alloc, other, Err(Refusal::NothingHeld), second => equal(first, second))
    });
    match compared {
        Ok(compared) => {
            *same = compared;
            DONE
        }
        Err(refusal) => refusal.number(),
    }
}
