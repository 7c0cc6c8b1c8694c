//! Trees, their children, and aliases.
ghost use Rattle.std.specs.Prelude.{◌≡◌, None, OnErr, OnOk, pos, is_some};
ghost use Rattle.tcl_c.specs.Acts.{Aliases, AliasesOut, ClearsAlias, Creates, Deletes};
ghost use Rattle.tcl_c.specs.Handles.{Fills};
ghost use Rattle.tcl_c.specs.Objects.{IsUnchanged, OnTrees};
ghost use Rattle.tcl_sessions.specs.Sessions.{SameSession};

use crate::codes::{DONE, NOTHING_HELD, code_of};
use crate::handle::{Handle, with_object};
use crate::object::{Object, on_tree};
use std::alloc::Global;
use tcl_sessions::refusal::Refusal;
use tcl_sessions::session::{Session, style_of};
use tcl_sessions::texts::{name_of, path_of, words_of};

/// A new tree, in which integer texts are read as that version of Tcl does.
fn new_tree(alloc: Global, version: i32) -> Result<Session, Refusal> {
    Session::new(alloc, style_of(version)?)
}

/// Makes a child of this name in the interpreter at the path.
fn create(
    session: &mut Session,
    alloc: Global,
    path: &[u8],
    name: &[u8],
    safe: bool,
) -> Result<(), Refusal>
    ensures done { OnOk result (Creates path.now name.now safe session.old session.new) }
    ensures refused { OnErr result (SameSession session.old session.new) }
{
    let path = path_of(alloc, path)?;
    let name = name_of(alloc, name)?;
    session.create(alloc, path.as_slice(), &name, safe)
}

/// Deletes the child of this name of the interpreter at the path.
fn delete(session: &mut Session, alloc: Global, path: &[u8], name: &[u8]) -> Result<(), Refusal>
    ensures done { OnOk result (Deletes path.now name.now session.old session.new) }
    ensures refused { OnErr result (SameSession session.old session.new) }
{
    let path = path_of(alloc, path)?;
    let name = name_of(alloc, name)?;
    session.delete(path.as_slice(), &name)
}

/// Makes a name of the interpreter at the path an alias to another interpreter.
fn alias(
    session: &mut Session,
    alloc: Global,
    path: &[u8],
    name: &[u8],
    target: &[u8],
    words: &[u8],
) -> Result<(), Refusal>
    ensures done { OnOk result
        (Aliases path.now name.now target.now words.now session.old session.new) }
    ensures refused { OnErr result (SameSession session.old session.new) }
{
    let path = path_of(alloc, path)?;
    let name = name_of(alloc, name)?;
    let target = path_of(alloc, target)?;
    let words = words_of(alloc, words)?;
    session.alias(alloc, path.as_slice(), name, target.as_slice(), words)
}

/// Makes a name of the interpreter at the path an alias that leaves the tree.
fn alias_out(
    session: &mut Session,
    alloc: Global,
    path: &[u8],
    name: &[u8],
    words: &[u8],
) -> Result<(), Refusal>
    ensures done { OnOk result (AliasesOut path.now name.now words.now session.old session.new) }
    ensures refused { OnErr result (SameSession session.old session.new) }
{
    let path = path_of(alloc, path)?;
    let name = name_of(alloc, name)?;
    let words = words_of(alloc, words)?;
    session.alias_out(alloc, path.as_slice(), name, words)
}

/// Takes an alias of the interpreter at the path away.
fn clear_alias(
    session: &mut Session,
    alloc: Global,
    path: &[u8],
    name: &[u8],
) -> Result<(), Refusal>
    ensures done { OnOk result (ClearsAlias path.now name.now session.old session.new) }
    ensures refused { OnErr result (SameSession session.old session.new) }
{
    let path = path_of(alloc, path)?;
    let name = name_of(alloc, name)?;
    session.clear_alias(path.as_slice(), &name)
}

impl Object {
    fn create(&mut self, alloc: Global, path: &[u8], name: &[u8], safe: bool) -> Result<(), Refusal>
        ensures done { OnOk result (OnTrees (Creates path.now name.now safe) self.old self.new) }
        ensures refused { OnErr result (IsUnchanged self.old self.new) }
    {
        on_tree!(self, session => create(session, alloc, path, name, safe))
    }

    fn delete(&mut self, alloc: Global, path: &[u8], name: &[u8]) -> Result<(), Refusal>
        ensures done { OnOk result (OnTrees (Deletes path.now name.now) self.old self.new) }
        ensures refused { OnErr result (IsUnchanged self.old self.new) }
    {
        on_tree!(self, session => delete(session, alloc, path, name))
    }

    fn alias(
        &mut self,
        alloc: Global,
        path: &[u8],
        name: &[u8],
        target: &[u8],
        words: &[u8],
    ) -> Result<(), Refusal>
        ensures done { OnOk result
            (OnTrees (Aliases path.now name.now target.now words.now) self.old self.new) }
        ensures refused { OnErr result (IsUnchanged self.old self.new) }
    {
        on_tree!(self, session => alias(session, alloc, path, name, target, words))
    }

    fn alias_out(
        &mut self,
        alloc: Global,
        path: &[u8],
        name: &[u8],
        words: &[u8],
    ) -> Result<(), Refusal>
        ensures done { OnOk result
            (OnTrees (AliasesOut path.now name.now words.now) self.old self.new) }
        ensures refused { OnErr result (IsUnchanged self.old self.new) }
    {
        on_tree!(self, session => alias_out(session, alloc, path, name, words))
    }

    fn clear_alias(&mut self, alloc: Global, path: &[u8], name: &[u8]) -> Result<(), Refusal>
        ensures done { OnOk result (OnTrees (ClearsAlias path.now name.now) self.old self.new) }
        ensures refused { OnErr result (IsUnchanged self.old self.new) }
    {
        on_tree!(self, session => clear_alias(session, alloc, path, name))
    }
}

/// Makes a tree of a root alone with a host in memory, and puts it into a handle that holds
/// nothing. Integer texts are read as Tcl 8 or as Tcl 9 does.
///
/// Reads and writes the handle; `tclsafe_free` frees what it holds. Answers 0, or a refusal, which
/// changes nothing: 422, 426; 401.
#[unsafe(no_mangle)]
pub extern "C" fn tclsafe_new(alloc: Global, tree: &mut Handle, version: i32) -> i32
    ensures { Fills tree.old.sealed.value result tree.new.sealed.value }
{
    let mut room = match tree.room(alloc) {
        Ok(room) => room,
        Err(refusal) => return refusal.number(),
    };
    match new_tree(alloc, version) {
        Ok(session) => {
            room.object = Object::Tree(session);
            tree.put(room);
            DONE
        }
        Err(refusal) => refusal.number(),
    }
}

/// Frees what a handle holds, whatever its kind, which holds nothing from then on. A handle that
/// holds nothing stays so.
///
/// Reads and writes the handle.
#[unsafe(no_mangle)]
pub extern "C" fn tclsafe_free(alloc: Global, handle: &mut Handle)
    ensures { handle.new.sealed.value ≡ None }
{
    let _ = handle.take(alloc);
}

/// Makes a child of this name in the interpreter at the path, safe or trusted.
///
/// Reads the texts; reads and writes the handle. Answers 0, or a refusal, which changes nothing:
/// 421, 423; 122, 265, 101 to 104; 424; 301, 238, 302, 307; 401.
#[unsafe(no_mangle)]
pub extern "C" fn tclsafe_create(
    alloc: Global,
    tree: &mut Handle,
    path: &[u8],
    name: &[u8],
    safe: bool,
) -> i32
    ensures held { is_some tree.new.sealed.value ≡ is_some tree.old.sealed.value }
    ensures nothing { tree.old.sealed.value ≡ None → result ≡ pos 421 }
{
    with_object!(alloc, tree, NOTHING_HELD, mut object => {
        code_of(object.create(alloc, path, name, safe))
    })
}

/// Deletes the child of this name of the interpreter at the path, with all below it.
///
/// Reads the texts; reads and writes the handle. Answers 0, or a refusal, which changes nothing:
/// 421, 423; 122, 265, 101 to 104; 424; 301; 401.
#[unsafe(no_mangle)]
pub extern "C" fn tclsafe_delete(alloc: Global, tree: &mut Handle, path: &[u8], name: &[u8]) -> i32
    ensures held { is_some tree.new.sealed.value ≡ is_some tree.old.sealed.value }
    ensures nothing { tree.old.sealed.value ≡ None → result ≡ pos 421 }
{
    with_object!(alloc, tree, NOTHING_HELD, mut object => {
        code_of(object.delete(alloc, path, name))
    })
}

/// Makes a name of the interpreter at the path an alias: a call of it is a call, in the interpreter
/// at the path `target`, of the words, which are a list, and of the words of the call.
///
/// Reads the texts; reads and writes the handle. Answers 0, or a refusal, which changes nothing:
/// 421, 423; 122, 265, 101 to 104; 424; 301, 238, 302; 401.
#[unsafe(no_mangle)]
pub extern "C" fn tclsafe_alias(
    alloc: Global,
    tree: &mut Handle,
    path: &[u8],
    name: &[u8],
    target: &[u8],
    words: &[u8],
) -> i32
    ensures held { is_some tree.new.sealed.value ≡ is_some tree.old.sealed.value }
    ensures nothing { tree.old.sealed.value ≡ None → result ≡ pos 421 }
{
    with_object!(alloc, tree, NOTHING_HELD, mut object => {
        code_of(object.alias(alloc, path, name, target, words))
    })
}

/// Makes a name of the interpreter at the path an alias that leaves the tree: a call of it waits
/// for `tclsafe_answer`, and comes with the words, which are a list, and those of the call.
///
/// Reads the texts; reads and writes the handle. Answers 0, or a refusal, which changes nothing:
/// 421, 423; 122, 265, 101 to 104; 424; 301, 238, 302; 401.
#[unsafe(no_mangle)]
pub extern "C" fn tclsafe_alias_out(
    alloc: Global,
    tree: &mut Handle,
    path: &[u8],
    name: &[u8],
    words: &[u8],
) -> i32
    ensures held { is_some tree.new.sealed.value ≡ is_some tree.old.sealed.value }
    ensures nothing { tree.old.sealed.value ≡ None → result ≡ pos 421 }
{
    with_object!(alloc, tree, NOTHING_HELD, mut object => {
        code_of(object.alias_out(alloc, path, name, words))
    })
}

/// Takes an alias of the interpreter at the path away.
///
/// Reads the texts; reads and writes the handle. Answers 0, or a refusal, which changes nothing:
/// 421, 423; 122, 265, 101 to 104; 424; 301, 305; 401.
#[unsafe(no_mangle)]
pub extern "C" fn tclsafe_alias_clear(
    alloc: Global,
    tree: &mut Handle,
    path: &[u8],
    name: &[u8],
) -> i32
    ensures held { is_some tree.new.sealed.value ≡ is_some tree.old.sealed.value }
    ensures nothing { tree.old.sealed.value ≡ None → result ≡ pos 421 }
{
    with_object!(alloc, tree, NOTHING_HELD, mut object => {
        code_of(object.clear_alias(alloc, path, name))
    })
}
