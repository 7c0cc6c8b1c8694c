//! The commands that change what a variable holds: `lset`, and the subcommands of `dict` that name
//! a variable. A list or dict that isn't shared is changed in place.
ghost use Rattle.std.specs.Prelude.{◌≡◌, [], Ok, true, false};
ghost use Rattle.tcl_core.specs.Paths.{Path};
ghost use Rattle.tcl_frames.specs.Chain.{read};
ghost use Rattle.tcl_language.specs.Changes as changes;
ghost use Rattle.tcl_language.specs.Instructions.{look};
ghost use Rattle.tcl_lists.specs.Lists.{Changes};
ghost use Rattle.tcl_run.specs.Plain.{Acts};
ghost use Rattle.tcl_run.specs.Runs.{IsLevel};
ghost use Rattle.tcl_tree.specs.TreeOf.{Names};
ghost use Rattle.tcl_commands.specs.Changed.{Alters, altered, changed, changed_by};
ghost use Rattle.tcl_commands.specs.Growing.{GrowsTo, finishes};

use crate::steps::is_missing;
use std::alloc::Global;
use tcl_dicts::changing as dicts;
use tcl_frames::frames::Frames;
use tcl_frames::variable_name::VariableName;
use tcl_lists::changing as lists;
use tcl_run::failure::{failure, refused};
use tcl_run::interruption::Interruption;
use tcl_run::steps::{frame_failure, variable_name};
use tcl_text::integer::Integers;
use tcl_text::text::Text;
use tcl_tree::tree::{Place, Tree};
use tcl_value::value::Value;
use tcl_words::refusal::Refusal;

/// A change of what a variable holds, with the words that it takes.
#[derive(Clone, Copy)]
pub(crate) enum Change<'a> {
    /// Another element of its list, where indexes lead.
    Element(Integers, &'a [Value], &'a Value),
    /// Another value of its dict, where keys lead.
    Key(&'a [Value], &'a Value),
    /// Its dict without a key, which stands where other keys lead.
    NoKey(&'a [Value], &'a Value),
    /// What is added to the integer of a key; 1 where there is no word.
    Sum(Integers, &'a Value, Option<&'a Value>),
    /// Texts behind that of a key.
    Texts(&'a Value, &'a [Value]),
    /// Elements behind those of the list of a key.
    Elements(&'a Value, &'a [Value]),
}

/// Makes a change of a value. A refusal leaves it as it was.
#[inline(always)]
fn make_change(alloc: Global, value: &mut Value, change: Change<'_>) -> Result<(), Refusal>
    ensures { Changes result value.old value.new (changed_by change.entry value.old) }
{
    match change {
        Change::Element(style, indexes, new) => lists::lset(alloc, style, value, indexes, new),
        Change::Key(keys, new) => dicts::set(alloc, value, keys, new),
        Change::NoKey(path, key) => dicts::unset(alloc, value, path, key),
        Change::Sum(style, key, by) => dicts::incr(alloc, style, value, key, by),
        Change::Texts(key, words) => dicts::append(alloc, value, key, words),
        Change::Elements(key, words) => dicts::lappend(alloc, value, key, words),
    }
}

/// Makes a change of a value, and gives what it then is.
#[inline(always)]
fn change_value(alloc: Global, value: &mut Value, change: Change<'_>) -> Result<Value, Interruption>
    ensures { GrowsTo value.old (altered change.entry) value.new result }
{
    match make_change(alloc, value, change) {
        Ok(()) => Ok(value.clone()?),
        Err(Refusal::Fault(message)) => Err(failure(alloc, message)),
        Err(Refusal::Memory) => Err(Interruption::Memory),
    }
}

/// Makes a variable of which there is none yet: what a change makes of the empty value.
fn make_variable(
    frames: &mut Frames,
    alloc: Global,
    name: &Text,
    change: Change<'_>,
) -> Result<Value, Interruption>
    requires { changes.or_empty true (read frames.old.frames name.now) ≡ Ok [] }
    ensures { Alters true frames.old name.now (altered change.entry) frames.new result }
{
    let mut value = Value::empty();
    let made = change_value(alloc, &mut value, change)?;
    match frames.set(alloc, name, value) {
        Ok(()) => Ok(made),
        Err(error) => Err(frame_failure(alloc, error)),
    }
}

/// Changes what a variable holds, or makes it where there is none.
fn change_or_make(
    frames: &mut Frames,
    alloc: Global,
    name: &Text,
    change: Change<'_>,
) -> Result<Value, Interruption>
    ensures { Alters true frames.old name.now (altered change.entry) frames.new result }
{
    match frames.get_mut(alloc, name) {
        Ok(value) => change_value(alloc, value, change),
        Err(error) => {
            if is_missing(&error) {
                return make_variable(frames, alloc, name, change);
            }
            Err(frame_failure(alloc, error))
        }
    }
}

/// Changes what a variable holds.
fn change_held(
    frames: &mut Frames,
    alloc: Global,
    name: &Text,
    change: Change<'_>,
) -> Result<Value, Interruption>
    ensures { Alters false frames.old name.now (altered change.entry) frames.new result }
{
    match frames.get_mut(alloc, name) {
        Ok(value) => change_value(alloc, value, change),
        Err(error) => Err(frame_failure(alloc, error)),
    }
}

/// Changes what a variable holds; where there is none it is made, if the change may make one.
#[inline(always)]
fn change_in(
    frames: &mut Frames,
    alloc: Global,
    name: &VariableName,
    makes: bool,
    change: Change<'_>,
) -> Result<Value, Interruption>
    ensures { Alters makes frames.old name.now (altered change.entry) frames.new result }
{
    if let Some(value) = frames.scalar_mut_near(name) {
        return change_value(alloc, value, change);
    }
    if makes {
        change_or_make(frames, alloc, name.text(), change)
    } else {
        change_held(frames, alloc, name.text(), change)
    }
}

/// Changes a variable of the interpreter that the place names.
#[inline(always)]
pub(crate) fn change_variable(
    tree: &mut Tree,
    alloc: Global,
    place: Place,
    name: &VariableName,
    makes: bool,
    change: Change<'_>,
) -> Result<Value, Interruption>
    requires { (p : Path) × Names tree.old place p }
    ensures acts { Acts tree.old place
        (λ style. look (λ n. finishes n.own
        (changed makes n.own.chain name.now (altered change.entry)))) tree.new result }
    ensures level { IsLevel tree.old tree.new }
{
    match tree.frames_of(place) {
        Some(frames) => change_in(frames, alloc, name, makes, change),
        None => unreachable!(),
    }
}

/// Changes the variable that a word names.
fn change_named(
    tree: &mut Tree,
    alloc: Global,
    place: Place,
    word: &Value,
    makes: bool,
    change: Change<'_>,
) -> Result<Value, Interruption>
    requires { (p : Path) × Names tree.old place p }
    ensures acts { Acts tree.old place
        (λ style. look (λ n. finishes n.own
        (changed makes n.own.chain word.now (altered change.entry)))) tree.new result }
    ensures level { IsLevel tree.old tree.new }
{
    let name = variable_name(alloc, word)?;
    change_variable(tree, alloc, place, &name, makes, change)
}

/// `lset varName ?index ...? newValue`: another element stands where the indexes lead in the list
/// of a variable. The place behind the last element adds one. (lset(n))
///
/// # Errors
/// 241; 231 to 234 and 238; 101 to 104, 114 and 243, which leave the variable as it was; 122; want
/// of memory.
pub fn lset(
    tree: &mut Tree,
    alloc: Global,
    place: Place,
    args: &[Value],
) -> Result<Value, Interruption>
    requires { (p : Path) × Names tree.old place p }
    ensures acts { Acts tree.old place (λ style. changes.lset style args.now) tree.new result }
    ensures level { IsLevel tree.old tree.new }
{
    let style = tree.integers();
    match lists::lset_words(alloc, args) {
        Ok((name, indexes, new)) => {
            let change = Change::Element(style, indexes, new);
            change_named(tree, alloc, place, name, false, change)
        }
        Err(refusal) => Err(refused(alloc, refusal)),
    }
}

/// `dict set varName key ?key ...? value`: another value stands where the keys lead in the dict of
/// a variable. A key that is missing is new, and stands last. (dict(n))
///
/// # Errors
/// 241; 232 to 234 and 238; 101 to 104 and 121, which leave the variable as it was; 122; want of
/// memory.
pub fn dict_set(
    tree: &mut Tree,
    alloc: Global,
    place: Place,
    args: &[Value],
) -> Result<Value, Interruption>
    requires { (p : Path) × Names tree.old place p }
    ensures acts { Acts tree.old place (λ style. changes.dict_set style args.now) tree.new result }
    ensures level { IsLevel tree.old tree.new }
{
    match dicts::set_words(alloc, args) {
        Ok((name, keys, new)) => {
            change_named(tree, alloc, place, name, true, Change::Key(keys, new))
        }
        Err(refusal) => Err(refused(alloc, refusal)),
    }
}

/// `dict unset varName key ?key ...?`: the dict to which the keys before the last one lead, in that
/// of a variable, is without the last. (dict(n))
///
/// # Errors
/// 241; 232 to 234 and 238; 101 to 104, 121 and 242, which leave the variable as it was; 122; want
/// of memory.
pub fn dict_unset(
    tree: &mut Tree,
    alloc: Global,
    place: Place,
    args: &[Value],
) -> Result<Value, Interruption>
    requires { (p : Path) × Names tree.old place p }
    ensures acts { Acts tree.old place
        (λ style. changes.dict_unset style args.now) tree.new result }
    ensures level { IsLevel tree.old tree.new }
{
    match dicts::unset_words(alloc, args) {
        Ok((name, path, key)) => {
            change_named(tree, alloc, place, name, true, Change::NoKey(path, key))
        }
        Err(refusal) => Err(refused(alloc, refusal)),
    }
}

/// `dict incr varName key ?increment?`: the integer of a key, which is 0 where it is missing, has
/// the increment added, which is 1 where none is given. (dict(n))
///
/// # Errors
/// 241; 232 to 234 and 238; 101 to 104, 121, 111, 112 and 212, which leave the variable as it was;
/// 122; want of memory.
pub fn dict_incr(
    tree: &mut Tree,
    alloc: Global,
    place: Place,
    args: &[Value],
) -> Result<Value, Interruption>
    requires { (p : Path) × Names tree.old place p }
    ensures acts { Acts tree.old place (λ style. changes.dict_incr style args.now) tree.new result }
    ensures level { IsLevel tree.old tree.new }
{
    let style = tree.integers();
    match dicts::incr_words(alloc, args) {
        Ok((name, key, by)) => {
            change_named(tree, alloc, place, name, true, Change::Sum(style, key, by))
        }
        Err(refusal) => Err(refused(alloc, refusal)),
    }
}

/// `dict append varName key ?string ...?`: the value of a key, which is empty where it is missing,
/// has the strings behind it. (dict(n))
///
/// # Errors
/// 241; 232 to 234 and 238; 101 to 104 and 121, which leave the variable as it was; 122; want of
/// memory.
pub fn dict_append(
    tree: &mut Tree,
    alloc: Global,
    place: Place,
    args: &[Value],
) -> Result<Value, Interruption>
    requires { (p : Path) × Names tree.old place p }
    ensures acts { Acts tree.old place
        (λ style. changes.dict_append style args.now) tree.new result }
    ensures level { IsLevel tree.old tree.new }
{
    match dicts::append_words(alloc, args) {
        Ok((name, key, words)) => {
            change_named(tree, alloc, place, name, true, Change::Texts(key, words))
        }
        Err(refusal) => Err(refused(alloc, refusal)),
    }
}

/// `dict lappend varName key ?value ...?`: the list of a key, which is empty where it is missing,
/// has the values behind its elements. (dict(n))
///
/// # Errors
/// 241; 232 to 234 and 238; 101 to 104 and 121, which leave the variable as it was; 122; want of
/// memory.
pub fn dict_lappend(
    tree: &mut Tree,
    alloc: Global,
    place: Place,
    args: &[Value],
) -> Result<Value, Interruption>
    requires { (p : Path) × Names tree.old place p }
    ensures acts { Acts tree.old place
        (λ style. changes.dict_lappend style args.now) tree.new result }
    ensures level { IsLevel tree.old tree.new }
{
    match dicts::lappend_words(alloc, args) {
        Ok((name, key, words)) => {
            change_named(tree, alloc, place, name, true, Change::Elements(key, words))
        }
        Err(refusal) => Err(refused(alloc, refusal)),
    }
}
