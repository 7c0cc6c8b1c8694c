//! The steps that evaluations are put together from.
ghost use Rattle.std.specs.Prelude.{◌≡◌, ◌≤◌, true, false, Some, None, Err, IfOk, IfErr, OnOk};
ghost use Rattle.std.specs.Prelude.{OnErr, IfSome, MatchOption, Ok};
ghost use Rattle.std.specs.Option.{option_copied, option_map};
ghost use Rattle.tcl_core.specs.Paths.{Path};
ghost use Rattle.tcl_core.specs.Trees as core;
ghost use Rattle.tcl_frames.specs.Chain.{read, after_set};
ghost use Rattle.tcl_frames.specs.Faults.{Refuses};
ghost use Rattle.tcl_frames.specs.VariableArrays.{element_name};
ghost use Rattle.tcl_language.specs.Faults.{frame_message};
ghost use Rattle.tcl_language.specs.Instructions.{fits};
ghost use Rattle.tcl_core.specs.Endings.Kind.{Full};
ghost use Rattle.tcl_core.specs.Endings.Meter.{Count};
ghost use Rattle.tcl_core.specs.Endings as endings;
ghost use Rattle.tcl_run.specs.Runs.{Counts, IsLevel, RefusesStep, Rechained};
ghost use Rattle.tcl_tree.specs.Own.{Own};
ghost use Rattle.tcl_tree.specs.TreeOf.{tree_of, Names};
ghost use Rattle.tcl_run.specs.Ends.{Breaks, Interrupts, Says, Gave, Stays, IsText, Tells};
ghost use Rattle.tcl_run.specs.Ends.{ListTells, IsFailure};
ghost use Rattle.tcl_text.specs.Lists.{list_of};
ghost use Rattle.tcl_text.specs.Writing.{fault_message};

use crate::failure::failure;
use crate::interruption::{Cause, Interruption};
use crate::outside::Outside;
use std::alloc::{AllocError, Global};
use tcl_flow::completion::OK;
use tcl_flow::stop::{Stop, StopKind};
use tcl_frames::fault::FrameError;
use tcl_frames::frames::Frames;
use tcl_frames::variable_name::VariableName;
use tcl_text::list::ListError;
use tcl_tree::tree::{Place, Tree};
use tcl_value::list::List;
use tcl_value::value::Value;

/// The error that a refusal of the variables is.
pub fn frame_failure(alloc: Global, error: FrameError) -> Interruption
    ensures { Tells error result }
{
    match error {
        FrameError::Memory => Interruption::Memory,
        FrameError::Fault(fault) => match fault.message(alloc) {
            Ok(message) => failure(alloc, message),
            Err(_) => Interruption::Memory,
        },
    }
}

/// The error that a text is no list.
pub fn list_failure(alloc: Global, error: ListError) -> Interruption
    ensures { ListTells error result }
{
    match error {
        ListError::Memory => Interruption::Memory,
        ListError::Fault(fault) => match fault.message(alloc) {
            Ok(message) => failure(alloc, message),
            Err(_) => Interruption::Memory,
        },
    }
}

/// The list that a value is.
pub fn read_list(alloc: Global, value: &mut Value) -> Result<List, Interruption>
    ensures read { Gave fault_message (list_of value.old) result }
    ensures text { value.new ≡ value.old }
{
    match value.as_list(alloc) {
        Ok(list) => Ok(list),
        Err(error) => Err(list_failure(alloc, error)),
    }
}

/// A value, of which it is told that its text is within the limit.
pub fn known_short(value: Value) -> Value
    ensures same { result ≡ value }
    ensures short { fits value ≡ true }
{
    value.keeps_limit();
    value
}

/// The frames of the interpreter that the place names.
pub fn frames_seen(tree: &Tree, place: Place) -> Option<&Frames>
    ensures { (p : Path) → Names tree.now place p → option_copied result ≡ option_map
        (λ n. n.own.chain) (tree_of tree.now p) }
{
    match tree.node_at(place) {
        Some(node) => Some(&node.state.frames),
        None => None,
    }
}

/// The value of the variable of this name, in less time where it stands where it was found last.
pub fn read_named(
    tree: &Tree,
    alloc: Global,
    place: Place,
    name: &VariableName,
) -> Result<Value, Interruption>
    ensures read { (p : Path) (n : core.Node Own) → Names tree.now place p →
        tree_of tree.now p ≡ Some n → Gave frame_message (read n.own.chain.frames name.now) result }
    ensures short { IfOk result (λ value. fits value ≡ true) }
{
    let Some(frames) = frames_seen(tree, place) else {
        return Err(Interruption::Memory);
    };
    match frames.get_near(name) {
        Ok(value) => Ok(known_short(value.clone()?)),
        Err(error) => Err(frame_failure(alloc, error)),
    }
}

/// The name of a variable that a word is, which shares its text, and so its hint.
///
/// # Errors
/// Want of memory.
pub fn variable_name(alloc: Global, word: &Value) -> Result<VariableName, AllocError>
    ensures { IfOk result (λ name. name ≡ word.now) }
{
    Ok(VariableName::new(word.text(alloc)?))
}

/// The value of the variable that a word names, which is sought where the word's place says first.
pub fn read_by_word(
    tree: &Tree,
    alloc: Global,
    place: Place,
    word: &Value,
) -> Result<Value, Interruption>
    ensures read { (p : Path) (n : core.Node Own) → Names tree.now place p →
        tree_of tree.now p ≡ Some n → Gave frame_message (read n.own.chain.frames word.now) result }
    ensures short { IfOk result (λ value. fits value ≡ true) }
{
    let name = variable_name(alloc, word)?;
    read_named(tree, alloc, place, &name)
}

/// The text of an ordinary completion, on which its caller goes on; anything else is the caller's
/// own end.
#[inline]
pub fn on_ok(ended: Result<Value, Interruption>) -> Result<Value, Interruption>
    ensures text { IfOk result (IsText ended) }
    ensures same { IfErr result (λ i. ended ≡ Err i) }
    ensures stays { IfErr result (λ i. Breaks i Stays) }
{
    match ended {
        Ok(text) => Ok(text),
        Err(Interruption::Completed(completion)) => {
            if completion.code == OK {
                Ok(Box::into_inner(completion).text)
            } else {
                Err(Interruption::Completed(completion))
            }
        }
        Err(interruption) => Err(interruption),
    }
}

/// Counts a step in the interpreter and in all above it.
///
/// # Errors
/// 308, as a stop, of the nearest interpreter whose limit of steps would be passed, itself first;
/// and where none would be, that the outside grants no step more.
pub fn charge<O: Outside>(
    tree: &mut Tree,
    outside: &mut O,
    place: Place,
) -> Result<(), Interruption>
    requires { (p : Path) × Names tree.old place p }
    ensures counted { OnOk result ((p : Path) → Names tree.old place p →
        Counts O.goes (tree_of tree.old) outside.old p (tree_of tree.new) outside.new) }
    ensures refused { IfErr result
        (λ i. Says i (λ e. (p : Path) → Names tree.old place p →
        RefusesStep O.goes (tree_of tree.old) outside.old p (tree_of tree.new) outside.new e)) }
    ensures level { IsLevel tree.old tree.new }
    ensures left { O.entries_left outside.new ≤ O.entries_left outside.old }
{
    if !outside.grants_step() {
        return Err(refusal(tree, outside, place));
    }
    match tree.charge_at(place) {
        Ok(()) => {
            outside.makes_step();
            Ok(())
        }
        Err(levels) => Err(past_limit(levels)),
    }
}

/// The stop of the interpreter so many levels up, whose limit of steps would be passed.
fn past_limit(levels: usize) -> Interruption
    ensures { Says result (λ e. e ≡ endings.Reply.Stop levels (Full Count)) }
{
    Interruption::Stopped(Stop {
        levels_up: levels,
        kind: StopKind::Count,
    })
}

/// How a step is refused that the outside doesn't grant: by a limit that it would pass, or else by
/// the outside.
fn refusal<O: Outside>(tree: &Tree, outside: &mut O, place: Place) -> Interruption
    requires place { (p : Path) × Names tree.now place p }
    requires refuses { O.has_steps outside.old ≡ false }
    ensures refused { Says result
        (λ e. (p : Path) → Names tree.now place p →
        RefusesStep O.goes (tree_of tree.now) outside.old p (tree_of tree.now) outside.new e) }
    ensures left { O.entries_left outside.new ≤ O.entries_left outside.old }
{
    match tree.spent_at(place) {
        Some(levels) => past_limit(levels),
        None => {
            outside.refuses_step();
            Interruption::Cut(Cause::Above)
        }
    }
}

/// Sets the variable of this name, in less time where it stands where it was found last.
pub fn write_named(
    tree: &mut Tree,
    alloc: Global,
    place: Place,
    name: &VariableName,
    value: Value,
) -> Result<(), Interruption>
    requires { (p : Path) × Names tree.old place p }
    ensures written { OnOk result ((p : Path) (n : core.Node Own) → Names tree.old place p →
        tree_of tree.old p ≡ Some n → Rechained (tree_of tree.old) p n.own
        (after_set n.own.chain name.now value) (tree_of tree.new)) }
    ensures refused { IfErr result
        (λ i. Interrupts i (λ e. (p : Path) (n : core.Node Own) → Names tree.old place p →
        tree_of tree.old p ≡ Some n → IsFailure frame_message (after_set n.own.chain name.now value)
        e)) }
    ensures unchanged { OnErr result (tree_of tree.new ≡ tree_of tree.old) }
    ensures level { IsLevel tree.old tree.new }
{
    let Some(frames) = tree.frames_of(place) else {
        return Err(Interruption::Memory);
    };
    match frames.set_near(alloc, name, value) {
        Ok(()) => Ok(()),
        Err(error) => Err(frame_failure(alloc, error)),
    }
}

/// The array and the key that the name of an element is written with.
fn element_parts(name: &str) -> Option<(&str, &str)>
    ensures { IfSome result (λ found. name.now ≡ element_name found.0.now found.1.now) }
{
    name.strip_suffix(')')?.split_once('(')
}

/// Sets the element that a word names of an array of the current frame, or gives the value back,
/// where nothing has changed.
///
/// # Errors
/// Want of memory, where nothing has changed.
fn put_by_word(
    frames: &mut Frames,
    alloc: Global,
    word: &Value,
    value: Value,
) -> Result<Option<Value>, AllocError>
    ensures put { IfOk result (λ left. MatchOption left
        (after_set frames.old word.now value ≡ Ok frames.new)
        (λ v. (v ≡ value) × (frames.new ≡ frames.old))) }
    ensures unchanged { OnErr result (frames.new ≡ frames.old) }
{
    let Some(name) = word.as_text() else {
        return Ok(Some(value));
    };
    let Some((array, key)) = element_parts(name.as_str()) else {
        return Ok(Some(value));
    };
    frames.put_element(alloc, array, key, value)
}

/// Sets the variable that a word names: an element of an array without a look at what it links to,
/// and others where the word's place says first.
///
/// # Errors
/// Those of [`Frames::set`], where nothing has changed.
fn set_by_word(
    frames: &mut Frames,
    alloc: Global,
    word: &Value,
    value: Value,
) -> Result<(), FrameError>
    ensures ok { OnOk result (after_set frames.old word.now value ≡ Ok frames.new) }
    ensures err { IfErr result (λ e. Refuses e (after_set frames.old word.now value)) }
    ensures unchanged { OnErr result (frames.new ≡ frames.old) }
{
    let Some(value) = put_by_word(frames, alloc, word, value)? else {
        return Ok(());
    };
    let name = variable_name(alloc, word)?;
    frames.set_near(alloc, &name, value)
}

/// Sets the variable that a word names, which is sought where the word's place says first.
pub fn write_by_word(
    tree: &mut Tree,
    alloc: Global,
    place: Place,
    word: &Value,
    value: Value,
) -> Result<(), Interruption>
    requires { (p : Path) × Names tree.old place p }
    ensures written { OnOk result ((p : Path) (n : core.Node Own) → Names tree.old place p →
        tree_of tree.old p ≡ Some n → Rechained (tree_of tree.old) p n.own
        (after_set n.own.chain word.now value) (tree_of tree.new)) }
    ensures refused { IfErr result
        (λ i. Interrupts i (λ e. (p : Path) (n : core.Node Own) → Names tree.old place p →
        tree_of tree.old p ≡ Some n → IsFailure frame_message (after_set n.own.chain word.now value)
        e)) }
    ensures unchanged { OnErr result (tree_of tree.new ≡ tree_of tree.old) }
    ensures level { IsLevel tree.old tree.new }
{
    let Some(frames) = tree.frames_of(place) else {
        return Err(Interruption::Memory);
    };
    match set_by_word(frames, alloc, word, value) {
        Ok(()) => Ok(()),
        Err(error) => Err(frame_failure(alloc, error)),
    }
}
