//! The steps of commands that read and change variables.
ghost use Rattle.std.specs.Prelude.{◌≡◌, IfOk, Some};
ghost use Rattle.tcl_core.specs.Paths.{Path};
ghost use Rattle.tcl_core.specs.Trees as core;
ghost use Rattle.tcl_core.specs.Endings.Reply.{Completed};
ghost use Rattle.tcl_frames.specs.Chain.{after_link, after_unset};
ghost use Rattle.tcl_language.specs.Faults.{integer_message};
ghost use Rattle.tcl_language.specs.Instructions.{look};
ghost use Rattle.tcl_language.specs.Variables.{chain_becomes, sets, unset_left};
ghost use Rattle.tcl_run.specs.Ends.{Gave, Interrupts, failing};
ghost use Rattle.tcl_run.specs.Runs.{IsLevel};
ghost use Rattle.tcl_text.specs.Numbers.{in_64_bits, integer_of};
ghost use Rattle.tcl_tree.specs.Own.{Own};
ghost use Rattle.tcl_tree.specs.TreeOf.{tree_of, marks_of, Names};
ghost use Rattle.tcl_commands.specs.Reading.{is_bad_name, is_missing, is_missing_fault, LeavesSet};
ghost use Rattle.tcl_commands.specs.Steps.{Steps};

use std::alloc::{AllocError, Global};
use tcl_frames::fault::{FrameError, FrameFault};
use tcl_frames::frames::Frames;
use tcl_frames::variable_name::VariableName;
use tcl_run::failure::failure;
use tcl_run::interruption::Interruption;
use tcl_run::steps::{frame_failure, write_by_word, write_named};
use tcl_text::integer::{IntegerFault, Integers, not_integer_message, too_large_message};
use tcl_text::text::Text;
use tcl_tree::tree::{Place, Tree};
use tcl_value::value::Value;

/// The frames of the interpreter that the place names.
pub(crate) fn frames_seen(tree: &Tree, place: Place) -> &Frames
    requires { (p : Path) × Names tree.now place p }
    ensures { (p : Path) (n : core.Node Own) → Names tree.now place p →
        tree_of tree.now p ≡ Some n → result.now ≡ n.own.chain }
{
    match tree.node_at(place) {
        Some(node) => &node.state.frames,
        None => unreachable!(),
    }
}

/// Sets the variable that a word names.
pub(crate) fn set_variable(
    tree: &mut Tree,
    alloc: Global,
    place: Place,
    name: &Value,
    value: Value,
) -> Result<(), Interruption>
    requires { (p : Path) × Names tree.old place p }
    ensures set { Steps tree.old place
        (λ rest style. sets name.now value (rest style)) tree.new result }
    ensures level { IsLevel tree.old tree.new }
{
    write_by_word(tree, alloc, place, name, value)
}

/// Sets the variable of this name, in less time where it stands where it was found last.
pub(crate) fn set_variable_near(
    tree: &mut Tree,
    alloc: Global,
    place: Place,
    name: &VariableName,
    value: Value,
) -> Result<(), Interruption>
    requires { (p : Path) × Names tree.old place p }
    ensures set { Steps tree.old place
        (λ rest style. sets name.now value (rest style)) tree.new result }
    ensures level { IsLevel tree.old tree.new }
{
    write_named(tree, alloc, place, name, value)
}

/// Makes a local name of the current level a link to what another name is at a level.
pub(crate) fn link_variable(
    tree: &mut Tree,
    alloc: Global,
    place: Place,
    level: usize,
    other: &Text,
    local: &Text,
) -> Result<(), Interruption>
    requires { (p : Path) × Names tree.old place p }
    ensures linked { Steps tree.old place
        (λ rest style. look (λ n. chain_becomes n.own
        (after_link n.own.chain level other.now local.now) (rest style))) tree.new result }
    ensures level { IsLevel tree.old tree.new }
{
    match tree.frames_of(place) {
        Some(frames) => match frames.link(alloc, level, other, local) {
            Ok(()) => Ok(()),
            Err(error) => Err(frame_failure(alloc, error)),
        },
        None => unreachable!(),
    }
}

/// Whether a refusal says that no variable may have the name.
fn is_bad_name(fault: &FrameFault) -> bool
    ensures { result ≡ is_bad_name fault.now }
{
    match fault {
        FrameFault::BadName(_) => true,
        FrameFault::NoVariable(_, _) => false,
        FrameFault::NoElement(_, _) => false,
        FrameFault::IsArray(_, _) => false,
        FrameFault::NotArray(_, _) => false,
        FrameFault::BadLevel(_) => false,
        FrameFault::Exists(_) => false,
        FrameFault::Itself => false,
    }
}

/// What comes of an error of unsetting a variable, where all refusals but one are hidden or where
/// none is.
fn left_set(alloc: Global, hides: bool, error: FrameError) -> Result<(), Interruption>
    ensures { LeavesSet hides error result }
{
    match error {
        FrameError::Memory => Err(Interruption::Memory),
        FrameError::Fault(fault) => {
            if hides && !is_bad_name(&fault) {
                return Ok(());
            }
            Err(frame_failure(alloc, FrameError::Fault(fault)))
        }
    }
}

/// Unsets a variable. Where refusals are hidden, only that of the name ends the command.
pub(crate) fn unset_variable(
    tree: &mut Tree,
    alloc: Global,
    place: Place,
    hides: bool,
    name: &Text,
) -> Result<(), Interruption>
    requires { (p : Path) × Names tree.old place p }
    ensures unset { Steps tree.old place
        (λ rest style. look (λ n. unset_left hides n.own (rest style)
        (after_unset n.own.chain name.now))) tree.new result }
    ensures level { IsLevel tree.old tree.new }
{
    match tree.frames_of(place) {
        Some(frames) => match frames.unset(alloc, name) {
            Ok(()) => Ok(()),
            Err(error) => left_set(alloc, hides, error),
        },
        None => unreachable!(),
    }
}

/// Whether a refusal to read a variable says that there is none.
fn is_missing_fault(fault: &FrameFault) -> bool
    ensures { result ≡ is_missing_fault fault.now }
{
    match fault {
        FrameFault::NoVariable(_, _) => true,
        FrameFault::NoElement(_, _) => true,
        FrameFault::IsArray(_, _) => false,
        FrameFault::NotArray(_, _) => false,
        FrameFault::BadLevel(_) => false,
        FrameFault::Exists(_) => false,
        FrameFault::Itself => false,
        FrameFault::BadName(_) => false,
    }
}

/// Whether an error of reading a variable says that there is none.
pub(crate) fn is_missing(error: &FrameError) -> bool
    ensures { result ≡ is_missing error.now }
{
    match error {
        FrameError::Memory => false,
        FrameError::Fault(fault) => is_missing_fault(fault),
    }
}

/// The message about a text that has no integer.
fn integer_text(alloc: Global, value: &Value, fault: IntegerFault) -> Result<Text, AllocError>
    ensures { IfOk result (λ text. text ≡ integer_message value.now fault) }
{
    match fault {
        IntegerFault::NotInteger => not_integer_message(alloc, value.text(alloc)?.as_str()),
        IntegerFault::TooLarge => too_large_message(alloc),
    }
}

/// The error that a value is no integer that can be used.
fn integer_failure(alloc: Global, value: &Value, fault: IntegerFault) -> Interruption
    ensures { Interrupts result (λ e. e ≡ Completed (failing (integer_message value.now fault))) }
{
    match integer_text(alloc, value, fault) {
        Ok(message) => failure(alloc, message),
        Err(_) => Interruption::Memory,
    }
}

/// The integer of a value, which is kept with it.
pub(crate) fn integer(
    style: Integers,
    alloc: Global,
    value: &mut Value,
) -> Result<i64, Interruption>
    ensures read { Gave (integer_message value.old)
        (in_64_bits (integer_of style value.old)) result }
    ensures text { value.new ≡ value.old }
{
    match value.as_int(style) {
        Ok(n) => Ok(n),
        Err(fault) => Err(integer_failure(alloc, value, fault)),
    }
}

/// The integer of a word, in a style.
pub(crate) fn integer_of(style: Integers, alloc: Global, word: &Value) -> Result<i64, Interruption>
    ensures { Gave (integer_message word.now) (in_64_bits (integer_of style word.now)) result }
{
    match word.int(style) {
        Ok(n) => Ok(n),
        Err(fault) => Err(integer_failure(alloc, word, fault)),
    }
}

/// The integer of a word.
pub fn word_integer(tree: &Tree, alloc: Global, word: &Value) -> Result<i64, Interruption>
    ensures { Gave (integer_message word.now)
        (in_64_bits (integer_of (marks_of tree.now).integers word.now)) result }
{
    integer_of(tree.integers(), alloc, word)
}
