//! Changes of one entry of what a variable holds, by commands whose words are at hand: an element
//! of a list, or the value of a key of a dict.
ghost use Rattle.std.specs.Prelude.{◌≡◌, ◌∷◌, [], map, IfSome};
ghost use Rattle.tcl_commands.specs.Entries.{builtin_of, words_before, words_behind, words_of};
ghost use Rattle.tcl_core.specs.Paths.{Path};
ghost use Rattle.tcl_core.specs.Trees as core;
ghost use Rattle.tcl_interpreter.specs.declared.builtin.Builtin.TheVariants as called;
ghost use Rattle.tcl_prepared.specs.Views.{seen_word};
ghost use Rattle.tcl_run.specs.Ends.{IfRan, OnCompletion};
ghost use Rattle.tcl_run.specs.Runs.{IsHere, IsRunning, Keeps, ways};
ghost use Rattle.tcl_tree.specs.Own.{Own};
ghost use Rattle.tcl_tree.specs.TreeOf.{tree_of, marks_of, Names};
ghost use Rattle.tcl_evaluation.specs.Hands.{AllEnd, IsEntryChangeIn};
ghost use Rattle.tcl_evaluation.specs.Sums.{CallsBuiltin, CallsBuiltinAtHand};

use crate::hands::{end_at_hand, one_of};
use crate::sums::count_first;
use std::alloc::Global;
use tcl_calls::lookup::builtin_named;
use tcl_commands::entries::{EntryChange, change_entry};
use tcl_frames::variable_name::VariableName;
use tcl_prepared::prepared::PreparedWord;
use tcl_run::interruption::Interruption;
use tcl_run::outside::Outside;
use tcl_run::steps::charge;
use tcl_tree::builtin::Builtin;
use tcl_tree::tree::{Place, Tree};
use tcl_value::value::Value;

/// What two words stand for, where they are at hand, and whether one of them is a sum or an answer
/// in brackets, which isn't counted yet.
#[inline(always)]
fn two_at_hand(
    tree: &Tree,
    alloc: Global,
    place: Place,
    first: &PreparedWord,
    second: &PreparedWord,
) -> Option<(Value, Value, bool)>
    ensures { IfSome result (λ found. (p : Path) (n : core.Node Own) → Names tree.now place p →
        tree_of tree.now p ≡ Some n → AllEnd (marks_of tree.now).integers n
        (seen_word first.now ∷ seen_word second.now ∷ []) found.2 (found.0 ∷ found.1 ∷ [])) }
{
    let (a, in_first) = end_at_hand(tree, alloc, place, first)?;
    let (b, in_second) = end_at_hand(tree, alloc, place, second)?;
    let sums = one_of(in_first, in_second)?;
    Some((a, b, sums))
}

/// The change that `lset` makes of a variable that a literal names, where there is one index and
/// the words are at hand, and whether one of them is a sum or an answer in brackets, which isn't
/// counted yet.
fn element_change_at_hand<'a>(
    tree: &Tree,
    alloc: Global,
    place: Place,
    command: &Value,
    words: &'a [PreparedWord],
) -> Option<(&'a VariableName, EntryChange, bool)>
    ensures { IfSome result (λ found. IsEntryChangeIn tree.now place command.now
        (map seen_word words.now) found.0.now found.1 found.2) }
{
    let [first, second, third] = words else {
        return None;
    };
    let PreparedWord::Name(variable) = first else {
        return None;
    };
    let name = variable.name();
    let Builtin::Lset = builtin_named(tree, place, command)? else {
        return None;
    };
    let (index, value, sums) = two_at_hand(tree, alloc, place, second, third)?;
    Some((name, EntryChange::Element(index, value), sums))
}

/// The change that a subcommand of `dict` makes with these words behind the variable's name, where
/// it is of one key and they are at hand, and whether one of them is a sum or an answer in
/// brackets, which isn't counted yet.
#[inline(always)]
fn change_of_key(
    tree: &Tree,
    alloc: Global,
    place: Place,
    subcommand: &Value,
    words: &[PreparedWord],
) -> Option<(EntryChange, bool)>
    ensures command { IfSome result (λ found. builtin_of found.0 ≡ called.Dict) }
    ensures before { IfSome result (λ found. words_before found.0 ≡ subcommand.now ∷ []) }
    ensures behind { IfSome result (λ found. (p : Path) (n : core.Node Own) →
        Names tree.now place p → tree_of tree.now p ≡ Some n → AllEnd (marks_of tree.now).integers n
        (map seen_word words.now) found.1 (words_behind found.0)) }
{
    match words {
        [first, second] => {
            let (key, value, sums) = two_at_hand(tree, alloc, place, first, second)?;
            let change = EntryChange::of_pair(subcommand, key, value)?;
            Some((change, sums))
        }
        [word] => {
            let (key, sums) = end_at_hand(tree, alloc, place, word)?;
            let change = EntryChange::of_key(subcommand, key)?;
            Some((change, sums))
        }
        _ => None,
    }
}

/// The same of `dict` and a literal, where it is of one key.
fn key_change_at_hand<'a>(
    tree: &Tree,
    alloc: Global,
    place: Place,
    command: &Value,
    words: &'a [PreparedWord],
) -> Option<(&'a VariableName, EntryChange, bool)>
    ensures { IfSome result (λ found. IsEntryChangeIn tree.now place command.now
        (map seen_word words.now) found.0.now found.1 found.2) }
{
    let [first, others @ ..] = words else {
        return None;
    };
    let [second, rest @ ..] = others else {
        return None;
    };
    let PreparedWord::Literal(subcommand) = first else {
        return None;
    };
    let PreparedWord::Name(variable) = second else {
        return None;
    };
    subcommand.keeps_limit();
    let name = variable.name();
    let Builtin::Dict = builtin_named(tree, place, command)? else {
        return None;
    };
    let (change, sums) = change_of_key(tree, alloc, place, subcommand, rest)?;
    Some((name, change, sums))
}

/// The change of an entry that the command makes which a literal names, with these words behind it,
/// where they are at hand: the variable's name, the change, and whether one of the words is a sum
/// or an answer in brackets, which isn't counted yet.
pub(crate) fn entry_change_at_hand<'a>(
    tree: &Tree,
    alloc: Global,
    place: Place,
    command: &Value,
    words: &'a [PreparedWord],
) -> Option<(&'a VariableName, EntryChange, bool)>
    ensures { IfSome result (λ found. IsEntryChangeIn tree.now place command.now
        (map seen_word words.now) found.0.now found.1 found.2) }
{
    if let Some(found) = element_change_at_hand(tree, alloc, place, command, words) {
        return Some(found);
    }
    key_change_at_hand(tree, alloc, place, command, words)
}

/// Makes a step and changes an entry of what a variable holds.
///
/// # Errors
/// The stop 308; those of the change's command; want of memory.
fn call_entry_change<O: Outside>(
    tree: &mut Tree,
    alloc: Global,
    outside: &mut O,
    place: Place,
    name: &VariableName,
    change: EntryChange,
) -> Result<Value, Interruption>
    requires { IsRunning tree.old place }
    ensures runs { IfRan result (CallsBuiltin (ways O.goes O.loses) tree.old outside.old place
        (builtin_of change) (words_of name.now change) tree.new outside.new) }
    ensures here { OnCompletion result (IsHere tree.old tree.new place) }
    ensures keeps { Keeps O.entries_left tree.old tree.new outside.old outside.new }
{
    charge(tree, outside, place)?;
    change_entry(tree, alloc, place, name, change)
}

/// Makes a step and changes an entry of what a variable holds, after a sum or an answer among the
/// words is counted.
///
/// # Errors
/// The stop 308, and the error 308 of a sum or an answer; those of the change's command; want of
/// memory.
pub(crate) fn call_entry_change_on_hand<O: Outside>(
    tree: &mut Tree,
    alloc: Global,
    outside: &mut O,
    place: Place,
    name: &VariableName,
    change: EntryChange,
    sums: bool,
) -> Result<Value, Interruption>
    requires { IsRunning tree.old place }
    ensures runs { IfRan result (CallsBuiltinAtHand (ways O.goes O.loses) tree.old outside.old place
        (builtin_of change) sums (words_of name.now change) tree.new outside.new) }
    ensures here { OnCompletion result (IsHere tree.old tree.new place) }
    ensures keeps { Keeps O.entries_left tree.old tree.new outside.old outside.new }
{
    count_first(tree, alloc, outside, place, sums)?;
    call_entry_change(tree, alloc, outside, place, name, change)
}

/// Whether a command with these words behind its name may change an entry of what a variable holds:
/// the first or the second names the variable. A hint, of which contracts say nothing.
pub(crate) fn may_change_entry(words: &[PreparedWord]) -> bool {
    match words {
        [first, second, ..] => {
            matches!(first, PreparedWord::Name(_)) || matches!(second, PreparedWord::Name(_))
        }
        _ => false,
    }
}
