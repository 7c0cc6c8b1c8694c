//! Changes of variables by commands whose words are at hand.
ghost use Rattle.std.specs.Prelude.{◌≡◌, ◌∷◌, [], map, true, IfSome, Some};
ghost use Rattle.tcl_commands.specs.Named.{builtin_of, words_of};
ghost use Rattle.tcl_core.specs.Paths.{Path};
ghost use Rattle.tcl_core.specs.Trees as core;
ghost use Rattle.tcl_prepared.specs.Views.{seen_word};
ghost use Rattle.tcl_run.specs.Ends.{IfRan, OnCompletion};
ghost use Rattle.tcl_run.specs.Runs.{IsHere, IsRunning, Keeps, ways};
ghost use Rattle.tcl_tree.specs.Own.{Own};
ghost use Rattle.tcl_tree.specs.TreeOf.{tree_of, marks_of, Names};
ghost use Rattle.tcl_evaluation.specs.Hands.{AllEnd, IsChangeIn};
ghost use Rattle.tcl_evaluation.specs.Sums.{CallsBuiltin, CallsBuiltinAtHand};

use crate::derivations::{derived_at_hand, may_be_derived};
use crate::hands::end_at_hand;
use crate::sums::count_first;
use std::alloc::Global;
use tcl_calls::lookup::builtin_named;
use tcl_commands::named::{VariableChange, change_variable};
use tcl_frames::variable_name::VariableName;
use tcl_prepared::prepared::PreparedWord;
use tcl_run::interruption::Interruption;
use tcl_run::outside::Outside;
use tcl_run::steps::charge;
use tcl_tree::builtin::Builtin;
use tcl_tree::tree::{Place, Tree};
use tcl_value::value::Value;

/// The `set` of a variable to what is derived from a value, if the command is `set` and the word
/// behind the variable's name is at hand so, and whether that is an answer in brackets, which isn't
/// counted yet.
fn derived_change(
    tree: &Tree,
    alloc: Global,
    place: Place,
    builtin: Builtin,
    word: &PreparedWord,
) -> Option<(VariableChange, bool)>
    ensures command { IfSome result (λ found. builtin_of found.0 ≡ builtin) }
    ensures words { IfSome result (λ found. (p : Path) (n : core.Node Own) →
        Names tree.now place p → tree_of tree.now p ≡ Some n → AllEnd (marks_of tree.now).integers n
        (seen_word word.now ∷ []) found.1 (words_of found.0)) }
{
    match builtin {
        Builtin::Set => {
            let (derived, sums) = derived_at_hand(tree, alloc, place, word)?;
            Some((VariableChange::Derived(derived), sums))
        }
        _ => None,
    }
}

/// The change that a built-in command makes with one word behind the variable's name, if it is one
/// of those that do.
#[inline(always)]
fn change_by(builtin: Builtin, word: Value) -> Option<VariableChange>
    ensures { IfSome result (λ change. (builtin_of change ≡ builtin) ×
        (words_of change ≡ word ∷ [])) }
{
    match VariableChange::of_word(builtin, word) {
        Ok(change) => Some(change),
        Err(_word) => None,
    }
}

/// The change that a built-in command makes with these words behind this name of a variable, where
/// they are at hand and it changes a variable, and whether one of them is a sum or an answer in
/// brackets, which isn't counted yet.
fn change_of_words(
    tree: &Tree,
    alloc: Global,
    place: Place,
    builtin: Builtin,
    name: &VariableName,
    words: &[PreparedWord],
) -> Option<(VariableChange, bool)>
    ensures command { IfSome result (λ found. builtin_of found.0 ≡ builtin) }
    ensures words { IfSome result (λ found. (p : Path) (n : core.Node Own) →
        Names tree.now place p → tree_of tree.now p ≡ Some n → AllEnd (marks_of tree.now).integers n
        (map seen_word words.now) found.1 (words_of found.0)) }
{
    match words {
        [] => match builtin {
            Builtin::Incr => Some((VariableChange::Raise(None), false)),
            _ => None,
        },
        [word] => {
            if may_be_derived(builtin, name, word) {
                if let Some(found) = derived_change(tree, alloc, place, builtin, word) {
                    return Some(found);
                }
            }
            let (value, sums) = end_at_hand(tree, alloc, place, word)?;
            let change = change_by(builtin, value)?;
            Some((change, sums))
        }
        _ => None,
    }
}

/// The change of a variable that a command makes whose words are these, where they are at hand: the
/// variable's name, the change, and whether one of the words is a sum or an answer in brackets,
/// which isn't counted yet.
pub(crate) fn change_at_hand<'a>(
    tree: &Tree,
    alloc: Global,
    place: Place,
    words: &'a [PreparedWord],
) -> Option<(&'a VariableName, VariableChange, bool)>
    ensures { IfSome result (λ found. IsChangeIn tree.now place (map seen_word words.now)
        found.0.now found.1 found.2) }
{
    let [first, others @ ..] = words else {
        return None;
    };
    let [second, rest @ ..] = others else {
        return None;
    };
    let PreparedWord::Literal(command) = first else {
        return None;
    };
    let PreparedWord::Name(variable) = second else {
        return None;
    };
    command.keeps_limit();
    let name = variable.name();
    let builtin = builtin_named(tree, place, command)?;
    let (change, sums) = change_of_words(tree, alloc, place, builtin, name, rest)?;
    Some((name, change, sums))
}

/// Makes a step and changes a variable.
///
/// # Errors
/// The stop 308; those of the change's command; want of memory.
#[inline(always)]
pub(crate) fn call_change<O: Outside>(
    tree: &mut Tree,
    alloc: Global,
    outside: &mut O,
    place: Place,
    name: &VariableName,
    change: VariableChange,
) -> Result<Value, Interruption>
    requires { IsRunning tree.old place }
    ensures runs { IfRan result (CallsBuiltin (ways O.goes O.loses) tree.old outside.old place
        (builtin_of change) (name.now ∷ words_of change) tree.new outside.new) }
    ensures here { OnCompletion result (IsHere tree.old tree.new place) }
    ensures keeps { Keeps O.entries_left tree.old tree.new outside.old outside.new }
{
    charge(tree, outside, place)?;
    change_variable(tree, alloc, place, name, change)
}

/// Makes a step and changes a variable, after a sum or an answer among the words is counted.
///
/// # Errors
/// The stop 308, and the error 308 of a sum or an answer; those of the change's command; want of
/// memory.
pub(crate) fn call_change_on_hand<O: Outside>(
    tree: &mut Tree,
    alloc: Global,
    outside: &mut O,
    place: Place,
    name: &VariableName,
    change: VariableChange,
    sums: bool,
) -> Result<Value, Interruption>
    requires { IsRunning tree.old place }
    ensures runs { IfRan result (CallsBuiltinAtHand (ways O.goes O.loses) tree.old outside.old place
        (builtin_of change) sums (name.now ∷ words_of change) tree.new outside.new) }
    ensures here { OnCompletion result (IsHere tree.old tree.new place) }
    ensures keeps { Keeps O.entries_left tree.old tree.new outside.old outside.new }
{
    count_first(tree, alloc, outside, place, sums)?;
    call_change(tree, alloc, outside, place, name, change)
}
