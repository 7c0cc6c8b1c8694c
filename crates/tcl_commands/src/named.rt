//! Commands that change the variable that their first word names, where that name was read before.
ghost use Rattle.std.specs.Prelude.{◌≡◌, ◌∷◌, ◌<◌, [], length, IfOk, IfErr};
ghost use Rattle.tcl_core.specs.Paths.{Path};
ghost use Rattle.tcl_language.specs.Data as collections;
ghost use Rattle.tcl_language.specs.Table.{builtin as program_of};
ghost use Rattle.tcl_language.specs.Variables as variables;
ghost use Rattle.tcl_run.specs.Plain.{Acts};
ghost use Rattle.tcl_run.specs.Runs.{IsLevel};
ghost use Rattle.tcl_tree.specs.TreeOf.{Names};
ghost use Rattle.tcl_commands.specs.Named.{builtin_of, words_of};
ghost use Rattle.tcl_commands.specs.Sums.{added_words};
ghost use Rattle.tcl_interpreter.specs.declared.builtin.Builtin.TheVariants as name;

use crate::derivation::{Derived, set_derived};
use crate::growing::{Growth, grow_variable, raise_variable};
use crate::steps::set_variable_near;
use std::alloc::Global;
use tcl_frames::variable_name::VariableName;
use tcl_run::interruption::Interruption;
use tcl_tree::builtin::Builtin;
use tcl_tree::tree::{Place, Tree};
use tcl_value::value::Value;

/// A command that changes a variable, with its words behind the variable's name.
#[derive(Drop)]
pub enum VariableChange {
    /// `set varName newValue`.
    Set(Value),
    /// `set varName newValue`, where the value is derived from another one, which may be what the
    /// variable holds.
    Derived(Derived),
    /// `incr varName ?increment?` by a number at hand, or by 1 where there is none.
    Raise(Option<i64>),
    /// `incr varName increment`.
    Incr(Value),
    /// `append varName value`.
    Append(Value),
    /// `lappend varName value`.
    Lappend(Value),
}

impl VariableChange {
    /// The change that `incr` makes with one word behind the variable's name.
    #[inline(always)]
    fn of_increment(word: Value) -> VariableChange
        ensures { (builtin_of result ≡ name.Incr) × (words_of result ≡ word ∷ []) }
    {
        match word.number() {
            Some(n) => VariableChange::Raise(Some(n)),
            None => VariableChange::Incr(word),
        }
    }

    /// The change that a built-in command makes with one word behind the variable's name, if it is
    /// one of these, and otherwise the word.
    #[inline(always)]
    pub fn of_word(builtin: Builtin, word: Value) -> Result<VariableChange, Value>
        ensures change { IfOk result (λ change. (builtin_of change ≡ builtin) ×
            (words_of change ≡ word ∷ [])) }
        ensures word { IfErr result (λ left. left ≡ word) }
    {
        match builtin {
            Builtin::Set => Ok(VariableChange::Set(word)),
            Builtin::Incr => Ok(VariableChange::of_increment(word)),
            Builtin::Append => Ok(VariableChange::Append(word)),
            Builtin::Lappend => Ok(VariableChange::Lappend(word)),
            _ => Err(word),
        }
    }
}

/// `set` of a variable.
fn set(
    tree: &mut Tree,
    alloc: Global,
    place: Place,
    name: &VariableName,
    value: Value,
) -> Result<Value, Interruption>
    requires { (p : Path) × Names tree.old place p }
    ensures acts { Acts tree.old place
        (λ style. variables.set (name.now ∷ value ∷ [])) tree.new result }
    ensures level { IsLevel tree.old tree.new }
{
    let given = value.clone()?;
    set_variable_near(tree, alloc, place, name, value)?;
    Ok(given)
}

/// `incr` of a variable.
#[inline(never)]
fn incr(
    tree: &mut Tree,
    alloc: Global,
    place: Place,
    name: &VariableName,
    by: Value,
) -> Result<Value, Interruption>
    requires names { (p : Path) × Names tree.old place p }
    ensures acts { Acts tree.old place
        (λ style. variables.incr style (name.now ∷ by ∷ [])) tree.new result }
    ensures level { IsLevel tree.old tree.new }
{
    let growth = Growth::Sum(tree.integers());
    grow_variable(tree, alloc, place, name, growth, &[by])
}

/// `incr` of a variable by a number at hand, or 1.
#[inline(always)]
fn raise(
    tree: &mut Tree,
    alloc: Global,
    place: Place,
    name: &VariableName,
    by: Option<i64>,
) -> Result<Value, Interruption>
    requires { (p : Path) × Names tree.old place p }
    ensures acts { Acts tree.old place
        (λ style. variables.incr style (name.now ∷ added_words by)) tree.new result }
    ensures level { IsLevel tree.old tree.new }
{
    raise_variable(tree, alloc, place, tree.integers(), name, by)
}

/// `append` to a variable.
fn append(
    tree: &mut Tree,
    alloc: Global,
    place: Place,
    name: &VariableName,
    value: Value,
) -> Result<Value, Interruption>
    requires { (p : Path) × Names tree.old place p }
    ensures acts { Acts tree.old place
        (λ style. variables.append (name.now ∷ value ∷ [])) tree.new result }
    ensures level { IsLevel tree.old tree.new }
{
    grow_variable(tree, alloc, place, name, Growth::Texts, &[value])
}

/// `lappend` to a variable.
fn lappend(
    tree: &mut Tree,
    alloc: Global,
    place: Place,
    name: &VariableName,
    value: Value,
) -> Result<Value, Interruption>
    requires { (p : Path) × Names tree.old place p }
    ensures acts { Acts tree.old place
        (λ style. collections.lappend (name.now ∷ value ∷ [])) tree.new result }
    ensures level { IsLevel tree.old tree.new }
{
    grow_variable(tree, alloc, place, name, Growth::Elements, &[value])
}

/// Changes a variable, as the change's command does where its first word is this name.
///
/// # Errors
/// Those of the command (`set`, `incr`, `append`, `lappend`) but for 241; want of memory.
#[inline(always)]
pub fn change_variable(
    tree: &mut Tree,
    alloc: Global,
    place: Place,
    name: &VariableName,
    change: VariableChange,
) -> Result<Value, Interruption>
    requires { (p : Path) × Names tree.old place p }
    ensures acts { Acts tree.old place
        (λ style. program_of style (builtin_of change) (name.now ∷ words_of change)) tree.new
        result }
    ensures level { IsLevel tree.old tree.new }
{
    match change {
        VariableChange::Set(value) => set(tree, alloc, place, name, value),
        VariableChange::Derived(derived) => set_derived(tree, alloc, place, name, derived),
        VariableChange::Raise(by) => raise(tree, alloc, place, name, by),
        VariableChange::Incr(by) => incr(tree, alloc, place, name, by),
        VariableChange::Append(value) => append(tree, alloc, place, name, value),
        VariableChange::Lappend(value) => lappend(tree, alloc, place, name, value),
    }
}
