//! Commands that change one entry of what a variable holds, where its name was read before: an
//! element of a list, or the value of a key of a dict.
ghost use Rattle.std.specs.Prelude.{◌≡◌, ◌≢◌, ◌∷◌, [], codes, IfSome, MatchOption};
ghost use Rattle.std.specs.Option.{option_copied};
ghost use Rattle.tcl_core.specs.Paths.{Path};
ghost use Rattle.tcl_interpreter.specs.declared.builtin.Builtin.TheVariants as name;
ghost use Rattle.tcl_language.specs.Changes as changes;
ghost use Rattle.tcl_language.specs.Table.{builtin as program_of};
ghost use Rattle.tcl_run.specs.Plain.{Acts};
ghost use Rattle.tcl_run.specs.Runs.{IsLevel};
ghost use Rattle.tcl_tree.specs.TreeOf.{Names};
ghost use Rattle.tcl_commands.specs.Entries.{builtin_of, given_words, words_before, words_behind};
ghost use Rattle.tcl_commands.specs.Entries.{words_of, verb_name};
ghost use Rattle.tcl_commands.specs.declared.entries.Verb.{Verb};

use crate::changing::{Change, change_variable};
use std::alloc::Global;
use tcl_frames::variable_name::VariableName;
use tcl_run::interruption::Interruption;
use tcl_tree::tree::{Place, Tree};
use tcl_value::value::Value;

/// A subcommand of `dict` that changes the value of one key.
#[derive(Clone, Copy, Drop)]
enum Verb {
    Set,
    Incr,
    Append,
    Lappend,
}

impl Verb {
    /// The subcommand that a word names, where the word is kept as a text.
    #[inline(always)]
    fn named(word: &Value) -> Option<Verb>
        ensures { IfSome result (λ verb. word.now ≡ verb_name verb) }
    {
        Verb::of_bytes(word.as_text()?.as_str().as_bytes())
    }

    /// The subcommand of this name. The bytes are told apart at once.
    #[inline(always)]
    fn of_bytes(name: &[u8]) -> Option<Verb>
        ensures { MatchOption result ((verb : Verb) → name.now ≢ verb_name verb)
            (λ verb. name.now ≡ verb_name verb) }
    {
        match name {
            [b's', b'e', b't'] => Some(Verb::Set),
            [b'i', b'n', b'c', b'r'] => Some(Verb::Incr),
            [b'a', b'p', b'p', b'e', b'n', b'd'] => Some(Verb::Append),
            [b'l', b'a', b'p', b'p', b'e', b'n', b'd'] => Some(Verb::Lappend),
            _ => None,
        }
    }
}

/// A command that changes one entry of what a variable holds, with its words behind the variable's
/// name.
#[derive(Drop)]
pub enum EntryChange {
    /// `lset varName index newValue`.
    Element(Value, Value),
    /// `dict set varName key value`.
    SetKey(Value, Value),
    /// `dict incr varName key ?increment?`.
    AddToKey(Value, Option<Value>),
    /// `dict append varName key string`.
    AppendToKey(Value, Value),
    /// `dict lappend varName key value`.
    LappendToKey(Value, Value),
}

impl EntryChange {
    /// The change that a subcommand of `dict` makes with a key and one word behind it, if it is one
    /// of these.
    pub fn of_pair(subcommand: &Value, key: Value, word: Value) -> Option<EntryChange>
        ensures command { IfSome result (λ change. builtin_of change ≡ name.Dict) }
        ensures before { IfSome result (λ change. words_before change ≡ subcommand.now ∷ []) }
        ensures behind { IfSome result (λ change. words_behind change ≡ key ∷ word ∷ []) }
    {
        let change = match Verb::named(subcommand)? {
            Verb::Set => EntryChange::SetKey(key, word),
            Verb::Incr => EntryChange::AddToKey(key, Some(word)),
            Verb::Append => EntryChange::AppendToKey(key, word),
            Verb::Lappend => EntryChange::LappendToKey(key, word),
        };
        Some(change)
    }

    /// The change that a subcommand of `dict` makes with a key alone, if it is one of these.
    pub fn of_key(subcommand: &Value, key: Value) -> Option<EntryChange>
        ensures command { IfSome result (λ change. builtin_of change ≡ name.Dict) }
        ensures before { IfSome result (λ change. words_before change ≡ subcommand.now ∷ []) }
        ensures behind { IfSome result (λ change. words_behind change ≡ key ∷ []) }
    {
        match Verb::named(subcommand)? {
            Verb::Incr => Some(EntryChange::AddToKey(key, None)),
            Verb::Set | Verb::Append | Verb::Lappend => None,
        }
    }
}

/// `lset` of a variable, with one index.
fn set_element(
    tree: &mut Tree,
    alloc: Global,
    place: Place,
    name: &VariableName,
    index: Value,
    value: Value,
) -> Result<Value, Interruption>
    requires { (p : Path) × Names tree.old place p }
    ensures acts { Acts tree.old place
        (λ style. changes.lset style (name.now ∷ index ∷ value ∷ [])) tree.new result }
    ensures level { IsLevel tree.old tree.new }
{
    let style = tree.integers();
    let indexes = [index];
    change_variable(
        tree,
        alloc,
        place,
        name,
        false,
        Change::Element(style, &indexes, &value),
    )
}

/// `dict set` of a variable, with one key.
fn set_key(
    tree: &mut Tree,
    alloc: Global,
    place: Place,
    name: &VariableName,
    key: Value,
    value: Value,
) -> Result<Value, Interruption>
    requires { (p : Path) × Names tree.old place p }
    ensures acts { Acts tree.old place
        (λ style. changes.dict_set style (name.now ∷ key ∷ value ∷ [])) tree.new result }
    ensures level { IsLevel tree.old tree.new }
{
    let keys = [key];
    change_variable(tree, alloc, place, name, true, Change::Key(&keys, &value))
}

/// `dict incr` of a variable.
fn add_to_key(
    tree: &mut Tree,
    alloc: Global,
    place: Place,
    name: &VariableName,
    key: Value,
    by: Option<Value>,
) -> Result<Value, Interruption>
    requires { (p : Path) × Names tree.old place p }
    ensures acts { Acts tree.old place
        (λ style. changes.dict_incr style (name.now ∷ key ∷ given_words by)) tree.new result }
    ensures level { IsLevel tree.old tree.new }
{
    let style = tree.integers();
    change_variable(
        tree,
        alloc,
        place,
        name,
        true,
        Change::Sum(style, &key, by.as_ref()),
    )
}

/// `dict append` to a variable, of one string.
fn append_to_key(
    tree: &mut Tree,
    alloc: Global,
    place: Place,
    name: &VariableName,
    key: Value,
    value: Value,
) -> Result<Value, Interruption>
    requires { (p : Path) × Names tree.old place p }
    ensures acts { Acts tree.old place
        (λ style. changes.dict_append style (name.now ∷ key ∷ value ∷ [])) tree.new result }
    ensures level { IsLevel tree.old tree.new }
{
    let words = [value];
    change_variable(tree, alloc, place, name, true, Change::Texts(&key, &words))
}

/// `dict lappend` to a variable, of one value.
fn lappend_to_key(
    tree: &mut Tree,
    alloc: Global,
    place: Place,
    name: &VariableName,
    key: Value,
    value: Value,
) -> Result<Value, Interruption>
    requires { (p : Path) × Names tree.old place p }
    ensures acts { Acts tree.old place
        (λ style. changes.dict_lappend style (name.now ∷ key ∷ value ∷ [])) tree.new result }
    ensures level { IsLevel tree.old tree.new }
{
    let words = [value];
    change_variable(
        tree,
        alloc,
        place,
        name,
        true,
        Change::Elements(&key, &words),
    )
}

/// Changes an entry of what a variable holds, as the change's command does where this is the
/// variable's name.
///
/// # Errors
/// Those of the command (`lset`; `dict set`, `dict incr`, `dict append` or `dict lappend`) but for
/// 241; want of memory.
pub fn change_entry(
    tree: &mut Tree,
    alloc: Global,
    place: Place,
    name: &VariableName,
    change: EntryChange,
) -> Result<Value, Interruption>
    requires { (p : Path) × Names tree.old place p }
    ensures acts { Acts tree.old place
        (λ style. program_of style (builtin_of change) (words_of name.now change)) tree.new result }
    ensures level { IsLevel tree.old tree.new }
{
    match change {
        EntryChange::Element(index, value) => {
            set_element(tree, alloc, place, name, index, value)
        }
        EntryChange::SetKey(key, value) => set_key(tree, alloc, place, name, key, value),
        EntryChange::AddToKey(key, by) => add_to_key(tree, alloc, place, name, key, by),
        EntryChange::AppendToKey(key, value) => {
            append_to_key(tree, alloc, place, name, key, value)
        }
        EntryChange::LappendToKey(key, value) => {
            lappend_to_key(tree, alloc, place, name, key, value)
        }
    }
}
