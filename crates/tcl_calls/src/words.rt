//! Words, while they are put together.
ghost use Rattle.std.specs.Prelude.{◌≡◌, ◌++◌, ◌∷◌, [], true, false, Some, MatchResult, IfOk, OnOk};
ghost use Rattle.std.specs.Prelude.{IfErr};
ghost use Rattle.std.specs.String.{string_bytes};
ghost use Rattle.tcl_core.specs.Paths.{Path};
ghost use Rattle.tcl_core.specs.Trees as core;
ghost use Rattle.tcl_core.specs.Endings.{ok};
ghost use Rattle.tcl_core.specs.Endings.Reply.{Completed};
ghost use Rattle.tcl_language.specs.Instructions.{too_long as too_long_error, fits};
ghost use Rattle.tcl_language.specs.Scripts.{over, element_text as element_name};
ghost use Rattle.tcl_text.specs.Writing.{fault_message};
ghost use Rattle.tcl_run.specs.Ends.{Interrupts, IfEnded, IsFailure};
ghost use Rattle.tcl_tree.specs.Own.{Own};
ghost use Rattle.tcl_tree.specs.TreeOf.{tree_of, Names};
ghost use Rattle.tcl_calls.specs.Words.{opens, EndsBy, Adds, words_of, IsShort, Closes, ClosesBy};
ghost use Rattle.tcl_run.specs.declared.interruption.Interruption.TheVariants.{Memory};

use smallvec::SmallVec;
use std::alloc::{AllocError, Global};
use std::mem;
use tcl_flow::completion;
use tcl_frames::variable_name::VariableName;
use tcl_parser::fault::Fault;
use tcl_run::failure::{failure, too_long};
use tcl_run::interruption::Interruption;
use tcl_run::steps::{read_list, read_named};
use tcl_text::limit::MOST_BYTES;
use tcl_text::text::Text;
use tcl_tree::tree::{Place, Tree};
use tcl_value::list::List;
use tcl_value::value::Value;

/// The words of a command that is put together. Up to four take no allocation.
pub type Words = SmallVec<Value, 4>;

/// An element whose key is being substituted: its name, and the word's text before it.
#[derive(Drop)]
pub struct OpenElement {
    pub name: Text,
    pub before: String,
}

/// What a script gives whose commands are done: its last result, or its fault.
pub fn finish(alloc: Global, fault: Option<Fault>, last: Value) -> Result<Value, Interruption>
    ensures { IfEnded result (EndsBy (over fault last)) }
{
    match fault {
        None => Ok(last),
        Some(fault) => Err(failure(alloc, Text::new(alloc, fault.message())?)),
    }
}

/// Adds the words that a word's text stands for: the text, or its elements as a list.
pub fn spread(
    alloc: Global,
    expand: bool,
    text: Value,
    words: &mut Words,
) -> Result<(), Interruption>
    ensures { MatchResult result
        (λ _. Adds (words_of expand text) words.old.items words.new.items)
        (λ i. Interrupts i (IsFailure fault_message (words_of expand text))) }
{
    let mut text = text;
    if !expand {
        words.push(text)?;
        return Ok(());
    }
    let list = read_list(alloc, &mut text)?;
    add_each(&list, words)?;
    Ok(())
}

/// Adds each element of a list to a command's words.
fn add_each(list: &List, words: &mut Words) -> Result<(), AllocError>
    ensures { OnOk result (words.new.items ≡ words.old.items ++ list.now) }
{
    'elements: for index in 0..list.len() {
        words.push(list.get(index)?)?;
    }
    Ok(())
}

/// Adds the elements of a list.
pub fn add_elements(list: &List, words: &mut Vec<Value>) -> Result<(), AllocError>
    ensures { OnOk result (words.new.items ≡ words.old.items ++ list.now) }
{
    'elements: for index in 0..list.len() {
        words.push(list.get(index)?)?;
    }
    Ok(())
}

/// Adds to a word's text.
#[inline(never)]
pub fn append(alloc: Global, text: &mut String, more: &str) -> Result<(), Interruption>
    ensures added { OnOk result ((fits (string_bytes text.old ++ more.now) ≡ true) ×
        (string_bytes text.new ≡ string_bytes text.old ++ more.now)) }
    ensures refused { IfErr result
        (λ i. Interrupts i (λ e. (fits (string_bytes text.old ++ more.now) ≡ false) ×
        (e ≡ Completed too_long_error))) }
    ensures short { OnOk result (IsShort (string_bytes text.new)) }
{
    if more.len() > MOST_BYTES.saturating_sub(text.len()) || text.len() > MOST_BYTES {
        return Err(too_long(alloc));
    }
    text.push_str(more)?;
    Ok(())
}

/// Adds a value to a word's text.
pub fn append_value(alloc: Global, text: &mut String, value: &Value) -> Result<(), Interruption>
    ensures added { OnOk result ((fits (string_bytes text.old ++ value.now) ≡ true) ×
        (string_bytes text.new ≡ string_bytes text.old ++ value.now)) }
    ensures refused { IfErr result
        (λ i. Interrupts i (λ e. (fits (string_bytes text.old ++ value.now) ≡ false) ×
        (e ≡ Completed too_long_error))) }
    ensures short { OnOk result (IsShort (string_bytes text.new)) }
{
    if value.text_len() > MOST_BYTES.saturating_sub(text.len()) || text.len() > MOST_BYTES {
        return Err(too_long(alloc));
    }
    value.write_to(alloc, text)?;
    Ok(())
}

/// A value of this text, or the error that it is too long.
#[inline(never)]
pub fn within(alloc: Global, text: Text) -> Result<Value, Interruption>
    ensures whole { IfOk result (λ value. (value ≡ text) × (fits text ≡ true)) }
    ensures refused { IfErr result
        (λ i. Interrupts i (λ e. (fits text ≡ false) × (e ≡ Completed too_long_error))) }
{
    match Value::from_text(text) {
        Ok(value) => Ok(value),
        Err(_) => Err(too_long(alloc)),
    }
}

/// Begins an element: its key is substituted next.
#[inline(never)]
pub fn open_element(
    alloc: Global,
    name: &Text,
    elements: &mut Vec<OpenElement>,
    text: &mut String,
) -> Result<(), Interruption>
    ensures opened { OnOk result (opens elements.new.items
        ≡ record { name = name.now; before = string_bytes text.old } ∷ opens elements.old.items) }
    ensures empty { OnOk result (string_bytes text.new ≡ []) }
    ensures memory { IfErr result (λ i. i ≡ Memory) }
{
    let before = mem::replace(text, String::new(alloc));
    elements.push(OpenElement {
        name: name.clone()?,
        before,
    })?;
    Ok(())
}

/// `a(k)`
#[inline(never)]
pub fn element_text(alloc: Global, name: &str, key: &str) -> Result<Text, AllocError>
    ensures { IfOk result (λ text. text ≡ element_name name.now key.now) }
{
    let mut text = String::from_str(alloc, name)?;
    text.push_str("(")?;
    text.push_str(key)?;
    text.push_str(")")?;
    Text::from_string(alloc, text)
}

/// Ends a word with this text, whatever was to go on with it.
fn ended(alloc: Global, text: &String) -> Interruption
    requires { IsShort (string_bytes text.now) }
    ensures { Interrupts result (λ e. e ≡ Completed (ok (string_bytes text.now))) }
{
    let Ok(text) = Text::new(alloc, text.as_str()) else {
        return Interruption::Memory;
    };
    Interruption::of_completion(alloc, completion::ok(Value::from_short_text(text)))
}

/// Ends an element: its value goes to the word's text before it.
#[inline(never)]
pub fn close_element(
    tree: &Tree,
    alloc: Global,
    place: Place,
    elements: &mut Vec<OpenElement>,
    text: &mut String,
) -> Result<(), Interruption>
    requires { IsShort (string_bytes text.old) }
    ensures closes { OnOk result ((p : Path) (n : core.Node Own) → Names tree.now place p →
        tree_of tree.now p ≡ Some n → Closes n (opens elements.old.items) (string_bytes text.old)
        (opens elements.new.items) (string_bytes text.new)) }
    ensures refused { IfErr result
        (λ i. Interrupts i (λ e. (p : Path) (n : core.Node Own) → Names tree.now place p →
        tree_of tree.now p ≡ Some n → ClosesBy n (opens elements.old.items) (string_bytes text.old)
        e)) }
    ensures short { OnOk result (IsShort (string_bytes text.new)) }
{
    let Some(element) = elements.pop() else {
        return Err(ended(alloc, text));
    };
    let OpenElement { name, before } = element;
    let written = element_text(alloc, name.as_str(), text.as_str())?;
    let variable = VariableName::new(written);
    let value = read_named(tree, alloc, place, &variable)?;
    let mut whole = before;
    append_value(alloc, &mut whole, &value)?;
    *text = whole;
    Ok(())
}
