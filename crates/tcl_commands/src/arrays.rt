//! `array`, which reads and changes whole arrays.
ghost use Rattle.std.specs.Prelude.{◌≡◌, ◌++◌, ◌∷◌, [], IfOk, OnOk};
ghost use Rattle.std.specs.Option.{option_copied};
ghost use Rattle.tcl_core.specs.Endings as core;
ghost use Rattle.tcl_core.specs.Endings.Reply.{Completed};
ghost use Rattle.tcl_core.specs.Paths.{Path};
ghost use Rattle.tcl_language.specs.Arrays as arrays;
ghost use Rattle.tcl_language.specs.Instructions.{either, fails, fits};
ghost use Rattle.tcl_language.specs.Instructions as language;
ghost use Rattle.tcl_language.specs.Variables.{is_odd};
ghost use Rattle.tcl_run.specs.Ends.{IfEnded};
ghost use Rattle.tcl_run.specs.Plain.{Acts};
ghost use Rattle.tcl_run.specs.Runs.{IsLevel};
ghost use Rattle.tcl_text.specs.Messages.{missing_value};
ghost use Rattle.tcl_text.specs.Writing.{written_list};
ghost use Rattle.tcl_tree.specs.TreeOf.{Names};

use crate::answers::is_odd;
use crate::inspection::{list_value, number_value, truth_value};
use crate::steps::frames_seen;
use std::alloc::{AllocError, Global};
use tcl_lists::indexes::elements_of;
use tcl_run::failure::{plain_failure, unknown_subcommand, wrong_args};
use tcl_run::interruption::Interruption;
use tcl_run::steps::{frame_failure, read_list};
use tcl_text::messages::MISSING_VALUE;
use tcl_text::text::Text;
use tcl_tree::tree::{Place, Tree};
use tcl_value::value::Value;

/// `array exists arrayName`: whether a name is an array.
fn exists(tree: &Tree, alloc: Global, place: Place, args: &[Value]) -> Result<Value, Interruption>
    requires { (p : Path) × Names tree.now place p }
    ensures { Acts tree.now place (λ style. arrays.exists args.now) tree.now result }
{
    match args {
        [name] => {
            let name = name.text(alloc)?;
            match frames_seen(tree, place).is_array(&name) {
                Ok(found) => Ok(truth_value(found)),
                Err(error) => Err(frame_failure(alloc, error)),
            }
        }
        _ => Err(wrong_args(alloc, "array exists arrayName")),
    }
}

/// `array size arrayName`: how many elements an array has.
fn size(tree: &Tree, alloc: Global, place: Place, args: &[Value]) -> Result<Value, Interruption>
    requires { (p : Path) × Names tree.now place p }
    ensures { Acts tree.now place (λ style. arrays.size args.now) tree.now result }
{
    match args {
        [name] => {
            let name = name.text(alloc)?;
            match frames_seen(tree, place).element_count(&name) {
                Ok(count) => Ok(number_value(alloc, count as u64)?),
                Err(error) => Err(frame_failure(alloc, error)),
            }
        }
        _ => Err(wrong_args(alloc, "array size arrayName")),
    }
}

/// The keys and values of elements in turn.
fn in_turn(alloc: Global, elements: &[(Text, Value)]) -> Result<Vec<Text>, AllocError>
    ensures { IfOk result (λ texts. texts.items ≡ arrays.in_turn elements.now) }
{
    let mut texts = Vec::new(alloc);
    'elements: for (key, value) in elements {
        texts.push(key.clone()?)?;
        texts.push(value.text(alloc)?)?;
    }
    Ok(texts)
}

/// The list of the keys and values of elements in turn, as a value.
fn pairs_value(alloc: Global, elements: &[(Text, Value)]) -> Result<Value, Interruption>
    ensures { IfEnded result (λ r. r
        ≡ Completed (either (fits (written_list (arrays.in_turn elements.now)))
        (core.ok (written_list (arrays.in_turn elements.now))) language.too_long)) }
{
    let texts = in_turn(alloc, elements)?;
    list_value(alloc, texts.as_slice())
}

/// The list of the keys and values of an array, in its order: those whose keys a pattern takes.
fn pairs_listed(
    tree: &Tree,
    alloc: Global,
    place: Place,
    name: &Text,
    pattern: Option<&Text>,
) -> Result<Value, Interruption>
    requires { (p : Path) × Names tree.now place p }
    ensures { Acts tree.now place
        (λ style. arrays.pairs_listed name.now (option_copied pattern.entry)) tree.now result }
{
    match frames_seen(tree, place).elements(alloc, name, pattern) {
        Ok(elements) => pairs_value(alloc, elements.as_slice()),
        Err(error) => Err(frame_failure(alloc, error)),
    }
}

/// `array get arrayName ?pattern?`: the list of the keys and values of an array.
fn get(tree: &Tree, alloc: Global, place: Place, args: &[Value]) -> Result<Value, Interruption>
    requires { (p : Path) × Names tree.now place p }
    ensures { Acts tree.now place (λ style. arrays.get args.now) tree.now result }
{
    match args {
        [name] => {
            let name = name.text(alloc)?;
            pairs_listed(tree, alloc, place, &name, None)
        }
        [name, pattern] => {
            let name = name.text(alloc)?;
            let pattern = pattern.text(alloc)?;
            pairs_listed(tree, alloc, place, &name, Some(&pattern))
        }
        _ => Err(wrong_args(alloc, "array get arrayName ?pattern?")),
    }
}

/// The list of the keys of an array, in its order: those that a pattern takes.
fn keys_listed(
    tree: &Tree,
    alloc: Global,
    place: Place,
    name: &Text,
    pattern: Option<&Text>,
) -> Result<Value, Interruption>
    requires { (p : Path) × Names tree.now place p }
    ensures { Acts tree.now place
        (λ style. arrays.keys_listed name.now (option_copied pattern.entry)) tree.now result }
{
    match frames_seen(tree, place).element_names(alloc, name, pattern) {
        Ok(keys) => list_value(alloc, keys.as_slice()),
        Err(error) => Err(frame_failure(alloc, error)),
    }
}

/// `array names arrayName ?pattern?`: the list of the keys of an array.
fn names(tree: &Tree, alloc: Global, place: Place, args: &[Value]) -> Result<Value, Interruption>
    requires { (p : Path) × Names tree.now place p }
    ensures { Acts tree.now place (λ style. arrays.names args.now) tree.now result }
{
    match args {
        [name] => {
            let name = name.text(alloc)?;
            keys_listed(tree, alloc, place, &name, None)
        }
        [name, pattern] => {
            let name = name.text(alloc)?;
            let pattern = pattern.text(alloc)?;
            keys_listed(tree, alloc, place, &name, Some(&pattern))
        }
        _ => Err(wrong_args(alloc, "array names arrayName ?pattern?")),
    }
}

/// Unsets the elements of an array whose keys a pattern takes, or the array where there is no
/// pattern.
fn unset_elements(
    tree: &mut Tree,
    alloc: Global,
    place: Place,
    name: &Text,
    pattern: Option<&Text>,
) -> Result<Value, Interruption>
    requires { (p : Path) × Names tree.old place p }
    ensures acts { Acts tree.old place
        (λ style. arrays.unsets name.now (option_copied pattern.entry)) tree.new result }
    ensures level { IsLevel tree.old tree.new }
{
    match tree.frames_of(place) {
        Some(frames) => match frames.unset_elements(alloc, name, pattern) {
            Ok(()) => Ok(Value::empty()),
            Err(error) => Err(frame_failure(alloc, error)),
        },
        None => unreachable!(),
    }
}

/// `array unset arrayName ?pattern?`: unsets elements of an array, or the array.
fn unset(
    tree: &mut Tree,
    alloc: Global,
    place: Place,
    args: &[Value],
) -> Result<Value, Interruption>
    requires { (p : Path) × Names tree.old place p }
    ensures acts { Acts tree.old place (λ style. arrays.unset args.now) tree.new result }
    ensures level { IsLevel tree.old tree.new }
{
    match args {
        [name] => {
            let name = name.text(alloc)?;
            unset_elements(tree, alloc, place, &name, None)
        }
        [name, pattern] => {
            let name = name.text(alloc)?;
            let pattern = pattern.text(alloc)?;
            unset_elements(tree, alloc, place, &name, Some(&pattern))
        }
        _ => Err(wrong_args(alloc, "array unset arrayName ?pattern?")),
    }
}

/// Adds an element.
fn push_pair(
    pairs: &mut Vec<(Text, Value)>,
    alloc: Global,
    key: &Value,
    value: &Value,
) -> Result<(), AllocError>
    ensures { OnOk result (pairs.new.items ≡ pairs.old.items ++ (key.now, value.now) ∷ []) }
{
    let key = key.text(alloc)?;
    pairs.push((key, value.clone()?))?;
    Ok(())
}

/// The elements whose keys and values stand in turn.
fn in_pairs(alloc: Global, words: &[Value]) -> Result<Vec<(Text, Value)>, AllocError>
    ensures { IfOk result (λ pairs. pairs.items ≡ arrays.in_pairs words.now) }
{
    let mut pairs = Vec::new(alloc);
    let mut left = words;
    'pairs: while let [key, value, rest @ ..] = left {
        push_pair(&mut pairs, alloc, key, value)?;
        left = rest;
    }
    Ok(pairs)
}

/// Sets elements of an array, all of them or none, and makes the array where there is no variable.
fn set_elements(
    tree: &mut Tree,
    alloc: Global,
    place: Place,
    name: &Text,
    elements: Vec<(Text, Value)>,
) -> Result<Value, Interruption>
    requires { (p : Path) × Names tree.old place p }
    ensures acts { Acts tree.old place
        (λ style. arrays.sets_elements name.now elements.items) tree.new result }
    ensures level { IsLevel tree.old tree.new }
{
    match tree.frames_of(place) {
        Some(frames) => match frames.set_elements(alloc, name, elements) {
            Ok(()) => Ok(Value::empty()),
            Err(error) => Err(frame_failure(alloc, error)),
        },
        None => unreachable!(),
    }
}

/// Sets the elements whose keys and values stand in turn.
fn set_words(
    tree: &mut Tree,
    alloc: Global,
    place: Place,
    name: &Text,
    words: &[Value],
) -> Result<Value, Interruption>
    requires { (p : Path) × Names tree.old place p }
    ensures acts { Acts tree.old place
        (λ style. either (is_odd words.now) (fails missing_value)
        (arrays.sets_elements name.now (arrays.in_pairs words.now))) tree.new result }
    ensures level { IsLevel tree.old tree.new }
{
    if is_odd(words) {
        return Err(plain_failure(alloc, MISSING_VALUE));
    }
    let elements = in_pairs(alloc, words)?;
    set_elements(tree, alloc, place, name, elements)
}

/// Sets the elements of a list of keys and values in turn.
fn set_list(
    tree: &mut Tree,
    alloc: Global,
    place: Place,
    name: &Text,
    list: &Value,
) -> Result<Value, Interruption>
    requires { (p : Path) × Names tree.old place p }
    ensures acts { Acts tree.old place
        (λ style. arrays.sets_list name.now list.now) tree.new result }
    ensures level { IsLevel tree.old tree.new }
{
    let mut own = list.clone()?;
    let elements = read_list(alloc, &mut own)?;
    let words = elements_of(alloc, &elements)?;
    set_words(tree, alloc, place, name, words.as_slice())
}

/// `array set arrayName list`: sets elements to the values that follow their keys in a list.
fn set(tree: &mut Tree, alloc: Global, place: Place, args: &[Value]) -> Result<Value, Interruption>
    requires { (p : Path) × Names tree.old place p }
    ensures acts { Acts tree.old place (λ style. arrays.set args.now) tree.new result }
    ensures level { IsLevel tree.old tree.new }
{
    match args {
        [name, list] => {
            let name = name.text(alloc)?;
            match frames_seen(tree, place).is_array(&name) {
                Ok(_) => set_list(tree, alloc, place, &name, list),
                Err(error) => Err(frame_failure(alloc, error)),
            }
        }
        _ => Err(wrong_args(alloc, "array set arrayName list")),
    }
}

/// What a subcommand of `array` gives.
fn subcommand(
    tree: &mut Tree,
    alloc: Global,
    place: Place,
    word: &Value,
    args: &[Value],
) -> Result<Value, Interruption>
    requires { (p : Path) × Names tree.old place p }
    ensures acts { Acts tree.old place (λ style. arrays.chosen word.now args.now) tree.new result }
    ensures level { IsLevel tree.old tree.new }
{
    if word.is_text(b"exists") {
        return exists(tree, alloc, place, args);
    }
    if word.is_text(b"get") {
        return get(tree, alloc, place, args);
    }
    if word.is_text(b"names") {
        return names(tree, alloc, place, args);
    }
    if word.is_text(b"set") {
        return set(tree, alloc, place, args);
    }
    if word.is_text(b"size") {
        return size(tree, alloc, place, args);
    }
    if word.is_text(b"unset") {
        return unset(tree, alloc, place, args);
    }
    Err(unknown_subcommand(alloc, word.text(alloc)?.as_str()))
}

/// `array subcommand ?arg ...?`: reads or changes a whole array. What is no array reads as one with
/// no elements. (array(n))
///
/// # Errors
/// 244 of the subcommand; 241; 238 of the name; of `set` 101 to 104 and 121 of the list and then
/// 233; 122; want of memory.
pub fn array(
    tree: &mut Tree,
    alloc: Global,
    place: Place,
    args: &[Value],
) -> Result<Value, Interruption>
    requires { (p : Path) × Names tree.old place p }
    ensures acts { Acts tree.old place (λ style. arrays.array args.now) tree.new result }
    ensures level { IsLevel tree.old tree.new }
{
    match args {
        [] => Err(wrong_args(alloc, "array subcommand ?arg ...?")),
        [word, rest @ ..] => subcommand(tree, alloc, place, word, rest),
    }
}
