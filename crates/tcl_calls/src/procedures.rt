//! Calls of procedures.
ghost use Rattle.std.specs.Prelude.{◌≡◌, ◌++◌, ◌∷◌, [], true, false, IfOk, IfErr, OnOk, Some, None};
ghost use Rattle.std.specs.Prelude.{ℕ, nat_lt, option_map, length, IsTrue};
ghost use Rattle.std.specs.Bool.{OnTrue, OnFalse};
ghost use Rattle.std.specs.String.{string_bytes};
ghost use Rattle.tcl_core.specs.Endings.Reply.{Completed};
ghost use Rattle.tcl_core.specs.Paths.{Path};
ghost use Rattle.tcl_core.specs.Trees as core;
ghost use Rattle.tcl_core.specs.Programs.{brought_back};
ghost use Rattle.tcl_core.specs.Trees.{depth_of, effect};
ghost use Rattle.tcl_core.specs.Trees.What.{Changed};
ghost use Rattle.tcl_language.specs.Control.{last_bound, bindings, bound, in_frame, out_of_frame};
ghost use Rattle.tcl_language.specs.Control.{fit_all, parameter_form, last_form, parameters_form};
ghost use Rattle.tcl_language.specs.Control.{proc_form, is_rest};
ghost use Rattle.tcl_language.specs.Instructions.{too_long as too_long_error, fits};
ghost use Rattle.tcl_language.specs.Faults as faults;
ghost use Rattle.tcl_run.specs.Ends.{Interrupts, failing};
ghost use Rattle.tcl_run.specs.Runs.{IsLevel};
ghost use Rattle.tcl_tree.specs.Gone.{Holds};
ghost use Rattle.tcl_tree.specs.Own.{Own};
ghost use Rattle.tcl_tree.specs.TreeOf.{tree_of, Names};
ghost use Rattle.tcl_run.specs.declared.interruption.Interruption.TheVariants.{Memory};
ghost use Rattle.tcl_text.specs.Writing.{written_list};
ghost use Rattle.tcl_calls.specs.Procedures.{form_of, pairs_of, joined, next_bound, Bound};
ghost use Rattle.tcl_calls.specs.Procedures.{IsBoundTo, TooLongBound, Enters, straight};

use std::alloc::{AllocError, Global};
use tcl_frames::fault::FrameError;
use tcl_frames::frames::Frames;
use tcl_lists::commands::list;
use tcl_run::failure::{refused, wrong_args};
use tcl_run::interruption::Interruption;
use tcl_run::steps::known_short;
use tcl_text::text::Text;
use tcl_tree::parameter::Parameter;
use tcl_tree::tree::{Place, Tree};
use tcl_value::list::List;
use tcl_value::value::Value;

/// What a parameter is bound to in a call.
#[derive(Drop)]
pub struct Binding {
    pub name: Text,
    pub value: Value,
}

/// Sets the variables of these names in the frame on top. A name that can't be set is left out.
fn bind_all(frames: &mut Frames, alloc: Global, bindings: &[Binding]) -> Result<(), Interruption>
    ensures bound { OnOk result (frames.new ≡ bound (pairs_of bindings.now) frames.old) }
    ensures memory { IfErr result (λ i. i ≡ Memory) }
{
    'bindings: for binding in bindings {
        match frames.set(alloc, &binding.name, binding.value.clone()?) {
            Ok(()) => {}
            Err(FrameError::Fault(_)) => {}
            Err(FrameError::Memory) => return Err(Interruption::Memory),
        }
    }
    Ok(())
}

/// Puts a frame with the words of a call and these variables on top.
#[inline(never)]
pub fn enter_frame(
    tree: &mut Tree,
    alloc: Global,
    place: Place,
    word: &Value,
    args: &[Value],
    bindings: &[Binding],
) -> Result<(), Interruption>
    requires { (p : Path) × Names tree.old place p }
    ensures entered { OnOk result ((p : Path) (n : core.Node Own) → Names tree.old place p →
        tree_of tree.old p ≡ Some n → tree_of tree.new
        ≡ effect p (Changed (in_frame (word.now ∷ args.now) (pairs_of bindings.now) n.own))
        (tree_of tree.old)) }
    ensures memory { IfErr result (λ i. i ≡ Memory) }
    ensures level { IsLevel tree.old tree.new }
{
    let Some(frames) = tree.frames_of(place) else {
        return Err(Interruption::Memory);
    };
    frames.push_call(alloc, word, args)?;
    bind_all(frames, alloc, bindings)
}

/// Sets a parameter to a word in the frame on top. A name that can't be set is left out.
fn bind_word(
    frames: &mut Frames,
    alloc: Global,
    name: &Text,
    word: &Value,
) -> Result<(), Interruption>
    ensures bound { OnOk result (frames.new ≡ bound ((name.now, word.now) ∷ []) frames.old) }
    ensures short { OnOk result (fits word.now ≡ true) }
    ensures memory { IfErr result (λ i. i ≡ Memory) }
{
    match frames.set_parameter(alloc, name, known_short(word.clone()?)) {
        Ok(()) => Ok(()),
        Err(FrameError::Fault(_)) => Ok(()),
        Err(FrameError::Memory) => Err(Interruption::Memory),
    }
}

/// Sets each parameter to the word at its place, in the frame on top. A name that can't be set is
/// left out.
fn bind_straight(
    frames: &mut Frames,
    alloc: Global,
    parameters: &[Parameter],
    args: &[Value],
) -> Result<(), Interruption>
    requires { length parameters.now ≡ length args.now }
    ensures bound { OnOk result
        (frames.new ≡ bound (straight parameters.now args.now) frames.old) }
    ensures short { OnOk result (fit_all (straight parameters.now args.now) ≡ true) }
    ensures memory { IfErr result (λ i. i ≡ Memory) }
{
    'parameters: for index in 0..parameters.len() {
        bind_word(frames, alloc, &parameters[index].name, &args[index])?;
    }
    Ok(())
}

/// Whether a last parameter of this name takes all words that are left.
fn is_rest(name: &Text) -> bool
    ensures { result ≡ is_rest name.now }
{
    name.len() == 4 && name.as_str() == "args"
}

/// Whether each parameter takes the word at its place, and no word is left.
fn is_straight(parameters: &[Parameter], args: &[Value]) -> bool
    ensures even { IsTrue result → length parameters.now ≡ length args.now }
    ensures bound { IsTrue result
        → bindings parameters.now args.now ≡ Some (straight parameters.now args.now) }
{
    if parameters.len() != args.len() {
        return false;
    }
    match parameters {
        [] => true,
        [.., last] => !is_rest(&last.name),
    }
}

/// Puts a frame with the words of a call on top, in which each parameter is set to the word at its
/// place.
fn enter_straight(
    tree: &mut Tree,
    alloc: Global,
    place: Place,
    parameters: &[Parameter],
    word: &Value,
    args: &[Value],
) -> Result<(), Interruption>
    requires named { (p : Path) × Names tree.old place p }
    requires even { length parameters.now ≡ length args.now }
    ensures entered { OnOk result ((p : Path) (n : core.Node Own) → Names tree.old place p →
        tree_of tree.old p ≡ Some n → tree_of tree.new
        ≡ effect p (Changed (in_frame (word.now ∷ args.now)
        (straight parameters.now args.now) n.own)) (tree_of tree.old)) }
    ensures short { OnOk result (fit_all (straight parameters.now args.now) ≡ true) }
    ensures memory { IfErr result (λ i. i ≡ Memory) }
    ensures level { IsLevel tree.old tree.new }
{
    let Some(frames) = tree.frames_of(place) else {
        return Err(Interruption::Memory);
    };
    frames.push_call(alloc, word, args)?;
    bind_straight(frames, alloc, parameters, args)
}

/// Binds the parameters of a call in a frame of its own, which is put on top. False where words are
/// too few or too many, and nothing has changed then. Mostly there is one word for each parameter,
/// and they are set without a list of what they are bound to.
///
/// # Errors
/// 122 of a list of arguments, where nothing has changed; want of memory.
pub fn enter(
    tree: &mut Tree,
    alloc: Global,
    place: Place,
    parameters: &[Parameter],
    word: &Value,
    args: &[Value],
) -> Result<bool, Interruption>
    requires { (p : Path) × Names tree.old place p }
    ensures entered { IfOk result (λ is. OnTrue is
        (Enters tree.old place parameters.now word.now args.now tree.new)) }
    ensures unbound { IfOk result (λ is. OnFalse is
        ((bindings parameters.now args.now ≡ None) × (tree.new ≡ tree.old))) }
    ensures refused { IfErr result (λ i. Interrupts i
        (λ e. TooLongBound (bindings parameters.now args.now) e × (tree.new ≡ tree.old))) }
    ensures level { IsLevel tree.old tree.new }
{
    if is_straight(parameters, args) {
        enter_straight(tree, alloc, place, parameters, word, args)?;
        return Ok(true);
    }
    let Some(bindings) = bind(alloc, parameters, args)? else {
        return Ok(false);
    };
    enter_frame(tree, alloc, place, word, args, bindings.as_slice())?;
    Ok(true)
}

/// Takes the frame on top off, where the interpreter isn't gone.
pub fn leave_frame(tree: &mut Tree, place: Place)
    requires { (p : Path) × (d : ℕ) × Holds tree.old place p d }
    ensures left { (p : Path) (d : ℕ) → Holds tree.old place p d → tree_of tree.new
        ≡ effect p (brought_back (nat_lt (depth_of (tree_of tree.old p)) d) out_of_frame
        (tree_of tree.old p)) (tree_of tree.old) }
    ensures level { IsLevel tree.old tree.new }
{
    if let Some(_) = tree.is_gone(place) {
        return;
    }
    match tree.frames_of(place) {
        Some(frames) => frames.pop(),
        None => unreachable!(),
    }
}

/// What the parameters of a call are bound to, from the left: a word, or the default where none is
/// left. A last `args` takes the list of what is left. None where words are too few or too many.
/// (proc(n))
#[inline(never)]
pub fn bind(
    alloc: Global,
    parameters: &[Parameter],
    args: &[Value],
) -> Result<Option<Vec<Binding>>, Interruption>
    ensures bound { IfOk result
        (λ found. Bound (option_map (λ v. pairs_of v.items) found)
        (bindings parameters.now args.now)) }
    ensures refused { IfErr result
        (λ i. Interrupts i (λ e. TooLongBound (bindings parameters.now args.now) e)) }
{
    let mut made = Vec::new(alloc);
    let mut rest = parameters;
    let mut left = args;
    'parameters: loop {
        match rest {
            [] => return Ok(if left.is_empty() { Some(made) } else { None }),
            [last] => return bind_last(alloc, made, last, left),
            [parameter, _, ..] => {
                let Some((value, others)) = next_value(parameter, left)? else {
                    return Ok(None);
                };
                made.push(Binding {
                    name: parameter.name.clone()?,
                    value: known_short(value),
                })?;
                rest = &rest[1..];
                left = others;
            }
        }
    }
}

/// The next word, or the parameter's default where none is left, with the words behind it.
fn next_value<'a>(
    parameter: &Parameter,
    left: &'a [Value],
) -> Result<Option<(Value, &'a [Value])>, AllocError>
    ensures { IfOk result (λ found. option_map
        (λ x. (x.0, x.1.now)) found ≡ next_bound parameter.now.default left.now) }
{
    match left {
        [word, others @ ..] => Ok(Some((word.clone()?, others))),
        [] => match &parameter.default {
            Some(default) => Ok(Some((default.clone()?, left))),
            None => Ok(None),
        },
    }
}

/// The bindings with that of the last parameter.
fn bind_last(
    alloc: Global,
    made: Vec<Binding>,
    parameter: &Parameter,
    left: &[Value],
) -> Result<Option<Vec<Binding>>, Interruption>
    requires { fit_all (pairs_of made.items) ≡ true }
    ensures bound { IfOk result
        (λ found. Bound (option_map (λ v. pairs_of v.items) found)
        (joined (pairs_of made.items) (last_bound (is_rest parameter.now.name) parameter.now
        left.now))) }
    ensures refused { IfErr result
        (λ i. Interrupts i (λ e. TooLongBound
        (joined (pairs_of made.items) (last_bound (is_rest parameter.now.name) parameter.now
        left.now)) e)) }
{
    let Some(value) = last_value(alloc, parameter, left)? else {
        return Ok(None);
    };
    let mut made = made;
    made.push(Binding {
        name: parameter.name.clone()?,
        value: known_short(value),
    })?;
    Ok(Some(made))
}

/// What the last parameter is bound to, where these words are left.
fn last_value(
    alloc: Global,
    parameter: &Parameter,
    left: &[Value],
) -> Result<Option<Value>, Interruption>
    ensures bound { IfOk result
        (λ found. IsBoundTo parameter.now found
        (last_bound (is_rest parameter.now.name) parameter.now left.now)) }
    ensures refused { IfErr result
        (λ i. Interrupts i (λ e. TooLongBound
        (last_bound (is_rest parameter.now.name) parameter.now left.now) e)) }
{
    if is_rest(&parameter.name) {
        return Ok(Some(list_value(alloc, left)?));
    }
    match left {
        [word] => Ok(Some(word.clone()?)),
        [_, _, ..] => Ok(None),
        [] => match &parameter.default {
            Some(default) => Ok(Some(default.clone()?)),
            None => Ok(None),
        },
    }
}

/// The list of these words.
fn list_value(alloc: Global, words: &[Value]) -> Result<Value, Interruption>
    ensures made { IfOk result (λ value. value ≡ written_list words.now) }
    ensures refused { IfErr result
        (λ i. Interrupts i (λ e. (fits (written_list words.now) ≡ false) ×
        (e ≡ Completed too_long_error))) }
{
    match list(alloc, words) {
        Ok(value) => Ok(value),
        Err(refusal) => Err(refused(alloc, refusal)),
    }
}

/// The error of a call with too few or too many words.
#[inline(never)]
pub fn wrong_form(alloc: Global, word: &Value, parameters: &[Parameter]) -> Interruption
    ensures { Interrupts result (λ e. e
        ≡ Completed (failing (faults.wrong_args (proc_form word.now parameters.now)))) }
{
    match form(alloc, word, parameters) {
        Ok(form) => wrong_args(alloc, form.as_str()),
        Err(_) => Interruption::Memory,
    }
}

/// The form of a call: the name and the parameters.
fn form(alloc: Global, word: &Value, parameters: &[Parameter]) -> Result<String, AllocError>
    ensures { IfOk result (λ form. string_bytes form ≡ proc_form word.now parameters.now) }
{
    let mut form = String::new(alloc);
    word.write_to(alloc, &mut form)?;
    'parameters: for index in 0..parameters.len() {
        let is_last = parameters.len() - index == 1;
        add_form(alloc, &mut form, &parameters[index], is_last)?;
    }
    Ok(form)
}

/// Adds a parameter to a form.
fn add_form(
    alloc: Global,
    form: &mut String,
    parameter: &Parameter,
    is_last: bool,
) -> Result<(), AllocError>
    ensures { OnOk result
        (string_bytes form.new ≡ string_bytes form.old ++ 32 ∷ form_of is_last parameter.now) }
{
    form.push_str(" ")?;
    if is_last && is_rest(&parameter.name) {
        return form.push_str("?arg ...?");
    }
    match &parameter.default {
        None => form.push_str(parameter.name.as_str()),
        Some(_) => {
            form.push_str("?")?;
            form.push_str(parameter.name.as_str())?;
            form.push_str("?")
        }
    }
}
