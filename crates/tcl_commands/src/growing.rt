//! Adding to variables, and the commands that do it to texts and lists: in place, where what a
//! variable holds isn't shared.
ghost use Rattle.std.specs.Prelude.{◌≡◌, ◌++◌, Ok, IfErr, OnOk, true, codes};
ghost use Rattle.tcl_core.specs.Paths.{Path};
ghost use Rattle.tcl_language.specs.Data as collections;
ghost use Rattle.tcl_frames.specs.Chain.{read};
ghost use Rattle.tcl_language.specs.Instructions.{fits, look};
ghost use Rattle.tcl_language.specs.Variables as variables;
ghost use Rattle.tcl_run.specs.Plain.{Acts};
ghost use Rattle.tcl_run.specs.Runs.{IsLevel};
ghost use Rattle.tcl_run.specs.declared.interruption.Interruption.TheVariants.{Memory};
ghost use Rattle.tcl_tree.specs.TreeOf.{Names};
ghost use Rattle.tcl_commands.specs.Growing.{appended, lengthened, grown, finishes, Grows, GrowsTo};
ghost use Rattle.tcl_commands.specs.GrowthKinds.{first_of, grown_by};
ghost use Rattle.tcl_commands.specs.Sums.{added_words, raised};

use crate::steps::is_missing;
use crate::sums::{raise, raise_by, raise_value};
use std::alloc::Global;
use tcl_frames::fault::FrameError;
use tcl_frames::frames::Frames;
use tcl_frames::variable_name::VariableName;
use tcl_lists::lengthening;
use tcl_run::failure::{failure, too_long, wrong_args};
use tcl_run::interruption::Interruption;
use tcl_run::steps::{frame_failure, read_by_word, variable_name};
use tcl_text::integer::Integers;
use tcl_text::limit::MOST_BYTES;
use tcl_text::text::Text;
use tcl_tree::tree::{Place, Tree};
use tcl_value::value::Value;
use tcl_words::refusal::Refusal;

/// Whether a value is no longer than a value may be when these are added to it.
fn has_room(value: &Value, more: &[Value]) -> bool
    ensures { result ≡ fits (value.now ++ variables.joined more.now) }
{
    let mut room = MOST_BYTES - value.text_len();
    'more: for part in more {
        let len = part.text_len();
        if len > room {
            return false;
        }
        room -= len;
    }
    true
}

/// Adds the texts of values to that of a value.
fn append_all(alloc: Global, value: &mut Value, more: &[Value]) -> Result<(), Interruption>
    requires { fits (value.old ++ variables.joined more.now) ≡ true }
    ensures appended { OnOk result (value.new ≡ value.old ++ variables.joined more.now) }
    ensures memory { IfErr result (λ i. i ≡ Memory) }
{
    'more: for part in more {
        let text = part.text(alloc)?;
        if value.append(alloc, text.as_str()).is_err() {
            return Err(Interruption::Memory);
        }
    }
    Ok(())
}

/// What a variable grows by.
#[derive(Clone, Copy)]
pub(crate) enum Growth {
    /// Texts behind its text.
    Texts,
    /// Elements behind those of its list.
    Elements,
    /// What is added to its integer, in this style of integer texts: that of the first word, or 1
    /// where there is none.
    Sum(Integers),
    /// A number that is added to its integer, or 1 where there is none. The style is that in which
    /// the integer is read.
    Number(Integers, Option<i64>),
}

/// Adds the texts of values to that of a value, and gives what it then is.
fn append_texts(alloc: Global, value: &mut Value, more: &[Value]) -> Result<Value, Interruption>
    ensures { GrowsTo value.old (appended more.now) value.new result }
{
    if !has_room(value, more) {
        return Err(too_long(alloc));
    }
    append_all(alloc, value, more)?;
    Ok(value.clone()?)
}

/// Adds elements to the list of a value, and gives what it then is.
fn append_elements(alloc: Global, value: &mut Value, more: &[Value]) -> Result<Value, Interruption>
    ensures { GrowsTo value.old (lengthened more.now) value.new result }
{
    match lengthening::lappend(alloc, value, more) {
        Ok(()) => Ok(value.clone()?),
        Err(Refusal::Fault(message)) => Err(failure(alloc, message)),
        Err(Refusal::Memory) => Err(Interruption::Memory),
    }
}

/// Makes a value grow, and gives what it then is.
#[inline]
fn grow_value(
    alloc: Global,
    value: &mut Value,
    growth: Growth,
    more: &[Value],
) -> Result<Value, Interruption>
    ensures { GrowsTo value.old (grown_by growth more.now) value.new result }
{
    match growth {
        Growth::Texts => append_texts(alloc, value, more),
        Growth::Elements => append_elements(alloc, value, more),
        Growth::Sum(style) => raise(style, alloc, value, more),
        Growth::Number(style, by) => raise_by(style, alloc, value, by),
    }
}

/// What a variable grows from where there is none.
fn first_value(growth: Growth) -> Value
    ensures { result ≡ first_of growth }
{
    match growth {
        Growth::Texts => Value::empty(),
        Growth::Elements => Value::empty(),
        Growth::Sum(_) => Value::from_int(0),
        Growth::Number(_, _) => Value::from_int(0),
    }
}

/// Makes a variable of which there is none yet.
fn make_variable(
    frames: &mut Frames,
    alloc: Global,
    name: &Text,
    growth: Growth,
    more: &[Value],
) -> Result<Value, Interruption>
    requires { variables.or_missing (first_of growth) (read frames.old.frames name.now)
        ≡ Ok (first_of growth) }
    ensures { Grows (first_of growth) frames.old name.now (grown_by growth more.now) frames.new
        result }
{
    let mut value = first_value(growth);
    let grown = grow_value(alloc, &mut value, growth, more)?;
    match frames.set(alloc, name, value) {
        Ok(()) => Ok(grown),
        Err(error) => Err(frame_failure(alloc, error)),
    }
}

/// Makes a variable grow, from the first value of its kind where there is none.
#[inline(never)]
fn grow(
    frames: &mut Frames,
    alloc: Global,
    name: &Text,
    growth: Growth,
    more: &[Value],
) -> Result<Value, Interruption>
    ensures { Grows (first_of growth) frames.old name.now (grown_by growth more.now) frames.new
        result }
{
    match frames.get_mut(alloc, name) {
        Ok(value) => grow_value(alloc, value, growth, more),
        Err(error) => {
            if is_missing(&error) {
                return make_variable(frames, alloc, name, growth, more);
            }
            Err(frame_failure(alloc, error))
        }
    }
}

/// The same, in less time where the name stands where it was found last.
#[inline]
fn grow_near(
    frames: &mut Frames,
    alloc: Global,
    name: &VariableName,
    growth: Growth,
    more: &[Value],
) -> Result<Value, Interruption>
    ensures { Grows (first_of growth) frames.old name.now (grown_by growth more.now) frames.new
        result }
{
    if let Some(value) = frames.scalar_mut_near(name) {
        return grow_value(alloc, value, growth, more);
    }
    grow(frames, alloc, name.text(), growth, more)
}

/// Makes a variable of the interpreter that the place names grow.
#[inline]
pub(crate) fn grow_variable(
    tree: &mut Tree,
    alloc: Global,
    place: Place,
    name: &VariableName,
    growth: Growth,
    more: &[Value],
) -> Result<Value, Interruption>
    requires { (p : Path) × Names tree.old place p }
    ensures acts { Acts tree.old place
        (λ style. look (λ n. finishes n.own
        (grown (first_of growth) n.own.chain name.now (grown_by growth more.now)))) tree.new
        result }
    ensures level { IsLevel tree.old tree.new }
{
    match tree.frames_of(place) {
        Some(frames) => grow_near(frames, alloc, name, growth, more),
        None => unreachable!(),
    }
}

/// Adds a number, or 1, to the integer of a variable, in a style of integer texts.
#[inline(always)]
fn raise_near(
    frames: &mut Frames,
    alloc: Global,
    style: Integers,
    name: &VariableName,
    by: Option<i64>,
) -> Result<Value, Interruption>
    ensures { Grows (codes "0") frames.old name.now (raised style (added_words by)) frames.new
        result }
{
    if let Some(value) = frames.scalar_mut_near(name) {
        return raise_value(style, alloc, value, by);
    }
    grow(frames, alloc, name.text(), Growth::Number(style, by), &[])
}

/// Adds a number, or 1, to the integer of a variable of the interpreter that the place names, in a
/// style of integer texts.
#[inline(always)]
pub(crate) fn raise_variable(
    tree: &mut Tree,
    alloc: Global,
    place: Place,
    style: Integers,
    name: &VariableName,
    by: Option<i64>,
) -> Result<Value, Interruption>
    requires { (p : Path) × Names tree.old place p }
    ensures acts { Acts tree.old place
        (λ _. look (λ n. finishes n.own
        (grown (codes "0") n.own.chain name.now (raised style (added_words by))))) tree.new
        result }
    ensures level { IsLevel tree.old tree.new }
{
    match tree.frames_of(place) {
        Some(frames) => raise_near(frames, alloc, style, name, by),
        None => unreachable!(),
    }
}

/// Makes the variable that a word names grow.
pub(crate) fn grow_named(
    tree: &mut Tree,
    alloc: Global,
    place: Place,
    word: &Value,
    growth: Growth,
    more: &[Value],
) -> Result<Value, Interruption>
    requires { (p : Path) × Names tree.old place p }
    ensures acts { Acts tree.old place
        (λ style. look (λ n. finishes n.own
        (grown (first_of growth) n.own.chain word.now (grown_by growth more.now)))) tree.new
        result }
    ensures level { IsLevel tree.old tree.new }
{
    let name = variable_name(alloc, word)?;
    grow_variable(tree, alloc, place, &name, growth, more)
}

/// `append varName ?value ...?`: adds values to the text of a variable, which is empty where there
/// is none. With no value the variable is read. (append(n))
///
/// # Errors
/// 241; 231 to 234 and 238; 122; want of memory.
pub fn append(
    tree: &mut Tree,
    alloc: Global,
    place: Place,
    args: &[Value],
) -> Result<Value, Interruption>
    requires { (p : Path) × Names tree.old place p }
    ensures acts { Acts tree.old place (λ style. variables.append args.now) tree.new result }
    ensures level { IsLevel tree.old tree.new }
{
    match args {
        [] => Err(wrong_args(alloc, "append varName ?value ...?")),
        [name] => read_by_word(tree, alloc, place, name),
        [name, values @ ..] => grow_named(tree, alloc, place, name, Growth::Texts, values),
    }
}

/// `lappend varName ?value ...?`: adds elements to the list of a variable, which is empty where
/// there is none. (lappend(n))
///
/// # Errors
/// 241; 232, 233 and 238; 101 to 104; 122; want of memory.
pub fn lappend(
    tree: &mut Tree,
    alloc: Global,
    place: Place,
    args: &[Value],
) -> Result<Value, Interruption>
    requires { (p : Path) × Names tree.old place p }
    ensures acts { Acts tree.old place (λ style. collections.lappend args.now) tree.new result }
    ensures level { IsLevel tree.old tree.new }
{
    match args {
        [] => Err(wrong_args(alloc, "lappend varName ?value ...?")),
        [name, values @ ..] => grow_named(tree, alloc, place, name, Growth::Elements, values),
    }
}
