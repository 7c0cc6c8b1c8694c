//! The evaluation of scripts, command by command and word by word.
ghost use Rattle.std.specs.Prelude.{◌≡◌, ◌++◌, ◌∷◌, [], length, map, Some, OnOk, IfErr};
ghost use Rattle.std.specs.Prelude.{MatchResult};
ghost use Rattle.std.specs.String.{string_bytes};
ghost use Rattle.tcl_core.specs.Paths.{Path};
ghost use Rattle.tcl_language.specs.Scripts as scripts;
ghost use Rattle.tcl_core.specs.Trees as core;
ghost use Rattle.tcl_tree.specs.Own.{Own};
ghost use Rattle.tcl_run.specs.Ends.{Breaks, OnCompletion};
ghost use Rattle.tcl_run.specs.Runs.{IsHeld, IsHere, IsRunning, Keeps, ProceedsAt, ProceedsIn};
ghost use Rattle.tcl_run.specs.Runs.{ways};
ghost use Rattle.tcl_tree.specs.TreeOf.{tree_of, Names};
ghost use Rattle.tcl_calls.specs.Words.{opens, IsShort};
ghost use Rattle.tcl_parser.specs.Reading.{read_script};
ghost use Rattle.tcl_prepared.specs.Views.{seen_command, seen_part, seen_word};
ghost use Rattle.tcl_evaluation.specs.View.{PartGoes, PartBreaks};
ghost use Rattle.tcl_evaluation.specs.Scripts.{read_so};

use crate::hands::{counted_by_kind, word_at_hand};
use crate::keeping::keep_what_is_read;
use crate::sums::count_sum;
use crate::words::{call_literals, change_or_call, substitute_and_call};
use std::alloc::Global;
use tcl_calls::words::{
    OpenElement, append, append_value, close_element, finish, open_element, within,
};
use tcl_prepared::prepared::{Bracket, Prepared, PreparedCommand, PreparedPart, PreparedWord};
use tcl_run::failure::too_deep;
use tcl_run::interruption::Interruption;
use tcl_run::outside::Outside;
use tcl_run::steps::{known_short, on_ok, read_named};
use tcl_text::text::Text;
use tcl_tree::tree::{Place, Tree};
use tcl_value::value::Value;

/// Evaluates a script that was read, one level deeper.
///
/// # Errors
/// 308, as an error of the interpreter whose depth limit refuses, and as a stop of one above it;
/// the first end of a command that is no ordinary result; 201 to 206 behind the commands; want of
/// memory.
#[cycle(eval)]
pub fn eval_script<O: Outside>(
    tree: &mut Tree,
    alloc: Global,
    outside: &mut O,
    place: Place,
    script: &Prepared,
) -> Result<Value, Interruption>
    requires { (p : Path) × Names tree.old place p }
    ensures runs { ProceedsAt (ways O.goes O.loses) tree.old outside.old place
        (λ style. read_so script.now) tree.new outside.new result }
    ensures held { (p : Path) → Names tree.old place p → IsHeld tree.old tree.new p }
    ensures here { OnCompletion result (IsHere tree.old tree.new place) }
    ensures keeps { Keeps O.entries_left tree.old tree.new outside.old outside.new }
{
    tree.keeps_form();
    if let Err(levels) = tree.nest_at(place) {
        return Err(too_deep(alloc, levels));
    }
    let ended = eval_commands(tree, alloc, outside, place, script);
    tree.unnest(place);
    ended
}

/// Evaluates the script of this text, one level deeper. A text that was read before isn't read
/// again.
///
/// # Errors
/// Those of a script.
#[cycle(eval)]
pub fn eval_text<O: Outside>(
    tree: &mut Tree,
    alloc: Global,
    outside: &mut O,
    place: Place,
    text: &Text,
) -> Result<Value, Interruption>
    requires { (p : Path) × Names tree.old place p }
    ensures runs { ProceedsAt (ways O.goes O.loses) tree.old outside.old place
        (λ style. scripts.script text.now) tree.new outside.new result }
    ensures here { OnCompletion result (IsHere tree.old tree.new place) }
    ensures keeps { Keeps O.entries_left tree.old tree.new outside.old outside.new }
{
    let script = tree.script(alloc, text)?;
    eval_script(tree, alloc, outside, place, &script)
}

/// Evaluates the script that a value is, one level deeper. A script that was read before isn't read
/// again.
///
/// # Errors
/// Those of a script.
#[cycle(eval)]
#[inline(always)]
pub fn eval_value<O: Outside>(
    tree: &mut Tree,
    alloc: Global,
    outside: &mut O,
    place: Place,
    value: &Value,
) -> Result<Value, Interruption>
    requires { (p : Path) × Names tree.old place p }
    ensures runs { ProceedsAt (ways O.goes O.loses) tree.old outside.old place
        (λ style. scripts.script value.now) tree.new outside.new result }
    ensures held { (p : Path) → Names tree.old place p → IsHeld tree.old tree.new p }
    ensures here { OnCompletion result (IsHere tree.old tree.new place) }
    ensures keeps { Keeps O.entries_left tree.old tree.new outside.old outside.new }
{
    let script = tree.script_of(alloc, value)?;
    eval_script(tree, alloc, outside, place, &script)
}

/// Evaluates the script of a text, as it was read before, one level deeper.
///
/// # Errors
/// Those of a script.
#[cycle(eval)]
pub fn eval_read<O: Outside>(
    tree: &mut Tree,
    alloc: Global,
    outside: &mut O,
    place: Place,
    text: &Value,
    script: &Prepared,
) -> Result<Value, Interruption>
    requires named { (p : Path) × Names tree.old place p }
    requires read { script.now ≡ read_script text.now }
    ensures runs { ProceedsAt (ways O.goes O.loses) tree.old outside.old place
        (λ style. scripts.script text.now) tree.new outside.new result }
    ensures held { (p : Path) → Names tree.old place p → IsHeld tree.old tree.new p }
    ensures here { OnCompletion result (IsHere tree.old tree.new place) }
    ensures keeps { Keeps O.entries_left tree.old tree.new outside.old outside.new }
{
    let _text = text;
    eval_script(tree, alloc, outside, place, script)
}

/// Evaluates a script in brackets that was read with the script around it, one level deeper. A sum
/// or an answer that is at hand is only counted. A variable that another answer reads keeps what
/// its text reads as.
///
/// # Errors
/// Those of a script.
#[cycle(eval)]
#[inline]
fn eval_bracket<O: Outside>(
    tree: &mut Tree,
    alloc: Global,
    outside: &mut O,
    place: Place,
    bracket: &Bracket,
) -> Result<Value, Interruption>
    requires { (p : Path) × Names tree.old place p }
    ensures runs { ProceedsAt (ways O.goes O.loses) tree.old outside.old place
        (λ style. scripts.script bracket.now) tree.new outside.new result }
    ensures here { OnCompletion result (IsHere tree.old tree.new place) }
    ensures keeps { Keeps O.entries_left tree.old tree.new outside.old outside.new }
{
    if let Some(value) = counted_by_kind(tree, alloc, place, bracket.kind(), bracket.script()) {
        count_sum(tree, alloc, outside, place)?;
        return Ok(value);
    }
    keep_what_is_read(tree, alloc, place, bracket);
    eval_script(tree, alloc, outside, place, bracket.script())
}

/// Evaluates a script's commands one after another, up to the first without an ordinary result, and
/// then its fault.
#[cycle(eval)]
fn eval_commands<O: Outside>(
    tree: &mut Tree,
    alloc: Global,
    outside: &mut O,
    place: Place,
    script: &Prepared,
) -> Result<Value, Interruption>
    requires running { IsRunning tree.old place }
    ensures runs { ProceedsIn (ways O.goes O.loses) tree.old outside.old place
        (λ style. scripts.commands script.now.commands script.now.fault []) tree.new outside.new
        result }
    ensures here { OnCompletion result (IsHere tree.old tree.new place) }
    ensures keeps { Keeps O.entries_left tree.old tree.new outside.old outside.new }
{
    let mut last = Value::empty();
    let all = script.commands();
    'commands: for command in all {
        // (what the last one shares with a variable is then changed in place)
        drop(last);
        last = on_ok(eval_command(tree, alloc, outside, place, command))?;
    }
    finish(alloc, script.fault(), last)
}

/// Substitutes a command's words from left to right, makes a step and calls it. Words each of which
/// stands for itself are lent as they are.
///
/// # Errors
/// Those of the words; 101 to 104 of a word that is spread; the stop 308; those of the call; want
/// of memory.
#[cycle(eval)]
fn eval_command<O: Outside>(
    tree: &mut Tree,
    alloc: Global,
    outside: &mut O,
    place: Place,
    command: &PreparedCommand,
) -> Result<Value, Interruption>
    requires running { IsRunning tree.old place }
    ensures runs { ProceedsIn (ways O.goes O.loses) tree.old outside.old place
        (λ style. scripts.words (seen_command command.now) []) tree.new outside.new result }
    ensures here { OnCompletion result (IsHere tree.old tree.new place) }
    ensures keeps { Keeps O.entries_left tree.old tree.new outside.old outside.new }
{
    match command {
        PreparedCommand::Constant(literals) => {
            call_literals(tree, alloc, outside, place, literals.words())
        }
        PreparedCommand::AtHand(words) => {
            change_or_call(tree, alloc, outside, place, words.as_slice())
        }
        PreparedCommand::General(words) => {
            substitute_and_call(tree, alloc, outside, place, words.as_slice())
        }
    }
}

/// The text of a word. One whose parts are at hand is put together at once.
///
/// # Errors
/// 231 to 234 and 238 of variables; those of scripts; 122; want of memory.
#[cycle(eval)]
#[inline(never)]
pub(crate) fn eval_word<O: Outside>(
    tree: &mut Tree,
    alloc: Global,
    outside: &mut O,
    place: Place,
    word: &PreparedWord,
) -> Result<Value, Interruption>
    requires running { IsRunning tree.old place }
    ensures runs { ProceedsIn (ways O.goes O.loses) tree.old outside.old place
        (λ style. scripts.parts (seen_word word.now).parts [] []) tree.new outside.new result }
    ensures here { OnCompletion result (IsHere tree.old tree.new place) }
    ensures keeps { Keeps O.entries_left tree.old tree.new outside.old outside.new }
{
    match word {
        PreparedWord::Literal(value) => Ok(known_short(value.clone()?)),
        PreparedWord::Name(name) => Ok(known_short(name.value()?)),
        PreparedWord::Lone(part) => eval_lone_part(tree, alloc, outside, place, part),
        PreparedWord::Parts(parts) => {
            if let Some(value) = word_at_hand(tree, alloc, place, word) {
                return Ok(value);
            }
            substitute(tree, alloc, outside, place, parts.as_slice())
        }
        PreparedWord::Spread(parts) => substitute(tree, alloc, outside, place, parts.as_slice()),
    }
}

/// The text of a word that is one part: it is shared, and not copied.
#[cycle(eval)]
pub(crate) fn eval_lone_part<O: Outside>(
    tree: &mut Tree,
    alloc: Global,
    outside: &mut O,
    place: Place,
    part: &PreparedPart,
) -> Result<Value, Interruption>
    requires running { IsRunning tree.old place }
    ensures runs { ProceedsIn (ways O.goes O.loses) tree.old outside.old place
        (λ style. scripts.parts (seen_part part.now ∷ []) [] []) tree.new outside.new result }
    ensures here { OnCompletion result (IsHere tree.old tree.new place) }
    ensures keeps { Keeps O.entries_left tree.old tree.new outside.old outside.new }
{
    match part {
        PreparedPart::Literal(text) => within(alloc, text.clone()?),
        PreparedPart::Variable(name) => read_named(tree, alloc, place, name),
        PreparedPart::Bracket(bracket) => {
            let value = on_ok(eval_bracket(tree, alloc, outside, place, bracket))?;
            Ok(known_short(value))
        }
        PreparedPart::Deep(script) => {
            let value = on_ok(eval_text(tree, alloc, outside, place, script))?;
            Ok(known_short(value))
        }
        PreparedPart::Element(_) => Ok(Value::empty()),
        PreparedPart::EndElement => Ok(Value::empty()),
    }
}

/// Substitutes a word's parts from left to right, and joins their texts.
#[cycle(eval)]
#[inline(never)]
pub(crate) fn substitute<O: Outside>(
    tree: &mut Tree,
    alloc: Global,
    outside: &mut O,
    place: Place,
    parts: &[PreparedPart],
) -> Result<Value, Interruption>
    requires running { IsRunning tree.old place }
    ensures runs { ProceedsIn (ways O.goes O.loses) tree.old outside.old place
        (λ style. scripts.parts (map seen_part parts.now) [] []) tree.new outside.new result }
    ensures here { OnCompletion result (IsHere tree.old tree.new place) }
    ensures keeps { Keeps O.entries_left tree.old tree.new outside.old outside.new }
{
    let mut elements = Vec::new(alloc);
    let mut text = String::new(alloc);
    'parts: for part in parts {
        eval_part(tree, alloc, outside, place, part, &mut elements, &mut text)?;
    }
    Ok(Value::from_short_text(Text::from_string(alloc, text)?))
}

/// Substitutes one part of a word.
#[cycle(eval)]
#[inline(never)]
fn eval_part<O: Outside>(
    tree: &mut Tree,
    alloc: Global,
    outside: &mut O,
    place: Place,
    part: &PreparedPart,
    elements: &mut Vec<OpenElement>,
    text: &mut String,
) -> Result<(), Interruption>
    requires running { IsRunning tree.old place }
    requires short { IsShort (string_bytes text.old) }
    ensures runs { MatchResult result
        (λ _. PartGoes (ways O.goes O.loses) tree.old outside.old place (seen_part part.now)
        (opens elements.old.items) (string_bytes text.old) tree.new outside.new
        (opens elements.new.items) (string_bytes text.new))
        (λ i. Breaks i (PartBreaks (ways O.goes O.loses) tree.old outside.old place
        (seen_part part.now) (opens elements.old.items) (string_bytes text.old) tree.new
        outside.new)) }
    ensures short { OnOk result (IsShort (string_bytes text.new)) }
    ensures here { OnCompletion result (IsHere tree.old tree.new place) }
    ensures keeps { Keeps O.entries_left tree.old tree.new outside.old outside.new }
{
    match part {
        PreparedPart::Literal(literal) => append(alloc, text, literal.as_str()),
        PreparedPart::Variable(name) => {
            let value = read_named(tree, alloc, place, name)?;
            append_value(alloc, text, &value)
        }
        PreparedPart::Element(name) => open_element(alloc, name, elements, text),
        PreparedPart::EndElement => close_element(tree, alloc, place, elements, text),
        PreparedPart::Bracket(bracket) => {
            let value = on_ok(eval_bracket(tree, alloc, outside, place, bracket))?;
            append_value(alloc, text, &value)
        }
        PreparedPart::Deep(script) => {
            let value = on_ok(eval_text(tree, alloc, outside, place, script))?;
            append_value(alloc, text, &value)
        }
    }
}
