//! The words of commands, and the calls that are made with them.
ghost use Rattle.std.specs.Prelude.{◌≡◌, ◌∷◌, [], map, false};
ghost use Rattle.tcl_language.specs.Scripts as scripts;
ghost use Rattle.tcl_prepared.specs.Views.{literal_word, seen_part, seen_word};
ghost use Rattle.tcl_run.specs.Ends.{OnCompletion};
ghost use Rattle.tcl_run.specs.Runs.{IsHere, IsRunning, Keeps, ProceedsIn, ways};
ghost use Rattle.tcl_value.specs.Texts.{AllWithin};

use crate::at_hand::{call_at_hand, call_known, call_named};
use crate::changes::{call_change, call_change_on_hand, change_at_hand};
use crate::commands::call;
use crate::evaluation::{eval_lone_part, eval_word, substitute};
use std::alloc::Global;
use tcl_calls::lookup::{Callee, builtin_named, callee_named};
use tcl_calls::words::{Words, spread};
use tcl_commands::named::VariableChange;
use tcl_prepared::prepared::{NameWord, PreparedPart, PreparedWord};
use tcl_run::interruption::Interruption;
use tcl_run::outside::Outside;
use tcl_run::steps::{charge, on_ok};
use tcl_tree::tree::{Place, Tree};
use tcl_value::value::Value;

/// Makes a step and calls the command that the first of these texts names. No texts are no command.
///
/// # Errors
/// The stop 308; those of the call; want of memory.
#[cycle(eval)]
fn call_texts<O: Outside>(
    tree: &mut Tree,
    alloc: Global,
    outside: &mut O,
    place: Place,
    texts: &[Value],
) -> Result<Value, Interruption>
    requires { IsRunning tree.old place }
    ensures runs { ProceedsIn (ways O.goes O.loses) tree.old outside.old place
        (λ style. scripts.words [] texts.now) tree.new outside.new result }
    ensures here { OnCompletion result (IsHere tree.old tree.new place) }
    ensures keeps { Keeps O.entries_left tree.old tree.new outside.old outside.new }
{
    if texts.is_empty() {
        return Ok(Value::empty());
    }
    charge(tree, outside, place)?;
    call(tree, alloc, outside, place, texts)
}

/// Calls a command each of whose words stands for itself.
///
/// # Errors
/// The stop 308; those of the call; want of memory.
#[cycle(eval)]
pub fn call_literals<O: Outside>(
    tree: &mut Tree,
    alloc: Global,
    outside: &mut O,
    place: Place,
    words: &[Value],
) -> Result<Value, Interruption>
    requires running { IsRunning tree.old place }
    requires within { AllWithin words.now }
    ensures runs { ProceedsIn (ways O.goes O.loses) tree.old outside.old place
        (λ style. scripts.words (map literal_word words.now) []) tree.new outside.new result }
    ensures here { OnCompletion result (IsHere tree.old tree.new place) }
    ensures keeps { Keeps O.entries_left tree.old tree.new outside.old outside.new }
{
    if let [word, args @ ..] = words {
        if let Some(callee) = callee_named(tree, alloc, place, word) {
            return match callee {
                Callee::Builtin(builtin) => {
                    call_known(tree, alloc, outside, place, builtin, args)
                }
                Callee::Other(command) => {
                    call_named(tree, alloc, outside, place, &command, word, args)
                }
            };
        }
    }
    call_texts(tree, alloc, outside, place, words)
}

/// Changes a variable, where the words are at hand and those of a command that does so, or calls
/// the command that they name.
///
/// # Errors
/// Those of the words; the stop 308; those of the call; want of memory.
#[cycle(eval)]
pub fn change_or_call<O: Outside>(
    tree: &mut Tree,
    alloc: Global,
    outside: &mut O,
    place: Place,
    words: &[PreparedWord],
) -> Result<Value, Interruption>
    requires running { IsRunning tree.old place }
    ensures runs { ProceedsIn (ways O.goes O.loses) tree.old outside.old place
        (λ style. scripts.words (map seen_word words.now) []) tree.new outside.new result }
    ensures here { OnCompletion result (IsHere tree.old tree.new place) }
    ensures keeps { Keeps O.entries_left tree.old tree.new outside.old outside.new }
{
    match change_at_hand(tree, alloc, place, words) {
        Some((name, change, sums)) => {
            call_change_on_hand(tree, alloc, outside, place, name, change, sums)
        }
        None => call_words(tree, alloc, outside, place, words),
    }
}

/// Substitutes the words of a command that may be at hand from left to right, makes a step and
/// calls it. Where they are at hand they aren't evaluated one by one.
///
/// # Errors
/// Those of the words; 101 to 104 of a word that is spread; the stop 308; those of the call; want
/// of memory.
#[cycle(eval)]
fn call_words<O: Outside>(
    tree: &mut Tree,
    alloc: Global,
    outside: &mut O,
    place: Place,
    words: &[PreparedWord],
) -> Result<Value, Interruption>
    requires running { IsRunning tree.old place }
    ensures runs { ProceedsIn (ways O.goes O.loses) tree.old outside.old place
        (λ style. scripts.words (map seen_word words.now) []) tree.new outside.new result }
    ensures here { OnCompletion result (IsHere tree.old tree.new place) }
    ensures keeps { Keeps O.entries_left tree.old tree.new outside.old outside.new }
{
    if let Some(ended) = call_at_hand(tree, alloc, outside, place, words) {
        return ended;
    }
    call_general(tree, alloc, outside, place, words)
}

/// Makes a step and calls a command with the name of a variable and a value.
///
/// # Errors
/// The stop 308; those of the call; want of memory.
#[cycle(eval)]
#[inline(never)]
fn call_with_value<O: Outside>(
    tree: &mut Tree,
    alloc: Global,
    outside: &mut O,
    place: Place,
    command: &Value,
    variable: &NameWord,
    value: Value,
) -> Result<Value, Interruption>
    requires { IsRunning tree.old place }
    ensures runs { ProceedsIn (ways O.goes O.loses) tree.old outside.old place
        (λ style. scripts.words [] (command.now ∷ variable.now ∷ value ∷ [])) tree.new outside.new
        result }
    ensures here { OnCompletion result (IsHere tree.old tree.new place) }
    ensures keeps { Keeps O.entries_left tree.old tree.new outside.old outside.new }
{
    let first = command.clone()?;
    let second = variable.value()?;
    call_texts(tree, alloc, outside, place, &[first, second, value])
}

/// Makes a step and changes a variable, where the command that is named does so with one value, or
/// calls the command.
///
/// # Errors
/// The stop 308; those of the call; want of memory.
#[cycle(eval)]
#[inline(never)]
fn change_to<O: Outside>(
    tree: &mut Tree,
    alloc: Global,
    outside: &mut O,
    place: Place,
    command: &Value,
    variable: &NameWord,
    value: Value,
) -> Result<Value, Interruption>
    requires { IsRunning tree.old place }
    ensures runs { ProceedsIn (ways O.goes O.loses) tree.old outside.old place
        (λ style. scripts.words [] (command.now ∷ variable.now ∷ value ∷ [])) tree.new outside.new
        result }
    ensures here { OnCompletion result (IsHere tree.old tree.new place) }
    ensures keeps { Keeps O.entries_left tree.old tree.new outside.old outside.new }
{
    let Some(builtin) = builtin_named(tree, place, command) else {
        return call_with_value(tree, alloc, outside, place, command, variable, value);
    };
    match VariableChange::of_word(builtin, value) {
        Ok(change) => call_change(tree, alloc, outside, place, variable.name(), change),
        Err(value) => call_with_value(tree, alloc, outside, place, command, variable, value),
    }
}

/// Substitutes a part, makes a step, and changes a variable to what it stands for, or calls the
/// command with it. The command and the variable are named by words that stand for themselves.
///
/// # Errors
/// Those of the part; the stop 308; those of the call; want of memory.
#[cycle(eval)]
#[inline(never)]
fn change_by_part<O: Outside>(
    tree: &mut Tree,
    alloc: Global,
    outside: &mut O,
    place: Place,
    command: &Value,
    variable: &NameWord,
    part: &PreparedPart,
) -> Result<Value, Interruption>
    requires { IsRunning tree.old place }
    ensures runs { ProceedsIn (ways O.goes O.loses) tree.old outside.old place
        (λ style. scripts.words (literal_word command.now ∷ literal_word variable.now ∷
        record { parts = seen_part part.now ∷ []; expand = false } ∷ []) []) tree.new outside.new
        result }
    ensures here { OnCompletion result (IsHere tree.old tree.new place) }
    ensures keeps { Keeps O.entries_left tree.old tree.new outside.old outside.new }
{
    command.keeps_limit();
    let _name = variable.name();
    let value = on_ok(eval_lone_part(tree, alloc, outside, place, part))?;
    change_to(tree, alloc, outside, place, command, variable, value)
}

/// The same of a word of several parts.
///
/// # Errors
/// Those of the parts; 122; the stop 308; those of the call; want of memory.
#[cycle(eval)]
#[inline(never)]
fn change_by_parts<O: Outside>(
    tree: &mut Tree,
    alloc: Global,
    outside: &mut O,
    place: Place,
    command: &Value,
    variable: &NameWord,
    parts: &[PreparedPart],
) -> Result<Value, Interruption>
    requires { IsRunning tree.old place }
    ensures runs { ProceedsIn (ways O.goes O.loses) tree.old outside.old place
        (λ style. scripts.words (literal_word command.now ∷ literal_word variable.now ∷
        record { parts = map seen_part parts.now; expand = false } ∷ []) []) tree.new outside.new
        result }
    ensures here { OnCompletion result (IsHere tree.old tree.new place) }
    ensures keeps { Keeps O.entries_left tree.old tree.new outside.old outside.new }
{
    command.keeps_limit();
    let _name = variable.name();
    let value = on_ok(substitute(tree, alloc, outside, place, parts))?;
    change_to(tree, alloc, outside, place, command, variable, value)
}

/// Substitutes a command's words from left to right, makes a step and calls it. They aren't
/// gathered where only the last is to be evaluated and the one before it is to name a variable.
///
/// # Errors
/// Those of the words; 101 to 104 of a word that is spread; the stop 308; those of the call; want
/// of memory.
#[cycle(eval)]
#[inline(always)]
pub(crate) fn substitute_and_call<O: Outside>(
    tree: &mut Tree,
    alloc: Global,
    outside: &mut O,
    place: Place,
    words: &[PreparedWord],
) -> Result<Value, Interruption>
    requires running { IsRunning tree.old place }
    ensures runs { ProceedsIn (ways O.goes O.loses) tree.old outside.old place
        (λ style. scripts.words (map seen_word words.now) []) tree.new outside.new result }
    ensures here { OnCompletion result (IsHere tree.old tree.new place) }
    ensures keeps { Keeps O.entries_left tree.old tree.new outside.old outside.new }
{
    if let [first, second, third] = words {
        if let PreparedWord::Literal(command) = first {
            if let PreparedWord::Name(variable) = second {
                if let PreparedWord::Lone(part) = third {
                    return change_by_part(tree, alloc, outside, place, command, variable, part);
                }
                if let PreparedWord::Parts(parts) = third {
                    return change_by_parts(
                        tree,
                        alloc,
                        outside,
                        place,
                        command,
                        variable,
                        parts.as_slice(),
                    );
                }
            }
        }
    }
    call_general(tree, alloc, outside, place, words)
}

/// Substitutes a command's words from left to right, makes a step and calls it. Up to four words
/// take no allocation.
///
/// # Errors
/// Those of the words; 101 to 104 of a word that is spread; the stop 308; those of the call; want
/// of memory.
#[cycle(eval)]
#[inline(never)]
fn call_general<O: Outside>(
    tree: &mut Tree,
    alloc: Global,
    outside: &mut O,
    place: Place,
    words: &[PreparedWord],
) -> Result<Value, Interruption>
    requires running { IsRunning tree.old place }
    ensures runs { ProceedsIn (ways O.goes O.loses) tree.old outside.old place
        (λ style. scripts.words (map seen_word words.now) []) tree.new outside.new result }
    ensures here { OnCompletion result (IsHere tree.old tree.new place) }
    ensures keeps { Keeps O.entries_left tree.old tree.new outside.old outside.new }
{
    let mut texts = Words::new(alloc);
    'words: for word in words {
        let text = on_ok(eval_word(tree, alloc, outside, place, word))?;
        spread(alloc, expands(word), text, &mut texts)?;
    }
    call_texts(tree, alloc, outside, place, texts.as_slice())
}

/// Whether a word is spread.
fn expands(word: &PreparedWord) -> bool
    ensures { result ≡ (seen_word word.now).expand }
{
    match word {
        PreparedWord::Spread(_) => true,
        PreparedWord::Literal(_) | PreparedWord::Name(_) => false,
        PreparedWord::Lone(_) | PreparedWord::Parts(_) => false,
    }
}
