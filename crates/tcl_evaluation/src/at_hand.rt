//! Calls of commands whose words are at hand: they aren't evaluated one by one.
ghost use Rattle.std.specs.Prelude.{◌≡◌, ◌∷◌, [], map, IfSome, IfNone};
ghost use Rattle.tcl_language.specs.Scripts as scripts;
ghost use Rattle.tcl_prepared.specs.Views.{literal_word, seen_word};
ghost use Rattle.tcl_run.specs.Ends.{IfRan, OnCompletion};
ghost use Rattle.tcl_run.specs.Runs.{IsHere, IsRunning, Keeps, ProceedsIn, ways};
ghost use Rattle.tcl_evaluation.specs.Sums.{CallsAtHand, CallsBuiltin, CallsBuiltinAtHand};
ghost use Rattle.tcl_evaluation.specs.Sums.{CallsNamed, CallsOnHand};

use crate::calls::call_plain_command;
use crate::commands::{call_builtin, call_command, call_procedure};
use crate::entry_changes::{call_entry_change_on_hand, entry_change_at_hand, may_change_entry};
use crate::expressions::if_first;
use crate::hands::{end_at_hand, is_plain, one_of};
use crate::sums::count_sum;
use std::alloc::Global;
use tcl_calls::lookup::{Callee, callee_named};
use tcl_prepared::prepared::PreparedWord;
use tcl_run::interruption::Interruption;
use tcl_run::outside::Outside;
use tcl_run::steps::charge;
use tcl_tree::builtin::Builtin;
use tcl_tree::command::Command;
use tcl_tree::tree::{Place, Tree};
use tcl_value::value::Value;

/// Makes a step and calls a built-in command.
///
/// # Errors
/// The stop 308; those of the command; want of memory.
#[cycle(eval)]
pub(crate) fn call_known<O: Outside>(
    tree: &mut Tree,
    alloc: Global,
    outside: &mut O,
    place: Place,
    builtin: Builtin,
    args: &[Value],
) -> Result<Value, Interruption>
    requires { IsRunning tree.old place }
    ensures runs { IfRan result (CallsBuiltin (ways O.goes O.loses) tree.old outside.old place
        builtin args.now tree.new outside.new) }
    ensures here { OnCompletion result (IsHere tree.old tree.new place) }
    ensures keeps { Keeps O.entries_left tree.old tree.new outside.old outside.new }
{
    if is_plain(builtin) {
        return call_plain_command(tree, alloc, outside, place, builtin, args);
    }
    charge(tree, outside, place)?;
    if let Builtin::If = builtin {
        return if_first(tree, alloc, outside, place, args);
    }
    call_builtin(tree, alloc, outside, place, builtin, args)
}

/// Makes a step and calls a command that a word names.
///
/// # Errors
/// The stop 308; those of the command; want of memory.
#[cycle(eval)]
pub(crate) fn call_named<O: Outside>(
    tree: &mut Tree,
    alloc: Global,
    outside: &mut O,
    place: Place,
    command: &Command,
    word: &Value,
    args: &[Value],
) -> Result<Value, Interruption>
    requires { IsRunning tree.old place }
    ensures runs { IfRan result (CallsNamed (ways O.goes O.loses) tree.old outside.old place
        command.now word.now args.now tree.new outside.new) }
    ensures here { OnCompletion result (IsHere tree.old tree.new place) }
    ensures keeps { Keeps O.entries_left tree.old tree.new outside.old outside.new }
{
    if let Command::Builtin(builtin) = command {
        return call_known(tree, alloc, outside, place, *builtin, args);
    }
    charge(tree, outside, place)?;
    if let Command::Procedure(procedure) = command {
        return call_procedure(tree, alloc, outside, place, procedure, word, args);
    }
    call_command(tree, alloc, outside, place, command, word, args)
}

/// Calls a built-in command whose words are at hand, one of which may be a sum that isn't counted
/// yet.
#[cycle(eval)]
fn call_known_on_hand<O: Outside>(
    tree: &mut Tree,
    alloc: Global,
    outside: &mut O,
    place: Place,
    builtin: Builtin,
    sums: bool,
    args: &[Value],
) -> Result<Value, Interruption>
    requires { IsRunning tree.old place }
    ensures runs { IfRan result (CallsBuiltinAtHand (ways O.goes O.loses) tree.old outside.old place
        builtin sums args.now tree.new outside.new) }
    ensures here { OnCompletion result (IsHere tree.old tree.new place) }
    ensures keeps { Keeps O.entries_left tree.old tree.new outside.old outside.new }
{
    if sums {
        count_sum(tree, alloc, outside, place)?;
        return call_known(tree, alloc, outside, place, builtin, args);
    }
    call_known(tree, alloc, outside, place, builtin, args)
}

/// The same of any command.
#[cycle(eval)]
fn call_named_on_hand<O: Outside>(
    tree: &mut Tree,
    alloc: Global,
    outside: &mut O,
    place: Place,
    command: &Command,
    word: &Value,
    sums: bool,
    args: &[Value],
) -> Result<Value, Interruption>
    requires { IsRunning tree.old place }
    ensures runs { IfRan result (CallsAtHand (ways O.goes O.loses) tree.old outside.old place
        command.now word.now sums args.now tree.new outside.new) }
    ensures here { OnCompletion result (IsHere tree.old tree.new place) }
    ensures keeps { Keeps O.entries_left tree.old tree.new outside.old outside.new }
{
    if sums {
        count_sum(tree, alloc, outside, place)?;
        return call_named(tree, alloc, outside, place, command, word, args);
    }
    call_named(tree, alloc, outside, place, command, word, args)
}

/// Calls the command that a literal names, where these are its other words, one of which may be a
/// sum that isn't counted yet. It is looked up once, before it is counted. Where it isn't found so,
/// nothing has happened.
#[cycle(eval)]
fn call_on_hand<O: Outside>(
    tree: &mut Tree,
    alloc: Global,
    outside: &mut O,
    place: Place,
    name: &Value,
    sums: bool,
    args: &[Value],
) -> Option<Result<Value, Interruption>>
    requires { IsRunning tree.old place }
    ensures runs { IfSome result (λ ended. IfRan ended (CallsOnHand (ways O.goes O.loses) tree.old
        outside.old place name.now sums args.now tree.new outside.new)) }
    ensures here { IfSome result (λ ended. OnCompletion ended (IsHere tree.old tree.new place)) }
    ensures keeps { Keeps O.entries_left tree.old tree.new outside.old outside.new }
    ensures unchanged { IfNone result ((tree.new ≡ tree.old) × (outside.new ≡ outside.old)) }
{
    name.keeps_limit();
    let callee = callee_named(tree, alloc, place, name)?;
    match callee {
        Callee::Builtin(builtin) => {
            Some(call_known_on_hand(tree, alloc, outside, place, builtin, sums, args))
        }
        Callee::Other(command) => {
            Some(call_named_on_hand(tree, alloc, outside, place, &command, name, sums, args))
        }
    }
}

/// Calls the command that a literal names with one other word, if that is at hand. Where it isn't,
/// nothing has happened.
#[cycle(eval)]
fn call_one_at_hand<O: Outside>(
    tree: &mut Tree,
    alloc: Global,
    outside: &mut O,
    place: Place,
    name: &Value,
    words: &[PreparedWord],
) -> Option<Result<Value, Interruption>>
    requires { IsRunning tree.old place }
    ensures runs { IfSome result (λ ended. ProceedsIn (ways O.goes O.loses) tree.old outside.old
        place (λ style. scripts.words (literal_word name.now ∷ map seen_word words.now) []) tree.new
        outside.new ended) }
    ensures here { IfSome result (λ ended. OnCompletion ended (IsHere tree.old tree.new place)) }
    ensures keeps { Keeps O.entries_left tree.old tree.new outside.old outside.new }
    ensures unchanged { IfNone result ((tree.new ≡ tree.old) × (outside.new ≡ outside.old)) }
{
    let [word] = words else {
        return None;
    };
    let (value, sums) = end_at_hand(tree, alloc, place, word)?;
    call_on_hand(tree, alloc, outside, place, name, sums, &[value])
}

/// The same of two other words, of which at most one is a sum.
#[cycle(eval)]
fn call_two_at_hand<O: Outside>(
    tree: &mut Tree,
    alloc: Global,
    outside: &mut O,
    place: Place,
    name: &Value,
    words: &[PreparedWord],
) -> Option<Result<Value, Interruption>>
    requires { IsRunning tree.old place }
    ensures runs { IfSome result (λ ended. ProceedsIn (ways O.goes O.loses) tree.old outside.old
        place (λ style. scripts.words (literal_word name.now ∷ map seen_word words.now) []) tree.new
        outside.new ended) }
    ensures here { IfSome result (λ ended. OnCompletion ended (IsHere tree.old tree.new place)) }
    ensures keeps { Keeps O.entries_left tree.old tree.new outside.old outside.new }
    ensures unchanged { IfNone result ((tree.new ≡ tree.old) × (outside.new ≡ outside.old)) }
{
    let [first, second] = words else {
        return None;
    };
    let (a, in_first) = end_at_hand(tree, alloc, place, first)?;
    let (b, in_second) = end_at_hand(tree, alloc, place, second)?;
    let sums = one_of(in_first, in_second)?;
    call_on_hand(tree, alloc, outside, place, name, sums, &[a, b])
}

/// The same of three other words.
#[cycle(eval)]
#[inline(never)]
fn call_three_words<O: Outside>(
    tree: &mut Tree,
    alloc: Global,
    outside: &mut O,
    place: Place,
    name: &Value,
    words: &[PreparedWord],
) -> Option<Result<Value, Interruption>>
    requires { IsRunning tree.old place }
    ensures runs { IfSome result (λ ended. ProceedsIn (ways O.goes O.loses) tree.old outside.old
        place (λ style. scripts.words (literal_word name.now ∷ map seen_word words.now) []) tree.new
        outside.new ended) }
    ensures here { IfSome result (λ ended. OnCompletion ended (IsHere tree.old tree.new place)) }
    ensures keeps { Keeps O.entries_left tree.old tree.new outside.old outside.new }
    ensures unchanged { IfNone result ((tree.new ≡ tree.old) × (outside.new ≡ outside.old)) }
{
    let [first, second, third] = words else {
        return None;
    };
    let (a, in_first) = end_at_hand(tree, alloc, place, first)?;
    let (b, in_second) = end_at_hand(tree, alloc, place, second)?;
    let (c, in_third) = end_at_hand(tree, alloc, place, third)?;
    let before = one_of(in_first, in_second)?;
    let sums = one_of(before, in_third)?;
    call_on_hand(tree, alloc, outside, place, name, sums, &[a, b, c])
}

/// The same of four other words.
#[cycle(eval)]
#[inline(never)]
fn call_four_words<O: Outside>(
    tree: &mut Tree,
    alloc: Global,
    outside: &mut O,
    place: Place,
    name: &Value,
    words: &[PreparedWord],
) -> Option<Result<Value, Interruption>>
    requires { IsRunning tree.old place }
    ensures runs { IfSome result (λ ended. ProceedsIn (ways O.goes O.loses) tree.old outside.old
        place (λ style. scripts.words (literal_word name.now ∷ map seen_word words.now) []) tree.new
        outside.new ended) }
    ensures here { IfSome result (λ ended. OnCompletion ended (IsHere tree.old tree.new place)) }
    ensures keeps { Keeps O.entries_left tree.old tree.new outside.old outside.new }
    ensures unchanged { IfNone result ((tree.new ≡ tree.old) × (outside.new ≡ outside.old)) }
{
    let [first, second, third, fourth] = words else {
        return None;
    };
    let (a, in_first) = end_at_hand(tree, alloc, place, first)?;
    let (b, in_second) = end_at_hand(tree, alloc, place, second)?;
    let (c, in_third) = end_at_hand(tree, alloc, place, third)?;
    let (d, in_fourth) = end_at_hand(tree, alloc, place, fourth)?;
    let before = one_of(in_first, in_second)?;
    let behind = one_of(in_third, in_fourth)?;
    let sums = one_of(before, behind)?;
    call_on_hand(tree, alloc, outside, place, name, sums, &[a, b, c, d])
}

/// Calls the command that a literal names with three or four other words, if those are at hand. One
/// that changes an entry of what a variable holds does so at once.
#[cycle(eval)]
#[inline(never)]
fn change_entry_or_call<O: Outside>(
    tree: &mut Tree,
    alloc: Global,
    outside: &mut O,
    place: Place,
    name: &Value,
    words: &[PreparedWord],
) -> Option<Result<Value, Interruption>>
    requires { IsRunning tree.old place }
    ensures runs { IfSome result (λ ended. ProceedsIn (ways O.goes O.loses) tree.old outside.old
        place (λ style. scripts.words (literal_word name.now ∷ map seen_word words.now) []) tree.new
        outside.new ended) }
    ensures here { IfSome result (λ ended. OnCompletion ended (IsHere tree.old tree.new place)) }
    ensures keeps { Keeps O.entries_left tree.old tree.new outside.old outside.new }
    ensures unchanged { IfNone result ((tree.new ≡ tree.old) × (outside.new ≡ outside.old)) }
{
    name.keeps_limit();
    match entry_change_at_hand(tree, alloc, place, name, words) {
        Some((variable, change, sums)) => {
            Some(call_entry_change_on_hand(tree, alloc, outside, place, variable, change, sums))
        }
        None => match words {
            [_, _, _] => call_three_words(tree, alloc, outside, place, name, words),
            [_, _, _, _] => call_four_words(tree, alloc, outside, place, name, words),
            _ => None,
        },
    }
}

/// The same of three other words, where a look tells whether an entry may be changed.
#[cycle(eval)]
#[inline(never)]
fn call_three_at_hand<O: Outside>(
    tree: &mut Tree,
    alloc: Global,
    outside: &mut O,
    place: Place,
    name: &Value,
    words: &[PreparedWord],
) -> Option<Result<Value, Interruption>>
    requires { IsRunning tree.old place }
    ensures runs { IfSome result (λ ended. ProceedsIn (ways O.goes O.loses) tree.old outside.old
        place (λ style. scripts.words (literal_word name.now ∷ map seen_word words.now) []) tree.new
        outside.new ended) }
    ensures here { IfSome result (λ ended. OnCompletion ended (IsHere tree.old tree.new place)) }
    ensures keeps { Keeps O.entries_left tree.old tree.new outside.old outside.new }
    ensures unchanged { IfNone result ((tree.new ≡ tree.old) × (outside.new ≡ outside.old)) }
{
    if may_change_entry(words) {
        return change_entry_or_call(tree, alloc, outside, place, name, words);
    }
    call_three_words(tree, alloc, outside, place, name, words)
}

/// The same of four other words.
#[cycle(eval)]
#[inline(never)]
fn call_four_at_hand<O: Outside>(
    tree: &mut Tree,
    alloc: Global,
    outside: &mut O,
    place: Place,
    name: &Value,
    words: &[PreparedWord],
) -> Option<Result<Value, Interruption>>
    requires { IsRunning tree.old place }
    ensures runs { IfSome result (λ ended. ProceedsIn (ways O.goes O.loses) tree.old outside.old
        place (λ style. scripts.words (literal_word name.now ∷ map seen_word words.now) []) tree.new
        outside.new ended) }
    ensures here { IfSome result (λ ended. OnCompletion ended (IsHere tree.old tree.new place)) }
    ensures keeps { Keeps O.entries_left tree.old tree.new outside.old outside.new }
    ensures unchanged { IfNone result ((tree.new ≡ tree.old) × (outside.new ≡ outside.old)) }
{
    if may_change_entry(words) {
        return change_entry_or_call(tree, alloc, outside, place, name, words);
    }
    call_four_words(tree, alloc, outside, place, name, words)
}

/// Calls a command whose words are at hand: a literal names it, and the others are literals or
/// variables of the current frame, or one is a sum. It is looked up once, before it is counted.
/// Where it isn't found so, nothing has happened.
///
/// # Errors
/// The stop 308, and the error 308 of a sum; those of the command; want of memory.
#[cycle(eval)]
pub(crate) fn call_at_hand<O: Outside>(
    tree: &mut Tree,
    alloc: Global,
    outside: &mut O,
    place: Place,
    words: &[PreparedWord],
) -> Option<Result<Value, Interruption>>
    requires { IsRunning tree.old place }
    ensures runs { IfSome result (λ ended. ProceedsIn (ways O.goes O.loses) tree.old outside.old
        place (λ style. scripts.words (map seen_word words.now) []) tree.new outside.new ended) }
    ensures here { IfSome result (λ ended. OnCompletion ended (IsHere tree.old tree.new place)) }
    ensures keeps { Keeps O.entries_left tree.old tree.new outside.old outside.new }
    ensures unchanged { IfNone result ((tree.new ≡ tree.old) × (outside.new ≡ outside.old)) }
{
    let [first, rest @ ..] = words else {
        return None;
    };
    let PreparedWord::Literal(name) = first else {
        return None;
    };
    match rest {
        [_] => call_one_at_hand(tree, alloc, outside, place, name, rest),
        [_, _] => call_two_at_hand(tree, alloc, outside, place, name, rest),
        [_, _, _] => call_three_at_hand(tree, alloc, outside, place, name, rest),
        [_, _, _, _] => call_four_at_hand(tree, alloc, outside, place, name, rest),
        _ => None,
    }
}
