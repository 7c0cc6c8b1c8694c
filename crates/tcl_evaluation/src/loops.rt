//! The loops over lists and dicts, and scripts at another level.
ghost use Rattle.std.specs.Prelude.{◌≡◌, MatchOption};
ghost use Rattle.tcl_calls.specs.Walks.{walks_at};
ghost use Rattle.tcl_language.specs.Control as control;
ghost use Rattle.tcl_language.specs.Changes as changes;
ghost use Rattle.tcl_language.specs.Pairing as pairing;
ghost use Rattle.tcl_run.specs.Ends.{OnCompletion};
ghost use Rattle.tcl_run.specs.Runs.{IsHere, IsRunning, Keeps, ProceedsIn, ways};
ghost use Rattle.tcl_text.specs.declared.integer.Integers.{Integers};

use crate::evaluation::{eval_read, eval_value};
use std::alloc::Global;
use tcl_calls::levels::{bring_back, script_level, set_aside};
use tcl_calls::scripts::script_of;
use tcl_calls::turns::goes_on;
use tcl_calls::walks::{FOREACH, Walk, is_over, loop_words, read_dict_loop, read_walks, set_walks};
use tcl_commands::dicts;
use tcl_run::failure::wrong_args;
use tcl_run::interruption::Interruption;
use tcl_run::outside::Outside;
use tcl_run::steps::charge;
use tcl_tree::tree::{Place, Tree};
use tcl_value::value::Value;

/// The turns of a loop over lists, from the first: a counted turn for each of the lists' elements,
/// or as many of them as there are variables.
///
/// # Errors
/// 232, 233 and 238 of the variables; the stop 308; those of the body but for `break` and
/// `continue`; want of memory.
#[cycle(eval)]
#[inline(never)]
fn walk_through<O: Outside>(
    tree: &mut Tree,
    alloc: Global,
    outside: &mut O,
    place: Place,
    walks: &[Walk],
    body: &Value,
) -> Result<Value, Interruption>
    requires { IsRunning tree.old place }
    ensures runs { ProceedsIn (ways O.goes O.loses) tree.old outside.old place
        (λ style. control.foreach_turns (walks_at 0 walks.now) body.now) tree.new outside.new
        result }
    ensures here { OnCompletion result (IsHere tree.old tree.new place) }
    ensures keeps { Keeps O.entries_left tree.old tree.new outside.old outside.new }
{
    let script = tree.script_of(alloc, body)?;
    'turns: for turns in 0..usize::MAX {
        if is_over(walks, turns) {
            return Ok(Value::empty());
        }
        charge(tree, outside, place)?;
        set_walks(tree, alloc, place, walks, turns)?;
        if !goes_on(eval_read(tree, alloc, outside, place, body, &script))? {
            return Ok(Value::empty());
        }
    }
    Err(Interruption::Memory)
}

/// `foreach varList list ?varList list ...? command`: the body runs once for each of the lists'
/// elements, or as many of them as there are variables. (foreach(n))
///
/// # Errors
/// 241; 101 to 104 of the lists; 232, 233 and 238 of the variables; the stop 308; those of the body
/// but for `break` and `continue`; want of memory.
#[cycle(eval)]
#[inline(never)]
pub fn foreach<O: Outside>(
    tree: &mut Tree,
    alloc: Global,
    outside: &mut O,
    place: Place,
    args: &[Value],
) -> Result<Value, Interruption>
    requires { IsRunning tree.old place }
    ensures runs { ProceedsIn (ways O.goes O.loses) tree.old outside.old place
        (λ style. control.foreach args.now) tree.new outside.new result }
    ensures here { OnCompletion result (IsHere tree.old tree.new place) }
    ensures keeps { Keeps O.entries_left tree.old tree.new outside.old outside.new }
{
    let Some((words, body)) = loop_words(args) else {
        return Err(wrong_args(alloc, FOREACH));
    };
    let walks = read_walks(alloc, FOREACH, words)?;
    walk_through(tree, alloc, outside, place, walks.as_slice(), body)
}

/// `dict for {keyVar valueVar} dictionary body`: the body runs once for each key. (dict(n))
///
/// # Errors
/// 241; 101 to 104 of the names; 101 to 104 and 121 of the dict; 232, 233 and 238 of the variables;
/// the stop 308; those of the body but for `break` and `continue`; want of memory.
#[cycle(eval)]
#[inline(never)]
fn dict_for<O: Outside>(
    tree: &mut Tree,
    alloc: Global,
    outside: &mut O,
    place: Place,
    args: &[Value],
) -> Result<Value, Interruption>
    requires { IsRunning tree.old place }
    ensures runs { ProceedsIn (ways O.goes O.loses) tree.old outside.old place
        (λ style. pairing.dict_for args.now) tree.new outside.new result }
    ensures here { OnCompletion result (IsHere tree.old tree.new place) }
    ensures keeps { Keeps O.entries_left tree.old tree.new outside.old outside.new }
{
    let (walks, body) = read_dict_loop(alloc, args)?;
    walk_through(tree, alloc, outside, place, walks.as_slice(), body)
}

/// `dict subcommand ?arg ...?`: what a subcommand makes of dicts, keys and values, or does with
/// them. (dict(n))
///
/// # Errors
/// 241; 244 of the subcommand; those of the subcommand; want of memory.
#[cycle(eval)]
#[inline(never)]
pub fn dict<O: Outside>(
    tree: &mut Tree,
    alloc: Global,
    outside: &mut O,
    place: Place,
    args: &[Value],
) -> Result<Value, Interruption>
    requires { IsRunning tree.old place }
    ensures runs { ProceedsIn (ways O.goes O.loses) tree.old outside.old place
        (λ style. pairing.dict style args.now) tree.new outside.new result }
    ensures here { OnCompletion result (IsHere tree.old tree.new place) }
    ensures keeps { Keeps O.entries_left tree.old tree.new outside.old outside.new }
{
    match behind_for(args) {
        Some(words) => dict_for(tree, alloc, outside, place, words),
        None => dicts::dict(tree, alloc, place, args),
    }
}

/// The words behind `for`, where that is the first.
fn behind_for(args: &[Value]) -> Option<&[Value]>
    ensures { MatchOption result
        ((style : Integers) → pairing.dict style args.now ≡ changes.dict style args.now)
        (λ words. (style : Integers) → pairing.dict style args.now ≡ pairing.dict_for words.now) }
{
    let [word, words @ ..] = args else {
        return None;
    };
    if word.is_text(b"for") {
        return Some(words);
    }
    None
}

/// `uplevel ?level? arg ?arg ...?`: evaluates a script at another level of the frames. (uplevel(n))
///
/// # Errors
/// 241; 235 of the level; 122 of the script; those of the script; want of memory.
#[cycle(eval)]
#[inline(never)]
pub fn uplevel<O: Outside>(
    tree: &mut Tree,
    alloc: Global,
    outside: &mut O,
    place: Place,
    args: &[Value],
) -> Result<Value, Interruption>
    requires { IsRunning tree.old place }
    ensures runs { ProceedsIn (ways O.goes O.loses) tree.old outside.old place
        (λ style. control.uplevel style args.now) tree.new outside.new result }
    ensures here { OnCompletion result (IsHere tree.old tree.new place) }
    ensures keeps { Keeps O.entries_left tree.old tree.new outside.old outside.new }
{
    let (level, words) = script_level(tree, alloc, place, args)?;
    let script = script_of(alloc, words)?;
    set_aside(tree, alloc, place, level)?;
    let ended = eval_value(tree, alloc, outside, place, &script);
    bring_back(tree, place);
    ended
}
