//! Evaluations that others ask for: by an alias, by `interp`, or from outside of the tree.
ghost use Rattle.std.specs.Prelude.{◌≡◌, ◌≤◌, Some, None, Err};
ghost use Rattle.tcl_core.specs.Endings.Reply.{Completed};
ghost use Rattle.tcl_core.specs.Entries.Entry.{Eval, CallWords, InvokeHidden};
ghost use Rattle.tcl_core.specs.Paths.{Path, rise_to};
ghost use Rattle.tcl_language.specs.Faults as faults;
ghost use Rattle.tcl_language.specs.Interpreters.{call_alias as alias_program};
ghost use Rattle.tcl_language.specs.Table as table;
ghost use Rattle.tcl_run.specs.Ends.{IfEnded, Interrupts, OnCompletion, failing};
ghost use Rattle.tcl_run.specs.Entering.{whole_entry};
ghost use Rattle.tcl_run.specs.Runs.{IsHeld, IsHere, IsLoss, IsRunning, Keeps, ProceedsAt};
ghost use Rattle.tcl_run.specs.Runs.{ProceedsIn, ways};
ghost use Rattle.tcl_tree.specs.Reaching.{Leads};
ghost use Rattle.tcl_tree.specs.TreeOf.{Names};
ghost use Rattle.tcl_tree.specs.declared.tree.places.Reach.TheVariants.{There};
ghost use Rattle.tcl_calls.specs.Carrying.{EndedBy};
ghost use Rattle.tcl_evaluation.specs.View.{Asks, AsksBelow, targeted, unhidden};
ghost use Rattle.tcl_evaluation.specs.Waiting.{CallsOut, CallsThere, FindsNobody};

use crate::commands::{call, call_hidden};
use crate::evaluation::eval_value;
use crate::waiting::{Said, wait};
use std::alloc::Global;
use tcl_calls::carrying::{return_to_caller, settled, some_words};
use tcl_calls::levels::{bring_back, set_aside};
use tcl_calls::serving::serve;
use tcl_run::entry::Entry;
use tcl_run::failure::{denied, lost_alias, no_interpreter, too_deep};
use tcl_run::interruption::Interruption;
use tcl_run::outside::{Happening, Outside};
use tcl_run::steps::charge;
use tcl_text::text::Text;
use tcl_tree::alias::Alias;
use tcl_tree::tree::places::Reach;
use tcl_tree::tree::{Place, Tree};
use tcl_value::value::Value;

/// Calls the command that an alias leads to, with the alias' own words first. Its code passes
/// unchanged.
#[cycle(eval)]
#[inline(never)]
pub fn call_alias<O: Outside>(
    tree: &mut Tree,
    alloc: Global,
    outside: &mut O,
    place: Place,
    alias: &Alias,
    word: &Value,
    args: &[Value],
) -> Result<Value, Interruption>
    requires { IsRunning tree.old place }
    ensures runs { ProceedsIn (ways O.goes O.loses) tree.old outside.old place
        (λ style. alias_program alias.now word.now args.now) tree.new outside.new result }
    ensures here { OnCompletion result (IsHere tree.old tree.new place) }
    ensures keeps { Keeps O.entries_left tree.old tree.new outside.old outside.new }
{
    let entry = Entry::of_alias(alloc, alias.words(), args)?;
    let up = alias.up();
    let down = alias.down();
    match tree.reach(place, up, down) {
        Reach::There(target) => { call_there(tree, alloc, outside, place, up, down, target, entry) }
        Reach::Missing => miss_alias(tree, alloc, outside, place, up, down, entry, word),
        Reach::Outside => call_past_top(tree, alloc, outside, place, up, down, entry, word),
    }
}

/// The error of an alias, which was called by this word, whose target isn't there.
fn lost_call(alloc: Global, word: &Value) -> Interruption
    ensures { Interrupts result (λ e. e ≡ Completed (failing (faults.lost_alias word.now))) }
{
    match word.text(alloc) {
        Ok(text) => lost_alias(alloc, text.as_str()),
        Err(_) => Interruption::Memory,
    }
}

/// An alias whose target isn't there.
#[inline(never)]
#[tactic(auto, using(tcl_run::proofs::Losing::losing))]
fn miss_alias<O: Outside>(
    tree: &Tree,
    alloc: Global,
    outside: &mut O,
    place: Place,
    up: usize,
    down: &[Text],
    entry: Entry,
    word: &Value,
) -> Result<Value, Interruption>
    ensures told { IfEnded result (λ r. r ≡ Completed (failing (faults.lost_alias word.now))) }
    ensures misses { FindsNobody O.goes tree.now outside.old place up down.now
        (whole_entry entry) outside.new
        result }
    ensures lost { IsLoss O.loses outside.old outside.new }
    ensures left { O.entries_left outside.new ≤ O.entries_left outside.old }
{
    let lost = lost_call(alloc, word);
    find_nobody(tree, alloc, outside, place, up, down, entry, lost)
}

/// Tells the outside of a call that finds nobody, so many levels up and these names down from the
/// caller, and ends it so.
#[inline(never)]
#[tactic(auto, using(tcl_run::proofs::Losing::losing))]
fn find_nobody<O: Outside>(
    tree: &Tree,
    alloc: Global,
    outside: &mut O,
    caller: Place,
    up: usize,
    down: &[Text],
    entry: Entry,
    lost: Interruption,
) -> Result<Value, Interruption>
    ensures told { IfEnded result (EndedBy (Err lost)) }
    ensures misses { FindsNobody O.goes tree.now outside.old caller up down.now
        (whole_entry entry) outside.new
        result }
    ensures lost { IsLoss O.loses outside.old outside.new }
    ensures left { O.entries_left outside.new ≤ O.entries_left outside.old }
{
    let told = Err(lost);
    let happening = Happening::Missed {
        caller,
        up,
        down,
        entry: &entry,
        told: &told,
    };
    outside.notify(alloc, tree, happening)?;
    told
}

/// Calls the interpreter so many levels up and these names down from the caller, which is the
/// target. The outside is told of it.
#[cycle(eval)]
#[inline(never)]
fn call_there<O: Outside>(
    tree: &mut Tree,
    alloc: Global,
    outside: &mut O,
    caller: Place,
    up: usize,
    down: &[Text],
    target: Place,
    entry: Entry,
) -> Result<Value, Interruption>
    requires running { IsRunning tree.old caller }
    requires leads { (p : Path) → Names tree.old caller p →
        Leads tree.old p up down.now (There target) }
    ensures runs { CallsThere (ways O.goes O.loses) tree.old outside.old caller up down.now
        (whole_entry entry)
        tree.new outside.new result }
    ensures here { OnCompletion result (IsHere tree.old tree.new caller) }
    ensures keeps { Keeps O.entries_left tree.old tree.new outside.old outside.new }
{
    let happening = Happening::Entered {
        caller,
        up,
        down,
        entry: &entry,
    };
    outside.notify(alloc, tree, happening)?;
    let ended = serve_entry(tree, alloc, outside, target, entry);
    return_to_caller(tree, alloc, outside, caller, up, down, ended)
}

/// Calls an interpreter above the tree, or below one that is, for an alias that was called by this
/// word, and waits for its answer.
#[cycle(eval)]
#[inline(never)]
fn call_past_top<O: Outside>(
    tree: &mut Tree,
    alloc: Global,
    outside: &mut O,
    caller: Place,
    up: usize,
    down: &[Text],
    entry: Entry,
    word: &Value,
) -> Result<Value, Interruption>
    requires running { IsRunning tree.old caller }
    requires above { (p : Path) → Names tree.old caller p → rise_to (Some up) p ≡ None }
    ensures runs { CallsOut (ways O.goes O.loses) tree.old outside.old caller (Some up) down.now
        (whole_entry entry) (failing (faults.lost_alias word.now)) tree.new outside.new result }
    ensures here { OnCompletion result (IsHere tree.old tree.new caller) }
    ensures keeps { Keeps O.entries_left tree.old tree.new outside.old outside.new }
{
    let happening = Happening::PassedTop {
        caller,
        up: Some(up),
        down,
        entry: &entry,
    };
    outside.notify(alloc, tree, happening)?;
    match wait(tree, alloc, outside, caller, Some(up), &entry)? {
        Said::Completed(value) => Ok(value),
        Said::Missed => Err(lost_call(alloc, word)),
        Said::Heard(_) => unreachable!(),
    }
}

/// Does what the interpreter that the place names is asked for, by another one or from outside of
/// the tree.
///
/// # Errors
/// Those of each entry; want of memory.
#[cycle(eval)]
#[inline(never)]
pub fn serve_entry<O: Outside>(
    tree: &mut Tree,
    alloc: Global,
    outside: &mut O,
    place: Place,
    entry: Entry,
) -> Result<Value, Interruption>
    requires { (p : Path) × Names tree.old place p }
    ensures runs { ProceedsAt (ways O.goes O.loses) tree.old outside.old place
        (λ style. table.serve style (whole_entry entry)) tree.new outside.new result }
    ensures here { OnCompletion result (IsHere tree.old tree.new place) }
    ensures keeps { Keeps O.entries_left tree.old tree.new outside.old outside.new }
{
    match entry {
        Entry::Eval(script) => serve_eval(tree, alloc, outside, place, &script),
        Entry::CallWords(words) => serve_call(tree, alloc, outside, place, words),
        Entry::InvokeHidden { is_global, words } => {
            serve_hidden(tree, alloc, outside, place, is_global, words)
        }
        Entry::Own(own) => serve(tree, alloc, outside, place, &own),
        Entry::AskHost(_) => Err(denied(alloc)),
    }
}

/// Calls a command for a caller elsewhere: it is counted here, and runs one level deeper.
#[cycle(eval)]
#[inline(never)]
pub fn serve_call<O: Outside>(
    tree: &mut Tree,
    alloc: Global,
    outside: &mut O,
    place: Place,
    words: Vec<Value>,
) -> Result<Value, Interruption>
    requires { (p : Path) × Names tree.old place p }
    ensures runs { ProceedsAt (ways O.goes O.loses) tree.old outside.old place
        (λ style. table.serve style (CallWords words.items)) tree.new outside.new result }
    ensures here { OnCompletion result (IsHere tree.old tree.new place) }
    ensures keeps { Keeps O.entries_left tree.old tree.new outside.old outside.new }
{
    let words = some_words(words)?;
    charge(tree, outside, place)?;
    call_target(tree, alloc, outside, place, words.as_slice())
}

/// Calls a command one level deeper.
#[cycle(eval)]
#[inline(never)]
fn call_target<O: Outside>(
    tree: &mut Tree,
    alloc: Global,
    outside: &mut O,
    place: Place,
    words: &[Value],
) -> Result<Value, Interruption>
    requires { (p : Path) × Names tree.old place p }
    ensures runs { ProceedsAt (ways O.goes O.loses) tree.old outside.old place
        (λ style. targeted words.now) tree.new outside.new result }
    ensures here { OnCompletion result (IsHere tree.old tree.new place) }
    ensures keeps { Keeps O.entries_left tree.old tree.new outside.old outside.new }
{
    tree.keeps_form();
    if let Err(levels) = tree.nest_at(place) {
        return Err(too_deep(alloc, levels));
    }
    let ended = call(tree, alloc, outside, place, words);
    tree.unnest(place);
    ended
}

/// Evaluates a script for a caller elsewhere. Only an ordinary result and an error pass.
#[cycle(eval)]
#[inline(never)]
pub fn serve_eval<O: Outside>(
    tree: &mut Tree,
    alloc: Global,
    outside: &mut O,
    place: Place,
    script: &Value,
) -> Result<Value, Interruption>
    requires { (p : Path) × Names tree.old place p }
    ensures runs { ProceedsAt (ways O.goes O.loses) tree.old outside.old place
        (λ style. table.serve style (Eval script.now)) tree.new outside.new result }
    ensures held { (p : Path) → Names tree.old place p → IsHeld tree.old tree.new p }
    ensures here { OnCompletion result (IsHere tree.old tree.new place) }
    ensures keeps { Keeps O.entries_left tree.old tree.new outside.old outside.new }
{
    let ended = eval_value(tree, alloc, outside, place, script);
    settled(alloc, ended)
}

/// Calls a hidden command for a caller elsewhere: it is counted here, and runs one level deeper, at
/// level 0 where that is asked for. Only an ordinary result and an error pass.
#[cycle(eval)]
#[inline(never)]
pub fn serve_hidden<O: Outside>(
    tree: &mut Tree,
    alloc: Global,
    outside: &mut O,
    place: Place,
    is_global: bool,
    words: Vec<Value>,
) -> Result<Value, Interruption>
    requires { (p : Path) × Names tree.old place p }
    ensures runs { ProceedsAt (ways O.goes O.loses) tree.old outside.old place
        (λ style. table.serve style (InvokeHidden is_global words.items)) tree.new outside.new
        result }
    ensures here { OnCompletion result (IsHere tree.old tree.new place) }
    ensures keeps { Keeps O.entries_left tree.old tree.new outside.old outside.new }
{
    let words = some_words(words)?;
    charge(tree, outside, place)?;
    let ended = invoke(tree, alloc, outside, place, is_global, words.as_slice());
    settled(alloc, ended)
}

/// Calls a hidden command one level deeper, at level 0 where that is asked for.
#[cycle(eval)]
#[inline(never)]
fn invoke<O: Outside>(
    tree: &mut Tree,
    alloc: Global,
    outside: &mut O,
    place: Place,
    is_global: bool,
    words: &[Value],
) -> Result<Value, Interruption>
    requires { (p : Path) × Names tree.old place p }
    ensures runs { ProceedsAt (ways O.goes O.loses) tree.old outside.old place
        (λ style. unhidden is_global words.now) tree.new outside.new result }
    ensures here { OnCompletion result (IsHere tree.old tree.new place) }
    ensures keeps { Keeps O.entries_left tree.old tree.new outside.old outside.new }
{
    tree.keeps_form();
    if let Err(levels) = tree.nest_at(place) {
        return Err(too_deep(alloc, levels));
    }
    let ended = invoke_at(tree, alloc, outside, place, is_global, words);
    tree.unnest(place);
    ended
}

/// Calls a hidden command, at level 0 where that is asked for.
#[cycle(eval)]
#[inline(never)]
fn invoke_at<O: Outside>(
    tree: &mut Tree,
    alloc: Global,
    outside: &mut O,
    place: Place,
    is_global: bool,
    words: &[Value],
) -> Result<Value, Interruption>
    requires { IsRunning tree.old place }
    ensures runs { ProceedsIn (ways O.goes O.loses) tree.old outside.old place
        (λ style. table.hidden_at style is_global words.now) tree.new outside.new result }
    ensures here { OnCompletion result (IsHere tree.old tree.new place) }
    ensures keeps { Keeps O.entries_left tree.old tree.new outside.old outside.new }
{
    if !is_global {
        return call_hidden(tree, alloc, outside, place, words);
    }
    set_aside(tree, alloc, place, 0)?;
    let ended = call_hidden(tree, alloc, outside, place, words);
    bring_back(tree, place);
    ended
}

/// Asks the interpreter at a path, which begins at the one that the place names.
#[cycle(eval)]
#[inline(never)]
pub fn ask_entry<O: Outside>(
    tree: &mut Tree,
    alloc: Global,
    outside: &mut O,
    place: Place,
    path: &[Text],
    entry: Entry,
) -> Result<Value, Interruption>
    requires { IsRunning tree.old place }
    ensures asks { Asks (ways O.goes O.loses) tree.old outside.old place path.now
        (whole_entry entry) tree.new
        outside.new result }
    ensures here { OnCompletion result (IsHere tree.old tree.new place) }
    ensures keeps { Keeps O.entries_left tree.old tree.new outside.old outside.new }
{
    if path.is_empty() {
        return serve_entry(tree, alloc, outside, place, entry);
    }
    ask_below(tree, alloc, outside, place, path, entry)
}

/// Asks an interpreter below the one that the place names. The outside is told of it.
#[cycle(eval)]
#[inline(never)]
fn ask_below<O: Outside>(
    tree: &mut Tree,
    alloc: Global,
    outside: &mut O,
    place: Place,
    path: &[Text],
    entry: Entry,
) -> Result<Value, Interruption>
    requires { IsRunning tree.old place }
    ensures asks { AsksBelow (ways O.goes O.loses) tree.old outside.old place path.now
        (whole_entry entry)
        tree.new outside.new result }
    ensures here { OnCompletion result (IsHere tree.old tree.new place) }
    ensures keeps { Keeps O.entries_left tree.old tree.new outside.old outside.new }
{
    match tree.reach(place, 0, path) {
        Reach::There(target) => { call_there(tree, alloc, outside, place, 0, path, target, entry) }
        Reach::Missing => {
            let lost = no_interpreter(alloc, "");
            find_nobody(tree, alloc, outside, place, 0, path, entry, lost)
        }
        Reach::Outside => unreachable!(),
    }
}
