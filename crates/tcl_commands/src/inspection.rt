//! `info`, which tells of the interpreter that asks.
ghost use Rattle.std.specs.Prelude.{◌≡◌, ◌<◌, ◌^◌, codes, IfOk, IfSome, Some};
ghost use Rattle.std.specs.Option.{option_copied};
ghost use Rattle.std.specs.Fmt.{decimal};
ghost use Rattle.tcl_core.specs.Endings as core;
ghost use Rattle.tcl_core.specs.Endings.Reply.{Completed};
ghost use Rattle.tcl_core.specs.Paths.{Path};
ghost use Rattle.tcl_core.specs.Trees as trees;
ghost use Rattle.tcl_frames.specs.Places.{current};
ghost use Rattle.tcl_language.specs.Inspection as inspection;
ghost use Rattle.tcl_language.specs.Instructions.{either, fits, look};
ghost use Rattle.tcl_language.specs.Instructions as language;
ghost use Rattle.tcl_run.specs.Ends.{IfEnded};
ghost use Rattle.tcl_run.specs.Plain.{Acts};
ghost use Rattle.tcl_run.specs.Runs.{IsLevel};
ghost use Rattle.tcl_text.specs.Writing.{written_list};
ghost use Rattle.tcl_tree.specs.Own.{Own};
ghost use Rattle.tcl_tree.specs.TreeOf.{tree_of, Names};
ghost use Rattle.tcl_commands.specs.Calls.{words_numbered};

use crate::answers::answered;
use crate::procedures;
use crate::steps::{frames_seen, word_integer};
use std::alloc::{AllocError, Global};
use tcl_frames::frames::Frames;
use tcl_frames::scope::Scope;
use tcl_glob::matches;
use tcl_lists::commands;
use tcl_run::failure::{bad_level, refused, too_long, wrong_args};
use tcl_run::interruption::Interruption;
use tcl_run::steps::frame_failure;
use tcl_text::list::write_list;
use tcl_text::text::Text;
use tcl_tree::tree::{Place, Tree};
use tcl_value::value::Value;

/// A number as a value.
pub(crate) fn number_value(alloc: Global, n: u64) -> Result<Value, AllocError>
    ensures { IfOk result (λ value. value ≡ decimal n) }
{
    let text = format!(in alloc; "{n}")?;
    Ok(Value::from_short_text(Text::from_string(alloc, text)?))
}

/// How many steps were counted in the interpreter that the place names.
fn steps_counted(tree: &Tree, place: Place) -> u64
    requires { (p : Path) × Names tree.now place p }
    ensures { (p : Path) (n : trees.Node Own) → Names tree.now place p →
        tree_of tree.now p ≡ Some n → result ≡ n.count }
{
    match tree.node_at(place) {
        Some(node) => node.state.count,
        None => unreachable!(),
    }
}

/// `info cmdcount`: how many steps were counted.
fn cmdcount(tree: &Tree, alloc: Global, place: Place, args: &[Value]) -> Result<Value, Interruption>
    requires { (p : Path) × Names tree.now place p }
    ensures { Acts tree.now place (λ style. inspection.cmdcount args.now) tree.now result }
{
    match args {
        [] => Ok(number_value(alloc, steps_counted(tree, place))?),
        _ => Err(wrong_args(alloc, "info cmdcount")),
    }
}

/// A truth as a value.
pub(crate) fn truth_value(truth: bool) -> Value
    ensures { result ≡ either truth (codes "1") (codes "0") }
{
    if truth {
        return Value::from_int(1);
    }
    Value::from_int(0)
}

/// `info exists varName`: whether a variable holds a value.
fn exists(tree: &Tree, alloc: Global, place: Place, args: &[Value]) -> Result<Value, Interruption>
    requires { (p : Path) × Names tree.now place p }
    ensures { Acts tree.now place (λ style. inspection.exists args.now) tree.now result }
{
    match args {
        [name] => {
            let name = name.text(alloc)?;
            match frames_seen(tree, place).exists(&name) {
                Ok(held) => Ok(truth_value(held)),
                Err(error) => Err(frame_failure(alloc, error)),
            }
        }
        _ => Err(wrong_args(alloc, "info exists varName")),
    }
}

/// The names that have the form of a pattern.
fn matching(alloc: Global, pattern: &str, names: &[Text]) -> Result<Vec<Text>, AllocError>
    ensures { IfOk result (λ kept. kept.items ≡ inspection.matching pattern.now names.now) }
{
    let mut kept = Vec::new(alloc);
    'names: for name in names {
        if matches(pattern, name.as_str(), false) {
            kept.push(name.clone()?)?;
        }
    }
    Ok(kept)
}

/// These texts as values, where each of them is short enough for one.
fn values_of(alloc: Global, texts: &[Text]) -> Result<Option<Vec<Value>>, AllocError>
    ensures { IfOk result (λ made. IfSome made (λ values. values.items ≡ texts.now)) }
{
    let mut values = Vec::with_capacity(alloc, texts.len())?;
    'texts: for text in texts {
        let Ok(value) = Value::from_text(text.clone()?) else {
            return Ok(None);
        };
        values.push(value)?;
    }
    Ok(Some(values))
}

/// The list of texts as a value that is written.
fn written_value(alloc: Global, texts: &[Text]) -> Result<Value, Interruption>
    ensures { IfEnded result (λ r. r
        ≡ Completed (either (fits (written_list texts.now)) (core.ok (written_list texts.now))
        language.too_long)) }
{
    let text = Text::from_string(alloc, write_list(alloc, texts)?)?;
    match Value::from_text(text) {
        Ok(value) => Ok(value),
        Err(_) => Err(too_long(alloc)),
    }
}

/// The list of these values as a value that is a list, so that it isn't read again.
fn made_value(alloc: Global, values: &[Value]) -> Result<Value, Interruption>
    ensures { IfEnded result (λ r. r
        ≡ Completed (either (fits (written_list values.now)) (core.ok (written_list values.now))
        language.too_long)) }
{
    match commands::list(alloc, values) {
        Ok(value) => Ok(value),
        Err(refusal) => Err(refused(alloc, refusal)),
    }
}

/// The list of texts as a value.
pub(crate) fn list_value(alloc: Global, texts: &[Text]) -> Result<Value, Interruption>
    ensures { IfEnded result (λ r. r
        ≡ Completed (either (fits (written_list texts.now)) (core.ok (written_list texts.now))
        language.too_long)) }
{
    match values_of(alloc, texts)? {
        Some(values) => made_value(alloc, values.as_slice()),
        None => written_value(alloc, texts),
    }
}

/// `info vars ?pattern?`, `info globals ?pattern?` and `info locals ?pattern?`: the names of which
/// the scope speaks.
fn names(
    tree: &Tree,
    alloc: Global,
    place: Place,
    scope: Scope,
    form: &str,
    args: &[Value],
) -> Result<Value, Interruption>
    requires { (p : Path) × Names tree.now place p }
    ensures { Acts tree.now place (λ style. inspection.names scope form.now args.now) tree.now
        result }
{
    match args {
        [] => {
            let names = frames_seen(tree, place).names(alloc, scope)?;
            list_value(alloc, names.as_slice())
        }
        [pattern] => {
            let names = frames_seen(tree, place).names(alloc, scope)?;
            let pattern = pattern.text(alloc)?;
            let kept = matching(alloc, pattern.as_str(), names.as_slice())?;
            list_value(alloc, kept.as_slice())
        }
        _ => Err(wrong_args(alloc, form)),
    }
}

/// The level of a number: one that is 0 or less is counted from the level that runs.
fn numbered(top: usize, number: i64) -> Option<usize>
    ensures { result ≡ inspection.numbered top number }
{
    if number > 0 {
        return Some(number as usize);
    }
    top.checked_sub(number.unsigned_abs() as usize)
}

/// The words of the call at the level of a number, if there is one. Level 0 has none.
fn words_numbered(frames: &Frames, number: i64) -> Option<&[Value]>
    ensures { option_copied result
        ≡ words_numbered (inspection.numbered (current frames.now.frames) number)
        frames.now.frames }
{
    match numbered(frames.level(), number) {
        None => None,
        Some(0) => None,
        Some(level) => frames.words(level),
    }
}

/// The list of the words of the call at the level of a number.
fn call_words(
    tree: &Tree,
    alloc: Global,
    place: Place,
    word: &Value,
    number: i64,
) -> Result<Value, Interruption>
    requires { (p : Path) × Names tree.now place p }
    ensures { Acts tree.now place (λ style. look
        (λ n. inspection.words_of word.now (inspection.numbered (current n.own.chain.frames) number)
        n)) tree.now result }
{
    match words_numbered(frames_seen(tree, place), number) {
        Some(words) => answered(alloc, commands::list(alloc, words)),
        None => Err(bad_level(alloc, word.text(alloc)?.as_str())),
    }
}

/// `info level ?number?`: the level that runs, or the words of the call at a level.
fn level(tree: &Tree, alloc: Global, place: Place, args: &[Value]) -> Result<Value, Interruption>
    requires { (p : Path) × Names tree.now place p }
    ensures { Acts tree.now place (λ style. inspection.level style args.now) tree.now result }
{
    match args {
        [] => Ok(number_value(alloc, frames_seen(tree, place).level() as u64)?),
        [word] => {
            let number = word_integer(tree, alloc, word)?;
            call_words(tree, alloc, place, word, number)
        }
        _ => Err(wrong_args(alloc, "info level ?number?")),
    }
}

/// What a subcommand of `info` gives.
fn subcommand(
    tree: &mut Tree,
    alloc: Global,
    place: Place,
    word: &Value,
    args: &[Value],
) -> Result<Value, Interruption>
    requires { (p : Path) × Names tree.old place p }
    ensures acts { Acts tree.old place
        (λ style. inspection.chosen style word.now args.now) tree.new result }
    ensures level { IsLevel tree.old tree.new }
{
    if word.is_text(b"cmdcount") {
        return cmdcount(tree, alloc, place, args);
    }
    if word.is_text(b"exists") {
        return exists(tree, alloc, place, args);
    }
    if word.is_text(b"vars") {
        return names(
            tree,
            alloc,
            place,
            Scope::Visible,
            "info vars ?pattern?",
            args,
        );
    }
    if word.is_text(b"globals") {
        return names(
            tree,
            alloc,
            place,
            Scope::Global,
            "info globals ?pattern?",
            args,
        );
    }
    if word.is_text(b"locals") {
        return names(
            tree,
            alloc,
            place,
            Scope::Local,
            "info locals ?pattern?",
            args,
        );
    }
    if word.is_text(b"level") {
        return level(tree, alloc, place, args);
    }
    procedures::subcommand(tree, alloc, place, word, args)
}

/// `info subcommand ?arg ...?`: what a subcommand tells of the interpreter. (info(n))
///
/// # Errors
/// 244 of the subcommand; 241; of `exists` 238; of `level` 111, 112 and 235; of `args`, `body` and
/// `default` 238 and 246 of the procedure; of `default` 238 of the parameter, and 232, 233 and 238
/// of the variable; 122; want of memory.
pub fn info(
    tree: &mut Tree,
    alloc: Global,
    place: Place,
    args: &[Value],
) -> Result<Value, Interruption>
    requires { (p : Path) × Names tree.old place p }
    ensures acts { Acts tree.old place (λ style. inspection.info style args.now) tree.new result }
    ensures level { IsLevel tree.old tree.new }
{
    match args {
        [] => Err(wrong_args(alloc, "info subcommand ?arg ...?")),
        [word, rest @ ..] => subcommand(tree, alloc, place, word, rest),
    }
}
