//! Limits of steps and of depth. No safe interpreter sets one.
ghost use Rattle.std.specs.Prelude.{◌∷◌, []};
ghost use Rattle.tcl_core.specs.Paths.{Path};
ghost use Rattle.tcl_language.specs.Interpreters as interpreters;
ghost use Rattle.tcl_language.specs.Variables as variables;
ghost use Rattle.tcl_run.specs.Entering.{entry_of};
ghost use Rattle.tcl_run.specs.Runs.{Evaluates, IsHere, IsRunning, KeepsAndLoses};
ghost use Rattle.tcl_tree.specs.TreeOf.{Names};
ghost use Rattle.tcl_calls.specs.Looking.{Finds, Passes};
ghost use Rattle.tcl_interp.specs.Limits.{CountGiven, DepthGiven};
ghost use Rattle.tcl_interp.specs.Subjects.{about, on_path};
ghost use Rattle.tcl_interp.specs.Programs.{allowed, settable, to_limit, sets, limits, depths};

use crate::subject::{Subject, ask_subject, one_name, wrong_words};
use std::alloc::Global;
use tcl_calls::failure::{bad_count, bad_depth_limit};
use tcl_calls::looking::{names_of, permit, stands};
use tcl_calls::questions::node;
use tcl_calls::requests::ask_at;
use tcl_commands::steps::word_integer;
use tcl_run::entry::{OwnEntry, Question};
use tcl_run::failure::{bad_option, denied, wrong_args};
use tcl_run::interruption::Interruption;
use tcl_run::outside::Outside;
use tcl_text::text::Text;
use tcl_tree::tree::{Place, Tree};
use tcl_value::value::Value;

/// What a limit is of.
#[derive(Clone, Copy, Drop)]
pub enum LimitOf {
    Steps,
    Depth,
}

/// Sees to it that the word is `commands`, of which alone there are limits so.
fn commands_only(tree: &Tree, alloc: Global, place: Place, word: &Value) -> Result<(), Interruption>
    ensures { Passes tree.now place
        (λ rest style. interpreters.commands_only word.now (rest style)) result }
{
    let (_tree, _place) = (tree, place);
    if word.is_text(b"commands") {
        return Ok(());
    }
    Err(bad_option(alloc, word.text(alloc)?.as_str()))
}

/// Sees to it that the word is the option `-value`.
fn value_only(tree: &Tree, alloc: Global, place: Place, word: &Value) -> Result<(), Interruption>
    ensures { Passes tree.now place
        (λ rest style. interpreters.value_only word.now (rest style)) result }
{
    let (_tree, _place) = (tree, place);
    if word.is_text(b"-value") {
        return Ok(());
    }
    Err(bad_option(alloc, word.text(alloc)?.as_str()))
}

/// Sees to it that a path leads below the interpreter that asks.
fn below_itself(tree: &Tree, alloc: Global, place: Place, path: &[Text]) -> Result<(), Interruption>
    ensures { Passes tree.now place
        (λ rest style. interpreters.below_itself path.now (rest style)) result }
{
    let (_tree, _place) = (tree, place);
    match path {
        [] => Err(denied(alloc)),
        [_, ..] => Ok(()),
    }
}

/// Sees to it that a path leads not to the root.
fn unless_root(tree: &Tree, alloc: Global, place: Place, path: &[Text]) -> Result<(), Interruption>
    requires { (p : Path) × Names tree.now place p }
    ensures { Passes tree.now place
        (λ rest style. interpreters.unless_root path.now (rest style)) result }
{
    match path {
        [] => not_root(tree, alloc, place),
        [_, ..] => Ok(()),
    }
}

/// Sees to it that the interpreter that asks isn't the root.
fn not_root(tree: &Tree, alloc: Global, place: Place) -> Result<(), Interruption>
    requires { (p : Path) × Names tree.now place p }
    ensures { Passes tree.now place
        (λ rest style. interpreters.unless_root [] (rest style)) result }
{
    if node(tree, place).state.root {
        return Err(denied(alloc));
    }
    Ok(())
}

/// The number of steps that an integer is.
fn count_of(alloc: Global, word: &Value, n: i64) -> Result<u64, Interruption>
    ensures { CountGiven word.now n result }
{
    if n < 0 {
        return Err(bad_count(alloc, word.text(alloc)?.as_str()));
    }
    Ok(n as u64)
}

/// The limit of steps that a word is: none where it is empty.
fn limit_value(
    tree: &Tree,
    alloc: Global,
    place: Place,
    word: &Value,
) -> Result<Option<u64>, Interruption>
    ensures { Finds tree.now place (λ limit. limit)
        (λ rest style. interpreters.limit_value style word.now (λ limit. rest limit style)) result }
{
    let _place = place;
    if word.is_text(b"") {
        return Ok(None);
    }
    let n = word_integer(tree, alloc, word)?;
    Ok(Some(count_of(alloc, word, n)?))
}

/// The limit of depth that an integer is.
fn depth_of(alloc: Global, n: i64) -> Result<u64, Interruption>
    ensures { DepthGiven n result }
{
    if n < 0 {
        return Err(bad_depth_limit(alloc));
    }
    Ok(n as u64)
}

/// The limit of depth that a word is.
fn depth_value(tree: &Tree, alloc: Global, place: Place, word: &Value) -> Result<u64, Interruption>
    ensures { Finds tree.now place (λ limit. limit)
        (λ rest style. variables.integer style word.now
        (λ z. interpreters.depth_number z (λ limit. rest limit style))) result }
{
    let _place = place;
    let n = word_integer(tree, alloc, word)?;
    depth_of(alloc, n)
}

/// What sets a limit to what a word is.
fn setting(
    tree: &Tree,
    alloc: Global,
    place: Place,
    limit: LimitOf,
    value: &Value,
) -> Result<OwnEntry, Interruption>
    ensures { Finds tree.now place (λ entry. entry_of entry)
        (λ rest style. to_limit style limit value.now (λ e. rest e style)) result }
{
    match limit {
        LimitOf::Steps => Ok(OwnEntry::SetCountLimit(limit_value(tree, alloc, place, value)?)),
        LimitOf::Depth => Ok(OwnEntry::SetDepthLimit(depth_value(tree, alloc, place, value)?)),
    }
}

/// Sees to it that a limit may be set at a path: nobody sets its own limit of steps, nor the root
/// its own of depth.
fn allow(
    tree: &Tree,
    alloc: Global,
    place: Place,
    limit: LimitOf,
    path: &[Text],
) -> Result<(), Interruption>
    requires { (p : Path) × Names tree.now place p }
    ensures { Passes tree.now place (λ rest style. allowed limit path.now (rest style)) result }
{
    match limit {
        LimitOf::Steps => below_itself(tree, alloc, place, path),
        LimitOf::Depth => unless_root(tree, alloc, place, path),
    }
}

/// The path that a word is, where a limit may be set at it and an interpreter stands there.
fn settable_word(
    tree: &Tree,
    alloc: Global,
    place: Place,
    limit: LimitOf,
    word: &Value,
) -> Result<Vec<Text>, Interruption>
    requires { (p : Path) × Names tree.now place p }
    ensures { Finds tree.now place (λ path. path.items)
        (λ rest style. settable limit (on_path word.now) (λ path. rest path style)) result }
{
    let path = names_of(tree, alloc, place, word)?;
    allow(tree, alloc, place, limit, path.as_slice())?;
    stands(tree, alloc, place, word, path.as_slice())?;
    Ok(path)
}

/// The subject's path, where a limit may be set at it.
fn settable_path(
    tree: &Tree,
    alloc: Global,
    place: Place,
    limit: LimitOf,
    subject: Subject<'_>,
) -> Result<Vec<Text>, Interruption>
    requires { (p : Path) × Names tree.now place p }
    ensures { Finds tree.now place (λ path. path.items)
        (λ rest style. settable limit (about subject.entry) (λ path. rest path style)) result }
{
    match subject {
        Subject::Itself => settable_word(tree, alloc, place, limit, &Value::empty()),
        Subject::Path(word) => settable_word(tree, alloc, place, limit, word),
        Subject::Child(name) => Ok(one_name(alloc, name)?),
    }
}

/// Sets a limit of the subject.
fn set_limit<O: Outside>(
    tree: &mut Tree,
    alloc: Global,
    outside: &mut O,
    place: Place,
    subject: Subject<'_>,
    limit: LimitOf,
    value: &Value,
) -> Result<Value, Interruption>
    requires { IsRunning tree.old place }
    ensures evaluates { Evaluates O.goes tree.old outside.old place
        (λ style. sets style limit (about subject.entry) value.now) tree.new outside.new result }
    ensures keeps { KeepsAndLoses O.entries_left O.loses tree.old tree.new outside.old outside.new }
    ensures here { IsHere tree.old tree.new place }
{
    permit(tree, alloc, place)?;
    let path = settable_path(tree, alloc, place, limit, subject)?;
    let entry = setting(tree, alloc, place, limit, value)?;
    ask_at(tree, alloc, outside, place, path.as_slice(), entry)
}

/// What the subject answers where it is asked for its limit of steps.
fn limit_of<O: Outside>(
    tree: &mut Tree,
    alloc: Global,
    outside: &mut O,
    place: Place,
    subject: Subject<'_>,
    word: &Value,
) -> Result<Value, Interruption>
    requires { IsRunning tree.old place }
    ensures evaluates { Evaluates O.goes tree.old outside.old place
        (λ style. limits style (about subject.entry) (word.now ∷ [])) tree.new outside.new result }
    ensures keeps { KeepsAndLoses O.entries_left O.loses tree.old tree.new outside.old outside.new }
    ensures here { IsHere tree.old tree.new place }
{
    commands_only(tree, alloc, place, word)?;
    let entry = OwnEntry::Ask(Question::CountLimitOf);
    ask_subject(tree, alloc, outside, place, subject, entry)
}

/// Sets the subject's limit of steps, after the words are looked at.
fn limit_with<O: Outside>(
    tree: &mut Tree,
    alloc: Global,
    outside: &mut O,
    place: Place,
    subject: Subject<'_>,
    word: &Value,
    option: &Value,
    value: &Value,
) -> Result<Value, Interruption>
    requires { IsRunning tree.old place }
    ensures evaluates { Evaluates O.goes tree.old outside.old place
        (λ style. limits style (about subject.entry) (word.now ∷ option.now ∷ value.now ∷ []))
        tree.new outside.new result }
    ensures keeps { KeepsAndLoses O.entries_left O.loses tree.old tree.new outside.old outside.new }
    ensures here { IsHere tree.old tree.new place }
{
    commands_only(tree, alloc, place, word)?;
    value_only(tree, alloc, place, option)?;
    set_limit(tree, alloc, outside, place, subject, LimitOf::Steps, value)
}

/// `interp limit path commands ?-value n?`, and `NAME limit commands ?-value n?`
///
/// # Errors
/// 241; 221; 304 where the interpreter that asks is safe, or sets its own; those of the path; 111,
/// 112 and 245; want of memory.
pub fn limit<O: Outside>(
    tree: &mut Tree,
    alloc: Global,
    outside: &mut O,
    place: Place,
    subject: Subject<'_>,
    args: &[Value],
) -> Result<Value, Interruption>
    requires { IsRunning tree.old place }
    ensures evaluates { Evaluates O.goes tree.old outside.old place
        (λ style. limits style (about subject.entry) args.now) tree.new outside.new result }
    ensures keeps { KeepsAndLoses O.entries_left O.loses tree.old tree.new outside.old outside.new }
    ensures here { IsHere tree.old tree.new place }
{
    match args {
        [word] => limit_of(tree, alloc, outside, place, subject, word),
        [what, option, value] => {
            limit_with(tree, alloc, outside, place, subject, what, option, value)
        }
        _ => {
            let form = "interp limit path commands ?-value n?";
            Err(wrong_words(alloc, subject, form, "limit commands ?-value n?"))
        }
    }
}

/// What the subject answers where it is asked for its limit of depth.
fn depth_limit_of<O: Outside>(
    tree: &mut Tree,
    alloc: Global,
    outside: &mut O,
    place: Place,
    subject: Subject<'_>,
) -> Result<Value, Interruption>
    requires { IsRunning tree.old place }
    ensures evaluates { Evaluates O.goes tree.old outside.old place
        (λ style. depths style (about subject.entry) []) tree.new outside.new result }
    ensures keeps { KeepsAndLoses O.entries_left O.loses tree.old tree.new outside.old outside.new }
    ensures here { IsHere tree.old tree.new place }
{
    let entry = OwnEntry::Ask(Question::DepthLimitOf);
    match subject {
        Subject::Itself => Err(wrong_args(alloc, DEPTH_FORM)),
        Subject::Path(_) => ask_subject(tree, alloc, outside, place, subject, entry),
        Subject::Child(_) => ask_subject(tree, alloc, outside, place, subject, entry),
    }
}

/// The form of `interp recursionlimit`.
const DEPTH_FORM: &str = "interp recursionlimit path ?n?";

/// `interp recursionlimit path ?n?`, and `NAME recursionlimit ?n?`
///
/// # Errors
/// 241; 304 where the interpreter that asks is safe, or the root sets its own; those of the path;
/// 111, 112 and 309; want of memory.
pub fn recursion_limit<O: Outside>(
    tree: &mut Tree,
    alloc: Global,
    outside: &mut O,
    place: Place,
    subject: Subject<'_>,
    args: &[Value],
) -> Result<Value, Interruption>
    requires { IsRunning tree.old place }
    ensures evaluates { Evaluates O.goes tree.old outside.old place
        (λ style. depths style (about subject.entry) args.now) tree.new outside.new result }
    ensures keeps { KeepsAndLoses O.entries_left O.loses tree.old tree.new outside.old outside.new }
    ensures here { IsHere tree.old tree.new place }
{
    match args {
        [] => depth_limit_of(tree, alloc, outside, place, subject),
        [value] => set_limit(tree, alloc, outside, place, subject, LimitOf::Depth, value),
        _ => Err(wrong_words(alloc, subject, DEPTH_FORM, "recursionlimit ?n?")),
    }
}
