//! The levels at which commands evaluate scripts.
ghost use Rattle.std.specs.Prelude.{◌≡◌, ℕ, IfErr, MatchResult, Ok, OnOk, Some, nat_lt};
ghost use Rattle.tcl_core.specs.Paths.{Path};
ghost use Rattle.tcl_core.specs.Trees as core;
ghost use Rattle.tcl_core.specs.Programs.{brought_back};
ghost use Rattle.tcl_core.specs.Trees.{depth_of, effect};
ghost use Rattle.tcl_core.specs.Trees.What.{Changed};
ghost use Rattle.tcl_language.specs.Control.{at_level, level_over};
ghost use Rattle.tcl_language.specs.Words.{are_digits, is_level, some_digits};
ghost use Rattle.tcl_run.specs.Ends.{Gave, Interrupts, IsFailure, itself};
ghost use Rattle.tcl_run.specs.Runs.{IsLevel};
ghost use Rattle.tcl_run.specs.declared.interruption.Interruption.TheVariants.{Memory};
ghost use Rattle.tcl_tree.specs.Gone.{Holds};
ghost use Rattle.tcl_tree.specs.Own.{Own};
ghost use Rattle.tcl_tree.specs.TreeOf.{tree_of, marks_of, Names};
ghost use Rattle.tcl_calls.specs.Levels.{level_at_node, script_level};

use std::alloc::Global;
use tcl_frames::fault::FrameError;
use tcl_run::failure::{bad_level, wrong_args};
use tcl_run::interruption::Interruption;
use tcl_run::levels::{MOST_LEVELS, level_of};
use tcl_tree::tree::{Place, Tree};
use tcl_value::value::Value;

/// The level that a word names. (uplevel(n))
///
/// # Errors
/// That it names none; want of memory.
fn named_level(tree: &Tree, alloc: Global, place: Place, word: &str) -> Result<usize, Interruption>
    requires { (p : Path) × Names tree.now place p }
    ensures { (p : Path) (n : core.Node Own) → Names tree.now place p →
        tree_of tree.now p ≡ Some n → Gave itself
        (level_at_node (marks_of tree.now).integers n word.now) result }
{
    let Some(node) = tree.node_at(place) else {
        return Err(Interruption::Memory);
    };
    let current = node.state.frames.level();
    if current > MOST_LEVELS {
        return Err(Interruption::Memory);
    }
    match level_of(tree.integers(), current, word) {
        Some(level) => Ok(level),
        None => Err(bad_level(alloc, word)),
    }
}

/// Whether these are digits.
fn are_digits(text: &[u8]) -> bool
    ensures { result ≡ are_digits text.now }
{
    'digits: for digit in text {
        if *digit < b'0' || *digit > b'9' {
            return false;
        }
    }
    true
}

/// Whether these are digits, and some.
fn some_digits(text: &[u8]) -> bool
    ensures { result ≡ some_digits text.now }
{
    if text.is_empty() {
        return false;
    }
    are_digits(text)
}

/// Whether a word can be a level: digits, or `#` and digits.
fn is_level(word: &[u8]) -> bool
    ensures { result ≡ is_level word.now }
{
    let [first, rest @ ..] = word else {
        return false;
    };
    if *first == b'#' {
        return some_digits(rest);
    }
    some_digits(word)
}

/// The level that the words of an `uplevel` name, which is that of the caller where none is named,
/// and the words that are its script. (uplevel(n))
///
/// # Errors
/// That there are no words; that there is no such level; want of memory.
#[inline(never)]
pub fn script_level<'w>(
    tree: &Tree,
    alloc: Global,
    place: Place,
    args: &'w [Value],
) -> Result<(usize, &'w [Value]), Interruption>
    requires { (p : Path) × Names tree.now place p }
    ensures { (p : Path) (n : core.Node Own) → Names tree.now place p →
        tree_of tree.now p ≡ Some n → MatchResult result
        (λ x. script_level (marks_of tree.now).integers n args.now ≡ Ok (x.0, x.1.now))
        (λ i. Interrupts i (IsFailure itself
        (script_level (marks_of tree.now).integers n args.now))) }
{
    let [word, rest @ ..] = args else {
        return Err(wrong_args(alloc, "uplevel ?level? arg ?arg ...?"));
    };
    let word = word.text(alloc)?;
    if !rest.is_empty() && is_level(word.as_str().as_bytes()) {
        return Ok((named_level(tree, alloc, place, word.as_str())?, rest));
    }
    Ok((named_level(tree, alloc, place, "1")?, args))
}

/// Sets the frames above a level aside.
///
/// # Errors
/// Want of memory.
#[inline(never)]
pub fn set_aside(
    tree: &mut Tree,
    alloc: Global,
    place: Place,
    level: usize,
) -> Result<(), Interruption>
    requires { (p : Path) × Names tree.old place p }
    ensures aside { OnOk result ((p : Path) (n : core.Node Own) → Names tree.old place p →
        tree_of tree.old p ≡ Some n → tree_of tree.new
        ≡ effect p (Changed (at_level level n.own)) (tree_of tree.old)) }
    ensures memory { IfErr result (λ i. i ≡ Memory) }
    ensures level { IsLevel tree.old tree.new }
{
    let Some(frames) = tree.frames_of(place) else {
        return Err(Interruption::Memory);
    };
    match frames.set_aside(alloc, level) {
        Ok(()) => Ok(()),
        Err(FrameError::Fault(_)) => Ok(()),
        Err(FrameError::Memory) => Err(Interruption::Memory),
    }
}

/// Brings the frames back that were set aside last, where the interpreter isn't gone.
#[inline(never)]
pub fn bring_back(tree: &mut Tree, place: Place)
    requires { (p : Path) × (d : ℕ) × Holds tree.old place p d }
    ensures back { (p : Path) (d : ℕ) → Holds tree.old place p d → tree_of tree.new
        ≡ effect p (brought_back (nat_lt (depth_of (tree_of tree.old p)) d) level_over
        (tree_of tree.old p)) (tree_of tree.old) }
    ensures level { IsLevel tree.old tree.new }
{
    if let Some(_) = tree.is_gone(place) {
        return;
    }
    match tree.frames_of(place) {
        Some(frames) => frames.bring_back(),
        None => unreachable!(),
    }
}
