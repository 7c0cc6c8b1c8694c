//! The commands that link variables.
ghost use Rattle.std.specs.Prelude.{◌≡◌, IfOk, Some};
ghost use Rattle.tcl_core.specs.Paths.{Path};
ghost use Rattle.tcl_language.specs.Variables as variables;
ghost use Rattle.tcl_frames.specs.Chain.{after_link};
ghost use Rattle.tcl_language.specs.Instructions.{look};
ghost use Rattle.tcl_run.specs.Plain.{Acts};
ghost use Rattle.tcl_run.specs.Runs.{IsLevel};
ghost use Rattle.tcl_tree.specs.TreeOf.{marks_of, Names};
ghost use Rattle.tcl_frames.specs.Names.{name_of};
ghost use Rattle.tcl_commands.specs.Steps.{Steps, Finds};

use crate::answers::is_odd;
use crate::steps::{frames_seen, link_variable};
use std::alloc::{AllocError, Global};
use tcl_frames::name::read_name;
use tcl_run::failure::{bad_level, wrong_args};
use tcl_run::interruption::Interruption;
use tcl_run::levels::{MOST_LEVELS, level_of};
use tcl_text::text::Text;
use tcl_tree::tree::{Place, Tree};
use tcl_value::value::Value;

/// The level that a word names.
fn level(tree: &Tree, alloc: Global, place: Place, word: &str) -> Result<usize, Interruption>
    requires { (p : Path) × Names tree.now place p }
    ensures { Finds tree.now place
        (λ rest style. variables.level style word.now (λ n. rest n style)) tree.now result }
{
    let current = frames_seen(tree, place).level();
    if current > MOST_LEVELS {
        return Err(Interruption::Memory);
    }
    match level_of(tree.integers(), current, word) {
        Some(level) => Ok(level),
        None => Err(bad_level(alloc, word)),
    }
}

/// Makes links from the left: to each other name, by the local name after it.
fn link_all(
    tree: &mut Tree,
    alloc: Global,
    place: Place,
    level: usize,
    names: &[Value],
) -> Result<Value, Interruption>
    requires { (p : Path) × Names tree.old place p }
    ensures acts { Acts tree.old place
        (λ style. variables.link_all level names.now) tree.new result }
    ensures level { IsLevel tree.old tree.new }
{
    let mut left = names;
    'names: while let [other, local, rest @ ..] = left {
        let other = other.text(alloc)?;
        let local = local.text(alloc)?;
        link_variable(tree, alloc, place, level, &other, &local)?;
        left = rest;
    }
    Ok(Value::empty())
}

/// `upvar ?level? otherVar localVar ?otherVar localVar ...?`: makes local names links to what other
/// names are at a level, which is that of the caller where none is named. (upvar(n))
///
/// # Errors
/// 241; 235 of the level; of each pair in turn, 238, 237, 233 and 236; want of memory.
pub fn upvar(
    tree: &mut Tree,
    alloc: Global,
    place: Place,
    args: &[Value],
) -> Result<Value, Interruption>
    requires { (p : Path) × Names tree.old place p }
    ensures acts { Acts tree.old place (λ style. variables.upvar style args.now) tree.new result }
    ensures level { IsLevel tree.old tree.new }
{
    match args {
        [] | [_] => Err(wrong_args(
            alloc,
            "upvar ?level? otherVar localVar ?otherVar localVar ...?",
        )),
        [word, pairs @ ..] => {
            if !is_odd(args) {
                let level = level(tree, alloc, place, "1")?;
                return link_all(tree, alloc, place, level, args);
            }
            let word = word.text(alloc)?;
            let level = level(tree, alloc, place, word.as_str())?;
            link_all(tree, alloc, place, level, pairs)
        }
    }
}

/// The local name of a global variable. The name of an element is given as it is written, and so
/// refused as a local name.
fn local_name(alloc: Global, name: &Text) -> Result<Text, AllocError>
    ensures { IfOk result (λ local. local ≡ variables.local_name name.now (name_of name.now)) }
{
    match read_name(name.as_str()) {
        Some(written) => match written.key {
            None => Text::new(alloc, written.base),
            Some(_) => name.clone(),
        },
        None => name.clone(),
    }
}

/// Makes local names links to global variables, from the left.
fn global_all(
    tree: &mut Tree,
    alloc: Global,
    place: Place,
    names: &[Value],
) -> Result<Value, Interruption>
    requires { (p : Path) × Names tree.old place p }
    ensures acts { Acts tree.old place (λ style. variables.global_all names.now) tree.new result }
    ensures level { IsLevel tree.old tree.new }
{
    'names: for name in names {
        let name = name.text(alloc)?;
        let local = local_name(alloc, &name)?;
        link_variable(tree, alloc, place, 0, &name, &local)?;
    }
    Ok(Value::empty())
}

/// `global ?varName ...?`: makes local names links to global variables, and at level 0 nothing.
/// (global(n))
///
/// # Errors
/// Of each name in turn, 238, 237 and 236; want of memory.
pub fn global(
    tree: &mut Tree,
    alloc: Global,
    place: Place,
    args: &[Value],
) -> Result<Value, Interruption>
    requires { (p : Path) × Names tree.old place p }
    ensures acts { Acts tree.old place (λ style. variables.global args.now) tree.new result }
    ensures level { IsLevel tree.old tree.new }
{
    if frames_seen(tree, place).level() == 0 {
        return Ok(Value::empty());
    }
    global_all(tree, alloc, place, args)
}
