//! Calls on a tree of interpreters by the place of one of them.
ghost use Rattle.tcl_core.specs.Paths.{Path};
ghost use Rattle.tcl_tree.specs.TreeOf.{Names};

use crate::tree_rows::answers::{Answer, done, given, list, no_call, truth};
use crate::tree_rows::words::{number_of, place_of, words_of};
use std::alloc::{AllocError, Global};
use tcl_text::text::Text;
use tcl_tree::alias::Alias;
use tcl_tree::parameter::Parameter;
use tcl_tree::procedure::Procedure;
use tcl_tree::tree::places::Reach;
use tcl_tree::tree::{Place, Tree};
use tcl_value::value::Value;

/// An alias whose target is so many levels up.
pub(crate) fn alias_up(alloc: Global, up: usize) -> Result<Alias, AllocError> {
    Alias::new(alloc, up, Vec::new(alloc), Vec::new(alloc))
}

/// A procedure that does nothing.
pub(crate) fn nothing(alloc: Global) -> Result<Procedure, AllocError> {
    Procedure::new(alloc, Vec::<Parameter>::new(alloc), Value::empty())
}

/// `nest`: begins an evaluation, or is refused with how many levels up the limit is.
fn nest(tree: &mut Tree, alloc: Global, place: Place) -> Result<Answer, AllocError>
    requires { (p : Path) × Names tree.old place p }
{
    match tree.nest_at(place) {
        Ok(()) => given(alloc, "-"),
        Err(levels) => Ok(Answer::Refused(format!(in alloc; "{levels} up")?)),
    }
}

/// What a call of no words answers.
fn of_none(tree: &mut Tree, alloc: Global, place: Place, call: &str) -> Result<Answer, AllocError>
    requires { (p : Path) × Names tree.old place p }
{
    match call {
        "nest" => nest(tree, alloc, place),
        "free-name" => given(alloc, tree.free_name_at(alloc, place)?.as_str()),
        _ => no_call(alloc),
    }
}

/// `set NAME`: sets a variable to the empty text.
fn set(tree: &mut Tree, alloc: Global, place: Place, name: &Text) -> Result<Answer, AllocError>
    requires { (p : Path) × Names tree.old place p }
{
    match tree.frames_of(place) {
        Some(frames) => done(alloc, frames.set(alloc, name, Value::empty())),
        None => given(alloc, "none"),
    }
}

/// `steps COUNT`: limits the steps.
fn limit(tree: &mut Tree, alloc: Global, place: Place, count: u64) -> Result<Answer, AllocError>
    requires { (p : Path) × Names tree.old place p }
{
    tree.set_limit_at(place, Some(count));
    given(alloc, "-")
}

/// `last-names COUNT`: the last names of the path, so many at most.
fn last_names(tree: &Tree, alloc: Global, place: Place, most: usize) -> Result<Answer, AllocError> {
    list(alloc, &tree.last_names(alloc, place, most)?)
}

/// What a call of one word answers. `child NAME` tells whether there is such a child.
fn of_one(
    tree: &mut Tree,
    alloc: Global,
    place: Place,
    call: &str,
    word: &Text,
) -> Result<Answer, AllocError>
    requires { (p : Path) × Names tree.old place p }
{
    match call {
        "alias" => done(
            alloc,
            tree.set_alias_at(place, word.clone()?, alias_up(alloc, 0)?),
        ),
        "proc" => done(
            alloc,
            tree.set_proc_at(place, word.clone()?, nothing(alloc)?),
        ),
        "clear" => done(alloc, tree.clear_alias_at(place, word)),
        "remove" => done(alloc, tree.remove_at(place, word)),
        "delete" => done(alloc, tree.delete_at(place, word)),
        "levels" => done(alloc, tree.set_depth_limit_at(place, number_of(word))),
        "steps" => limit(tree, alloc, place, number_of(word)),
        "set" => set(tree, alloc, place, word),
        "child" => truth(alloc, tree.child_at(place, word).is_some()),
        "last-names" => last_names(tree, alloc, place, place_of(word)),
        _ => no_call(alloc),
    }
}

/// `reach UP DOWN`: whether an interpreter is where a way leads.
fn reach(
    tree: &Tree,
    alloc: Global,
    place: Place,
    up: usize,
    down: &[Text],
) -> Result<Answer, AllocError>
    requires { (p : Path) × Names tree.now place p }
{
    match tree.reach(place, up, down) {
        Reach::There(_) => given(alloc, "there"),
        Reach::Missing => given(alloc, "missing"),
        Reach::Outside => given(alloc, "outside"),
    }
}

/// What a call of two words answers. `create NAME safe` makes a safe child.
fn of_two(
    tree: &mut Tree,
    alloc: Global,
    place: Place,
    call: &str,
    words: (&Text, &Text),
) -> Result<Answer, AllocError>
    requires { (p : Path) × Names tree.old place p }
{
    let (first, second) = words;
    match call {
        "rename" => done(alloc, tree.rename_at(place, first, second.clone()?)),
        "hide" => done(alloc, tree.hide_at(place, first, second.clone()?)),
        "expose" => done(alloc, tree.expose_at(place, first, second.clone()?)),
        "create" => done(
            alloc,
            tree.create_at(alloc, place, first, second.as_str() == "safe"),
        ),
        "reach" => {
            let down = words_of(alloc, second.as_str())?;
            reach(tree, alloc, place, place_of(first), &down)
        }
        _ => no_call(alloc),
    }
}

/// What a call answers of the interpreter that a place names.
pub(crate) fn at_place(
    tree: &mut Tree,
    alloc: Global,
    place: Place,
    words: &[Text],
) -> Result<Answer, AllocError>
    requires { (p : Path) × Names tree.old place p }
{
    match words {
        [call] => of_none(tree, alloc, place, call.as_str()),
        [call, word] => of_one(tree, alloc, place, call.as_str(), word),
        [call, first, second] => of_two(tree, alloc, place, call.as_str(), (first, second)),
        _ => no_call(alloc),
    }
}
