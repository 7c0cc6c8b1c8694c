//! Calls on a tree of interpreters by path.
use crate::tree_rows::answers::{Answer, done, given, no_call, refused};
use crate::tree_rows::looks::{of_name, of_path};
use crate::tree_rows::places::{alias_up, at_place, nothing};
use crate::tree_rows::words::{number_of, place_of, words_of};
use std::alloc::{AllocError, Global};
use tcl_text::text::Text;
use tcl_tree::alias::Alias;
use tcl_tree::refusal::TreeError;
use tcl_tree::tree::Tree;
use tcl_value::value::Value;

/// `nest PATH`: begins an evaluation.
fn nest(tree: &mut Tree, path: &[Text]) -> Result<(), TreeError> {
    match tree.nest(path) {
        Ok(_) => Ok(()),
        Err(refusal) => Err(refusal),
    }
}

/// Deletes a child while an evaluation is in progress in the interpreter at a path, and tells how
/// many levels up the highest is that is gone.
fn delete_within(
    tree: &mut Tree,
    path: &[Text],
    parent: &[Text],
    name: &Text,
) -> Result<Option<usize>, TreeError> {
    let place = tree.nest(path)?;
    let deleted = tree.delete(parent, name);
    let gone = tree.is_gone(place);
    tree.unnest(place);
    match deleted {
        Ok(()) => Ok(gone),
        Err(refusal) => Err(refusal),
    }
}

/// `delete-within PATH PARENT NAME`: the same. It answers `here` where the interpreter stands.
fn within(
    tree: &mut Tree,
    alloc: Global,
    path: &[Text],
    parent: &Text,
    name: &Text,
) -> Result<Answer, AllocError> {
    let parent = words_of(alloc, parent.as_str())?;
    match delete_within(tree, path, &parent, name) {
        Ok(Some(levels)) => Ok(Answer::Given(format!(in alloc; "{levels} up")?)),
        Ok(None) => given(alloc, "here"),
        Err(refusal) => refused(alloc, &refusal),
    }
}

/// What a call of a path answers.
fn of_one(tree: &mut Tree, alloc: Global, call: &str, path: &[Text]) -> Result<Answer, AllocError> {
    match call {
        "charge" => done(alloc, tree.charge(path)),
        "nest" => done(alloc, nest(tree, path)),
        _ => of_path(tree, alloc, call, path),
    }
}

/// `set PATH NAME`: sets a variable to the empty text.
fn set(tree: &mut Tree, alloc: Global, path: &[Text], name: &Text) -> Result<Answer, AllocError> {
    match tree.frames_mut(path) {
        Some(frames) => done(alloc, frames.set(alloc, name, Value::empty())),
        None => refused(alloc, &TreeError::NoInterpreter),
    }
}

/// What a call of a path and a name answers.
fn of_two(
    tree: &mut Tree,
    alloc: Global,
    call: &str,
    path: &[Text],
    name: &Text,
) -> Result<Answer, AllocError> {
    match call {
        "proc" => done(alloc, tree.set_proc(path, name.clone()?, nothing(alloc)?)),
        "clear" => done(alloc, tree.clear_alias(path, name)),
        "delete" => done(alloc, tree.delete(path, name)),
        "set" => set(tree, alloc, path, name),
        _ => of_name(tree, alloc, call, path, name),
    }
}

/// Makes a name at one path an alias whose target is at another.
fn alias_between(
    tree: &mut Tree,
    alloc: Global,
    path: &[Text],
    name: &Text,
    target: &[Text],
) -> Result<Answer, AllocError> {
    let words = Vec::<Value>::new(alloc);
    done(
        alloc,
        tree.set_alias_between(alloc, path, name.clone()?, target, words),
    )
}

/// Makes a name an alias whose way leads so many levels up, and the names down.
fn alias_by(
    tree: &mut Tree,
    alloc: Global,
    path: &[Text],
    name: &Text,
    up: usize,
    down: &Text,
) -> Result<Answer, AllocError> {
    let down = words_of(alloc, down.as_str())?;
    let alias = Alias::new(alloc, up, down, Vec::<Value>::new(alloc))?;
    done(alloc, tree.set_alias(alloc, path, name.clone()?, &alias))
}

/// What a call of a path, a name and another word answers: `create PATH NAME safe` makes a safe
/// child, and `alias PATH NAME UP` and `between PATH NAME TARGET` make aliases.
fn of_three(
    tree: &mut Tree,
    alloc: Global,
    call: &str,
    path: &[Text],
    words: (&Text, &Text),
) -> Result<Answer, AllocError> {
    let (name, other) = words;
    match call {
        "create" => done(
            alloc,
            tree.create(alloc, path, name, other.as_str() == "safe"),
        ),
        "alias" => {
            let alias = alias_up(alloc, place_of(other))?;
            done(alloc, tree.set_alias(alloc, path, name.clone()?, &alias))
        }
        "rename" => done(alloc, tree.rename(path, name, other.clone()?)),
        "between" => {
            let target = words_of(alloc, other.as_str())?;
            alias_between(tree, alloc, path, name, &target)
        }
        _ => no_call(alloc),
    }
}

/// What a call answers by which one interpreter changes one below it: `steps PATH DOWN COUNT` and
/// `levels PATH DOWN COUNT`, which set limits, `hide PATH DOWN NAME HIDDEN`, and
/// `expose PATH DOWN HIDDEN NAME`.
fn of_below(
    tree: &mut Tree,
    alloc: Global,
    call: &str,
    path: &[Text],
    down: &[Text],
    words: &[Text],
) -> Result<Answer, AllocError> {
    match words {
        [count] if call == "steps" => done(
            alloc,
            tree.set_limit(path, down, Some(number_of(count))),
        ),
        [count] if call == "levels" => done(
            alloc,
            tree.set_depth_limit(path, down, number_of(count)),
        ),
        [name, other] if call == "hide" => done(alloc, tree.hide(path, down, name, other.clone()?)),
        [name, other] if call == "expose" => {
            done(alloc, tree.expose(path, down, name, other.clone()?))
        }
        _ => no_call(alloc),
    }
}

/// `at PATH CALL ..`: what a call answers by the place of the interpreter at a path.
fn at(tree: &mut Tree, alloc: Global, path: &[Text], words: &[Text]) -> Result<Answer, AllocError> {
    match tree.place(path) {
        Some(place) => at_place(tree, alloc, place, words),
        None => refused(alloc, &TreeError::NoInterpreter),
    }
}

/// What a call answers of the interpreter at a path. `alias-by PATH NAME UP DOWN` makes an alias by
/// its way.
pub(crate) fn at_path(
    tree: &mut Tree,
    alloc: Global,
    call: &str,
    path: &[Text],
    words: &[Text],
) -> Result<Answer, AllocError> {
    match words {
        _ if call == "at" => at(tree, alloc, path, words),
        [parent, name] if call == "delete-within" => within(tree, alloc, path, parent, name),
        [name, up, down] if call == "alias-by" => {
            alias_by(tree, alloc, path, name, place_of(up), down)
        }
        [] => of_one(tree, alloc, call, path),
        [down, others @ ..] if matches!(call, "steps" | "levels" | "hide" | "expose") => {
            let down = words_of(alloc, down.as_str())?;
            of_below(tree, alloc, call, path, &down, others)
        }
        [name] => of_two(tree, alloc, call, path, name),
        [name, other] => of_three(tree, alloc, call, path, (name, other)),
        _ => no_call(alloc),
    }
}
