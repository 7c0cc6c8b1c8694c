//! What a tree of interpreters shows by path.
use crate::tree_rows::answers::{Answer, count, given, list, no_call, number, refused, truth};
use crate::tree_rows::words::place_of;
use std::alloc::{AllocError, Global};
use tcl_text::text::Text;
use tcl_tree::command::{Command, Commands};
use tcl_tree::tree::Tree;

/// What a name stands for: a built-in command by its own name, and else what it is.
fn show_command(alloc: Global, command: Option<&Command>) -> Result<Answer, AllocError> {
    match command {
        Some(Command::Builtin(builtin)) => given(alloc, builtin.name()),
        Some(Command::Procedure(_)) => given(alloc, "procedure"),
        Some(Command::Alias(_)) => given(alloc, "alias"),
        Some(Command::Child) => given(alloc, "child"),
        None => given(alloc, "none"),
    }
}

/// A truth value of an interpreter, if there is one.
fn show_safety(alloc: Global, safe: Option<bool>) -> Result<Answer, AllocError> {
    match safe {
        Some(safe) => truth(alloc, safe),
        None => given(alloc, "none"),
    }
}

/// A limit of an interpreter, if there is one.
fn show_limit(alloc: Global, limit: Option<Option<u64>>) -> Result<Answer, AllocError> {
    match limit {
        Some(Some(limit)) => number(alloc, Some(limit)),
        Some(None) => given(alloc, "unlimited"),
        None => given(alloc, "none"),
    }
}

/// `children PATH`: the names of the children in order.
fn children(tree: &Tree, alloc: Global, path: &[Text]) -> Result<Answer, AllocError> {
    let mut names = Vec::new(alloc);
    if let Some(children) = tree.children(path) {
        'children: for name in children {
            names.push(name.clone()?)?;
        }
    }
    list(alloc, &names)
}

/// The names of commands after so many.
fn names_after(
    alloc: Global,
    commands: Option<&Commands>,
    most: usize,
) -> Result<Answer, AllocError> {
    let mut names = Vec::new(alloc);
    if let Some(commands) = commands {
        'commands: for name in commands.keys().skip(most) {
            names.push(name.clone()?)?;
        }
    }
    list(alloc, &names)
}

/// Whether a command doesn't have the name of a built-in command that it began with.
fn is_named(name: &Text, command: &Command) -> bool {
    match command {
        Command::Builtin(builtin) => builtin.name() != name.as_str(),
        _ => true,
    }
}

/// `named PATH`: the commands of which that holds, in order.
fn named(tree: &Tree, alloc: Global, path: &[Text]) -> Result<Answer, AllocError> {
    let mut names = Vec::new(alloc);
    if let Some(commands) = tree.commands(path) {
        'commands: for (name, command) in commands.iter() {
            if is_named(name, command) {
                names.push(name.clone()?)?;
            }
        }
    }
    list(alloc, &names)
}

/// `free-name PATH`: the name that a new child would have.
fn free_name(tree: &Tree, alloc: Global, path: &[Text]) -> Result<Answer, AllocError> {
    match tree.free_name(alloc, path) {
        Ok(name) => given(alloc, name.as_str()),
        Err(refusal) => refused(alloc, &refusal),
    }
}

/// `child-count PATH`: how many children the interpreter has that the place at the path names.
fn children_count(tree: &Tree, alloc: Global, path: &[Text]) -> Result<Answer, AllocError> {
    match tree.place(path) {
        Some(place) => match tree.node_at(place) {
            Some(node) => count(alloc, node.children.len()),
            None => given(alloc, "no node"),
        },
        None => given(alloc, "none"),
    }
}

/// What a call of a path answers that makes a list or a name.
fn listed(tree: &Tree, alloc: Global, call: &str, path: &[Text]) -> Result<Answer, AllocError> {
    match call {
        "children" => children(tree, alloc, path),
        "child-count" => children_count(tree, alloc, path),
        "named" => named(tree, alloc, path),
        "hidden" => names_after(alloc, tree.hidden_commands(path), 0),
        "free-name" => free_name(tree, alloc, path),
        _ => no_call(alloc),
    }
}

/// What a call of a path answers.
pub(crate) fn of_path(
    tree: &Tree,
    alloc: Global,
    call: &str,
    path: &[Text],
) -> Result<Answer, AllocError> {
    match call {
        "exists" => truth(alloc, tree.exists(path)),
        "safe" => show_safety(alloc, tree.is_safe(path)),
        "count" => number(alloc, tree.count(path)),
        "limit" => show_limit(alloc, tree.limit(path)),
        "depth" => number(alloc, tree.depth(path)),
        "depth-limit" => number(alloc, tree.depth_limit(path)),
        _ => listed(tree, alloc, call, path),
    }
}

/// Whether the interpreter at a path has a variable.
fn holds(tree: &Tree, path: &[Text], name: &Text) -> bool {
    match tree.frames(path) {
        Some(frames) => frames.get(name).is_ok(),
        None => false,
    }
}

/// The levels and the names of the way that an alias goes.
fn show_way(alloc: Global, up: usize, down: &[Text]) -> Result<Answer, AllocError> {
    let mut shown = format!(in alloc; "{up}")?;
    'names: for name in down {
        shown.push_str(" ")?;
        shown.push_str(name.as_str())?;
    }
    Ok(Answer::Given(shown))
}

/// `way PATH NAME`: the levels and the names of the way that the alias goes.
fn way(tree: &Tree, alloc: Global, path: &[Text], name: &Text) -> Result<Answer, AllocError> {
    match tree.command(path, name) {
        Some(Command::Alias(alias)) => show_way(alloc, alias.up(), alias.down()),
        _ => given(alloc, "no alias"),
    }
}

/// What a call of a path and a name answers. `commands-after PATH COUNT` lists the commands after
/// the first so many.
pub(crate) fn of_name(
    tree: &Tree,
    alloc: Global,
    call: &str,
    path: &[Text],
    name: &Text,
) -> Result<Answer, AllocError> {
    match call {
        "command" => show_command(alloc, tree.command(path, name)),
        "hidden-command" => show_command(alloc, tree.hidden_command(path, name)),
        "way" => way(tree, alloc, path, name),
        "holds" => truth(alloc, holds(tree, path, name)),
        "commands-after" => names_after(alloc, tree.commands(path), place_of(name)),
        _ => no_call(alloc),
    }
}
