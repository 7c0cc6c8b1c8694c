//! Calls that evaluate scripts in the tree.
use crate::rows::ending::{self, STEPS, evaluated};
use crate::rows::world::{Trees, count_of, done, no_call, number_of};
use std::alloc::{AllocError, Global};
use tcl_eval::running::{OpenEnd, Refused, open_run};
use tcl_player::player::Player;
use tcl_text::list::read_list;
use tcl_text::text::Text;

/// How a run of a script at a path ends, which may make so many steps.
fn run(
    world: &mut Trees,
    alloc: Global,
    path: &[Text],
    script: &str,
    limit: u64,
) -> Result<String, AllocError> {
    evaluated(&mut world.tree, alloc, &mut world.host, path, script, limit)
}

/// How a run of a script in the root ends.
pub(crate) fn eval_script(
    world: &mut Trees,
    alloc: Global,
    script: &str,
) -> Result<String, AllocError> {
    run(world, alloc, &[], script, STEPS)
}

/// Whether a run of a script in the root was refused, or wanted memory.
fn is_refused(world: &mut Trees, alloc: Global, script: &str) -> bool {
    ending::run(&mut world.tree, alloc, &mut world.host, &[], script, STEPS).is_err()
}

/// Runs a script in the root, however that ends: its ending may be a long text.
pub(crate) fn prepare(
    world: &mut Trees,
    alloc: Global,
    script: &str,
) -> Result<String, AllocError> {
    if is_refused(world, alloc, script) {
        return String::from_str(alloc, "refused");
    }
    done(alloc)
}

/// Begins a new tree with a script, and gives how that ends.
pub(crate) fn begin_tree(
    world: &mut Trees,
    alloc: Global,
    script: &str,
) -> Result<String, AllocError> {
    world.before = String::from_str(alloc, script)?;
    world.renew(alloc)
}

/// How a run ends that may make so many steps.
pub(crate) fn eval_within(
    world: &mut Trees,
    alloc: Global,
    steps: &Text,
    script: &str,
) -> Result<String, AllocError> {
    match number_of(steps) {
        Some(limit) => run(world, alloc, &[], script, limit),
        None => no_call(alloc),
    }
}

/// How an open run ended, or what refused it.
fn opened(alloc: Global, opened: &Result<OpenEnd, Refused>) -> Result<String, AllocError> {
    match opened {
        Ok(OpenEnd::Ran(end)) => ending::end(alloc, end),
        Ok(OpenEnd::CutOff) => String::from_str(alloc, "cut off"),
        Err(refused) => ending::refusal(alloc, *refused),
    }
}

/// How a run ends whose outside answers nothing and grants so many steps.
pub(crate) fn eval_open(
    world: &mut Trees,
    alloc: Global,
    steps: &Text,
    script: &str,
) -> Result<String, AllocError> {
    let Some(granted) = number_of(steps) else {
        return no_call(alloc);
    };
    let mut outside = Player::new(alloc, &[], granted);
    let ended = open_run(&mut world.tree, alloc, &mut outside, &[], script, STEPS);
    opened(alloc, &ended)
}

/// How a run at a path ends.
pub(crate) fn eval_at(
    world: &mut Trees,
    alloc: Global,
    path: &Text,
    script: &str,
) -> Result<String, AllocError> {
    match read_list(alloc, path.as_str()) {
        Ok(path) => run(world, alloc, path.as_slice(), script, STEPS),
        Err(_) => no_call(alloc),
    }
}

/// A text in so many pairs of others.
fn in_pairs(
    alloc: Global,
    depth: usize,
    open: &str,
    middle: &str,
    close: &str,
) -> Result<String, AllocError> {
    let mut text = open.repeat(alloc, depth)?;
    text.push_str(middle)?;
    text.push_str(close.repeat(alloc, depth)?.as_str())?;
    Ok(text)
}

/// How a run of a script ends in which `%` stands for a text.
fn eval_filled(
    world: &mut Trees,
    alloc: Global,
    script: &str,
    text: &str,
) -> Result<String, AllocError> {
    let script = script.replace(alloc, "%", text)?;
    eval_script(world, alloc, script.as_str())
}

/// How a run of a script ends in which `%` stands for a text in so many pairs.
pub(crate) fn eval_nested(
    world: &mut Trees,
    alloc: Global,
    words: &[Text],
) -> Result<String, AllocError> {
    let [depth, open, middle, close, script] = words else {
        return no_call(alloc);
    };
    let Some(depth) = count_of(depth) else {
        return no_call(alloc);
    };
    let text = in_pairs(alloc, depth, open.as_str(), middle.as_str(), close.as_str())?;
    eval_filled(world, alloc, script.as_str(), text.as_str())
}

/// How a run of so many blanks ends, which may make no step.
pub(crate) fn eval_blanks(
    world: &mut Trees,
    alloc: Global,
    count: &Text,
) -> Result<String, AllocError> {
    let Some(count) = count_of(count) else {
        return no_call(alloc);
    };
    let blanks = " ".repeat(alloc, count)?;
    run(world, alloc, &[], blanks.as_str(), 0)
}

/// Marks the tree broken.
pub(crate) fn break_tree(world: &mut Trees, alloc: Global) -> Result<String, AllocError> {
    world.tree.mark_broken();
    done(alloc)
}
