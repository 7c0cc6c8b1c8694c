//! The names of the variables of a level.
ghost use Rattle.std.specs.Prelude.{◌≡◌, ◌<◌, ◌+◌, ◌++◌, [], length, drop, IfOk, OnOk};
ghost use Rattle.tcl_frames.specs.Chain.{holds, kept_if, names_held, names_own, variables_at};
ghost use Rattle.tcl_frames.specs.Chain.{names_of, is_own};
ghost use Rattle.tcl_frames.specs.Places.{end_of};
ghost use Rattle.tcl_frames.specs.Reached.{start};
ghost use Rattle.tcl_frames.specs.Sound.{AreFit};
ghost use Rattle.tcl_frames.specs.declared.scope.Scope.TheVariants.{Local};

use crate::access::holds_in;
use crate::frame::Frame;
use crate::name_map::NameMap;
use crate::steps::find;
use crate::variable::Variable;
use std::alloc::{AllocError, Global};
use tcl_text::text::Text;

/// Adds a name to its end, if it is wanted.
pub(crate) fn push_if(
    names: &mut Vec<Text>,
    alloc: Global,
    is_wanted: bool,
    name: &str,
) -> Result<(), AllocError>
    ensures { OnOk result (names.new.items ≡ names.old.items ++ kept_if is_wanted name.now []) }
{
    if is_wanted {
        names.push(Text::new(alloc, name)?)?;
    }
    Ok(())
}

/// Adds a name of a level, if its place holds a value.
fn push_held(
    names: &mut Vec<Text>,
    alloc: Global,
    frames: &[Frame],
    level: usize,
    variables: &NameMap<Variable>,
    index: usize,
) -> Result<(), AllocError>
    requires fit { AreFit 0 frames.now }
    requires within { index < length variables.now }
    ensures { OnOk result
        (names.new.items ++ names_held frames.now level (drop (index + 1) variables.now)
        ≡ names.old.items ++ names_held frames.now level (drop index variables.now)) }
{
    match variables.entry(index) {
        Some((name, _)) => {
            let found = find(frames, level, name);
            let is_held = holds_in(found.variable, found.part);
            push_if(names, alloc, is_held, name)
        }
        None => unreachable!(),
    }
}

/// The names of a level whose places hold a value.
fn held_names(
    frames: &[Frame],
    alloc: Global,
    level: usize,
    variables: &NameMap<Variable>,
) -> Result<Vec<Text>, AllocError>
    requires { AreFit 0 frames.now }
    ensures { IfOk result (λ names. names.items ≡ names_held frames.now level variables.now) }
{
    let mut names = Vec::new(alloc);
    'names: for index in 0..variables.len() {
        push_held(&mut names, alloc, frames, level, variables, index)?;
    }
    Ok(names)
}

/// The names of a level whose places hold a value, where there is such a level.
pub(crate) fn names_at(
    frames: &[Frame],
    alloc: Global,
    level: usize,
) -> Result<Vec<Text>, AllocError>
    requires { AreFit 0 frames.now }
    ensures { IfOk result (λ names. names.items
        ≡ names_held frames.now level (variables_at frames.now level)) }
{
    match frames.get(level) {
        Some(frame) => held_names(frames, alloc, level, frame.variables()),
        None => Ok(Vec::new(alloc)),
    }
}

/// Whether a variable is no link.
fn is_own_variable(variable: &Variable) -> bool
    ensures { result ≡ is_own variable.now }
{
    match variable {
        Variable::Scalar(_) => true,
        Variable::Array(_) => true,
        Variable::Link(_) => false,
    }
}

/// Adds a name, if it is no link.
fn push_own(
    names: &mut Vec<Text>,
    alloc: Global,
    variables: &NameMap<Variable>,
    index: usize,
) -> Result<(), AllocError>
    requires { index < length variables.now }
    ensures { OnOk result
        (names.new.items ++ names_own (drop (index + 1) variables.now)
        ≡ names.old.items ++ names_own (drop index variables.now)) }
{
    match variables.entry(index) {
        Some((name, variable)) => push_if(names, alloc, is_own_variable(variable), name),
        None => unreachable!(),
    }
}

/// The names that are no links.
fn unlinked_names(alloc: Global, variables: &NameMap<Variable>) -> Result<Vec<Text>, AllocError>
    ensures { IfOk result (λ names. names.items ≡ names_own variables.now) }
{
    let mut names = Vec::new(alloc);
    'names: for index in 0..variables.len() {
        push_own(&mut names, alloc, variables, index)?;
    }
    Ok(names)
}

/// The names of the current level that are no links, of which level 0 has none.
pub(crate) fn own_names(frames: &[Frame], alloc: Global) -> Result<Vec<Text>, AllocError>
    ensures { IfOk result (λ names. names.items ≡ names_of Local frames.now) }
{
    if frames.len() < 2 {
        return Ok(Vec::new(alloc));
    }
    let frame = &frames[frames.len() - 1];
    unlinked_names(alloc, frame.variables())
}
