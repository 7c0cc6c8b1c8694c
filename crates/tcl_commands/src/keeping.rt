//! Readings that variables keep: a text is read as a list or as a dict once, however often it is
//! asked for its elements.
ghost use Rattle.std.specs.Prelude.{◌≡◌};
ghost use Rattle.tcl_core.specs.Paths.{Path};
ghost use Rattle.tcl_run.specs.Runs.{IsLevel};
ghost use Rattle.tcl_tree.specs.TreeOf.{tree_of, Names};

use std::alloc::Global;
use tcl_frames::frames::Frames;
use tcl_frames::variable_name::VariableName;
use tcl_tree::tree::{Place, Tree};
use tcl_value::value::Value;

/// What a text is read as.
#[derive(Clone, Copy)]
pub enum Reading {
    List,
    Dict,
}

/// Has a value keep what its text reads as, where it does and there is memory for it.
fn keep_in_value(value: &mut Value, alloc: Global, reading: Reading)
    ensures { value.new ≡ value.old }
{
    match reading {
        Reading::List => {
            let _list = value.as_list(alloc);
        }
        Reading::Dict => {
            let _dict = value.as_dict(alloc);
        }
    }
}

/// The same of the value that a name holds, if it holds one.
fn keep_in_frames(frames: &mut Frames, alloc: Global, name: &VariableName, reading: Reading)
    ensures { frames.new ≡ frames.old }
{
    if let Some(value) = frames.scalar_mut_near(name) {
        keep_in_value(value, alloc, reading);
        return;
    }
    if let Ok(value) = frames.get_mut(alloc, name.text()) {
        keep_in_value(value, alloc, reading);
    }
}

/// Has the variable of a name keep what its text reads as, in the interpreter that the place names.
/// No script sees a difference.
#[inline(never)]
pub fn keep_reading(
    tree: &mut Tree,
    alloc: Global,
    place: Place,
    name: &VariableName,
    reading: Reading,
)
    requires { (p : Path) × Names tree.old place p }
    ensures same { tree_of tree.new ≡ tree_of tree.old }
    ensures level { IsLevel tree.old tree.new }
{
    match tree.frames_of(place) {
        Some(frames) => keep_in_frames(frames, alloc, name, reading),
        None => unreachable!(),
    }
}
