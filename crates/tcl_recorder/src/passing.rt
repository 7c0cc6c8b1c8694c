//! Which crossings pass the top of a subtree.
ghost use Rattle.std.specs.Prelude.{◌≡◌, ◌++◌, Some, length};
ghost use Rattle.std.specs.Option.{option_copied};
ghost use Rattle.tcl_core.specs.Paths.{rise, strip};
ghost use Rattle.tcl_recorder.specs.Boundary.{passing};

use tcl_text::text::Text;
use tcl_tree::alias::in_common;

/// What is left of a path below another one, if it is there or below it. This takes no memory.
pub(crate) fn below<'a>(top: &[Text], path: &'a [Text]) -> Option<&'a [Text]>
    ensures { option_copied result ≡ strip top.now path.now }
{
    let common = in_common(top, path);
    if common < top.len() {
        return None;
    }
    Some(&path[common..])
}

/// What is left of an interpreter's path below the top, if it is there or below it and a way so
/// many levels up passes the top. A way to the outside of the tree passes every top. This takes no
/// memory.
pub(crate) fn passing<'a>(top: &[Text], path: &'a [Text], up: Option<usize>) -> Option<&'a [Text]>
    ensures { option_copied result ≡ passing top.now path.now up }
{
    let inside = below(top, path)?;
    match up {
        Some(levels) if levels <= inside.len() => None,
        _ => Some(inside),
    }
}

/// The same of the path that leads from an interpreter down by these names, and the way back up.
/// This takes no memory.
pub(crate) fn arriving<'a>(top: &[Text], from: &[Text], down: &'a [Text]) -> Option<&'a [Text]>
    ensures { option_copied result
        ≡ passing top.now (from.now ++ down.now) (Some (length down.now)) }
{
    let rest = below(from, top)?;
    if rest.is_empty() {
        return None;
    }
    below(rest, down)
}

/// The path of the interpreter so many levels up, unless that passes the top of the tree. This
/// takes no memory.
pub(crate) fn top_of_way(path: &[Text], up: usize) -> Option<&[Text]>
    ensures { option_copied result ≡ rise up path.now }
{
    let levels = path.len().checked_sub(up)?;
    Some(&path[..levels])
}
