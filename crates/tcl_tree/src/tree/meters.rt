//! The meters of the nodes on a way up.
ghost use Rattle.std.specs.Prelude.{◌≡◌, ℕ, Some, None};
ghost use Rattle.slab.specs.Slab.{get};
ghost use Rattle.tcl_interpreter.specs.Paths.{Path};
ghost use Rattle.tcl_interpreter.specs.declared.node.Node.{Node};
ghost use Rattle.tcl_tree.specs.Nodes.{IsSound, NoneFull, Raised, follow, full_of, tree_in};

use slab::Slab;
use tcl_interpreter::node::{Meter, Node};

/// Moves the meter of a node of the tree, and of those above it.
pub(crate) fn raise(nodes: &mut Slab<Node>, key: usize, meter: Meter)
    requires { (root : ℕ) × (p : Path) × IsSound (get nodes.old) root ×
        (follow (get nodes.old) root p ≡ Some key) ×
        NoneFull (full_of meter) (tree_in (get nodes.old) root) p }
    ensures { (root : ℕ) (p : Path) → IsSound (get nodes.old) root →
        follow (get nodes.old) root p ≡ Some key →
        Raised meter (get nodes.old) (get nodes.new) root p }
{
    let mut next = Some(key);
    'climb: while let Some(at) = next {
        next = match nodes.get_mut(at) {
            Some(node) => {
                node.state.advance(meter);
                node.parent
            }
            None => None,
        };
    }
}

/// Moves the meter of a node that has none above it.
#[inline(always)]
pub(crate) fn raise_alone(nodes: &mut Slab<Node>, key: usize, meter: Meter)
    requires room { (root : ℕ) × (p : Path) × IsSound (get nodes.old) root ×
        (follow (get nodes.old) root p ≡ Some key) ×
        NoneFull (full_of meter) (tree_in (get nodes.old) root) p }
    requires alone { (node : Node) → get nodes.old key ≡ Some node → node.parent ≡ None }
    ensures { (root : ℕ) (p : Path) → IsSound (get nodes.old) root →
        follow (get nodes.old) root p ≡ Some key →
        Raised meter (get nodes.old) (get nodes.new) root p }
{
    if let Some(top) = nodes.get_mut(key) {
        top.state.advance(meter);
    }
}
