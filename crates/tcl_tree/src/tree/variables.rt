//! The variables of one interpreter.
ghost use Rattle.std.specs.Prelude.{◌≡◌, List, ℕ, Some, option_map};
ghost use Rattle.std.specs.Option.{option_copied, option_copied_mut};
ghost use Rattle.std.specs.Borrow.{sem};
ghost use Rattle.slab.specs.Slab.{get};
ghost use Rattle.tcl_tree.specs.Lending.{LendsFrames, LendsFramesAt};

use crate::tree::{Place, Tree};
use slab::Slab;
use tcl_frames::frames::Frames;
use tcl_interpreter::node::Node;
use tcl_text::text::Text;

// The frames of a node, to write.
fn frames_in(node: &mut Node) -> &mut Frames
    ensures* writes_back { sem 𝓛 (LendsFrames node.entry result) }
    ensures value { result.now ≡ node.old.state.frames }
{
    let state = &mut node.state;
    &mut state.frames
}

// The frames of the node at a key, to write.
fn frames_at(nodes: &mut Slab<Node>, key: usize) -> Option<&mut Frames>
    ensures* writes_back { sem 𝓛 (LendsFramesAt nodes.entry key result) }
    ensures value { option_copied_mut result ≡ option_map
        (λ node. node.state.frames) (get nodes.old key) }
{
    match nodes.get_mut(key) {
        Some(node) => Some(frames_in(node)),
        None => None,
    }
}

impl Tree {
    ghost use Rattle.tcl_tree.specs.TreeOf.{tree_of, key_of, Names};
    ghost use Rattle.tcl_tree.specs.LendingTree.{LendsFramesOf, LendsFramesIn};

    /// The frames of the interpreter at the path, if there is one. This takes no memory.
    pub fn frames(&self, path: &[Text]) -> Option<&Frames>
        ensures { option_copied result ≡ option_map (λ n. n.own.chain) (tree_of self.now path.now) }
    {
        match self.node(path) {
            Some(node) => Some(&node.state.frames),
            None => None,
        }
    }

    /// The frames of the interpreter at the path, if there is one, to write. This takes no memory.
    pub fn frames_mut(&mut self, path: &[Text]) -> Option<&mut Frames>
        ensures* writes_back { sem 𝓛 (LendsFramesOf self.entry path.now result) }
        ensures value { option_copied_mut result ≡ option_map
            (λ n. n.own.chain) (tree_of self.old path.now) }
    {
        let Some(key) = self.find(path) else {
            return None;
        };
        frames_at(&mut self.nodes, key)
    }

    /// The frames of the interpreter that the place names, to write. This takes no memory.
    pub fn frames_of(&mut self, place: Place) -> Option<&mut Frames>
        requires { (p : List (List ℕ)) × Names self.old place p }
        ensures* writes_back { sem 𝓛 (LendsFramesIn self.entry place result) }
        ensures value { (p : List (List ℕ)) → Names self.old place p →
            option_copied_mut result ≡ option_map (λ n. n.own.chain) (tree_of self.old p) }
    {
        frames_at(&mut self.nodes, place.key)
    }
}
