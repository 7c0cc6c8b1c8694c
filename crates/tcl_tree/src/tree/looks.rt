//! Look-ups of one interpreter.
ghost use Rattle.std.specs.Prelude.{◌≡◌, option_map, is_some};
ghost use Rattle.std.specs.Option.{option_copied};

use crate::tree::Tree;
use indexmap::map::Keys;
use slab::Slab;
use tcl_interpreter::command::Commands;
use tcl_interpreter::node::Node;
use tcl_text::text::Text;

impl Tree {
    ghost use Rattle.tcl_tree.specs.TreeOf.{tree_of, table_of};
    ghost use Rattle.tcl_tree.specs.Forms.{IsFormed};

    /// What holds of every tree, for whoever proves something of one. This does nothing.
    pub fn keeps_form(&self)
        ensures { IsFormed (tree_of self.now) }
    {}

    /// Whether there is an interpreter at the path. This takes no memory.
    pub fn exists(&self, path: &[Text]) -> bool
        ensures { result ≡ is_some (tree_of self.now path.now) }
    {
        self.node(path).is_some()
    }

    /// Whether the interpreter at the path is safe, if there is one. This takes no memory.
    pub fn is_safe(&self, path: &[Text]) -> Option<bool>
        ensures { result ≡ option_map (λ n. n.safe) (tree_of self.now path.now) }
    {
        match self.node(path) {
            Some(node) => Some(node.state.safe),
            None => None,
        }
    }

    /// How many steps were counted in the interpreter at the path, if there is one. This takes no
    /// memory.
    pub fn count(&self, path: &[Text]) -> Option<u64>
        ensures { result ≡ option_map (λ n. n.count) (tree_of self.now path.now) }
    {
        match self.node(path) {
            Some(node) => Some(node.state.count),
            None => None,
        }
    }

    /// The limit of steps of the interpreter at the path, if there is one. This takes no memory.
    pub fn limit(&self, path: &[Text]) -> Option<Option<u64>>
        ensures { result ≡ option_map (λ n. n.limit) (tree_of self.now path.now) }
    {
        match self.node(path) {
            Some(node) => Some(node.state.limit),
            None => None,
        }
    }

    /// How many evaluations are in progress in the interpreter at the path and below it, if there
    /// is one. This takes no memory.
    pub fn depth(&self, path: &[Text]) -> Option<u64>
        ensures { result ≡ option_map (λ n. n.depth) (tree_of self.now path.now) }
    {
        match self.node(path) {
            Some(node) => Some(node.state.depth),
            None => None,
        }
    }

    /// The limit of depth of the interpreter at the path, if there is one. This takes no memory.
    pub fn depth_limit(&self, path: &[Text]) -> Option<u64>
        ensures { result ≡ option_map (λ n. n.depth_limit) (tree_of self.now path.now) }
    {
        match self.node(path) {
            Some(node) => Some(node.state.depth_limit),
            None => None,
        }
    }

    /// The names of the children of the interpreter at the path, in order, if there is one. This
    /// takes no memory.
    pub fn children(&self, path: &[Text]) -> Option<Keys<'_, Text, usize>>
        ensures { result ≡ option_map (λ n. n.own.children) (tree_of self.now path.now) }
    {
        match self.node(path) {
            Some(node) => Some(node.children.keys()),
            None => None,
        }
    }

    /// The commands of the interpreter at the path, if there is one. This takes no memory.
    pub fn commands(&self, path: &[Text]) -> Option<&Commands>
        ensures { option_map (λ m. m.entries) (option_copied result) ≡ option_map
            (λ n. n.own.commands) (tree_of self.now path.now) }
    {
        match self.node(path) {
            Some(node) => Some(&node.state.commands),
            None => None,
        }
    }

    /// The hidden commands of the interpreter at the path, if there is one. This takes no memory.
    pub fn hidden_commands(&self, path: &[Text]) -> Option<&Commands>
        ensures { option_map (λ m. m.entries) (option_copied result) ≡ option_map
            (λ n. n.own.hidden) (tree_of self.now path.now) }
    {
        match self.node(path) {
            Some(node) => Some(&node.state.hidden),
            None => None,
        }
    }

    /// The table: each interpreter with its parent's key, and its children's names and keys in
    /// order. This takes no memory.
    pub fn table(&self) -> &Slab<Node>
        ensures { result.now ≡ table_of self.now }
    {
        &self.nodes
    }
}
