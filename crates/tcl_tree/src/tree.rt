//! The table of interpreters.
ghost use Rattle.std.specs.Prelude.{◌≡◌, ◌++◌, ◌∷◌, List, ℕ, Bool, true, [], IfOk, IfSome, IfNone};
ghost use Rattle.std.specs.Prelude.{IfErr, OnOk, OnErr, Some, None, option_map, is_some};
ghost use Rattle.std.specs.Option.{option_copied};
ghost use Rattle.slab.specs.Slab.{get};
ghost use Rattle.tcl_tree.specs.Nodes.{IsSound, IsGuarded};
ghost use Rattle.tcl_tree.specs.Held.{IsOrdered};

use crate::readings::Readings;
use crate::tree::limits::MOST_DEPTH;
use indexmap::IndexMap;
use slab::Slab;
use std::alloc::{AllocError, Global};
use std::cell::RefCell;
use tcl_interpreter::node::{Meter, Node, State};
use tcl_text::integer::Integers;
use tcl_text::text::Text;

pub mod children;
mod commands;
mod comparing;
mod copying;
mod gone;
mod hiding;
pub mod limits;
mod looks;
mod meters;
mod naming;
pub mod places;
mod readings;
mod variables;

/// An interpreter that is reached with no walk along its path: its key. Where an evaluation is in
/// progress in it, it keeps its key also when it is deleted.
#[derive(Clone, Copy, Drop)]
pub struct Place {
    key: usize,
}

/// A tree of interpreters, in one table.
///
/// Contracts see it as the function from paths to interpreters, `tree_of`. A path is a list of
/// names from the root downward.
pub struct Tree {
    nodes: Slab<Node>,
    root: usize,
    integers: Integers,
    broken: bool,
    readings: RefCell<Readings>,
    alloc: Global,
    ghost sound: { IsSound (get nodes) root },
    ghost guarded: { IsGuarded (get nodes) },
    ghost ordered: { IsOrdered (get nodes) root },
}

impl Drop for Tree {
    fn drop(self) {
        let Tree {
            nodes: _nodes,
            root: _,
            integers: _,
            broken: _,
            readings: _readings,
            alloc: _,
        } = self;
    }
}

impl Tree {
    ghost use Rattle.tcl_core.specs.Trees.{effect};
    ghost use Rattle.tcl_core.specs.Trees.What.{Charged, Nested, Unnested, Changed, Limited};
    ghost use Rattle.tcl_core.specs.Programs.{blocked, is_spent, is_deep};
    ghost use Rattle.tcl_tree.specs.Nodes.{NoneFull, IsNearestFull, charged, full_of, moved};
    ghost use Rattle.tcl_tree.specs.Nodes.{view_of};
    ghost use Rattle.tcl_tree.specs.TreeOf.{tree_of, key_of, marks_of, alone, new_root};
    ghost use Rattle.tcl_tree.specs.Gone.{held_of};

    /// A tree of a root alone, with the built-in commands; integer texts are read as Tcl 8 does.
    ///
    /// # Errors
    /// Want of memory.
    pub fn new(alloc: Global) -> Result<Tree, AllocError>
        ensures tree { IfOk result (λ made. tree_of made ≡ alone new_root) }
        ensures marks { IfOk result
            (λ made. marks_of made ≡ record { integers = Integers.Tcl8; broken = Bool.false }) }
    {
        Tree::with_integers(alloc, Integers::Tcl8)
    }

    /// A tree of a root alone, with the built-in commands, in which integer texts are read in this
    /// style.
    ///
    /// # Errors
    /// Want of memory.
    pub fn with_integers(alloc: Global, integers: Integers) -> Result<Tree, AllocError>
        ensures tree { IfOk result (λ made. tree_of made ≡ alone new_root) }
        ensures marks { IfOk result
            (λ made. marks_of made ≡ record { integers = integers; broken = Bool.false }) }
    {
        let state = State::new(alloc, false, true, MOST_DEPTH)?;
        let name = Text::new(alloc, "")?;
        let mut nodes = Slab::new(alloc);
        nodes.reserve(1)?;
        let root = nodes.insert_reserved(Node {
            parent: None,
            name,
            level: 0,
            children: IndexMap::new(alloc),
            gone: false,
            state,
        });
        Ok(Tree {
            nodes,
            root,
            integers,
            broken: false,
            readings: RefCell::new(Readings::new(alloc)),
            alloc,
        })
    }

    /// How integer texts are read in all its interpreters.
    pub fn integers(&self) -> Integers
        ensures { result ≡ (marks_of self.now).integers }
    {
        self.integers
    }

    /// Whether an evaluation in it ended for want of memory.
    pub fn is_broken(&self) -> bool
        ensures { result ≡ (marks_of self.now).broken }
    {
        self.broken
    }

    /// Marks it as one in which an evaluation ended for want of memory.
    pub fn mark_broken(&mut self)
        ensures marks { marks_of self.new ≡ record
            { integers = (marks_of self.old).integers; broken = true } }
        ensures tree { tree_of self.new ≡ tree_of self.old }
        ensures keys { key_of self.new ≡ key_of self.old }
        ensures held { (k : ℕ) → held_of self.new k ≡ held_of self.old k }
    {
        self.broken = true;
    }

    fn find(&self, path: &[Text]) -> Option<usize>
        ensures { result ≡ key_of self.now path.now }
    {
        let mut key = self.root;
        for name in path {
            let node = self.nodes.get(key)?;
            key = *node.children.get(name)?;
        }
        Some(key)
    }

    fn node(&self, path: &[Text]) -> Option<&Node>
        ensures { option_map view_of (option_copied result) ≡ tree_of self.now path.now }
    {
        let key = self.find(path)?;
        self.nodes.get(key)
    }

    // How many levels up the nearest full node is.
    fn full_level(&self, key: usize, meter: Meter) -> Option<usize>
        requires { (p : List (List ℕ)) × (key_of self.now p ≡ Some key) }
        ensures none { IfNone result ((p : List (List ℕ)) → key_of self.now p ≡ Some key →
            NoneFull (full_of meter) (tree_of self.now) p) }
        ensures some { IfSome result
            (λ level. (p : List (List ℕ)) → key_of self.now p ≡ Some key →
            IsNearestFull (full_of meter) (tree_of self.now) p level) }
    {
        let mut level = 0;
        let mut at = key;
        'climb: loop {
            let Some(node) = self.nodes.get(at) else {
                return None;
            };
            if node.state.is_full(meter) {
                return Some(level);
            }
            let Some(parent) = node.parent else {
                return None;
            };
            at = parent;
            level += 1;
        }
    }
}
