//! Children: interpreters that are made and deleted.
ghost use Rattle.std.specs.Prelude.{◌≡◌, ◌≢◌, ◌+◌, List, ℕ, Bool, true, false, [], ◌∷◌, ◌++◌, IfOk};
ghost use Rattle.std.specs.Prelude.{IfErr, OnOk, OnErr, Some, None, IsSome};
ghost use Rattle.tcl_core.specs.Programs.{either};
ghost use Rattle.tcl_tree.specs.Changes.{interp_name, IsFirstFree, RefusesName};
ghost use Rattle.tcl_interpreter.specs.declared.refusal.TreeError.TheVariants.{Memory};

use crate::tree::{Place, Tree};
use indexmap::IndexMap;
use std::alloc::{AllocError, Global};
use tcl_interpreter::command::Commands;
use tcl_interpreter::name::is_name;
use tcl_interpreter::node::{Node, State};
use tcl_interpreter::refusal::TreeError;
use tcl_interpreter::steps::{attach, detach, make_room};
use tcl_text::text::Text;

/// The most children that an interpreter has.
pub const MOST_CHILDREN: usize = 256;

/// The limit of depth with which a child begins.
pub const CHILD_DEPTH: u64 = 200;

// Whether a child is safe: where that is asked for, or its parent is.
fn is_child_safe(asked: bool, parent: bool) -> bool
    ensures { result ≡ either asked parent }
{
    asked || parent
}

// The name that a child without one gets, by its number.
fn interp_name(alloc: Global, number: u64) -> Result<Text, AllocError>
    ensures { IfOk result (λ name. name ≡ interp_name number) }
{
    Text::from_string(alloc, format!(in alloc; "interp{number}")?)
}

// The first such name that is no command.
fn first_free(alloc: Global, commands: &Commands) -> Result<Text, AllocError>
    ensures free { IfOk result (λ name. IsFirstFree commands.now.entries name) }
{
    'numbers: for number in 0..u64::MAX {
        let name = interp_name(alloc, number)?;
        if !commands.contains_key(&name) {
            return Ok(name);
        }
    }
    // So many commands fit no memory.
    Err(AllocError)
}

impl Tree {
    ghost use Rattle.tcl_interpreter.specs.Paths.{is_above};
    ghost use Rattle.tcl_tree.specs.Nodes.{NodeView, IsLeaf, pruned};
    ghost use Rattle.tcl_tree.specs.Changes.{MayMake, Makes, RefusesMake, Drops, RefusesDrop};
    ghost use Rattle.tcl_tree.specs.TreeOf.{tree_of, key_of, marks_of, Names};
    ghost use Rattle.tcl_tree.specs.Held.{Gains, Parts, parted, standing};
    ghost use Rattle.tcl_tree.specs.Gone.{held_of};

    /// The name that a child of the interpreter at the path gets where none is given: `interp` and
    /// the least number with which it is no command there.
    ///
    /// # Errors
    /// TreeError 301. Want of memory.
    pub fn free_name(&self, alloc: Global, path: &[Text]) -> Result<Text, TreeError>
        ensures free { IfOk result
            (λ name. (v : NodeView) → tree_of self.now path.now ≡ Some v →
            IsFirstFree v.own.commands name) }
        ensures there { OnOk result (IsSome (tree_of self.now path.now)) }
        ensures refused { IfErr result (λ e. RefusesName e (tree_of self.now) path.now) }
    {
        match self.commands(path) {
            Some(commands) => Ok(first_free(alloc, commands)?),
            None => Err(TreeError::NoInterpreter),
        }
    }

    /// The name that a child of the interpreter that the place names gets where none is given.
    ///
    /// # Errors
    /// Want of memory.
    pub fn free_name_at(&self, alloc: Global, place: Place) -> Result<Text, AllocError>
        requires { (p : List (List ℕ)) × Names self.now place p }
        ensures free { IfOk result
            (λ name. (p : List (List ℕ)) (v : NodeView) → Names self.now place p →
            tree_of self.now p ≡ Some v → IsFirstFree v.own.commands name) }
    {
        match self.nodes.get(place.key) {
            Some(node) => first_free(alloc, &node.state.commands),
            None => unreachable!(),
        }
    }

    /// Makes a child of this name in the interpreter at the path: safe where that is asked for or
    /// the parent is safe.
    ///
    /// # Errors
    /// Refusals, in this order: 301 of the path; 238 of the name; 302 where it is a command; 307.
    /// Want of memory.
    pub fn create(
        &mut self,
        alloc: Global,
        path: &[Text],
        name: &Text,
        safe: bool,
    ) -> Result<(), TreeError>
        ensures may { OnOk result (MayMake (tree_of self.old) path.now name.now) }
        ensures made { OnOk result
            (Makes (tree_of self.old) (tree_of self.new) path.now name.now safe) }
        ensures refused { IfErr result (λ e. RefusesMake e (tree_of self.old) path.now name.now) }
        ensures unchanged { OnErr result (tree_of self.new ≡ tree_of self.old) }
        ensures keys { (q : List (List ℕ)) (k : ℕ) → key_of self.old q ≡ Some k →
            key_of self.new q ≡ Some k }
        ensures gains { OnOk result (Gains (held_of self.old) (held_of self.new)) }
        ensures held { OnErr result ((k : ℕ) → held_of self.new k ≡ held_of self.old k) }
        ensures marks { marks_of self.new ≡ marks_of self.old }
    {
        let Some(place) = self.place(path) else {
            return Err(TreeError::NoInterpreter);
        };
        self.create_at(alloc, place, name, safe)
    }

    /// Makes a child of this name in the interpreter that the place names: safe where that is asked
    /// for or the parent is safe.
    ///
    /// # Errors
    /// Refusals, in this order: 238 of the name; 302 where it is a command; 307. Want of memory.
    pub fn create_at(
        &mut self,
        alloc: Global,
        place: Place,
        name: &Text,
        safe: bool,
    ) -> Result<(), TreeError>
        requires { (p : List (List ℕ)) × Names self.old place p }
        ensures may { OnOk result ((p : List (List ℕ)) → Names self.old place p →
            MayMake (tree_of self.old) p name.now) }
        ensures made { OnOk result ((p : List (List ℕ)) → Names self.old place p →
            Makes (tree_of self.old) (tree_of self.new) p name.now safe) }
        ensures refused { IfErr result
            (λ e. (p : List (List ℕ)) → Names self.old place p →
            RefusesMake e (tree_of self.old) p name.now) }
        ensures unchanged { OnErr result (tree_of self.new ≡ tree_of self.old) }
        ensures keys { (q : List (List ℕ)) (k : ℕ) → key_of self.old q ≡ Some k →
            key_of self.new q ≡ Some k }
        ensures gains { OnOk result (Gains (held_of self.old) (held_of self.new)) }
        ensures held { OnErr result ((k : ℕ) → held_of self.new k ≡ held_of self.old k) }
        ensures marks { marks_of self.new ≡ marks_of self.old }
    {
        let parent = place.key;
        let Some(up) = self.nodes.get(parent) else {
            unreachable!();
        };
        if !is_name(name) {
            return Err(TreeError::BadName);
        }
        if up.state.commands.contains_key(name) {
            return Err(TreeError::Exists);
        }
        if up.children.contains_key(name) {
            return Err(TreeError::Exists);
        }
        if up.children.len() >= MOST_CHILDREN {
            return Err(TreeError::TooMany);
        }
        // So deep a chain of interpreters fits no memory.
        let Some(level) = up.level.checked_add(1) else {
            return Err(TreeError::Memory);
        };
        let safe = is_child_safe(safe, up.state.safe);
        let state = State::new(alloc, safe, false, CHILD_DEPTH)?;
        let own_name = name.clone()?;
        let label = name.clone()?;
        let twin = name.clone()?;
        make_room(&mut self.nodes, parent)?;
        let node = Node {
            parent: Some(parent),
            name: own_name,
            level,
            children: IndexMap::new(alloc),
            gone: false,
            state,
        };
        attach(&mut self.nodes, parent, label, twin, node);
        Ok(())
    }

    // A node below this one, or this one, that has no children.
    fn deepest(&self, key: usize) -> usize
        requires { (p : List (List ℕ)) × (key_of self.now p ≡ Some key) }
        ensures leads { (p : List (List ℕ)) → key_of self.now p ≡ Some key →
            (rest : List (List ℕ)) × (key_of self.now (p ++ rest) ≡ Some result) }
        ensures leaf { IsLeaf self.now.nodes result }
    {
        let mut at = key;
        'descend: loop {
            let Some(node) = self.nodes.get(at) else {
                return at;
            };
            let last = node.children.len().saturating_sub(1);
            let Some((_, child)) = node.children.get_index(last) else {
                return at;
            };
            at = *child;
        }
    }

    // Takes a node that has no children and is not the root out of the tree, and answers with the
    // key of its parent. It stays in the table where it is in use.
    fn prune(&mut self, key: usize) -> usize
        requires there { (p : List (List ℕ)) × (n : List ℕ) ×
            (key_of self.old (p ++ n ∷ []) ≡ Some key) }
        requires leaf { IsLeaf self.old.nodes key }
        ensures tree { (p : List (List ℕ)) (n : List ℕ) → key_of self.old (p ++ n ∷ []) ≡ Some key →
            (q : List (List ℕ)) → tree_of self.new q ≡ pruned (tree_of self.old) p n q }
        ensures parent { (p : List (List ℕ)) (n : List ℕ) →
            key_of self.old (p ++ n ∷ []) ≡ Some key → key_of self.new p ≡ Some result }
        ensures keys { (q : List (List ℕ)) (k : ℕ) → key_of self.old q ≡ Some k → k ≢ key →
            key_of self.new q ≡ Some k }
        ensures before { (q : List (List ℕ)) (k : ℕ) → key_of self.new q ≡ Some k →
            key_of self.old q ≡ Some k }
        ensures marks { marks_of self.new ≡ marks_of self.old }
        ensures parted { held_of self.new key ≡ parted (held_of self.old key) }
        ensures others { (k : ℕ) → k ≢ key → held_of self.new k ≡ held_of self.old k }
        ensures fewer { standing self.new.nodes + 1 ≡ standing self.old.nodes }
    {
        let Some(node) = self.nodes.get(key) else {
            unreachable!();
        };
        let Some(parent) = node.parent else {
            unreachable!();
        };
        detach(&mut self.nodes, key, parent);
        parent
    }

    // Takes a node that is not the root, with all below it, out of the tree.
    fn fell(&mut self, top: usize)
        requires { (p : List (List ℕ)) × (n : List ℕ) × (key_of self.old (p ++ n ∷ []) ≡ Some top) }
        ensures dropped { (p : List (List ℕ)) (n : List ℕ) →
            key_of self.old (p ++ n ∷ []) ≡ Some top →
            Drops (tree_of self.old) (tree_of self.new) p n }
        ensures keys { (p : List (List ℕ)) (n : List ℕ) → key_of self.old (p ++ n ∷ []) ≡ Some top →
            (q : List (List ℕ)) (k : ℕ) → is_above (p ++ n ∷ []) q ≡ false →
            key_of self.old q ≡ Some k → key_of self.new q ≡ Some k }
        ensures parts { (p : List (List ℕ)) (n : List ℕ) →
            key_of self.old (p ++ n ∷ []) ≡ Some top →
            Parts (held_of self.old) (key_of self.old) (p ++ n ∷ []) (held_of self.new) }
        ensures marks { marks_of self.new ≡ marks_of self.old }
    {
        let mut at = top;
        'prune: loop {
            let leaf = self.deepest(at);
            at = self.prune(leaf);
            if leaf == top {
                return;
            }
        }
    }

    /// Deletes the child of this name of the interpreter at the path, with all below it. Those in
    /// which an evaluation is in progress are gone, and stay in the table until it ends. This takes
    /// no memory.
    ///
    /// # Errors
    /// TreeError 301 where there is none.
    pub fn delete(&mut self, path: &[Text], name: &Text) -> Result<(), TreeError>
        ensures there { OnOk result (IsSome (tree_of self.old (path.now ++ name.now ∷ []))) }
        ensures dropped { OnOk result
            (Drops (tree_of self.old) (tree_of self.new) path.now name.now) }
        ensures refused { IfErr result (λ e. RefusesDrop e (tree_of self.old) path.now name.now) }
        ensures unchanged { OnErr result (tree_of self.new ≡ tree_of self.old) }
        ensures kept { OnErr result ((q : List (List ℕ)) → key_of self.new q ≡ key_of self.old q) }
        ensures keys { (q : List (List ℕ)) (k : ℕ) →
            is_above (path.now ++ name.now ∷ []) q ≡ false → key_of self.old q ≡ Some k →
            key_of self.new q ≡ Some k }
        ensures parts { OnOk result (Parts (held_of self.old) (key_of self.old)
            (path.now ++ name.now ∷ []) (held_of self.new)) }
        ensures held { OnErr result ((k : ℕ) → held_of self.new k ≡ held_of self.old k) }
        ensures marks { marks_of self.new ≡ marks_of self.old }
    {
        let Some(key) = self.find(path) else {
            return Err(TreeError::NoInterpreter);
        };
        self.delete_at(Place { key }, name)
    }

    /// Deletes the child of this name of the interpreter that the place names, with all below it.
    /// Those in which an evaluation is in progress are gone, and stay in the table until it ends.
    /// This takes no memory.
    ///
    /// # Errors
    /// TreeError 301 where there is none.
    pub fn delete_at(&mut self, place: Place, name: &Text) -> Result<(), TreeError>
        requires { (p : List (List ℕ)) × Names self.old place p }
        ensures there { OnOk result ((p : List (List ℕ)) → Names self.old place p →
            IsSome (tree_of self.old (p ++ name.now ∷ []))) }
        ensures dropped { OnOk result ((p : List (List ℕ)) → Names self.old place p →
            Drops (tree_of self.old) (tree_of self.new) p name.now) }
        ensures refused { IfErr result
            (λ e. (p : List (List ℕ)) → Names self.old place p →
            RefusesDrop e (tree_of self.old) p name.now) }
        ensures unchanged { OnErr result (tree_of self.new ≡ tree_of self.old) }
        ensures kept { OnErr result ((q : List (List ℕ)) → key_of self.new q ≡ key_of self.old q) }
        ensures keys { (p : List (List ℕ)) → Names self.old place p → (q : List (List ℕ)) (k : ℕ) →
            is_above (p ++ name.now ∷ []) q ≡ false → key_of self.old q ≡ Some k →
            key_of self.new q ≡ Some k }
        ensures parts { OnOk result ((p : List (List ℕ)) → Names self.old place p →
            Parts (held_of self.old) (key_of self.old) (p ++ name.now ∷ []) (held_of self.new)) }
        ensures held { OnErr result ((k : ℕ) → held_of self.new k ≡ held_of self.old k) }
        ensures marks { marks_of self.new ≡ marks_of self.old }
    {
        let Some(up) = self.nodes.get(place.key) else {
            unreachable!();
        };
        let Some(child) = up.children.get(name) else {
            return Err(TreeError::NoInterpreter);
        };
        let top = *child;
        self.fell(top);
        Ok(())
    }
}
