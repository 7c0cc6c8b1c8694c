//! Equal trees, told without memory.
ghost use Rattle.std.specs.Prelude.{◌≡◌, ◌↔◌, ◌<◌, ◌≤◌, IfNone, IfSome, IsTrue, List, ℕ, Some};
ghost use Rattle.std.specs.List.{IsDistinct};
ghost use Rattle.std.specs.Option.{option_map};
ghost use Rattle.std.specs.Str.{bytes_eq};
ghost use Rattle.indexmap.specs.IndexMap.{keys};
ghost use Rattle.slab.specs.Slab.{get};
ghost use Rattle.tcl_interpreter.specs.declared.node.Node.{Node as NodeRecord};

use crate::tree::Tree;
use tcl_interpreter::comparing::same_names;

impl Tree {
    ghost use Rattle.tcl_tree.specs.Nodes.{view_of};
    ghost use Rattle.tcl_tree.specs.TreeOf.{tree_of, marks_of};
    ghost use Rattle.tcl_tree.specs.Walking.{first_in, parent_in, sibling_in, Reached, SameBelow};
    ghost use Rattle.tcl_tree.specs.Walking.{left, left_behind};

    // The first child of the interpreter at a key.
    fn first_child(&self, key: usize) -> Option<usize>
        ensures first { result ≡ first_in (get self.now.nodes) key }
        ensures distinct { (node : NodeRecord) → get self.now.nodes key ≡ Some node →
            IsDistinct bytes_eq (keys node.children) }
    {
        let node = self.nodes.get(key)?;
        let (_, child) = node.children.as_slice().get_index(0)?;
        Some(*child)
    }

    // The child of the same parent that comes behind the interpreter at a key.
    fn next_sibling(&self, key: usize) -> Option<usize>
        ensures { result ≡ sibling_in (get self.now.nodes) key }
    {
        let node = self.nodes.get(key)?;
        let up = node.parent?;
        let parent = self.nodes.get(up)?;
        let children = parent.children.as_slice();
        let index = parent.children.get_index_of(&node.name)?;
        let (_, sibling) = children.get_index(index + 1)?;
        Some(*sibling)
    }

    // The parent of the interpreter at a key.
    fn parent_key(&self, key: usize) -> Option<usize>
        ensures { result ≡ parent_in (get self.now.nodes) key }
    {
        self.nodes.get(key)?.parent
    }

    // Whether the interpreter at a key is equal to the one at a key of another tree, names of
    // children included.
    fn is_like(&self, key: usize, other: &Tree, twin: usize) -> bool
        ensures { IsTrue result ↔
            (option_map view_of (get self.now.nodes key)
            ≡ option_map view_of (get other.now.nodes twin)) }
    {
        let Some(this) = self.nodes.get(key) else {
            return other.nodes.get(twin).is_none();
        };
        let Some(that) = other.nodes.get(twin) else {
            return false;
        };
        if !this.state.same(&that.state) {
            return false;
        }
        same_names(&this.children, &that.children)
    }

    // The two keys to which a walk comes behind two equal subtrees.
    fn pair_behind(&self, key: usize, other: &Tree, twin: usize) -> Option<(usize, usize)>
        requires reached { Reached (get self.now.nodes) (get other.now.nodes) self.now.root
            other.now.root key
            twin }
        requires same { SameBelow (get self.now.nodes) (get other.now.nodes) key twin }
        ensures some { IfSome result
            (λ p. Reached (get self.now.nodes) (get other.now.nodes) self.now.root other.now.root
            p.0 p.1) }
        ensures less { IfSome result
            (λ p. left (get self.now.nodes) p.0 ≤ left_behind (get self.now.nodes) key) }
        ensures none { IfNone result
            (SameBelow (get self.now.nodes) (get other.now.nodes) self.now.root
            other.now.root) }
    {
        let mut at = key;
        let mut twin_at = twin;
        'climb: loop {
            let siblings = self.next_sibling(at).zip(other.next_sibling(twin_at));
            if let Some((sibling, twin_sibling)) = siblings {
                return Some((sibling, twin_sibling));
            }
            let (parent, twin_parent) = self.parent_key(at).zip(other.parent_key(twin_at))?;
            at = parent;
            twin_at = twin_parent;
        }
    }

    // The two keys to which a walk comes next, from two interpreters that are equal by themselves.
    fn next_pair(&self, key: usize, other: &Tree, twin: usize) -> Option<(usize, usize)>
        requires reached { Reached (get self.now.nodes) (get other.now.nodes) self.now.root
            other.now.root key
            twin }
        requires like { option_map view_of (get self.now.nodes key)
            ≡ option_map view_of (get other.now.nodes twin) }
        ensures some { IfSome result
            (λ p. Reached (get self.now.nodes) (get other.now.nodes) self.now.root other.now.root
            p.0 p.1) }
        ensures less { IfSome result
            (λ p. left (get self.now.nodes) p.0 < left (get self.now.nodes) key) }
        ensures none { IfNone result
            (SameBelow (get self.now.nodes) (get other.now.nodes) self.now.root
            other.now.root) }
    {
        let children = self.first_child(key).zip(other.first_child(twin));
        if let Some((child, twin_child)) = children {
            return Some((child, twin_child));
        }
        self.pair_behind(key, other, twin)
    }

    /// Whether another tree has equal interpreters, all that they have and all orders of names
    /// included, and reads integer texts in the same style. Whether they are broken isn't looked
    /// at. This takes no memory, and no more stack for more levels of interpreters.
    pub fn same(&self, other: &Tree) -> bool
        ensures { IsTrue result ↔
            ((tree_of self.now ≡ tree_of other.now) ×
            ((marks_of self.now).integers ≡ (marks_of other.now).integers)) }
    {
        if self.integers != other.integers {
            return false;
        }
        let mut key = self.root;
        let mut twin = other.root;
        'walk: loop {
            if !self.is_like(key, other, twin) {
                return false;
            }
            let Some((next, twin_next)) = self.next_pair(key, other, twin) else {
                return true;
            };
            key = next;
            twin = twin_next;
        }
    }
}
