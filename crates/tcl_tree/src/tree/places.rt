//! Interpreters by their places: how one is reached from another.
ghost use Rattle.std.specs.Prelude.{◌≡◌, ◌++◌, ◌∷◌, [], List, ℕ, Some, None, IfSome, IfNone, IfOk};
ghost use Rattle.std.specs.Option.{option_copied, option_map};

use crate::tree::{Place, Tree};
use std::alloc::{AllocError, Global};
use tcl_interpreter::node::Node;
use tcl_text::text::Text;

/// What a way of levels up and names down leads to.
#[derive(Clone, Copy, Drop)]
pub enum Reach {
    /// An interpreter.
    There(Place),
    /// A place in the tree where no interpreter is.
    Missing,
    /// Past the root.
    Outside,
}

impl Tree {
    ghost use Rattle.tcl_core.specs.Paths.{rise, falls};
    ghost use Rattle.tcl_tree.specs.Nodes.{view_of};
    ghost use Rattle.tcl_tree.specs.TreeOf.{tree_of, key_of, Names};
    ghost use Rattle.tcl_tree.specs.Reaching.{Leads};
    ghost use Rattle.tcl_tree.specs.Gone.{held_of};
    ghost use Rattle.tcl_tree.specs.Held.{StoodAt};

    /// The place of the root. This takes no memory.
    pub fn root(&self) -> Place
        ensures { Names self.now result [] }
    {
        Place { key: self.root }
    }

    /// The place of the interpreter at the path, if there is one. This takes no memory.
    pub fn place(&self, path: &[Text]) -> Option<Place>
        ensures there { IfSome result (λ place. Names self.now place path.now) }
        ensures missing { IfNone result (tree_of self.now path.now ≡ None) }
    {
        let key = self.find(path)?;
        Some(Place { key })
    }

    /// The interpreter that the place names. This takes no memory.
    pub fn node_at(&self, place: Place) -> Option<&Node>
        ensures { (p : List (List ℕ)) → Names self.now place p →
            option_map view_of (option_copied result) ≡ tree_of self.now p }
    {
        self.nodes.get(place.key)
    }

    /// The place of a child, by its name, if there is one. This takes no memory.
    pub fn child_at(&self, place: Place, name: &Text) -> Option<Place>
        ensures there { IfSome result
            (λ child. (p : List (List ℕ)) → Names self.now place p →
            Names self.now child (p ++ name.now ∷ [])) }
        ensures missing { IfNone result ((p : List (List ℕ)) → Names self.now place p →
            tree_of self.now (p ++ name.now ∷ []) ≡ None) }
    {
        let node = self.nodes.get(place.key)?;
        let key = *node.children.get(name)?;
        Some(Place { key })
    }

    // The key of the interpreter so many levels up, where that doesn't pass the root.
    fn rise(&self, key: usize, up: usize) -> Option<usize>
        requires { (p : List (List ℕ)) × (key_of self.now p ≡ Some key) }
        ensures there { IfSome result
            (λ top. (p : List (List ℕ)) → key_of self.now p ≡ Some key → (a : List (List ℕ)) ×
            (rise up p ≡ Some a) × (key_of self.now a ≡ Some top)) }
        ensures outside { IfNone result
            ((p : List (List ℕ)) → key_of self.now p ≡ Some key → rise up p ≡ None) }
    {
        let mut at = key;
        let mut level = 0;
        'climb: while level < up {
            let node = self.nodes.get(at)?;
            at = node.parent?;
            level += 1;
        }
        Some(at)
    }

    /// The interpreter's path, from the root downward; of one that is gone, the path at which it
    /// stood.
    ///
    /// # Errors
    /// Want of memory.
    pub fn path_of(&self, alloc: Global, place: Place) -> Result<Vec<Text>, AllocError>
        ensures named { IfOk result (λ path. (p : List (List ℕ)) → Names self.now place p →
            path.items ≡ p) }
        ensures stood { IfOk result (λ path. (p : List (List ℕ)) →
            StoodAt (held_of self.now) place.key p → path.items ≡ p) }
    {
        let path = self.last_names(alloc, place, usize::MAX)?;
        Ok(path)
    }

    /// The last names of the interpreter's path, so many at most, in order; of one that is gone, of
    /// the path at which it stood.
    ///
    /// # Errors
    /// Want of memory.
    pub fn last_names(
        &self,
        alloc: Global,
        place: Place,
        most: usize,
    ) -> Result<Vec<Text>, AllocError>
        ensures named { IfOk result (λ names. (p : List (List ℕ)) → Names self.now place p →
            names.items ≡ falls most p) }
        ensures stood { IfOk result (λ names. (p : List (List ℕ)) →
            StoodAt (held_of self.now) place.key p → names.items ≡ falls most p) }
    {
        let mut names = Vec::new(alloc);
        let mut at = place.key;
        'climb: for _ in 0..most {
            let Some(node) = self.nodes.get(at) else {
                break;
            };
            let Some(parent) = node.parent else {
                break;
            };
            names.push(node.name.clone()?)?;
            at = parent;
        }
        names.reverse();
        Ok(names)
    }

    /// Where the way of so many levels up and then these names down leads, as that of an alias to
    /// its target does. This takes no memory.
    pub fn reach(&self, place: Place, up: usize, down: &[Text]) -> Reach
        requires { (p : List (List ℕ)) × Names self.now place p }
        ensures { (p : List (List ℕ)) → Names self.now place p →
            Leads self.now p up down.now result }
    {
        let Some(top) = self.rise(place.key, up) else {
            return Reach::Outside;
        };
        match self.descend(top, down) {
            Some(key) => Reach::There(Place { key }),
            None => Reach::Missing,
        }
    }
}
