//! Interpreters that were deleted while evaluations were in progress in them or below them.
ghost use Rattle.std.specs.Prelude.{◌≡◌, List, ℕ, true, false, IsSome, IfSome, IfNone, Some};

use crate::tree::{Place, Tree};

impl Tree {
    ghost use Rattle.tcl_core.specs.Runs.{gone};
    ghost use Rattle.tcl_tree.specs.Held.{above_at, gone_at};
    ghost use Rattle.tcl_tree.specs.Gone.{held_of, Holds};
    ghost use Rattle.tcl_tree.specs.TreeOf.{tree_of};

    /// The key of the parent of an interpreter that is gone; none where it stands.
    pub(crate) fn above_gone(&self, key: usize) -> Option<usize>
        requires { IsSome (held_of self.now key) }
        ensures stands { IfNone result (gone_at (held_of self.now key) ≡ false) }
        ensures gone { IfSome result (λ above. (gone_at (held_of self.now key) ≡ true) ×
            (n : List ℕ) × (above_at (held_of self.now key) ≡ Some (above, n))) }
    {
        let Some(node) = self.nodes.get(key) else {
            unreachable!();
        };
        if !node.gone {
            return None;
        }
        let Some(above) = node.parent else {
            unreachable!();
        };
        Some(above)
    }

    /// Whether the interpreter that the place names, where an evaluation is in progress, was
    /// deleted meanwhile: how many levels up the highest is that was. This takes no memory.
    pub fn is_gone(&self, place: Place) -> Option<usize>
        requires { (p : List (List ℕ)) × (d : ℕ) × Holds self.now place p d }
        ensures { (p : List (List ℕ)) (d : ℕ) → Holds self.now place p d →
            result ≡ gone d (tree_of self.now) p }
    {
        let mut at = self.above_gone(place.key)?;
        let mut levels = 0;
        'climb: while let Some(above) = self.above_gone(at) {
            at = above;
            levels += 1;
        }
        Some(levels)
    }
}
