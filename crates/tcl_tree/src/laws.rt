//! What becomes of interpreters that are deleted while in use, as laws.
ghost use Rattle.std.specs.Prelude.{◌≡◌, ◌≤◌, ◌++◌, ◌∷◌, [], ℕ, false, length};
ghost use Rattle.tcl_core.specs.Trees.{depth_of};
ghost use Rattle.tcl_interpreter.specs.Paths.{Text, Path};
ghost use Rattle.tcl_tree.specs.Changes.{Drops};
ghost use Rattle.tcl_tree.specs.Held.{gone_at, Parts};
ghost use Rattle.tcl_tree.specs.Gone.{held_of, depth_in, IsGone};
ghost use Rattle.tcl_tree.specs.TreeOf.{tree_of, key_of, Names};
ghost use Rattle.tcl_tree.specs.declared.tree.Tree as table;
ghost use Rattle.tcl_tree.specs.declared.tree.Place as table_place;

/// Where no evaluation is in progress in the root, nothing of those that are gone is left.
pub fn nothing_left()
    ensures { (t : table.Tree) → depth_of (tree_of t []) ≡ 0 → (k : ℕ) →
        gone_at (held_of t k) ≡ false }
{}

/// In whom an evaluation is in progress when it is deleted, or one above it, is gone, and the
/// highest that is gone is the one that was deleted.
pub fn deleted_are_gone()
    ensures { (t u : table.Tree) (p : Path) (n : Text) (r : Path) (place : table_place.Place) →
        Drops (tree_of t) (tree_of u) p n →
        Parts (held_of t) (key_of t) (p ++ n ∷ []) (held_of u) →
        Names t place ((p ++ n ∷ []) ++ r) → 1 ≤ depth_in t place →
        IsGone u place ((p ++ n ∷ []) ++ r) (length r) }
{}
