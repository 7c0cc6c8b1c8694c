//! Steps and levels: what is counted in an interpreter and in all above it.
ghost use Rattle.std.specs.Prelude.{◌≡◌, ◌++◌, List, ℕ, IfOk, IfErr, OnOk, OnErr, Some, None, []};
ghost use Rattle.std.specs.Prelude.{IsSome, ◌≢◌, IfSome};
ghost use Rattle.std.specs.Bool.{OnTrue, OnFalse};
ghost use Rattle.slab.specs.Slab.{get};
ghost use Rattle.tcl_interpreter.specs.declared.node.Node.{Node};

use crate::tree::meters::{raise, raise_alone};
use crate::tree::{Place, Tree};
use tcl_interpreter::node::{MOST_STEPS, Meter};
use tcl_interpreter::refusal::TreeError;
use tcl_interpreter::steps::ease;
use tcl_text::text::Text;

/// The greatest limit of depth.
pub const MOST_DEPTH: u64 = 1000;

impl Tree {
    ghost use Rattle.tcl_core.specs.Trees.{effect};
    ghost use Rattle.tcl_core.specs.Trees.What.{Charged, Nested, Unnested, Limited, DepthLimited};
    ghost use Rattle.tcl_core.specs.Programs.{blocked, is_spent, is_deep};
    ghost use Rattle.tcl_tree.specs.Changes.{RefusesStep, RefusesLevel, MayDeepen, RefusesToDeepen};
    ghost use Rattle.tcl_tree.specs.Order.{FirstOfDepth};
    ghost use Rattle.tcl_tree.specs.Nodes.{NoneFull, IsNearestFull, charged, full_of, moved};
    ghost use Rattle.tcl_tree.specs.TreeOf.{tree_of, key_of, marks_of, Names};
    ghost use Rattle.tcl_tree.specs.Gone.{held_of, Holds};
    ghost use Rattle.tcl_tree.specs.Held.{Deepens, Shallows, IsInnermost};
    ghost use Rattle.tcl_interpreter.specs.declared.node.Meter.TheVariants.{Steps, Levels, Back};

    // Whether a meter of the interpreter is full, where it has none above it.
    #[inline(always)]
    fn full_alone(&self, key: usize, meter: Meter) -> Option<bool>
        requires { (p : List (List ℕ)) × (key_of self.now p ≡ Some key) }
        ensures full { IfSome result (λ full. OnTrue full ((p : List (List ℕ)) →
            key_of self.now p ≡ Some key →
            IsNearestFull (full_of meter) (tree_of self.now) p 0)) }
        ensures room { IfSome result (λ full. OnFalse full ((p : List (List ℕ)) →
            key_of self.now p ≡ Some key → NoneFull (full_of meter) (tree_of self.now) p)) }
        ensures alone { IfSome result (λ _. (node : Node) → get self.now.nodes key ≡ Some node →
            node.parent ≡ None) }
    {
        let node = self.nodes.get(key)?;
        if node.parent.is_some() {
            return None;
        }
        Some(node.state.is_full(meter))
    }

    // Moves a meter of the interpreter and of those above it, or says how many levels up it is
    // full.
    fn move_at(&mut self, key: usize, meter: Meter) -> Result<(), usize>
        requires there { (p : List (List ℕ)) × (key_of self.old p ≡ Some key) }
        requires onward { meter ≢ Back }
        ensures keys { (q : List (List ℕ)) → key_of self.new q ≡ key_of self.old q }
        ensures marks { marks_of self.new ≡ marks_of self.old }
        ensures charged { OnOk result
            ((p : List (List ℕ)) → key_of self.old p ≡ Some key → (q : List (List ℕ)) →
            tree_of self.new q ≡ charged (moved meter) (tree_of self.old) p q) }
        ensures room { OnOk result ((p : List (List ℕ)) → key_of self.old p ≡ Some key →
            NoneFull (full_of meter) (tree_of self.old) p) }
        ensures full { IfErr result
            (λ level. (p : List (List ℕ)) → key_of self.old p ≡ Some key →
            IsNearestFull (full_of meter) (tree_of self.old) p level) }
        ensures unchanged { OnErr result
            ((q : List (List ℕ)) → tree_of self.new q ≡ tree_of self.old q) }
        ensures as_before { OnErr result ((k : ℕ) → held_of self.new k ≡ held_of self.old k) }
        ensures counted { meter ≡ Steps → (k : ℕ) → held_of self.new k ≡ held_of self.old k }
        ensures deeper { OnOk result
            (meter ≡ Levels → Deepens (held_of self.old) key (held_of self.new)) }
    {
        if let Some(full) = self.full_alone(key, meter) {
            if full {
                return Err(0);
            }
            raise_alone(&mut self.nodes, key, meter);
            return Ok(());
        }
        if let Some(level) = self.full_level(key, meter) {
            return Err(level);
        }
        raise(&mut self.nodes, key, meter);
        Ok(())
    }

    /// Counts a step in the interpreter and in all above it. This takes no memory.
    ///
    /// # Errors
    /// How many levels up the nearest interpreter is whose limit would be passed, itself first
    /// (refusal 308). Then nothing is counted.
    pub fn charge_at(&mut self, place: Place) -> Result<(), usize>
        requires { (p : List (List ℕ)) × Names self.old place p }
        ensures keys { (q : List (List ℕ)) → key_of self.new q ≡ key_of self.old q }
        ensures held { (k : ℕ) → held_of self.new k ≡ held_of self.old k }
        ensures marks { marks_of self.new ≡ marks_of self.old }
        ensures charged { OnOk result ((p : List (List ℕ)) → Names self.old place p →
            (blocked is_spent (tree_of self.old) p ≡ None) ×
            (tree_of self.new ≡ effect p Charged (tree_of self.old))) }
        ensures refused { IfErr result
            (λ n. (p : List (List ℕ)) → Names self.old place p →
            (blocked is_spent (tree_of self.old) p ≡ Some n) ×
            (tree_of self.new ≡ tree_of self.old)) }
    {
        self.move_at(place.key, Meter::Steps)
    }

    /// How many levels up the nearest interpreter is whose limit of steps one more step would pass,
    /// itself first; none where a step can be counted. This takes no memory.
    pub fn spent_at(&self, place: Place) -> Option<usize>
        requires { (p : List (List ℕ)) × Names self.now place p }
        ensures { (p : List (List ℕ)) → Names self.now place p →
            result ≡ blocked is_spent (tree_of self.now) p }
    {
        self.full_level(place.key, Meter::Steps)
    }

    /// Begins an evaluation in the interpreter, so that it and all above it are one level deeper.
    /// This takes no memory.
    ///
    /// # Errors
    /// How many levels up the nearest interpreter is whose limit would be passed, itself first
    /// (refusal 308). Then nothing begins.
    pub fn nest_at(&mut self, place: Place) -> Result<(), usize>
        requires { (p : List (List ℕ)) × Names self.old place p }
        ensures keys { (q : List (List ℕ)) → key_of self.new q ≡ key_of self.old q }
        ensures deeper { OnOk result (Deepens (held_of self.old) place.key (held_of self.new)) }
        ensures held { OnErr result ((k : ℕ) → held_of self.new k ≡ held_of self.old k) }
        ensures marks { marks_of self.new ≡ marks_of self.old }
        ensures nested { OnOk result ((p : List (List ℕ)) → Names self.old place p →
            (blocked is_deep (tree_of self.old) p ≡ None) ×
            (tree_of self.new ≡ effect p Nested (tree_of self.old))) }
        ensures refused { IfErr result
            (λ n. (p : List (List ℕ)) → Names self.old place p →
            (blocked is_deep (tree_of self.old) p ≡ Some n) ×
            (tree_of self.new ≡ tree_of self.old)) }
    {
        self.move_at(place.key, Meter::Levels)
    }

    /// Ends the evaluation that began last in the interpreter, so that it and all above it are one
    /// level less deep. One that is gone, and in which none is in progress any more, is left no
    /// longer. This takes no memory.
    #[inline]
    pub fn unnest(&mut self, place: Place)
        requires holds { (p : List (List ℕ)) × (d : ℕ) × Holds self.old place p d }
        requires innermost { IsInnermost (held_of self.old) place.key }
        ensures keys { (q : List (List ℕ)) → key_of self.new q ≡ key_of self.old q }
        ensures shallower { Shallows (held_of self.old) place.key (held_of self.new) }
        ensures marks { marks_of self.new ≡ marks_of self.old }
        ensures unnested { (p : List (List ℕ)) (d : ℕ) → Holds self.old place p d →
            tree_of self.new ≡ effect p Unnested (tree_of self.old) }
    {
        let mut at = place.key;
        'gone: while let Some(above) = self.above_gone(at) {
            ease(&mut self.nodes, at);
            at = above;
        }
        raise(&mut self.nodes, at, Meter::Back);
    }

    /// Counts a step in the interpreter at the path and in all above it. This takes no memory.
    ///
    /// # Errors
    /// TreeError 301; or 308, with how many levels up the nearest interpreter is whose limit would
    /// be passed, itself first. Then nothing is counted.
    pub fn charge(&mut self, path: &[Text]) -> Result<(), TreeError>
        ensures keys { (q : List (List ℕ)) → key_of self.new q ≡ key_of self.old q }
        ensures held { (k : ℕ) → held_of self.new k ≡ held_of self.old k }
        ensures marks { marks_of self.new ≡ marks_of self.old }
        ensures there { OnOk result (IsSome (tree_of self.old path.now)) }
        ensures room { OnOk result (blocked is_spent (tree_of self.old) path.now ≡ None) }
        ensures charged { OnOk result
            (tree_of self.new ≡ effect path.now Charged (tree_of self.old)) }
        ensures refused { IfErr result (λ e. RefusesStep e (tree_of self.old) path.now) }
        ensures unchanged { OnErr result (tree_of self.new ≡ tree_of self.old) }
    {
        let Some(key) = self.find(path) else {
            return Err(TreeError::NoInterpreter);
        };
        match self.charge_at(Place { key }) {
            Ok(()) => Ok(()),
            Err(levels) => Err(TreeError::CountLimit(levels)),
        }
    }

    /// Begins an evaluation in the interpreter at the path, and gives its place, by which the
    /// evaluation is ended. This takes no memory.
    ///
    /// # Errors
    /// TreeError 301; or 308, with how many levels up the nearest interpreter is whose limit would
    /// be passed, itself first. Then nothing begins.
    pub fn nest(&mut self, path: &[Text]) -> Result<Place, TreeError>
        ensures keys { (q : List (List ℕ)) → key_of self.new q ≡ key_of self.old q }
        ensures deeper { IfOk result
            (λ place. Deepens (held_of self.old) place.key (held_of self.new)) }
        ensures held { OnErr result ((k : ℕ) → held_of self.new k ≡ held_of self.old k) }
        ensures marks { marks_of self.new ≡ marks_of self.old }
        ensures place { IfOk result (λ place. Names self.new place path.now) }
        ensures room { OnOk result (blocked is_deep (tree_of self.old) path.now ≡ None) }
        ensures nested { OnOk result
            (tree_of self.new ≡ effect path.now Nested (tree_of self.old)) }
        ensures refused { IfErr result (λ e. RefusesLevel e (tree_of self.old) path.now) }
        ensures unchanged { OnErr result (tree_of self.new ≡ tree_of self.old) }
    {
        let Some(key) = self.find(path) else {
            return Err(TreeError::NoInterpreter);
        };
        let place = Place { key };
        match self.nest_at(place) {
            Ok(()) => Ok(place),
            Err(levels) => Err(TreeError::DepthLimit(levels)),
        }
    }

    /// Sets or clears the root's limit of steps, as a run does for its length. This takes no
    /// memory.
    pub fn set_run_limit(&mut self, limit: Option<u64>)
        ensures keys { (q : List (List ℕ)) → key_of self.new q ≡ key_of self.old q }
        ensures held { (k : ℕ) → held_of self.new k ≡ held_of self.old k }
        ensures marks { marks_of self.new ≡ marks_of self.old }
        ensures limited { tree_of self.new ≡ effect [] (Limited limit) (tree_of self.old) }
    {
        let root = self.root();
        self.set_limit_at(root, limit);
    }

    /// Sets or clears the limit of steps of the interpreter that the place names, whoever asks.
    /// This takes no memory.
    pub fn set_limit_at(&mut self, place: Place, limit: Option<u64>)
        requires { (p : List (List ℕ)) × Names self.old place p }
        ensures keys { (q : List (List ℕ)) → key_of self.new q ≡ key_of self.old q }
        ensures held { (k : ℕ) → held_of self.new k ≡ held_of self.old k }
        ensures marks { marks_of self.new ≡ marks_of self.old }
        ensures limited { (p : List (List ℕ)) → Names self.old place p →
            tree_of self.new ≡ effect p (Limited limit) (tree_of self.old) }
    {
        match self.nodes.get_mut(place.key) {
            Some(node) => node.state.limit = limit,
            None => unreachable!(),
        }
    }

    /// Sets the limit of depth of the interpreter that the place names, whoever asks. This takes no
    /// memory.
    ///
    /// # Errors
    /// Refusals, in this order: 304 where it is the root; 309 where the limit isn't from 1 to
    /// [`MOST_DEPTH`].
    pub fn set_depth_limit_at(&mut self, place: Place, limit: u64) -> Result<(), TreeError>
        requires { (p : List (List ℕ)) × Names self.old place p }
        ensures keys { (q : List (List ℕ)) → key_of self.new q ≡ key_of self.old q }
        ensures held { (k : ℕ) → held_of self.new k ≡ held_of self.old k }
        ensures marks { marks_of self.new ≡ marks_of self.old }
        ensures may { OnOk result ((p : List (List ℕ)) → Names self.old place p →
            MayDeepen (tree_of self.old) p limit) }
        ensures limited { OnOk result ((p : List (List ℕ)) → Names self.old place p →
            tree_of self.new ≡ effect p (DepthLimited limit) (tree_of self.old)) }
        ensures refused { IfErr result
            (λ e. (p : List (List ℕ)) → Names self.old place p →
            RefusesToDeepen e (tree_of self.old) p limit) }
        ensures order { IfErr result
            (λ e. (p : List (List ℕ)) → Names self.old place p →
            FirstOfDepth e (tree_of self.old) p limit) }
        ensures unchanged { OnErr result (tree_of self.new ≡ tree_of self.old) }
    {
        let Some(node) = self.nodes.get(place.key) else {
            unreachable!();
        };
        if node.state.root {
            return Err(TreeError::Denied);
        }
        if limit == 0 {
            return Err(TreeError::BadDepthLimit);
        }
        if limit > MOST_DEPTH {
            return Err(TreeError::BadDepthLimit);
        }
        match self.nodes.get_mut(place.key) {
            Some(node) => {
                node.state.depth_limit = limit;
                Ok(())
            }
            None => unreachable!(),
        }
    }
}

impl Tree {
    ghost use Rattle.tcl_core.specs.Trees.{effect};
    ghost use Rattle.tcl_core.specs.Trees.What.{Limited, DepthLimited};
    ghost use Rattle.tcl_tree.specs.TreeOf.{tree_of, key_of, marks_of};
    ghost use Rattle.tcl_tree.specs.Gone.{held_of};
    ghost use Rattle.tcl_tree.specs.Changes.{MayLimit, RefusesLimit, MayLimitDepth};
    ghost use Rattle.tcl_tree.specs.Changes.{RefusesDepthLimit};
    ghost use Rattle.tcl_tree.specs.Order.{FirstOfLimit, FirstOfDepthLimit};

    // The key of the interpreter that these names lead to from another.
    pub(crate) fn descend(&self, key: usize, down: &[Text]) -> Option<usize>
        ensures { (p : List (List ℕ)) → key_of self.now p ≡ Some key →
            result ≡ key_of self.now (p ++ down.now) }
    {
        let mut at = key;
        'names: for name in down {
            let node = self.nodes.get(at)?;
            at = *node.children.get(name)?;
        }
        Some(at)
    }

    /// Sets or clears, for the interpreter at a path, the limit of steps of the one that names lead
    /// to from there. This takes no memory.
    ///
    /// # Errors
    /// Refusals, in this order: 301 of the path; 304 where the one that asks is safe or would limit
    /// itself; 301 of the names; 245 where the limit is greater than
    /// [`MOST_STEPS`](tcl_interpreter::node::MOST_STEPS).
    pub fn set_limit(
        &mut self,
        path: &[Text],
        down: &[Text],
        limit: Option<u64>,
    ) -> Result<(), TreeError>
        ensures may { OnOk result (MayLimit (tree_of self.old) path.now down.now limit) }
        ensures limited { OnOk result (tree_of self.new
            ≡ effect (path.now ++ down.now) (Limited limit) (tree_of self.old)) }
        ensures refused { IfErr result
            (λ e. RefusesLimit e (tree_of self.old) path.now down.now limit) }
        ensures order { IfErr result
            (λ e. FirstOfLimit e (tree_of self.old) path.now down.now limit) }
        ensures unchanged { OnErr result (tree_of self.new ≡ tree_of self.old) }
        ensures keys { (q : List (List ℕ)) → key_of self.new q ≡ key_of self.old q }
        ensures held { (k : ℕ) → held_of self.new k ≡ held_of self.old k }
        ensures marks { marks_of self.new ≡ marks_of self.old }
    {
        let asking = self.asker(path)?;
        if down.is_empty() {
            return Err(TreeError::Denied);
        }
        let Some(key) = self.descend(asking, down) else {
            return Err(TreeError::NoInterpreter);
        };
        if limit.unwrap_or(0) > MOST_STEPS {
            return Err(TreeError::BadCount);
        }
        match self.nodes.get_mut(key) {
            Some(node) => {
                node.state.limit = limit;
                Ok(())
            }
            None => Err(TreeError::NoInterpreter),
        }
    }

    /// Sets, for the interpreter at a path, the limit of depth of the one that names lead to from
    /// there. This takes no memory.
    ///
    /// # Errors
    /// Refusals, in this order: 301 of the path; 304 where the one that asks is safe; 301 of the
    /// names; 304 where the limit would be the root's; 309 where the limit isn't from 1 to
    /// [`MOST_DEPTH`].
    pub fn set_depth_limit(
        &mut self,
        path: &[Text],
        down: &[Text],
        limit: u64,
    ) -> Result<(), TreeError>
        ensures may { OnOk result (MayLimitDepth (tree_of self.old) path.now down.now limit) }
        ensures limited { OnOk result (tree_of self.new
            ≡ effect (path.now ++ down.now) (DepthLimited limit) (tree_of self.old)) }
        ensures refused { IfErr result
            (λ e. RefusesDepthLimit e (tree_of self.old) path.now down.now limit) }
        ensures order { IfErr result
            (λ e. FirstOfDepthLimit e (tree_of self.old) path.now down.now limit) }
        ensures unchanged { OnErr result (tree_of self.new ≡ tree_of self.old) }
        ensures keys { (q : List (List ℕ)) → key_of self.new q ≡ key_of self.old q }
        ensures held { (k : ℕ) → held_of self.new k ≡ held_of self.old k }
        ensures marks { marks_of self.new ≡ marks_of self.old }
    {
        let asking = self.asker(path)?;
        let Some(key) = self.descend(asking, down) else {
            return Err(TreeError::NoInterpreter);
        };
        self.set_depth_limit_at(Place { key }, limit)
    }
}
