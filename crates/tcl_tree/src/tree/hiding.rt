//! Commands that are hidden and exposed.
ghost use Rattle.std.specs.Prelude.{◌≡◌, ◌⊎◌, ◌++◌, List, ℕ, Some, IfOk, IfErr, OnOk, OnErr};
ghost use Rattle.std.specs.Prelude.{IsSome};

use crate::tree::{Place, Tree};
use tcl_interpreter::refusal::TreeError;
use tcl_text::text::Text;

impl Tree {
    ghost use Rattle.tcl_tree.specs.Naming.{Becomes, IsTrusted, Untrusted, Nowhere, RefusesToAsk};
    ghost use Rattle.tcl_tree.specs.Naming.{RefusesAsked, hidden_under, exposed_under};
    ghost use Rattle.tcl_tree.specs.Order.{FirstOfAsked};
    ghost use Rattle.tcl_tree.specs.TreeOf.{tree_of, key_of, marks_of, Names};
    ghost use Rattle.tcl_tree.specs.Gone.{held_of};

    // The key of the interpreter at a path, where that is trusted.
    pub(crate) fn asker(&self, path: &[Text]) -> Result<usize, TreeError>
        ensures trusted { OnOk result (IsTrusted (tree_of self.now) path.now) }
        ensures key { IfOk result (λ key. key_of self.now path.now ≡ Some key) }
        ensures refused { IfErr result (λ e. Untrusted e (tree_of self.now) path.now) }
    {
        let Some(key) = self.find(path) else {
            return Err(TreeError::NoInterpreter);
        };
        let Some(asker) = self.nodes.get(key) else {
            return Err(TreeError::NoInterpreter);
        };
        if asker.state.safe {
            return Err(TreeError::Denied);
        }
        Ok(key)
    }

    // The place that names lead to from the interpreter at a path, where that is trusted.
    fn asked(&self, path: &[Text], down: &[Text]) -> Result<Place, TreeError>
        ensures trusted { OnOk result (IsTrusted (tree_of self.now) path.now) }
        ensures place { IfOk result (λ place. Names self.now place (path.now ++ down.now)) }
        ensures refused { IfErr result (λ e. RefusesToAsk e (tree_of self.now) path.now down.now) }
        ensures order { IfErr result
            (λ e. Untrusted e (tree_of self.now) path.now ⊎
            (IsTrusted (tree_of self.now) path.now ×
            Nowhere e (tree_of self.now) (path.now ++ down.now))) }
    {
        let asking = self.asker(path)?;
        match self.descend(asking, down) {
            Some(key) => Ok(Place { key }),
            None => Err(TreeError::NoInterpreter),
        }
    }

    /// Hides, for the interpreter at a path, a command of the one that names lead to from there,
    /// under a name of its own.
    ///
    /// # Errors
    /// Refusals, in this order: 301 of the path; 304 where the one that asks is safe; 301 of the
    /// names; 305 where there is no such command; 302 where it is a child; 238 of the name under
    /// which it is to be hidden; 302 where a command is hidden under that. Want of memory.
    pub fn hide(
        &mut self,
        path: &[Text],
        down: &[Text],
        name: &Text,
        hidden: Text,
    ) -> Result<(), TreeError>
        ensures trusted { OnOk result (IsTrusted (tree_of self.old) path.now) }
        ensures there { OnOk result (IsSome (tree_of self.old (path.now ++ down.now))) }
        ensures moved { OnOk result
            (Becomes (tree_of self.old) (tree_of self.new) (path.now ++ down.now)
            (λ own. hidden_under own name.now hidden)) }
        ensures refused { IfErr result
            (λ e. RefusesAsked e (tree_of self.old) path.now down.now
            (λ own. hidden_under own name.now hidden)) }
        ensures order { IfErr result
            (λ e. FirstOfAsked e (tree_of self.old) path.now down.now
            (λ own. hidden_under own name.now hidden)) }
        ensures unchanged { OnErr result (tree_of self.new ≡ tree_of self.old) }
        ensures keys { (q : List (List ℕ)) → key_of self.new q ≡ key_of self.old q }
        ensures held { (k : ℕ) → held_of self.new k ≡ held_of self.old k }
        ensures marks { marks_of self.new ≡ marks_of self.old }
    {
        let place = self.asked(path, down)?;
        self.hide_at(place, name, hidden)
    }

    /// Makes, for the interpreter at a path, a hidden command of the one that names lead to from
    /// there a command again.
    ///
    /// # Errors
    /// Refusals, in this order: 301 of the path; 304 where the one that asks is safe; 301 of the
    /// names; 306 where no command is hidden so; 238 of the name that it is to have; 302 where that
    /// is a command. Want of memory.
    pub fn expose(
        &mut self,
        path: &[Text],
        down: &[Text],
        hidden: &Text,
        name: Text,
    ) -> Result<(), TreeError>
        ensures trusted { OnOk result (IsTrusted (tree_of self.old) path.now) }
        ensures there { OnOk result (IsSome (tree_of self.old (path.now ++ down.now))) }
        ensures moved { OnOk result
            (Becomes (tree_of self.old) (tree_of self.new) (path.now ++ down.now)
            (λ own. exposed_under own hidden.now name)) }
        ensures refused { IfErr result
            (λ e. RefusesAsked e (tree_of self.old) path.now down.now
            (λ own. exposed_under own hidden.now name)) }
        ensures order { IfErr result
            (λ e. FirstOfAsked e (tree_of self.old) path.now down.now
            (λ own. exposed_under own hidden.now name)) }
        ensures unchanged { OnErr result (tree_of self.new ≡ tree_of self.old) }
        ensures keys { (q : List (List ℕ)) → key_of self.new q ≡ key_of self.old q }
        ensures held { (k : ℕ) → held_of self.new k ≡ held_of self.old k }
        ensures marks { marks_of self.new ≡ marks_of self.old }
    {
        let place = self.asked(path, down)?;
        self.expose_at(place, hidden, name)
    }
}
