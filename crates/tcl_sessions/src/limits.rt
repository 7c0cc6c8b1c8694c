//! Limits of interpreters.
ghost use Rattle.std.specs.Prelude.{◌≡◌, ◌++◌, Err, IfErr, IfOk, OnErr, OnOk, [], Some, None};
ghost use Rattle.tcl_core.specs.Trees.{effect};
ghost use Rattle.tcl_core.specs.Trees.What.{DepthLimited, Limited};
ghost use Rattle.tcl_sessions.specs.Limits.{IsCount, IsDepthLimit, IsLimit};
ghost use Rattle.tcl_sessions.specs.Sessions.{IsRefused, KeepsRest};
ghost use Rattle.tcl_tree.specs.Changes.{RefusesDepthLimit, RefusesLimit};
ghost use Rattle.tcl_tree.specs.TreeOf.{marks_of, tree_of};

use crate::refusal::Refusal;
use crate::session::Session;
use tcl_text::text::Text;
use tcl_tree::refusal::TreeError;

impl Session {
    /// Gives the interpreter at the path a limit of steps, which its count of all its life may not
    /// pass, or none. The root has none but that of each evaluation.
    ///
    /// # Errors
    /// 424; 304 for the root, 301, 245. They change nothing.
    pub fn set_limit(&mut self, path: &[Text], limit: Option<u64>) -> Result<(), Refusal>
        ensures limited { OnOk result (tree_of self.new.tree
            ≡ effect path.now (Limited limit) (tree_of self.old.tree)) }
        ensures refused { IfErr result
            (λ e. IsRefused (λ t. RefusesLimit t (tree_of self.old.tree) [] path.now limit)
            self.old e) }
        ensures unchanged { OnErr result (tree_of self.new.tree ≡ tree_of self.old.tree) }
        ensures marks { marks_of self.new.tree ≡ marks_of self.old.tree }
        ensures rest { KeepsRest self.old self.new }
    {
        self.at_rest()?;
        Ok(self.tree.set_limit(&[], path, limit)?)
    }

    /// Gives the interpreter at the path a limit of the evaluations that may be in progress in it
    /// at once.
    ///
    /// # Errors
    /// 424; 301, 304 for the root, 309. They change nothing.
    pub fn set_depth_limit(&mut self, path: &[Text], limit: u64) -> Result<(), Refusal>
        ensures limited { OnOk result (tree_of self.new.tree
            ≡ effect path.now (DepthLimited limit) (tree_of self.old.tree)) }
        ensures refused { IfErr result
            (λ e. IsRefused (λ t. RefusesDepthLimit t (tree_of self.old.tree) [] path.now limit)
            self.old e) }
        ensures unchanged { OnErr result (tree_of self.new.tree ≡ tree_of self.old.tree) }
        ensures marks { marks_of self.new.tree ≡ marks_of self.old.tree }
        ensures rest { KeepsRest self.old self.new }
    {
        self.at_rest()?;
        Ok(self.tree.set_depth_limit(&[], path, limit)?)
    }

    /// How many steps the interpreter at the path has made, those below it too.
    ///
    /// # Errors
    /// 301.
    pub fn count(&self, path: &[Text]) -> Result<u64, Refusal>
        ensures { IsCount self.now path.now result }
    {
        match self.tree.count(path) {
            Some(count) => Ok(count),
            None => Err(Refusal::Tree(TreeError::NoInterpreter)),
        }
    }

    /// The limit of steps of the interpreter at the path, if it has one.
    ///
    /// # Errors
    /// 301.
    pub fn limit(&self, path: &[Text]) -> Result<Option<u64>, Refusal>
        ensures { IsLimit self.now path.now result }
    {
        match self.tree.limit(path) {
            Some(limit) => Ok(limit),
            None => Err(Refusal::Tree(TreeError::NoInterpreter)),
        }
    }

    /// The limit of depth of the interpreter at the path.
    ///
    /// # Errors
    /// 301.
    pub fn depth_limit(&self, path: &[Text]) -> Result<u64, Refusal>
        ensures { IsDepthLimit self.now path.now result }
    {
        match self.tree.depth_limit(path) {
            Some(limit) => Ok(limit),
            None => Err(Refusal::Tree(TreeError::NoInterpreter)),
        }
    }
}
