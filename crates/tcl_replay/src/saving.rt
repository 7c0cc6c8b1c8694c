//! Interpreters by themselves, as they stood at some time.
ghost use Rattle.std.specs.Prelude.{◌≡◌, ◌↔◌, IfErr, IfNone, IfOk, IfSome, IsTrue, Err, false};
ghost use Rattle.tcl_core.specs.Trees.{at};
ghost use Rattle.tcl_tree.specs.TreeOf.{marks_of, tree_of};
ghost use Rattle.tcl_eval.specs.declared.running.Refused.TheVariants.{Memory};
ghost use Rattle.tcl_replay.specs.Saved.{saved_of, unsavable};

use tcl_eval::running::Refused;
use tcl_text::text::Text;
use tcl_tree::refusal::TreeError;
use tcl_tree::tree::Tree;

/// An interpreter with all below it by itself, as it stood when it was saved.
#[derive(Drop)]
pub struct Saved {
    pub(crate) tree: Tree,
    pub(crate) waits: bool,
}

/// The interpreter at a path by itself, with all below it, as it stands. The tree stays as it is.
///
/// # Errors
/// 402 where the tree is broken; else 403 where no interpreter stands at the path; else 401 alone.
pub fn save(tree: &Tree, path: &[Text]) -> Result<Saved, Refused>
    ensures refused { IfSome (unsavable tree.now path.now) (λ e. result ≡ Err e) }
    ensures begun { IfNone (unsavable tree.now path.now) (IfErr result (λ e. e ≡ Memory)) }
    ensures saved { IfOk result
        (λ s. saved_of s ≡ record {
          tree = at (tree_of tree.now) path.now;
          integers = (marks_of tree.now).integers;
          waits =
              false;
        }) }
{
    if tree.is_broken() {
        return Err(Refused::Broken);
    }
    let Some(_) = tree.place(path) else {
        return Err(Refused::NoInterpreter);
    };
    match tree.copy_at(path) {
        Ok(tree) => Ok(Saved { tree, waits: false }),
        Err(_) => Err(Refused::Memory),
    }
}

impl Saved {
    /// Whether another one is equal: its interpreters, all that they have and all orders of names
    /// included, and its style of integers. What became of it in a replay isn't looked at. This
    /// takes no memory.
    pub fn same(&self, other: &Saved) -> bool
        ensures { IsTrue result ↔
            (((saved_of self.now).tree ≡ (saved_of other.now).tree) ×
            ((saved_of self.now).integers ≡ (saved_of other.now).integers)) }
    {
        self.tree.same(&other.tree)
    }
}
