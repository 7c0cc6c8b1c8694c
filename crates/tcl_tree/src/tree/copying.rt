//! Interpreters as trees of their own.
ghost use Rattle.std.specs.Prelude.{◌≡◌, IfOk, IfErr, IfSome, IfNone, OnOk, IsSome, false, List, ℕ};
ghost use Rattle.std.specs.Prelude.{Some};
ghost use Rattle.slab.specs.Slab.{get};

use crate::readings::Readings;
use crate::tree::Tree;
use slab::Slab;
use std::alloc::AllocError;
use std::cell::RefCell;
use tcl_interpreter::node::Node;
use tcl_interpreter::refusal::TreeError;
use tcl_interpreter::steps::join;
use tcl_text::text::Text;

impl Tree {
    ghost use Rattle.tcl_core.specs.Trees.{at};
    ghost use Rattle.tcl_tree.specs.Changes.{RefusesCopy};
    ghost use Rattle.tcl_tree.specs.Copying.{IsLike, IsWhole, IsCopy, Adds};
    ghost use Rattle.tcl_tree.specs.TreeOf.{tree_of, key_of, marks_of};

    // Copies, without its own children, the first child of a node that the node's copy lacks, and
    // answers with the keys of the two.
    fn copy_child(
        &self,
        nodes: &mut Slab<Node>,
        key: usize,
        twin: usize,
    ) -> Result<Option<(usize, usize)>, AllocError>
        requires { IsLike (get self.now.nodes) (get nodes.old) key twin }
        ensures some { IfOk result
            (λ next. IfSome next (λ pair. Adds (get self.now.nodes) nodes.old nodes.new key twin
            pair.0 pair.1)) }
        ensures none { IfOk result
            (λ next. IfNone next (IsWhole (get self.now.nodes) (get nodes.old) key twin)) }
        ensures same { IfOk result (λ next. IfNone next (nodes.new ≡ nodes.old)) }
    {
        let Some(node) = self.nodes.get(key) else {
            unreachable!();
        };
        let Some(copy) = nodes.get(twin) else {
            unreachable!();
        };
        let children = node.children.as_slice();
        let Some((name, child)) = children.get_index(copy.children.len()) else {
            return Ok(None);
        };
        let Some(source) = self.nodes.get(*child) else {
            unreachable!();
        };
        let made = source.bare(self.alloc, Some(twin), name.clone()?)?;
        let copied = join(nodes, twin, name.clone()?, made)?;
        Ok(Some((*child, copied)))
    }

    // The nodes at a key and below it as a table of their own, with the key that the first of them
    // has there.
    fn subtable(&self, top: usize) -> Result<(Slab<Node>, usize), AllocError>
        requires { (p : List (List ℕ)) × (key_of self.now p ≡ Some top) }
        ensures { IfOk result (λ made. IsCopy (get self.now.nodes) (get made.0) top made.1) }
    {
        let Some(node) = self.nodes.get(top) else {
            unreachable!();
        };
        let first = node.bare(self.alloc, None, node.name.clone()?)?;
        let mut nodes = Slab::new(self.alloc);
        let root = nodes.insert(first)?;
        let mut open = Vec::new(self.alloc);
        open.push((top, root))?;
        'walk: while let Some((key, twin)) = open.pop() {
            if let Some(next) = self.copy_child(&mut nodes, key, twin)? {
                open.push((key, twin))?;
                open.push(next)?;
            }
        }
        Ok((nodes, root))
    }

    /// The interpreter at the path with all below it, as a tree of its own, which isn't broken.
    ///
    /// # Errors
    /// TreeError 301. Want of memory.
    pub fn copy_at(&self, path: &[Text]) -> Result<Tree, TreeError>
        ensures there { OnOk result (IsSome (tree_of self.now path.now)) }
        ensures tree { IfOk result (λ made. tree_of made ≡ at (tree_of self.now) path.now) }
        ensures marks { IfOk result
            (λ made. marks_of made ≡ record {
              integers = (marks_of self.now).integers;
              broken = false;
            }) }
        ensures refused { IfErr result (λ e. RefusesCopy e (tree_of self.now) path.now) }
    {
        let Some(top) = self.find(path) else {
            return Err(TreeError::NoInterpreter);
        };
        let (nodes, root) = self.subtable(top)?;
        Ok(Tree {
            nodes,
            root,
            integers: self.integers,
            broken: false,
            readings: RefCell::new(Readings::new(self.alloc)),
            alloc: self.alloc,
        })
    }
}
