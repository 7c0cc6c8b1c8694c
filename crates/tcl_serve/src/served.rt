//! A tree that is served, and its host.
ghost use Rattle.std.specs.Prelude.{◌≡◌, IfOk, false};
ghost use Rattle.tcl_serve.specs.Messages.{ask_of};
ghost use Rattle.tcl_serve.specs.Hosting.{fresh_host};
ghost use Rattle.tcl_serve.specs.Served.{Acts};
ghost use Rattle.tcl_tree.specs.TreeOf.{alone, marks_of, new_root, tree_of};

use crate::acting::{
    clear_alias, create, delete, limit_count, limit_depth, look, set_alias, set_client_alias,
};
use crate::answers::Answer;
use crate::hosts::ServedHost;
use crate::messages::Ask;
use crate::refusals::Refusal;
use std::alloc::{AllocError, Global};
use tcl_text::integer::Integers;
use tcl_tree::tree::Tree;

/// A tree, and its host.
pub struct ServedTree {
    /// The tree.
    pub tree: Tree,
    /// The host.
    pub host: ServedHost,
}

impl Drop for ServedTree {
    fn drop(self) {
        let ServedTree {
            tree: _tree,
            host: _host,
        } = self;
    }
}

impl ServedTree {
    /// A tree of a root alone, in which integer texts are read so, with a host that has nothing.
    ///
    /// # Errors
    /// Want of memory.
    pub fn new(alloc: Global, integers: Integers) -> Result<ServedTree, AllocError>
        ensures tree { IfOk result (λ made. tree_of made.tree ≡ alone new_root) }
        ensures marks { IfOk result
            (λ made. marks_of made.tree ≡ record { integers = integers; broken = false }) }
        ensures host { IfOk result (λ made. made.host ≡ fresh_host) }
    {
        Ok(ServedTree {
            tree: Tree::with_integers(alloc, integers)?,
            host: ServedHost::new(alloc)?,
        })
    }

    /// Does what is asked of it, while nothing is evaluated.
    ///
    /// # Errors
    /// Those of what is asked; want of memory. They change nothing.
    pub fn act(&mut self, alloc: Global, ask: &Ask) -> Result<Answer, Refusal>
        ensures { Acts self.old (ask_of ask.now) result self.new }
    {
        match ask {
            Ask::Create(ask) => create(&mut self.tree, alloc, ask),
            Ask::Delete(path) => delete(&mut self.tree, alloc, path.as_slice()),
            Ask::Alias(ask) => set_alias(&mut self.tree, alloc, ask),
            Ask::AliasToClient(ask) => set_client_alias(&mut self.tree, alloc, ask),
            Ask::ClearAlias(ask) => clear_alias(&mut self.tree, alloc, ask),
            Ask::LimitCount(ask) => limit_count(&mut self.tree, alloc, ask),
            Ask::LimitDepth(ask) => limit_depth(&mut self.tree, alloc, ask),
            Ask::Look(path) => look(&self.tree, alloc, path.as_slice()),
            Ask::PutFile(file) => self.host.put_file(alloc, file),
            Ask::GetFile(name) => self.host.file(alloc, name),
            Ask::PutInput(text) => self.host.put_input(text),
            Ask::TakeOutput(channel) => self.host.take(alloc, *channel),
        }
    }
}
