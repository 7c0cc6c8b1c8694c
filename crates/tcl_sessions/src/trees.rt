//! Children and aliases.
ghost use Rattle.std.specs.Prelude.{◌≡◌, IfErr, IsSome, OnErr, OnOk};
ghost use Rattle.tcl_interpreter.specs.declared.command.Command.TheVariants as command;
ghost use Rattle.tcl_sessions.specs.Sessions.{IsRefused, KeepsRest};
ghost use Rattle.tcl_tree.specs.Changes.{Drops, Makes, RefusesDrop, RefusesMake};
ghost use Rattle.tcl_tree.specs.Naming.{Becomes, RefusesAt, RefusesThere, cleared, named};
ghost use Rattle.tcl_tree.specs.TreeOf.{marks_of, tree_of};
ghost use Rattle.tcl_interpreter.specs.Commands.{way_between, way_past};

use crate::refusal::Refusal;
use crate::session::Session;
use std::alloc::Global;
use tcl_text::text::Text;
use tcl_value::value::Value;

impl Session {
    /// Makes a child of this name in the interpreter at the path: safe where that is asked for or
    /// the parent is safe.
    ///
    /// # Errors
    /// 424; 301, 238, 302, 307; 401. They change nothing.
    pub fn create(
        &mut self,
        alloc: Global,
        path: &[Text],
        name: &Text,
        safe: bool,
    ) -> Result<(), Refusal>
        ensures made { OnOk result
            (Makes (tree_of self.old.tree) (tree_of self.new.tree) path.now name.now safe) }
        ensures refused { IfErr result
            (λ e. IsRefused (λ t. RefusesMake t (tree_of self.old.tree) path.now name.now)
            self.old e) }
        ensures unchanged { OnErr result (tree_of self.new.tree ≡ tree_of self.old.tree) }
        ensures marks { marks_of self.new.tree ≡ marks_of self.old.tree }
        ensures rest { KeepsRest self.old self.new }
    {
        self.at_rest()?;
        Ok(self.tree.create(alloc, path, name, safe)?)
    }

    /// Deletes the child of this name of the interpreter at the path, with all below it.
    ///
    /// # Errors
    /// 424; 301 where it isn't there. They change nothing.
    pub fn delete(&mut self, path: &[Text], name: &Text) -> Result<(), Refusal>
        ensures dropped { OnOk result
            (Drops (tree_of self.old.tree) (tree_of self.new.tree) path.now name.now) }
        ensures refused { IfErr result
            (λ e. IsRefused (λ t. RefusesDrop t (tree_of self.old.tree) path.now name.now)
            self.old e) }
        ensures unchanged { OnErr result (tree_of self.new.tree ≡ tree_of self.old.tree) }
        ensures marks { marks_of self.new.tree ≡ marks_of self.old.tree }
        ensures rest { KeepsRest self.old self.new }
    {
        self.at_rest()?;
        Ok(self.tree.delete(path, name)?)
    }

    /// Makes a name of the interpreter at the path an alias: a call of it is a call, in the
    /// interpreter at the path `target`, of these words and those of the call. Whether somebody
    /// stands there is looked at when it is called.
    ///
    /// # Errors
    /// 424; 301, 238, 302 where the name is a child; 401. They change nothing.
    pub fn alias(
        &mut self,
        alloc: Global,
        path: &[Text],
        name: Text,
        target: &[Text],
        words: Vec<Value>,
    ) -> Result<(), Refusal>
        ensures set { OnOk result (Becomes (tree_of self.old.tree) (tree_of self.new.tree) path.now
            (λ own. named own name (command.Alias (way_between path.now target.now words.items)))) }
        ensures there { OnOk result (IsSome (tree_of self.old.tree path.now)) }
        ensures refused { IfErr result
            (λ e. IsRefused (λ t. RefusesAt t (tree_of self.old.tree) path.now
            (λ own. named own name (command.Alias (way_between path.now target.now words.items))))
            self.old e) }
        ensures unchanged { OnErr result (tree_of self.new.tree ≡ tree_of self.old.tree) }
        ensures marks { marks_of self.new.tree ≡ marks_of self.old.tree }
        ensures rest { KeepsRest self.old self.new }
    {
        self.at_rest()?;
        Ok(
            self.tree
                .set_alias_between(alloc, path, name, target, words)?,
        )
    }

    /// Makes a name of the interpreter at the path an alias that leaves the tree: a call of it is
    /// open until it is answered.
    ///
    /// # Errors
    /// 424; 301, 238, 302 where the name is a child; 401. They change nothing.
    pub fn alias_out(
        &mut self,
        alloc: Global,
        path: &[Text],
        name: Text,
        words: Vec<Value>,
    ) -> Result<(), Refusal>
        ensures set { OnOk result (Becomes (tree_of self.old.tree) (tree_of self.new.tree) path.now
            (λ own. named own name (command.Alias (way_past path.now words.items)))) }
        ensures there { OnOk result (IsSome (tree_of self.old.tree path.now)) }
        ensures refused { IfErr result
            (λ e. IsRefused (λ t. RefusesAt t (tree_of self.old.tree) path.now
            (λ own. named own name (command.Alias (way_past path.now words.items)))) self.old e) }
        ensures unchanged { OnErr result (tree_of self.new.tree ≡ tree_of self.old.tree) }
        ensures marks { marks_of self.new.tree ≡ marks_of self.old.tree }
        ensures rest { KeepsRest self.old self.new }
    {
        self.at_rest()?;
        Ok(self.tree.set_alias_past(alloc, path, name, words)?)
    }

    /// Takes an alias of the interpreter at the path away.
    ///
    /// # Errors
    /// 424; 301, 305 where the name is no alias. They change nothing.
    pub fn clear_alias(&mut self, path: &[Text], name: &Text) -> Result<(), Refusal>
        ensures cleared { OnOk result
            (Becomes (tree_of self.old.tree) (tree_of self.new.tree) path.now
            (λ own. cleared own name.now)) }
        ensures there { OnOk result (IsSome (tree_of self.old.tree path.now)) }
        ensures refused { IfErr result
            (λ e. IsRefused (λ t. RefusesThere t (tree_of self.old.tree) path.now
            (λ own. cleared own name.now)) self.old e) }
        ensures unchanged { OnErr result (tree_of self.new.tree ≡ tree_of self.old.tree) }
        ensures marks { marks_of self.new.tree ≡ marks_of self.old.tree }
        ensures rest { KeepsRest self.old self.new }
    {
        self.at_rest()?;
        Ok(self.tree.clear_alias(path, name)?)
    }
}
