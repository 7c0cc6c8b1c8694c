//! The names of commands, in an interpreter that a place names.
ghost use Rattle.std.specs.Prelude.{◌≡◌, List, ℕ, IfErr, OnOk, OnErr};

use crate::tree::{Place, Tree};
use tcl_interpreter::alias::Alias;
use tcl_interpreter::command::Command;
use tcl_interpreter::naming::Naming;
use tcl_interpreter::procedure::Procedure;
use tcl_interpreter::refusal::TreeError;
use tcl_text::text::Text;

impl Tree {
    ghost use Rattle.tcl_tree.specs.Naming.{Becomes, Refuses, RefusesNaming, RefusesSo, named};
    ghost use Rattle.tcl_tree.specs.Naming.{cleared, renamed, removed, hidden_under, exposed_under};
    ghost use Rattle.tcl_tree.specs.Naming.{named_so};
    ghost use Rattle.tcl_tree.specs.TreeOf.{tree_of, key_of, marks_of, Names};
    ghost use Rattle.tcl_tree.specs.Gone.{held_of};
    ghost use Rattle.tcl_interpreter.specs.declared.command.Command.TheVariants as command;

    // Does this to the name of a command.
    pub(crate) fn name_at(&mut self, place: Place, naming: Naming<'_>) -> Result<(), TreeError>
        requires { (p : List (List ℕ)) × Names self.old place p }
        ensures done { OnOk result ((p : List (List ℕ)) → Names self.old place p →
            Becomes (tree_of self.old) (tree_of self.new) p (named_so naming.entry)) }
        ensures refused { IfErr result
            (λ e. (p : List (List ℕ)) → Names self.old place p →
            RefusesSo naming.entry e (tree_of self.old) p) }
        ensures unchanged { OnErr result (tree_of self.new ≡ tree_of self.old) }
        ensures keys { (q : List (List ℕ)) → key_of self.new q ≡ key_of self.old q }
        ensures held { (k : ℕ) → held_of self.new k ≡ held_of self.old k }
        ensures marks { marks_of self.new ≡ marks_of self.old }
    {
        match self.nodes.get_mut(place.key) {
            Some(node) => node.state.name(naming),
            None => unreachable!(),
        }
    }

    /// Makes a name of the interpreter that the place names a procedure.
    ///
    /// # Errors
    /// Refusals, in this order: 238 of the name; 302 where it is a child. Want of memory.
    pub fn set_proc_at(
        &mut self,
        place: Place,
        name: Text,
        procedure: Procedure,
    ) -> Result<(), TreeError>
        requires { (p : List (List ℕ)) × Names self.old place p }
        ensures set { OnOk result ((p : List (List ℕ)) → Names self.old place p →
            Becomes (tree_of self.old) (tree_of self.new) p
            (λ own. named own name (command.Procedure procedure))) }
        ensures refused { IfErr result
            (λ e. (p : List (List ℕ)) → Names self.old place p →
            RefusesNaming e (tree_of self.old) p
            (λ own. named own name (command.Procedure procedure))) }
        ensures unchanged { OnErr result (tree_of self.new ≡ tree_of self.old) }
        ensures keys { (q : List (List ℕ)) → key_of self.new q ≡ key_of self.old q }
        ensures held { (k : ℕ) → held_of self.new k ≡ held_of self.old k }
        ensures marks { marks_of self.new ≡ marks_of self.old }
    {
        self.name_at(place, Naming::Give(name, Command::Procedure(procedure)))
    }

    /// Makes a name of the interpreter that the place names an alias, which is looked up at each
    /// call and not now.
    ///
    /// # Errors
    /// Refusals, in this order: 238 of the name; 302 where it is a child. Want of memory.
    pub fn set_alias_at(&mut self, place: Place, name: Text, alias: Alias) -> Result<(), TreeError>
        requires { (p : List (List ℕ)) × Names self.old place p }
        ensures set { OnOk result ((p : List (List ℕ)) → Names self.old place p →
            Becomes (tree_of self.old) (tree_of self.new) p
            (λ own. named own name (command.Alias alias))) }
        ensures refused { IfErr result
            (λ e. (p : List (List ℕ)) → Names self.old place p →
            RefusesNaming e (tree_of self.old) p (λ own. named own name (command.Alias alias))) }
        ensures unchanged { OnErr result (tree_of self.new ≡ tree_of self.old) }
        ensures keys { (q : List (List ℕ)) → key_of self.new q ≡ key_of self.old q }
        ensures held { (k : ℕ) → held_of self.new k ≡ held_of self.old k }
        ensures marks { marks_of self.new ≡ marks_of self.old }
    {
        self.name_at(place, Naming::Give(name, Command::Alias(alias)))
    }

    /// Takes an alias of the interpreter that the place names away. This takes no memory.
    ///
    /// # Errors
    /// TreeError 305 where the name is no alias.
    pub fn clear_alias_at(&mut self, place: Place, name: &Text) -> Result<(), TreeError>
        requires { (p : List (List ℕ)) × Names self.old place p }
        ensures cleared { OnOk result ((p : List (List ℕ)) → Names self.old place p →
            Becomes (tree_of self.old) (tree_of self.new) p (λ own. cleared own name.now)) }
        ensures refused { IfErr result
            (λ e. (p : List (List ℕ)) → Names self.old place p → Refuses e (tree_of self.old) p
            (λ own. cleared own name.now)) }
        ensures unchanged { OnErr result (tree_of self.new ≡ tree_of self.old) }
        ensures keys { (q : List (List ℕ)) → key_of self.new q ≡ key_of self.old q }
        ensures held { (k : ℕ) → held_of self.new k ≡ held_of self.old k }
        ensures marks { marks_of self.new ≡ marks_of self.old }
    {
        self.name_at(place, Naming::Clear(name))
    }

    /// Gives a command of the interpreter that the place names another name, and puts it last.
    ///
    /// # Errors
    /// Refusals, in this order: 305; 302 where it is a child; 238 of the new name; 302 where that
    /// is a command. Want of memory.
    pub fn rename_at(&mut self, place: Place, name: &Text, new_name: Text) -> Result<(), TreeError>
        requires { (p : List (List ℕ)) × Names self.old place p }
        ensures renamed { OnOk result ((p : List (List ℕ)) → Names self.old place p →
            Becomes (tree_of self.old) (tree_of self.new) p
            (λ own. renamed own name.now new_name)) }
        ensures refused { IfErr result
            (λ e. (p : List (List ℕ)) → Names self.old place p →
            RefusesNaming e (tree_of self.old) p (λ own. renamed own name.now new_name)) }
        ensures unchanged { OnErr result (tree_of self.new ≡ tree_of self.old) }
        ensures keys { (q : List (List ℕ)) → key_of self.new q ≡ key_of self.old q }
        ensures held { (k : ℕ) → held_of self.new k ≡ held_of self.old k }
        ensures marks { marks_of self.new ≡ marks_of self.old }
    {
        self.name_at(place, Naming::Rename(name, new_name))
    }

    /// Takes a command of the interpreter that the place names away. This takes no memory.
    ///
    /// # Errors
    /// Refusals, in this order: 305; 302 where it is a child.
    pub fn remove_at(&mut self, place: Place, name: &Text) -> Result<(), TreeError>
        requires { (p : List (List ℕ)) × Names self.old place p }
        ensures removed { OnOk result ((p : List (List ℕ)) → Names self.old place p →
            Becomes (tree_of self.old) (tree_of self.new) p (λ own. removed own name.now)) }
        ensures refused { IfErr result
            (λ e. (p : List (List ℕ)) → Names self.old place p → Refuses e (tree_of self.old) p
            (λ own. removed own name.now)) }
        ensures unchanged { OnErr result (tree_of self.new ≡ tree_of self.old) }
        ensures keys { (q : List (List ℕ)) → key_of self.new q ≡ key_of self.old q }
        ensures held { (k : ℕ) → held_of self.new k ≡ held_of self.old k }
        ensures marks { marks_of self.new ≡ marks_of self.old }
    {
        self.name_at(place, Naming::Remove(name))
    }

    /// Hides a command of the interpreter that the place names, whoever asks.
    ///
    /// # Errors
    /// Refusals, in this order: 305; 302 where it is a child; 238 of the name under which it is to
    /// be hidden; 302 where a command is hidden under that. Want of memory.
    pub fn hide_at(&mut self, place: Place, name: &Text, hidden: Text) -> Result<(), TreeError>
        requires { (p : List (List ℕ)) × Names self.old place p }
        ensures moved { OnOk result ((p : List (List ℕ)) → Names self.old place p →
            Becomes (tree_of self.old) (tree_of self.new) p
            (λ own. hidden_under own name.now hidden)) }
        ensures refused { IfErr result
            (λ e. (p : List (List ℕ)) → Names self.old place p →
            RefusesNaming e (tree_of self.old) p (λ own. hidden_under own name.now hidden)) }
        ensures unchanged { OnErr result (tree_of self.new ≡ tree_of self.old) }
        ensures keys { (q : List (List ℕ)) → key_of self.new q ≡ key_of self.old q }
        ensures held { (k : ℕ) → held_of self.new k ≡ held_of self.old k }
        ensures marks { marks_of self.new ≡ marks_of self.old }
    {
        self.name_at(place, Naming::Hide(name, hidden))
    }

    /// Makes a hidden command of the interpreter that the place names a command again, whoever
    /// asks.
    ///
    /// # Errors
    /// Refusals, in this order: 306; 238 of the name that it is to have; 302 where that is a
    /// command. Want of memory.
    pub fn expose_at(&mut self, place: Place, hidden: &Text, name: Text) -> Result<(), TreeError>
        requires { (p : List (List ℕ)) × Names self.old place p }
        ensures moved { OnOk result ((p : List (List ℕ)) → Names self.old place p →
            Becomes (tree_of self.old) (tree_of self.new) p
            (λ own. exposed_under own hidden.now name)) }
        ensures refused { IfErr result
            (λ e. (p : List (List ℕ)) → Names self.old place p →
            RefusesNaming e (tree_of self.old) p (λ own. exposed_under own hidden.now name)) }
        ensures unchanged { OnErr result (tree_of self.new ≡ tree_of self.old) }
        ensures keys { (q : List (List ℕ)) → key_of self.new q ≡ key_of self.old q }
        ensures held { (k : ℕ) → held_of self.new k ≡ held_of self.old k }
        ensures marks { marks_of self.new ≡ marks_of self.old }
    {
        self.name_at(place, Naming::Expose(hidden, name))
    }
}
