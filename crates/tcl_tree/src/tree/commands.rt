//! The commands of one interpreter.
ghost use Rattle.std.specs.Prelude.{◌≡◌, ◌++◌, ◌∷◌, [], List, ℕ, false, IfErr, OnOk, OnErr, IsSome};
ghost use Rattle.std.specs.Prelude.{IfSome, Some};
ghost use Rattle.std.specs.Map.{lookup};
ghost use Rattle.std.specs.Option.{option_copied, option_and_then};
ghost use Rattle.std.specs.Str.{bytes_eq};

use crate::tree::{Place, Tree};
use std::alloc::Global;
use tcl_interpreter::alias::Alias;
use tcl_interpreter::command::{Command, Commands, is_child};
use tcl_interpreter::procedure::Procedure;
use tcl_interpreter::refusal::TreeError;
use tcl_text::text::Text;
use tcl_value::value::Value;

/// The command at a place, where that has the name.
fn standing<'a>(commands: &'a Commands, place: usize, name: &Text) -> Option<&'a Command>
    ensures { IfSome result
        (λ command. lookup (bytes_eq name.now) commands.now.entries ≡ Some command.now) }
{
    let (key, command) = commands.get_index(place)?;
    if key == name {
        return Some(command);
    }
    None
}

/// The command that a word names, where it stands at the place that the word's text keeps.
fn kept<'a>(commands: &'a Commands, word: &Value) -> Option<&'a Command>
    ensures { IfSome result
        (λ command. lookup (bytes_eq word.now) commands.now.entries ≡ Some command.now) }
{
    let (name, command) = commands.get_index(word.place()?)?;
    if word.is_shared_text(name) {
        return Some(command);
    }
    None
}

/// What a name stands for, in less time where it stands at the place that the name keeps. Where it
/// is found elsewhere, the name keeps that place.
fn found_near<'a>(commands: &'a Commands, name: &Text) -> Option<&'a Command>
    ensures { option_copied result ≡ lookup (bytes_eq name.now) commands.now.entries }
{
    if let Some(command) = standing(commands, name.hint(), name) {
        return Some(command);
    }
    match commands.get_full(name) {
        Some((place, _, command)) => {
            name.set_hint(place);
            Some(command)
        }
        None => None,
    }
}

impl Tree {
    ghost use Rattle.tcl_interpreter.specs.Commands.{straight, way_between, way_past};
    ghost use Rattle.tcl_interpreter.specs.Names.{has_colons};
    ghost use Rattle.tcl_interpreter.specs.Own.{command_in, hidden_in};
    ghost use Rattle.tcl_interpreter.specs.Paths.{is_above};
    ghost use Rattle.tcl_tree.specs.Naming.{Becomes, RefusesThere, RefusesAt, Renames};
    ghost use Rattle.tcl_tree.specs.Naming.{RefusesRename, named, cleared};
    ghost use Rattle.tcl_tree.specs.TreeOf.{tree_of, key_of, marks_of, Names};
    ghost use Rattle.tcl_tree.specs.Gone.{held_of};
    ghost use Rattle.tcl_interpreter.specs.declared.command.Command.TheVariants as command;

    /// What a name stands for among the commands of the interpreter that the place names. This
    /// takes no memory.
    pub fn command_at(&self, place: Place, name: &Text) -> Option<&Command>
        ensures { (p : List (List ℕ)) → Names self.now place p →
            option_copied result ≡ option_and_then
            (λ n. command_in n.own name.now) (tree_of self.now p) }
    {
        let node = self.nodes.get(place.key)?;
        node.state.commands.get(name)
    }

    /// The same, in less time where the name stands at the place among the commands that its text
    /// keeps. This takes no memory.
    pub fn command_near(&self, place: Place, name: &Text) -> Option<&Command>
        ensures { (p : List (List ℕ)) → Names self.now place p →
            option_copied result ≡ option_and_then
            (λ n. command_in n.own name.now) (tree_of self.now p) }
    {
        let node = self.nodes.get(place.key)?;
        found_near(&node.state.commands, name)
    }

    /// The command of this name, where it stands at the place among the commands that the name's
    /// text keeps, and none of these has two colons side by side in its name. This takes no memory.
    pub fn command_kept(&self, place: Place, name: &Value) -> Option<&Command>
        ensures plain { IfSome result (λ command. has_colons name.now ≡ false) }
        ensures command { IfSome result (λ command. (p : List (List ℕ)) → Names self.now place p →
            Some command.now ≡ option_and_then
            (λ n. command_in n.own name.now) (tree_of self.now p)) }
    {
        let node = self.nodes.get(place.key)?;
        if !node.state.knows_plain_names {
            return None;
        }
        let command = kept(&node.state.commands, name)?;
        Some(command)
    }

    /// What a name stands for among the hidden commands of the interpreter that the place names.
    /// This takes no memory.
    pub fn hidden_at(&self, place: Place, name: &Text) -> Option<&Command>
        ensures { (p : List (List ℕ)) → Names self.now place p →
            option_copied result ≡ option_and_then
            (λ n. hidden_in n.own name.now) (tree_of self.now p) }
    {
        let node = self.nodes.get(place.key)?;
        node.state.hidden.get(name)
    }

    /// What a name stands for among the commands of the interpreter at the path. This takes no
    /// memory.
    pub fn command(&self, path: &[Text], name: &Text) -> Option<&Command>
        ensures { option_copied result ≡ option_and_then
            (λ n. command_in n.own name.now) (tree_of self.now path.now) }
    {
        let place = self.place(path)?;
        self.command_at(place, name)
    }

    /// What a name stands for among the hidden commands of the interpreter at the path. This takes
    /// no memory.
    pub fn hidden_command(&self, path: &[Text], name: &Text) -> Option<&Command>
        ensures { option_copied result ≡ option_and_then
            (λ n. hidden_in n.own name.now) (tree_of self.now path.now) }
    {
        let place = self.place(path)?;
        self.hidden_at(place, name)
    }

    /// Makes a name of the interpreter at the path an alias, which is looked up at each call and
    /// not now. Its way is kept as the shortest one: where it goes up and comes down again by the
    /// same names, these are left out.
    ///
    /// # Errors
    /// Refusals, in this order: 301; 238 of the name; 302 where it is a child. Want of memory.
    pub fn set_alias(
        &mut self,
        alloc: Global,
        path: &[Text],
        name: Text,
        alias: &Alias,
    ) -> Result<(), TreeError>
        ensures there { OnOk result (IsSome (tree_of self.old path.now)) }
        ensures set { OnOk result (Becomes (tree_of self.old) (tree_of self.new) path.now
            (λ own. named own name (command.Alias (straight path.now alias.now)))) }
        ensures refused { IfErr result
            (λ e. RefusesAt e (tree_of self.old) path.now
            (λ own. named own name (command.Alias (straight path.now alias.now)))) }
        ensures unchanged { OnErr result (tree_of self.new ≡ tree_of self.old) }
        ensures keys { (q : List (List ℕ)) → key_of self.new q ≡ key_of self.old q }
        ensures held { (k : ℕ) → held_of self.new k ≡ held_of self.old k }
        ensures marks { marks_of self.new ≡ marks_of self.old }
    {
        let Some(place) = self.place(path) else {
            return Err(TreeError::NoInterpreter);
        };
        let way = alias.straightened(alloc, path)?;
        self.set_alias_at(place, name, way)
    }

    /// Makes a name of the interpreter at one path an alias whose target is the interpreter at
    /// another, which is looked up at each call and not now. It is kept as the levels up and the
    /// names down that lead there, the leading names that the two paths have in common left out.
    ///
    /// # Errors
    /// Refusals, in this order: 301 of the path that has the alias; 238 of the name; 302 where it
    /// is a child. Want of memory.
    pub fn set_alias_between(
        &mut self,
        alloc: Global,
        from: &[Text],
        name: Text,
        to: &[Text],
        words: Vec<Value>,
    ) -> Result<(), TreeError>
        ensures there { OnOk result (IsSome (tree_of self.old from.now)) }
        ensures set { OnOk result (Becomes (tree_of self.old) (tree_of self.new) from.now
            (λ own. named own name (command.Alias (way_between from.now to.now words.items)))) }
        ensures refused { IfErr result
            (λ e. RefusesAt e (tree_of self.old) from.now
            (λ own. named own name (command.Alias (way_between from.now to.now words.items)))) }
        ensures unchanged { OnErr result (tree_of self.new ≡ tree_of self.old) }
        ensures keys { (q : List (List ℕ)) → key_of self.new q ≡ key_of self.old q }
        ensures held { (k : ℕ) → held_of self.new k ≡ held_of self.old k }
        ensures marks { marks_of self.new ≡ marks_of self.old }
    {
        let Some(place) = self.place(from) else {
            return Err(TreeError::NoInterpreter);
        };
        let way = Alias::between(alloc, from, to, words)?;
        self.set_alias_at(place, name, way)
    }

    /// Makes a name of the interpreter at the path an alias whose calls leave the tree: what stands
    /// outside of it answers them.
    ///
    /// # Errors
    /// Refusals, in this order: 301; 238 of the name; 302 where it is a child. Want of memory.
    pub fn set_alias_past(
        &mut self,
        alloc: Global,
        path: &[Text],
        name: Text,
        words: Vec<Value>,
    ) -> Result<(), TreeError>
        ensures there { OnOk result (IsSome (tree_of self.old path.now)) }
        ensures set { OnOk result (Becomes (tree_of self.old) (tree_of self.new) path.now
            (λ own. named own name (command.Alias (way_past path.now words.items)))) }
        ensures refused { IfErr result
            (λ e. RefusesAt e (tree_of self.old) path.now
            (λ own. named own name (command.Alias (way_past path.now words.items)))) }
        ensures unchanged { OnErr result (tree_of self.new ≡ tree_of self.old) }
        ensures keys { (q : List (List ℕ)) → key_of self.new q ≡ key_of self.old q }
        ensures held { (k : ℕ) → held_of self.new k ≡ held_of self.old k }
        ensures marks { marks_of self.new ≡ marks_of self.old }
    {
        let Some(place) = self.place(path) else {
            return Err(TreeError::NoInterpreter);
        };
        let way = Alias::past(alloc, path, words)?;
        self.set_alias_at(place, name, way)
    }

    /// Makes a name of the interpreter at the path a procedure.
    ///
    /// # Errors
    /// Refusals, in this order: 301; 238 of the name; 302 where it is a child. Want of memory.
    pub fn set_proc(
        &mut self,
        path: &[Text],
        name: Text,
        procedure: Procedure,
    ) -> Result<(), TreeError>
        ensures there { OnOk result (IsSome (tree_of self.old path.now)) }
        ensures set { OnOk result (Becomes (tree_of self.old) (tree_of self.new) path.now
            (λ own. named own name (command.Procedure procedure))) }
        ensures refused { IfErr result
            (λ e. RefusesAt e (tree_of self.old) path.now
            (λ own. named own name (command.Procedure procedure))) }
        ensures unchanged { OnErr result (tree_of self.new ≡ tree_of self.old) }
        ensures keys { (q : List (List ℕ)) → key_of self.new q ≡ key_of self.old q }
        ensures held { (k : ℕ) → held_of self.new k ≡ held_of self.old k }
        ensures marks { marks_of self.new ≡ marks_of self.old }
    {
        let Some(place) = self.place(path) else {
            return Err(TreeError::NoInterpreter);
        };
        self.set_proc_at(place, name, procedure)
    }

    /// Takes an alias of the interpreter at the path away. This takes no memory.
    ///
    /// # Errors
    /// TreeError 301; 305 where the name is no alias.
    pub fn clear_alias(&mut self, path: &[Text], name: &Text) -> Result<(), TreeError>
        ensures there { OnOk result (IsSome (tree_of self.old path.now)) }
        ensures cleared { OnOk result (Becomes (tree_of self.old) (tree_of self.new) path.now
            (λ own. cleared own name.now)) }
        ensures refused { IfErr result
            (λ e. RefusesThere e (tree_of self.old) path.now (λ own. cleared own name.now)) }
        ensures unchanged { OnErr result (tree_of self.new ≡ tree_of self.old) }
        ensures keys { (q : List (List ℕ)) → key_of self.new q ≡ key_of self.old q }
        ensures held { (k : ℕ) → held_of self.new k ≡ held_of self.old k }
        ensures marks { marks_of self.new ≡ marks_of self.old }
    {
        let Some(place) = self.place(path) else {
            return Err(TreeError::NoInterpreter);
        };
        self.clear_alias_at(place, name)
    }

    /// Gives a command of the interpreter at the path another name, and puts it last; where the new
    /// name is empty the command is taken away, and of a child's command the child is deleted with
    /// all below it.
    ///
    /// # Errors
    /// Refusals, in this order: 301; 305 of the name; 302 where it is a child; 238 of the new name;
    /// 302 where that is a command. Where the new name is empty: 301; 303 of a child in which an
    /// evaluation is in progress; 305. Want of memory, where it isn't.
    pub fn rename(&mut self, path: &[Text], name: &Text, new_name: Text) -> Result<(), TreeError>
        ensures there { OnOk result (IsSome (tree_of self.old path.now)) }
        ensures renamed { OnOk result
            (Renames (tree_of self.old) (tree_of self.new) path.now name.now new_name) }
        ensures refused { IfErr result
            (λ e. RefusesRename e (tree_of self.old) path.now name.now new_name) }
        ensures unchanged { OnErr result (tree_of self.new ≡ tree_of self.old) }
        ensures kept { OnErr result ((q : List (List ℕ)) → key_of self.new q ≡ key_of self.old q) }
        ensures keys { (q : List (List ℕ)) (k : ℕ) →
            is_above (path.now ++ name.now ∷ []) q ≡ false → key_of self.old q ≡ Some k →
            key_of self.new q ≡ Some k }
        ensures marks { marks_of self.new ≡ marks_of self.old }
    {
        let Some(place) = self.place(path) else {
            return Err(TreeError::NoInterpreter);
        };
        if !new_name.as_str().is_empty() {
            return self.rename_at(place, name, new_name);
        }
        if is_child(self.command_at(place, name)) {
            return self.delete(path, name);
        }
        self.remove_at(place, name)
    }
}
