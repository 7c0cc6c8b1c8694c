//! How the commands of one interpreter are named.
ghost use Rattle.std.specs.Prelude.{◌≡◌, ◌++◌, ◌∷◌, [], IfErr, OnOk, OnErr, Some, None};
ghost use Rattle.std.specs.Str.{bytes_eq};
ghost use Rattle.std.specs.Map.{lookup, remove_entry};
ghost use Rattle.tcl_interpreter.specs.declared.command.Command.{Command};

use crate::command::{Command, Commands, is_alias, is_child};
use crate::name::is_command_name;
use crate::node::State;
use crate::refusal::TreeError;
use std::alloc::AllocError;
use tcl_text::text::Text;

/// What is done to the name of a command.
#[derive(Drop)]
pub enum Naming<'a> {
    /// It stands for this command from now on.
    Give(Text, Command),
    /// It is taken from an alias.
    Clear(&'a Text),
    /// Its command gets another.
    Rename(&'a Text, Text),
    /// It is taken from a command.
    Remove(&'a Text),
    /// Its command is hidden under another.
    Hide(&'a Text, Text),
    /// The command that is hidden under it is a command again, under another.
    Expose(&'a Text, Text),
}

// Gives a command another name, which is free, and puts it last.
fn move_name(commands: &mut Commands, name: &Text, new_name: Text) -> Result<(), AllocError>
    requires { lookup (bytes_eq new_name) commands.old.entries ≡ None }
    ensures moved { OnOk result
        ((c : Command) → lookup (bytes_eq name.now) commands.old.entries ≡ Some c →
        commands.new.entries ≡ remove_entry (bytes_eq name.now)
        commands.old.entries ++ (new_name, c) ∷ []) }
    ensures kept { OnErr result (commands.new.entries ≡ commands.old.entries) }
{
    commands.reserve(1)?;
    match commands.shift_remove(name) {
        Some(command) => {
            let _ = commands.insert(new_name, command);
            Ok(())
        }
        None => Ok(()),
    }
}

/// Moves a command from one map to the end of another, under a name that is free there.
fn move_command(
    from: &mut Commands,
    to: &mut Commands,
    name: &Text,
    new_name: Text,
) -> Result<(), AllocError>
    requires { lookup (bytes_eq new_name) to.old.entries ≡ None }
    ensures taken { OnOk result
        ((c : Command) → lookup (bytes_eq name.now) from.old.entries ≡ Some c →
        from.new.entries ≡ remove_entry (bytes_eq name.now) from.old.entries) }
    ensures put { OnOk result
        ((c : Command) → lookup (bytes_eq name.now) from.old.entries ≡ Some c →
        to.new.entries ≡ to.old.entries ++ (new_name, c) ∷ []) }
    ensures from_kept { OnErr result (from.new.entries ≡ from.old.entries) }
    ensures to_kept { OnErr result (to.new.entries ≡ to.old.entries) }
{
    to.reserve(1)?;
    match from.shift_remove(name) {
        Some(command) => {
            let _ = to.insert(new_name, command);
            Ok(())
        }
        None => Ok(()),
    }
}

impl State {
    ghost use Rattle.tcl_interpreter.specs.Naming.{Follows, Stays, StaysRefused, StaysSo, named};
    ghost use Rattle.tcl_interpreter.specs.Naming.{cleared, renamed, removed, hidden_under};
    ghost use Rattle.tcl_interpreter.specs.Naming.{exposed_under, named_so};

    fn give(&mut self, name: Text, command: Command) -> Result<(), TreeError>
        ensures done { OnOk result (Follows (λ own. named own name command) self.old self.new) }
        ensures refused { IfErr result
            (λ e. Stays (λ own. named own name command) e self.old self.new) }
        ensures safe { self.new.safe ≡ self.old.safe }
    {
        if !is_command_name(&name) {
            return Err(TreeError::BadName);
        }
        if is_child(self.commands.get(&name)) {
            return Err(TreeError::Exists);
        }
        self.commands.insert(name, command)?;
        Ok(())
    }

    fn clear(&mut self, name: &Text) -> Result<(), TreeError>
        ensures done { OnOk result (Follows (λ own. cleared own name.now) self.old self.new) }
        ensures refused { IfErr result
            (λ e. StaysRefused (λ own. cleared own name.now) e self.old self.new) }
        ensures safe { self.new.safe ≡ self.old.safe }
    {
        if !is_alias(self.commands.get(name)) {
            return Err(TreeError::NoCommand);
        }
        self.commands.shift_remove(name);
        Ok(())
    }

    fn rename(&mut self, name: &Text, new_name: Text) -> Result<(), TreeError>
        ensures done { OnOk result
            (Follows (λ own. renamed own name.now new_name) self.old self.new) }
        ensures refused { IfErr result
            (λ e. Stays (λ own. renamed own name.now new_name) e self.old self.new) }
        ensures safe { self.new.safe ≡ self.old.safe }
    {
        if !self.commands.contains_key(name) {
            return Err(TreeError::NoCommand);
        }
        if is_child(self.commands.get(name)) {
            return Err(TreeError::Exists);
        }
        if !is_command_name(&new_name) {
            return Err(TreeError::BadName);
        }
        if self.commands.contains_key(&new_name) {
            return Err(TreeError::Exists);
        }
        move_name(&mut self.commands, name, new_name)?;
        Ok(())
    }

    fn remove(&mut self, name: &Text) -> Result<(), TreeError>
        ensures done { OnOk result (Follows (λ own. removed own name.now) self.old self.new) }
        ensures refused { IfErr result
            (λ e. StaysRefused (λ own. removed own name.now) e self.old self.new) }
        ensures safe { self.new.safe ≡ self.old.safe }
    {
        if !self.commands.contains_key(name) {
            return Err(TreeError::NoCommand);
        }
        if is_child(self.commands.get(name)) {
            return Err(TreeError::Exists);
        }
        self.commands.shift_remove(name);
        Ok(())
    }

    fn hide(&mut self, name: &Text, hidden: Text) -> Result<(), TreeError>
        ensures done { OnOk result
            (Follows (λ own. hidden_under own name.now hidden) self.old self.new) }
        ensures refused { IfErr result
            (λ e. Stays (λ own. hidden_under own name.now hidden) e self.old self.new) }
        ensures safe { self.new.safe ≡ self.old.safe }
    {
        if !self.commands.contains_key(name) {
            return Err(TreeError::NoCommand);
        }
        if is_child(self.commands.get(name)) {
            return Err(TreeError::Exists);
        }
        if !is_command_name(&hidden) {
            return Err(TreeError::BadName);
        }
        if self.hidden.contains_key(&hidden) {
            return Err(TreeError::Exists);
        }
        move_command(&mut self.commands, &mut self.hidden, name, hidden)?;
        Ok(())
    }

    fn expose(&mut self, hidden: &Text, name: Text) -> Result<(), TreeError>
        ensures done { OnOk result
            (Follows (λ own. exposed_under own hidden.now name) self.old self.new) }
        ensures refused { IfErr result
            (λ e. Stays (λ own. exposed_under own hidden.now name) e self.old self.new) }
        ensures safe { self.new.safe ≡ self.old.safe }
    {
        if !self.hidden.contains_key(hidden) {
            return Err(TreeError::NoHidden);
        }
        if !is_command_name(&name) {
            return Err(TreeError::BadName);
        }
        if self.commands.contains_key(&name) {
            return Err(TreeError::Exists);
        }
        move_command(&mut self.hidden, &mut self.commands, hidden, name)?;
        Ok(())
    }

    /// Does this to the name of a command.
    pub fn name(&mut self, naming: Naming<'_>) -> Result<(), TreeError>
        ensures done { OnOk result (Follows (named_so naming.entry) self.old self.new) }
        ensures refused { IfErr result (λ e. StaysSo naming.entry e self.old self.new) }
        ensures safe { self.new.safe ≡ self.old.safe }
    {
        match naming {
            Naming::Give(name, command) => self.give(name, command),
            Naming::Clear(name) => self.clear(name),
            Naming::Rename(name, new_name) => self.rename(name, new_name),
            Naming::Remove(name) => self.remove(name),
            Naming::Hide(name, hidden) => self.hide(name, hidden),
            Naming::Expose(hidden, name) => self.expose(hidden, name),
        }
    }
}
