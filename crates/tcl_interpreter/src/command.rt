//! What the name of a command stands for.
ghost use Rattle.std.specs.Prelude.{◌≡◌};
ghost use Rattle.std.specs.Option.{option_copied};
ghost use Rattle.tcl_interpreter.specs.Names.{is_alias, is_child};

use crate::alias::Alias;
use crate::builtin::Builtin;
use crate::procedure::Procedure;
use indexmap::IndexMap;
use std::alloc::AllocError;
use tcl_text::text::Text;

/// What the name of a command stands for.
#[derive(Drop)]
pub enum Command {
    /// A command of the language or of the host.
    Builtin(Builtin),
    Procedure(Procedure),
    Alias(Alias),
    /// The child interpreter of that name.
    Child,
}

impl Clone for Command {
    ghost is_clone = { λ x y. y ≡ x };

    fn clone(&self) -> Result<Command, AllocError> {
        Ok(match self {
            Command::Builtin(builtin) => Command::Builtin(*builtin),
            Command::Procedure(procedure) => Command::Procedure(procedure.clone()?),
            Command::Alias(alias) => Command::Alias(alias.clone()?),
            Command::Child => Command::Child,
        })
    }
}

/// Commands by their names, in the order in which they were made.
pub type Commands = IndexMap<Text, Command>;

/// Whether the command is a child interpreter.
pub fn is_child(command: Option<&Command>) -> bool
    ensures { result ≡ is_child (option_copied command.entry) }
{
    match command {
        Some(Command::Child) => true,
        Some(Command::Builtin(_)) => false,
        Some(Command::Procedure(_)) => false,
        Some(Command::Alias(_)) => false,
        None => false,
    }
}

/// Whether the command is an alias.
pub(crate) fn is_alias(command: Option<&Command>) -> bool
    ensures { result ≡ is_alias (option_copied command.entry) }
{
    match command {
        Some(Command::Alias(_)) => true,
        Some(Command::Builtin(_)) => false,
        Some(Command::Procedure(_)) => false,
        Some(Command::Child) => false,
        None => false,
    }
}
