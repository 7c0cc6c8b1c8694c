//! The subcommands of `dict` that change a variable.
ghost use Rattle.std.specs.Prelude.{◌≡◌, List};
ghost use Rattle.tcl_core.specs.Paths.{Path, Text as TextBytes};
ghost use Rattle.tcl_language.specs.Changes.{change_or, dict_changes};
ghost use Rattle.tcl_language.specs.Instructions.{Program};
ghost use Rattle.tcl_run.specs.Plain.{Acts};
ghost use Rattle.tcl_run.specs.Runs.{IsLevel};
ghost use Rattle.tcl_text.specs.declared.integer.Integers.{Integers};
ghost use Rattle.tcl_tree.specs.TreeOf.{Names};
ghost use Rattle.tcl_commands.specs.Changes.{change_of, program_of, program_or};

use crate::changing::{dict_append, dict_incr, dict_lappend, dict_set, dict_unset};
use std::alloc::Global;
use tcl_run::interruption::Interruption;
use tcl_tree::tree::{Place, Tree};
use tcl_value::value::Value;

/// A subcommand of `dict` that changes a variable.
#[derive(Clone, Copy, Drop)]
pub enum Change {
    Set,
    Unset,
    Incr,
    Append,
    Lappend,
}

impl Change {
    /// The change that a word names. Its program is what the list of changes has under that name.
    pub fn named(word: &str) -> Option<Change>
        ensures named { result ≡ change_of word.now }
        ensures listed { (other : Program) (style : Integers) (args : List TextBytes) → change_or
            other style dict_changes word.now args ≡ program_or other style result args }
    {
        match word {
            "set" => Some(Change::Set),
            "unset" => Some(Change::Unset),
            "incr" => Some(Change::Incr),
            "append" => Some(Change::Append),
            "lappend" => Some(Change::Lappend),
            _ => None,
        }
    }
}

/// Makes a change, with the words behind its name.
pub fn make_change(
    tree: &mut Tree,
    alloc: Global,
    place: Place,
    change: Change,
    args: &[Value],
) -> Result<Value, Interruption>
    requires { (p : Path) × Names tree.old place p }
    ensures acts { Acts tree.old place (λ style. program_of change style args.now) tree.new result }
    ensures level { IsLevel tree.old tree.new }
{
    match change {
        Change::Set => dict_set(tree, alloc, place, args),
        Change::Unset => dict_unset(tree, alloc, place, args),
        Change::Incr => dict_incr(tree, alloc, place, args),
        Change::Append => dict_append(tree, alloc, place, args),
        Change::Lappend => dict_lappend(tree, alloc, place, args),
    }
}
