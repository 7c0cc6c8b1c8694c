//! Variables that keep what their texts were read as, where an answer in brackets reads them.
ghost use Rattle.std.specs.Prelude.{◌≡◌};
ghost use Rattle.tcl_core.specs.Paths.{Path};
ghost use Rattle.tcl_run.specs.Runs.{IsLevel};
ghost use Rattle.tcl_tree.specs.TreeOf.{tree_of, Names};

use std::alloc::Global;
use tcl_commands::keeping::{Reading, keep_reading};
use tcl_frames::variable_name::VariableName;
use tcl_prepared::kinds::BracketKind;
use tcl_prepared::prepared::{Bracket, Prepared, PreparedCommand, PreparedPart, PreparedWord};
use tcl_tree::tree::{Place, Tree};
use tcl_value::value::Value;

/// The variable that a word is, if it is one.
fn variable_of(word: &PreparedWord) -> Option<&VariableName> {
    match word {
        PreparedWord::Lone(PreparedPart::Variable(name)) => Some(name),
        _ => None,
    }
}

/// Whether a command of this name reads its first word as a list.
fn reads_list(name: &Value) -> bool {
    name.is_text(b"lindex") || name.is_text(b"llength") || name.is_text(b"lrange")
}

/// The variable that a script of one command reads, and as what it reads it. A hint, of which
/// contracts say nothing: a variable may keep what its text reads as at any time.
fn variable_read(script: &Prepared) -> Option<(&VariableName, Reading)> {
    let [PreparedCommand::AtHand(words)] = script.commands() else {
        return None;
    };
    let [PreparedWord::Literal(name), args @ ..] = words.as_slice() else {
        return None;
    };
    match args {
        [first, ..] if reads_list(name) => Some((variable_of(first)?, Reading::List)),
        [_, second, ..] if name.is_text(b"dict") => Some((variable_of(second)?, Reading::Dict)),
        _ => None,
    }
}

/// Has the variable that an answer in brackets reads keep what its text reads as, so that the next
/// answer finds it at hand. No script sees a difference.
pub(crate) fn keep_what_is_read(tree: &mut Tree, alloc: Global, place: Place, bracket: &Bracket)
    requires { (p : Path) × Names tree.old place p }
    ensures same { tree_of tree.new ≡ tree_of tree.old }
    ensures level { IsLevel tree.old tree.new }
{
    let BracketKind::Answer = bracket.kind() else {
        return;
    };
    if let Some((name, reading)) = variable_read(bracket.script()) {
        keep_reading(tree, alloc, place, name, reading);
    }
}
