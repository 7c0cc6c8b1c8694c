//! Commands are hidden and exposed. No safe interpreter does either.
ghost use Rattle.std.specs.Prelude.{◌≡◌, IfOk};
ghost use Rattle.tcl_core.specs.Endings.Reply.{Completed};
ghost use Rattle.tcl_language.specs.Faults as faults;
ghost use Rattle.tcl_language.specs.Interpreters as interpreters;
ghost use Rattle.tcl_run.specs.Ends.{Interrupts, failing};
ghost use Rattle.tcl_run.specs.Entering.{entry_of};
ghost use Rattle.tcl_run.specs.Runs.{Evaluates, IsHere, IsRunning, KeepsAndLoses};
ghost use Rattle.tcl_interp.specs.Subjects.{about, path_text};
ghost use Rattle.tcl_interp.specs.Programs.{hiding_entry, hiding_forms, hides_or_exposes};

use crate::subject::{Subject, ask_trusted, wrong_words};
use std::alloc::{AllocError, Global};
use tcl_run::entry::OwnEntry;
use tcl_run::interruption::Interruption;
use tcl_run::outside::Outside;
use tcl_tree::tree::{Place, Tree};
use tcl_value::value::Value;

/// Whether a command is hidden or exposed.
#[derive(Clone, Copy, Drop)]
pub enum Hiding {
    /// A command becomes a hidden one.
    Hide,
    /// A hidden command becomes a command.
    Expose,
}

/// What an interpreter is asked for, that a command of this name be hidden or exposed under the
/// other.
fn asked_entry(
    alloc: Global,
    hiding: Hiding,
    from: &Value,
    to: &Value,
) -> Result<OwnEntry, AllocError>
    ensures { IfOk result (λ made. entry_of made ≡ hiding_entry hiding from.now to.now) }
{
    let from = from.text(alloc)?;
    let to = to.text(alloc)?;
    match hiding {
        Hiding::Hide => Ok(OwnEntry::Hide {
            name: from,
            hidden: to,
        }),
        Hiding::Expose => Ok(OwnEntry::Expose {
            hidden: from,
            name: to,
        }),
    }
}

/// Hides or exposes a command of the subject, under this other name.
fn hide_or_expose_as<O: Outside>(
    tree: &mut Tree,
    alloc: Global,
    outside: &mut O,
    place: Place,
    subject: Subject<'_>,
    hiding: Hiding,
    from: &Value,
    to: &Value,
) -> Result<Value, Interruption>
    requires { IsRunning tree.old place }
    ensures evaluates { Evaluates O.goes tree.old outside.old place
        (λ style. interpreters.asks_trusted (path_text (about subject.entry))
        (hiding_entry hiding from.now to.now)) tree.new outside.new result }
    ensures keeps { KeepsAndLoses O.entries_left O.loses tree.old tree.new outside.old outside.new }
    ensures here { IsHere tree.old tree.new place }
{
    let entry = asked_entry(alloc, hiding, from, to)?;
    ask_trusted(tree, alloc, outside, place, subject, entry)
}

/// The words don't have the form of the subcommand.
fn wrong_names(alloc: Global, subject: Subject<'_>, hiding: Hiding) -> Interruption
    ensures { Interrupts result (λ e. e
        ≡ Completed (failing (faults.wrong_args (hiding_forms hiding (about subject.entry))))) }
{
    match hiding {
        Hiding::Hide => {
            let form = "interp hide path cmd ?hiddenName?";
            wrong_words(alloc, subject, form, "hide cmd ?hiddenName?")
        }
        Hiding::Expose => {
            let form = "interp expose path hiddenName ?cmd?";
            wrong_words(alloc, subject, form, "expose hiddenName ?cmd?")
        }
    }
}

/// `interp hide path cmd ?hiddenName?`, and `NAME hide cmd ?hiddenName?`;
/// `interp expose path hiddenName ?cmd?`, and `NAME expose hiddenName ?cmd?`
///
/// # Errors
/// 241; 304 where the interpreter that asks is safe; those of the path, and of hiding or exposing;
/// want of memory.
pub fn hide_or_expose<O: Outside>(
    tree: &mut Tree,
    alloc: Global,
    outside: &mut O,
    place: Place,
    subject: Subject<'_>,
    hiding: Hiding,
    args: &[Value],
) -> Result<Value, Interruption>
    requires { IsRunning tree.old place }
    ensures evaluates { Evaluates O.goes tree.old outside.old place
        (λ style. hides_or_exposes hiding (about subject.entry) args.now) tree.new outside.new
        result }
    ensures keeps { KeepsAndLoses O.entries_left O.loses tree.old tree.new outside.old outside.new }
    ensures here { IsHere tree.old tree.new place }
{
    match args {
        [name] => hide_or_expose_as(tree, alloc, outside, place, subject, hiding, name, name),
        [from, to] => hide_or_expose_as(tree, alloc, outside, place, subject, hiding, from, to),
        _ => Err(wrong_names(alloc, subject, hiding)),
    }
}
