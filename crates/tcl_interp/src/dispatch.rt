//! The subcommands of `interp` and of a child's own command by their names.
ghost use Rattle.std.specs.Prelude.{◌≡◌, true};
ghost use Rattle.tcl_run.specs.Runs.{Evaluates, IsHere, IsRunning, KeepsAndLoses};
ghost use Rattle.tcl_interp.specs.Subcommands.{evaluates_nothing, tree_program_of};
ghost use Rattle.tcl_interp.specs.Subjects.{about};
ghost use Rattle.tcl_interp.specs.Programs.{program_of, IsInterps, IsChilds};

use crate::alias::alias;
use crate::creating::create;
use crate::deleting::delete;
use crate::existing::exists;
use crate::hiding::{Hiding, hide_or_expose};
use crate::limits::{limit, recursion_limit};
use crate::questions::{ask_about, ask_question};
use crate::subcommand::{Subcommand, TreeSubcommand};
use crate::subject::Subject;
use std::alloc::Global;
use tcl_run::entry::Question;
use tcl_run::interruption::Interruption;
use tcl_run::outside::Outside;
use tcl_tree::tree::{Place, Tree};
use tcl_value::value::Value;

/// A subcommand that both commands have is one program. The words of `interp` behind its name begin
/// with the path of its subject; that of a child's own command is the child.
pub fn one_program()
    ensures interp { IsInterps }
    ensures child { IsChilds }
{}

/// A subcommand that both commands have, where it evaluates no script. (interp(n))
///
/// # Errors
/// 241; those of each subcommand; want of memory.
pub fn call_shared<O: Outside>(
    tree: &mut Tree,
    alloc: Global,
    outside: &mut O,
    place: Place,
    subject: Subject<'_>,
    subcommand: Subcommand,
    args: &[Value],
) -> Result<Value, Interruption>
    requires running { IsRunning tree.old place }
    requires own { evaluates_nothing subcommand ≡ true }
    ensures evaluates { Evaluates O.goes tree.old outside.old place
        (λ style. program_of style subcommand (about subject.entry) args.now) tree.new outside.new
        result }
    ensures keeps { KeepsAndLoses O.entries_left O.loses tree.old tree.new outside.old outside.new }
    ensures here { IsHere tree.old tree.new place }
{
    match subcommand {
        Subcommand::Alias => alias(tree, alloc, outside, place, subject, args),
        Subcommand::Aliases => ask_question(
            tree,
            alloc,
            outside,
            place,
            subject,
            "interp aliases ?path?",
            "aliases",
            Question::Aliases,
            args,
        ),
        Subcommand::Hidden => ask_question(
            tree,
            alloc,
            outside,
            place,
            subject,
            "interp hidden ?path?",
            "hidden",
            Question::Hidden,
            args,
        ),
        Subcommand::IsSafe => ask_question(
            tree,
            alloc,
            outside,
            place,
            subject,
            "interp issafe ?path?",
            "issafe",
            Question::IsSafe,
            args,
        ),
        Subcommand::Limit => limit(tree, alloc, outside, place, subject, args),
        Subcommand::RecursionLimit => recursion_limit(tree, alloc, outside, place, subject, args),
        Subcommand::Hide => {
            hide_or_expose(tree, alloc, outside, place, subject, Hiding::Hide, args)
        }
        Subcommand::Expose => {
            hide_or_expose(tree, alloc, outside, place, subject, Hiding::Expose, args)
        }
        Subcommand::Eval => unreachable!(),
        Subcommand::InvokeHidden => unreachable!(),
    }
}

/// A subcommand that `interp` alone has. (interp(n))
///
/// # Errors
/// 241; those of each subcommand; want of memory.
pub fn call_tree<O: Outside>(
    tree: &mut Tree,
    alloc: Global,
    outside: &mut O,
    place: Place,
    subcommand: TreeSubcommand,
    args: &[Value],
) -> Result<Value, Interruption>
    requires { IsRunning tree.old place }
    ensures evaluates { Evaluates O.goes tree.old outside.old place
        (λ style. tree_program_of subcommand args.now) tree.new outside.new result }
    ensures keeps { KeepsAndLoses O.entries_left O.loses tree.old tree.new outside.old outside.new }
    ensures here { IsHere tree.old tree.new place }
{
    match subcommand {
        TreeSubcommand::Create => create(tree, alloc, outside, place, args),
        TreeSubcommand::Delete => delete(tree, alloc, outside, place, args),
        TreeSubcommand::Exists => exists(tree, alloc, outside, place, args),
        TreeSubcommand::Slaves => {
            ask_about(
                tree,
                alloc,
                outside,
                place,
                "interp slaves ?path?",
                Question::Slaves,
                args,
            )
        }
        TreeSubcommand::Children => {
            ask_about(
                tree,
                alloc,
                outside,
                place,
                "interp children ?path?",
                Question::Slaves,
                args,
            )
        }
    }
}
