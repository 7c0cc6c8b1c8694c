//! `interp`, by which an interpreter asks those below it, and the subcommands that a child's own
//! command has too.
ghost use Rattle.tcl_language.specs.Interpreters as interpreters;
ghost use Rattle.tcl_run.specs.Ends.{OnCompletion};
ghost use Rattle.tcl_run.specs.Runs.{IsHere, IsRunning, Keeps, ProceedsIn, ways};
ghost use Rattle.tcl_interp.specs.Programs.{evals, invokes, program_of};
ghost use Rattle.tcl_interp.specs.Subjects.{about};

use crate::crossing::ask_entry;
use std::alloc::Global;
use tcl_calls::scripts::script_of;
use tcl_interp::dispatch::{call_shared, call_tree};
use tcl_interp::hidden::{HiddenCall, hidden_call};
use tcl_interp::subcommand::{InterpSubcommand, Subcommand, interp_subcommand};
use tcl_interp::subject::{Subject, path_to, split_path, trusted_path, wrong_words};
use tcl_run::entry::Entry;
use tcl_run::failure::{unknown_subcommand, wrong_args};
use tcl_run::interruption::Interruption;
use tcl_run::outside::Outside;
use tcl_tree::tree::{Place, Tree};
use tcl_value::value::Value;

/// `interp subcommand ?arg ...?`: asks an interpreter at a path, which is a list of names downward
/// from the one that asks. (interp(n))
///
/// # Errors
/// 241; 244; those of the subcommand; want of memory.
#[cycle(eval)]
#[inline(never)]
pub fn interp<O: Outside>(
    tree: &mut Tree,
    alloc: Global,
    outside: &mut O,
    place: Place,
    args: &[Value],
) -> Result<Value, Interruption>
    requires { IsRunning tree.old place }
    ensures runs { ProceedsIn (ways O.goes O.loses) tree.old outside.old place
        (λ style. interpreters.interp style args.now) tree.new outside.new result }
    ensures here { OnCompletion result (IsHere tree.old tree.new place) }
    ensures keeps { Keeps O.entries_left tree.old tree.new outside.old outside.new }
{
    let [word, words @ ..] = args else {
        return Err(wrong_args(alloc, "interp subcommand ?arg ...?"));
    };
    let name = word.text(alloc)?;
    let Some(subcommand) = interp_subcommand(name.as_str()) else {
        return Err(unknown_subcommand(alloc, name.as_str()));
    };
    match subcommand {
        InterpSubcommand::Tree(own) => call_tree(tree, alloc, outside, place, own, words),
        InterpSubcommand::Shared(shared) => {
            let (subject, rest) = split_path(words);
            call_subcommand(tree, alloc, outside, place, subject, shared, rest)
        }
    }
}

/// A subcommand that `interp` and a child's own command have both.
///
/// # Errors
/// 241; those of the subcommand; want of memory.
#[cycle(eval)]
#[inline(never)]
pub fn call_subcommand<O: Outside>(
    tree: &mut Tree,
    alloc: Global,
    outside: &mut O,
    place: Place,
    subject: Subject<'_>,
    subcommand: Subcommand,
    args: &[Value],
) -> Result<Value, Interruption>
    requires { IsRunning tree.old place }
    ensures runs { ProceedsIn (ways O.goes O.loses) tree.old outside.old place
        (λ style. program_of style subcommand (about subject.entry) args.now) tree.new outside.new
        result }
    ensures here { OnCompletion result (IsHere tree.old tree.new place) }
    ensures keeps { Keeps O.entries_left tree.old tree.new outside.old outside.new }
{
    match subcommand {
        Subcommand::Eval => eval_in(tree, alloc, outside, place, subject, args),
        Subcommand::InvokeHidden => invoke_hidden(tree, alloc, outside, place, subject, args),
        other => call_shared(tree, alloc, outside, place, subject, other, args),
    }
}

/// `interp eval path arg ?arg ...?`, and `NAME eval arg ?arg ...?`: evaluates a script in the
/// subject. (interp(n))
///
/// # Errors
/// 241; 101 to 104 and 301 of the path; 122 of the script; those of the script; want of memory.
#[cycle(eval)]
#[inline(never)]
fn eval_in<O: Outside>(
    tree: &mut Tree,
    alloc: Global,
    outside: &mut O,
    place: Place,
    subject: Subject<'_>,
    args: &[Value],
) -> Result<Value, Interruption>
    requires { IsRunning tree.old place }
    ensures runs { ProceedsIn (ways O.goes O.loses) tree.old outside.old place
        (λ style. evals (about subject.entry) args.now) tree.new outside.new result }
    ensures here { OnCompletion result (IsHere tree.old tree.new place) }
    ensures keeps { Keeps O.entries_left tree.old tree.new outside.old outside.new }
{
    if args.is_empty() {
        let form = "interp eval path arg ?arg ...?";
        return Err(wrong_words(alloc, subject, form, "eval arg ?arg ...?"));
    }
    let path = path_to(tree, alloc, place, subject)?;
    let script = script_of(alloc, args)?;
    ask_entry(
        tree,
        alloc,
        outside,
        place,
        path.as_slice(),
        Entry::Eval(script),
    )
}

/// `interp invokehidden path ?-global? hiddenName ?arg ...?`, and
/// `NAME invokehidden ?-global? hiddenName ?arg ...?`: calls a hidden command of the subject.
/// (interp(n))
///
/// # Errors
/// 241; 221; 304; 101 to 104 and 301 of the path; those of the call; want of memory.
#[cycle(eval)]
#[inline(never)]
fn invoke_hidden<O: Outside>(
    tree: &mut Tree,
    alloc: Global,
    outside: &mut O,
    place: Place,
    subject: Subject<'_>,
    args: &[Value],
) -> Result<Value, Interruption>
    requires { IsRunning tree.old place }
    ensures runs { ProceedsIn (ways O.goes O.loses) tree.old outside.old place
        (λ style. invokes (about subject.entry) args.now) tree.new outside.new result }
    ensures here { OnCompletion result (IsHere tree.old tree.new place) }
    ensures keeps { Keeps O.entries_left tree.old tree.new outside.old outside.new }
{
    let call = hidden_call(alloc, subject, args)?;
    let HiddenCall { is_global, words } = call;
    let path = trusted_path(tree, alloc, place, subject)?;
    let entry = Entry::InvokeHidden { is_global, words };
    ask_entry(tree, alloc, outside, place, path.as_slice(), entry)
}
