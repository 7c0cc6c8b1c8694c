//! Calls of commands.
ghost use Rattle.std.specs.Prelude.{Some};
ghost use Rattle.tcl_language.specs.Control.{procedure as procedure_program};
ghost use Rattle.tcl_language.specs.Faults as faults;
ghost use Rattle.tcl_language.specs.Table.{called, dispatch, invoked, builtin as builtin_program};
ghost use Rattle.tcl_run.specs.Ends.{OnCompletion};
ghost use Rattle.tcl_run.specs.Runs.{IsHere, IsRunning, Keeps, ProceedsIn, ways};
ghost use Rattle.tcl_evaluation.specs.View.{LeavesProc};

use crate::children::child;
use crate::collecting::lmap;
use crate::control::{catch, eval};
use crate::crossing::call_alias;
use crate::evaluation::eval_value;
use crate::expressions::{expr, for_loop, if_first, while_loop};
use crate::hosting::{call_host, puts};
use crate::interpreters::interp;
use crate::loops::{dict, foreach, uplevel};
use crate::sourcing::source;
use crate::switching::switch;
use crate::trying::try_script;
use std::alloc::Global;
use tcl_calls::host_calls::HostCommand;
use tcl_calls::lookup::{find_command, find_hidden};
use tcl_calls::procedures::{enter, leave_frame, wrong_form};
use tcl_commands::plain::call_plain;
use tcl_flow::completion::leave_proc;
use tcl_interp::naming::rename;
use tcl_run::interruption::Interruption;
use tcl_run::outside::Outside;
use tcl_tree::builtin::Builtin;
use tcl_tree::command::Command;
use tcl_tree::procedure::Procedure;
use tcl_tree::tree::{Place, Tree};
use tcl_value::value::Value;

/// Calls the command that the first word names, with the others.
///
/// # Errors
/// 238 of the name, and 305 where no command has it; those of the command; want of memory.
#[cycle(eval)]
pub fn call<O: Outside>(
    tree: &mut Tree,
    alloc: Global,
    outside: &mut O,
    place: Place,
    words: &[Value],
) -> Result<Value, Interruption>
    requires { IsRunning tree.old place }
    ensures runs { ProceedsIn (ways O.goes O.loses) tree.old outside.old place
        (λ style. called style words.now) tree.new outside.new result }
    ensures here { OnCompletion result (IsHere tree.old tree.new place) }
    ensures keeps { Keeps O.entries_left tree.old tree.new outside.old outside.new }
{
    let [word, args @ ..] = words else {
        return Ok(Value::empty());
    };
    let command = find_command(tree, alloc, place, word)?;
    call_command(tree, alloc, outside, place, &command, word, args)
}

/// Calls the hidden command that the first word names, with the others.
///
/// # Errors
/// 306 where no hidden command has the name; those of the command; want of memory.
#[cycle(eval)]
pub fn call_hidden<O: Outside>(
    tree: &mut Tree,
    alloc: Global,
    outside: &mut O,
    place: Place,
    words: &[Value],
) -> Result<Value, Interruption>
    requires { IsRunning tree.old place }
    ensures runs { ProceedsIn (ways O.goes O.loses) tree.old outside.old place
        (λ style. invoked style words.now) tree.new outside.new result }
    ensures here { OnCompletion result (IsHere tree.old tree.new place) }
    ensures keeps { Keeps O.entries_left tree.old tree.new outside.old outside.new }
{
    let [word, args @ ..] = words else {
        return Ok(Value::empty());
    };
    let command = find_hidden(tree, alloc, place, word)?;
    call_command(tree, alloc, outside, place, &command, word, args)
}

/// Calls a command by the word that named it.
#[cycle(eval)]
#[inline(never)]
pub(crate) fn call_command<O: Outside>(
    tree: &mut Tree,
    alloc: Global,
    outside: &mut O,
    place: Place,
    command: &Command,
    word: &Value,
    args: &[Value],
) -> Result<Value, Interruption>
    requires { IsRunning tree.old place }
    ensures runs { ProceedsIn (ways O.goes O.loses) tree.old outside.old place
        (λ style. dispatch style word.now args.now faults.invalid_command (Some command.now))
        tree.new outside.new result }
    ensures here { OnCompletion result (IsHere tree.old tree.new place) }
    ensures keeps { Keeps O.entries_left tree.old tree.new outside.old outside.new }
{
    match command {
        Command::Builtin(builtin) => { call_builtin(tree, alloc, outside, place, *builtin, args) }
        Command::Procedure(procedure) => {
            call_procedure(tree, alloc, outside, place, procedure, word, args)
        }
        Command::Alias(alias) => call_alias(tree, alloc, outside, place, alias, word, args),
        Command::Child => child(tree, alloc, outside, place, word, args),
    }
}

/// Calls a command of the language or of the host.
#[cycle(eval)]
#[inline(never)]
pub(crate) fn call_builtin<O: Outside>(
    tree: &mut Tree,
    alloc: Global,
    outside: &mut O,
    place: Place,
    builtin: Builtin,
    args: &[Value],
) -> Result<Value, Interruption>
    requires { IsRunning tree.old place }
    ensures runs { ProceedsIn (ways O.goes O.loses) tree.old outside.old place
        (λ style. builtin_program style builtin args.now) tree.new outside.new result }
    ensures here { OnCompletion result (IsHere tree.old tree.new place) }
    ensures keeps { Keeps O.entries_left tree.old tree.new outside.old outside.new }
{
    match builtin {
        Builtin::Eval => eval(tree, alloc, outside, place, args),
        Builtin::Catch => catch(tree, alloc, outside, place, args),
        Builtin::Interp => interp(tree, alloc, outside, place, args),
        Builtin::Uplevel => uplevel(tree, alloc, outside, place, args),
        Builtin::Foreach => foreach(tree, alloc, outside, place, args),
        Builtin::Lmap => lmap(tree, alloc, outside, place, args),
        Builtin::Dict => dict(tree, alloc, outside, place, args),
        Builtin::Switch => switch(tree, alloc, outside, place, args),
        Builtin::Try => try_script(tree, alloc, outside, place, args),
        Builtin::Expr => expr(tree, alloc, outside, place, args),
        Builtin::If => if_first(tree, alloc, outside, place, args),
        Builtin::While => while_loop(tree, alloc, outside, place, args),
        Builtin::For => for_loop(tree, alloc, outside, place, args),
        Builtin::Rename => rename(tree, alloc, outside, place, args),
        Builtin::Open => call_host(tree, alloc, outside, place, HostCommand::Open, args),
        Builtin::Close => call_host(tree, alloc, outside, place, HostCommand::Close, args),
        Builtin::Gets => call_host(tree, alloc, outside, place, HostCommand::Gets, args),
        Builtin::Puts => puts(tree, alloc, outside, place, args),
        Builtin::Read => call_host(tree, alloc, outside, place, HostCommand::Read, args),
        Builtin::Eof => call_host(tree, alloc, outside, place, HostCommand::Eof, args),
        Builtin::Flush => call_host(tree, alloc, outside, place, HostCommand::Flush, args),
        Builtin::Source => source(tree, alloc, outside, place, args),
        other => call_plain(tree, alloc, place, other, args),
    }
}

/// Calls a procedure: its parameters are bound in a frame of their own, and its body, as it was
/// when it was called, runs there.
///
/// # Errors
/// 241 of its own form; 122 of a list of arguments; those of the body, as they leave a procedure;
/// want of memory.
#[cycle(eval)]
pub(crate) fn call_procedure<O: Outside>(
    tree: &mut Tree,
    alloc: Global,
    outside: &mut O,
    place: Place,
    procedure: &Procedure,
    word: &Value,
    args: &[Value],
) -> Result<Value, Interruption>
    requires { IsRunning tree.old place }
    ensures runs { ProceedsIn (ways O.goes O.loses) tree.old outside.old place
        (λ style. procedure_program procedure.now word.now args.now) tree.new outside.new result }
    ensures here { OnCompletion result (IsHere tree.old tree.new place) }
    ensures keeps { Keeps O.entries_left tree.old tree.new outside.old outside.new }
{
    if !enter(tree, alloc, place, procedure.parameters(), word, args)? {
        return Err(wrong_form(alloc, word, procedure.parameters()));
    }
    let ended = eval_value(tree, alloc, outside, place, procedure.body());
    leave_frame(tree, place);
    left_proc(alloc, ended)
}

/// The end of a call whose body ended so.
fn left_proc(alloc: Global, ended: Result<Value, Interruption>) -> Result<Value, Interruption>
    ensures { LeavesProc ended result }
{
    match ended {
        Err(Interruption::Completed(completion)) => {
            let mut completion = completion;
            leave_proc(alloc, &mut completion)?;
            Err(Interruption::Completed(completion))
        }
        other => other,
    }
}
