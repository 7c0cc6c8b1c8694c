//! The commands that reach the host.
ghost use Rattle.std.specs.Prelude.{◌≡◌, ◌++◌, ◌==◌, codes, IfOk};
ghost use Rattle.std.specs.Str.{bytes_eq};
ghost use Rattle.tcl_calls.specs.HostCalls.{meaning_of, program_of};
ghost use Rattle.tcl_language.specs.Hosting as hosting;
ghost use Rattle.tcl_run.specs.Ends.{OnCompletion};
ghost use Rattle.tcl_run.specs.Entering.{request_of};
ghost use Rattle.tcl_run.specs.Runs.{IsHere, IsRunning, Keeps, ProceedsIn, ways};
ghost use Rattle.tcl_evaluation.specs.Requests.{Hears};

use crate::waiting::{Said, wait};
use std::alloc::{AllocError, Global};
use tcl_calls::host_calls::{HostCall, HostCommand, host_call};
use tcl_calls::replies::answer;
use tcl_host::reply::HostReply;
use tcl_host::request::Request;
use tcl_run::entry::Entry;
use tcl_run::failure::{too_long, wrong_args};
use tcl_run::interruption::Interruption;
use tcl_run::outside::{Happening, Outside};
use tcl_text::text::Text;
use tcl_tree::tree::{Place, Tree};
use tcl_value::value::{Value, ValueError};

/// Makes a request of the host, and returns its reply.
///
/// # Errors
/// How the call ended otherwise than by a reply; want of memory.
#[cycle(eval)]
#[inline(never)]
pub fn ask<O: Outside>(
    tree: &mut Tree,
    alloc: Global,
    outside: &mut O,
    place: Place,
    request: Request,
) -> Result<HostReply, Interruption>
    requires { IsRunning tree.old place }
    ensures runs { Hears (ways O.goes O.loses) tree.old outside.old place
        (request_of request) tree.new
        outside.new result }
    ensures here { OnCompletion result (IsHere tree.old tree.new place) }
    ensures keeps { Keeps O.entries_left tree.old tree.new outside.old outside.new }
{
    let entry = Entry::AskHost(request);
    let happening = Happening::PassedTop {
        caller: place,
        up: None,
        down: &[],
        entry: &entry,
    };
    outside.notify(alloc, tree, happening)?;
    match wait(tree, alloc, outside, place, None, &entry)? {
        Said::Heard(reply) => Ok(reply),
        Said::Completed(_) => unreachable!(),
        Said::Missed => unreachable!(),
    }
}

/// Makes a call of the host, and returns what its reply is to the script.
///
/// # Errors
/// Those of the host, of what was read and of the variable that it is read for; want of memory.
#[cycle(eval)]
#[inline(never)]
fn make_call<O: Outside>(
    tree: &mut Tree,
    alloc: Global,
    outside: &mut O,
    place: Place,
    call: &HostCall,
) -> Result<Value, Interruption>
    requires { IsRunning tree.old place }
    ensures runs { ProceedsIn (ways O.goes O.loses) tree.old outside.old place
        (λ style. meaning_of call.now) tree.new outside.new result }
    ensures here { OnCompletion result (IsHere tree.old tree.new place) }
    ensures keeps { Keeps O.entries_left tree.old tree.new outside.old outside.new }
{
    let request = call.request()?;
    let reply = ask(tree, alloc, outside, place, request)?;
    answer(tree, alloc, place, call, reply)
}

/// Calls a command that makes one request of the host. (open(n), close(n), gets(n), read(n),
/// eof(n), flush(n))
///
/// # Errors
/// 241; 266 of a mode; 261, 262 and 267 of the host; 122 and 265 of what was read; 232, 233 and 238
/// of a variable; want of memory.
#[cycle(eval)]
#[inline(never)]
pub fn call_host<O: Outside>(
    tree: &mut Tree,
    alloc: Global,
    outside: &mut O,
    place: Place,
    command: HostCommand,
    args: &[Value],
) -> Result<Value, Interruption>
    requires { IsRunning tree.old place }
    ensures runs { ProceedsIn (ways O.goes O.loses) tree.old outside.old place
        (λ style. program_of command args.now) tree.new outside.new result }
    ensures here { OnCompletion result (IsHere tree.old tree.new place) }
    ensures keeps { Keeps O.entries_left tree.old tree.new outside.old outside.new }
{
    let call = host_call(alloc, command, args)?;
    make_call(tree, alloc, outside, place, &call)
}

/// `puts ?-nonewline? ?channel? string`: writes a text to a channel, which is `stdout` where none
/// is named, and a newline behind it. (puts(n))
///
/// # Errors
/// 241; 122 of the line; 261 and 262 of the host; want of memory.
#[cycle(eval)]
#[inline(never)]
pub fn puts<O: Outside>(
    tree: &mut Tree,
    alloc: Global,
    outside: &mut O,
    place: Place,
    args: &[Value],
) -> Result<Value, Interruption>
    requires { IsRunning tree.old place }
    ensures runs { ProceedsIn (ways O.goes O.loses) tree.old outside.old place
        (λ style. hosting.puts args.now) tree.new outside.new result }
    ensures here { OnCompletion result (IsHere tree.old tree.new place) }
    ensures keeps { Keeps O.entries_left tree.old tree.new outside.old outside.new }
{
    match args {
        [text] => put_line(tree, alloc, outside, place, &stdout(alloc)?, text),
        [word, text] => {
            let word = word.text(alloc)?;
            if word.as_str() == NO_NEWLINE {
                return write(tree, alloc, outside, place, &stdout(alloc)?, text);
            }
            put_line(tree, alloc, outside, place, &word, text)
        }
        [word, channel, text] => {
            if word.text(alloc)?.as_str() == NO_NEWLINE {
                return write(tree, alloc, outside, place, &channel.text(alloc)?, text);
            }
            Err(wrong_args(alloc, PUTS))
        }
        _ => Err(wrong_args(alloc, PUTS)),
    }
}

/// The option that leaves the newline out.
const NO_NEWLINE: &str = "-nonewline";

/// The form of `puts`.
const PUTS: &str = "puts ?-nonewline? ?channel? string";

/// The name of the standard output.
fn stdout(alloc: Global) -> Result<Text, AllocError>
    ensures { IfOk result (λ name. name ≡ hosting.stdout) }
{
    Text::new(alloc, "stdout")
}

/// Writes a text with a newline behind it.
#[cycle(eval)]
#[inline(never)]
fn put_line<O: Outside>(
    tree: &mut Tree,
    alloc: Global,
    outside: &mut O,
    place: Place,
    channel: &Text,
    text: &Value,
) -> Result<Value, Interruption>
    requires { IsRunning tree.old place }
    ensures runs { ProceedsIn (ways O.goes O.loses) tree.old outside.old place
        (λ style. hosting.puts_line channel.now text.now) tree.new outside.new result }
    ensures here { OnCompletion result (IsHere tree.old tree.new place) }
    ensures keeps { Keeps O.entries_left tree.old tree.new outside.old outside.new }
{
    let mut line = text.clone()?;
    match line.append(alloc, "\n") {
        Ok(()) => write(tree, alloc, outside, place, channel, &line),
        Err(ValueError::TooLong) => Err(too_long(alloc)),
        Err(ValueError::Memory) => Err(Interruption::Memory),
    }
}

/// Writes a text.
#[cycle(eval)]
#[inline(never)]
fn write<O: Outside>(
    tree: &mut Tree,
    alloc: Global,
    outside: &mut O,
    place: Place,
    channel: &Text,
    text: &Value,
) -> Result<Value, Interruption>
    requires { IsRunning tree.old place }
    ensures runs { ProceedsIn (ways O.goes O.loses) tree.old outside.old place
        (λ style. hosting.writes channel.now text.now) tree.new outside.new result }
    ensures here { OnCompletion result (IsHere tree.old tree.new place) }
    ensures keeps { Keeps O.entries_left tree.old tree.new outside.old outside.new }
{
    let call = HostCall::Write(channel.clone()?, text.text(alloc)?);
    make_call(tree, alloc, outside, place, &call)
}
