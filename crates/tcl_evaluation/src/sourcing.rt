//! `source`.
ghost use Rattle.std.specs.Prelude.{◌≡◌};
ghost use Rattle.tcl_language.specs.Sourcing as sourcing;
ghost use Rattle.tcl_run.specs.Ends.{OnCompletion};
ghost use Rattle.tcl_run.specs.Runs.{IsHere, IsRunning, Keeps, ProceedsIn, ways};
ghost use Rattle.tcl_evaluation.specs.Requests.{ReadsScript};

use crate::evaluation::eval_value;
use crate::hosting::ask;
use std::alloc::Global;
use tcl_calls::files::{left_file, opened_channel, script_of_file};
use tcl_host::open_mode::OpenMode;
use tcl_host::request::Request;
use tcl_run::failure::wrong_args;
use tcl_run::interruption::Interruption;
use tcl_run::outside::Outside;
use tcl_text::text::Text;
use tcl_tree::tree::{Place, Tree};
use tcl_value::value::Value;

/// `source name`: evaluates the script that a file holds. (source(n))
///
/// # Errors
/// 241; 261, 262 and 267 of the host, 122 and 265 of the file, all with its name; those of the
/// script; want of memory.
#[cycle(eval)]
#[inline(never)]
pub fn source<O: Outside>(
    tree: &mut Tree,
    alloc: Global,
    outside: &mut O,
    place: Place,
    args: &[Value],
) -> Result<Value, Interruption>
    requires { IsRunning tree.old place }
    ensures runs { ProceedsIn (ways O.goes O.loses) tree.old outside.old place
        (λ style. sourcing.source args.now) tree.new outside.new result }
    ensures here { OnCompletion result (IsHere tree.old tree.new place) }
    ensures keeps { Keeps O.entries_left tree.old tree.new outside.old outside.new }
{
    match args {
        [file] => source_file(tree, alloc, outside, place, &file.text(alloc)?),
        _ => Err(wrong_args(alloc, "source name")),
    }
}

/// Evaluates the script that a file holds.
#[cycle(eval)]
#[inline(never)]
fn source_file<O: Outside>(
    tree: &mut Tree,
    alloc: Global,
    outside: &mut O,
    place: Place,
    file: &Text,
) -> Result<Value, Interruption>
    requires { IsRunning tree.old place }
    ensures runs { ProceedsIn (ways O.goes O.loses) tree.old outside.old place
        (λ style. sourcing.sources file.now) tree.new outside.new result }
    ensures here { OnCompletion result (IsHere tree.old tree.new place) }
    ensures keeps { Keeps O.entries_left tree.old tree.new outside.old outside.new }
{
    let script = read_file(tree, alloc, outside, place, file)?;
    eval_file(tree, alloc, outside, place, &script)
}

/// Reads the script of a file: by an open, a read of all and a close.
#[cycle(eval)]
#[inline(never)]
fn read_file<O: Outside>(
    tree: &mut Tree,
    alloc: Global,
    outside: &mut O,
    place: Place,
    file: &Text,
) -> Result<Value, Interruption>
    requires { IsRunning tree.old place }
    ensures runs { ReadsScript (ways O.goes O.loses) tree.old outside.old place
        (sourcing.sources file.now) tree.new outside.new result }
    ensures here { OnCompletion result (IsHere tree.old tree.new place) }
    ensures keeps { Keeps O.entries_left tree.old tree.new outside.old outside.new }
{
    let request = Request::Open(file.clone()?, OpenMode::Read);
    let reply = ask(tree, alloc, outside, place, request)?;
    let channel = opened_channel(alloc, file, reply)?;
    read_channel(tree, alloc, outside, place, file, &channel)
}

/// Reads the script of a file from the channel to it, which is closed behind the read, however that
/// went.
#[cycle(eval)]
#[inline(never)]
fn read_channel<O: Outside>(
    tree: &mut Tree,
    alloc: Global,
    outside: &mut O,
    place: Place,
    file: &Text,
    channel: &Text,
) -> Result<Value, Interruption>
    requires { IsRunning tree.old place }
    ensures runs { ReadsScript (ways O.goes O.loses) tree.old outside.old place
        (sourcing.reads_script file.now channel.now) tree.new outside.new result }
    ensures here { OnCompletion result (IsHere tree.old tree.new place) }
    ensures keeps { Keeps O.entries_left tree.old tree.new outside.old outside.new }
{
    let read_all = Request::ReadAll(channel.clone()?);
    let close = Request::Close(channel.clone()?);
    let read = ask(tree, alloc, outside, place, read_all)?;
    let closed = ask(tree, alloc, outside, place, close)?;
    script_of_file(alloc, file, read, &closed)
}

/// Evaluates the script of a file, which is left behind it.
#[cycle(eval)]
#[inline(never)]
fn eval_file<O: Outside>(
    tree: &mut Tree,
    alloc: Global,
    outside: &mut O,
    place: Place,
    script: &Value,
) -> Result<Value, Interruption>
    requires { IsRunning tree.old place }
    ensures runs { ProceedsIn (ways O.goes O.loses) tree.old outside.old place
        (λ style. sourcing.evaluates_file script.now) tree.new outside.new result }
    ensures here { OnCompletion result (IsHere tree.old tree.new place) }
    ensures keeps { Keeps O.entries_left tree.old tree.new outside.old outside.new }
{
    let ended = eval_value(tree, alloc, outside, place, script);
    left_file(ended)
}
