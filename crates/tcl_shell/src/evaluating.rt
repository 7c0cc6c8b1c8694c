//! What evaluating a script comes to.
ghost use Rattle.std.specs.Prelude.{◌≡◌, IfOk};
ghost use Rattle.tcl_shell.specs.Evaluating.{EndsAs, EvaluatesTo, RunsTo, Comes, IsRefused};
ghost use Rattle.tcl_shell.specs.Evaluating.{failed_so};

use crate::begun::{Begun, setting_of};
use crate::ending::Ending;
use crate::options::Options;
use std::alloc::{AllocError, Global};
use tcl_eval::running::{End, Refused, eval};
use tcl_flow::completion::OK;
use tcl_host::host::Host;
use tcl_text::limit::MOST_BYTES;
use tcl_text::messages::{BAD_STATUS, TOO_LONG};
use tcl_text::text::Text;

/// How many commands set the variables of the command line.
const SETTING_STEPS: u64 = 3;

/// What the bytes of a script come to: they are too long for one; they aren't UTF-8; or the script
/// ends so.
pub fn evaluated<H: Host>(
    alloc: Global,
    host: &mut H,
    options: &Options<'_>,
    script: &[u8],
) -> Ending
    ensures { EvaluatesTo H.step options.now script.now host.old result host.new }
{
    if script.len() > MOST_BYTES {
        return failed(Text::new(alloc, TOO_LONG));
    }
    match str::from_utf8(script) {
        Ok(script) => run(alloc, host, options, script),
        Err(_) => Ending::Unreadable,
    }
}

/// What a script comes to in a fresh tree, once the variables of the command line are set.
fn run<H: Host>(alloc: Global, host: &mut H, options: &Options<'_>, script: &str) -> Ending
    ensures { RunsTo H.step options.now script.now host.old result host.new }
{
    let (Ok(mut begun), Ok(setting)) = (Begun::new(alloc, options), setting_of(alloc, options))
    else {
        return Ending::OutOfMemory;
    };
    match ended(alloc, host, &mut begun, setting.as_str(), SETTING_STEPS) {
        Ending::Finished(_) => ended(alloc, host, &mut begun, script, options.limit),
        other => other,
    }
}

/// How an evaluation ends. Where memory is wanted, the host was asked what the script asks it
/// first.
fn ended<H: Host>(
    alloc: Global,
    host: &mut H,
    begun: &mut Begun,
    script: &str,
    limit: u64,
) -> Ending
    ensures ends { EndsAs H.step begun.old.tree host.old begun.old.path.items
        script.now limit result
        begun.new.tree host.new }
    ensures path { begun.new.path ≡ begun.old.path }
{
    let path = begun.path.as_slice();
    match eval(&mut begun.tree, alloc, host, path, script, limit) {
        Ok(end) => ending_of(alloc, end),
        Err(refused) => refused_by(alloc, refused),
    }
}

/// What the end of a run comes to. No script gives a status that is none.
fn ending_of(alloc: Global, end: End) -> Ending
    ensures { Comes end result }
{
    match end {
        End::Done(completion) => match completion.text.text(alloc) {
            Ok(text) if completion.code == OK => Ending::Finished(text),
            text => failed(text),
        },
        End::Stopped(kind) => Ending::Stopped(kind),
        End::Exit(status) => match u8::try_from(status) {
            Ok(status) => Ending::Exited(status),
            Err(_) => failed(Text::new(alloc, BAD_STATUS)),
        },
    }
}

/// What a refusal comes to. A tree that was just made isn't broken, and has the interpreter.
fn refused_by(alloc: Global, refused: Refused) -> Ending
    ensures { IsRefused refused result }
{
    match refused {
        Refused::TooLong => failed(Text::new(alloc, TOO_LONG)),
        Refused::Memory | Refused::Broken | Refused::NoInterpreter | Refused::CountTooLarge => {
            Ending::OutOfMemory
        }
    }
}

/// An error, unless memory ran out for its text.
fn failed(text: Result<Text, AllocError>) -> Ending
    ensures { result ≡ failed_so text }
{
    match text {
        Ok(text) => Ending::Failed(text),
        Err(_) => Ending::OutOfMemory,
    }
}
