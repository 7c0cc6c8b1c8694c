//! What the program shows and tells of how a run ended, and its exit status.
ghost use Rattle.std.specs.Prelude.{◌≡◌, ◌++◌, IfOk, codes};
ghost use Rattle.std.specs.String.{string_bytes};
ghost use Rattle.tcl_shell.specs.Telling.{ShowsSo, FinishesSo, Printed, Told, Attempts, complaint};
ghost use Rattle.tcl_shell.specs.Telling.{limit_text};

use crate::ending::Ending;
use std::alloc::{AllocError, Global};
use tcl_flow::messages::DELETED;
use tcl_flow::stop::StopKind;
use tcl_host::host::Host;
use tcl_host::reply::HostError;
use tcl_text::messages::{COUNT_LIMIT, DEPTH_LIMIT};
use tcl_text::text::Text;

/// The line of a run that memory ran out in, which is written without taking any.
pub const MEMORY_LINE: &str = "tclsafe: out of memory\n";

/// Shows the result or tells the error, each by one write, and gives the exit status.
///
/// A fault of a write to `stderr` changes no status. Where the result can't be written, that is an
/// error of its own (status 1); where memory runs out for a line, the status is 4.
pub fn tell<H: Host>(alloc: Global, host: &mut H, file: &str, ending: Ending) -> u8
    ensures { ShowsSo H.step file.now ending host.old result host.new }
{
    match ending {
        Ending::Finished(text) => finish(alloc, host, text),
        Ending::Helped(text) => print(alloc, host, text.as_str()),
        Ending::Failed(text) => complain(alloc, host, text.as_str(), 1),
        Ending::Misused(text) => put(host, text.as_str(), 2),
        Ending::Unreadable => tell_unreadable(alloc, host, file),
        Ending::Stopped(kind) => complain(alloc, host, limit_text(kind), 3),
        Ending::Exited(status) => status,
        Ending::OutOfMemory => put(host, MEMORY_LINE, 4),
    }
}

/// Prints a result that isn't empty, with a newline.
fn finish<H: Host>(alloc: Global, host: &mut H, text: Text) -> u8
    ensures { FinishesSo H.step text host.old result host.new }
{
    if text.is_empty() {
        return 0;
    }
    let mut line = text;
    match line.append("\n") {
        Ok(()) => print(alloc, host, line.as_str()),
        Err(_) => put(host, MEMORY_LINE, 4),
    }
}

/// Writes a text to `stdout`; where the host refuses that, it is an error.
fn print<H: Host>(alloc: Global, host: &mut H, text: &str) -> u8
    ensures { Printed H.step text.now host.old result host.new }
{
    match host.write("stdout", text) {
        Ok(()) => 0,
        Err(HostError::Memory) => put(host, MEMORY_LINE, 4),
        Err(HostError::Refused(why)) => match why.message(alloc, "stdout") {
            Ok(message) => complain(alloc, host, message.as_str(), 1),
            Err(_) => put(host, MEMORY_LINE, 4),
        },
    }
}

/// Tells that the script couldn't be read.
fn tell_unreadable<H: Host>(alloc: Global, host: &mut H, file: &str) -> u8
    ensures { Told H.step (complaint (codes "cannot read " ++ file.now)) 2 host.old result
        host.new }
{
    match line_of(alloc, "cannot read ", file) {
        Ok(line) => put(host, line.as_str(), 2),
        Err(_) => put(host, MEMORY_LINE, 4),
    }
}

/// Tells an error.
fn complain<H: Host>(alloc: Global, host: &mut H, text: &str, status: u8) -> u8
    ensures { Told H.step (complaint text.now) status host.old result host.new }
{
    match line_of(alloc, "", text) {
        Ok(line) => put(host, line.as_str(), status),
        Err(_) => put(host, MEMORY_LINE, 4),
    }
}

/// A line of the program's own.
///
/// # Errors
/// Want of memory.
fn line_of(alloc: Global, front: &str, text: &str) -> Result<String, AllocError>
    ensures { IfOk result (λ line. string_bytes line ≡ complaint (front.now ++ text.now)) }
{
    let mut line = String::from_str(alloc, "tclsafe: ")?;
    line.push_str(front)?;
    line.push_str(text)?;
    line.push_str("\n")?;
    Ok(line)
}

/// Writes a text to `stderr`, and gives the status whether that is refused or not.
fn put<H: Host>(host: &mut H, text: &str, status: u8) -> u8
    ensures status { result ≡ status }
    ensures put { Attempts H.step text.now host.old host.new }
{
    let _ = host.write("stderr", text);
    status
}

/// The text of a stop.
fn limit_text(kind: StopKind) -> &'static str
    ensures { result.now ≡ limit_text kind }
{
    match kind {
        StopKind::Count => COUNT_LIMIT,
        StopKind::Depth => DEPTH_LIMIT,
        StopKind::Gone => DELETED,
    }
}
