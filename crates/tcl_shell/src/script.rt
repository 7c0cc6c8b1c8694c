//! The bytes of a script, which the host gives.
ghost use Rattle.std.specs.Prelude.{◌≡◌};
ghost use Rattle.tcl_shell.specs.Reading.{GivesBytes, ReadsFile, ReadsInput, ReadsScript};
ghost use Rattle.tcl_shell.specs.Reading.{unread_by};

use crate::ending::Ending;
use crate::options::STANDARD_INPUT;
use std::alloc::Global;
use tcl_host::bytes::Bytes;
use tcl_host::host::Host;
use tcl_host::open_mode::OpenMode;
use tcl_host::reply::HostError;

/// The bytes of the script: of a file by an open, a read and a close of the host, of the standard
/// input by a read.
///
/// # Errors
/// That it couldn't be read, where the host refuses one of these; want of memory.
pub fn read_script<H: Host>(host: &mut H, alloc: Global, file: &str) -> Result<Bytes, Ending>
    ensures { ReadsScript H.step file.now host.old result host.new }
{
    if file == STANDARD_INPUT {
        given(host.read_all(alloc, "stdin"))
    } else {
        read_file(host, alloc, file)
    }
}

/// All bytes of a file.
fn read_file<H: Host>(host: &mut H, alloc: Global, file: &str) -> Result<Bytes, Ending>
    ensures { ReadsFile H.step file.now host.old result host.new }
{
    let channel = match host.open(alloc, file, OpenMode::Read) {
        Ok(channel) => channel,
        Err(error) => return Err(unread(error)),
    };
    let bytes = given(host.read_all(alloc, channel.as_str()));
    match host.close(channel.as_str()) {
        Ok(()) => bytes,
        Err(error) => Err(unread(error)),
    }
}

/// What a read gave.
fn given(read: Result<Bytes, HostError>) -> Result<Bytes, Ending>
    ensures { GivesBytes read result }
{
    match read {
        Ok(bytes) => Ok(bytes),
        Err(error) => Err(unread(error)),
    }
}

/// That a script couldn't be read, unless memory was wanted.
fn unread(error: HostError) -> Ending
    ensures { result ≡ unread_by error }
{
    match error {
        HostError::Memory => Ending::OutOfMemory,
        HostError::Refused(_) => Ending::Unreadable,
    }
}
