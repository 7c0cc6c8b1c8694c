//! Calls of the host: what the words of a command ask for.
ghost use Rattle.std.specs.Prelude.{◌≡◌, List, ℕ, IfOk, IfErr};
ghost use Rattle.tcl_core.specs.Endings.Reply.{Completed};
ghost use Rattle.tcl_language.specs.Hosting as hosting;
ghost use Rattle.tcl_language.specs.Instructions.{Program};
ghost use Rattle.tcl_run.specs.Ends.{Interrupts, failing};
ghost use Rattle.tcl_run.specs.Entering.{request_of};
ghost use Rattle.tcl_calls.specs.HostCalls.{IsCall, IsMode, IsOver, program_of};

use std::alloc::{AllocError, Global};
use tcl_host::open_mode::{BadMode, OpenMode};
use tcl_host::request::Request;
use tcl_run::failure::{failure, wrong_args};
use tcl_run::interruption::Interruption;
use tcl_text::text::Text;
use tcl_value::value::Value;

/// A command that makes one request of the host, and gives what comes of it.
#[derive(Clone, Copy)]
pub enum HostCommand {
    /// `open name ?mode?`
    Open,
    /// `close channel`
    Close,
    /// `gets channel ?varName?`
    Gets,
    /// `read channel`
    Read,
    /// `eof channel`
    Eof,
    /// `flush channel`
    Flush,
}

/// What is asked of the host for a command. The first text is the name of a channel, of `Open` that
/// of a file.
#[derive(Drop)]
pub enum HostCall {
    /// A channel to the file is opened.
    Open(Text, OpenMode),
    /// One line is read.
    ReadLine(Text),
    /// One line is read for the variable that the word names.
    ReadLineInto(Text, Value),
    /// All that is left is read.
    ReadAll(Text),
    /// The second text is written.
    Write(Text, Text),
    /// What was written is handed on.
    Flush(Text),
    /// The channel is closed.
    Close(Text),
    /// Whether the last read met the end.
    Eof(Text),
}

impl HostCall {
    ghost use Rattle.tcl_calls.specs.HostCalls.{request_by};

    /// The request that it makes.
    ///
    /// # Errors
    /// Want of memory.
    pub fn request(&self) -> Result<Request, AllocError>
        ensures { IfOk result (λ made. request_of made ≡ request_by self.now) }
    {
        match self {
            HostCall::Open(name, mode) => Ok(Request::Open(name.clone()?, *mode)),
            HostCall::ReadLine(channel) => Ok(Request::ReadLine(channel.clone()?)),
            HostCall::ReadLineInto(channel, _) => Ok(Request::ReadLine(channel.clone()?)),
            HostCall::ReadAll(channel) => Ok(Request::ReadAll(channel.clone()?)),
            HostCall::Write(channel, text) => Ok(Request::Write(channel.clone()?, text.clone()?)),
            HostCall::Flush(channel) => Ok(Request::Flush(channel.clone()?)),
            HostCall::Close(channel) => Ok(Request::Close(channel.clone()?)),
            HostCall::Eof(channel) => Ok(Request::Eof(channel.clone()?)),
        }
    }
}

/// What a command with these words asks the host for.
///
/// # Errors
/// 241; 266 of a mode; want of memory.
pub fn host_call(
    alloc: Global,
    command: HostCommand,
    args: &[Value],
) -> Result<HostCall, Interruption>
    ensures { IsCall (program_of command args.now) result }
{
    match command {
        HostCommand::Open => open_call(alloc, args),
        HostCommand::Close => close_call(alloc, args),
        HostCommand::Gets => gets_call(alloc, args),
        HostCommand::Read => read_call(alloc, args),
        HostCommand::Eof => eof_call(alloc, args),
        HostCommand::Flush => flush_call(alloc, args),
    }
}

/// `open name ?mode?`: a file is opened for reading where no mode is named. (open(n))
///
/// # Errors
/// 241; 266; want of memory.
fn open_call(alloc: Global, args: &[Value]) -> Result<HostCall, Interruption>
    ensures { IsCall (hosting.open_file args.now) result }
{
    match args {
        [file] => Ok(HostCall::Open(file.text(alloc)?, OpenMode::Read)),
        [file, mode] => {
            let word = mode.text(alloc)?;
            let mode = read_mode(alloc, &word)?;
            let name = file.text(alloc)?;
            Ok(HostCall::Open(name, mode))
        }
        _ => Err(wrong_args(alloc, "open name ?mode?")),
    }
}

/// The mode that a word names.
///
/// # Errors
/// 266; want of memory.
fn read_mode(alloc: Global, word: &Text) -> Result<OpenMode, Interruption>
    ensures { IsMode word.now result }
{
    match OpenMode::from_word(word.as_str()) {
        Ok(mode) => Ok(mode),
        Err(bad) => Err(mode_failure(alloc, bad, word.as_str())),
    }
}

/// The error that a word names no mode.
fn mode_failure(alloc: Global, bad: BadMode, word: &str) -> Interruption
    ensures { Interrupts result (λ e. e ≡ Completed (failing (hosting.bad_mode word.now))) }
{
    match bad.message(alloc, word) {
        Ok(message) => failure(alloc, message),
        Err(_) => Interruption::Memory,
    }
}

/// `gets channel ?varName?`: one line is read. (gets(n))
///
/// # Errors
/// 241; want of memory.
fn gets_call(alloc: Global, args: &[Value]) -> Result<HostCall, Interruption>
    ensures { IsCall (hosting.gets args.now) result }
{
    match args {
        [channel] => Ok(HostCall::ReadLine(channel.text(alloc)?)),
        [channel, name] => Ok(HostCall::ReadLineInto(channel.text(alloc)?, name.clone()?)),
        _ => Err(wrong_args(alloc, "gets channel ?varName?")),
    }
}

/// The channel that is the only word of a command of this form.
///
/// # Errors
/// 241; want of memory.
fn only_channel(alloc: Global, args: &[Value], form: &str) -> Result<Text, Interruption>
    ensures named { IfOk result (λ channel. (form : List ℕ) (k : List ℕ → Program) →
        hosting.on_channel form k args.now ≡ k channel) }
    ensures refused { IfErr result (λ i. Interrupts i (λ e. (k : List ℕ → Program) →
        IsOver (hosting.on_channel form.now k args.now) e)) }
{
    match args {
        [channel] => Ok(channel.text(alloc)?),
        _ => Err(wrong_args(alloc, form)),
    }
}

/// `close channel` (close(n))
///
/// # Errors
/// 241; want of memory.
fn close_call(alloc: Global, args: &[Value]) -> Result<HostCall, Interruption>
    ensures { IsCall (hosting.close args.now) result }
{
    let channel = only_channel(alloc, args, "close channel")?;
    Ok(HostCall::Close(channel))
}

/// `read channel`: all that is left is read. (read(n))
///
/// # Errors
/// 241; want of memory.
fn read_call(alloc: Global, args: &[Value]) -> Result<HostCall, Interruption>
    ensures { IsCall (hosting.read args.now) result }
{
    let channel = only_channel(alloc, args, "read channel")?;
    Ok(HostCall::ReadAll(channel))
}

/// `eof channel` (eof(n))
///
/// # Errors
/// 241; want of memory.
fn eof_call(alloc: Global, args: &[Value]) -> Result<HostCall, Interruption>
    ensures { IsCall (hosting.eof args.now) result }
{
    let channel = only_channel(alloc, args, "eof channel")?;
    Ok(HostCall::Eof(channel))
}

/// `flush channel` (flush(n))
///
/// # Errors
/// 241; want of memory.
fn flush_call(alloc: Global, args: &[Value]) -> Result<HostCall, Interruption>
    ensures { IsCall (hosting.flush args.now) result }
{
    let channel = only_channel(alloc, args, "flush channel")?;
    Ok(HostCall::Flush(channel))
}
