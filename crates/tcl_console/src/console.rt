//! The host of a process.
ghost use Rattle.std.specs.Prelude.{◌≡◌, IfErr};
ghost use Rattle.std.specs.Io.KnownBytes.{Appends};
ghost use Rattle.tcl_console.specs.Replying.{PutsSo, HandsSo, IsReadRefusal, IsOpenRefusal};
ghost use Rattle.tcl_console.specs.Replying.{counted_by, shut_so};
ghost use Rattle.tcl_console.specs.Steps.{Seen};
ghost use Rattle.tcl_host.specs.declared.reply.HostError.{HostError};
ghost use Rattle.tcl_host.specs.declared.reply.HostRefusal.{HostRefusal};

use crate::input::Input;
use crate::stream::Stream;
use indexmap::IndexMap;
use std::alloc::{AllocError, Global};
use std::fs;
use std::fs::{Files, OpenOptions};
use std::io::{Read, Write};
use std::marker::Model;
use tcl_host::bytes::Bytes;
use tcl_host::host::Host;
use tcl_host::open_mode::OpenMode;
use tcl_host::reply::{HostError, HostRefusal};
use tcl_text::text::Text;

/// An open file.
#[derive(Drop)]
enum OpenFile<T: Read + Drop> {
    /// It is read.
    Reading(Input<T>),
    /// It is written.
    Writing(T),
}

/// A process's standard streams, as the channels `stdin`, `stdout` and `stderr`, and files. What is
/// written isn't held back.
///
/// A channel to a file is named `file` and a number; the first is `file3`. One read gives at most
/// 16,777,217 bytes.
#[derive(Drop)]
pub struct Console<'a, F: Files, R: Read + Drop, W: Write + Drop, E: Write + Drop> {
    files: &'a F,
    input: Input<R>,
    output: W,
    errors: E,
    has_input: bool,
    has_output: bool,
    has_errors: bool,
    channels: IndexMap<String, OpenFile<F::File>>,
    /// The number of the next channel to a file.
    next: u64,
    failures: u64,
}

impl<'a, F: Files, R: Read + Drop, W: Write + Drop, E: Write + Drop> Model
    for Console<'a, F, R, W, E> {
    ghost use Rattle.tcl_console.specs.Steps.{Seen};

    ghost Value = { Seen };

    ghost view = { λ c. record {
      output = W.contents c.output;
      errors = E.contents c.errors;
      has_input = c.has_input;
      has_output = c.has_output;
      has_errors = c.has_errors;
      failures = c.failures;
    } };
}

/// Writes to a stream, where it is open.
fn put<W: Write>(is_open: bool, writer: &mut W, text: &str) -> Result<(), HostError>
    ensures { PutsSo is_open text.now (W.contents writer.old) result (W.contents writer.new) }
{
    if !is_open {
        return Err(HostError::Refused(HostRefusal::NoChannel));
    }
    match writer.write_all(text.as_bytes()) {
        Ok(()) => Ok(()),
        Err(_) => Err(HostError::Refused(HostRefusal::DeviceFault)),
    }
}

/// Hands on what was written to a stream, where it is open.
fn hand_on<W: Write>(is_open: bool, writer: &mut W) -> Result<(), HostError>
    ensures { HandsSo is_open (W.contents writer.old) result (W.contents writer.new) }
{
    if !is_open {
        return Err(HostError::Refused(HostRefusal::NoChannel));
    }
    match writer.flush() {
        Ok(()) => Ok(()),
        Err(_) => Err(HostError::Refused(HostRefusal::DeviceFault)),
    }
}

/// Closes a channel that is open.
fn shut(is_open: bool) -> Result<(), HostError>
    ensures { result ≡ shut_so is_open }
{
    if is_open {
        Ok(())
    } else {
        Err(HostError::Refused(HostRefusal::NoChannel))
    }
}

/// Opens a file.
fn open_file<F: Files>(
    files: &F,
    alloc: Global,
    name: &str,
    mode: OpenMode,
) -> Result<OpenFile<F::File>, HostError>
    ensures { IfErr result IsOpenRefusal }
{
    let opened = match mode {
        OpenMode::Read => fs::open(files, name),
        OpenMode::Write => fs::create(files, name),
        OpenMode::Append => OpenOptions::new()
            .append(true)
            .create(true)
            .open(files, name),
    };
    let Ok(file) = opened else {
        return Err(HostError::Refused(HostRefusal::NotOpened));
    };
    match mode {
        OpenMode::Read => Ok(OpenFile::Reading(Input::new(alloc, file)?)),
        OpenMode::Write | OpenMode::Append => Ok(OpenFile::Writing(file)),
    }
}

impl<'a, F: Files, R: Read + Drop, W: Write + Drop, E: Write + Drop> Console<'a, F, R, W, E> {
    ghost use Rattle.std.specs.Prelude.{IfOk, true};

    /// The host over these streams and files.
    ///
    /// # Errors
    /// Want of memory.
    pub fn new(
        alloc: Global,
        files: &'a F,
        input: R,
        output: W,
        errors: E,
    ) -> Result<Console<'a, F, R, W, E>, AllocError>
        ensures { IfOk result (λ made. made
            ≡ record {
              output = W.contents output;
              errors = E.contents errors;
              has_input = true;
              has_output = true;
              has_errors = true;
              failures = 0;
            }) }
    {
        Ok(Console {
            files,
            input: Input::new(alloc, input)?,
            output,
            errors,
            has_input: true,
            has_output: true,
            has_errors: true,
            channels: IndexMap::new(alloc),
            next: 3,
            failures: 0,
        })
    }

    /// Takes note of a device fault.
    fn counted<T>(&mut self, answer: Result<T, HostError>) -> Result<T, HostError>
        ensures same { result ≡ answer }
        ensures counted { self.new ≡ counted_by answer self.old }
    {
        if let Err(HostError::Refused(HostRefusal::DeviceFault)) = &answer {
            if self.failures < u64::MAX {
                self.failures += 1;
            }
        }
        answer
    }

    /// Opens a file, and gives the name of its channel.
    fn open_channel(&mut self, alloc: Global, name: &str, mode: OpenMode) -> Result<Text, HostError>
        ensures seen { self.new ≡ self.old }
        ensures fault { IfErr result IsOpenRefusal }
    {
        let next = self.next;
        if next == u64::MAX {
            return Err(HostError::Refused(HostRefusal::NotOpened));
        }
        let key = format!(in alloc; "file{next}")?;
        let channel = Text::new(alloc, key.as_str())?;
        self.channels.reserve(1)?;
        let file = open_file(self.files, alloc, name, mode)?;
        self.channels.insert(key, file)?;
        self.next = next + 1;
        Ok(channel)
    }

    /// The file of a channel that is read.
    fn read_file_line(&mut self, alloc: Global, channel: &str) -> Result<Option<Bytes>, HostError>
        ensures seen { self.new ≡ self.old }
        ensures fault { IfErr result IsReadRefusal }
    {
        match self.channels.get_mut(channel) {
            Some(OpenFile::Reading(input)) => input.read_line(alloc),
            Some(OpenFile::Writing(_)) | None => Err(HostError::Refused(HostRefusal::NoChannel)),
        }
    }

    /// Reads all of a file that is left.
    fn read_file(&mut self, alloc: Global, channel: &str) -> Result<Bytes, HostError>
        ensures seen { self.new ≡ self.old }
        ensures fault { IfErr result IsReadRefusal }
    {
        match self.channels.get_mut(channel) {
            Some(OpenFile::Reading(input)) => input.read_all(alloc),
            Some(OpenFile::Writing(_)) | None => Err(HostError::Refused(HostRefusal::NoChannel)),
        }
    }

    /// Whether the last read of a file met its end.
    fn is_file_at_end(&self, channel: &str) -> Result<bool, HostError>
        ensures { IfErr result (λ e. e ≡ HostError.Refused HostRefusal.NoChannel) }
    {
        match self.channels.get(channel) {
            Some(OpenFile::Reading(input)) => Ok(input.is_at_end()),
            Some(OpenFile::Writing(_)) | None => Err(HostError::Refused(HostRefusal::NoChannel)),
        }
    }

    /// Writes to a file.
    fn write_file(&mut self, channel: &str, text: &str) -> Result<(), HostError>
        ensures seen { self.new ≡ self.old }
        ensures fault { IfErr result IsReadRefusal }
    {
        match self.channels.get_mut(channel) {
            Some(OpenFile::Writing(file)) => put(true, file, text),
            Some(OpenFile::Reading(_)) | None => Err(HostError::Refused(HostRefusal::NoChannel)),
        }
    }

    /// Hands on what was written to a file.
    fn flush_file(&mut self, channel: &str) -> Result<(), HostError>
        ensures seen { self.new ≡ self.old }
        ensures fault { IfErr result IsReadRefusal }
    {
        match self.channels.get_mut(channel) {
            Some(OpenFile::Writing(file)) => hand_on(true, file),
            Some(OpenFile::Reading(_)) | None => Err(HostError::Refused(HostRefusal::NoChannel)),
        }
    }

    /// Closes a channel to a file.
    fn close_file(&mut self, channel: &str) -> Result<(), HostError>
        ensures seen { self.new ≡ self.old }
        ensures fault { IfErr result (λ e. e ≡ HostError.Refused HostRefusal.NoChannel) }
    {
        shut(self.channels.swap_remove(channel).is_some())
    }
}

impl<'a, F: Files, R: Read + Drop, W: Write + Drop, E: Write + Drop> Host
    for Console<'a, F, R, W, E> {
    ghost use Rattle.tcl_console.specs.Steps.{Steps};
    ghost use Rattle.tcl_console.specs.Laws.{steps-lawful};

    ghost step = { Steps };

    ghost failures = { λ seen. seen.failures };

    ghost lawful = { steps-lawful };

    fn open(&mut self, alloc: Global, name: &str, mode: OpenMode) -> Result<Text, HostError> {
        let opened = self.open_channel(alloc, name, mode);
        self.counted(opened)
    }

    fn read_line(&mut self, alloc: Global, channel: &str) -> Result<Option<Bytes>, HostError> {
        let line = match Stream::named(channel) {
            Stream::Input if self.has_input => self.input.read_line(alloc),
            Stream::File => self.read_file_line(alloc, channel),
            Stream::Input | Stream::Output | Stream::Errors => {
                Err(HostError::Refused(HostRefusal::NoChannel))
            }
        };
        self.counted(line)
    }

    fn read_all(&mut self, alloc: Global, channel: &str) -> Result<Bytes, HostError> {
        let rest = match Stream::named(channel) {
            Stream::Input if self.has_input => self.input.read_all(alloc),
            Stream::File => self.read_file(alloc, channel),
            Stream::Input | Stream::Output | Stream::Errors => {
                Err(HostError::Refused(HostRefusal::NoChannel))
            }
        };
        self.counted(rest)
    }

    fn write(&mut self, channel: &str, text: &str) -> Result<(), HostError> {
        match Stream::named(channel) {
            Stream::Input => Err(HostError::Refused(HostRefusal::NoChannel)),
            Stream::Output => {
                let written = put(self.has_output, &mut self.output, text);
                self.counted(written)
            }
            Stream::Errors => {
                let written = put(self.has_errors, &mut self.errors, text);
                self.counted(written)
            }
            Stream::File => {
                let written = self.write_file(channel, text);
                self.counted(written)
            }
        }
    }

    fn flush(&mut self, channel: &str) -> Result<(), HostError> {
        match Stream::named(channel) {
            Stream::Input => Err(HostError::Refused(HostRefusal::NoChannel)),
            Stream::Output => {
                let flushed = hand_on(self.has_output, &mut self.output);
                self.counted(flushed)
            }
            Stream::Errors => {
                let flushed = hand_on(self.has_errors, &mut self.errors);
                self.counted(flushed)
            }
            Stream::File => {
                let flushed = self.flush_file(channel);
                self.counted(flushed)
            }
        }
    }

    fn close(&mut self, channel: &str) -> Result<(), HostError> {
        match Stream::named(channel) {
            Stream::Input => {
                let closed = shut(self.has_input);
                self.has_input = false;
                closed
            }
            Stream::Output => {
                let closed = shut(self.has_output);
                self.has_output = false;
                closed
            }
            Stream::Errors => {
                let closed = shut(self.has_errors);
                self.has_errors = false;
                closed
            }
            Stream::File => self.close_file(channel),
        }
    }

    fn eof(&mut self, channel: &str) -> Result<bool, HostError> {
        match Stream::named(channel) {
            Stream::Input if self.has_input => Ok(self.input.is_at_end()),
            Stream::File => self.is_file_at_end(channel),
            Stream::Input | Stream::Output | Stream::Errors => {
                Err(HostError::Refused(HostRefusal::NoChannel))
            }
        }
    }

    fn failures(&self) -> u64 {
        self.failures
    }
}
