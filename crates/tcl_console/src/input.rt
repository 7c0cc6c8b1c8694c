//! Bytes that are read as a whole or line by line.
ghost use Rattle.std.specs.Prelude.{◌≡◌, ◌≢◌, [], IfErr, IfOk, false};
ghost use Rattle.std.specs.Io.Buffered.{reader_buffer, reader_inner};
ghost use Rattle.std.specs.Io.Take.{take_inner};
ghost use Rattle.tcl_host.specs.declared.reply.HostError.{HostError};
ghost use Rattle.tcl_console.specs.Streams.{IsReadFault};

use std::alloc::{AllocError, Global};
use std::io::{BufRead, BufReader, ErrorKind, Read, Take};
use std::{io, mem};
use tcl_host::bytes::Bytes;
use tcl_host::reply::{HostError, HostRefusal};

/// The most bytes that one read gives: with one more than a value may have, it is known to be too
/// long.
pub const MOST_READ: usize = 16_777_217;

/// A reader that is read as a whole or line by line. What was read when a read failed is given by
/// the next one.
#[derive(Drop)]
pub struct Input<R: Read + Drop> {
    reader: Take<BufReader<R>>,
    /// What was read and not yet given.
    pending: Vec<u8>,
    /// Whether the last read met the end.
    ended: bool,
}

/// The error that a fault of a reader is.
fn fault_of(fault: &io::Error) -> HostError
    ensures { IsReadFault result }
{
    match fault.kind() {
        ErrorKind::OutOfMemory => HostError::Memory,
        _ => HostError::Refused(HostRefusal::DeviceFault),
    }
}

impl<R: Read + Drop> Input<R> {
    /// Nothing was read of it yet.
    ///
    /// # Errors
    /// Want of memory.
    pub fn new(alloc: Global, reader: R) -> Result<Input<R>, AllocError>
        ensures reader { IfOk result (λ made. reader_inner (take_inner made.reader) ≡ reader) }
        ensures unread { IfOk result (λ made. reader_buffer (take_inner made.reader) ≡ []) }
        ensures pending { IfOk result (λ made. made.pending.items ≡ []) }
        ensures ended { IfOk result (λ made. made.ended ≡ false) }
    {
        let Ok(reader) = BufReader::new(alloc, reader) else {
            return Err(AllocError);
        };
        Ok(Input {
            reader: reader.take(0),
            pending: Vec::new(alloc),
            ended: false,
        })
    }

    /// Whether the last read met the end.
    pub fn is_at_end(&self) -> bool
        ensures { result ≡ self.now.ended }
    {
        self.ended
    }

    /// Reads all that is left, or 16,777,217 bytes of it.
    ///
    /// # Errors
    /// 262, and want of memory.
    pub fn read_all(&mut self, alloc: Global) -> Result<Bytes, HostError>
        ensures { IfErr result IsReadFault }
    {
        self.make_room();
        match self.reader.read_to_end(&mut self.pending) {
            Ok(_) => Ok(self.given(alloc)),
            Err(fault) => Err(fault_of(&fault)),
        }
    }

    /// Reads a line, without its newline, or 16,777,217 bytes of it; `None` where nothing is left.
    ///
    /// # Errors
    /// 262, and want of memory.
    pub fn read_line(&mut self, alloc: Global) -> Result<Option<Bytes>, HostError>
        ensures { IfErr result IsReadFault }
    {
        self.make_room();
        match self.reader.read_until(b'\n', &mut self.pending) {
            Ok(_) => Ok(self.line(alloc)),
            Err(fault) => Err(fault_of(&fault)),
        }
    }

    /// As much more may be read as one read may give.
    fn make_room(&mut self) {
        let room = MOST_READ.saturating_sub(self.pending.len()) as u64;
        self.reader.set_limit(room);
    }

    /// What was read, which has the bytes up to the end where it is less than what one read may
    /// give.
    fn given(&mut self, alloc: Global) -> Bytes {
        self.ended = self.pending.len() < MOST_READ;
        Bytes::from(mem::replace(&mut self.pending, Vec::new(alloc)))
    }

    /// The line that was read.
    fn line(&mut self, alloc: Global) -> Option<Bytes> {
        if self.pending.last() == Some(&b'\n') {
            self.pending.pop();
            self.ended = false;
            return Some(Bytes::from(mem::replace(&mut self.pending, Vec::new(alloc))));
        }
        let line = self.given(alloc);
        if line.len() == 0 { None } else { Some(line) }
    }
}
