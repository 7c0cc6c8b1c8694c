//! The interface to the files and channels of the host.
ghost use Rattle.std.specs.Prelude.{◌≡◌, ℕ, OnErr, IfOk};
ghost use Rattle.tcl_host.specs.Hosts.{IsLawful, IsReplyOf, Replied, line_reply, done_reply};
ghost use Rattle.tcl_host.specs.declared.request.Request.{Request};
ghost use Rattle.tcl_host.specs.declared.reply.HostReply.{HostReply};

use crate::bytes::Bytes;
use crate::open_mode::OpenMode;
use crate::reply::{HostError, HostReply};
use crate::request::Request;
use std::alloc::{AllocError, Global};
use tcl_text::text::Text;

/// Files and channels. Each call is a step of the host by a [`Request`] and a [`HostReply`], or
/// wants memory.
pub trait Host {
    // from one state to the next by a request and its reply
    ghost step: { Self → Request → HostReply → Self → Type 0 };

    // how many device faults were counted
    ghost failures: { Self → ℕ };

    /// Opens a file, and gives the name of a new channel to it.
    ///
    /// # Errors
    /// 267 where it can't be opened, 262, and want of memory.
    fn open(&mut self, alloc: Global, name: &str, mode: OpenMode) -> Result<Text, HostError>
        ensures { Replied (λ s. step s (Request.Open name.now mode)) HostReply.Opened self.old
            result self.new };

    /// Reads one line, without its newline; `None` where none is left (263).
    ///
    /// # Errors
    /// 261, 262, and want of memory.
    fn read_line(&mut self, alloc: Global, channel: &str) -> Result<Option<Bytes>, HostError>
        ensures { Replied (λ s. step s (Request.ReadLine channel.now)) line_reply self.old result
            self.new };

    /// Reads all that is left.
    ///
    /// # Errors
    /// 261, 262, and want of memory.
    fn read_all(&mut self, alloc: Global, channel: &str) -> Result<Bytes, HostError>
        ensures { Replied (λ s. step s (Request.ReadAll channel.now)) HostReply.Rest self.old result
            self.new };

    /// Writes a text.
    ///
    /// # Errors
    /// 261, 262, and want of memory.
    fn write(&mut self, channel: &str, text: &str) -> Result<(), HostError>
        ensures { Replied (λ s. step s (Request.Write channel.now text.now)) done_reply self.old
            result self.new };

    /// Hands on what was written.
    ///
    /// # Errors
    /// 261 where the channel isn't open for writing, 262, and want of memory.
    fn flush(&mut self, channel: &str) -> Result<(), HostError>
        ensures { Replied (λ s. step s (Request.Flush channel.now)) done_reply self.old result
            self.new };

    /// Closes a channel.
    ///
    /// # Errors
    /// 261, 262, and want of memory.
    fn close(&mut self, channel: &str) -> Result<(), HostError>
        ensures { Replied (λ s. step s (Request.Close channel.now)) done_reply self.old result
            self.new };

    /// Whether the last read met the end.
    ///
    /// # Errors
    /// 261 where the channel isn't open for reading, 262, and want of memory.
    fn eof(&mut self, channel: &str) -> Result<bool, HostError>
        ensures { Replied (λ s. step s (Request.Eof channel.now)) HostReply.AtEnd self.old result
            self.new };

    /// How many device faults were counted. The number never falls, and stays at its last value,
    /// [`u64::MAX`].
    fn failures(&self) -> u64
        ensures { result ≡ failures self.now };

    // Every step keeps the laws of a host.
    ghost lawful: { (old new : Self) (request : Request) (reply : HostReply) →
        step old request reply new → IsLawful (failures old) (failures new) request reply };
}

/// The reply that an answer is.
///
/// # Errors
/// Want of memory.
fn reply_of(answered: Result<HostReply, HostError>) -> Result<HostReply, AllocError>
    ensures { IsReplyOf answered result }
{
    match answered {
        Ok(reply) => Ok(reply),
        Err(HostError::Refused(why)) => Ok(HostReply::Refused(why)),
        Err(HostError::Memory) => Err(AllocError),
    }
}

/// The reply that a line is, or the end.
fn line_reply(line: Option<Bytes>) -> HostReply
    ensures { result ≡ line_reply line }
{
    match line {
        Some(line) => HostReply::Line(line),
        None => HostReply::End,
    }
}

/// Makes a request of a host, and gives its reply.
///
/// # Errors
/// Want of memory, which leaves the host as it was.
pub fn ask<H: Host>(host: &mut H, alloc: Global, request: &Request) -> Result<HostReply, AllocError>
    ensures stepped { IfOk result (λ reply. H.step host.old request.now reply host.new) }
    ensures lawful { IfOk result
        (λ reply. IsLawful (H.failures host.old) (H.failures host.new) request.now reply) }
    ensures unchanged { OnErr result (host.new ≡ host.old) }
{
    match request {
        Request::Open(name, mode) => {
            reply_of(
                host.open(alloc, name.as_str(), *mode)
                    .map(HostReply::Opened),
            )
        }
        Request::ReadLine(channel) => {
            reply_of(host.read_line(alloc, channel.as_str()).map(line_reply))
        }
        Request::ReadAll(channel) => {
            reply_of(host.read_all(alloc, channel.as_str()).map(HostReply::Rest))
        }
        Request::Write(channel, text) => {
            reply_of(
                host.write(channel.as_str(), text.as_str())
                    .map(|()| HostReply::Done),
            )
        }
        Request::Flush(channel) => {
            reply_of(host.flush(channel.as_str()).map(|()| HostReply::Done))
        }
        Request::Close(channel) => {
            reply_of(host.close(channel.as_str()).map(|()| HostReply::Done))
        }
        Request::Eof(channel) => { reply_of(host.eof(channel.as_str()).map(HostReply::AtEnd)) }
    }
}
