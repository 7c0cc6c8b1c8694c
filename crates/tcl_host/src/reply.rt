//! What a host answers.
ghost use Rattle.std.specs.Prelude.{◌≡◌, ◌++◌, IfOk};
ghost use Rattle.tcl_host.specs.Replies.{is_reply_to, refusal_text};
ghost use Rattle.tcl_host.specs.declared.reply.HostError.TheVariants.{Memory};

use crate::bytes::Bytes;
use crate::request::Request;
use std::alloc::{AllocError, AllocFailed, Global};
use tcl_text::messages::{DEVICE_FAULT, NO_CHANNEL, OUT_OF_MEMORY, quoting};
use tcl_text::text::Text;
use thiserror::Error;

/// Why a host refuses a call.
#[derive(Clone, Copy, Debug, Eq, Error, PartialEq)]
pub enum HostRefusal {
    /// 261: no channel of that name is open for such a call.
    #[error("261: no such channel")]
    NoChannel,
    /// 262: the device failed.
    #[error("262: device fault")]
    DeviceFault,
    /// 267: the file couldn't be opened.
    #[error("267: the file was not opened")]
    NotOpened,
}

/// A host's answer to a [`Request`].
#[derive(Clone, Debug, PartialEq, Eq, Drop)]
pub enum HostReply {
    /// The name of the channel that was opened.
    Opened(Text),
    /// A line, without its newline.
    Line(Bytes),
    /// 263: no line was left.
    End,
    /// All that was left.
    Rest(Bytes),
    /// It was written, flushed or closed.
    Done,
    /// Whether the last read met the end.
    AtEnd(bool),
    /// The call was refused.
    Refused(HostRefusal),
}

/// Why a call to a host gave nothing.
#[derive(Clone, Copy, Debug, Eq, Error, PartialEq)]
pub enum HostError {
    /// Memory was wanting, and the host is as it was.
    #[error("{}", OUT_OF_MEMORY)]
    Memory,
    /// The host refused.
    #[error(transparent)]
    Refused(HostRefusal),
}

impl From<AllocError> for HostError {
    ghost from_gives = { λ _ e. e ≡ Memory };

    fn from(_: AllocError) -> HostError {
        HostError::Memory
    }
}

impl<T: Drop> From<AllocFailed<T>> for HostError {
    ghost from_gives = { λ _ e. e ≡ Memory };

    fn from(_: AllocFailed<T>) -> HostError {
        HostError::Memory
    }
}

impl HostRefusal {
    /// The text that a script sees, `offender` being the channel's name, of an opening the file's.
    ///
    /// # Errors
    /// Want of memory.
    pub fn message(self, alloc: Global, offender: &str) -> Result<Text, AllocError>
        ensures { IfOk result (λ text. text ≡ refusal_text self offender.now) }
    {
        match self {
            HostRefusal::NoChannel => quoting(alloc, NO_CHANNEL, offender),
            HostRefusal::DeviceFault => quoting(alloc, DEVICE_FAULT, offender),
            HostRefusal::NotOpened => quoting(alloc, "couldn't open \"", offender),
        }
    }
}

impl HostReply {
    /// Whether it is one of the request's own replies.
    pub fn is_reply_to(&self, request: &Request) -> bool
        ensures { result ≡ is_reply_to self.now request.now }
    {
        match request {
            Request::Open(_, _) => matches!(
                self,
                HostReply::Opened(_)
                    | HostReply::Refused(HostRefusal::NotOpened | HostRefusal::DeviceFault)
            ),
            Request::ReadLine(_) => matches!(
                self,
                HostReply::Line(_)
                    | HostReply::End
                    | HostReply::Refused(HostRefusal::NoChannel | HostRefusal::DeviceFault)
            ),
            Request::ReadAll(_) => matches!(
                self,
                HostReply::Rest(_)
                    | HostReply::Refused(HostRefusal::NoChannel | HostRefusal::DeviceFault)
            ),
            Request::Write(_, _) | Request::Flush(_) | Request::Close(_) => matches!(
                self,
                HostReply::Done
                    | HostReply::Refused(HostRefusal::NoChannel | HostRefusal::DeviceFault)
            ),
            Request::Eof(_) => matches!(
                self,
                HostReply::AtEnd(_)
                    | HostReply::Refused(HostRefusal::NoChannel | HostRefusal::DeviceFault)
            ),
        }
    }
}
