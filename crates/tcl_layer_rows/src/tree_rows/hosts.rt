//! A host in memory.
//!
//! A call is a list, which is made on one host; one that only changes it answers `-`, and one that
//! is refused the refusal's name. `ask CALL ..` makes a call as a request that is a value, and
//! answers its reply.
use crate::tree_rows::answers::{
    Answer, Told, done, given, no_call, number, refused, truth, written,
};
use crate::tree_rows::words::{number_of, words_of};
use row_runner::World;
use std::alloc::{AllocError, Global};
use tcl_host::bytes::Bytes;
use tcl_host::host::{Host, ask};
use tcl_host::memory::MemoryHost;
use tcl_host::open_mode::{BadMode, OpenMode};
use tcl_host::reply::{HostError, HostRefusal, HostReply};
use tcl_host::request::Request;
use tcl_text::text::Text;

impl Told for HostError {
    fn show(&self, alloc: Global) -> Result<String, AllocError> {
        match self {
            HostError::Refused(refusal) => format!(in alloc; "{refusal:?}"),
            HostError::Memory => Err(AllocError),
        }
    }
}

/// The answer of bytes, which are the bytes of a text.
fn show_bytes(alloc: Global, bytes: &[u8]) -> Result<Answer, AllocError> {
    match str::from_utf8(bytes) {
        Ok(text) => given(alloc, text),
        Err(_) => given(alloc, "no text"),
    }
}

/// The answer of all that was left.
fn show_rest(alloc: Global, rest: Result<Bytes, HostError>) -> Result<Answer, AllocError> {
    match rest {
        Ok(bytes) => show_bytes(alloc, bytes.as_slice()),
        Err(error) => refused(alloc, &error),
    }
}

/// The answer of a line, or `none` where none is left.
fn show_line(alloc: Global, line: Result<Option<Bytes>, HostError>) -> Result<Answer, AllocError> {
    match line {
        Ok(Some(bytes)) => show_bytes(alloc, bytes.as_slice()),
        Ok(None) => given(alloc, "none"),
        Err(error) => refused(alloc, &error),
    }
}

/// The answer of whether the last read met the end.
fn show_end(alloc: Global, is_end: Result<bool, HostError>) -> Result<Answer, AllocError> {
    match is_end {
        Ok(is_end) => truth(alloc, is_end),
        Err(error) => refused(alloc, &error),
    }
}

/// The answer of the name of a channel that was opened.
fn show_channel(alloc: Global, opened: Result<Text, HostError>) -> Result<Answer, AllocError> {
    match opened {
        Ok(channel) => given(alloc, channel.as_str()),
        Err(error) => refused(alloc, &error),
    }
}

/// `open NAME MODE`
fn open(
    host: &mut MemoryHost,
    alloc: Global,
    name: &str,
    mode: &str,
) -> Result<Answer, AllocError> {
    match OpenMode::from_word(mode) {
        Ok(mode) => show_channel(alloc, host.open(alloc, name, mode)),
        Err(BadMode) => no_call(alloc),
    }
}

/// `mode WORD`: the mode that a word names.
fn show_mode(alloc: Global, word: &str) -> Result<Answer, AllocError> {
    match OpenMode::from_word(word) {
        Ok(mode) => Ok(Answer::Given(format!(in alloc; "{mode:?}")?)),
        Err(fault) => Ok(Answer::Given(format!(in alloc; "{fault:?}")?)),
    }
}

/// `contents NAME`: what a file holds, or `none` where there is none.
fn contents(host: &MemoryHost, alloc: Global, name: &str) -> Result<Answer, AllocError> {
    match host.file(name) {
        Some(bytes) => show_bytes(alloc, bytes),
        None => given(alloc, "none"),
    }
}

/// What a script is told of a refusal on a channel or a file of this name.
fn message(alloc: Global, refusal: HostRefusal, name: &str) -> Result<Answer, AllocError> {
    given(alloc, refusal.message(alloc, name)?.as_str())
}

/// `tell REFUSAL NAME`: what a script is told of a refusal.
fn show_message(alloc: Global, refusal: &str, name: &str) -> Result<Answer, AllocError> {
    match refusal {
        "NoChannel" => message(alloc, HostRefusal::NoChannel, name),
        "DeviceFault" => message(alloc, HostRefusal::DeviceFault, name),
        "NotOpened" => message(alloc, HostRefusal::NotOpened, name),
        _ => given(alloc, BadMode.message(alloc, name)?.as_str()),
    }
}

/// The request of a call, which asks for a file to be written, for all that is left, or else that a
/// channel be closed.
fn request_of(call: &str, name: Text) -> Request {
    match call {
        "open" => Request::Open(name, OpenMode::Write),
        "read" => Request::ReadAll(name),
        _ => Request::Close(name),
    }
}

/// The answer of a reply.
fn show_reply(alloc: Global, reply: &HostReply) -> Result<Answer, AllocError> {
    match reply {
        HostReply::Opened(channel) => {
            Ok(Answer::Given(format!(in alloc; "Opened {}", channel.as_str())?))
        }
        HostReply::Done => given(alloc, "Done"),
        HostReply::Refused(refusal) => refused(alloc, &HostError::Refused(*refusal)),
        _ => given(alloc, "another reply"),
    }
}

/// `ask CALL NAME`, `fits CALL NAME`: what is replied, or whether it is one of the request's own
/// replies. `done-fits` tells that of `Done`.
fn asked(
    host: &mut MemoryHost,
    alloc: Global,
    call: &str,
    request: &Request,
) -> Result<Answer, AllocError> {
    match call {
        "ask" => show_reply(alloc, &ask(host, alloc, request)?),
        "fits" => truth(alloc, ask(host, alloc, request)?.is_reply_to(request)),
        "done-fits" => truth(alloc, HostReply::Done.is_reply_to(request)),
        _ => no_call(alloc),
    }
}

/// What a call of two words answers. `file NAME BYTES` makes a file.
fn of_two(
    host: &mut MemoryHost,
    alloc: Global,
    call: &str,
    first: &Text,
    second: &Text,
) -> Result<Answer, AllocError> {
    let (name, text) = (first.as_str(), second.as_str());
    match call {
        "file" => {
            host.put_file(alloc, name, text.as_bytes())?;
            given(alloc, "-")
        }
        "write" => done(alloc, host.write(name, text)),
        "open" => open(host, alloc, name, text),
        "tell" => show_message(alloc, name, text),
        _ => asked(host, alloc, call, &request_of(name, second.clone()?)),
    }
}

/// What a call on a channel answers.
fn of_channel(
    host: &mut MemoryHost,
    alloc: Global,
    call: &str,
    channel: &str,
) -> Result<Answer, AllocError> {
    match call {
        "flush" => done(alloc, host.flush(channel)),
        "close" => done(alloc, host.close(channel)),
        "line" => show_line(alloc, host.read_line(alloc, channel)),
        "read" => show_rest(alloc, host.read_all(alloc, channel)),
        "eof" => show_end(alloc, host.eof(channel)),
        _ => no_call(alloc),
    }
}

/// What a call of one word answers. `input BYTES` gives what there is to read, and after
/// `fail COUNT` the call of that number, counted from there, fails.
fn of_one(
    host: &mut MemoryHost,
    alloc: Global,
    call: &str,
    word: &Text,
) -> Result<Answer, AllocError> {
    match call {
        "input" => host.put_input(word.as_str().as_bytes())?,
        "fail" => host.fail_at(number_of(word)),
        "contents" => return contents(host, alloc, word.as_str()),
        "mode" => return show_mode(alloc, word.as_str()),
        _ => return of_channel(host, alloc, call, word.as_str()),
    }
    given(alloc, "-")
}

/// What a call answers, by its words.
fn answer(host: &mut MemoryHost, alloc: Global, words: &[Text]) -> Result<Answer, AllocError> {
    match words {
        [call] => match call.as_str() {
            "output" => show_bytes(alloc, host.output()),
            "errors" => show_bytes(alloc, host.errors()),
            "failures" => number(alloc, Some(host.failures())),
            _ => no_call(alloc),
        },
        [call, word] => of_one(host, alloc, call.as_str(), word),
        [call, first, second] => of_two(host, alloc, call.as_str(), first, second),
        _ => no_call(alloc),
    }
}

/// A host in memory, which has nothing at first.
pub(crate) struct Hosts {
    host: MemoryHost,
}

impl Drop for Hosts {
    fn drop(self) {
        let Hosts { host: _host } = self;
    }
}

impl Hosts {
    pub(crate) fn new(alloc: Global) -> Result<Hosts, AllocError> {
        Ok(Hosts {
            host: MemoryHost::new(alloc)?,
        })
    }
}

impl World for Hosts {
    fn begin(&mut self, alloc: Global) -> Result<(), AllocError> {
        *self = Hosts::new(alloc)?;
        Ok(())
    }

    fn answer(&mut self, alloc: Global, call: &str) -> Result<String, AllocError> {
        let words = words_of(alloc, call)?;
        Ok(written(answer(&mut self.host, alloc, &words)?))
    }
}
