//! How an entry or a call ended, in words.
ghost use Rattle.std.specs.Prelude.{◌≡◌, IfOk};
ghost use Rattle.tcl_flow.specs.Stopping.{kind_of};
ghost use Rattle.tcl_player.specs.Words.{answer_words, heard_words, kind_word, reply_words};
ghost use Rattle.tcl_recorder.specs.Crossings.{answer_of, reply_of};
ghost use Rattle.tcl_run.specs.Outsides as outsides;

use crate::words::{code_text, count_text, number_text, one, three, two};
use std::alloc::{AllocError, Global};
use tcl_flow::stop::StopKind;
use tcl_host::reply::{HostRefusal, HostReply};
use tcl_recorder::crossing::{Answer, Reply};
use tcl_text::text::Text;

/// What a stop was raised for.
fn kind_word(kind: StopKind) -> &'static str
    ensures { result.now ≡ kind_word (kind_of kind) }
{
    match kind {
        StopKind::Count => "commands",
        StopKind::Depth => "recursionlimit",
        StopKind::Gone => "deleted",
    }
}

/// How an entry or an alias ended.
pub(crate) fn reply_words(alloc: Global, reply: &Reply) -> Result<Vec<Text>, AllocError>
    ensures { IfOk result (λ words. words.items ≡ reply_words (reply_of reply.now)) }
{
    match reply {
        Reply::Completed(completion) => {
            let code = code_text(alloc, completion.code)?;
            let text = completion.text.text(alloc)?;
            three(alloc, "code", &code, &text)
        }
        Reply::Stopped(stop) => {
            let levels = count_text(alloc, stop.levels_up)?;
            let kind = Text::new(alloc, kind_word(stop.kind))?;
            three(alloc, "stop", &levels, &kind)
        }
        Reply::Exited(status) => two(alloc, "exit", &code_text(alloc, *status)?),
        Reply::Ended => one(alloc, "ended"),
    }
}

/// The number of a host's refusal.
fn refusal_number(why: HostRefusal) -> u64
    ensures { result ≡ outsides.number_of why }
{
    match why {
        HostRefusal::NoChannel => 261,
        HostRefusal::DeviceFault => 262,
        HostRefusal::NotOpened => 267,
    }
}

/// What the host said.
fn heard_words(alloc: Global, reply: &HostReply) -> Result<Vec<Text>, AllocError>
    ensures { IfOk result (λ words. words.items ≡ heard_words (outsides.reply_of reply.now)) }
{
    match reply {
        HostReply::Opened(channel) => two(alloc, "opened", channel),
        HostReply::Line(bytes) => two(alloc, "line", &count_text(alloc, bytes.len())?),
        HostReply::End => one(alloc, "end"),
        HostReply::Rest(bytes) => two(alloc, "rest", &count_text(alloc, bytes.len())?),
        HostReply::Done => one(alloc, "done"),
        HostReply::AtEnd(true) => one(alloc, "at-end"),
        HostReply::AtEnd(false) => one(alloc, "not-at-end"),
        HostReply::Refused(why) => two(
            alloc,
            "refused",
            &number_text(alloc, refusal_number(*why))?,
        ),
    }
}

/// What came back to a call.
pub(crate) fn answer_words(alloc: Global, answer: &Answer) -> Result<Vec<Text>, AllocError>
    ensures { IfOk result (λ words. words.items ≡ answer_words (answer_of answer.now)) }
{
    match answer {
        Answer::Replied(reply) => reply_words(alloc, reply),
        Answer::Heard(reply) => heard_words(alloc, reply),
        Answer::Nobody => one(alloc, "nobody"),
    }
}
