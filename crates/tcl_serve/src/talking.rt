//! Messages that are heard on lines, and answered.
ghost use Rattle.std.specs.Prelude.{◌≡◌, None};
ghost use Rattle.tcl_serve.specs.Lines.{Hears};
ghost use Rattle.tcl_serve.specs.Talking.{Listens, Replies, SaysFault, Understood, fault_of};

use crate::answers::{Answer, reply_line};
use crate::lines::{Ending, Lines};
use crate::messages::{Line, Message, message_in};
use crate::refusals::Refusal;
use std::alloc::Global;
use std::io::{BufRead, Write};

/// Answers a message of this id, or a line of which none can be read. Where memory is wanted for
/// the answer, that is the answer.
pub fn reply<R: BufRead + Drop, W: Write + Drop>(
    lines: &mut Lines<R, W>,
    alloc: Global,
    id: Option<u64>,
    answer: Result<Answer, Refusal>,
)
    ensures { Replies lines.old id answer lines.new }
{
    match reply_line(alloc, id, &answer) {
        Ok(line) => lines.say(line.as_str()),
        Err(_) => lines.say_out_of_memory(id),
    }
}

/// Hears a message. A line that isn't understood is answered, and gives none; where no line comes
/// any more, there is an ending then, and a fault of the input is said.
pub fn hear<R: BufRead + Drop, W: Write + Drop>(
    lines: &mut Lines<R, W>,
    alloc: Global,
) -> Option<(u64, Message)>
    requires { lines.old.ending ≡ None }
    ensures { Listens lines.old result lines.new }
{
    match lines.hear(alloc) {
        Ok(line) => understand(lines, alloc, line.as_slice()),
        Err(ending) => {
            say_fault(lines, alloc, fault_of(ending));
            None
        }
    }
}

/// The message that a line is, which was read.
fn understand<R: BufRead + Drop, W: Write + Drop>(
    lines: &mut Lines<R, W>,
    alloc: Global,
    line: &[u8],
) -> Option<(u64, Message)>
    ensures { Understood lines.old line.now result lines.new }
{
    match message_in(alloc, line) {
        Line::Asks(id, message) => Some((id, message)),
        Line::Fails(id, refusal) => {
            reply(lines, alloc, id, Err(refusal));
            None
        }
    }
}

/// What is said at the end, where that is a fault of the input.
fn fault_of(ending: Ending) -> Option<Refusal>
    ensures { result ≡ fault_of ending }
{
    match ending {
        Ending::Finished | Ending::Unwritable => None,
        Ending::TooLong => Some(Refusal::LineTooLong),
        Ending::CutShort => Some(Refusal::CutShort),
        Ending::Unreadable => Some(Refusal::Unreadable),
        Ending::Memory => Some(Refusal::Memory),
    }
}

/// Says a fault, if there is one.
fn say_fault<R: BufRead + Drop, W: Write + Drop>(
    lines: &mut Lines<R, W>,
    alloc: Global,
    fault: Option<Refusal>,
)
    ensures { SaysFault fault lines.old lines.new }
{
    if let Some(refusal) = fault {
        reply(lines, alloc, None, Err(refusal));
    }
}
