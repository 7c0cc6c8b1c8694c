//! What the host's replies are to scripts.
ghost use Rattle.std.specs.Prelude.{◌≡◌, pos, length, IfOk};
ghost use Rattle.std.specs.Fmt.{signed_decimal};
ghost use Rattle.std.specs.Str.{chars};
ghost use Rattle.std.specs.String.{string_bytes};
ghost use Rattle.tcl_core.specs.Endings.{ok};
ghost use Rattle.tcl_core.specs.Endings.Reply.{Completed};
ghost use Rattle.tcl_core.specs.Paths.{Path};
ghost use Rattle.tcl_core.specs.Programs.Prog.{done};
ghost use Rattle.tcl_language.specs.Hosting as hosting;
ghost use Rattle.tcl_language.specs.Instructions.{gives};
ghost use Rattle.tcl_language.specs.Variables.{sets};
ghost use Rattle.tcl_run.specs.Ends.{Interrupts, failing};
ghost use Rattle.tcl_run.specs.Outsides.{number_of, reply_of};
ghost use Rattle.tcl_run.specs.Plain.{Acts};
ghost use Rattle.tcl_run.specs.Runs.{IsLevel};
ghost use Rattle.tcl_tree.specs.TreeOf.{Names};
ghost use Rattle.tcl_value.specs.Limits.{IsWithin};
ghost use Rattle.tcl_calls.specs.HostCalls.{Ends, IsRead, heard_by};

use crate::host_calls::HostCall;
use crate::setting::set_named;
use std::alloc::{AllocError, Global};
use tcl_characters::parts::characters_of;
use tcl_host::bytes::Bytes;
use tcl_host::reply::{HostRefusal, HostReply};
use tcl_run::failure::{failure, failure_quoting, too_long};
use tcl_run::interruption::Interruption;
use tcl_text::limit::MOST_BYTES;
use tcl_text::text::Text;
use tcl_tree::tree::{Place, Tree};
use tcl_value::value::Value;

/// What the host's reply to a call is to the script that made it.
///
/// # Errors
/// 261, 262 and 267 of the host; 122 and 265 of what was read; 232, 233 and 238 of the variable
/// that a line is read for; want of memory.
pub fn answer(
    tree: &mut Tree,
    alloc: Global,
    place: Place,
    call: &HostCall,
    reply: HostReply,
) -> Result<Value, Interruption>
    requires { (p : Path) × Names tree.old place p }
    ensures acts { Acts tree.old place
        (λ style. heard_by call.now (reply_of reply)) tree.new result }
    ensures level { IsLevel tree.old tree.new }
{
    match call {
        HostCall::ReadLineInto(channel, name) => {
            keep_line(tree, alloc, place, channel, name, reply)
        }
        HostCall::ReadLine(channel) => text_read(alloc, channel, reply),
        HostCall::ReadAll(channel) => text_read(alloc, channel, reply),
        HostCall::Open(file, _) => opened(alloc, file, reply),
        HostCall::Write(channel, _) => accepted(alloc, channel, &reply),
        HostCall::Flush(channel) => accepted(alloc, channel, &reply),
        HostCall::Close(channel) => accepted(alloc, channel, &reply),
        HostCall::Eof(channel) => at_end(alloc, channel, &reply),
    }
}

/// The error that a refusal of the host is, of a channel or a file of this name.
pub fn refused_by_host(alloc: Global, why: HostRefusal, name: &Text) -> Interruption
    ensures { Interrupts result (λ e. e
        ≡ Completed (failing (hosting.refusal_message (number_of why) name.now))) }
{
    match why.message(alloc, name.as_str()) {
        Ok(message) => failure(alloc, message),
        Err(_) => Interruption::Memory,
    }
}

/// What stands behind the name of what gave bytes that are no text (265).
const NOT_UTF8: &str = " is not UTF-8";

/// The value of bytes that were read.
///
/// # Errors
/// 122 of too many; 265 where they aren't UTF-8, of the name; want of memory.
pub fn value_read(alloc: Global, name: &Text, bytes: Bytes) -> Result<Value, Interruption>
    ensures { IsRead name.now bytes result }
{
    if bytes.len() > MOST_BYTES {
        return Err(too_long(alloc));
    }
    match String::from_utf8(bytes.into_vec()) {
        Ok(text) => Ok(short_value(alloc, text)?),
        Err(_) => Err(failure_quoting(alloc, "", name.as_str(), NOT_UTF8)),
    }
}

/// The value of a text that is short enough for one.
///
/// # Errors
/// Want of memory.
fn short_value(alloc: Global, text: String) -> Result<Value, AllocError>
    requires { IsWithin (string_bytes text) }
    ensures { IfOk result (λ value. value ≡ string_bytes text) }
{
    let text = Text::from_string(alloc, text)?;
    Ok(Value::from_short_text(text))
}

/// The value of a text.
///
/// # Errors
/// 122.
fn value_of(alloc: Global, text: Text) -> Result<Value, Interruption>
    ensures { Ends (gives text) result }
{
    match Value::from_text(text) {
        Ok(value) => Ok(value),
        Err(_) => Err(too_long(alloc)),
    }
}

/// How many characters a value has.
///
/// # Errors
/// Want of memory.
fn length_of(alloc: Global, value: &Value) -> Result<Value, AllocError>
    ensures { IfOk result (λ count. count ≡ signed_decimal (pos (length (chars value.now)))) }
{
    let text = value.text(alloc)?;
    count_value(characters_of(&text))
}

/// The number of a count. No memory has so many characters that it takes more than 63 bits.
///
/// # Errors
/// Want of memory.
fn count_value(count: usize) -> Result<Value, AllocError>
    ensures { IfOk result (λ value. value ≡ signed_decimal (pos count)) }
{
    match i64::try_from(count) {
        Ok(number) => Ok(Value::from_int(number)),
        Err(_) => Err(AllocError),
    }
}

/// The text that was read, which is empty at the end. (gets(n), read(n))
fn text_read(alloc: Global, channel: &Text, reply: HostReply) -> Result<Value, Interruption>
    ensures { Ends (hosting.text_read channel.now (reply_of reply)) result }
{
    match reply {
        HostReply::Line(bytes) => value_read(alloc, channel, bytes),
        HostReply::Rest(bytes) => value_read(alloc, channel, bytes),
        HostReply::Refused(why) => Err(refused_by_host(alloc, why, channel)),
        _other => Ok(Value::empty()),
    }
}

/// The name of the channel that was opened. (open(n))
fn opened(alloc: Global, file: &Text, reply: HostReply) -> Result<Value, Interruption>
    ensures { Ends (hosting.opened file.now (reply_of reply)) result }
{
    match reply {
        HostReply::Opened(channel) => value_of(alloc, channel),
        HostReply::Refused(why) => Err(refused_by_host(alloc, why, file)),
        _other => Ok(Value::empty()),
    }
}

/// Nothing, where a request was accepted. (puts(n), close(n), flush(n))
fn accepted(alloc: Global, channel: &Text, reply: &HostReply) -> Result<Value, Interruption>
    ensures { Ends (hosting.accepted channel.now (reply_of reply.now)) result }
{
    match reply {
        HostReply::Refused(why) => Err(refused_by_host(alloc, *why, channel)),
        _ => Ok(Value::empty()),
    }
}

/// 1 where it is true, and else 0.
fn truth_value(truth: bool) -> Value
    ensures { result ≡ hosting.truth truth }
{
    if truth {
        return Value::from_int(1);
    }
    Value::from_int(0)
}

/// 1 where the last read met the end, and else 0. (eof(n))
fn at_end(alloc: Global, channel: &Text, reply: &HostReply) -> Result<Value, Interruption>
    ensures { Ends (hosting.at_end channel.now (reply_of reply.now)) result }
{
    match reply {
        HostReply::AtEnd(ended) => Ok(truth_value(*ended)),
        HostReply::Refused(why) => Err(refused_by_host(alloc, *why, channel)),
        _ => Ok(Value::empty()),
    }
}

/// Sets the variable to a line that was read, and gives the number of its characters; at the end
/// it is empty, and the number is -1. (gets(n))
fn keep_line(
    tree: &mut Tree,
    alloc: Global,
    place: Place,
    channel: &Text,
    name: &Value,
    reply: HostReply,
) -> Result<Value, Interruption>
    requires { (p : Path) × Names tree.old place p }
    ensures acts { Acts tree.old place
        (λ style. hosting.line_read channel.now name.now (reply_of reply)) tree.new result }
    ensures level { IsLevel tree.old tree.new }
{
    match reply {
        HostReply::Line(bytes) => keep_bytes(tree, alloc, place, channel, name, bytes),
        HostReply::End => keep(
            tree,
            alloc,
            place,
            name,
            Value::empty(),
            Value::from_int(-1),
        ),
        HostReply::Refused(why) => Err(refused_by_host(alloc, why, channel)),
        _other => Ok(Value::empty()),
    }
}

/// Sets the variable to the line that bytes are, and gives the number of its characters.
fn keep_bytes(
    tree: &mut Tree,
    alloc: Global,
    place: Place,
    channel: &Text,
    name: &Value,
    bytes: Bytes,
) -> Result<Value, Interruption>
    requires { (p : Path) × Names tree.old place p }
    ensures acts { Acts tree.old place
        (λ style. hosting.read_from channel.now bytes (hosting.keeps_line name.now)) tree.new
        result }
    ensures level { IsLevel tree.old tree.new }
{
    let line = value_read(alloc, channel, bytes)?;
    let count = length_of(alloc, &line)?;
    keep(tree, alloc, place, name, line, count)
}

/// Sets the variable, and gives a number.
fn keep(
    tree: &mut Tree,
    alloc: Global,
    place: Place,
    name: &Value,
    text: Value,
    number: Value,
) -> Result<Value, Interruption>
    requires { (p : Path) × Names tree.old place p }
    ensures acts { Acts tree.old place
        (λ style. sets name.now text (done (ok number))) tree.new result }
    ensures level { IsLevel tree.old tree.new }
{
    set_named(tree, alloc, place, name, text)?;
    Ok(number)
}
