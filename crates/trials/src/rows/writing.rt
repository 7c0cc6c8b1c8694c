//! Crossings in writing.
//!
//! A crossing is a line: `In`, `Done`, `Out` or `Back`, and what crosses. An entry is `eval` and
//! its script, `call` and its words, `expose` and its names, or `own`; of a call it comes behind
//! how many levels it leads above the watched interpreter, a request of the host behind `host`. A
//! reply is the text of an ordinary completion, a code and a text, `stop`, `exit` and a status, or
//! `ended`. Where nobody is there who could answer a call, `nobody` comes back.
use std::alloc::{AllocError, Global};
use tcl_flow::completion::Completion;
use tcl_host::reply::HostReply;
use tcl_host::request::Request;
use tcl_recorder::crossing::{Answer, Crossing, Reply};
use tcl_run::entry::{Entry, OwnEntry};
use tcl_value::value::Value;

/// Two words or texts, with a blank between them.
fn two(alloc: Global, first: &str, second: &str) -> Result<String, AllocError> {
    format!(in alloc; "{first} {second}")
}

/// Values one behind the other behind a word, with a blank before each.
fn words(alloc: Global, word: &str, values: &[Value]) -> Result<String, AllocError> {
    let mut text = String::from_str(alloc, word)?;
    'values: for value in values {
        text.push_str(" ")?;
        text.push_str(value.text(alloc)?.as_str())?;
    }
    Ok(text)
}

/// What is asked of a host.
fn request(alloc: Global, request: &Request) -> Result<String, AllocError> {
    match request {
        Request::Write(channel, text) => {
            let written = two(alloc, channel.as_str(), text.as_str())?;
            two(alloc, "host write", written.as_str())
        }
        _ => String::from_str(alloc, "host"),
    }
}

/// What an interpreter is asked for of its own.
fn own_entry(alloc: Global, entry: &OwnEntry) -> Result<String, AllocError> {
    match entry {
        OwnEntry::Expose { hidden, name } => {
            let names = two(alloc, hidden.as_str(), name.as_str())?;
            two(alloc, "expose", names.as_str())
        }
        _ => String::from_str(alloc, "own"),
    }
}

/// What an interpreter is asked for.
fn entry(alloc: Global, entry: &Entry) -> Result<String, AllocError> {
    match entry {
        Entry::Eval(script) => two(alloc, "eval", script.text(alloc)?.as_str()),
        Entry::CallWords(values) => words(alloc, "call", values.as_slice()),
        Entry::InvokeHidden { words: values, .. } => words(alloc, "invoke", values.as_slice()),
        Entry::Own(own) => own_entry(alloc, own),
        Entry::AskHost(asked) => request(alloc, asked),
    }
}

/// A completion.
fn completion(alloc: Global, completion: &Completion) -> Result<String, AllocError> {
    let text = completion.text.text(alloc)?;
    let code = completion.code;
    if code == 0 {
        return String::from_str(alloc, text.as_str());
    }
    format!(in alloc; "{code}: {text}", text = text.as_str())
}

/// A reply.
fn reply(alloc: Global, reply: &Reply) -> Result<String, AllocError> {
    match reply {
        Reply::Completed(completed) => completion(alloc, completed),
        Reply::Stopped(_) => String::from_str(alloc, "stop"),
        Reply::Exited(status) => format!(in alloc; "exit {status}"),
        Reply::Ended => String::from_str(alloc, "ended"),
    }
}

/// An answer.
fn answer(alloc: Global, answer: &Answer) -> Result<String, AllocError> {
    match answer {
        Answer::Replied(replied) => reply(alloc, replied),
        Answer::Heard(HostReply::Done) => String::from_str(alloc, "host done"),
        Answer::Heard(_) => String::from_str(alloc, "host"),
        Answer::Nobody => String::from_str(alloc, "nobody"),
    }
}

/// A call that goes out, so many levels up or to the host.
fn call_out(alloc: Global, levels: Option<usize>, asked: &Entry) -> Result<String, AllocError> {
    let asked = entry(alloc, asked)?;
    match levels {
        Some(levels) => format!(in alloc; "Out {levels} {asked}", asked = asked.as_str()),
        None => two(alloc, "Out", asked.as_str()),
    }
}

/// A crossing.
pub(crate) fn crossing(alloc: Global, crossing: &Crossing) -> Result<String, AllocError> {
    match crossing {
        Crossing::In { entry: asked, .. } => two(alloc, "In", entry(alloc, asked)?.as_str()),
        Crossing::Done { reply: told, .. } => two(alloc, "Done", reply(alloc, told)?.as_str()),
        Crossing::Out { entry: asked, .. } => call_out(alloc, crossing.levels_above(), asked),
        Crossing::Back { answer: told, .. } => two(alloc, "Back", answer(alloc, told)?.as_str()),
    }
}

/// A crossing at the end of others, as a line.
fn push_line(text: &mut String, alloc: Global, told: &Crossing) -> Result<(), AllocError> {
    text.push_str(crossing(alloc, told)?.as_str())?;
    text.push_str("\n")
}

/// Crossings, one a line.
pub(crate) fn crossings(alloc: Global, crossed: &[Crossing]) -> Result<String, AllocError> {
    let mut text = String::new(alloc);
    'crossings: for one in crossed {
        push_line(&mut text, alloc, one)?;
    }
    Ok(text)
}

/// Whether it is the watched interpreter that tells a crossing: a call that goes out, or how an
/// entry ends.
fn is_told(crossing: &Crossing) -> bool {
    matches!(crossing, Crossing::Out { .. } | Crossing::Done { .. })
}

/// Of these crossings what the watched interpreter tells, one a line.
pub(crate) fn show(alloc: Global, crossed: &[Crossing]) -> Result<String, AllocError> {
    let mut text = String::new(alloc);
    'crossings: for one in crossed {
        if is_told(one) {
            push_line(&mut text, alloc, one)?;
        }
    }
    Ok(text)
}
