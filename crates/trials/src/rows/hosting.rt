//! Calls of the host, and runs of the program over it.
use crate::rows::world::{Trees, count_of, done, no_call, number_of};
use std::alloc::{AllocError, Global};
use tcl_host::host::Host;
use tcl_host::memory::MemoryHost;
use tcl_shell::run_args;
use tcl_text::text::Text;

/// The bytes of a text that has a character for each; a character that is none is left out.
fn bytes_of(alloc: Global, text: &str) -> Result<Vec<u8>, AllocError> {
    let mut bytes = Vec::new(alloc);
    'characters: for character in text.chars() {
        if let Ok(byte) = u8::try_from(character) {
            bytes.push(byte)?;
        }
    }
    Ok(bytes)
}

/// `input TEXT`
pub(crate) fn input(world: &mut Trees, alloc: Global, text: &str) -> Result<String, AllocError> {
    let bytes = bytes_of(alloc, text)?;
    world.host = MemoryHost::new(alloc)?;
    world.host.put_input(bytes.as_slice())?;
    done(alloc)
}

/// `inputs COUNT TEXT`
pub(crate) fn inputs(
    world: &mut Trees,
    alloc: Global,
    count: &Text,
    text: &str,
) -> Result<String, AllocError> {
    let Some(count) = count_of(count) else {
        return no_call(alloc);
    };
    let texts = text.repeat(alloc, count)?;
    input(world, alloc, texts.as_str())
}

/// `file NAME TEXT`
pub(crate) fn file(
    world: &mut Trees,
    alloc: Global,
    name: &str,
    text: &str,
) -> Result<String, AllocError> {
    let bytes = bytes_of(alloc, text)?;
    world.host = MemoryHost::new(alloc)?;
    world.host.put_file(alloc, name, bytes.as_slice())?;
    done(alloc)
}

/// `fault NUMBER`
pub(crate) fn fault(world: &mut Trees, alloc: Global, number: &Text) -> Result<String, AllocError> {
    let Some(number) = number_of(number) else {
        return no_call(alloc);
    };
    world.host.fail_at(number);
    done(alloc)
}

/// Bytes as a text.
fn text_of(alloc: Global, bytes: &[u8]) -> Result<String, AllocError> {
    match str::from_utf8(bytes) {
        Ok(text) => String::from_str(alloc, text),
        Err(_) => String::from_str(alloc, "no text"),
    }
}

/// What was put out.
pub(crate) fn output(world: &Trees, alloc: Global) -> Result<String, AllocError> {
    text_of(alloc, world.host.output())
}

/// What was told on standard error.
pub(crate) fn errors(world: &Trees, alloc: Global) -> Result<String, AllocError> {
    text_of(alloc, world.host.errors())
}

/// How many requests failed.
pub(crate) fn failures(world: &Trees, alloc: Global) -> Result<String, AllocError> {
    let failures = world.host.failures();
    format!(in alloc; "{failures}")
}

/// Whether a channel is open.
pub(crate) fn eof(world: &mut Trees, alloc: Global, channel: &str) -> Result<String, AllocError> {
    match world.host.eof(channel) {
        Ok(_) => String::from_str(alloc, "open"),
        Err(_) => String::from_str(alloc, "closed"),
    }
}

/// The program's name, and the words behind it.
fn command_line(alloc: Global, words: &[Text]) -> Result<Vec<&str>, AllocError> {
    let mut line = Vec::new(alloc);
    line.push("tclsafe")?;
    'words: for word in words {
        line.push(word.as_str())?;
    }
    Ok(line)
}

/// The status with which the program ends over a host.
fn status_of(host: &mut MemoryHost, alloc: Global, line: &[&str]) -> u8 {
    run_args(alloc, line, host)
}

/// `tclsafe WORD ..`
pub(crate) fn run_program(
    world: &mut Trees,
    alloc: Global,
    words: &[Text],
) -> Result<String, AllocError> {
    let line = command_line(alloc, words)?;
    let status = status_of(&mut world.host, alloc, line.as_slice());
    format!(in alloc; "{status}")
}
