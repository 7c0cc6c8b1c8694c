//! `tclsafe`: evaluates a script of the Tcl command language that nobody need trust.
#![tactic(auto)]

use std::alloc::AllocError;
use std::io::Write;
use std::process::ExitCode;
use std::{env, io};
use tcl_console::Console;
use tcl_shell::{MEMORY_LINE, run_args};

fn main(rt: HostRuntime) -> ExitCode {
    let Ok(words) = words_of(&rt) else {
        return out_of_memory(&rt);
    };
    match status_of(&rt, words.as_slice()) {
        Ok(status) => ExitCode::from(status),
        Err(_) => out_of_memory(&rt),
    }
}

/// The words of the command line.
fn words_of(rt: &HostRuntime) -> io::Result<Vec<String>> {
    Ok(env::args(rt)?.collect(rt.alloc())?)
}

/// The status of a run with these words, over the process's own streams and files.
fn status_of(rt: &HostRuntime, words: &[String]) -> Result<u8, AllocError> {
    let alloc = rt.alloc();
    let words: Vec<&str> = words.iter().map(|word| word.as_str()).collect(alloc)?;
    let mut console = Console::new(alloc, rt, rt.stdin(), rt.stdout(), rt.stderr())?;
    Ok(run_args(alloc, words.as_slice(), &mut console))
}

/// Tells that there was no memory to begin with.
fn out_of_memory(rt: &HostRuntime) -> ExitCode {
    let _ = rt.stderr().write_all(MEMORY_LINE.as_bytes());
    ExitCode::from(4)
}
