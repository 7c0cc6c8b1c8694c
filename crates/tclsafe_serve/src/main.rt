//! `tclsafe_serve`: serves trees of interpreters to a program in any language, by lines of JSON on
//! the standard streams.
#![tactic(auto)]

use std::io;
use std::io::{BufReader, BufWriter};
use std::process::ExitCode;
use tcl_serve::lines::Ending;
use tcl_serve::serving::serve;

fn main(rt: HostRuntime) -> ExitCode {
    let ending = serve_streams(&rt).unwrap_or(Ending::Memory);
    ExitCode::from(ending.status())
}

/// How the session over the standard streams ended.
fn serve_streams(rt: &HostRuntime) -> io::Result<Ending> {
    let reader = BufReader::new(rt.alloc(), rt.stdin())?;
    let writer = BufWriter::new(rt.alloc(), rt.stdout())?;
    Ok(serve(rt.alloc(), reader, writer))
}
