//! The program.
ghost use Rattle.std.specs.Prelude.{◌≡◌, map};
ghost use Rattle.tcl_shell.specs.Program.{Comes, Runs};
ghost use Rattle.tcl_shell.specs.Telling.{ShowsSo};

use crate::ending::Ending;
use crate::evaluating::evaluated;
use crate::options::{Options, STANDARD_INPUT};
use crate::script::read_script;
use crate::telling::tell;
use std::alloc::Global;
use tcl_host::host::Host;

/// Evaluates a script as `tclsafe [--limit N] [--safe] [--integers 8|9] [FILE] [ARG..]` does, and
/// gives the exit status: 0 a result, help or the version, 1 an error, 2 a mistake in the words or
/// a script that can't be read as UTF-8, 3 a limit that was met, 4 want of memory, n where the
/// script exits with n.
///
/// The first word is the program's name. The script makes at most N steps, from 0 to 1000000000000,
/// or 10000000 where the words don't say. Where memory is wanted, the host was asked until then
/// what reading the script, setting its variables and running it ask it first.
pub fn run_args<H: Host>(alloc: Global, words: &[&str], host: &mut H) -> u8
    ensures { Runs H.step (map (λ word. word.now) words.now) host.old result host.new }
{
    match Options::read(alloc, words) {
        Ok(options) => {
            let ending = evaluate_file(alloc, host, &options);
            tell(alloc, host, options.file, ending)
        }
        Err(ending) => tell(alloc, host, STANDARD_INPUT, ending),
    }
}

/// What the script comes to.
fn evaluate_file<H: Host>(alloc: Global, host: &mut H, options: &Options<'_>) -> Ending
    ensures { Comes H.step options.now host.old result host.new }
{
    match read_script(host, alloc, options.file) {
        Ok(script) => evaluated(alloc, host, options, script.as_slice()),
        Err(ending) => ending,
    }
}
