//! Rows over whole runs: of scripts, of the program `tclsafe`, and of evaluations that are watched,
//! saved and replayed.
//!
//! Every answer that a row wants was worked out by hand from the rules of the language.
//!
//! In `scripts.rows`, `tcl9.rows` and `commands.rows` a call is a script, and its answer how a run
//! of it ends in a new tree of interpreters (`ending.rt` says how that is written). `scripts.rows`
//! are run with the integers of Tcl 8 and `tcl9.rows` with those of Tcl 9, and so is every
//! beginning of each script. `commands.rows` show commands one by one, and are run in both styles.
//! In the other files a call is the words of a list, put to the tree, the host and what else the
//! group has (`world.rt`). A call that changes these alone answers `-`.
//!
//! Evaluating (`evaluating.rt`):
//! - `tree SCRIPT`: begins a new tree, in which the script is run first, and how that ends; at
//!   first the script is empty;
//! - `eval SCRIPT`, `within STEPS SCRIPT`, `at PATH SCRIPT`: how a run of the script ends, in the
//!   root or at a path;
//! - `open STEPS SCRIPT`: how a run of the script in the root ends whose outside grants so many
//!   steps and answers nothing, or that the outside ended it;
//! - `prepare SCRIPT`: runs the script in the root, however that ends;
//! - `nested DEPTH OPEN MIDDLE CLOSE SCRIPT`: how a run of the script ends, in which `%` stands for
//!   the middle in so many pairs;
//! - `blanks COUNT`: how a run of so many blanks ends, which may make no step;
//! - `break`: marks the tree broken.
//!
//! The host (`hosting.rt`), in each of whose texts a character is a byte:
//! - `input TEXT`, `inputs COUNT TEXT`, `file NAME TEXT`: a new host with this on its standard
//!   input, so often, or in a file;
//! - `fault NUMBER`: makes the request of that number from now on fail;
//! - `tclsafe WORD ..`: the status with which the program ends over the host;
//! - `output`, `errors`, `failures`: what was put out and told, and how many requests failed;
//! - `eof CHANNEL`: whether a channel is `open` or `closed`.
//!
//! Watching (`watching.rt`), where an empty name is that of the root:
//! - `watch NAME SCRIPT`, `watch_within NAME STEPS SCRIPT`: how a run ends in which that child is
//!   watched, over a new host;
//! - `record`, `crossings`: what crossed its boundary in it (`writing.rt` says how that is
//!   written), and how many crossings there were;
//! - `save NAME LABEL`: keeps the child by itself;
//! - `same LABEL LABEL`: whether two that were kept are the same.
//!
//! Playing (`playing.rt`):
//! - `play LABEL STEPS MOVES`, `replay LABEL STEPS`: what comes of moves that are played to one
//!   that was kept, or of those of the record; it is kept as it was left under the label `played`;
//! - `told`, `last`: what it told in that, and what of it last.
//!
//! Beginnings (`beginnings.rt`), each in a new tree, and how many of them came out so:
//! - `ends SCRIPT`: every beginning ends while the root is watched;
//! - `outside SCRIPT`, `inside SCRIPT`: the child `c`, which is watched while the root or `c`
//!   itself evaluates the beginning, tells the same by itself and is left the same.
//!
//! Want of memory (`memory.rt`): `eval_again SCRIPT`, `watch_again NAME SCRIPT`, `save_again NAME
//! LABEL` and `play_again LABEL STEPS MOVES` answer as those without `_again`, whichever of their
//! allocations is refused.
mod beginnings;
mod ending;
mod evaluating;
mod hosting;
mod memory;
mod playing;
mod scripts;
mod watching;
mod world;
mod writing;

use crate::rows::scripts::{Beginnings, Scripts};
use crate::rows::world::Trees;
use row_runner::{run as run_file, run_beginnings};
use std::io;
use tcl_text::integer::Integers;

/// The rows of scripts that are read in a style of integers.
fn run_scripts(rt: &HostRuntime, name: &str, integers: Integers) -> io::Result<()> {
    run_file(rt, name, &mut Scripts { integers })?;
    run_beginnings(rt, name, &mut Beginnings)?;
    Ok(())
}

/// The rows of scripts that end alike in both styles of integers.
fn run_commands(rt: &HostRuntime) -> io::Result<()> {
    'styles: for integers in [Integers::Tcl8, Integers::Tcl9] {
        run_file(rt, "commands", &mut Scripts { integers })?;
    }
    Ok(())
}

/// The rows that are put to trees. Those of want of memory come first, so that few allocations come
/// before them.
fn run_calls(rt: &HostRuntime, world: &mut Trees) -> io::Result<()> {
    run_file(rt, "memory", world)?;
    run_file(rt, "evaluations", world)?;
    run_file(rt, "program", world)?;
    run_file(rt, "replays", world)?;
    Ok(())
}

/// Puts all rows, and says of each file how many of its rows were answered otherwise.
///
/// # Errors
/// Out of memory, and what reading a file or writing to standard output may answer.
pub fn run(rt: &HostRuntime) -> io::Result<()> {
    let mut world = Trees::new(rt.alloc())?;
    run_calls(rt, &mut world)?;
    run_scripts(rt, "scripts", Integers::Tcl8)?;
    run_scripts(rt, "tcl9", Integers::Tcl9)?;
    run_commands(rt)
}
