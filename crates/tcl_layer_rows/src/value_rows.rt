//! Rows of values, and of the commands that change what stands inside them.
//!
//! A call is a list: the name of a method, a function or a command, and the words behind it. A
//! command is written as a script writes it, and read in the older style of integers where it
//! doesn't stand behind `tcl9`. Any other call is named as the function that it makes, `List::push`
//! and `Dict::put` on lists and dicts that have names of their own.
//!
//! A word `$NAME` stands for the value of that name, `$7` for a number that carries no text, and
//! `$empty` for the empty value that carries none. Every other word is the value of its text. What
//! changes a value or looks at one has it as its first word, and works on the named value itself,
//! not on a copy.
//!
//! These calls give names: `set NAME VALUE`, `short NAME TEXT` for a text that is known to be
//! short, `letters NAME COUNT` for a text of so many letters `x`, `into NAME COMMAND ..` for what a
//! command gives, and the makers of `List` and `Dict`, whose first word is the name. `drop NAME`
//! lets a value go.
//!
//! A change answers what the value is then, a look what it sees, and other calls `-`. A value of
//! more than a thousand bytes is told by their number. A refusal is told by its message, or by its
//! name where it has none.
mod answers;
mod commands;
mod dict_calls;
mod list_calls;
mod parts;
mod reading;
mod value_calls;
mod world;

use crate::value_rows::world::Values;
use row_runner::run;
use std::io;

/// The files of rows.
const FILES: [&str; 6] = [
    "values",
    "changes",
    "inside",
    "limits",
    "nested",
    "variables",
];

/// Puts the rows of each file.
pub(crate) fn run_files(rt: &HostRuntime) -> io::Result<()> {
    let mut values = Values::new(rt.alloc());
    'files: for name in FILES {
        run(rt, name, &mut values)?;
    }
    Ok(())
}
