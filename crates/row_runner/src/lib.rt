//! Tests as rows of text. A row is a line: a call, ` => `, and what the call must answer.
//!
//! The rows of a file stand in groups. A line `== NAME` begins a group, whose rows are answered by
//! one world, one after the other. An empty line, and one that begins with `--`, says nothing. In a
//! row `␤` stands for a newline, and an answer is compared as one line, so that its newlines are
//! written so too.
#![tactic(auto)]

ghost use Rattle.std.specs.Prelude.{◌≡◌, ◌≤◌, IfOk};

use std::alloc::{AllocError, Global};
use std::{fs, io};

/// What answers the calls of rows.
pub trait World {
    /// A group begins: what the rows of the group before did is undone.
    ///
    /// # Errors
    /// Out of memory.
    fn begin(&mut self, alloc: Global) -> Result<(), AllocError>;

    /// What a call answers. A call that isn't known answers what no row wants.
    ///
    /// # Errors
    /// Out of memory.
    fn answer(&mut self, alloc: Global, call: &str) -> Result<String, AllocError>;
}

/// What stands for a newline in a row.
const NEWLINE: &str = "␤";

/// How many rows there were, and how many of them were answered otherwise.
#[derive(Clone, Copy)]
pub struct Tally {
    /// How many there were.
    pub rows: u64,
    /// How many of them were answered otherwise.
    pub differ: u64,
    ghost within: { differ ≤ rows },
}

impl Tally {
    /// No row.
    const NONE: Tally = Tally { rows: 0, differ: 0 };

    /// One row more.
    fn with(self, is_met: bool) -> Tally {
        Tally {
            rows: self.rows.saturating_add(1),
            differ: self.differ.saturating_add(if is_met { 0 } else { 1 }),
        }
    }
}

/// What a line of a file of rows is.
enum Line<'a> {
    /// It says nothing.
    Nothing,
    /// It begins a group.
    Group,
    /// A call, and what it must answer.
    Row(&'a str, &'a str),
    /// It is none of these.
    NoRow,
}

/// What a line is. A call that must answer the empty text may leave out the blank behind the arrow.
fn line_of(line: &str) -> Line<'_> {
    if line.is_empty() || line.starts_with("--") {
        return Line::Nothing;
    }
    if line.starts_with("== ") {
        return Line::Group;
    }
    if let Some((call, wanted)) = line.split_once(" => ") {
        return Line::Row(call, wanted);
    }
    match line.strip_suffix(" =>") {
        Some(call) => Line::Row(call, ""),
        None => Line::NoRow,
    }
}

/// What a call answers, as one line.
fn found<W: World>(world: &mut W, alloc: Global, call: &str) -> Result<String, AllocError> {
    let call = call.replace(alloc, NEWLINE, "\n")?;
    let answer = world.answer(alloc, call.as_str())?;
    answer.as_str().replace(alloc, "\n", NEWLINE)
}

/// Prints a row that is answered otherwise.
fn tell(rt: &HostRuntime, call: &str, found: &str, wanted: &str) -> io::Result<()> {
    println!(rt; "{call} => {found}, and not {wanted}")
}

/// Puts a row to a world, and prints what it answers where that isn't what it must be. Returns
/// whether it is.
fn see<W: World>(rt: &HostRuntime, world: &mut W, call: &str, wanted: &str) -> io::Result<bool> {
    let found = found(world, rt.alloc(), call)?;
    let is_met = found.as_str() == wanted;
    if !is_met {
        tell(rt, call, found.as_str(), wanted)?;
    }
    Ok(is_met)
}

/// Puts a line to a world, and returns the tally with it.
fn see_line<W: World>(
    rt: &HostRuntime,
    world: &mut W,
    tally: Tally,
    line: &str,
) -> io::Result<Tally> {
    match line_of(line) {
        Line::Nothing => Ok(tally),
        Line::Group => {
            world.begin(rt.alloc())?;
            Ok(tally)
        }
        Line::Row(call, wanted) => Ok(tally.with(see(rt, world, call, wanted)?)),
        Line::NoRow => {
            println!(rt; "{line}: no row")?;
            Ok(tally.with(false))
        }
    }
}

/// The text of the file `NAME.rows`.
fn rows_of(rt: &HostRuntime, name: &str) -> io::Result<String> {
    let path = format!(in rt.alloc(); "{name}.rows")?;
    fs::read_to_string(rt, path.as_str())
}

/// Puts the rows of the file `NAME.rows` to a world. Each that is answered otherwise is printed,
/// and last how many rows there were, which is returned too.
///
/// # Errors
/// The file can't be read, the output can't be written, or out of memory.
pub fn run<W: World>(rt: &HostRuntime, name: &str, world: &mut W) -> io::Result<Tally>
    ensures { IfOk result (λ tally. tally.differ ≤ tally.rows) }
{
    let rows = rows_of(rt, name)?;
    let mut tally = Tally::NONE;
    'rows: for line in rows.lines() {
        tally = see_line(rt, world, tally, line)?;
    }
    let Tally { rows, differ } = tally;
    println!(rt; "{name}: {rows} rows, {differ} answered otherwise")?;
    Ok(tally)
}

/// Puts every beginning of a call to a world, all of it too, which must answer nothing, and returns
/// the tally with them.
fn see_beginnings<W: World>(
    rt: &HostRuntime,
    world: &mut W,
    tally: Tally,
    call: &str,
) -> io::Result<Tally> {
    let mut tally = tally;
    'ends: for end in 0..=call.len() {
        if let Some(beginning) = call.get(..end) {
            tally = tally.with(see(rt, world, beginning, "")?);
        }
    }
    Ok(tally)
}

/// Puts every beginning of a line's call to a world, and returns the tally with them.
fn see_beginnings_of_line<W: World>(
    rt: &HostRuntime,
    world: &mut W,
    tally: Tally,
    line: &str,
) -> io::Result<Tally> {
    match line_of(line) {
        Line::Row(call, _) => see_beginnings(rt, world, tally, call),
        Line::Nothing | Line::Group | Line::NoRow => Ok(tally),
    }
}

/// Puts every beginning of each call in the file `NAME.rows` to a world, all of the call too, which
/// must answer nothing. Each that is answered otherwise is printed, and last how many there were,
/// which is returned too. No group begins.
///
/// # Errors
/// The file can't be read, the output can't be written, or out of memory.
pub fn run_beginnings<W: World>(rt: &HostRuntime, name: &str, world: &mut W) -> io::Result<Tally>
    ensures { IfOk result (λ tally. tally.differ ≤ tally.rows) }
{
    let rows = rows_of(rt, name)?;
    let mut tally = Tally::NONE;
    'rows: for line in rows.lines() {
        tally = see_beginnings_of_line(rt, world, tally, line)?;
    }
    let Tally { rows, differ } = tally;
    println!(rt; "{name}: {rows} beginnings, {differ} answered otherwise")?;
    Ok(tally)
}
