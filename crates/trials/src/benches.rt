//! The times of the layers below scripts, of scripts, and of watching and replaying them. The name
//! of a part behind the program's name picks it. What comes of the work goes to standard output and
//! the times to standard error, so that standard output stays the same. The word `full` asks for
//! the sizes of scripts that docs/PERFORMANCE.md tells of.
mod expressions;
mod frames;
mod measuring;
mod replay;
mod running;
mod scripts;
mod tree;
mod values;

use crate::benches::running::Size;
use std::{env, io};

/// What times are taken of.
#[derive(Clone, Copy)]
enum Part {
    Expressions,
    Tree,
    Values,
    Frames,
    Commands,
    Scripts,
    Replay,
}

/// All of them, in the order in which their times are taken.
const PARTS: [Part; 7] = [
    Part::Expressions,
    Part::Tree,
    Part::Values,
    Part::Frames,
    Part::Commands,
    Part::Scripts,
    Part::Replay,
];

impl Part {
    /// The part that is called so.
    fn named(name: &str) -> Option<Part> {
        match name {
            "expressions" => Some(Part::Expressions),
            "tree" => Some(Part::Tree),
            "values" => Some(Part::Values),
            "frames" => Some(Part::Frames),
            "commands" => Some(Part::Commands),
            "scripts" => Some(Part::Scripts),
            "replay" => Some(Part::Replay),
            _ => None,
        }
    }

    /// Takes the part's times.
    fn measure(self, rt: &HostRuntime, size: Size) -> io::Result<()> {
        match self {
            Part::Expressions => expressions::measure(rt),
            Part::Tree => tree::measure(rt),
            Part::Values => values::measure(rt),
            Part::Frames => frames::measure(rt),
            Part::Commands => scripts::measure(rt, "commands.txt", size),
            Part::Scripts => scripts::measure(rt, "scripts.txt", size),
            Part::Replay => replay::measure(rt, size),
        }
    }
}

/// Takes the times of all parts.
fn measure_all(rt: &HostRuntime, size: Size) -> io::Result<()> {
    'parts: for part in PARTS {
        part.measure(rt, size)?;
    }
    Ok(())
}

/// What the program's words ask for.
#[derive(Clone, Copy)]
struct Choice {
    /// The part that is picked, or all.
    part: Option<Part>,
    size: Size,
}

impl Choice {
    /// The same with what a word asks for.
    fn with(self, word: &str) -> Choice {
        let Choice { part, size } = self;
        if word == "full" {
            return Choice {
                part,
                size: Size::Full,
            };
        }
        match Part::named(word) {
            None => self,
            part => Choice { part, size },
        }
    }
}

/// What the program's words ask for.
fn chosen(rt: &HostRuntime) -> io::Result<Choice> {
    let mut choice = Choice {
        part: None,
        size: Size::Small,
    };
    'words: for word in env::args(rt)? {
        choice = choice.with(word.as_str());
    }
    Ok(choice)
}

/// Takes the times that the program's words ask for.
///
/// # Errors
/// Out of memory, and what reading a file or writing to standard output or error may answer.
pub fn measure(rt: &HostRuntime) -> io::Result<()> {
    let Choice { part, size } = chosen(rt)?;
    match part {
        Some(part) => part.measure(rt, size),
        None => measure_all(rt, size),
    }
}
