//! The program that tries the interpreter: it puts all rows, of whole runs and of the layers below
//! them, runs an embedder's programs, and takes the times of the benches. The word `rows`,
//! `examples` or `benches` behind its name asks for these alone.
#![tactic(auto)]

mod benches;
mod rows;

use std::{env, io};
use tcl_embed::EmbedError;

/// What the program does.
#[derive(Clone, Copy)]
enum Part {
    Rows,
    Examples,
    Benches,
}

/// All of it. The rows of whole runs come first: they refuse each allocation of a run in turn.
const PARTS: [Part; 3] = [Part::Rows, Part::Examples, Part::Benches];

impl Part {
    /// The part that a word asks for.
    fn named(word: &str) -> Option<Part> {
        match word {
            "rows" => Some(Part::Rows),
            "examples" => Some(Part::Examples),
            "benches" => Some(Part::Benches),
            _ => None,
        }
    }

    /// Does it.
    fn run(self, rt: &HostRuntime) -> Result<(), EmbedError> {
        match self {
            Part::Rows => {
                rows::run(rt)?;
                tcl_layer_rows::run(rt)?;
            }
            Part::Examples => examples::run(rt)?,
            Part::Benches => benches::measure(rt)?,
        }
        Ok(())
    }
}

/// The part that the program's words ask for, if one of them does.
fn chosen(rt: &HostRuntime) -> io::Result<Option<Part>> {
    'words: for word in env::args(rt)? {
        if let Some(part) = Part::named(word.as_str()) {
            return Ok(Some(part));
        }
    }
    Ok(None)
}

fn main(rt: HostRuntime) -> Result<(), EmbedError> {
    if let Some(part) = chosen(&rt)? {
        return part.run(&rt);
    }
    'parts: for part in PARTS {
        part.run(&rt)?;
    }
    Ok(())
}
