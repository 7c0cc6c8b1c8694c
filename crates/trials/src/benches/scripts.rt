//! The times of the scripts of a file of rows. Each line has a name, how often the script does its
//! work (in a small run and in a full one), and the script, in which `$count` is that number.
use crate::benches::measuring::took;
use crate::benches::running::{Size, result_of, run};
use std::alloc::{AllocError, Global};
use std::time::Instant;
use std::{fs, io};
use tcl_tree::tree::Tree;

/// A script that is measured.
#[derive(Clone, Copy)]
struct Bench<'a> {
    name: &'a str,
    /// How often it does its work in a small run.
    small: &'a str,
    /// How often it does its work in a full run.
    full: &'a str,
    script: &'a str,
}

impl<'a> Bench<'a> {
    /// What a line has, where it has all four.
    fn of_line(line: &'a str) -> Option<Bench<'a>> {
        let (name, behind_name) = line.split_once(" | ")?;
        let (small, behind_small) = behind_name.split_once(" | ")?;
        let (full, script) = behind_small.split_once(" | ")?;
        Some(Bench {
            name,
            small,
            full,
            script,
        })
    }

    /// The script with the number of a size.
    fn text(&self, alloc: Global, size: Size) -> Result<String, AllocError> {
        let count = match size {
            Size::Small => self.small,
            Size::Full => self.full,
        };
        let script = self.script;
        format!(in alloc; "set count {count}; {script}")
    }
}

/// The text of the result of a script in a tree of its own.
fn result(alloc: Global, script: &str) -> Result<String, AllocError> {
    let mut tree = Tree::new(alloc)?;
    let ended = run(alloc, &mut tree, script)?;
    result_of(alloc, ended)
}

/// Runs a script: its result goes to standard output, and how long it took to standard error.
fn measure_script(rt: &HostRuntime, bench: &Bench<'_>, size: Size) -> io::Result<()> {
    let alloc = rt.alloc();
    let script = bench.text(alloc, size)?;
    let start = Instant::now(rt)?;
    let text = result(alloc, script.as_str())?;
    took(rt, bench.name, start)?;
    let name = bench.name;
    println!(rt; "{name}: {text}")
}

/// Measures each script of a file.
pub(crate) fn measure(rt: &HostRuntime, file: &str, size: Size) -> io::Result<()> {
    let file = fs::read_to_string(rt, file)?;
    'lines: for line in file.as_str().lines() {
        if let Some(bench) = Bench::of_line(line) {
            measure_script(rt, &bench, size)?;
        }
    }
    Ok(())
}
