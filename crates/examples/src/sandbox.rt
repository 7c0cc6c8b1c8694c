//! A script that nobody trusts, in a safe child with limits of its own and two doors.

use std::alloc::{AllocError, Global};
use tcl_embed::{EmbedError, MemoryHost, Path, Tree, eval, run_text};

/// The child `guest` may make 1,000 steps and evaluate 50 deep, and has two commands of ours.
const SETUP: &str = "interp create -safe guest
guest limit commands -value 1000
guest recursionlimit 50
proc price {name} {list $name costs 7}
interp alias guest price {} price
interp alias guest note {} lappend notes";

/// How a script in the interpreter at the path ends, which may make 10,000 steps.
fn ending(tree: &mut Tree, alloc: Global, path: &Path, script: &str) -> Result<String, AllocError> {
    let mut host = MemoryHost::new(alloc)?;
    let run = eval(tree, alloc, &mut host, path.names(), script, 10_000);
    run_text(alloc, &run)
}

pub(crate) fn run(rt: &HostRuntime) -> Result<(), EmbedError> {
    let alloc = rt.alloc();
    let mut tree = Tree::new(alloc)?;
    let (root, guest) = (Path::root(alloc), Path::parse(alloc, "guest")?);
    println!(rt; "{}", ending(&mut tree, alloc, &root, SETUP)?)?;
    'scripts: for script in ["price tea", "note {tea, please}", "exit", "while 1 {}"] {
        println!(rt; "{}", ending(&mut tree, alloc, &guest, script)?)?;
    }
    println!(rt; "{}", ending(&mut tree, alloc, &root, "set notes")?)?;
    Ok(())
}
