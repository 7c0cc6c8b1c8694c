//! Many strangers, each with a budget of its own: one loops, one recurses, one deletes what it can,
//! and the others go on.

use std::alloc::{AllocError, Global};
use tcl_embed::{EmbedError, MemoryHost, Path, Text, Tree, eval, run_text};

/// The strangers, and their scripts.
const STRANGERS: [(&str, &str); 4] = [
    ("loops", "while 1 {}"),
    ("recurses", "proc f {} {f}; f"),
    (
        "deletes",
        "foreach name [lsearch -all -inline -not -exact [info commands] rename] {rename $name {}}
        set a 1",
    ),
    ("works", "expr {6 * 7}"),
];

/// Makes a safe child of this name, which may make 1,000 steps and evaluate 50 deep.
fn admit(tree: &mut Tree, alloc: Global, name: &str) -> Result<Path, EmbedError> {
    tree.create(alloc, &[], &Text::new(alloc, name)?, true)?;
    let path = Path::parse(alloc, name)?;
    tree.set_limit(&[], path.names(), Some(1_000))?;
    tree.set_depth_limit(&[], path.names(), 50)?;
    Ok(path)
}

/// How a script of a stranger ends, and how many steps the stranger has made by then.
fn ending(tree: &mut Tree, alloc: Global, path: &Path, script: &str) -> Result<String, AllocError> {
    let mut host = MemoryHost::new(alloc)?;
    let run = eval(tree, alloc, &mut host, path.names(), script, 100_000);
    let text = run_text(alloc, &run)?;
    let count = tree.count(path.names()).unwrap_or(0);
    format!(in alloc; "{path}: {text}, {count} steps")
}

pub(crate) fn run(rt: &HostRuntime) -> Result<(), EmbedError> {
    let alloc = rt.alloc();
    let mut tree = Tree::new(alloc)?;
    'strangers: for (name, script) in STRANGERS {
        let path = admit(&mut tree, alloc, name)?;
        println!(rt; "{}", ending(&mut tree, alloc, &path, script)?)?;
    }
    'again: for (name, _) in STRANGERS {
        let path = Path::parse(alloc, name)?;
        println!(rt; "{}", ending(&mut tree, alloc, &path, "set a 2")?)?;
    }
    Ok(())
}
