//! Functions of our own that a stranger calls: one answers, and one first evaluates in its caller.

use std::alloc::{AllocError, Global};
use tcl_embed::functions::{Action, Call, Functions, WithFunctions, set_function};
use tcl_embed::{EmbedError, MemoryHost, Path, Text, Tree, open_run, open_run_text};

/// A shop, which keeps nothing.
#[derive(Drop)]
struct Shop {}

impl Functions for Shop {
    // what the shop does is promised to nobody
    ghost serves = { λ old call action new. Unit {0} };

    fn call(&mut self, alloc: Global, call: &Call) -> Result<Action, AllocError> {
        if call.name(alloc)?.as_str() == "price" {
            return Action::answer(alloc, "costs 7");
        }
        twice(alloc, call)
    }
}

/// Evaluates a script in its caller two times, and answers with the second result.
fn twice(alloc: Global, call: &Call) -> Result<Action, AllocError> {
    match (call.replies.as_slice(), call.args()) {
        ([_, second, ..], _) => Action::answer(alloc, second.text.text(alloc)?.as_str()),
        (_, [script]) => {
            let script = script.text(alloc)?;
            Action::eval(alloc, call.caller.as_slice(), script.as_str())
        }
        _ => Action::wrong_args(alloc, "twice script"),
    }
}

/// Gives an interpreter a command that calls the shop's function of the same name.
fn open_door(tree: &mut Tree, alloc: Global, path: &Path, name: &str) -> Result<(), EmbedError> {
    Ok(set_function(tree, alloc, path.names(), name, name)?)
}

pub(crate) fn run(rt: &HostRuntime) -> Result<(), EmbedError> {
    let alloc = rt.alloc();
    let mut tree = Tree::new(alloc)?;
    tree.create(alloc, &[], &Text::new(alloc, "guest")?, true)?;
    let guest = Path::parse(alloc, "guest")?;
    open_door(&mut tree, alloc, &guest, "price")?;
    open_door(&mut tree, alloc, &guest, "twice")?;
    let mut shop = WithFunctions::new(alloc, Shop {}, MemoryHost::new(alloc)?);
    'scripts: for script in ["price tea", "twice {twice {incr n}}", "twice"] {
        let run = open_run(&mut tree, alloc, &mut shop, guest.names(), script, 1_000);
        println!(rt; "{}", open_run_text(alloc, &run)?)?;
    }
    Ok(())
}
