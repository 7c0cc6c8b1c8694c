//! A stranger is watched, and the record replayed to the stranger as it was before, by itself: what
//! it tells, and what it then is, is what it was.

use std::alloc::Global;
use tcl_embed::evaluation::end_text;
use tcl_embed::replays::{moves_of, replay_lines};
use tcl_embed::saving::{Saved, save};
use tcl_embed::watching::{Record, eval_watched, record_lines};
use tcl_embed::{EmbedError, MemoryHost, Path, Tree, eval};

const SETUP: &str = "interp create -safe guest
proc price {name} {list $name costs 7}
interp alias guest price {} price";

const SCRIPT: &str = "foreach name {tea milk} {lappend bought [price $name]}
llength $bought";

/// Evaluates the stranger's script: how it ends, and what crosses the stranger's boundary.
fn watch(tree: &mut Tree, alloc: Global, guest: &Path) -> Result<(String, Record), EmbedError> {
    let mut host = MemoryHost::new(alloc)?;
    let path = guest.names();
    let (_host, watched) = eval_watched(tree, alloc, &mut host, path, SCRIPT, 1_000, path);
    let (end, record) = watched?;
    Ok((end_text(alloc, &end)?, record))
}

/// What the stranger tells as it was before, to whom the record is replayed, and whether it is then
/// as it is now.
fn replay(
    alloc: Global,
    before: &Saved,
    record: &Record,
    now: &Saved,
) -> Result<(String, bool), EmbedError> {
    let moves = moves_of(alloc, record.crossings())?;
    let replayed = before.replay(alloc, moves.as_slice(), 1_000)?;
    Ok((replay_lines(alloc, &replayed)?, replayed.saved().same(now)))
}

pub(crate) fn run(rt: &HostRuntime) -> Result<(), EmbedError> {
    let alloc = rt.alloc();
    let mut tree = Tree::new(alloc)?;
    let mut host = MemoryHost::new(alloc)?;
    let _ = eval(&mut tree, alloc, &mut host, &[], SETUP, 1_000)?;
    let guest = Path::parse(alloc, "guest")?;
    let before = save(&tree, guest.names())?;
    let (end, record) = watch(&mut tree, alloc, &guest)?;
    println!(rt; "{end}")?;
    print!(rt; "{}", record_lines(alloc, &record)?)?;
    let now = save(&tree, guest.names())?;
    let (told, same) = replay(alloc, &before, &record, &now)?;
    println!(rt; "{told}the same afterwards: {same}")?;
    Ok(())
}
