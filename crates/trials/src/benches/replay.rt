//! The times of watching and of replaying: a safe child that calls its parent by an alias,
//! evaluated unwatched, watched, and replayed by itself.
use crate::benches::measuring::took;
use crate::benches::running::{STEPS, Size, result_of, run};
use std::alloc::{AllocError, Global};
use std::io;
use std::time::Instant;
use tcl_eval::running::End;
use tcl_host::memory::MemoryHost;
use tcl_player::moves::{Move, moves_of};
use tcl_recorder::record::Record;
use tcl_replay::replaying::{Replayed, Unplayed};
use tcl_replay::saving::{Saved, save};
use tcl_replay::watching::{Unwatched, eval_watched};
use tcl_text::text::Text;
use tcl_tree::tree::Tree;

/// How often the child calls.
fn calls_of(size: Size) -> u32 {
    match size {
        Size::Small => 20_000,
        Size::Full => 200_000,
    }
}

/// A safe child `c` with an alias to a procedure of the root.
const CHILD: &str = "interp create -safe c; proc take x {return $x}; interp alias c take {} take";

/// A tree in which the child stands.
fn planted(alloc: Global) -> Result<Tree, AllocError> {
    let mut tree = Tree::new(alloc)?;
    let _alias = run(alloc, &mut tree, CHILD)?;
    Ok(tree)
}

/// The path of the child.
fn path_of_child(alloc: Global) -> Result<[Text; 1], AllocError> {
    Ok([Text::new(alloc, "c")?])
}

/// The child calls so often.
fn calling(alloc: Global, calls: u32) -> Result<String, AllocError> {
    format!(in alloc; "c eval {{for {{set i 0}} {{$i < {calls}}} {{incr i}} {{take $i}}; set i}}")
}

/// The record of a script in the root in which the child is watched.
fn watch(
    alloc: Global,
    tree: &mut Tree,
    script: &str,
) -> Result<Result<(End, Record), Unwatched>, AllocError> {
    let host = MemoryHost::new(alloc)?;
    let path = path_of_child(alloc)?;
    let (_, given) = eval_watched(tree, alloc, host, &[], script, STEPS, &path);
    Ok(given)
}

/// The moves of a record; none where there is no record.
fn moves_recorded(
    alloc: Global,
    given: Result<(End, Record), Unwatched>,
) -> Result<Vec<Move>, AllocError> {
    match given {
        Ok((_, record)) => moves_of(alloc, record.crossings()),
        Err(_) => Ok(Vec::new(alloc)),
    }
}

/// The child by itself.
fn saved(alloc: Global) -> Result<Saved, AllocError> {
    let tree = planted(alloc)?;
    let path = path_of_child(alloc)?;
    match save(&tree, &path) {
        Ok(saved) => Ok(saved),
        Err(_) => Err(AllocError),
    }
}

/// What came of moves, in writing.
fn outcome_of(alloc: Global, played: Result<Replayed, Unplayed>) -> Result<String, AllocError> {
    match played {
        Ok(replayed) => {
            let outcome = replayed.outcome();
            let told = replayed.outwards().len();
            format!(in alloc; "{outcome:?}, {told} told")
        }
        Err(_) => String::from_str(alloc, "no outcome"),
    }
}

/// Runs the script unwatched: what comes of it goes to standard output, and how long it took to
/// standard error.
fn measure_unwatched(rt: &HostRuntime, script: &str) -> io::Result<()> {
    let mut tree = planted(rt.alloc())?;
    let start = Instant::now(rt)?;
    let ended = run(rt.alloc(), &mut tree, script)?;
    took(rt, "unwatched", start)?;
    let text = result_of(rt.alloc(), ended)?;
    println!(rt; "unwatched: {text}")
}

/// The same while the child is watched, whose moves it gives.
fn measure_watched(rt: &HostRuntime, script: &str) -> io::Result<Vec<Move>> {
    let mut tree = planted(rt.alloc())?;
    let start = Instant::now(rt)?;
    let given = watch(rt.alloc(), &mut tree, script)?;
    took(rt, "watched", start)?;
    let moves = moves_recorded(rt.alloc(), given)?;
    let count = moves.len();
    println!(rt; "watched: {count} moves")?;
    Ok(moves)
}

/// The same of the moves that are played to the child by itself.
fn measure_replayed(rt: &HostRuntime, moves: &[Move]) -> io::Result<()> {
    let child = saved(rt.alloc())?;
    let start = Instant::now(rt)?;
    let played = child.replay(rt.alloc(), moves, STEPS);
    took(rt, "replayed", start)?;
    let text = outcome_of(rt.alloc(), played)?;
    println!(rt; "replayed: {text}")
}

/// Measures a child's calls unwatched, watched and replayed.
pub(crate) fn measure(rt: &HostRuntime, size: Size) -> io::Result<()> {
    let script = calling(rt.alloc(), calls_of(size))?;
    measure_unwatched(rt, script.as_str())?;
    let moves = measure_watched(rt, script.as_str())?;
    measure_replayed(rt, moves.as_slice())
}
