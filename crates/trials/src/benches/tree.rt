//! The times of counting steps by place and by path, at four levels, and of copying a few
//! interpreters out of many.
ghost use Rattle.std.specs.Prelude.{List, ℕ};
ghost use Rattle.tcl_tree.specs.TreeOf.{Names};

use crate::benches::measuring::took;
use std::alloc::Global;
use std::io;
use std::time::Instant;
use tcl_text::text::Text;
use tcl_tree::refusal::TreeError;
use tcl_tree::tree::{Place, Tree};

/// How often a step is counted.
const TIMES: u32 = 10_000_000;

/// How often interpreters are copied.
const COPIES: u32 = 1000;

/// Counts so many steps, and says how many were allowed.
fn charge_often(tree: &mut Tree, place: Place) -> u32
    requires { (p : List (List ℕ)) × Names tree.old place p }
{
    let mut allowed = 0u32;
    'times: for _ in 0..TIMES {
        match tree.charge_at(place) {
            Ok(()) => allowed = allowed.wrapping_add(1),
            Err(_) => {}
        }
    }
    allowed
}

/// The same, along the path.
fn charge_along(tree: &mut Tree, path: &[Text]) -> u32 {
    let mut allowed = 0u32;
    'times: for _ in 0..TIMES {
        match tree.charge(path) {
            Ok(()) => allowed = allowed.wrapping_add(1),
            Err(_) => {}
        }
    }
    allowed
}

/// Makes an interpreter three levels below the root, and gives its path.
fn nest_three(alloc: Global, tree: &mut Tree) -> Result<Vec<Text>, TreeError> {
    let mut path = Vec::new(alloc);
    'names: for name in ["a", "b", "c"] {
        let name = Text::new(alloc, name)?;
        tree.create(alloc, path.as_slice(), &name, false)?;
        path.push(name)?;
    }
    Ok(path)
}

/// Counts steps in an interpreter three levels below the root, by its place or along its path.
fn count_in(alloc: Global, tree: &mut Tree, placed: bool) -> Result<u32, TreeError> {
    let path = nest_three(alloc, tree)?;
    if !placed {
        return Ok(charge_along(tree, path.as_slice()));
    }
    let place = tree.nest(path.as_slice())?;
    Ok(charge_often(tree, place))
}

/// The same in a tree of its own.
fn count(alloc: Global, placed: bool) -> Result<u32, TreeError> {
    let mut tree = Tree::new(alloc)?;
    count_in(alloc, &mut tree, placed)
}

/// Counts, and shows how many steps were allowed, and the time.
fn show(rt: &HostRuntime, way: &str, placed: bool) -> io::Result<()> {
    let start = Instant::now(rt)?;
    let allowed = count(rt.alloc(), placed);
    took(rt, way, start)?;
    match allowed {
        Ok(allowed) => println!(rt; "{allowed} steps at four levels by {way}"),
        Err(refusal) => println!(rt; "{refusal:?}"),
    }
}

/// Makes a child of this number in the interpreter at the path.
fn create_numbered(
    tree: &mut Tree,
    alloc: Global,
    path: &[Text],
    number: u32,
) -> Result<Text, TreeError> {
    let name = Text::from_string(alloc, format!(in alloc; "n{number}")?)?;
    tree.create(alloc, path, &name, false)?;
    Ok(name)
}

/// Makes a child of the root with children of its own, numbered from 0.
fn create_parent(
    tree: &mut Tree,
    alloc: Global,
    number: u32,
    children: u32,
) -> Result<(), TreeError> {
    let path = [create_numbered(tree, alloc, &[], number)?];
    'children: for child in 0..children {
        let _name = create_numbered(tree, alloc, &path, child)?;
    }
    Ok(())
}

/// Makes a child of the root with two children, and so many others with 101.
fn widen(tree: &mut Tree, alloc: Global, others: u32) -> Result<(), TreeError> {
    create_parent(tree, alloc, 0, 2)?;
    'others: for number in 0..others {
        create_parent(tree, alloc, number.wrapping_add(1), 101)?;
    }
    Ok(())
}

/// Copies the interpreter at the path, with all below it, so often, and says how many interpreters
/// the copies have together.
fn copy_often(tree: &Tree, path: &[Text]) -> Result<usize, TreeError> {
    let mut copied = 0usize;
    'copies: for _ in 0..COPIES {
        let copy = tree.copy_at(path)?;
        copied = copied.wrapping_add(copy.table().len());
    }
    Ok(copied)
}

/// Copies the child with two children, and shows how many interpreters were copied, out of how
/// many, and the time.
fn show_copied(rt: &HostRuntime, tree: &Tree) -> io::Result<()> {
    let few = [Text::new(rt.alloc(), "n0")?];
    let all = tree.table().len();
    let start = Instant::now(rt)?;
    let copied = copy_often(tree, &few);
    took(rt, "1,000 copies", start)?;
    match copied {
        Ok(copied) => println!(rt; "{copied} interpreters copied out of tables of {all}"),
        Err(refusal) => println!(rt; "{refusal:?}"),
    }
}

/// The same in a tree of so many others.
fn show_copies(rt: &HostRuntime, others: u32) -> io::Result<()> {
    let mut tree = match Tree::new(rt.alloc()) {
        Ok(tree) => tree,
        Err(refusal) => return println!(rt; "{refusal:?}"),
    };
    match widen(&mut tree, rt.alloc(), others) {
        Ok(()) => show_copied(rt, &tree),
        Err(refusal) => println!(rt; "{refusal:?}"),
    }
}

/// Measures steps and copies.
pub(crate) fn measure(rt: &HostRuntime) -> io::Result<()> {
    show(rt, "place", true)?;
    show(rt, "path", false)?;
    show_copies(rt, 0)?;
    show_copies(rt, 98)
}
