//! Trees of interpreters.
//!
//! A call is a list; one that changes the tree answers `-`, and one that is refused the refusal's
//! name, and must leave the tree as it was. A path is the list of its names. `new` puts a new tree
//! in its place.
//!
//! There is a second tree, which is kept: `keep` makes it a copy of the first, `copy PATH` one of
//! the interpreter at a path with all below it, `swap` exchanges the two, and `same` tells whether
//! they are equal.
use crate::tree_rows::answers::{
    Answer, Told, count, done, given, no_call, refused, truth, written,
};
use crate::tree_rows::paths::at_path;
use crate::tree_rows::words::{number_of, place_of, style_of, words_of};
use row_runner::World;
use std::alloc::{AllocError, Global};
use std::mem::swap;
use tcl_text::text::Text;
use tcl_tree::refusal::TreeError;
use tcl_tree::tree::Tree;

impl Told for TreeError {
    fn show(&self, alloc: Global) -> Result<String, AllocError> {
        format!(in alloc; "{self:?}")
    }
}

/// A root with so many interpreters below it, each named `c`, one below the other.
fn chain(alloc: Global, count: usize) -> Result<Tree, TreeError> {
    let c = Text::new(alloc, "c")?;
    let mut tree = Tree::new(alloc)?;
    let mut place = tree.root();
    'levels: for _ in 0..count {
        tree.create_at(alloc, place, &c, false)?;
        let Some(child) = tree.child_at(place, &c) else {
            return Err(TreeError::NoInterpreter);
        };
        place = child;
    }
    Ok(tree)
}

/// `others COUNT`: makes so many children of the root, `n0`, `n1` and so on, each with a child `c`.
fn make_others(tree: &mut Tree, alloc: Global, count: u64) -> Result<(), TreeError> {
    let c = Text::new(alloc, "c")?;
    'others: for number in 0..count {
        let name = Text::from_string(alloc, format!(in alloc; "n{number}")?)?;
        tree.create(alloc, &[], &name, false)?;
        tree.create(alloc, &[name], &c, false)?;
    }
    Ok(())
}

/// `fill COUNT`: makes so many children of the root, with names that are free.
fn fill(tree: &mut Tree, alloc: Global, count: u64) -> Result<(), TreeError> {
    'children: for _ in 0..count {
        let name = tree.free_name(alloc, &[])?;
        tree.create(alloc, &[], &name, false)?;
    }
    Ok(())
}

/// `run-limit COUNT`: limits the steps of the root, or not where the word is no number.
fn limit_run(tree: &mut Tree, alloc: Global, word: &Text) -> Result<Answer, AllocError> {
    match word.as_str().parse::<u64>() {
        Ok(limit) => tree.set_run_limit(Some(limit)),
        Err(_) => tree.set_run_limit(None),
    }
    given(alloc, "-")
}

/// What a call of no words answers. `break` marks the tree as broken, which `broken` tells, and
/// `size` tells how many interpreters there are.
fn of_none(tree: &mut Tree, alloc: Global, call: &str) -> Result<Answer, AllocError> {
    match call {
        "size" => count(alloc, tree.table().len()),
        "broken" => truth(alloc, tree.is_broken()),
        "break" => {
            tree.mark_broken();
            given(alloc, "-")
        }
        _ => no_call(alloc),
    }
}

/// What a call answers, by its words.
fn answer(tree: &mut Tree, alloc: Global, words: &[Text]) -> Result<Answer, AllocError> {
    match words {
        [call] => of_none(tree, alloc, call.as_str()),
        [call, word] if call.as_str() == "others" => {
            done(alloc, make_others(tree, alloc, number_of(word)))
        }
        [call, word] if call.as_str() == "fill" => done(alloc, fill(tree, alloc, number_of(word))),
        [call, word] if call.as_str() == "run-limit" => limit_run(tree, alloc, word),
        [call, path, others @ ..] => {
            let path = words_of(alloc, path.as_str())?;
            at_path(tree, alloc, call.as_str(), &path, others)
        }
        [] => no_call(alloc),
    }
}

/// An answer, of a tree that was so before. A refused call changes nothing.
fn checked(
    tree: &Tree,
    before: &Tree,
    alloc: Global,
    answer: Answer,
) -> Result<Answer, AllocError> {
    match answer {
        Answer::Refused(_) if !tree.same(before) => given(alloc, "changed"),
        answer => Ok(answer),
    }
}

/// What a call on one tree answers.
fn on_tree(tree: &mut Tree, alloc: Global, words: &[Text]) -> Result<Answer, AllocError> {
    match tree.copy_at(&[]) {
        Ok(before) => {
            let answer = answer(tree, alloc, words)?;
            checked(tree, &before, alloc, answer)
        }
        Err(refusal) => refused(alloc, &refusal),
    }
}

/// A new tree.
fn new(alloc: Global) -> Result<Tree, TreeError> {
    Ok(Tree::new(alloc)?)
}

/// Puts a tree in another one's place.
fn replace(
    alloc: Global,
    old: &mut Tree,
    made: Result<Tree, TreeError>,
) -> Result<Answer, AllocError> {
    match made {
        Ok(tree) => {
            *old = tree;
            given(alloc, "-")
        }
        Err(refusal) => refused(alloc, &refusal),
    }
}

/// A tree, and one that is kept.
pub(crate) struct Trees {
    tree: Tree,
    kept: Tree,
}

impl Drop for Trees {
    fn drop(self) {
        let Trees {
            tree: _tree,
            kept: _kept,
        } = self;
    }
}

impl Trees {
    pub(crate) fn new(alloc: Global) -> Result<Trees, AllocError> {
        Ok(Trees {
            tree: Tree::new(alloc)?,
            kept: Tree::new(alloc)?,
        })
    }

    fn swap(&mut self, alloc: Global) -> Result<Answer, AllocError> {
        swap(&mut self.tree, &mut self.kept);
        given(alloc, "-")
    }

    /// What a call of no words answers.
    fn of_none(&mut self, alloc: Global, call: &Text) -> Result<Answer, AllocError> {
        match call.as_str() {
            "new" => replace(alloc, &mut self.tree, new(alloc)),
            "keep" => replace(alloc, &mut self.kept, self.tree.copy_at(&[])),
            "swap" => self.swap(alloc),
            "same" => truth(alloc, self.tree.same(&self.kept)),
            name => of_none(&mut self.tree, alloc, name),
        }
    }

    /// `style VERSION` makes a new tree with integers as that version of Tcl reads them.
    fn renew(&mut self, alloc: Global, version: &Text) -> Result<Answer, AllocError> {
        self.tree = Tree::with_integers(alloc, style_of(version))?;
        given(alloc, "-")
    }

    /// What a call answers. `chain COUNT` makes a new tree, and `take PATH` makes the tree the copy
    /// of an interpreter in it.
    fn answered(&mut self, alloc: Global, words: &[Text]) -> Result<Answer, AllocError> {
        match words {
            [call] => self.of_none(alloc, call),
            [call, version] if call.as_str() == "style" => self.renew(alloc, version),
            [call, count] if call.as_str() == "chain" => {
                replace(alloc, &mut self.tree, chain(alloc, place_of(count)))
            }
            [call, path] if call.as_str() == "copy" => {
                let path = words_of(alloc, path.as_str())?;
                replace(alloc, &mut self.kept, self.tree.copy_at(&path))
            }
            [call, path] if call.as_str() == "take" => {
                let path = words_of(alloc, path.as_str())?;
                let taken = self.tree.copy_at(&path);
                replace(alloc, &mut self.tree, taken)
            }
            _ => on_tree(&mut self.tree, alloc, words),
        }
    }
}

impl World for Trees {
    fn begin(&mut self, alloc: Global) -> Result<(), AllocError> {
        *self = Trees::new(alloc)?;
        Ok(())
    }

    fn answer(&mut self, alloc: Global, call: &str) -> Result<String, AllocError> {
        let words = words_of(alloc, call)?;
        Ok(written(self.answered(alloc, &words)?))
    }
}
