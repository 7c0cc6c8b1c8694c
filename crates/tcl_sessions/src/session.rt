//! Trees with a host in memory.
ghost use Rattle.std.specs.Prelude.{◌≡◌, IfErr, IfOk, IsSome, None, OnOk, [], false};
ghost use Rattle.tcl_host.specs.MemoryHost.{new_host};
ghost use Rattle.tcl_sessions.specs.Outcomes.{nothing_yet};
ghost use Rattle.tcl_sessions.specs.Sessions.{IsStyle, Rests};
ghost use Rattle.tcl_sessions.specs.declared.refusal.Refusal.TheVariants.{CallOpen, Memory};
ghost use Rattle.tcl_tree.specs.TreeOf.{alone, marks_of, new_root, tree_of};

use crate::evaluation::Evaluation;
use crate::outcome::Report;
use crate::refusal::Refusal;
use crate::standing::Standing;
use std::alloc::Global;
use tcl_recorder::record::Record;
use tcl_text::integer::Integers;
use tcl_tree::tree::Tree;

/// What there is of the record of the last evaluation.
#[derive(Drop)]
pub enum Watch {
    /// It wasn't watched, or its record was taken.
    Nothing,
    /// What crossed the boundary of the watched interpreter.
    Recorded(Record),
    /// None, since the watched interpreter was deleted.
    Deleted,
}

/// A tree of interpreters with a host in memory, of which one evaluation at a time may wait for the
/// answer to a call that left the tree. While it waits, the tree is as before the evaluation.
pub struct Session {
    pub(crate) tree: Tree,
    pub(crate) standing: Standing,
    pub(crate) waiting: Option<Evaluation>,
    pub(crate) report: Report,
    pub(crate) watch: Watch,
}

impl Drop for Session {
    fn drop(self) {
        let Session {
            tree: _tree,
            standing: _standing,
            waiting: _waiting,
            report: _report,
            watch: _watch,
        } = self;
    }
}

/// The style of integers of a version of Tcl, 8 or 9.
///
/// # Errors
/// 426 for another number.
pub fn style_of(version: i32) -> Result<Integers, Refusal>
    ensures { IsStyle version result }
{
    match version {
        8 => Ok(Integers::Tcl8),
        9 => Ok(Integers::Tcl9),
        _ => Err(Refusal::NoStyle),
    }
}

impl Session {
    /// A root alone, with the built-in commands, and a host with no files.
    ///
    /// # Errors
    /// 401.
    pub fn new(alloc: Global, integers: Integers) -> Result<Session, Refusal>
        ensures tree { IfOk result (λ made. tree_of made.tree ≡ alone new_root) }
        ensures marks { IfOk result
            (λ made. marks_of made.tree ≡ record { integers = integers; broken = false }) }
        ensures host { IfOk result (λ made. made.standing.host ≡ new_host) }
        ensures rests { IfOk result (λ made. made.waiting ≡ None) }
        ensures report { IfOk result (λ made. made.report ≡ nothing_yet) }
        ensures refused { IfErr result (λ e. e ≡ Memory) }
    {
        Ok(Session {
            tree: Tree::with_integers(alloc, integers)?,
            standing: Standing::new(alloc)?,
            waiting: None,
            report: Report::nothing_yet(alloc)?,
            watch: Watch::Nothing,
        })
    }

    /// What is told of the last evaluation that had an outcome.
    pub fn report(&self) -> &Report
        ensures { result.now ≡ self.now.report }
    {
        &self.report
    }

    /// Nothing, where no call is open.
    ///
    /// # Errors
    /// 424.
    pub(crate) fn at_rest(&self) -> Result<(), Refusal>
        ensures { Rests self.now result }
    {
        match self.waiting {
            None => Ok(()),
            Some(_) => Err(Refusal::CallOpen),
        }
    }
}
