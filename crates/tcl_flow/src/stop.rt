//! What ends evaluations at a limit, or in an interpreter that was deleted.
ghost use Rattle.std.specs.Prelude.{◌≡◌, IfOk, codes};
ghost use Rattle.tcl_core.specs.Endings.{refusal};
ghost use Rattle.tcl_flow.specs.View.{completion_of};
ghost use Rattle.tcl_flow.specs.Stopping.{kind_of};

use crate::completion::{Completion, error};
use crate::messages::{DELETED, short_value};
use std::alloc::{AllocError, Global};
use tcl_text::messages::{COUNT_LIMIT, DEPTH_LIMIT};

/// What a stop is raised for.
#[derive(Clone, Copy, Debug, Drop)]
pub enum StopKind {
    /// A limit of the commands that are called, and the turns of loops.
    Count,
    /// A limit of the evaluations in progress.
    Depth,
    /// The interpreter was deleted while an evaluation was in progress in it.
    Gone,
}

/// A stop: no construct of the interpreters that it ends catches it.
#[derive(Clone, Copy, Debug, Drop)]
pub struct Stop {
    /// How many levels the interpreter that it names stands above the one whose evaluation ends: it
    /// is the one whose limit would be passed, or the highest that is gone.
    pub levels_up: usize,
    /// What it is raised for.
    pub kind: StopKind,
}

impl StopKind {
    /// The error that a stop becomes outside the interpreter that it names: `command count limit
    /// exceeded`, `too many nested evaluations (infinite loop?)`, or `interpreter was deleted`.
    ///
    /// # Errors
    /// Want of memory.
    pub fn error(self, alloc: Global) -> Result<Completion, AllocError>
        ensures { IfOk result (λ c. completion_of c ≡ refusal (kind_of self)) }
    {
        let message = match self {
            StopKind::Count => String::from_str(alloc, COUNT_LIMIT)?,
            StopKind::Depth => String::from_str(alloc, DEPTH_LIMIT)?,
            StopKind::Gone => String::from_str(alloc, DELETED)?,
        };
        Ok(error(short_value(alloc, message)?))
    }
}
