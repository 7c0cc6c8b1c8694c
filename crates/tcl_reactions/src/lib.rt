//! What a tree does to which a list of moves is played. The definitions stand in `specs/`, and each
//! function here is a law. `O` is the own part of an interpreter, `I` what can be going on in one;
//! each law holds for every table of commands.
#![tactic(auto)]

ghost use Rattle.tcl_reactions.specs.Example.{WorkedMisfits, WorkedPlayings};
ghost use Rattle.tcl_reactions.specs.Laws.{DepthsStay, MovesReact, NeverStuck, OneOutcome};
ghost use Rattle.tcl_reactions.specs.Laws.{PlayedIsReact, ReactsBefore};

/// What comes of playing moves to a tree is what that tree does by itself with them.
pub fn played_is_react<O, I>()
    ensures { PlayedIsReact O I }
{}

/// What comes of a life to which an outside hands in entries, with a budget of steps, is what the
/// tree does by itself with the moves that the outside makes.
pub fn moves_react<O, I, S>()
    ensures { MovesReact O I S }
{}

/// A tree, moves and a budget come to one outcome, whichever of the six it is.
pub fn one_outcome<O, I>()
    ensures { OneOutcome O I }
{}

/// Wherever control comes into a subtree in a whole evaluation, there is what the subtree does by
/// itself with the moves until then.
pub fn reacts_before<O, I>()
    ensures { ReactsBefore O I }
{}

/// What is played leaves each depth as it was.
pub fn depths_stay<O, I>()
    ensures { DepthsStay O I }
{}

/// Who plays entries and answers is never at a loss.
pub fn never_stuck<O>()
    ensures { NeverStuck O }
{}

/// Worked playings: one of each outcome.
pub fn worked_playings()
    ensures { WorkedPlayings }
{}

/// Worked misfits: what answers no request, and what no alias.
pub fn worked_misfits()
    ensures { WorkedMisfits }
{}
