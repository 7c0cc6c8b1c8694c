//! The laws of boundaries, and of recorders. `O` is the own part of an interpreter, `I` what can be
//! going on in one; the laws of runs hold for every table of commands.
ghost use Rattle.tcl_recorder.specs.Laws.{BoundaryCrossings, BoundaryMoves, BoundaryOuts};
ghost use Rattle.tcl_recorder.specs.Laws.{BoundaryParts, EntriesAreWatched, FateParts};
ghost use Rattle.tcl_recorder.specs.Laws.{FatesAreTold, GivenUpUnwatched, OneEnd};
ghost use Rattle.tcl_recorder.specs.Laws.{RecordsTheBoundary, RunsAreWatched, RunsUnwatched};
ghost use Rattle.tcl_recorder.specs.Laws.{UpToTheDrop, VisitsAreWatched};

use tcl_run::outside::Outside;

/// What a boundary hands to its subtree is what the subtree is handed, but that it is made or
/// dropped.
pub fn boundary_moves<O>()
    ensures { BoundaryMoves O }
{}

/// What a boundary tells of its subtree is all that is told of it.
pub fn boundary_outs<O>()
    ensures { BoundaryOuts O }
{}

/// A boundary is put together in order.
pub fn boundary_parts<O>()
    ensures { BoundaryParts O }
{}

/// Nothing but crossings is in a boundary.
pub fn boundary_crossings<O>()
    ensures { BoundaryCrossings O }
{}

/// The crossings in a boundary are those with exactly one end in its subtree; in that of the whole
/// tree there are entries besides that find nobody.
pub fn one_end<O>()
    ensures { OneEnd O }
{}

/// Where an interpreter wasn't dropped before, it wasn't after some happenings just where they
/// spare it.
pub fn fates_are_told()
    ensures { FatesAreTold }
{}

/// Whether an interpreter was dropped is told in order.
pub fn fate_parts()
    ensures { FateParts }
{}

/// What happens while an interpreter is there is all, where it isn't dropped; else what happens up
/// to where first it is dropped, or one above it.
pub fn up_to_the_drop()
    ensures { UpToTheDrop }
{}

/// What happens while an outside is recorded takes the outside as if nobody recorded it. Where
/// nothing is missing from the record, its boundary is added to that up to where the watched
/// interpreter is dropped, and it is told whether it was.
pub fn records_the_boundary<O: Outside>()
    ensures { RecordsTheBoundary O.goes }
{}

/// A run with a recorder is a run over a tape whose boundary is added to the record, up to where
/// the watched interpreter is dropped; and it is told whether it was.
pub fn runs_are_watched<O: Outside, I>()
    ensures { RunsAreWatched I O.goes }
{}

/// What comes of a program with a recorder comes of it without.
pub fn runs_unwatched<O: Outside, I>()
    ensures { RunsUnwatched I O.goes }
{}

/// What is given up with a recorder on its way, as for want of memory, is given up so without.
pub fn given_up_unwatched<O: Outside, I>()
    ensures { GivenUpUnwatched I O.goes }
{}

/// An entry from outside of the tree that a recorder is told of, with all that happens in it, is a
/// visit over a tape whose boundary is added to the record, up to where the watched interpreter is
/// dropped.
pub fn visits_are_watched<O: Outside, I>()
    ensures { VisitsAreWatched I O.goes }
{}

/// The same of an entry of which the outside that the recorder holds isn't told.
pub fn entries_are_watched<O: Outside, I>()
    ensures { EntriesAreWatched I O.goes }
{}
