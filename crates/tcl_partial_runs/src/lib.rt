//! What is told of a run that was given up on its way stands first in the whole run. The
//! definitions stand in `specs/`, and each function here is a law. `O` is the own part of an
//! interpreter, `I` what can be going on in one, `S` the state of who is told; each law holds for
//! every table of commands.
#![tactic(auto)]

ghost use Rattle.tcl_partial_runs.specs.Beginnings.{BeginningsBegin};
ghost use Rattle.tcl_partial_runs.specs.Example.{WorkedBeginning};
ghost use Rattle.tcl_partial_runs.specs.Keeping.{KeptBegins};

/// What a program makes happen until it is given up is what each run of it begins with.
pub fn beginnings_begin<O, I, S>()
    ensures { BeginningsBegin O I S }
{}

/// What is kept of a program until it is given up is what each run of it begins with.
pub fn kept_begins<O, I>()
    ensures { KeptBegins O I }
{}

/// A worked beginning: a program that is given up when it has asked the host.
pub fn worked_beginning()
    ensures { WorkedBeginning }
{}
