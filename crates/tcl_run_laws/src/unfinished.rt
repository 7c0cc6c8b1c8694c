//! Runs with a host that are given up on their way, as for want of memory. What the host was asked
//! until then is what the whole evaluation asks it first. The definitions stand in `specs/`, and
//! each function here is a law.
ghost use Rattle.tcl_run_laws.specs.UnfinishedLaws.{RunsBegin, ScriptsBegin};

use tcl_host::host::Host;

/// What a host was asked by a script that was given up on its way is what the whole evaluation of
/// that script begins with, for every table of commands. `I` is what can be going on in an
/// interpreter.
pub fn runs_begin<H: Host, I>()
    ensures { RunsBegin I H.step }
{}

/// What a host was asked by a script in an interpreter that stands, until it was given up, is what
/// the whole evaluation of that script begins with.
pub fn scripts_begin<H: Host>()
    ensures { ScriptsBegin H.step }
{}
