//! Runs with a host. What the code of an evaluation with a host is proved to do is the whole
//! evaluation that tcl_core defines, with replies that belong to the host. The definitions stand in
//! `specs/`, and each function here is a law.
ghost use Rattle.tcl_run_laws.specs.Language.{LanguageKeepsTops};
ghost use Rattle.tcl_run_laws.specs.HostLaws.{RunsAreWhole, ScriptsAreWhole};

use tcl_host::host::Host;

/// What comes of a script with a host is the whole evaluation of that script, with replies that
/// belong to the host; for every table of commands that keeps the limit of steps of a tree's top.
/// `I` is what can be going on in an interpreter.
pub fn runs_are_whole<H: Host, I>()
    ensures { RunsAreWhole I H.step }
{}

/// The commands of the language keep the limit of steps of a tree's top.
pub fn language_keeps_tops()
    ensures { LanguageKeepsTops }
{}

/// What comes of a script in an interpreter that stands, with a host, is the whole evaluation of
/// that script, with replies that belong to the host.
pub fn scripts_are_whole<H: Host>()
    ensures { ScriptsAreWhole H.step }
{}
