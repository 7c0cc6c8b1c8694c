//! The laws of the language. What the commands mean stands in tcl_language, and the table of them,
//! over which the laws of the core are taken, in tcl_run; each function here is a law of the table.
#![tactic(auto)]

ghost use Rattle.tcl_language.specs.Playing.{PlayIsRun};
ghost use Rattle.tcl_language_laws.specs.Rows.{AreRows};
ghost use Rattle.tcl_language_laws.specs.Safety.{KeepsLimits, KeepsQuiet};

/// Worked scripts give what they must.
pub fn rows()
    ensures { AreRows }
{}

/// What is played is a run.
pub fn play_is_run<O, I>()
    ensures { PlayIsRun O I }
{}

/// Scripts in a safe interpreter whose commands don't reach the host ask the host for nothing.
pub fn safe_scripts_ask_nothing()
    ensures { KeepsQuiet }
{}

/// Scripts in a safe interpreter set no limit.
pub fn safe_scripts_set_no_limit()
    ensures { KeepsLimits }
{}
