//! What a whole evaluation counts, and which limits it keeps. The definitions stand in `specs/`,
//! and each function here is a law. `O` is the own part of an interpreter and `I` what can be going
//! on in one: the laws over them hold for every table of commands.
ghost use Rattle.tcl_run_laws.specs.BudgetLaws.{DepthsHold, LimitsHold, RootsCount};
ghost use Rattle.tcl_run_laws.specs.BudgetLaws.{ScriptsKeepBudgets, ScriptsSetNoLimit};
ghost use Rattle.tcl_run_laws.specs.BudgetLaws.{StepsAreBounded, StepsAreCounted, StopsHold};
ghost use Rattle.tcl_run_laws.specs.BudgetLaws.{TablesAreOrderly};

use tcl_language_laws::safe_scripts_set_no_limit;

/// A whole evaluation makes at most as many counted steps as it may.
pub fn steps_are_bounded<O, I>()
    ensures { StepsAreBounded O I }
{}

/// The count of the root rises by all steps that are made, and afterwards the root has its own
/// limit of steps.
pub fn roots_count<O, I>()
    ensures { RootsCount O I }
{}

/// The count of an interpreter rises by the steps that are made in its subtree.
pub fn steps_are_counted<O, I>()
    ensures { StepsAreCounted O I }
{}

/// No count passes a limit that nothing raises or takes away.
pub fn limits_hold<O, I>()
    ensures { LimitsHold O I }
{}

/// Once a stop that names an interpreter or one above it is raised in its subtree, or comes into
/// it, no step is made there before it has left.
pub fn stops_hold<O, I>()
    ensures { StopsHold O I }
{}

/// Each interpreter is in use afterwards as deeply as before where neither it nor one above it is
/// dropped meanwhile, and in any case so deeply or not at all.
pub fn depths_hold<O, I>()
    ensures { DepthsHold O I }
{}

/// In the subtree of a safe interpreter no script changes a limit.
pub fn scripts_set_no_limit()
    ensures { ScriptsSetNoLimit }
{
    safe_scripts_set_no_limit()
}

/// A script, evaluated anywhere in a tree, keeps the budgets of all its interpreters.
pub fn scripts_keep_budgets()
    ensures { ScriptsKeepBudgets }
{
    safe_scripts_set_no_limit()
}

/// In a table of interpreters the top stands, above each that stands all stand, and below a safe
/// one all are safe.
pub fn tables_are_orderly()
    ensures { TablesAreOrderly }
{}
