//! The laws of isolation, as a server has them: it has the trees before and after an evaluation,
//! the outside, and the record of what crossed the boundary of one interpreter, and no list of all
//! that happened. `O` and `P` are outsides, `H` is a host, and `I` is what can be going on in an
//! interpreter: the laws hold for every table of commands, but for those of scripts, at the end.
ghost use Rattle.tcl_isolation.specs.Laws.{CountRises, CountStaysWithin, EntriesAreVisits};
ghost use Rattle.tcl_isolation.specs.Laws.{LeavesTheHost, LeavesTheRest, QuietBetween, Reacts};
ghost use Rattle.tcl_isolation.specs.Laws.{ReactsSo, ReactsThere, ReactsToDrop, ReactsUntil};
ghost use Rattle.tcl_isolation.specs.Laws.{WorldsAgree, WorldsAgreeUntil};
ghost use Rattle.tcl_isolation.specs.Scripts.{AsksTheHostNothing, LimitsStay, ScriptsStayWithin};

use tcl_host::host::Host;
use tcl_language_laws::{safe_scripts_ask_nothing, safe_scripts_set_no_limit};
use tcl_run::outside::Outside;

/// What code executes in an entry is a watched visit, if the watched interpreter isn't dropped in
/// it.
pub fn entries_are_visits<O: Outside, I>()
    ensures { EntriesAreVisits I O.goes }
{}

/// What an evaluation anywhere in the tree does in the watched subtree is what that subtree does by
/// itself with the moves of the record.
pub fn reacts<O: Outside, I>()
    ensures { Reacts I O.goes }
{}

/// And that is all that the subtree does by itself with these moves.
pub fn reacts_so<O: Outside, I>()
    ensures { ReactsSo I O.goes }
{}

/// Where an entry was ended from outside, what the record tells before that is what the subtree
/// does by itself with the moves before: where control comes in, there is such a reaction, and it
/// tells just that; elsewhere each that there is begins so.
pub fn reacts_until<O: Outside, I>()
    ensures { ReactsUntil I O.goes }
{}

/// And where control comes in, that leaves the subtree as it stands there.
pub fn reacts_there<O: Outside, I>()
    ensures { ReactsThere I O.goes }
{}

/// Where the watched interpreter is dropped, it or one above it, what the record tells until then
/// is what the subtree does by itself with the moves until then: it has done what it was asked for,
/// or it waits at a call that is open. That leaves the subtree as it stood when it was dropped.
pub fn reacts_to_drop<O: Outside, I>()
    ensures { ReactsToDrop I O.goes }
{}

/// From an entry into the watched subtree, or an answer to a call of it, to the next call or end
/// that leaves it, nothing outside it changes, and the host doesn't. (For the tree alone this is
/// `quiet_outside` of `tcl_core`, whatever the outside.)
pub fn quiet_between<H: Host, I>()
    ensures { QuietBetween I H.step }
{}

/// Where the evaluation is in the watched subtree and the record has no call, all outside the
/// subtree is afterwards what it was.
pub fn leaves_the_rest<O: Outside, I>()
    ensures { LeavesTheRest I O.goes }
{}

/// And so is the host.
pub fn leaves_the_host<H: Host, I>()
    ensures { LeavesTheHost I H.step }
{}

/// In two worlds in which the watched subtrees are the same, and all moves of the records, the
/// records are the same, and the subtrees left.
pub fn worlds_agree<O: Outside, P: Outside, I>()
    ensures { WorldsAgree I O.goes P.goes }
{}

/// And where the moves begin with the same, so do the records.
pub fn worlds_agree_until<O: Outside, P: Outside, I>()
    ensures { WorldsAgreeUntil I O.goes P.goes }
{}

/// The watched interpreter's count rises by the steps that were made in its subtree.
pub fn count_rises<O: Outside, I>()
    ensures { CountRises I O.goes }
{}

/// With a count limit that nothing raises or takes away, it is counted at most to the greater of
/// the limit and the count before.
pub fn count_stays_within<O: Outside, I>()
    ensures { CountStaysWithin I O.goes }
{}

/// Scripts in a safe watched interpreter with no host command in its subtree ask the host for
/// nothing, where no entry of the record exposes one.
pub fn asks_the_host_nothing<O: Outside>()
    ensures { AsksTheHostNothing O.goes }
{
    safe_scripts_ask_nothing()
}

/// Scripts in a safe watched interpreter change no limit.
pub fn limits_stay<O: Outside>()
    ensures { LimitsStay O.goes }
{
    safe_scripts_set_no_limit()
}

/// A watched interpreter with a count limit that no entry of the record raises or takes away, safe
/// or trusted, is counted at most to the greater of the limit and the count before.
pub fn scripts_stay_within<O: Outside>()
    ensures { ScriptsStayWithin O.goes }
{}
