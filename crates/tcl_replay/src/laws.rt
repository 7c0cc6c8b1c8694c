//! Laws of evaluations that were watched: of two in two worlds, whose hosts are `G` and `H`, and of
//! many in one.
ghost use Rattle.tcl_replay.specs.Series.{RunsStayWithin};
ghost use Rattle.tcl_replay.specs.Worlds.{RecordsAgree, RecordsAgreeUntil};

use tcl_host::host::Host;
use tcl_isolation::laws::scripts_stay_within;

/// In two worlds in which the watched subtrees are the same, and all moves of the records, the
/// records are the same, and the subtrees left: whatever else is different, the trees around them,
/// the scripts, where these were evaluated, and the hosts. No entry into either was ended from
/// outside.
pub fn records_agree<G: Host, H: Host>()
    ensures { RecordsAgree G.step H.step }
{}

/// And where the moves begin with the same, so do the records.
pub fn records_agree_until<G: Host, H: Host>()
    ensures { RecordsAgreeUntil G.step H.step }
{}

/// A watched interpreter with a count limit makes, in any number of evaluations, no more steps than
/// lead from its count to that limit, and none where its count is past it; where neither an entry
/// of a record nor whoever holds the tree raises the limit or takes it away.
pub fn runs_stay_within<H: Host>()
    ensures { RunsStayWithin H.step }
{
    scripts_stay_within::<H>();
}
