//! Calls of commands that evaluate nothing and ask nobody.
ghost use Rattle.std.specs.Prelude.{◌≡◌, true, false};
ghost use Rattle.tcl_core.specs.Paths.{Path};
ghost use Rattle.tcl_language.specs.Table.{builtin as program_of};
ghost use Rattle.tcl_run.specs.Plain.{Acts};
ghost use Rattle.tcl_run.specs.Runs.{IsLevel};
ghost use Rattle.tcl_tree.specs.TreeOf.{Names};
ghost use Rattle.tcl_commands.specs.Kinds.{is_effectful, is_plain};

use crate::arrays::array;
use crate::assigning::lassign;
use crate::changing::lset;
use crate::definitions::proc;
use crate::ends::{breaks, continues, error, returns, throw};
use crate::exits::exit;
use crate::growing::{append, lappend};
use crate::inspection::info;
use crate::links::{global, upvar};
use crate::lists::{
    concat, join, lindex, linsert, list, llength, lrange, lrepeat, lreplace, lreverse, lsearch,
    lsort, split,
};
use crate::texts::{format, string};
use crate::unsetting::unset;
use crate::variables::{incr, set};
use std::alloc::Global;
use tcl_run::interruption::Interruption;
use tcl_tree::builtin::Builtin;
use tcl_tree::tree::{Place, Tree};
use tcl_value::value::Value;

/// Calls a built-in command that evaluates nothing and asks nobody.
///
/// # Errors
/// Those of the command; want of memory.
pub fn call_plain(
    tree: &mut Tree,
    alloc: Global,
    place: Place,
    builtin: Builtin,
    args: &[Value],
) -> Result<Value, Interruption>
    requires names { (p : Path) × Names tree.old place p }
    requires plain { is_plain builtin ≡ true }
    ensures acts { Acts tree.old place
        (λ style. program_of style builtin args.now) tree.new result }
    ensures level { IsLevel tree.old tree.new }
{
    match builtin {
        Builtin::Set => set(tree, alloc, place, args),
        Builtin::Unset => unset(tree, alloc, place, args),
        Builtin::Incr => incr(tree, alloc, place, args),
        Builtin::Append => append(tree, alloc, place, args),
        Builtin::Lappend => lappend(tree, alloc, place, args),
        Builtin::Lassign => lassign(tree, alloc, place, args),
        Builtin::Lset => lset(tree, alloc, place, args),
        Builtin::Array => array(tree, alloc, place, args),
        Builtin::Global => global(tree, alloc, place, args),
        Builtin::Upvar => upvar(tree, alloc, place, args),
        Builtin::Proc => proc(tree, alloc, place, args),
        Builtin::Info => info(tree, alloc, place, args),
        Builtin::Break => breaks(tree, alloc, place, args),
        Builtin::Continue => continues(tree, alloc, place, args),
        Builtin::Error => error(tree, alloc, place, args),
        Builtin::Throw => throw(tree, alloc, place, args),
        Builtin::Return => returns(tree, alloc, place, args),
        Builtin::Exit => exit(tree, alloc, place, args),
        other => call_pure(tree, alloc, place, other, args),
    }
}

/// Calls a built-in command that gives what is a function of its words.
fn call_pure(
    tree: &mut Tree,
    alloc: Global,
    place: Place,
    builtin: Builtin,
    args: &[Value],
) -> Result<Value, Interruption>
    requires plain { is_plain builtin ≡ true }
    requires quiet { is_effectful builtin ≡ false }
    ensures acts { Acts tree.old place
        (λ style. program_of style builtin args.now) tree.new result }
    ensures level { IsLevel tree.old tree.new }
{
    match builtin {
        Builtin::List => list(tree, alloc, place, args),
        Builtin::Llength => llength(tree, alloc, place, args),
        Builtin::Lindex => lindex(tree, alloc, place, args),
        Builtin::Lrange => lrange(tree, alloc, place, args),
        Builtin::Linsert => linsert(tree, alloc, place, args),
        Builtin::Lreplace => lreplace(tree, alloc, place, args),
        Builtin::Lrepeat => lrepeat(tree, alloc, place, args),
        Builtin::Lreverse => lreverse(tree, alloc, place, args),
        Builtin::Concat => concat(tree, alloc, place, args),
        Builtin::Join => join(tree, alloc, place, args),
        Builtin::Split => split(tree, alloc, place, args),
        Builtin::Lsearch => lsearch(tree, alloc, place, args),
        Builtin::Lsort => lsort(tree, alloc, place, args),
        Builtin::String => string(tree, alloc, place, args),
        Builtin::Format => format(tree, alloc, place, args),
        _ => unreachable!(),
    }
}
