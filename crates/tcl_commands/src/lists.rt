//! The commands that read and make lists.
ghost use Rattle.std.specs.Prelude.{◌≡◌};
ghost use Rattle.tcl_language.specs.Data.{answered};
ghost use Rattle.tcl_language.specs.Instructions.{gives};
ghost use Rattle.tcl_lists.specs.Joining.{concat_of, join_of};
ghost use Rattle.tcl_lists.specs.Splitting.{split_of};
ghost use Rattle.tcl_lists.specs.Lists.{lindex_of, linsert_of, llength_of, lrange_of, lrepeat_of};
ghost use Rattle.tcl_lists.specs.Lists.{lreplace_of, lreverse_of};
ghost use Rattle.tcl_run.specs.Plain.{Acts};
ghost use Rattle.tcl_run.specs.Runs.{IsLevel};
ghost use Rattle.tcl_lists.specs.Computed.{lsort_of};
ghost use Rattle.tcl_lists.specs.Searching.{lsearch_of};
ghost use Rattle.tcl_text.specs.Writing.{written_list};

use crate::answers::answered;
use std::alloc::Global;
use tcl_lists::{commands, indexes, joining, lengthening, searching, sorting, splitting};
use tcl_run::interruption::Interruption;
use tcl_tree::tree::{Place, Tree};
use tcl_value::value::Value;

/// `list ?arg ...?`: the list of the words. (list(n))
pub fn list(
    tree: &mut Tree,
    alloc: Global,
    place: Place,
    args: &[Value],
) -> Result<Value, Interruption>
    ensures acts { Acts tree.old place (λ _. gives (written_list args.now)) tree.new result }
    ensures level { IsLevel tree.old tree.new }
{
    answered(alloc, commands::list(alloc, args))
}

/// `llength list`: how many elements a list has. (llength(n))
pub fn llength(
    tree: &mut Tree,
    alloc: Global,
    place: Place,
    args: &[Value],
) -> Result<Value, Interruption>
    ensures acts { Acts tree.old place (λ _. answered (llength_of args.now)) tree.new result }
    ensures level { IsLevel tree.old tree.new }
{
    answered(alloc, commands::llength(alloc, args))
}

/// `lindex list ?index ...?`: what stands at an index, at the next index of that, and so on.
/// (lindex(n))
pub fn lindex(
    tree: &mut Tree,
    alloc: Global,
    place: Place,
    args: &[Value],
) -> Result<Value, Interruption>
    ensures acts { Acts tree.old place
        (λ style. answered (lindex_of style args.now)) tree.new result }
    ensures level { IsLevel tree.old tree.new }
{
    answered(alloc, indexes::lindex(alloc, tree.integers(), args))
}

/// `lrange list first last`: the elements from one index to another. (lrange(n))
pub fn lrange(
    tree: &mut Tree,
    alloc: Global,
    place: Place,
    args: &[Value],
) -> Result<Value, Interruption>
    ensures acts { Acts tree.old place
        (λ style. answered (lrange_of style args.now)) tree.new result }
    ensures level { IsLevel tree.old tree.new }
{
    answered(alloc, commands::lrange(alloc, tree.integers(), args))
}

/// `linsert list index ?element ...?`: the list with elements before an index. (linsert(n))
pub fn linsert(
    tree: &mut Tree,
    alloc: Global,
    place: Place,
    args: &[Value],
) -> Result<Value, Interruption>
    ensures acts { Acts tree.old place
        (λ style. answered (linsert_of style args.now)) tree.new result }
    ensures level { IsLevel tree.old tree.new }
{
    answered(alloc, commands::linsert(alloc, tree.integers(), args))
}

/// `lreplace list first last ?element ...?`: the list with elements in the place of those between
/// two indexes. (lreplace(n))
pub fn lreplace(
    tree: &mut Tree,
    alloc: Global,
    place: Place,
    args: &[Value],
) -> Result<Value, Interruption>
    ensures acts { Acts tree.old place
        (λ style. answered (lreplace_of style args.now)) tree.new result }
    ensures level { IsLevel tree.old tree.new }
{
    answered(alloc, commands::lreplace(alloc, tree.integers(), args))
}

/// `lrepeat count ?value ...?`: the list of the words, as often as a count says. (lrepeat(n))
pub fn lrepeat(
    tree: &mut Tree,
    alloc: Global,
    place: Place,
    args: &[Value],
) -> Result<Value, Interruption>
    ensures acts { Acts tree.old place
        (λ style. answered (lrepeat_of style args.now)) tree.new result }
    ensures level { IsLevel tree.old tree.new }
{
    answered(alloc, lengthening::lrepeat(alloc, tree.integers(), args))
}

/// `lreverse list`: the elements from the last to the first. (lreverse(n))
pub fn lreverse(
    tree: &mut Tree,
    alloc: Global,
    place: Place,
    args: &[Value],
) -> Result<Value, Interruption>
    ensures acts { Acts tree.old place (λ _. answered (lreverse_of args.now)) tree.new result }
    ensures level { IsLevel tree.old tree.new }
{
    answered(alloc, commands::lreverse(alloc, args))
}

/// `concat ?arg ...?`: the words without white space at their ends, with a space between any two.
/// (concat(n))
pub fn concat(
    tree: &mut Tree,
    alloc: Global,
    place: Place,
    args: &[Value],
) -> Result<Value, Interruption>
    ensures acts { Acts tree.old place (λ _. answered (concat_of args.now)) tree.new result }
    ensures level { IsLevel tree.old tree.new }
{
    answered(alloc, joining::concat(alloc, args))
}

/// `join list ?joinString?`: the elements of a list with a text between any two. (join(n))
pub fn join(
    tree: &mut Tree,
    alloc: Global,
    place: Place,
    args: &[Value],
) -> Result<Value, Interruption>
    ensures acts { Acts tree.old place (λ _. answered (join_of args.now)) tree.new result }
    ensures level { IsLevel tree.old tree.new }
{
    answered(alloc, joining::join(alloc, args))
}

/// `split string ?splitChars?`: the list of the parts of a text between characters. (split(n))
pub fn split(
    tree: &mut Tree,
    alloc: Global,
    place: Place,
    args: &[Value],
) -> Result<Value, Interruption>
    ensures acts { Acts tree.old place (λ _. answered (split_of args.now)) tree.new result }
    ensures level { IsLevel tree.old tree.new }
{
    answered(alloc, splitting::split(alloc, args))
}

/// `lsearch ?option ...? list pattern`: where the pattern is found in a list, or what fits it.
/// (lsearch(n))
pub fn lsearch(
    tree: &mut Tree,
    alloc: Global,
    place: Place,
    args: &[Value],
) -> Result<Value, Interruption>
    ensures acts { Acts tree.old place (λ _. answered (lsearch_of args.now)) tree.new result }
    ensures level { IsLevel tree.old tree.new }
{
    answered(alloc, searching::lsearch(alloc, args))
}

/// `lsort ?option ...? list`: the elements in order. (lsort(n))
pub fn lsort(
    tree: &mut Tree,
    alloc: Global,
    place: Place,
    args: &[Value],
) -> Result<Value, Interruption>
    ensures acts { Acts tree.old place
        (λ style. answered (lsort_of style args.now)) tree.new result }
    ensures level { IsLevel tree.old tree.new }
{
    answered(alloc, sorting::lsort(alloc, tree.integers(), args))
}
