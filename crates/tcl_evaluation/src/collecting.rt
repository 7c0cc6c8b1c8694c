//! The loop that keeps the results of its body.
ghost use Rattle.tcl_language.specs.Control as control;
ghost use Rattle.tcl_run.specs.Ends.{OnCompletion};
ghost use Rattle.tcl_run.specs.Runs.{IsHere, IsRunning, Keeps, ProceedsIn, ways};

use crate::evaluation::eval_read;
use std::alloc::Global;
use tcl_calls::collecting::{collected, collects};
use tcl_calls::walks::{LMAP, is_over, loop_words, read_walks, set_walks};
use tcl_run::failure::wrong_args;
use tcl_run::interruption::Interruption;
use tcl_run::outside::Outside;
use tcl_run::steps::charge;
use tcl_tree::tree::{Place, Tree};
use tcl_value::list::List;
use tcl_value::value::Value;

/// `lmap varList list ?varList list ...? command`: as `foreach`; returns the list of the results of
/// the turns that ended ordinarily. (lmap(n))
///
/// # Errors
/// 241; 101 to 104 of the lists; 232, 233 and 238 of the variables; 122 of the list; the stop 308;
/// those of the body but for `break` and `continue`; want of memory.
#[cycle(eval)]
#[inline(never)]
pub fn lmap<O: Outside>(
    tree: &mut Tree,
    alloc: Global,
    outside: &mut O,
    place: Place,
    args: &[Value],
) -> Result<Value, Interruption>
    requires { IsRunning tree.old place }
    ensures runs { ProceedsIn (ways O.goes O.loses) tree.old outside.old place
        (λ style. control.lmap args.now) tree.new outside.new result }
    ensures here { OnCompletion result (IsHere tree.old tree.new place) }
    ensures keeps { Keeps O.entries_left tree.old tree.new outside.old outside.new }
{
    let Some((words, body)) = loop_words(args) else {
        return Err(wrong_args(alloc, LMAP));
    };
    let walks = read_walks(alloc, LMAP, words)?;
    let script = tree.script_of(alloc, body)?;
    let mut made = List::new(alloc)?;
    'turns: for turns in 0..usize::MAX {
        if is_over(walks.as_slice(), turns) {
            return collected(alloc, made);
        }
        charge(tree, outside, place)?;
        set_walks(tree, alloc, place, walks.as_slice(), turns)?;
        let ended = eval_read(tree, alloc, outside, place, body, &script);
        if !collects(alloc, &mut made, ended)? {
            return collected(alloc, made);
        }
    }
    Err(Interruption::Memory)
}
