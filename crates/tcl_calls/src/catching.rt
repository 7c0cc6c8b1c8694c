//! What `catch` sees of an end.
ghost use Rattle.std.specs.Prelude.{◌≡◌, true, false, IfOk, IfErr};
ghost use Rattle.tcl_core.specs.Endings.Reply.{Completed};
ghost use Rattle.tcl_flow.specs.View.{completion_of};
ghost use Rattle.tcl_language.specs.Control.{options_text};
ghost use Rattle.tcl_language.specs.Instructions.{too_long as too_long_error, fits};
ghost use Rattle.tcl_run.specs.Ends.{Interrupts};
ghost use Rattle.tcl_core.specs.Paths.{Path};
ghost use Rattle.tcl_run.specs.Plain.{Steps};
ghost use Rattle.tcl_run.specs.Runs.{IsLevel};
ghost use Rattle.tcl_tree.specs.TreeOf.{Names};
ghost use Rattle.tcl_calls.specs.Catching.{kept_in};

use crate::setting::set_named;
use std::alloc::Global;
use tcl_flow::completion::Completion;
use tcl_flow::returning::caught_options;
use tcl_run::failure::too_long;
use tcl_run::interruption::Interruption;
use tcl_run::steps::known_short;
use tcl_tree::tree::{Place, Tree};
use tcl_value::value::{Value, ValueError};

/// Sets the variables that `catch` names: the first to the text that was caught, the second to its
/// options. (catch(n))
///
/// # Errors
/// The first that can't be set; that the options are too long for a value; want of memory.
#[inline(never)]
pub fn keep_caught(
    tree: &mut Tree,
    alloc: Global,
    place: Place,
    names: &[Value],
    completion: &Completion,
) -> Result<(), Interruption>
    requires { (p : Path) × Names tree.old place p }
    ensures kept { Steps tree.old place
        (kept_in names.now (completion_of completion.now)) tree.new result }
    ensures level { IsLevel tree.old tree.new }
{
    let [result, rest @ ..] = names else {
        return Ok(());
    };
    set_named(tree, alloc, place, result, completion.text.clone()?)?;
    let [options, ..] = rest else {
        return Ok(());
    };
    let value = options_value(alloc, completion)?;
    set_named(tree, alloc, place, options, value)
}

/// The dictionary of a completion's options. (catch(n))
///
/// # Errors
/// That it is too long for a value; want of memory.
#[inline(never)]
pub fn options_value(alloc: Global, completion: &Completion) -> Result<Value, Interruption>
    ensures whole { IfOk result
        (λ value. (value ≡ options_text (completion_of completion.now)) ×
        (fits (options_text (completion_of completion.now)) ≡ true)) }
    ensures refused { IfErr result
        (λ i. Interrupts i (λ e. (fits (options_text (completion_of completion.now)) ≡ false) ×
        (e ≡ Completed too_long_error))) }
{
    match caught_options(alloc, completion) {
        Ok(value) => Ok(known_short(value)),
        Err(ValueError::TooLong) => Err(too_long(alloc)),
        Err(ValueError::Memory) => Err(Interruption::Memory),
    }
}
