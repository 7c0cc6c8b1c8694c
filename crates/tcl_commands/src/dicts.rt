//! `dict`.
ghost use Rattle.std.specs.Prelude.{◌≡◌, ◌∷◌, IfSome};
ghost use Rattle.tcl_core.specs.Endings.{ok};
ghost use Rattle.tcl_core.specs.Paths.{Path};
ghost use Rattle.tcl_core.specs.Programs.Prog.{done};
ghost use Rattle.tcl_language.specs.Changes as changes;
ghost use Rattle.tcl_language.specs.Data as collections;
ghost use Rattle.tcl_language.specs.Pairing as pairing;
ghost use Rattle.tcl_run.specs.Plain.{Acts};
ghost use Rattle.tcl_run.specs.Runs.{IsLevel};
ghost use Rattle.tcl_text.specs.declared.integer.Integers.{Integers as Style};
ghost use Rattle.tcl_tree.specs.TreeOf.{Names};
ghost use Rattle.tcl_words.specs.Outcomes.{Gives};
ghost use Rattle.tcl_commands.specs.Subcommands.{outcome_of};

use crate::answers::answered;
use crate::changes::{Change, make_change};
use crate::subcommand::Subcommand;
use std::alloc::Global;
use tcl_dicts::building::{create, merge, remove, replace};
use tcl_dicts::finding::{exists, get, size};
use tcl_dicts::listing::{keys, values};
use tcl_run::failure::{unknown_subcommand, wrong_args};
use tcl_run::interruption::Interruption;
use tcl_tree::tree::{Place, Tree};
use tcl_value::value::Value;
use tcl_words::refusal::Refusal;

/// What a subcommand gives for its words.
fn value_of(alloc: Global, subcommand: Subcommand, words: &[Value]) -> Result<Value, Refusal>
    ensures { Gives (λ value. value) result (outcome_of subcommand words.now) }
{
    match subcommand {
        Subcommand::Create => create(alloc, words),
        Subcommand::Get => get(alloc, words),
        Subcommand::Exists => exists(alloc, words),
        Subcommand::Keys => keys(alloc, words),
        Subcommand::Values => values(alloc, words),
        Subcommand::Size => size(alloc, words),
        Subcommand::Merge => merge(alloc, words),
        Subcommand::Replace => replace(alloc, words),
        Subcommand::Remove => remove(alloc, words),
    }
}

/// `dict subcommand ?arg ...?`, where the subcommand makes something of dicts, keys and values, and
/// changes no variable.
///
/// # Errors
/// 241; 244 of the subcommand; 101 to 104 and 121 where a word is no dict; 242 of `get`; 122; want
/// of memory.
fn dict_of_words(
    tree: &mut Tree,
    alloc: Global,
    place: Place,
    args: &[Value],
) -> Result<Value, Interruption>
    ensures acts { Acts tree.old place (λ _. collections.dict args.now) tree.new result }
    ensures level { IsLevel tree.old tree.new }
{
    match args {
        [] => Err(wrong_args(alloc, "dict subcommand ?arg ...?")),
        [word, words @ ..] => {
            let word = word.text(alloc)?;
            match Subcommand::named(word.as_str()) {
                Some(subcommand) => answered(alloc, value_of(alloc, subcommand, words)),
                None => Err(unknown_subcommand(alloc, word.as_str())),
            }
        }
    }
}

/// `dict subcommand ?arg ...?`: what a subcommand makes of a variable's dict, or of dicts, keys and
/// values.
///
/// # Errors
/// 241; 244 of the subcommand; 232 to 234 and 238 of the variable; 101 to 104 and 121 where there
/// is no dict; 242 of `get` and `unset`; 111, 112 and 212 of `incr`; 122; want of memory.
pub fn dict(
    tree: &mut Tree,
    alloc: Global,
    place: Place,
    args: &[Value],
) -> Result<Value, Interruption>
    requires { (p : Path) × Names tree.old place p }
    ensures acts { Acts tree.old place (λ style. changes.dict style args.now) tree.new result }
    ensures level { IsLevel tree.old tree.new }
{
    match args {
        [] => dict_of_words(tree, alloc, place, args),
        [word, words @ ..] => {
            let word = word.text(alloc)?;
            match Change::named(word.as_str()) {
                Some(change) => make_change(tree, alloc, place, change, words),
                None => dict_of_words(tree, alloc, place, args),
            }
        }
    }
}

/// What a subcommand gives for its words that asks a dict for something, if it is one of those and
/// refuses none of them.
fn asked_of_dict(alloc: Global, subcommand: &Value, words: &[Value]) -> Option<Value>
    ensures { IfSome result (λ value. (style : Style) →
        pairing.dict style (subcommand.now ∷ words.now) ≡ done (ok value)) }
{
    if subcommand.is_text(b"get") {
        return get(alloc, words).ok();
    }
    if subcommand.is_text(b"exists") {
        return exists(alloc, words).ok();
    }
    if subcommand.is_text(b"size") {
        return size(alloc, words).ok();
    }
    None
}

/// What `dict` gives for its words, where its subcommand asks a dict for something, as `get` does,
/// and refuses none of them. Nothing is changed.
pub fn dict_answer(alloc: Global, args: &[Value]) -> Option<Value>
    ensures { IfSome result (λ value. (style : Style) →
        pairing.dict style args.now ≡ done (ok value)) }
{
    match args {
        [subcommand, words @ ..] => asked_of_dict(alloc, subcommand, words),
        [] => None,
    }
}
