//! What an interpreter does where it is asked for something that evaluates nothing.
#![tactic(auto, using(tcl_run::proofs::Losing::losing))]

ghost use Rattle.std.specs.Prelude.{◌≡◌, ◌∷◌, [], IfOk, Some};
ghost use Rattle.tcl_core.specs.Endings.Reply.{Completed};
ghost use Rattle.tcl_core.specs.Entries.Entry.{Create};
ghost use Rattle.tcl_core.specs.Paths.{Path};
ghost use Rattle.tcl_core.specs.Trees as core;
ghost use Rattle.tcl_language.specs.Interpreters as interpreters;
ghost use Rattle.tcl_language.specs.Table as table;
ghost use Rattle.tcl_run.specs.Ends.{Interrupts, failing};
ghost use Rattle.tcl_run.specs.Plain.{Acts};
ghost use Rattle.tcl_run.specs.Runs.{EvaluatesAt, IsHere, IsLevel, IsSteady, KeepsAndLoses};
ghost use Rattle.tcl_text.specs.Writing.{written_list};
ghost use Rattle.tcl_tree.specs.Own.{Own};
ghost use Rattle.tcl_tree.specs.TreeOf.{tree_of, Names};
ghost use Rattle.tcl_run.specs.Entering.{entry_of};
ghost use Rattle.tcl_calls.specs.Naming.{Tells, making_text};

use crate::failure::{bad_count, bad_depth_limit, hiding_failure, refusal_failure, too_many};
use crate::naming::{kept_name, names_child, names_hidden};
use crate::questions::{answer, limit_text, node, number_value};
use std::alloc::{AllocError, Global};
use tcl_run::entry::OwnEntry;
use tcl_run::failure::{already_exists, denied, invalid_hidden, no_interpreter};
use tcl_run::interruption::Interruption;
use tcl_run::outside::{Happening, Outside};
use tcl_text::list::write_element;
use tcl_text::text::Text;
use tcl_tree::alias::Alias;
use tcl_tree::node::MOST_STEPS;
use tcl_tree::refusal::TreeError;
use tcl_tree::tree::{Place, Tree};
use tcl_value::value::Value;

/// Makes a name of the interpreter that the place names an alias.
///
/// # Errors
/// 238; 302 of a child; want of memory.
pub fn set_alias(
    tree: &mut Tree,
    alloc: Global,
    place: Place,
    name: &Text,
    alias: &Alias,
) -> Result<Value, Interruption>
    requires { (p : Path) × Names tree.old place p }
    ensures acts { Acts tree.old place
        (λ style. interpreters.sets_alias name.now alias.now.up alias.now.down alias.now.words)
        tree.new result }
    ensures level { IsLevel tree.old tree.new }
{
    let kept = kept_name(alloc, name)?;
    match tree.set_alias_at(place, kept, alias.clone()?) {
        Ok(()) => Ok(Value::empty()),
        Err(refusal) => Err(refusal_failure(alloc, refusal, name.as_str())),
    }
}

/// Takes an alias of the interpreter that the place names away.
///
/// # Errors
/// 238; 305 where the name is no alias; want of memory.
pub fn clear_alias(
    tree: &mut Tree,
    alloc: Global,
    place: Place,
    name: &Text,
) -> Result<Value, Interruption>
    requires { (p : Path) × Names tree.old place p }
    ensures acts { Acts tree.old place
        (λ style. interpreters.clears_alias name.now) tree.new result }
    ensures level { IsLevel tree.old tree.new }
{
    let kept = kept_name(alloc, name)?;
    match tree.clear_alias_at(place, &kept) {
        Ok(()) => Ok(Value::empty()),
        Err(refusal) => Err(refusal_failure(alloc, refusal, name.as_str())),
    }
}

/// Hides a command of the interpreter that the place names.
///
/// # Errors
/// 238; 305; 302 of a child; then 238 and 302 of the name under which it is to be hidden; want of
/// memory.
pub fn hide(
    tree: &mut Tree,
    alloc: Global,
    place: Place,
    name: &Text,
    hidden: &Text,
) -> Result<Value, Interruption>
    requires { (p : Path) × Names tree.old place p }
    ensures acts { Acts tree.old place
        (λ style. interpreters.hides name.now hidden.now) tree.new result }
    ensures level { IsLevel tree.old tree.new }
{
    let kept = kept_name(alloc, name)?;
    if names_child(tree, place, &kept) {
        return Err(already_exists(alloc, name.as_str()));
    }
    match tree.hide_at(place, &kept, hidden.clone()?) {
        Ok(()) => Ok(Value::empty()),
        Err(refusal) => Err(hiding_failure(alloc, refusal, name.as_str(), hidden.as_str())),
    }
}

/// Makes a hidden command of the interpreter that the place names a command again.
///
/// # Errors
/// 306; then 238 and 302 of the name that it is to have; want of memory.
pub fn expose(
    tree: &mut Tree,
    alloc: Global,
    place: Place,
    hidden: &Text,
    name: &Text,
) -> Result<Value, Interruption>
    requires { (p : Path) × Names tree.old place p }
    ensures acts { Acts tree.old place
        (λ style. interpreters.exposes hidden.now name.now) tree.new result }
    ensures level { IsLevel tree.old tree.new }
{
    if !names_hidden(tree, place, hidden) {
        return Err(invalid_hidden(alloc, hidden.as_str()));
    }
    let kept = kept_name(alloc, name)?;
    match tree.expose_at(place, hidden, kept) {
        Ok(()) => Ok(Value::empty()),
        Err(refusal) => Err(refusal_failure(alloc, refusal, name.as_str())),
    }
}

/// The error that no limit of steps may be this.
fn count_failure(alloc: Global, limit: Option<u64>) -> Interruption
    ensures { Interrupts result (λ e. e ≡ Completed (failing
        (interpreters.bad_count (interpreters.limit_text limit)))) }
{
    match limit_text(alloc, limit) {
        Ok(text) => bad_count(alloc, text.as_str()),
        Err(_) => Interruption::Memory,
    }
}

/// Sets or clears the limit of steps of the interpreter that the place names.
///
/// # Errors
/// 304 of the root; 245 where the limit is greater than [`MOST_STEPS`]; want of memory.
pub fn limit_count(
    tree: &mut Tree,
    alloc: Global,
    place: Place,
    limit: Option<u64>,
) -> Result<Value, Interruption>
    requires { (p : Path) × Names tree.old place p }
    ensures acts { Acts tree.old place (λ style. interpreters.limits limit) tree.new result }
    ensures level { IsLevel tree.old tree.new }
{
    if node(tree, place).state.root {
        return Err(denied(alloc));
    }
    if limit.unwrap_or(0) > MOST_STEPS {
        return Err(count_failure(alloc, limit));
    }
    tree.set_limit_at(place, limit);
    Ok(Value::empty())
}

/// Sets the limit of depth of the interpreter that the place names.
///
/// # Errors
/// 304 of the root; 309; want of memory.
pub fn limit_depth(
    tree: &mut Tree,
    alloc: Global,
    place: Place,
    limit: u64,
) -> Result<Value, Interruption>
    requires { (p : Path) × Names tree.old place p }
    ensures acts { Acts tree.old place (λ style. interpreters.limits_depth limit) tree.new result }
    ensures steady { IsSteady tree.old tree.new }
    ensures here { IsHere tree.old tree.new place }
{
    if node(tree, place).state.root {
        return Err(denied(alloc));
    }
    match tree.set_depth_limit_at(place, limit) {
        Ok(()) => Ok(number_value(alloc, limit)?),
        Err(_) => Err(bad_depth_limit(alloc)),
    }
}

/// The error that a refusal to make a child is.
fn making_failure(alloc: Global, refusal: TreeError, name: &str) -> Interruption
    ensures { Tells refusal (making_text refusal name.now) result }
{
    match refusal {
        TreeError::TooMany => too_many(alloc),
        other => refusal_failure(alloc, other, name),
    }
}

/// Makes a child of the interpreter that the place names, safe where that is asked for or its
/// parent is safe.
///
/// # Errors
/// 238, 302 and 307; want of memory.
pub fn create(
    tree: &mut Tree,
    alloc: Global,
    place: Place,
    name: &Text,
    safe: bool,
) -> Result<Value, Interruption>
    requires { (p : Path) × Names tree.old place p }
    ensures acts { Acts tree.old place
        (λ style. interpreters.creates name.now safe) tree.new result }
    ensures steady { IsSteady tree.old tree.new }
    ensures here { IsHere tree.old tree.new place }
{
    if let Some(_child) = tree.child_at(place, name) {
        return Err(already_exists(alloc, name.as_str()));
    }
    match tree.create_at(alloc, place, name, safe) {
        Ok(()) => Ok(Value::empty()),
        Err(refusal) => Err(making_failure(alloc, refusal, name.as_str())),
    }
}

/// The name of a child of the interpreter that the place names, where none is given.
///
/// # Errors
/// Want of memory.
pub fn child_name(tree: &Tree, alloc: Global, place: Place) -> Result<Text, AllocError>
    requires { (p : Path) × Names tree.now place p }
    ensures { IfOk result (λ name. (p : Path) (n : core.Node Own) → Names tree.now place p →
        tree_of tree.now p ≡ Some n → name ≡ interpreters.free_name n.own) }
{
    let _few = node(tree, place).state.commands.len();
    tree.free_name_at(alloc, place)
}

/// The error of a child that isn't there.
fn no_child(alloc: Global, name: &Text) -> Interruption
    ensures { Interrupts result (λ e. e
        ≡ Completed (failing (interpreters.no_interpreter (written_list (name.now ∷ []))))) }
{
    match path_text(alloc, name) {
        Ok(path) => no_interpreter(alloc, path.as_str()),
        Err(_) => Interruption::Memory,
    }
}

/// The path of a child, as a text.
pub fn path_text(alloc: Global, name: &Text) -> Result<Text, AllocError>
    ensures { IfOk result (λ path. path ≡ written_list (name.now ∷ [])) }
{
    let mut out = String::new(alloc);
    write_element(&mut out, name.as_str(), true)?;
    Text::from_string(alloc, out)
}

/// Deletes a child of the interpreter that the place names, with all below it, also where an
/// evaluation is in progress in it. The outside is told of it.
///
/// # Errors
/// 301; want of memory.
pub fn delete<O: Outside>(
    tree: &mut Tree,
    alloc: Global,
    outside: &mut O,
    place: Place,
    name: &Text,
) -> Result<Value, Interruption>
    requires { (p : Path) × Names tree.old place p }
    ensures runs { EvaluatesAt O.goes tree.old outside.old place
        (λ style. interpreters.deletes name.now) tree.new outside.new result }
    ensures keeps { KeepsAndLoses O.entries_left O.loses tree.old tree.new outside.old outside.new }
    ensures here { IsHere tree.old tree.new place }
{
    match tree.delete_at(place, name) {
        Ok(()) => {
            let happening = Happening::Dropped {
                parent: place,
                name,
            };
            outside.notify(alloc, tree, happening)?;
            Ok(Value::empty())
        }
        Err(_) => Err(no_child(alloc, name)),
    }
}

/// Makes a child of the interpreter that the place names, of this name or of one that is found.
fn create_named(
    tree: &mut Tree,
    alloc: Global,
    place: Place,
    name: &Option<Text>,
    safe: bool,
) -> Result<Value, Interruption>
    requires { (p : Path) × Names tree.old place p }
    ensures acts { Acts tree.old place
        (λ style. table.serve style (Create name.now safe)) tree.new result }
    ensures steady { IsSteady tree.old tree.new }
    ensures here { IsHere tree.old tree.new place }
{
    match name {
        Some(name) => create(tree, alloc, place, name, safe),
        None => {
            let name = child_name(tree, alloc, place)?;
            create(tree, alloc, place, &name, safe)
        }
    }
}

/// Does what the interpreter that the place names is asked for.
///
/// # Errors
/// Those of each entry; want of memory.
pub fn serve<O: Outside>(
    tree: &mut Tree,
    alloc: Global,
    outside: &mut O,
    place: Place,
    entry: &OwnEntry,
) -> Result<Value, Interruption>
    requires { (p : Path) × Names tree.old place p }
    ensures runs { EvaluatesAt O.goes tree.old outside.old place
        (λ style. table.serve style (entry_of entry.now)) tree.new outside.new result }
    ensures keeps { KeepsAndLoses O.entries_left O.loses tree.old tree.new outside.old outside.new }
    ensures here { IsHere tree.old tree.new place }
{
    match entry {
        OwnEntry::SetAlias { name, alias } => set_alias(tree, alloc, place, name, alias),
        OwnEntry::ClearAlias(name) => clear_alias(tree, alloc, place, name),
        OwnEntry::Hide { name, hidden } => hide(tree, alloc, place, name, hidden),
        OwnEntry::Expose { hidden, name } => expose(tree, alloc, place, hidden, name),
        OwnEntry::SetCountLimit(limit) => limit_count(tree, alloc, place, *limit),
        OwnEntry::SetDepthLimit(limit) => limit_depth(tree, alloc, place, *limit),
        OwnEntry::Create { name, safe } => create_named(tree, alloc, place, name, *safe),
        OwnEntry::Delete(name) => delete(tree, alloc, outside, place, name),
        OwnEntry::Ask(question) => answer(tree, alloc, place, question),
    }
}
