//! What is done to a tree while nothing is evaluated in it.
ghost use Rattle.std.specs.Prelude.{◌≡◌, [], IfErr, IfOk, OnErr, OnOk};
ghost use Rattle.tcl_core.specs.Trees.{effect};
ghost use Rattle.tcl_core.specs.Trees.What.{DepthLimited, Limited};
ghost use Rattle.tcl_interpreter.specs.Commands.{way_between};
ghost use Rattle.tcl_interpreter.specs.declared.command.Command.TheVariants as command;
ghost use Rattle.tcl_serve.specs.Entering.{AtChild, client_way};
ghost use Rattle.tcl_serve.specs.declared.answers.Answer.TheVariants.{Done};
ghost use Rattle.tcl_serve.specs.Acting.{IsRefused, IsStanding, nobody};
ghost use Rattle.tcl_tree.specs.Changes.{Drops, Makes, RefusesDepthLimit, RefusesDrop};
ghost use Rattle.tcl_tree.specs.Changes.{RefusesLimit, RefusesMake};
ghost use Rattle.tcl_tree.specs.Naming.{Becomes, RefusesAt, RefusesThere, cleared, named};
ghost use Rattle.tcl_tree.specs.TreeOf.{marks_of, tree_of};

use crate::answers::{Answer, Standing};
use crate::entering::values_of;
use crate::messages::{Alias, AliasToClient, ClearAlias, Create, LimitCount, LimitDepth};
use crate::refusals::Refusal;
use indexmap::map::Keys;
use std::alloc::{AllocError, Global};
use tcl_text::list::write_list;
use tcl_text::text::Text;
use tcl_tree::refusal::TreeError;
use tcl_tree::tree::Tree;

/// The text of a path.
fn path_text(alloc: Global, path: &[Text]) -> Result<Text, AllocError> {
    let text = write_list(alloc, path)?;
    Text::from_string(alloc, text)
}

/// The refusal of a call on a tree about an interpreter.
fn refused_at(alloc: Global, error: TreeError, path: &[Text]) -> Refusal
    ensures { IsRefused (λ e. e ≡ error) result }
{
    refused_about(error, path_text(alloc, path))
}

/// The refusal of a call on a tree about an interpreter, where it isn't there, or about a name.
fn refused_for(alloc: Global, error: TreeError, path: &[Text], name: &Text) -> Refusal
    ensures { IsRefused (λ e. e ≡ error) result }
{
    match error {
        TreeError::NoInterpreter => refused_at(alloc, error, path),
        other => refused_about(other, name.clone()),
    }
}

/// The refusal of a call on a tree about a word.
fn refused_about(error: TreeError, word: Result<Text, AllocError>) -> Refusal
    ensures { IsRefused (λ e. e ≡ error) result }
{
    match (error, word) {
        (TreeError::Memory, _) | (_, Err(_)) => Refusal::Memory,
        (other, Ok(word)) => Refusal::Tree(other, word),
    }
}

/// Makes an interpreter.
///
/// # Errors
/// 513; 301 of the one above; 238; 302; 307; want of memory.
pub(crate) fn create(tree: &mut Tree, alloc: Global, create: &Create) -> Result<Answer, Refusal>
    ensures answer { IfOk result (λ a. a ≡ Done) }
    ensures made { OnOk result (AtChild create.now.path.items
        (λ p n. Makes (tree_of tree.old) (tree_of tree.new) p n create.now.safe)) }
    ensures refused { IfErr result (IsRefused
        (λ e. AtChild create.now.path.items (RefusesMake e (tree_of tree.old)))) }
    ensures unchanged { OnErr result (tree_of tree.new ≡ tree_of tree.old) }
    ensures marks { marks_of tree.new ≡ marks_of tree.old }
{
    let Some((name, path)) = create.path.split_last() else {
        return Err(Refusal::Root);
    };
    match tree.create(alloc, path, name, create.safe) {
        Ok(()) => Ok(Answer::Done),
        Err(error) => Err(refused_for(alloc, error, path, name)),
    }
}

/// Deletes the interpreter at the path.
///
/// # Errors
/// 513; 301; want of memory.
pub(crate) fn delete(tree: &mut Tree, alloc: Global, path: &[Text]) -> Result<Answer, Refusal>
    ensures answer { IfOk result (λ a. a ≡ Done) }
    ensures dropped { OnOk result
        (AtChild path.now (λ p n. Drops (tree_of tree.old) (tree_of tree.new) p n)) }
    ensures refused { IfErr result (IsRefused
        (λ e. AtChild path.now (RefusesDrop e (tree_of tree.old)))) }
    ensures unchanged { OnErr result (tree_of tree.new ≡ tree_of tree.old) }
    ensures marks { marks_of tree.new ≡ marks_of tree.old }
{
    let Some((name, parent)) = path.split_last() else {
        return Err(Refusal::Root);
    };
    match tree.delete(parent, name) {
        Ok(()) => Ok(Answer::Done),
        Err(error) => Err(refused_at(alloc, error, path)),
    }
}

/// Makes a name an alias to another interpreter.
///
/// # Errors
/// 122; 301; 238; 302; want of memory.
pub(crate) fn set_alias(tree: &mut Tree, alloc: Global, alias: &Alias) -> Result<Answer, Refusal>
    ensures answer { IfOk result (λ a. a ≡ Done) }
    ensures set { OnOk result (Becomes (tree_of tree.old) (tree_of tree.new) alias.now.path.items
        (λ own. named own alias.now.name (command.Alias
        (way_between alias.now.path.items alias.now.to.items alias.now.words.items)))) }
    ensures refused { IfErr result (IsRefused
        (λ e. RefusesAt e (tree_of tree.old) alias.now.path.items
        (λ own. named own alias.now.name (command.Alias
        (way_between alias.now.path.items alias.now.to.items alias.now.words.items))))) }
    ensures unchanged { OnErr result (tree_of tree.new ≡ tree_of tree.old) }
    ensures marks { marks_of tree.new ≡ marks_of tree.old }
{
    let words = values_of(alloc, alias.words.as_slice())?;
    let path = alias.path.as_slice();
    let name = alias.name.clone()?;
    match tree.set_alias_between(alloc, path, name, alias.to.as_slice(), words) {
        Ok(()) => Ok(Answer::Done),
        Err(error) => Err(refused_for(alloc, error, path, &alias.name)),
    }
}

/// Makes a name an alias to the client.
///
/// # Errors
/// 122; 301; 238; 302; want of memory.
pub(crate) fn set_client_alias(
    tree: &mut Tree,
    alloc: Global,
    alias: &AliasToClient,
) -> Result<Answer, Refusal>
    ensures answer { IfOk result (λ a. a ≡ Done) }
    ensures set { OnOk result (Becomes (tree_of tree.old) (tree_of tree.new) alias.now.path.items
        (λ own. named own alias.now.name (command.Alias
        (client_way alias.now.path.items alias.now.words.items)))) }
    ensures refused { IfErr result (IsRefused
        (λ e. RefusesAt e (tree_of tree.old) alias.now.path.items
        (λ own. named own alias.now.name (command.Alias
        (client_way alias.now.path.items alias.now.words.items))))) }
    ensures unchanged { OnErr result (tree_of tree.new ≡ tree_of tree.old) }
    ensures marks { marks_of tree.new ≡ marks_of tree.old }
{
    let path = alias.path.as_slice();
    let words = values_of(alloc, alias.words.as_slice())?;
    let name = alias.name.clone()?;
    match tree.set_alias_past(alloc, path, name, words) {
        Ok(()) => Ok(Answer::Done),
        Err(error) => Err(refused_for(alloc, error, path, &alias.name)),
    }
}

/// Takes an alias away.
///
/// # Errors
/// 301; 305; want of memory.
pub(crate) fn clear_alias(
    tree: &mut Tree,
    alloc: Global,
    alias: &ClearAlias,
) -> Result<Answer, Refusal>
    ensures answer { IfOk result (λ a. a ≡ Done) }
    ensures cleared { OnOk result (Becomes (tree_of tree.old) (tree_of tree.new)
        alias.now.path.items (λ own. cleared own alias.now.name)) }
    ensures refused { IfErr result (IsRefused
        (λ e. RefusesThere e (tree_of tree.old) alias.now.path.items
        (λ own. cleared own alias.now.name))) }
    ensures unchanged { OnErr result (tree_of tree.new ≡ tree_of tree.old) }
    ensures marks { marks_of tree.new ≡ marks_of tree.old }
{
    let path = alias.path.as_slice();
    match tree.clear_alias(path, &alias.name) {
        Ok(()) => Ok(Answer::Done),
        Err(error) => Err(refused_for(alloc, error, path, &alias.name)),
    }
}

/// Sets or takes away a limit of steps.
///
/// # Errors
/// 304 of the root; 301; want of memory.
pub(crate) fn limit_count(
    tree: &mut Tree,
    alloc: Global,
    limit: &LimitCount,
) -> Result<Answer, Refusal>
    ensures answer { IfOk result (λ a. a ≡ Done) }
    ensures limited { OnOk result (tree_of tree.new
        ≡ effect limit.now.path.items (Limited limit.now.count) (tree_of tree.old)) }
    ensures refused { IfErr result (IsRefused
        (λ e. RefusesLimit e (tree_of tree.old) [] limit.now.path.items limit.now.count)) }
    ensures unchanged { OnErr result (tree_of tree.new ≡ tree_of tree.old) }
    ensures marks { marks_of tree.new ≡ marks_of tree.old }
{
    let path = limit.path.as_slice();
    match tree.set_limit(&[], path, limit.count) {
        Ok(()) => Ok(Answer::Done),
        Err(error) => Err(refused_at(alloc, error, path)),
    }
}

/// Sets a limit of depth.
///
/// # Errors
/// 301; 304 of the root; 309; want of memory.
pub(crate) fn limit_depth(
    tree: &mut Tree,
    alloc: Global,
    limit: &LimitDepth,
) -> Result<Answer, Refusal>
    ensures answer { IfOk result (λ a. a ≡ Done) }
    ensures limited { OnOk result (tree_of tree.new
        ≡ effect limit.now.path.items (DepthLimited limit.now.depth) (tree_of tree.old)) }
    ensures refused { IfErr result (IsRefused
        (λ e. RefusesDepthLimit e (tree_of tree.old) [] limit.now.path.items limit.now.depth)) }
    ensures unchanged { OnErr result (tree_of tree.new ≡ tree_of tree.old) }
    ensures marks { marks_of tree.new ≡ marks_of tree.old }
{
    let path = limit.path.as_slice();
    match tree.set_depth_limit(&[], path, limit.depth) {
        Ok(()) => Ok(Answer::Done),
        Err(error) => Err(refused_at(alloc, error, path)),
    }
}

/// How the interpreter at the path stands.
///
/// # Errors
/// 301; want of memory.
pub(crate) fn look(tree: &Tree, alloc: Global, path: &[Text]) -> Result<Answer, Refusal>
    ensures stands { IfOk result (IsStanding (tree_of tree.now path.now)) }
    ensures refused { IfErr result
        (IsRefused (λ e. nobody e (tree_of tree.now path.now))) }
{
    let Some(place) = tree.place(path) else {
        return Err(refused_at(alloc, TreeError::NoInterpreter, path));
    };
    let (Some(node), Some(names)) = (tree.node_at(place), tree.children(path)) else {
        return Err(refused_at(alloc, TreeError::NoInterpreter, path));
    };
    let children = names_of(alloc, names)?;
    Ok(Answer::Standing(Standing {
        safe: node.state.safe,
        count: node.state.count,
        count_limit: node.state.limit,
        depth: node.state.depth,
        depth_limit: node.state.depth_limit,
        children,
    }))
}

/// These names.
fn names_of(alloc: Global, names: Keys<'_, Text, usize>) -> Result<Vec<Text>, AllocError>
    ensures { IfOk result (λ made. made.items ≡ names.entry) }
{
    let mut made = Vec::new(alloc);
    'names: for name in names {
        made.push(name.clone()?)?;
    }
    Ok(made)
}
