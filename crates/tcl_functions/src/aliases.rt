//! Aliases to an embedder's functions.
ghost use Rattle.std.specs.Prelude.{◌≡◌, ◌∷◌, [], List, ℕ, IfErr, IfOk, IsSome, OnErr, OnOk};
ghost use Rattle.tcl_functions.specs.Aliases.{Aliases, RefusesAlias};
ghost use Rattle.tcl_tree.specs.TreeOf.{key_of, marks_of, tree_of};

use std::alloc::{AllocError, Global};
use tcl_text::text::Text;
use tcl_tree::refusal::TreeError;
use tcl_tree::tree::Tree;
use tcl_value::value::{Value, ValueError};

/// Makes a name of the interpreter at the path an alias to a function of the embedder, whatever
/// command had the name before: a call of it is a call of the function, by who stands outside of
/// the tree when it is made. A function's name that is longer than a value may be is refused.
///
/// # Errors
/// Refusals, in this order: 238 of the function's name; 301; 238 of the name; 302 where it is a
/// child. Want of memory.
pub fn set_function(
    tree: &mut Tree,
    alloc: Global,
    path: &[Text],
    name: &str,
    function: &str,
) -> Result<(), TreeError>
    ensures there { OnOk result (IsSome (tree_of tree.old path.now)) }
    ensures set { OnOk result
        (Aliases (tree_of tree.old) (tree_of tree.new) path.now name.now function.now) }
    ensures refused { IfErr result
        (λ e. RefusesAlias e (tree_of tree.old) path.now name.now function.now) }
    ensures unchanged { OnErr result (tree_of tree.new ≡ tree_of tree.old) }
    ensures keys { (q : List (List ℕ)) → key_of tree.new q ≡ key_of tree.old q }
    ensures marks { marks_of tree.new ≡ marks_of tree.old }
{
    match Value::from_text(Text::new(alloc, function)?) {
        Ok(function) => alias_to(tree, alloc, path, Text::new(alloc, name)?, function),
        Err(ValueError::TooLong) => Err(TreeError::BadName),
        Err(ValueError::Memory) => Err(TreeError::Memory),
    }
}

/// The same for a function whose name is a value.
fn alias_to(
    tree: &mut Tree,
    alloc: Global,
    path: &[Text],
    name: Text,
    function: Value,
) -> Result<(), TreeError>
    ensures there { OnOk result (IsSome (tree_of tree.old path.now)) }
    ensures set { OnOk result
        (Aliases (tree_of tree.old) (tree_of tree.new) path.now name function) }
    ensures refused { IfErr result
        (λ e. RefusesAlias e (tree_of tree.old) path.now name function) }
    ensures unchanged { OnErr result (tree_of tree.new ≡ tree_of tree.old) }
    ensures keys { (q : List (List ℕ)) → key_of tree.new q ≡ key_of tree.old q }
    ensures marks { marks_of tree.new ≡ marks_of tree.old }
{
    match tree.set_alias_past(alloc, path, name, one_word(alloc, function)?) {
        Ok(()) => Ok(()),
        Err(refused) => Err(refused),
    }
}

/// The words of an alias to a function: its name alone.
fn one_word(alloc: Global, function: Value) -> Result<Vec<Value>, AllocError>
    ensures { IfOk result (λ words. words.items ≡ function ∷ []) }
{
    let mut words = Vec::new(alloc);
    words.push(function)?;
    Ok(words)
}
