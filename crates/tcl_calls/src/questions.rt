//! The answers to questions about an interpreter.
#![tactic(auto, using(tcl_run::proofs::Losing::losing))]

ghost use Rattle.std.specs.Prelude.{◌≡◌, ◌<◌, ◌+◌, ◌++◌, ◌∷◌, [], codes, drop, length, IfOk, OnOk};
ghost use Rattle.std.specs.Prelude.{Some};
ghost use Rattle.std.specs.Fmt.{decimal};
ghost use Rattle.std.specs.Option.{option_copied};
ghost use Rattle.tcl_core.specs.Paths.{Path};
ghost use Rattle.tcl_core.specs.Trees as core;
ghost use Rattle.tcl_language.specs.Interpreters as interpreters;
ghost use Rattle.tcl_language.specs.Naming.{command_name};
ghost use Rattle.tcl_run.specs.Ends.{Gave, itself};
ghost use Rattle.tcl_run.specs.Plain.{Acts};
ghost use Rattle.tcl_text.specs.Writing.{written_list};
ghost use Rattle.tcl_tree.specs.Nodes.{view_of};
ghost use Rattle.tcl_tree.specs.Own.{Own};
ghost use Rattle.tcl_tree.specs.TreeOf.{tree_of, Names};
ghost use Rattle.tcl_run.specs.Entering.{question_of};
ghost use Rattle.tcl_calls.specs.Listing.{first_of};

use crate::naming::kept_name;
use crate::words::within;
use indexmap::IndexMap;
use std::alloc::{AllocError, Global};
use tcl_run::entry::Question;
use tcl_run::interruption::Interruption;
use tcl_text::list::write_list;
use tcl_text::text::Text;
use tcl_tree::command::{Command, Commands};
use tcl_tree::node::Node;
use tcl_tree::tree::{Place, Tree};
use tcl_value::value::Value;

/// The interpreter that the place names.
pub fn node(tree: &Tree, place: Place) -> &Node
    requires { (p : Path) × Names tree.now place p }
    ensures { (p : Path) (n : core.Node Own) → Names tree.now place p →
        tree_of tree.now p ≡ Some n → view_of result.now ≡ n }
{
    match tree.node_at(place) {
        Some(node) => node,
        None => unreachable!(),
    }
}

/// The text of a number.
fn number_text(alloc: Global, n: u64) -> Result<Text, AllocError>
    ensures { IfOk result (λ text. text ≡ decimal n) }
{
    Text::from_string(alloc, format!(in alloc; "{n}")?)
}

/// A number as a value.
pub fn number_value(alloc: Global, n: u64) -> Result<Value, AllocError>
    ensures { IfOk result (λ value. value ≡ decimal n) }
{
    Ok(Value::from_short_text(number_text(alloc, n)?))
}

/// The text of a list.
fn list_text(alloc: Global, list: &[Text]) -> Result<Text, AllocError>
    ensures { IfOk result (λ text. text ≡ written_list list.now) }
{
    Text::from_string(alloc, write_list(alloc, list)?)
}

/// The text of a truth.
fn truth_text(alloc: Global, truth: bool) -> Result<Text, AllocError>
    ensures { IfOk result (λ text. text ≡ interpreters.bit truth) }
{
    if truth {
        Text::new(alloc, "1")
    } else {
        Text::new(alloc, "0")
    }
}

/// Adds the name of a command, if that is an alias.
fn push_alias(names: &mut Vec<Text>, name: &Text, command: &Command) -> Result<(), AllocError>
    ensures { (rest : Path) → OnOk result
        (names.new.items ++ rest ≡ names.old.items ++ interpreters.alias_only name.now command.now
        rest) }
{
    match command {
        Command::Alias(_) => {
            names.push(name.clone()?)?;
            Ok(())
        }
        Command::Builtin(_) => Ok(()),
        Command::Procedure(_) => Ok(()),
        Command::Child => Ok(()),
    }
}

/// Adds the name of the command at a place in their order, if that is an alias.
fn push_alias_at(names: &mut Vec<Text>, commands: &Commands, index: usize) -> Result<(), AllocError>
    requires { index < length commands.now.entries }
    ensures { OnOk result
        (names.new.items ++ interpreters.aliases_in
        (drop (index + 1) commands.now.entries) ≡ names.old.items ++ interpreters.aliases_in
        (drop index commands.now.entries)) }
{
    match commands.get_index(index) {
        Some((name, command)) => push_alias(names, name, command),
        None => unreachable!(),
    }
}

/// The names of the aliases among commands, in order.
fn alias_names(alloc: Global, commands: &Commands) -> Result<Vec<Text>, AllocError>
    ensures { IfOk result (λ names. names.items ≡ interpreters.aliases_in commands.now.entries) }
{
    let mut names = Vec::new(alloc);
    'commands: for index in 0..commands.len() {
        push_alias_at(&mut names, commands, index)?;
    }
    Ok(names)
}

/// Adds the key at a place in their order.
fn push_key_at<V>(
    names: &mut Vec<Text>,
    map: &IndexMap<Text, V>,
    index: usize,
) -> Result<(), AllocError>
    requires { index < length map.now.entries }
    ensures { OnOk result
        (names.new.items ++ first_of (drop (index + 1) map.now.entries)
        ≡ names.old.items ++ first_of (drop index map.now.entries)) }
{
    match map.get_index(index) {
        Some((name, _)) => {
            names.push(name.clone()?)?;
            Ok(())
        }
        None => unreachable!(),
    }
}

/// The keys of a map, in order.
fn keys_of<V>(alloc: Global, map: &IndexMap<Text, V>) -> Result<Vec<Text>, AllocError>
    ensures { IfOk result (λ names. names.items ≡ first_of map.now.entries) }
{
    let mut names = Vec::new(alloc);
    'keys: for index in 0..map.len() {
        push_key_at(&mut names, map, index)?;
    }
    Ok(names)
}

/// The texts of the words of an alias, that of its target command first; none where the command is
/// no alias.
fn words_of(alloc: Global, command: Option<&Command>) -> Result<Vec<Text>, AllocError>
    ensures { IfOk result (λ words. words.items
        ≡ interpreters.alias_words (option_copied command.entry)) }
{
    match command {
        Some(Command::Alias(alias)) => texts_of(alloc, alias.words()),
        Some(Command::Builtin(_)) => Ok(Vec::new(alloc)),
        Some(Command::Procedure(_)) => Ok(Vec::new(alloc)),
        Some(Command::Child) => Ok(Vec::new(alloc)),
        None => Ok(Vec::new(alloc)),
    }
}

/// The texts of values.
fn texts_of(alloc: Global, values: &[Value]) -> Result<Vec<Text>, AllocError>
    ensures { IfOk result (λ texts. texts.items ≡ values.now) }
{
    let mut texts = Vec::with_capacity(alloc, values.len())?;
    'values: for value in values {
        texts.push(value.text(alloc)?)?;
    }
    Ok(texts)
}

/// The text of a limit of steps, empty where there is none.
pub fn limit_text(alloc: Global, limit: Option<u64>) -> Result<Text, AllocError>
    ensures { IfOk result (λ text. text ≡ interpreters.limit_text limit) }
{
    match limit {
        Some(n) => number_text(alloc, n),
        None => Text::new(alloc, ""),
    }
}

/// The list of the option and the value of a limit of steps.
fn limit_list(alloc: Global, limit: Option<u64>) -> Result<Text, AllocError>
    ensures { IfOk result (λ text. text
        ≡ written_list (codes "-value" ∷ interpreters.limit_text limit ∷ [])) }
{
    let mut list = Vec::new(alloc);
    list.push(Text::new(alloc, "-value")?)?;
    list.push(limit_text(alloc, limit)?)?;
    list_text(alloc, list.as_slice())
}

/// The list of the words of the alias that a name is, read as calls read it.
///
/// # Errors
/// 238; want of memory.
fn alias_text(alloc: Global, node: &Node, name: &Text) -> Result<Text, Interruption>
    ensures { Gave itself (interpreters.alias_kept
        (command_name name.now) name.now (view_of node.now).own) result }
{
    let kept = kept_name(alloc, name)?;
    let words = words_of(alloc, node.state.commands.get(&kept))?;
    Ok(list_text(alloc, words.as_slice())?)
}

/// What an interpreter answers to a question.
///
/// # Errors
/// 238 of the name of an alias; want of memory.
fn answer_text(alloc: Global, node: &Node, question: &Question) -> Result<Text, Interruption>
    ensures { Gave itself
        (interpreters.answer (question_of question.now) (view_of node.now)) result }
{
    match question {
        Question::Exists => Ok(truth_text(alloc, true)?),
        Question::IsSafe => Ok(truth_text(alloc, node.state.safe)?),
        Question::Aliases => {
            let names = alias_names(alloc, &node.state.commands)?;
            Ok(list_text(alloc, names.as_slice())?)
        }
        Question::AliasOf(name) => alias_text(alloc, node, name),
        Question::Hidden => {
            let names = keys_of(alloc, &node.state.hidden)?;
            Ok(list_text(alloc, names.as_slice())?)
        }
        Question::Slaves => {
            let names = keys_of(alloc, &node.children)?;
            Ok(list_text(alloc, names.as_slice())?)
        }
        Question::CountLimitOf => Ok(limit_list(alloc, node.state.limit)?),
        Question::DepthLimitOf => Ok(number_text(alloc, node.state.depth_limit)?),
    }
}

/// What the interpreter that the place names answers to a question.
///
/// # Errors
/// 238 of the name of an alias; 122; want of memory.
pub fn answer(
    tree: &Tree,
    alloc: Global,
    place: Place,
    question: &Question,
) -> Result<Value, Interruption>
    requires { (p : Path) × Names tree.now place p }
    ensures { Acts tree.now place (λ style. interpreters.answers (question_of question.now))
        tree.now result }
{
    within(alloc, answer_text(alloc, node(tree, place), question)?)
}
