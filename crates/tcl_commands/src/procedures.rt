//! What `info` tells of procedures, of the names of commands, and of scripts.
ghost use Rattle.std.specs.Prelude.{◌≡◌, ◌<◌, ◌+◌, ◌++◌, List, ℕ, drop, length, IfOk, OnOk, Some};
ghost use Rattle.std.specs.Prelude.{◌&&◌, codes};
ghost use Rattle.std.specs.Option.{option_copied};
ghost use Rattle.tcl_core.specs.Endings.{ok};
ghost use Rattle.tcl_core.specs.Paths.{Path};
ghost use Rattle.tcl_core.specs.Programs.Prog.{done};
ghost use Rattle.tcl_core.specs.Trees as core;
ghost use Rattle.tcl_frames.specs.Chain.{kept_if};
ghost use Rattle.tcl_language.specs.Instructions.{either};
ghost use Rattle.tcl_language.specs.Procedures as procedures;
ghost use Rattle.tcl_language.specs.Variables.{sets};
ghost use Rattle.tcl_run.specs.Ends.{Gave, itself};
ghost use Rattle.tcl_run.specs.Plain.{Acts};
ghost use Rattle.tcl_run.specs.Runs.{IsLevel};
ghost use Rattle.tcl_tree.specs.Own.{Own};
ghost use Rattle.tcl_tree.specs.TreeOf.{tree_of, Names};

use crate::inspection::{list_value, truth_value};
use crate::naming::name_of;
use crate::steps::set_variable;
use std::alloc::{AllocError, Global};
use tcl_glob::matches;
use tcl_parser::reader::is_complete;
use tcl_run::failure::{bad_name, no_procedure, unknown_subcommand, wrong_args};
use tcl_run::interruption::Interruption;
use tcl_text::text::Text;
use tcl_tree::command::{Command, Commands};
use tcl_tree::parameter::Parameter;
use tcl_tree::procedure::Procedure;
use tcl_tree::tree::{Place, Tree};
use tcl_value::value::Value;

/// The procedure that a command is.
fn procedure_in(alloc: Global, command: &Command, word: &Value) -> Result<Procedure, Interruption>
    ensures { Gave itself (procedures.procedure_in word.now (Some command.now)) result }
{
    match command {
        Command::Procedure(procedure) => Ok(procedure.clone()?),
        Command::Builtin(_) => Err(no_procedure(alloc, word.text(alloc)?.as_str())),
        Command::Alias(_) => Err(no_procedure(alloc, word.text(alloc)?.as_str())),
        Command::Child => Err(no_procedure(alloc, word.text(alloc)?.as_str())),
    }
}

/// The procedure that a word names.
fn procedure_of(
    tree: &Tree,
    alloc: Global,
    place: Place,
    word: &Value,
) -> Result<Procedure, Interruption>
    ensures { (p : Path) (n : core.Node Own) → Names tree.now place p →
        tree_of tree.now p ≡ Some n →
        Gave itself (procedures.procedure_of n.own word.now) result }
{
    let Some(name) = name_of(alloc, word)? else {
        return Err(bad_name(alloc, word.text(alloc)?.as_str()));
    };
    match tree.command_at(place, &name) {
        Some(command) => procedure_in(alloc, command, word),
        None => Err(no_procedure(alloc, word.text(alloc)?.as_str())),
    }
}

/// The names of parameters.
fn parameter_names(alloc: Global, parameters: &[Parameter]) -> Result<Vec<Text>, AllocError>
    ensures { IfOk result (λ names. names.items ≡ procedures.parameter_names parameters.now) }
{
    let mut names = Vec::new(alloc);
    'parameters: for parameter in parameters {
        names.push(parameter.name.clone()?)?;
    }
    Ok(names)
}

/// `info args procname`: the names of the parameters of a procedure.
fn args_of(tree: &Tree, alloc: Global, place: Place, args: &[Value]) -> Result<Value, Interruption>
    requires { (p : Path) × Names tree.now place p }
    ensures { Acts tree.now place (λ style. procedures.args_of args.now) tree.now result }
{
    match args {
        [name] => {
            let procedure = procedure_of(tree, alloc, place, name)?;
            let names = parameter_names(alloc, procedure.parameters())?;
            list_value(alloc, names.as_slice())
        }
        _ => Err(wrong_args(alloc, "info args procname")),
    }
}

/// `info body procname`: the body of a procedure.
fn body_of(tree: &Tree, alloc: Global, place: Place, args: &[Value]) -> Result<Value, Interruption>
    requires { (p : Path) × Names tree.now place p }
    ensures { Acts tree.now place (λ style. procedures.body_of args.now) tree.now result }
{
    match args {
        [name] => {
            let procedure = procedure_of(tree, alloc, place, name)?;
            Ok(procedure.body().clone()?)
        }
        _ => Err(wrong_args(alloc, "info body procname")),
    }
}

/// A default, shared.
fn shared(default: &Option<Value>) -> Result<Option<Value>, AllocError>
    ensures { IfOk result (λ own. own ≡ default.now) }
{
    match default {
        Some(value) => Ok(Some(value.clone()?)),
        None => Ok(None),
    }
}

/// The default of the parameter with a name, if there are such a parameter and such a default.
fn default_in(name: &Text, parameters: &[Parameter]) -> Result<Option<Option<Value>>, AllocError>
    ensures { IfOk result (λ found. found ≡ procedures.default_in name.now parameters.now) }
{
    'parameters: for parameter in parameters {
        if parameter.name == *name {
            return Ok(Some(shared(&parameter.default)?));
        }
    }
    Ok(None)
}

/// Sets a variable to a default, or to the empty value where there is none, and returns whether
/// there is one.
fn set_default(
    tree: &mut Tree,
    alloc: Global,
    place: Place,
    variable: &Value,
    value: Value,
    is_there: bool,
) -> Result<Value, Interruption>
    requires { (p : Path) × Names tree.old place p }
    ensures acts { Acts tree.old place (λ style. sets variable.now value
        (done (ok (either is_there (codes "1") (codes "0"))))) tree.new result }
    ensures level { IsLevel tree.old tree.new }
{
    set_variable(tree, alloc, place, variable, value)?;
    Ok(truth_value(is_there))
}

/// Sets a variable to the default that was found of a parameter.
fn store_default(
    tree: &mut Tree,
    alloc: Global,
    place: Place,
    name: &Value,
    variable: &Value,
    found: Option<Option<Value>>,
) -> Result<Value, Interruption>
    requires { (p : Path) × Names tree.old place p }
    ensures acts { Acts tree.old place
        (λ style. procedures.stores_default name.now variable.now found) tree.new result }
    ensures level { IsLevel tree.old tree.new }
{
    match found {
        Some(Some(value)) => set_default(tree, alloc, place, variable, value, true),
        Some(None) => set_default(tree, alloc, place, variable, Value::empty(), false),
        None => Err(bad_name(alloc, name.text(alloc)?.as_str())),
    }
}

/// `info default procname arg varname`: sets a variable to the default of a parameter, or to the
/// empty value, and returns whether there is a default.
fn default_of(
    tree: &mut Tree,
    alloc: Global,
    place: Place,
    args: &[Value],
) -> Result<Value, Interruption>
    requires { (p : Path) × Names tree.old place p }
    ensures acts { Acts tree.old place (λ style. procedures.default_of args.now) tree.new result }
    ensures level { IsLevel tree.old tree.new }
{
    match args {
        [name, parameter, variable] => {
            let procedure = procedure_of(tree, alloc, place, name)?;
            let wanted = parameter.text(alloc)?;
            let found = default_in(&wanted, procedure.parameters())?;
            store_default(tree, alloc, place, parameter, variable, found)
        }
        _ => Err(wrong_args(alloc, "info default procname arg varname")),
    }
}

/// The commands of the interpreter that the place names.
fn commands_seen(tree: &Tree, place: Place) -> &Commands
    requires { (p : Path) × Names tree.now place p }
    ensures { (p : Path) (n : core.Node Own) → Names tree.now place p →
        tree_of tree.now p ≡ Some n → result.now.entries ≡ n.own.commands }
{
    match tree.node_at(place) {
        Some(node) => &node.state.commands,
        None => unreachable!(),
    }
}

/// Whether a command is a procedure.
fn is_procedure(command: &Command) -> bool
    ensures { result ≡ procedures.is_procedure command.now }
{
    match command {
        Command::Procedure(_) => true,
        Command::Builtin(_) => false,
        Command::Alias(_) => false,
        Command::Child => false,
    }
}

/// Whether the name of a command is listed: of procedures alone, or of all.
fn is_listed(only_procedures: bool, command: &Command) -> bool
    ensures { result ≡ procedures.is_listed only_procedures command.now }
{
    !only_procedures || is_procedure(command)
}

/// Whether a pattern takes a name; where there is none, each is taken.
fn is_taken(pattern: Option<&Text>, name: &Text) -> bool
    ensures { result ≡ procedures.is_taken (option_copied pattern.entry) name.now }
{
    match pattern {
        Some(pattern) => matches(pattern.as_str(), name.as_str(), false),
        None => true,
    }
}

/// Whether the name of a command is listed, and a pattern takes it.
fn is_wanted(only_procedures: bool, pattern: Option<&Text>, name: &Text, command: &Command) -> bool
    ensures { result ≡ (procedures.is_listed only_procedures command.now &&
        procedures.is_taken (option_copied pattern.entry) name.now) }
{
    is_listed(only_procedures, command) && is_taken(pattern, name)
}

/// Adds a name, if it is wanted.
fn push_if(names: &mut Vec<Text>, is_wanted: bool, name: &Text) -> Result<(), AllocError>
    ensures { (rest : List (List ℕ)) → OnOk result
        (names.new.items ++ rest ≡ names.old.items ++ kept_if is_wanted name.now rest) }
{
    if is_wanted {
        names.push(name.clone()?)?;
    }
    Ok(())
}

/// Adds the name of the command at a place in their order, if it is wanted.
fn push_name_at(
    names: &mut Vec<Text>,
    commands: &Commands,
    only_procedures: bool,
    pattern: Option<&Text>,
    index: usize,
) -> Result<(), AllocError>
    requires { index < length commands.now.entries }
    ensures { OnOk result
        (names.new.items ++ procedures.listed_names only_procedures (option_copied pattern.entry)
        (drop (index + 1) commands.now.entries)
        ≡ names.old.items ++ procedures.listed_names only_procedures (option_copied pattern.entry)
        (drop index commands.now.entries)) }
{
    match commands.get_index(index) {
        Some((name, command)) => {
            let wanted = is_wanted(only_procedures, pattern, name, command);
            push_if(names, wanted, name)
        }
        None => unreachable!(),
    }
}

/// The names of commands that are wanted, in the order in which these were made.
fn listed_names(
    alloc: Global,
    commands: &Commands,
    only_procedures: bool,
    pattern: Option<&Text>,
) -> Result<Vec<Text>, AllocError>
    ensures { IfOk result (λ names. names.items
        ≡ procedures.listed_names only_procedures (option_copied pattern.entry)
        commands.now.entries) }
{
    let mut names = Vec::new(alloc);
    'commands: for index in 0..commands.len() {
        push_name_at(&mut names, commands, only_procedures, pattern, index)?;
    }
    Ok(names)
}

/// The list of the names of commands that aren't hidden: of procedures alone, or of all.
fn listed(
    tree: &Tree,
    alloc: Global,
    place: Place,
    only_procedures: bool,
    pattern: Option<&Text>,
) -> Result<Value, Interruption>
    requires { (p : Path) × Names tree.now place p }
    ensures { Acts tree.now place
        (λ style. procedures.listed only_procedures (option_copied pattern.entry)) tree.now
        result }
{
    let commands = commands_seen(tree, place);
    let names = listed_names(alloc, commands, only_procedures, pattern)?;
    list_value(alloc, names.as_slice())
}

/// `info commands ?pattern?` and `info procs ?pattern?`: the names of commands.
fn names(
    tree: &Tree,
    alloc: Global,
    place: Place,
    only_procedures: bool,
    form: &str,
    args: &[Value],
) -> Result<Value, Interruption>
    requires { (p : Path) × Names tree.now place p }
    ensures { Acts tree.now place
        (λ style. procedures.names only_procedures form.now args.now) tree.now result }
{
    match args {
        [] => listed(tree, alloc, place, only_procedures, None),
        [pattern] => {
            let pattern = pattern.text(alloc)?;
            listed(tree, alloc, place, only_procedures, Some(&pattern))
        }
        _ => Err(wrong_args(alloc, form)),
    }
}

/// `info complete command`: whether nothing stands open at the end of a script.
fn complete(tree: &Tree, alloc: Global, place: Place, args: &[Value]) -> Result<Value, Interruption>
    ensures { Acts tree.now place (λ style. procedures.complete args.now) tree.now result }
{
    let (_tree, _place) = (tree, place);
    match args {
        [text] => {
            let text = text.text(alloc)?;
            Ok(truth_value(is_complete(alloc, text.as_str())?))
        }
        _ => Err(wrong_args(alloc, "info complete command")),
    }
}

/// `info subcommand ?arg ...?`: what there is to know of procedures, of the names of commands, and
/// of scripts. (info(n))
///
/// # Errors
/// 244 of the subcommand; 241; 238 and 246 of a procedure; of `default` 238 of the parameter, and
/// 232, 233 and 238 of the variable; 122; want of memory.
pub(crate) fn subcommand(
    tree: &mut Tree,
    alloc: Global,
    place: Place,
    word: &Value,
    args: &[Value],
) -> Result<Value, Interruption>
    requires { (p : Path) × Names tree.old place p }
    ensures acts { Acts tree.old place
        (λ style. procedures.chosen word.now args.now) tree.new result }
    ensures level { IsLevel tree.old tree.new }
{
    if word.is_text(b"args") {
        return args_of(tree, alloc, place, args);
    }
    if word.is_text(b"body") {
        return body_of(tree, alloc, place, args);
    }
    if word.is_text(b"default") {
        return default_of(tree, alloc, place, args);
    }
    if word.is_text(b"commands") {
        return names(tree, alloc, place, false, "info commands ?pattern?", args);
    }
    if word.is_text(b"procs") {
        return names(tree, alloc, place, true, "info procs ?pattern?", args);
    }
    if word.is_text(b"complete") {
        return complete(tree, alloc, place, args);
    }
    Err(unknown_subcommand(alloc, word.text(alloc)?.as_str()))
}
