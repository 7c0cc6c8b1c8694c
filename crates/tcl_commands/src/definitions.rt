//! The commands that make and name commands.
ghost use Rattle.std.specs.Prelude.{◌≡◌, ◌++◌, ◌∷◌, [], List, IfOk, IfErr, Some};
ghost use Rattle.tcl_core.specs.Paths.{Path};
ghost use Rattle.tcl_language.specs.Definitions as definitions;
ghost use Rattle.tcl_language.specs.Instructions.{Program};
ghost use Rattle.tcl_language.specs.Interpreters.{refused_text, renaming, done_so};
ghost use Rattle.std.specs.Option.{option_copied};
ghost use Rattle.tcl_language.specs.Naming.{command_name, definable, named, renamed, removed};
ghost use Rattle.tcl_tree.specs.Changes.{is_child};
ghost use Rattle.tcl_run.specs.Ends.{Gave, Interrupts};
ghost use Rattle.tcl_run.specs.Plain.{Acts};
ghost use Rattle.tcl_run.specs.Runs.{IsLevel};
ghost use Rattle.tcl_tree.specs.TreeOf.{tree_of, Names};
ghost use Rattle.tcl_tree.specs.Own.{Own};
ghost use Rattle.tcl_core.specs.Trees as core;
ghost use Rattle.tcl_interpreter.specs.declared.command.Command.TheVariants as command;
ghost use Rattle.tcl_interpreter.specs.declared.parameter.Parameter.{Parameter};
ghost use Rattle.tcl_commands.specs.Parameters.{reads_parameter, parameters_from};
ghost use Rattle.tcl_commands.specs.Ending.{EndsSo};

use crate::naming::{kept_name, name_of, naming_failure, own_command};
use std::alloc::{AllocError, Global};
use tcl_frames::name::is_plain_name;
use tcl_run::failure::{bad_name, wrong_args};
use tcl_run::interruption::Interruption;
use tcl_run::steps::read_list;
use tcl_text::text::Text;
use tcl_tree::command::Command;
use tcl_tree::parameter::Parameter;
use tcl_tree::procedure::Procedure;
use tcl_tree::refusal::TreeError;
use tcl_tree::tree::{Place, Tree};
use tcl_value::value::Value;

/// Whether a parameter has the name.
fn has_name(name: &Text, parameters: &[Parameter]) -> bool
    ensures { result ≡ definitions.has_name name.now parameters.now }
{
    'parameters: for parameter in parameters {
        if parameter.name == *name {
            return true;
        }
    }
    false
}

/// A parameter of this name behind others.
fn named_parameter(
    alloc: Global,
    name: Text,
    default: Option<Value>,
    before: &[Parameter],
) -> Result<Parameter, Interruption>
    ensures made { IfOk result
        (λ made. (k : List Parameter → Program) →
        definitions.with_parameter name default before.now k ≡ k (before.now ++ made ∷ [])) }
    ensures refused { IfErr result
        (λ i. Interrupts i (λ e. (k : List Parameter → Program) →
        EndsSo (definitions.with_parameter name default before.now k) e)) }
{
    if !is_plain_name(name.as_str()) || has_name(&name, before) {
        return Err(bad_name(alloc, name.as_str()));
    }
    Ok(Parameter { name, default })
}

/// A parameter behind others: a name, or a name and a default.
fn read_parameter(
    alloc: Global,
    text: &Value,
    before: &[Parameter],
) -> Result<Parameter, Interruption>
    ensures made { IfOk result
        (λ made. (k : List Parameter → Program) →
        reads_parameter text.now before.now k ≡ k (before.now ++ made ∷ [])) }
    ensures refused { IfErr result
        (λ i. Interrupts i (λ e. (k : List Parameter → Program) →
        EndsSo (reads_parameter text.now before.now k) e)) }
{
    let mut own = text.clone()?;
    let words = read_list(alloc, &mut own)?;
    match words.len() {
        1 => named_parameter(alloc, words.get(0)?.text(alloc)?, None, before),
        2 => named_parameter(
            alloc,
            words.get(0)?.text(alloc)?,
            Some(words.get(1)?),
            before,
        ),
        _ => Err(bad_name(alloc, text.text(alloc)?.as_str())),
    }
}

/// The parameters of a procedure, from the left.
fn read_parameters(alloc: Global, text: &Value) -> Result<Vec<Parameter>, Interruption>
    ensures made { IfOk result
        (λ made. (k : List Parameter → Program) → parameters_from text.now k ≡ k made.items) }
    ensures refused { IfErr result
        (λ i. Interrupts i (λ e. (k : List Parameter → Program) →
        EndsSo (parameters_from text.now k) e)) }
{
    let mut own = text.clone()?;
    let texts = read_list(alloc, &mut own)?;
    let mut made = Vec::with_capacity(alloc, texts.len())?;
    'texts: for index in 0..texts.len() {
        let parameter = read_parameter(alloc, &texts.get(index)?, made.as_slice())?;
        made.push(parameter)?;
    }
    Ok(made)
}

/// The name by which a procedure may be kept: one of a command, and no child's.
///
/// # Errors
/// 238 and 302 of the name; want of memory.
fn procedure_name(
    tree: &Tree,
    alloc: Global,
    place: Place,
    name: &Value,
) -> Result<Text, Interruption>
    ensures { (p : Path) (n : core.Node Own) → Names tree.now place p →
        tree_of tree.now p ≡ Some n → Gave refused_text (definable n.own name.now) result }
{
    let kept = kept_name(alloc, name)?;
    if is_child(tree.command_at(place, &kept)) {
        return Err(naming_failure(alloc, TreeError::Exists, name));
    }
    Ok(kept)
}

/// Makes a name a procedure.
fn define(
    tree: &mut Tree,
    alloc: Global,
    place: Place,
    name: &Value,
    procedure: Procedure,
) -> Result<Value, Interruption>
    requires { (p : Path) × Names tree.old place p }
    ensures acts { Acts tree.old place
        (λ style. renaming done_so (λ own. named own name.now (command.Procedure procedure)))
        tree.new result }
    ensures level { IsLevel tree.old tree.new }
{
    let kept = kept_name(alloc, name)?;
    match tree.set_proc_at(place, kept, procedure) {
        Ok(()) => Ok(Value::empty()),
        Err(refusal) => Err(naming_failure(alloc, refusal, name)),
    }
}

/// The body of a procedure, which is read, and keeps where that is found: no call reads it again.
fn read_body(tree: &Tree, alloc: Global, body: &Value) -> Result<Value, AllocError>
    ensures { IfOk result (λ own. own ≡ body.now) }
{
    let mut own = body.clone()?;
    tree.script_of(alloc, &mut own)?;
    Ok(own)
}

/// `proc name args body`: makes a name a procedure, whose parameters are read from a list.
/// (proc(n))
///
/// # Errors
/// 241; 238 and 302 of the name; 101 to 104 and 238 of the parameters; want of memory.
pub fn proc(
    tree: &mut Tree,
    alloc: Global,
    place: Place,
    args: &[Value],
) -> Result<Value, Interruption>
    requires { (p : Path) × Names tree.old place p }
    ensures acts { Acts tree.old place (λ style. definitions.proc args.now) tree.new result }
    ensures level { IsLevel tree.old tree.new }
{
    match args {
        [name, parameters, body] => {
            let _kept = procedure_name(tree, alloc, place, name)?;
            let parameters = read_parameters(alloc, parameters)?;
            let procedure = Procedure::new(alloc, parameters, read_body(tree, alloc, body)?)?;
            define(tree, alloc, place, name, procedure)
        }
        _ => Err(wrong_args(alloc, "proc name args body")),
    }
}

/// Gives a command that isn't a child another name.
///
/// # Errors
/// 238, 305 and 302 of the old name; 238 and 302 of the new one; want of memory.
pub fn rename_to(
    tree: &mut Tree,
    alloc: Global,
    place: Place,
    old: &Value,
    new: &Value,
) -> Result<Value, Interruption>
    requires { (p : Path) × Names tree.old place p }
    ensures acts { Acts tree.old place
        (λ style. renaming done_so (λ own. renamed own old.now new.now)) tree.new result }
    ensures level { IsLevel tree.old tree.new }
{
    let name = kept_name(alloc, old)?;
    own_command(tree, alloc, place, &name, old)?;
    let new_name = kept_name(alloc, new)?;
    match tree.rename_at(place, &name, new_name) {
        Ok(()) => Ok(Value::empty()),
        Err(refusal) => Err(naming_failure(alloc, refusal, new)),
    }
}

/// Takes a command that isn't a child away.
///
/// # Errors
/// 238, 305 and 302 of the name; want of memory.
pub fn remove(
    tree: &mut Tree,
    alloc: Global,
    place: Place,
    name: &Value,
) -> Result<Value, Interruption>
    requires { (p : Path) × Names tree.old place p }
    ensures acts { Acts tree.old place
        (λ style. renaming done_so (λ own. removed own name.now)) tree.new result }
    ensures level { IsLevel tree.old tree.new }
{
    let kept = kept_name(alloc, name)?;
    match tree.remove_at(place, &kept) {
        Ok(()) => Ok(Value::empty()),
        Err(refusal) => Err(naming_failure(alloc, refusal, name)),
    }
}

/// Whether a command is a child's.
fn is_child(command: Option<&Command>) -> bool
    ensures { result ≡ is_child (option_copied command.entry) }
{
    match command {
        Some(Command::Child) => true,
        Some(Command::Builtin(_)) => false,
        Some(Command::Procedure(_)) => false,
        Some(Command::Alias(_)) => false,
        None => false,
    }
}

/// Whether a name is that of a child's command, so that to take it away is to delete the child.
///
/// # Errors
/// Want of memory.
pub fn names_child(
    tree: &Tree,
    alloc: Global,
    place: Place,
    name: &Value,
) -> Result<bool, AllocError>
    ensures { IfOk result (λ is. (p : Path) (n : core.Node Own) → Names tree.now place p →
        tree_of tree.now p ≡ Some n → is ≡ definitions.child_named n.own (command_name name.now)) }
{
    match name_of(alloc, name)? {
        Some(kept) => Ok(is_child(tree.command_at(place, &kept))),
        None => Ok(false),
    }
}
