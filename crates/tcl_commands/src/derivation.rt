//! Variables that are set to what is derived from another value: where that is the variable's own,
//! it is changed in place.
ghost use Rattle.std.specs.Prelude.{◌≡◌, ◌++◌, ◌∷◌, [], MatchResult};
ghost use Rattle.std.specs.String.{string_bytes};
ghost use Rattle.tcl_core.specs.Paths.{Path};
ghost use Rattle.tcl_language.specs.Variables as variables;
ghost use Rattle.tcl_run.specs.Plain.{Acts};
ghost use Rattle.tcl_run.specs.Runs.{IsLevel};
ghost use Rattle.tcl_run.specs.declared.interruption.Interruption.TheVariants.{Memory};
ghost use Rattle.tcl_tree.specs.TreeOf.{Names};
ghost use Rattle.tcl_value.specs.Writing.{write};
ghost use Rattle.tcl_commands.specs.Derived.{text_of};
ghost use Rattle.tcl_commands.specs.Setting.{SetsTo};

use std::alloc::Global;
use tcl_frames::frames::Frames;
use tcl_frames::variable_name::VariableName;
use tcl_run::interruption::Interruption;
use tcl_run::steps::frame_failure;
use tcl_tree::tree::{Place, Tree};
use tcl_value::list_part::ListPart;
use tcl_value::value::Value;

/// A value that is derived from another one, and isn't made yet. Until it is, the other one is
/// shared. One whose text is longer than a value may be is answered as want of memory is: whoever
/// asks for it looks at that before.
#[derive(Drop)]
pub enum Derived {
    /// A part of a list: [`ListPart::is_within`] tells whether it is short enough.
    Part(ListPart),
    /// The text of a value, and another one behind it.
    Longer(Value, String),
}

/// A part of a list as a value.
fn part_value(alloc: Global, part: ListPart) -> Result<Value, Interruption>
    ensures { MatchResult result (λ value. value ≡ write part) (λ i. i ≡ Memory) }
{
    let list = part.into_list(alloc)?;
    match Value::from_list(alloc, list) {
        Ok(value) => Ok(value),
        Err(_) => Err(Interruption::Memory),
    }
}

/// A value whose text is that of another one, and more behind it.
fn longer_value(alloc: Global, value: Value, more: &str) -> Result<Value, Interruption>
    ensures { MatchResult result (λ longer. longer ≡ value ++ more.now) (λ i. i ≡ Memory) }
{
    let mut value = value;
    if value.append(alloc, more).is_err() {
        return Err(Interruption::Memory);
    }
    Ok(value)
}

/// The value that is derived: in place, where nobody else shares the other one.
fn derived_value(alloc: Global, derived: Derived) -> Result<Value, Interruption>
    ensures { MatchResult result (λ value. value ≡ text_of derived) (λ i. i ≡ Memory) }
{
    match derived {
        Derived::Part(part) => part_value(alloc, part),
        Derived::Longer(value, more) => longer_value(alloc, value, more.as_str()),
    }
}

/// Puts what is derived in the place of a value, and gives it. The value goes first, since the
/// other one may be its own.
fn replace(alloc: Global, value: &mut Value, derived: Derived) -> Result<Value, Interruption>
    ensures { MatchResult result
        (λ given. (given ≡ text_of derived) × (value.new ≡ text_of derived)) (λ i. i ≡ Memory) }
{
    *value = Value::empty();
    let made = derived_value(alloc, derived)?;
    *value = made.clone()?;
    Ok(made)
}

/// Sets a variable, and gives what it then holds.
fn set_value(
    frames: &mut Frames,
    alloc: Global,
    name: &VariableName,
    value: Value,
) -> Result<Value, Interruption>
    ensures { SetsTo frames.old name.now value frames.new result }
{
    let given = value.clone()?;
    match frames.set_near(alloc, name, value) {
        Ok(()) => Ok(given),
        Err(error) => Err(frame_failure(alloc, error)),
    }
}

/// Sets a variable to what is derived, and gives what it then holds.
fn set_to_derived(
    frames: &mut Frames,
    alloc: Global,
    name: &VariableName,
    derived: Derived,
) -> Result<Value, Interruption>
    ensures { SetsTo frames.old name.now (text_of derived) frames.new result }
{
    if let Some(value) = frames.scalar_mut_near(name) {
        return replace(alloc, value, derived);
    }
    let value = derived_value(alloc, derived)?;
    set_value(frames, alloc, name, value)
}

/// `set` of a variable of the interpreter that the place names to what is derived.
#[inline(never)]
pub(crate) fn set_derived(
    tree: &mut Tree,
    alloc: Global,
    place: Place,
    name: &VariableName,
    derived: Derived,
) -> Result<Value, Interruption>
    requires { (p : Path) × Names tree.old place p }
    ensures acts { Acts tree.old place
        (λ style. variables.set (name.now ∷ text_of derived ∷ [])) tree.new result }
    ensures level { IsLevel tree.old tree.new }
{
    match tree.frames_of(place) {
        Some(frames) => set_to_derived(frames, alloc, name, derived),
        None => unreachable!(),
    }
}
