//! The levels of a path into nested lists and dicts.
ghost use Rattle.std.specs.Prelude.{◌≡◌, IfOk, IsErrOf};
ghost use Rattle.tcl_value.specs.Limits.{IsPast};
ghost use Rattle.tcl_value.specs.Writing.{write};
ghost use Rattle.tcl_value.specs.Texts.{flat};
ghost use Rattle.tcl_value.specs.Dicts.{put};
ghost use Rattle.tcl_lists.specs.Nested.{with_element};
ghost use Rattle.tcl_lists.specs.Steps.{above, above_all};

use std::alloc::Global;
use tcl_value::dict::Dict;
use tcl_value::list::List;
use tcl_value::value::{Value, ValueError};

/// A list or a dict on the way, and where in it the way leads on.
#[derive(Drop)]
pub(crate) enum Step {
    /// A list, and the place of an element or that behind the last.
    Element(List, usize),
    /// A dict and a key.
    Entry(Dict, Value),
}

impl Step {
    /// The value of its list or dict with another value inside.
    ///
    /// # Errors
    /// [`ValueError::TooLong`] only where the text would be too long for a value; want of memory.
    fn with_inner(self, alloc: Global, inner: Value) -> Result<Value, ValueError>
        ensures made { IfOk result (λ value. value ≡ above self inner) }
        ensures refused { IsErrOf result ValueError.TooLong → IsPast (above self inner) }
    {
        match self {
            Step::Element(list, place) => with_element(alloc, list, place, inner),
            Step::Entry(dict, key) => with_value(alloc, dict, &key, inner),
        }
    }
}

/// The value of a list with an element at a place, where it goes last if there is none yet.
fn with_element(
    alloc: Global,
    list: List,
    place: usize,
    element: Value,
) -> Result<Value, ValueError>
    ensures made { IfOk result (λ value. value ≡ write (with_element place element list)) }
    ensures refused { IsErrOf result ValueError.TooLong →
        IsPast (write (with_element place element list)) }
{
    let mut list = list;
    if place < list.len() {
        list.set(alloc, place, element)?;
    } else {
        list.push(alloc, element)?;
    }
    Value::from_list(alloc, list)
}

/// The value of a dict with a value for a key.
fn with_value(alloc: Global, dict: Dict, key: &Value, value: Value) -> Result<Value, ValueError>
    ensures made { IfOk result (λ made. made ≡ write (flat (put dict key.now value))) }
    ensures refused { IsErrOf result ValueError.TooLong →
        IsPast (write (flat (put dict key.now value))) }
{
    let mut dict = dict;
    dict.set(alloc, key, value)?;
    Value::from_dict(dict)
}

/// The value of the first of some levels with another value inside the last.
///
/// # Errors
/// [`ValueError::TooLong`] only where the text would be too long for a value; want of memory.
pub(crate) fn with_innermost(
    alloc: Global,
    steps: Vec<Step>,
    value: Value,
) -> Result<Value, ValueError>
    ensures made { IfOk result (λ made. made ≡ above_all steps.items value) }
    ensures refused { IsErrOf result ValueError.TooLong → IsPast (above_all steps.items value) }
{
    let mut steps = steps;
    let mut value = value;
    'steps: while let Some(step) = steps.pop() {
        value = step.with_inner(alloc, value)?;
    }
    Ok(value)
}
