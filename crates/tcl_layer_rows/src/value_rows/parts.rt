//! Calls below the commands: values written behind one another, and what is told of a place.
use std::alloc::Global;
use tcl_lists::fault::NestedFault;
use tcl_lists::refusing::not_made;
use tcl_text::text::Text;
use tcl_value::value::Value;
use tcl_words::refusal::Refusal;

/// The value of a text.
fn value_of(alloc: Global, text: Text) -> Result<Value, Refusal> {
    match Value::from_text(text) {
        Ok(value) => Ok(value),
        Err(why) => Err(not_made(alloc, why)),
    }
}

/// `no_place`: what is told of a place that a list hasn't.
pub(crate) fn no_place(alloc: Global) -> Result<Value, Refusal> {
    value_of(alloc, NestedFault::NoPlace.message(alloc)?)
}

/// `write_to ?VALUE ..?`: the values, written behind one another.
pub(crate) fn written(alloc: Global, values: &[Value]) -> Result<Value, Refusal> {
    let mut written = String::new(alloc);
    'values: for value in values {
        value.write_to(alloc, &mut written)?;
    }
    value_of(alloc, Text::from_string(alloc, written)?)
}
