//! The parameters of procedures.
use tcl_text::text::Text;
use tcl_value::value::Value;

/// A parameter: its name, and what it is where a call gives no word for it.
#[derive(Drop)]
pub struct Parameter {
    pub name: Text,
    pub default: Option<Value>,
}
