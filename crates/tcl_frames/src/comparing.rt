//! Equal values, variables and frames, told without memory.
ghost use Rattle.std.specs.Prelude.{◌≡◌, ◌↔◌, ◌<◌, IsTrue, length, slice_get};

use crate::frame::Frame;
use crate::name_map::NameMap;
use crate::variable::{LinkTarget, Variable};
use tcl_text::text::Text;
use tcl_value::value::Value;

/// Something whose equals can be told without memory.
pub trait Same {
    /// Whether the other is equal. This takes no memory.
    fn same(&self, other: &Self) -> bool
        ensures { IsTrue result ↔ (self.now ≡ other.now) };
}

impl Same for Value {
    fn same(&self, other: &Value) -> bool {
        Value::same(self, other)
    }
}

impl Same for Text {
    fn same(&self, other: &Text) -> bool {
        *self == *other
    }
}

impl<T: Same> Same for Option<T> {
    fn same(&self, other: &Option<T>) -> bool {
        match self {
            Some(this) => match other {
                Some(that) => this.same(that),
                None => false,
            },
            None => other.is_none(),
        }
    }
}

/// Whether two slices have equal items. This takes no memory.
pub fn same_items<T: Same>(these: &[T], those: &[T]) -> bool
    ensures { IsTrue result ↔ (these.now ≡ those.now) }
{
    if these.len() != those.len() {
        return false;
    }
    'items: for index in 0..these.len() {
        if !these[index].same(&those[index]) {
            return false;
        }
    }
    true
}

/// Whether two maps have equal entries at a place.
fn same_entry<V: Same>(these: &NameMap<V>, those: &NameMap<V>, index: usize) -> bool
    requires { index < length these.now }
    ensures { IsTrue result ↔ (slice_get these.now index ≡ slice_get those.now index) }
{
    match these.entry(index) {
        Some((name, value)) => match those.entry(index) {
            Some((other_name, other)) => name == other_name && value.same(other),
            None => false,
        },
        None => unreachable!(),
    }
}

impl<V: Same> Same for NameMap<V> {
    fn same(&self, other: &NameMap<V>) -> bool {
        if self.len() != other.len() {
            return false;
        }
        'entries: for index in 0..self.len() {
            if !same_entry(self, other, index) {
                return false;
            }
        }
        true
    }
}

impl Same for LinkTarget {
    fn same(&self, other: &LinkTarget) -> bool {
        self.level == other.level && self.name.same(&other.name) && self.key.same(&other.key)
    }
}

impl Same for Variable {
    fn same(&self, other: &Variable) -> bool {
        match self {
            Variable::Scalar(value) => match other {
                Variable::Scalar(other) => value.same(other),
                Variable::Array(_) => false,
                Variable::Link(_) => false,
            },
            Variable::Array(elements) => match other {
                Variable::Scalar(_) => false,
                Variable::Array(other) => elements.same(other),
                Variable::Link(_) => false,
            },
            Variable::Link(place) => match other {
                Variable::Scalar(_) => false,
                Variable::Array(_) => false,
                Variable::Link(other) => place.same(other),
            },
        }
    }
}

impl Same for Frame {
    fn same(&self, other: &Frame) -> bool {
        same_items(self.words(), other.words()) && self.variables().same(other.variables())
    }
}
