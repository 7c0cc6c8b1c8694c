//! What a name can stand for.
ghost use Rattle.std.specs.Prelude.{◌≡◌, Some};
ghost use Rattle.tcl_frames.specs.Access.{is_linked};

use crate::name_map::NameMap;
use std::alloc::AllocError;
use tcl_text::text::Text;
use tcl_value::value::Value;

/// A place: a name at a level, or an element of the array there.
#[derive(Drop)]
pub struct LinkTarget {
    pub level: usize,
    pub name: Text,
    pub key: Option<Text>,
}

/// What a name stands for.
#[derive(Drop)]
pub enum Variable {
    /// A value.
    Scalar(Value),
    /// Elements, by their keys.
    Array(NameMap<Value>),
    /// Another place.
    Link(LinkTarget),
}

impl Variable {
    /// Whether it is another place.
    pub fn is_link(&self) -> bool
        ensures { result ≡ is_linked (Some self.now) }
    {
        match self {
            Variable::Link(_) => true,
            Variable::Scalar(_) => false,
            Variable::Array(_) => false,
        }
    }
}

impl Clone for LinkTarget {
    ghost is_clone = { λ x y. y ≡ x };

    fn clone(&self) -> Result<LinkTarget, AllocError> {
        let name = self.name.clone()?;
        let key = self.key.clone()?;
        Ok(LinkTarget {
            level: self.level,
            name,
            key,
        })
    }
}

impl Clone for Variable {
    ghost is_clone = { λ x y. y ≡ x };

    fn clone(&self) -> Result<Variable, AllocError> {
        match self {
            Variable::Scalar(value) => Ok(Variable::Scalar(value.clone()?)),
            Variable::Array(elements) => Ok(Variable::Array(elements.clone()?)),
            Variable::Link(place) => Ok(Variable::Link(place.clone()?)),
        }
    }
}
