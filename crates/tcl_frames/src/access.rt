//! What is done to one variable.
ghost use Rattle.std.specs.Prelude.{◌≡◌, ℕ, List, [], ◌∷◌, Ok, Err, Some, None, true, false, IfOk};
ghost use Rattle.std.specs.Prelude.{IfErr, IfSome, OnOk, OnErr, MatchOption};
ghost use Rattle.std.specs.Option.{option_copied};
ghost use Rattle.std.specs.Map.{lookup};
ghost use Rattle.std.specs.Str.{bytes_eq};
ghost use Rattle.tcl_frames.specs.Variables.Part.{whole, element, nested};
ghost use Rattle.tcl_frames.specs.Access.{read_element, value_of, is_held, is_linked};
ghost use Rattle.tcl_frames.specs.Access.{elements_of, assigned, left_of};
ghost use Rattle.indexmap.specs.IndexMap.{insert_all};
ghost use Rattle.tcl_frames.specs.VariableArrays.{extended, thinned};
ghost use Rattle.tcl_frames.specs.declared.variable.Variable.TheVariants.{Array};
ghost use Rattle.tcl_frames.specs.Faults.{Refuses};
ghost use Rattle.tcl_frames.specs.Parts.{seen_part};
ghost use Rattle.tcl_frames.specs.Elements.{PutsElement};

use crate::fault::{FrameError, NameFault, Verb, refused, refused_elements};
use crate::name_map::NameMap;
use crate::variable::Variable;
use std::alloc::{AllocError, Global};
use tcl_text::text::Text;
use tcl_value::value::Value;

/// Which part of a variable is meant: all of it, an element, or an element of an element, of which
/// there is none.
#[derive(Clone, Copy)]
pub enum Part<'a> {
    Whole,
    Element(&'a str),
    Nested,
}

fn whole_value<'a>(variable: Option<&'a Variable>, name: &Text) -> Result<&'a Value, FrameError>
    ensures ok { IfOk result
        (λ v. value_of whole (option_copied variable.entry) name.now ≡ Ok v.now) }
    ensures err { IfErr result
        (λ e. Refuses e (value_of whole (option_copied variable.entry) name.now)) }
{
    match variable {
        None => Err(refused(NameFault::NoVariable(Verb::Read), name)),
        Some(Variable::Scalar(value)) => Ok(value),
        Some(Variable::Array(_)) => Err(refused(NameFault::IsArray(Verb::Read), name)),
        Some(Variable::Link(_)) => Err(refused(NameFault::NotArray(Verb::Read), name)),
    }
}

fn read_element<'a>(
    elements: &'a NameMap<Value>,
    key: &str,
    name: &Text,
) -> Result<&'a Value, FrameError>
    ensures ok { IfOk result
        (λ v. read_element (lookup (bytes_eq key.now) elements.now) name.now ≡ Ok v.now) }
    ensures err { IfErr result
        (λ e. Refuses e (read_element (lookup (bytes_eq key.now) elements.now) name.now)) }
{
    match elements.get(key) {
        Some(value) => Ok(value),
        None => Err(refused(NameFault::NoElement(Verb::Read), name)),
    }
}

fn element_value<'a>(
    variable: Option<&'a Variable>,
    key: &str,
    name: &Text,
) -> Result<&'a Value, FrameError>
    ensures ok { IfOk result
        (λ v. value_of (element key.now) (option_copied variable.entry) name.now ≡ Ok v.now) }
    ensures err { IfErr result
        (λ e. Refuses e (value_of (element key.now) (option_copied variable.entry) name.now)) }
{
    match variable {
        None => Err(refused(NameFault::NoVariable(Verb::Read), name)),
        Some(Variable::Array(elements)) => read_element(elements, key, name),
        Some(Variable::Scalar(_)) => Err(refused(NameFault::NotArray(Verb::Read), name)),
        Some(Variable::Link(_)) => Err(refused(NameFault::NotArray(Verb::Read), name)),
    }
}

/// What a part of a variable holds.
pub fn value_in<'a>(
    variable: Option<&'a Variable>,
    part: Part<'_>,
    name: &Text,
) -> Result<&'a Value, FrameError>
    ensures ok { IfOk result
        (λ v. value_of (seen_part part.entry) (option_copied variable.entry) name.now ≡ Ok v.now) }
    ensures err { IfErr result
        (λ e. Refuses e (value_of (seen_part part.entry) (option_copied variable.entry) name.now)) }
{
    match part {
        Part::Whole => whole_value(variable, name),
        Part::Element(key) => element_value(variable, key, name),
        Part::Nested => Err(refused(NameFault::NotArray(Verb::Read), name)),
    }
}

/// Whether a part of a variable holds a value.
pub fn holds_in(variable: Option<&Variable>, part: Part<'_>) -> bool
    ensures { result ≡ is_held (seen_part part.entry) (option_copied variable.entry) }
{
    match (part, variable) {
        (Part::Whole, Some(Variable::Scalar(_))) => true,
        (Part::Whole, Some(Variable::Array(_))) => true,
        (Part::Element(key), Some(Variable::Array(elements))) => elements.get(key).is_some(),
        _ => false,
    }
}

/// The elements of a variable that is an array.
pub fn elements_in<'a>(variable: Option<&'a Variable>, part: Part<'_>) -> Option<&'a NameMap<Value>>
    ensures { option_copied result
        ≡ elements_of (seen_part part.entry) (option_copied variable.entry) }
{
    match (part, variable) {
        (Part::Whole, Some(Variable::Array(elements))) => Some(elements),
        _ => None,
    }
}

fn one_element(alloc: Global, key: &str, value: Value) -> Result<NameMap<Value>, AllocError>
    ensures { IfOk result (λ elements. elements ≡ (key.now, value) ∷ []) }
{
    let mut elements = NameMap::new(alloc);
    elements.insert_new(alloc, key, value)?;
    Ok(elements)
}

/// The variable that a value makes where there is none.
#[inline(always)]
pub fn new_variable(
    alloc: Global,
    part: Part<'_>,
    value: Value,
    name: &Text,
) -> Result<Variable, FrameError>
    ensures ok { IfOk result (λ v. assigned (seen_part part.entry) None value name.now ≡ Ok v) }
    ensures err { IfErr result
        (λ e. Refuses e (assigned (seen_part part.entry) None value name.now)) }
{
    match part {
        Part::Whole => Ok(Variable::Scalar(value)),
        Part::Element(key) => Ok(Variable::Array(one_element(alloc, key, value)?)),
        Part::Nested => Err(refused(NameFault::NotArray(Verb::Set), name)),
    }
}

/// The array that elements make where there is no variable.
pub fn new_array(alloc: Global, elements: Vec<(Text, Value)>) -> Result<Variable, AllocError>
    ensures { IfOk result (λ v. v ≡ Array (insert_all bytes_eq [] elements.items)) }
{
    let mut array = NameMap::new(alloc);
    array.insert_all(alloc, elements)?;
    Ok(Variable::Array(array))
}

impl Variable {
    fn assign_whole(&mut self, value: Value, name: &Text) -> Result<(), FrameError>
        ensures ok { OnOk result (assigned whole (Some self.old) value name.now ≡ Ok self.new) }
        ensures err { IfErr result
            (λ e. Refuses e (assigned whole (Some self.old) value name.now)) }
        ensures unchanged { OnErr result (self.new ≡ self.old) }
    {
        match self {
            Variable::Scalar(old) => {
                *old = value;
                Ok(())
            }
            Variable::Array(_) => Err(refused(NameFault::IsArray(Verb::Set), name)),
            Variable::Link(_) => Err(refused(NameFault::NotArray(Verb::Set), name)),
        }
    }

    fn assign_element(
        &mut self,
        alloc: Global,
        key: &str,
        value: Value,
        name: &Text,
    ) -> Result<(), FrameError>
        ensures ok { OnOk result
            (assigned (element key.now) (Some self.old) value name.now ≡ Ok self.new) }
        ensures err { IfErr result
            (λ e. Refuses e (assigned (element key.now) (Some self.old) value name.now)) }
        ensures unchanged { OnErr result (self.new ≡ self.old) }
    {
        match self {
            Variable::Array(elements) => {
                elements.insert(alloc, key, value)?;
                Ok(())
            }
            Variable::Scalar(_) => Err(refused(NameFault::NotArray(Verb::Set), name)),
            Variable::Link(_) => Err(refused(NameFault::NotArray(Verb::Set), name)),
        }
    }

    /// Sets an element of the variable, or gives the value back where the variable is no array.
    ///
    /// # Errors
    /// Want of memory, which leaves the variable as it was.
    pub fn put_element(
        &mut self,
        alloc: Global,
        key: &str,
        value: Value,
    ) -> Result<Option<Value>, AllocError>
        ensures ok { IfOk result
            (λ left. MatchOption left (PutsElement self.old key.now value self.new)
            (λ v. (v ≡ value) × (self.new ≡ self.old))) }
        ensures unchanged { OnErr result (self.new ≡ self.old) }
    {
        match self {
            Variable::Array(elements) => {
                elements.insert(alloc, key, value)?;
                Ok(None)
            }
            Variable::Scalar(_) | Variable::Link(_) => Ok(Some(value)),
        }
    }

    /// Sets a part of the variable.
    pub fn assign(
        &mut self,
        alloc: Global,
        part: Part<'_>,
        value: Value,
        name: &Text,
    ) -> Result<(), FrameError>
        ensures ok { OnOk result (assigned (seen_part part.entry) (Some self.old) value name.now
            ≡ Ok self.new) }
        ensures err { IfErr result
            (λ e. Refuses e (assigned (seen_part part.entry) (Some self.old) value name.now)) }
        ensures unchanged { OnErr result (self.new ≡ self.old) }
    {
        match part {
            Part::Whole => self.assign_whole(value, name),
            Part::Element(key) => self.assign_element(alloc, key, value, name),
            Part::Nested => Err(refused(NameFault::NotArray(Verb::Set), name)),
        }
    }

    /// Sets a part of the variable, or gives the value back where the variable is a link.
    pub fn assign_unlinked(
        &mut self,
        alloc: Global,
        part: Part<'_>,
        value: Value,
        name: &Text,
    ) -> Result<Option<Value>, FrameError>
        ensures ok { IfOk result
            (λ left. MatchOption left ((is_linked (Some self.old) ≡ false) ×
            (assigned (seen_part part.entry) (Some self.old) value name.now ≡ Ok self.new))
            (λ v. (is_linked (Some self.old) ≡ true) × (v ≡ value) × (self.new ≡ self.old))) }
        ensures err { IfErr result
            (λ e. (is_linked (Some self.old) ≡ false) ×
            Refuses e (assigned (seen_part part.entry) (Some self.old) value name.now)) }
        ensures unchanged { OnErr result (self.new ≡ self.old) }
    {
        if self.is_link() {
            return Ok(Some(value));
        }
        match self.assign(alloc, part, value, name) {
            Ok(()) => Ok(None),
            Err(error) => Err(error),
        }
    }

    /// Sets elements of the array that the variable is, from the first on.
    pub fn extend(
        &mut self,
        alloc: Global,
        elements: Vec<(Text, Value)>,
        name: &Text,
    ) -> Result<(), FrameError>
        ensures ok { OnOk result
            (extended whole (Some self.old) elements.items name.now ≡ Ok self.new) }
        ensures err { IfErr result
            (λ e. Refuses e (extended whole (Some self.old) elements.items name.now)) }
        ensures unchanged { OnErr result (self.new ≡ self.old) }
    {
        match self {
            Variable::Array(held) => {
                held.insert_all(alloc, elements)?;
                Ok(())
            }
            Variable::Scalar(_) => Err(refused_elements(alloc, name, elements.as_slice())),
            Variable::Link(_) => Err(refused_elements(alloc, name, elements.as_slice())),
        }
    }

    /// Takes the elements out whose keys a pattern matches, where the variable is an array. This
    /// takes no memory.
    pub fn remove_matching(&mut self, pattern: &str)
        ensures { self.new ≡ thinned pattern.now self.old }
    {
        match self {
            Variable::Array(elements) => elements.remove_matching(pattern),
            Variable::Scalar(_) => {}
            Variable::Link(_) => {}
        }
    }

    /// Takes an element out.
    pub fn remove_element(&mut self, key: &str, name: &Text) -> Result<(), FrameError>
        ensures ok { OnOk result
            (left_of (element key.now) (Some self.old) name.now ≡ Ok (Some self.new)) }
        ensures err { IfErr result
            (λ e. Refuses e (left_of (element key.now) (Some self.old) name.now)) }
        ensures unchanged { OnErr result (self.new ≡ self.old) }
    {
        match self {
            Variable::Array(elements) => {
                if elements.get(key).is_none() {
                    return Err(refused(NameFault::NoElement(Verb::Unset), name));
                }
                elements.remove(key);
                Ok(())
            }
            Variable::Scalar(_) => Err(refused(NameFault::NotArray(Verb::Unset), name)),
            Variable::Link(_) => Err(refused(NameFault::NotArray(Verb::Unset), name)),
        }
    }
}

impl Variable {
    ghost use Rattle.std.specs.Borrow.{sem};
    ghost use Rattle.tcl_frames.specs.LendingParts.{LendsPart, LendsElements, LendsWhole};
    ghost use Rattle.tcl_frames.specs.declared.variable.Variable.TheVariants.{Scalar};

    /// The value that it is, to write, if it is one.
    pub fn as_scalar_mut(&mut self) -> Option<&mut Value>
        ensures* writes_back { sem 𝓛 (LendsWhole self.entry result) }
        ensures scalar { IfSome result (λ v. self.old ≡ Scalar v.now) }
    {
        match self {
            Variable::Scalar(value) => Some(value),
            Variable::Array(_) => None,
            Variable::Link(_) => None,
        }
    }

    fn scalar_mut(&mut self, name: &Text) -> Result<&mut Value, FrameError>
        ensures* writes_back { sem 𝓛 (LendsPart self.entry whole name.now result) }
        ensures ok { IfOk result (λ v. value_of whole (Some self.old) name.now ≡ Ok v.now) }
        ensures err { IfErr result (λ e. Refuses e (value_of whole (Some self.old) name.now)) }
    {
        match self {
            Variable::Scalar(value) => Ok(value),
            Variable::Array(_) => Err(refused(NameFault::IsArray(Verb::Read), name)),
            Variable::Link(_) => Err(refused(NameFault::NotArray(Verb::Read), name)),
        }
    }

    /// The elements of an array, to write.
    fn elements_mut(&mut self, name: &Text) -> Result<&mut NameMap<Value>, FrameError>
        ensures* writes_back { sem 𝓛 (LendsElements self.entry result) }
        ensures ok { IfOk result (λ es. self.old ≡ Array es.now) }
        ensures err { IfErr result
            (λ e. (k : List ℕ) → Refuses e (value_of (element k) (Some self.old) name.now)) }
    {
        match self {
            Variable::Array(elements) => Ok(elements),
            Variable::Scalar(_) => Err(refused(NameFault::NotArray(Verb::Read), name)),
            Variable::Link(_) => Err(refused(NameFault::NotArray(Verb::Read), name)),
        }
    }

    fn element_mut(&mut self, key: &str, name: &Text) -> Result<&mut Value, FrameError>
        ensures* writes_back { sem 𝓛 (LendsPart self.entry (element key.now) name.now result) }
        ensures ok { IfOk result
            (λ v. value_of (element key.now) (Some self.old) name.now ≡ Ok v.now) }
        ensures err { IfErr result
            (λ e. Refuses e (value_of (element key.now) (Some self.old) name.now)) }
    {
        let elements = self.elements_mut(name)?;
        match elements.get_mut(key) {
            Some(value) => Ok(value),
            None => Err(refused(NameFault::NoElement(Verb::Read), name)),
        }
    }

    /// What a part of the variable holds, to write. Of memory it takes none but for a refusal.
    pub fn value_mut(&mut self, part: Part<'_>, name: &Text) -> Result<&mut Value, FrameError>
        ensures* writes_back { sem 𝓛 (LendsPart self.entry (seen_part part.entry) name.now result) }
        ensures ok { IfOk result
            (λ v. value_of (seen_part part.entry) (Some self.old) name.now ≡ Ok v.now) }
        ensures err { IfErr result
            (λ e. Refuses e (value_of (seen_part part.entry) (Some self.old) name.now)) }
    {
        match part {
            Part::Whole => self.scalar_mut(name),
            Part::Element(key) => self.element_mut(key, name),
            Part::Nested => Err(refused(NameFault::NotArray(Verb::Read), name)),
        }
    }
}
