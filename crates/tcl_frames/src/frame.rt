//! A frame of a chain.
ghost use Rattle.std.specs.Prelude.{◌≡◌, ◌++◌, ◌∷◌, Ok, Some, None, true, false, MatchOption};
ghost use Rattle.std.specs.Prelude.{IfSome, IfOk, OnOk, IfErr, OnErr, IsTrue};
ghost use Rattle.std.specs.Map.{lookup};
ghost use Rattle.std.specs.Option.{option_copied};
ghost use Rattle.std.specs.Str.{bytes_eq};
ghost use Rattle.indexmap.specs.IndexMap.{insert_entry};
ghost use Rattle.tcl_frames.specs.Access.{value_of, is_linked};
ghost use Rattle.tcl_frames.specs.Faults.{Refuses};
ghost use Rattle.tcl_frames.specs.Parts.{seen_part};
ghost use Rattle.tcl_frames.specs.Elements.{PutsElementOf};

use crate::access::{Part, elements_in, new_array, new_variable};
use crate::fault::{FrameError, NameFault, Verb, refused, refused_elements};
use crate::name_map::NameMap;
use crate::variable::{LinkTarget, Variable};
use crate::variable_name::VariableName;
use std::alloc::{AllocError, Global};
use std::marker::Model;
use tcl_text::text::Text;
use tcl_value::value::Value;

/// A frame: the words of its call, and its variables.
pub struct Frame {
    words: Vec<Value>,
    variables: NameMap<Variable>,
}

impl Drop for Frame {
    fn drop(self) {
        let Frame {
            words: _words,
            variables: _variables,
        } = self;
    }
}

impl Model for Frame {
    ghost use Rattle.tcl_frames.specs.Variables.{Frame as Seen};

    ghost Value = { Seen };

    ghost view = { λ a. record { words = a.words.items; variables = a.variables } };
}

/// The most words of a call whose room is kept for another one.
const MOST_WORDS: usize = 16;

/// Adds the words of a call behind others.
fn add_words(words: &mut Vec<Value>, word: &Value, args: &[Value]) -> Result<(), AllocError>
    ensures { OnOk result (words.new.items ≡ words.old.items ++ word.now ∷ args.now) }
{
    words.reserve(args.len().saturating_add(1))?;
    words.push(word.clone()?)?;
    'args: for arg in args {
        words.push(arg.clone()?)?;
    }
    Ok(())
}

/// The refusal of reading a part of what stands for nothing.
fn unread(part: Part<'_>, name: &Text) -> FrameError
    ensures { Refuses result (value_of (seen_part part.entry) None name.now) }
{
    match part {
        Part::Whole => refused(NameFault::NoVariable(Verb::Read), name),
        Part::Element(_) => refused(NameFault::NoVariable(Verb::Read), name),
        Part::Nested => refused(NameFault::NotArray(Verb::Read), name),
    }
}

/// Gives a name that isn't there this variable. Where the name is what is told, their text is
/// shared.
#[inline(always)]
fn insert_told(
    variables: &mut NameMap<Variable>,
    alloc: Global,
    base: &str,
    name: &Text,
    variable: Variable,
) -> Result<(), AllocError>
    ensures inserted { OnOk result
        (variables.new ≡ insert_entry bytes_eq variables.old base.now variable) }
    ensures unchanged { OnErr result (variables.new ≡ variables.old) }
{
    if name.as_str() == base {
        return variables.insert_shared(alloc, name, variable);
    }
    variables.insert_new(alloc, base, variable)
}

/// A change of what a name stands for.
#[derive(Drop)]
pub enum Change {
    /// It gets this value.
    Assign(Value),
    /// It is made an array where there is no variable, and gets these elements, from the first on.
    SetElements(Vec<(Text, Value)>),
    /// It is unset.
    Unset,
    /// The elements whose keys the pattern matches are unset, or the whole array where there is no
    /// pattern. What is no array stays.
    UnsetElements(Option<Text>),
}

impl Frame {
    ghost use Rattle.std.specs.Prelude.{[], IsSome};
    ghost use Rattle.tcl_frames.specs.Variables.Part.{whole, element};
    ghost use Rattle.tcl_frames.specs.Access.{assigned, left_of, elements_of};
    ghost use Rattle.tcl_frames.specs.VariableArrays.{extended, thinned};
    ghost use Rattle.tcl_frames.specs.Rebinding.{rebound, unbound, with_variable, emptied};
    ghost use Rattle.tcl_frames.specs.Rebinding.{change_frame};
    ghost use Rattle.tcl_frames.specs.declared.variable.Variable.TheVariants.{Scalar, Link};

    /// A frame with these words and no variables, which takes no memory.
    pub fn new(alloc: Global, words: Vec<Value>) -> Frame
        ensures words { result.words ≡ words.items }
        ensures variables { result.variables ≡ [] }
    {
        Frame {
            words,
            variables: NameMap::new(alloc),
        }
    }

    /// Takes its words and its variables out, and keeps their room, where that isn't large. Tells
    /// whether it isn't. This takes no memory.
    pub fn clear_small(&mut self) -> bool
        ensures words { IsTrue result → self.new.words ≡ [] }
        ensures variables { IsTrue result → self.new.variables ≡ [] }
    {
        self.words.clear();
        self.words.capacity() <= MOST_WORDS && self.variables.clear_few()
    }

    /// Gives it these words in place of its own.
    pub fn set_words(&mut self, words: Vec<Value>)
        ensures words { self.new.words ≡ words.items }
        ensures variables { self.new.variables ≡ self.old.variables }
    {
        self.words = words;
    }

    /// Adds the words of a call behind its own.
    ///
    /// # Errors
    /// Want of memory.
    pub fn add_call(&mut self, word: &Value, args: &[Value]) -> Result<(), AllocError>
        ensures words { OnOk result (self.new.words ≡ self.old.words ++ word.now ∷ args.now) }
        ensures variables { self.new.variables ≡ self.old.variables }
    {
        add_words(&mut self.words, word, args)
    }

    /// The words of its call.
    pub fn words(&self) -> &[Value]
        ensures { result.now ≡ self.now.words }
    {
        self.words.as_slice()
    }

    /// Its variables.
    pub fn variables(&self) -> &NameMap<Variable>
        ensures { result.now ≡ self.now.variables }
    {
        &self.variables
    }

    /// What a name stands for.
    pub fn variable(&self, name: &str) -> Option<&Variable>
        ensures { option_copied result ≡ lookup (bytes_eq name.now) self.now.variables }
    {
        self.variables.get(name)
    }

    /// The same, in less time where the name stands where it was found last.
    pub fn variable_near(&self, name: &VariableName) -> Option<&Variable>
        ensures { option_copied result ≡ lookup (bytes_eq name.now) self.now.variables }
    {
        self.variables.get_hinted(name)
    }

    /// Whether a name of at most eight bytes stands where it was found last, among few. A hint, of
    /// which contracts say nothing.
    #[inline(always)]
    pub(crate) fn is_short_near(&self, name: &VariableName) -> bool {
        self.variables.is_short_near(name)
    }

    /// The value that a name of at most eight bytes stands for, where it stands for one where it
    /// was found last, and otherwise none.
    #[inline(always)]
    pub fn scalar_short(&self, name: &VariableName) -> Option<&Value>
        ensures { IfSome result
            (λ v. lookup (bytes_eq name.now) self.now.variables ≡ Some (Scalar v.now)) }
    {
        match self.variables.get_short(name) {
            Some(Variable::Scalar(value)) => Some(value),
            _ => None,
        }
    }

    /// The value that a name stands for, where it stands for one, in less time where the name
    /// stands where it was found last.
    pub fn scalar_near(&self, name: &VariableName) -> Option<&Value>
        ensures { IfSome result
            (λ v. lookup (bytes_eq name.now) self.now.variables ≡ Some (Scalar v.now)) }
    {
        match self.variable_near(name) {
            Some(Variable::Scalar(value)) => Some(value),
            _ => None,
        }
    }

    /// Sets a part of what a name stands for.
    fn assign(
        &mut self,
        alloc: Global,
        base: &str,
        part: Part<'_>,
        value: Value,
        name: &Text,
    ) -> Result<(), FrameError>
        ensures ok { OnOk result (rebound self.old base.now
            (assigned (seen_part part.entry) (lookup (bytes_eq base.now) self.old.variables) value
            name.now) ≡ Ok self.new) }
        ensures err { IfErr result
            (λ e. Refuses e (rebound self.old base.now
            (assigned (seen_part part.entry) (lookup (bytes_eq base.now) self.old.variables) value
            name.now))) }
        ensures unchanged { OnErr result (self.new ≡ self.old) }
    {
        if let Some(variable) = self.variables.get_mut(base) {
            return variable.assign(alloc, part, value, name);
        }
        let variable = new_variable(alloc, part, value, name)?;
        insert_told(&mut self.variables, alloc, base, name, variable)?;
        Ok(())
    }

    /// Sets a part of what a name stands for, or gives the value back where the name is a link.
    fn assign_unlinked(
        &mut self,
        alloc: Global,
        base: &str,
        part: Part<'_>,
        value: Value,
        name: &Text,
    ) -> Result<Option<Value>, FrameError>
        ensures ok { IfOk result
            (λ left. MatchOption left ((is_linked (lookup (bytes_eq base.now) self.old.variables)
            ≡ false) × (rebound self.old base.now
            (assigned (seen_part part.entry) (lookup (bytes_eq base.now) self.old.variables) value
            name.now) ≡ Ok self.new)) (λ v.
            (is_linked (lookup (bytes_eq base.now) self.old.variables) ≡ true) × (v ≡ value) ×
            (self.new ≡ self.old))) }
        ensures err { IfErr result
            (λ e. (is_linked (lookup (bytes_eq base.now) self.old.variables) ≡ false) ×
            Refuses e (rebound self.old base.now
            (assigned (seen_part part.entry) (lookup (bytes_eq base.now) self.old.variables) value
            name.now))) }
        ensures unchanged { OnErr result (self.new ≡ self.old) }
    {
        if let Some(variable) = self.variables.get_mut(base) {
            return variable.assign_unlinked(alloc, part, value, name);
        }
        let variable = new_variable(alloc, part, value, name)?;
        insert_told(&mut self.variables, alloc, base, name, variable)?;
        Ok(None)
    }

    /// Sets an element of the array that a name stands for, or gives the value back where it stands
    /// for none.
    ///
    /// # Errors
    /// Want of memory, which leaves the frame as it was.
    pub fn put_element(
        &mut self,
        alloc: Global,
        base: &str,
        key: &str,
        value: Value,
    ) -> Result<Option<Value>, AllocError>
        ensures ok { IfOk result
            (λ left. MatchOption left (PutsElementOf self.old base.now key.now value self.new)
            (λ v. (v ≡ value) × (self.new ≡ self.old))) }
        ensures unchanged { OnErr result (self.new ≡ self.old) }
    {
        if let Some(variable) = self.variables.get_mut(base) {
            return variable.put_element(alloc, key, value);
        }
        Ok(Some(value))
    }

    /// Makes a name that stands for nothing stand for a value, or gives the value back where it
    /// stands for something. The text of the name is shared where there are few.
    ///
    /// # Errors
    /// Want of memory.
    pub fn insert_near(
        &mut self,
        alloc: Global,
        name: &Text,
        value: Value,
    ) -> Result<Option<Value>, AllocError>
        ensures ok { IfOk result
            (λ left. MatchOption left ((lookup (bytes_eq name.now) self.old.variables ≡ None) ×
            (self.new ≡ with_variable self.old name.now (Scalar value)))
            (λ v. IsSome (lookup (bytes_eq name.now) self.old.variables) × (v ≡ value) ×
            (self.new ≡ self.old))) }
        ensures unchanged { OnErr result (self.new ≡ self.old) }
    {
        if self.variables.has(name) {
            return Ok(Some(value));
        }
        self.variables
            .insert_absent(alloc, name, Variable::Scalar(value))?;
        Ok(None)
    }

    /// Unsets all of what a name stands for.
    fn unset_whole(&mut self, base: &str, name: &Text) -> Result<(), FrameError>
        ensures ok { OnOk result (unbound self.old base.now
            (left_of whole (lookup (bytes_eq base.now) self.old.variables) name.now)
            ≡ Ok self.new) }
        ensures err { IfErr result
            (λ e. Refuses e (unbound self.old base.now
            (left_of whole (lookup (bytes_eq base.now) self.old.variables) name.now))) }
        ensures unchanged { OnErr result (self.new ≡ self.old) }
    {
        match self.variables.get(base) {
            None => return Err(refused(NameFault::NoVariable(Verb::Unset), name)),
            Some(Variable::Link(_)) => return Err(refused(NameFault::NotArray(Verb::Unset), name)),
            Some(Variable::Scalar(_)) => {}
            Some(Variable::Array(_)) => {}
        }
        self.variables.remove(base);
        Ok(())
    }

    /// Unsets an element of what a name stands for.
    fn unset_element(&mut self, base: &str, key: &str, name: &Text) -> Result<(), FrameError>
        ensures ok { OnOk result (unbound self.old base.now
            (left_of (element key.now) (lookup (bytes_eq base.now) self.old.variables) name.now)
            ≡ Ok self.new) }
        ensures err { IfErr result
            (λ e. Refuses e (unbound self.old base.now
            (left_of (element key.now) (lookup (bytes_eq base.now) self.old.variables) name.now))) }
        ensures unchanged { OnErr result (self.new ≡ self.old) }
    {
        if let Some(variable) = self.variables.get_mut(base) {
            return variable.remove_element(key, name);
        }
        Err(refused(NameFault::NoVariable(Verb::Unset), name))
    }

    /// Unsets a part of what a name stands for.
    fn unset(&mut self, base: &str, part: Part<'_>, name: &Text) -> Result<(), FrameError>
        ensures ok { OnOk result (unbound self.old base.now
            (left_of (seen_part part.entry) (lookup (bytes_eq base.now) self.old.variables)
            name.now) ≡ Ok self.new) }
        ensures err { IfErr result
            (λ e. Refuses e (unbound self.old base.now
            (left_of (seen_part part.entry) (lookup (bytes_eq base.now) self.old.variables)
            name.now))) }
        ensures unchanged { OnErr result (self.new ≡ self.old) }
    {
        match part {
            Part::Whole => self.unset_whole(base, name),
            Part::Element(key) => self.unset_element(base, key, name),
            Part::Nested => Err(refused(NameFault::NotArray(Verb::Unset), name)),
        }
    }

    /// Sets elements of the array that a name is.
    fn extend(
        &mut self,
        alloc: Global,
        base: &str,
        elements: Vec<(Text, Value)>,
        name: &Text,
    ) -> Result<(), FrameError>
        ensures ok { OnOk result (rebound self.old base.now
            (extended whole (lookup (bytes_eq base.now) self.old.variables) elements.items name.now)
            ≡ Ok self.new) }
        ensures err { IfErr result
            (λ e. Refuses e (rebound self.old base.now
            (extended whole (lookup (bytes_eq base.now) self.old.variables) elements.items
            name.now))) }
        ensures unchanged { OnErr result (self.new ≡ self.old) }
    {
        if let Some(variable) = self.variables.get_mut(base) {
            return variable.extend(alloc, elements, name);
        }
        let array = new_array(alloc, elements)?;
        insert_told(&mut self.variables, alloc, base, name, array)?;
        Ok(())
    }

    /// Sets elements of what a name stands for.
    fn set_elements(
        &mut self,
        alloc: Global,
        base: &str,
        part: Part<'_>,
        elements: Vec<(Text, Value)>,
        name: &Text,
    ) -> Result<(), FrameError>
        ensures ok { OnOk result (rebound self.old base.now
            (extended (seen_part part.entry) (lookup (bytes_eq base.now) self.old.variables)
            elements.items name.now) ≡ Ok self.new) }
        ensures err { IfErr result
            (λ e. Refuses e (rebound self.old base.now
            (extended (seen_part part.entry) (lookup (bytes_eq base.now) self.old.variables)
            elements.items name.now))) }
        ensures unchanged { OnErr result (self.new ≡ self.old) }
    {
        match part {
            Part::Whole => self.extend(alloc, base, elements, name),
            Part::Element(_) => Err(refused_elements(alloc, name, elements.as_slice())),
            Part::Nested => Err(refused_elements(alloc, name, elements.as_slice())),
        }
    }

    /// Takes the elements out of an array whose keys a pattern matches.
    fn thin(&mut self, base: &str, pattern: &str)
        ensures { MatchOption (lookup (bytes_eq base.now) self.old.variables) (self.new ≡ self.old)
            (λ v. self.new ≡ with_variable self.old base.now (thinned pattern.now v)) }
    {
        if let Some(variable) = self.variables.get_mut(base) {
            variable.remove_matching(pattern);
        }
    }

    /// Unsets elements of what a name stands for, or all of it, where it is an array.
    fn unset_elements(&mut self, base: &str, part: Part<'_>, pattern: Option<Text>)
        ensures { self.new
            ≡ emptied self.old base.now (elements_of (seen_part part.entry)
            (lookup (bytes_eq base.now) self.old.variables)) pattern }
    {
        if elements_in(self.variables.get(base), part).is_none() {
            return;
        }
        match pattern {
            None => self.variables.remove(base),
            Some(pattern) => self.thin(base, pattern.as_str()),
        }
    }

    /// Changes a part of what a name stands for.
    pub fn change(
        &mut self,
        alloc: Global,
        base: &str,
        part: Part<'_>,
        change: Change,
        name: &Text,
    ) -> Result<(), FrameError>
        ensures ok { OnOk result
            (change_frame change self.old base.now (seen_part part.entry) name.now
            ≡ Ok self.new) }
        ensures err { IfErr result
            (λ e. Refuses e (change_frame change self.old base.now (seen_part part.entry)
            name.now)) }
        ensures unchanged { OnErr result (self.new ≡ self.old) }
    {
        match change {
            Change::Assign(value) => self.assign(alloc, base, part, value, name),
            Change::SetElements(elements) => self.set_elements(alloc, base, part, elements, name),
            Change::Unset => self.unset(base, part, name),
            Change::UnsetElements(pattern) => {
                self.unset_elements(base, part, pattern);
                Ok(())
            }
        }
    }

    /// Whether a name is a link.
    fn is_link(&self, base: &str) -> bool
        ensures { result ≡ is_linked (lookup (bytes_eq base.now) self.now.variables) }
    {
        match self.variables.get(base) {
            Some(variable) => variable.is_link(),
            None => false,
        }
    }

    /// Changes a part of what a name stands for, or gives the change back where the name is a link.
    pub fn change_unlinked(
        &mut self,
        alloc: Global,
        base: &str,
        part: Part<'_>,
        change: Change,
        name: &Text,
    ) -> Result<Option<Change>, FrameError>
        ensures ok { IfOk result
            (λ left. MatchOption left ((is_linked (lookup (bytes_eq base.now) self.old.variables)
            ≡ false) × (change_frame change self.old base.now (seen_part part.entry) name.now
            ≡ Ok self.new)) (λ c. (is_linked (lookup (bytes_eq base.now) self.old.variables) ≡ true)
            × (c ≡ change) × (self.new ≡ self.old))) }
        ensures err { IfErr result
            (λ e. (is_linked (lookup (bytes_eq base.now) self.old.variables) ≡ false) ×
            Refuses e (change_frame change self.old base.now (seen_part part.entry) name.now)) }
        ensures unchanged { OnErr result (self.new ≡ self.old) }
    {
        if let Change::Assign(value) = change {
            return match self.assign_unlinked(alloc, base, part, value, name) {
                Ok(None) => Ok(None),
                Ok(Some(value)) => Ok(Some(Change::Assign(value))),
                Err(error) => Err(error),
            };
        }
        if self.is_link(base) {
            return Ok(Some(change));
        }
        match self.change(alloc, base, part, change, name) {
            Ok(()) => Ok(None),
            Err(error) => Err(error),
        }
    }

    /// Makes a name a link.
    pub fn link(&mut self, alloc: Global, local: &str, place: LinkTarget) -> Result<(), AllocError>
        ensures ok { OnOk result (self.new ≡ with_variable self.old local.now (Link place)) }
        ensures unchanged { OnErr result (self.new ≡ self.old) }
    {
        self.variables.insert(alloc, local, Variable::Link(place))
    }
}

impl Frame {
    ghost use Rattle.std.specs.Borrow.{sem};
    ghost use Rattle.tcl_frames.specs.LendingParts.{LendsNamed, LendsScalar};
    ghost use Rattle.tcl_frames.specs.declared.variable.Variable.TheVariants.{Scalar};

    /// The place at which a name stands, where it is no link.
    pub fn unlinked_place(&self, base: &str) -> Option<usize>
        ensures { IfSome result (λ _. is_linked (lookup (bytes_eq base.now) self.now.variables)
            ≡ false) }
    {
        match self.variables.find(base) {
            Some((place, variable)) => {
                if variable.is_link() {
                    return None;
                }
                Some(place)
            }
            None => None,
        }
    }

    /// What a part of what a name stands for holds, to write, in less time where the name stands at
    /// this place. Of memory it takes none but for a refusal.
    pub fn value_mut_near(
        &mut self,
        place: usize,
        base: &str,
        part: Part<'_>,
        name: &Text,
    ) -> Result<&mut Value, FrameError>
        ensures* writes_back { sem 𝓛
            (LendsNamed self.entry base.now (seen_part part.entry) name.now result) }
        ensures ok { IfOk result
            (λ v. value_of (seen_part part.entry) (lookup (bytes_eq base.now) self.old.variables)
            name.now ≡ Ok v.now) }
        ensures err { IfErr result
            (λ e. Refuses e (value_of (seen_part part.entry)
            (lookup (bytes_eq base.now) self.old.variables) name.now)) }
    {
        match self.variables.get_mut_near(place, base) {
            Some(found) => found.value_mut(part, name),
            None => Err(unread(part, name)),
        }
    }

    /// The value that a name of at most eight bytes stands for, to write, where it stands for one
    /// where it was found last, and otherwise none.
    #[inline(always)]
    pub fn scalar_mut_short(&mut self, name: &VariableName) -> Option<&mut Value>
        ensures* writes_back { sem 𝓛 (LendsScalar self.entry name.now result) }
        ensures scalar { IfSome result
            (λ v. lookup (bytes_eq name.now) self.old.variables ≡ Some (Scalar v.now)) }
    {
        match self.variables.get_mut_short(name) {
            Some(variable) => variable.as_scalar_mut(),
            None => None,
        }
    }

    /// The value that a name stands for, to write, where it stands for one, in less time where the
    /// name stands where it was found last. This takes no memory.
    pub fn scalar_mut_near(&mut self, name: &VariableName) -> Option<&mut Value>
        ensures* writes_back { sem 𝓛 (LendsScalar self.entry name.now result) }
        ensures scalar { IfSome result
            (λ v. lookup (bytes_eq name.now) self.old.variables ≡ Some (Scalar v.now)) }
    {
        match self.variables.get_mut_hinted(name) {
            Some(variable) => variable.as_scalar_mut(),
            None => None,
        }
    }
}

impl Clone for Frame {
    ghost is_clone = { λ x y. y ≡ x };

    fn clone(&self) -> Result<Frame, AllocError> {
        let words = self.words.clone()?;
        let variables = self.variables.clone()?;
        Ok(Frame { words, variables })
    }
}
