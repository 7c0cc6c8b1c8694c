//! Elements of arrays that are found and set by the array's name and the key, without a name
//! `a(k)`.
ghost use Rattle.std.specs.Prelude.{◌≡◌, ◌≢◌, ◌<◌, ℕ, List, true, Ok, IfSome, IsTrue, get_or};
ghost use Rattle.std.specs.Prelude.{length, IfOk, MatchOption, OnErr};
ghost use Rattle.std.specs.Option.{option_copied};
ghost use Rattle.tcl_frames.specs.Access.{value_of};
ghost use Rattle.tcl_frames.specs.Chain.{read, after_set};
ghost use Rattle.tcl_frames.specs.Names.{is_simple};
ghost use Rattle.tcl_frames.specs.Parts.{seen_part};
ghost use Rattle.tcl_frames.specs.Sound.{AreFit};
ghost use Rattle.tcl_frames.specs.VariableArrays.{element_name};
ghost use Rattle.tcl_frames.specs.Variables.{merge};
ghost use Rattle.tcl_frames.specs.Variables.Part.{element};

use crate::access::Part;
use crate::frame::Frame;
use crate::frames::Frames;
use crate::name::is_simple;
use crate::steps::{find, level_meant};
use crate::variable::Variable;
use std::alloc::{AllocError, Global};
use tcl_value::value::Value;

/// Whether the name of an array holds neither a colon nor a parenthesis, so that an element's name
/// reads as one of that array at the current level.
fn is_base(array: &str) -> bool
    ensures simple { IsTrue result → is_simple array.now ≡ true }
    ensures unopened { IsTrue result →
        (i : ℕ) → i < length array.now → get_or array.now i 0 ≢ 40 }
{
    if !is_simple(array) {
        return false;
    }
    match array.split_once('(') {
        Some(_) => false,
        None => true,
    }
}

/// The element with a key, of a variable whose part is meant, if the variable is an array that has
/// one and all of it is meant.
fn element_at<'a>(variable: Option<&'a Variable>, part: Part<'_>, key: &str) -> Option<&'a Value>
    ensures { IfSome result (λ value. (name : List ℕ) →
        value_of (merge (seen_part part.entry) (element key.now)) (option_copied variable.entry)
        name ≡ Ok value.now) }
{
    match (part, variable) {
        (Part::Whole, Some(Variable::Array(elements))) => elements.get(key),
        _ => None,
    }
}

/// What an element of an array holds, which is looked up at the current level.
fn element_in<'a>(frames: &'a [Frame], array: &str, key: &str) -> Option<&'a Value>
    requires { AreFit 0 frames.now }
    ensures { IfSome result (λ value. read frames.now (element_name array.now key.now)
        ≡ Ok value.now) }
{
    if !is_base(array) {
        return None;
    }
    let level = level_meant(frames, false);
    let found = find(frames, level, array);
    element_at(found.variable, found.part, key)
}

impl Frames {
    /// What an element of an array holds, as [`Frames::get`] of the name `array(key)` gives it,
    /// where the array's name holds neither a colon nor a parenthesis. None where there is no such
    /// element too. This takes no memory.
    pub fn element(&self, array: &str, key: &str) -> Option<&Value>
        ensures { IfSome result (λ value.
            read self.now.frames (element_name array.now key.now) ≡ Ok value.now) }
    {
        element_in(self.frames.as_slice(), array, key)
    }

    /// Sets an element of an array of the current frame, whose name holds neither a colon nor a
    /// parenthesis, or gives the value back where the name stands for no array there.
    fn put_in_array(
        &mut self,
        alloc: Global,
        array: &str,
        key: &str,
        value: Value,
    ) -> Result<Option<Value>, AllocError>
        requires simple { is_simple array.now ≡ true }
        requires unopened { (i : ℕ) → i < length array.now → get_or array.now i 0 ≢ 40 }
        ensures ok { IfOk result (λ left. MatchOption left
            (after_set self.old (element_name array.now key.now) value ≡ Ok self.new)
            (λ v. (v ≡ value) × (self.new ≡ self.old))) }
        ensures unchanged { OnErr result (self.new ≡ self.old) }
    {
        let level = self.level();
        let frame = &mut self.frames[level];
        frame.put_element(alloc, array, key, value)
    }

    /// Sets an element of an array, as [`Frames::set`] of the name `array(key)` does, or gives the
    /// value back, where nothing has changed: where the current frame has no such array of its own,
    /// or the array's name holds a colon or a parenthesis.
    ///
    /// # Errors
    /// Want of memory, which leaves the chain as it was.
    pub fn put_element(
        &mut self,
        alloc: Global,
        array: &str,
        key: &str,
        value: Value,
    ) -> Result<Option<Value>, AllocError>
        ensures ok { IfOk result (λ left. MatchOption left
            (after_set self.old (element_name array.now key.now) value ≡ Ok self.new)
            (λ v. (v ≡ value) × (self.new ≡ self.old))) }
        ensures unchanged { OnErr result (self.new ≡ self.old) }
    {
        if !is_base(array) {
            return Ok(Some(value));
        }
        self.put_in_array(alloc, array, key, value)
    }
}
