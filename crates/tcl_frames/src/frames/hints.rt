//! Names that are looked up in less time where they stand where they were found last.
ghost use Rattle.std.specs.Prelude.{◌≡◌, true, Ok, MatchOption, IfOk, OnOk, IfErr, OnErr, IfSome};
ghost use Rattle.std.specs.Borrow.{sem};
ghost use Rattle.tcl_frames.specs.Faults.{Refuses};
ghost use Rattle.tcl_frames.specs.Chain.{read, after_set};
ghost use Rattle.tcl_frames.specs.LendingChain.{LendsNear};
ghost use Rattle.tcl_frames.specs.Names.{is_simple};

use crate::fault::FrameError;
use crate::frames::Frames;
use crate::name::is_simple;
use crate::variable_name::VariableName;
use std::alloc::{AllocError, Global};
use tcl_text::text::Text;
use tcl_value::value::Value;

impl Frames {
    /// The value that a name of at most eight bytes holds, if it is that of a variable of the
    /// current frame that stands where it was found last, and otherwise none.
    #[inline(always)]
    fn scalar_short(&self, name: &VariableName) -> Option<&Value>
        ensures { IfSome result (λ value. read self.now.frames name.now ≡ Ok value.now) }
    {
        if !name.is_simple() {
            return None;
        }
        match self.frames.last() {
            Some(frame) => frame.scalar_short(name),
            None => None,
        }
    }

    /// The same of any name.
    #[inline(never)]
    fn scalar_sought(&self, name: &VariableName) -> Option<&Value>
        ensures { IfSome result (λ value. read self.now.frames name.now ≡ Ok value.now) }
    {
        if !name.is_simple() {
            return None;
        }
        match self.frames.last() {
            Some(frame) => frame.scalar_near(name),
            None => None,
        }
    }

    /// The value that a name holds, if it is that of a variable of the current frame and no array
    /// or link. This takes no memory.
    #[inline(always)]
    pub fn scalar_near(&self, name: &VariableName) -> Option<&Value>
        ensures { IfSome result (λ value. read self.now.frames name.now ≡ Ok value.now) }
    {
        match self.scalar_short(name) {
            Some(value) => Some(value),
            None => self.scalar_sought(name),
        }
    }

    /// What a name holds, as [`Frames::get`] gives it. This takes no memory.
    ///
    /// # Errors
    /// Refusals 231 to 234 and 238 (of reading).
    pub fn get_near(&self, name: &VariableName) -> Result<&Value, FrameError>
        ensures ok { IfOk result (λ value. read self.now.frames name.now ≡ Ok value.now) }
        ensures err { IfErr result (λ e. Refuses e (read self.now.frames name.now)) }
    {
        match self.scalar_near(name) {
            Some(value) => Ok(value),
            None => self.get(name.text()),
        }
    }

    /// Whether a name of at most eight bytes stands in the current frame where it was found last. A
    /// hint, of which contracts say nothing.
    #[inline(always)]
    fn is_short_near(&self, name: &VariableName) -> bool {
        match self.frames.last() {
            Some(frame) => frame.is_short_near(name),
            None => false,
        }
    }

    /// The same value as that of [`Frames::scalar_near`], to write: once the borrow ends, the chain
    /// is as after [`Frames::set`] of the value that was left. This takes no memory.
    #[inline(always)]
    pub fn scalar_mut_near(&mut self, name: &VariableName) -> Option<&mut Value>
        ensures* writes_back { sem 𝓛 (LendsNear self.entry name.now result) }
        ensures scalar { IfSome result (λ v. read self.old.frames name.now ≡ Ok v.now) }
    {
        if self.is_short_near(name) {
            return self.scalar_mut_short(name);
        }
        self.scalar_mut_sought(name)
    }

    /// The same of a name of at most eight bytes that stands where it was found last, and otherwise
    /// none.
    #[inline(always)]
    fn scalar_mut_short(&mut self, name: &VariableName) -> Option<&mut Value>
        ensures* writes_back { sem 𝓛 (LendsNear self.entry name.now result) }
        ensures scalar { IfSome result (λ v. read self.old.frames name.now ≡ Ok v.now) }
    {
        if !name.is_simple() {
            return None;
        }
        let level = self.level();
        let frame = &mut self.frames[level];
        match frame.scalar_mut_short(name) {
            Some(value) => Some(value),
            None => None,
        }
    }

    /// The same of any name.
    #[inline(never)]
    fn scalar_mut_sought(&mut self, name: &VariableName) -> Option<&mut Value>
        ensures* writes_back { sem 𝓛 (LendsNear self.entry name.now result) }
        ensures scalar { IfSome result (λ v. read self.old.frames name.now ≡ Ok v.now) }
    {
        if !name.is_simple() {
            return None;
        }
        let level = self.level();
        let frame = &mut self.frames[level];
        match frame.scalar_mut_near(name) {
            Some(value) => Some(value),
            None => None,
        }
    }

    /// Sets a name with neither a colon nor a close parenthesis in the current frame, where that
    /// doesn't have it, or gives the value back where it has.
    #[inline(always)]
    fn insert_near(
        &mut self,
        alloc: Global,
        name: &Text,
        value: Value,
    ) -> Result<Option<Value>, AllocError>
        requires { is_simple name.now ≡ true }
        ensures ok { IfOk result
            (λ left. MatchOption left (after_set self.old name.now value ≡ Ok self.new)
            (λ v. (v ≡ value) × (self.new ≡ self.old))) }
        ensures unchanged { OnErr result (self.new ≡ self.old) }
    {
        let level = self.level();
        let frame = &mut self.frames[level];
        frame.insert_near(alloc, name, value)
    }

    /// Sets a name with neither a colon nor a close parenthesis, in less time where the current
    /// frame doesn't have it.
    ///
    /// # Errors
    /// Want of memory; refusals 232, 233 (of setting) and 238.
    fn set_simple(&mut self, alloc: Global, name: &Text, value: Value) -> Result<(), FrameError>
        requires { is_simple name.now ≡ true }
        ensures ok { OnOk result (after_set self.old name.now value ≡ Ok self.new) }
        ensures err { IfErr result (λ e. Refuses e (after_set self.old name.now value)) }
        ensures unchanged { OnErr result (self.new ≡ self.old) }
    {
        match self.insert_near(alloc, name, value)? {
            None => Ok(()),
            Some(value) => self.set(alloc, name, value),
        }
    }

    /// Sets a name, as [`Frames::set`] does.
    ///
    /// # Errors
    /// Want of memory; refusals 232, 233 (of setting) and 238.
    pub fn set_near(
        &mut self,
        alloc: Global,
        name: &VariableName,
        value: Value,
    ) -> Result<(), FrameError>
        ensures ok { OnOk result (after_set self.old name.now value ≡ Ok self.new) }
        ensures err { IfErr result (λ e. Refuses e (after_set self.old name.now value)) }
        ensures unchanged { OnErr result (self.new ≡ self.old) }
    {
        if let Some(held) = self.scalar_mut_near(name) {
            *held = value;
            return Ok(());
        }
        self.set_new(alloc, name, value)
    }

    /// The same, in less time where the current frame doesn't have the name.
    ///
    /// # Errors
    /// Want of memory; refusals 232, 233 (of setting) and 238.
    fn set_new(
        &mut self,
        alloc: Global,
        name: &VariableName,
        value: Value,
    ) -> Result<(), FrameError>
        ensures ok { OnOk result (after_set self.old name.now value ≡ Ok self.new) }
        ensures err { IfErr result (λ e. Refuses e (after_set self.old name.now value)) }
        ensures unchanged { OnErr result (self.new ≡ self.old) }
    {
        if name.is_simple() {
            return self.set_simple(alloc, name.text(), value);
        }
        self.set(alloc, name.text(), value)
    }

    /// The same of a name whose kind isn't known yet, as that of a parameter.
    ///
    /// # Errors
    /// Want of memory; refusals 232, 233 (of setting) and 238.
    pub fn set_parameter(
        &mut self,
        alloc: Global,
        name: &Text,
        value: Value,
    ) -> Result<(), FrameError>
        ensures ok { OnOk result (after_set self.old name.now value ≡ Ok self.new) }
        ensures err { IfErr result (λ e. Refuses e (after_set self.old name.now value)) }
        ensures unchanged { OnErr result (self.new ≡ self.old) }
    {
        if is_simple(name.as_str()) {
            return self.set_simple(alloc, name, value);
        }
        self.set(alloc, name, value)
    }
}
