//! What the texts that are evaluated in a tree are read as.
ghost use Rattle.std.specs.Prelude.{◌≡◌, IfOk, IfSome};
ghost use Rattle.tcl_expr.specs.Expressions.{expression_of};
ghost use Rattle.tcl_parser.specs.Reading.{read_script};
ghost use Rattle.tcl_tree.specs.Kept.{Gives, IsTree};

use crate::readings::Readings;
use crate::tree::Tree;
use std::alloc::{AllocError, Global};
use std::rc::Rc;
use tcl_expr::fault::ExprError;
use tcl_expr::tree::ExprTree;
use tcl_prepared::prepared::Prepared;
use tcl_text::integer::Integers;
use tcl_text::text::Text;
use tcl_value::value::Value;

impl Tree {
    /// The script that a value is, where it was read before and is found at the place that the
    /// value keeps. This takes no memory.
    #[inline]
    pub fn script_kept(&self, value: &Value) -> Option<Rc<Prepared>>
        ensures { IfSome result (λ script. script.value ≡ read_script value.now) }
    {
        match self.readings.try_borrow() {
            Ok(readings) => readings.script_kept(value),
            Err(_) => None,
        }
    }

    /// The expression that a value is in a style of integers, where it was read before and is found
    /// at the place that the value keeps. This takes no memory.
    #[inline]
    pub fn expression_kept(&self, value: &Value, style: Integers) -> Option<Rc<ExprTree>>
        ensures { IfSome result (λ tree. IsTree style value.now tree.value) }
    {
        match self.readings.try_borrow() {
            Ok(readings) => readings.expression_kept(value, style),
            Err(_) => None,
        }
    }

    /// The script that a value is, read anew only where it wasn't read before. Faults of its text
    /// are part of it. The value keeps where it is found.
    ///
    /// # Errors
    /// Want of memory.
    #[inline]
    pub fn script_of(&self, alloc: Global, value: &Value) -> Result<Rc<Prepared>, AllocError>
        ensures { IfOk result (λ script. script.value ≡ read_script value.now) }
    {
        match self.script_kept(value) {
            Some(script) => Ok(script),
            None => self.script_sought(alloc, value),
        }
    }

    /// The same, found by the value's text or read anew.
    #[inline(never)]
    fn script_sought(&self, alloc: Global, value: &Value) -> Result<Rc<Prepared>, AllocError>
        ensures { IfOk result (λ script. script.value ≡ read_script value.now) }
    {
        match self.readings.try_borrow_mut() {
            Ok(mut readings) => readings.script_of(alloc, value),
            Err(_) => Readings::new(alloc).script_of(alloc, value),
        }
    }

    /// The script that a text is, read anew only where it wasn't read before. Faults of the text
    /// are part of it.
    ///
    /// # Errors
    /// Want of memory.
    pub fn script(&self, alloc: Global, text: &Text) -> Result<Rc<Prepared>, AllocError>
        ensures { IfOk result (λ script. script.value ≡ read_script text.now) }
    {
        match self.readings.try_borrow_mut() {
            Ok(mut readings) => readings.script(alloc, text),
            Err(_) => Readings::new(alloc).script(alloc, text),
        }
    }

    /// The expression that a value is in a style of integers, read anew only where it wasn't read
    /// before. The value keeps where it is found, if it can keep a place.
    ///
    /// # Errors
    /// Why its text is none; want of memory.
    pub fn expression_of(
        &self,
        alloc: Global,
        value: &Value,
        style: Integers,
    ) -> Result<Rc<ExprTree>, ExprError>
        ensures { Gives result (expression_of style value.now) }
    {
        match self.readings.try_borrow_mut() {
            Ok(mut readings) => readings.expression_of(alloc, value, style),
            Err(_) => Readings::new(alloc).expression_of(alloc, value, style),
        }
    }
}
