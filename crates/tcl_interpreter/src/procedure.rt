//! Procedures.
ghost use Rattle.std.specs.Prelude.{◌≡◌, IfOk};

use crate::parameter::Parameter;
use std::alloc::{AllocError, Global};
use std::marker::Model;
use std::rc::Rc;
use tcl_value::value::Value;

#[derive(Drop)]
struct Definition {
    parameters: Vec<Parameter>,
    body: Value,
}

/// A procedure: its parameters in order, and its body. A clone shares both, so a call that goes on
/// has those that it began with.
#[derive(Drop)]
pub struct Procedure {
    shared: Rc<Definition>,
}

impl Model for Procedure {
    ghost use Rattle.tcl_interpreter.specs.Commands.{ProcedureView};

    ghost Value = { ProcedureView };

    ghost view = { λ a. record
        { parameters = a.shared.value.parameters.items; body = a.shared.value.body } };
}

impl Procedure {
    /// A procedure with these parameters and this body.
    ///
    /// # Errors
    /// Want of memory.
    pub fn new(
        alloc: Global,
        parameters: Vec<Parameter>,
        body: Value,
    ) -> Result<Procedure, AllocError>
        ensures { IfOk result (λ made. made
            ≡ record { parameters = parameters.items; body = body }) }
    {
        let shared = Rc::new(alloc, Definition { parameters, body })?;
        Ok(Procedure { shared })
    }

    /// Its parameters, in order.
    pub fn parameters(&self) -> &[Parameter]
        ensures { result.now ≡ self.now.parameters }
    {
        self.shared.parameters.as_slice()
    }

    /// Its body.
    pub fn body(&self) -> &Value
        ensures { result.now ≡ self.now.body }
    {
        &self.shared.body
    }
}

impl Clone for Procedure {
    ghost is_clone = { λ x y. y ≡ x };

    fn clone(&self) -> Result<Procedure, AllocError> {
        let shared = self.shared.clone()?;
        Ok(Procedure { shared })
    }
}
