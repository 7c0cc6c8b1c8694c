//! Why a text is no expression.
ghost use Rattle.std.specs.Prelude.{◌≡◌, ◌++◌, IfOk, codes};
ghost use Rattle.tcl_expr.specs.Faults.{message_of};
ghost use Rattle.tcl_expr.specs.declared.fault.ExprError.TheVariants.{Memory};

use std::alloc::{AllocError, AllocFailed, Global};
use tcl_parser::fault::Fault;
use tcl_parser::reader::ReadError;
use tcl_text::integer::too_large_message;
use tcl_text::messages::{OUT_OF_MEMORY, TOO_LARGE, TOO_LONG, quoting};
use tcl_text::text::Text;
use thiserror::Error;

/// What is wrong with a text that is no expression.
#[derive(Clone, Copy, Debug, Eq, Error, PartialEq)]
pub enum ExprFault {
    /// 211: no expression begins so.
    #[error("211: syntax error in expression")]
    Syntax,
    /// 217: only an expression that nests too deep begins so.
    #[error("217: expression nested too deeply")]
    TooDeep,
    /// 112: an integer literal is out of range.
    #[error("112: {}", TOO_LARGE)]
    TooLarge,
    /// 201 to 206: an operand ends too early, or a script in it is at fault.
    #[error(transparent)]
    Operand(Fault),
    /// 122: the text is longer than a value may be.
    #[error("122: {}", TOO_LONG)]
    TooLong,
}

impl ExprFault {
    /// What an error says of it, where this is the whole expression.
    ///
    /// # Errors
    /// Want of memory.
    pub fn message(self, alloc: Global, expression: &str) -> Result<Text, AllocError>
        ensures { IfOk result (λ made. made ≡ message_of expression.now self) }
    {
        match self {
            ExprFault::Syntax => syntax_message(alloc, expression),
            ExprFault::TooDeep => Text::new(alloc, "expression nested too deeply"),
            ExprFault::TooLarge => too_large_message(alloc),
            ExprFault::Operand(fault) => Text::new(alloc, fault.message()),
            ExprFault::TooLong => Text::new(alloc, TOO_LONG),
        }
    }
}

/// What is told of a text that isn't an expression (211).
fn syntax_message(alloc: Global, expression: &str) -> Result<Text, AllocError>
    ensures { IfOk result (λ made. made
        ≡ codes "syntax error in expression \"" ++ expression.now ++ codes "\"") }
{
    quoting(alloc, "syntax error in expression \"", expression)
}

/// Why an expression isn't read.
#[derive(Clone, Copy, Debug, Eq, Error, PartialEq)]
pub enum ExprError {
    /// Memory ran out.
    #[error("{}", OUT_OF_MEMORY)]
    Memory,
    /// The text is no expression.
    #[error(transparent)]
    Fault(ExprFault),
}

impl From<AllocError> for ExprError {
    ghost from_gives = { λ _ e. e ≡ Memory };

    fn from(_e: AllocError) -> ExprError {
        ExprError::Memory
    }
}

impl<T: Drop> From<AllocFailed<T>> for ExprError {
    ghost from_gives = { λ _ e. e ≡ Memory };

    fn from(_e: AllocFailed<T>) -> ExprError {
        ExprError::Memory
    }
}

impl From<ExprFault> for ExprError {
    ghost use Rattle.std.specs.Prelude.{◌≡◌};
    ghost use Rattle.tcl_expr.specs.declared.fault.ExprError.TheVariants.{Fault};

    ghost from_gives = { λ fault e. e ≡ Fault fault };

    fn from(fault: ExprFault) -> ExprError {
        ExprError::Fault(fault)
    }
}

impl From<Fault> for ExprError {
    ghost use Rattle.std.specs.Prelude.{◌≡◌};
    ghost use Rattle.tcl_expr.specs.Faults.{error_of_fault};

    ghost from_gives = { λ fault e. e ≡ error_of_fault fault };

    fn from(fault: Fault) -> ExprError {
        ExprError::Fault(ExprFault::Operand(fault))
    }
}

impl From<ReadError> for ExprError {
    ghost use Rattle.std.specs.Prelude.{◌≡◌};
    ghost use Rattle.tcl_expr.specs.Faults.{error_of_stop};

    ghost from_gives = { λ stop e. e ≡ error_of_stop stop };

    fn from(stop: ReadError) -> ExprError {
        match stop {
            ReadError::Memory => ExprError::Memory,
            ReadError::Fault(fault) => ExprError::Fault(ExprFault::Operand(fault)),
        }
    }
}
