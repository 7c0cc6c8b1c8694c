//! How loops go on after the scripts of a turn.
ghost use Rattle.tcl_language.specs.Control.{after_body};
ghost use Rattle.tcl_language.specs.Expressions.{after_next};
ghost use Rattle.tcl_calls.specs.Turns.{Turns};

use tcl_flow::completion::{BREAK, CONTINUE, OK};
use tcl_run::interruption::Interruption;
use tcl_value::value::Value;

/// Whether a loop goes on after its body ended so: it does after an ordinary end and a `continue`,
/// and is over after a `break`. (while(n))
///
/// # Errors
/// Every other end, which is the loop's own.
#[inline]
pub fn goes_on(ended: Result<Value, Interruption>) -> Result<bool, Interruption>
    ensures { Turns after_body ended result }
{
    match ended {
        Ok(_) => Ok(true),
        Err(Interruption::Completed(completion)) => {
            if completion.code == OK || completion.code == CONTINUE {
                return Ok(true);
            }
            if completion.code == BREAK {
                return Ok(false);
            }
            Err(Interruption::Completed(completion))
        }
        Err(interruption) => Err(interruption),
    }
}

/// Whether a loop goes on after the script between two turns ended so: it does after an ordinary
/// end alone, and is over after a `break`. (for(n))
///
/// # Errors
/// Every other end, which is the loop's own, a `continue` too.
#[inline]
pub fn turns_on(ended: Result<Value, Interruption>) -> Result<bool, Interruption>
    ensures { Turns after_next ended result }
{
    match ended {
        Ok(_) => Ok(true),
        Err(Interruption::Completed(completion)) => {
            if completion.code == OK {
                return Ok(true);
            }
            if completion.code == BREAK {
                return Ok(false);
            }
            Err(Interruption::Completed(completion))
        }
        Err(interruption) => Err(interruption),
    }
}
