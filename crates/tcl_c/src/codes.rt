//! The numbers that C is answered.
ghost use Rattle.std.specs.Prelude.{◌≡◌};
ghost use Rattle.tcl_c.specs.Codes.{code_of, outcome_code};

use tcl_sessions::outcome::Outcome;
use tcl_sessions::refusal::Refusal;

/// It was done.
pub(crate) const DONE: i32 = 0;
/// 421: the handle holds nothing.
pub(crate) const NOTHING_HELD: i32 = 421;

/// The number of what was done or refused.
pub(crate) fn code_of(done: Result<(), Refusal>) -> i32
    ensures { result ≡ code_of done }
{
    match done {
        Ok(()) => DONE,
        Err(refusal) => refusal.number(),
    }
}

/// The number of what an evaluation came to, or why there was none.
pub(crate) fn outcome_code(ended: Result<Outcome, Refusal>) -> i32
    ensures { result ≡ outcome_code ended }
{
    match ended {
        Ok(outcome) => outcome.number(),
        Err(refusal) => refusal.number(),
    }
}
