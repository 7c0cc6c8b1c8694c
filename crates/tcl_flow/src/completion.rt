//! Completions: a code, a text and options.
ghost use Rattle.std.specs.Prelude.{◌≡◌, ◌≢◌, IfOk, OnOk, OnErr, pos};
ghost use Rattle.tcl_core.specs.Endings.{settle, leave_proc, lowered, unreturned, ok, error};
ghost use Rattle.tcl_core.specs.Endings.{settled};
ghost use Rattle.tcl_core.specs.Endings as core;
ghost use Rattle.tcl_flow.specs.View.{completion_of};

use crate::messages::{bad_code, break_outside, continue_outside};
use std::alloc::{AllocError, Global};
use tcl_value::value::Value;

/// The code of an ordinary completion.
pub const OK: i64 = 0;
/// The code of an error.
pub const ERROR: i64 = 1;
/// The code of a return that has levels left.
pub const RETURN: i64 = 2;
/// The code of a break.
pub const BREAK: i64 = 3;
/// The code of a continue.
pub const CONTINUE: i64 = 4;

/// The options of a completion, as `return(n)` has them.
#[derive(Drop)]
pub struct Options {
    /// What a return comes to at its last level; of another completion its own code.
    pub code: i64,
    /// How many levels a return has left.
    pub level: u64,
    /// What kind of error it is, a list; none where it is of no kind, which is told as `NONE`.
    pub errorcode: Option<Value>,
}

/// How a script ends.
#[derive(Drop)]
pub struct Completion {
    /// 0 ok, 1 error, 2 return, 3 break, 4 continue, or another number.
    pub code: i64,
    /// The result, or the message.
    pub text: Value,
    /// What else is known of it.
    pub options: Options,
}

impl Completion {
    /// The completion of this code and text, with no level left and of no kind of error.
    pub fn new(code: i64, text: Value) -> Completion
        ensures { completion_of result ≡ core.completion code text }
    {
        Completion {
            code,
            text,
            options: Options {
                code,
                level: 0,
                errorcode: None,
            },
        }
    }
}

/// The ordinary completion of this text.
pub fn ok(text: Value) -> Completion
    ensures { completion_of result ≡ ok text }
{
    Completion::new(OK, text)
}

/// An error with this message and no errorcode.
pub fn error(message: Value) -> Completion
    ensures { completion_of result ≡ error message }
{
    Completion::new(ERROR, message)
}

/// Brings a return one level nearer: at the last level it gives its code.
fn lower(completion: &mut Completion)
    ensures { completion_of completion.new ≡ lowered (completion_of completion.old) }
{
    let options = &mut completion.options;
    if options.level > 1 {
        options.level -= 1;
    } else {
        options.level = 0;
        completion.code = options.code;
    }
}

/// Makes a completion that of a procedure whose body ended so: a return comes one level nearer, a
/// break or a continue is an error, and everything else passes.
///
/// # Errors
/// Want of memory.
pub fn leave_proc(alloc: Global, completion: &mut Completion) -> Result<(), AllocError>
    ensures left { OnOk result
        (completion_of completion.new ≡ leave_proc (completion_of completion.old)) }
    ensures unchanged { OnErr result (completion.new ≡ completion.old) }
{
    match completion.code {
        RETURN => lower(completion),
        BREAK => *completion = error(break_outside(alloc)?),
        CONTINUE => *completion = error(continue_outside(alloc)?),
        _ => {}
    }
    Ok(())
}

/// Makes a completion that of a script that was read from a file, whose own ended so: a return
/// comes one level nearer, and everything else passes.
pub fn leave_file(completion: &mut Completion)
    ensures { completion_of completion.new
        ≡ unreturned completion.old.code (completion_of completion.old) }
{
    if completion.code == RETURN {
        lower(completion);
    }
}

/// Makes a completion what is left of it where only ok and error may pass: a return is lowered by
/// one level first; then a break, a continue and every other code are errors.
///
/// # Errors
/// Want of memory; a return is lowered then all the same.
pub fn settle(alloc: Global, completion: &mut Completion) -> Result<(), AllocError>
    ensures settled { OnOk result
        (completion_of completion.new ≡ settle (completion_of completion.old)) }
    ensures lowered { OnErr result (completion_of completion.new
        ≡ unreturned completion.old.code (completion_of completion.old)) }
{
    leave_file(completion);
    settle_code(alloc, completion)
}

/// The same, of one that is no return with its last level.
fn settle_code(alloc: Global, completion: &mut Completion) -> Result<(), AllocError>
    ensures settled { OnOk result (completion_of completion.new
        ≡ settled completion.old.code (completion_of completion.old)) }
    ensures unchanged { OnErr result (completion.new ≡ completion.old) }
{
    match completion.code {
        OK | ERROR => {}
        BREAK => *completion = error(break_outside(alloc)?),
        CONTINUE => *completion = error(continue_outside(alloc)?),
        code => *completion = other_code(alloc, code)?,
    }
    Ok(())
}

/// The error that a code is that has no name.
fn other_code(alloc: Global, code: i64) -> Result<Completion, AllocError>
    requires not_ok { code ≢ pos 0 }
    requires not_error { code ≢ pos 1 }
    requires not_break { code ≢ pos 3 }
    requires not_continue { code ≢ pos 4 }
    ensures { IfOk result (λ c. (of : core.Completion) → completion_of c ≡ settled code of) }
{
    let message = bad_code(alloc, code)?;
    Ok(error(message))
}
