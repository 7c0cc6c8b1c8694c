//! Evaluation of scripts.
ghost use Rattle.std.specs.Prelude.{◌≡◌, IfOk};
ghost use Rattle.std.specs.String.{string_bytes};
ghost use Rattle.tcl_embed.specs.Ends.{code_text, completion_text, end_text, limit_text};
ghost use Rattle.tcl_embed.specs.Ends.{open_end_text};

use std::alloc::{AllocError, Global};
use tcl_flow::messages::DELETED;
use tcl_flow::stop::StopKind;
use tcl_text::messages::{COUNT_LIMIT, DEPTH_LIMIT};

/// Evaluates a script in the interpreter at a path, with a host, in at most so many counted steps.
pub use tcl_eval::running::eval;
/// The same over any outside, as functions and a host (see `functions`).
pub use tcl_eval::running::open_run;
/// Why a run would be refused, before there is one.
pub use tcl_eval::running::refusal;
/// How a run ended: by a completion, by a limit of the root, or by an exit.
pub use tcl_eval::running::End;
/// How an open run ended: as a run does, or cut off by its outside.
pub use tcl_eval::running::OpenEnd;
/// Why there was no run, or none that came to its end (122, 401 to 404).
pub use tcl_eval::running::Refused;
/// A code, a text and options, by which a script completes.
pub use tcl_flow::completion::Completion;
/// The options of a completion: its code, level and errorcode.
pub use tcl_flow::completion::Options;
/// The codes that have names: 0, 1, 2, 3 and 4.
pub use tcl_flow::completion::{BREAK, CONTINUE, ERROR, OK, RETURN};

/// What is said of a run: how it ended (see `end_text`), or why there was none.
///
/// # Errors
/// Want of memory.
pub fn run_text(alloc: Global, run: &Result<End, Refused>) -> Result<String, AllocError>
    ensures { IfOk result (λ text. IfOk run.now (λ end. string_bytes text ≡ end_text end)) }
{
    match run {
        Ok(end) => end_text(alloc, end),
        Err(refused) => refused.to_string(alloc),
    }
}

/// The same of an open run, also `cut off` where its outside ended it.
///
/// # Errors
/// Want of memory.
pub fn open_run_text(alloc: Global, run: &Result<OpenEnd, Refused>) -> Result<String, AllocError>
    ensures { IfOk result (λ text. IfOk run.now (λ end. string_bytes text ≡ open_end_text end)) }
{
    match run {
        Ok(OpenEnd::Ran(end)) => end_text(alloc, end),
        Ok(OpenEnd::CutOff) => String::from_str(alloc, "cut off"),
        Err(refused) => refused.to_string(alloc),
    }
}

/// How a run ended: `code 0: RESULT`, `code 1: MESSAGE`, `stopped: LIMIT` or `exit STATUS`.
///
/// # Errors
/// Want of memory.
pub fn end_text(alloc: Global, end: &End) -> Result<String, AllocError>
    ensures { IfOk result (λ text. string_bytes text ≡ end_text end.now) }
{
    match end {
        End::Done(completion) => completion_text(alloc, completion),
        End::Stopped(kind) => {
            let limit = limit_text(*kind);
            format!(in alloc; "stopped: {limit}")
        }
        End::Exit(status) => {
            let status = *status;
            format!(in alloc; "exit {status}")
        }
    }
}

/// How a script completed.
fn completion_text(alloc: Global, completion: &Completion) -> Result<String, AllocError>
    ensures { IfOk result (λ text. string_bytes text ≡ completion_text completion.now) }
{
    let text = completion.text.text(alloc)?;
    code_text(alloc, completion.code, text.as_str())
}

/// A code and a text.
fn code_text(alloc: Global, code: i64, text: &str) -> Result<String, AllocError>
    ensures { IfOk result (λ made. string_bytes made ≡ code_text code text.now) }
{
    let mut made = format!(in alloc; "code {code}")?;
    made.push_str(": ")?;
    made.push_str(text)?;
    Ok(made)
}

/// The text of a stop.
fn limit_text(kind: StopKind) -> &'static str
    ensures { result.now ≡ limit_text kind }
{
    match kind {
        StopKind::Count => COUNT_LIMIT,
        StopKind::Depth => DEPTH_LIMIT,
        StopKind::Gone => DELETED,
    }
}
