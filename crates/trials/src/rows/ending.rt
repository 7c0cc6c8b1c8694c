//! How a run ends, in writing: as a code and a text, `0: ` and the result or `1: ` and the error
//! (no blank where the text is empty), as `stopped by count` or `stopped by depth`, as `exit` and
//! the status, or as what refused the run.
use std::alloc::{AllocError, Global};
use tcl_eval::running::{End, Refused, eval};
use tcl_flow::completion::Completion;
use tcl_flow::stop::StopKind;
use tcl_host::memory::MemoryHost;
use tcl_text::text::Text;
use tcl_tree::tree::Tree;

/// How many steps a run may make where nothing else is said.
pub(crate) const STEPS: u64 = 100_000;

/// A completion in writing: its code and its text.
fn completed(alloc: Global, completion: &Completion) -> Result<String, AllocError> {
    let code = completion.code;
    let text = completion.text.text(alloc)?;
    if text.is_empty() {
        return format!(in alloc; "{code}:");
    }
    format!(in alloc; "{code}: {text}", text = text.as_str())
}

/// How a run ended.
pub(crate) fn end(alloc: Global, end: &End) -> Result<String, AllocError> {
    match end {
        End::Done(completion) => completed(alloc, completion),
        End::Stopped(StopKind::Count) => String::from_str(alloc, "stopped by count"),
        End::Stopped(StopKind::Depth) => String::from_str(alloc, "stopped by depth"),
        End::Stopped(StopKind::Gone) => String::from_str(alloc, "deleted"),
        End::Exit(status) => format!(in alloc; "exit {status}"),
    }
}

/// What refused a run.
pub(crate) fn refusal(alloc: Global, refused: Refused) -> Result<String, AllocError> {
    format!(in alloc; "{refused:?}")
}

/// How a run ended, or what refused it.
fn ending(alloc: Global, ended: &Result<End, Refused>) -> Result<String, AllocError> {
    match ended {
        Ok(ended) => end(alloc, ended),
        Err(refused) => refusal(alloc, *refused),
    }
}

/// A run of a script in the interpreter at a path, which may make so many steps.
pub(crate) fn run(
    tree: &mut Tree,
    alloc: Global,
    host: &mut MemoryHost,
    path: &[Text],
    script: &str,
    limit: u64,
) -> Result<End, Refused> {
    eval(tree, alloc, host, path, script, limit)
}

/// How a run of a script in the interpreter at a path ends, which may make so many steps.
pub(crate) fn evaluated(
    tree: &mut Tree,
    alloc: Global,
    host: &mut MemoryHost,
    path: &[Text],
    script: &str,
    limit: u64,
) -> Result<String, AllocError> {
    let ended = run(tree, alloc, host, path, script, limit);
    ending(alloc, &ended)
}
