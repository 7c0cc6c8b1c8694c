//! The words of `invokehidden`.
ghost use Rattle.std.specs.Prelude.{◌≡◌, IfOk, IfErr};
ghost use Rattle.tcl_core.specs.Endings.Reply.{Completed};
ghost use Rattle.tcl_core.specs.Entries.Entry.{InvokeHidden};
ghost use Rattle.tcl_language.specs.Faults as faults;
ghost use Rattle.tcl_language.specs.Interpreters as interpreters;
ghost use Rattle.tcl_run.specs.Ends.{Interrupts, failing};
ghost use Rattle.tcl_interp.specs.Failing.{FailsSo};
ghost use Rattle.tcl_interp.specs.HiddenCalls.{ReadsOption};
ghost use Rattle.tcl_interp.specs.Programs.{called_with, invoke_forms, invokes};
ghost use Rattle.tcl_interp.specs.Subjects.{about, path_text};

use crate::subject::{Subject, wrong_words};
use std::alloc::Global;
use tcl_run::failure::bad_option;
use tcl_run::interruption::Interruption;
use tcl_text::text::Text;
use tcl_value::value::Value;

/// A call of a hidden command: whether it is made at the global level, and the hidden name with the
/// words behind it.
#[derive(Drop)]
pub struct HiddenCall {
    pub is_global: bool,
    pub words: Vec<Value>,
}

/// Whether a word begins with `-`, as options do.
fn is_option(word: &Text) -> bool
    ensures { result ≡ interpreters.is_option word.now }
{
    match word.as_str().as_bytes() {
        [first, ..] => *first == b'-',
        [] => false,
    }
}

/// Whether the first word is the option `-global`, and not the hidden name.
fn reads_global(alloc: Global, word: &Value) -> Result<bool, Interruption>
    ensures { ReadsOption word.now result }
{
    let text = word.text(alloc)?;
    if !is_option(&text) {
        return Ok(false);
    }
    if !word.is_text(b"-global") {
        return Err(bad_option(alloc, text.as_str()));
    }
    Ok(true)
}

/// The words don't have the form of `invokehidden`.
fn wrong_call(alloc: Global, subject: Subject<'_>) -> Interruption
    ensures { Interrupts result (λ e. e
        ≡ Completed (failing (faults.wrong_args (invoke_forms (about subject.entry))))) }
{
    let form = "interp invokehidden path ?-global? hiddenName ?arg ...?";
    wrong_words(
        alloc,
        subject,
        form,
        "invokehidden ?-global? hiddenName ?arg ...?",
    )
}

/// The call of a hidden command with these words, where no more options are read.
fn call_with(
    alloc: Global,
    subject: Subject<'_>,
    is_global: bool,
    words: &[Value],
) -> Result<HiddenCall, Interruption>
    ensures called { IfOk result
        (λ call. called_with (about subject.entry) is_global words.now
        ≡ interpreters.asks_trusted (path_text (about subject.entry))
        (InvokeHidden call.is_global call.words.items)) }
    ensures refused { IfErr result
        (λ i. Interrupts i (FailsSo (called_with (about subject.entry) is_global words.now))) }
{
    if words.is_empty() {
        return Err(wrong_call(alloc, subject));
    }
    let words = Vec::from_clones(alloc, words)?;
    Ok(HiddenCall { is_global, words })
}

/// The call that the words `?-global? hiddenName ?arg ...?` of `invokehidden` are. An option is
/// looked for in front of the hidden name alone.
///
/// # Errors
/// 241 where there is no hidden name; 221; want of memory.
pub fn hidden_call(
    alloc: Global,
    subject: Subject<'_>,
    args: &[Value],
) -> Result<HiddenCall, Interruption>
    ensures called { IfOk result
        (λ call. invokes (about subject.entry) args.now
        ≡ interpreters.asks_trusted (path_text (about subject.entry))
        (InvokeHidden call.is_global call.words.items)) }
    ensures refused { IfErr result
        (λ i. Interrupts i (FailsSo (invokes (about subject.entry) args.now))) }
{
    match args {
        [] => Err(wrong_call(alloc, subject)),
        [first, words @ ..] => {
            if reads_global(alloc, first)? {
                call_with(alloc, subject, true, words)
            } else {
                call_with(alloc, subject, false, args)
            }
        }
    }
}
