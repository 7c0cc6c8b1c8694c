//! The handlers of a `try`.
ghost use Rattle.std.specs.Option.{option_copied, option_map};
ghost use Rattle.std.specs.Ordering.{int_eq};
ghost use Rattle.std.specs.Prelude.{◌≡◌, ◌<◌, length, pos, IfOk, MatchResult, Ok};
ghost use Rattle.tcl_core.specs.Endings.Reply.{Completed};
ghost use Rattle.tcl_core.specs.Paths.{Path};
ghost use Rattle.tcl_flow.specs.Returning as returning;
ghost use Rattle.tcl_flow.specs.View.{completion_of};
ghost use Rattle.tcl_flow.specs.declared.returning.OptionsFault.TheVariants.{BadCode};
ghost use Rattle.tcl_language.specs.Instructions.{or_fails};
ghost use Rattle.tcl_language.specs.Trying as trying;
ghost use Rattle.tcl_run.specs.Ends.{IfEnded, Interrupts, IsFailure, itself};
ghost use Rattle.tcl_run.specs.Plain.{Steps};
ghost use Rattle.tcl_run.specs.Runs.{IsLevel};
ghost use Rattle.tcl_text.specs.Lists.{list_of};
ghost use Rattle.tcl_text.specs.Writing.{fault_message};
ghost use Rattle.tcl_tree.specs.TreeOf.{Names};
ghost use Rattle.tcl_calls.specs.Trying.{handles_of, handlers_of, seen, EndsRead, Picks};
ghost use Rattle.tcl_calls.specs.Trying.{ReadsHandles};

use crate::catching::keep_caught;
use crate::words::add_elements;
use std::alloc::{AllocError, Global};
use tcl_flow::completion::{Completion, ERROR, OK};
use tcl_flow::returning::{OptionsFault, code_of};
use tcl_run::failure::{failure, wrong_args};
use tcl_run::interruption::Interruption;
use tcl_run::steps::read_list;
use tcl_text::integer::Integers;
use tcl_text::list::ListError;
use tcl_text::text::Text;
use tcl_tree::tree::{Place, Tree};
use tcl_value::list::List;
use tcl_value::value::Value;

/// The form of `try`.
pub const TRY: &str = "try body ?handler ...? ?finally script?";

/// Which completions a handler handles.
#[derive(Drop)]
pub enum Handles {
    /// Those of a code.
    Code(i64),
    /// The errors whose errorcode begins with these elements.
    Errors(List),
}

/// A handler.
#[derive(Drop)]
pub struct Handler<'w> {
    pub handles: Handles,
    /// The list of the variables that it sets.
    pub names: &'w Value,
    /// What it runs, or `-` for what the next one runs.
    pub script: &'w Value,
}

/// What stands behind the body of a `try`.
#[derive(Drop)]
pub struct Tried<'w> {
    /// The handlers, in order.
    pub handlers: Vec<Handler<'w>>,
    /// The script behind `finally`, if there is one.
    pub last: Option<&'w Value>,
}

/// What is said of a word that is no code.
fn code_message(alloc: Global, word: &Value) -> Result<Text, AllocError>
    ensures { IfOk result (λ text. text ≡ returning.options_message (BadCode word.now)) }
{
    let word = word.text(alloc)?;
    OptionsFault::BadCode(word).message(alloc)
}

/// Reads the code of a handler.
fn read_code(alloc: Global, style: Integers, word: &Value) -> Result<Handles, Interruption>
    ensures { ReadsHandles (trying.code_or word.now (returning.code_of style word.now)) result }
{
    let mut own = word.clone()?;
    let found = code_of(alloc, style, &mut own)?;
    match found {
        Some(code) => Ok(Handles::Code(code)),
        None => {
            let message = code_message(alloc, word)?;
            Err(failure(alloc, message))
        }
    }
}

/// Reads the pattern of a handler.
fn read_pattern(alloc: Global, word: &Value) -> Result<Handles, Interruption>
    ensures { ReadsHandles (trying.pattern_or (list_of word.now)) result }
{
    let mut own = word.clone()?;
    let list = read_list(alloc, &mut own)?;
    Ok(Handles::Errors(list))
}

/// Reads the first two words of a handler.
fn read_handles(
    alloc: Global,
    style: Integers,
    word: &Value,
    what: &Value,
) -> Result<Handles, Interruption>
    ensures { ReadsHandles (trying.handles_of style word.now what.now) result }
{
    if word.is_text(b"on") {
        return read_code(alloc, style, what);
    }
    if word.is_text(b"trap") {
        return read_pattern(alloc, what);
    }
    Err(wrong_args(alloc, TRY))
}

/// The script behind `finally` in words that are too few for a handler.
fn last_script(alloc: Global, words: &[Value]) -> Result<Option<&Value>, Interruption>
    requires { length words.now < 4 }
    ensures { MatchResult result (λ last. EndsRead words.now (option_copied last))
        (λ i. Interrupts i (λ e. (style : Integers) →
        IsFailure itself (trying.tried_of style words.now) e)) }
{
    if words.is_empty() {
        return Ok(None);
    }
    match words {
        [word, script] => {
            if word.is_text(b"finally") {
                return Ok(Some(script));
            }
            Err(wrong_args(alloc, TRY))
        }
        _ => Err(wrong_args(alloc, TRY)),
    }
}

/// Reads the words behind the body of a `try`, from the left. (try(n))
///
/// # Errors
/// 241; 221 of a code; 101 to 104 of a pattern; want of memory.
#[inline(never)]
pub fn read_tried(
    alloc: Global,
    style: Integers,
    words: &[Value],
) -> Result<Tried<'_>, Interruption>
    ensures { MatchResult result (λ tried. trying.tried_of style words.now ≡ Ok (seen tried))
        (λ i. Interrupts i (IsFailure itself (trying.tried_of style words.now))) }
{
    let mut handlers = Vec::new(alloc);
    let mut left = words;
    'handlers: while let [word, what, names, script, rest @ ..] = left {
        let handles = read_handles(alloc, style, word, what)?;
        handlers.push(Handler {
            handles,
            names,
            script,
        })?;
        left = rest;
    }
    let last = last_script(alloc, left)?;
    Ok(Tried { handlers, last })
}

/// Whether a list begins with the elements of another.
fn begins(pattern: &List, list: &List) -> Result<bool, AllocError>
    ensures { IfOk result (λ found. found ≡ trying.begins pattern.now list.now) }
{
    if list.len() < pattern.len() {
        return Ok(false);
    }
    'elements: for index in 0..pattern.len() {
        let wanted = pattern.get(index)?;
        let found = list.get(index)?;
        if !wanted.same(&found) {
            return Ok(false);
        }
    }
    Ok(true)
}

/// The errorcode of a completion.
fn errorcode(alloc: Global, completion: &Completion) -> Result<Value, AllocError>
    ensures { IfOk result (λ value. value ≡ (completion_of completion.now).options.errorcode) }
{
    match &completion.options.errorcode {
        Some(errorcode) => errorcode.clone(),
        None => Ok(Value::from_short_text(Text::new(alloc, "NONE")?)),
    }
}

/// Whether an errorcode begins with the elements of a pattern, which one that is no list doesn't.
fn begins_read(alloc: Global, pattern: &List, errorcode: Value) -> Result<bool, AllocError>
    ensures { IfOk result (λ found. found ≡ trying.begins_read pattern.now (list_of errorcode)) }
{
    let mut errorcode = errorcode;
    match errorcode.as_list(alloc) {
        Ok(list) => begins(pattern, &list),
        Err(ListError::Fault(_)) => Ok(false),
        Err(ListError::Memory) => Err(AllocError),
    }
}

/// Whether a completion is an error.
fn is_error(completion: &Completion) -> bool
    ensures { result ≡ int_eq completion.now.code (pos 1) }
{
    completion.code == ERROR
}

/// Whether a handler handles a completion.
fn is_handled(alloc: Global, completion: &Completion, handles: &Handles) -> Result<bool, AllocError>
    ensures { IfOk result (λ handled. handled ≡ trying.is_handled (completion_of completion.now)
        (handles_of handles.now)) }
{
    match handles {
        Handles::Code(code) => Ok(completion.code == *code),
        Handles::Errors(pattern) => {
            if !is_error(completion) {
                return Ok(false);
            }
            let kind = errorcode(alloc, completion)?;
            begins_read(alloc, pattern, kind)
        }
    }
}

/// The first script of handlers that isn't `-`.
fn first_script<'w>(handlers: &[Handler<'w>]) -> Option<&'w Value>
    ensures { option_copied result ≡ trying.first_script (handlers_of handlers.now) }
{
    'handlers: for handler in handlers {
        if !handler.script.is_text(b"-") {
            return Some(handler.script);
        }
    }
    None
}

/// The variables and the script of the first handler that handles a completion. A script `-` is
/// that of the next handler; behind the last there is none. (try(n))
///
/// # Errors
/// Want of memory.
#[inline(never)]
pub fn handler_for<'w>(
    alloc: Global,
    completion: &Completion,
    handlers: &[Handler<'w>],
) -> Result<Option<(&'w Value, Option<&'w Value>)>, AllocError>
    ensures { IfOk result (λ found. Picks (completion_of completion.now)
        (handlers_of handlers.now) (option_map (λ x. (x.0.now, option_copied x.1)) found)) }
{
    let mut left = handlers;
    'handlers: while let [handler, rest @ ..] = left {
        if is_handled(alloc, completion, &handler.handles)? {
            return Ok(Some((handler.names, first_script(left))));
        }
        left = rest;
    }
    Ok(None)
}

/// Sets the variables of a handler: the first to the text of a completion, the second to its
/// options. (try(n))
///
/// # Errors
/// 101 to 104 of the list of the variables; the first that can't be set; 122 of the options; want
/// of memory.
#[inline(never)]
pub fn keep_named(
    tree: &mut Tree,
    alloc: Global,
    place: Place,
    names: &Value,
    completion: &Completion,
) -> Result<(), Interruption>
    requires { (p : Path) × Names tree.old place p }
    ensures kept { Steps tree.old place
        (λ k. or_fails fault_message (list_of names.now)
        (λ xs. trying.keeps xs (completion_of completion.now) k)) tree.new result }
    ensures level { IsLevel tree.old tree.new }
{
    let mut own = names.clone()?;
    let list = read_list(alloc, &mut own)?;
    let mut names = Vec::new(alloc);
    add_elements(&list, &mut names)?;
    keep_caught(tree, alloc, place, names.as_slice(), completion)
}

/// An evaluation that completed so: an ordinary end, where no more than its text is known.
#[inline(never)]
pub fn released(alloc: Global, completion: Completion) -> Result<Value, Interruption>
    ensures { IfEnded result (λ e. e ≡ Completed (completion_of completion)) }
{
    let options = &completion.options;
    if completion.code == OK
        && options.code == OK
        && options.level == 0
        && options.errorcode.is_none()
    {
        return Ok(completion.text);
    }
    Err(Interruption::of_completion(alloc, completion))
}
