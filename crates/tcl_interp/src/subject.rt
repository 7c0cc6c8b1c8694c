//! The interpreter that a subcommand is about.
ghost use Rattle.std.specs.Prelude.{◌≡◌, ◌∷◌, [], IfOk};
ghost use Rattle.std.specs.String.{string_bytes};
ghost use Rattle.tcl_core.specs.Endings.Reply.{Completed};
ghost use Rattle.tcl_core.specs.Paths.{Path};
ghost use Rattle.tcl_language.specs.Faults as faults;
ghost use Rattle.tcl_language.specs.Interpreters as interpreters;
ghost use Rattle.tcl_run.specs.Ends.{Interrupts, failing};
ghost use Rattle.tcl_run.specs.Entering.{entry_of};
ghost use Rattle.tcl_run.specs.Runs.{Evaluates, IsHere, IsRunning, KeepsAndLoses};
ghost use Rattle.tcl_calls.specs.Looking.{Finds};
ghost use Rattle.tcl_interp.specs.Subjects.{about, asks_of, form_of, path_text, reached};
ghost use Rattle.tcl_interp.specs.Subjects.{split_path};

use std::alloc::{AllocError, Global};
use std::slice;
use tcl_calls::asking::{FoundPath, path_at};
use tcl_calls::looking::permit;
use tcl_calls::requests::ask_at;
use tcl_calls::serving::path_text;
use tcl_run::entry::OwnEntry;
use tcl_run::failure::wrong_args;
use tcl_run::interruption::Interruption;
use tcl_run::outside::Outside;
use tcl_text::text::Text;
use tcl_tree::tree::{Place, Tree};
use tcl_value::value::Value;

/// The interpreter that a subcommand is about.
#[derive(Clone, Copy)]
pub enum Subject<'a> {
    /// The one that asks, where `interp` is given no path.
    Itself,
    /// The one at the path that a word of `interp` is.
    Path(&'a Value),
    /// The child of this name, whose own command was called.
    Child(&'a Text),
}

/// What the words behind a subcommand of `interp` are about, and the words behind the path.
pub fn split_path(args: &[Value]) -> (Subject<'_>, &[Value])
    ensures { split_path args.now ≡ (about result.0, result.1.now) }
{
    match args {
        [path, words @ ..] => (Subject::Path(path), words),
        [] => (Subject::Itself, args),
    }
}

/// The form of a subcommand, with the child's name in front.
fn child_form(alloc: Global, name: &Text, form: &str) -> Result<String, AllocError>
    ensures { IfOk result (λ made. string_bytes made ≡ interpreters.child_form name.now form.now) }
{
    let mut made = String::from_str(alloc, name.as_str())?;
    made.push_str(" ")?;
    made.push_str(form)?;
    Ok(made)
}

/// The words of a child's own command don't have its form.
pub fn wrong_child_args(alloc: Global, name: &Text, form: &str) -> Interruption
    ensures { Interrupts result (λ e. e
        ≡ Completed (failing (faults.wrong_args (interpreters.child_form name.now form.now)))) }
{
    match child_form(alloc, name, form) {
        Ok(form) => wrong_args(alloc, form.as_str()),
        Err(_) => Interruption::Memory,
    }
}

/// The words of a subcommand don't have its form: the first one, as `interp` has it, or the other,
/// behind a child's name.
pub fn wrong_words(alloc: Global, subject: Subject<'_>, form: &str, own: &str) -> Interruption
    ensures { Interrupts result (λ e. e
        ≡ Completed (failing (faults.wrong_args
        (form_of (about subject.entry) form.now own.now)))) }
{
    match subject {
        Subject::Itself => wrong_args(alloc, form),
        Subject::Path(_) => wrong_args(alloc, form),
        Subject::Child(name) => wrong_child_args(alloc, name, own),
    }
}

/// The subject's path as a text.
fn text_of(alloc: Global, subject: Subject<'_>) -> Result<Text, AllocError>
    ensures { IfOk result (λ text. text ≡ path_text (about subject.entry)) }
{
    match subject {
        Subject::Itself => Text::new(alloc, ""),
        Subject::Path(word) => word.text(alloc),
        Subject::Child(name) => path_text(alloc, name),
    }
}

/// The path that a text is, where an interpreter stands there.
fn path_there(
    tree: &Tree,
    alloc: Global,
    place: Place,
    text: &Text,
) -> Result<Vec<Text>, Interruption>
    requires { IsRunning tree.now place }
    ensures { Finds tree.now place (λ path. path.items)
        (λ rest style. interpreters.at_path text.now (λ path n. rest path style)) result }
{
    let found = path_at(tree, alloc, place, text)?;
    let FoundPath { path, place: _ } = found;
    Ok(path)
}

/// The subject's path, where an interpreter stands there.
fn standing_path(
    tree: &Tree,
    alloc: Global,
    place: Place,
    subject: Subject<'_>,
) -> Result<Vec<Text>, Interruption>
    requires { IsRunning tree.now place }
    ensures { Finds tree.now place (λ path. path.items)
        (λ rest style. interpreters.at_path (path_text (about subject.entry))
        (λ path n. rest path style)) result }
{
    let text = text_of(alloc, subject)?;
    path_there(tree, alloc, place, &text)
}

/// The path that is one name.
pub fn one_name(alloc: Global, name: &Text) -> Result<Vec<Text>, AllocError>
    ensures { IfOk result (λ path. path.items ≡ name.now ∷ []) }
{
    Vec::from_clones(alloc, slice::from_ref(name))
}

/// The subject's path. Of a child it is the name, and nobody looks whether it stands.
///
/// # Errors
/// Those of a path that is given: 101 to 104 and 301; want of memory.
pub fn path_to(
    tree: &Tree,
    alloc: Global,
    place: Place,
    subject: Subject<'_>,
) -> Result<Vec<Text>, Interruption>
    requires { IsRunning tree.now place }
    ensures { Finds tree.now place (λ path. path.items)
        (λ rest style. reached (about subject.entry) (λ path. rest path style)) result }
{
    match subject {
        Subject::Itself => standing_path(tree, alloc, place, subject),
        Subject::Path(_) => standing_path(tree, alloc, place, subject),
        Subject::Child(name) => Ok(one_name(alloc, name)?),
    }
}

/// The subject's path, for what only a trusted interpreter asks.
///
/// # Errors
/// 304 where the interpreter that asks is safe; those of the path: 101 to 104 and 301; want of
/// memory.
pub fn trusted_path(
    tree: &Tree,
    alloc: Global,
    place: Place,
    subject: Subject<'_>,
) -> Result<Vec<Text>, Interruption>
    requires { IsRunning tree.now place }
    ensures { Finds tree.now place (λ path. path.items)
        (λ rest style. interpreters.permitted
        (interpreters.at_path (path_text (about subject.entry))
        (λ path n. rest path style))) result }
{
    permit(tree, alloc, place)?;
    standing_path(tree, alloc, place, subject)
}

/// Asks the subject.
pub fn ask_subject<O: Outside>(
    tree: &mut Tree,
    alloc: Global,
    outside: &mut O,
    place: Place,
    subject: Subject<'_>,
    entry: OwnEntry,
) -> Result<Value, Interruption>
    requires { IsRunning tree.old place }
    ensures evaluates { Evaluates O.goes tree.old outside.old place
        (λ style. asks_of (about subject.entry) (entry_of entry)) tree.new outside.new result }
    ensures keeps { KeepsAndLoses O.entries_left O.loses tree.old tree.new outside.old outside.new }
    ensures here { IsHere tree.old tree.new place }
{
    let path = path_to(tree, alloc, place, subject)?;
    ask_at(tree, alloc, outside, place, path.as_slice(), entry)
}

/// Asks the subject for what only a trusted interpreter asks.
pub fn ask_trusted<O: Outside>(
    tree: &mut Tree,
    alloc: Global,
    outside: &mut O,
    place: Place,
    subject: Subject<'_>,
    entry: OwnEntry,
) -> Result<Value, Interruption>
    requires { IsRunning tree.old place }
    ensures evaluates { Evaluates O.goes tree.old outside.old place
        (λ style. interpreters.asks_trusted (path_text (about subject.entry)) (entry_of entry))
        tree.new outside.new result }
    ensures keeps { KeepsAndLoses O.entries_left O.loses tree.old tree.new outside.old outside.new }
    ensures here { IsHere tree.old tree.new place }
{
    let path = trusted_path(tree, alloc, place, subject)?;
    ask_at(tree, alloc, outside, place, path.as_slice(), entry)
}
