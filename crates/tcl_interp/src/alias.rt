//! Aliases are given, taken away and asked about.
ghost use Rattle.std.specs.Prelude.{◌∷◌, []};
ghost use Rattle.tcl_language.specs.Interpreters as interpreters;
ghost use Rattle.tcl_run.specs.Runs.{Evaluates, IsHere, IsRunning, KeepsAndLoses};
ghost use Rattle.tcl_interp.specs.Subjects.{about, on_path};
ghost use Rattle.tcl_interp.specs.Programs.{aliases, gives_alias, given};

use crate::subject::{Subject, ask_subject, wrong_words};
use std::alloc::Global;
use std::slice;
use tcl_calls::asking::path_of;
use tcl_calls::looking::names_of;
use tcl_calls::requests::ask_telling;
use tcl_run::entry::{OwnEntry, Question, target_words};
use tcl_run::failure::wrong_args;
use tcl_run::interruption::Interruption;
use tcl_run::outside::Outside;
use tcl_text::text::Text;
use tcl_tree::alias::Alias;
use tcl_tree::tree::{Place, Tree};
use tcl_value::value::Value;

/// Makes a name of the interpreter at a path an alias of a command of the one at another path.
fn set_alias<O: Outside>(
    tree: &mut Tree,
    alloc: Global,
    outside: &mut O,
    place: Place,
    path: &[Text],
    goal: &[Text],
    name: &Value,
    word: &Value,
    words: &[Value],
) -> Result<Value, Interruption>
    requires { IsRunning tree.old place }
    ensures evaluates { Evaluates O.goes tree.old outside.old place
        (λ style. given path.now goal.now name.now (word.now ∷ words.now)) tree.new outside.new
        result }
    ensures keeps { KeepsAndLoses O.entries_left O.loses tree.old tree.new outside.old outside.new }
    ensures here { IsHere tree.old tree.new place }
{
    let own = target_words(alloc, slice::from_ref(word), words)?;
    let alias = Alias::between(alloc, path, goal, own)?;
    let told = name.clone()?;
    let name = name.text(alloc)?;
    let entry = OwnEntry::SetAlias { name, alias };
    ask_telling(tree, alloc, outside, place, path, entry, told)
}

/// The same of the paths that words are.
fn set_alias_between<O: Outside>(
    tree: &mut Tree,
    alloc: Global,
    outside: &mut O,
    place: Place,
    source: &Value,
    target: &Value,
    name: &Value,
    word: &Value,
    words: &[Value],
) -> Result<Value, Interruption>
    requires { IsRunning tree.old place }
    ensures evaluates { Evaluates O.goes tree.old outside.old place
        (λ style. interpreters.alias_path source.now name.now target.now word.now words.now)
        tree.new outside.new result }
    ensures keeps { KeepsAndLoses O.entries_left O.loses tree.old tree.new outside.old outside.new }
    ensures here { IsHere tree.old tree.new place }
{
    let found = path_of(tree, alloc, place, source)?;
    let goal = names_of(tree, alloc, place, target)?;
    let (from, to) = (found.path.as_slice(), goal.as_slice());
    set_alias(tree, alloc, outside, place, from, to, name, word, words)
}

/// The form of `interp alias`.
const FORM: &str = "interp alias srcPath srcCmd ?targetPath? ?targetCmd? ?arg ...?";

/// Gives the interpreter at a path an alias, where a word names the target command.
fn give_alias_at<O: Outside>(
    tree: &mut Tree,
    alloc: Global,
    outside: &mut O,
    place: Place,
    source: &Value,
    name: &Value,
    target: &Value,
    words: &[Value],
) -> Result<Value, Interruption>
    requires { IsRunning tree.old place }
    ensures evaluates { Evaluates O.goes tree.old outside.old place
        (λ style. gives_alias (on_path source.now) name.now target.now words.now) tree.new
        outside.new result }
    ensures keeps { KeepsAndLoses O.entries_left O.loses tree.old tree.new outside.old outside.new }
    ensures here { IsHere tree.old tree.new place }
{
    let [word, own @ ..] = words else {
        return Err(wrong_args(alloc, FORM));
    };
    set_alias_between(tree, alloc, outside, place, source, target, name, word, own)
}

/// Gives the subject an alias. That of a child calls the interpreter that asks, by the first word
/// behind the name; for `interp`, that word is the path of the target.
fn give_alias<O: Outside>(
    tree: &mut Tree,
    alloc: Global,
    outside: &mut O,
    place: Place,
    subject: Subject<'_>,
    name: &Value,
    target: &Value,
    words: &[Value],
) -> Result<Value, Interruption>
    requires { IsRunning tree.old place }
    ensures evaluates { Evaluates O.goes tree.old outside.old place
        (λ style. gives_alias (about subject.entry) name.now target.now words.now) tree.new
        outside.new result }
    ensures keeps { KeepsAndLoses O.entries_left O.loses tree.old tree.new outside.old outside.new }
    ensures here { IsHere tree.old tree.new place }
{
    match subject {
        Subject::Itself => {
            let source = Value::empty();
            give_alias_at(tree, alloc, outside, place, &source, name, target, words)
        }
        Subject::Path(source) => {
            give_alias_at(tree, alloc, outside, place, source, name, target, words)
        }
        Subject::Child(child) => {
            let path = slice::from_ref(child);
            set_alias(tree, alloc, outside, place, path, &[], name, target, words)
        }
    }
}

/// Takes an alias of the subject away.
fn clear_alias<O: Outside>(
    tree: &mut Tree,
    alloc: Global,
    outside: &mut O,
    place: Place,
    subject: Subject<'_>,
    name: &Value,
) -> Result<Value, Interruption>
    requires { IsRunning tree.old place }
    ensures evaluates { Evaluates O.goes tree.old outside.old place
        (λ style. aliases (about subject.entry) (name.now ∷ [] ∷ [])) tree.new outside.new result }
    ensures keeps { KeepsAndLoses O.entries_left O.loses tree.old tree.new outside.old outside.new }
    ensures here { IsHere tree.old tree.new place }
{
    let name = name.text(alloc)?;
    ask_subject(
        tree,
        alloc,
        outside,
        place,
        subject,
        OwnEntry::ClearAlias(name),
    )
}

/// What an alias of the subject stands for.
fn alias_of<O: Outside>(
    tree: &mut Tree,
    alloc: Global,
    outside: &mut O,
    place: Place,
    subject: Subject<'_>,
    name: &Value,
) -> Result<Value, Interruption>
    requires { IsRunning tree.old place }
    ensures evaluates { Evaluates O.goes tree.old outside.old place
        (λ style. aliases (about subject.entry) (name.now ∷ [])) tree.new outside.new result }
    ensures keeps { KeepsAndLoses O.entries_left O.loses tree.old tree.new outside.old outside.new }
    ensures here { IsHere tree.old tree.new place }
{
    let question = Question::AliasOf(name.text(alloc)?);
    ask_subject(
        tree,
        alloc,
        outside,
        place,
        subject,
        OwnEntry::Ask(question),
    )
}

/// `interp alias srcPath srcCmd ?targetPath? ?targetCmd? ?arg ...?`, and
/// `NAME alias srcCmd ?targetCmd? ?arg ...?`
///
/// # Errors
/// 241; those of the paths; 238, 302 and 305; want of memory.
pub fn alias<O: Outside>(
    tree: &mut Tree,
    alloc: Global,
    outside: &mut O,
    place: Place,
    subject: Subject<'_>,
    args: &[Value],
) -> Result<Value, Interruption>
    requires { IsRunning tree.old place }
    ensures evaluates { Evaluates O.goes tree.old outside.old place
        (λ style. aliases (about subject.entry) args.now) tree.new outside.new result }
    ensures keeps { KeepsAndLoses O.entries_left O.loses tree.old tree.new outside.old outside.new }
    ensures here { IsHere tree.old tree.new place }
{
    match args {
        [] => Err(wrong_words(alloc, subject, FORM, "alias srcCmd ?targetCmd? ?arg ...?")),
        [name] => alias_of(tree, alloc, outside, place, subject, name),
        [own, target, words @ ..] => {
            if words.is_empty() && target.is_text(b"") {
                return clear_alias(tree, alloc, outside, place, subject, own);
            }
            give_alias(tree, alloc, outside, place, subject, own, target, words)
        }
    }
}
