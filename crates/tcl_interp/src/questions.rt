//! Questions about an interpreter.
ghost use Rattle.tcl_language.specs.Interpreters as interpreters;
ghost use Rattle.tcl_run.specs.Runs.{Evaluates, IsHere, IsRunning, KeepsAndLoses};
ghost use Rattle.tcl_run.specs.Entering.{question_of};
ghost use Rattle.tcl_interp.specs.Subjects.{about};
ghost use Rattle.tcl_interp.specs.Programs.{questions};

use crate::subject::{Subject, ask_subject, split_path, wrong_words};
use std::alloc::Global;
use tcl_run::entry::{OwnEntry, Question};
use tcl_run::interruption::Interruption;
use tcl_run::outside::Outside;
use tcl_tree::tree::{Place, Tree};
use tcl_value::value::Value;

/// Asks the subject a question, behind which no word may stand. The forms are those of `interp` and
/// of a child's own command.
///
/// # Errors
/// 241; those of the path; 122; want of memory.
pub fn ask_question<O: Outside>(
    tree: &mut Tree,
    alloc: Global,
    outside: &mut O,
    place: Place,
    subject: Subject<'_>,
    form: &str,
    own: &str,
    question: Question,
    args: &[Value],
) -> Result<Value, Interruption>
    requires { IsRunning tree.old place }
    ensures evaluates { Evaluates O.goes tree.old outside.old place
        (λ style. questions (about subject.entry) form.now own.now (question_of question) args.now)
        tree.new outside.new result }
    ensures keeps { KeepsAndLoses O.entries_left O.loses tree.old tree.new outside.old outside.new }
    ensures here { IsHere tree.old tree.new place }
{
    if !args.is_empty() {
        return Err(wrong_words(alloc, subject, form, own));
    }
    ask_subject(
        tree,
        alloc,
        outside,
        place,
        subject,
        OwnEntry::Ask(question),
    )
}

/// Asks a question of the interpreter at the path that the word is, or of the one that asks where
/// there is no word.
///
/// # Errors
/// 241; those of the path; 122; want of memory.
pub fn ask_about<O: Outside>(
    tree: &mut Tree,
    alloc: Global,
    outside: &mut O,
    place: Place,
    form: &str,
    question: Question,
    args: &[Value],
) -> Result<Value, Interruption>
    requires { IsRunning tree.old place }
    ensures evaluates { Evaluates O.goes tree.old outside.old place
        (λ style. interpreters.question form.now (question_of question) args.now) tree.new
        outside.new result }
    ensures keeps { KeepsAndLoses O.entries_left O.loses tree.old tree.new outside.old outside.new }
    ensures here { IsHere tree.old tree.new place }
{
    let (subject, words) = split_path(args);
    ask_question(
        tree, alloc, outside, place, subject, form, form, question, words,
    )
}
