//! How answers are written.
use std::alloc::{AllocError, Global};
use tcl_text::integer::write_int;
use tcl_text::list::{ListError, read_list};
use tcl_text::text::Text;
use tcl_words::answer::Answer;
use tcl_words::refusal::Refusal;

/// The answer to a call that isn't known.
pub(crate) fn no_call(alloc: Global) -> Result<String, AllocError> {
    String::from_str(alloc, "no call")
}

/// Whether something is so.
pub(crate) fn whether(alloc: Global, holds: bool) -> Result<String, AllocError> {
    String::from_str(alloc, if holds { "true" } else { "false" })
}

/// A text.
pub(crate) fn text(alloc: Global, text: &Text) -> Result<String, AllocError> {
    String::from_str(alloc, text.as_str())
}

/// A text behind the word that tells what it is.
fn behind(alloc: Global, word: &str, text: &str) -> Result<String, AllocError> {
    format!(in alloc; "{word} {text}")
}

/// The text of an error.
pub(crate) fn error(alloc: Global, message: &Text) -> Result<String, AllocError> {
    behind(alloc, "error:", message.as_str())
}

/// A list, each element of it in angle brackets.
pub(crate) fn elements(alloc: Global, list: &[Text]) -> Result<String, AllocError> {
    let mut written = String::new(alloc);
    'elements: for element in list {
        written.push_str("<")?;
        written.push_str(element.as_str())?;
        written.push_str(">")?;
    }
    Ok(written)
}

/// A text read as a list.
pub(crate) fn list(alloc: Global, text: &str) -> Result<String, AllocError> {
    match read_list(alloc, text) {
        Ok(list) => elements(alloc, list.as_slice()),
        Err(ListError::Memory) => Err(AllocError),
        Err(ListError::Fault(fault)) => error(alloc, &fault.message(alloc)?),
    }
}

/// A refusal.
pub(crate) fn refusal(alloc: Global, refusal: Refusal) -> Result<String, AllocError> {
    match refusal {
        Refusal::Fault(text) => error(alloc, &text),
        Refusal::Memory => Err(AllocError),
    }
}

/// What a command answers.
pub(crate) fn answer(alloc: Global, answer: Result<Answer, Refusal>) -> Result<String, AllocError> {
    match answer {
        Ok(Answer::Text(given)) => text(alloc, &given),
        Ok(Answer::Number(number)) => behind(alloc, "number", write_int(alloc, number)?.as_str()),
        Err(refused) => refusal(alloc, refused),
    }
}
