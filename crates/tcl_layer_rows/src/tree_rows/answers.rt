//! What calls answer, and how a row tells it.
use std::alloc::{AllocError, Global};
use tcl_text::list::write_list;
use tcl_text::text::Text;
use tcl_value::value::Value;

/// What a call answers.
#[derive(Drop)]
pub(crate) enum Answer {
    /// What it found, or `-` where it changed something.
    Given(String),
    /// Why it was refused.
    Refused(String),
}

/// Why a call is refused.
pub(crate) trait Told {
    /// What a row tells of it.
    ///
    /// # Errors
    /// Out of memory.
    fn show(&self, alloc: Global) -> Result<String, AllocError>;
}

/// The answer of a text.
pub(crate) fn given(alloc: Global, text: &str) -> Result<Answer, AllocError> {
    Ok(Answer::Given(String::from_str(alloc, text)?))
}

/// The answer of a refusal.
pub(crate) fn refused<R: Told>(alloc: Global, refusal: &R) -> Result<Answer, AllocError> {
    Ok(Answer::Refused(refusal.show(alloc)?))
}

/// The answer of a call that isn't known, which no row wants.
pub(crate) fn no_call(alloc: Global) -> Result<Answer, AllocError> {
    given(alloc, "no call")
}

/// The answer of a call that changes something.
pub(crate) fn done<R: Told + Drop>(
    alloc: Global,
    ended: Result<(), R>,
) -> Result<Answer, AllocError> {
    match ended {
        Ok(()) => given(alloc, "-"),
        Err(refusal) => refused(alloc, &refusal),
    }
}

/// A truth value.
pub(crate) fn truth(alloc: Global, is_so: bool) -> Result<Answer, AllocError> {
    given(alloc, if is_so { "yes" } else { "no" })
}

/// A number, or `none`.
pub(crate) fn number(alloc: Global, number: Option<u64>) -> Result<Answer, AllocError> {
    match number {
        Some(number) => Ok(Answer::Given(format!(in alloc; "{number}")?)),
        None => given(alloc, "none"),
    }
}

/// How many there are.
pub(crate) fn count(alloc: Global, count: usize) -> Result<Answer, AllocError> {
    Ok(Answer::Given(format!(in alloc; "{count}")?))
}

/// The list of texts.
pub(crate) fn list(alloc: Global, texts: &[Text]) -> Result<Answer, AllocError> {
    Ok(Answer::Given(write_list(alloc, texts)?))
}

/// The text of a value.
pub(crate) fn value(alloc: Global, value: &Value) -> Result<Answer, AllocError> {
    given(alloc, value.text(alloc)?.as_str())
}

/// The texts of values.
pub(crate) fn texts_of(alloc: Global, values: &[Value]) -> Result<Vec<Text>, AllocError> {
    let mut texts = Vec::new(alloc);
    for value in values {
        texts.push(value.text(alloc)?)?;
    }
    Ok(texts)
}

/// Texts, with a bar between any two.
pub(crate) fn joined(alloc: Global, texts: &[Text]) -> Result<Answer, AllocError> {
    let mut all = String::new(alloc);
    for (place, text) in texts.iter().enumerate() {
        if place > 0 {
            all.push('|')?;
        }
        all.push_str(text.as_str())?;
    }
    Ok(Answer::Given(all))
}

/// An answer as a row tells it.
pub(crate) fn written(answer: Answer) -> String {
    match answer {
        Answer::Given(text) | Answer::Refused(text) => text,
    }
}
