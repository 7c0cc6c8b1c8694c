//! Names, and the variables of one frame.
//!
//! A call is a list; one that changes the frame answers `-`. In `value`, `assign` and their kin the
//! name behind the base is the one that a refusal tells. There is a second frame, which `keep`
//! makes a copy of the first; `same` tells whether they are equal.
use crate::tree_rows::answers::{Answer, count, done, given, no_call, truth, written};
use crate::tree_rows::chains::show_value;
use crate::tree_rows::words::{value_of, values_of, words_of};
use row_runner::World;
use std::alloc::{AllocError, Global};
use tcl_frames::access::{Part, elements_in, holds_in, value_in};
use tcl_frames::comparing::Same;
use tcl_frames::frame::{Change, Frame};
use tcl_frames::name::{Written, element_text, is_plain_name, read_name};
use tcl_frames::variable::LinkTarget;
use tcl_text::text::Text;

/// What a call answers on the parts of a name.
fn of_written(alloc: Global, call: &str, name: Written<'_>) -> Result<Answer, AllocError> {
    match call {
        "global" => truth(alloc, name.is_global),
        "base" => given(alloc, name.base),
        "key" => given(alloc, name.key.unwrap_or("none")),
        _ => no_call(alloc),
    }
}

/// What a call answers on a name as it is read.
fn of_name(alloc: Global, call: &str, name: &str) -> Result<Answer, AllocError> {
    match read_name(name) {
        Some(written) => of_written(alloc, call, written),
        None => given(alloc, "no name"),
    }
}

/// `element NAME KEY`: the name of an element.
fn element(alloc: Global, name: &Text, key: &Text) -> Result<Answer, AllocError> {
    given(alloc, element_text(alloc, name, key)?.as_str())
}

/// `link LOCAL NAME KEY`: makes a name a link to an element at level 0.
fn link(
    frame: &mut Frame,
    alloc: Global,
    local: &str,
    place: LinkTarget,
) -> Result<Answer, AllocError> {
    frame.link(alloc, local, place)?;
    given(alloc, "-")
}

/// The place of an element at level 0.
fn element_at_0(name: Text, key: Text) -> LinkTarget {
    LinkTarget {
        level: 0,
        name,
        key: Some(key),
    }
}

/// What a call of one word answers.
fn of_one(frame: &mut Frame, alloc: Global, call: &str, word: &str) -> Result<Answer, AllocError> {
    match call {
        "plain" => truth(alloc, is_plain_name(word)),
        "holds" => truth(alloc, holds_in(frame.variable(word), Part::Whole)),
        "array" => truth(
            alloc,
            elements_in(frame.variable(word), Part::Whole).is_some(),
        ),
        _ => of_name(alloc, call, word),
    }
}

/// Changes a part of what a base stands for.
fn change(
    frame: &mut Frame,
    alloc: Global,
    base: &Text,
    name: &Text,
    part: Part<'_>,
    change: Change,
) -> Result<Answer, AllocError> {
    done(
        alloc,
        frame.change(alloc, base.as_str(), part, change, name),
    )
}

/// What a call of two words answers: `holds BASE KEY`, `element NAME KEY`, or one of a base and a
/// name. `make` makes an array without elements.
fn of_two(
    frame: &mut Frame,
    alloc: Global,
    call: &str,
    base: &Text,
    word: &Text,
) -> Result<Answer, AllocError> {
    let variable = frame.variable(base.as_str());
    match call {
        "holds" => truth(alloc, holds_in(variable, Part::Element(word.as_str()))),
        "element" => element(alloc, base, word),
        "value" => show_value(alloc, value_in(variable, Part::Whole, word)),
        "make" => {
            let none = Change::SetElements(Vec::new(alloc));
            change(frame, alloc, base, word, Part::Whole, none)
        }
        _ => no_call(alloc),
    }
}

/// What a call of a base, a name and a key or a value answers.
fn of_three(
    frame: &mut Frame,
    alloc: Global,
    call: &str,
    (base, name, word): (&Text, &Text, &Text),
) -> Result<Answer, AllocError> {
    let part = Part::Element(word.as_str());
    match call {
        "value" => show_value(alloc, value_in(frame.variable(base.as_str()), part, name)),
        "unset" => change(frame, alloc, base, name, part, Change::Unset),
        "link" => {
            let place = element_at_0(name.clone()?, word.clone()?);
            link(frame, alloc, base.as_str(), place)
        }
        "assign" => {
            let value = Change::Assign(value_of(word)?);
            change(frame, alloc, base, name, Part::Whole, value)
        }
        _ => no_call(alloc),
    }
}

/// What a call answers. `words` and `variables` tell how many there are, and
/// `put BASE NAME KEY VALUE` sets an element.
fn answered(
    frame: &mut Frame,
    alloc: Global,
    call: &str,
    words: &[Text],
) -> Result<Answer, AllocError> {
    match words {
        [] if call == "words" => count(alloc, frame.words().len()),
        [] if call == "variables" => count(alloc, frame.variables().len()),
        [word] => of_one(frame, alloc, call, word.as_str()),
        [base, word] => of_two(frame, alloc, call, base, word),
        [base, name, word] => of_three(frame, alloc, call, (base, name, word)),
        [base, name, key, value] if call == "put" => {
            let value = Change::Assign(value_of(value)?);
            change(frame, alloc, base, name, Part::Element(key.as_str()), value)
        }
        _ => no_call(alloc),
    }
}

/// What a call answers, by its words.
fn answer(frame: &mut Frame, alloc: Global, words: &[Text]) -> Result<Answer, AllocError> {
    match words {
        [call, others @ ..] => answered(frame, alloc, call.as_str(), others),
        [] => no_call(alloc),
    }
}

/// A frame of a call of one word.
fn frame(alloc: Global) -> Result<Frame, AllocError> {
    let words = words_of(alloc, "f")?;
    Ok(Frame::new(alloc, values_of(alloc, &words)?))
}

/// A frame, and one that is kept.
pub(crate) struct Variables {
    frame: Frame,
    kept: Frame,
}

impl Drop for Variables {
    fn drop(self) {
        let Variables {
            frame: _frame,
            kept: _kept,
        } = self;
    }
}

impl Variables {
    pub(crate) fn new(alloc: Global) -> Result<Variables, AllocError> {
        Ok(Variables {
            frame: frame(alloc)?,
            kept: frame(alloc)?,
        })
    }

    fn keep(&mut self, alloc: Global) -> Result<Answer, AllocError> {
        self.kept = self.frame.clone()?;
        given(alloc, "-")
    }

    fn answered(&mut self, alloc: Global, call: &str) -> Result<Answer, AllocError> {
        match call {
            "keep" => self.keep(alloc),
            "same" => truth(alloc, self.frame.same(&self.kept)),
            _ => answer(&mut self.frame, alloc, &words_of(alloc, call)?),
        }
    }
}

impl World for Variables {
    fn begin(&mut self, alloc: Global) -> Result<(), AllocError> {
        *self = Variables::new(alloc)?;
        Ok(())
    }

    fn answer(&mut self, alloc: Global, call: &str) -> Result<String, AllocError> {
        Ok(written(self.answered(alloc, call)?))
    }
}
