//! Chains of frames.
//!
//! A call is a list; one that changes the chain answers `-`, and one that is refused must leave it
//! as it was. `new` puts a new chain in its place. There is a second chain, which is kept: `keep`
//! makes it a copy of the first, `swap` exchanges the two, and `same` tells whether they are equal.
use crate::tree_rows::answers::{
    Answer, Told, count, done, given, joined, list, no_call, refused, texts_of, truth, value,
    written,
};
use crate::tree_rows::words::{pairs_of, place_of, value_of, values_of, words_of};
use row_runner::World;
use std::alloc::{AllocError, Global};
use std::mem::swap;
use tcl_frames::fault::FrameError;
use tcl_frames::frames::Frames;
use tcl_frames::name_map::NameMap;
use tcl_frames::scope::Scope;
use tcl_text::text::Text;
use tcl_value::value::Value;

impl Told for FrameError {
    fn show(&self, alloc: Global) -> Result<String, AllocError> {
        match self {
            FrameError::Fault(fault) => String::from_str(alloc, fault.message(alloc)?.as_str()),
            FrameError::Memory => Err(AllocError),
        }
    }
}

/// The answer of a truth value.
fn show_truth(alloc: Global, is_so: Result<bool, FrameError>) -> Result<Answer, AllocError> {
    match is_so {
        Ok(is_so) => truth(alloc, is_so),
        Err(error) => refused(alloc, &error),
    }
}

/// The answer of a count.
fn show_count(alloc: Global, counted: Result<usize, FrameError>) -> Result<Answer, AllocError> {
    match counted {
        Ok(counted) => count(alloc, counted),
        Err(error) => refused(alloc, &error),
    }
}

/// The answer of a value that is lent.
pub(crate) fn show_value(
    alloc: Global,
    lent: Result<&Value, FrameError>,
) -> Result<Answer, AllocError> {
    match lent {
        Ok(lent) => value(alloc, lent),
        Err(error) => refused(alloc, &error),
    }
}

/// The answer of keys.
fn show_keys(alloc: Global, keys: Result<Vec<Text>, FrameError>) -> Result<Answer, AllocError> {
    match keys {
        Ok(keys) => list(alloc, &keys),
        Err(error) => refused(alloc, &error),
    }
}

/// The keys and values of elements in turn.
fn flat(alloc: Global, elements: &[(Text, Value)]) -> Result<Vec<Text>, AllocError> {
    let mut texts = Vec::new(alloc);
    for (key, value) in elements {
        texts.push(key.clone()?)?;
        texts.push(value.text(alloc)?)?;
    }
    Ok(texts)
}

/// The answer of elements.
fn show_elements(
    alloc: Global,
    elements: Result<Vec<(Text, Value)>, FrameError>,
) -> Result<Answer, AllocError> {
    match elements {
        Ok(elements) => list(alloc, &flat(alloc, &elements)?),
        Err(error) => refused(alloc, &error),
    }
}

/// The keys and values of an array in turn, with a bar between any two.
fn show_entries(alloc: Global, elements: &NameMap<Value>) -> Result<Answer, AllocError> {
    let mut all = Vec::new(alloc);
    for place in 0..elements.len() {
        if let Some((key, value)) = elements.entry(place) {
            all.push(Text::new(alloc, key)?)?;
            all.push(value.text(alloc)?)?;
        }
    }
    joined(alloc, &all)
}

/// `entries NAME`: those of the array that is lent, or `none` where there is none.
fn entries(frames: &Frames, alloc: Global, name: &Text) -> Result<Answer, AllocError> {
    match frames.array(name) {
        Ok(Some(elements)) => show_entries(alloc, elements),
        Ok(None) => given(alloc, "none"),
        Err(error) => refused(alloc, &error),
    }
}

/// The names that a word asks for.
fn scope_of(word: &Text) -> Scope {
    match word.as_str() {
        "global" => Scope::Global,
        "local" => Scope::Local,
        _ => Scope::Visible,
    }
}

/// `words LEVEL`: the words of the call at a level, with a bar between any two, or `none` where
/// there is no such level.
fn words_at(frames: &Frames, alloc: Global, level: usize) -> Result<Answer, AllocError> {
    match frames.words(level) {
        Some(words) => joined(alloc, &texts_of(alloc, words)?),
        None => given(alloc, "none"),
    }
}

/// What a call answers on the names, words and elements of a chain.
fn listed(frames: &Frames, alloc: Global, call: &str, word: &Text) -> Result<Answer, AllocError> {
    match call {
        "keys" => show_keys(alloc, frames.element_names(alloc, word, None)),
        "elements" => show_elements(alloc, frames.elements(alloc, word, None)),
        "entries" => entries(frames, alloc, word),
        "names" => joined(alloc, &frames.names(alloc, scope_of(word))?),
        "count" => count(alloc, frames.names(alloc, scope_of(word))?.len()),
        "words" => words_at(frames, alloc, place_of(word)),
        _ => no_call(alloc),
    }
}

/// What a call answers that looks at what a name is.
fn looked_at(
    frames: &Frames,
    alloc: Global,
    call: &str,
    name: &Text,
) -> Result<Answer, AllocError> {
    match call {
        "get" => show_value(alloc, frames.get(name)),
        "exists" => show_truth(alloc, frames.exists(name)),
        "array" => show_truth(alloc, frames.is_array(name)),
        "size" => show_count(alloc, frames.element_count(name)),
        _ => listed(frames, alloc, call, name),
    }
}

/// `seven NAME`: changes the value that is lent to the number 7.
fn seven(frames: &mut Frames, alloc: Global, name: &Text) -> Result<(), FrameError> {
    frames.get_mut(alloc, name)?.set_int(7);
    Ok(())
}

/// What a call of a name answers, or of a level. `number` sets the name to the number 2, which is
/// kept as a number.
fn of_name(
    frames: &mut Frames,
    alloc: Global,
    call: &str,
    name: &Text,
) -> Result<Answer, AllocError> {
    match call {
        "unset" => done(alloc, frames.unset(alloc, name)),
        "make" => done(alloc, frames.make_array(alloc, name)),
        "empty" => done(alloc, frames.unset_elements(alloc, name, None)),
        "number" => done(alloc, frames.set(alloc, name, Value::from_int(2))),
        "seven" => done(alloc, seven(frames, alloc, name)),
        "aside" => done(alloc, frames.set_aside(alloc, place_of(name))),
        _ => looked_at(frames, alloc, call, name),
    }
}

/// What a call answers of a name and a value, a key or a pattern.
fn of_two(
    frames: &mut Frames,
    alloc: Global,
    call: &str,
    name: &Text,
    other: &Text,
) -> Result<Answer, AllocError> {
    match call {
        "set" => done(alloc, frames.set(alloc, name, value_of(other)?)),
        "drop" => done(alloc, frames.unset_element(alloc, name, other)),
        "empty" => done(alloc, frames.unset_elements(alloc, name, Some(other))),
        "keys" => show_keys(alloc, frames.element_names(alloc, name, Some(other))),
        "elements" => show_elements(alloc, frames.elements(alloc, name, Some(other))),
        _ => no_call(alloc),
    }
}

/// What a call of three words answers: `put NAME KEY VALUE`, or `link LEVEL OTHER LOCAL`.
fn of_three(
    frames: &mut Frames,
    alloc: Global,
    call: &str,
    words: (&Text, &Text, &Text),
) -> Result<Answer, AllocError> {
    let (first, second, third) = words;
    match call {
        "put" => done(
            alloc,
            frames.set_element(alloc, first, second, value_of(third)?),
        ),
        "link" => done(alloc, frames.link(alloc, place_of(first), second, third)),
        _ => no_call(alloc),
    }
}

/// What a call of no words answers: `pop` takes the frame on top off, and `back` brings those back
/// that were set aside last.
fn of_none(frames: &mut Frames, alloc: Global, call: &str) -> Result<Answer, AllocError> {
    match call {
        "pop" => {
            frames.pop();
            given(alloc, "-")
        }
        "back" => {
            frames.bring_back();
            given(alloc, "-")
        }
        "level" => count(alloc, frames.level()),
        _ => no_call(alloc),
    }
}

/// `push ?WORD ..?`: puts a frame on top, of a call with these words.
fn push(frames: &mut Frames, alloc: Global, words: &[Text]) -> Result<Answer, AllocError> {
    match values_of(alloc, words)?.as_slice() {
        [] => frames.push(alloc, Vec::new(alloc))?,
        [word, args @ ..] => frames.push_call(alloc, word, args)?,
    }
    given(alloc, "-")
}

/// `fill NAME ?KEY VALUE ..?`: sets elements together.
fn fill(
    frames: &mut Frames,
    alloc: Global,
    name: &Text,
    words: &[Text],
) -> Result<Answer, AllocError> {
    done(
        alloc,
        frames.set_elements(alloc, name, pairs_of(alloc, words)?),
    )
}

/// What a call answers, by how many words it has. `push` and `fill` take as many as they need.
fn answered(
    frames: &mut Frames,
    alloc: Global,
    call: &str,
    words: &[Text],
) -> Result<Answer, AllocError> {
    match words {
        _ if call == "push" => push(frames, alloc, words),
        [] => of_none(frames, alloc, call),
        [name, others @ ..] if call == "fill" => fill(frames, alloc, name, others),
        [name] => of_name(frames, alloc, call, name),
        [name, other] => of_two(frames, alloc, call, name, other),
        [first, second, third] => of_three(frames, alloc, call, (first, second, third)),
        _ => no_call(alloc),
    }
}

/// What a call answers, by its words.
fn answer(frames: &mut Frames, alloc: Global, words: &[Text]) -> Result<Answer, AllocError> {
    match words {
        [call, others @ ..] => answered(frames, alloc, call.as_str(), others),
        [] => no_call(alloc),
    }
}

/// What a row tells of an answer, of a chain that was so before.
fn show(
    frames: &Frames,
    before: &Frames,
    alloc: Global,
    answer: Answer,
) -> Result<String, AllocError> {
    match answer {
        Answer::Refused(_) if !frames.same(before) => String::from_str(alloc, "changed"),
        answer => Ok(written(answer)),
    }
}

/// What a row tells of a call on a chain.
fn on_chain(frames: &mut Frames, alloc: Global, call: &str) -> Result<String, AllocError> {
    let before = frames.copy()?;
    let words = words_of(alloc, call)?;
    let answer = answer(frames, alloc, &words)?;
    show(frames, &before, alloc, answer)
}

/// A chain of frames, and one that is kept.
pub(crate) struct Chains {
    frames: Frames,
    kept: Frames,
}

impl Drop for Chains {
    fn drop(self) {
        let Chains {
            frames: _frames,
            kept: _kept,
        } = self;
    }
}

impl Chains {
    pub(crate) fn new(alloc: Global) -> Result<Chains, AllocError> {
        Ok(Chains {
            frames: Frames::new(alloc)?,
            kept: Frames::new(alloc)?,
        })
    }

    fn renew(&mut self, alloc: Global) -> Result<String, AllocError> {
        self.frames = Frames::new(alloc)?;
        String::from_str(alloc, "-")
    }

    fn keep(&mut self, alloc: Global) -> Result<String, AllocError> {
        self.kept = self.frames.copy()?;
        String::from_str(alloc, "-")
    }

    fn swap(&mut self, alloc: Global) -> Result<String, AllocError> {
        swap(&mut self.frames, &mut self.kept);
        String::from_str(alloc, "-")
    }

    fn same(&self, alloc: Global) -> Result<String, AllocError> {
        Ok(written(truth(alloc, self.frames.same(&self.kept))?))
    }
}

impl World for Chains {
    fn begin(&mut self, alloc: Global) -> Result<(), AllocError> {
        *self = Chains::new(alloc)?;
        Ok(())
    }

    fn answer(&mut self, alloc: Global, call: &str) -> Result<String, AllocError> {
        match call {
            "new" => self.renew(alloc),
            "keep" => self.keep(alloc),
            "swap" => self.swap(alloc),
            "same" => self.same(alloc),
            _ => on_chain(&mut self.frames, alloc, call),
        }
    }
}
