//! Maps of names in the order of insertion, from names to values.
//!
//! A call is a list; one that changes the map answers `-`. There is a second map, which is kept:
//! `keep` makes it a copy of the first, `swap` exchanges the two, and `same` tells whether they are
//! equal.
use crate::tree_rows::answers::{Answer, given, no_call, truth, value, written};
use crate::tree_rows::words::{pairs_of, place_of, value_of, words_of};
use row_runner::World;
use std::alloc::{AllocError, Global};
use std::mem::swap;
use tcl_frames::comparing::Same;
use tcl_frames::name_map::NameMap;
use tcl_text::text::Text;
use tcl_value::value::Value;

/// The answer of a call that changes the map.
fn done(alloc: Global, changed: Result<(), AllocError>) -> Result<Answer, AllocError> {
    changed?;
    given(alloc, "-")
}

/// The names of a map, each followed by its text and a blank.
fn entries(map: &NameMap<Value>, alloc: Global) -> Result<Answer, AllocError> {
    let mut all = String::new(alloc);
    for place in 0..map.len() {
        if let Some((name, text)) = map.entry(place) {
            write!(all, "{name}{} ", text.text(alloc)?.as_str())?;
        }
    }
    Ok(Answer::Given(all))
}

/// `get NAME`: the text of a name.
fn get(map: &NameMap<Value>, alloc: Global, name: &str) -> Result<Answer, AllocError> {
    match map.get(name) {
        Some(found) => value(alloc, found),
        None => given(alloc, "none"),
    }
}

/// `find NAME`: the place of a name and its text.
fn find(map: &NameMap<Value>, alloc: Global, name: &str) -> Result<Answer, AllocError> {
    match map.find(name) {
        Some((place, text)) => {
            let text = text.text(alloc)?;
            Ok(Answer::Given(format!(in alloc; "{place} {}", text.as_str())?))
        }
        None => given(alloc, "none"),
    }
}

/// `entry PLACE`: the name at a place and its text.
fn entry(map: &NameMap<Value>, alloc: Global, place: usize) -> Result<Answer, AllocError> {
    match map.entry(place) {
        Some((name, text)) => {
            let text = text.text(alloc)?;
            Ok(Answer::Given(format!(in alloc; "{name}{}", text.as_str())?))
        }
        None => given(alloc, "none"),
    }
}

/// `change NAME TEXT`: changes the text of a name where it stands.
fn change(map: &mut NameMap<Value>, name: &str, new: Value) {
    if let Some(text) = map.get_mut(name) {
        *text = new;
    }
}

/// `near PLACE NAME TEXT`: the same, of a name that is looked for at a place first.
fn near(map: &mut NameMap<Value>, place: usize, name: &str, new: Value) {
    if let Some(text) = map.get_mut_near(place, name) {
        *text = new;
    }
}

/// What a call of one word answers. `thin PATTERN` removes the names that a pattern matches.
fn of_one(
    map: &mut NameMap<Value>,
    alloc: Global,
    call: &str,
    word: &Text,
) -> Result<Answer, AllocError> {
    match call {
        "get" => get(map, alloc, word.as_str()),
        "find" => find(map, alloc, word.as_str()),
        "entry" => entry(map, alloc, place_of(word)),
        "remove" => {
            map.remove(word.as_str());
            given(alloc, "-")
        }
        "thin" => {
            map.remove_matching(word.as_str());
            given(alloc, "-")
        }
        _ => no_call(alloc),
    }
}

/// What a call of a name and a text answers. `share` inserts a name whose text is shared.
fn of_two(
    map: &mut NameMap<Value>,
    alloc: Global,
    call: &str,
    name: &Text,
    text: Value,
) -> Result<Answer, AllocError> {
    match call {
        "insert" => done(alloc, map.insert(alloc, name.as_str(), text)),
        "share" => done(alloc, map.insert_shared(alloc, name, text)),
        "change" => {
            change(map, name.as_str(), text);
            given(alloc, "-")
        }
        _ => no_call(alloc),
    }
}

/// What a call answers. `all NAME TEXT ..` inserts names together.
fn answered(
    map: &mut NameMap<Value>,
    alloc: Global,
    call: &str,
    words: &[Text],
) -> Result<Answer, AllocError> {
    match words {
        _ if call == "all" => done(alloc, map.insert_all(alloc, pairs_of(alloc, words)?)),
        [] if call == "entries" => entries(map, alloc),
        [word] => of_one(map, alloc, call, word),
        [name, text] => of_two(map, alloc, call, name, value_of(text)?),
        [place, name, text] if call == "near" => {
            near(map, place_of(place), name.as_str(), value_of(text)?);
            given(alloc, "-")
        }
        _ => no_call(alloc),
    }
}

/// What a call answers, by its words.
fn answer(map: &mut NameMap<Value>, alloc: Global, words: &[Text]) -> Result<Answer, AllocError> {
    match words {
        [call, others @ ..] => answered(map, alloc, call.as_str(), others),
        [] => no_call(alloc),
    }
}

/// A map, and one that is kept.
pub(crate) struct Maps {
    map: NameMap<Value>,
    kept: NameMap<Value>,
}

impl Drop for Maps {
    fn drop(self) {
        let Maps {
            map: _map,
            kept: _kept,
        } = self;
    }
}

impl Maps {
    pub(crate) fn new(alloc: Global) -> Maps {
        Maps {
            map: NameMap::new(alloc),
            kept: NameMap::new(alloc),
        }
    }

    fn keep(&mut self, alloc: Global) -> Result<Answer, AllocError> {
        self.kept = self.map.clone()?;
        given(alloc, "-")
    }

    fn swap(&mut self, alloc: Global) -> Result<Answer, AllocError> {
        swap(&mut self.map, &mut self.kept);
        given(alloc, "-")
    }

    fn answered(&mut self, alloc: Global, call: &str) -> Result<Answer, AllocError> {
        match call {
            "keep" => self.keep(alloc),
            "swap" => self.swap(alloc),
            "same" => truth(alloc, self.map.same(&self.kept)),
            _ => answer(&mut self.map, alloc, &words_of(alloc, call)?),
        }
    }
}

impl World for Maps {
    fn begin(&mut self, alloc: Global) -> Result<(), AllocError> {
        *self = Maps::new(alloc);
        Ok(())
    }

    fn answer(&mut self, alloc: Global, call: &str) -> Result<String, AllocError> {
        Ok(written(self.answered(alloc, call)?))
    }
}
