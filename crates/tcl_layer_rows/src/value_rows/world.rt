//! The values, lists and dicts that have names, and what calls on them answer.
use crate::value_rows::answers::{Answer, given, no_call, refused, text};
use crate::value_rows::commands::given_by_command;
use crate::value_rows::dict_calls::of_dict;
use crate::value_rows::list_calls::{of_list, push_from};
use crate::value_rows::reading::{Call, Verb, call_and_words, words_of};
use crate::value_rows::value_calls::answered;
use indexmap::IndexMap;
use row_runner::World;
use std::alloc::{AllocError, Global};
use tcl_text::limit::MOST_BYTES;
use tcl_text::text::Text;
use tcl_value::dict::Dict;
use tcl_value::list::List;
use tcl_value::value::{Value, ValueError};

/// Values, lists and dicts by name.
pub(crate) struct Values {
    values: IndexMap<String, Value>,
    lists: IndexMap<String, List>,
    dicts: IndexMap<String, Dict>,
}

impl Drop for Values {
    fn drop(self) {
        let Values {
            values: _values,
            lists: _lists,
            dicts: _dicts,
        } = self;
    }
}

/// Gives a name to something.
fn keep<V: Drop>(alloc: Global, named: &mut IndexMap<String, V>, name: &str, kept: V) -> Answer {
    let _before = named.insert(String::from_str(alloc, name)?, kept)?;
    text(alloc, "-")
}

/// The name that a word refers to.
fn name_in(word: &Text) -> Option<&str> {
    word.as_str().strip_prefix("$")
}

/// The number of a word that refers to one, or the value of the word's text.
fn number_or_text(name: &str, word: &Text) -> Result<Value, ValueError> {
    match name.parse::<i64>() {
        Ok(number) => Ok(Value::from_int(number)),
        Err(_) => Value::from_text(word.clone()?),
    }
}

/// A text of so many letters: for each binary digit of the number what is there is doubled, and a
/// one adds a letter.
fn letters(alloc: Global, count: u32) -> Result<Value, ValueError> {
    let mut letters = String::new(alloc);
    'digits: for digit in 0..25u32 {
        let again = String::from_str(alloc, letters.as_str())?;
        letters.push_str(again.as_str())?;
        if (count >> (24 - digit)) % 2 == 1 {
            letters.push('x')?;
        }
    }
    Value::from_text(Text::from_string(alloc, letters)?)
}

/// The value of a text that is known to be short.
fn short(text: Text) -> Result<Value, ValueError> {
    if text.len() > MOST_BYTES {
        return Err(ValueError::TooLong);
    }
    Ok(Value::from_short_text(text))
}

impl Values {
    /// No names.
    pub(crate) fn new(alloc: Global) -> Values {
        Values {
            values: IndexMap::new(alloc),
            lists: IndexMap::new(alloc),
            dicts: IndexMap::new(alloc),
        }
    }

    /// The value that a word stands for.
    fn value(&self, word: &Text) -> Result<Value, ValueError> {
        match name_in(word) {
            None => Value::from_text(word.clone()?),
            Some("empty") => Ok(Value::empty()),
            Some(name) => match self.values.get(name) {
                Some(value) => Ok(value.clone()?),
                None => number_or_text(name, word),
            },
        }
    }

    /// The values that words stand for.
    fn values(&self, alloc: Global, words: &[Text]) -> Result<Vec<Value>, ValueError> {
        let mut values = Vec::new(alloc);
        'words: for word in words {
            values.push(self.value(word)?)?;
        }
        Ok(values)
    }

    /// The values that words stand for, with an empty one in the place of the first.
    fn values_behind(&self, alloc: Global, words: &[Text]) -> Result<Vec<Value>, ValueError> {
        let mut values = Vec::new(alloc);
        'words: for word in words {
            if values.is_empty() {
                values.push(Value::empty())?;
            } else {
                values.push(self.value(word)?)?;
            }
        }
        Ok(values)
    }

    /// The value that a word makes for a name.
    fn made(&self, alloc: Global, verb: &str, word: &Text) -> Result<Value, ValueError> {
        match verb {
            "letters" => match word.as_str().parse::<u32>() {
                Ok(count) => letters(alloc, count),
                Err(_) => Err(ValueError::Memory),
            },
            "short" => short(word.clone()?),
            _ => self.value(word),
        }
    }

    /// What a command answers, if the call is of one that gives a value.
    fn of_command(
        &self,
        alloc: Global,
        call: Call<'_>,
        words: &[Text],
    ) -> Result<Option<String>, ValueError> {
        let words = self.values(alloc, words)?;
        match given_by_command(alloc, call, &words) {
            Some(outcome) => Ok(Some(given(alloc, outcome)?)),
            None => Ok(None),
        }
    }

    /// What a call on a value answers: on the named one itself, or on one of the word's text.
    fn on_own(&mut self, alloc: Global, call: Call<'_>, own: &Text, words: &[Value]) -> Answer {
        if let Some(name) = name_in(own) {
            if let Some(own) = self.values.get_mut(name) {
                return answered(alloc, call, own, words);
            }
        }
        answered(alloc, call, &mut self.value(own)?, words)
    }

    /// What a call on the value of its first word answers.
    fn on_first(&mut self, alloc: Global, call: Call<'_>, words: &[Text]) -> Answer {
        let behind = self.values_behind(alloc, words)?;
        match words {
            [own, ..] => self.on_own(alloc, call, own, &behind),
            [] => answered(alloc, call, &mut Value::empty(), &behind),
        }
    }

    /// What a call on a value answers, or of a command.
    fn on_value(&mut self, alloc: Global, call: Call<'_>, words: &[Text]) -> Answer {
        match self.of_command(alloc, call, words)? {
            Some(answer) => Ok(answer),
            None => self.on_first(alloc, call, words),
        }
    }

    /// What a call answers that gives a name or lets a value go, or one on a value.
    fn plain(&mut self, alloc: Global, call: Call<'_>, verb: &str, words: &[Text]) -> Answer {
        match (verb, words) {
            ("set" | "short" | "letters", [name, word]) => {
                let made = self.made(alloc, verb, word)?;
                keep(alloc, &mut self.values, name.as_str(), made)
            }
            ("drop", [name]) => {
                let _let_go = self.values.swap_remove(name.as_str());
                text(alloc, "-")
            }
            _ => self.on_value(alloc, call, words),
        }
    }
}

impl Values {
    /// The list that another list, a dict or a value makes for a name.
    fn made_list(
        &mut self,
        alloc: Global,
        method: &str,
        word: &Text,
    ) -> Result<Option<List>, ValueError> {
        match method {
            "clone" => match self.lists.get(word.as_str()) {
                Some(list) => Ok(Some(list.clone()?)),
                None => Ok(None),
            },
            "to_list" => match self.dicts.get(word.as_str()) {
                Some(dict) => Ok(Some(dict.to_list(alloc)?)),
                None => Ok(None),
            },
            "as_list" => match self.values.get_mut(name_in(word).unwrap_or("")) {
                Some(value) => Ok(value.as_list(alloc).ok()),
                None => Ok(None),
            },
            _ => Ok(None),
        }
    }

    /// Adds an element of another list to one.
    fn push_from(&mut self, alloc: Global, name: &Text, other: &Text, index: &Text) -> Answer {
        let Some(other) = self.made_list(alloc, "clone", other)? else {
            return no_call(alloc);
        };
        match (
            self.lists.get_mut(name.as_str()),
            index.as_str().parse::<usize>(),
        ) {
            (Some(list), Ok(index)) => push_from(alloc, list, &other, index),
            _ => no_call(alloc),
        }
    }

    /// What a method of the list of a name answers.
    fn on_list(&mut self, alloc: Global, method: &str, name: &Text, words: &[Text]) -> Answer {
        let words = self.values(alloc, words)?;
        match self.lists.get_mut(name.as_str()) {
            Some(list) => of_list(alloc, method, list, &words),
            None => no_call(alloc),
        }
    }

    /// What a call on lists answers.
    fn of_lists(&mut self, alloc: Global, method: &str, words: &[Text]) -> Answer {
        match (method, words) {
            ("new", [name]) => keep(alloc, &mut self.lists, name.as_str(), List::new(alloc)?),
            ("clone" | "to_list" | "as_list", [name, word]) => {
                match self.made_list(alloc, method, word)? {
                    Some(list) => keep(alloc, &mut self.lists, name.as_str(), list),
                    None => no_call(alloc),
                }
            }
            ("push_from", [name, other, index]) => self.push_from(alloc, name, other, index),
            (_, [name, rest @ ..]) => self.on_list(alloc, method, name, rest),
            _ => no_call(alloc),
        }
    }
}

impl Values {
    /// The dict that another dict, a list or a value makes for a name.
    fn made_dict(
        &mut self,
        alloc: Global,
        method: &str,
        word: &Text,
    ) -> Result<Option<Dict>, ValueError> {
        match method {
            "clone" => match self.dicts.get(word.as_str()) {
                Some(dict) => Ok(Some(dict.clone()?)),
                None => Ok(None),
            },
            "from_list" => match self.lists.get(word.as_str()) {
                Some(list) => Ok(Dict::from_list(alloc, list).ok()),
                None => Ok(None),
            },
            "as_dict" => match self.values.get_mut(name_in(word).unwrap_or("")) {
                Some(value) => Ok(value.as_dict(alloc).ok()),
                None => Ok(None),
            },
            _ => Ok(None),
        }
    }

    /// What a method of the dict of a name answers.
    fn on_dict(&mut self, alloc: Global, method: &str, name: &Text, words: &[Text]) -> Answer {
        let words = self.values(alloc, words)?;
        match self.dicts.get_mut(name.as_str()) {
            Some(dict) => of_dict(alloc, method, dict, &words),
            None => no_call(alloc),
        }
    }

    /// What a call on dicts answers.
    fn of_dicts(&mut self, alloc: Global, method: &str, words: &[Text]) -> Answer {
        match (method, words) {
            ("new", [name]) => keep(alloc, &mut self.dicts, name.as_str(), Dict::new(alloc)?),
            ("clone" | "from_list" | "as_dict", [name, word]) => {
                match self.made_dict(alloc, method, word)? {
                    Some(dict) => keep(alloc, &mut self.dicts, name.as_str(), dict),
                    None => no_call(alloc),
                }
            }
            (_, [name, rest @ ..]) => self.on_dict(alloc, method, name, rest),
            _ => no_call(alloc),
        }
    }
}

impl Values {
    /// `into NAME COMMAND ..`: keeps what a command gives.
    fn keep_given(&mut self, alloc: Global, name: &str, command: &str) -> Answer {
        let (call, words) = call_and_words(command);
        let words = words_of(alloc, words)?;
        let words = self.values(alloc, &words)?;
        match given_by_command(alloc, call, &words) {
            Some(Ok(value)) => keep(alloc, &mut self.values, name, value),
            Some(Err(why)) => refused(alloc, why),
            None => no_call(alloc),
        }
    }

    /// What a call answers.
    fn call(&mut self, alloc: Global, call: &str) -> Answer {
        let (call, words) = call_and_words(call);
        let words = words_of(alloc, words)?;
        match call.verb {
            Verb::List(method) => self.of_lists(alloc, method, &words),
            Verb::Dict(method) => self.of_dicts(alloc, method, &words),
            Verb::Plain(verb) => self.plain(alloc, call, verb, &words),
            Verb::OfDict(_) => self.on_value(alloc, call, &words),
        }
    }

    /// What a line of rows answers.
    fn line(&mut self, alloc: Global, line: &str) -> Answer {
        match line
            .strip_prefix("into ")
            .and_then(|rest| rest.split_once(" "))
        {
            Some((name, command)) => self.keep_given(alloc, name, command),
            None => self.call(alloc, line),
        }
    }
}

impl World for Values {
    fn begin(&mut self, alloc: Global) -> Result<(), AllocError> {
        *self = Values::new(alloc);
        Ok(())
    }

    fn answer(&mut self, alloc: Global, call: &str) -> Result<String, AllocError> {
        match self.line(alloc, call) {
            Ok(answer) => Ok(answer),
            Err(error) => format!(in alloc; "{error:?}"),
        }
    }
}
