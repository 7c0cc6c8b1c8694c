//! The commands on texts.
ghost use Rattle.std.specs.Prelude.{◌≡◌, ◌≢◌, ◌∷◌, [], IfSome, MatchOption};
ghost use Rattle.tcl_commands.specs.Texts.{verb_name};
ghost use Rattle.tcl_commands.specs.declared.texts.Verb.{Verb};
ghost use Rattle.tcl_format.specs.Filling.{format_of};
ghost use Rattle.tcl_language.specs.Data.{answered};
ghost use Rattle.tcl_run.specs.Plain.{Acts};
ghost use Rattle.tcl_run.specs.Runs.{IsLevel};
ghost use Rattle.tcl_strings.specs.Parts.{index_of, length_of, range_of};
ghost use Rattle.tcl_strings.specs.Subcommands.{string_of};
ghost use Rattle.tcl_words.specs.Outcomes.{Gives};

use crate::answers::{answer_value, answered, texts_of};
use std::alloc::Global;
use tcl_characters::parts::characters_of;
use tcl_format::command;
use tcl_lists::reading::index_word;
use tcl_run::interruption::Interruption;
use tcl_strings::ensemble;
use tcl_strings::spans::counted_span;
use tcl_text::integer::Integers;
use tcl_text::text::Text;
use tcl_tree::tree::{Place, Tree};
use tcl_value::value::Value;
use tcl_words::limits::{count_answer, text_answer};
use tcl_words::refusal::Refusal;

/// A subcommand of `string` for whose words no list of texts is made.
#[derive(Clone, Copy, Drop)]
enum Verb {
    Length,
    Index,
    Range,
}

impl Verb {
    /// The subcommand that a word names, where the word is kept as a text.
    #[inline(always)]
    fn named(word: &Value) -> Option<Verb>
        ensures { IfSome result (λ verb. word.now ≡ verb_name verb) }
    {
        Verb::of_bytes(word.as_text()?.as_str().as_bytes())
    }

    /// The subcommand of this name. The bytes are told apart at once.
    #[inline(always)]
    fn of_bytes(name: &[u8]) -> Option<Verb>
        ensures { MatchOption result ((verb : Verb) → name.now ≢ verb_name verb)
            (λ verb. name.now ≡ verb_name verb) }
    {
        match name {
            [b'l', b'e', b'n', b'g', b't', b'h'] => Some(Verb::Length),
            [b'i', b'n', b'd', b'e', b'x'] => Some(Verb::Index),
            [b'r', b'a', b'n', b'g', b'e'] => Some(Verb::Range),
            _ => None,
        }
    }
}

/// What `string` gives of these texts.
fn string_answer(alloc: Global, style: Integers, texts: &[Text]) -> Result<Value, Refusal>
    ensures { Gives (λ value. value) result (string_of style texts.now) }
{
    let answer = ensemble::string(alloc, style, texts)?;
    Ok(answer_value(answer))
}

/// The characters of a text from one index to another, which are words that are read as indexes,
/// the first one first. No text is made of a number.
fn characters_between(
    alloc: Global,
    style: Integers,
    text: &Value,
    first: &Value,
    last: &Value,
) -> Result<Value, Refusal>
    ensures { Gives (λ value. value) result
        (range_of style (text.now ∷ first.now ∷ last.now ∷ [])) }
{
    let text = text.text(alloc)?;
    let count = characters_of(&text);
    let first = index_word(alloc, style, count, first)?;
    let last = index_word(alloc, style, count, last)?;
    let answer = text_answer(alloc, counted_span(text.as_str(), count, first, last))?;
    Ok(answer_value(answer))
}

/// The character of a text at an index, which is a word that is read as one. No text is made of a
/// number.
fn character_at(alloc: Global, style: Integers, text: &Value, at: &Value) -> Result<Value, Refusal>
    ensures { Gives (λ value. value) result (index_of style (text.now ∷ at.now ∷ [])) }
{
    let text = text.text(alloc)?;
    let count = characters_of(&text);
    let at = index_word(alloc, style, count, at)?;
    let answer = text_answer(alloc, counted_span(text.as_str(), count, at, at))?;
    Ok(answer_value(answer))
}

/// How many characters a text has, as a value.
fn count_of(alloc: Global, text: &Text) -> Result<Value, Refusal>
    ensures { Gives (λ value. value) result (length_of (text.now ∷ [])) }
{
    let answer = count_answer(alloc, characters_of(text))?;
    Ok(answer_value(answer))
}

/// How many characters a value's text has. The text is counted where it is kept.
fn characters_in(alloc: Global, text: &Value) -> Result<Value, Refusal>
    ensures { Gives (λ value. value) result (length_of (text.now ∷ [])) }
{
    if let Some(kept) = text.as_text() {
        return count_of(alloc, kept);
    }
    let written = text.text(alloc)?;
    count_of(alloc, &written)
}

/// What `string` gives of two words, for whose texts no list is made.
fn answer_of_two(
    alloc: Global,
    style: Integers,
    first: &Value,
    second: &Value,
) -> Result<Value, Refusal>
    ensures { Gives (λ value. value) result (string_of style (first.now ∷ second.now ∷ [])) }
{
    if let Some(Verb::Length) = Verb::named(first) {
        return characters_in(alloc, second);
    }
    let first = first.text(alloc)?;
    let second = second.text(alloc)?;
    string_answer(alloc, style, &[first, second])
}

/// The same of three.
fn answer_of_three(
    alloc: Global,
    style: Integers,
    first: &Value,
    second: &Value,
    third: &Value,
) -> Result<Value, Refusal>
    ensures { Gives (λ value. value) result
        (string_of style (first.now ∷ second.now ∷ third.now ∷ [])) }
{
    if let Some(Verb::Index) = Verb::named(first) {
        return character_at(alloc, style, second, third);
    }
    let first = first.text(alloc)?;
    let second = second.text(alloc)?;
    let third = third.text(alloc)?;
    string_answer(alloc, style, &[first, second, third])
}

/// The same of four.
fn answer_of_four(
    alloc: Global,
    style: Integers,
    first: &Value,
    second: &Value,
    third: &Value,
    fourth: &Value,
) -> Result<Value, Refusal>
    ensures { Gives (λ value. value) result
        (string_of style (first.now ∷ second.now ∷ third.now ∷ fourth.now ∷ [])) }
{
    if let Some(Verb::Range) = Verb::named(first) {
        return characters_between(alloc, style, second, third, fourth);
    }
    let first = first.text(alloc)?;
    let second = second.text(alloc)?;
    let third = third.text(alloc)?;
    let fourth = fourth.text(alloc)?;
    string_answer(alloc, style, &[first, second, third, fourth])
}

/// What `string` gives.
///
/// # Errors
/// Those of `string`; want of memory.
pub fn string_value(alloc: Global, style: Integers, args: &[Value]) -> Result<Value, Refusal>
    ensures { Gives (λ value. value) result (string_of style args.now) }
{
    match args {
        [first, second] => answer_of_two(alloc, style, first, second),
        [first, second, third] => answer_of_three(alloc, style, first, second, third),
        [first, second, third, fourth] => {
            answer_of_four(alloc, style, first, second, third, fourth)
        }
        _ => {
            let texts = texts_of(alloc, args)?;
            string_answer(alloc, style, texts.as_slice())
        }
    }
}

/// What `format` gives.
fn format_value(alloc: Global, style: Integers, args: &[Value]) -> Result<Value, Refusal>
    ensures { Gives (λ value. value) result (format_of style args.now) }
{
    let answer = command::format(alloc, style, args)?;
    Ok(answer_value(answer))
}

/// `string subcommand ?arg ...?`: what a subcommand makes of texts. (string(n))
pub fn string(
    tree: &mut Tree,
    alloc: Global,
    place: Place,
    args: &[Value],
) -> Result<Value, Interruption>
    ensures acts { Acts tree.old place
        (λ style. answered (string_of style args.now)) tree.new result }
    ensures level { IsLevel tree.old tree.new }
{
    answered(alloc, string_value(alloc, tree.integers(), args))
}

/// `format formatString ?arg ...?`: a text with values in the place of its specifiers. (format(n))
pub fn format(
    tree: &mut Tree,
    alloc: Global,
    place: Place,
    args: &[Value],
) -> Result<Value, Interruption>
    ensures acts { Acts tree.old place
        (λ style. answered (format_of style args.now)) tree.new result }
    ensures level { IsLevel tree.old tree.new }
{
    answered(alloc, format_value(alloc, tree.integers(), args))
}
