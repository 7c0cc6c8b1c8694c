//! The subcommand `is`.
ghost use Rattle.std.specs.Prelude.{◌≡◌, Ok, is_ok};
ghost use Rattle.tcl_text.specs.Lists.{list_of};
ghost use Rattle.std.specs.Option.{option_copied};
ghost use Rattle.tcl_words.specs.Outcomes.{Gives, answer_text};
ghost use Rattle.tcl_strings.specs.Kinds.{class_of, kind_of, fits_kind, empty_fits, is_kind};
ghost use Rattle.tcl_strings.specs.Kinds.{class_words, kind_or, strict_word, truth, is_of};

use std::alloc::Global;
use tcl_characters::classes::{Class, all_members};
use tcl_text::boolean::read_bool;
use tcl_text::integer::{Integers, read_int};
use tcl_text::list::{ListError, read_list};
use tcl_text::text::Text;
use tcl_words::answer::Answer;
use tcl_words::refusal::{Refusal, bad_option, wrong_arguments};

/// What a text may be.
#[derive(Clone, Copy)]
pub enum Kind {
    /// An integer of 64 bits.
    Integer,
    /// A boolean text.
    Boolean,
    /// A list.
    WholeList,
    /// Characters of a class.
    Of(Class),
}

/// The class of characters of a name.
fn class_of(name: &str) -> Option<Class>
    ensures { result ≡ class_of name.now }
{
    match name {
        "alpha" => Some(Class::Alpha),
        "digit" => Some(Class::Digit),
        "alnum" => Some(Class::Alnum),
        "upper" => Some(Class::Upper),
        "lower" => Some(Class::Lower),
        "space" => Some(Class::Space),
        "xdigit" => Some(Class::Xdigit),
        _ => None,
    }
}

/// What a class word names.
fn kind_of(name: &str) -> Option<Kind>
    ensures { result ≡ kind_of name.now }
{
    match name {
        "integer" => Some(Kind::Integer),
        "wideinteger" => Some(Kind::Integer),
        "boolean" => Some(Kind::Boolean),
        "list" => Some(Kind::WholeList),
        _ => match class_of(name) {
            Some(class) => Some(Kind::Of(class)),
            None => None,
        },
    }
}

/// Whether a text spells a list.
fn is_list(alloc: Global, text: &str) -> Result<bool, Refusal>
    ensures { Gives (λ b. b) result (Ok (is_ok (list_of text.now))) }
{
    match read_list(alloc, text) {
        Ok(_) => Ok(true),
        Err(ListError::Fault(_)) => Ok(false),
        Err(ListError::Memory) => Err(Refusal::Memory),
    }
}

/// Whether a text that isn't empty is of a kind.
fn fits_kind(alloc: Global, style: Integers, kind: Kind, text: &str) -> Result<bool, Refusal>
    ensures { Gives (λ b. b) result (Ok (fits_kind style kind text.now)) }
{
    match kind {
        Kind::Integer => Ok(read_int(text, style).is_ok()),
        Kind::Boolean => Ok(read_bool(text, style).is_ok()),
        Kind::WholeList => is_list(alloc, text),
        Kind::Of(class) => Ok(all_members(class, text)),
    }
}

/// Whether the empty text is of a kind.
fn empty_fits(kind: Kind, strict: bool) -> bool
    ensures { result ≡ empty_fits kind strict }
{
    match kind {
        Kind::WholeList => true,
        Kind::Integer | Kind::Boolean | Kind::Of(_) => !strict,
    }
}

/// Whether a text is of a kind; with `strict` the empty text is a list alone.
fn is_kind(
    alloc: Global,
    style: Integers,
    strict: bool,
    kind: Kind,
    text: &str,
) -> Result<bool, Refusal>
    ensures { Gives (λ b. b) result (Ok (is_kind style strict kind text.now)) }
{
    if text.is_empty() {
        Ok(empty_fits(kind, strict))
    } else {
        fits_kind(alloc, style, kind, text)
    }
}

/// The words: a class, an option that may be left out, and a text.
fn class_words<'a>(
    alloc: Global,
    words: &'a [Text],
) -> Result<(&'a Text, Option<&'a Text>, &'a Text), Refusal>
    ensures { Gives (λ p. (p.0.now, option_copied p.1, p.2.now)) result (class_words words.now) }
{
    match words {
        [class, text] => Ok((class, None, text)),
        [class, option, text] => Ok((class, Some(option), text)),
        _ => Err(wrong_arguments(alloc, "string is class ?-strict? s")),
    }
}

/// The kind that a class word names.
fn kind_word(alloc: Global, name: &str) -> Result<Kind, Refusal>
    ensures { Gives (λ kind. kind) result (kind_or name.now (kind_of name.now)) }
{
    match kind_of(name) {
        Some(kind) => Ok(kind),
        None => Err(bad_option(alloc, name)),
    }
}

/// Whether the option `-strict` stands.
fn strict_word(alloc: Global, word: Option<&Text>) -> Result<bool, Refusal>
    ensures { Gives (λ b. b) result (strict_word (option_copied word.entry)) }
{
    match word {
        None => Ok(false),
        Some(option) => {
            if option.as_str() == "-strict" {
                Ok(true)
            } else {
                Err(bad_option(alloc, option.as_str()))
            }
        }
    }
}

/// 1 of what holds and 0 of what doesn't.
fn truth(holds: bool) -> i64
    ensures { result ≡ truth holds }
{
    i64::from(holds)
}

/// `string is class ?-strict? s`: 1 where the text is of the class, else 0. The empty text is of
/// each class, with `-strict` of `list` alone.
///
/// # Errors
/// 241, 221; want of memory.
pub fn is(alloc: Global, style: Integers, words: &[Text]) -> Result<Answer, Refusal>
    ensures { Gives answer_text result (is_of style words.now) }
{
    let (class, option, text) = class_words(alloc, words)?;
    let kind = kind_word(alloc, class.as_str())?;
    let strict = strict_word(alloc, option)?;
    let holds = is_kind(alloc, style, strict, kind, text.as_str())?;
    Ok(Answer::Number(truth(holds)))
}
