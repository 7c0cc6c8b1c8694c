//! Which body the words of a `switch` choose.
ghost use Rattle.std.specs.Option.{option_copied};
ghost use Rattle.std.specs.Prelude.{◌≡◌, ◌<◌, ◌∷◌, [], IfOk, MatchResult, drop, length};
ghost use Rattle.std.specs.Prelude.{◌+◌, ◌*◌, slice_index_or};
ghost use Rattle.std.specs.Str.{bytes_eq};
ghost use Rattle.tcl_glob.specs.Patterns.{letters};
ghost use Rattle.tcl_language.specs.Switching as switching;
ghost use Rattle.tcl_run.specs.Ends.{Gave, Interrupts, IsFailure, itself};
ghost use Rattle.tcl_language.specs.Interpreters as interpreters;
ghost use Rattle.tcl_calls.specs.Switching.{manner_of, IsOption, IsOther};

use itoa::Buffer;
use std::alloc::{AllocError, Global};
use tcl_characters::order::equal;
use tcl_glob::matches;
use tcl_run::failure::{bad_option, wrong_args};
use tcl_run::interruption::Interruption;
use tcl_run::steps::read_list;
use tcl_value::list::List;
use tcl_value::value::Value;

/// How patterns are taken.
#[derive(Clone, Copy)]
struct Manner {
    /// As those of `string match`, and not each as the text that it is.
    glob: bool,
    /// The case of ASCII letters doesn't count.
    nocase: bool,
}

/// What a word is that stands before others.
#[derive(Clone, Copy)]
enum OptionWord {
    /// An option, behind which patterns are taken so.
    Sets(Manner),
    /// The end of the options.
    Ends,
    /// An option that is none.
    Unknown,
    /// The text that is compared.
    Compared,
}

/// Whether a word begins with `-`, as options do.
fn is_option(word: &str) -> bool
    ensures { result ≡ interpreters.is_option word.now }
{
    match word.as_bytes() {
        [first, ..] => *first == b'-',
        [] => false,
    }
}

/// What a word is that stands before others.
fn option_word(word: &str, manner: Manner) -> OptionWord
    ensures { IsOption result word.now (manner_of manner) }
{
    match word {
        "--" => OptionWord::Ends,
        "-exact" => OptionWord::Sets(Manner {
            glob: false,
            ..manner
        }),
        "-glob" => OptionWord::Sets(Manner {
            glob: true,
            ..manner
        }),
        "-nocase" => OptionWord::Sets(Manner {
            nocase: true,
            ..manner
        }),
        _ => other_word(word),
    }
}

/// What a word is that names no option.
fn other_word(word: &str) -> OptionWord
    ensures { IsOther result word.now }
{
    if is_option(word) {
        return OptionWord::Unknown;
    }
    OptionWord::Compared
}

/// Reads the options, from the left: the words that are left, and how patterns are taken.
///
/// # Errors
/// 221; want of memory.
fn read_options(alloc: Global, words: &[Value]) -> Result<(Manner, &[Value]), Interruption>
    ensures { MatchResult result
        (λ x. switching.choice switching.exactly words.now
        ≡ switching.behind_options (manner_of x.0) x.1.now)
        (λ i. Interrupts i (IsFailure itself (switching.choice switching.exactly words.now))) }
{
    let mut manner = Manner {
        glob: false,
        nocase: false,
    };
    let mut left = words;
    'options: while let [word, rest @ ..] = left {
        if rest.len() < 2 {
            return Ok((manner, left));
        }
        let text = word.text(alloc)?;
        let option = text.as_str();
        match option_word(option, manner) {
            OptionWord::Sets(other) => {
                manner = other;
                left = rest;
            }
            OptionWord::Ends => return Ok((manner, rest)),
            OptionWord::Unknown => return Err(bad_option(alloc, option)),
            OptionWord::Compared => return Ok((manner, left)),
        }
    }
    Ok((manner, left))
}

/// Whether two texts are the same, where the case of ASCII letters may not count.
fn are_same(a: &str, b: &str, nocase: bool) -> bool
    ensures { result ≡ bytes_eq (letters nocase a.now) (letters nocase b.now) }
{
    equal(a, b, nocase)
}

/// Whether a pattern fits a text.
fn is_fit(manner: Manner, string: &str, pattern: &str) -> bool
    ensures { result ≡ switching.is_fit (manner_of manner) string.now pattern.now }
{
    if manner.glob {
        return matches(pattern, string, manner.nocase);
    }
    are_same(pattern, string, manner.nocase)
}

/// Whether the pattern that a value is fits a text.
fn fits(alloc: Global, manner: Manner, string: &str, pattern: &Value) -> Result<bool, AllocError>
    ensures { IfOk result (λ fits. fits ≡ switching.is_fit (manner_of manner) string.now
        pattern.now) }
{
    if let Some(pattern) = pattern.as_text() {
        return Ok(is_fit(manner, string, pattern.as_str()));
    }
    let pattern = pattern.text(alloc)?;
    Ok(is_fit(manner, string, pattern.as_str()))
}

/// Whether the last pattern takes a text: it fits, or it is `default`.
fn takes_last(
    alloc: Global,
    manner: Manner,
    string: &str,
    pattern: &Value,
) -> Result<bool, AllocError>
    ensures { IfOk result (λ taken. taken ≡ switching.takes
        (switching.is_fit (manner_of manner) string.now) pattern.now []) }
{
    if pattern.is_text(b"default") {
        return Ok(true);
    }
    fits(alloc, manner, string, pattern)
}

/// Whether a pattern takes a text before these pairs.
fn takes(
    alloc: Global,
    manner: Manner,
    string: &str,
    pattern: &Value,
    pairs: &[Value],
) -> Result<bool, AllocError>
    ensures { IfOk result (λ taken. taken ≡ switching.takes
        (switching.is_fit (manner_of manner) string.now) pattern.now pairs.now) }
{
    if pairs.is_empty() {
        return takes_last(alloc, manner, string, pattern);
    }
    fits(alloc, manner, string, pattern)
}

/// The first body of pairs that isn't `-`.
fn first_body(pairs: &[Value]) -> Option<&Value>
    ensures { option_copied result ≡ switching.first_body pairs.now }
{
    let mut left = pairs;
    'bodies: while let [_pattern, body, rest @ ..] = left {
        if !body.is_text(b"-") {
            return Some(body);
        }
        left = rest;
    }
    None
}

/// The body of the first pattern that takes a text.
fn first_taken<'w>(
    alloc: Global,
    manner: Manner,
    string: &str,
    pairs: &'w [Value],
) -> Result<Option<&'w Value>, AllocError>
    ensures { IfOk result (λ body. option_copied body ≡ switching.chosen
        (switching.is_fit (manner_of manner) string.now) pairs.now) }
{
    let mut left = pairs;
    'pairs: while let [pattern, _body, rest @ ..] = left {
        if takes(alloc, manner, string, pattern, rest)? {
            return Ok(first_body(left));
        }
        left = rest;
    }
    Ok(None)
}

/// The body that pairs of patterns and bodies have for a text.
fn among(
    alloc: Global,
    manner: Manner,
    string: &Value,
    pairs: &[Value],
) -> Result<Option<Value>, Interruption>
    ensures { Gave itself (switching.among (manner_of manner) string.now pairs.now) result }
{
    if pairs.len() % 2 == 1 {
        return Err(wrong_args(alloc, SWITCH));
    }
    let string = string.text(alloc)?;
    let body = first_taken(alloc, manner, string.as_str(), pairs)?;
    Ok(own_body(body)?)
}

/// A body of its own.
fn own_body(body: Option<&Value>) -> Result<Option<Value>, AllocError>
    ensures { IfOk result (λ own. own ≡ option_copied body.entry) }
{
    match body {
        Some(body) => Ok(Some(body.clone()?)),
        None => Ok(None),
    }
}

/// Whether the pattern at a place of a list takes a text before the pairs behind it.
fn takes_at(
    alloc: Global,
    manner: Manner,
    string: &str,
    pairs: &List,
    index: usize,
) -> Result<bool, AllocError>
    requires { index + 1 < length pairs.now }
    ensures { IfOk result (λ taken. taken ≡ switching.takes
        (switching.is_fit (manner_of manner) string.now) (slice_index_or pairs.now index [])
        (drop (index + 2) pairs.now)) }
{
    let pattern = pairs.get(index)?;
    if pairs.len() - index == 2 {
        return takes_last(alloc, manner, string, &pattern);
    }
    fits(alloc, manner, string, &pattern)
}

/// The first body of a list's pairs, from one of them on, that isn't `-`.
fn first_body_from(pairs: &List, first: usize) -> Result<Option<Value>, AllocError>
    ensures { IfOk result (λ body. body ≡ switching.first_body (drop (2 * first) pairs.now)) }
{
    'bodies: for pair in first..pairs.len() / 2 {
        let index = 2 * pair + 1;
        if !pairs.is_at(index, "-") {
            return Ok(Some(pairs.get(index)?));
        }
    }
    Ok(None)
}

/// The body of the first pattern of a list's pairs that takes a text.
fn first_taken_in(
    alloc: Global,
    manner: Manner,
    string: &str,
    pairs: &List,
) -> Result<Option<Value>, AllocError>
    ensures { IfOk result (λ body. body ≡ switching.chosen
        (switching.is_fit (manner_of manner) string.now) pairs.now) }
{
    'pairs: for pair in 0..pairs.len() / 2 {
        if takes_at(alloc, manner, string, pairs, 2 * pair)? {
            return first_body_from(pairs, pair);
        }
    }
    Ok(None)
}

/// The body that a list's pairs of patterns and bodies have for a text. That of a number is written
/// on the stack.
fn among_listed(
    alloc: Global,
    manner: Manner,
    string: &Value,
    pairs: &List,
) -> Result<Option<Value>, Interruption>
    ensures { Gave itself (switching.among (manner_of manner) string.now pairs.now) result }
{
    if pairs.len() % 2 == 1 {
        return Err(wrong_args(alloc, SWITCH));
    }
    if let Some(number) = string.number() {
        let mut digits = Buffer::new();
        return Ok(first_taken_in(alloc, manner, digits.format(number), pairs)?);
    }
    let string = string.text(alloc)?;
    Ok(first_taken_in(alloc, manner, string.as_str(), pairs)?)
}

/// The same of pairs that are the elements of one word.
fn among_elements(
    alloc: Global,
    manner: Manner,
    string: &Value,
    pairs: &Value,
) -> Result<Option<Value>, Interruption>
    ensures { Gave itself
        (switching.behind_options (manner_of manner) (string.now ∷ pairs.now ∷ [])) result }
{
    let mut own = pairs.clone()?;
    let list = read_list(alloc, &mut own)?;
    among_listed(alloc, manner, string, &list)
}

/// The same of words that are the pairs, or of one word whose elements are.
fn among_words(
    alloc: Global,
    manner: Manner,
    string: &Value,
    pairs: &[Value],
) -> Result<Option<Value>, Interruption>
    ensures { Gave itself
        (switching.behind_options (manner_of manner) (string.now ∷ pairs.now)) result }
{
    match pairs {
        [elements] => among_elements(alloc, manner, string, elements),
        _ => among(alloc, manner, string, pairs),
    }
}

/// The body that the words behind the options choose.
fn behind_options(
    alloc: Global,
    manner: Manner,
    words: &[Value],
) -> Result<Option<Value>, Interruption>
    ensures { Gave itself (switching.behind_options (manner_of manner) words.now) result }
{
    let [string, pairs @ ..] = words else {
        return Err(wrong_args(alloc, SWITCH));
    };
    among_words(alloc, manner, string, pairs)
}

/// The body that the words of a `switch` choose, if they choose one. (switch(n))
///
/// # Errors
/// 241; 221 of the options; 101 to 104 of the list of pairs; want of memory.
#[inline(never)]
pub fn chosen_body(alloc: Global, words: &[Value]) -> Result<Option<Value>, Interruption>
    ensures { Gave itself (switching.choice switching.exactly words.now) result }
{
    let (manner, words) = read_options(alloc, words)?;
    behind_options(alloc, manner, words)
}

/// The form of `switch`.
const SWITCH: &str = "switch ?option ...? string ?pattern body ...?";
