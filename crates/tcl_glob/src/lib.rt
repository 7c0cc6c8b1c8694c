//! Patterns of the Tcl command language, as `string match` has them.
#![tactic(auto)]

ghost use Rattle.std.specs.Prelude.{◌≡◌, ◌∷◌, ◌<◌, ◌≤◌, ◌||◌, [], length, MatchOption};
ghost use Rattle.tcl_glob.specs.Patterns.{items, items_at, escaped, set_text, contains, is_between};
ghost use Rattle.tcl_glob.specs.Patterns.{takes, letters, is_match};
ghost use Rattle.tcl_glob.specs.Fronts.{item_of, behind_set, range_end, some, IsFront};

pub mod characters;
pub mod laws;

use crate::characters::first_letter;

/// An item of a pattern.
#[derive(Clone, Copy)]
enum Item<'a> {
    /// A run of any characters.
    Run,
    /// Any one character.
    AnyOne,
    /// One character of the set that begins here.
    OneOf(&'a str),
    /// A character that stands for itself.
    Plain(char),
}

/// How far a pattern matches the front of a text.
enum Front<'a> {
    /// The pattern matches the whole text.
    Whole,
    /// It doesn't.
    Differs,
    /// Its items up to a run do: what follows the run, and the rest of the text.
    UpToRun(&'a str, &'a str),
}

/// Whether a pattern matches a whole text, character by character.
///
/// `*` stands for any run of characters, `?` for one, `[..]` for one of the characters or ranges
/// `a-z` in it, and a backslash makes the next character plain. With `nocase` the ASCII letters of
/// both are taken in lower case.
///
/// It takes no memory, and time in the product of the two lengths at most.
pub fn matches(pattern: &str, text: &str, nocase: bool) -> bool
    ensures { result ≡ is_match nocase pattern.now text.now }
{
    match match_front(pattern, text, nocase) {
        Front::Whole => true,
        Front::Differs => false,
        Front::UpToRun(after, rest) => matches_some_end(after, rest, nocase),
    }
}

/// Whether a pattern matches some end of a text. Where its items up to a run are found, they need
/// not be looked for again in a later place.
fn matches_some_end(pattern: &str, text: &str, nocase: bool) -> bool
    ensures { result ≡ some nocase pattern.now text.now }
{
    let mut left = pattern;
    let mut rest = text;
    'ends: loop {
        match match_front(left, rest, nocase) {
            Front::Whole => return true,
            Front::UpToRun(after, behind) => {
                left = after;
                rest = behind;
            }
            Front::Differs => {
                let Some((_, behind)) = first_letter(rest, nocase) else {
                    return false;
                };
                rest = behind;
            }
        }
    }
}

/// Matches the items of a pattern up to its first run.
fn match_front<'a>(pattern: &'a str, text: &'a str, nocase: bool) -> Front<'a>
    ensures { IsFront nocase pattern.now text.now result }
{
    let mut left = pattern;
    let mut rest = text;
    'items: while let Some((item, after)) = next_item(left, nocase) {
        if let Item::Run = item {
            return Front::UpToRun(after, rest);
        }
        let Some((letter, behind)) = first_letter(rest, nocase) else {
            return Front::Differs;
        };
        if !takes(item, letter, nocase) {
            return Front::Differs;
        }
        left = after;
        rest = behind;
    }
    if rest.is_empty() {
        Front::Whole
    } else {
        Front::Differs
    }
}

/// The first item of a pattern, and what follows it.
fn next_item(pattern: &str, nocase: bool) -> Option<(Item<'_>, &str)>
    ensures { MatchOption result (items (letters nocase pattern.now) ≡ [])
        (λ found. (items (letters nocase pattern.now)
        ≡ item_of nocase found.0 ∷ items (letters nocase found.1.now)) ×
        (length found.1.now < length pattern.now)) }
{
    let (letter, rest) = first_letter(pattern, nocase)?;
    let found = match letter {
        '*' => (Item::Run, rest),
        '?' => (Item::AnyOne, rest),
        '\\' => escaped_item(rest, nocase),
        '[' => (Item::OneOf(rest), behind_set(rest, nocase)),
        plain => (Item::Plain(plain), rest),
    };
    Some(found)
}

/// The item behind a backslash, and what follows it.
fn escaped_item(rest: &str, nocase: bool) -> (Item<'_>, &str)
    ensures item { items_at (letters nocase rest.now) escaped
        ≡ item_of nocase result.0 ∷ items (letters nocase result.1.now) }
    ensures shorter { length result.1.now ≤ length rest.now }
{
    match first_letter(rest, nocase) {
        Some((letter, rest)) => (Item::Plain(letter), rest),
        None => (Item::Plain('\\'), rest),
    }
}

/// What follows a set.
fn behind_set(body: &str, nocase: bool) -> &str
    ensures rest { letters nocase result.now ≡ behind_set (letters nocase body.now) }
    ensures shorter { length result.now ≤ length body.now }
{
    let mut rest = body;
    'letters: while let Some((letter, after)) = first_letter(rest, nocase) {
        if letter == ']' {
            return after;
        }
        rest = after;
    }
    rest
}

/// Whether an item other than a run takes a character.
fn takes(item: Item<'_>, letter: char, nocase: bool) -> bool
    ensures { result ≡ takes (item_of nocase item.entry) letter }
{
    match item {
        Item::Run => false,
        Item::AnyOne => true,
        Item::OneOf(body) => set_contains(body, letter, nocase),
        Item::Plain(plain) => plain == letter,
    }
}

/// Whether the set that begins here has a character.
fn set_contains(body: &str, letter: char, nocase: bool) -> bool
    ensures { result ≡ contains (set_text (letters nocase body.now)) letter }
{
    let mut rest = body;
    'set: while let Some((from, after)) = first_letter(rest, nocase) {
        if from == ']' {
            return false;
        }
        let (to, after) = range_end(from, after, nocase);
        if is_between(from, to, letter) {
            return true;
        }
        rest = after;
    }
    false
}

/// The other end of a range that begins with a character, or that character, and what follows.
fn range_end(from: char, rest: &str, nocase: bool) -> (char, &str)
    ensures to { result.0 ≡ (range_end from (set_text (letters nocase rest.now))).0 }
    ensures rest { set_text (letters nocase result.1.now)
        ≡ (range_end from (set_text (letters nocase rest.now))).1 }
    ensures shorter { length result.1.now ≤ length rest.now }
{
    if let Some((minus, after)) = first_letter(rest, nocase) {
        if minus == '-' {
            if let Some((to, after)) = first_letter(after, nocase) {
                if to != ']' {
                    return (to, after);
                }
            }
        }
    }
    (from, rest)
}

/// Whether a character is one from a to b or from b to a.
fn is_between(a: char, b: char, letter: char) -> bool
    ensures { result ≡ is_between a b letter }
{
    (a <= letter && letter <= b) || (b <= letter && letter <= a)
}
