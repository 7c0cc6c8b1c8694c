//! The branches that the words of an `if` are.
ghost use Rattle.std.specs.Option.{option_copied, option_map};
ghost use Rattle.std.specs.Prelude.{◌≡◌, ◌↔◌, IfOk, IfSome, IsTrue, Some, codes};
ghost use Rattle.tcl_language.specs.Expressions.{branches_of, without_first};
ghost use Rattle.tcl_calls.specs.BranchesRead.{alone, branch_of, first_of, lone, seen};

use std::alloc::{AllocError, Global};
use tcl_value::value::Value;

/// A condition, and the body that runs where it is true.
#[derive(Drop)]
pub struct Branch<'w> {
    pub test: &'w Value,
    pub body: &'w Value,
}

/// The branches of an `if`.
#[derive(Drop)]
pub struct Branches<'w> {
    /// The conditions with their bodies, in order.
    pub tests: Vec<Branch<'w>>,
    /// The body that runs where no condition is true, if there is one.
    pub last: Option<&'w Value>,
}

/// Whether a word is this name. Where the word is kept as a text its length is looked at first.
#[inline(always)]
fn is_word(word: &Value, name: &[u8]) -> bool
    ensures { IsTrue result ↔ (word.now ≡ name.now) }
{
    match word.as_text() {
        Some(text) if text.len() != name.len() => false,
        _ => word.is_text(name),
    }
}

/// Words without one that may stand first.
fn without_first<'w>(name: &[u8], words: &'w [Value]) -> &'w [Value]
    ensures { result.now ≡ without_first name.now words.now }
{
    let [first, rest @ ..] = words else {
        return words;
    };
    if first.is_text(name) {
        return rest;
    }
    words
}

/// The condition and the body that stand first, and the words behind them.
fn first_branch(words: &[Value]) -> Option<(Branch<'_>, &[Value])>
    ensures { option_map (λ x. (branch_of x.0, x.1.now)) result ≡ first_of words.now }
{
    let [test, rest @ ..] = words else {
        return None;
    };
    let [body, others @ ..] = without_first(b"then", rest) else {
        return None;
    };
    Some((Branch { test, body }, others))
}

/// The body that stands last, before which `else` may stand.
fn last_body(words: &[Value]) -> Option<&Value>
    ensures { option_copied result ≡ lone (without_first (codes "else") words.now) }
{
    match without_first(b"else", words) {
        [body] => Some(body),
        _ => None,
    }
}

/// The condition and the body of an `if` that has no other condition, and the body that stands
/// behind `else`, if there is one: where this is plain to see.
pub fn one_branch(words: &[Value]) -> Option<(Branch<'_>, Option<&Value>)>
    ensures { IfSome result
        (λ x. branches_of words.now ≡ Some (alone (branch_of x.0) (option_copied x.1))) }
{
    match words {
        [test, body] if !is_word(body, b"then") => Some((Branch { test, body }, None)),
        [test, body, word, last] if !is_word(body, b"then") && is_word(word, b"else") => {
            Some((Branch { test, body }, Some(last)))
        }
        _ => None,
    }
}

/// The branches that the words of an `if` are, if they are some. (if(n))
///
/// # Errors
/// Want of memory.
#[inline(never)]
pub fn branches_of(alloc: Global, words: &[Value]) -> Result<Option<Branches<'_>>, AllocError>
    ensures { IfOk result (λ read. option_map seen read ≡ branches_of words.now) }
{
    let mut tests = Vec::new(alloc);
    let mut left = words;
    'branches: loop {
        let Some((branch, behind)) = first_branch(left) else {
            return Ok(None);
        };
        tests.push(branch)?;
        let [word, rest @ ..] = behind else {
            return Ok(Some(Branches { tests, last: None }));
        };
        if !word.is_text(b"elseif") {
            let Some(body) = last_body(behind) else {
                return Ok(None);
            };
            return Ok(Some(Branches {
                tests,
                last: Some(body),
            }));
        }
        left = rest;
    }
}
