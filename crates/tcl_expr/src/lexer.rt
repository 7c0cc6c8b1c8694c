//! The tokens of an expression, one after another.
ghost use Rattle.std.specs.Prelude.{◌≡◌, ◌∷◌, Ok};
ghost use Rattle.tcl_value.specs.Limits.{IsWithin};
ghost use Rattle.tcl_expr.specs.Faults.{Yields};
ghost use Rattle.std.specs.Int.{is_in_range};
ghost use Rattle.tcl_parser.specs.Reading.{before};
ghost use Rattle.tcl_expr.specs.Tokens.{after_word, word_or_number, token_at, next_token};
ghost use Rattle.tcl_expr.specs.Views.{lexed_of};

use crate::fault::{ExprError, ExprFault};
use crate::operand::{braced, number, quoted, skip_white, skip_word, substitution, word};
use crate::symbol::sign;
use crate::token::Token;
use std::alloc::Global;
use tcl_parser::scan::{before, is_name_character, split_ascii};
use tcl_text::integer::Integers;

/// What the rest of an expression begins with.
#[derive(Drop)]
pub enum Lexed<'a> {
    /// Nothing but white space.
    Ended,
    /// A token, and what follows it.
    Read(Token, &'a str),
}

/// The token of a word or a number that a text begins with, and what follows it.
fn word_or_number<'a>(
    alloc: Global,
    text: &'a str,
    first: u8,
    close: bool,
    style: Integers,
) -> Result<(Token, &'a str), ExprError>
    requires { IsWithin text.now }
    ensures { Yields (λ x. (x.0, x.1.now)) result
        (word_or_number style close (is_in_range 48 57 first)
        (before text.now (after_word text.now)) (after_word text.now)) }
{
    let rest = skip_word(text);
    let front = before(text, rest);
    let token = if first.is_ascii_digit() {
        number(alloc, front, close, style)?
    } else {
        word(alloc, front, style)?
    };
    Ok((token, rest))
}

/// The token that a text begins with, and what follows it.
fn token_at<'a>(
    alloc: Global,
    text: &'a str,
    first: u8,
    rest: &'a str,
    close: bool,
    style: Integers,
) -> Result<(Token, &'a str), ExprError>
    requires whole { text.now ≡ first ∷ rest.now }
    requires within { IsWithin text.now }
    ensures { Yields (λ x. (x.0, x.1.now)) result (token_at style close first rest.now) }
{
    if is_name_character(first) {
        return word_or_number(alloc, text, first, close, style);
    }
    match first {
        b'$' | b'[' => substitution(alloc, text),
        b'"' => quoted(alloc, rest),
        b'{' => braced(alloc, rest),
        _ => Ok(sign(first, rest)?),
    }
}

/// The token that the rest of an expression begins with, behind white space. The flag says that the
/// token before it is a minus, so that the two may be one number.
///
/// # Errors
/// 211 where no token begins so, 112 of a number out of range, 201 to 206 of an operand that can't
/// be read; want of memory.
pub fn next_token(
    alloc: Global,
    text: &str,
    minus: bool,
    style: Integers,
) -> Result<Lexed<'_>, ExprError>
    requires { IsWithin text.now }
    ensures { Yields lexed_of result (next_token style minus text.now) }
{
    let start = skip_white(text);
    let Some((first, rest)) = split_ascii(start) else {
        return if start.is_empty() {
            Ok(Lexed::Ended)
        } else {
            Err(ExprError::Fault(ExprFault::Syntax))
        };
    };
    let close = minus && start.len() == text.len();
    let (token, after) = token_at(alloc, start, first, rest, close, style)?;
    Ok(Lexed::Read(token, after))
}
