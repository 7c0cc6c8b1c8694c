//! Operands that are read from the text of an expression.
ghost use Rattle.std.specs.Prelude.{◌≡◌, ◌∷◌, ◌≤◌, ◌+◌, ◌<◌, ◌^◌, length, Ok, false, is_ok, IfOk};
ghost use Rattle.std.specs.Prelude.{IfSome, IfNone};
ghost use Rattle.tcl_text.specs.Numbers.{trim_start};
ghost use Rattle.tcl_parser.specs.Pieces.{Gives};
ghost use Rattle.tcl_parser.specs.Texts.{EndsWith};
ghost use Rattle.tcl_text.specs.Booleans.{boolean_of};
ghost use Rattle.tcl_value.specs.Reading.{int_of};
ghost use Rattle.tcl_value.specs.Limits.{IsWithin};
ghost use Rattle.tcl_expr.specs.Faults.{Yields};
ghost use Rattle.tcl_expr.specs.Tokens.{after_word, number, boolean_word, word, after_substitution};
ghost use Rattle.tcl_expr.specs.Tokens.{substitution, quoted, braced};

use crate::fault::{ExprError, ExprFault};
use crate::operator::{BinaryOperator, Function};
use crate::token::{Leaf, Token};
use std::alloc::{AllocError, Global};
use tcl_parser::fault::Fault;
use tcl_parser::reader::read_parts;
use tcl_parser::scan::{before, is_name_character, split_ascii};
use tcl_parser::script::{Part, Word};
use tcl_parser::skip::{Piece, next_part};
use tcl_prepared::preparing::prepare_operand;
use tcl_text::boolean::read_bool;
use tcl_text::integer::{IntegerFault, Integers, read_int};
use tcl_text::list::split_braced;
use tcl_text::list_comparing::is_int;
use tcl_text::text::Text;
use tcl_value::value::Value;

/// What follows the white space that a text begins with, newlines included.
pub(crate) fn skip_white(text: &str) -> &str
    ensures { result.now ≡ trim_start text.now }
{
    let mut rest = text;
    'white: while let Some(after) = strip_white(rest) {
        rest = after;
    }
    rest
}

/// What follows the white space character that a text begins with.
fn strip_white(text: &str) -> Option<&str>
    ensures on { IfSome result (λ rest. trim_start text.now ≡ trim_start rest.now) }
    ensures shorter { IfSome result (λ rest. length rest.now < length text.now) }
    ensures none { IfNone result (trim_start text.now ≡ text.now) }
{
    let (first, rest) = split_ascii(text)?;
    if first == b' ' || (9..=13).contains(&first) {
        Some(rest)
    } else {
        None
    }
}

/// What follows a character of a word.
fn strip_word(text: &str) -> Option<&str>
    ensures on { IfSome result (λ rest. after_word text.now ≡ after_word rest.now) }
    ensures shorter { IfSome result (λ rest. length rest.now < length text.now) }
    ensures none { IfNone result (after_word text.now ≡ text.now) }
{
    let (first, rest) = split_ascii(text)?;
    if is_name_character(first) {
        Some(rest)
    } else {
        None
    }
}

/// What follows the letters, digits and underscores that a text begins with.
pub(crate) fn skip_word(text: &str) -> &str
    ensures rest { result.now ≡ after_word text.now }
    ensures ends { EndsWith text.now result.now }
{
    let mut rest = text;
    'word: while let Some(after) = strip_word(rest) {
        rest = after;
    }
    rest
}

/// Whether a number that is out of range is in range with a minus before it.
fn fits_behind_minus(alloc: Global, number: &str, style: Integers) -> Result<bool, AllocError>
    ensures { IfOk result (λ fits. fits ≡ is_ok (int_of style (45 ∷ number.now))) }
{
    let mut negative = String::from_str(alloc, "-")?;
    negative.push_str(number)?;
    Ok(read_int(negative.as_str(), style).is_ok())
}

/// The value of an integer literal: the number alone, where the text is as that is written, and
/// otherwise the text with what it reads as.
fn literal(alloc: Global, text: &str, number: i64, style: Integers) -> Result<Value, AllocError>
    requires { IsWithin text.now }
    ensures { IfOk result (λ value. value ≡ text.now) }
{
    if is_int(text.as_bytes(), number) {
        return Ok(Value::from_int(number));
    }
    let mut value = Value::from_short_text(Text::new(alloc, text)?);
    let _ = value.as_int(style);
    Ok(value)
}

/// The token of a number. The flag says that a minus stands before it that nothing separates from
/// it.
pub(crate) fn number(
    alloc: Global,
    text: &str,
    close: bool,
    style: Integers,
) -> Result<Token, ExprError>
    requires { IsWithin text.now }
    ensures { Yields (λ token. token) result (number style close text.now) }
{
    match read_int(text, style) {
        Ok(number) => {
            let value = literal(alloc, text, number, style)?;
            Ok(Token::Operand(Leaf::Literal(value)))
        }
        Err(IntegerFault::NotInteger) => Err(ExprError::Fault(ExprFault::Syntax)),
        Err(IntegerFault::TooLarge) => {
            if close && fits_behind_minus(alloc, text, style)? {
                return Ok(Token::Lowest(Value::from_short_text(Text::new(alloc, text)?)));
            }
            Err(ExprError::Fault(ExprFault::TooLarge))
        }
    }
}

/// The token of a boolean word.
fn boolean_word(alloc: Global, text: &str, style: Integers) -> Result<Token, ExprError>
    requires { IsWithin text.now }
    ensures { Yields (λ token. token) result (boolean_word text.now (boolean_of style text.now)) }
{
    match read_bool(text, style) {
        Ok(_) => {
            let value = Value::from_short_text(Text::new(alloc, text)?);
            Ok(Token::Operand(Leaf::Literal(value)))
        }
        Err(_) => Err(ExprError::Fault(ExprFault::Syntax)),
    }
}

/// The token of a word.
pub(crate) fn word(alloc: Global, text: &str, style: Integers) -> Result<Token, ExprError>
    requires { IsWithin text.now }
    ensures { Yields (λ token. token) result (word style text.now) }
{
    match text {
        "eq" => Ok(Token::Infix(BinaryOperator::SameText)),
        "ne" => Ok(Token::Infix(BinaryOperator::OtherText)),
        "in" => Ok(Token::Infix(BinaryOperator::Within)),
        "ni" => Ok(Token::Infix(BinaryOperator::Without)),
        "abs" => Ok(Token::Function(Function::Absolute)),
        "min" => Ok(Token::Function(Function::Least)),
        "max" => Ok(Token::Function(Function::Greatest)),
        _ => boolean_word(alloc, text, style),
    }
}

/// What follows a variable, with the index of an element, or a script in brackets.
fn skip_substitution(text: &str) -> Result<&str, Fault>
    requires { length text.now < 2 ^ 63 }
    ensures rest { Gives (λ rest. rest.now) result (after_substitution text.now) }
    ensures ends { IfOk result (λ rest. EndsWith text.now rest.now) }
{
    let mut rest = text;
    let mut indexes = 0;
    'parts: loop {
        match next_part(rest, 0, true, indexes)? {
            Piece::Over(after) => return Ok(after),
            Piece::Part(_, 0, after) => return Ok(after),
            Piece::Part(_, deeper, after) => {
                indexes = deeper;
                rest = after;
            }
        }
    }
}

/// The token of parts, from which on so many bytes are to be read.
fn parts_token(alloc: Global, parts: Vec<Part>, len: usize) -> Result<Token, AllocError>
    ensures { IfOk result (λ token. token
        ≡ Token.Operand (Leaf.Substituted (record { parts = parts.items; expand = false }))) }
{
    let word = Word {
        parts,
        expand: false,
    };
    let operand = prepare_operand(alloc, &word, len)?;
    Ok(Token::Operand(Leaf::Substituted(operand)))
}

/// The token of a variable or of a script in brackets, and what follows it.
pub(crate) fn substitution(alloc: Global, text: &str) -> Result<(Token, &str), ExprError>
    requires { length text.now < 2 ^ 63 }
    ensures { Yields (λ x. (x.0, x.1.now)) result (substitution text.now) }
{
    let rest = skip_substitution(text)?;
    let front = before(text, rest);
    if front.len() == 1 {
        return Err(ExprError::Fault(ExprFault::Syntax));
    }
    let (parts, _) = read_parts(alloc, front, false)?;
    Ok((parts_token(alloc, parts, text.len())?, rest))
}

/// The token of a text in quotes, from behind its first mark on, and what follows it.
pub(crate) fn quoted(alloc: Global, text: &str) -> Result<(Token, &str), ExprError>
    ensures { Yields (λ x. (x.0, x.1.now)) result (quoted text.now) }
{
    let (parts, rest) = read_parts(alloc, text, true)?;
    Ok((parts_token(alloc, parts, text.len())?, rest))
}

/// The token of a text in braces, from behind its open brace on, and what follows it.
pub(crate) fn braced(alloc: Global, text: &str) -> Result<(Token, &str), ExprError>
    requires { IsWithin text.now }
    ensures { Yields (λ x. (x.0, x.1.now)) result (braced text.now) }
{
    match split_braced(text) {
        Some((inside, rest)) => {
            let value = Value::from_short_text(Text::new(alloc, inside)?);
            Ok((Token::Operand(Leaf::Literal(value)), rest))
        }
        None => Err(ExprError::Fault(ExprFault::Operand(Fault::CloseBrace))),
    }
}
