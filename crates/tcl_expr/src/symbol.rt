//! Tokens that are signs.
ghost use Rattle.std.specs.Prelude.{◌≡◌, Ok, Err, IfOk, IfErr};
ghost use Rattle.tcl_expr.specs.Tokens.{pair, single, sign};

use crate::fault::ExprFault;
use crate::operator::{BinaryOperator, UnaryOperator};
use crate::token::Token;
use tcl_parser::scan::split_ascii;

/// The token that two signs are.
fn pair(first: u8, second: u8) -> Option<Token>
    ensures { result ≡ pair first second }
{
    match (first, second) {
        (b'*', b'*') => Some(Token::Infix(BinaryOperator::Power)),
        (b'<', b'<') => Some(Token::Infix(BinaryOperator::ShiftLeft)),
        (b'>', b'>') => Some(Token::Infix(BinaryOperator::ShiftRight)),
        (b'<', b'=') => Some(Token::Infix(BinaryOperator::AtMost)),
        (b'>', b'=') => Some(Token::Infix(BinaryOperator::AtLeast)),
        (b'=', b'=') => Some(Token::Infix(BinaryOperator::Equal)),
        (b'!', b'=') => Some(Token::Infix(BinaryOperator::Unequal)),
        (b'&', b'&') => Some(Token::Infix(BinaryOperator::And)),
        (b'|', b'|') => Some(Token::Infix(BinaryOperator::Or)),
        _ => None,
    }
}

/// The token that one sign is.
fn single(first: u8) -> Option<Token>
    ensures { result ≡ single first }
{
    match first {
        b'+' => Some(Token::Plus),
        b'-' => Some(Token::Minus),
        b'(' => Some(Token::Open),
        b')' => Some(Token::Close),
        b'*' => Some(Token::Infix(BinaryOperator::Multiply)),
        b'/' => Some(Token::Infix(BinaryOperator::Divide)),
        b'%' => Some(Token::Infix(BinaryOperator::Remainder)),
        b'<' => Some(Token::Infix(BinaryOperator::Less)),
        b'>' => Some(Token::Infix(BinaryOperator::Greater)),
        b'!' => Some(Token::Prefix(UnaryOperator::Not)),
        b'~' => Some(Token::Prefix(UnaryOperator::Complement)),
        b'&' => Some(Token::Infix(BinaryOperator::BitAnd)),
        b'^' => Some(Token::Infix(BinaryOperator::BitXor)),
        b'|' => Some(Token::Infix(BinaryOperator::BitOr)),
        b'?' => Some(Token::Question),
        b':' => Some(Token::Colon),
        b',' => Some(Token::Comma),
        _ => None,
    }
}

/// The token that a sign begins, and what follows it.
pub(crate) fn sign(first: u8, rest: &str) -> Result<(Token, &str), ExprFault>
    ensures token { IfOk result (λ x. sign first rest.now ≡ Ok (x.0, x.1.now)) }
    ensures refused { IfErr result (λ e. sign first rest.now ≡ Err e) }
{
    if let Some((second, after)) = split_ascii(rest) {
        if let Some(token) = pair(first, second) {
            return Ok((token, after));
        }
    }
    match single(first) {
        Some(token) => Ok((token, rest)),
        None => Err(ExprFault::Syntax),
    }
}
