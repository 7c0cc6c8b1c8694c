//! Expressions, read from their texts: the tokens, the tree that these spell, and the steps that
//! compute it.
#![tactic(auto)]

pub mod fault;
pub mod grammar;
pub mod laws;
pub mod lexer;
mod operand;
pub mod operator;
pub mod parser;
mod symbol;
pub mod token;
pub mod tree;
