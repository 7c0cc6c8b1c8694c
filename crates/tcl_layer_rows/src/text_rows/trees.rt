//! What is kept of expressions.
use crate::text_rows::answers::text as show;
use std::alloc::{AllocError, Global};
use std::slice;
use tcl_expr::fault::ExprError;
use tcl_expr::operator::BinaryOperator;
use tcl_expr::parser::parse_expr;
use tcl_expr::token::Leaf;
use tcl_expr::tree::{ExprTree, Node};
use tcl_prepared::prepared::{PreparedPart, PreparedWord};
use tcl_text::integer::Integers;

/// The parts of a word that is no literal.
pub(crate) fn parts_of(word: &PreparedWord) -> &[PreparedPart] {
    match word {
        PreparedWord::Literal(_) | PreparedWord::Name(_) => &[],
        PreparedWord::Lone(part) => slice::from_ref(part),
        PreparedWord::Parts(parts) | PreparedWord::Spread(parts) => parts.as_slice(),
    }
}

/// An operand, in short.
fn push_leaf(alloc: Global, out: &mut String, leaf: &Leaf) -> Result<(), AllocError> {
    match leaf {
        Leaf::Literal(value) => value.write_to(alloc, out),
        Leaf::Substituted(operand) => match parts_of(operand.word()).first() {
            Some(PreparedPart::Variable(name)) => {
                out.push_str("$")?;
                out.push_str(name.as_str())
            }
            _ => out.push_str("[]"),
        },
    }
}

/// What a step that isn't an operand is called.
fn name_of(node: &Node) -> &'static str {
    match node {
        Node::Operand(_) => "operand",
        Node::Unary(_) => "unary",
        Node::Needed(_) => "needed",
        Node::Binary(BinaryOperator::Add) => "+",
        Node::Binary(BinaryOperator::Multiply) => "*",
        Node::Binary(_) => "binary",
        Node::Question => "?",
        Node::Colon => ":",
        Node::Choice => "choice",
        Node::Call(_, 1) => "call of 1",
        Node::Call(_, _) => "call of more",
    }
}

/// A step, in short.
fn push_node(alloc: Global, out: &mut String, node: &Node) -> Result<(), AllocError> {
    match node {
        Node::Operand(leaf) => push_leaf(alloc, out, leaf)?,
        node => out.push_str(name_of(node))?,
    }
    out.push_str(";")
}

/// The steps of a tree.
fn steps_of(alloc: Global, tree: &ExprTree) -> Result<String, AllocError> {
    let mut out = String::new(alloc);
    'nodes: for node in &tree.nodes {
        push_node(alloc, &mut out, node)?;
    }
    Ok(out)
}

/// The steps that are kept of a text, or what is told of its fault.
pub(crate) fn steps(alloc: Global, text: &str, style: Integers) -> Result<String, AllocError> {
    match parse_expr(alloc, text, style) {
        Ok(tree) => steps_of(alloc, &tree),
        Err(ExprError::Memory) => Err(AllocError),
        Err(ExprError::Fault(fault)) => show(alloc, &fault.message(alloc, text)?),
    }
}

/// Which fault a text has.
pub(crate) fn fault(alloc: Global, text: &str, style: Integers) -> Result<String, AllocError> {
    match parse_expr(alloc, text, style) {
        Ok(_) => String::from_str(alloc, "none"),
        Err(ExprError::Memory) => Err(AllocError),
        Err(ExprError::Fault(fault)) => format!(in alloc; "{fault:?}"),
    }
}
