//! Reading an expression.
ghost use Rattle.std.specs.Prelude.{◌≡◌, ◌≤◌, ◌<◌, ◌-◌, ◌∷◌, ◌++◌, List, [], length, Ok, Err, IfOk};
ghost use Rattle.std.specs.Prelude.{OnOk};
ghost use Rattle.std.specs.Bool.{OnTrue};
ghost use Rattle.tcl_expr.specs.declared.operator.Function.{Function};
ghost use Rattle.tcl_expr.specs.Trees.{Tree};
ghost use Rattle.tcl_expr.specs.Grammar.{level, takes_one, prefix_of, infix_of};
ghost use Rattle.tcl_value.specs.Limits.{IsWithin, IsPast};
ghost use Rattle.tcl_expr.specs.Expressions.{is_minus, told, expression_of};
ghost use Rattle.tcl_expr.specs.Reading.{finish, Open, calling, State, takes, settle, having};
ghost use Rattle.tcl_expr.specs.Reading.{deeper, between, question, colon_at, close_at, comma_at};
ghost use Rattle.tcl_expr.specs.Reading.{name, named, lowest, want, have, step};
ghost use Rattle.tcl_expr.specs.Code.{mark, code_of};
ghost use Rattle.tcl_expr.specs.Parsing.{closing, weight_of, leaf_tree, is_deciding, is_negation};
ghost use Rattle.tcl_expr.specs.Parsing.{end_of, argument_end, Keeps, IsRead, Holds, Stands, Comes};
ghost use Rattle.tcl_expr.specs.Parsing.{Opens, Settles};

use crate::fault::{ExprError, ExprFault};
use crate::lexer::{Lexed, next_token};
use crate::operator::{BinaryOperator, Function, UnaryOperator};
use crate::token::{Leaf, Token};
use crate::tree::{ExprTree, Node};
use std::alloc::{AllocError, Global};
use tcl_text::integer::Integers;
use tcl_text::limit::MOST_BYTES;
use tcl_text::text::Text;
use tcl_value::value::Value;

/// How deep parentheses, functions, operators before an operand and choices may stand in one
/// another.
const DEEPEST: usize = 200;

/// What stands open.
#[derive(Clone, Copy)]
enum Pending {
    /// An operator before its operand.
    Prefixed(UnaryOperator),
    /// An operator behind its first operand.
    Infixed(BinaryOperator),
    /// A parenthesis.
    Parenthesis,
    /// A function before its first argument.
    Calling(Function),
    /// A function before a further argument, and how many there are with it.
    CallingOn(Function, usize),
    /// A choice behind its condition.
    Deciding,
    /// A choice behind its second operand.
    Otherwise,
}

/// What is to come.
#[derive(Clone, Copy)]
enum Mode {
    /// An operand.
    Wanting,
    /// The parenthesis behind a function's name.
    Naming,
    /// What follows an operand.
    Having,
}

/// How tight an operator binds: 2 is tightest.
fn level(operator: BinaryOperator) -> u8
    ensures { result ≡ level operator }
{
    match operator {
        BinaryOperator::Power => 2,
        BinaryOperator::Multiply | BinaryOperator::Divide | BinaryOperator::Remainder => 3,
        BinaryOperator::Add | BinaryOperator::Subtract => 4,
        BinaryOperator::ShiftLeft | BinaryOperator::ShiftRight => 5,
        BinaryOperator::Less
        | BinaryOperator::Greater
        | BinaryOperator::AtMost
        | BinaryOperator::AtLeast => 6,
        BinaryOperator::Equal | BinaryOperator::Unequal => 7,
        BinaryOperator::SameText | BinaryOperator::OtherText => 8,
        BinaryOperator::Within | BinaryOperator::Without => 9,
        BinaryOperator::BitAnd => 10,
        BinaryOperator::BitXor => 11,
        BinaryOperator::BitOr => 12,
        BinaryOperator::And => 13,
        BinaryOperator::Or => 14,
    }
}

/// Whether an operator takes its second operand, where an operator of a level follows.
fn takes(operator: BinaryOperator, next: u8) -> bool
    ensures { result ≡ takes operator next }
{
    match operator {
        BinaryOperator::Power => 2 < next,
        _ => level(operator) <= next,
    }
}

/// The step that ends what stands open, where an operator of a level follows.
fn closing(pending: Pending, next: u8) -> Option<Node>
    ensures { result ≡ closing pending next }
{
    match pending {
        Pending::Prefixed(operator) => Some(Node::Unary(operator)),
        Pending::Infixed(operator) if takes(operator, next) => Some(Node::Binary(operator)),
        Pending::Otherwise if 15 < next => Some(Node::Choice),
        _ => None,
    }
}

/// How much deeper what stands in it nests.
fn weight(pending: Pending) -> usize
    ensures { result ≡ weight_of pending }
{
    match pending {
        Pending::Infixed(_) => 0,
        _ => 1,
    }
}

/// What has been read of an expression.
#[derive(Drop)]
struct Parser {
    /// The steps so far.
    nodes: Vec<Node>,
    /// What stands open, the innermost last.
    pending: Vec<Pending>,
    /// How deep that nests.
    depth: usize,
    ghost shallow: { depth ≤ 200 },
}

impl Parser {
    /// Ends what stands open last, if it ends where an operator of a level follows.
    fn settle_one(&mut self, next: u8) -> Result<bool, AllocError>
        ensures settled { IfOk result
            (λ some. Settles some next self.old.nodes.items self.old.pending.items self.old.depth
            self.new.nodes.items self.new.pending.items self.new.depth) }
        ensures shorter { IfOk result
            (λ some. OnTrue some (length self.new.pending.items < length self.old.pending.items)) }
    {
        let Some(pending) = self.pending.pop() else {
            return Ok(false);
        };
        let Some(node) = closing(pending, next) else {
            self.pending.push(pending)?;
            return Ok(false);
        };
        self.nodes.push(node)?;
        self.depth = self.depth.saturating_sub(weight(pending));
        Ok(true)
    }

    /// Ends all that stands open and ends where an operator of a level follows.
    fn settle(&mut self, next: u8) -> Result<(), AllocError>
        ensures { OnOk result
            ((os : List Open) (a : Tree) →
            Holds self.old.nodes.items self.old.pending.items self.old.depth os (code_of a) →
            Holds self.new.nodes.items self.new.pending.items self.new.depth (settle next os a).os
            (code_of (settle next os a).tree)) }
    {
        'open: loop {
            if !self.settle_one(next)? {
                return Ok(());
            }
        }
    }

    /// An operand has come.
    fn operand(&mut self, leaf: Leaf) -> Result<Mode, ExprError>
        ensures { (os : List Open) → Holds self.old.nodes.items self.old.pending.items
            self.old.depth os [] → Comes self.new.nodes.items self.new.pending.items self.new.depth
            result (Ok (having os (leaf_tree leaf))) }
    {
        self.nodes.push(Node::Operand(leaf))?;
        Ok(Mode::Having)
    }

    /// What stands before an operand opens.
    fn deeper(&mut self, pending: Pending) -> Result<Mode, ExprError>
        ensures { (os : List Open) (o : Open) →
            Holds self.old.nodes.items self.old.pending.items self.old.depth os [] →
            Opens pending o → Comes self.new.nodes.items self.new.pending.items self.new.depth
            result (deeper 200 o os) }
    {
        if self.depth >= DEEPEST {
            return Err(ExprError::Fault(ExprFault::TooDeep));
        }
        self.pending.push(pending)?;
        self.depth += 1;
        Ok(Mode::Wanting)
    }

    /// A function's name comes.
    fn name(&mut self, function: Function) -> Result<Mode, ExprError>
        ensures { (os : List Open) → Holds self.old.nodes.items self.old.pending.items
            self.old.depth os [] → Comes self.new.nodes.items self.new.pending.items self.new.depth
            result (name 200 function os) }
    {
        match self.deeper(Pending::Calling(function)) {
            Ok(_) => Ok(Mode::Naming),
            Err(fault) => Err(fault),
        }
    }

    /// What follows a function's name.
    fn named(&mut self, token: &Token) -> Result<Mode, ExprError>
        ensures { (f : Function) (os : List Open) →
            Holds self.old.nodes.items self.old.pending.items self.old.depth (calling f ∷ os) [] →
            Comes self.new.nodes.items self.new.pending.items self.new.depth result
            (named f os token.now) }
    {
        match token {
            Token::Open => Ok(Mode::Wanting),
            Token::Lowest(_) => Err(ExprError::Fault(ExprFault::TooLarge)),
            _ => Err(ExprError::Fault(ExprFault::Syntax)),
        }
    }

    /// The least number comes, of which the minus stands open.
    fn lowest(&mut self, alloc: Global, digits: &Value) -> Result<Mode, ExprError>
        ensures { (os : List Open) → Holds self.old.nodes.items self.old.pending.items
            self.old.depth os [] → Comes self.new.nodes.items self.new.pending.items self.new.depth
            result (lowest digits.now os) }
    {
        let Some(pending) = self.pending.pop() else {
            return Err(ExprError::Fault(ExprFault::TooLarge));
        };
        if !is_negation(pending) {
            return Err(ExprError::Fault(ExprFault::TooLarge));
        }
        let literal = negative(alloc, digits)?;
        self.nodes.push(Node::Operand(Leaf::Literal(literal)))?;
        Ok(self.rise())
    }

    /// What comes where an operand is to come.
    fn want(&mut self, alloc: Global, token: Token) -> Result<Mode, ExprError>
        ensures { (os : List Open) → Holds self.old.nodes.items self.old.pending.items
            self.old.depth os [] → Comes self.new.nodes.items self.new.pending.items self.new.depth
            result (want 200 os token (prefix_of token)) }
    {
        match token {
            Token::Operand(leaf) => self.operand(leaf),
            Token::Lowest(digits) => self.lowest(alloc, &digits),
            Token::Plus => self.deeper(Pending::Prefixed(UnaryOperator::Plus)),
            Token::Minus => self.deeper(Pending::Prefixed(UnaryOperator::Negate)),
            Token::Prefix(operator) => self.deeper(Pending::Prefixed(operator)),
            Token::Function(function) => self.name(function),
            Token::Open => self.deeper(Pending::Parenthesis),
            Token::Infix(_) | Token::Close | Token::Comma | Token::Question | Token::Colon => {
                Err(ExprError::Fault(ExprFault::Syntax))
            }
        }
    }

    /// What comes behind an operand.
    fn have(&mut self, token: &Token) -> Result<Mode, ExprError>
        ensures { (os : List Open) (a : Tree) →
            Holds self.old.nodes.items self.old.pending.items self.old.depth os (code_of a) →
            Comes self.new.nodes.items self.new.pending.items self.new.depth result
            (have 200 os a token.now (infix_of token.now)) }
    {
        match token {
            Token::Plus => self.infix(BinaryOperator::Add),
            Token::Minus => self.infix(BinaryOperator::Subtract),
            Token::Infix(operator) => self.infix(*operator),
            Token::Question => self.question(),
            Token::Colon => self.colon(),
            Token::Close => self.close(),
            Token::Comma => self.comma(),
            Token::Lowest(_) => Err(ExprError::Fault(ExprFault::TooLarge)),
            Token::Operand(_) | Token::Prefix(_) | Token::Function(_) | Token::Open => {
                Err(ExprError::Fault(ExprFault::Syntax))
            }
        }
    }

    /// What a token makes of what stands open.
    fn step(&mut self, alloc: Global, mode: Mode, token: Token) -> Result<Mode, ExprError>
        ensures { (q : State) → Stands self.old.nodes.items self.old.pending.items self.old.depth
            mode q → Comes self.new.nodes.items self.new.pending.items self.new.depth result
            (step 200 q token) }
    {
        match mode {
            Mode::Wanting => self.want(alloc, token),
            Mode::Naming => self.named(&token),
            Mode::Having => self.have(&token),
        }
    }

    /// An operator comes behind an operand.
    fn infix(&mut self, operator: BinaryOperator) -> Result<Mode, ExprError>
        ensures { (os : List Open) (a : Tree) →
            Holds self.old.nodes.items self.old.pending.items self.old.depth os (code_of a) →
            Comes self.new.nodes.items self.new.pending.items self.new.depth result
            (between operator (settle (level operator) os a)) }
    {
        self.settle(level(operator))?;
        push_mark(&mut self.nodes, operator)?;
        self.pending.push(Pending::Infixed(operator))?;
        Ok(Mode::Wanting)
    }

    /// The condition of a choice ends.
    fn question(&mut self) -> Result<Mode, ExprError>
        ensures { (os : List Open) (a : Tree) →
            Holds self.old.nodes.items self.old.pending.items self.old.depth os (code_of a) →
            Comes self.new.nodes.items self.new.pending.items self.new.depth result
            (question 200 (settle 15 os a)) }
    {
        self.settle(15)?;
        if self.depth >= DEEPEST {
            return Err(ExprError::Fault(ExprFault::TooDeep));
        }
        self.nodes.push(Node::Question)?;
        self.pending.push(Pending::Deciding)?;
        self.depth += 1;
        Ok(Mode::Wanting)
    }

    /// The second operand of a choice ends.
    fn colon(&mut self) -> Result<Mode, ExprError>
        ensures { (os : List Open) (a : Tree) →
            Holds self.old.nodes.items self.old.pending.items self.old.depth os (code_of a) →
            Comes self.new.nodes.items self.new.pending.items self.new.depth result
            (colon_at (settle 16 os a).os (settle 16 os a).tree) }
    {
        self.settle(16)?;
        let Some(pending) = self.pending.pop() else {
            return Err(ExprError::Fault(ExprFault::Syntax));
        };
        if !is_deciding(pending) {
            return Err(ExprError::Fault(ExprFault::Syntax));
        }
        self.nodes.push(Node::Colon)?;
        self.pending.push(Pending::Otherwise)?;
        Ok(Mode::Wanting)
    }

    /// What stood open last has ended, and is an operand.
    fn rise(&mut self) -> Mode
        ensures mode { result ≡ Mode.Having }
        ensures nodes { self.new.nodes.items ≡ self.old.nodes.items }
        ensures pending { self.new.pending.items ≡ self.old.pending.items }
        ensures depth { self.new.depth ≡ self.old.depth - 1 }
    {
        self.depth = self.depth.saturating_sub(1);
        Mode::Having
    }

    /// A parenthesis or the arguments of a function end.
    fn close(&mut self) -> Result<Mode, ExprError>
        ensures { (os : List Open) (a : Tree) →
            Holds self.old.nodes.items self.old.pending.items self.old.depth os (code_of a) →
            Comes self.new.nodes.items self.new.pending.items self.new.depth result
            (close_at (settle 16 os a).os (settle 16 os a).tree) }
    {
        self.settle(16)?;
        let Some(pending) = self.pending.pop() else {
            return Err(ExprError::Fault(ExprFault::Syntax));
        };
        match end_of(pending) {
            End::Group => Ok(self.rise()),
            End::Step(node) => {
                self.nodes.push(node)?;
                Ok(self.rise())
            }
            End::Missing => Err(ExprError::Fault(ExprFault::Syntax)),
        }
    }

    /// An argument of a function ends, and another is to come.
    fn comma(&mut self) -> Result<Mode, ExprError>
        ensures { (os : List Open) (a : Tree) →
            Holds self.old.nodes.items self.old.pending.items self.old.depth os (code_of a) →
            Comes self.new.nodes.items self.new.pending.items self.new.depth result
            (comma_at (settle 16 os a).os (settle 16 os a).tree) }
    {
        self.settle(16)?;
        let Some(pending) = self.pending.pop() else {
            return Err(ExprError::Fault(ExprFault::Syntax));
        };
        let Some((function, count)) = argument_end(pending) else {
            return Err(ExprError::Fault(ExprFault::Syntax));
        };
        if count == usize::MAX {
            return Err(ExprError::Memory);
        }
        self.pending.push(Pending::CallingOn(function, count + 1))?;
        Ok(Mode::Wanting)
    }

    /// A parser that has read nothing.
    fn new(alloc: Global) -> Parser
        ensures { Holds result.nodes.items result.pending.items result.depth [] [] }
    {
        Parser {
            nodes: Vec::new(alloc),
            pending: Vec::new(alloc),
            depth: 0,
        }
    }

    /// The expression, where nothing stands open any more.
    fn finish(self, mode: Mode) -> Result<ExprTree, ExprError>
        ensures { (q : State) → Stands self.nodes.items self.pending.items self.depth mode q →
            Keeps result (told (finish q)) }
    {
        let Mode::Having = mode else {
            return Err(ExprError::Fault(ExprFault::Syntax));
        };
        let mut parser = self;
        parser.settle(16)?;
        let Parser { nodes, pending, .. } = parser;
        if pending.is_empty() {
            Ok(ExprTree { nodes })
        } else {
            Err(ExprError::Fault(ExprFault::Syntax))
        }
    }
}

/// Reads an expression whole, as `expr(n)` has it.
///
/// # Errors
/// 122 exactly where the text has more than [`MOST_BYTES`], and is read no further. Otherwise
/// [`ExprFault`], of the first token with which the text begins no expression: its own fault where
/// it can't be read (112, 201 to 206), 217 where only a deeper nesting than 200 begins so, and 211
/// otherwise, also where the text ends too early; want of memory.
pub fn parse_expr(alloc: Global, text: &str, style: Integers) -> Result<ExprTree, ExprError>
    ensures read { IsWithin text.now → Keeps result (expression_of style text.now) }
    ensures spelled { IsWithin text.now → IsRead style text.now result }
    ensures too_long { IsPast text.now → result ≡ Err (ExprError.Fault ExprFault.TooLong) }
{
    if text.len() > MOST_BYTES {
        return Err(ExprError::Fault(ExprFault::TooLong));
    }
    read_expression(alloc, text, style)
}

/// Reads an expression whole that is no longer than a value may be.
fn read_expression(alloc: Global, text: &str, style: Integers) -> Result<ExprTree, ExprError>
    requires { IsWithin text.now }
    ensures { Keeps result (expression_of style text.now) }
{
    let mut parser = Parser::new(alloc);
    let mut mode = Mode::Wanting;
    let mut rest = text;
    let mut minus = false;
    let mut left = text.len() + 1;
    'tokens: while left > 0 {
        left -= 1;
        match next_token(alloc, rest, minus, style)? {
            Lexed::Ended => return parser.finish(mode),
            Lexed::Read(token, after) => {
                minus = is_minus(&token);
                mode = parser.step(alloc, mode, token)?;
                rest = after;
            }
        }
    }
    parser.finish(mode)
}

/// Whether a token is a minus.
fn is_minus(token: &Token) -> bool
    ensures { result ≡ is_minus token.now }
{
    matches!(token, Token::Minus)
}

/// A number with a minus before it.
fn negative(alloc: Global, digits: &Value) -> Result<Value, AllocError>
    ensures { IfOk result (λ value. value ≡ 45 ∷ digits.now) }
{
    let mut text = String::from_str(alloc, "-")?;
    digits.write_to(alloc, &mut text)?;
    match Value::from_text(Text::from_string(alloc, text)?) {
        Ok(value) => Ok(value),
        Err(_) => Err(AllocError),
    }
}

/// Marks the place behind the first operand of `&&` or `||`.
fn push_mark(nodes: &mut Vec<Node>, operator: BinaryOperator) -> Result<(), AllocError>
    ensures { OnOk result (nodes.new.items ≡ nodes.old.items ++ mark operator) }
{
    match operator {
        BinaryOperator::And | BinaryOperator::Or => {
            nodes.push(Node::Needed(operator))?;
            Ok(())
        }
        _ => Ok(()),
    }
}

/// Whether a choice is to have its second operand.
fn is_deciding(pending: Pending) -> bool
    ensures { result ≡ is_deciding pending }
{
    matches!(pending, Pending::Deciding)
}

/// Whether it is a minus before its operand.
fn is_negation(pending: Pending) -> bool
    ensures { result ≡ is_negation pending }
{
    matches!(pending, Pending::Prefixed(UnaryOperator::Negate))
}

/// How something ends at a close parenthesis.
#[derive(Drop)]
enum End {
    /// It stands for what is in it.
    Group,
    /// This step ends it.
    Step(Node),
    /// It doesn't end there.
    Missing,
}

/// How what stands open ends at a close parenthesis.
fn end_of(pending: Pending) -> End
    ensures { result ≡ end_of pending }
{
    match pending {
        Pending::Parenthesis => End::Group,
        Pending::Calling(function) => End::Step(Node::Call(function, 1)),
        Pending::CallingOn(function, count) => End::Step(Node::Call(function, count)),
        _ => End::Missing,
    }
}

/// The function and the number of its arguments, where another argument may come.
fn argument_end(pending: Pending) -> Option<(Function, usize)>
    ensures { result ≡ argument_end pending }
{
    match pending {
        Pending::Calling(function) if !takes_one(function) => Some((function, 1)),
        Pending::CallingOn(function, count) => Some((function, count)),
        _ => None,
    }
}

/// Whether a function takes one argument alone.
fn takes_one(function: Function) -> bool
    ensures { result ≡ takes_one function }
{
    matches!(function, Function::Absolute)
}
