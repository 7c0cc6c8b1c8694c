//! Computing an expression whose operands are at hand: texts, and variables of the current frame.
ghost use Rattle.std.specs.Prelude.{◌≡◌, ◌-◌, ◌≤◌, ◌++◌, ◌∷◌, [], List, Ok, IfSome, length};
ghost use Rattle.std.specs.Ordering.{nat_cmp};
ghost use Rattle.std.specs.Cmp.Lexicographic.{slice_cmp};
ghost use Rattle.std.specs.Fmt.{signed_decimal};
ghost use Rattle.tcl_text.specs.declared.integer.Integers.{Integers as Style};
ghost use Rattle.tcl_value.specs.Limits.{Bytes};
ghost use Rattle.tcl_value.specs.Reading.{int_of};
ghost use Rattle.tcl_expression_evaluation.specs.Apply.{apply_unary, apply_binary, answer, bit};
ghost use Rattle.tcl_expression_evaluation.specs.Apply.{compared, holds, both, either};
ghost use Rattle.tcl_expression_evaluation.specs.Computations.{Computation, operand, substitute};
ghost use Rattle.tcl_expression_evaluation.specs.AtHand.{comes_to, IsNumberAtHand, steps_of_two};
ghost use Rattle.tcl_expression_evaluation.specs.AtHand.{IsNumberFrom, ReadAs, Leaves, begins_with};
ghost use Rattle.tcl_expression_evaluation.specs.AtHand.{steps_before, Reduces, DoesStep};
ghost use Rattle.tcl_expression_evaluation.specs.AtHand.{IsDecided};
ghost use Rattle.tcl_expression_evaluation.specs.Steps.{leaving, goes, from};
ghost use Rattle.tcl_expr.specs.declared.tree.Node.{Node as Step};
ghost use Rattle.tcl_expr.specs.declared.tree.Node.TheVariants.{Operand, Unary, Binary, Needed};
ghost use Rattle.tcl_expr.specs.declared.tree.Node.TheVariants.{Question, Colon};
ghost use Rattle.tcl_frames.specs.Places.{Levels};

use crate::apply::{compute, holds};
use crate::evaluation::passed;
use crate::kind::{Arithmetic, Comparison, Kind, kind_of};
use arrayvec::ArrayVec;
use tcl_expr::operator::{BinaryOperator, UnaryOperator};
use tcl_expr::token::Leaf;
use tcl_expr::tree::{ExprTree, Node};
use tcl_frames::frames::Frames;
use tcl_prepared::operand::Operand as Substitution;
use tcl_prepared::prepared::{PreparedPart, PreparedWord};
use tcl_text::integer::{IntegerFault, Integers};
use tcl_value::value::Value;

/// How many numbers may wait for their operator.
const MOST_WAITING: usize = 8;

/// The number that an expression comes to, where each operand that it needs is a number at hand, or
/// one of two texts that an operator compares. None wherever that isn't found so, as with `~`,
/// functions and truth values that are no numbers: the expression may still have a value then. This
/// takes no memory.
pub fn number_at_hand(frames: &Frames, style: Integers, tree: &ExprTree) -> Option<i64>
    ensures { IfSome result
        (λ n. IsNumberAtHand frames.now.frames style tree.now.nodes.items n) }
{
    let nodes = tree.nodes.as_slice();
    if let Some((left, operator, right)) = operator_between(nodes) {
        return number_of_two(frames, style, left, operator, right);
    }
    number_of_more(frames, style, nodes)
}

/// The number that these steps come to behind a value that waits for its operator already, where
/// they need operands as [`number_at_hand`] has them. None wherever that isn't found so. This takes
/// no memory.
#[inline(never)]
pub fn number_from(frames: &Frames, style: Integers, first: &Value, rest: &[Node]) -> Option<i64>
    ensures { IfSome result
        (λ n. IsNumberFrom frames.now.frames style (first.now ∷ []) rest.now n) }
{
    let (number, more) = reduced(frames, style, first, rest)?;
    number_along(frames, style, number, more)
}

/// Whether steps behind a first operand may come to a number at hand. A hint, of which contracts
/// say nothing: [`number_from`] looks at the values.
pub fn may_be_numbers(rest: &[Node]) -> bool {
    rest.iter().all(may_bring_number)
}

/// Whether a step is an operand that may be at hand, or an operator that may be applied to such.
fn may_bring_number(step: &Node) -> bool {
    match step {
        Node::Operand(Leaf::Literal(_)) | Node::Unary(_) => true,
        Node::Operand(Leaf::Substituted(operand)) => may_be_at_hand(operand),
        Node::Binary(operator) => !matches!(kind_of(*operator), Kind::Within | Kind::Without),
        Node::Needed(_) | Node::Question | Node::Colon | Node::Choice => true,
        Node::Call(_, _) => false,
    }
}

/// Whether an operand that is substituted may be at hand.
fn may_be_at_hand(operand: &Substitution) -> bool {
    matches!(
        operand.word(),
        PreparedWord::Literal(_) | PreparedWord::Lone(PreparedPart::Variable(_))
    )
}

/// The two operands and the operator that the steps are, if they are no more.
pub fn operator_between(nodes: &[Node]) -> Option<(&Leaf, BinaryOperator, &Leaf)>
    ensures { IfSome result (λ found.
        nodes.now ≡ steps_of_two found.0.now found.1 found.2.now) }
{
    let [first, second, third] = nodes else {
        return None;
    };
    match (first, second, third) {
        (Node::Operand(left), Node::Operand(right), Node::Binary(operator)) => {
            Some((left, *operator, right))
        }
        _ => None,
    }
}

/// The number that an operator makes of two values, where it computes with the numbers that both
/// read as, or compares the values as numbers or as texts. None wherever that isn't found so:
/// `apply_binary` tells what comes of the values then. This takes no memory.
pub fn number_of_values(
    operator: BinaryOperator,
    left: &Value,
    right: &Value,
    style: Integers,
) -> Option<i64>
    ensures { IfSome result (λ n.
        apply_binary style operator left.now right.now ≡ Ok (signed_decimal n)) }
{
    if let Some(number) = number_of_kept(operator, left, right) {
        return Some(number);
    }
    number_of_any(operator, left, right, style)
}

/// The same, where both values are kept as numbers and the operator is one of numbers.
#[inline(always)]
fn number_of_kept(operator: BinaryOperator, left: &Value, right: &Value) -> Option<i64>
    ensures { IfSome result (λ n. (style : Style) →
        apply_binary style operator left.now right.now ≡ Ok (signed_decimal n)) }
{
    let first = left.number()?;
    let second = right.number()?;
    apply_to_numbers(operator, first, second)
}

/// The same, however the values are kept.
#[inline(never)]
fn number_of_any(
    operator: BinaryOperator,
    left: &Value,
    right: &Value,
    style: Integers,
) -> Option<i64>
    ensures { IfSome result (λ n.
        apply_binary style operator left.now right.now ≡ Ok (signed_decimal n)) }
{
    match kind_of(operator) {
        Kind::Arithmetic(_) => number_of_integers(operator, left, right, style),
        Kind::Comparison(comparison) => Some(bit(is_so(comparison, left, right, style)?)),
        Kind::SameText => Some(bit(left.same(right))),
        Kind::OtherText => Some(bit(!left.same(right))),
        Kind::Within | Kind::Without | Kind::And | Kind::Or => None,
    }
}

/// The number that an operator makes of two values that both read as numbers.
fn number_of_integers(
    operator: BinaryOperator,
    left: &Value,
    right: &Value,
    style: Integers,
) -> Option<i64>
    ensures { IfSome result (λ n.
        apply_binary style operator left.now right.now ≡ Ok (signed_decimal n)) }
{
    let first = left.int(style).ok()?;
    let second = right.int(style).ok()?;
    apply_to_numbers(operator, first, second)
}

/// 1 or 0.
fn bit(truth: bool) -> i64
    ensures { result ≡ bit truth }
{
    if truth { 1 } else { 0 }
}

/// The answer of a comparison of two values, as numbers where both are integer texts, and otherwise
/// as texts. None where an integer text is out of range, or a text would have to be written first.
fn is_so(comparison: Comparison, left: &Value, right: &Value, style: Integers) -> Option<bool>
    ensures { IfSome result (λ truth.
        compared style comparison left.now right.now ≡ Ok (answer truth)) }
{
    match (left.int(style), right.int(style)) {
        (Err(IntegerFault::TooLarge), _) | (_, Err(IntegerFault::TooLarge)) => None,
        (Ok(x), Ok(y)) => Some(holds(comparison, x.cmp(&y))),
        _ => is_so_of_texts(comparison, left, right),
    }
}

/// The answer of a comparison of the texts of two values. None where a text would have to be
/// written first.
fn is_so_of_texts(comparison: Comparison, left: &Value, right: &Value) -> Option<bool>
    ensures { IfSome result (λ truth.
        truth ≡ holds comparison (slice_cmp nat_cmp left.now right.now)) }
{
    match comparison {
        Comparison::Equal => Some(left.same(right)),
        Comparison::Unequal => Some(!left.same(right)),
        _ => {
            let first = left.as_text()?;
            let second = right.as_text()?;
            Some(holds(comparison, first.as_str().cmp(second.as_str())))
        }
    }
}

/// The operand and the operator that steps begin with, and the steps behind them.
fn operator_before(nodes: &[Node]) -> Option<(&Leaf, BinaryOperator, &[Node])>
    ensures { IfSome result (λ found.
        nodes.now ≡ steps_before found.0.now found.1 found.2.now) }
{
    let [second, third, rest @ ..] = nodes else {
        return None;
    };
    match (second, third) {
        (Node::Operand(right), Node::Binary(operator)) => Some((right, *operator, rest)),
        _ => None,
    }
}

/// The operand that steps begin with, and the steps behind it.
fn operand_before(nodes: &[Node]) -> Option<(&Leaf, &[Node])>
    ensures { IfSome result (λ found. nodes.now ≡ begins_with found.0.now found.1.now) }
{
    let [first, rest @ ..] = nodes else {
        return None;
    };
    match first {
        Node::Operand(leaf) => Some((leaf, rest)),
        _ => None,
    }
}

/// The number that an operator makes of two operands, where both are values at hand.
fn number_of_two(
    frames: &Frames,
    style: Integers,
    left: &Leaf,
    operator: BinaryOperator,
    right: &Leaf,
) -> Option<i64>
    ensures { IfSome result (λ n. IsNumberAtHand frames.now.frames style
        (steps_of_two left.now operator right.now) n) }
{
    let first = value_at_hand(frames, left)?;
    let second = value_at_hand(frames, right)?;
    number_of_values(operator, first, second, style)
}

/// The number that steps of any number come to, the first of which is an operand.
#[inline(never)]
fn number_of_more(frames: &Frames, style: Integers, nodes: &[Node]) -> Option<i64>
    ensures { IfSome result (λ n. IsNumberAtHand frames.now.frames style nodes.now n) }
{
    let (first, rest) = operand_before(nodes)?;
    number_from(frames, style, value_at_hand(frames, first)?, rest)
}

/// The number that steps come to behind a number that waits. As long as an operand and an operator
/// come next, it becomes the operator's number; where something else comes, it waits with others.
#[inline(always)]
fn number_along(frames: &Frames, style: Integers, first: i64, nodes: &[Node]) -> Option<i64>
    ensures { (text : Bytes) → int_of style text ≡ Ok first → IfSome result
        (λ n. IsNumberFrom frames.now.frames style (text ∷ []) nodes.now n) }
{
    let mut number = first;
    let mut rest = nodes;
    'links: while let Some((right, operator, more)) = operator_before(rest) {
        number = number_with(frames, style, number, operator, right)?;
        rest = more;
    }
    if rest.is_empty() {
        return Some(number);
    }
    number_among(frames, style, number, rest)
}

/// The same, whatever comes next.
#[inline(never)]
fn number_among(frames: &Frames, style: Integers, first: i64, nodes: &[Node]) -> Option<i64>
    ensures { (text : Bytes) → int_of style text ≡ Ok first → IfSome result
        (λ n. IsNumberFrom frames.now.frames style (text ∷ []) nodes.now n) }
{
    let mut waiting = ArrayVec::<i64, MOST_WAITING>::new();
    waiting.push(first);
    number_of_steps(frames, style, nodes, waiting)
}

/// The number that an operator makes of a number that waits for it and of an operand, where this is
/// a number at hand.
#[inline(always)]
fn number_with(
    frames: &Frames,
    style: Integers,
    x: i64,
    operator: BinaryOperator,
    right: &Leaf,
) -> Option<i64>
    ensures { (text : Bytes) → int_of style text ≡ Ok x → IfSome result
        (λ n. Leaves frames.now.frames style text right.now operator n) }
{
    let y = value_at_hand(frames, right)?.int(style).ok()?;
    apply_to_numbers(operator, x, y)
}

/// The number that steps come to, one after another, behind numbers that wait already.
#[inline(always)]
fn number_of_steps(
    frames: &Frames,
    style: Integers,
    nodes: &[Node],
    mut waiting: ArrayVec<i64, MOST_WAITING>,
) -> Option<i64>
    ensures { (texts : List Bytes) → ReadAs style texts waiting.items → IfSome result
        (λ n. IsNumberFrom frames.now.frames style texts nodes.now n) }
{
    let mut rest = nodes;
    'steps: while let Some((node, more)) = rest.split_first() {
        rest = step_at_hand(frames, style, node, more, &mut waiting)?;
    }
    waiting.pop()
}

/// Does a step on the numbers that wait, and tells the steps that come next: those behind it, of
/// which some are left out, or taken with it.
#[inline(always)]
fn step_at_hand<'t>(
    frames: &Frames,
    style: Integers,
    node: &Node,
    more: &'t [Node],
    waiting: &mut ArrayVec<i64, MOST_WAITING>,
) -> Option<&'t [Node]>
    ensures does { IfSome result (λ rest. DoesStep frames.now.frames style node.now more.now
        rest.now waiting.old.items waiting.new.items) }
    ensures fewer { IfSome result (λ rest. length rest.now ≤ length more.now) }
{
    match node {
        Node::Operand(leaf) => take_operand(frames, style, leaf, more, waiting),
        Node::Unary(operator) => {
            apply_to_last(*operator, waiting)?;
            Some(more)
        }
        Node::Binary(operator) => {
            apply_to_last_two(*operator, waiting)?;
            Some(more)
        }
        Node::Needed(operator) => take_if_needed(*operator, more, waiting),
        Node::Question => choose(more, waiting),
        Node::Colon => Some(behind_mark(more)),
        Node::Choice => Some(more),
        Node::Call(_, _) => None,
    }
}

/// Takes an operand, and with it one that comes next and the operator of both.
#[inline(always)]
fn take_operand<'t>(
    frames: &Frames,
    style: Integers,
    leaf: &Leaf,
    more: &'t [Node],
    waiting: &mut ArrayVec<i64, MOST_WAITING>,
) -> Option<&'t [Node]>
    ensures does { IfSome result (λ rest. DoesStep frames.now.frames style (Operand leaf.now)
        more.now rest.now waiting.old.items waiting.new.items) }
    ensures fewer { IfSome result (λ rest. length rest.now ≤ length more.now) }
{
    let value = value_at_hand(frames, leaf)?;
    let (number, rest) = reduced(frames, style, value, more)?;
    wait(waiting, number)?;
    Some(rest)
}

/// The number that stands for a value where steps go on behind it: what an operator makes of it and
/// of an operand, where these two steps come next, or the number that it reads as. And the steps
/// that go on.
#[inline(always)]
fn reduced<'t>(
    frames: &Frames,
    style: Integers,
    value: &Value,
    steps: &'t [Node],
) -> Option<(i64, &'t [Node])>
    ensures { IfSome result (λ found. Reduces frames.now.frames style value.now steps.now
        found.1.now found.0) }
{
    let Some((right, operator, rest)) = operator_before(steps) else {
        let number = value.int(style).ok()?;
        return Some((number, steps));
    };
    let second = value_at_hand(frames, right)?;
    let number = number_of_values(operator, value, second, style)?;
    Some((number, rest))
}

/// Has a number wait, where there is room for it.
#[inline(always)]
fn wait(waiting: &mut ArrayVec<i64, MOST_WAITING>, number: i64) -> Option<()>
    ensures { IfSome result (λ _. waiting.new.items ≡ waiting.old.items ++ number ∷ []) }
{
    if waiting.is_full() {
        return None;
    }
    waiting.push(number);
    Some(())
}

/// Applies an operator to the number that came last.
#[inline(always)]
fn apply_to_last(operator: UnaryOperator, waiting: &mut ArrayVec<i64, MOST_WAITING>) -> Option<()>
    ensures { IfSome result (λ _. (frames : Levels) (style : Style) (more : List Step) →
        DoesStep frames style (Unary operator) more more waiting.old.items waiting.new.items) }
{
    let x = waiting.pop()?;
    let number = apply_to_number(operator, x)?;
    wait(waiting, number)?;
    Some(())
}

/// Applies an operator to the two numbers that came last.
#[inline(always)]
fn apply_to_last_two(
    operator: BinaryOperator,
    waiting: &mut ArrayVec<i64, MOST_WAITING>,
) -> Option<()>
    ensures { IfSome result (λ _. (frames : Levels) (style : Style) (more : List Step) →
        DoesStep frames style (Binary operator) more more waiting.old.items waiting.new.items) }
{
    let y = waiting.pop()?;
    let x = waiting.pop()?;
    let number = apply_to_numbers(operator, x, y)?;
    wait(waiting, number)?;
    Some(())
}

/// Goes on with the second operand, behind the number of the first. Where that tells the answer of
/// the operator, the answer waits in its place, and the second operand is left out.
fn take_if_needed<'t>(
    operator: BinaryOperator,
    more: &'t [Node],
    waiting: &mut ArrayVec<i64, MOST_WAITING>,
) -> Option<&'t [Node]>
    ensures does { IfSome result (λ rest. (frames : Levels) (style : Style) →
        DoesStep frames style (Needed operator) more.now rest.now waiting.old.items
        waiting.new.items) }
    ensures fewer { IfSome result (λ rest. length rest.now ≤ length more.now) }
{
    let first = waiting.pop()?;
    match answer_of_first(operator, first) {
        Some(answer) => {
            wait(waiting, answer)?;
            Some(behind_mark(more))
        }
        None => {
            wait(waiting, first)?;
            Some(more)
        }
    }
}

/// Goes on with the second operand of a choice, where the number of the first is true, and with the
/// third where it is false.
fn choose<'t>(more: &'t [Node], waiting: &mut ArrayVec<i64, MOST_WAITING>) -> Option<&'t [Node]>
    ensures does { IfSome result (λ rest. (frames : Levels) (style : Style) →
        DoesStep frames style Question more.now rest.now waiting.old.items waiting.new.items) }
    ensures fewer { IfSome result (λ rest. length rest.now ≤ length more.now) }
{
    let first = waiting.pop()?;
    if first == 0 {
        return Some(behind_mark(more));
    }
    Some(more)
}

/// The steps behind the mark that ends what isn't needed.
fn behind_mark(nodes: &[Node]) -> &[Node]
    ensures goes { (style : Style) (texts : List Bytes) → goes style nodes.now (leaving 0) texts
        ≡ from style result.now 0 texts }
    ensures fewer { length result.now ≤ length nodes.now }
{
    let mut depth = 0;
    let mut rest = nodes;
    'marks: while let Some((node, more)) = rest.split_first() {
        rest = more;
        match passed(node, depth) {
            Some(deeper) => depth = deeper,
            None => return rest,
        }
    }
    rest
}

/// The answer of `&&` or `||`, where the number of the first operand tells it.
fn answer_of_first(operator: BinaryOperator, first: i64) -> Option<i64>
    ensures { IsDecided operator first result }
{
    match operator {
        BinaryOperator::And => { if first == 0 { Some(0) } else { None } }
        BinaryOperator::Or => { if first == 0 { None } else { Some(1) } }
        _ => None,
    }
}

/// The value of an operand, where it is a text or a variable of the current frame.
#[inline(always)]
fn value_at_hand<'a>(frames: &'a Frames, leaf: &'a Leaf) -> Option<&'a Value>
    ensures { IfSome result (λ value. (next : Bytes → Computation) →
        comes_to frames.now.frames (operand leaf.now next)
        ≡ comes_to frames.now.frames (next value.now)) }
{
    match leaf {
        Leaf::Literal(value) => Some(value),
        Leaf::Substituted(operand) => operand_at_hand(frames, operand),
    }
}

/// The value of an operand that is substituted, where it is one variable of the current frame, or a
/// text alone, as one in quotes.
#[inline(always)]
fn operand_at_hand<'a>(frames: &'a Frames, operand: &'a Substitution) -> Option<&'a Value>
    ensures { IfSome result (λ value. (next : Bytes → Computation) →
        comes_to frames.now.frames (substitute operand.now next)
        ≡ comes_to frames.now.frames (next value.now)) }
{
    match operand.word() {
        PreparedWord::Lone(PreparedPart::Variable(name)) => {
            let value = frames.scalar_near(name)?;
            value.keeps_limit();
            Some(value)
        }
        PreparedWord::Literal(value) => {
            value.keeps_limit();
            Some(value)
        }
        _ => None,
    }
}

/// The number that an operator makes of one, if it does.
fn apply_to_number(operator: UnaryOperator, x: i64) -> Option<i64>
    ensures { IfSome result (λ n. (style : Style) (a : Bytes) → int_of style a ≡ Ok x →
        apply_unary style operator a ≡ Ok (signed_decimal n)) }
{
    match operator {
        UnaryOperator::Negate => compute(Arithmetic::Subtract, 0, x).ok(),
        UnaryOperator::Plus => Some(x),
        UnaryOperator::Not => Some(if x == 0 { 1 } else { 0 }),
        UnaryOperator::Complement => None,
    }
}

/// The number that an operator makes of two, if it does.
#[inline(always)]
fn apply_to_numbers(operator: BinaryOperator, x: i64, y: i64) -> Option<i64>
    ensures { IfSome result (λ n. (style : Style) (a b : Bytes) → int_of style a ≡ Ok x →
        int_of style b ≡ Ok y → apply_binary style operator a b ≡ Ok (signed_decimal n)) }
{
    match kind_of(operator) {
        Kind::Arithmetic(computation) => compute(computation, x, y).ok(),
        Kind::Comparison(comparison) => { Some(if holds(comparison, x.cmp(&y)) { 1 } else { 0 }) }
        Kind::And => Some(both(x, y)),
        Kind::Or => Some(either(x, y)),
        Kind::SameText | Kind::OtherText | Kind::Within | Kind::Without => None,
    }
}

/// 1 where two numbers are both true, and else 0.
fn both(x: i64, y: i64) -> i64
    ensures { (style : Style) (a b : Bytes) → int_of style a ≡ Ok x → int_of style b ≡ Ok y →
        both style a b ≡ Ok (signed_decimal result) }
{
    if x == 0 {
        return 0;
    }
    if y == 0 { 0 } else { 1 }
}

/// 1 where either of two numbers is true, and else 0.
fn either(x: i64, y: i64) -> i64
    ensures { (style : Style) (a b : Bytes) → int_of style a ≡ Ok x → int_of style b ≡ Ok y →
        either style a b ≡ Ok (signed_decimal result) }
{
    if x != 0 {
        return 1;
    }
    if y == 0 { 0 } else { 1 }
}
