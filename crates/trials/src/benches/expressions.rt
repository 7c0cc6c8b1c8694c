//! The time of evaluating a kept expression with its two values handed in, and of long sums.
use crate::benches::measuring::took;
use std::alloc::{AllocError, Global};
use std::io;
use std::time::Instant;
use tcl_expr::parser::parse_expr;
use tcl_expr::tree::ExprTree;
use tcl_expression_evaluation::evaluation::{Evaluation, Progress};
use tcl_expression_evaluation::fault::ApplyError;
use tcl_text::integer::Integers::Tcl8;
use tcl_value::value::Value;

/// How often the expression is evaluated.
const TIMES: i64 = 1_000_000;

/// How many ones are added up. The last is of the longest text that a value may have.
const COUNTS: [usize; 3] = [1_048_576, 4_194_304, 8_388_608];

/// What is evaluated: `$s` is the last value, and `$i` counts.
const EXPRESSION: &str = "($s + $i * 7) % 1000003";

/// The number that a value says.
fn number(value: Value) -> i64 {
    let mut value = value;
    value.as_int(Tcl8).unwrap_or(0)
}

/// The number that the expression gives for two numbers.
fn evaluate(
    alloc: Global,
    evaluation: &mut Evaluation,
    tree: &ExprTree,
    s: i64,
    i: i64,
) -> Result<i64, ApplyError> {
    evaluation.restart();
    let mut given = s;
    'parts: for _ in 0..3 {
        match evaluation.advance(alloc, tree, Tcl8)? {
            Progress::Wants(_) => {
                evaluation.supply(Value::from_int(given))?;
                given = i;
            }
            Progress::Done(value) => return Ok(number(value)),
        }
    }
    Ok(0)
}

/// Evaluates a kept expression so often.
fn evaluate_often(alloc: Global, tree: &ExprTree) -> Result<i64, ApplyError> {
    let mut evaluation = Evaluation::new(alloc);
    let mut s = 0;
    'times: for i in 0..TIMES {
        s = evaluate(alloc, &mut evaluation, tree, s, i)?;
    }
    Ok(s)
}

/// Measures how long the evaluations of a kept expression take.
fn measure_evaluations(rt: &HostRuntime, tree: &ExprTree) -> io::Result<()> {
    let start = Instant::now(rt)?;
    let last = evaluate_often(rt.alloc(), tree);
    took(rt, "1,000,000 evaluations", start)?;
    match last {
        Ok(last) => println!(rt; "{last} after {TIMES} evaluations"),
        Err(fault) => println!(rt; "{fault:?}"),
    }
}

/// `1+1+..` of so many ones.
fn ones(alloc: Global, count: usize) -> Result<String, AllocError> {
    let mut text = String::from_str(alloc, "1")?;
    'ones: for _ in 1..count {
        text.push_str("+1")?;
    }
    Ok(text)
}

/// Measures how long adding up a kept sum takes.
fn measure_sum(rt: &HostRuntime, tree: &ExprTree) -> io::Result<()> {
    let mut evaluation = Evaluation::new(rt.alloc());
    let start = Instant::now(rt)?;
    let sum = evaluate(rt.alloc(), &mut evaluation, tree, 0, 0);
    took(rt, "added up", start)?;
    match sum {
        Ok(sum) => println!(rt; "{sum} ones"),
        Err(fault) => println!(rt; "{fault:?}"),
    }
}

/// Measures how long dropping a kept sum takes.
fn measure_dropping(rt: &HostRuntime, tree: ExprTree) -> io::Result<()> {
    let start = Instant::now(rt)?;
    drop(tree);
    took(rt, "dropped", start)
}

/// Measures how long a sum takes: reading it, adding it up and dropping it.
fn measure_ones(rt: &HostRuntime, count: usize) -> io::Result<()> {
    let text = ones(rt.alloc(), count)?;
    eprintln!(rt; "{count} ones")?;
    let start = Instant::now(rt)?;
    let read = parse_expr(rt.alloc(), text.as_str(), Tcl8);
    took(rt, "read", start)?;
    match read {
        Ok(tree) => {
            measure_sum(rt, &tree)?;
            measure_dropping(rt, tree)
        }
        Err(fault) => println!(rt; "{fault:?}"),
    }
}

/// Measures evaluations of a kept expression, and long sums.
pub(crate) fn measure(rt: &HostRuntime) -> io::Result<()> {
    match parse_expr(rt.alloc(), EXPRESSION, Tcl8) {
        Ok(tree) => measure_evaluations(rt, &tree)?,
        Err(fault) => println!(rt; "{fault:?}")?,
    }
    'counts: for count in COUNTS {
        measure_ones(rt, count)?;
    }
    Ok(())
}
