//! Worked examples over the definition of what an expression comes to.
ghost use Rattle.tcl_expression_evaluation.specs.NumberLaws.{OneMoreIs42, OneMoreThanNone};

/// `$x + 1` comes to 42 in both styles of integers, where the variable holds `0x29`.
pub fn one_more_is_42()
    ensures { OneMoreIs42 }
{}

/// It comes to nothing where the variable can't be read.
pub fn one_more_than_none()
    ensures { OneMoreThanNone }
{}
