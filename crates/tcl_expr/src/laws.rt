//! What a text is as an expression.
ghost use Rattle.tcl_expr.specs.Expressions.{GivesTree, GivesFault, Decided};

/// Reading a text from the left finds its tree, and its fault where it is no expression.
pub fn reading_says_the_same()
    ensures tree { GivesTree }
    ensures fault { GivesFault }
{}

/// Each text has either a tree or a fault, and one only.
pub fn each_text_is_decided()
    ensures { Decided }
{}
