//! What the steps of a kept expression are to its tree.
ghost use Rattle.tcl_expression_evaluation.specs.Laws.{StepsComputeTrees, TreesAreFormed};

/// The steps of a text's tree compute what the tree computes, in both styles of integers.
pub fn steps_compute_trees()
    ensures { StepsComputeTrees }
{}

/// Arguments are added only to calls that take more.
pub fn trees_are_formed()
    ensures { TreesAreFormed }
{}
