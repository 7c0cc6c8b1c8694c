//! What splitting and joining do to one another.
ghost use Rattle.tcl_lists.specs.Laws.{JoinUndoesSplit, JoinUndoesLetters};

/// What is split at one character and joined with it is what it was; so is what is split into its
/// characters and joined with nothing.
pub fn join_undoes_split()
    ensures separator { JoinUndoesSplit }
    ensures letters { JoinUndoesLetters }
{}
