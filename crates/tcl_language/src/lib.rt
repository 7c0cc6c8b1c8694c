//! What scripts and commands mean: the program of each command. The definitions stand in `specs/`,
//! and each function here is a law.
#![tactic(auto)]

ghost use Rattle.tcl_language.specs.Branching.{IfIsRead};
ghost use Rattle.tcl_language.specs.Language.{ProgramsCall};

/// The programs of the commands call, and never wait without a call.
pub fn programs_call()
    ensures { ProgramsCall }
{}

/// The words of an `if` are read as the branches that they are.
pub fn if_words_are_read()
    ensures { IfIsRead }
{}
