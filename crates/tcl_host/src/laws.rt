//! Laws of the host in memory, each of which a function without a body states.
ghost use Rattle.tcl_host.specs.Laws.{FaultLaw, LineLaw, WritingLaw, AppendingLaw};

/// A device fault is answered exactly where one is planned for the call; it is counted, and changes
/// nothing else.
pub fn faults_are_planned()
    ensures { FaultLaw }
{}

/// A read of a line takes the bytes up to a newline, or all where there is none, in one way only.
pub fn lines_are_read()
    ensures { LineLaw }
{}

/// What is written to a file that is opened for writing is what is read from it afterwards.
pub fn what_is_written_is_read()
    ensures { WritingLaw }
{}

/// What is written to a file that is opened to append comes after what it held.
pub fn what_is_appended_comes_last()
    ensures { AppendingLaw }
{}
