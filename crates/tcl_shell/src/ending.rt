//! What a run of the program ends with.
use tcl_flow::stop::StopKind;
use tcl_text::text::Text;

/// How a run of the program ends.
#[derive(Drop)]
pub enum Ending {
    /// The script's result.
    Finished(Text),
    /// Help or the version, which was asked for.
    Helped(Text),
    /// The text of the error by which the script ended, or of its fault.
    Failed(Text),
    /// What is wrong with the command line.
    Misused(Text),
    /// The script couldn't be read as UTF-8.
    Unreadable,
    /// The run met a limit.
    Stopped(StopKind),
    /// The script ended the run with this status.
    Exited(u8),
    /// Memory ran out.
    OutOfMemory,
}
