//! A channel to a file or a standard stream in memory.
use tcl_text::text::Text;

/// Where a channel leads.
#[derive(Drop)]
pub enum Stream {
    /// From the standard input.
    Input,
    /// From the file of this name.
    ReadFile(Text),
    /// To the standard output.
    Output,
    /// To the standard errors.
    Errors,
    /// To the end of the file of this name.
    WriteFile(Text),
}

/// An open channel.
#[derive(Drop)]
pub struct Channel {
    /// Where it leads.
    pub stream: Stream,
    /// How many bytes were read.
    pub place: usize,
    /// Whether the last read met the end.
    pub ended: bool,
}
