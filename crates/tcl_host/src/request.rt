//! What is asked of a host.
use crate::open_mode::OpenMode;
use tcl_text::text::Text;

/// A call to a host. The first text is the name of a channel, of `Open` that of a file.
#[derive(Clone, Debug, PartialEq, Eq, Drop)]
pub enum Request {
    /// A channel to the file is opened.
    Open(Text, OpenMode),
    /// One line is read.
    ReadLine(Text),
    /// All that is left is read.
    ReadAll(Text),
    /// The second text is written.
    Write(Text, Text),
    /// What was written is handed on.
    Flush(Text),
    /// The channel is closed.
    Close(Text),
    /// Whether the last read met the end.
    Eof(Text),
}
