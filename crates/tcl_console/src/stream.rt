//! Which stream a channel's name stands for.
ghost use Rattle.std.specs.Prelude.{◌≡◌};
ghost use Rattle.tcl_console.specs.Streams.{stream_of};

/// What a channel leads to.
#[derive(Clone, Copy, Drop)]
pub enum Stream {
    /// The standard input: `stdin`.
    Input,
    /// The standard output: `stdout`.
    Output,
    /// The standard errors: `stderr`.
    Errors,
    /// A file that was opened, or nothing.
    File,
}

impl Stream {
    /// What a channel of this name leads to.
    pub fn named(channel: &str) -> Stream
        ensures { result ≡ stream_of channel.now }
    {
        match channel {
            "stdin" => Stream::Input,
            "stdout" => Stream::Output,
            "stderr" => Stream::Errors,
            _ => Stream::File,
        }
    }
}
