//! Lines, as they are read and written.
ghost use Rattle.std.specs.Io.KnownBytes.{Appends};
ghost use Rattle.std.specs.Prelude.{◌≡◌, ◌⊎◌, ◌+◌, ◌<◌, ◌≤◌, ◌++◌, ◌∷◌, [], IfErr, None, OnOk};
ghost use Rattle.std.specs.Prelude.{length, vec_len};
ghost use Rattle.tcl_serve.specs.Lines.{HearsOrEnds, IsRest, Looks, Reads, ReadsLine, Says};
ghost use Rattle.tcl_serve.specs.Lines.{Traffic, id_text, most_line, out_of_memory, status_of};
ghost use Rattle.tcl_serve.specs.declared.lines.Ending.TheVariants.{Memory, TooLong};

use memchr::memchr;
use std::alloc::{AllocError, Global};
use std::io::{self, BufRead, ErrorKind, Write};
use std::marker::Model;

/// The most bytes of a line that is read, its newline left out.
pub const MOST_LINE: usize = 67_108_864;

/// Why no line is read any more.
#[derive(Clone, Copy)]
pub enum Ending {
    /// The input is at its end.
    Finished,
    /// A line is longer than [`MOST_LINE`] bytes.
    TooLong,
    /// The input ends inside a line.
    CutShort,
    /// The input can't be read.
    Unreadable,
    /// The output can't be written.
    Unwritable,
    /// Memory was wanted for a line.
    Memory,
}

impl From<AllocError> for Ending {
    ghost from_gives = { λ _ e. e ≡ Memory };

    fn from(_error: AllocError) -> Ending {
        Ending::Memory
    }
}

impl Ending {
    /// The exit status of a program whose session ended so: 0 where the input is at its end, 1
    /// where a line can't be written, 2 where one can't be read, 4 for want of memory.
    pub fn status(self) -> u8
        ensures { result ≡ status_of self }
    {
        match self {
            Ending::Finished => 0,
            Ending::Unwritable => 1,
            Ending::TooLong | Ending::CutShort | Ending::Unreadable => 2,
            Ending::Memory => 4,
        }
    }
}

/// What a step of reading a line came to.
#[derive(Clone, Copy)]
enum Step {
    /// The line goes on.
    More,
    /// Its newline was met.
    Whole,
    /// The input's end was met.
    AtEnd,
}

/// What a reader shows of a line.
#[derive(Clone, Copy)]
struct Shown {
    /// How many bytes of the line.
    len: usize,
    /// The same, and its newline, where that is shown.
    used: usize,
    /// What comes behind them.
    step: Step,
}

/// What these bytes show of a line.
fn look(bytes: &[u8]) -> Shown
    ensures { Looks bytes.now result }
{
    let len = memchr(b'\n', bytes).unwrap_or(bytes.len());
    let (used, step) = if len < bytes.len() {
        (len + 1, Step::Whole)
    } else if bytes.is_empty() {
        (0, Step::AtEnd)
    } else {
        (len, Step::More)
    };
    Shown { len, used, step }
}

/// Puts bytes at the end of a line.
fn append(line: &mut Vec<u8>, bytes: &[u8]) -> Result<(), Ending>
    requires { vec_len line.old ≤ most_line }
    ensures appended { OnOk result (line.new.items ≡ line.old.items ++ bytes.now) }
    ensures within { OnOk result (vec_len line.new ≤ most_line) }
    ensures fault { IfErr result (λ e. (e ≡ Memory) ⊎
        ((e ≡ TooLong) × (most_line < length line.old.items + length bytes.now))) }
{
    if bytes.len() > MOST_LINE - line.len() {
        return Err(Ending::TooLong);
    }
    line.extend_from_slice(bytes)?;
    Ok(())
}

/// Whether a reader that failed so may be asked again.
fn is_interrupted(error: &io::Error) -> bool {
    error.kind() == ErrorKind::Interrupted
}

/// Takes what the reader shows of a line.
fn append_shown<R: BufRead>(reader: &mut R, line: &mut Vec<u8>) -> Result<Step, Ending>
    requires { vec_len line.old ≤ most_line }
    ensures { Reads (R.remaining reader.old) (R.remaining reader.new) line.old.items line.new.items
        result }
{
    let bytes = match reader.fill_buf() {
        Ok(bytes) => bytes,
        Err(error) => {
            return if is_interrupted(&error) {
                Ok(Step::More)
            } else {
                Err(Ending::Unreadable)
            };
        }
    };
    let shown = look(bytes);
    append(line, &bytes[..shown.len])?;
    reader.consume(shown.used);
    Ok(shown.step)
}

/// Why no line comes where the input is at its end, behind these bytes of a line.
fn rest(line: &[u8]) -> Ending
    ensures { IsRest line.now result }
{
    if line.is_empty() {
        return Ending::Finished;
    }
    Ending::CutShort
}

/// Reads a line, without its newline.
fn read_line<R: BufRead>(alloc: Global, reader: &mut R) -> Result<Vec<u8>, Ending>
    ensures { ReadsLine (R.remaining reader.old) (R.remaining reader.new) result }
{
    let mut line = Vec::new(alloc);
    'steps: for _ in 0..u64::MAX {
        match append_shown(reader, &mut line)? {
            Step::More => {}
            Step::Whole => return Ok(line),
            Step::AtEnd => return Err(rest(line.as_slice())),
        }
    }
    Err(Ending::Unreadable)
}

/// Writes a line and its newline, and hands it on.
fn write_line<W: Write>(writer: &mut W, line: &str) -> io::Result<()>
    ensures { OnOk result (Appends (W.contents writer.old) (W.contents writer.new)
        (line.now ++ 10 ∷ [])) }
{
    writer.write_all(line.as_bytes())?;
    writer.write_all(b"\n")?;
    writer.flush()
}

/// Writes an id, or null where there is none.
fn write_id<W: Write>(writer: &mut W, id: Option<u64>) -> io::Result<()>
    ensures { OnOk result (Appends (W.contents writer.old) (W.contents writer.new) (id_text id)) }
{
    match id {
        Some(id) => write!(writer, "{id}"),
        None => writer.write_all(b"null"),
    }
}

/// Writes the line of a message for which memory was wanted, and hands it on. This takes no memory.
fn write_out_of_memory<W: Write>(writer: &mut W, id: Option<u64>) -> io::Result<()>
    ensures { OnOk result (Appends (W.contents writer.old) (W.contents writer.new)
        (out_of_memory id ++ 10 ∷ [])) }
{
    writer.write_all(b"{\"error\":{\"number\":500,\"text\":\"out of memory\"},\"id\":")?;
    write_id(writer, id)?;
    writer.write_all(b"}\n")?;
    writer.flush()
}

/// A reader of lines and a writer, until no line can be read, or one can't be written.
pub struct Lines<R: BufRead + Drop, W: Write + Drop> {
    reader: R,
    writer: W,
    ending: Option<Ending>,
}

impl<R: BufRead + Drop, W: Write + Drop> Drop for Lines<R, W> {
    fn drop(self) {
        let Lines {
            reader: _reader,
            writer: _writer,
            ending: _,
        } = self;
    }
}

impl<R: BufRead + Drop, W: Write + Drop> Model for Lines<R, W> {
    ghost use Rattle.tcl_serve.specs.Lines.{Traffic};

    ghost Value = { Traffic };

    ghost view = { λ l. record {
      unread = R.remaining l.reader;
      written = W.contents l.writer;
      ending = l.ending;
    } };
}

impl<R: BufRead + Drop, W: Write + Drop> Lines<R, W> {
    /// Lines of this reader, and to this writer.
    pub fn new(reader: R, writer: W) -> Lines<R, W>
        ensures { result ≡ record {
          unread = R.remaining reader;
          written = W.contents writer;
          ending = None;
        } }
    {
        Lines {
            reader,
            writer,
            ending: None,
        }
    }

    /// Why no line is read any more, where none is.
    pub fn ending(&self) -> Option<Ending>
        ensures { result ≡ self.now.ending }
    {
        self.ending
    }

    /// Reads a line, without its newline.
    ///
    /// # Errors
    /// Why no line comes any more, but for what can't be written.
    pub fn hear(&mut self, alloc: Global) -> Result<Vec<u8>, Ending>
        requires { self.old.ending ≡ None }
        ensures { HearsOrEnds self.old result self.new }
    {
        match read_line(alloc, &mut self.reader) {
            Ok(line) => Ok(line),
            Err(ending) => {
                self.ending = Some(ending);
                Err(ending)
            }
        }
    }

    /// Writes a line. Where that can't be, no line is read or written any more.
    pub fn say(&mut self, line: &str)
        ensures { Says self.old line.now self.new }
    {
        if let Some(Ending::Unwritable) = self.ending {
            return;
        }
        if write_line(&mut self.writer, line).is_err() {
            self.ending = Some(Ending::Unwritable);
        }
    }

    /// Writes the line of a message for which memory was wanted. This takes no memory. Where that
    /// can't be, no line is read or written any more.
    pub fn say_out_of_memory(&mut self, id: Option<u64>)
        ensures { Says self.old (out_of_memory id) self.new }
    {
        if let Some(Ending::Unwritable) = self.ending {
            return;
        }
        if write_out_of_memory(&mut self.writer, id).is_err() {
            self.ending = Some(Ending::Unwritable);
        }
    }
}
