//! Files, channels and standard streams in memory, and what each request does to them.
ghost use Rattle.std.specs.Prelude.{◌≡◌, ◌+◌, ◌-◌, ◌^◌, ◌<◌, [], length, Some, IfOk, IfSome, OnOk};
ghost use Rattle.std.specs.Prelude.{OnErr};
ghost use Rattle.std.specs.Option.{option_map, ForSome};
ghost use Rattle.std.specs.FinMap as map;
ghost use Rattle.tcl_host.specs.declared.reply.HostReply.{HostReply};
ghost use Rattle.tcl_host.specs.declared.request.Request.{Request};
ghost use Rattle.tcl_host.specs.Hosts.{line_reply, done_reply};
ghost use Rattle.tcl_host.specs.Stores.{serve, reply_by, content, rest_of, with_channel};
ghost use Rattle.tcl_host.specs.Stores.{channel_name, new_channel, new_store, standard_channels};
ghost use Rattle.tcl_host.specs.Stores.{opened};

use crate::bytes::Bytes;
use crate::memory::channel::{Channel, Stream};
use crate::memory::channels::Channels;
use crate::memory::files::Files;
use crate::memory::taken::{take_all, take_line};
use crate::open_mode::OpenMode;
use crate::reply::HostRefusal;
use std::alloc::{AllocError, Global};
use tcl_text::text::Text;

/// Files, channels and standard streams.
#[derive(Drop)]
pub struct Store {
    /// The files.
    pub files: Files,
    /// The open channels.
    pub channels: Channels,
    /// All that was put on the standard input.
    pub input: Bytes,
    /// What was written to the standard output.
    pub output: Bytes,
    /// What was written to the standard errors.
    pub errors: Bytes,
    /// The number of the next channel to a file.
    pub next: u64,
}

/// An answer or a refusal, or want of memory.
pub type Served<T> = Result<Result<T, HostRefusal>, AllocError>;

/// A channel to a stream of which nothing was read.
fn new_channel(stream: Stream) -> Channel
    ensures { result ≡ new_channel stream }
{
    Channel {
        stream,
        place: 0,
        ended: false,
    }
}

/// Puts a standard channel to the others.
fn add_standard(
    alloc: Global,
    channels: &mut Channels,
    name: &str,
    stream: Stream,
) -> Result<(), AllocError>
    ensures { OnOk result (channels.new ≡ map.insert channels.old name.now (new_channel stream)) }
{
    let key = String::from_str(alloc, name)?;
    channels.insert(key, new_channel(stream))
}

/// The standard channels.
///
/// # Errors
/// Want of memory.
fn standard_channels(alloc: Global) -> Result<Channels, AllocError>
    ensures { IfOk result (λ made. made ≡ standard_channels) }
{
    let mut channels = Channels::new(alloc);
    add_standard(alloc, &mut channels, "stdin", Stream::Input)?;
    add_standard(alloc, &mut channels, "stdout", Stream::Output)?;
    add_standard(alloc, &mut channels, "stderr", Stream::Errors)?;
    Ok(channels)
}

impl Store {
    /// No files, and the standard channels open.
    ///
    /// # Errors
    /// Want of memory.
    pub fn new(alloc: Global) -> Result<Store, AllocError>
        ensures { IfOk result (λ made. made ≡ new_store) }
    {
        Ok(Store {
            files: Files::new(alloc),
            channels: standard_channels(alloc)?,
            input: Bytes::new(alloc),
            output: Bytes::new(alloc),
            errors: Bytes::new(alloc),
            next: 3,
        })
    }

    /// What can be read from a stream.
    fn content(&self, stream: &Stream) -> Option<&[u8]>
        ensures { option_map (λ bytes. bytes.now) result ≡ content self.now stream.now }
    {
        match stream {
            Stream::Input => Some(self.input.as_slice()),
            Stream::ReadFile(name) => Some(self.files.content(name.as_str())),
            Stream::Output | Stream::Errors | Stream::WriteFile(_) => None,
        }
    }

    /// What is left to be read on a channel that is open for reading.
    fn rest(&self, channel: &str) -> Option<&[u8]>
        ensures rest { option_map (λ bytes. bytes.now) result ≡ rest_of self.now channel.now }
        ensures fits { IfSome result
            (λ bytes. ForSome (map.get self.now.channels channel.now)
            (λ found. found.place + length bytes.now < 2 ^ 64)) }
    {
        let channel = self.channels.get(channel)?;
        let bytes = self.content(&channel.stream)?;
        if channel.place < bytes.len() {
            Some(&bytes[channel.place..])
        } else {
            Some(&[])
        }
    }

    /// Puts a new channel to a stream, and gives its name.
    ///
    /// # Errors
    /// Want of memory, which leaves all as it was.
    fn add_channel(&mut self, alloc: Global, stream: Stream) -> Result<Text, AllocError>
        requires { self.old.next < 2 ^ 64 - 1 }
        ensures named { IfOk result (λ name. name ≡ channel_name self.old.next) }
        ensures added { OnOk result (self.new ≡ with_channel self.old stream) }
        ensures unchanged { OnErr result (self.new ≡ self.old) }
    {
        let next = self.next;
        let key = format!(in alloc; "file{next}")?;
        let name = Text::new(alloc, key.as_str())?;
        self.channels.insert(key, new_channel(stream))?;
        self.next += 1;
        Ok(name)
    }

    /// Opens a file to read it.
    fn open_to_read(&mut self, alloc: Global, name: &str) -> Result<Text, AllocError>
        requires { self.old.next < 2 ^ 64 - 1 }
        ensures named { IfOk result (λ channel. channel ≡ channel_name self.old.next) }
        ensures opened { OnOk result (self.new ≡ opened OpenMode.Read self.old name.now) }
        ensures unchanged { OnErr result (self.new ≡ self.old) }
    {
        let file = Text::new(alloc, name)?;
        self.add_channel(alloc, Stream::ReadFile(file))
    }

    /// Opens a file to write to its end, which makes it where it is missing.
    fn open_to_append(&mut self, alloc: Global, name: &str) -> Result<Text, AllocError>
        requires { self.old.next < 2 ^ 64 - 1 }
        ensures named { IfOk result (λ channel. channel ≡ channel_name self.old.next) }
        ensures opened { OnOk result (self.new ≡ opened OpenMode.Append self.old name.now) }
        ensures unchanged { OnErr result (self.new ≡ self.old) }
    {
        let file = Text::new(alloc, name)?;
        let was_missing = self.files.make(alloc, name)?;
        let added = self.add_channel(alloc, Stream::WriteFile(file));
        if added.is_err() && was_missing {
            self.files.remove(name);
        }
        added
    }

    /// Opens a file to write it anew.
    fn open_to_write(&mut self, alloc: Global, name: &str) -> Result<Text, AllocError>
        requires { self.old.next < 2 ^ 64 - 1 }
        ensures named { IfOk result (λ channel. channel ≡ channel_name self.old.next) }
        ensures opened { OnOk result (self.new ≡ opened OpenMode.Write self.old name.now) }
        ensures unchanged { OnErr result (self.new ≡ self.old) }
    {
        let channel = self.open_to_append(alloc, name)?;
        self.files.clear(name);
        Ok(channel)
    }

    /// Opens a file.
    ///
    /// # Errors
    /// Want of memory, which leaves all as it was.
    pub fn open(&mut self, alloc: Global, name: &str, mode: OpenMode) -> Served<Text>
        ensures served { IfOk result
            (λ answer. (reply_by HostReply.Opened answer, self.new)
            ≡ serve self.old (Request.Open name.now mode)) }
        ensures unchanged { OnErr result (self.new ≡ self.old) }
    {
        if self.next == u64::MAX {
            return Ok(Err(HostRefusal::NotOpened));
        }
        match mode {
            OpenMode::Read => {
                if self.files.get(name).is_none() {
                    return Ok(Err(HostRefusal::NotOpened));
                }
                Ok(Ok(self.open_to_read(alloc, name)?))
            }
            OpenMode::Write => Ok(Ok(self.open_to_write(alloc, name)?)),
            OpenMode::Append => Ok(Ok(self.open_to_append(alloc, name)?)),
        }
    }

    /// Reads one line.
    ///
    /// # Errors
    /// Want of memory, which leaves all as it was.
    pub fn read_line(&mut self, alloc: Global, channel: &str) -> Served<Option<Bytes>>
        ensures served { IfOk result
            (λ answer. (reply_by line_reply answer, self.new)
            ≡ serve self.old (Request.ReadLine channel.now)) }
        ensures unchanged { OnErr result (self.new ≡ self.old) }
    {
        let Some(rest) = self.rest(channel) else {
            return Ok(Err(HostRefusal::NoChannel));
        };
        let taken = take_line(alloc, rest)?;
        self.channels.advance(channel, taken.count, taken.ended);
        Ok(Ok(taken.answer))
    }

    /// Reads all that is left.
    ///
    /// # Errors
    /// Want of memory, which leaves all as it was.
    pub fn read_all(&mut self, alloc: Global, channel: &str) -> Served<Bytes>
        ensures served { IfOk result
            (λ answer. (reply_by HostReply.Rest answer, self.new)
            ≡ serve self.old (Request.ReadAll channel.now)) }
        ensures unchanged { OnErr result (self.new ≡ self.old) }
    {
        let Some(rest) = self.rest(channel) else {
            return Ok(Err(HostRefusal::NoChannel));
        };
        let taken = take_all(alloc, rest)?;
        self.channels.advance(channel, taken.count, taken.ended);
        Ok(Ok(taken.answer))
    }

    /// Writes a text at the end.
    ///
    /// # Errors
    /// Want of memory, which leaves all as it was.
    pub fn write(&mut self, channel: &str, text: &str) -> Served<()>
        ensures served { IfOk result
            (λ answer. (reply_by done_reply answer, self.new)
            ≡ serve self.old (Request.Write channel.now text.now)) }
        ensures unchanged { OnErr result (self.new ≡ self.old) }
    {
        let Some(channel) = self.channels.get(channel) else {
            return Ok(Err(HostRefusal::NoChannel));
        };
        match &channel.stream {
            Stream::Output => self.output.append(text.as_bytes())?,
            Stream::Errors => self.errors.append(text.as_bytes())?,
            Stream::WriteFile(name) => self.files.append(name.as_str(), text.as_bytes())?,
            Stream::Input | Stream::ReadFile(_) => return Ok(Err(HostRefusal::NoChannel)),
        }
        Ok(Ok(()))
    }

    /// Whether a channel is open for writing.
    pub fn flush(&self, channel: &str) -> Result<(), HostRefusal>
        ensures { (reply_by done_reply result, self.now)
            ≡ serve self.now (Request.Flush channel.now) }
    {
        let channel = self.channels.get(channel).ok_or(HostRefusal::NoChannel)?;
        match channel.stream {
            Stream::Output | Stream::Errors | Stream::WriteFile(_) => Ok(()),
            Stream::Input | Stream::ReadFile(_) => Err(HostRefusal::NoChannel),
        }
    }

    /// Closes a channel.
    pub fn close(&mut self, channel: &str) -> Result<(), HostRefusal>
        ensures { (reply_by done_reply result, self.new)
            ≡ serve self.old (Request.Close channel.now) }
    {
        if self.channels.remove(channel) {
            Ok(())
        } else {
            Err(HostRefusal::NoChannel)
        }
    }

    /// Whether the last read met the end.
    pub fn eof(&self, channel: &str) -> Result<bool, HostRefusal>
        ensures { (reply_by HostReply.AtEnd result, self.now)
            ≡ serve self.now (Request.Eof channel.now) }
    {
        let channel = self.channels.get(channel).ok_or(HostRefusal::NoChannel)?;
        match channel.stream {
            Stream::Input | Stream::ReadFile(_) => Ok(channel.ended),
            Stream::Output | Stream::Errors | Stream::WriteFile(_) => Err(HostRefusal::NoChannel),
        }
    }
}
