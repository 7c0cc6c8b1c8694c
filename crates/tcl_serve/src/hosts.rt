//! The host of a served tree, which is in memory.
ghost use Rattle.std.specs.Prelude.{◌≡◌, IfErr, IfOk, MatchOption, OnErr, OnOk};
ghost use Rattle.std.specs.Prelude.{Some, drop};
ghost use Rattle.tcl_host.specs.MemoryHost.{file_of, with_file, with_input};
ghost use Rattle.tcl_serve.specs.Hosting.{IfUnreadable, all_taken, fresh_host, untaken};
ghost use Rattle.tcl_serve.specs.declared.answers.Answer.TheVariants as answer;
ghost use Rattle.tcl_serve.specs.declared.messages.Channel.TheVariants as channel;
ghost use Rattle.tcl_serve.specs.declared.refusals.Refusal.TheVariants.{Memory};

use crate::answers::Answer;
use crate::messages::{Channel, PutFile};
use crate::refusals::Refusal;
use std::alloc::{AllocError, Global};
use tcl_host::memory::MemoryHost;
use tcl_text::text::Text;

/// A host in memory, and how much of what was written to its channels was taken.
pub struct ServedHost {
    /// The host.
    pub host: MemoryHost,
    output_taken: usize,
    errors_taken: usize,
}

impl Drop for ServedHost {
    fn drop(self) {
        let ServedHost {
            host: _host,
            output_taken: _,
            errors_taken: _,
        } = self;
    }
}

/// What stands behind the first so many bytes.
fn behind(bytes: &[u8], taken: usize) -> &[u8]
    ensures { result.now ≡ drop taken bytes.now }
{
    &bytes[taken.min(bytes.len())..]
}

/// The text that bytes are.
fn text_of(alloc: Global, bytes: &[u8], name: &str) -> Result<Text, Refusal>
    ensures text { IfOk result (λ text. text ≡ bytes.now) }
    ensures fault { IfErr result (IfUnreadable bytes.now) }
{
    match str::from_utf8(bytes) {
        Ok(text) => Ok(Text::new(alloc, text)?),
        Err(_) => Err(Refusal::NotText(Text::new(alloc, name)?)),
    }
}

impl ServedHost {
    /// A host with no files, and nothing to be read.
    ///
    /// # Errors
    /// Want of memory.
    pub fn new(alloc: Global) -> Result<ServedHost, AllocError>
        ensures { IfOk result (λ made. made ≡ fresh_host) }
    {
        Ok(ServedHost {
            host: MemoryHost::new(alloc)?,
            output_taken: 0,
            errors_taken: 0,
        })
    }

    /// Puts a file into the place of any that has its name.
    ///
    /// # Errors
    /// Want of memory.
    pub fn put_file(&mut self, alloc: Global, file: &PutFile) -> Result<Answer, Refusal>
        ensures put { OnOk result (self.new
            ≡ record self.old { host = with_file self.old.host file.now.name file.now.text }) }
        ensures answer { IfOk result (λ a. a ≡ answer.Done) }
        ensures fault { IfErr result (λ e. e ≡ Memory) }
        ensures unchanged { OnErr result (self.new ≡ self.old) }
    {
        let bytes = file.text.as_str().as_bytes();
        self.host.put_file(alloc, file.name.as_str(), bytes)?;
        Ok(Answer::Done)
    }

    /// Puts a text behind what can be read from `stdin`.
    ///
    /// # Errors
    /// Want of memory.
    pub fn put_input(&mut self, text: &Text) -> Result<Answer, Refusal>
        ensures put { OnOk result
            (self.new ≡ record self.old { host = with_input self.old.host text.now }) }
        ensures answer { IfOk result (λ a. a ≡ answer.Done) }
        ensures fault { IfErr result (λ e. e ≡ Memory) }
        ensures unchanged { OnErr result (self.new ≡ self.old) }
    {
        self.host.put_input(text.as_str().as_bytes())?;
        Ok(Answer::Done)
    }

    /// What a file holds, if it is there.
    ///
    /// # Errors
    /// 265; want of memory.
    pub fn file(&self, alloc: Global, name: &Text) -> Result<Answer, Refusal>
        ensures holds { IfOk result (λ a. a ≡ answer.Text (file_of self.now.host name.now)) }
        ensures fault { IfErr result (λ e. MatchOption (file_of self.now.host name.now)
            (e ≡ Memory) (λ bytes. IfUnreadable bytes e)) }
    {
        match self.host.file(name.as_str()) {
            Some(bytes) => {
                let text = text_of(alloc, bytes, name.as_str())?;
                Ok(Answer::Text(Some(text)))
            }
            None => Ok(Answer::Text(None)),
        }
    }

    /// What was written to a channel since it was last taken.
    ///
    /// # Errors
    /// 265; want of memory.
    pub fn take(&mut self, alloc: Global, channel: Channel) -> Result<Answer, Refusal>
        ensures takes { IfOk result (λ a. a ≡ answer.Text (Some (untaken channel self.old))) }
        ensures taken { OnOk result (self.new ≡ all_taken channel self.old) }
        ensures fault { IfErr result (IfUnreadable (untaken channel self.old)) }
        ensures unchanged { OnErr result (self.new ≡ self.old) }
    {
        match channel {
            Channel::Output => self.take_output(alloc),
            Channel::Errors => self.take_errors(alloc),
        }
    }

    fn take_output(&mut self, alloc: Global) -> Result<Answer, Refusal>
        ensures takes { IfOk result
            (λ a. a ≡ answer.Text (Some (untaken channel.Output self.old))) }
        ensures taken { OnOk result (self.new ≡ all_taken channel.Output self.old) }
        ensures fault { IfErr result (IfUnreadable (untaken channel.Output self.old)) }
        ensures unchanged { OnErr result (self.new ≡ self.old) }
    {
        let written = self.host.output();
        let text = text_of(alloc, behind(written, self.output_taken), "stdout")?;
        self.output_taken = written.len();
        Ok(Answer::Text(Some(text)))
    }

    fn take_errors(&mut self, alloc: Global) -> Result<Answer, Refusal>
        ensures takes { IfOk result
            (λ a. a ≡ answer.Text (Some (untaken channel.Errors self.old))) }
        ensures taken { OnOk result (self.new ≡ all_taken channel.Errors self.old) }
        ensures fault { IfErr result (IfUnreadable (untaken channel.Errors self.old)) }
        ensures unchanged { OnErr result (self.new ≡ self.old) }
    {
        let written = self.host.errors();
        let text = text_of(alloc, behind(written, self.errors_taken), "stderr")?;
        self.errors_taken = written.len();
        Ok(Answer::Text(Some(text)))
    }
}
