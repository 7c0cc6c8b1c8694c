//! A host whose files and channels are in memory.
ghost use Rattle.std.specs.Prelude.{◌≡◌, ◌==◌, IfOk, OnOk, OnErr};
ghost use Rattle.std.specs.Option.{option_map};
ghost use Rattle.tcl_host.specs.declared.reply.HostError.{HostError};
ghost use Rattle.tcl_host.specs.declared.reply.HostRefusal.{HostRefusal};
ghost use Rattle.tcl_host.specs.MemoryHost.{new_host, called, failed, refused_by, with_file};
ghost use Rattle.tcl_host.specs.MemoryHost.{file_of, with_input, output_of, errors_of};
ghost use Rattle.tcl_host.specs.MemoryHost.{with_fault_in};

mod channel;
mod channels;
mod files;
mod store;
mod taken;

use crate::bytes::Bytes;
use crate::host::Host;
use crate::memory::store::Store;
use crate::open_mode::OpenMode;
use crate::reply::{HostError, HostRefusal};
use std::alloc::{AllocError, Global};
use tcl_text::text::Text;

/// Files, channels and standard streams in memory, of which a call can be made to fail.
///
/// At first the channels `stdin`, `stdout` and `stderr` are open. A channel to a file is named
/// `file` and a number; the first is `file3`.
pub struct MemoryHost {
    store: Store,
    // which call from now on is to fail; 0 where none is
    fault_in: u64,
    failures: u64,
}

impl Drop for MemoryHost {
    fn drop(self) {
        let MemoryHost {
            store: _store,
            fault_in: _,
            failures: _,
        } = self;
    }
}

impl MemoryHost {
    /// A host with no files, and nothing to be read.
    ///
    /// # Errors
    /// Want of memory.
    pub fn new(alloc: Global) -> Result<MemoryHost, AllocError>
        ensures { IfOk result (λ host. host ≡ new_host) }
    {
        Ok(MemoryHost {
            store: Store::new(alloc)?,
            fault_in: 0,
            failures: 0,
        })
    }

    /// Puts a file there, in the place of any that has its name.
    ///
    /// # Errors
    /// Want of memory, which leaves the host as it was.
    pub fn put_file(&mut self, alloc: Global, name: &str, bytes: &[u8]) -> Result<(), AllocError>
        ensures put { OnOk result (self.new ≡ with_file self.old name.now bytes.now) }
        ensures unchanged { OnErr result (self.new ≡ self.old) }
    {
        let name = String::from_str(alloc, name)?;
        let bytes = Bytes::copy_of(alloc, bytes)?;
        self.store.files.put(name, bytes)
    }

    /// What a file holds, where it is there.
    pub fn file(&self, name: &str) -> Option<&[u8]>
        ensures { option_map (λ bytes. bytes.now) result ≡ file_of self.now name.now }
    {
        self.store.files.get(name)
    }

    /// Puts bytes at the end of what can be read from `stdin`.
    ///
    /// # Errors
    /// Want of memory, which leaves the host as it was.
    pub fn put_input(&mut self, bytes: &[u8]) -> Result<(), AllocError>
        ensures put { OnOk result (self.new ≡ with_input self.old bytes.now) }
        ensures unchanged { OnErr result (self.new ≡ self.old) }
    {
        self.store.input.append(bytes)
    }

    /// All that was written to `stdout`.
    pub fn output(&self) -> &[u8]
        ensures { result.now ≡ output_of self.now }
    {
        self.store.output.as_slice()
    }

    /// All that was written to `stderr`.
    pub fn errors(&self) -> &[u8]
        ensures { result.now ≡ errors_of self.now }
    {
        self.store.errors.as_slice()
    }

    /// Makes the call of that number from now on fail once (262), which is counted and changes
    /// nothing else; 0 makes none fail. It takes the place of a fault that was planned before.
    pub fn fail_at(&mut self, call: u64)
        ensures { self.new ≡ with_fault_in self.old call }
    {
        self.fault_in = call;
    }

    /// Fails, which is counted.
    fn fail(&mut self) -> HostError
        ensures failed { self.new ≡ failed self.old }
        ensures fault { result ≡ HostError.Refused HostRefusal.DeviceFault }
    {
        self.fault_in = 0;
        if self.failures < u64::MAX {
            self.failures += 1;
        }
        HostError::Refused(HostRefusal::DeviceFault)
    }

    /// Takes note of a call that was served.
    fn reply<T>(&mut self, answer: Result<T, HostRefusal>) -> Result<T, HostError>
        ensures called { self.new ≡ called self.old }
        ensures answer { result ≡ refused_by answer }
    {
        self.fault_in = self.fault_in.saturating_sub(1);
        match answer {
            Ok(answer) => Ok(answer),
            Err(why) => Err(HostError::Refused(why)),
        }
    }
}

impl Host for MemoryHost {
    ghost use Rattle.std.specs.Prelude.{◌≡◌};
    ghost use Rattle.tcl_host.specs.MemoryHost.{respond};
    ghost use Rattle.tcl_host.specs.MemoryHostLaws.{respond-lawful};

    ghost step = { λ old request reply new. respond old request ≡ (reply, new) };

    ghost failures = { λ host. host.failures };

    ghost lawful = { respond-lawful };

    fn open(&mut self, alloc: Global, name: &str, mode: OpenMode) -> Result<Text, HostError> {
        if self.fault_in == 1 {
            return Err(self.fail());
        }
        let answer = self.store.open(alloc, name, mode)?;
        self.reply(answer)
    }

    fn read_line(&mut self, alloc: Global, channel: &str) -> Result<Option<Bytes>, HostError> {
        if self.fault_in == 1 {
            return Err(self.fail());
        }
        let answer = self.store.read_line(alloc, channel)?;
        self.reply(answer)
    }

    fn read_all(&mut self, alloc: Global, channel: &str) -> Result<Bytes, HostError> {
        if self.fault_in == 1 {
            return Err(self.fail());
        }
        let answer = self.store.read_all(alloc, channel)?;
        self.reply(answer)
    }

    fn write(&mut self, channel: &str, text: &str) -> Result<(), HostError> {
        if self.fault_in == 1 {
            return Err(self.fail());
        }
        let answer = self.store.write(channel, text)?;
        self.reply(answer)
    }

    fn flush(&mut self, channel: &str) -> Result<(), HostError> {
        if self.fault_in == 1 {
            return Err(self.fail());
        }
        let answer = self.store.flush(channel);
        self.reply(answer)
    }

    fn close(&mut self, channel: &str) -> Result<(), HostError> {
        if self.fault_in == 1 {
            return Err(self.fail());
        }
        let answer = self.store.close(channel);
        self.reply(answer)
    }

    fn eof(&mut self, channel: &str) -> Result<bool, HostError> {
        if self.fault_in == 1 {
            return Err(self.fail());
        }
        let answer = self.store.eof(channel);
        self.reply(answer)
    }

    fn failures(&self) -> u64 {
        self.failures
    }
}
