//! The host in memory: files that are put in, and what scripts write.
ghost use Rattle.std.specs.Prelude.{◌≡◌, IfErr, MatchResult, None, OnErr, OnOk, Some};
ghost use Rattle.tcl_host.specs.MemoryHost.{errors_of, file_of, new_host, output_of, with_file};
ghost use Rattle.tcl_host.specs.MemoryHost.{with_input};
ghost use Rattle.tcl_sessions.specs.Files.{IsUnrenewed, OnlyHost};
ghost use Rattle.tcl_sessions.specs.declared.refusal.Refusal.TheVariants.{Memory, NoFile};

use crate::refusal::Refusal;
use crate::session::Session;
use std::alloc::Global;
use tcl_host::memory::MemoryHost;

impl Session {
    /// Puts a file there, in the place of any that has its name.
    ///
    /// # Errors
    /// 401, which changes nothing.
    pub fn put_file(&mut self, alloc: Global, name: &str, bytes: &[u8]) -> Result<(), Refusal>
        ensures put { OnOk result
            (self.new.standing.host ≡ with_file self.old.standing.host name.now bytes.now) }
        ensures refused { IfErr result (λ e. e ≡ Memory) }
        ensures unchanged { OnErr result (self.new.standing.host ≡ self.old.standing.host) }
        ensures rest { OnlyHost self.old self.new }
    {
        Ok(self.standing.host.put_file(alloc, name, bytes)?)
    }

    /// What a file holds.
    ///
    /// # Errors
    /// 267 where there is none of that name.
    pub fn file(&self, name: &str) -> Result<&[u8], Refusal>
        ensures { MatchResult result
            (λ bytes. file_of self.now.standing.host name.now ≡ Some bytes.now)
            (λ e. (e ≡ NoFile) × (file_of self.now.standing.host name.now ≡ None)) }
    {
        match self.standing.host.file(name) {
            Some(bytes) => Ok(bytes),
            None => Err(Refusal::NoFile),
        }
    }

    /// Puts bytes at the end of what scripts can read from `stdin`.
    ///
    /// # Errors
    /// 401, which changes nothing.
    pub fn put_input(&mut self, bytes: &[u8]) -> Result<(), Refusal>
        ensures put { OnOk result
            (self.new.standing.host ≡ with_input self.old.standing.host bytes.now) }
        ensures refused { IfErr result (λ e. e ≡ Memory) }
        ensures unchanged { OnErr result (self.new.standing.host ≡ self.old.standing.host) }
        ensures rest { OnlyHost self.old self.new }
    {
        Ok(self.standing.host.put_input(bytes)?)
    }

    /// All that was written to `stdout`.
    pub fn output(&self) -> &[u8]
        ensures { result.now ≡ output_of self.now.standing.host }
    {
        self.standing.host.output()
    }

    /// All that was written to `stderr`.
    pub fn errors(&self) -> &[u8]
        ensures { result.now ≡ errors_of self.now.standing.host }
    {
        self.standing.host.errors()
    }

    /// Puts a host with no files in place of the host. Its channels, and what was written, go with
    /// it.
    ///
    /// # Errors
    /// 424; 401. They change nothing.
    pub fn renew_host(&mut self, alloc: Global) -> Result<(), Refusal>
        ensures new { OnOk result (self.new.standing.host ≡ new_host) }
        ensures refused { IfErr result (IsUnrenewed self.old) }
        ensures unchanged { OnErr result (self.new.standing.host ≡ self.old.standing.host) }
        ensures rest { OnlyHost self.old self.new }
    {
        self.at_rest()?;
        self.standing.host = MemoryHost::new(alloc)?;
        Ok(())
    }
}
