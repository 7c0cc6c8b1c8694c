//! Hosts that are lent.
use crate::bytes::Bytes;
use crate::host::Host;
use crate::open_mode::OpenMode;
use crate::reply::HostError;
use std::alloc::Global;
use tcl_text::text::Text;

/// A host that is lent makes the steps of the host itself.
impl<H: Host> Host for &mut H {
    ghost step = { λ old request reply new. H.step old.now request reply new.now };

    ghost failures = { λ host. H.failures host.now };

    ghost lawful = { λ old new request reply steps. H.lawful old.now new.now request reply steps };

    fn open(&mut self, alloc: Global, name: &str, mode: OpenMode) -> Result<Text, HostError> {
        Host::open(&mut **self, alloc, name, mode)
    }

    fn read_line(&mut self, alloc: Global, channel: &str) -> Result<Option<Bytes>, HostError> {
        Host::read_line(&mut **self, alloc, channel)
    }

    fn read_all(&mut self, alloc: Global, channel: &str) -> Result<Bytes, HostError> {
        Host::read_all(&mut **self, alloc, channel)
    }

    fn write(&mut self, channel: &str, text: &str) -> Result<(), HostError> {
        Host::write(&mut **self, channel, text)
    }

    fn flush(&mut self, channel: &str) -> Result<(), HostError> {
        Host::flush(&mut **self, channel)
    }

    fn close(&mut self, channel: &str) -> Result<(), HostError> {
        Host::close(&mut **self, channel)
    }

    fn eof(&mut self, channel: &str) -> Result<bool, HostError> {
        Host::eof(&mut **self, channel)
    }

    fn failures(&self) -> u64 {
        Host::failures(&**self)
    }
}
