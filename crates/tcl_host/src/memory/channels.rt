//! Open channels in memory.
ghost use Rattle.std.specs.Prelude.{◌≡◌, ◌+◌, ◌^◌, ◌<◌, OnOk, OnErr, IfSome, IsSome, is_some};
ghost use Rattle.std.specs.Bool.{OnTrue, OnFalse};
ghost use Rattle.std.specs.Option.{option_copied, ForSome};
ghost use Rattle.std.specs.String.{string_bytes};
ghost use Rattle.std.specs.FinMap as map;
ghost use Rattle.tcl_host.specs.Channels.{advanced};

use crate::memory::channel::Channel;
use indexmap::IndexMap;
use std::alloc::{AllocError, Global};
use std::marker::Model;

/// Open channels by their names.
#[derive(Drop)]
pub struct Channels {
    entries: IndexMap<String, Channel>,
}

impl Model for Channels {
    ghost use Rattle.std.specs.Prelude.{List, ℕ};
    ghost use Rattle.std.specs.Coded.{coded_ℕ, coded_list};
    ghost use Rattle.std.specs.FinMap as map;
    ghost use Rattle.tcl_host.specs.Names.{Named, by_name};
    ghost use Rattle.tcl_host.specs.declared.memory.channel.Channel.{Channel};
    ghost use Rattle.tcl_host.specs.Channels.{channel_code};

    ghost Value = { Named Channel };

    ghost coded = { map.code (coded_list coded_ℕ) channel_code };

    ghost view = { λ a. by_name a.entries };
}

impl Channels {
    /// No channels.
    pub fn new(alloc: Global) -> Channels
        ensures { result ≡ map.empty }
    {
        Channels {
            entries: IndexMap::new(alloc),
        }
    }

    /// The channel of a name.
    pub fn get(&self, name: &str) -> Option<&Channel>
        ensures { option_copied result ≡ map.get self.now name.now }
    {
        self.entries.get(name)
    }

    /// Puts a channel in the place of any that has its name.
    ///
    /// # Errors
    /// Want of memory, which leaves the channels as they were.
    pub fn insert(&mut self, name: String, channel: Channel) -> Result<(), AllocError>
        ensures put { OnOk result (self.new ≡ map.insert self.old (string_bytes name) channel) }
        ensures unchanged { OnErr result (self.new ≡ self.old) }
    {
        self.entries.insert(name, channel)?;
        Ok(())
    }

    /// Takes note of a read of so many bytes.
    pub fn advance(&mut self, name: &str, count: usize, ended: bool)
        requires there { IsSome (map.get self.old name.now) }
        requires fits { ForSome (map.get self.old name.now)
            (λ channel. channel.place + count < 2 ^ 64) }
        ensures { IfSome (map.get self.old name.now)
            (λ channel. self.new ≡ map.insert self.old name.now (advanced channel count ended)) }
    {
        let Some(channel) = self.entries.get_mut(name) else {
            unreachable!()
        };
        channel.place += count;
        channel.ended = ended;
    }

    /// Takes a channel out, and says whether it was there.
    pub fn remove(&mut self, name: &str) -> bool
        ensures there { result ≡ is_some (map.get self.old name.now) }
        ensures taken { OnTrue result (self.new ≡ map.remove self.old name.now) }
        ensures unchanged { OnFalse result (self.new ≡ self.old) }
    {
        self.entries.swap_remove(name).is_some()
    }
}
