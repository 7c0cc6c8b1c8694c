//! Files in memory.
ghost use Rattle.std.specs.Prelude.{◌≡◌, [], not, IsSome, IfOk, OnOk, OnErr};
ghost use Rattle.std.specs.Option.{option_map};
ghost use Rattle.std.specs.String.{string_bytes};
ghost use Rattle.std.specs.FinMap as map;
ghost use Rattle.tcl_host.specs.Files.{content_of, appended, made};

use crate::bytes::Bytes;
use indexmap::IndexMap;
use std::alloc::{AllocError, Global};
use std::marker::Model;

/// Files by their names.
#[derive(Drop)]
pub struct Files {
    entries: IndexMap<String, Bytes>,
}

impl Model for Files {
    ghost use Rattle.std.specs.Prelude.{List, ℕ};
    ghost use Rattle.std.specs.Coded.{coded_ℕ, coded_list};
    ghost use Rattle.std.specs.FinMap as map;
    ghost use Rattle.tcl_host.specs.Names.{Named, by_name};

    ghost Value = { Named (List ℕ) };

    ghost coded = { map.code (coded_list coded_ℕ) (coded_list coded_ℕ) };

    ghost view = { λ a. by_name a.entries };
}

impl Files {
    /// No files.
    pub fn new(alloc: Global) -> Files
        ensures { result ≡ map.empty }
    {
        Files {
            entries: IndexMap::new(alloc),
        }
    }

    /// What a file holds, where it is there.
    pub fn get(&self, name: &str) -> Option<&[u8]>
        ensures { option_map (λ bytes. bytes.now) result ≡ map.get self.now name.now }
    {
        let bytes = self.entries.get(name)?;
        Some(bytes.as_slice())
    }

    /// What a file holds; nothing where it is missing.
    pub fn content(&self, name: &str) -> &[u8]
        ensures { result.now ≡ content_of self.now name.now }
    {
        match self.get(name) {
            Some(bytes) => bytes,
            None => &[],
        }
    }

    /// Puts a file in the place of any that has its name.
    ///
    /// # Errors
    /// Want of memory, which leaves the files as they were.
    pub fn put(&mut self, name: String, bytes: Bytes) -> Result<(), AllocError>
        ensures put { OnOk result (self.new ≡ map.insert self.old (string_bytes name) bytes) }
        ensures unchanged { OnErr result (self.new ≡ self.old) }
    {
        self.entries.insert(name, bytes)?;
        Ok(())
    }

    /// Makes an empty file where the name is missing, and says whether it was.
    ///
    /// # Errors
    /// Want of memory, which leaves the files as they were.
    pub fn make(&mut self, alloc: Global, name: &str) -> Result<bool, AllocError>
        ensures missing { IfOk result
            (λ was_missing. was_missing ≡ not (map.contains_key self.old name.now)) }
        ensures made { OnOk result (self.new ≡ made self.old name.now) }
        ensures unchanged { OnErr result (self.new ≡ self.old) }
    {
        if self.get(name).is_some() {
            return Ok(false);
        }
        let key = String::from_str(alloc, name)?;
        self.put(key, Bytes::new(alloc))?;
        Ok(true)
    }

    /// Adds bytes at the end of a file that is there, in place.
    ///
    /// # Errors
    /// Want of memory, which leaves the files as they were.
    pub fn append(&mut self, name: &str, more: &[u8]) -> Result<(), AllocError>
        ensures appended { OnOk result (self.new ≡ appended self.old name.now more.now) }
        ensures unchanged { OnErr result (self.new ≡ self.old) }
    {
        let Some(bytes) = self.entries.get_mut(name) else {
            return Ok(());
        };
        bytes.append(more)
    }

    /// Empties a file.
    pub fn clear(&mut self, name: &str)
        requires { IsSome (map.get self.old name.now) }
        ensures { self.new ≡ map.insert self.old name.now [] }
    {
        let Some(bytes) = self.entries.get_mut(name) else {
            unreachable!()
        };
        bytes.clear();
    }

    /// Takes a file away.
    pub fn remove(&mut self, name: &str)
        ensures { self.new ≡ map.remove self.old name.now }
    {
        let _ = self.entries.swap_remove(name);
    }
}
