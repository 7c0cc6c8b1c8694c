//! What is kept under numbers.
ghost use Rattle.std.specs.Prelude.{◌≡◌, ℕ, None, IfNone, IfOk, OnErr};
ghost use Rattle.std.specs.Option.{option_copied};
ghost use Rattle.tcl_serve.specs.Numbering.{Adds, IsKept, Puts, kept_at};

use std::alloc::{AllocError, Global};
use std::collections::BTreeMap;

/// Things that are kept under numbers, from 1 on. No number is given twice.
pub struct Numbered<T> {
    // the number that was given last
    last: u64,
    /// What is kept.
    pub held: BTreeMap<u64, T>,
}

impl<T: Drop> Drop for Numbered<T> {
    fn drop(self) {
        let Numbered {
            last: _,
            held: _held,
        } = self;
    }
}

impl<T: Drop> Numbered<T> {
    /// Nothing.
    pub fn new(alloc: Global) -> Numbered<T>
        ensures last { result.last ≡ 0 }
        ensures empty { (k : ℕ) → kept_at result k ≡ None }
    {
        Numbered {
            last: 0,
            held: BTreeMap::new(alloc),
        }
    }

    /// Keeps a thing, under the next number.
    ///
    /// # Errors
    /// Want of memory, which changes nothing.
    pub fn add(&mut self, thing: T) -> Result<u64, AllocError>
        ensures adds { IfOk result (λ number. Adds self.old number thing self.new) }
        ensures unchanged { OnErr result (IsKept self.old self.new) }
    {
        if self.last == u64::MAX {
            // So many things fit no memory.
            return Err(AllocError);
        }
        let number = self.last + 1;
        self.held.insert(number, thing)?;
        self.last = number;
        Ok(number)
    }

    /// What is kept under a number.
    pub fn get(&self, number: u64) -> Option<&T>
        ensures { option_copied result ≡ kept_at self.now number }
    {
        self.held.get(&number)
    }

    /// Takes out what is kept under a number.
    pub fn remove(&mut self, number: u64) -> Option<T>
        ensures taken { result ≡ kept_at self.old number }
        ensures puts { Puts self.old number None self.new }
        ensures unchanged { IfNone result (IsKept self.old self.new) }
    {
        self.held.remove(&number)
    }
}
