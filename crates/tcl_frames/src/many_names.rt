//! Many names, which are found by their hashes.
ghost use Rattle.std.specs.Prelude.{◌≡◌, ◌≤◌, ◌+◌, [], Some, None, false, not, length, reverse};
ghost use Rattle.std.specs.Prelude.{slice_get, vec_len, map, IfSome, IfOk, OnOk, OnErr, IsTrue};
ghost use Rattle.std.specs.Prelude.{MatchOption};
ghost use Rattle.std.specs.Borrow.{sem};
ghost use Rattle.std.specs.Map.{lookup, keys_of, remove_entry};
ghost use Rattle.std.specs.Option.{option_map, option_copied, option_copied_mut};
ghost use Rattle.std.specs.Str.{bytes_eq};
ghost use Rattle.std.specs.String.{string_bytes};
ghost use Rattle.std.specs.Vec.{vec_capacity};
ghost use Rattle.indexmap.specs.IndexMap.{insert_entry, insert_all, spare};
ghost use Rattle.tcl_glob.specs.Patterns.{is_match};
ghost use Rattle.tcl_frames.specs.VariableArrays.{unmatched};
ghost use Rattle.tcl_frames.specs.Entries.{lent_entry, named, StandsAt};

use crate::few_names::FewNames;
use crate::variable_name::VariableName;
use indexmap::IndexMap;
use std::alloc::{AllocError, Global};
use std::marker::Model;
use std::mem::replace;
use tcl_glob::matches;
use tcl_text::text::Text;

/// Names that are found by their hashes, which contracts see as their entries in the order of
/// insertion.
#[derive(Drop)]
pub struct ManyNames<V> {
    entries: IndexMap<String, V>,
}

impl<V> Model for ManyNames<V> {
    ghost use Rattle.std.specs.Prelude.{List, ℕ, ◌≡◌};
    ghost use Rattle.tcl_frames.specs.Entries.{named};

    ghost Value = { List (List ℕ × V) };

    ghost view = { λ a. named a.entries.entries };
}

/// Whether a name stands at a place.
fn is_at<V>(entries: &IndexMap<String, V>, place: usize, name: &str) -> bool
    ensures { IsTrue result → StandsAt name.now entries.now.entries place }
{
    match entries.get_index(place) {
        Some((key, _)) => key.as_str() == name,
        None => false,
    }
}

/// The place at which a name stands, in less time where it was found there last.
fn hinted_place<V>(entries: &IndexMap<String, V>, name: &VariableName) -> Option<usize>
    ensures { MatchOption result (lookup (bytes_eq name.now) (named entries.now.entries) ≡ None)
        (λ i. StandsAt name.now entries.now.entries i) }
{
    let hint = name.hint();
    if is_at(entries, hint, name.as_str()) {
        return Some(hint);
    }
    match entries.get_full(name.as_str()) {
        Some((place, _, _)) => {
            name.set_hint(place);
            Some(place)
        }
        None => None,
    }
}

impl<V> ManyNames<V> {
    ghost use Rattle.tcl_frames.specs.Lending.{lends_many};

    /// How many entries it has.
    pub fn len(&self) -> usize
        ensures { result ≡ length self.now }
    {
        self.entries.len()
    }

    /// What a name has. This takes no memory.
    pub fn get(&self, name: &str) -> Option<&V>
        ensures { option_copied result ≡ lookup (bytes_eq name.now) self.now }
    {
        self.entries.get(name)
    }

    /// The entry at a place in the order of insertion, from 0. This takes no memory.
    pub fn entry(&self, index: usize) -> Option<(&str, &V)>
        ensures { option_map lent_entry result ≡ slice_get self.now index }
    {
        match self.entries.get_index(index) {
            Some((name, value)) => Some((name.as_str(), value)),
            None => None,
        }
    }

    /// What a name has, to write. This takes no memory.
    pub fn get_mut(&mut self, name: &str) -> Option<&mut V>
        ensures* writes_back { sem 𝓛 (lends_many V.row self.entry name.now result) }
        ensures value { option_copied_mut result ≡ lookup (bytes_eq name.now) self.old }
    {
        self.entries.get_mut(name)
    }
}

impl<V> ManyNames<V> {
    ghost use Rattle.tcl_frames.specs.Lending.{lends_many};

    /// The place of a name in the order of insertion, from 0, and what it has. This takes no
    /// memory.
    pub fn find(&self, name: &str) -> Option<(usize, &V)>
        ensures place { IfSome result (λ p. slice_get self.now p.0 ≡ Some (name.now, p.1.now)) }
        ensures value { option_map (λ p. p.1.now) result ≡ lookup (bytes_eq name.now) self.now }
    {
        match self.entries.get_full(name) {
            Some((place, _, value)) => Some((place, value)),
            None => None,
        }
    }

    /// What a name has, in less time where it stands where it was found last. This takes no memory.
    #[inline(never)]
    pub fn get_hinted(&self, name: &VariableName) -> Option<&V>
        ensures { option_copied result ≡ lookup (bytes_eq name.now) self.now }
    {
        match hinted_place(&self.entries, name) {
            Some(place) => match self.entries.get_index(place) {
                Some((_, value)) => Some(value),
                None => None,
            },
            None => None,
        }
    }

    /// The same, to write.
    #[inline(never)]
    pub fn get_mut_hinted(&mut self, name: &VariableName) -> Option<&mut V>
        ensures* writes_back { sem 𝓛 (lends_many V.row self.entry name.now result) }
        ensures value { option_copied_mut result ≡ lookup (bytes_eq name.now) self.old }
    {
        match hinted_place(&self.entries, name) {
            Some(place) => self.entries.get_index_mut(place),
            None => None,
        }
    }

    /// What a name has, to write, in less time where the name stands at this place. This takes no
    /// memory.
    pub fn get_mut_near(&mut self, place: usize, name: &str) -> Option<&mut V>
        ensures* writes_back { sem 𝓛 (lends_many V.row self.entry name.now result) }
        ensures value { option_copied_mut result ≡ lookup (bytes_eq name.now) self.old }
    {
        if !is_at(&self.entries, place, name) {
            return self.entries.get_mut(name);
        }
        self.entries.get_index_mut(place)
    }
}

/// Entries with names of their own, the first of them last.
fn keyed<V: Drop>(alloc: Global, entries: Vec<(Text, V)>) -> Result<Vec<(String, V)>, AllocError>
    ensures { IfOk result (λ keyed. reverse (named keyed.items) ≡ entries.items) }
{
    let mut left = entries;
    let mut keyed = Vec::new(alloc);
    'entries: while let Some((name, value)) = left.pop() {
        keyed.push((String::from_str(alloc, name.as_str())?, value))?;
    }
    Ok(keyed)
}

/// Inserts entries, the last of them first, where there is room for them.
fn insert_reserved<V: Drop>(entries: &mut IndexMap<String, V>, keyed: Vec<(String, V)>)
    requires { vec_len keyed ≤ spare entries.old }
    ensures { named entries.new.entries
        ≡ insert_all bytes_eq (named entries.old.entries) (reverse (named keyed.items)) }
{
    let mut left = keyed;
    'entries: while let Some((name, value)) = left.pop() {
        let _ = entries.insert(name, value).unwrap();
    }
}

/// Entries under copies of their names, the first of them last.
fn renamed<V: Drop>(
    names: Vec<String>,
    entries: Vec<(Text, V)>,
    keyed: Vec<(String, V)>,
) -> Vec<(String, V)>
    requires same { map string_bytes names.items ≡ keys_of entries.items }
    requires as_many { vec_len names ≡ vec_len entries }
    requires empty { keyed.items ≡ [] }
    requires room { vec_len entries ≤ vec_capacity keyed }
    ensures entries { reverse (named result.items) ≡ entries.items }
    ensures as_many { vec_len result ≡ vec_len entries }
{
    let mut names = names;
    let mut left = entries;
    let mut keyed = keyed;
    'entries: while let Some((_, value)) = left.pop() {
        let name = names.pop().unwrap();
        let _ = keyed.push((name, value)).unwrap();
    }
    keyed
}

impl<V: Drop> ManyNames<V> {
    /// The names of a few, which is left with none, and room for some more.
    ///
    /// # Errors
    /// Want of memory, which leaves the few as they were.
    fn of_few(alloc: Global, few: &mut FewNames<V>, more: usize) -> Result<ManyNames<V>, AllocError>
        ensures made { IfOk result (λ many. many ≡ few.old) }
        ensures unchanged { OnErr result (few.new ≡ few.old) }
    {
        let names = few.names(alloc)?;
        let keyed = Vec::with_capacity(alloc, few.len())?;
        let mut entries = IndexMap::with_capacity(alloc, few.len().saturating_add(more))?;
        let held = replace(few, FewNames::new(alloc)).into_entries();
        insert_reserved(&mut entries, renamed(names, held, keyed));
        Ok(ManyNames { entries })
    }

    /// The same in a box, whose memory is asked for first.
    ///
    /// # Errors
    /// Want of memory, which leaves the few as they were.
    pub fn boxed(
        alloc: Global,
        few: &mut FewNames<V>,
        more: usize,
    ) -> Result<Box<ManyNames<V>>, AllocError>
        ensures made { IfOk result (λ many. many.value ≡ few.old) }
        ensures unchanged { OnErr result (few.new ≡ few.old) }
    {
        let entries = IndexMap::new(alloc);
        let mut many = Box::new(alloc, ManyNames { entries })?;
        *many = ManyNames::of_few(alloc, few, more)?;
        Ok(many)
    }

    /// Gives a name this value: where it stands, or at the end.
    ///
    /// # Errors
    /// Want of memory, which leaves the map as it was.
    pub fn insert(&mut self, alloc: Global, name: &str, value: V) -> Result<(), AllocError>
        ensures inserted { OnOk result (self.new ≡ insert_entry bytes_eq self.old name.now value) }
        ensures unchanged { OnErr result (self.new ≡ self.old) }
    {
        if let Some(place) = self.entries.get_mut(name) {
            *place = value;
            return Ok(());
        }
        self.insert_new(alloc, name, value)
    }

    /// The same, in less time where the name isn't there yet.
    ///
    /// # Errors
    /// Want of memory, which leaves the map as it was.
    pub fn insert_new(&mut self, alloc: Global, name: &str, value: V) -> Result<(), AllocError>
        ensures inserted { OnOk result (self.new ≡ insert_entry bytes_eq self.old name.now value) }
        ensures unchanged { OnErr result (self.new ≡ self.old) }
    {
        let name = String::from_str(alloc, name)?;
        self.entries.insert(name, value)?;
        Ok(())
    }

    /// Gives each of these names its value, from the first on.
    ///
    /// # Errors
    /// Want of memory, which leaves the map as it was.
    pub fn insert_all(&mut self, alloc: Global, entries: Vec<(Text, V)>) -> Result<(), AllocError>
        ensures inserted { OnOk result (self.new ≡ insert_all bytes_eq self.old entries.items) }
        ensures unchanged { OnErr result (self.new ≡ self.old) }
    {
        let keyed = keyed(alloc, entries)?;
        self.entries.reserve(keyed.len())?;
        insert_reserved(&mut self.entries, keyed);
        Ok(())
    }

    /// Takes the names out that a pattern matches, in time linear in their number. This takes no
    /// memory.
    pub fn remove_matching(&mut self, pattern: &str)
        ensures { self.new ≡ unmatched pattern.now self.old }
    {
        self.entries.retain(
            |name: &String, value: &mut V| -> bool
                ensures { (result ≡ not (is_match false pattern.entry.now (string_bytes name.now)))
                    × (value.new ≡ value.old) }
            { !matches(pattern, name.as_str(), false) },
        );
    }

    /// Takes a name out, if it is there. This takes no memory.
    pub fn remove(&mut self, name: &str)
        ensures { self.new ≡ remove_entry (bytes_eq name.now) self.old }
    {
        let _ = self.entries.shift_remove(name);
    }
}

impl<V: Clone> Clone for ManyNames<V> {
    ghost use Rattle.std.specs.List.{AllZip};

    ghost is_clone = { λ m n. AllZip (λ p q. (q.0 ≡ p.0) × V.is_clone p.1 q.1) m n };

    fn clone(&self) -> Result<ManyNames<V>, AllocError> {
        let entries = self.entries.clone()?;
        Ok(ManyNames { entries })
    }
}
