//! A few names, which are looked through one by one.
ghost use Rattle.std.specs.Prelude.{◌≡◌, ◌<◌, [], Some, None, MatchOption, IfSome, IfOk, OnOk};
ghost use Rattle.std.specs.Prelude.{OnErr, length, map, not, slice_get, vec_len, false, IsTrue};
ghost use Rattle.std.specs.Prelude.{is_some};
ghost use Rattle.std.specs.Borrow.{sem};
ghost use Rattle.std.specs.List.{IsDistinct};
ghost use Rattle.std.specs.Map.{lookup, keys_of, remove_entry};
ghost use Rattle.std.specs.Option.{option_map, option_copied, option_copied_mut};
ghost use Rattle.std.specs.Str.{bytes_eq};
ghost use Rattle.std.specs.String.{string_bytes};
ghost use Rattle.indexmap.specs.IndexMap.{insert_entry};
ghost use Rattle.tcl_glob.specs.Patterns.{is_match};
ghost use Rattle.tcl_frames.specs.VariableArrays.{unmatched};
ghost use Rattle.tcl_frames.specs.Entries.{lent_entry, Holds};

use crate::variable_name::VariableName;
use std::alloc::{AllocError, Global};
use std::marker::Model;
use tcl_glob::matches;
use tcl_text::text::Text;

/// Names that are looked through one by one, which contracts see as their entries in the order of
/// insertion. No name stands twice.
#[derive(Drop)]
pub struct FewNames<V> {
    entries: Vec<(Text, V)>,
}

impl<V> Model for FewNames<V> {
    ghost use Rattle.std.specs.Prelude.{List, ℕ};
    ghost use Rattle.std.specs.List.{IsDistinct};
    ghost use Rattle.std.specs.Map.{keys_of};
    ghost use Rattle.std.specs.Str.{bytes_eq};

    ghost Value = { List (List ℕ × V) };

    ghost view = { λ a. a.entries.items };

    ghost invariant = { λ a. IsDistinct bytes_eq (keys_of a.entries.items) };
}

/// The place at which a name stands, from 0.
fn place_of<V>(entries: &[(Text, V)], name: &str) -> Option<usize>
    ensures { MatchOption result (lookup (bytes_eq name.now) entries.now ≡ None)
        (λ i. Holds name.now entries.now i) }
{
    'entries: for index in 0..entries.len() {
        if entries[index].0.as_str() == name {
            return Some(index);
        }
    }
    None
}

/// The same, in less time where it is this place.
fn place_near<V>(entries: &[(Text, V)], place: usize, name: &str) -> Option<usize>
    ensures { MatchOption result (lookup (bytes_eq name.now) entries.now ≡ None)
        (λ i. Holds name.now entries.now i) }
{
    if place < entries.len() && entries[place].0.as_str() == name {
        return Some(place);
    }
    place_of(entries, name)
}

/// Whether a name stands at a place. First bytes are compared as a number.
#[inline(always)]
fn stands_at<V>(entries: &[(Text, V)], place: usize, name: &Text) -> bool
    ensures { IsTrue result → Holds name.now entries.now place }
{
    place < entries.len() && entries[place].0 == *name
}

/// Whether a name of at most eight bytes stands at a place, told without a look at longer ones.
#[inline(always)]
fn stands_short_at<V>(entries: &[(Text, V)], place: usize, name: &Text) -> bool
    ensures { IsTrue result → Holds name.now entries.now place }
{
    place < entries.len() && entries[place].0.is_same_short(name)
}

/// The place at which a text stands as a name, from 0. First bytes are compared as a number.
#[inline(always)]
fn place_of_text<V>(entries: &[(Text, V)], name: &Text) -> Option<usize>
    ensures { MatchOption result (lookup (bytes_eq name.now) entries.now ≡ None)
        (λ i. Holds name.now entries.now i) }
{
    'entries: for index in 0..entries.len() {
        if entries[index].0 == *name {
            return Some(index);
        }
    }
    None
}

/// The place at which a name stands, from 0, which the name keeps. It isn't inlined, so that a name
/// that stands where it was found last costs little.
#[inline(never)]
fn sought_place<V>(entries: &[(Text, V)], name: &VariableName) -> Option<usize>
    ensures { MatchOption result (lookup (bytes_eq name.now) entries.now ≡ None)
        (λ i. Holds name.now entries.now i) }
{
    match place_of_text(entries, name.text()) {
        Some(place) => {
            name.set_hint(place);
            Some(place)
        }
        None => None,
    }
}

/// The same, in less time where it is the place at which the name was found last.
#[inline(always)]
fn hinted_place<V>(entries: &[(Text, V)], name: &VariableName) -> Option<usize>
    ensures { MatchOption result (lookup (bytes_eq name.now) entries.now ≡ None)
        (λ i. Holds name.now entries.now i) }
{
    let place = name.hint();
    if stands_at(entries, place, name.text()) {
        return Some(place);
    }
    sought_place(entries, name)
}

impl<V> FewNames<V> {
    /// No names, which take no memory.
    pub fn new(alloc: Global) -> FewNames<V>
        ensures { result ≡ [] }
    {
        FewNames {
            entries: Vec::new(alloc),
        }
    }

    /// How many entries there are.
    pub fn len(&self) -> usize
        ensures { result ≡ length self.now }
    {
        self.entries.len()
    }

    /// What a name has.
    pub fn get(&self, name: &str) -> Option<&V>
        ensures { option_copied result ≡ lookup (bytes_eq name.now) self.now }
    {
        match place_of(self.entries.as_slice(), name) {
            Some(place) => Some(&self.entries[place].1),
            None => None,
        }
    }

    /// The same, in less time where the name stands where it was found last.
    pub fn get_hinted(&self, name: &VariableName) -> Option<&V>
        ensures { option_copied result ≡ lookup (bytes_eq name.now) self.now }
    {
        match hinted_place(self.entries.as_slice(), name) {
            Some(place) => Some(&self.entries[place].1),
            None => None,
        }
    }

    /// Whether a text is one of the names.
    #[inline(always)]
    pub fn has(&self, name: &Text) -> bool
        ensures { result ≡ is_some (lookup (bytes_eq name.now) self.now) }
    {
        place_of_text(self.entries.as_slice(), name).is_some()
    }

    /// Whether a name of at most eight bytes stands where it was found last. A hint, of which
    /// contracts say nothing.
    #[inline(always)]
    pub(crate) fn is_short_near(&self, name: &VariableName) -> bool {
        stands_short_at(self.entries.as_slice(), name.hint(), name.text())
    }

    /// What a name of at most eight bytes has, where it stands where it was found last, and
    /// otherwise none: no other names are looked through.
    #[inline(always)]
    pub fn get_short(&self, name: &VariableName) -> Option<&V>
        ensures { IfSome result (λ v. lookup (bytes_eq name.now) self.now ≡ Some v.now) }
    {
        let place = name.hint();
        if stands_short_at(self.entries.as_slice(), place, name.text()) {
            return Some(&self.entries[place].1);
        }
        None
    }

    /// The place of a name in the order of insertion, from 0, and what it has.
    pub fn find(&self, name: &str) -> Option<(usize, &V)>
        ensures place { IfSome result (λ p. slice_get self.now p.0 ≡ Some (name.now, p.1.now)) }
        ensures value { option_map (λ p. p.1.now) result ≡ lookup (bytes_eq name.now) self.now }
    {
        match place_of(self.entries.as_slice(), name) {
            Some(place) => Some((place, &self.entries[place].1)),
            None => None,
        }
    }

    /// The entry at a place in the order of insertion, from 0.
    pub fn entry(&self, index: usize) -> Option<(&str, &V)>
        ensures { option_map lent_entry result ≡ slice_get self.now index }
    {
        if self.entries.len() <= index {
            return None;
        }
        let entry = &self.entries[index];
        Some((entry.0.as_str(), &entry.1))
    }

    /// Copies of the names, in the order of insertion.
    pub fn names(&self, alloc: Global) -> Result<Vec<String>, AllocError>
        ensures names { IfOk result (λ names. map string_bytes names.items ≡ keys_of self.now) }
        ensures as_many { IfOk result (λ names. vec_len names ≡ length self.now) }
    {
        let mut names = Vec::with_capacity(alloc, self.entries.len())?;
        'names: for index in 0..self.entries.len() {
            names.push(String::from_str(alloc, self.entries[index].0.as_str())?)?;
        }
        Ok(names)
    }

    /// The entries, no two of which have the same name.
    pub fn into_entries(self) -> Vec<(Text, V)>
        ensures entries { result.items ≡ self }
        ensures as_many { vec_len result ≡ length self }
        ensures distinct { IsDistinct bytes_eq (keys_of self) }
    {
        self.entries
    }
}

impl<V> FewNames<V> {
    ghost use Rattle.tcl_frames.specs.Lending.{lends_few};

    /// What a name has, to write.
    pub fn get_mut(&mut self, name: &str) -> Option<&mut V>
        ensures* writes_back { sem 𝓛 (lends_few V.row self.entry name.now result) }
        ensures value { option_copied_mut result ≡ lookup (bytes_eq name.now) self.old }
    {
        match place_of(self.entries.as_slice(), name) {
            Some(place) => match self.entries.get_mut(place) {
                Some(entry) => Some(&mut entry.1),
                None => None,
            },
            None => None,
        }
    }

    /// The same, in less time where the name stands at this place.
    pub fn get_mut_near(&mut self, place: usize, name: &str) -> Option<&mut V>
        ensures* writes_back { sem 𝓛 (lends_few V.row self.entry name.now result) }
        ensures value { option_copied_mut result ≡ lookup (bytes_eq name.now) self.old }
    {
        match place_near(self.entries.as_slice(), place, name) {
            Some(place) => match self.entries.get_mut(place) {
                Some(entry) => Some(&mut entry.1),
                None => None,
            },
            None => None,
        }
    }

    /// What a name of at most eight bytes has, to write, where it stands where it was found last,
    /// and otherwise none: no other names are looked through.
    #[inline(always)]
    pub fn get_mut_short(&mut self, name: &VariableName) -> Option<&mut V>
        ensures* writes_back { sem 𝓛 (lends_few V.row self.entry name.now result) }
        ensures value { IfSome result (λ v. lookup (bytes_eq name.now) self.old ≡ Some v.now) }
    {
        let place = name.hint();
        if stands_short_at(self.entries.as_slice(), place, name.text()) {
            return match self.entries.get_mut(place) {
                Some(entry) => Some(&mut entry.1),
                None => None,
            };
        }
        None
    }

    /// The same, in less time where the name stands where it was found last.
    pub fn get_mut_hinted(&mut self, name: &VariableName) -> Option<&mut V>
        ensures* writes_back { sem 𝓛 (lends_few V.row self.entry name.now result) }
        ensures value { option_copied_mut result ≡ lookup (bytes_eq name.now) self.old }
    {
        match hinted_place(self.entries.as_slice(), name) {
            Some(place) => match self.entries.get_mut(place) {
                Some(entry) => Some(&mut entry.1),
                None => None,
            },
            None => None,
        }
    }
}

impl<V: Drop> FewNames<V> {
    /// Adds a name that isn't there, at the end.
    ///
    /// # Errors
    /// Want of memory, which leaves the names as they were.
    #[inline(always)]
    pub fn push(&mut self, name: Text, value: V) -> Result<(), AllocError>
        requires { lookup (bytes_eq name) self.old ≡ None }
        ensures pushed { OnOk result (self.new ≡ insert_entry bytes_eq self.old name value) }
        ensures unchanged { OnErr result (self.new ≡ self.old) }
    {
        self.entries.push((name, value))?;
        Ok(())
    }

    /// Gives a name this value: where it stands, or at the end.
    ///
    /// # Errors
    /// Want of memory, which leaves the names as they were.
    #[inline(always)]
    pub fn insert(&mut self, name: Text, value: V) -> Result<(), AllocError>
        ensures inserted { OnOk result (self.new ≡ insert_entry bytes_eq self.old name value) }
        ensures unchanged { OnErr result (self.new ≡ self.old) }
    {
        if let Some(place) = self.get_mut(name.as_str()) {
            *place = value;
            return Ok(());
        }
        self.push(name, value)
    }

    /// Takes all names out. Their room is kept.
    pub fn clear(&mut self)
        ensures { self.new ≡ [] }
    {
        self.entries.clear();
    }

    /// Takes the names out that a pattern matches.
    pub fn remove_matching(&mut self, pattern: &str)
        ensures { self.new ≡ unmatched pattern.now self.old }
    {
        self.entries.retain(
            |entry: &(Text, V)| -> bool
                ensures { result ≡ not (is_match false pattern.entry.now entry.now.0) }
            { !matches(pattern, entry.0.as_str(), false) },
        );
    }

    /// Takes a name out, if it is there.
    pub fn remove(&mut self, name: &str)
        ensures { self.new ≡ remove_entry (bytes_eq name.now) self.old }
    {
        match place_of(self.entries.as_slice(), name) {
            Some(place) => {
                let _ = self.entries.remove(place);
            }
            None => {}
        }
    }
}

impl<V: Clone> Clone for FewNames<V> {
    ghost use Rattle.std.specs.List.{AllZip};

    ghost is_clone = { λ m n. AllZip (λ p q. (q.0 ≡ p.0) × V.is_clone p.1 q.1) m n };

    fn clone(&self) -> Result<FewNames<V>, AllocError> {
        let entries = self.entries.clone()?;
        Ok(FewNames { entries })
    }
}
