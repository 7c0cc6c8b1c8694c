//! Maps from names, in the order of insertion.
ghost use Rattle.std.specs.Prelude.{◌≡◌, [], Some, None, IfSome, IfOk, OnOk, OnErr};
ghost use Rattle.std.specs.Prelude.{is_some, length, slice_get, IsTrue};
ghost use Rattle.std.specs.Borrow.{sem};
ghost use Rattle.std.specs.Map.{lookup, remove_entry};
ghost use Rattle.std.specs.Option.{option_map, option_copied, option_copied_mut};
ghost use Rattle.std.specs.Str.{bytes_eq};
ghost use Rattle.indexmap.specs.IndexMap.{insert_entry, insert_all};
ghost use Rattle.tcl_frames.specs.VariableArrays.{unmatched};
ghost use Rattle.tcl_frames.specs.Entries.{lent_entry};

use crate::few_names::FewNames;
use crate::many_names::ManyNames;
use crate::variable_name::VariableName;
use std::alloc::{AllocError, Global};
use std::marker::Model;
use tcl_text::text::Text;

/// The most names that are looked through one by one. A map of more finds them by their hashes.
const MOST_FEW: usize = 8;

/// A map from names, which contracts see as its entries in the order of insertion.
pub struct NameMap<V> {
    entries: Entries<V>,
}

impl<V: Drop> Drop for NameMap<V> {
    fn drop(self) {
        let NameMap { entries: _entries } = self;
    }
}

/// How the entries are kept.
#[derive(Drop)]
enum Entries<V> {
    Few(FewNames<V>),
    Many(Box<ManyNames<V>>),
}

impl<V> Model for NameMap<V> {
    ghost use Rattle.std.specs.Prelude.{List, ℕ};
    ghost use Rattle.tcl_frames.specs.Kept.{kept};

    ghost Value = { List (List ℕ × V) };

    ghost view = { λ a. kept a.entries };
}

impl<V> NameMap<V> {
    /// The empty map, which takes no memory.
    pub fn new(alloc: Global) -> NameMap<V>
        ensures { result ≡ [] }
    {
        NameMap {
            entries: Entries::Few(FewNames::new(alloc)),
        }
    }

    /// How many entries it has.
    pub fn len(&self) -> usize
        ensures { result ≡ length self.now }
    {
        match &self.entries {
            Entries::Few(few) => few.len(),
            Entries::Many(many) => many.len(),
        }
    }

    /// What a name has. This takes no memory.
    pub fn get(&self, name: &str) -> Option<&V>
        ensures { option_copied result ≡ lookup (bytes_eq name.now) self.now }
    {
        match &self.entries {
            Entries::Few(few) => few.get(name),
            Entries::Many(many) => many.get(name),
        }
    }

    /// The same, in less time where the name stands where it was found last.
    pub fn get_hinted(&self, name: &VariableName) -> Option<&V>
        ensures { option_copied result ≡ lookup (bytes_eq name.now) self.now }
    {
        match &self.entries {
            Entries::Few(few) => few.get_hinted(name),
            Entries::Many(many) => many.get_hinted(name),
        }
    }

    /// Whether a text is one of the names. This takes no memory.
    #[inline(always)]
    pub fn has(&self, name: &Text) -> bool
        ensures { result ≡ is_some (lookup (bytes_eq name.now) self.now) }
    {
        match &self.entries {
            Entries::Few(few) => few.has(name),
            Entries::Many(many) => many.get(name.as_str()).is_some(),
        }
    }

    /// Whether a name of at most eight bytes stands where it was found last, among few. A hint, of
    /// which contracts say nothing.
    #[inline(always)]
    pub(crate) fn is_short_near(&self, name: &VariableName) -> bool {
        match &self.entries {
            Entries::Few(few) => few.is_short_near(name),
            Entries::Many(_) => false,
        }
    }

    /// What a name of at most eight bytes has, where it stands where it was found last, among few,
    /// and otherwise none.
    #[inline(always)]
    pub fn get_short(&self, name: &VariableName) -> Option<&V>
        ensures { IfSome result (λ v. lookup (bytes_eq name.now) self.now ≡ Some v.now) }
    {
        match &self.entries {
            Entries::Few(few) => few.get_short(name),
            Entries::Many(_) => None,
        }
    }

    /// The entry at a place in the order of insertion, from 0. This takes no memory.
    pub fn entry(&self, index: usize) -> Option<(&str, &V)>
        ensures { option_map lent_entry result ≡ slice_get self.now index }
    {
        match &self.entries {
            Entries::Few(few) => few.entry(index),
            Entries::Many(many) => many.entry(index),
        }
    }

    /// The place of a name in the order of insertion, from 0, and what it has. This takes no
    /// memory.
    pub fn find(&self, name: &str) -> Option<(usize, &V)>
        ensures place { IfSome result (λ p. slice_get self.now p.0 ≡ Some (name.now, p.1.now)) }
        ensures value { option_map (λ p. p.1.now) result ≡ lookup (bytes_eq name.now) self.now }
    {
        match &self.entries {
            Entries::Few(few) => few.find(name),
            Entries::Many(many) => many.find(name),
        }
    }
}

impl<V> NameMap<V> {
    ghost use Rattle.tcl_frames.specs.Lending.{lends_named};

    /// What a name has, to write. This takes no memory.
    pub fn get_mut(&mut self, name: &str) -> Option<&mut V>
        ensures* writes_back { sem 𝓛 (lends_named V.row self.entry name.now result) }
        ensures value { option_copied_mut result ≡ lookup (bytes_eq name.now) self.old }
    {
        match &mut self.entries {
            Entries::Few(few) => few.get_mut(name),
            Entries::Many(many) => many.get_mut(name),
        }
    }

    /// What a name has, to write, in less time where the name stands at this place. This takes no
    /// memory.
    pub fn get_mut_near(&mut self, place: usize, name: &str) -> Option<&mut V>
        ensures* writes_back { sem 𝓛 (lends_named V.row self.entry name.now result) }
        ensures value { option_copied_mut result ≡ lookup (bytes_eq name.now) self.old }
    {
        match &mut self.entries {
            Entries::Few(few) => few.get_mut_near(place, name),
            Entries::Many(many) => many.get_mut_near(place, name),
        }
    }

    /// What a name of at most eight bytes has, to write, where it stands where it was found last,
    /// among few, and otherwise none.
    #[inline(always)]
    pub fn get_mut_short(&mut self, name: &VariableName) -> Option<&mut V>
        ensures* writes_back { sem 𝓛 (lends_named V.row self.entry name.now result) }
        ensures value { IfSome result (λ v. lookup (bytes_eq name.now) self.old ≡ Some v.now) }
    {
        match &mut self.entries {
            Entries::Few(few) => few.get_mut_short(name),
            Entries::Many(_) => None,
        }
    }

    /// What a name has, to write, in less time where the name stands where it was found last. This
    /// takes no memory.
    pub fn get_mut_hinted(&mut self, name: &VariableName) -> Option<&mut V>
        ensures* writes_back { sem 𝓛 (lends_named V.row self.entry name.now result) }
        ensures value { option_copied_mut result ≡ lookup (bytes_eq name.now) self.old }
    {
        match &mut self.entries {
            Entries::Few(few) => few.get_mut_hinted(name),
            Entries::Many(many) => many.get_mut_hinted(name),
        }
    }
}

impl<V: Drop> NameMap<V> {
    /// Goes over to hashes where one name more would be too many to look through.
    #[inline(always)]
    fn make_room(&mut self, alloc: Global) -> Result<(), AllocError>
        ensures { self.new ≡ self.old }
    {
        match &mut self.entries {
            Entries::Many(_) => Ok(()),
            Entries::Few(few) => {
                if few.len() < MOST_FEW {
                    return Ok(());
                }
                let many = ManyNames::boxed(alloc, few, 1)?;
                self.entries = Entries::Many(many);
                Ok(())
            }
        }
    }

    /// Gives a name this value: where it stands, or at the end.
    ///
    /// # Errors
    /// Want of memory, which leaves the map as it was.
    pub fn insert(&mut self, alloc: Global, name: &str, value: V) -> Result<(), AllocError>
        ensures inserted { OnOk result (self.new ≡ insert_entry bytes_eq self.old name.now value) }
        ensures unchanged { OnErr result (self.new ≡ self.old) }
    {
        if let Some(place) = self.get_mut(name) {
            *place = value;
            return Ok(());
        }
        self.insert_new(alloc, name, value)
    }

    /// The same, in less time where the name isn't there yet.
    ///
    /// # Errors
    /// Want of memory, which leaves the map as it was.
    pub fn insert_new(&mut self, alloc: Global, name: &str, value: V) -> Result<(), AllocError>
        ensures inserted { OnOk result (self.new ≡ insert_entry bytes_eq self.old name.now value) }
        ensures unchanged { OnErr result (self.new ≡ self.old) }
    {
        self.make_room(alloc)?;
        match &mut self.entries {
            Entries::Few(few) => few.insert(Text::new(alloc, name)?, value),
            Entries::Many(many) => many.insert_new(alloc, name, value),
        }
    }

    /// The same for a name whose text is shared where there are few names, so that its bytes aren't
    /// copied.
    ///
    /// # Errors
    /// Want of memory, which leaves the map as it was.
    #[inline(always)]
    pub fn insert_shared(&mut self, alloc: Global, name: &Text, value: V) -> Result<(), AllocError>
        ensures inserted { OnOk result (self.new ≡ insert_entry bytes_eq self.old name.now value) }
        ensures unchanged { OnErr result (self.new ≡ self.old) }
    {
        self.make_room(alloc)?;
        match &mut self.entries {
            Entries::Few(few) => few.insert(name.clone()?, value),
            Entries::Many(many) => many.insert_new(alloc, name.as_str(), value),
        }
    }

    /// The same for a name that isn't there: few names aren't looked through.
    ///
    /// # Errors
    /// Want of memory, which leaves the map as it was.
    pub fn insert_absent(&mut self, alloc: Global, name: &Text, value: V) -> Result<(), AllocError>
        requires { lookup (bytes_eq name.now) self.old ≡ None }
        ensures inserted { OnOk result (self.new ≡ insert_entry bytes_eq self.old name.now value) }
        ensures unchanged { OnErr result (self.new ≡ self.old) }
    {
        self.make_room(alloc)?;
        match &mut self.entries {
            Entries::Few(few) => few.push(name.clone()?, value),
            Entries::Many(many) => many.insert_new(alloc, name.as_str(), value),
        }
    }

    /// Gives each of these names its value, from the first on.
    ///
    /// # Errors
    /// Want of memory, which leaves the map as it was.
    pub fn insert_all(&mut self, alloc: Global, entries: Vec<(Text, V)>) -> Result<(), AllocError>
        ensures inserted { OnOk result (self.new ≡ insert_all bytes_eq self.old entries.items) }
        ensures unchanged { OnErr result (self.new ≡ self.old) }
    {
        match &mut self.entries {
            Entries::Many(many) => many.insert_all(alloc, entries),
            Entries::Few(few) => {
                let mut many = ManyNames::boxed(alloc, few, entries.len())?;
                let inserted = many.insert_all(alloc, entries);
                self.entries = Entries::Many(many);
                inserted
            }
        }
    }

    /// Takes all names out, and keeps their room, where they are few. Tells whether they were. This
    /// takes no memory.
    #[inline(always)]
    pub fn clear_few(&mut self) -> bool
        ensures cleared { IsTrue result → self.new ≡ [] }
    {
        match &mut self.entries {
            Entries::Few(few) => {
                few.clear();
                true
            }
            Entries::Many(_) => false,
        }
    }

    /// Takes the names out that a pattern matches, in time linear in their number. This takes no
    /// memory.
    pub fn remove_matching(&mut self, pattern: &str)
        ensures { self.new ≡ unmatched pattern.now self.old }
    {
        match &mut self.entries {
            Entries::Few(few) => few.remove_matching(pattern),
            Entries::Many(many) => many.remove_matching(pattern),
        }
    }

    /// Takes a name out, if it is there. This takes no memory.
    pub fn remove(&mut self, name: &str)
        ensures { self.new ≡ remove_entry (bytes_eq name.now) self.old }
    {
        match &mut self.entries {
            Entries::Few(few) => few.remove(name),
            Entries::Many(many) => many.remove(name),
        }
    }
}

impl<V: Clone> Clone for NameMap<V> {
    ghost use Rattle.std.specs.List.{AllZip};

    ghost is_clone = { λ m n. AllZip (λ p q. (q.0 ≡ p.0) × V.is_clone p.1 q.1) m n };

    fn clone(&self) -> Result<NameMap<V>, AllocError> {
        match &self.entries {
            Entries::Few(few) => Ok(NameMap {
                entries: Entries::Few(few.clone()?),
            }),
            Entries::Many(many) => Ok(NameMap {
                entries: Entries::Many(many.clone()?),
            }),
        }
    }
}
