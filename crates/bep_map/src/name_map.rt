//! A map from names to values, over a `BTreeMap`.
ghost use Rattle.std.specs.Prelude.{◌≡◌, IfOk, IfErr, OnOk, OnErr, Some, None};
ghost use Rattle.std.specs.Option.{option_copied, option_copied_mut};
ghost use Rattle.std.specs.Borrow.{LendsIf, sem};
ghost use Rattle.std.specs.FinMap as map;
ghost use Rattle.bep_map.specs.contracts.name_map.NameMap.{the_row};

use bep_record::{Duplicate, Name};
use std::alloc::{AllocError, Global};
use std::collections::BTreeMap;
use std::collections::btree_map::{Iter, Values};
use std::marker::Model;
use std::mem;

/// A finite map from names to values of `V`. Two maps with the same values at the same names are equal in contracts.
pub struct NameMap<V> {
    entries: BTreeMap<Name, V>,
}

// By hand: a caller's proof then sees one call where it lets go of one, and not each field (docs/developing.md).
impl<V: Drop> Drop for NameMap<V> {
    fn drop(self) {
        let NameMap { entries: _ } = self;
    }
}

impl<V> Model for NameMap<V> {
    ghost use Rattle.std.specs.FinMap as map;
    ghost use Rattle.std.specs.Coded.{coded_ℕ, coded_list};
    ghost use Rattle.bep_map.specs.NameMap.{ByName};

    ghost Value = { ByName V };

    ghost coded = { map.code (coded_list coded_ℕ) V.code };

    ghost view = { λ m. map.from_entries m.entries.entries };
}

impl<V> NameMap<V> {
    /// The map without names.
    pub fn new(alloc: Global) -> Self
        ensures { result ≡ map.empty }
    {
        NameMap {
            entries: BTreeMap::new(alloc),
        }
    }

    /// How many names have a value.
    pub fn len(&self) -> usize
        ensures { result ≡ map.len self.now }
    {
        self.entries.len()
    }

    /// The value at the name, if it has one.
    pub fn get(&self, name: &Name) -> Option<&V>
        ensures { option_copied result ≡ map.get self.now name.now }
    {
        self.entries.get(name)
    }

    /// Whether the name has a value.
    pub fn contains(&self, name: &Name) -> bool
        ensures { result ≡ map.contains_key self.now name.now }
    {
        self.entries.contains_key(name)
    }

    /// The names with their values, in the order of the names.
    pub fn iter(&self) -> Iter<'_, Name, V>
        ensures { result ≡ map.entries self.now }
    {
        self.entries.iter()
    }

    /// The values, in the order of their names.
    pub fn values(&self) -> Values<'_, Name, V>
        ensures { result ≡ map.values self.now }
    {
        self.entries.values()
    }

    /// The value at the name, if it has one, to be changed in place.
    pub fn get_mut(&mut self, name: &Name) -> Option<&mut V>
        ensures* writes_back { sem 𝓛 (LendsIf (the_row V.row) V.row self.entry result (λ value. map.insert self.old name.now value) self.old) }
        ensures value { option_copied_mut result ≡ map.get self.old name.now }
    {
        self.entries.get_mut(name)
    }
}

impl<V: Drop> NameMap<V> {
    /// Gives the name this value, and answers the value that it had. Without memory the map is as before, and the
    /// name and the value are used up.
    pub fn insert(&mut self, name: Name, value: V) -> Result<Option<V>, AllocError>
        ensures old { IfOk result (λ old. old ≡ map.get self.old name) }
        ensures ok { OnOk result (self.new ≡ map.insert self.old name value) }
        ensures err { OnErr result (self.new ≡ self.old) }
    {
        Ok(self.entries.insert(name, value)?)
    }

    /// Gives the name this value in place of the one that it has, which is answered. A name without a value gets none,
    /// and the value comes back. Takes no memory.
    pub fn replace(&mut self, name: &Name, value: V) -> Result<V, V>
        ensures old { IfOk result (λ old. map.get self.old name.now ≡ Some old) }
        ensures ok { OnOk result (self.new ≡ map.insert self.old name.now value) }

        ensures absent { OnErr result (map.get self.old name.now ≡ None) }
        ensures back { IfErr result (λ same. same ≡ value) }
        ensures err { OnErr result (self.new ≡ self.old) }
    {
        let held = match self.entries.get_mut(name) {
            Some(held) => held,
            None => return Err(value),
        };
        Ok(mem::replace(held, value))
    }

    /// Takes the name's value away and answers it. Takes no memory.
    pub fn remove(&mut self, name: &Name) -> Option<V>
        ensures old { result ≡ map.get self.old name.now }
        ensures removed { self.new ≡ map.remove self.old name.now }
    {
        self.entries.remove(name)
    }
}

impl<V: Duplicate> NameMap<V> {
    /// An equal map of its own, or want of memory.
    pub fn copy(&self, alloc: Global) -> Result<Self, AllocError>
        ensures { IfOk result (λ made. made ≡ self.now) }
    {
        let mut made = NameMap::new(alloc);
        made.add_copies(alloc, self.entries.iter())?;
        Ok(made)
    }

    // Gives copies of these entries, from the last name to the first, as a map's view is made of its entries.
    fn add_copies(&mut self, alloc: Global, mut rest: Iter<'_, Name, V>) -> Result<(), AllocError>
        requires { self.now ≡ map.empty }
        ensures { OnOk result (self.new ≡ map.from_entries rest.entry) }
    {
        while let Some((name, value)) = rest.next_back() {
            self.add_copy(alloc, name, value)?;
        }
        Ok(())
    }

    fn add_copy(&mut self, alloc: Global, name: &Name, value: &V) -> Result<(), AllocError>
        ensures { OnOk result (self.new ≡ map.insert self.old name.now value.now) }
    {
        let name = name.copy(alloc)?;
        let value = value.duplicate(alloc)?;
        self.insert(name, value)?;
        Ok(())
    }
}
