//! A map from folders to values, over a `BTreeMap`.
ghost use Rattle.std.specs.Prelude.{◌≡◌, ℕ, List, IfOk, IfErr, OnOk, OnErr, Some, None};
ghost use Rattle.std.specs.Option.{option_copied, option_copied_mut};
ghost use Rattle.std.specs.Borrow.{LendsIf, sem};
ghost use Rattle.std.specs.FinMap as map;
ghost use Rattle.std.specs.Map.Calls.{CalledAtPair, TakesPair, RetainsPairs};
ghost use Rattle.bep_map.specs.contracts.folder_map.FolderMap.{the_row};

use bep_record::{Duplicate, FolderName};
use std::alloc::{AllocError, Global};
use std::collections::BTreeMap;
use std::collections::btree_map::Iter;
use std::marker::Model;
use std::mem;

/// A finite map from folder names to values of `V`. Two maps with the same values at the same names are equal in
/// contracts.
pub struct FolderMap<V> {
    entries: BTreeMap<FolderName, V>,
}

// By hand: a caller's proof then sees one call where it lets go of one, and not each field (docs/developing.md).
impl<V: Drop> Drop for FolderMap<V> {
    fn drop(self) {
        let FolderMap { entries: _ } = self;
    }
}

impl<V> Model for FolderMap<V> {
    ghost use Rattle.std.specs.FinMap as map;
    ghost use Rattle.std.specs.Coded.{coded_ℕ, coded_list};
    ghost use Rattle.bep_map.specs.NameMap.{ByName};

    ghost Value = { ByName V };

    ghost coded = { map.code (coded_list coded_ℕ) V.code };

    ghost view = { λ m. map.from_entries m.entries.entries };
}

impl<V> FolderMap<V> {
    /// The map without folders. It takes no memory.
    pub fn new(alloc: Global) -> Self
        ensures { result ≡ map.empty }
    {
        FolderMap {
            entries: BTreeMap::new(alloc),
        }
    }

    /// The value of the folder, if it has one.
    pub fn get(&self, folder: &FolderName) -> Option<&V>
        ensures { option_copied result ≡ map.get self.now folder.now }
    {
        self.entries.get(folder)
    }

    /// The folders with their values, in the order of their names.
    pub fn iter(&self) -> Iter<'_, FolderName, V>
        ensures { result ≡ map.entries self.now }
    {
        self.entries.iter()
    }

    /// The value of the folder, if it has one, to be changed in place.
    pub fn get_mut(&mut self, folder: &FolderName) -> Option<&mut V>
        ensures* writes_back { sem 𝓛 (LendsIf (the_row V.row) V.row self.entry result (λ value. map.insert self.old folder.now value) self.old) }
        ensures value { option_copied_mut result ≡ map.get self.old folder.now }
    {
        self.entries.get_mut(folder)
    }
}

impl<V: Drop> FolderMap<V> {
    /// Gives the folder this value, and answers the value that it had. Without memory the map is as before, and the
    /// folder's name and the value are used up.
    pub fn insert(&mut self, folder: FolderName, value: V) -> Result<Option<V>, AllocError>
        ensures old { IfOk result (λ old. old ≡ map.get self.old folder) }
        ensures ok { OnOk result (self.new ≡ map.insert self.old folder value) }
        ensures err { OnErr result (self.new ≡ self.old) }
    {
        Ok(self.entries.insert(folder, value)?)
    }

    /// Gives the folder this value in place of the one that it has, which is answered. A folder without a value gets
    /// none, and the value comes back. Takes no memory.
    pub fn replace(&mut self, folder: &FolderName, value: V) -> Result<V, V>
        ensures old { IfOk result (λ old. map.get self.old folder.now ≡ Some old) }
        ensures ok { OnOk result (self.new ≡ map.insert self.old folder.now value) }

        ensures absent { OnErr result (map.get self.old folder.now ≡ None) }
        ensures back { IfErr result (λ same. same ≡ value) }
        ensures err { OnErr result (self.new ≡ self.old) }
    {
        let held = match self.entries.get_mut(folder) {
            Some(held) => held,
            None => return Err(value),
        };
        Ok(mem::replace(held, value))
    }

    /// Calls `keep` on each folder in turn, in the order of their names, and keeps those for which it answers `true`, with
    /// the value that it leaves there. So each value can be changed in place. Takes no memory of its own.
    pub fn retain<F: FnMut(&FolderName, &mut V) -> bool>(&mut self, keep: F)
        requires { (f : F) (folder : List ℕ) (value : V) → TakesPair F.FnMut f folder value }
        ensures { RetainsPairs (CalledAtPair F.FnMut) keep (map.entries self.old) (map.entries self.new) }
    {
        self.entries.retain(keep);
    }
}

impl<V: Duplicate> FolderMap<V> {
    /// An equal map of its own, or want of memory.
    pub fn copy(&self, alloc: Global) -> Result<Self, AllocError>
        ensures { IfOk result (λ made. made ≡ self.now) }
    {
        let mut made = FolderMap::new(alloc);
        made.add_copies(alloc, self.entries.iter())?;
        Ok(made)
    }

    // Gives copies of these entries, from the last folder to the first, as a map's view is made of its entries.
    fn add_copies(
        &mut self,
        alloc: Global,
        mut rest: Iter<'_, FolderName, V>,
    ) -> Result<(), AllocError>
        requires { self.now ≡ map.empty }
        ensures { OnOk result (self.new ≡ map.from_entries rest.entry) }
    {
        while let Some((folder, value)) = rest.next_back() {
            self.insert(folder.copy(alloc)?, value.duplicate(alloc)?)?;
        }
        Ok(())
    }
}
