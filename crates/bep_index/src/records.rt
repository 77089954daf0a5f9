//! An index's records in the order of their sequences.
ghost use Rattle.std.specs.Prelude.{◌≡◌, ◌+◌, ◌++◌, ◌^◌, ◌<◌, ◌≤◌, [], ◌∷◌, length, take, drop, slice_get, IfOk, IfSome, IfNone, OnOk, OnErr, Some};
ghost use Rattle.std.specs.Option.{option_copied};
ghost use Rattle.std.specs.FinMap as map;
ghost use Rattle.bep_index.specs.Batch.{HasNo, with_all};
ghost use Rattle.bep_index.specs.Order.{AreInOrder, IsAt, IsLater, IsGivenBack, count_up_to, is_up_to, without, put_in, back_in};

use bep_record::{Name, Record};
use indexmap::IndexMap;
use std::alloc::{AllocError, Global};
use std::marker::Model;
use std::mem;

/// Records by rising sequence, each of another name, by which it is found.
pub struct Records {
    entries: IndexMap<Name, Record>,
}

// By hand: a caller's proof then sees one call where it lets go of one, and not each field (docs/developing.md).
impl Drop for Records {
    fn drop(self) {
        let Records { entries: _ } = self;
    }
}

impl Model for Records {
    ghost use Rattle.std.specs.Prelude.{◌≡◌, List};
    ghost use Rattle.std.specs.Map.{values_of};
    ghost use Rattle.bep_record.specs.declared.entry.Entry.{Entry};
    ghost use Rattle.bep_index.specs.Order.{AreInOrder, named};

    ghost Value = { List Entry };

    ghost view = { λ records. values_of records.entries.entries };

    ghost invariant = { λ records. (records.entries.entries ≡ named (values_of records.entries.entries)) × AreInOrder (values_of records.entries.entries) };
}

impl Records {
    // No records.
    pub(crate) fn new(alloc: Global) -> Self
        ensures { result ≡ [] }
    {
        Records {
            entries: IndexMap::new(alloc),
        }
    }

    // How many records there are.
    pub(crate) fn len(&self) -> usize
        ensures names { result ≡ map.len (with_all map.empty self.now) }
        ensures value { result ≡ length self.now }
        ensures small { length self.now < 2 ^ 63 }
        ensures in_order { AreInOrder self.now }
    {
        self.entries.len()
    }

    // The record of the name.
    pub(crate) fn get(&self, name: &Name) -> Option<&Record>
        ensures { option_copied result ≡ map.get (with_all map.empty self.now) name.now }
    {
        self.entries.get(name)
    }

    // The record at the place, from 0.
    pub(crate) fn at(&self, place: usize) -> Option<&Record>
        ensures value { option_copied result ≡ slice_get self.now place }
        ensures in_order { AreInOrder self.now }
    {
        let (_name, entry) = self.entries.get_index(place)?;
        Some(entry)
    }

    // How many of the records have at most this sequence, found by halving.
    pub(crate) fn place_above(&self, sequence: u64) -> usize
        ensures value { result ≡ count_up_to sequence self.now }
        ensures within { result ≤ length self.now }
        ensures small { length self.now < 2 ^ 63 }
    {
        let mut low = 0;
        let mut high = self.len();
        while low < high {
            let middle = low + (high - low) / 2;
            if self.is_up_to(middle, sequence) {
                low = middle + 1;
            } else {
                high = middle;
            }
        }
        low
    }

    // Whether the record at the place, if there is one, has at most this sequence.
    fn is_up_to(&self, place: usize, sequence: u64) -> bool
        ensures { result ≡ is_up_to (slice_get self.now place) sequence }
    {
        match self.at(place) {
            Some(entry) => entry.entry().sequence <= sequence,
            None => false,
        }
    }

    // The records above the sequence, in order, at most `limit` of them.
    pub(crate) fn after(
        &self,
        alloc: Global,
        sequence: u64,
        limit: usize,
    ) -> Result<Vec<Record>, AllocError>
        ensures { IfOk result (λ found. found.items ≡ take limit (drop (count_up_to sequence self.now) self.now)) }
    {
        let mut found = Vec::new(alloc);
        let mut place = self.place_above(sequence);
        for _taken in 0..limit {
            let entry = match self.at(place) {
                Some(entry) => entry,
                None => return Ok(found),
            };
            place += 1;
            found.push(entry.copy(alloc)?)?;
        }
        Ok(found)
    }

    // The place of the name's record.
    fn place_of(&self, name: &Name) -> Option<usize>
        ensures none { IfNone result (HasNo name.now self.now) }
        ensures there { IfSome result (λ place. IsAt self.now place name.now) }
        ensures in_order { AreInOrder self.now }
    {
        self.entries.get_index_of(name)
    }

    // Puts the record last, in place of the one of its name, which is answered. Only a new name asks for room.
    pub(crate) fn put(&mut self, alloc: Global, entry: Record) -> Result<Option<Record>, AllocError>
        requires { IsLater self.old entry }
        ensures ok { OnOk result (self.new ≡ without entry.name self.old ++ entry ∷ []) }
        ensures before { IfOk result (λ before. before ≡ map.get (with_all map.empty self.old) entry.name) }
        ensures err { OnErr result (self.new ≡ self.old) }
    {
        match self.place_of(&entry.entry().name) {
            Some(place) => Ok(Some(self.renew(place, entry))),
            None => {
                self.add(alloc, entry)?;
                Ok(None)
            }
        }
    }

    // Adds the record of a new name last.
    fn add(&mut self, alloc: Global, entry: Record) -> Result<(), AllocError>
        requires later { IsLater self.old entry }
        requires new { HasNo entry.name self.old }
        ensures ok { OnOk result (self.new ≡ self.old ++ entry ∷ []) }
        ensures err { OnErr result (self.new ≡ self.old) }
    {
        let key = entry.entry().name.copy(alloc)?;
        self.entries.insert(key, entry)?;
        Ok(())
    }

    // Writes the record in the place of its name's, which is answered, and moves it last. Takes no memory.
    fn renew(&mut self, place: usize, entry: Record) -> Record
        requires later { IsLater self.old entry }
        requires there { IsAt self.old place entry.name }
        ensures after { self.new ≡ without entry.name self.old ++ entry ∷ [] }
        ensures old { Some result ≡ slice_get self.old place }
    {
        let last = self.len() - 1;
        let old = mem::replace(&mut self.entries[place], entry);
        self.entries.move_index(place, last);
        old
    }

    // Takes the last record away, and gives its name back the one that it had before. Takes no memory.
    pub(crate) fn give_back(&mut self, name: &Name, old: Option<Record>)
        requires { IsGivenBack self.old name.now old }
        ensures { self.new ≡ back_in self.old name.now old }
    {
        let Some(old) = old else {
            self.entries.pop();
            return;
        };
        self.put_back(old);
    }

    // Writes the record in the place of the last one, and moves it to the place of its sequence. Takes no memory.
    fn put_back(&mut self, old: Record)
        requires { IsGivenBack self.old old.name (Some old) }
        ensures { self.new ≡ put_in old (without old.name self.old) }
    {
        let place = self.place_above(old.entry().sequence);
        let last = self.len() - 1;
        self.entries[last] = old;
        self.entries.move_index(last, place);
    }

    // The records, in order.
    fn as_slice(&self) -> &[Record]
        ensures value { result.now ≡ self.now }
        ensures in_order { AreInOrder self.now }
    {
        self.entries.values().as_slice()
    }

    // The same records, or want of memory.
    pub(crate) fn copy(&self, alloc: Global) -> Result<Self, AllocError>
        ensures { IfOk result (λ made. made ≡ self.now) }
    {
        let mut made = Records::new(alloc);
        made.add_copies(alloc, self.as_slice())?;
        Ok(made)
    }

    // Adds a copy of each of these, where there were no records.
    fn add_copies(&mut self, alloc: Global, records: &[Record]) -> Result<(), AllocError>
        requires none { self.old ≡ [] }
        requires in_order { AreInOrder records.now }
        ensures { OnOk result (self.new ≡ records.now) }
    {
        for entry in records {
            self.add(alloc, entry.copy(alloc)?)?;
        }
        Ok(())
    }
}
