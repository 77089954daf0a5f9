//! Entries put together by their folders and names.
ghost use Rattle.std.specs.Prelude.{◌≡◌, ◌+◌, ◌-◌, ◌^◌, ◌∷◌, [], Some, List, None, IfOk, OnOk, length, map, min, set};
ghost use Rattle.std.specs.Ordering.{is_eq};
ghost use Rattle.bep_model.specs.Settled.{key_cmp};
ghost use Rattle.bep_tables.specs.Listed.{IsGrouped, Listed, listed};
ghost use Rattle.bep_tables.specs.inner.Groups.{AreFull, Counted, Filled, Took, begins_with, grouping, key_in, numbered, place_of, rising};

use super::TableEntry;
use super::falling::Falling;
use std::alloc::{AllocError, Global};
use std::collections::BTreeMap;
use std::marker::Model;

// The entries of one folder and name: the first of them, which has the folder and the name, and a number. While entries are
// counted, it says how many there are; once there is room for all, where the next one goes.
#[derive(Drop)]
struct Group<'a> {
    first: TableEntry<'a>,
    number: usize,
}

impl<'a> Model for Group<'a> {
    ghost use Rattle.bep_tables.specs.inner.Groups.{Spot, key_in};

    ghost Value = { Spot };

    ghost view = { λ group. (key_in group.first, group.number) };
}

impl<'a> Group<'a> {
    // The group of this entry alone.
    fn of(entry: &TableEntry<'a>) -> Self
        ensures { result ≡ (key_in entry.now, 1) }
    {
        Group {
            first: entry.again(),
            number: 1,
        }
    }

    // Whether it is of the entry's folder and name.
    fn begins_as(&self, entry: &TableEntry<'_>) -> bool
        ensures { result ≡ is_eq (key_cmp self.now.0 (key_in entry.now)) }
    {
        self.first.compare(entry.folder, entry.name).is_eq()
    }

    // The entry, with the folder and the name lent from the group's first entry. Whoever compares the entries of a group then
    // reads the bytes of one name, and not those of each device's.
    fn with_key(&self, entry: &TableEntry<'a>) -> TableEntry<'a>
        requires { self.now.0 ≡ key_in entry.now }
        ensures { listed result ≡ listed entry.now }
    {
        TableEntry {
            folder: self.first.folder,
            name: self.first.name,
            device: entry.device,
            held: entry.held.again(),
        }
    }

    // Its number.
    fn number(&self) -> usize
        ensures { result ≡ self.now.1 }
    {
        self.number
    }

    // Has this number from now on.
    fn renumber(&mut self, number: usize)
        ensures { self.new ≡ (self.old.0, number) }
    {
        self.number = number;
    }

    // Makes room behind the list for as many entries as were counted, and begins there.
    fn take_room(&mut self, list: &mut Vec<TableEntry<'a>>) -> Result<(), AllocError>
        ensures key { self.new.0 ≡ self.old.0 }
        ensures place { OnOk result (self.new.1 ≡ length list.old.items) }
        ensures room { OnOk result (length list.new.items ≡ length list.old.items + self.old.1) }
    {
        let place = list.len();
        push_copies(list, &self.first, self.number)?;
        self.number = place;
        Ok(())
    }
}

// Adds the entry behind the list so many times.
fn push_copies<'a>(
    list: &mut Vec<TableEntry<'a>>,
    entry: &TableEntry<'a>,
    count: usize,
) -> Result<(), AllocError>
    ensures { OnOk result (length list.new.items ≡ length list.old.items + count) }
{
    for _copy in 0..count {
        list.reserve(1)?;
        list.push_reserved(entry.again());
    }
    Ok(())
}

// Room for the entries of all groups, one group's behind the other's: first come those of the least folder and name.
fn rooms<'a>(
    alloc: Global,
    groups: &mut Vec<Group<'a>>,
    places: &BTreeMap<Falling<'a>, usize>,
) -> Result<Vec<TableEntry<'a>>, AllocError>
    requires { AreFull groups.old.items (rising places.now.entries) }
    ensures full { AreFull groups.new.items (rising places.now.entries) }
    ensures room { IfOk result (λ made. (all : List Listed) →
        Counted all (grouping groups.old.items (rising places.now.entries) []) → Filled all [] (grouping groups.new.items (rising places.now.entries) made.items)) }
{
    let mut list = Vec::with_capacity(alloc, counted(groups.as_slice()))?;
    let mut left = places.iter();
    while let Some((_first, place)) = left.next_back() {
        let group = &mut groups[*place];
        group.take_room(&mut list)?;
    }
    Ok(list)
}

// How many entries the groups have. It is the room that the list of all is made with: with too great a number the list would
// want more memory than there is.
fn counted(groups: &[Group<'_>]) -> usize
    ensures { result ≡ min (numbered groups.now) (2 ^ 64 - 1) }
{
    let mut count: usize = 0;
    for group in groups {
        count = count.saturating_add(group.number());
    }
    count
}

// The number behind this one. More entries than there are numbers want more memory than there is.
fn one_more(number: usize) -> Result<usize, AllocError>
    ensures { IfOk result (λ next. next ≡ number + 1) }
{
    match number.checked_add(1) {
        Some(next) => Ok(next),
        None => Err(AllocError),
    }
}

// Puts the entry at this place, if the list has it.
fn put_at<'a>(list: &mut Vec<TableEntry<'a>>, place: usize, entry: &TableEntry<'a>)
    ensures { map listed list.new.items ≡ set (map listed list.old.items) place (listed entry.now) }
{
    if place >= list.len() {
        return;
    }
    list[place] = entry.again();
}

// Where the entry's group stands by this map of places, if there is one.
fn found<'a>(places: &BTreeMap<Falling<'a>, usize>, entry: &TableEntry<'a>) -> Option<usize>
    ensures { result ≡ place_of (rising places.now.entries) (key_in entry.now) }
{
    if places.len() == 0 {
        return None;
    }
    places.get(&Falling::of(entry)).copied()
}

// Groups of entries, and where the group of each folder and name stands. All entries are added twice: first they are
// counted, and then, when there is room for them, each is put behind those of its group. So no second list of them is made.
// The lists of a cut mostly have their names in one order, so the group behind the last one is looked at first.
//
// The map of places has the last folder and name first, since names mostly rise: it finds the place of a key before all others
// by one comparison in each node.
#[derive(Drop)]
pub(crate) struct Groups<'a> {
    groups: Vec<Group<'a>>,
    places: BTreeMap<Falling<'a>, usize>,
    next: usize,
    entries: Vec<TableEntry<'a>>,
}

impl<'a> Model for Groups<'a> {
    ghost use Rattle.bep_tables.specs.inner.Groups.{AreFull, Grouping, grouping, rising};

    ghost Value = { Grouping };

    ghost view = { λ all. grouping all.groups.items (rising all.places.entries) all.entries.items };

    ghost invariant = { λ all. AreFull all.groups.items (rising all.places.entries) };
}

impl<'a> Groups<'a> {
    // No groups, and room for no entry.
    pub(crate) fn new(alloc: Global) -> Self
        ensures { result ≡ grouping [] [] [] }
    {
        Groups {
            groups: Vec::new(alloc),
            places: BTreeMap::new(alloc),
            next: 0,
            entries: Vec::new(alloc),
        }
    }

    // Counts the entry or, where there is room for all, puts it behind those of its group.
    pub(crate) fn add(&mut self, entry: &TableEntry<'a>) -> Result<(), AllocError>
        ensures { OnOk result (Took (listed entry.now ∷ []) self.old self.new) }
    {
        match self.place_of(entry) {
            Some(place) => self.add_at(place, entry),
            None => self.begin(entry),
        }
    }

    // The same for an entry whose group stands at this place.
    fn add_at(&mut self, place: usize, entry: &TableEntry<'a>) -> Result<(), AllocError>
        requires { place_of self.old.places (key_in entry.now) ≡ Some place }
        ensures { OnOk result (Took (listed entry.now ∷ []) self.old self.new) }
    {
        let group = &self.groups[place];
        let at = group.number();
        let entry = group.with_key(entry);
        let next = one_more(at)?;
        self.groups[place].renumber(next);
        put_at(&mut self.entries, at, &entry);
        self.next = place + 1;
        Ok(())
    }

    // The same for the first entry of a group.
    fn begin(&mut self, entry: &TableEntry<'a>) -> Result<(), AllocError>
        requires { place_of self.old.places (key_in entry.now) ≡ None }
        ensures { OnOk result (Took (listed entry.now ∷ []) self.old self.new) }
    {
        let place = self.groups.len();
        self.groups.reserve(1)?;
        match self.places.insert(Falling::of(entry), place) {
            Ok(_) => {}
            Err(_) => return Err(AllocError),
        }
        let group = Group::of(entry);
        self.groups.push_reserved(group);
        self.next = place + 1;
        Ok(())
    }

    // Where the entry's group stands, if there is one.
    fn place_of(&self, entry: &TableEntry<'a>) -> Option<usize>
        ensures { result ≡ place_of self.now.places (key_in entry.now) }
    {
        let places = &self.places;
        let next = self.guess();
        if self.stands_at(next, entry) {
            return Some(next);
        }
        found(places, entry)
    }

    // Where to look first: behind the group of the last entry, or at the first one.
    fn guess(&self) -> usize {
        if self.next < self.groups.len() {
            self.next
        } else {
            0
        }
    }

    // Whether the entry's group stands at this place.
    fn stands_at(&self, place: usize, entry: &TableEntry<'_>) -> bool
        ensures { result ≡ begins_with (key_in entry.now) place self.now.groups }
    {
        place < self.groups.len() && self.groups[place].begins_as(entry)
    }

    // Makes room for all entries that were counted.
    pub(crate) fn make_room(&mut self, alloc: Global) -> Result<(), AllocError>
        ensures { OnOk result ((all : List Listed) → Counted all self.old → Filled all [] self.new) }
    {
        let entries = rooms(alloc, &mut self.groups, &self.places)?;
        self.entries = entries;
        Ok(())
    }

    // All entries, by folder and then name, once each was put.
    pub(crate) fn entries(self) -> Vec<TableEntry<'a>>
        ensures { (all : List Listed) → Filled all all self.entry → IsGrouped all result.items }
    {
        let Groups { entries, .. } = self;
        entries
    }
}
