//! The entries of a cut, and how they are ordered.
ghost use Rattle.std.specs.Prelude.{◌≡◌, Some};
ghost use Rattle.std.specs.Ordering.{eq_by_cmp, is_eq};
ghost use Rattle.std.specs.Cmp.{partial_equiv_from_equiv, eq_by_cmp_equiv, partial_order_from_total};
ghost use Rattle.std.specs.Cmp.Rules.{comparing};
ghost use Rattle.std.proofs.Common.{rules};
ghost use Rattle.bep_model.specs.Settled.{key_cmp};
ghost use Rattle.bep_tables.specs.Listed.{held, listed, key_at};
ghost use Rattle.bep_tables.specs.inner.TableOrder.{entry_cmp, entry_total};

use bep_record::{DeviceId, FolderName, Name, Node, Record};
use std::cmp::Ordering;

/// Where a device has a record from.
#[derive(Clone, Copy, Debug, PartialEq, Eq)]
pub enum Source {
    /// It is the device's own record.
    Own,
    /// One of its views has it.
    View,
    /// It is on its way to the device.
    Flight,
    /// The device pulls it.
    Pull,
}

/// What an entry of a cut holds, lent from the cut.
#[derive(Clone, Copy)]
pub enum Held<'a> {
    /// A record, and where it is from.
    Record(Source, &'a Record),
    /// What the device's store holds.
    Node(&'a Node),
}

/// An entry of a cut: what a device has of a name in a folder, lent from the cut.
///
/// Entries are compared by their folder and name alone.
#[derive(Clone, Copy)]
pub struct TableEntry<'a> {
    /// The folder.
    pub folder: &'a FolderName,
    /// The name.
    pub name: &'a Name,
    /// The device that has it.
    pub device: DeviceId,
    /// What it has.
    pub held: Held<'a>,
}

impl<'a> Held<'a> {
    // The same once more.
    pub(crate) fn again(&self) -> Held<'a>
        ensures { held result ≡ held self.now }
    {
        match *self {
            Held::Record(source, found) => Held::Record(source, found),
            Held::Node(node) => Held::Node(node),
        }
    }
}

impl<'a> TableEntry<'a> {
    /// How the entry's folder and name compare with these.
    pub fn compare(&self, folder: &FolderName, name: &Name) -> Ordering
        ensures { result ≡ key_cmp (key_at (listed self.now)) (folder.now, name.now) }
    {
        self.folder.cmp(folder).then(self.name.cmp(name))
    }

    // The same entry once more.
    pub(crate) fn again(&self) -> TableEntry<'a>
        ensures { listed result ≡ listed self.now }
    {
        TableEntry {
            folder: self.folder,
            name: self.name,
            device: self.device,
            held: self.held.again(),
        }
    }
}

impl<'a> PartialEq for TableEntry<'a> {
    ghost eq = { eq_by_cmp entry_cmp };

    ghost laws = { partial_equiv_from_equiv (eq_by_cmp_equiv entry_total) };

    fn eq(&self, other: &TableEntry<'a>) -> bool {
        self.compare(other.folder, other.name).is_eq()
    }
}

impl<'a> Eq for TableEntry<'a> {
    ghost laws = { eq_by_cmp_equiv entry_total };
}

impl<'a> PartialOrd for TableEntry<'a> {
    ghost partial_cmp = { λ x y. Some (entry_cmp x y) };

    ghost laws = { partial_order_from_total entry_total };

    fn partial_cmp(&self, other: &TableEntry<'a>) -> Option<Ordering> {
        Some(self.compare(other.folder, other.name))
    }
}

impl<'a> Ord for TableEntry<'a> {
    ghost cmp = { entry_cmp };

    ghost total = { entry_total };

    ghost matches_partial_cmp = { Prim.search (comparing, rules) };

    ghost matches_eq = { Prim.search (comparing, rules) };

    fn cmp(&self, other: &TableEntry<'a>) -> Ordering {
        self.compare(other.folder, other.name)
    }
}
