//! One folder at one device.
ghost use Rattle.std.specs.Prelude.{◌≡◌, ◌↔◌, ◌<◌, ◌+◌, ℕ, IsSome, IfSome, IsTrue, length, slice_index};
ghost use Rattle.std.specs.List.Sorted.{IsStrictlyIncreasing};
ghost use Rattle.bep_folder.specs.Held.{AreOthers, started};

use crate::Pull;
use crate::traced::Traced;
use bep_index::{Index, IndexId, View};
use bep_map::{DeviceMap, NameMap};
use bep_record::{DeviceId, FolderKind, FolderName, Items, MAX_DEVICES};
use bep_store::Store;
use std::alloc::Global;
use std::marker::Model;

/// A folder at a device: the device's own index, what it knows of the others' indexes, its pulls, and the store with its
/// files.
///
/// BEP v1, 'Index'; Syncthing, 'Folder Types'; pulls and stores are this project's profile.
pub struct Replica<S: Store> {
    pub(crate) device: DeviceId,
    pub(crate) folder: FolderName,
    pub(crate) kind: FolderKind,
    pub(crate) others: Items<DeviceId>,
    pub(crate) index: Index,
    pub(crate) views: DeviceMap<View>,
    pub(crate) pulls: NameMap<Pull>,
    pub(crate) store: Traced<S>,
    pub(crate) alloc: Global,
}

// By hand: a caller's proof then sees one call where it lets go of one, and not each field (docs/developing.md).
impl<S: Store> Drop for Replica<S> {
    fn drop(self) {
        let Replica {
            device: _,
            folder: _,
            kind: _,
            others: _,
            index: _,
            views: _,
            pulls: _,
            store: _,
            alloc: _,
        } = self;
    }
}

impl<S: Store> Model for Replica<S> {
    ghost use Rattle.bep_record.specs.contracts.folder_kind.FolderKind as folder_kind;
    ghost use Rattle.bep_record.specs.contracts.entry.Entry as entry;
    ghost use Rattle.bep_record.specs.contracts.node.NodeParts as parts;
    ghost use Rattle.bep_folder.specs.Held.{Held, held_code, IsHeld};

    ghost Value = { Held };

    ghost coded = { held_code folder_kind.the_row.coded entry.the_row.coded parts.the_row.coded };

    ghost view = { λ r. record {
      device = r.device;
      folder = r.folder;
      tables = record { kind = r.kind; others = r.others; index = r.index; views = r.views; pulls = r.pulls; store = r.store.contents };
      faults = r.store.faults;
      made = r.store.made;
      trace = r.store.trace;
    } };

    ghost invariant = { λ r. IsHeld r.device r.others r.views r.pulls };
}

impl<S: Store> Replica<S> {
    /// The folder at the device as it begins: nothing is recorded, known or pulled. `others` are the other devices that
    /// share it. None exactly where these don't rise, or the device is among them, or there are more than 15.
    pub fn new(
        alloc: Global,
        device: DeviceId,
        folder: FolderName,
        kind: FolderKind,
        index_id: IndexId,
        others: Vec<DeviceId>,
        store: S,
    ) -> Option<Self>
        ensures some { IsSome result ↔ AreOthers device others.items }
        ensures begun { IfSome result (λ made. made ≡ started device folder kind index_id others.items (S.contents store) (S.faults store)) }
    {
        if !are_others(device, others.as_slice()) {
            return None;
        }
        Some(Replica {
            device,
            folder,
            kind,
            others: Items::new(others),
            index: Index::new(alloc, index_id),
            views: DeviceMap::new(alloc),
            pulls: NameMap::new(alloc),
            store: Traced::new(store),
            alloc,
        })
    }
}

/// Whether these can be the other devices that share a folder with this one, or that it has links with: they rise, it
/// isn't among them, and there are at most 15.
pub fn are_others(device: DeviceId, others: &[DeviceId]) -> bool
    ensures { IsTrue result ↔ AreOthers device others.now }
{
    others.len() < MAX_DEVICES && rise(others) && !others.contains(&device)
}

fn rise(devices: &[DeviceId]) -> bool
    ensures { IsTrue result ↔ IsStrictlyIncreasing devices.now }
{
    for place in 1..devices.len() {
        if devices[place] <= devices[place - 1] {
            return false;
        }
    }
    true
}
