//! Devices that share a folder.
ghost use Rattle.std.specs.Prelude.{◌≡◌, Ok};
ghost use Rattle.bep_scenario.specs.Fresh.{is_fresh_share, read_fresh_share};
ghost use Rattle.bep_scenario.specs.inner.Fresh.{share_names, share_slots, share_of, share_told};

use crate::fresh::Fresh;
use bep_document::{IndexNumber, ShareParts};
use bep_index::IndexId;
use bep_json::{
    DocVersion, Misread, Shaped, Slots, Taken, Told, both, due, fill_leaf, take_object,
};
use bep_record::{DeviceId, FolderKind, Items};
use bep_tree::{Reader, WalkError};
use std::alloc::Global;

// What is told of the members of a device that shares a folder.
#[derive(Drop)]
pub(crate) struct ShareSlots {
    device: Option<Told<DeviceId>>,
    kind: Option<Told<FolderKind>>,
    index_id: Option<Told<IndexNumber>>,
}

impl Slots for ShareSlots {
    ghost names = { share_names };

    ghost known = { λ _. share_slots };

    fn none() -> Self {
        ShareSlots {
            device: None,
            kind: None,
            index_id: None,
        }
    }

    fn take(
        &mut self,
        alloc: Global,
        version: DocVersion,
        key: &str,
        reader: &mut Reader<'_>,
        depth: usize,
    ) -> Result<bool, WalkError> {
        match key {
            "device" => fill_leaf(&mut self.device, alloc, version, reader, depth),
            "kind" => fill_leaf(&mut self.kind, alloc, version, reader, depth),
            "index_id" => fill_leaf(&mut self.index_id, alloc, version, reader, depth),
            _ => Ok(false),
        }
    }
}

impl Shaped for Fresh<ShareParts> {
    ghost has_shape = { λ _. is_fresh_share };

    ghost reads = { λ _. read_fresh_share };
}

impl Taken for Fresh<ShareParts> {
    fn take(
        alloc: Global,
        version: DocVersion,
        reader: &mut Reader<'_>,
        depth: usize,
    ) -> Result<Told<Self>, WalkError> {
        // A `match`, not `?`: the slots hold a `Whole`, and rattle's borrow checker can't follow `?` then.
        match take_object::<ShareSlots>(alloc, version, reader, depth) {
            Ok(slots) => Ok(share_told(alloc, slots)),
            Err(error) => Err(error),
        }
    }
}

// What is told of a device that shares a folder, by what is told of its members.
fn share_told(alloc: Global, slots: Option<ShareSlots>) -> Told<Fresh<ShareParts>>
    ensures { result ≡ share_told slots }
{
    let Some(
        ShareSlots {
            device,
            kind,
            index_id,
        },
    ) = slots
    else {
        return Err(Misread::Shape);
    };
    match both(due(device), both(due(kind), due(index_id))) {
        Ok(things) => share_of(alloc, things),
        Err(misread) => Err(misread),
    }
}

// The device that has these things, with nothing in its index and its store.
fn share_of(alloc: Global, things: (DeviceId, (FolderKind, IndexNumber))) -> Told<Fresh<ShareParts>>
    ensures { result ≡ Ok (share_of things) }
{
    let (device, (kind, index_id)) = things;
    let Some(index_id) = IndexId::read(index_id.number()) else {
        return Err(Misread::Range);
    };
    let part = ShareParts {
        device,
        kind,
        index_id,
        max: 0,
        own: Items::new(Vec::new(alloc)),
        store: Items::new(Vec::new(alloc)),
        views: Items::new(Vec::new(alloc)),
        pulls: Items::new(Vec::new(alloc)),
    };
    Ok(Fresh { part })
}
