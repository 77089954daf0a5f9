//! Devices that share a folder.
ghost use Rattle.std.specs.Prelude.{◌≡◌, Ok};
ghost use Rattle.bep_document.specs.inner.Shares.{share_names, share_slots, share_told, share_things, share_of};
ghost use Rattle.bep_document.specs.read.Shares.{is_share, read_share};

use crate::{Few, IndexNumber, ShareParts, ViewParts};
use bep_index::{IndexId, MAX_NAMES};
use bep_json::{
    DocVersion, Misread, NamedParts, Sequence, Shaped, Slots, Taken, Told, both, due, due_or, fill,
    fill_leaf, take_object,
};
use bep_record::{DeviceId, Entry, FolderKind, Items, MAX_PULLS};
use bep_tree::{Reader, WalkError};
use std::alloc::Global;

// The things that the members say.
type ShareThings = (
    DeviceId,
    (
        FolderKind,
        (
            IndexNumber,
            (
                Sequence,
                (
                    Few<Entry, MAX_NAMES>,
                    (Items<NamedParts>, (Items<ViewParts>, Few<Entry, MAX_PULLS>)),
                ),
            ),
        ),
    ),
);

// What is told of the members of a device that shares a folder.
#[derive(Drop)]
pub(crate) struct ShareSlots {
    device: Option<Told<DeviceId>>,
    kind: Option<Told<FolderKind>>,
    index_id: Option<Told<IndexNumber>>,
    max: Option<Told<Sequence>>,
    own: Option<Told<Few<Entry, MAX_NAMES>>>,
    store: Option<Told<Items<NamedParts>>>,
    views: Option<Told<Items<ViewParts>>>,
    pulls: Option<Told<Few<Entry, MAX_PULLS>>>,
}

impl Slots for ShareSlots {
    ghost names = { share_names };

    ghost known = { share_slots };

    fn none() -> Self {
        ShareSlots {
            device: None,
            kind: None,
            index_id: None,
            max: None,
            own: None,
            store: None,
            views: None,
            pulls: None,
        }
    }

    fn take(
        &mut self,
        alloc: Global,
        version: DocVersion,
        key: &str,
        reader: &mut Reader<'_>,
        depth: usize,
    ) -> Result<bool, WalkError> {
        match key {
            "device" => fill_leaf(&mut self.device, alloc, version, reader, depth),
            "kind" => fill_leaf(&mut self.kind, alloc, version, reader, depth),
            "index_id" => fill_leaf(&mut self.index_id, alloc, version, reader, depth),
            "max" => fill_leaf(&mut self.max, alloc, version, reader, depth),
            "own" => fill(&mut self.own, alloc, version, reader, depth),
            "store" => fill(&mut self.store, alloc, version, reader, depth),
            "views" => fill(&mut self.views, alloc, version, reader, depth),
            "pulls" => fill(&mut self.pulls, alloc, version, reader, depth),
            _ => Ok(false),
        }
    }
}

impl Shaped for ShareParts {
    ghost has_shape = { is_share };

    ghost reads = { read_share };
}

impl Taken for ShareParts {
    fn take(
        alloc: Global,
        version: DocVersion,
        reader: &mut Reader<'_>,
        depth: usize,
    ) -> Result<Told<Self>, WalkError> {
        let slots = take_object::<ShareSlots>(alloc, version, reader, depth)?;
        Ok(share_told(alloc, slots))
    }
}

// What is told of a device that shares a folder, by what is told of its members.
fn share_told(alloc: Global, slots: Option<ShareSlots>) -> Told<ShareParts>
    ensures { result ≡ share_told slots }
{
    let Some(slots) = slots else {
        return Err(Misread::Shape);
    };
    match things_told(alloc, slots) {
        Ok(things) => share_of(things),
        Err(misread) => Err(misread),
    }
}

// What is told of all members.
fn things_told(alloc: Global, slots: ShareSlots) -> Told<ShareThings>
    ensures { result ≡ share_things slots }
{
    let ShareSlots {
        device,
        kind,
        index_id,
        max,
        own,
        store,
        views,
        pulls,
    } = slots;
    both(
        due(device),
        both(
            due(kind),
            both(
                due(index_id),
                both(
                    due(max),
                    both(
                        due_or(own, Few::none(alloc)),
                        both(
                            due_or(store, Items::new(Vec::new(alloc))),
                            both(
                                due_or(views, Items::new(Vec::new(alloc))),
                                due_or(pulls, Few::none(alloc)),
                            ),
                        ),
                    ),
                ),
            ),
        ),
    )
}

// The device that has these things.
fn share_of(things: ShareThings) -> Told<ShareParts>
    ensures { result ≡ Ok (share_of things) }
{
    let (device, (kind, (index_id, (max, (own, (store, (views, pulls))))))) = things;
    let Some(index_id) = IndexId::read(index_id.number()) else {
        return Err(Misread::Range);
    };
    Ok(ShareParts {
        device,
        kind,
        index_id,
        max: max.number(),
        own: own.into_items(),
        store,
        views,
        pulls: pulls.into_items(),
    })
}
