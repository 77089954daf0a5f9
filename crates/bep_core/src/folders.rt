//! The folders of each device, as they begin.
ghost use Rattle.std.specs.Prelude.{◌≡◌, ◌≢◌, ◌≤◌, length, Contains, IfOk, OnOk};
ghost use Rattle.std.specs.FinMap as map;
ghost use Rattle.std.specs.List.Sorted.{IsStrictlyIncreasing};
ghost use Rattle.bep_record.specs.declared.limits.TheConstants.{MAX_DEVICES};
ghost use Rattle.bep_config.specs.declared.sharing.Sharing.{Sharing as SharingOf};
ghost use Rattle.bep_model.specs.Tables.{Device, Folder};
ghost use Rattle.bep_core.specs.Begin.{begun_share, begun_folders, folders_at};

use crate::others::sharing_with;
use bep_config::Sharing;
use bep_folder::Replica;
use bep_map::{DeviceMap, FolderMap};
use bep_record::{DeviceId, FolderName};
use bep_store::Store;
use std::alloc::{AllocError, Global};
use std::collections::BTreeMap;

// What the device has of a folder that it shares.
fn begin_share<S: Store>(
    alloc: Global,
    devices: &[DeviceId],
    keys: &[(FolderName, DeviceId)],
    folder: &FolderName,
    device: DeviceId,
    sharing: Sharing<S>,
) -> Result<Replica<S>, AllocError>
    requires rising { IsStrictlyIncreasing devices.now }
    requires few { length devices.now ≤ MAX_DEVICES }
    requires there { Contains devices.now device }
    ensures { IfOk result (λ made. made ≡ begun_share S.contents S.faults devices.now keys.now (folder.now, device) sharing) }
{
    let others = sharing_with(alloc, devices, keys, folder, device)?;
    let name = folder.copy(alloc)?;
    match Replica::new(
        alloc,
        device,
        name,
        sharing.kind,
        sharing.index_id,
        others,
        sharing.store,
    ) {
        Some(replica) => Ok(replica),
        None => unreachable!(),
    }
}

// Takes the device's folders out.
pub(crate) fn take_folders<S: Store>(
    alloc: Global,
    folders: &mut DeviceMap<FolderMap<Replica<S>>>,
    device: DeviceId,
) -> FolderMap<Replica<S>>
    ensures taken { result ≡ folders_at folders.old device }
    ensures others { (other : Device) → other ≢ device → folders_at folders.new other ≡ folders_at folders.old other }
{
    match folders.remove(device) {
        Some(held) => held,
        None => FolderMap::new(alloc),
    }
}

// Gives the device the folder.
fn give_folder<S: Store>(
    alloc: Global,
    folders: &mut DeviceMap<FolderMap<Replica<S>>>,
    device: DeviceId,
    folder: FolderName,
    replica: Replica<S>,
) -> Result<(), AllocError>
    ensures here { OnOk result (folders_at folders.new device ≡ map.insert (folders_at folders.old device) folder replica) }
    ensures others { OnOk result ((other : Device) → other ≢ device → folders_at folders.new other ≡ folders_at folders.old other) }
{
    let mut held = take_folders(alloc, folders, device);
    held.insert(folder, replica)?;
    folders.insert(device, held)?;
    Ok(())
}

// Gives the share's device the folder.
fn give_share<S: Store>(
    alloc: Global,
    devices: &[DeviceId],
    keys: &[(FolderName, DeviceId)],
    folders: &mut DeviceMap<FolderMap<Replica<S>>>,
    share: ((FolderName, DeviceId), Sharing<S>),
) -> Result<(), AllocError>
    requires rising { IsStrictlyIncreasing devices.now }
    requires few { length devices.now ≤ MAX_DEVICES }
    requires there { Contains devices.now share.0.1 }
    ensures here { OnOk result (folders_at folders.new share.0.1 ≡ map.insert (folders_at folders.old share.0.1) share.0.0 (begun_share S.contents S.faults devices.now keys.now share.0 share.1)) }
    ensures others { OnOk result ((other : Device) → other ≢ share.0.1 → folders_at folders.new other ≡ folders_at folders.old other) }
{
    let ((folder, device), sharing) = share;
    let replica = begin_share(alloc, devices, keys, &folder, device, sharing)?;
    give_folder(alloc, folders, device, folder, replica)
}

// The folders of each device.
pub(crate) fn folders_of<S: Store>(
    alloc: Global,
    devices: &[DeviceId],
    keys: &[(FolderName, DeviceId)],
    shares: BTreeMap<(FolderName, DeviceId), Sharing<S>>,
) -> Result<DeviceMap<FolderMap<Replica<S>>>, AllocError>
    requires rising { IsStrictlyIncreasing devices.now }
    requires few { length devices.now ≤ MAX_DEVICES }
    requires there { (share : (Folder × Device) × SharingOf S) → Contains shares.entries share → Contains devices.now share.0.1 }
    ensures { IfOk result (λ made. (device : Device) → folders_at made device ≡ begun_folders S.contents S.faults devices.now keys.now shares.entries device) }
{
    let mut made = DeviceMap::new(alloc);
    let mut rest = shares;
    while let Some(share) = rest.pop_last() {
        give_share(alloc, devices, keys, &mut made, share)?;
    }
    Ok(made)
}
