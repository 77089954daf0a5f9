//! Growths that are taken back where the next one fails.
ghost use Rattle.std.specs.Prelude.{◌≡◌, ◌↔◌, ◌<◌, ◌+◌, true, false, length, if◌then◌else◌, IsTrue, OnOk, OnErr};
ghost use Rattle.std.specs.Ordering.{nat_cmp};
ghost use Rattle.std.specs.BTreeMap.{insert_entry};
ghost use Rattle.std.specs.BTreeSet.{contains, insert_key, Updates};
ghost use Rattle.bep_record.specs.declared.limits.TheConstants.{MAX_DEVICES};
ghost use Rattle.bep_config.specs.Config.{by_share};

use crate::Sharing;
use bep_record::{DeviceId, FolderName, MAX_DEVICES};
use std::alloc::AllocError;
use std::collections::{BTreeMap, BTreeSet};

// Whether the device is one of these, or there may be one more.
pub(crate) fn has_room(devices: &BTreeSet<DeviceId>, device: DeviceId) -> bool
    ensures { IsTrue result ↔ (contains nat_cmp devices.now device ≡ false → length devices.now.keys < MAX_DEVICES) }
{
    if devices.contains(&device) {
        return true;
    }
    devices.len() < MAX_DEVICES
}

// Adds what the device has of the folder, and the device if it is new; without memory both are as before.
pub(crate) fn add_share<S: Drop>(
    devices: &mut BTreeSet<DeviceId>,
    shares: &mut BTreeMap<(FolderName, DeviceId), Sharing<S>>,
    key: (FolderName, DeviceId),
    sharing: Sharing<S>,
) -> Result<(), AllocError>
    ensures devices { OnOk result (devices.new.keys ≡ insert_key nat_cmp devices.old.keys key.1) }
    ensures shares { OnOk result (shares.new.entries ≡ insert_entry by_share shares.old.entries key sharing) }
    ensures kept { OnOk result (Updates nat_cmp devices.old devices.new key.1 true) }
    ensures len { OnOk result (length devices.new.keys ≡ length devices.old.keys + (if contains nat_cmp devices.old key.1 then 0 else 1)) }
    ensures err_devices { OnErr result (devices.new.keys ≡ devices.old.keys) }
    ensures err_shares { OnErr result (shares.new.entries ≡ shares.old.entries) }
{
    let device = key.1;
    let is_new = devices.insert(device)?;
    if put(shares, key, sharing).is_err() {
        if is_new {
            devices.remove(&device);
        }
        return Err(AllocError);
    }
    Ok(())
}

// Adds what the device has of the folder, or puts it in place of what it had.
fn put<S: Drop>(
    shares: &mut BTreeMap<(FolderName, DeviceId), Sharing<S>>,
    key: (FolderName, DeviceId),
    sharing: Sharing<S>,
) -> Result<(), AllocError>
    ensures ok { OnOk result (shares.new.entries ≡ insert_entry by_share shares.old.entries key sharing) }
    ensures err { OnErr result (shares.new.entries ≡ shares.old.entries) }
{
    drop(shares.insert(key, sharing)?);
    Ok(())
}
