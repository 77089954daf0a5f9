//! The other devices that share a folder with a device, and those with which it has links.
ghost use Rattle.std.specs.Prelude.{◌≡◌, ◌≤◌, length, Contains, IfOk, OnOk};
ghost use Rattle.std.specs.Map.{keys_of};
ghost use Rattle.std.specs.List.Sorted.{IsStrictlyIncreasing};
ghost use Rattle.std.specs.BTreeMap.{is_at};
ghost use Rattle.bep_record.specs.declared.limits.TheConstants.{MAX_DEVICES};
ghost use Rattle.bep_config.specs.Config.{by_share};
ghost use Rattle.bep_core.specs.Begin.{is_shared, is_linked, sharing_with, linked_with};

use bep_config::Config;
use bep_record::{DeviceId, FolderName};
use std::alloc::{AllocError, Global};
use std::collections::BTreeSet;

// The devices, rising.
pub(crate) fn numbers_of<S>(alloc: Global, config: &Config<S>) -> Result<Vec<DeviceId>, AllocError>
    ensures value { IfOk result (λ made. made.items ≡ config.now.devices) }
    ensures rising { IsStrictlyIncreasing config.now.devices }
{
    let mut made = Vec::new(alloc);
    for device in config.devices() {
        made.push(*device)?;
    }
    Ok(made)
}

// Which device shares which folder.
pub(crate) fn sharing_of<S>(
    alloc: Global,
    config: &Config<S>,
) -> Result<Vec<(FolderName, DeviceId)>, AllocError>
    ensures { IfOk result (λ made. made.items ≡ keys_of config.now.shares) }
{
    let mut made = Vec::new(alloc);
    for (key, _) in config.shares() {
        made.push((key.0.copy(alloc)?, key.1))?;
    }
    Ok(made)
}

// Whether the device shares the folder.
fn is_shared(keys: &[(FolderName, DeviceId)], folder: &FolderName, device: DeviceId) -> bool
    ensures { result ≡ is_shared keys.now folder.now device }
{
    keys.iter().any(|key| is_of(key, folder, device))
}

fn is_of(key: &(FolderName, DeviceId), folder: &FolderName, device: DeviceId) -> bool
    ensures { result ≡ is_at (by_share (folder.now, device)) key.now }
{
    folder.cmp(&key.0).then(device.cmp(&key.1)).is_eq()
}

// Whether a link joins the two.
fn is_linked(links: &BTreeSet<(DeviceId, DeviceId)>, device: DeviceId, other: DeviceId) -> bool
    ensures { result ≡ is_linked links.now.keys device other }
{
    if links.contains(&(device, other)) {
        return true;
    }
    links.contains(&(other, device))
}

// The other devices that share the folder, rising.
pub(crate) fn sharing_with(
    alloc: Global,
    devices: &[DeviceId],
    keys: &[(FolderName, DeviceId)],
    folder: &FolderName,
    device: DeviceId,
) -> Result<Vec<DeviceId>, AllocError>
    ensures { IfOk result (λ made. made.items ≡ sharing_with devices.now keys.now folder.now device) }
{
    let mut made = Vec::new(alloc);
    for other in devices {
        if *other != device && is_shared(keys, folder, *other) {
            made.push(*other)?;
        }
    }
    Ok(made)
}

// The other devices with which the device has a link, rising.
pub(crate) fn linked_with(
    alloc: Global,
    devices: &[DeviceId],
    links: &BTreeSet<(DeviceId, DeviceId)>,
    device: DeviceId,
) -> Result<Vec<DeviceId>, AllocError>
    ensures { IfOk result (λ made. made.items ≡ linked_with devices.now links.now.keys device) }
{
    let mut made = Vec::new(alloc);
    for other in devices {
        if *other != device && is_linked(links, device, *other) {
            made.push(*other)?;
        }
    }
    Ok(made)
}
