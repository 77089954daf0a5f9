//! How many different devices share the folders of a cut.
ghost use Rattle.std.specs.Prelude.{◌≡◌, ◌==◌, ◌≤◌, nat_le, IfOk, length, map, []};
ghost use Rattle.std.specs.Bool.{OnTrue};
ghost use Rattle.bep_document.specs.read.Devices.{is_one_of, with_others, with_devices, has_few_devices};
ghost use Rattle.bep_record.specs.declared.limits.TheConstants.{MAX_DEVICES};

use crate::{FolderParts, ShareParts};
use bep_record::{DeviceId, MAX_DEVICES};
use std::alloc::{AllocError, Global};

/// Whether at most 16 different devices share the folders, or want of memory.
pub fn has_few_devices(alloc: Global, folders: &[FolderParts]) -> Result<bool, AllocError>
    ensures { IfOk result (λ few. few ≡ has_few_devices folders.now) }
{
    let mut known = Vec::new(alloc);
    for folder in folders {
        let few = add_devices(&mut known, folder.devices.as_slice())?;
        if !few {
            return Ok(false);
        }
    }
    Ok(true)
}

// Puts the devices that aren't known yet behind the known ones, and tells whether at most 16 are known then.
fn add_devices(known: &mut Vec<DeviceId>, shares: &[ShareParts]) -> Result<bool, AllocError>
    requires { length known.old.items ≤ MAX_DEVICES }
    ensures few { IfOk result (λ few. few ≡ nat_le (length (with_others known.old.items (map (λ share. share.device) shares.now))) MAX_DEVICES) }
    ensures known { IfOk result (λ few. OnTrue few (known.new.items ≡ with_others known.old.items (map (λ share. share.device) shares.now))) }
{
    for share in shares {
        if is_one_of(known.as_slice(), share.device) {
            continue;
        }
        if known.len() == MAX_DEVICES {
            return Ok(false);
        }
        known.push(share.device)?;
    }
    Ok(true)
}

// Whether the device is one of these.
fn is_one_of(devices: &[DeviceId], device: DeviceId) -> bool
    ensures { result ≡ is_one_of devices.now device }
{
    devices.iter().any(|known| *known == device)
}
