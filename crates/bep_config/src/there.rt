//! What a configuration has already. Nothing here takes memory.
ghost use Rattle.std.specs.Prelude.{◌≡◌, is_some};
ghost use Rattle.std.specs.List.{list_any};
ghost use Rattle.std.specs.Map.{lookup};
ghost use Rattle.std.specs.BTreeMap.{is_at};
ghost use Rattle.bep_config.specs.Config.{by_name, by_share};

use crate::Sharing;
use bep_record::{DeviceId, FolderName};
use std::collections::{BTreeMap, BTreeSet};

// Whether there is a folder of this name.
pub(crate) fn has_folder(folders: &BTreeSet<FolderName>, name: &[u8]) -> bool
    ensures { result ≡ list_any (is_at (by_name name.now)) folders.now.keys }
{
    folders.iter().any(|folder| is_named(folder, name))
}

fn is_named(folder: &FolderName, name: &[u8]) -> bool
    ensures { result ≡ is_at (by_name name.now) folder.now }
{
    name.cmp(folder.as_bytes()).is_eq()
}

// Whether the device shares the folder.
pub(crate) fn shares_folder<S>(
    shares: &BTreeMap<(FolderName, DeviceId), Sharing<S>>,
    folder: &FolderName,
    device: DeviceId,
) -> bool
    ensures { result ≡ is_some (lookup (is_at (by_share (folder.now, device))) shares.now.entries) }
{
    for (key, _) in shares.iter() {
        if is_of(key, folder, device) {
            return true;
        }
    }
    false
}

fn is_of(key: &(FolderName, DeviceId), folder: &FolderName, device: DeviceId) -> bool
    ensures { result ≡ is_at (by_share (folder.now, device)) key.now }
{
    folder.cmp(&key.0).then(device.cmp(&key.1)).is_eq()
}
