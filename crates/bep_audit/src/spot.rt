//! A place at which a reason fails.
ghost use Rattle.std.specs.Prelude.{◌≡◌, None};
ghost use Rattle.bep_model.specs.Reasons.{Place, place_cmp, device_rank};
ghost use Rattle.bep_audit.specs.Shown.{place_shown, name_of, part_of};

use bep_model::Row;
use bep_record::{DeviceId, FolderName, Name};
use std::cmp::Ordering;

/// Where a reason fails, lent: a name in a folder, and the device where it fails at one.
#[derive(Clone, Copy, Debug, PartialEq, Eq)]
pub struct Spot<'a> {
    /// The folder.
    pub folder: &'a FolderName,
    /// The name.
    pub name: &'a Name,
    /// The device, where it fails at one.
    pub device: Option<DeviceId>,
}

impl<'a> Spot<'a> {
    /// A name as a whole.
    pub fn of_name(folder: &'a FolderName, name: &'a Name) -> Self
        ensures { place_shown result ≡ (record { folder = folder.now; name = name.now; device = None }) }
    {
        Spot {
            folder,
            name,
            device: None,
        }
    }

    /// The name that a row is about, as a whole.
    pub fn of_row(row: &'a Row) -> Self
        ensures { place_shown result ≡ name_of row.now }
    {
        Spot::of_name(&row.folder, &row.entry.entry().name)
    }

    /// A device's part of the name that a row is about.
    pub fn of_device(row: &'a Row, device: DeviceId) -> Self
        ensures { place_shown result ≡ part_of row.now device }
    {
        Spot {
            folder: &row.folder,
            name: &row.entry.entry().name,
            device: Some(device),
        }
    }

    /// How two places compare: by folder, then by name, then by device; no device comes before each device.
    pub fn compare(&self, other: &Spot<'_>) -> Ordering
        ensures { result ≡ place_cmp (place_shown self.now) (place_shown other.now) }
    {
        let devices = rank_of(self.device).cmp(&rank_of(other.device));
        let names = self.name.cmp(other.name);
        self.folder.cmp(other.folder).then(names.then(devices))
    }
}

// The device's place among all devices; no device has the first.
fn rank_of(device: Option<DeviceId>) -> u128
    ensures { result ≡ device_rank device }
{
    match device {
        None => 0,
        Some(device) => u128::from(device.number()) + 1,
    }
}
