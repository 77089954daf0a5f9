//! What a round is to bring.
use bep_record::{DeviceId, FolderName, Name};

/// A name that a device is to be brought, by a device that has its record.
#[derive(Debug)]
pub struct Wanted {
    /// The device that isn't there yet.
    pub device: DeviceId,
    /// The device that has the record.
    pub owner: DeviceId,
    /// The folder.
    pub folder: FolderName,
    /// The name.
    pub name: Name,
}

// By hand: a caller's proof then sees one call where it lets go of one, and not each field (docs/developing.md).
impl Drop for Wanted {
    fn drop(self) {
        let Wanted {
            device: _,
            owner: _,
            folder: _,
            name: _,
        } = self;
    }
}
