//! The rows of certificates.
ghost use Rattle.std.specs.Prelude.{◌≡◌, IfOk};

use bep_record::{DeviceId, FolderName, Record};
use std::alloc::{AllocError, Global};

/// A row of a certificate: the winner of a name in a folder, with the device that has it.
#[derive(Debug, Drop)]
pub struct Row {
    /// The folder that the row is about.
    pub folder: FolderName,
    /// The device whose record wins.
    pub device: DeviceId,
    /// The winning record; its name is the name that the row is about.
    pub entry: Record,
}

impl Row {
    /// The row of this device and this record in the folder, with copies of its own; or want of memory.
    pub fn of(
        alloc: Global,
        folder: &FolderName,
        device: DeviceId,
        entry: &Record,
    ) -> Result<Self, AllocError>
        ensures { IfOk result (λ made. made ≡ (record { folder = folder.now; device = device; entry = entry.now })) }
    {
        Ok(Row {
            folder: folder.copy(alloc)?,
            device,
            entry: entry.copy(alloc)?,
        })
    }

    /// An equal row of its own, or want of memory.
    pub fn copy(&self, alloc: Global) -> Result<Self, AllocError>
        ensures { IfOk result (λ made. made ≡ self.now) }
    {
        Row::of(alloc, &self.folder, self.device, &self.entry)
    }
}
