//! Faults of documents: their numbers and names, and where they are.
ghost use Rattle.std.specs.Prelude.{◌≡◌, IfOk};
ghost use Rattle.bep_document.specs.Fault.{told_as, number_of, name_of, has_place, nowhere, at_folder, at_device, at_link, at_name};

use bep_record::{DeviceId, FolderName, Name};
use std::alloc::{AllocError, Global};

/// Why a document is refused. Where several apply, the one with the smallest number is told.
#[derive(Clone, Copy, Debug, PartialEq, Eq)]
pub enum Fault {
    /// The bytes aren't JSON, or their brackets nest too deep.
    NotJson,
    /// The document isn't an object, or its `version` isn't the number 1.
    VersionBad,
    /// A member is missing, isn't known or is of another kind.
    Shape,
    /// A number, text, hash or list is outside its range, or the document is too long.
    Range,
    /// A thing that may stand once stands twice.
    Twice,
    /// A folder is spoken of that isn't shared.
    Unshared,
    /// A record isn't well formed, or a node doesn't fit its kind.
    RecordBad,
    /// A sequence is 0, above the greatest, or there already.
    SequenceBad,
    /// A link joins no two devices in order, or is down and has messages.
    LinkBad,
}

impl Fault {
    /// The number that the product prints.
    pub fn number(self) -> u32
        ensures { result ≡ number_of self }
    {
        self.told_as().0
    }

    /// The name that the product prints.
    pub fn name(self) -> &'static str
        ensures { result.now ≡ name_of self }
    {
        self.told_as().1
    }

    fn told_as(self) -> (u32, &'static str)
        ensures { (result.0, result.1.now) ≡ told_as self }
    {
        match self {
            Fault::NotJson => (181, "NotJson"),
            Fault::VersionBad => (182, "VersionBad"),
            Fault::Shape => (183, "Shape"),
            Fault::Range => (184, "Range"),
            Fault::Twice => (185, "Twice"),
            Fault::Unshared => (186, "Unshared"),
            Fault::RecordBad => (187, "RecordBad"),
            Fault::SequenceBad => (188, "SequenceBad"),
            Fault::LinkBad => (189, "LinkBad"),
        }
    }
}

/// The fault for which a document is refused, with its place as far as it has one.
#[derive(Debug)]
pub struct DocFault {
    /// What the fault is.
    pub fault: Fault,
    /// The folder where it is.
    pub folder: Option<FolderName>,
    /// The device that holds it.
    pub device: Option<DeviceId>,
    /// The name that it is about.
    pub name: Option<Name>,
}

// By hand: a caller's proof then sees one call where it lets go of one, and not each field (docs/developing.md).
impl Drop for DocFault {
    fn drop(self) {
        let DocFault {
            fault: _,
            folder: _,
            device: _,
            name: _,
        } = self;
    }
}

impl DocFault {
    /// A fault of the whole document.
    pub fn nowhere(fault: Fault) -> Self
        ensures { result ≡ nowhere fault }
    {
        DocFault {
            fault,
            folder: None,
            device: None,
            name: None,
        }
    }

    // A fault of a folder.
    pub(crate) fn at_folder(
        alloc: Global,
        fault: Fault,
        folder: &FolderName,
    ) -> Result<Self, AllocError>
        ensures { IfOk result (λ found. found ≡ at_folder fault folder.now) }
    {
        Ok(DocFault {
            fault,
            folder: Some(folder.copy(alloc)?),
            device: None,
            name: None,
        })
    }

    // A fault of a device in a folder.
    pub(crate) fn at_device(
        alloc: Global,
        fault: Fault,
        folder: &FolderName,
        device: DeviceId,
    ) -> Result<Self, AllocError>
        ensures { IfOk result (λ found. found ≡ at_device fault folder.now device) }
    {
        Ok(DocFault {
            fault,
            folder: Some(folder.copy(alloc)?),
            device: Some(device),
            name: None,
        })
    }

    // A fault of a link, by its first device.
    pub(crate) fn at_link(fault: Fault, device: DeviceId) -> Self
        ensures { result ≡ at_link fault device }
    {
        DocFault {
            fault,
            folder: None,
            device: Some(device),
            name: None,
        }
    }

    /// A fault at a name that a device holds in a folder, or want of memory.
    pub fn at_name(
        alloc: Global,
        fault: Fault,
        folder: &FolderName,
        device: DeviceId,
        name: &Name,
    ) -> Result<Self, AllocError>
        ensures { IfOk result (λ found. found ≡ at_name fault folder.now device name.now) }
    {
        Ok(DocFault {
            fault,
            folder: Some(folder.copy(alloc)?),
            device: Some(device),
            name: Some(name.copy(alloc)?),
        })
    }

    /// Whether the fault is at some place and not of the whole document.
    pub fn has_place(&self) -> bool
        ensures { result ≡ has_place self.now.fault }
    {
        match self.fault {
            Fault::NotJson | Fault::VersionBad | Fault::Shape | Fault::Range => false,
            Fault::Twice
            | Fault::Unshared
            | Fault::RecordBad
            | Fault::SequenceBad
            | Fault::LinkBad => true,
        }
    }

    /// An equal fault of its own, or want of memory.
    pub fn copy(&self, alloc: Global) -> Result<Self, AllocError>
        ensures { IfOk result (λ made. made ≡ self.now) }
    {
        let folder = match &self.folder {
            Some(folder) => Some(folder.copy(alloc)?),
            None => None,
        };
        let name = match &self.name {
            Some(name) => Some(name.copy(alloc)?),
            None => None,
        };
        Ok(DocFault {
            fault: self.fault,
            folder,
            device: self.device,
            name,
        })
    }
}
