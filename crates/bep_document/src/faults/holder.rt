//! Where the faults of records, nodes and views are told.
ghost use Rattle.std.specs.Prelude.{◌≡◌, IfOk, Some, None, if◌then◌else◌};
ghost use Rattle.bep_document.specs.Fault.{at_device, at_name};

use crate::faults::judge::Found;
use crate::faults::walks::{FlightAt, ShareAt};
use crate::{DocFault, Fault};
use bep_record::{DeviceId, FolderName, Name};
use std::alloc::{AllocError, Global};

/// A device of a folder, which holds what is judged, or is about to receive it.
#[derive(Clone, Copy)]
pub(crate) struct Holder<'a> {
    /// The folder.
    pub(crate) folder: &'a FolderName,
    /// The device.
    pub(crate) device: DeviceId,
}

impl<'a> Holder<'a> {
    // A device that shares a folder.
    pub(crate) fn of_share(place: &ShareAt<'a>) -> Self
        ensures folder { result.folder.now ≡ place.now.folder.now.folder }
        ensures device { result.device ≡ place.now.share.now.device }
    {
        Holder {
            folder: &place.folder.folder,
            device: place.share.device,
        }
    }

    // A device to which a message is on its way.
    pub(crate) fn of_flight(place: &FlightAt<'a>) -> Self
        ensures folder { result.folder.now ≡ place.now.flight.now.folder }
        ensures device { result.device ≡ place.now.receiver }
    {
        Holder {
            folder: &place.flight.folder,
            device: place.receiver,
        }
    }

    // A fault of the device.
    pub(crate) fn fault(&self, alloc: Global, fault: Fault) -> Result<DocFault, AllocError>
        ensures { IfOk result (λ found. found ≡ at_device fault self.now.folder.now self.now.device) }
    {
        DocFault::at_device(alloc, fault, self.folder, self.device)
    }

    // A fault at a name, unless all is well there.
    pub(crate) fn fault_unless(
        &self,
        alloc: Global,
        is_well: bool,
        fault: Fault,
        name: &Name,
    ) -> Found
        ensures { IfOk result (λ found.
            found ≡ (if is_well then None else Some (at_name fault self.now.folder.now self.now.device name.now))) }
    {
        if is_well {
            return Ok(None);
        }
        let found = DocFault::at_name(alloc, fault, self.folder, self.device, name)?;
        Ok(Some(found))
    }
}
