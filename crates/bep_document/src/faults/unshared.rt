//! Views of devices, and messages of folders, that aren't shared.
ghost use Rattle.std.specs.Prelude.{◌≡◌, ◌&&◌, nat_eq, IfOk};
ghost use Rattle.std.specs.Cmp.Lexicographic.{pointwise};
ghost use Rattle.bep_document.specs.faults.Unshared.{has_device, shares, bad_view, unshared_at_share, bad_flight, first_unshared};

use crate::faults::holder::Holder;
use crate::faults::judge::{Found, Judge, first_fault};
use crate::faults::walks::{FlightAt, JudgeFlights, JudgeShares, ShareAt, first_in_cut};
use crate::{CheckParts, DocFault, Fault, FolderParts, ShareParts, ViewParts};
use bep_record::{DeviceId, FolderName};
use std::alloc::Global;

// Views of a device that can't be, in a folder that these devices share.
#[derive(Clone, Copy)]
struct UnsharedViews<'a> {
    at: &'a Holder<'a>,
    devices: &'a [ShareParts],
}

impl<'a> Judge<ViewParts> for UnsharedViews<'a> {
    ghost fault_at = { λ judge. bad_view judge.at.now.folder.now judge.devices.now judge.at.now.device };

    fn fault_at(&self, alloc: Global, _earlier: &[ViewParts], item: &ViewParts) -> Found {
        if item.of == self.at.device || !has_device(self.devices, item.of) {
            let fault = self.at.fault(alloc, Fault::Unshared)?;
            return Ok(Some(fault));
        }
        Ok(None)
    }
}

// What isn't shared in a cut of these folders.
#[derive(Clone, Copy)]
struct UnsharedInCut<'a> {
    folders: &'a [FolderParts],
}

impl<'a> JudgeShares for UnsharedInCut<'a> {
    ghost fault_at_share = { λ _ folder. unshared_at_share folder.folder folder.devices };

    #[tactic(auto, unfolding(crate::specs::faults::Unshared::unshared_at_share))]
    fn fault_at_share(&self, alloc: Global, place: &ShareAt<'_>) -> Found {
        let judge = UnsharedViews {
            at: &Holder::of_share(place),
            devices: place.folder.devices.as_slice(),
        };
        first_fault(alloc, &judge, place.share.views.as_slice())
    }
}

impl<'a> JudgeFlights for UnsharedInCut<'a> {
    ghost fault_in_flight = { λ judge. bad_flight judge.folders.now };

    fn fault_in_flight(&self, alloc: Global, place: &FlightAt<'_>) -> Found {
        let link = place.link;
        let folder = &place.flight.folder;
        if shares(self.folders, folder, link.a) && shares(self.folders, folder, link.b) {
            return Ok(None);
        }
        let fault = DocFault::at_device(alloc, Fault::Unshared, folder, place.receiver)?;
        Ok(Some(fault))
    }
}

// The first view or message of what isn't shared, or want of memory.
#[tactic(auto, unfolding(crate::specs::faults::Unshared::first_unshared, crate::specs::faults::Unshared::unshared_at_folder, crate::specs::faults::Unshared::unshared_at_link))]
pub(crate) fn first_unshared(alloc: Global, parts: &CheckParts) -> Found
    ensures { IfOk result (λ found. found ≡ first_unshared parts.now) }
{
    let judge = UnsharedInCut {
        folders: parts.folders.as_slice(),
    };
    first_in_cut(alloc, &judge, parts)
}

// Whether one of these is the device.
pub(crate) fn has_device(shares: &[ShareParts], device: DeviceId) -> bool
    ensures { result ≡ has_device device shares.now }
{
    shares.iter().any(|share| share.device == device)
}

// Whether the device shares the folder.
fn shares(folders: &[FolderParts], name: &FolderName, device: DeviceId) -> bool
    ensures { result ≡ shares folders.now name.now device }
{
    folders.iter().any(|folder| is_shared(folder, name, device))
}

// Whether this is the folder, and the device shares it.
fn is_shared(folder: &FolderParts, name: &FolderName, device: DeviceId) -> bool
    ensures { result ≡ (pointwise nat_eq folder.now.folder name.now && has_device device folder.now.devices) }
{
    folder.folder == *name && has_device(folder.devices.as_slice(), device)
}
