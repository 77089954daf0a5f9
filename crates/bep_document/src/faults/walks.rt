//! Walks through a cut: the devices of each folder, and what is on its way over each link.
ghost use Rattle.std.specs.Prelude.{◌≡◌, ℕ, IfOk, List, Option, []};
ghost use Rattle.bep_document.specs.declared.fault.DocFault.{DocFault};
ghost use Rattle.bep_document.specs.declared.parts.ShareParts.{ShareParts};
ghost use Rattle.bep_document.specs.declared.parts.FolderParts.{FolderParts};
ghost use Rattle.bep_document.specs.declared.parts.FlightParts.{FlightParts};
ghost use Rattle.bep_document.specs.declared.parts.LinkParts.{LinkParts};
ghost use Rattle.bep_document.specs.faults.Judge.{◌else_at◌, first_in};
ghost use Rattle.bep_document.specs.faults.Walks.{at_shares, on_link};

use crate::faults::judge::{Found, Judge, first_fault};
use crate::{CheckParts, FlightParts, FolderParts, LinkParts, ShareParts, first_of};
use bep_record::DeviceId;
use std::alloc::Global;

/// A device of a folder, with the devices before it.
#[derive(Clone, Copy)]
pub(crate) struct ShareAt<'a> {
    /// The folder.
    pub(crate) folder: &'a FolderParts,
    /// The devices before it.
    pub(crate) earlier: &'a [ShareParts],
    /// The device.
    pub(crate) share: &'a ShareParts,
}

/// A judge of the devices of a folder, which looks for one kind of fault.
pub(crate) trait JudgeShares {
    /// The first fault at a device of the folder, given the devices before it.
    ghost fault_at_share: { Self → FolderParts → List ShareParts → ShareParts → Option DocFault };

    /// The first fault at the device, or want of memory.
    fn fault_at_share(&self, alloc: Global, place: &ShareAt<'_>) -> Found
        ensures { IfOk result (λ found. found ≡ fault_at_share self.now place.now.folder.now place.now.earlier.now place.now.share.now) };
}

/// A message that is on its way over a link, with those that arrive before it.
#[derive(Clone, Copy)]
pub(crate) struct FlightAt<'a> {
    /// The link.
    pub(crate) link: &'a LinkParts,
    /// The device to which it is on its way.
    pub(crate) receiver: DeviceId,
    /// The messages that arrive before it.
    pub(crate) earlier: &'a [FlightParts],
    /// The message.
    pub(crate) flight: &'a FlightParts,
}

/// A judge of the messages that are on their way over a link, which looks for one kind of fault.
pub(crate) trait JudgeFlights {
    /// The first fault in a message to the device, given those that arrive before it.
    ghost fault_in_flight: { Self → LinkParts → ℕ → List FlightParts → FlightParts → Option DocFault };

    /// The first fault in the message, or want of memory.
    fn fault_in_flight(&self, alloc: Global, place: &FlightAt<'_>) -> Found
        ensures { IfOk result (λ found. found ≡ fault_in_flight self.now place.now.link.now place.now.receiver place.now.earlier.now place.now.flight.now) };
}

// The devices of a folder, before a judge.
#[derive(Drop)]
struct SharesOf<'a, J> {
    judge: &'a J,
    folder: &'a FolderParts,
}

impl<'a, J: JudgeShares> Judge<ShareParts> for SharesOf<'a, J> {
    ghost fault_at = { λ shares. J.fault_at_share shares.judge.now shares.folder.now };

    fn fault_at(&self, alloc: Global, earlier: &[ShareParts], item: &ShareParts) -> Found {
        let place = &ShareAt {
            folder: self.folder,
            earlier,
            share: item,
        };
        self.judge.fault_at_share(alloc, place)
    }
}

// The first fault at the devices of the folder, or want of memory.
pub(crate) fn first_at_shares<J: JudgeShares>(
    alloc: Global,
    judge: &J,
    folder: &FolderParts,
) -> Found
    ensures { IfOk result (λ found. found ≡ at_shares (J.fault_at_share judge.now) [] folder.now) }
{
    first_fault(
        alloc,
        &SharesOf { judge, folder },
        folder.devices.as_slice(),
    )
}

// What is on its way over a link to one of its ends, before a judge.
#[derive(Drop)]
struct FlightsTo<'a, J> {
    judge: &'a J,
    link: &'a LinkParts,
    receiver: DeviceId,
}

impl<'a, J: JudgeFlights> Judge<FlightParts> for FlightsTo<'a, J> {
    ghost fault_at = { λ flights. J.fault_in_flight flights.judge.now flights.link.now flights.receiver };

    fn fault_at(&self, alloc: Global, earlier: &[FlightParts], item: &FlightParts) -> Found {
        let place = &FlightAt {
            link: self.link,
            receiver: self.receiver,
            earlier,
            flight: item,
        };
        self.judge.fault_in_flight(alloc, place)
    }
}

// The first fault in what is on its way to the device, or want of memory.
fn first_to<J: JudgeFlights>(
    alloc: Global,
    judge: &J,
    link: &LinkParts,
    receiver: DeviceId,
    flights: &[FlightParts],
) -> Found
    ensures { IfOk result (λ found. found ≡ first_in (J.fault_in_flight judge.now link.now receiver) [] flights.now) }
{
    first_fault(
        alloc,
        &FlightsTo {
            judge,
            link,
            receiver,
        },
        flights,
    )
}

// The first fault in what is on its way over the link, to its first device and then to the other, or want of memory.
pub(crate) fn first_on_link<J: JudgeFlights>(alloc: Global, judge: &J, link: &LinkParts) -> Found
    ensures { IfOk result (λ found. found ≡ on_link (J.fault_in_flight judge.now) [] link.now) }
{
    first_of!(
        first_to(alloc, judge, link, link.a, link.to_a.as_slice()),
        first_to(alloc, judge, link, link.b, link.to_b.as_slice())
    )
}

// Each folder, before a judge of its devices, and each link, before a judge of what is on its way.
#[derive(Drop)]
struct InCut<'a, J> {
    judge: &'a J,
}

impl<'a, J: JudgeShares> Judge<FolderParts> for InCut<'a, J> {
    ghost fault_at = { λ all. at_shares (J.fault_at_share all.judge.now) };

    fn fault_at(&self, alloc: Global, _earlier: &[FolderParts], item: &FolderParts) -> Found {
        first_at_shares(alloc, self.judge, item)
    }
}

impl<'a, J: JudgeFlights> Judge<LinkParts> for InCut<'a, J> {
    ghost fault_at = { λ all. on_link (J.fault_in_flight all.judge.now) };

    fn fault_at(&self, alloc: Global, _earlier: &[LinkParts], item: &LinkParts) -> Found {
        first_on_link(alloc, self.judge, item)
    }
}

// The first fault in the folders, or else on the links, or want of memory.
pub(crate) fn first_in_cut<J: JudgeShares + JudgeFlights>(
    alloc: Global,
    judge: &J,
    parts: &CheckParts,
) -> Found
    ensures { IfOk result (λ found. found ≡ (
        first_in (at_shares (J.fault_at_share judge.now)) [] parts.now.folders
        else_at first_in (on_link (J.fault_in_flight judge.now)) [] parts.now.links)) }
{
    first_of!(
        first_fault(alloc, &InCut { judge }, parts.folders.as_slice()),
        first_fault(alloc, &InCut { judge }, parts.links.as_slice())
    )
}
