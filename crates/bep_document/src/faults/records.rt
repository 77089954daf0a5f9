//! Records that aren't well formed, and nodes that don't fit their kind.
ghost use Rattle.std.specs.Prelude.{◌≡◌, IfOk};
ghost use Rattle.bep_document.specs.faults.Records.{is_well_formed, is_node, bad_entry, bad_pull, bad_node, bad_in_view, bad_at_share, bad_in_flight, bad_row, first_bad};

use crate::faults::holder::Holder;
use crate::faults::judge::{Found, Judge, first_fault};
use crate::faults::walks::{FlightAt, JudgeFlights, JudgeShares, ShareAt, first_in_cut};
use crate::{CheckParts, Fault, RowParts, ViewParts, first_of};
use bep_json::NamedParts;
use bep_record::{Entry, NodeParts};
use std::alloc::Global;

// What is bad at a device: a record, a node, or a record in a view.
#[derive(Clone, Copy)]
struct BadAtDevice<'a> {
    at: &'a Holder<'a>,
}

impl<'a> Judge<Entry> for BadAtDevice<'a> {
    ghost fault_at = { λ judge. bad_entry judge.at.now.folder.now judge.at.now.device };

    fn fault_at(&self, alloc: Global, _earlier: &[Entry], item: &Entry) -> Found {
        let is_well = is_well_formed(item);
        self.at
            .fault_unless(alloc, is_well, Fault::RecordBad, &item.name)
    }
}

impl<'a> Judge<NamedParts> for BadAtDevice<'a> {
    ghost fault_at = { λ judge. bad_node judge.at.now.folder.now judge.at.now.device };

    fn fault_at(&self, alloc: Global, _earlier: &[NamedParts], item: &NamedParts) -> Found {
        let is_well = is_node(&item.parts);
        self.at
            .fault_unless(alloc, is_well, Fault::RecordBad, &item.name)
    }
}

impl<'a> Judge<ViewParts> for BadAtDevice<'a> {
    ghost fault_at = { λ judge. bad_in_view judge.at.now.folder.now judge.at.now.device };

    fn fault_at(&self, alloc: Global, _earlier: &[ViewParts], item: &ViewParts) -> Found {
        first_fault(alloc, self, item.records.as_slice())
    }
}

// Records that a device can't pull.
#[derive(Clone, Copy)]
struct BadPulls<'a> {
    at: &'a Holder<'a>,
}

impl<'a> Judge<Entry> for BadPulls<'a> {
    ghost fault_at = { λ judge. bad_pull judge.at.now.folder.now judge.at.now.device };

    fn fault_at(&self, alloc: Global, _earlier: &[Entry], item: &Entry) -> Found {
        let is_well = is_well_formed(item) && !item.invalid;
        self.at
            .fault_unless(alloc, is_well, Fault::RecordBad, &item.name)
    }
}

// What is bad in a document.
#[derive(Clone, Copy)]
struct BadInDocument;

impl JudgeShares for BadInDocument {
    ghost fault_at_share = { λ _ folder. bad_at_share folder.folder };

    #[tactic(auto, unfolding(crate::specs::faults::Records::bad_at_share))]
    fn fault_at_share(&self, alloc: Global, place: &ShareAt<'_>) -> Found {
        let share = place.share;
        let at = &Holder::of_share(place);
        let judge = BadAtDevice { at };
        first_of!(
            first_fault(alloc, &judge, share.own.as_slice()),
            first_fault(alloc, &judge, share.store.as_slice()),
            first_fault(alloc, &judge, share.views.as_slice()),
            first_fault(alloc, &BadPulls { at }, share.pulls.as_slice())
        )
    }
}

impl JudgeFlights for BadInDocument {
    ghost fault_in_flight = { λ _ _. bad_in_flight };

    fn fault_in_flight(&self, alloc: Global, place: &FlightAt<'_>) -> Found {
        let at = &Holder::of_flight(place);
        first_fault(alloc, &BadAtDevice { at }, place.flight.records.as_slice())
    }
}

impl Judge<RowParts> for BadInDocument {
    ghost fault_at = { λ _. bad_row };

    #[tactic(auto, unfolding(crate::specs::faults::Records::bad_row))]
    fn fault_at(&self, alloc: Global, _earlier: &[RowParts], item: &RowParts) -> Found {
        let at = &Holder {
            folder: &item.folder,
            device: item.device,
        };
        BadAtDevice { at }.fault_at(alloc, &[], &item.entry)
    }
}

// What is bad first, in the folders, or else on the links, or else in the certificate, or want of memory.
#[tactic(auto, unfolding(crate::specs::faults::Records::first_bad, crate::specs::faults::Records::bad_at_folder, crate::specs::faults::Records::bad_at_link))]
pub(crate) fn first_bad(alloc: Global, parts: &CheckParts) -> Found
    ensures { IfOk result (λ found. found ≡ first_bad parts.now) }
{
    first_of!(
        first_in_cut(alloc, &BadInDocument, parts),
        first_fault(alloc, &BadInDocument, parts.certificate.as_slice())
    )
}

// Whether the fields are a record.
#[tactic(auto, using(crate::proofs::faults::RecordTests::well_formed_decides))]
fn is_well_formed(entry: &Entry) -> bool
    ensures { result ≡ is_well_formed entry.now }
{
    entry.is_well_formed()
}

/// Whether the parts are a node.
#[tactic(auto, using(crate::proofs::faults::RecordTests::node_decides))]
pub fn is_node(parts: &NodeParts) -> bool
    ensures { result ≡ is_node parts.now }
{
    parts.is_node()
}
