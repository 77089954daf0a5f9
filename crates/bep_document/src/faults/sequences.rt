//! Sequences that an index, a view or a message can't have.
ghost use Rattle.std.specs.Prelude.{◌≡◌, ◌==◌, ◌||◌, nat_lt, IfOk, Some, None, if◌then◌else◌};
ghost use Rattle.bep_index.specs.Batch.{last_sequence};
ghost use Rattle.bep_document.specs.Fault.{at_name};
ghost use Rattle.bep_document.specs.declared.fault.Fault.TheVariants.{SequenceBad};
ghost use Rattle.bep_document.specs.faults.Sequences.{sequence_in, sequence_in_view, sequence_at_share, bad_next, sequence_in_flight, first_bad_sequence};

use crate::faults::holder::Holder;
use crate::faults::judge::{Found, Judge, JudgeKeyed, first_fault, first_keyed};
use crate::faults::walks::{FlightAt, JudgeFlights, JudgeShares, ShareAt, first_in_cut};
use crate::{CheckParts, Fault, ViewParts, first_of};
use bep_record::Entry;
use std::alloc::{AllocError, Global};
use std::cmp::Ordering;

// Sequences of an index, none of which may stand twice.
#[derive(Clone, Copy)]
struct Numbered<'a> {
    at: &'a Holder<'a>,
    max: u64,
}

impl<'a> JudgeKeyed<Entry> for Numbered<'a> {
    type Key = u64;

    ghost key_of = { λ entry. entry.sequence };

    ghost fault_at = { λ judge is_again entry.
        if (entry.sequence == 0) || (nat_lt judge.max entry.sequence || is_again)
        then Some (at_name SequenceBad judge.at.now.folder.now judge.at.now.device entry.name) else None };

    fn key_of(&self, _alloc: Global, item: &Entry) -> Result<u64, AllocError> {
        Ok(item.sequence)
    }

    fn compare(&self, one: &Entry, other: &Entry) -> Ordering {
        one.sequence.cmp(&other.sequence)
    }

    fn fault_at(&self, alloc: Global, is_again: bool, item: &Entry) -> Found {
        let is_well = !is_bad(item.sequence, self.max, is_again);
        self.at
            .fault_unless(alloc, is_well, Fault::SequenceBad, &item.name)
    }
}

// Whether the sequence is 0, above the greatest, or there already.
fn is_bad(sequence: u64, max: u64, is_again: bool) -> bool
    ensures { result ≡ ((sequence == 0) || (nat_lt max sequence || is_again)) }
{
    sequence == 0 || sequence > max || is_again
}

// The first record whose sequence is 0, above the greatest or that of an earlier one, or want of memory.
fn first_unnumbered(alloc: Global, at: &Holder<'_>, max: u64, entries: &[Entry]) -> Found
    ensures { IfOk result (λ found. found ≡ sequence_in at.now.folder.now at.now.device max entries.now) }
{
    first_keyed(alloc, &Numbered { at, max }, entries)
}

// Sequences that a device's views can't have, and those of a message that don't rise.
#[derive(Clone, Copy)]
struct SequencesAt<'a> {
    at: &'a Holder<'a>,
}

impl<'a> Judge<ViewParts> for SequencesAt<'a> {
    ghost fault_at = { λ judge. sequence_in_view judge.at.now.folder.now judge.at.now.device };

    fn fault_at(&self, alloc: Global, _earlier: &[ViewParts], item: &ViewParts) -> Found {
        first_unnumbered(alloc, self.at, item.max, item.records.as_slice())
    }
}

impl<'a> Judge<Entry> for SequencesAt<'a> {
    ghost fault_at = { λ judge. bad_next judge.at.now.folder.now judge.at.now.device };

    fn fault_at(&self, alloc: Global, earlier: &[Entry], item: &Entry) -> Found {
        let is_above = item.sequence > last_sequence(earlier);
        self.at
            .fault_unless(alloc, is_above, Fault::SequenceBad, &item.name)
    }
}

// The sequence of the last record, 0 where there is none.
#[tactic(auto, using(crate::proofs::faults::LastFacts::last_at_end))]
fn last_sequence(entries: &[Entry]) -> u64
    ensures { result ≡ last_sequence 0 entries.now }
{
    match entries.last() {
        Some(entry) => entry.sequence,
        None => 0,
    }
}

// Sequences that can't be in a cut.
#[derive(Clone, Copy)]
struct SequencesInCut;

impl JudgeShares for SequencesInCut {
    ghost fault_at_share = { λ _ folder. sequence_at_share folder.folder };

    #[tactic(auto, unfolding(crate::specs::faults::Sequences::sequence_at_share))]
    fn fault_at_share(&self, alloc: Global, place: &ShareAt<'_>) -> Found {
        let share = place.share;
        let at = &Holder::of_share(place);
        first_of!(
            first_unnumbered(alloc, at, share.max, share.own.as_slice()),
            first_fault(alloc, &SequencesAt { at }, share.views.as_slice())
        )
    }
}

impl JudgeFlights for SequencesInCut {
    ghost fault_in_flight = { λ _ _. sequence_in_flight };

    fn fault_in_flight(&self, alloc: Global, place: &FlightAt<'_>) -> Found {
        let at = &Holder::of_flight(place);
        first_fault(alloc, &SequencesAt { at }, place.flight.records.as_slice())
    }
}

// The first sequence that can't be, in the folders or else on the links, or want of memory.
#[tactic(auto, unfolding(crate::specs::faults::Sequences::first_bad_sequence, crate::specs::faults::Sequences::sequence_at_folder, crate::specs::faults::Sequences::sequence_at_link))]
pub(crate) fn first_bad_sequence(alloc: Global, parts: &CheckParts) -> Found
    ensures { IfOk result (λ found. found ≡ first_bad_sequence parts.now) }
{
    first_in_cut(alloc, &SequencesInCut, parts)
}
