//! Which records of its index a device sends next, and in which message.
ghost use Rattle.std.specs.Prelude.{◌≡◌, false, List, [], IsTrue, IfOk};
ghost use Rattle.bep_record.specs.declared.entry.Entry.{Entry};
ghost use Rattle.bep_index.specs.declared.limits.TheConstants.{MAX_RECORDS};
ghost use Rattle.bep_index.specs.After.{IsAfter};
ghost use Rattle.bep_index.specs.Batch.{last_sequence};
ghost use Rattle.bep_machine.specs.Exchange.{IsAllSent, index_message, sent_up_to};

use bep_index::{Batch, Index, MAX_RECORDS, Plan};
use bep_machine::Message;
use bep_record::FolderName;
use std::alloc::{AllocError, Global};

/// The records that are sent next: the first 1000 above the cursor, or want of memory.
///
/// BEP v1, 'Index' and 'Index Update'; the limit is this project's profile.
pub fn next_batch(alloc: Global, index: &Index, cursor: Plan) -> Result<Batch, AllocError>
    ensures { IfOk result (λ batch. IsAfter index.now.records (sent_up_to cursor) MAX_RECORDS batch) }
{
    let found = index.after(alloc, sent_up_to(cursor), MAX_RECORDS)?;
    Ok(Batch::of(found)?)
}

/// Whether nothing is left to send. An Index is sent even if it is empty. It takes no memory.
pub fn is_all_sent(cursor: Plan, index: &Index) -> bool
    ensures all { IsTrue result → IsAllSent cursor [] × IsAfter index.now.records (sent_up_to cursor) MAX_RECORDS [] }
    ensures some { result ≡ false → (batch : List Entry) → IsAfter index.now.records (sent_up_to cursor) MAX_RECORDS batch → ¬ IsAllSent cursor batch }
    ensures next { (batch : List Entry) × IsAfter index.now.records (sent_up_to cursor) MAX_RECORDS batch }
{
    let place = index.place_above(sent_up_to(cursor));
    match cursor {
        Plan::Full => false,
        Plan::Above(_) => index.at(place).is_none(),
    }
}

/// The sequence up to which is sent with the batch.
pub fn sent_with(cursor: Plan, batch: &Batch) -> u64
    ensures { result ≡ last_sequence (sent_up_to cursor) batch.now }
{
    match batch.as_slice().last() {
        Some(last) => last.entry().sequence,
        None => sent_up_to(cursor),
    }
}

/// The message that brings the batch: an Index where the whole index is due, else an IndexUpdate.
///
/// BEP v1, 'Index' and 'Index Update'.
pub fn index_message(cursor: Plan, folder: FolderName, batch: Batch) -> Message
    ensures { result ≡ index_message cursor folder batch }
{
    match cursor {
        Plan::Full => Message::Index(folder, batch),
        Plan::Above(_) => Message::IndexUpdate(folder, batch),
    }
}

// The sequence above which is sent.
fn sent_up_to(cursor: Plan) -> u64
    ensures { result ≡ sent_up_to cursor }
{
    match cursor {
        Plan::Full => 0,
        Plan::Above(sequence) => sequence,
    }
}
