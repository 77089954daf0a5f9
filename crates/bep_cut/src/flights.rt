//! What is on its way over a link.
ghost use Rattle.std.specs.Prelude.{◌≡◌, ◌++◌, true, IfOk, OnOk};
ghost use Rattle.std.specs.List.{flat_map, AllByRecursion};
ghost use Rattle.bep_links.specs.Link.{IsLink};
ghost use Rattle.bep_links.specs.Side.{end_at};
ghost use Rattle.bep_machine.specs.Link.{queue_to};
ghost use Rattle.bep_machine.specs.Said.{flight_when};
ghost use Rattle.bep_cut.specs.LinkState.{HasBatch, both_have, carried, link_cut};

use bep_index::Batch;
use bep_links::{Link, Message, Side};
use bep_map::FolderMap;
use bep_record::{FolderName, Items, MAX_MESSAGES};
use bep_tables::{Flight, LinkState};
use std::alloc::{AllocError, Global};

// The link, between devices that have these folders.
pub(crate) fn link_cut<V>(
    alloc: Global,
    lower: &FolderMap<V>,
    upper: &FolderMap<V>,
    link: &Link,
) -> Result<LinkState, AllocError>
    ensures state { IfOk result (λ made. made ≡ link_cut (both_have lower.now upper.now) link.now) }
    ensures batches_to_a { IfOk result (λ made. AllByRecursion HasBatch made.to_a) }
    ensures batches_to_b { IfOk result (λ made. AllByRecursion HasBatch made.to_b) }
    ensures a_link { IsLink link.now }
{
    let (a, b) = link.ends();
    let mut to_a = Vec::new(alloc);
    add_waiting(&mut to_a, alloc, lower, upper, link, Side::Lower)?;
    let mut to_b = Vec::new(alloc);
    add_waiting(&mut to_b, alloc, lower, upper, link, Side::Upper)?;
    Ok(LinkState {
        a,
        b,
        up: link.is_up(),
        epoch: link.epoch(),
        to_a: Items::new(to_a),
        to_b: Items::new(to_b),
    })
}

// Adds what is on its way to this end.
fn add_waiting<V>(
    flights: &mut Vec<Flight>,
    alloc: Global,
    lower: &FolderMap<V>,
    upper: &FolderMap<V>,
    link: &Link,
    side: Side,
) -> Result<(), AllocError>
    ensures flights { OnOk result (flights.new.items ≡ flights.old.items ++ flat_map (carried (both_have lower.now upper.now)) (queue_to (end_at side) link.now.link)) }
    ensures batches { OnOk result (AllByRecursion HasBatch flights.old.items → AllByRecursion HasBatch flights.new.items) }
{
    link.is_up();
    for place in 0..MAX_MESSAGES {
        match link.waiting(side, place) {
            Some(message) => add_message(flights, alloc, lower, upper, message)?,
            None => return Ok(()),
        }
    }
    Ok(())
}

// Adds the records that the message carries, if both devices have their folder.
fn add_message<V>(
    flights: &mut Vec<Flight>,
    alloc: Global,
    lower: &FolderMap<V>,
    upper: &FolderMap<V>,
    message: &Message,
) -> Result<(), AllocError>
    ensures flights { OnOk result (flights.new.items ≡ flights.old.items ++ carried (both_have lower.now upper.now) message.now) }
    ensures batches { OnOk result (AllByRecursion HasBatch flights.old.items → AllByRecursion HasBatch flights.new.items) }
{
    match message {
        Message::Index(folder, batch) => {
            if both_have(lower, upper, folder) {
                add_flight(flights, alloc, folder, true, batch)?;
            }
        }
        Message::IndexUpdate(folder, batch) => {
            if both_have(lower, upper, folder) {
                add_flight(flights, alloc, folder, false, batch)?;
            }
        }
        Message::ClusterConfig(_) | Message::Request(_) | Message::Response(_) => {}
    }
    Ok(())
}

// Whether both devices have the folder.
fn both_have<V>(lower: &FolderMap<V>, upper: &FolderMap<V>, folder: &FolderName) -> bool
    ensures { result ≡ both_have lower.now upper.now folder.now }
{
    lower.get(folder).is_some() && upper.get(folder).is_some()
}

// Adds the records of the folder.
fn add_flight(
    flights: &mut Vec<Flight>,
    alloc: Global,
    folder: &FolderName,
    full: bool,
    batch: &Batch,
) -> Result<(), AllocError>
    ensures flights { OnOk result (flights.new.items ≡ flights.old.items ++ flight_when true folder.now full batch.now) }
    ensures batches { OnOk result (AllByRecursion HasBatch flights.old.items → AllByRecursion HasBatch flights.new.items) }
{
    batch.as_slice();
    let folder = folder.copy(alloc)?;
    let records = batch.to_items(alloc)?;
    flights.push(Flight {
        folder,
        full,
        records,
    })?;
    Ok(())
}
