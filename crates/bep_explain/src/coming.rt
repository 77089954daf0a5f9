//! What is on its way, by folder and name.
ghost use Rattle.bep_tables.specs.Listed.{key_at, listed};

use crate::by_name::OfName;
use bep_model::Flight;
use bep_record::{DeviceId, FolderName, Name, Record};
use bep_tables::{Cut, Held, Source, TableEntry};
use std::alloc::{AllocError, Global};
use std::cmp::Ordering;

/// A record on its way. They are compared by folder and name, and then by sender.
///
/// What is on its way to one device stands in the order of the links, since those rise: the senders of one device do, too.
#[derive(Clone, Copy, PartialEq, Eq, PartialOrd, Ord)]
pub(crate) struct Coming<'a> {
    /// The record, at the device to which it is on its way.
    pub(crate) at: TableEntry<'a>,
    /// The device that sent it.
    pub(crate) from: DeviceId,
}

impl OfName for Coming<'_> {
    ghost key = { λ one. key_at (listed one.at) };

    fn stands(&self, folder: &FolderName, name: &Name) -> Ordering {
        self.at.compare(folder, name)
    }
}

/// All that is on its way in the cut, valid or not, by folder and name; or want of memory.
pub(crate) fn sorted_coming<'a>(
    alloc: Global,
    cut: &'a Cut,
) -> Result<Vec<Coming<'a>>, AllocError> {
    let mut all = Vec::new(alloc);
    for link in cut.links() {
        add_flights(&mut all, link.to_a.as_slice(), link.a, link.b)?;
        add_flights(&mut all, link.to_b.as_slice(), link.b, link.a)?;
    }
    all.sort()?;
    Ok(all)
}

// Adds these messages' records, on their way to a device from another.
fn add_flights<'a>(
    all: &mut Vec<Coming<'a>>,
    flights: &'a [Flight],
    to: DeviceId,
    from: DeviceId,
) -> Result<(), AllocError> {
    for flight in flights {
        for record in flight.records.as_slice() {
            let at = TableEntry {
                folder: &flight.folder,
                name: &record.entry().name,
                device: to,
                held: Held::Record(Source::Flight, record),
            };
            all.reserve(1)?;
            all.push_reserved(Coming { at, from });
        }
    }
    Ok(())
}
