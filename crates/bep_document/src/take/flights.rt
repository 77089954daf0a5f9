//! Messages that are on their way.
ghost use Rattle.std.specs.Prelude.{◌≡◌};
ghost use Rattle.bep_document.specs.inner.Flights.{flight_names, flight_slots, flight_told};
ghost use Rattle.bep_document.specs.read.Links.{is_flight, read_flight};

use crate::{Few, FlightParts};
use bep_index::MAX_RECORDS;
use bep_json::{
    DocVersion, Misread, Shaped, Slots, Taken, Told, both, due, fill, fill_leaf, take_object,
};
use bep_record::{Entry, FolderName};
use bep_tree::{Reader, WalkError};
use std::alloc::Global;

// What is told of the members of a message that is on its way.
#[derive(Drop)]
pub(crate) struct FlightSlots {
    folder: Option<Told<FolderName>>,
    full: Option<Told<bool>>,
    records: Option<Told<Few<Entry, MAX_RECORDS>>>,
}

impl Slots for FlightSlots {
    ghost names = { flight_names };

    ghost known = { flight_slots };

    fn none() -> Self {
        FlightSlots {
            folder: None,
            full: None,
            records: None,
        }
    }

    fn take(
        &mut self,
        alloc: Global,
        version: DocVersion,
        key: &str,
        reader: &mut Reader<'_>,
        depth: usize,
    ) -> Result<bool, WalkError> {
        match key {
            "folder" => fill_leaf(&mut self.folder, alloc, version, reader, depth),
            "full" => fill_leaf(&mut self.full, alloc, version, reader, depth),
            "records" => fill(&mut self.records, alloc, version, reader, depth),
            _ => Ok(false),
        }
    }
}

impl Shaped for FlightParts {
    ghost has_shape = { is_flight };

    ghost reads = { read_flight };
}

impl Taken for FlightParts {
    fn take(
        alloc: Global,
        version: DocVersion,
        reader: &mut Reader<'_>,
        depth: usize,
    ) -> Result<Told<Self>, WalkError> {
        let slots = take_object::<FlightSlots>(alloc, version, reader, depth)?;
        Ok(flight_told(slots))
    }
}

// What is told of a message, by what is told of its members.
fn flight_told(slots: Option<FlightSlots>) -> Told<FlightParts>
    ensures { result ≡ flight_told slots }
{
    let Some(
        FlightSlots {
            folder,
            full,
            records,
        },
    ) = slots
    else {
        return Err(Misread::Shape);
    };
    let (folder, (full, records)) = both(due(folder), both(due(full), due(records)))?;
    Ok(FlightParts {
        folder,
        full,
        records: records.into_items(),
    })
}
