//! What a device knows of another's index.
ghost use Rattle.std.specs.Prelude.{◌≡◌};
ghost use Rattle.bep_document.specs.inner.Views.{view_names, view_slots, view_told};
ghost use Rattle.bep_document.specs.read.Views.{is_view, read_view};

use crate::read::AnyIndexNumber;
use crate::{Few, ViewParts};
use bep_index::MAX_NAMES;
use bep_json::{
    DocVersion, Misread, Sequence, Shaped, Slots, Taken, Told, both, due, fill, fill_leaf,
    take_object,
};
use bep_record::{DeviceId, Entry};
use bep_tree::{Reader, WalkError};
use std::alloc::Global;

// What is told of the members of a view.
#[derive(Drop)]
pub(crate) struct ViewSlots {
    of: Option<Told<DeviceId>>,
    index_id: Option<Told<AnyIndexNumber>>,
    max: Option<Told<Sequence>>,
    records: Option<Told<Few<Entry, MAX_NAMES>>>,
}

impl Slots for ViewSlots {
    ghost names = { view_names };

    ghost known = { view_slots };

    fn none() -> Self {
        ViewSlots {
            of: None,
            index_id: None,
            max: None,
            records: None,
        }
    }

    fn take(
        &mut self,
        alloc: Global,
        version: DocVersion,
        key: &str,
        reader: &mut Reader<'_>,
        depth: usize,
    ) -> Result<bool, WalkError> {
        match key {
            "of" => fill_leaf(&mut self.of, alloc, version, reader, depth),
            "index_id" => fill_leaf(&mut self.index_id, alloc, version, reader, depth),
            "max" => fill_leaf(&mut self.max, alloc, version, reader, depth),
            "records" => fill(&mut self.records, alloc, version, reader, depth),
            _ => Ok(false),
        }
    }
}

impl Shaped for ViewParts {
    ghost has_shape = { is_view };

    ghost reads = { read_view };
}

impl Taken for ViewParts {
    fn take(
        alloc: Global,
        version: DocVersion,
        reader: &mut Reader<'_>,
        depth: usize,
    ) -> Result<Told<Self>, WalkError> {
        let slots = take_object::<ViewSlots>(alloc, version, reader, depth)?;
        Ok(view_told(slots))
    }
}

// What is told of a view, by what is told of its members.
fn view_told(slots: Option<ViewSlots>) -> Told<ViewParts>
    ensures { result ≡ view_told slots }
{
    let Some(
        ViewSlots {
            of,
            index_id,
            max,
            records,
        },
    ) = slots
    else {
        return Err(Misread::Shape);
    };
    let (of, (index_id, (max, records))) = both(
        due(of),
        both(due(index_id), both(due(max), due(records))),
    )?;
    Ok(ViewParts {
        of,
        index_id: index_id.number(),
        max: max.number(),
        records: records.into_items(),
    })
}
