//! Rows of a certificate.
ghost use Rattle.std.specs.Prelude.{◌≡◌};
ghost use Rattle.bep_document.specs.inner.Rows.{row_names, row_slots, row_told};
ghost use Rattle.bep_document.specs.read.Folders.{is_row, read_row};

use crate::RowParts;
use bep_json::{
    DocVersion, Misread, Shaped, Slots, Taken, Told, both, due, fill, fill_leaf, take_object,
};
use bep_record::{DeviceId, Entry, FolderName};
use bep_tree::{Reader, WalkError};
use std::alloc::Global;

// What is told of the members of a row.
#[derive(Drop)]
pub(crate) struct RowSlots {
    folder: Option<Told<FolderName>>,
    device: Option<Told<DeviceId>>,
    entry: Option<Told<Entry>>,
}

impl Slots for RowSlots {
    ghost names = { row_names };

    ghost known = { row_slots };

    fn none() -> Self {
        RowSlots {
            folder: None,
            device: None,
            entry: None,
        }
    }

    fn take(
        &mut self,
        alloc: Global,
        version: DocVersion,
        key: &str,
        reader: &mut Reader<'_>,
        depth: usize,
    ) -> Result<bool, WalkError> {
        match key {
            "folder" => fill_leaf(&mut self.folder, alloc, version, reader, depth),
            "device" => fill_leaf(&mut self.device, alloc, version, reader, depth),
            "record" => fill(&mut self.entry, alloc, version, reader, depth),
            _ => Ok(false),
        }
    }
}

impl Shaped for RowParts {
    ghost has_shape = { is_row };

    ghost reads = { read_row };
}

impl Taken for RowParts {
    fn take(
        alloc: Global,
        version: DocVersion,
        reader: &mut Reader<'_>,
        depth: usize,
    ) -> Result<Told<Self>, WalkError> {
        let slots = take_object::<RowSlots>(alloc, version, reader, depth)?;
        Ok(row_told(slots))
    }
}

// What is told of a row, by what is told of its members.
fn row_told(slots: Option<RowSlots>) -> Told<RowParts>
    ensures { result ≡ row_told slots }
{
    let Some(
        RowSlots {
            folder,
            device,
            entry,
        },
    ) = slots
    else {
        return Err(Misread::Shape);
    };
    let (folder, (device, entry)) = both(due(folder), both(due(device), due(entry)))?;
    Ok(RowParts {
        folder,
        device,
        entry,
    })
}
