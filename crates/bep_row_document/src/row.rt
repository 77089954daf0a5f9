//! What a row's text says, item by item.
ghost use Rattle.std.specs.Prelude.{◌≡◌};

use crate::text::{CellText, RowText};
use bep_json::NamedParts;
use bep_record::{Entry, FolderName, Name};

// The folder.
pub(crate) fn folder_of(row: &RowText) -> &FolderName
    ensures { result.now ≡ row.now.0 }
{
    &row.things().0
}

// The name.
pub(crate) fn name_of(row: &RowText) -> &Name
    ensures { result.now ≡ row.now.1.0 }
{
    &row.things().1.0
}

// The records.
pub(crate) fn records_of(row: &RowText) -> &[Entry]
    ensures { result.now ≡ row.now.1.1.0 }
{
    row.things().1.1.0.as_slice()
}

// The nodes.
pub(crate) fn nodes_of(row: &RowText) -> &[NamedParts]
    ensures { result.now ≡ row.now.1.1.1.0 }
{
    row.things().1.1.1.0.as_slice()
}

// What it says of devices.
pub(crate) fn cells_of(row: &RowText) -> &[CellText]
    ensures { result.now ≡ row.now.1.1.1.1.0 }
{
    row.things().1.1.1.1.0.as_slice()
}
