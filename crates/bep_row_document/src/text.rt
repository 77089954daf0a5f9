//! What the text of a row says, in the order of its items.
use crate::listed::Listed;
use bep_json::{NamedParts, Whole};
use bep_record::{DeviceId, Entry, FolderName, Items, Name};

/// The place of a thing in a list of the row, counted from 1; 0 where there is none.
pub type Place = Whole<0, 4096>;

/// Another device, and the place of its record that is known.
pub type ViewText = Listed<(DeviceId, (Whole<1, 4096>, ()))>;

/// What a row says of a device: the places of its own record, of its node and of the record that it pulls, and its views.
pub type CellText = Listed<(DeviceId, (Place, (Place, (Place, (Items<ViewText>, ())))))>;

/// What a row says: folder, name, records, nodes, devices.
pub type RowText = Listed<
    (
        FolderName,
        (
            Name,
            (Items<Entry>, (Items<NamedParts>, (Items<CellText>, ()))),
        ),
    ),
>;
