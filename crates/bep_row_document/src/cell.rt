//! What a row's text says of a device, item by item.
ghost use Rattle.std.specs.Prelude.{◌≡◌, ◌==◌, ◌||◌, ◌≤◌, nat_lt, option_map};
ghost use Rattle.std.specs.List.{list_any};
ghost use Rattle.bep_row_document.specs.Cell.{are_views_misplaced, has_many_views, is_misplaced, place_of, says_something};

use crate::text::{CellText, Place, ViewText};
use bep_record::{DeviceId, MAX_DEVICES};

// The device.
pub(crate) fn device_of(cell: &CellText) -> DeviceId
    ensures { result ≡ cell.now.0 }
{
    cell.things().0
}

// The place of its own record.
pub(crate) fn own_of(cell: &CellText) -> Place
    ensures { result ≡ cell.now.1.0 }
{
    cell.things().1.0
}

// The place of its node.
pub(crate) fn node_of(cell: &CellText) -> Place
    ensures { result ≡ cell.now.1.1.0 }
{
    cell.things().1.1.0
}

// The place of the record that it pulls.
pub(crate) fn pull_of(cell: &CellText) -> Place
    ensures { result ≡ cell.now.1.1.1.0 }
{
    cell.things().1.1.1.0
}

// Its views.
pub(crate) fn views_of(cell: &CellText) -> &[ViewText]
    ensures { result.now ≡ cell.now.1.1.1.1.0 }
{
    cell.things().1.1.1.1.0.as_slice()
}

// The device that a view is of.
pub(crate) fn viewed_of(view: &ViewText) -> DeviceId
    ensures { result ≡ view.now.0 }
{
    view.things().0
}

// The place of the record that is known, from 1.
pub(crate) fn known_of(view: &ViewText) -> u64
    ensures value { result ≡ view.now.1.0 }
    ensures low { 1 ≤ result }
{
    view.things().1.0.number()
}

// The place from 0, if there is one.
pub(crate) fn place_of(place: Place) -> Option<usize>
    ensures { result ≡ place_of place }
{
    let number = place.number();
    if number == 0 {
        None
    } else {
        Some((number - 1) as usize)
    }
}

// Whether one of the places is beyond the row's lists, of so many records and nodes.
pub(crate) fn is_misplaced(records: usize, nodes: usize, cell: &CellText) -> bool
    ensures { result ≡ is_misplaced records nodes cell.now }
{
    own_of(cell).number() > records as u64
        || node_of(cell).number() > nodes as u64
        || pull_of(cell).number() > records as u64
        || are_views_misplaced(records, views_of(cell))
}

fn are_views_misplaced(records: usize, views: &[ViewText]) -> bool
    ensures { result ≡ are_views_misplaced records views.now }
{
    views.iter().any(|view| known_of(view) > records as u64)
}

// Whether the cell says that the device has something of the name.
pub(crate) fn says_something(cell: &CellText) -> bool
    ensures { result ≡ says_something cell.now }
{
    own_of(cell).number() != 0
        || node_of(cell).number() != 0
        || pull_of(cell).number() != 0
        || !views_of(cell).is_empty()
}

// Whether the cell lists more views than there may be devices.
pub(crate) fn has_many_views(cell: &CellText) -> bool
    ensures { result ≡ has_many_views cell.now }
{
    views_of(cell).len() > MAX_DEVICES
}
