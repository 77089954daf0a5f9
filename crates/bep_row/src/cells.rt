//! What a row says of a device, by look-up.
ghost use Rattle.std.specs.Prelude.{◌≡◌, option_and_then};
ghost use Rattle.std.specs.Option.{option_copied};
ghost use Rattle.bep_row.specs.Row.{cell_of, known_by, number_in, own_of, pull_of, node_of, record_at};

use crate::{DeviceCell, ViewCell};
use bep_record::{DeviceId, Node, Record};

// What the device has of the name, if the row says so.
pub(crate) fn cell_of(cells: &[DeviceCell], device: DeviceId) -> Option<&DeviceCell>
    ensures { option_copied result ≡ cell_of cells.now device }
{
    cells.iter().find(|cell| cell.device.cmp(&device).is_eq())
}

// The place of what is known of the other device's record.
pub(crate) fn number_in(views: &[ViewCell], of: DeviceId) -> Option<usize>
    ensures { result ≡ number_in views.now of }
{
    match views.iter().find(|view| view.of.cmp(&of).is_eq()) {
        Some(view) => Some(view.record),
        None => None,
    }
}

// The record at the place, if there is one.
pub(crate) fn record_at(records: &[Record], number: Option<usize>) -> Option<&Record>
    ensures { option_copied result ≡ record_at records.now number }
{
    match number {
        Some(number) => records.get(number),
        None => None,
    }
}

// The place of the device's own record.
pub(crate) fn own_of(cell: Option<&DeviceCell>) -> Option<usize>
    ensures { result ≡ own_of (option_copied cell.entry) }
{
    match cell {
        Some(cell) => cell.own,
        None => None,
    }
}

// The place of the record that it pulls.
pub(crate) fn pull_of(cell: Option<&DeviceCell>) -> Option<usize>
    ensures { result ≡ pull_of (option_copied cell.entry) }
{
    match cell {
        Some(cell) => cell.pull,
        None => None,
    }
}

// The place of what it knows of another device's record.
pub(crate) fn known_by(cell: Option<&DeviceCell>, of: DeviceId) -> Option<usize>
    ensures { result ≡ known_by (option_copied cell.entry) of }
{
    match cell {
        Some(cell) => number_in(cell.views.as_slice(), of),
        None => None,
    }
}

// What its store holds.
pub(crate) fn node_of<'a>(cell: Option<&'a DeviceCell>) -> Option<&'a Node>
    ensures { option_copied result ≡ node_of (option_copied cell.entry) }
{
    match cell {
        Some(cell) => cell.node.as_ref(),
        None => None,
    }
}
