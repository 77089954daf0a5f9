//! The row that a text says.
ghost use Rattle.std.specs.Prelude.{◌≡◌, ◌-◌, false, IfOk, map};
ghost use Rattle.std.specs.List.{AllByRecursion};
ghost use Rattle.std.specs.Option.{option_copied};
ghost use Rattle.bep_record.specs.Entry.{IsWellFormed};
ghost use Rattle.bep_record.specs.Node.{IsNode};
ghost use Rattle.bep_row_document.specs.Faults.{are_bad};
ghost use Rattle.bep_row_document.specs.Reading.{device_with, node_at, row_of, view_with};

use crate::cell::{device_of, known_of, node_of, own_of, place_of, pull_of, viewed_of, views_of};
use crate::text::{CellText, RowText, ViewText};
use bep_document::records_are_told;
use bep_json::NamedParts;
use bep_record::{Entry, Items, Node, Record};
use bep_row::{DeviceCell, NameRow, ViewCell};
use std::alloc::{AllocError, Global};

// The row that a text says whose records and nodes are such; or want of memory.
pub(crate) fn row_of(alloc: Global, text: RowText) -> Result<NameRow, AllocError>
    requires { are_bad text ≡ false }
    ensures { IfOk result (λ made. made ≡ row_of text) }
{
    records_are_told();
    let (folder, (name, (entries, (nodes, (cells, ()))))) = text.into_things();
    let records = records_made(alloc, entries)?;
    let held = nodes_made(alloc, nodes)?;
    let devices = devices_with(alloc, held.as_slice(), cells.as_slice())?;
    Ok(NameRow {
        folder,
        name,
        records,
        devices,
    })
}

fn records_made(alloc: Global, entries: Items<Entry>) -> Result<Items<Record>, AllocError>
    requires { AllByRecursion IsWellFormed entries }
    ensures { IfOk result (λ made. made ≡ entries) }
{
    let mut records = Vec::with_capacity(alloc, entries.as_slice().len())?;
    for entry in entries.into_vec() {
        records.push(Record::of(alloc, entry)?)?;
    }
    Ok(Items::new(records))
}

fn nodes_made(alloc: Global, nodes: Items<NamedParts>) -> Result<Items<Node>, AllocError>
    requires { AllByRecursion (λ node. IsNode node.parts) nodes }
    ensures { IfOk result (λ made. made ≡ map (λ node. node.parts) nodes) }
{
    let mut held = Vec::with_capacity(alloc, nodes.as_slice().len())?;
    for node in nodes.into_vec() {
        held.push(Node::read(node.parts).unwrap())?;
    }
    Ok(Items::new(held))
}

fn devices_with(
    alloc: Global,
    nodes: &[Node],
    cells: &[CellText],
) -> Result<Items<DeviceCell>, AllocError>
    ensures { IfOk result (λ made. made ≡ map (device_with nodes.now) cells.now) }
{
    let mut made = Vec::with_capacity(alloc, cells.len())?;
    for cell in cells {
        made.push(device_with(alloc, nodes, cell)?)?;
    }
    Ok(Items::new(made))
}

fn device_with(alloc: Global, nodes: &[Node], cell: &CellText) -> Result<DeviceCell, AllocError>
    ensures { IfOk result (λ made. made ≡ device_with nodes.now cell.now) }
{
    Ok(DeviceCell {
        device: device_of(cell),
        own: place_of(own_of(cell)),
        node: node_copied(alloc, nodes, place_of(node_of(cell)))?,
        views: views_with(alloc, views_of(cell))?,
        pull: place_of(pull_of(cell)),
    })
}

// A copy of the node at the place, if there is one.
fn node_copied(
    alloc: Global,
    nodes: &[Node],
    place: Option<usize>,
) -> Result<Option<Node>, AllocError>
    ensures { IfOk result (λ made. made ≡ node_at nodes.now place) }
{
    match node_at(nodes, place) {
        Some(node) => Ok(Some(node.copy(alloc)?)),
        None => Ok(None),
    }
}

fn node_at(nodes: &[Node], place: Option<usize>) -> Option<&Node>
    ensures { option_copied result ≡ node_at nodes.now place }
{
    match place {
        Some(place) => nodes.get(place),
        None => None,
    }
}

fn views_with(alloc: Global, views: &[ViewText]) -> Result<Items<ViewCell>, AllocError>
    ensures { IfOk result (λ made. made ≡ map view_with views.now) }
{
    let mut made = Vec::with_capacity(alloc, views.len())?;
    for view in views {
        made.push(view_with(view))?;
    }
    Ok(Items::new(made))
}

fn view_with(view: &ViewText) -> ViewCell
    ensures { result ≡ view_with view.now }
{
    ViewCell {
        of: viewed_of(view),
        record: (known_of(view) - 1) as usize,
    }
}
