//! What is wrong within a row, whatever its header says: lists that are too long, wrong places, bad records and nodes.
ghost use Rattle.std.specs.Prelude.{◌≡◌, ◌==◌, ◌&&◌, ◌||◌, not};
ghost use Rattle.std.specs.List.{list_any};
ghost use Rattle.bep_row_document.specs.Cell.{has_many_views, is_misplaced, says_something};
ghost use Rattle.bep_row_document.specs.Faults.{are_bad, are_many, are_places_wrong, is_bad_node, is_bad_record, is_crowded};
ghost use Rattle.bep_document.specs.faults.Records.{is_well_formed};

use crate::cell::{has_many_views, is_misplaced, says_something};
use crate::row::{cells_of, name_of, nodes_of, records_of};
use crate::text::{CellText, RowText};
use bep_document::{is_node, records_are_told};
use bep_json::NamedParts;
use bep_record::{Entry, MAX_DEVICES, Name};

// Whether the fields aren't a record, or not one of this name.
fn is_bad_record(name: &Name, entry: &Entry) -> bool
    ensures { result ≡ is_bad_record name.now entry.now }
{
    !is_well_formed(entry) || entry.name != *name
}

// Whether the parts aren't a node, or not one of this name.
fn is_bad_node(name: &Name, node: &NamedParts) -> bool
    ensures { result ≡ is_bad_node name.now node.now }
{
    !is_node(&node.parts) || node.name != *name
}

// Whether the fields are a record.
#[tactic(auto, using(crate::proofs::RecordFacts::well_formed_decides))]
fn is_well_formed(entry: &Entry) -> bool
    ensures { result ≡ is_well_formed entry.now }
{
    records_are_told();
    entry.is_well_formed()
}

// Whether one of the row's lists is longer than there may be devices. What is looked for below takes the square of their lengths.
pub(crate) fn is_crowded(row: &RowText) -> bool
    ensures { result ≡ is_crowded row.now }
{
    let cells = cells_of(row);
    are_many(cells) || have_many_views(cells)
}

#[tactic(auto, unfolding(crate::specs::Faults::are_many))]
fn are_many(cells: &[CellText]) -> bool
    ensures { result ≡ are_many cells.now }
{
    cells.len() > MAX_DEVICES
}

fn have_many_views(cells: &[CellText]) -> bool
    ensures { result ≡ list_any has_many_views cells.now }
{
    cells.iter().any(|cell| has_many_views(cell))
}

// Whether a place is beyond the row's lists, or the row says nothing of its name.
pub(crate) fn are_places_wrong(row: &RowText) -> bool
    ensures { result ≡ are_places_wrong row.now }
{
    let (records, nodes) = (records_of(row).len(), nodes_of(row).len());
    let cells = cells_of(row);
    are_misplaced(records, nodes, cells) || !say_something(cells)
}

fn are_misplaced(records: usize, nodes: usize, cells: &[CellText]) -> bool
    ensures { result ≡ list_any (is_misplaced records nodes) cells.now }
{
    cells.iter().any(|cell| is_misplaced(records, nodes, cell))
}

fn say_something(cells: &[CellText]) -> bool
    ensures { result ≡ list_any says_something cells.now }
{
    cells.iter().any(|cell| says_something(cell))
}

// Whether a record or a node of the row is bad.
pub(crate) fn are_bad(row: &RowText) -> bool
    ensures { result ≡ are_bad row.now }
{
    let name = name_of(row);
    are_records_bad(name, records_of(row)) || are_nodes_bad(name, nodes_of(row))
}

fn are_records_bad(name: &Name, entries: &[Entry]) -> bool
    ensures { result ≡ list_any (is_bad_record name.now) entries.now }
{
    entries.iter().any(|entry| is_bad_record(name, entry))
}

fn are_nodes_bad(name: &Name, nodes: &[NamedParts]) -> bool
    ensures { result ≡ list_any (is_bad_node name.now) nodes.now }
{
    nodes.iter().any(|node| is_bad_node(name, node))
}
