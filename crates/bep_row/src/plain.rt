//! Rows that are plain, as most rows are.
ghost use Rattle.std.specs.Prelude.{◌≡◌, ◌↔◌, IsTrue, Some};
ghost use Rattle.std.specs.Option.{option_copied};
ghost use Rattle.bep_model.specs.Settled.{content_of_node};
ghost use Rattle.bep_row.specs.Plain.{AreAlike, AreKept, IsAlike, IsHeld, IsKept, IsKeptBy, IsPlain};
ghost use Rattle.bep_row.specs.Row.{cell_of};

use crate::NameRow;
use crate::cells::{cell_of, node_of, own_of, record_at};
use bep_audit::store_holds;
use bep_record::{Node, NodeParts, Order, Record, is_clean};
use bep_tables::{Cut, Share};

/// Whether the row is plain: its records are valid and say the same, and each device that shares the folder has one of them
/// and what it says. It takes no memory. A plain row that fits its header is firm, so no cut has to be made of it.
pub fn is_plain(header: &Cut, row: &NameRow) -> bool
    ensures { IsTrue result → IsPlain header.now row.now }
{
    match row.records.as_slice().first() {
        Some(first) => is_plain_as(first, header, row),
        None => false,
    }
}

// Whether the row is plain, with this record as the first.
fn is_plain_as(first: &Record, header: &Cut, row: &NameRow) -> bool
    ensures { IsTrue result → IsPlain header.now row.now }
{
    let known = first_node(row);
    if !are_alike(first, row.records.as_slice()) {
        return false;
    }
    if !store_holds(known, first) {
        return false;
    }
    are_kept(first, known, row, header.shares(&row.folder))
}

// What the store of the first device holds of which the row says something.
fn first_node(row: &NameRow) -> Option<&Node> {
    match row.devices.as_slice().first() {
        Some(cell) => cell.node.as_ref(),
        None => None,
    }
}

fn are_alike(first: &Record, records: &[Record]) -> bool
    ensures { IsTrue result ↔ AreAlike first.now records.now }
{
    records.iter().all(|record| is_alike(first, record))
}

fn is_alike(first: &Record, other: &Record) -> bool
    ensures { IsTrue result ↔ IsAlike first.now other.now }
{
    !other.entry().invalid && other.same_content(first) && has_version_of(first, other)
}

fn has_version_of(first: &Record, other: &Record) -> bool
    ensures { IsTrue result ↔ (other.now.version ≡ first.now.version) }
{
    other.entry().version.order(&first.entry().version) == Order::Equal
}

// Whether each of these devices has a record of the row and what the first record says, if the known node is that.
fn are_kept(first: &Record, known: Option<&Node>, row: &NameRow, shares: &[Share]) -> bool
    ensures { IsTrue result → IsHeld first.now (option_copied known.entry) → AreKept row.now first.now shares.now }
{
    shares
        .iter()
        .all(|share| is_kept_at(first, known, row, share))
}

fn is_kept_at(first: &Record, known: Option<&Node>, row: &NameRow, share: &Share) -> bool
    ensures { IsTrue result → IsHeld first.now (option_copied known.entry) → IsKeptBy row.now first.now (cell_of row.now.devices share.now.device) }
{
    let cell = cell_of(row.devices.as_slice(), share.device);
    let own = record_at(row.records.as_slice(), own_of(cell));
    is_kept(first, known, node_of(cell), own)
}

fn is_kept(first: &Record, known: Option<&Node>, node: Option<&Node>, own: Option<&Record>) -> bool
    ensures { IsTrue result → IsHeld first.now (option_copied known.entry) → IsKept first.now (option_copied node.entry) (option_copied own.entry) }
{
    own.is_some() && is_held(first, known, node) && is_clean(node, own)
}

// Whether the node is what the record says, if the known one is. Bytes that equal its bytes aren't hashed once more.
fn is_held(first: &Record, known: Option<&Node>, node: Option<&Node>) -> bool
    ensures { IsTrue result → IsHeld first.now (option_copied known.entry) → IsHeld first.now (option_copied node.entry) }
{
    is_known(known, node) || store_holds(node, first)
}

// Whether both nodes are there, and have the same content at first sight.
fn is_known(known: Option<&Node>, node: Option<&Node>) -> bool
    ensures { IsTrue result → (content_of_node (option_copied node.entry) ≡ content_of_node (option_copied known.entry)) }
{
    match (known, node) {
        (Some(known), Some(node)) => is_same(known.parts(), node.parts()),
        _ => false,
    }
}

// Whether both have the same kind, bytes and target.
fn is_same(known: &NodeParts, node: &NodeParts) -> bool
    ensures { IsTrue result → (content_of_node (Some node.now) ≡ content_of_node (Some known.now)) }
{
    node.kind == known.kind
        && node.bytes.as_slice() == known.bytes.as_slice()
        && node.target == known.target
}
