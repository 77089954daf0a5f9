//! Whether a row fits a header.
ghost use Rattle.std.specs.Prelude.{◌≡◌, ◌↔◌, IsTrue};
ghost use Rattle.std.specs.Option.{option_copied};
ghost use Rattle.bep_row.specs.Fits.{AreNamed, AreQuiet, AreSharesFit, AreViewsFit, Fits, IsNumbered, IsNumberedTo, IsPull, IsPullable, IsQuiet, IsShareFit, IsViewFit, RowsMakeCuts};
ghost use Rattle.bep_row.specs.Row.{cell_of};

use crate::cells::{cell_of, known_by, own_of, pull_of, record_at};
use crate::{DeviceCell, NameRow};
use bep_index::MAX_SEQUENCE;
use bep_record::{Name, Record};
use bep_tables::{Cut, LinkState, PeerView, Share, cut_says};

/// Whether no message is on its way over the header's links, so that rows can fit it. It takes no memory.
pub fn header_fits(header: &Cut) -> bool
    ensures { IsTrue result ↔ AreQuiet header.now.links }
{
    are_quiet(header.links())
}

/// Whether the row fits the header: no message is on its way, each record has the row's name, those of an index have a sequence
/// of it, and what is pulled is valid. It takes no memory.
pub fn row_fits(header: &Cut, row: &NameRow) -> bool
    ensures { IsTrue result ↔ Fits header.now row.now }
{
    if !header_fits(header) {
        return false;
    }
    if !are_named(&row.name, row.records.as_slice()) {
        return false;
    }
    are_shares_fit(row, header.shares(&row.folder))
}

/// The cut that has the name of a row alone is a cut, where the row fits the header: a law, which does nothing when it runs.
pub fn rows_make_cuts()
    ensures { RowsMakeCuts }
{
    cut_says();
}

fn are_quiet(links: &[LinkState]) -> bool
    ensures { IsTrue result ↔ AreQuiet links.now }
{
    links.iter().all(|link| is_quiet(link))
}

// Whether no message is on its way over the link.
fn is_quiet(link: &LinkState) -> bool
    ensures { IsTrue result ↔ IsQuiet link.now }
{
    link.to_a.as_slice().is_empty() && link.to_b.as_slice().is_empty()
}

fn are_named(name: &Name, records: &[Record]) -> bool
    ensures { IsTrue result ↔ AreNamed name.now records.now }
{
    records.iter().all(|record| is_named(name, record))
}

fn is_named(name: &Name, record: &Record) -> bool
    ensures { IsTrue result ↔ (record.now.name ≡ name.now) }
{
    record.entry().name == *name
}

fn are_shares_fit(row: &NameRow, shares: &[Share]) -> bool
    ensures { IsTrue result ↔ AreSharesFit row.now shares.now }
{
    shares.iter().all(|share| is_said_fit(row, share))
}

/// Whether what the row says of the share's device can stand there: each of its records has a sequence from 1 to the greatest, and
/// what it pulls is valid. It takes no memory.
pub fn is_said_fit(row: &NameRow, share: &Share) -> bool
    ensures { IsTrue result ↔ IsShareFit row.now (cell_of row.now.devices share.now.device) share.now }
{
    is_share_fit(row, cell_of(row.devices.as_slice(), share.device), share)
}

// Whether what the cell says can stand at the device.
fn is_share_fit(row: &NameRow, cell: Option<&DeviceCell>, share: &Share) -> bool
    ensures { IsTrue result ↔ IsShareFit row.now (option_copied cell.entry) share.now }
{
    let records = row.records.as_slice();
    if !is_numbered_to(share.max_sequence, record_at(records, own_of(cell))) {
        return false;
    }
    if !are_views_fit(row, cell, share.views.as_slice()) {
        return false;
    }
    is_pullable(record_at(records, pull_of(cell)))
}

fn are_views_fit(row: &NameRow, cell: Option<&DeviceCell>, views: &[PeerView]) -> bool
    ensures { IsTrue result ↔ AreViewsFit row.now (option_copied cell.entry) views.now }
{
    views.iter().all(|view| is_view_fit(row, cell, view))
}

fn is_view_fit(row: &NameRow, cell: Option<&DeviceCell>, view: &PeerView) -> bool
    ensures { IsTrue result ↔ IsViewFit row.now (option_copied cell.entry) view.now }
{
    let found = record_at(row.records.as_slice(), known_by(cell, view.of));
    is_numbered_to(view.max_sequence, found)
}

fn is_numbered_to(greatest: u64, found: Option<&Record>) -> bool
    ensures { IsTrue result ↔ IsNumberedTo greatest (option_copied found.entry) }
{
    match found {
        None => true,
        Some(record) => is_numbered(greatest, record.entry().sequence),
    }
}

// Whether the sequence is from 1 to the greatest.
fn is_numbered(greatest: u64, sequence: u64) -> bool
    ensures { IsTrue result ↔ IsNumbered greatest sequence }
{
    1 <= sequence && sequence <= greatest
}

fn is_pullable(found: Option<&Record>) -> bool
    ensures { IsTrue result ↔ IsPullable (option_copied found.entry) }
{
    match found {
        None => true,
        Some(record) => is_pull(record),
    }
}

// Whether the record is valid, and its sequence in range.
fn is_pull(record: &Record) -> bool
    ensures { IsTrue result ↔ IsPull record.now }
{
    !record.entry().invalid && record.entry().sequence <= MAX_SEQUENCE
}
