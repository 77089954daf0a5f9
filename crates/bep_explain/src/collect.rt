//! What the rows of a certificate add to the failures.
ghost use Rattle.std.specs.Prelude.{◌≡◌, ◌++◌, ◌∷◌, ◌↔◌, [], Some, None, Contains, OnOk, IfSome, IsTrue, map, if◌then◌else◌};
ghost use Rattle.std.specs.FinMap.{get};
ghost use Rattle.std.specs.Option.{option_copied};
ghost use Rattle.bep_model.specs.Settled.{key_of};
ghost use Rattle.bep_tables.specs.Cut.{tables_of, shares_of};
ghost use Rattle.bep_tables.specs.Listed.{IsGrouped, cut_listed, listed};
ghost use Rattle.bep_audit.specs.Group.{AsksBeside, IsGroupOf};
ghost use Rattle.bep_audit.specs.Walk.{failure_shown};
ghost use Rattle.bep_gather.specs.Adding.{AddsFailing, Each};
ghost use Rattle.bep_explain.specs.inner.Rows.{AreAbout, AreAlike, row_shown};
ghost use Rattle.bep_explain.specs.inner.Says.{failure_at, AreWon, SaysOrder, AsksOtherBeside, SaysAtRow, SaysBoth};

use crate::by_name::about;
use crate::rows::{NamedRow, alike_at, other_content};
use bep_audit::{
    Failure, REASONS, Spot, first_disordered, group_says, has_known, holds_winner, meets_beside,
    winner_in,
};
use bep_model::{Reason, Row, reasons_are_numbered};
use bep_record::{DeviceId, Node, Record};
use bep_tables::{Cut, Share, TableEntry};
use std::alloc::AllocError;

/// Adds the failure, unless what it tells of holds.
pub(crate) fn add_unless<'a>(
    found: &mut Vec<Failure<'a>>,
    holds: bool,
    failure: &Failure<'a>,
) -> Result<(), AllocError>
    ensures { OnOk result (map failure_shown found.new.items ≡ (if holds then map failure_shown found.old.items else map failure_shown found.old.items ++ failure_shown failure.now ∷ [])) }
{
    if !holds {
        found.reserve(1)?;
        found.push_reserved(copy_of(failure));
    }
    Ok(())
}

/// The same failure, lent from where it is lent.
pub(crate) fn copy_of<'a>(one: &Failure<'a>) -> Failure<'a>
    ensures { result ≡ one.now }
{
    let spot = Spot {
        folder: one.spot.folder,
        name: one.spot.name,
        device: one.spot.device,
    };
    Failure {
        reason: one.reason,
        spot,
    }
}

// The failure of the reason at the row's name as a whole.
fn at_row<'a>(reason: Reason, row: &'a Row) -> Failure<'a>
    ensures { failure_shown result ≡ failure_at reason (key_of row.now) None }
{
    Failure {
        reason,
        spot: Spot::of_row(row),
    }
}

// That it fails there on a device.
fn on_device<'a>(reason: Reason, row: &'a Row, device: DeviceId) -> Failure<'a>
    ensures { failure_shown result ≡ failure_at reason (key_of row.now) (Some device) }
{
    Failure {
        reason,
        spot: Spot::of_device(row, device),
    }
}

/// Adds the first row that isn't above the row before it.
pub(crate) fn add_out_of_order<'a>(
    found: &mut Vec<Failure<'a>>,
    rows: &'a [Row],
) -> Result<(), AllocError>
    ensures { OnOk result (AddsFailing (SaysOrder rows.now) (map failure_shown found.old.items) (map failure_shown found.new.items)) }
{
    reasons_are_numbered();
    match first_disordered(rows) {
        None => Ok(()),
        Some(row) => {
            add_unless(found, false, &at_row(Reason::CertificateOrder, row))?;
            Ok(())
        }
    }
}

/// Adds what fails at each of the rows, which are sorted by name, in the cut whose entries these are.
pub(crate) fn add_rows<'a>(
    found: &mut Vec<Failure<'a>>,
    cut: &Cut,
    table: &[TableEntry<'_>],
    rows: &[NamedRow<'a>],
) -> Result<(), AllocError>
    requires { IsGrouped (cut_listed cut.now) table.now }
    ensures { OnOk result (AddsFailing (Each (SaysAtRow cut.now) (map row_shown rows.now)) (map failure_shown found.old.items) (map failure_shown found.new.items)) }
{
    let mut place = 0;
    while place < rows.len() {
        let alike = alike_at(&rows[place..]);
        add_alike(found, cut, table, alike)?;
        place += alike.len();
    }
    Ok(())
}

// Adds what fails at each of the rows, which are all about one name.
fn add_alike<'a>(
    found: &mut Vec<Failure<'a>>,
    cut: &Cut,
    table: &[TableEntry<'_>],
    rows: &[NamedRow<'a>],
) -> Result<(), AllocError>
    requires table { IsGrouped (cut_listed cut.now) table.now }
    requires alike { AreAlike (map row_shown rows.now) }
    ensures { OnOk result (AddsFailing (Each (SaysAtRow cut.now) (map row_shown rows.now)) (map failure_shown found.old.items) (map failure_shown found.new.items)) }
{
    match rows {
        [] => Ok(()),
        [first, ..] => {
            let row = first.row;
            cut.is_a_cut();
            let group = about(table, &row.folder, &row.entry.entry().name);
            add_name(found, cut, group, row, rows)?;
            Ok(())
        }
    }
}

// Adds what fails at the name of these rows, of which this is one, by the name's entries.
//
// What a reason asks of a device depends on a row's content alone. Two of the contents are enough: whatever fails beside a
// third one fails beside one of two that differ.
fn add_name<'a>(
    found: &mut Vec<Failure<'a>>,
    cut: &Cut,
    group: &[TableEntry<'_>],
    row: &'a Row,
    rows: &[NamedRow<'a>],
) -> Result<(), AllocError>
    requires group { IsGroupOf cut.now (key_of row.now) (map listed group.now) }
    requires row { Contains (map row_shown rows.now) row.now }
    requires about { AreAbout (key_of row.now) (map row_shown rows.now) }
    ensures { OnOk result (AddsFailing (Each (SaysAtRow cut.now) (map row_shown rows.now)) (map failure_shown found.old.items) (map failure_shown found.new.items)) }
{
    reasons_are_numbered();
    group_says();
    cut.is_a_cut();
    add_unless(found, has_known(group), &at_row(Reason::NameUnknown, row))?;
    let won = are_won(cut, group, row, rows);
    add_unless(found, won, &at_row(Reason::NotWinner, row))?;
    let other = other_content(row, rows);
    add_devices(found, cut, group, row, other)?;
    Ok(())
}

// Whether each of the rows about the row's name has the name's winner, which is looked for once.
fn are_won(cut: &Cut, group: &[TableEntry<'_>], row: &Row, rows: &[NamedRow<'_>]) -> bool
    requires group { IsGroupOf cut.now (key_of row.now) (map listed group.now) }
    requires about { AreAbout (key_of row.now) (map row_shown rows.now) }
    ensures { IsTrue result ↔ AreWon (tables_of cut.now) (key_of row.now) (map row_shown rows.now) }
{
    let winner = winner_in(cut, group, &row.folder);
    for one in rows {
        if !holds_winner(&winner, one.row) {
            return false;
        }
    }
    true
}

// Adds what fails on each device that shares the folder, beside the row and the other one.
fn add_devices<'a>(
    found: &mut Vec<Failure<'a>>,
    cut: &Cut,
    group: &[TableEntry<'_>],
    row: &'a Row,
    other: Option<&Row>,
) -> Result<(), AllocError>
    requires group { IsGroupOf cut.now (key_of row.now) (map listed group.now) }
    requires other { IfSome other (λ one. key_of one.now ≡ key_of row.now) }
    ensures { OnOk result (AddsFailing (Each (SaysBoth (tables_of cut.now) row.now (option_copied other.entry)) (shares_of row.now.folder cut.now.folders)) (map failure_shown found.old.items) (map failure_shown found.new.items)) }
{
    for share in cut.shares(&row.folder) {
        add_device(found, cut, group, row, other, share)?;
    }
    Ok(())
}

// Adds what fails on this device, whose record and node of the name are looked up once.
fn add_device<'a>(
    found: &mut Vec<Failure<'a>>,
    cut: &Cut,
    group: &[TableEntry<'_>],
    row: &'a Row,
    other: Option<&Row>,
    share: &Share,
) -> Result<(), AllocError>
    requires group { IsGroupOf cut.now (key_of row.now) (map listed group.now) }
    requires other { IfSome other (λ one. key_of one.now ≡ key_of row.now) }
    requires share { Contains (shares_of row.now.folder cut.now.folders) share.now }
    ensures { OnOk result (AddsFailing (SaysBoth (tables_of cut.now) row.now (option_copied other.entry) share.now) (map failure_shown found.old.items) (map failure_shown found.new.items)) }
{
    let name = &row.entry.entry().name;
    let (own, node) = (share.own.get(name), share.store.get(name));
    add_reasons(found, cut, group, row, other, share, own, node)?;
    Ok(())
}

// The same, with this record and this node.
fn add_reasons<'a>(
    found: &mut Vec<Failure<'a>>,
    cut: &Cut,
    group: &[TableEntry<'_>],
    row: &'a Row,
    other: Option<&Row>,
    share: &Share,
    own: Option<&Record>,
    node: Option<&Node>,
) -> Result<(), AllocError>
    requires group { IsGroupOf cut.now (key_of row.now) (map listed group.now) }
    requires other { IfSome other (λ one. key_of one.now ≡ key_of row.now) }
    requires share { Contains (shares_of row.now.folder cut.now.folders) share.now }
    requires own { option_copied own ≡ get share.now.own row.now.entry.name }
    requires node { option_copied node ≡ get share.now.store row.now.entry.name }
    ensures { OnOk result (AddsFailing (SaysBoth (tables_of cut.now) row.now (option_copied other.entry) share.now) (map failure_shown found.old.items) (map failure_shown found.new.items)) }
{
    reasons_are_numbered();
    group_says();
    cut.is_a_cut();
    for reason in REASONS {
        let met = meets_both(reason, row, other, group, share.device, own, node);
        add_unless(found, met, &on_device(reason, row, share.device))?;
    }
    Ok(())
}

// Whether the device with this own record and this node meets what the reason asks beside the row, and beside the other one.
fn meets_both(
    reason: Reason,
    row: &Row,
    other: Option<&Row>,
    group: &[TableEntry<'_>],
    device: DeviceId,
    own: Option<&Record>,
    node: Option<&Node>,
) -> bool
    ensures { IsTrue result ↔ (
        AsksBeside reason row.now (map listed group.now) device (option_copied own.entry) (option_copied node.entry)
        × AsksOtherBeside reason (option_copied other.entry) (map listed group.now) device (option_copied own.entry) (option_copied node.entry)) }
{
    meets_beside(reason, row, group, device, own, node)
        && meets_other(reason, other, group, device, own, node)
}

// Whether the device meets it beside the other row, if there is one.
fn meets_other(
    reason: Reason,
    other: Option<&Row>,
    group: &[TableEntry<'_>],
    device: DeviceId,
    own: Option<&Record>,
    node: Option<&Node>,
) -> bool
    ensures { IsTrue result ↔ AsksOtherBeside reason (option_copied other.entry) (map listed group.now) device (option_copied own.entry) (option_copied node.entry) }
{
    match other {
        None => true,
        Some(row) => meets_beside(reason, row, group, device, own, node),
    }
}
