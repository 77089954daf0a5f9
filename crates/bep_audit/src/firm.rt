//! Whether a cut and a certificate are firm: settled, and no version is beyond the winner's.
ghost use Rattle.std.specs.Prelude.{◌≡◌, ◌↔◌, ◌∷◌, [], IfOk, IsTrue, map, option_map};
ghost use Rattle.bep_model.specs.Firm.{IsFirm, StaysFirm};
ghost use Rattle.bep_model.specs.FirmVerdict.{IsFirmVerdict};
ghost use Rattle.bep_model.specs.Settled.{IsSettled, Rise, key_of};
ghost use Rattle.bep_machine.specs.FreeLaws.{FirmStaysPut};
ghost use Rattle.bep_tables.specs.Cut.{tables_of};
ghost use Rattle.bep_tables.specs.Listed.{IsGrouped, cut_listed, listed};
ghost use Rattle.bep_audit.specs.declared.firm.FirmVerdict.TheVariants.{Firm};
ghost use Rattle.bep_audit.specs.Loose.{loose_cmp, loose_shown, firm_shown, asked_by, AsksVersion, AsksEntry, AsksEntries, MeetsFirm, EntriesAreAsked};
ghost use Rattle.bep_audit.specs.Loose as spec;
ghost use Rattle.bep_audit.specs.inner.Search.{FindsFirst};

use crate::loose::{Looseness, precedes};
use crate::{Certificate, Verdict, check_grouped, compare_row, find_row};
use bep_machine::firm_stays_put;
use bep_model::{FirmReason, Reason, Row, firm_is_faultless, firm_stays_firm};
use bep_record::{DeviceId, FolderName, Name, Record};
use bep_tables::{Cut, Held, Source, Table, TableEntry, entries_are_held};
use std::alloc::{AllocError, Global};

/// What the auditor finds where it is asked for firm, lent from what it was asked about.
#[derive(Clone, Copy, Debug, PartialEq, Eq)]
pub enum FirmVerdict<'a> {
    /// The cut and the certificate are firm.
    Firm,
    /// They aren't settled: the first reason that fails, and where.
    Unsettled(Reason, &'a FolderName, &'a Name, Option<DeviceId>),
    /// They are settled and not firm: the first of the four further reasons that fails, and where.
    Loose(FirmReason, &'a FolderName, &'a Name, DeviceId),
}

/// Whether the cut and the certificate are firm; if not, why they aren't settled, or else the first of the four further
/// reasons that fails, at its first place. Want of memory is the only error.
///
/// Where it answers `Firm`, nothing is recorded or written any more, whatever free peers do: each sharing device has the
/// very records and files that it had, times included, and the cut is firm for the same rows. So it is after every list of
/// further steps without local edits and index resets of this project's peers.
pub fn firm_verdict<'a>(
    alloc: Global,
    cut: &'a Cut,
    certificate: &'a Certificate,
) -> Result<FirmVerdict<'a>, AllocError>
    ensures verdict { IfOk result (λ verdict. IsFirmVerdict (tables_of cut.now) certificate.now (firm_shown verdict)) }
    ensures firm { IfOk result (λ verdict. (verdict ≡ Firm) ↔ IsFirm (tables_of cut.now) certificate.now) }
    ensures stays_firm { IfOk result (λ verdict. verdict ≡ Firm → StaysFirm (tables_of cut.now) certificate.now) }
    ensures stays_put { IfOk result (λ verdict. verdict ≡ Firm → FirmStaysPut (tables_of cut.now) certificate.now) }
{
    let table = Table::of(alloc, cut)?;
    Ok(firm_verdict_grouped(cut, &table, certificate))
}

/// The same by the cut's table. It takes no memory.
pub fn firm_verdict_grouped<'a>(
    cut: &'a Cut,
    table: &Table<'a>,
    certificate: &'a Certificate,
) -> FirmVerdict<'a>
    requires { IsGrouped (cut_listed cut.now) table.now }
    ensures verdict { IsFirmVerdict (tables_of cut.now) certificate.now (firm_shown result) }
    ensures firm { (result ≡ Firm) ↔ IsFirm (tables_of cut.now) certificate.now }
    ensures stays_firm { result ≡ Firm → StaysFirm (tables_of cut.now) certificate.now }
    ensures stays_put { result ≡ Firm → FirmStaysPut (tables_of cut.now) certificate.now }
{
    match check_grouped(cut, table, certificate) {
        Verdict::Settled => firm_or_loose(cut, table, certificate),
        Verdict::Not(reason, folder, name, device) => {
            FirmVerdict::Unsettled(reason, folder, name, device)
        }
    }
}

// What it answers of a settled cut.
fn firm_or_loose<'a>(
    cut: &'a Cut,
    table: &Table<'a>,
    certificate: &'a Certificate,
) -> FirmVerdict<'a>
    requires table { IsGrouped (cut_listed cut.now) table.now }
    requires settled { IsSettled (tables_of cut.now) certificate.now }
    ensures verdict { IsFirmVerdict (tables_of cut.now) certificate.now (firm_shown result) }
    ensures firm { (result ≡ Firm) ↔ IsFirm (tables_of cut.now) certificate.now }
    ensures stays_firm { result ≡ Firm → StaysFirm (tables_of cut.now) certificate.now }
    ensures stays_put { result ≡ Firm → FirmStaysPut (tables_of cut.now) certificate.now }
{
    firm_is_faultless();
    firm_stays_firm();
    firm_stays_put();
    entries_are_held();
    cut.is_a_cut();
    match least_loose(certificate.rows(), table.entries()) {
        None => FirmVerdict::Firm,
        Some(one) => FirmVerdict::Loose(one.reason, one.folder, one.name, one.device),
    }
}

// The least of what the entries of a cut are asked and don't meet.
fn least_loose<'a>(rows: &[Row], table: &[TableEntry<'a>]) -> Option<Looseness<'a>>
    requires { Rise rows.now }
    ensures { FindsFirst loose_cmp (AsksEntries rows.now (map listed table.now)) (option_map loose_shown result) }
{
    let mut least = None;
    for entry in table {
        let here = loose_at(rows, entry);
        if precedes(&here, &least) {
            least = here;
        }
    }
    least
}

// What the entry is asked in vain.
fn loose_at<'a>(rows: &[Row], entry: &TableEntry<'a>) -> Option<Looseness<'a>>
    requires { Rise rows.now }
    ensures { FindsFirst loose_cmp (AsksEntry rows.now (listed entry.now)) (option_map loose_shown result) }
{
    if meets_rows(rows, entry) {
        return None;
    }
    loosening_of(entry)
}

/// What firm asks of the entry, and at which place: `None` exactly if the entry holds no record.
pub fn loosening_of<'a>(entry: &TableEntry<'a>) -> Option<Looseness<'a>>
    ensures { option_map loose_shown result ≡ spec.loosening_of (listed entry.now) }
{
    match entry.held {
        Held::Record(source, _) => Some(Looseness {
            reason: asked_by(source),
            folder: entry.folder,
            name: entry.name,
            device: entry.device,
        }),
        Held::Node(_) => None,
    }
}

/// Whether the entry meets what firm asks of it beside these rows, which rise: whether its record, if it holds one, has
/// the version that it should have beside its name's row.
pub fn meets_rows(rows: &[Row], entry: &TableEntry<'_>) -> bool
    requires { Rise rows.now }
    ensures { IsTrue result ↔ MeetsFirm rows.now (listed entry.now) }
{
    match find_row(rows, entry.folder, entry.name) {
        None => true,
        Some(row) => meets_row(row, entry),
    }
}

/// The same beside one row, as if there were no other.
pub fn meets_row(row: &Row, entry: &TableEntry<'_>) -> bool
    ensures { IsTrue result ↔ MeetsFirm (row.now ∷ []) (listed entry.now) }
{
    match entry.held {
        Held::Record(source, found) => {
            meets_if_about(row, entry.folder, entry.name, source, found)
        }
        Held::Node(_) => true,
    }
}

// Whether the row is about another name, or a record from there meets what it is asked beside its winner.
fn meets_if_about(
    row: &Row,
    folder: &FolderName,
    name: &Name,
    source: Source,
    found: &Record,
) -> bool
    ensures { IsTrue result ↔ (key_of row.now ≡ (folder.now, name.now) → AsksVersion source found.now row.now.entry) }
{
    !is_about(row, folder, name) || meets_version(source, found, &row.entry)
}

// Whether the row is about the name.
fn is_about(row: &Row, folder: &FolderName, name: &Name) -> bool
    ensures { IsTrue result ↔ (key_of row.now ≡ (folder.now, name.now)) }
{
    compare_row(row, folder, name).is_eq()
}

/// What firm asks of the entries of a cut is what the four reasons ask: a law, which does nothing when it runs.
pub fn entries_are_asked()
    ensures { EntriesAreAsked }
{
    entries_are_held();
}

// Whether a record from there meets what it is asked beside the winner.
fn meets_version(source: Source, found: &Record, winner: &Record) -> bool
    ensures { IsTrue result ↔ AsksVersion source found.now winner.now }
{
    let (version, least) = (&found.entry().version, &winner.entry().version);
    match source {
        Source::Own => version.is_at_most(least) && least.is_at_most(version),
        Source::View | Source::Flight | Source::Pull => version.is_at_most(least),
    }
}

// The reason that asks something of records from there.
fn asked_by(source: Source) -> FirmReason
    ensures { result ≡ asked_by source }
{
    match source {
        Source::Own => FirmReason::VersionDiffers,
        Source::View => FirmReason::ViewNotBelow,
        Source::Flight => FirmReason::FlightNotBelow,
        Source::Pull => FirmReason::PullNotBelow,
    }
}
