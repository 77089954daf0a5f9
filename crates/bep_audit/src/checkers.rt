//! The checkers: whether a cut and a certificate are settled, or why not.
ghost use Rattle.std.specs.Prelude.{◌≡◌, ◌↔◌, [], IfOk};
ghost use Rattle.bep_model.specs.Calm.{IsCalm, contents_of};
ghost use Rattle.bep_model.specs.Settled.{IsSettled};
ghost use Rattle.bep_model.specs.Verdict.{IsVerdict};
ghost use Rattle.bep_machine.specs.Laws.{StaysPut, StaysSettled};
ghost use Rattle.bep_tables.specs.Cut.{tables_of};
ghost use Rattle.bep_tables.specs.Listed.{IsGrouped, cut_listed};
ghost use Rattle.bep_audit.specs.declared.verdict.Verdict.TheVariants.{Settled};
ghost use Rattle.bep_audit.specs.Shown.{verdict_shown};

use crate::failing::first_failing;
use crate::spot::Spot;
use crate::walk::least_failure;
use crate::{Certificate, Verdict, first_disordered};
use bep_machine::{settled_stays_put, settled_stays_settled};
use bep_model::{
    Reason, reasons_are_numbered, rows_rise_in_order, settled_is_calm, settled_is_faultless,
};
use bep_tables::{Cut, Table};
use std::alloc::{AllocError, Global};

/// All reasons, in the order in which they are told.
pub const REASONS: [Reason; 12] = [
    Reason::CertificateOrder,
    Reason::NameMissing,
    Reason::NameUnknown,
    Reason::NotWinner,
    Reason::RecordMissing,
    Reason::RecordDiffers,
    Reason::LocalOnly,
    Reason::StoreDiffers,
    Reason::StoreUnclean,
    Reason::ViewAhead,
    Reason::FlightAhead,
    Reason::PullAhead,
];

/// Whether the cut and the certificate are settled; if not, the first reason that fails, at its first place.
///
/// Takes no memory, and believes no recorded hash of a store. Each reason is looked for by itself, in the order of the
/// reasons.
///
/// Where it answers `Settled`, what the cluster holds stays put: after every list of further steps without local edits,
/// from every sound cluster with the cut's tables, each folder holds byte for byte what it held, each name has its certified
/// content, and the cluster is settled again, for the winners that it has then, if no index was reset.
pub fn check_plain<'a>(cut: &'a Cut, certificate: &'a Certificate) -> Verdict<'a>
    ensures verdict { IsVerdict (tables_of cut.now) certificate.now (verdict_shown result) }
    ensures settled { (result ≡ Settled) ↔ IsSettled (tables_of cut.now) certificate.now }
    ensures calm { result ≡ Settled → IsCalm (tables_of cut.now) (contents_of certificate.now) [] }
    ensures stays_put { result ≡ Settled → StaysPut (tables_of cut.now) certificate.now }
    ensures stays_settled { result ≡ Settled → StaysSettled (tables_of cut.now) certificate.now }
{
    settled_is_faultless();
    settled_is_calm();
    settled_stays_put();
    settled_stays_settled();
    reasons_are_numbered();
    rows_rise_in_order();
    for reason in REASONS {
        if let Some(spot) = first_failing(cut, certificate.rows(), reason) {
            return Verdict::at(reason, spot);
        }
    }
    Verdict::Settled
}

/// What `check_plain` answers, or want of memory.
///
/// Groups the cut by folder and name, and walks once over the groups beside the rows.
pub fn check<'a>(
    alloc: Global,
    cut: &'a Cut,
    certificate: &'a Certificate,
) -> Result<Verdict<'a>, AllocError>
    ensures verdict { IfOk result (λ verdict. IsVerdict (tables_of cut.now) certificate.now (verdict_shown verdict)) }
    ensures settled { IfOk result (λ verdict. (verdict ≡ Settled) ↔ IsSettled (tables_of cut.now) certificate.now) }
    ensures calm { IfOk result (λ verdict. verdict ≡ Settled → IsCalm (tables_of cut.now) (contents_of certificate.now) []) }
    ensures stays_put { IfOk result (λ verdict. verdict ≡ Settled → StaysPut (tables_of cut.now) certificate.now) }
    ensures stays_settled { IfOk result (λ verdict. verdict ≡ Settled → StaysSettled (tables_of cut.now) certificate.now) }
{
    let table = Table::of(alloc, cut)?;
    Ok(check_grouped(cut, &table, certificate))
}

/// What `check_plain` answers, by the cut's table.
pub fn check_grouped<'a>(
    cut: &'a Cut,
    table: &Table<'a>,
    certificate: &'a Certificate,
) -> Verdict<'a>
    requires { IsGrouped (cut_listed cut.now) table.now }
    ensures verdict { IsVerdict (tables_of cut.now) certificate.now (verdict_shown result) }
    ensures settled { (result ≡ Settled) ↔ IsSettled (tables_of cut.now) certificate.now }
    ensures calm { result ≡ Settled → IsCalm (tables_of cut.now) (contents_of certificate.now) [] }
    ensures stays_put { result ≡ Settled → StaysPut (tables_of cut.now) certificate.now }
    ensures stays_settled { result ≡ Settled → StaysSettled (tables_of cut.now) certificate.now }
{
    settled_is_faultless();
    settled_is_calm();
    settled_stays_put();
    settled_stays_settled();
    reasons_are_numbered();
    let rows = certificate.rows();
    if let Some(row) = first_disordered(rows) {
        let place = Spot::of_row(row);
        return Verdict::at(Reason::CertificateOrder, place);
    }
    match least_failure(cut, table.entries(), rows) {
        None => Verdict::Settled,
        Some(least) => Verdict::at(least.reason, least.spot),
    }
}
