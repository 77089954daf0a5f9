//! A cut's audit under the certificate that is made of it.
ghost use Rattle.std.specs.Prelude.{◌≡◌, None, IfOk};
ghost use Rattle.bep_model.specs.declared.reason.Reason.TheVariants.{NotWinner};
ghost use Rattle.bep_model.specs.FirmVerdict.{Unsettled};
ghost use Rattle.bep_model.specs.Verdict.{Not};
ghost use Rattle.bep_report.specs.Report.{firm_report_text, report_text};
ghost use Rattle.bep_tables.specs.Listed.{IsGrouped, cut_listed};
ghost use Rattle.bep_answer.specs.Beside.{TellsOfCut};
ghost use Rattle.bep_answer.specs.UnderWinners.{IsAnswerUnderWinnersOfBytes, IsFirmAnswerUnderWinnersOfBytes, IsFirmReportUnder, IsReportUnder, IsReportUnderWinners};

use crate::exchanging::{Answer, Question};
use crate::outcome::{Firmness, Outcome};
use crate::refusing::{fault_line, hint_for, refusal};
use crate::{check, firm};
use bep_audit::{Certificate, CertifyError, FirmVerdict, Verdict, certify_grouped};
use bep_cut_document::{DocError, read_cut};
use bep_hints::Expected;
use bep_model::Reason;
use bep_record::{FolderName, Name};
use bep_report::{push_firm_report_by, push_report_by};
use bep_tables::{Cut, Table};
use std::alloc::{AllocError, Global};

/// Whether the document's cut is settled under the list of its names' winners: the report, and where the document is
/// refused, a hint on where it is at fault. Its certificate may be missing and isn't looked at.
#[derive(Drop)]
pub struct AuditUnderWinners;

impl Question<Outcome> for AuditUnderWinners {
    ghost says = { λ _. IsAnswerUnderWinnersOfBytes };

    ghost tells = { λ _. TellsOfCut };

    fn answer(self, alloc: Global, bytes: Vec<u8>) -> Result<Answer<Outcome>, AllocError> {
        match read_cut(alloc, bytes.as_slice()) {
            Ok((_, cut)) => {
                drop(bytes);
                Ok((report_under_winners(alloc, &cut)?, None))
            }
            Err(DocError::Refused(fault)) => {
                let refused = refusal(alloc, &fault)?;
                Ok((
                    refused,
                    hint_for(alloc, bytes.as_slice(), &fault, Expected::Cut),
                ))
            }
            Err(DocError::Memory) => Err(AllocError),
        }
    }
}

/// The same where firm is asked for.
#[derive(Drop)]
pub struct FirmnessUnderWinners;

impl Question<Firmness> for FirmnessUnderWinners {
    ghost says = { λ _. IsFirmAnswerUnderWinnersOfBytes };

    ghost tells = { λ _. TellsOfCut };

    fn answer(self, alloc: Global, bytes: Vec<u8>) -> Result<Answer<Firmness>, AllocError> {
        match read_cut(alloc, bytes.as_slice()) {
            Ok((_, cut)) => {
                drop(bytes);
                Ok((firm_under_winners(alloc, &cut)?, None))
            }
            Err(DocError::Refused(fault)) => {
                let refused = (Firmness::Refused, fault_line(alloc, &fault)?);
                Ok((
                    refused,
                    hint_for(alloc, bytes.as_slice(), &fault, Expected::Cut),
                ))
            }
            Err(DocError::Memory) => Err(AllocError),
        }
    }
}

// The outcome for a cut, and its report.
fn report_under_winners(alloc: Global, cut: &Cut) -> Result<(Outcome, Vec<u8>), AllocError>
    ensures { IfOk result (λ answer. IsReportUnderWinners cut.now answer.0 answer.1.items) }
{
    let (outcome, report, _) = audit_under_winners(alloc, cut)?;
    Ok((outcome, report))
}

/// The outcome for a cut, its report, and the certificate under which it is audited; the first known name without a winner
/// is reported where there is one, and then there is no certificate.
pub fn audit_under_winners(
    alloc: Global,
    cut: &Cut,
) -> Result<(Outcome, Vec<u8>, Option<Certificate>), AllocError>
    ensures { IfOk result (λ told. IsReportUnder cut.now told.2 told.0 told.1.items) }
{
    let table = Table::of(alloc, cut)?;
    match certify_grouped(alloc, cut, &table) {
        Ok(certificate) => {
            let (outcome, report) = check::report_by(alloc, cut, &table, &certificate)?;
            Ok((outcome, report, Some(certificate)))
        }
        Err(CertifyError::NoWinner(folder, name)) => {
            let report = report_without(alloc, cut, &table, &folder, &name)?;
            Ok((Outcome::NotSettled, report, None))
        }
        Err(CertifyError::Memory) => Err(AllocError),
    }
}

// The report on a cut whose first known name without a winner this is.
fn report_without<'a>(
    alloc: Global,
    cut: &Cut,
    table: &Table<'_>,
    folder: &'a FolderName,
    name: &'a Name,
) -> Result<Vec<u8>, AllocError>
    requires { IsGrouped (cut_listed cut.now) table.now }
    ensures { IfOk result (λ report. report.items ≡ report_text cut.now (Not NotWinner folder.now name.now None)) }
{
    let verdict = Verdict::Not(Reason::NotWinner, folder, name, None);
    let mut report = Vec::new(alloc);
    push_report_by(alloc, &mut report, cut, table, &verdict)?;
    Ok(report)
}

// The outcome for a cut where firm is asked for, and its report.
fn firm_under_winners(alloc: Global, cut: &Cut) -> Result<(Firmness, Vec<u8>), AllocError>
    ensures { IfOk result (λ answer. IsFirmReportUnder cut.now answer.0 answer.1.items) }
{
    let table = Table::of(alloc, cut)?;
    match certify_grouped(alloc, cut, &table) {
        Ok(certificate) => firm::report_by(alloc, cut, &table, &certificate),
        Err(CertifyError::NoWinner(folder, name)) => {
            let report = firm_report_without(alloc, cut, &table, &folder, &name)?;
            Ok((Firmness::NotFirm, report))
        }
        Err(CertifyError::Memory) => Err(AllocError),
    }
}

// The same where firm is asked for.
fn firm_report_without<'a>(
    alloc: Global,
    cut: &Cut,
    table: &Table<'_>,
    folder: &'a FolderName,
    name: &'a Name,
) -> Result<Vec<u8>, AllocError>
    requires { IsGrouped (cut_listed cut.now) table.now }
    ensures { IfOk result (λ report. report.items ≡ firm_report_text cut.now (Unsettled NotWinner folder.now name.now None)) }
{
    let verdict = FirmVerdict::Unsettled(Reason::NotWinner, folder, name, None);
    let mut report = Vec::new(alloc);
    push_firm_report_by(alloc, &mut report, cut, table, &verdict)?;
    Ok(report)
}
