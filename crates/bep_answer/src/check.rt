//! A check document's audit.
ghost use Rattle.std.specs.Prelude.{◌≡◌, IfOk};
ghost use Rattle.bep_report.specs.Report.{report_text};
ghost use Rattle.bep_tables.specs.Listed.{IsGrouped, cut_listed};
ghost use Rattle.bep_answer.specs.Answer.{IsAnswerOfBytes, IsReport};
ghost use Rattle.bep_audit.specs.Shown.{verdict_shown};
ghost use Rattle.bep_answer.specs.Answer as spec;
ghost use Rattle.bep_answer.specs.Beside.{TellsOfCheck};

use crate::exchanging::{Answer, Question};
use crate::outcome::Outcome;
use crate::refusing::{hint_for, refusal};
use bep_audit::{Certificate, Verdict, check_grouped};
use bep_cut_document::{DocError, read_check};
use bep_hints::Expected;
use bep_origin::cut_has_cluster;
use bep_report::push_report_by;
use bep_tables::{Cut, Table};
use std::alloc::{AllocError, Global};

/// Whether the document's cut is settled under its certificate: the report, and where the document is refused, a hint on
/// where it is at fault.
#[derive(Drop)]
pub struct AuditOfCut;

impl Question<Outcome> for AuditOfCut {
    ghost says = { λ _. IsAnswerOfBytes };

    ghost tells = { λ _. TellsOfCheck };

    fn answer(self, alloc: Global, bytes: Vec<u8>) -> Result<Answer<Outcome>, AllocError> {
        match read_check(alloc, bytes.as_slice()) {
            Ok((cut, rows)) => {
                drop(bytes);
                Ok((report_on(alloc, &cut, &Certificate::of(rows))?, None))
            }
            Err(DocError::Refused(fault)) => {
                let refused = refusal(alloc, &fault)?;
                Ok((
                    refused,
                    hint_for(alloc, bytes.as_slice(), &fault, Expected::Check),
                ))
            }
            Err(DocError::Memory) => Err(AllocError),
        }
    }
}

/// The outcome of the cut's audit, and the report.
pub(crate) fn report_on<'a>(
    alloc: Global,
    cut: &'a Cut,
    certificate: &'a Certificate,
) -> Result<(Outcome, Vec<u8>), AllocError>
    ensures { IfOk result (λ answer. IsReport cut.now certificate.now answer.0 answer.1.items) }
{
    let table = Table::of(alloc, cut)?;
    report_by(alloc, cut, &table, certificate)
}

/// The same by the cut's table.
pub(crate) fn report_by(
    alloc: Global,
    cut: &Cut,
    table: &Table<'_>,
    certificate: &Certificate,
) -> Result<(Outcome, Vec<u8>), AllocError>
    requires { IsGrouped (cut_listed cut.now) table.now }
    ensures { IfOk result (λ answer. IsReport cut.now certificate.now answer.0 answer.1.items) }
{
    // called for its clause: the answer speaks of some cluster
    cut_has_cluster(cut);
    let verdict = check_grouped(cut, table, certificate);
    report_of(alloc, cut, table, &verdict)
}

// The outcome of the verdict, and the report.
fn report_of(
    alloc: Global,
    cut: &Cut,
    table: &Table<'_>,
    verdict: &Verdict<'_>,
) -> Result<(Outcome, Vec<u8>), AllocError>
    requires { IsGrouped (cut_listed cut.now) table.now }
    ensures outcome { IfOk result (λ answer. answer.0 ≡ spec.outcome_of (verdict_shown verdict.now)) }
    ensures text { IfOk result (λ answer. answer.1.items ≡ report_text cut.now (verdict_shown verdict.now)) }
{
    let mut text = Vec::new(alloc);
    push_report_by(alloc, &mut text, cut, table, verdict)?;
    Ok((outcome_of(verdict), text))
}

/// The outcome of a verdict.
pub fn outcome_of(verdict: &Verdict<'_>) -> Outcome
    ensures { result ≡ spec.outcome_of (verdict_shown verdict.now) }
{
    match *verdict {
        Verdict::Settled => Outcome::Settled,
        Verdict::Not(..) => Outcome::NotSettled,
    }
}
