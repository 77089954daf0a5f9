//! All reasons why a document's cut isn't firm.
ghost use Rattle.std.specs.Prelude.{◌≡◌, IfOk, map};
ghost use Rattle.bep_audit.specs.Loose.{loose_shown};
ghost use Rattle.bep_audit.specs.Walk.{failure_shown};
ghost use Rattle.bep_answer.specs.Beside.{TellsOfCheck};
ghost use Rattle.bep_explain.specs.document.FirmExplained.{IsFirmExplainedOfBytes, IsFirmExplanation, IsFirmWritten, firmness_told};

use crate::document::explain::fault_in;
use crate::{failures, firm_explanation, firm_explanation_json, loosenings};
use bep_answer::{Answer, Firmness, Question, hint_for};
use bep_audit::{Certificate, Failure, Looseness};
use bep_cut_document::{DocError, read_check};
use bep_hints::Expected;
use bep_lines::Form;
use bep_model::{Row, firm_is_faultless};
use bep_tables::Cut;
use std::alloc::{AllocError, Global};

/// All that keeps a document's cut from being firm under its certificate, in this form, and where the document is refused, a
/// hint on where it is at fault.
#[derive(Drop)]
pub struct FirmReasonsOfCut {
    /// How it is written.
    pub form: Form,
}

impl Question<Firmness> for FirmReasonsOfCut {
    ghost says = { λ asked. IsFirmExplainedOfBytes asked.form };

    ghost tells = { λ _. TellsOfCheck };

    fn answer(self, alloc: Global, bytes: Vec<u8>) -> Result<Answer<Firmness>, AllocError> {
        let form = self.form;
        match read_check(alloc, bytes.as_slice()) {
            Ok((cut, rows)) => {
                drop(bytes);
                Ok((
                    explain_cut(alloc, form, &cut, &Certificate::of(rows))?,
                    None,
                ))
            }
            Err(DocError::Refused(fault)) => {
                let refused = (Firmness::Refused, fault_in(alloc, form, &fault)?);
                Ok((
                    refused,
                    hint_for(alloc, bytes.as_slice(), &fault, Expected::Check),
                ))
            }
            Err(DocError::Memory) => Err(AllocError),
        }
    }
}

// The outcome for a cut and its certificate, and the text.
fn explain_cut(
    alloc: Global,
    form: Form,
    cut: &Cut,
    certificate: &Certificate,
) -> Result<(Firmness, Vec<u8>), AllocError>
    ensures { IfOk result (λ answer. IsFirmExplanation form cut.now certificate.now answer.0 answer.1.items) }
{
    firm_is_faultless();
    let found = failures(alloc, cut, certificate)?;
    let loose = loosenings(alloc, cut, certificate)?;
    let (told, more) = (found.as_slice(), loose.as_slice());
    let text = firm_written(alloc, form, cut, certificate.rows(), told, more)?;
    Ok((firmness_for(told, more), text))
}

/// The failures found of a cut under these rows, and what was found to keep it from being firm, with details, in this form.
pub(crate) fn firm_written<'a>(
    alloc: Global,
    form: Form,
    cut: &'a Cut,
    rows: &'a [Row],
    found: &[Failure<'a>],
    loose: &[Looseness<'a>],
) -> Result<Vec<u8>, AllocError>
    ensures { IfOk result (λ text. IsFirmWritten form (map failure_shown found.now) (map loose_shown loose.now) text.items) }
{
    match form {
        Form::Text => firm_explanation(alloc, cut, rows, found, loose),
        Form::Json => firm_explanation_json(alloc, cut, rows, found, loose),
    }
}

/// Firm where nothing was found.
pub(crate) fn firmness_for(found: &[Failure<'_>], loose: &[Looseness<'_>]) -> Firmness
    ensures { result ≡ firmness_told (map failure_shown found.now) (map loose_shown loose.now) }
{
    match (found, loose) {
        ([], []) => Firmness::Firm,
        ([], _) => Firmness::NotFirm,
        _ => Firmness::NotFirm,
    }
}
