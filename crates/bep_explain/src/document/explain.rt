//! All reasons why a document's cut isn't settled.
ghost use Rattle.std.specs.Prelude.{◌≡◌, IfOk, map};
ghost use Rattle.bep_explain.specs.Found.{verdict_of};
ghost use Rattle.bep_audit.specs.Walk.{failure_shown};
ghost use Rattle.bep_answer.specs.Answer.{outcome_of};
ghost use Rattle.bep_answer.specs.Beside.{TellsOfCheck};
ghost use Rattle.bep_explain.specs.document.Explained.{IsExplainedOfBytes, IsExplanation, IsRefusal, IsWritten};
ghost use Rattle.bep_answer.specs.declared.outcome.Outcome.TheVariants as outcomes;

use crate::document::refusals::refusal_json;
use crate::{explanation, explanation_json, failures};
use bep_answer::{Answer, Outcome, Question, fault_line, hint_for};
use bep_audit::{Certificate, Failure};
use bep_cut_document::{DocError, DocFault, read_check};
use bep_hints::Expected;
use bep_lines::Form;
use bep_model::Row;
use bep_tables::Cut;
use std::alloc::{AllocError, Global};

/// All that keeps a document's cut from being settled under its certificate, in this form, and where the document is
/// refused, a hint on where it is at fault.
#[derive(Drop)]
pub struct ReasonsOfCut {
    /// How it is written.
    pub form: Form,
}

impl Question<Outcome> for ReasonsOfCut {
    ghost says = { λ asked. IsExplainedOfBytes asked.form };

    ghost tells = { λ _. TellsOfCheck };

    fn answer(self, alloc: Global, bytes: Vec<u8>) -> Result<Answer<Outcome>, AllocError> {
        let form = self.form;
        match read_check(alloc, bytes.as_slice()) {
            Ok((cut, rows)) => {
                drop(bytes);
                Ok((
                    explain_cut(alloc, form, &cut, &Certificate::of(rows))?,
                    None,
                ))
            }
            Err(DocError::Refused(fault)) => {
                let refused = refusal_in(alloc, form, &fault)?;
                Ok((
                    refused,
                    hint_for(alloc, bytes.as_slice(), &fault, Expected::Check),
                ))
            }
            Err(DocError::Memory) => Err(AllocError),
        }
    }
}

// The outcome for a cut and its certificate, and the text.
fn explain_cut(
    alloc: Global,
    form: Form,
    cut: &Cut,
    certificate: &Certificate,
) -> Result<(Outcome, Vec<u8>), AllocError>
    ensures { IfOk result (λ answer. IsExplanation form cut.now certificate.now answer.0 answer.1.items) }
{
    let found = failures(alloc, cut, certificate)?;
    let text = written(alloc, form, cut, certificate.rows(), found.as_slice())?;
    Ok((outcome_for(found.as_slice()), text))
}

/// The failures found of a cut under these rows, with details, in this form.
pub(crate) fn written<'a>(
    alloc: Global,
    form: Form,
    cut: &'a Cut,
    rows: &'a [Row],
    found: &[Failure<'a>],
) -> Result<Vec<u8>, AllocError>
    ensures { IfOk result (λ text. IsWritten form (map failure_shown found.now) text.items) }
{
    match form {
        Form::Text => explanation(alloc, cut, rows, found),
        Form::Json => explanation_json(alloc, cut, rows, found),
    }
}

/// Settled where nothing fails.
pub(crate) fn outcome_for(found: &[Failure<'_>]) -> Outcome
    ensures { result ≡ outcome_of (verdict_of (map failure_shown found.now)) }
{
    match found {
        [] => Outcome::Settled,
        _ => Outcome::NotSettled,
    }
}

/// That the document is refused, and the fault in this form.
pub(crate) fn refusal_in(
    alloc: Global,
    form: Form,
    fault: &DocFault,
) -> Result<(Outcome, Vec<u8>), AllocError>
    ensures { IfOk result (λ answer. (answer.0 ≡ outcomes.Refused) × IsRefusal form fault.now answer.1.items) }
{
    let text = fault_in(alloc, form, fault)?;
    Ok((Outcome::Refused, text))
}

/// The fault for which a document is refused, in this form.
pub fn fault_in(alloc: Global, form: Form, fault: &DocFault) -> Result<Vec<u8>, AllocError>
    ensures { IfOk result (λ text. IsRefusal form fault.now text.items) }
{
    match form {
        Form::Text => fault_line(alloc, fault),
        Form::Json => refusal_json(alloc, fault),
    }
}
