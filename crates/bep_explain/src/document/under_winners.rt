//! All reasons why a document's cut isn't settled, or firm, under the winners of its names.
ghost use Rattle.std.specs.Prelude.{IfOk};
ghost use Rattle.bep_answer.specs.Beside.{TellsOfCut};
ghost use Rattle.bep_tables.specs.Cut.{tables_of};
ghost use Rattle.bep_explain.specs.document.UnderWinners.{IsExplainedUnderWinnersOfBytes, IsExplanationUnderWinners, IsFirmExplainedUnderWinnersOfBytes, IsFirmExplanationUnderWinners};

use crate::document::explain::{fault_in, outcome_for, refusal_in, written};
use crate::document::firm::{firm_written, firmness_for};
use crate::loosenings;
use crate::unwon::failures_unwon;
use bep_answer::{Answer, Firmness, Outcome, Question, hint_for};
use bep_audit::winners;
use bep_cut_document::{DocError, read_cut};
use bep_hints::Expected;
use bep_lines::Form;
use bep_model::firm_is_faultless;
use bep_tables::Cut;
use std::alloc::{AllocError, Global};

/// All that keeps a document's cut from being settled under the winners of its names, in this form; a name without a winner
/// is told as that. Where the document is refused, a hint on where it is at fault.
#[derive(Drop)]
pub struct ReasonsUnderWinners {
    /// How it is written.
    pub form: Form,
}

impl Question<Outcome> for ReasonsUnderWinners {
    ghost says = { λ asked. IsExplainedUnderWinnersOfBytes asked.form };

    ghost tells = { λ _. TellsOfCut };

    fn answer(self, alloc: Global, bytes: Vec<u8>) -> Result<Answer<Outcome>, AllocError> {
        let form = self.form;
        match read_cut(alloc, bytes.as_slice()) {
            Ok((_, cut)) => {
                drop(bytes);
                Ok((explain_under_winners(alloc, form, &cut)?, None))
            }
            Err(DocError::Refused(fault)) => {
                let refused = refusal_in(alloc, form, &fault)?;
                Ok((
                    refused,
                    hint_for(alloc, bytes.as_slice(), &fault, Expected::Cut),
                ))
            }
            Err(DocError::Memory) => Err(AllocError),
        }
    }
}

/// The same of all that keeps it from being firm.
#[derive(Drop)]
pub struct FirmReasonsUnderWinners {
    /// How it is written.
    pub form: Form,
}

impl Question<Firmness> for FirmReasonsUnderWinners {
    ghost says = { λ asked. IsFirmExplainedUnderWinnersOfBytes asked.form };

    ghost tells = { λ _. TellsOfCut };

    fn answer(self, alloc: Global, bytes: Vec<u8>) -> Result<Answer<Firmness>, AllocError> {
        let form = self.form;
        match read_cut(alloc, bytes.as_slice()) {
            Ok((_, cut)) => {
                drop(bytes);
                Ok((explain_firm_under_winners(alloc, form, &cut)?, None))
            }
            Err(DocError::Refused(fault)) => {
                let refused = (Firmness::Refused, fault_in(alloc, form, &fault)?);
                Ok((
                    refused,
                    hint_for(alloc, bytes.as_slice(), &fault, Expected::Cut),
                ))
            }
            Err(DocError::Memory) => Err(AllocError),
        }
    }
}

/// All that keeps a cut from being settled under the winners of its names, in this form, and the outcome; or want of memory.
pub fn explain_under_winners(
    alloc: Global,
    form: Form,
    cut: &Cut,
) -> Result<(Outcome, Vec<u8>), AllocError>
    ensures { IfOk result (λ answer. IsExplanationUnderWinners form (tables_of cut.now) answer.0 answer.1.items) }
{
    let (certificate, _) = winners(alloc, cut)?;
    let found = failures_unwon(alloc, cut, &certificate)?;
    let text = written(alloc, form, cut, certificate.rows(), found.as_slice())?;
    Ok((outcome_for(found.as_slice()), text))
}

/// The same of all that keeps it from being firm.
pub fn explain_firm_under_winners(
    alloc: Global,
    form: Form,
    cut: &Cut,
) -> Result<(Firmness, Vec<u8>), AllocError>
    ensures { IfOk result (λ answer. IsFirmExplanationUnderWinners form (tables_of cut.now) answer.0 answer.1.items) }
{
    firm_is_faultless();
    let (certificate, _) = winners(alloc, cut)?;
    let found = failures_unwon(alloc, cut, &certificate)?;
    let loose = loosenings(alloc, cut, &certificate)?;
    let (told, more) = (found.as_slice(), loose.as_slice());
    let text = firm_written(alloc, form, cut, certificate.rows(), told, more)?;
    Ok((firmness_for(told, more), text))
}
