//! All that keeps a document's cut from converging: written, a hint told on standard error, and the exit status answered.
ghost use Rattle.std.specs.Prelude.{◌≡◌, IfOk, map};
ghost use Rattle.bep_answer.specs.Beside.{TellsOfCut};
ghost use Rattle.bep_answer.specs.Heard.{IsHeard};
ghost use Rattle.bep_tables.specs.Cut.{tables_of};
ghost use Rattle.bep_converge_answer.specs.Convergence as answered;
ghost use Rattle.bep_converge_answer.specs.Status.{converge_status_of};
ghost use Rattle.bep_converge_check.specs.Hindrance.{hinder_shown};
ghost use Rattle.bep_converge_check.specs.Hindrances.{converge_verdict_of};
ghost use Rattle.bep_converge_explain.specs.Explained.{IsConvergeExplainedOfBytes, IsConvergeExplanation, IsConvergeExplanationTold, IsConvergeWritten};

use crate::as_json::converge_explanation_json;
use crate::text::converge_explanation;
use bep_answer::{Answer, Person, Question, exchange, hint_for};
use bep_converge_answer::{Convergence, end_converge};
use bep_converge_check::{Hindrance, hindrances};
use bep_cut_document::{DocError, read_cut};
use bep_explain::fault_in;
use bep_hints::Expected;
use bep_lines::Form;
use bep_tables::Cut;
use std::alloc::{AllocError, Global};
use std::io::{Read, Write};

/// All that keeps a document's cut from converging, in this form, and where the document is refused, a hint on where it is at
/// fault. Its certificate may be missing, and isn't looked at.
#[derive(Drop)]
pub struct HindrancesOfCut {
    /// How it is written.
    pub form: Form,
}

impl Question<Convergence> for HindrancesOfCut {
    ghost says = { λ asked. IsConvergeExplainedOfBytes asked.form };

    ghost tells = { λ _. TellsOfCut };

    fn answer(self, alloc: Global, bytes: Vec<u8>) -> Result<Answer<Convergence>, AllocError> {
        let form = self.form;
        match read_cut(alloc, bytes.as_slice()) {
            Ok((_, cut)) => {
                drop(bytes);
                Ok((explain_convergence(alloc, form, &cut)?, None))
            }
            Err(DocError::Refused(fault)) => {
                let refused = (Convergence::Refused, fault_in(alloc, form, &fault)?);
                Ok((
                    refused,
                    hint_for(alloc, bytes.as_slice(), &fault, Expected::Cut),
                ))
            }
            Err(DocError::Memory) => Err(AllocError),
        }
    }
}

/// All that keeps a cut from converging, in this form, and the outcome; or want of memory.
pub fn explain_convergence(
    alloc: Global,
    form: Form,
    cut: &Cut,
) -> Result<(Convergence, Vec<u8>), AllocError>
    ensures { IfOk result (λ answer. IsConvergeExplanation form (tables_of cut.now) answer.0 answer.1.items) }
{
    let found = hindrances(alloc, cut)?;
    let told = found.as_slice();
    let text = written(alloc, form, cut, told)?;
    Ok((convergence_for(told), text))
}

// What was found to keep the cut from converging, with details, in this form.
fn written<'a>(
    alloc: Global,
    form: Form,
    cut: &'a Cut,
    found: &[Hindrance<'a>],
) -> Result<Vec<u8>, AllocError>
    ensures { IfOk result (λ text. IsConvergeWritten form (map hinder_shown found.now) text.items) }
{
    match form {
        Form::Text => converge_explanation(alloc, cut, found),
        Form::Json => converge_explanation_json(alloc, cut, found),
    }
}

// Converging where nothing was found.
fn convergence_for(found: &[Hindrance<'_>]) -> Convergence
    ensures { result ≡ answered.convergence_of (converge_verdict_of (map hinder_shown found.now)) }
{
    match found {
        [] => Convergence::Converging,
        _ => Convergence::NotConverging,
    }
}

/// Reads a check document, and writes the line of each reason for which its cut doesn't converge, at each place at which it fails,
/// with what a person asks next below it, indented; `converging` alone where nothing fails; or the line of the fault for which the
/// document is refused. As JSON it is one document on a line: what fails, in the same order, and whether that is nothing; or the
/// fault. Tells a hint on where a refused document is at fault, or why there is no answer, on standard error, and answers the exit
/// status. The certificate may be missing, and isn't looked at.
pub fn explain_converge_and_tell<P: AllocGlobal, H: Person, R: Read, W: Write>(
    rt: &P,
    person: &mut H,
    form: Form,
    reader: &mut R,
    writer: &mut W,
) -> u8
    ensures told { IsConvergeExplanationTold form (R.remaining reader.old) (R.remaining reader.new) (W.contents writer.old) (W.contents writer.new) result }
    ensures heard { IsHeard converge_status_of TellsOfCut (R.remaining reader.old) (R.remaining reader.new) (H.heard person.old) (H.heard person.new) result }
{
    let answer = exchange(rt.alloc(), HindrancesOfCut { form }, reader, writer);
    end_converge(person, answer)
}
