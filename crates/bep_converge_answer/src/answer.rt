//! The answer to a document where it is asked whether its cut converges.
ghost use Rattle.std.specs.Prelude.{◌≡◌, IfOk, map};
ghost use Rattle.bep_tables.specs.Cut.{tables_of};
ghost use Rattle.bep_tables.specs.Listed.{IsGrouped, cut_listed};
ghost use Rattle.bep_converge.specs.ConvergeVerdict.{IsConvergeVerdict};
ghost use Rattle.bep_answer.specs.Beside.{TellsOfCut};
ghost use Rattle.bep_converge_check.specs.Hindrance.{converge_shown};
ghost use Rattle.bep_converge_check.specs.Progress.{progress_shown};
ghost use Rattle.bep_converge_answer.specs.Convergence.{IsConvergeAnswerOfBytes, IsConvergeReport};
ghost use Rattle.bep_converge_answer.specs.Convergence as spec;
ghost use Rattle.bep_converge_answer.specs.Lines.{converge_report_text};

use crate::lines::{push_convergence, push_progress};
use crate::outcome::Convergence;
use crate::progress::progress_of_all;
use bep_answer::{Answer, Question, fault_line, hint_for};
use bep_converge_check::{ConvergeVerdict, FolderProgress, converge_verdict_grouped};
use bep_cut_document::{DocError, read_cut};
use bep_hints::Expected;
use bep_origin::cut_has_cluster;
use bep_tables::{Cut, Table};
use std::alloc::{AllocError, Global};

/// Whether the document's cut converges: the report, and where the document is refused, a hint on where it is at fault. Its
/// certificate may be missing, and isn't looked at.
#[derive(Drop)]
pub struct ConvergenceOfCut;

impl Question<Convergence> for ConvergenceOfCut {
    ghost says = { λ _. IsConvergeAnswerOfBytes };

    ghost tells = { λ _. TellsOfCut };

    fn answer(self, alloc: Global, bytes: Vec<u8>) -> Result<Answer<Convergence>, AllocError> {
        match read_cut(alloc, bytes.as_slice()) {
            Ok((_version, cut)) => {
                drop(bytes);
                Ok((report_on_convergence(alloc, &cut)?, None))
            }
            Err(DocError::Refused(fault)) => {
                let refused = (Convergence::Refused, fault_line(alloc, &fault)?);
                Ok((
                    refused,
                    hint_for(alloc, bytes.as_slice(), &fault, Expected::Cut),
                ))
            }
            Err(DocError::Memory) => Err(AllocError),
        }
    }
}

// The outcome for a cut, and the report.
fn report_on_convergence(alloc: Global, cut: &Cut) -> Result<(Convergence, Vec<u8>), AllocError>
    ensures { IfOk result (λ answer. IsConvergeReport cut.now answer.0 answer.1.items) }
{
    let table = Table::of(alloc, cut)?;
    match converge_verdict_grouped(alloc, cut, &table) {
        Ok(verdict) => report_by(alloc, cut, &table, &verdict),
        Err(error) => Err(error),
    }
}

// The same where this is the verdict.
fn report_by(
    alloc: Global,
    cut: &Cut,
    table: &Table<'_>,
    verdict: &ConvergeVerdict<'_>,
) -> Result<(Convergence, Vec<u8>), AllocError>
    requires table { IsGrouped (cut_listed cut.now) table.now }
    requires judged { IsConvergeVerdict (tables_of cut.now) (converge_shown verdict.now) }
    ensures { IfOk result (λ answer. IsConvergeReport cut.now answer.0 answer.1.items) }
{
    // called for its clause: the answer speaks of some cluster
    cut_has_cluster(cut);
    let folders = progress_of_all(alloc, cut, table)?;
    report_of(alloc, verdict, folders.as_slice())
}

// The outcome of the verdict, and the report, where the folders' names have come so far.
fn report_of(
    alloc: Global,
    verdict: &ConvergeVerdict<'_>,
    folders: &[FolderProgress<'_>],
) -> Result<(Convergence, Vec<u8>), AllocError>
    ensures outcome { IfOk result (λ answer. answer.0 ≡ spec.convergence_of (converge_shown verdict.now)) }
    ensures text { IfOk result (λ answer. answer.1.items ≡ converge_report_text (converge_shown verdict.now) (map progress_shown folders.now)) }
{
    let mut text = Vec::new(alloc);
    push_convergence(&mut text, verdict)?;
    push_progress(&mut text, folders)?;
    Ok((convergence_of(verdict), text))
}

// The outcome of a verdict.
fn convergence_of(verdict: &ConvergeVerdict<'_>) -> Convergence
    ensures { result ≡ spec.convergence_of (converge_shown verdict.now) }
{
    match *verdict {
        ConvergeVerdict::Converging => Convergence::Converging,
        ConvergeVerdict::NotConverging(..) => Convergence::NotConverging,
    }
}
