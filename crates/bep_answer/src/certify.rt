//! The certificate for a document's cut.
ghost use Rattle.std.specs.Prelude.{◌≡◌, ◌≤◌, None, Contains, length, IfOk, OnOk};
ghost use Rattle.bep_document.specs.Reading.{Read, most_bytes};
ghost use Rattle.bep_model.specs.declared.row.Row.{Row};
ghost use Rattle.bep_model.specs.Winner.{IsWinner};
ghost use Rattle.bep_tables.specs.Cut.{tables_of};
ghost use Rattle.bep_cut_document.specs.Room.{HasRoom};
ghost use Rattle.bep_cut_document.specs.Trees.{check_document_text};
ghost use Rattle.bep_model.specs.declared.reason.Reason.TheVariants.{NotWinner};
ghost use Rattle.bep_model.specs.Verdict.{Not};
ghost use Rattle.bep_cut_document.specs.Written.{check_of};
ghost use Rattle.bep_lines.specs.Lines.{verdict_line};
ghost use Rattle.bep_answer.specs.Beside.{TellsOfCut};
ghost use Rattle.bep_answer.specs.Certified.{IsCertificate, IsCertifiedOfBytes, document_text};

use crate::exchanging::{Answer, Question};
use crate::outcome::Certified;
use crate::refusing::{fault_line, hint_for};
use bep_audit::{Certificate, CertifyError, certify};
use bep_cut_document::{DocError, check_document, read_cut, winners_are_in_range};
use bep_hints::Expected;
use bep_json::DocVersion;
use bep_lines::push_not_settled;
use bep_model::Reason;
use bep_record::{FolderName, Name};
use bep_tables::Cut;
use std::alloc::{AllocError, Global};

/// The list of the winners of the document's cut, in the document of that cut, and where the document is refused, a hint
/// on where it is at fault.
#[derive(Drop)]
pub struct CertificateOfCut;

impl Question<Certified> for CertificateOfCut {
    ghost says = { λ _. IsCertifiedOfBytes };

    ghost tells = { λ _. TellsOfCut };

    fn answer(self, alloc: Global, bytes: Vec<u8>) -> Result<Answer<Certified>, AllocError> {
        match read_cut(alloc, bytes.as_slice()) {
            Ok((version, cut)) => {
                drop(bytes);
                Ok((certify_cut(alloc, version, &cut)?, None))
            }
            Err(DocError::Refused(fault)) => {
                let refused = (Certified::Refused, fault_line(alloc, &fault)?);
                Ok((
                    refused,
                    hint_for(alloc, bytes.as_slice(), &fault, Expected::Cut),
                ))
            }
            Err(DocError::Memory) => Err(AllocError),
        }
    }
}

/// The outcome for a cut, and the text: its document of this version with its certificate, or the line of a name without a
/// winner.
pub fn certify_cut(
    alloc: Global,
    version: DocVersion,
    cut: &Cut,
) -> Result<(Certified, Vec<u8>), AllocError>
    ensures { IfOk result (λ answer. IsCertificate version cut.now answer.0 answer.1.items) }
{
    match certify(alloc, cut) {
        Ok(certificate) => {
            let text = document_of(alloc, version, cut, &certificate)?;
            Ok((Certified::Written, text))
        }
        Err(CertifyError::NoWinner(folder, name)) => {
            let text = line_without(alloc, &folder, &name)?;
            Ok((Certified::NoWinner, text))
        }
        Err(CertifyError::Memory) => Err(AllocError),
    }
}

/// The document of this version of the cut with this certificate, whose rows hold winners.
pub(crate) fn document_of(
    alloc: Global,
    version: DocVersion,
    cut: &Cut,
    certificate: &Certificate,
) -> Result<Vec<u8>, AllocError>
    requires winners { (row : Row) → Contains certificate.now row → IsWinner (tables_of cut.now) row.folder row.entry.name (row.device, row.entry) }
    ensures text { IfOk result (λ text. text.items ≡ document_text version cut.now certificate.now) }
    ensures read_back { OnOk result (HasRoom version cut.now → length (check_document_text version cut.now certificate.now) ≤ most_bytes → check_of (check_document_text version cut.now certificate.now) ≡ Read (cut.now, certificate.now)) }
{
    winners_are_in_range(cut);
    let mut text = check_document(alloc, version, cut, certificate.rows())?.into_bytes();
    text.push(b'\n')?;
    Ok(text)
}

// The line of a name that has no winner.
fn line_without(alloc: Global, folder: &FolderName, name: &Name) -> Result<Vec<u8>, AllocError>
    ensures { IfOk result (λ text. text.items ≡ verdict_line (Not NotWinner folder.now name.now None)) }
{
    let mut text = Vec::new(alloc);
    push_not_settled(&mut text, Reason::NotWinner, folder, name, None)?;
    Ok(text)
}
