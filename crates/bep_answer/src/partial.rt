//! The certificate for a document's cut as far as its names have winners.
ghost use Rattle.std.specs.Prelude.{◌≡◌, ◌++◌, IfOk, IsUtf8, OnOk, map};
ghost use Rattle.std.specs.List.{flat_map};
ghost use Rattle.bep_audit.specs.Shown.{place_shown};
ghost use Rattle.bep_answer.specs.Partial.{IsPart, IsPartlyOfBytes};
ghost use Rattle.bep_answer.specs.Partial as spec;
ghost use Rattle.bep_answer.specs.Beside.{AreLines, TellsOfPart, TellsWithout, line_without};

use crate::certify::document_of;
use crate::exchanging::{Answer, Beside, Question, lines_beside};
use crate::outcome::Partial;
use crate::refusing::{fault_line, hint_for};
use bep_audit::{Spot, winners};
use bep_cut_document::{DocError, read_cut};
use bep_hints::Expected;
use bep_json::DocVersion;
use bep_lines::push_not_settled;
use bep_model::Reason;
use bep_tables::Cut;
use std::alloc::{AllocError, Global};

/// The winners of the document's cut as far as there are any, in the document of that cut, and beside it a line for each name
/// that has none; where the document is refused, a hint on where it is at fault.
#[derive(Drop)]
pub struct PartOfCut;

impl Question<Partial> for PartOfCut {
    ghost says = { λ _. IsPartlyOfBytes };

    ghost tells = { λ _. TellsOfPart };

    fn answer(self, alloc: Global, bytes: Vec<u8>) -> Result<Answer<Partial>, AllocError> {
        match read_cut(alloc, bytes.as_slice()) {
            Ok((version, cut)) => {
                drop(bytes);
                certify_part(alloc, version, &cut)
            }
            Err(DocError::Refused(fault)) => {
                let refused = (Partial::Refused, fault_line(alloc, &fault)?);
                Ok((
                    refused,
                    hint_for(alloc, bytes.as_slice(), &fault, Expected::Cut),
                ))
            }
            Err(DocError::Memory) => Err(AllocError),
        }
    }
}

// The outcome for a cut, its document with the winners, and the lines of the names without.
fn certify_part(
    alloc: Global,
    version: DocVersion,
    cut: &Cut,
) -> Result<Answer<Partial>, AllocError>
    ensures part { IfOk result (λ told. IsPart version cut.now told.0.0 told.0.1.items) }
    ensures lines { IfOk result (λ told. TellsWithout cut.now told.1) }
{
    let (certificate, without) = winners(alloc, cut)?;
    let text = document_of(alloc, version, cut, &certificate)?;
    let lines = lines_of(alloc, without.as_slice())?;
    Ok(((partial_of(without.as_slice()), text), lines))
}

// Whether some names are without a winner.
fn partial_of(without: &[Spot<'_>]) -> Partial
    ensures { result ≡ spec.partial_of (map place_shown without.now) }
{
    match without {
        [] => Partial::Whole,
        _ => Partial::Part,
    }
}

// The line of each of these names, if there are any.
fn lines_of(alloc: Global, without: &[Spot<'_>]) -> Result<Option<Beside>, AllocError>
    ensures { IfOk result (AreLines (flat_map line_without (map place_shown without.now))) }
{
    let mut text = Vec::new(alloc);
    for spot in without {
        push_line(&mut text, spot)?;
    }
    Ok(lines_beside(text))
}

// Appends the line of a name without a winner. A text stays one.
fn push_line(text: &mut Vec<u8>, spot: &Spot<'_>) -> Result<(), AllocError>
    ensures line { OnOk result (text.new.items ≡ text.old.items ++ line_without (place_shown spot.now)) }
    ensures text { OnOk result (IsUtf8 text.old.items → IsUtf8 text.new.items) }
{
    // `as_str` is called for its clause: what it lends is a text
    let (_folder, _name) = (spot.folder.as_str(), spot.name.as_str());
    push_not_settled(text, Reason::NotWinner, spot.folder, spot.name, None)
}
