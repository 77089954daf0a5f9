//! Whole check documents.
ghost use Rattle.std.specs.Prelude.{◌≡◌, ◌<◌, List, true, length, OnOk, IfErr};
ghost use Rattle.json.specs.Token.{Token};
ghost use Rattle.serde_json.specs.Data.{Data};
ghost use Rattle.bep_tree.specs.declared.walk.WalkError.TheVariants.{Broken};
ghost use Rattle.bep_tree.specs.Walk.{Stands, Reaches};
ghost use Rattle.bep_document.specs.inner.Documents.{document_names, check_slots, cut_slot, check_told, cut_slot_told};

use crate::take::CutLists;
use crate::{CheckParts, RowParts};
use bep_json::{DocVersion, Misread, Slots, Told, Whole, both, due, fill, fill_leaf, noted};
use bep_record::Items;
use bep_tree::{Reader, WalkError, pass};
use std::alloc::Global;

// What is told of the members of a check document.
#[derive(Drop)]
pub(crate) struct CheckSlots {
    version: Option<Told<Whole<1, 2>>>,
    cut: Option<Told<CutLists>>,
    certificate: Option<Told<Items<RowParts>>>,
}

impl Slots for CheckSlots {
    ghost names = { document_names };

    ghost known = { check_slots };

    fn none() -> Self {
        CheckSlots {
            version: None,
            cut: None,
            certificate: None,
        }
    }

    fn take(
        &mut self,
        alloc: Global,
        version: DocVersion,
        key: &str,
        reader: &mut Reader<'_>,
        depth: usize,
    ) -> Result<bool, WalkError> {
        match key {
            "version" => fill_leaf(&mut self.version, alloc, version, reader, depth),
            "cut" => fill(&mut self.cut, alloc, version, reader, depth),
            "certificate" => fill(&mut self.certificate, alloc, version, reader, depth),
            _ => Ok(false),
        }
    }
}

// What is told of a check document of this version, by what is told of its members.
pub(crate) fn check_told(version: DocVersion, slots: Option<CheckSlots>) -> Told<CheckParts>
    ensures { result ≡ check_told version slots }
{
    let Some(slots) = slots else {
        return Err(Misread::Shape);
    };
    let (_seen, (cut, certificate)) = both(
        noted(slots.version),
        both(due(slots.cut), due(slots.certificate)),
    )?;
    Ok(cut.with_rows(version, certificate))
}

// What is told of the cut of a check document, whose other members aren't looked at.
#[derive(Drop)]
pub(crate) struct CutSlot {
    cut: Option<Told<CutLists>>,
}

impl Slots for CutSlot {
    ghost names = { document_names };

    ghost known = { cut_slot };

    fn none() -> Self {
        CutSlot { cut: None }
    }

    fn take(
        &mut self,
        alloc: Global,
        version: DocVersion,
        key: &str,
        reader: &mut Reader<'_>,
        depth: usize,
    ) -> Result<bool, WalkError> {
        match key {
            "version" => passed(reader, depth),
            "cut" => fill(&mut self.cut, alloc, version, reader, depth),
            "certificate" => passed(reader, depth),
            _ => Ok(false),
        }
    }
}

// Passes the value that comes next.
fn passed(reader: &mut Reader<'_>, depth: usize) -> Result<bool, WalkError>
    ensures value { (d : Data) (rest : List Token) → Stands depth reader.old d rest
        → Reaches result (λ passed. (passed ≡ true) × (reader.new ≡ rest)) }
    ensures shorter { OnOk result (length reader.new < length reader.old) }
    ensures takes_no_memory { IfErr result (λ error. error ≡ Broken) }
{
    match pass(reader, depth) {
        Ok(_) => Ok(true),
        Err(error) => Err(error),
    }
}

// What is told of the cut, by what is told of the members.
pub(crate) fn cut_told(slots: Option<CutSlot>) -> Told<CutLists>
    ensures { result ≡ cut_slot_told slots }
{
    match slots {
        Some(slots) => due(slots.cut),
        None => Err(Misread::Shape),
    }
}
