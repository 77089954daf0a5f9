//! Whole cuts and check documents as JSON, which are read again as they were.
ghost use Rattle.std.specs.Prelude.{◌≡◌, ◌≤◌, length, IfOk, OnOk, string_bytes};
ghost use Rattle.bep_json.specs.Added.{Adds};
ghost use Rattle.bep_document.specs.Reading.{Read, most_bytes};
ghost use Rattle.bep_cut_document.specs.Trees.{cut_tree, check_tree, check_document_text};
ghost use Rattle.bep_cut_document.specs.Told.{AreRowsInRange};
ghost use Rattle.bep_cut_document.specs.Room.{HasRoom, HasRoomForRows};
ghost use Rattle.bep_cut_document.specs.inner.Told.{IsCutTold};
ghost use Rattle.bep_cut_document.specs.Written.{check_of, check_of_tree};

use crate::writing::add_list;
use bep_document::faultless_parts_are_read;
use bep_json::{DocVersion, add_number, text_of};
use bep_model::Row;
use bep_tables::Cut;
use json::Writer;
use std::alloc::{AllocError, Global};

// Writes a cut, which is read again as the cut's lists.
pub(crate) fn write_cut(alloc: Global, out: &mut Writer, cut: &Cut) -> Result<(), AllocError>
    ensures value { OnOk result (Adds (cut_tree cut.now) out.old out.new) }
    ensures told { OnOk result (IsCutTold cut.now) }
{
    faultless_parts_are_read();
    out.begin_object()?;
    add_list(alloc, out, "folders", cut.folders())?;
    add_list(alloc, out, "links", cut.links())?;
    out.end_object()?;
    Ok(())
}

// Writes the check document of this version of a cut and the rows of a certificate for it. It is read as the very cut and
// rows, where the version has room for them and the sequences of the rows' records are in range.
fn write_check(
    alloc: Global,
    out: &mut Writer,
    version: DocVersion,
    cut: &Cut,
    rows: &[Row],
) -> Result<(), AllocError>
    ensures value { OnOk result (Adds (check_tree version cut.now rows.now) out.old out.new) }
    ensures read_back { OnOk result (HasRoom version cut.now → HasRoomForRows version rows.now → AreRowsInRange rows.now → check_of_tree (check_tree version cut.now rows.now) ≡ Read (cut.now, rows.now)) }
{
    faultless_parts_are_read();
    out.begin_object()?;
    add_list(alloc, out, "certificate", rows)?;
    out.key("cut")?;
    write_cut(alloc, out, cut)?;
    add_number(out, "version", version.number())?;
    out.end_object()?;
    Ok(())
}

/// The check document of this version of a cut and the rows of a certificate for it, as JSON without spaces, or want of
/// memory. Its bytes are read as the very cut and rows, where the version has room for them, they aren't more than a document
/// may have and the sequences of the rows' records are at most 9223372036854775807. Version 2 has room for all; version 1
/// has where no file is longer than 16777216 bytes.
///
/// No tree of it is made: it wants the memory of its text, and of the digits of one file at a time.
pub fn check_document(
    alloc: Global,
    version: DocVersion,
    cut: &Cut,
    rows: &[Row],
) -> Result<String, AllocError>
    ensures text { IfOk result (λ text. string_bytes text ≡ check_document_text version cut.now rows.now) }
    ensures read_back { OnOk result (HasRoom version cut.now → HasRoomForRows version rows.now → length (check_document_text version cut.now rows.now) ≤ most_bytes → AreRowsInRange rows.now → check_of (check_document_text version cut.now rows.now) ≡ Read (cut.now, rows.now)) }
{
    let mut out = Writer::new(Vec::new(alloc));
    write_check(alloc, &mut out, version, cut, rows)?;
    let text = text_of(out);
    Ok(text)
}
