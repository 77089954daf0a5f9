//! The reading of a document: from its bytes to the cut and the rows that it writes down.
ghost use Rattle.std.specs.Prelude.{◌≡◌, IfOk, map};
ghost use Rattle.bep_document.specs.Faultless.{IsFaultless};
ghost use Rattle.bep_document.specs.Reading.{AnswersBy};
ghost use Rattle.bep_cut_document.specs.Written.{cut_written, row_written, check_of, cut_of_document};

use crate::written::{all_as_listed, all_in_order};
use bep_document::{CheckParts, DocError, read_cut_document, read_parts, readings_are_faultless};
use bep_index::records_make_an_index;
use bep_json::DocVersion;
use bep_model::Row;
use bep_tables::{Cut, CutParts};
use std::alloc::{AllocError, Global};

/// The cut and the certificate's rows that the bytes of a check document say, or the one fault for which the document is
/// refused: the smallest number that applies, at its first place. `Memory` may come in place of any answer.
pub fn read_check(alloc: Global, bytes: &[u8]) -> Result<(Cut, Vec<Row>), DocError>
    ensures { AnswersBy (λ read. (read.0, read.1.items)) result (check_of bytes.now) }
{
    readings_are_faultless();
    match read_parts(alloc, bytes) {
        Ok(parts) => match check_from(alloc, parts) {
            Ok(read) => Ok(read),
            Err(_) => Err(DocError::Memory),
        },
        Err(error) => Err(error),
    }
}

/// The version and the cut that the bytes of a check document say, or the one fault for which the document is refused: the
/// smallest number that applies, at its first place. The certificate may be missing, and what stands there isn't looked at.
/// `Memory` may come in place of any answer.
pub fn read_cut(alloc: Global, bytes: &[u8]) -> Result<(DocVersion, Cut), DocError>
    ensures { AnswersBy (λ read. (read.0, read.1)) result (cut_of_document bytes.now) }
{
    readings_are_faultless();
    let parts = read_cut_document(alloc, bytes)?;
    let version = parts.version;
    let (cut, _rows) = check_from(alloc, parts)?;
    Ok((version, cut))
}

// The cut and the rows that are made of parts without faults.
pub(crate) fn check_from(alloc: Global, parts: CheckParts) -> Result<(Cut, Vec<Row>), AllocError>
    requires { IsFaultless parts }
    ensures cut { IfOk result (λ read. read.0 ≡ cut_written parts.folders parts.links) }
    ensures rows { IfOk result (λ read. read.1.items ≡ map row_written parts.certificate) }
{
    records_make_an_index();
    let folders = all_in_order(alloc, parts.folders)?;
    let links = all_in_order(alloc, parts.links)?;
    let rows = all_as_listed(alloc, parts.certificate)?;
    Ok((Cut::of(CutParts { folders, links }), rows.into_vec()))
}
