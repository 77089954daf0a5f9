//! The reading of a row: from its bytes to the row that it says beside its header, or to its fault.
ghost use Rattle.std.specs.Prelude.{◌≡◌, None, Some, IfOk, MatchOption};
ghost use Rattle.serde_json.specs.Data.{Data};
ghost use Rattle.bep_json.specs.Taking.{judged};
ghost use Rattle.bep_tree.specs.Read.{tree_of};
ghost use Rattle.bep_tree.specs.Walk.{Reaches};
ghost use Rattle.bep_document.specs.Reading.{Answers};
ghost use Rattle.bep_row_document.specs.Reading.{reading_of_row, reading_of_text, row_judged};
ghost use Rattle.bep_row_document.specs.Text.{is_row, read_row};

use crate::faults::fault_in;
use crate::making::row_of;
use crate::text::RowText;
use bep_document::{DocError, Fault, refused, thing_told};
use bep_json::{DocVersion, Taken, Told};
use bep_record::{FolderName, Name};
use bep_row::NameRow;
use bep_tables::Cut;
use bep_tree::{MAX_DEPTH, Reader, Scratch, WalkError, json_text};
use std::alloc::{AllocError, Global};

/// The row that these bytes say beside the header, behind a row of the last name, as in a text of this version; or the fault for which it is refused: the one
/// with the smallest number that applies, at its first place. `Memory` may come in place of any answer. Whether the sequences fit
/// the header isn't looked at. The memory that reading needs is lent, and serves for any other row, too.
pub fn read_row(
    alloc: Global,
    scratch: &mut Scratch,
    version: DocVersion,
    header: &Cut,
    last: &Option<(FolderName, Name)>,
    bytes: &[u8],
) -> Result<NameRow, DocError>
    ensures { Answers result (reading_of_row version header.now last.now bytes.now) }
{
    let text = row_text(alloc, scratch, version, bytes)?;
    row_judged(alloc, header, last, text)
}

// What the bytes say as a row.
fn row_text(
    alloc: Global,
    scratch: &mut Scratch,
    version: DocVersion,
    bytes: &[u8],
) -> Result<RowText, DocError>
    ensures { Answers result (reading_of_text version bytes.now) }
{
    let Some(text) = json_in(bytes, scratch)? else {
        return Err(refused(Fault::NotJson));
    };
    let told = told_in(alloc, version, text, scratch)?;
    Ok(thing_told(told)?)
}

// The text of these bytes, if they are JSON.
fn json_in<'a>(bytes: &'a [u8], scratch: &mut Scratch) -> Result<Option<&'a str>, AllocError>
    ensures { IfOk result (λ found. MatchOption found (tree_of bytes.now ≡ None)
        (λ text. (d : Data) × (tree_of bytes.now ≡ Some d) × (tree_of text.now ≡ Some d))) }
{
    match json_text(bytes, "version", scratch)? {
        Some((text, _number)) => Ok(Some(text)),
        None => Ok(None),
    }
}

// What is told of the row that a text is.
fn told_in(
    alloc: Global,
    version: DocVersion,
    text: &str,
    scratch: &mut Scratch,
) -> Result<Told<RowText>, WalkError>
    ensures { (d : Data) → tree_of text.now ≡ Some d → Reaches result (λ told. told ≡ judged (is_row version d) (read_row version d)) }
{
    let mut reader = Reader::new(text, scratch)?;
    RowText::take(alloc, version, &mut reader, MAX_DEPTH)
}

// The row that a text says, if it has no fault beside the header.
fn row_judged(
    alloc: Global,
    header: &Cut,
    last: &Option<(FolderName, Name)>,
    text: RowText,
) -> Result<NameRow, DocError>
    ensures { Answers result (row_judged header.now last.now text) }
{
    match fault_in(alloc, header, last, &text)? {
        Some(fault) => Err(DocError::Refused(fault)),
        None => Ok(row_of(alloc, text)?),
    }
}
