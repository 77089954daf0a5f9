//! The reading of a document: from its bytes to what it says, or to its fault.
//!
//! A document is walked through twice: once to see that it is JSON and to find its version, and once for what it says.
ghost use Rattle.std.specs.Prelude.{◌≡◌, Some, option_and_then};
ghost use Rattle.serde_json.specs.Data.{Data};
ghost use Rattle.bep_json.specs.Taking.{judged};
ghost use Rattle.bep_json.specs.Version.{version_of};
ghost use Rattle.bep_tree.specs.Read.{tree_of};
ghost use Rattle.bep_tree.specs.Walk.{Reaches};
ghost use Rattle.bep_document.specs.Reading.{Answers, AnswersVersioned, Tells, given, document_tree, of_told, unless, first_fault, reading_of, reading_of_cut_text, reading_of_cut_document};
ghost use Rattle.bep_document.specs.Fault.{nowhere};
ghost use Rattle.bep_document.specs.declared.fault.Fault.TheVariants.{NotJson};
ghost use Rattle.bep_document.specs.inner.Texts.{AnswersText, parts_read, cut_parts, cut_in_told};
ghost use Rattle.bep_document.specs.read.Checks.{is_cut, read_cut, is_check, read_check_parts};

use crate::faults::fault_of;
use crate::take::{CheckSlots, CutLists, CutSlot, check_told, cut_told};
use crate::{CheckParts, DocError, DocFault, Fault};
use bep_json::{DocVersion, Misread, Taken, Told, take_object};
use bep_record::Items;
use bep_tree::{MAX_DEPTH, Reader, Scratch, WalkError, json_text};
use std::alloc::Global;

/// The most bytes of a document.
///
/// This project's profile.
pub const MAX_BYTES: usize = 67108864;

/// What the bytes of a check document say, or the fault for which it is refused: the one with the smallest number that
/// applies, at its first place. `Memory` may come in place of any answer.
pub fn read_parts(alloc: Global, bytes: &[u8]) -> Result<CheckParts, DocError>
    ensures { Answers result (reading_of bytes.now) }
{
    let mut scratch = Scratch::new(alloc);
    let (version, text) = versioned_text(bytes, &mut scratch)?;
    let told = check_in(alloc, version, text, &mut scratch)?;
    parts_read(alloc, told)
}

/// The error of a fault of the whole document.
pub fn refused(fault: Fault) -> DocError
    ensures { result ≡ DocError.Refused (nowhere fault) }
{
    DocError::Refused(DocFault::nowhere(fault))
}

/// The version that a document's bytes say, and their text. Refuses `Range` where they are too many, `NotJson` where they
/// aren't JSON, and `VersionBad` where they say no version; `Memory` may come in place of any answer.
pub fn versioned_text<'a>(
    bytes: &'a [u8],
    scratch: &mut Scratch,
) -> Result<(DocVersion, &'a str), DocError>
    ensures { AnswersVersioned result (document_tree bytes.now) }
{
    if bytes.len() > MAX_BYTES {
        return Err(refused(Fault::Range));
    }
    let (text, found) = text_of(bytes, scratch)?;
    match found {
        Some(version) => Ok((version, text)),
        None => Err(refused(Fault::VersionBad)),
    }
}

// The text of bytes, however many, and the version that they say, if they say one. Refuses `NotJson` where they aren't JSON;
// `Memory` may come in place of any answer.
fn text_of<'a>(
    bytes: &'a [u8],
    scratch: &mut Scratch,
) -> Result<(&'a str, Option<DocVersion>), DocError>
    ensures { AnswersText result (given NotJson (tree_of bytes.now)) }
{
    let found = json_text(bytes, "version", scratch)?;
    match found {
        Some((text, number)) => Ok((text, version_of(number))),
        None => Err(refused(Fault::NotJson)),
    }
}

// The version with this number, if there is one.
fn version_of(number: Option<u64>) -> Option<DocVersion>
    ensures { result ≡ option_and_then version_of number }
{
    match number {
        Some(number) => DocVersion::of_number(number),
        None => None,
    }
}

// What is told of the check document, of this version, in a text.
fn check_in(
    alloc: Global,
    version: DocVersion,
    text: &str,
    scratch: &mut Scratch,
) -> Result<Told<CheckParts>, WalkError>
    ensures { (d : Data) → tree_of text.now ≡ Some d → Reaches result (λ told. told ≡ judged (is_check version d) (read_check_parts version d)) }
{
    let mut reader = Reader::new(text, scratch)?;
    let slots = take_object::<CheckSlots>(alloc, version, &mut reader, MAX_DEPTH)?;
    Ok(check_told(version, slots))
}

// What is read of parts that were told: the parts, if they have no fault.
fn parts_read(alloc: Global, told: Told<CheckParts>) -> Result<CheckParts, DocError>
    ensures { Answers result (parts_read told) }
{
    judged(alloc, thing_told(told)?)
}

/// The thing that was told; or the fault `Shape` or `Range` where none was. Memory isn't asked for.
pub fn thing_told<T: Drop>(told: Told<T>) -> Result<T, DocFault>
    ensures { Tells result (of_told told) }
{
    match told {
        Ok(thing) => Ok(thing),
        Err(Misread::Shape) => Err(DocFault::nowhere(Fault::Shape)),
        Err(Misread::Range) => Err(DocFault::nowhere(Fault::Range)),
    }
}

// The parts, if they have no fault.
fn judged(alloc: Global, parts: CheckParts) -> Result<CheckParts, DocError>
    ensures { Answers result (unless (first_fault parts) parts) }
{
    let found = fault_of(alloc, &parts)?;
    Ok(unless_found(found, parts)?)
}

/// The thing, unless a fault was found. Memory isn't asked for.
pub fn unless_found<T: Drop>(found: Option<DocFault>, thing: T) -> Result<T, DocFault>
    ensures { Tells result (unless found thing) }
{
    match found {
        Some(fault) => Err(fault),
        None => Ok(thing),
    }
}

/// What bytes say of a cut by itself, read as in documents of this version, with no rows; or the fault for which it is
/// refused: `NotJson`, `Shape`, `Range`, or the first of those that have a place. `Memory` may come in place of any answer.
pub fn read_cut_text(
    alloc: Global,
    version: DocVersion,
    bytes: &[u8],
) -> Result<CheckParts, DocError>
    ensures { Answers result (reading_of_cut_text version bytes.now) }
{
    let mut scratch = Scratch::new(alloc);
    let (text, _version) = text_of(bytes, &mut scratch)?;
    let told = cut_of_text(alloc, version, text, &mut scratch)?;
    parts_read(alloc, cut_parts(alloc, version, told))
}

// What is told of the cut that a text is.
fn cut_of_text(
    alloc: Global,
    version: DocVersion,
    text: &str,
    scratch: &mut Scratch,
) -> Result<Told<CutLists>, WalkError>
    ensures { (d : Data) → tree_of text.now ≡ Some d → Reaches result (λ told. told ≡ judged (is_cut version d) (read_cut version d)) }
{
    let mut reader = Reader::new(text, scratch)?;
    CutLists::take(alloc, version, &mut reader, MAX_DEPTH)
}

// A cut that was told, with no rows.
fn cut_parts(alloc: Global, version: DocVersion, told: Told<CutLists>) -> Told<CheckParts>
    ensures { result ≡ cut_parts version told }
{
    match told {
        Ok(cut) => Ok(cut.with_rows(version, Items::new(Vec::new(alloc)))),
        Err(misread) => Err(misread),
    }
}

/// What the bytes of a check document say of its cut, with no rows, or the fault for which it is refused, as `read_parts`
/// has them. The document's certificate may be missing, and isn't looked at. `Memory` may come in place of any answer.
pub fn read_cut_document(alloc: Global, bytes: &[u8]) -> Result<CheckParts, DocError>
    ensures { Answers result (reading_of_cut_document bytes.now) }
{
    let mut scratch = Scratch::new(alloc);
    let (version, text) = versioned_text(bytes, &mut scratch)?;
    let told = cut_member_in(alloc, version, text, &mut scratch)?;
    parts_read(alloc, cut_parts(alloc, version, told))
}

// What is told of the cut in the text of a check document of this version.
fn cut_member_in(
    alloc: Global,
    version: DocVersion,
    text: &str,
    scratch: &mut Scratch,
) -> Result<Told<CutLists>, WalkError>
    ensures { (d : Data) → tree_of text.now ≡ Some d → Reaches result (λ told. told ≡ cut_in_told version d) }
{
    let mut reader = Reader::new(text, scratch)?;
    let slots = take_object::<CutSlot>(alloc, version, &mut reader, MAX_DEPTH)?;
    Ok(cut_told(slots))
}
