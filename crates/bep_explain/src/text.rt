//! The text of an explanation.
ghost use Rattle.std.specs.Prelude.{◌≡◌, ◌++◌, map, IfOk, OnOk};
ghost use Rattle.std.specs.List.{flat_map};
ghost use Rattle.bep_model.specs.FirmVerdict.{Firm};
ghost use Rattle.bep_audit.specs.Loose.{loose_shown};
ghost use Rattle.bep_lines.specs.Lines.{firm_verdict_line};
ghost use Rattle.bep_audit.specs.Walk.{failure_shown};
ghost use Rattle.bep_lines.specs.declared.form.Form.TheVariants.{Text};
ghost use Rattle.bep_explain.specs.FirmTold.{loose_text};
ghost use Rattle.bep_explain.specs.Told as spec;
ghost use Rattle.bep_explain.specs.document.Explained.{IsWritten};
ghost use Rattle.bep_explain.specs.document.FirmExplained.{IsFirmWritten};
ghost use Rattle.bep_explain.specs.inner.Lines.{AddsLines, AddsLooseLines, AreLines};

use crate::details::{details_of, details_of_loose};
use crate::lines::lines_of;
use crate::lookup::Lookup;
use crate::none::{is_firm, is_none};
use bep_audit::{Failure, Looseness};
use bep_lines::{firm_word_of, push_failure, push_firm, push_reason, push_settled};
use bep_model::Row;
use bep_tables::Cut;
use std::alloc::{AllocError, Global};

/// The line of each of these failures of a cut under these rows, in order, with its details below it, each after two spaces;
/// `settled` alone where there is none. Or want of memory.
///
/// The details of one failure at a time are made.
pub fn explanation<'a>(
    alloc: Global,
    cut: &'a Cut,
    rows: &'a [Row],
    found: &[Failure<'a>],
) -> Result<Vec<u8>, AllocError>
    ensures { IfOk result (λ text. IsWritten Text (map failure_shown found.now) text.items) }
{
    let mut text = Vec::new(alloc);
    if is_none(found) {
        push_settled(&mut text)?;
    } else {
        push_all(alloc, &mut text, cut, rows, found)?;
    }
    Ok(text)
}

/// The same where firm is asked for: the lines of all that fails, and then those of all that keeps a settled cut from being
/// firm; `firm` alone where there is neither.
pub fn firm_explanation<'a>(
    alloc: Global,
    cut: &'a Cut,
    rows: &'a [Row],
    found: &[Failure<'a>],
    loose: &[Looseness<'a>],
) -> Result<Vec<u8>, AllocError>
    ensures { IfOk result (λ text. IsFirmWritten Text (map failure_shown found.now) (map loose_shown loose.now) text.items) }
{
    if is_firm(found, loose) {
        firm_line(alloc)
    } else {
        lines_of_both(alloc, cut, rows, found, loose)
    }
}

// The line where there is neither.
fn firm_line(alloc: Global) -> Result<Vec<u8>, AllocError>
    ensures { IfOk result (λ text. text.items ≡ firm_verdict_line Firm) }
{
    let mut text = Vec::new(alloc);
    push_firm(&mut text)?;
    Ok(text)
}

// The lines of both.
fn lines_of_both<'a>(
    alloc: Global,
    cut: &'a Cut,
    rows: &'a [Row],
    found: &[Failure<'a>],
    loose: &[Looseness<'a>],
) -> Result<Vec<u8>, AllocError>
    ensures { IfOk result (λ text. AreLines (map failure_shown found.now) (map loose_shown loose.now) text.items) }
{
    let mut text = Vec::new(alloc);
    push_all(alloc, &mut text, cut, rows, found)?;
    push_all_loose(alloc, &mut text, cut, rows, loose)?;
    Ok(text)
}

// Appends the lines of all of these.
fn push_all<'a>(
    alloc: Global,
    text: &mut Vec<u8>,
    cut: &'a Cut,
    rows: &'a [Row],
    found: &[Failure<'a>],
) -> Result<(), AllocError>
    ensures { OnOk result (AddsLines (map failure_shown found.now) text.old.items text.new.items) }
{
    let lookup = Lookup::of(alloc, cut, rows)?;
    for one in found {
        let of = lookup.find(one.spot.folder, one.spot.name);
        let details = details_of(alloc, cut, &of, one)?;
        let lines = lines_of(alloc, details.as_slice())?;
        push_told(text, one, lines.as_slice())?;
    }
    Ok(())
}

// Appends the lines of one of them.
fn push_told(text: &mut Vec<u8>, one: &Failure<'_>, lines: &[Vec<u8>]) -> Result<(), AllocError>
    ensures { OnOk result (text.new.items ≡ text.old.items ++ spec.told_text (record { failure = failure_shown one.now; details = map (λ said. said.items) lines.now })) }
{
    let spot = &one.spot;
    push_failure(text, one.reason, spot.folder, spot.name, spot.device)?;
    push_details(text, lines)?;
    Ok(())
}

// Appends the lines of all of these.
fn push_all_loose<'a>(
    alloc: Global,
    text: &mut Vec<u8>,
    cut: &'a Cut,
    rows: &'a [Row],
    found: &[Looseness<'a>],
) -> Result<(), AllocError>
    ensures { OnOk result (AddsLooseLines (map loose_shown found.now) text.old.items text.new.items) }
{
    let lookup = Lookup::of(alloc, cut, rows)?;
    for one in found {
        let of = lookup.find(one.folder, one.name);
        let details = details_of_loose(alloc, cut, &of, one)?;
        let lines = lines_of(alloc, details.as_slice())?;
        push_loose(text, one, lines.as_slice())?;
    }
    Ok(())
}

// Appends the lines of one of them.
fn push_loose(
    text: &mut Vec<u8>,
    loose: &Looseness<'_>,
    lines: &[Vec<u8>],
) -> Result<(), AllocError>
    ensures { OnOk result (text.new.items ≡ text.old.items ++ loose_text (record { loosening = loose_shown loose.now; details = map (λ said. said.items) lines.now })) }
{
    let word = firm_word_of(loose.reason);
    push_reason(text, word, loose.folder, loose.name, Some(loose.device))?;
    push_details(text, lines)?;
    Ok(())
}

/// Appends a line for each of the details.
pub fn push_details(text: &mut Vec<u8>, details: &[Vec<u8>]) -> Result<(), AllocError>
    ensures { OnOk result (text.new.items ≡ text.old.items ++ flat_map spec.detail_line (map (λ said. said.items) details.now)) }
{
    for said in details {
        push_detail(text, said.as_slice())?;
    }
    Ok(())
}

// Appends the line of a detail.
fn push_detail(text: &mut Vec<u8>, said: &[u8]) -> Result<(), AllocError>
    ensures { OnOk result (text.new.items ≡ text.old.items ++ spec.detail_line said.now) }
{
    text.extend_from_slice(b"  ")?;
    push_on_one_line(text, said)?;
    text.push(b'\n')?;
    Ok(())
}

// Appends these bytes, a space for each newline.
fn push_on_one_line(text: &mut Vec<u8>, said: &[u8]) -> Result<(), AllocError>
    ensures { OnOk result (text.new.items ≡ text.old.items ++ map spec.not_newline said.now) }
{
    for byte in said {
        text.push(not_newline(*byte))?;
    }
    Ok(())
}

fn not_newline(byte: u8) -> u8
    ensures { result ≡ spec.not_newline byte }
{
    if byte == b'\n' { b' ' } else { byte }
}
