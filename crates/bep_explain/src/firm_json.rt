//! An explanation where firm is asked for, as JSON.
ghost use Rattle.std.specs.Prelude.{map, IfOk, OnOk};
ghost use Rattle.bep_audit.specs.Loose.{loose_shown};
ghost use Rattle.bep_audit.specs.Walk.{failure_shown};
ghost use Rattle.bep_lines.specs.declared.form.Form.TheVariants.{Json};
ghost use Rattle.bep_explain.specs.document.FirmExplained.{IsFirmWritten};
ghost use Rattle.bep_explain.specs.inner.Added.{AddsFirmExplanation, AddsLoose};

use crate::as_json::{line_of, write_failures, write_reason};
use crate::details::details_of_loose;
use crate::lookup::Lookup;
use crate::none::{is_firm, is_none};
use bep_audit::{Failure, Looseness};
use bep_json::add_flag;
use bep_lines::firm_word_of;
use bep_model::Row;
use bep_tables::Cut;
use json::Writer;
use std::alloc::{AllocError, Global};

/// The failures found of a cut under these rows, and then all that was found to keep it from being firm, as one JSON document
/// on a line, in order: each with its reason, place and details, and whether there is none. Or want of memory.
///
/// No tree of it is made.
pub fn firm_explanation_json<'a>(
    alloc: Global,
    cut: &'a Cut,
    rows: &'a [Row],
    found: &[Failure<'a>],
    loose: &[Looseness<'a>],
) -> Result<Vec<u8>, AllocError>
    ensures { IfOk result (λ text. IsFirmWritten Json (map failure_shown found.now) (map loose_shown loose.now) text.items) }
{
    let mut out = Writer::new(Vec::new(alloc));
    write_firm_explanation(alloc, &mut out, cut, rows, found, loose)?;
    let text = line_of(out)?;
    Ok(text)
}

// Writes whether there is none of these, and each with its details.
fn write_firm_explanation<'a>(
    alloc: Global,
    out: &mut Writer,
    cut: &'a Cut,
    rows: &'a [Row],
    found: &[Failure<'a>],
    loose: &[Looseness<'a>],
) -> Result<(), AllocError>
    ensures { OnOk result (AddsFirmExplanation (map failure_shown found.now) (map loose_shown loose.now) out.old out.new) }
{
    out.begin_object()?;
    out.key("failures")?;
    out.begin_array()?;
    write_failures(alloc, out, cut, rows, found)?;
    write_loose(alloc, out, cut, rows, loose)?;
    out.end_array()?;
    add_flag(out, "firm", is_firm(found, loose))?;
    add_flag(out, "settled", is_none(found))?;
    out.end_object()?;
    Ok(())
}

// Writes these into a list, each with its details.
fn write_loose<'a>(
    alloc: Global,
    out: &mut Writer,
    cut: &'a Cut,
    rows: &'a [Row],
    found: &[Looseness<'a>],
) -> Result<(), AllocError>
    ensures { OnOk result (AddsLoose (map loose_shown found.now) out.old out.new) }
{
    let lookup = Lookup::of(alloc, cut, rows)?;
    for one in found {
        let of = lookup.find(one.folder, one.name);
        let details = details_of_loose(alloc, cut, &of, one)?;
        write_reason(
            alloc,
            out,
            firm_word_of(one.reason),
            &one.spot(),
            details.as_slice(),
        )?;
    }
    Ok(())
}
