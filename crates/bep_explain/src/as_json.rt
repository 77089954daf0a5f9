//! An explanation as JSON.
ghost use Rattle.std.specs.Prelude.{◌≡◌, [], map, IfOk, OnOk};
ghost use Rattle.bep_audit.specs.Shown.{place_shown};
ghost use Rattle.bep_audit.specs.Walk.{failure_shown};
ghost use Rattle.bep_json.specs.Added.{Adds};
ghost use Rattle.bep_lines.specs.declared.form.Form.TheVariants.{Json};
ghost use Rattle.bep_explain.specs.Annotated.{AddsReason, TellsLine, device_tree};
ghost use Rattle.bep_explain.specs.document.Explained.{IsWritten};
ghost use Rattle.bep_explain.specs.inner.Added.{AddsExplanation, AddsFailures};

use crate::detail::Detail;
use crate::details::details_of;
use crate::details_json::write_details;
use crate::lookup::Lookup;
use crate::none::is_none;
use bep_audit::{Failure, Spot};
use bep_json::{add_flag, add_text, text_of, write_null, write_number};
use bep_lines::word_of;
use bep_model::Row;
use bep_record::DeviceId;
use bep_tables::Cut;
use json::Writer;
use std::alloc::{AllocError, Global};

/// The failures found of a cut under these rows as one JSON document on a line: whether there is none, and each with its
/// reason, place and details, in order. Or want of memory.
///
/// No tree of it is made.
pub fn explanation_json<'a>(
    alloc: Global,
    cut: &'a Cut,
    rows: &'a [Row],
    found: &[Failure<'a>],
) -> Result<Vec<u8>, AllocError>
    ensures { IfOk result (λ text. IsWritten Json (map failure_shown found.now) text.items) }
{
    let mut out = Writer::new(Vec::new(alloc));
    write_explanation(alloc, &mut out, cut, rows, found)?;
    let text = line_of(out)?;
    Ok(text)
}

// Writes whether there is none of these, and each with its details.
fn write_explanation<'a>(
    alloc: Global,
    out: &mut Writer,
    cut: &'a Cut,
    rows: &'a [Row],
    found: &[Failure<'a>],
) -> Result<(), AllocError>
    ensures { OnOk result (AddsExplanation (map failure_shown found.now) out.old out.new) }
{
    out.begin_object()?;
    out.key("failures")?;
    out.begin_array()?;
    write_failures(alloc, out, cut, rows, found)?;
    out.end_array()?;
    add_flag(out, "settled", is_none(found))?;
    out.end_object()?;
    Ok(())
}

/// What was written, on a line. Or want of memory.
pub fn line_of(out: Writer) -> Result<Vec<u8>, AllocError>
    requires { out.before ≡ [] }
    ensures { IfOk result (λ text. TellsLine out text.items) }
{
    let told = text_of(out);
    let mut text = told.into_bytes();
    text.push(b'\n')?;
    Ok(text)
}

/// Writes these into a list, each with its details.
pub(crate) fn write_failures<'a>(
    alloc: Global,
    out: &mut Writer,
    cut: &'a Cut,
    rows: &'a [Row],
    found: &[Failure<'a>],
) -> Result<(), AllocError>
    ensures { OnOk result (AddsFailures (map failure_shown found.now) out.old out.new) }
{
    let lookup = Lookup::of(alloc, cut, rows)?;
    for one in found {
        let of = lookup.find(one.spot.folder, one.spot.name);
        let details = details_of(alloc, cut, &of, one)?;
        write_reason(
            alloc,
            out,
            word_of(one.reason),
            &one.spot,
            details.as_slice(),
        )?;
    }
    Ok(())
}

/// Writes a reason that fails, by its word, with its place and details.
pub fn write_reason(
    alloc: Global,
    out: &mut Writer,
    word: &str,
    spot: &Spot<'_>,
    details: &[Detail<'_>],
) -> Result<(), AllocError>
    ensures { OnOk result (AddsReason word.now (place_shown spot.now) out.old out.new) }
{
    out.begin_object()?;
    out.key("details")?;
    write_details(alloc, out, details)?;
    out.key("device")?;
    write_device(out, spot.device)?;
    add_text(out, "folder", spot.folder.as_str())?;
    add_text(out, "name", spot.name.as_str())?;
    add_text(out, "reason", word)?;
    out.end_object()?;
    Ok(())
}

/// Writes the number of a device, null where there is none.
pub(crate) fn write_device(out: &mut Writer, device: Option<DeviceId>) -> Result<(), AllocError>
    ensures { OnOk result (Adds (device_tree device) out.old out.new) }
{
    match device {
        None => write_null(out),
        Some(device) => write_number(out, device.number()),
    }
}
