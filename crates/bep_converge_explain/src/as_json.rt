//! All that keeps a cut from converging as JSON.
ghost use Rattle.std.specs.Prelude.{map, IfOk, OnOk};
ghost use Rattle.bep_lines.specs.declared.form.Form.TheVariants.{Json};
ghost use Rattle.bep_converge_check.specs.Hindrance.{hinder_shown};
ghost use Rattle.bep_converge_explain.specs.Explained.{IsConvergeWritten};
ghost use Rattle.bep_converge_explain.specs.inner.Added.{AddsConvergeExplanation, AddsHinders};

use crate::telling::{is_clear, telling_of};
use bep_converge_answer::converge_word_of;
use bep_converge_check::Hindrance;
use bep_explain::{Lookup, details_told, line_of, write_reason};
use bep_json::add_flag;
use bep_tables::Cut;
use json::Writer;
use std::alloc::{AllocError, Global};

/// These reasons that fail of a cut as one JSON document on a line: whether there is none, and each with its place and details,
/// in order. Or want of memory.
///
/// No tree of it is made.
pub fn converge_explanation_json<'a>(
    alloc: Global,
    cut: &'a Cut,
    found: &[Hindrance<'a>],
) -> Result<Vec<u8>, AllocError>
    ensures { IfOk result (λ text. IsConvergeWritten Json (map hinder_shown found.now) text.items) }
{
    let mut out = Writer::new(Vec::new(alloc));
    write_explanation(alloc, &mut out, cut, found)?;
    let text = line_of(out)?;
    Ok(text)
}

// Writes whether there is none of these, and each with its details.
fn write_explanation<'a>(
    alloc: Global,
    out: &mut Writer,
    cut: &'a Cut,
    found: &[Hindrance<'a>],
) -> Result<(), AllocError>
    ensures { OnOk result (AddsConvergeExplanation (map hinder_shown found.now) out.old out.new) }
{
    out.begin_object()?;
    add_flag(out, "converging", is_clear(found))?;
    out.key("failures")?;
    out.begin_array()?;
    write_all(alloc, out, cut, found)?;
    out.end_array()?;
    out.end_object()?;
    Ok(())
}

// Writes these into a list, each with its details.
fn write_all<'a>(
    alloc: Global,
    out: &mut Writer,
    cut: &'a Cut,
    found: &[Hindrance<'a>],
) -> Result<(), AllocError>
    ensures { OnOk result (AddsHinders (map hinder_shown found.now) out.old out.new) }
{
    let lookup = Lookup::of(alloc, cut, &[])?;
    for one in found {
        let of = lookup.find(one.spot.folder, one.spot.name);
        let details = details_told(alloc, cut, &of, &one.spot, telling_of(one.reason))?;
        let word = converge_word_of(one.reason);
        write_reason(alloc, out, word, &one.spot, details.as_slice())?;
    }
    Ok(())
}
