//! All that keeps a cut from converging as lines.
ghost use Rattle.std.specs.Prelude.{◌≡◌, ◌++◌, map, IfOk, OnOk};
ghost use Rattle.bep_lines.specs.declared.form.Form.TheVariants.{Text};
ghost use Rattle.bep_converge_check.specs.Hindrance.{hinder_shown};
ghost use Rattle.bep_converge_explain.specs.Explained.{IsConvergeWritten};
ghost use Rattle.bep_converge_explain.specs.Told.{hinder_text};
ghost use Rattle.bep_converge_explain.specs.inner.Added.{AddsHinderLines};

use crate::telling::{is_clear, telling_of};
use bep_converge_answer::{converge_word_of, push_converging};
use bep_converge_check::Hindrance;
use bep_explain::{Lookup, details_told, lines_of, push_details};
use bep_lines::push_reason;
use bep_tables::Cut;
use std::alloc::{AllocError, Global};

/// The line of each of these reasons that fail of a cut, in order, with its details below it, each after two spaces; `converging`
/// alone where there is none. Or want of memory.
///
/// The details of one at a time are made.
pub fn converge_explanation<'a>(
    alloc: Global,
    cut: &'a Cut,
    found: &[Hindrance<'a>],
) -> Result<Vec<u8>, AllocError>
    ensures { IfOk result (λ text. IsConvergeWritten Text (map hinder_shown found.now) text.items) }
{
    let mut text = Vec::new(alloc);
    if is_clear(found) {
        push_converging(&mut text)?;
    } else {
        push_all(alloc, &mut text, cut, found)?;
    }
    Ok(text)
}

// Appends the lines of all of these.
fn push_all<'a>(
    alloc: Global,
    text: &mut Vec<u8>,
    cut: &'a Cut,
    found: &[Hindrance<'a>],
) -> Result<(), AllocError>
    ensures { OnOk result (AddsHinderLines (map hinder_shown found.now) text.old.items text.new.items) }
{
    let lookup = Lookup::of(alloc, cut, &[])?;
    for one in found {
        let of = lookup.find(one.spot.folder, one.spot.name);
        let details = details_told(alloc, cut, &of, &one.spot, telling_of(one.reason))?;
        let lines = lines_of(alloc, details.as_slice())?;
        push_told(text, one, lines.as_slice())?;
    }
    Ok(())
}

// Appends the lines of one of them.
fn push_told(text: &mut Vec<u8>, one: &Hindrance<'_>, lines: &[Vec<u8>]) -> Result<(), AllocError>
    ensures { OnOk result (text.new.items ≡ text.old.items ++ hinder_text (record { hinder = hinder_shown one.now; details = map (λ said. said.items) lines.now })) }
{
    let spot = &one.spot;
    let word = converge_word_of(one.reason);
    push_reason(text, word, spot.folder, spot.name, spot.device)?;
    push_details(text, lines)?;
    Ok(())
}
