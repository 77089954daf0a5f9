//! What is told of the logs of a run beside the verdict on them: which device or link is at fault, and which logs are full.
ghost use Rattle.std.specs.Prelude.{◌≡◌, ◌++◌, IfOk, IsUtf8, OnOk};
ghost use Rattle.std.specs.List.{flat_map};
ghost use Rattle.bep_fit.specs.declared.object.Object.TheVariants.{Device, Link};
ghost use Rattle.bep_live.specs.Lines.{fault_line, full_line, log_lines, object_line};

use bep_fit::{Object, RunVerdict};
use bep_lines::{Piece, push_pieces};
use bep_log::MAX_EVENTS;
use bep_run_check::ObjectLog;
use bep_run_cut::RunCut;
use std::alloc::{AllocError, Global};

/// The line of the first object at fault where the logs don't fit, and a line for each log that has no room for another
/// event. They are a text. Fails for memory alone.
pub(crate) fn lines_on(
    alloc: Global,
    verdict: &RunVerdict,
    run: &RunCut,
) -> Result<Vec<u8>, AllocError>
    ensures lines { IfOk result (λ lines. lines.items ≡ log_lines verdict.now run.now.logs) }
    ensures text { IfOk result (λ lines. IsUtf8 lines.items) }
{
    let mut text = Vec::new(alloc);
    push_fault(&mut text, verdict)?;
    push_full(&mut text, run.logs())?;
    Ok(text)
}

/// Appends these lines. A text stays one.
pub(crate) fn append(text: &mut Vec<u8>, lines: &[u8]) -> Result<(), AllocError>
    requires { IsUtf8 lines.now }
    ensures line { OnOk result (text.new.items ≡ text.old.items ++ lines.now) }
    ensures text { OnOk result (IsUtf8 text.old.items → IsUtf8 text.new.items) }
{
    text.extend_from_slice(lines)
}

// Appends the line of the first object at fault, where the logs don't fit.
fn push_fault(text: &mut Vec<u8>, verdict: &RunVerdict) -> Result<(), AllocError>
    ensures line { OnOk result (text.new.items ≡ text.old.items ++ fault_line verdict.now) }
    ensures text { OnOk result (IsUtf8 text.old.items → IsUtf8 text.new.items) }
{
    match verdict {
        RunVerdict::Fits(_) => Ok(()),
        RunVerdict::Misfit(object, _) => push_object(text, "at fault: ", *object),
    }
}

// Appends a line for each log that is full.
fn push_full(text: &mut Vec<u8>, logs: &[ObjectLog]) -> Result<(), AllocError>
    ensures lines { OnOk result (text.new.items ≡ text.old.items ++ flat_map full_line logs.now) }
    ensures text { OnOk result (IsUtf8 text.old.items → IsUtf8 text.new.items) }
{
    for log in logs {
        push_if_full(text, log)?;
    }
    Ok(())
}

// Appends the log's line, if it is full.
fn push_if_full(text: &mut Vec<u8>, log: &ObjectLog) -> Result<(), AllocError>
    ensures line { OnOk result (text.new.items ≡ text.old.items ++ full_line log.now) }
    ensures text { OnOk result (IsUtf8 text.old.items → IsUtf8 text.new.items) }
{
    if log.events().len() < MAX_EVENTS {
        return Ok(());
    }
    push_object(text, "log full: ", log.object())
}

// Appends the line of the words and the object.
fn push_object(text: &mut Vec<u8>, words: &str, object: Object) -> Result<(), AllocError>
    ensures line { OnOk result (text.new.items ≡ text.old.items ++ object_line words.now object) }
    ensures text { OnOk result (IsUtf8 text.old.items → IsUtf8 text.new.items) }
{
    match object {
        Object::Device(device) => push_device(text, words, device.number()),
        Object::Link(lower, upper) => push_link(text, words, lower.number(), upper.number()),
    }
}

fn push_device(text: &mut Vec<u8>, words: &str, device: u64) -> Result<(), AllocError>
    ensures line { OnOk result (text.new.items ≡ text.old.items ++ object_line words.now (Device device)) }
    ensures text { OnOk result (IsUtf8 text.old.items → IsUtf8 text.new.items) }
{
    let pieces = [
        Piece::Text(words),
        Piece::Text("device "),
        Piece::Number(device),
        Piece::Text("\n"),
    ];
    push_pieces(text, &pieces)
}

fn push_link(text: &mut Vec<u8>, words: &str, lower: u64, upper: u64) -> Result<(), AllocError>
    ensures line { OnOk result (text.new.items ≡ text.old.items ++ object_line words.now (Link lower upper)) }
    ensures text { OnOk result (IsUtf8 text.old.items → IsUtf8 text.new.items) }
{
    let pieces = [
        Piece::Text(words),
        Piece::Text("link "),
        Piece::Number(lower),
        Piece::Text(" "),
        Piece::Number(upper),
        Piece::Text("\n"),
    ];
    push_pieces(text, &pieces)
}
