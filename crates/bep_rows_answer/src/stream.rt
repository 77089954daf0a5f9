//! The answer to a whole stream, from the bytes that come in to the bytes that go out.
ghost use Rattle.std.specs.Prelude.{◌≡◌, ◌==◌, ◌&&◌, ◌<◌, ℕ, List, Option, IfErr, IfOk, IsSome, OnOk, is_some, length};
ghost use Rattle.std.specs.Io.KnownBytes.{Appends};
ghost use Rattle.bep_rows_answer.specs.inner.Answered.{IsAnsweredLast, IsAnsweredNext, IsEnded, IsFrontAnswered, IsNextStreamed, IsStreamedTo, IsTakenNext};
ghost use Rattle.bep_rows_answer.specs.Lines.{refusal_line};
ghost use Rattle.bep_rows_answer.specs.Stream.{IsAnswered, IsGrownText, IsLineRefusal};
ghost use Rattle.bep_rows_answer.specs.UnderWinners.{EndsUnderWinners, TellsStanding};

use crate::auditor::Auditor;
use crate::input::{Next, behind, read_line};
use crate::lines::push_refusal;
use crate::outcome::RowsOutcome;
use crate::rows::Rows;
use crate::under_winners::UnderWinners;
use bep_document::{DocError, DocFault, Fault};
use bep_report::{ReportError, write_all};
use bep_rows::Aim;
use std::alloc::Global;
use std::io::{Read, Write};

/// Reads a stream of rows, a header first and then a row on each line, names rising, and answers as it reads: a line for each
/// name that isn't what is asked, then the verdict and a line for each folder. Else it does what `answer_rows` does.
pub fn rows_text<R: Read, W: Write>(
    alloc: Global,
    aim: Aim,
    reader: &mut R,
    writer: &mut W,
) -> Result<RowsOutcome, ReportError>
    ensures ok { IfOk result (IsAnswered (TellsStanding aim) (EndsUnderWinners aim) (R.remaining reader.old) (R.remaining reader.new) (W.contents writer.old) (W.contents writer.new)) }
    ensures err { IfErr result (λ _. IsGrownText (W.contents writer.old) (W.contents writer.new)) }
{
    let mut auditor = UnderWinners::of(alloc, aim);
    answer_rows(alloc, &mut auditor, reader, writer)
}

/// Reads a stream of rows, a header first and then a row on each line, names rising, and writes what the auditor answers as it
/// reads. Where a line is refused, what was answered before it stands, and the last line says its number and its fault. No more
/// memory is needed for many rows than for one, but what the auditor keeps.
///
/// `Read` and `Write` are answered where the reader or the writer answers any error, or takes nothing; `Memory` may come in place
/// of an answer. What was written before stands then.
pub fn answer_rows<A: Auditor, R: Read, W: Write>(
    alloc: Global,
    auditor: &mut A,
    reader: &mut R,
    writer: &mut W,
) -> Result<RowsOutcome, ReportError>
    ensures ok { IfOk result (IsAnswered (A.tells auditor.old) (A.ends auditor.old) (R.remaining reader.old) (R.remaining reader.new) (W.contents writer.old) (W.contents writer.new)) }
    ensures err { IfErr result (λ _. IsGrownText (W.contents writer.old) (W.contents writer.new)) }
{
    let mut state = None;
    let mut pending = Vec::new(alloc);
    for number in 1..u64::MAX {
        let told = answer_next(
            alloc,
            auditor,
            reader,
            writer,
            &mut state,
            &mut pending,
            number,
        )?;
        if let Some(outcome) = told {
            return Ok(outcome);
        }
    }
    Err(ReportError::Read)
}

// Reads the next line, of this number, and writes its answer; the outcome, if that was the last.
fn answer_next<A: Auditor, R: Read, W: Write>(
    alloc: Global,
    auditor: &mut A,
    reader: &mut R,
    writer: &mut W,
    state: &mut Option<Rows>,
    pending: &mut Vec<u8>,
    number: u64,
) -> Result<Option<RowsOutcome>, ReportError>
    ensures ok { IfOk result (λ told. (asked : A) (unread held : Option (List ℕ)) →
        IsStreamedTo A.tells A.knows asked unread (R.remaining reader.old) held (W.contents writer.old) state.old auditor.old pending.old.items number →
        IsNextStreamed A.tells A.ends A.knows asked unread (R.remaining reader.new) held (W.contents writer.new) state.new auditor.new pending.new.items number told) }
    ensures err { IfErr result (λ _. IsGrownText (W.contents writer.old) (W.contents writer.new)) }
{
    match read_line(reader, pending)? {
        Next::Line(len) => answer_front(alloc, auditor, writer, state, pending, number, len),
        Next::Last => {
            let outcome = answer_last(alloc, auditor, writer, state, number, pending.as_slice())?;
            Ok(Some(outcome))
        }
        Next::TooLong => {
            refuse(alloc, writer, number, &DocFault::nowhere(Fault::Range))?;
            Ok(Some(RowsOutcome::Refused))
        }
    }
}

// Writes the answer to the first of the pending lines, of so many bytes, and passes it; the outcome, if it is refused.
fn answer_front<A: Auditor, W: Write>(
    alloc: Global,
    auditor: &mut A,
    writer: &mut W,
    state: &mut Option<Rows>,
    pending: &mut Vec<u8>,
    number: u64,
    len: usize,
) -> Result<Option<RowsOutcome>, ReportError>
    requires { len < length pending.old.items }
    ensures ok { IfOk result (IsFrontAnswered A.tells A.knows len number pending.old.items pending.new.items state.old auditor.old state.new auditor.new (W.contents writer.old) (W.contents writer.new)) }
    ensures err { IfErr result (λ _. IsGrownText (W.contents writer.old) (W.contents writer.new)) }
{
    if !answer_line(alloc, auditor, writer, state, number, &pending[..len])? {
        return Ok(Some(RowsOutcome::Refused));
    }
    *pending = behind(alloc, pending.as_slice(), len)?;
    Ok(None)
}

// Takes the next line. The text of its answer, or the fault for which it is refused.
fn take_line<A: Auditor>(
    alloc: Global,
    auditor: &mut A,
    state: &mut Option<Rows>,
    line: &[u8],
) -> Result<Vec<u8>, DocError>
    ensures ok { IfOk result (λ more. IsTakenNext A.tells A.knows line.now state.old auditor.old state.new auditor.new more.items) }
    ensures some { OnOk result (IsSome state.new) }
    ensures err { IfErr result (IsLineRefusal line.now state.old) }
{
    match state {
        None => {
            *state = Some(Rows::behind(alloc, auditor, line)?);
            Ok(Vec::new(alloc))
        }
        Some(rows) => rows.take(alloc, auditor, line),
    }
}

// Takes the next line, and writes the text of its answer; or the line of the fault for which it is refused, and answers false.
fn answer_line<A: Auditor, W: Write>(
    alloc: Global,
    auditor: &mut A,
    writer: &mut W,
    state: &mut Option<Rows>,
    number: u64,
    line: &[u8],
) -> Result<bool, ReportError>
    ensures ok { IfOk result (IsAnsweredNext A.tells A.knows line.now number state.old auditor.old state.new auditor.new (W.contents writer.old) (W.contents writer.new)) }
    ensures err { IfErr result (λ _. IsGrownText (W.contents writer.old) (W.contents writer.new)) }
{
    match take_line(alloc, auditor, state, line) {
        Ok(text) => {
            write_all(writer, text.as_slice())?;
            Ok(true)
        }
        Err(DocError::Refused(fault)) => {
            refuse(alloc, writer, number, &fault)?;
            Ok(false)
        }
        Err(DocError::Memory) => Err(ReportError::Memory),
    }
}

// Writes the line of a line that is refused.
fn refuse<W: Write>(
    alloc: Global,
    writer: &mut W,
    number: u64,
    fault: &DocFault,
) -> Result<(), ReportError>
    ensures ok { IfOk result (λ _. Appends (W.contents writer.old) (W.contents writer.new) (refusal_line number fault.now)) }
    ensures err { IfErr result (λ _. IsGrownText (W.contents writer.old) (W.contents writer.new)) }
{
    let mut text = Vec::new(alloc);
    push_refusal(&mut text, number, fault)?;
    write_all(writer, text.as_slice())
}

// Takes the last line, unless there is none, and writes its answer and the end. A stream without bytes is one line.
fn answer_last<A: Auditor, W: Write>(
    alloc: Global,
    auditor: &mut A,
    writer: &mut W,
    state: &mut Option<Rows>,
    number: u64,
    line: &[u8],
) -> Result<RowsOutcome, ReportError>
    ensures ok { IfOk result (IsAnsweredLast A.tells A.ends A.knows line.now number state.old auditor.old (W.contents writer.old) (W.contents writer.new)) }
    ensures err { IfErr result (λ _. IsGrownText (W.contents writer.old) (W.contents writer.new)) }
{
    if is_over(line, state) {
        return end(alloc, auditor, writer, state);
    }
    if !answer_line(alloc, auditor, writer, state, number, line)? {
        return Ok(RowsOutcome::Refused);
    }
    end(alloc, auditor, writer, state)
}

// Whether no line is left, behind a header.
fn is_over(line: &[u8], state: &Option<Rows>) -> bool
    ensures { result ≡ ((length line.now == 0) && is_some state.now) }
{
    line.is_empty() && state.is_some()
}

// Writes what the auditor answers at the end.
fn end<A: Auditor, W: Write>(
    alloc: Global,
    auditor: &A,
    writer: &mut W,
    state: &Option<Rows>,
) -> Result<RowsOutcome, ReportError>
    requires { IsSome state.now }
    ensures ok { IfOk result (IsEnded A.tells A.ends A.knows state.now auditor.now (W.contents writer.old) (W.contents writer.new)) }
    ensures err { IfErr result (λ _. IsGrownText (W.contents writer.old) (W.contents writer.new)) }
{
    match state {
        Some(_) => {
            let (outcome, text) = auditor.end(alloc)?;
            write_all(writer, text.as_slice())?;
            Ok(outcome)
        }
        None => unreachable!(),
    }
}
