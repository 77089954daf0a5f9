//! All that fails of a document is written, a hint told on standard error, and the exit status answered.
ghost use Rattle.std.specs.Prelude.{IfOk, IfErr};
ghost use Rattle.bep_answer.specs.Beside.{TellsOfCheck, TellsOfCut};
ghost use Rattle.bep_answer.specs.Exchange.{IsEndedEarly, IsWhole};
ghost use Rattle.bep_answer.specs.Heard.{IsHeard};
ghost use Rattle.bep_answer.specs.Status.{firm_status_of, status_of};
ghost use Rattle.bep_explain.specs.document.Explained.{IsExplainedOfBytes};
ghost use Rattle.bep_explain.specs.document.FirmExplained.{IsFirmExplanationTold};
ghost use Rattle.bep_explain.specs.document.Told.{IsExplanationTold};
ghost use Rattle.bep_explain.specs.document.UnderWinners.{IsExplanationToldUnderWinners, IsFirmExplanationToldUnderWinners};
ghost use Rattle.bep_lines.specs.declared.form.Form.TheVariants.{Text};

use crate::document::explain::ReasonsOfCut;
use crate::document::firm::FirmReasonsOfCut;
use crate::document::under_winners::{FirmReasonsUnderWinners, ReasonsUnderWinners};
use bep_answer::{Outcome, Person, end, end_firm, exchange};
use bep_lines::Form;
use bep_report::ReportError;
use std::alloc::Global;
use std::io::{Read, Write};

/// Reads a check document, and writes the line of each reason that fails, at each place at which it fails, with what a
/// person asks next below it, indented; `settled` alone where nothing fails; or the line of the fault for which the
/// document is refused. At most 67108865 bytes are read.
///
/// `Read` and `Write` are answered where the reader or the writer answers any error, or takes nothing; `Memory` may come
/// in place of an answer. Only after `Write` a beginning of the text may be written, and else nothing.
pub fn explain_text<R: Read, W: Write>(
    alloc: Global,
    reader: &mut R,
    writer: &mut W,
) -> Result<Outcome, ReportError>
    ensures ok { IfOk result (IsWhole (IsExplainedOfBytes Text) (R.remaining reader.old) (R.remaining reader.new) (W.contents writer.old) (W.contents writer.new)) }
    ensures err { IfErr result (IsEndedEarly (IsExplainedOfBytes Text) (R.remaining reader.old) (R.remaining reader.new) (W.contents writer.old) (W.contents writer.new)) }
{
    let reasons = ReasonsOfCut { form: Form::Text };
    let (outcome, _) = exchange(alloc, reasons, reader, writer)?;
    Ok(outcome)
}

/// The same in one of two forms; tells a hint on where a refused document is at fault, or why there is no answer, on
/// standard error, and answers the exit status. As JSON it is one document on a line: what fails, in the same order, and
/// whether that is nothing; or the fault.
pub fn explain_and_tell<P: AllocGlobal, H: Person, R: Read, W: Write>(
    rt: &P,
    person: &mut H,
    form: Form,
    reader: &mut R,
    writer: &mut W,
) -> u8
    ensures told { IsExplanationTold form (R.remaining reader.old) (R.remaining reader.new) (W.contents writer.old) (W.contents writer.new) result }
    ensures heard { IsHeard status_of TellsOfCheck (R.remaining reader.old) (R.remaining reader.new) (H.heard person.old) (H.heard person.new) result }
{
    end(
        person,
        exchange(rt.alloc(), ReasonsOfCut { form }, reader, writer),
    )
}

/// The same of all that keeps the cut from being firm: what `explain_and_tell` writes, and behind that each of the four
/// further reasons that fails, at each place at which it fails; `firm` alone where nothing fails.
pub fn explain_firm_and_tell<P: AllocGlobal, H: Person, R: Read, W: Write>(
    rt: &P,
    person: &mut H,
    form: Form,
    reader: &mut R,
    writer: &mut W,
) -> u8
    ensures told { IsFirmExplanationTold form (R.remaining reader.old) (R.remaining reader.new) (W.contents writer.old) (W.contents writer.new) result }
    ensures heard { IsHeard firm_status_of TellsOfCheck (R.remaining reader.old) (R.remaining reader.new) (H.heard person.old) (H.heard person.new) result }
{
    end_firm(
        person,
        exchange(rt.alloc(), FirmReasonsOfCut { form }, reader, writer),
    )
}

/// What `explain_and_tell` does, of the cut alone under the winners of its names: the document's certificate may be missing
/// and isn't looked at. A name without a winner, for which no row can stand, is told as that.
pub fn explain_under_winners_and_tell<P: AllocGlobal, H: Person, R: Read, W: Write>(
    rt: &P,
    person: &mut H,
    form: Form,
    reader: &mut R,
    writer: &mut W,
) -> u8
    ensures told { IsExplanationToldUnderWinners form (R.remaining reader.old) (R.remaining reader.new) (W.contents writer.old) (W.contents writer.new) result }
    ensures heard { IsHeard status_of TellsOfCut (R.remaining reader.old) (R.remaining reader.new) (H.heard person.old) (H.heard person.new) result }
{
    let answer = exchange(rt.alloc(), ReasonsUnderWinners { form }, reader, writer);
    end(person, answer)
}

/// The same of all that keeps the cut from being firm, as `explain_firm_and_tell` does.
pub fn explain_firm_under_winners_and_tell<P: AllocGlobal, H: Person, R: Read, W: Write>(
    rt: &P,
    person: &mut H,
    form: Form,
    reader: &mut R,
    writer: &mut W,
) -> u8
    ensures told { IsFirmExplanationToldUnderWinners form (R.remaining reader.old) (R.remaining reader.new) (W.contents writer.old) (W.contents writer.new) result }
    ensures heard { IsHeard firm_status_of TellsOfCut (R.remaining reader.old) (R.remaining reader.new) (H.heard person.old) (H.heard person.new) result }
{
    let answer = exchange(rt.alloc(), FirmReasonsUnderWinners { form }, reader, writer);
    end_firm(person, answer)
}
