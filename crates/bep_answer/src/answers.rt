//! What is answered of a document, from the bytes that come in to the bytes that go out.
ghost use Rattle.std.specs.Prelude.{◌≡◌, IfOk, IfErr};
ghost use Rattle.bep_answer.specs.Answer.{IsAnswerOfBytes, SaysSettled};
ghost use Rattle.bep_answer.specs.Certified.{IsCertifiedOfBytes};
ghost use Rattle.bep_answer.specs.Exchange.{IsEndedEarly, IsWhole};
ghost use Rattle.bep_answer.specs.Firm.{IsFirmAnswerOfBytes, SaysFirm};
ghost use Rattle.bep_answer.specs.declared.outcome.Firmness.TheVariants as firmness;
ghost use Rattle.bep_answer.specs.declared.outcome.Outcome.TheVariants as outcomes;

use crate::certify::CertificateOfCut;
use crate::check::AuditOfCut;
use crate::exchanging::exchange;
use crate::firm::FirmnessOfCut;
use crate::outcome::{Certified, Firmness, Outcome};
use bep_machine::{firm_stays_put, settled_stays_put, settled_stays_settled};
use bep_model::firm_stays_firm;
use bep_report::ReportError;
use std::alloc::Global;
use std::io::{Read, Write};

/// Reads a check document, audits it, and writes the report, or the line of the fault for which it is refused. At most
/// 67108865 bytes are read.
///
/// `Read` and `Write` are answered where the reader or the writer answers any error, or takes nothing; `Memory` may come
/// in place of an answer. Only after `Write` a beginning of the text may be written, and else nothing. `Settled` means
/// that what was read is a cut and a certificate that are settled.
pub fn check_text<R: Read, W: Write>(
    alloc: Global,
    reader: &mut R,
    writer: &mut W,
) -> Result<Outcome, ReportError>
    ensures ok { IfOk result (IsWhole IsAnswerOfBytes (R.remaining reader.old) (R.remaining reader.new) (W.contents writer.old) (W.contents writer.new)) }
    ensures err { IfErr result (IsEndedEarly IsAnswerOfBytes (R.remaining reader.old) (R.remaining reader.new) (W.contents writer.old) (W.contents writer.new)) }
    ensures settled { IfOk result (λ outcome. outcome ≡ outcomes.Settled → SaysSettled (R.remaining reader.old) (R.remaining reader.new)) }
{
    settled_stays_put();
    settled_stays_settled();
    let (outcome, _) = exchange(alloc, AuditOfCut, reader, writer)?;
    Ok(outcome)
}

/// Reads a check document, asks whether it is firm, and writes the report, or the line of the fault for which it is refused.
/// At most 67108865 bytes are read.
///
/// `Read` and `Write` are answered where the reader or the writer answers any error, or takes nothing; `Memory` may come
/// in place of an answer. Only after `Write` a beginning of the text may be written, and else nothing. `Firm` means that
/// what was read is a cut and a certificate that are firm, and so settled.
pub fn firm_text<R: Read, W: Write>(
    alloc: Global,
    reader: &mut R,
    writer: &mut W,
) -> Result<Firmness, ReportError>
    ensures ok { IfOk result (IsWhole IsFirmAnswerOfBytes (R.remaining reader.old) (R.remaining reader.new) (W.contents writer.old) (W.contents writer.new)) }
    ensures err { IfErr result (IsEndedEarly IsFirmAnswerOfBytes (R.remaining reader.old) (R.remaining reader.new) (W.contents writer.old) (W.contents writer.new)) }
    ensures firm { IfOk result (λ outcome. outcome ≡ firmness.Firm → SaysFirm (R.remaining reader.old) (R.remaining reader.new)) }
{
    firm_stays_firm();
    firm_stays_put();
    settled_stays_put();
    settled_stays_settled();
    let (outcome, _) = exchange(alloc, FirmnessOfCut, reader, writer)?;
    Ok(outcome)
}

/// Reads the cut of a check document, whose certificate may be missing and isn't looked at, and writes the check document
/// of that cut with the list of its names' winners, on a line; or the line of the first known name that has none; or that
/// of the fault for which the document is refused. At most 67108865 bytes are read. The document that is written reads back
/// as the cut and its winners, where it isn't longer than a document may be.
///
/// `Read` and `Write` are answered where the reader or the writer answers any error, or takes nothing; `Memory` may come
/// in place of an answer. Only after `Write` a beginning of the text may be written, and else nothing.
pub fn certify_text<R: Read, W: Write>(
    alloc: Global,
    reader: &mut R,
    writer: &mut W,
) -> Result<Certified, ReportError>
    ensures ok { IfOk result (IsWhole IsCertifiedOfBytes (R.remaining reader.old) (R.remaining reader.new) (W.contents writer.old) (W.contents writer.new)) }
    ensures err { IfErr result (IsEndedEarly IsCertifiedOfBytes (R.remaining reader.old) (R.remaining reader.new) (W.contents writer.old) (W.contents writer.new)) }
{
    let (outcome, _) = exchange(alloc, CertificateOfCut, reader, writer)?;
    Ok(outcome)
}
