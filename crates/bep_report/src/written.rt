//! A report and a certificate, written as a whole: a text is made in memory first, and then written.
ghost use Rattle.std.specs.Prelude.{OnOk, IfErr};
ghost use Rattle.std.specs.Io.KnownBytes.{Appends};
ghost use Rattle.bep_audit.specs.Shown.{verdict_shown};
ghost use Rattle.bep_report.specs.Certificate.{certificate_lines, certificate_lines_2};
ghost use Rattle.bep_report.specs.Output.{WritesInPart};
ghost use Rattle.bep_report.specs.Report.{report_text};

use crate::{ReportError, push_certificate, push_certificate_2, push_report, write_all};
use bep_audit::{Certificate, Verdict};
use bep_tables::Cut;
use std::alloc::Global;
use std::io::Write;

/// Writes the report on the cut: the line of the verdict, then a line for each folder, names rising.
///
/// `Write` is answered where the writer answers any error, or takes nothing, and then a beginning of the report may be
/// written; after `Memory` nothing is.
pub fn report<W: Write>(
    alloc: Global,
    cut: &Cut,
    verdict: &Verdict<'_>,
    writer: &mut W,
) -> Result<(), ReportError>
    ensures ok { OnOk result (Appends (W.contents writer.old) (W.contents writer.new) (report_text cut.now (verdict_shown verdict.now))) }
    ensures err { IfErr result (WritesInPart (W.contents writer.old) (W.contents writer.new) (report_text cut.now (verdict_shown verdict.now))) }
{
    let mut text = Vec::new(alloc);
    push_report(alloc, &mut text, cut, verdict)?;
    write_all(writer, text.as_slice())
}

/// Writes the certificate, a line a row, as `push_certificate` has it.
///
/// `Write` is answered where the writer answers any error, or takes nothing, and then a beginning of the lines may be
/// written; after `Memory` nothing is.
pub fn certificate_text<W: Write>(
    alloc: Global,
    certificate: &Certificate,
    writer: &mut W,
) -> Result<(), ReportError>
    ensures ok { OnOk result (Appends (W.contents writer.old) (W.contents writer.new) (certificate_lines certificate.now)) }
    ensures err { IfErr result (WritesInPart (W.contents writer.old) (W.contents writer.new) (certificate_lines certificate.now)) }
{
    let mut text = Vec::new(alloc);
    push_certificate(&mut text, certificate)?;
    write_all(writer, text.as_slice())
}

/// Writes the certificate as `certificate_text` does, with one word more in each line: the record's block size.
///
/// `Write` is answered where the writer answers any error, or takes nothing, and then a beginning of the lines may be
/// written; after `Memory` nothing is.
pub fn certificate_text_2<W: Write>(
    alloc: Global,
    certificate: &Certificate,
    writer: &mut W,
) -> Result<(), ReportError>
    ensures ok { OnOk result (Appends (W.contents writer.old) (W.contents writer.new) (certificate_lines_2 certificate.now)) }
    ensures err { IfErr result (WritesInPart (W.contents writer.old) (W.contents writer.new) (certificate_lines_2 certificate.now)) }
{
    let mut text = Vec::new(alloc);
    push_certificate_2(&mut text, certificate)?;
    write_all(writer, text.as_slice())
}
