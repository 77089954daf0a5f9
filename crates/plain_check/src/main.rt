//! `plain_check`: the report on a check document by the plain checker, which takes no memory and looks for each reason by
//! itself. `tests/plain.sh` runs it beside `syncaudit check`, whose one walk tells the same.
#![tactic(auto)]

use bep_audit::{Certificate, check_plain};
use bep_cut_document::{DocError, read_check};
use bep_report::{ReportError, read_document, report};
use bep_tables::Cut;
use std::alloc::Global;
use std::io::{Read, Write};
use std::process::ExitCode;

// The status for a document that isn't read as a cut and a certificate, of which nothing is written.
const REFUSED: u8 = 2;

fn main(rt: HostRuntime) -> ExitCode {
    ExitCode::from(match audit(rt.alloc(), &mut rt.stdin(), &mut rt.stdout()) {
        Ok(status) => status,
        Err(_) => 5,
    })
}

// Writes the report on the document that is read, and answers the status.
fn audit<R: Read, W: Write>(
    alloc: Global,
    reader: &mut R,
    writer: &mut W,
) -> Result<u8, ReportError> {
    let bytes = read_document(alloc, reader)?;
    match read_check(alloc, bytes.as_slice()) {
        Ok((cut, rows)) => report_on(alloc, &cut, &Certificate::of(rows), writer),
        Err(DocError::Refused(_)) => Ok(REFUSED),
        Err(DocError::Memory) => Err(ReportError::Memory),
    }
}

// Writes the report on the cut under the certificate.
fn report_on<W: Write>(
    alloc: Global,
    cut: &Cut,
    certificate: &Certificate,
    writer: &mut W,
) -> Result<u8, ReportError> {
    report(alloc, cut, &check_plain(cut, certificate), writer)?;
    Ok(0)
}
