//! Writing a report.
ghost use Rattle.std.specs.Prelude.{◌≡◌, IfErr, OnOk, OnErr};
ghost use Rattle.std.specs.Io.KnownBytes.{Appends};
ghost use Rattle.bep_report.specs.Output.{AppendsBeginning};

use crate::ReportError;
use std::io::Write;

/// Writes these bytes. After an error a beginning of them is written.
///
/// Refuses `Write` if the writer answers any error, or takes nothing: an interrupted write isn't tried again.
pub fn write_all<W: Write>(writer: &mut W, bytes: &[u8]) -> Result<(), ReportError>
    ensures ok { OnOk result (Appends (W.contents writer.old) (W.contents writer.new) bytes.now) }
    ensures err { OnErr result (AppendsBeginning (W.contents writer.old) (W.contents writer.new) bytes.now) }
    ensures only { IfErr result (λ e. e ≡ ReportError.Write) }
{
    let mut written = 0;
    while written < bytes.len() {
        match writer.write(&bytes[written..]) {
            Ok(0) | Err(_) => return Err(ReportError::Write),
            Ok(count) => written += count,
        }
    }
    Ok(())
}
