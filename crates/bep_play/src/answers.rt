//! What is answered of a scenario, from the bytes that come in to the bytes that go out.
ghost use Rattle.std.specs.Prelude.{◌≡◌, IfOk, IfErr};
ghost use Rattle.bep_answer.specs.Exchange.{IsEndedEarly, IsWhole};
ghost use Rattle.bep_answer.specs.declared.outcome.Outcome.TheVariants as outcomes;
ghost use Rattle.bep_play.specs.Played.{EndsSettled, IsRunOfBytes};

use crate::run::ReportOnEnd;
use bep_answer::{Outcome, exchange};
use bep_machine::{settled_stays_put, settled_stays_settled};
use bep_report::ReportError;
use std::alloc::Global;
use std::io::{Read, Write};

/// Reads a scenario, makes its steps, and writes a line for each that is refused, the report on the cut to which they lead
/// under the list of its winners, and that list; or the line of the fault for which the document is refused. Where a name
/// has no winner the verdict tells the first one, and no list follows. At most 67108865 bytes are read.
///
/// `Read` and `Write` are answered where the reader or the writer answers any error, or takes nothing; `Memory` may come
/// in place of an answer. Only after `Write` a beginning of the text may be written, and else nothing. `Settled` means
/// that the cut is settled under its winners.
pub fn run_text<R: Read, W: Write>(
    alloc: Global,
    reader: &mut R,
    writer: &mut W,
) -> Result<Outcome, ReportError>
    ensures ok { IfOk result (IsWhole IsRunOfBytes (R.remaining reader.old) (R.remaining reader.new) (W.contents writer.old) (W.contents writer.new)) }
    ensures err { IfErr result (IsEndedEarly IsRunOfBytes (R.remaining reader.old) (R.remaining reader.new) (W.contents writer.old) (W.contents writer.new)) }
    ensures settled { IfOk result (λ outcome. outcome ≡ outcomes.Settled → EndsSettled (R.remaining reader.old) (R.remaining reader.new)) }
{
    settled_stays_put();
    settled_stays_settled();
    let (outcome, _) = exchange(alloc, ReportOnEnd, reader, writer)?;
    Ok(outcome)
}
