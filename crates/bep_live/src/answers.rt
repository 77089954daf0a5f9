//! What is answered of a scenario whose cluster goes on in threads, from the bytes that come in to the bytes that go out.
ghost use Rattle.std.specs.Prelude.{◌≡◌, ◌<◌, IfErr, IfOk};
ghost use Rattle.bep_answer.specs.Exchange.{IsEndedEarly, IsWhole};
ghost use Rattle.bep_answer.specs.declared.outcome.Outcome.TheVariants as outcomes;
ghost use Rattle.bep_play.specs.Played.{EndsSettled, IsRunOfBytes};
ghost use Rattle.bep_live.specs.Lived.{EndsLived, IsLiveOfBytes};

use crate::report::exchange_report;
use bep_answer::Outcome;
use bep_machine::{settled_stays_put, settled_stays_settled};
use bep_play::run_text;
use bep_report::ReportError;
use std::io::{Read, Write};
use std::sync::Wait;
use std::thread::Threads;

/// Reads a scenario and makes its steps; then threads run the cluster to which they lead, each for so many turns, a scanner
/// and a puller for each device and a session for each end of a link. Writes a line for each step that is refused, the report on a
/// cut that is taken then, under the list of its winners, and that list; the last line is the verdict on the logs of devices and
/// links. Without turns it answers exactly what `run_text` does. At most 67108865 bytes are read. May wait, if there are turns.
///
/// `Read` and `Write` are answered where the reader or the writer answers any error, or takes nothing; `Memory` may come
/// in place of an answer. Only after `Write` a beginning of the text may be written, and else nothing. `Settled` means
/// that the cut is settled under its winners.
pub fn live_text<P: AllocGlobal + Threads + Wait + Sync, R: Read, W: Write>(
    rt: &P,
    reader: &mut R,
    writer: &mut W,
    turns: u32,
) -> Result<Outcome, ReportError>
    ensures at_rest { turns ≡ 0 → IfOk result (IsWhole IsRunOfBytes (R.remaining reader.old) (R.remaining reader.new) (W.contents writer.old) (W.contents writer.new)) }
    ensures ok { 0 < turns → IfOk result (IsWhole IsLiveOfBytes (R.remaining reader.old) (R.remaining reader.new) (W.contents writer.old) (W.contents writer.new)) }
    ensures at_rest_err { turns ≡ 0 → IfErr result (IsEndedEarly IsRunOfBytes (R.remaining reader.old) (R.remaining reader.new) (W.contents writer.old) (W.contents writer.new)) }
    ensures err { 0 < turns → IfErr result (IsEndedEarly IsLiveOfBytes (R.remaining reader.old) (R.remaining reader.new) (W.contents writer.old) (W.contents writer.new)) }
    ensures at_rest_settled { turns ≡ 0 → IfOk result (λ outcome. outcome ≡ outcomes.Settled → EndsSettled (R.remaining reader.old) (R.remaining reader.new)) }
    ensures settled { 0 < turns → IfOk result (λ outcome. outcome ≡ outcomes.Settled → EndsLived (R.remaining reader.old) (R.remaining reader.new)) }
{
    if turns == 0 {
        return run_text(rt.alloc(), reader, writer);
    }
    settled_stays_put();
    settled_stays_settled();
    let (outcome, _) = exchange_report(rt, reader, writer, turns)?;
    Ok(outcome)
}
