//! What is told on standard error beside the answer to a scenario whose cluster goes on in threads, and the exit status that
//! says which answer it was.
ghost use Rattle.std.specs.Prelude.{◌≡◌};
ghost use Rattle.bep_answer.specs.Status.{certified_status_of, status_of};
ghost use Rattle.bep_live.specs.Beside.{IsLiveEndWith, IsLiveWith};
ghost use Rattle.bep_live.specs.Lived.{EndsLived};
ghost use Rattle.bep_live.specs.Told.{IsLiveEndTold, IsLiveHeard, IsLiveTold};

use crate::document::exchange_document;
use crate::report::exchange_report;
use bep_answer::{Person, end, end_certified};
use bep_machine::{settled_stays_put, settled_stays_settled};
use std::io::{Read, Write};
use std::sync::Wait;
use std::thread::Threads;

/// Makes a scenario's steps, has threads run its cluster for so many turns each and audits a cut of it, as `live_text` does;
/// tells a hint on where a refused scenario is at fault, or why there is no answer, on standard error, and answers the exit
/// status. May wait.
pub fn live_and_tell<P: AllocGlobal + Threads + Wait + Sync, H: Person, R: Read, W: Write>(
    rt: &P,
    person: &mut H,
    reader: &mut R,
    writer: &mut W,
    turns: u32,
) -> u8
    ensures told { IsLiveTold (R.remaining reader.old) (R.remaining reader.new) (W.contents writer.old) (W.contents writer.new) result }
    ensures settled { result ≡ 0 → EndsLived (R.remaining reader.old) (R.remaining reader.new) }
    ensures heard { IsLiveHeard status_of IsLiveWith (R.remaining reader.old) (R.remaining reader.new) (W.contents writer.old) (W.contents writer.new) (H.heard person.old) (H.heard person.new) result }
{
    settled_stays_put();
    settled_stays_settled();
    end(person, exchange_report(rt, reader, writer, turns))
}

/// The same for the check document of that cut, with the list of its winners, on a line; or the line of the first known name
/// that has none; or that of the fault for which the document is refused. The lines of the steps that are refused, and that of
/// the verdict on the threads' logs, are told on standard error. Where the logs don't fit, the status is 1. May wait.
pub fn live_document_and_tell<P: AllocGlobal + Threads + Wait + Sync, H: Person, R: Read, W: Write>(
    rt: &P,
    person: &mut H,
    reader: &mut R,
    writer: &mut W,
    turns: u32,
) -> u8
    ensures told { IsLiveEndTold (R.remaining reader.old) (R.remaining reader.new) (W.contents writer.old) (W.contents writer.new) result }
    ensures heard { IsLiveHeard certified_status_of IsLiveEndWith (R.remaining reader.old) (R.remaining reader.new) (W.contents writer.old) (W.contents writer.new) (H.heard person.old) (H.heard person.new) result }
{
    end_certified(person, exchange_document(rt, reader, writer, turns))
}
