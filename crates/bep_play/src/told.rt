//! What is told on standard error beside the answer to a scenario, and the exit status that says which answer it was.
ghost use Rattle.std.specs.Prelude.{◌≡◌};
ghost use Rattle.bep_answer.specs.Heard.{IsHeard};
ghost use Rattle.bep_answer.specs.Status.{certified_status_of, status_of};
ghost use Rattle.bep_play.specs.Beside.{TellsOfEnd, TellsOfRun};
ghost use Rattle.bep_play.specs.Played.{EndsSettled};
ghost use Rattle.bep_play.specs.Told.{IsEndTold, IsRunTold};

use crate::document::DocumentOfEnd;
use crate::run::ReportOnEnd;
use bep_answer::{Person, end, end_certified, exchange};
use bep_machine::{settled_stays_put, settled_stays_settled};
use std::io::{Read, Write};

/// Makes a scenario's steps and audits where they lead, as `run_text` does; tells a hint on where a refused scenario is at
/// fault, or why there is no answer, on standard error, and answers the exit status.
pub fn run_and_tell<P: AllocGlobal, H: Person, R: Read, W: Write>(
    rt: &P,
    person: &mut H,
    reader: &mut R,
    writer: &mut W,
) -> u8
    ensures told { IsRunTold (R.remaining reader.old) (R.remaining reader.new) (W.contents writer.old) (W.contents writer.new) result }
    ensures settled { result ≡ 0 → EndsSettled (R.remaining reader.old) (R.remaining reader.new) }
    ensures heard { IsHeard status_of TellsOfRun (R.remaining reader.old) (R.remaining reader.new) (H.heard person.old) (H.heard person.new) result }
{
    settled_stays_put();
    settled_stays_settled();
    end(person, exchange(rt.alloc(), ReportOnEnd, reader, writer))
}

/// The same for the check document of the cut to which a scenario's steps lead, with the list of its winners, on a line; or
/// the line of the first known name that has none; or that of the fault for which the document is refused. The lines of the
/// steps that are refused are told on standard error. At most 67108865 bytes are read.
pub fn run_document_and_tell<P: AllocGlobal, H: Person, R: Read, W: Write>(
    rt: &P,
    person: &mut H,
    reader: &mut R,
    writer: &mut W,
) -> u8
    ensures told { IsEndTold (R.remaining reader.old) (R.remaining reader.new) (W.contents writer.old) (W.contents writer.new) result }
    ensures heard { IsHeard certified_status_of TellsOfEnd (R.remaining reader.old) (R.remaining reader.new) (H.heard person.old) (H.heard person.new) result }
{
    end_certified(person, exchange(rt.alloc(), DocumentOfEnd, reader, writer))
}
