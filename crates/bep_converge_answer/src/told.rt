//! What is told on standard error beside the answer, and the exit status.
ghost use Rattle.std.specs.Prelude.{◌≡◌};
ghost use Rattle.bep_answer.specs.Beside.{TellsOfCut};
ghost use Rattle.bep_answer.specs.Heard.{Hears, IsHeard, said_of};
ghost use Rattle.bep_answer.specs.Status.{without_hint};
ghost use Rattle.bep_converge_answer.specs.Convergence.{SaysConverging};
ghost use Rattle.bep_converge_answer.specs.Status.{IsConvergeTold};
ghost use Rattle.bep_converge_answer.specs.Status as spec;

use crate::answer::ConvergenceOfCut;
use crate::outcome::Convergence;
use crate::status::converge_status_of;
use bep_answer::{Hinted, Person, exchange, tell};
use bep_converge::prevailing_goes_on;
use bep_report::ReportError;
use std::io::{Read, Write};

/// Asks whether the cut of a document converges, and writes the report; tells a hint on where a refused document is at fault, or
/// why there is no answer, on standard error, and answers the exit status. The certificate may be missing, and isn't looked at.
pub fn converge_and_tell<P: AllocGlobal, H: Person, R: Read, W: Write>(
    rt: &P,
    person: &mut H,
    reader: &mut R,
    writer: &mut W,
) -> u8
    ensures told { IsConvergeTold (R.remaining reader.old) (R.remaining reader.new) (W.contents writer.old) (W.contents writer.new) result }
    ensures converging { result ≡ 0 → SaysConverging (R.remaining reader.old) (R.remaining reader.new) }
    ensures heard { IsHeard spec.converge_status_of TellsOfCut (R.remaining reader.old) (R.remaining reader.new) (H.heard person.old) (H.heard person.new) result }
{
    prevailing_goes_on();
    end_converge(
        person,
        exchange(rt.alloc(), ConvergenceOfCut, reader, writer),
    )
}

/// Tells what was answered beside the outcome, if there is anything, or why there is no answer, and answers the exit status.
pub fn end_converge<H: Person>(
    person: &mut H,
    answer: Result<Hinted<Convergence>, ReportError>,
) -> u8
    ensures status { result ≡ spec.converge_status_of (without_hint answer) }
    ensures heard { Hears (H.heard person.old) (H.heard person.new) (said_of answer) }
{
    converge_status_of(tell(person, answer))
}
