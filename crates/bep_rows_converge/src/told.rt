//! A stream of rows is answered where it is asked whether the cut converges, and the exit status says what came of it.
ghost use Rattle.std.specs.Prelude.{◌≡◌};
ghost use Rattle.bep_rows_answer.specs.Told.{IsRowsHeard, IsRowsTold};
ghost use Rattle.bep_rows_converge.specs.Converging.{IsConvergeRowsTold, converge_rows_status};
ghost use Rattle.bep_rows_converge.specs.Converging as spec;
ghost use Rattle.bep_rows_converge.specs.Explained.{IsExplainedConvergeRowsTold};
ghost use Rattle.bep_rows_converge.specs.Stays.{SaysConvergingRows};

use crate::converging::Converging;
use crate::explaining::ConvergeExplaining;
use bep_answer::Person;
use bep_converge::prevailing_goes_on;
use bep_converge_answer::{Convergence, end_converge};
use bep_rows_answer::{Auditor, RowsOutcome, answer_rows};
use std::io::{Read, Write};

/// Answers a stream of rows where it is asked whether the cut converges: a line for each name that doesn't, and then what `converge`
/// writes; tells why there is no answer on standard error, and answers the exit status: 0 converging, 1 not converging, 2 a line
/// refused, 4 out of memory, 5 a read or write fault.
pub fn converge_rows_and_tell<P: AllocGlobal, H: Person, R: Read, W: Write>(
    rt: &P,
    person: &mut H,
    reader: &mut R,
    writer: &mut W,
) -> u8
    ensures told { IsConvergeRowsTold (R.remaining reader.old) (R.remaining reader.new) (W.contents writer.old) (W.contents writer.new) result }
    ensures converging { result ≡ 0 → SaysConvergingRows (R.remaining reader.old) (R.remaining reader.new) }
    ensures heard { IsRowsHeard converge_rows_status (H.heard person.old) (H.heard person.new) result }
{
    prevailing_goes_on();
    let mut auditor = Converging::new(rt.alloc());
    answer_convergence_and_tell(rt, person, &mut auditor, reader, writer)
}

/// The same, but that it writes of each name all that keeps it from converging, with details, in place of the first reason.
pub fn explain_converge_rows_and_tell<P: AllocGlobal, H: Person, R: Read, W: Write>(
    rt: &P,
    person: &mut H,
    reader: &mut R,
    writer: &mut W,
) -> u8
    ensures told { IsExplainedConvergeRowsTold (R.remaining reader.old) (R.remaining reader.new) (W.contents writer.old) (W.contents writer.new) result }
    ensures converging { result ≡ 0 → SaysConvergingRows (R.remaining reader.old) (R.remaining reader.new) }
    ensures heard { IsRowsHeard converge_rows_status (H.heard person.old) (H.heard person.new) result }
{
    prevailing_goes_on();
    let mut auditor = ConvergeExplaining::new(rt.alloc());
    answer_convergence_and_tell(rt, person, &mut auditor, reader, writer)
}

// The same with the answers of this auditor.
fn answer_convergence_and_tell<P: AllocGlobal, H: Person, A: Auditor, R: Read, W: Write>(
    rt: &P,
    person: &mut H,
    auditor: &mut A,
    reader: &mut R,
    writer: &mut W,
) -> u8
    ensures told { IsRowsTold (A.tells auditor.old) (A.ends auditor.old) converge_rows_status (R.remaining reader.old) (R.remaining reader.new) (W.contents writer.old) (W.contents writer.new) result }
    ensures heard { IsRowsHeard converge_rows_status (H.heard person.old) (H.heard person.new) result }
{
    match answer_rows(rt.alloc(), auditor, reader, writer) {
        Ok(outcome) => end_converge(person, Ok((convergence_of(outcome), None))),
        Err(error) => end_converge(person, Err(error)),
    }
}

// The outcome where it was asked whether the cut converges.
fn convergence_of(outcome: RowsOutcome) -> Convergence
    ensures { result ≡ spec.convergence_of outcome }
{
    match outcome {
        RowsOutcome::Met => Convergence::Converging,
        RowsOutcome::NotMet => Convergence::NotConverging,
        RowsOutcome::Refused => Convergence::Refused,
    }
}
