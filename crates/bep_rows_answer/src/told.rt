//! A stream of rows is answered, and the exit status says how.
ghost use Rattle.std.specs.Prelude.{◌≡◌};
ghost use Rattle.bep_rows.specs.declared.aim.Aim.TheVariants as aims;
ghost use Rattle.bep_rows_answer.specs.Outcome.{rows_status_of};
ghost use Rattle.bep_rows_answer.specs.Told.{IsFirmRowsHeard, IsFirmRowsTold, IsRowsHeard, IsRowsTold, IsSettledRowsHeard, IsSettledRowsTold, SaysFirmRows, SaysSettledRows};

use crate::auditor::Auditor;
use crate::stream::answer_rows;
use crate::under_winners::UnderWinners;
use bep_answer::{Person, end, end_firm};
use bep_machine::{firm_stays_put, settled_stays_put, settled_stays_settled};
use bep_model::firm_stays_firm;
use bep_rows::Aim;
use std::io::{Read, Write};

/// Answers a stream of rows as `rows_text` does; tells why there is no answer on standard error, and answers the exit status:
/// 0 settled, 1 not settled, 2 a line refused, 4 out of memory, 5 a read or write fault.
pub fn rows_and_tell<P: AllocGlobal, H: Person, R: Read, W: Write>(
    rt: &P,
    person: &mut H,
    reader: &mut R,
    writer: &mut W,
) -> u8
    ensures told { IsSettledRowsTold (R.remaining reader.old) (R.remaining reader.new) (W.contents writer.old) (W.contents writer.new) result }
    ensures settled { result ≡ 0 → SaysSettledRows (R.remaining reader.old) (R.remaining reader.new) }
    ensures heard { IsSettledRowsHeard (H.heard person.old) (H.heard person.new) result }
{
    settled_stays_put();
    settled_stays_settled();
    let mut auditor = UnderWinners::of(rt.alloc(), Aim::Settled);
    answer_and_tell(rt, person, &mut auditor, reader, writer)
}

/// The same where firm is asked for: 0 firm, 1 not firm.
pub fn firm_rows_and_tell<P: AllocGlobal, H: Person, R: Read, W: Write>(
    rt: &P,
    person: &mut H,
    reader: &mut R,
    writer: &mut W,
) -> u8
    ensures told { IsFirmRowsTold (R.remaining reader.old) (R.remaining reader.new) (W.contents writer.old) (W.contents writer.new) result }
    ensures firm { result ≡ 0 → SaysFirmRows (R.remaining reader.old) (R.remaining reader.new) }
    ensures heard { IsFirmRowsHeard (H.heard person.old) (H.heard person.new) result }
{
    firm_stays_firm();
    firm_stays_put();
    settled_stays_put();
    settled_stays_settled();
    let mut auditor = UnderWinners::of(rt.alloc(), Aim::Firm);
    answer_firm_and_tell(rt, person, &mut auditor, reader, writer)
}

/// What `rows_and_tell` does, with the answers of this auditor.
pub fn answer_and_tell<P: AllocGlobal, H: Person, A: Auditor, R: Read, W: Write>(
    rt: &P,
    person: &mut H,
    auditor: &mut A,
    reader: &mut R,
    writer: &mut W,
) -> u8
    ensures told { IsRowsTold (A.tells auditor.old) (A.ends auditor.old) (rows_status_of aims.Settled) (R.remaining reader.old) (R.remaining reader.new) (W.contents writer.old) (W.contents writer.new) result }
    ensures heard { IsRowsHeard (rows_status_of aims.Settled) (H.heard person.old) (H.heard person.new) result }
{
    match answer_rows(rt.alloc(), auditor, reader, writer) {
        Ok(outcome) => end(person, Ok((outcome.settled(), None))),
        Err(error) => end(person, Err(error)),
    }
}

/// What `firm_rows_and_tell` does, with the answers of this auditor.
pub fn answer_firm_and_tell<P: AllocGlobal, H: Person, A: Auditor, R: Read, W: Write>(
    rt: &P,
    person: &mut H,
    auditor: &mut A,
    reader: &mut R,
    writer: &mut W,
) -> u8
    ensures told { IsRowsTold (A.tells auditor.old) (A.ends auditor.old) (rows_status_of aims.Firm) (R.remaining reader.old) (R.remaining reader.new) (W.contents writer.old) (W.contents writer.new) result }
    ensures heard { IsRowsHeard (rows_status_of aims.Firm) (H.heard person.old) (H.heard person.new) result }
{
    match answer_rows(rt.alloc(), auditor, reader, writer) {
        Ok(outcome) => end_firm(person, Ok((outcome.firmness(), None))),
        Err(error) => end_firm(person, Err(error)),
    }
}
