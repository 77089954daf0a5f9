//! A stream of rows is explained, and the exit status says what came of it.
ghost use Rattle.std.specs.Prelude.{◌≡◌};
ghost use Rattle.bep_rows_answer.specs.Told.{IsFirmRowsHeard, IsSettledRowsHeard, SaysFirmRows, SaysSettledRows};
ghost use Rattle.bep_rows_explain.specs.Explained.{IsExplainedRowsTold, IsFirmExplainedRowsTold};

use crate::explaining::Explaining;
use bep_answer::Person;
use bep_machine::{firm_stays_put, settled_stays_put, settled_stays_settled};
use bep_model::firm_stays_firm;
use bep_rows_answer::{Aim, answer_and_tell, answer_firm_and_tell};
use std::io::{Read, Write};

/// Answers a stream of rows as `rows_and_tell` does, but that it writes of each name all that fails, with details, in place of the
/// first reason.
pub fn explain_rows_and_tell<P: AllocGlobal, H: Person, R: Read, W: Write>(
    rt: &P,
    person: &mut H,
    reader: &mut R,
    writer: &mut W,
) -> u8
    ensures told { IsExplainedRowsTold (R.remaining reader.old) (R.remaining reader.new) (W.contents writer.old) (W.contents writer.new) result }
    ensures settled { result ≡ 0 → SaysSettledRows (R.remaining reader.old) (R.remaining reader.new) }
    ensures heard { IsSettledRowsHeard (H.heard person.old) (H.heard person.new) result }
{
    settled_stays_put();
    settled_stays_settled();
    let mut auditor = Explaining::of(rt.alloc(), Aim::Settled);
    answer_and_tell(rt, person, &mut auditor, reader, writer)
}

/// The same of `firm_rows_and_tell`.
pub fn explain_firm_rows_and_tell<P: AllocGlobal, H: Person, R: Read, W: Write>(
    rt: &P,
    person: &mut H,
    reader: &mut R,
    writer: &mut W,
) -> u8
    ensures told { IsFirmExplainedRowsTold (R.remaining reader.old) (R.remaining reader.new) (W.contents writer.old) (W.contents writer.new) result }
    ensures firm { result ≡ 0 → SaysFirmRows (R.remaining reader.old) (R.remaining reader.new) }
    ensures heard { IsFirmRowsHeard (H.heard person.old) (H.heard person.new) result }
{
    firm_stays_firm();
    firm_stays_put();
    settled_stays_put();
    settled_stays_settled();
    let mut auditor = Explaining::of(rt.alloc(), Aim::Firm);
    answer_firm_and_tell(rt, person, &mut auditor, reader, writer)
}
