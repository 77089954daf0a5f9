//! A stream of rows is audited, and answered as it is read.
ghost use Rattle.std.specs.Prelude.{◌≡◌};
ghost use Rattle.bep_rows_answer.specs.Told.{SaysFirmRows, SaysSettledRows};
ghost use Rattle.bep_rows_converge.specs.Stays.{SaysConvergingRows};
ghost use Rattle.bep_words.specs.declared.mode.Goal.TheVariants as goals;
ghost use Rattle.syncaudit.specs.Status.{IsExplainingRows, IsJudgingRows, IsReadingRows};

use bep_answer::Person;
use bep_rows_answer::{firm_rows_and_tell, rows_and_tell};
use bep_rows_converge::{converge_rows_and_tell, explain_converge_rows_and_tell};
use bep_rows_explain::{explain_firm_rows_and_tell, explain_rows_and_tell};
use bep_words::{Goal, Reasons};
use std::io::{Read, Write};

// Audits a stream of rows, and tells these of the reasons for which a name isn't what is asked.
pub(crate) fn read_rows<P: AllocGlobal, H: Person, R: Read, W: Write>(
    rt: &P,
    person: &mut H,
    goal: Goal,
    reasons: Reasons,
    reader: &mut R,
    writer: &mut W,
) -> u8
    ensures told { IsReadingRows goal reasons (R.remaining reader.old) (R.remaining reader.new) (W.contents writer.old) (W.contents writer.new) (H.heard person.old) (H.heard person.new) result }
    ensures settled { goal ≡ goals.Settled → result ≡ 0 → SaysSettledRows (R.remaining reader.old) (R.remaining reader.new) }
    ensures firm { goal ≡ goals.Firm → result ≡ 0 → SaysFirmRows (R.remaining reader.old) (R.remaining reader.new) }
    ensures converging { goal ≡ goals.Converging → result ≡ 0 → SaysConvergingRows (R.remaining reader.old) (R.remaining reader.new) }
{
    match reasons {
        Reasons::First => judge_rows(rt, person, goal, reader, writer),
        Reasons::All => explain_rows(rt, person, goal, reader, writer),
    }
}

// Tells the first reason of each name.
fn judge_rows<P: AllocGlobal, H: Person, R: Read, W: Write>(
    rt: &P,
    person: &mut H,
    goal: Goal,
    reader: &mut R,
    writer: &mut W,
) -> u8
    ensures told { IsJudgingRows goal (R.remaining reader.old) (R.remaining reader.new) (W.contents writer.old) (W.contents writer.new) (H.heard person.old) (H.heard person.new) result }
    ensures settled { goal ≡ goals.Settled → result ≡ 0 → SaysSettledRows (R.remaining reader.old) (R.remaining reader.new) }
    ensures firm { goal ≡ goals.Firm → result ≡ 0 → SaysFirmRows (R.remaining reader.old) (R.remaining reader.new) }
    ensures converging { goal ≡ goals.Converging → result ≡ 0 → SaysConvergingRows (R.remaining reader.old) (R.remaining reader.new) }
{
    match goal {
        Goal::Settled => rows_and_tell(rt, person, reader, writer),
        Goal::Firm => firm_rows_and_tell(rt, person, reader, writer),
        Goal::Converging => converge_rows_and_tell(rt, person, reader, writer),
    }
}

// Tells all reasons of each name, with details.
fn explain_rows<P: AllocGlobal, H: Person, R: Read, W: Write>(
    rt: &P,
    person: &mut H,
    goal: Goal,
    reader: &mut R,
    writer: &mut W,
) -> u8
    ensures told { IsExplainingRows goal (R.remaining reader.old) (R.remaining reader.new) (W.contents writer.old) (W.contents writer.new) (H.heard person.old) (H.heard person.new) result }
    ensures settled { goal ≡ goals.Settled → result ≡ 0 → SaysSettledRows (R.remaining reader.old) (R.remaining reader.new) }
    ensures firm { goal ≡ goals.Firm → result ≡ 0 → SaysFirmRows (R.remaining reader.old) (R.remaining reader.new) }
    ensures converging { goal ≡ goals.Converging → result ≡ 0 → SaysConvergingRows (R.remaining reader.old) (R.remaining reader.new) }
{
    match goal {
        Goal::Settled => explain_rows_and_tell(rt, person, reader, writer),
        Goal::Firm => explain_firm_rows_and_tell(rt, person, reader, writer),
        Goal::Converging => explain_converge_rows_and_tell(rt, person, reader, writer),
    }
}
