//! What a person is told beside an answer, and the exit status that says which answer it was.
ghost use Rattle.std.specs.Prelude.{◌≡◌};
ghost use Rattle.bep_answer.specs.Answer.{SaysSettled};
ghost use Rattle.bep_answer.specs.Beside.{TellsOfCheck, TellsOfCut, TellsOfPart};
ghost use Rattle.bep_answer.specs.Firm.{SaysFirm};
ghost use Rattle.bep_answer.specs.Heard.{Hears, IsHeard, said_of};
ghost use Rattle.bep_answer.specs.Status.{IsCertificateTold, IsFirmTold, IsFirmToldUnderWinners, IsPartTold, IsTold, IsToldUnderWinners, without_hint};
ghost use Rattle.bep_answer.specs.Status as spec;
ghost use Rattle.bep_answer.specs.UnderWinners.{SaysFirmUnderWinners, SaysSettledUnderWinners};

use crate::certify::CertificateOfCut;
use crate::check::AuditOfCut;
use crate::exchanging::{Hinted, exchange};
use crate::firm::FirmnessOfCut;
use crate::outcome::{Certified, Firmness, Outcome};
use crate::partial::PartOfCut;
use crate::person::{Person, Said};
use crate::status::{certified_status_of, firm_status_of, partial_status_of, status_of};
use crate::under_winners::{AuditUnderWinners, FirmnessUnderWinners};
use bep_machine::{firm_stays_put, settled_stays_put, settled_stays_settled};
use bep_model::firm_stays_firm;
use bep_report::ReportError;
use std::io::{Read, Write};

/// Audits a document as `check_text` does; tells the person a hint on where a refused document is at fault, or why there is no
/// answer, and answers the exit status.
pub fn check_and_tell<P: AllocGlobal, H: Person, R: Read, W: Write>(
    rt: &P,
    person: &mut H,
    reader: &mut R,
    writer: &mut W,
) -> u8
    ensures told { IsTold (R.remaining reader.old) (R.remaining reader.new) (W.contents writer.old) (W.contents writer.new) result }
    ensures settled { result ≡ 0 → SaysSettled (R.remaining reader.old) (R.remaining reader.new) }
    ensures heard { IsHeard spec.status_of TellsOfCheck (R.remaining reader.old) (R.remaining reader.new) (H.heard person.old) (H.heard person.new) result }
{
    settled_stays_put();
    settled_stays_settled();
    end(person, exchange(rt.alloc(), AuditOfCut, reader, writer))
}

/// The same where firm is asked for, as `firm_text` does.
pub fn firm_and_tell<P: AllocGlobal, H: Person, R: Read, W: Write>(
    rt: &P,
    person: &mut H,
    reader: &mut R,
    writer: &mut W,
) -> u8
    ensures told { IsFirmTold (R.remaining reader.old) (R.remaining reader.new) (W.contents writer.old) (W.contents writer.new) result }
    ensures firm { result ≡ 0 → SaysFirm (R.remaining reader.old) (R.remaining reader.new) }
    ensures heard { IsHeard spec.firm_status_of TellsOfCheck (R.remaining reader.old) (R.remaining reader.new) (H.heard person.old) (H.heard person.new) result }
{
    firm_stays_firm();
    firm_stays_put();
    settled_stays_put();
    settled_stays_settled();
    end_firm(person, exchange(rt.alloc(), FirmnessOfCut, reader, writer))
}

/// Audits the cut of a document, whose certificate may be missing and isn't looked at, under the list of its names' winners,
/// and writes the report, as `check_text` does of the document that `certify_text` makes of it; where a known name has no
/// winner, the report tells the first one. Tells and answers what `check_and_tell` does.
pub fn check_under_winners_and_tell<P: AllocGlobal, H: Person, R: Read, W: Write>(
    rt: &P,
    person: &mut H,
    reader: &mut R,
    writer: &mut W,
) -> u8
    ensures told { IsToldUnderWinners (R.remaining reader.old) (R.remaining reader.new) (W.contents writer.old) (W.contents writer.new) result }
    ensures settled { result ≡ 0 → SaysSettledUnderWinners (R.remaining reader.old) (R.remaining reader.new) }
    ensures heard { IsHeard spec.status_of TellsOfCut (R.remaining reader.old) (R.remaining reader.new) (H.heard person.old) (H.heard person.new) result }
{
    settled_stays_put();
    settled_stays_settled();
    end(
        person,
        exchange(rt.alloc(), AuditUnderWinners, reader, writer),
    )
}

/// The same where firm is asked for, as `firm_text` does.
pub fn firm_under_winners_and_tell<P: AllocGlobal, H: Person, R: Read, W: Write>(
    rt: &P,
    person: &mut H,
    reader: &mut R,
    writer: &mut W,
) -> u8
    ensures told { IsFirmToldUnderWinners (R.remaining reader.old) (R.remaining reader.new) (W.contents writer.old) (W.contents writer.new) result }
    ensures firm { result ≡ 0 → SaysFirmUnderWinners (R.remaining reader.old) (R.remaining reader.new) }
    ensures heard { IsHeard spec.firm_status_of TellsOfCut (R.remaining reader.old) (R.remaining reader.new) (H.heard person.old) (H.heard person.new) result }
{
    firm_stays_firm();
    firm_stays_put();
    settled_stays_put();
    settled_stays_settled();
    end_firm(
        person,
        exchange(rt.alloc(), FirmnessUnderWinners, reader, writer),
    )
}

/// The same for the certificate of a document's cut, as `certify_text` makes it.
pub fn certify_and_tell<P: AllocGlobal, H: Person, R: Read, W: Write>(
    rt: &P,
    person: &mut H,
    reader: &mut R,
    writer: &mut W,
) -> u8
    ensures told { IsCertificateTold (R.remaining reader.old) (R.remaining reader.new) (W.contents writer.old) (W.contents writer.new) result }
    ensures heard { IsHeard spec.certified_status_of TellsOfCut (R.remaining reader.old) (R.remaining reader.new) (H.heard person.old) (H.heard person.new) result }
{
    end_certified(
        person,
        exchange(rt.alloc(), CertificateOfCut, reader, writer),
    )
}

/// The same for the certificate as far as there are winners: the check document of the cut with the winners of the known
/// names that have one, whether all have or not. It tells the names without, too.
pub fn certify_partly_and_tell<P: AllocGlobal, H: Person, R: Read, W: Write>(
    rt: &P,
    person: &mut H,
    reader: &mut R,
    writer: &mut W,
) -> u8
    ensures told { IsPartTold (R.remaining reader.old) (R.remaining reader.new) (W.contents writer.old) (W.contents writer.new) result }
    ensures heard { IsHeard spec.partial_status_of TellsOfPart (R.remaining reader.old) (R.remaining reader.new) (H.heard person.old) (H.heard person.new) result }
{
    let answer = exchange(rt.alloc(), PartOfCut, reader, writer);
    partial_status_of(tell(person, answer))
}

/// Tells what was answered beside an outcome, if there is anything, or why there is no answer, and answers the exit status.
pub fn end<H: Person>(person: &mut H, answer: Result<Hinted<Outcome>, ReportError>) -> u8
    ensures status { result ≡ spec.status_of (without_hint answer) }
    ensures heard { Hears (H.heard person.old) (H.heard person.new) (said_of answer) }
{
    status_of(tell(person, answer))
}

/// The same where firm was asked for.
pub fn end_firm<H: Person>(person: &mut H, answer: Result<Hinted<Firmness>, ReportError>) -> u8
    ensures status { result ≡ spec.firm_status_of (without_hint answer) }
    ensures heard { Hears (H.heard person.old) (H.heard person.new) (said_of answer) }
{
    firm_status_of(tell(person, answer))
}

/// The same where a certificate was asked for.
pub fn end_certified<H: Person>(
    person: &mut H,
    answer: Result<Hinted<Certified>, ReportError>,
) -> u8
    ensures status { result ≡ spec.certified_status_of (without_hint answer) }
    ensures heard { Hears (H.heard person.old) (H.heard person.new) (said_of answer) }
{
    certified_status_of(tell(person, answer))
}

/// Tells what was answered beside an outcome, if there is anything, or why there is no answer; the answer without it.
pub fn tell<H: Person, T>(
    person: &mut H,
    answer: Result<Hinted<T>, ReportError>,
) -> Result<T, ReportError>
    ensures answer { result ≡ without_hint answer }
    ensures heard { Hears (H.heard person.old) (H.heard person.new) (said_of answer) }
{
    match answer {
        Ok((outcome, beside)) => {
            if let Some(beside) = beside {
                person.hear(Said::Beside(beside));
            }
            Ok(outcome)
        }
        Err(error) => {
            person.hear(Said::Why(error));
            Err(error)
        }
    }
}
