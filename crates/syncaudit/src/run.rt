//! From the words of the command line to the exit status.
ghost use Rattle.std.specs.Prelude.{◌≡◌, ◌≢◌, ◌<◌, ℕ, [], IfErr, IfOk, map};
ghost use Rattle.std.specs.IoError.{error_kind};
ghost use Rattle.std.specs.String.{string_bytes};
ghost use Rattle.std.specs.Vec.Iter.{into_iter_items};
ghost use Rattle.clap.specs.Words.{fault_of};
ghost use Rattle.bep_answer.specs.Answer.{SaysSettled};
ghost use Rattle.bep_answer.specs.Firm.{SaysFirm};
ghost use Rattle.bep_answer.specs.UnderWinners.{SaysFirmUnderWinners, SaysSettledUnderWinners};
ghost use Rattle.bep_converge_answer.specs.Convergence.{SaysConverging};
ghost use Rattle.bep_live.specs.Lived.{EndsLived};
ghost use Rattle.bep_play.specs.Played.{EndsSettled};
ghost use Rattle.bep_rows_answer.specs.Told.{SaysFirmRows, SaysSettledRows};
ghost use Rattle.bep_rows_converge.specs.Stays.{SaysConvergingRows};
ghost use Rattle.bep_words.specs.Mode.{Asks, program};
ghost use Rattle.syncaudit.specs.Status.{IsCertifying, IsChecking, IsDone, IsEnd, IsEnding, IsExplaining, IsExplainingGiven, IsExplainingUnderWinners, IsFirming, IsFollowed, IsLiveEnding, IsProgramRun, IsRunning, IsUnfollowed, IsWithoutWords, status_without};
ghost use Rattle.syncaudit.specs.inner.Says.{SaysIn};
ghost use Rattle.bep_words.specs.declared.mode.Goal.TheVariants as goals;
ghost use Rattle.bep_words.specs.declared.mode.Ending.TheVariants.{Report};
ghost use Rattle.bep_words.specs.declared.mode.Mode.TheVariants.{Check, Converge, Firm, Rows, Run};
ghost use Rattle.bep_words.specs.declared.mode.Reasons.{Reasons as ReasonsOf};
ghost use Rattle.bep_words.specs.declared.mode.Under.TheVariants.{Given, Winners};

use crate::rows::read_rows;
use bep_answer::{
    Person, USAGE, certify_and_tell, certify_partly_and_tell, check_and_tell,
    check_under_winners_and_tell, end, firm_and_tell, firm_under_winners_and_tell,
};
use bep_converge_answer::converge_and_tell;
use bep_converge_explain::explain_converge_and_tell;
use bep_explain::{
    explain_and_tell, explain_firm_and_tell, explain_firm_under_winners_and_tell,
    explain_under_winners_and_tell,
};
use bep_lines::Form;
use bep_live::{live_and_tell, live_document_and_tell};
use bep_play::{run_and_tell, run_document_and_tell};
use bep_report::ReportError;
use bep_words::{Ending, Extent, Goal, Mode, Under, Unfollowed, faultless_words_ask, mode_told};
use std::alloc::{AllocError, Global};
use std::convert::AsStr;
use std::env::Args;
use std::io::{self, Read, Write};
use std::sync::Wait;
use std::thread::Threads;

/// Does what the words ask for that the system gave the program, all of them, as `run` does; or tells why it gave none, and
/// answers the exit status. Without words nothing is read or written. May wait, as `run` may.
pub fn run_given<P: AllocGlobal + Eprint + Threads + Wait + Sync, H: Person, R: Read, W: Write>(
    rt: &P,
    person: &mut H,
    reader: &mut R,
    writer: &mut W,
    words: io::Result<Args>,
) -> u8
    ensures given { IfOk words (λ all. IsProgramRun (map string_bytes (into_iter_items all)) (R.remaining reader.old) (R.remaining reader.new) (W.contents writer.old) (W.contents writer.new) (H.heard person.old) (H.heard person.new) result) }
    ensures without { IfErr words (λ error. IsWithoutWords (error_kind error) (R.remaining reader.old) (R.remaining reader.new) (W.contents writer.old) (W.contents writer.new) result) }
{
    match words {
        Ok(words) => run_all(rt, person, reader, writer, words),
        Err(error) => run_without_words(rt, person, error),
    }
}

// Does what all these words ask for, as `run` does.
fn run_all<P: AllocGlobal + Eprint + Threads + Wait + Sync, H: Person, R: Read, W: Write>(
    rt: &P,
    person: &mut H,
    reader: &mut R,
    writer: &mut W,
    words: Args,
) -> u8
    ensures { IsProgramRun (map string_bytes (into_iter_items words)) (R.remaining reader.old) (R.remaining reader.new) (W.contents writer.old) (W.contents writer.new) (H.heard person.old) (H.heard person.new) result }
{
    faultless_words_ask();
    match all_of(rt.alloc(), words) {
        Ok(all) => run(rt, person, reader, writer, all.as_slice()),
        Err(_) => end(person, Err(ReportError::Memory)),
    }
}

/// Does what these words ask for, the program's name first, and answers the exit status. Words in which nothing is at
/// fault are followed. For others, and for those that ask for help or for the version, nothing is read or written.
///
/// A document, or a stream of rows, is read and its answer written; why there is none is told on standard error. Only where turns are asked for are
/// threads made, and may it wait.
pub fn run<P: AllocGlobal + Eprint + Threads + Wait + Sync, H: Person, R: Read, W: Write, S: AsStr>(
    rt: &P,
    person: &mut H,
    reader: &mut R,
    writer: &mut W,
    words: &[S],
) -> u8
    ensures followed { fault_of program (map S.text words.entry.now) ≡ []
        → IsFollowed (map S.text words.entry.now) (R.remaining reader.old) (R.remaining reader.new) (W.contents writer.old) (W.contents writer.new) (H.heard person.old) (H.heard person.new) result }
    ensures unfollowed { fault_of program (map S.text words.entry.now) ≢ []
        → IsUnfollowed (R.remaining reader.old) (R.remaining reader.new) (W.contents writer.old) (W.contents writer.new) result }
    ensures end { IsEnd (map S.text words.entry.now) (R.remaining reader.old) (R.remaining reader.new) (W.contents writer.old) (W.contents writer.new) (H.heard person.old) (H.heard person.new) result }
    ensures settled { Asks (map S.text words.entry.now) (Check Given)
        → result ≡ 0 → SaysSettled (R.remaining reader.old) (R.remaining reader.new) }
    ensures settled_under_winners { Asks (map S.text words.entry.now) (Check Winners)
        → result ≡ 0 → SaysSettledUnderWinners (R.remaining reader.old) (R.remaining reader.new) }
    ensures firm { Asks (map S.text words.entry.now) (Firm Given)
        → result ≡ 0 → SaysFirm (R.remaining reader.old) (R.remaining reader.new) }
    ensures firm_under_winners { Asks (map S.text words.entry.now) (Firm Winners)
        → result ≡ 0 → SaysFirmUnderWinners (R.remaining reader.old) (R.remaining reader.new) }
    ensures converging { Asks (map S.text words.entry.now) Converge
        → result ≡ 0 → SaysConverging (R.remaining reader.old) (R.remaining reader.new) }
    ensures settled_rows { (told : ReasonsOf) → Asks (map S.text words.entry.now) (Rows goals.Settled told)
        → result ≡ 0 → SaysSettledRows (R.remaining reader.old) (R.remaining reader.new) }
    ensures firm_rows { (told : ReasonsOf) → Asks (map S.text words.entry.now) (Rows goals.Firm told)
        → result ≡ 0 → SaysFirmRows (R.remaining reader.old) (R.remaining reader.new) }
    ensures converging_rows { (told : ReasonsOf) → Asks (map S.text words.entry.now) (Rows goals.Converging told)
        → result ≡ 0 → SaysConvergingRows (R.remaining reader.old) (R.remaining reader.new) }
    ensures ends_settled { Asks (map S.text words.entry.now) (Run Report 0)
        → result ≡ 0 → EndsSettled (R.remaining reader.old) (R.remaining reader.new) }
    ensures lives_settled { (turns : ℕ) → Asks (map S.text words.entry.now) (Run Report turns) → 0 < turns
        → result ≡ 0 → EndsLived (R.remaining reader.old) (R.remaining reader.new) }
{
    faultless_words_ask();
    match mode_told(rt, words) {
        Ok(mode) => follow(rt, person, mode, reader, writer),
        Err(Unfollowed::Memory) => end(person, Err(ReportError::Memory)),
        Err(Unfollowed::Usage) => USAGE,
    }
}

// Does what is asked for in this mode.
fn follow<P: AllocGlobal + Threads + Wait + Sync, H: Person, R: Read, W: Write>(
    rt: &P,
    person: &mut H,
    mode: Mode,
    reader: &mut R,
    writer: &mut W,
) -> u8
    ensures done { IsDone mode (R.remaining reader.old) (R.remaining reader.new) (W.contents writer.old) (W.contents writer.new) (H.heard person.old) (H.heard person.new) result }
    ensures says { result ≡ 0 → SaysIn mode (R.remaining reader.old) (R.remaining reader.new) }
{
    match mode {
        Mode::Check(under) => check(rt, person, under, reader, writer),
        Mode::Firm(under) => firm(rt, person, under, reader, writer),
        Mode::Converge => converge_and_tell(rt, person, reader, writer),
        Mode::Certify(extent) => certify(rt, person, extent, reader, writer),
        Mode::Explain(goal, under, form) => explain(rt, person, goal, under, form, reader, writer),
        Mode::Rows(goal, reasons) => read_rows(rt, person, goal, reasons, reader, writer),
        Mode::Run(ending, turns) => run_scenario(rt, person, ending, turns, reader, writer),
    }
}

// All words, in their order.
fn all_of(alloc: Global, words: Args) -> Result<Vec<String>, AllocError>
    ensures { IfOk result (λ all. all.items ≡ into_iter_items words) }
{
    words.collect(alloc)
}

// Tells why there are no words, and answers the exit status.
fn run_without_words<P: Eprint, H: Person>(rt: &P, person: &mut H, error: io::Error) -> u8
    ensures { result ≡ status_without (error_kind error) }
{
    match error.kind() {
        io::ErrorKind::OutOfMemory => end(person, Err(ReportError::Memory)),
        _ => {
            let _ = eprint!(rt; "error: the words are no UTF-8\n");
            USAGE
        }
    }
}

// Audits a document, and writes its report.
fn check<P: AllocGlobal, H: Person, R: Read, W: Write>(
    rt: &P,
    person: &mut H,
    under: Under,
    reader: &mut R,
    writer: &mut W,
) -> u8
    ensures told { IsChecking under (R.remaining reader.old) (R.remaining reader.new) (W.contents writer.old) (W.contents writer.new) (H.heard person.old) (H.heard person.new) result }
    ensures settled { under ≡ Given → result ≡ 0 → SaysSettled (R.remaining reader.old) (R.remaining reader.new) }
    ensures settled_under_winners { under ≡ Winners → result ≡ 0 → SaysSettledUnderWinners (R.remaining reader.old) (R.remaining reader.new) }
{
    match under {
        Under::Given => check_and_tell(rt, person, reader, writer),
        Under::Winners => check_under_winners_and_tell(rt, person, reader, writer),
    }
}

// The same where firm is asked for.
fn firm<P: AllocGlobal, H: Person, R: Read, W: Write>(
    rt: &P,
    person: &mut H,
    under: Under,
    reader: &mut R,
    writer: &mut W,
) -> u8
    ensures told { IsFirming under (R.remaining reader.old) (R.remaining reader.new) (W.contents writer.old) (W.contents writer.new) (H.heard person.old) (H.heard person.new) result }
    ensures firm { under ≡ Given → result ≡ 0 → SaysFirm (R.remaining reader.old) (R.remaining reader.new) }
    ensures firm_under_winners { under ≡ Winners → result ≡ 0 → SaysFirmUnderWinners (R.remaining reader.old) (R.remaining reader.new) }
{
    match under {
        Under::Given => firm_and_tell(rt, person, reader, writer),
        Under::Winners => firm_under_winners_and_tell(rt, person, reader, writer),
    }
}

// Certifies a document, and writes as much of the certificate as is asked for.
fn certify<P: AllocGlobal, H: Person, R: Read, W: Write>(
    rt: &P,
    person: &mut H,
    extent: Extent,
    reader: &mut R,
    writer: &mut W,
) -> u8
    ensures { IsCertifying extent (R.remaining reader.old) (R.remaining reader.new) (W.contents writer.old) (W.contents writer.new) (H.heard person.old) (H.heard person.new) result }
{
    match extent {
        Extent::All => certify_and_tell(rt, person, reader, writer),
        Extent::Won => certify_partly_and_tell(rt, person, reader, writer),
    }
}

// Explains a document, and writes what keeps it from being what is asked for.
fn explain<P: AllocGlobal, H: Person, R: Read, W: Write>(
    rt: &P,
    person: &mut H,
    goal: Goal,
    under: Under,
    form: Form,
    reader: &mut R,
    writer: &mut W,
) -> u8
    ensures { IsExplaining goal under form (R.remaining reader.old) (R.remaining reader.new) (W.contents writer.old) (W.contents writer.new) (H.heard person.old) (H.heard person.new) result }
{
    match under {
        Under::Given => explain_given(rt, person, goal, form, reader, writer),
        Under::Winners => explain_under_winners(rt, person, goal, form, reader, writer),
    }
}

// Explains a document under its own rows.
fn explain_given<P: AllocGlobal, H: Person, R: Read, W: Write>(
    rt: &P,
    person: &mut H,
    goal: Goal,
    form: Form,
    reader: &mut R,
    writer: &mut W,
) -> u8
    ensures { IsExplainingGiven goal form (R.remaining reader.old) (R.remaining reader.new) (W.contents writer.old) (W.contents writer.new) (H.heard person.old) (H.heard person.new) result }
{
    match goal {
        Goal::Settled => explain_and_tell(rt, person, form, reader, writer),
        Goal::Firm => explain_firm_and_tell(rt, person, form, reader, writer),
        Goal::Converging => explain_converge_and_tell(rt, person, form, reader, writer),
    }
}

// Explains a document under the winners of its names.
fn explain_under_winners<P: AllocGlobal, H: Person, R: Read, W: Write>(
    rt: &P,
    person: &mut H,
    goal: Goal,
    form: Form,
    reader: &mut R,
    writer: &mut W,
) -> u8
    ensures { IsExplainingUnderWinners goal form (R.remaining reader.old) (R.remaining reader.new) (W.contents writer.old) (W.contents writer.new) (H.heard person.old) (H.heard person.new) result }
{
    match goal {
        Goal::Settled => explain_under_winners_and_tell(rt, person, form, reader, writer),
        Goal::Firm => explain_firm_under_winners_and_tell(rt, person, form, reader, writer),
        Goal::Converging => explain_converge_and_tell(rt, person, form, reader, writer),
    }
}

// Makes the steps of a scenario, has threads run its cluster if they are to make turns, and writes what is asked for of where
// that leads.
fn run_scenario<P: AllocGlobal + Threads + Wait + Sync, H: Person, R: Read, W: Write>(
    rt: &P,
    person: &mut H,
    ending: Ending,
    turns: u32,
    reader: &mut R,
    writer: &mut W,
) -> u8
    ensures told { IsRunning ending turns (R.remaining reader.old) (R.remaining reader.new) (W.contents writer.old) (W.contents writer.new) (H.heard person.old) (H.heard person.new) result }
    ensures settled { ending ≡ Report → turns ≡ 0 → result ≡ 0 → EndsSettled (R.remaining reader.old) (R.remaining reader.new) }
    ensures lives_settled { ending ≡ Report → 0 < turns → result ≡ 0 → EndsLived (R.remaining reader.old) (R.remaining reader.new) }
{
    if turns == 0 {
        make_steps(rt, person, ending, reader, writer)
    } else {
        run_on(rt, person, ending, turns, reader, writer)
    }
}

// Makes the steps of a scenario, and writes what is asked for of where they lead. No thread is made.
fn make_steps<P: AllocGlobal, H: Person, R: Read, W: Write>(
    rt: &P,
    person: &mut H,
    ending: Ending,
    reader: &mut R,
    writer: &mut W,
) -> u8
    ensures told { IsEnding ending (R.remaining reader.old) (R.remaining reader.new) (W.contents writer.old) (W.contents writer.new) (H.heard person.old) (H.heard person.new) result }
    ensures settled { ending ≡ Report → result ≡ 0 → EndsSettled (R.remaining reader.old) (R.remaining reader.new) }
{
    match ending {
        Ending::Report => run_and_tell(rt, person, reader, writer),
        Ending::Document => run_document_and_tell(rt, person, reader, writer),
    }
}

// Makes the steps of a scenario, has threads run its cluster, and writes what is asked for of a cut of it.
fn run_on<P: AllocGlobal + Threads + Wait + Sync, H: Person, R: Read, W: Write>(
    rt: &P,
    person: &mut H,
    ending: Ending,
    turns: u32,
    reader: &mut R,
    writer: &mut W,
) -> u8
    ensures told { IsLiveEnding ending (R.remaining reader.old) (R.remaining reader.new) (W.contents writer.old) (W.contents writer.new) (H.heard person.old) (H.heard person.new) result }
    ensures settled { ending ≡ Report → result ≡ 0 → EndsLived (R.remaining reader.old) (R.remaining reader.new) }
{
    match ending {
        Ending::Report => live_and_tell(rt, person, reader, writer, turns),
        Ending::Document => live_document_and_tell(rt, person, reader, writer, turns),
    }
}
