//! The report on a cluster that threads ran.
ghost use Rattle.std.specs.Prelude.{◌≡◌, IfErr, IfOk};
ghost use Rattle.bep_answer.specs.Exchange.{IsEndedEarly, IsWhole};
ghost use Rattle.bep_scenario.specs.Scenario.{said_lazily};
ghost use Rattle.bep_live.specs.Beside.{IsLiveWith, IsLivedWith};
ghost use Rattle.bep_live.specs.Lived.{IsLiveOfBytes, IsLived, cut_in};
ghost use Rattle.bep_live.specs.Lived as life;
ghost use Rattle.bep_play.specs.Played.{IsEnd};

use crate::lines::push_run;
use crate::living::{judge, lived};
use crate::logs::lines_on;
use bep_answer::{Answer, Hinted, Outcome, hint_for, refusal};
use bep_document::DocError;
use bep_fit::RunVerdict;
use bep_hints::Expected;
use bep_json::DocVersion;
use bep_play::{lines_of, report_on_cut};
use bep_report::{ReportError, read_document, write_all};
use bep_run_cut::RunCut;
use bep_scenario::{LazyScenario, read_lazy_scenario};
use std::alloc::{AllocError, Global};
use std::io::{Read, Write};
use std::sync::Wait;
use std::thread::Threads;

/// Reads a scenario, and writes the report on a cut of its cluster, once threads have run it for so many turns each, and the
/// verdict on their logs. What is told beside it is for the caller to write: which device or link is at fault where the logs
/// don't fit, which logs are full, and where the scenario is refused, a hint on where it is at fault. May wait.
///
/// It does what `bep_answer` does of a question. But no question can hold what makes threads: a trait's method can't ask that
/// threads may share it.
pub(crate) fn exchange_report<P: AllocGlobal + Threads + Wait + Sync, R: Read, W: Write>(
    rt: &P,
    reader: &mut R,
    writer: &mut W,
    turns: u32,
) -> Result<Hinted<Outcome>, ReportError>
    ensures ok { IfOk result (λ told. IsWhole IsLiveOfBytes (R.remaining reader.old) (R.remaining reader.new) (W.contents writer.old) (W.contents writer.new) told.0) }
    ensures err { IfErr result (IsEndedEarly IsLiveOfBytes (R.remaining reader.old) (R.remaining reader.new) (W.contents writer.old) (W.contents writer.new)) }
    ensures beside { IfOk result (λ told. IsWhole (IsLiveWith told.1) (R.remaining reader.old) (R.remaining reader.new) (W.contents writer.old) (W.contents writer.new) told.0) }
{
    let alloc = rt.alloc();
    let bytes = read_document(alloc, reader)?;
    let ((outcome, text), beside) = answer(rt, alloc, bytes.as_slice(), turns)?;
    write_all(writer, text.as_slice())?;
    Ok((outcome, beside))
}

// The answer to a document's bytes.
fn answer<R: Threads + Wait + Sync>(
    rt: &R,
    alloc: Global,
    bytes: &[u8],
    turns: u32,
) -> Result<Answer<Outcome>, AllocError>
    ensures says { IfOk result (λ told. IsLiveOfBytes bytes.now told.0.0 told.0.1.items) }
    ensures beside { IfOk result (λ told. IsLiveWith told.1 bytes.now told.0.0 told.0.1.items) }
{
    match read_lazy_scenario(alloc, bytes) {
        Ok(scenario) => live_report(rt, alloc, scenario, turns),
        Err(DocError::Refused(fault)) => {
            let refused = refusal(alloc, &fault)?;
            Ok((refused, hint_for(alloc, bytes, &fault, Expected::Scenario)))
        }
        Err(DocError::Memory) => Err(AllocError),
    }
}

// The outcome for a cut of the scenario's cluster, once threads have run it, the text, and the lines on the logs.
fn live_report<R: Threads + Wait + Sync>(
    rt: &R,
    alloc: Global,
    scenario: LazyScenario,
    turns: u32,
) -> Result<Answer<Outcome>, AllocError>
    ensures lived { IfOk result (λ told. IsLived (said_lazily scenario) told.0.0 told.0.1.items) }
    ensures beside { IfOk result (λ told. IsLivedWith (said_lazily scenario) told.0.0 told.0.1.items told.1) }
{
    let version = scenario.version;
    let (run, told) = lived(rt, alloc, scenario, turns)?;
    let verdict = judge(&run);
    let (found, mut text) = report_of(alloc, version, &run, told)?;
    let lines = lines_on(alloc, &verdict, &run)?;
    let outcome = outcome_under(&verdict, found);
    push_run(&mut text, verdict)?;
    Ok(((outcome, text), lines_of(lines)))
}

// The outcome where this was found of the cut: settled only if the logs fit.
fn outcome_under(verdict: &RunVerdict, found: Outcome) -> Outcome
    ensures { result ≡ life.outcome_under verdict.now found }
{
    match verdict {
        RunVerdict::Fits(_) => found,
        RunVerdict::Misfit(_, _) => Outcome::NotSettled,
    }
}

// The outcome for the cut of the devices and links as they are, and the text.
fn report_of(
    alloc: Global,
    version: DocVersion,
    run: &RunCut,
    told: Vec<u8>,
) -> Result<(Outcome, Vec<u8>), AllocError>
    ensures { IfOk result (λ answer. IsEnd version (cut_in run.now) told.items answer.0 answer.1.items) }
{
    report_on_cut(alloc, version, run.cut(), told)
}
