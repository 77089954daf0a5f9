//! The check document of a cluster that threads ran.
ghost use Rattle.std.specs.Prelude.{◌≡◌, IfErr, IfOk};
ghost use Rattle.bep_answer.specs.Exchange.{IsEndedEarly, IsWhole};
ghost use Rattle.bep_scenario.specs.Scenario.{said_lazily};
ghost use Rattle.bep_live.specs.Beside.{IsLiveEndWith, IsLivedBeside};
ghost use Rattle.bep_answer.specs.Certified.{IsCertificate};
ghost use Rattle.bep_live.specs.Lived.{IsLiveEndOfBytes, IsLivedTo, cut_in};
ghost use Rattle.bep_live.specs.Lived as life;

use crate::lines::push_run;
use crate::living::{judge, lived};
use crate::logs::{append, lines_on};
use bep_answer::{Answer, Certified, Hinted, certify_cut, fault_line, hint_for};
use bep_document::DocError;
use bep_fit::RunVerdict;
use bep_hints::Expected;
use bep_json::DocVersion;
use bep_play::lines_of;
use bep_report::{ReportError, read_document, write_all};
use bep_run_cut::RunCut;
use bep_scenario::{LazyScenario, read_lazy_scenario};
use std::alloc::{AllocError, Global};
use std::io::{Read, Write};
use std::sync::Wait;
use std::thread::Threads;

/// Reads a scenario, and writes the check document of a cut of its cluster, once threads have run it for so many turns each.
/// What is told beside it is for the caller to write: the lines of refused steps, of the verdict on the logs of that very
/// cut and on these logs, and where the scenario is refused, a hint on where it is at fault. May wait.
pub(crate) fn exchange_document<P: AllocGlobal + Threads + Wait + Sync, R: Read, W: Write>(
    rt: &P,
    reader: &mut R,
    writer: &mut W,
    turns: u32,
) -> Result<Hinted<Certified>, ReportError>
    ensures ok { IfOk result (λ told. IsWhole IsLiveEndOfBytes (R.remaining reader.old) (R.remaining reader.new) (W.contents writer.old) (W.contents writer.new) told.0) }
    ensures err { IfErr result (IsEndedEarly IsLiveEndOfBytes (R.remaining reader.old) (R.remaining reader.new) (W.contents writer.old) (W.contents writer.new)) }
    ensures beside { IfOk result (λ told. IsWhole (IsLiveEndWith told.1) (R.remaining reader.old) (R.remaining reader.new) (W.contents writer.old) (W.contents writer.new) told.0) }
{
    let alloc = rt.alloc();
    let bytes = read_document(alloc, reader)?;
    let ((outcome, text), beside) = answer(rt, alloc, bytes.as_slice(), turns)?;
    write_all(writer, text.as_slice())?;
    Ok((outcome, beside))
}

// The answer to a document's bytes.
fn answer<R: Threads + Wait + Sync>(
    rt: &R,
    alloc: Global,
    bytes: &[u8],
    turns: u32,
) -> Result<Answer<Certified>, AllocError>
    ensures says { IfOk result (λ told. IsLiveEndOfBytes bytes.now told.0.0 told.0.1.items) }
    ensures beside { IfOk result (λ told. IsLiveEndWith told.1 bytes.now told.0.0 told.0.1.items) }
{
    match read_lazy_scenario(alloc, bytes) {
        Ok(scenario) => live_document(rt, alloc, scenario, turns),
        Err(DocError::Refused(fault)) => {
            let refused = (Certified::Refused, fault_line(alloc, &fault)?);
            Ok((refused, hint_for(alloc, bytes, &fault, Expected::Scenario)))
        }
        Err(DocError::Memory) => Err(AllocError),
    }
}

// The document of a cut of the scenario's cluster, once threads have run it, the outcome, and the lines of refused steps and of the
// verdict.
fn live_document<R: Threads + Wait + Sync>(
    rt: &R,
    alloc: Global,
    scenario: LazyScenario,
    turns: u32,
) -> Result<Answer<Certified>, AllocError>
    ensures lived { IfOk result (λ told. IsLivedTo (said_lazily scenario) told.0.0 told.0.1.items) }
    ensures beside { IfOk result (λ told. IsLivedBeside (said_lazily scenario) told.0.0 told.0.1.items told.1) }
{
    let version = scenario.version;
    let (run, mut told) = lived(rt, alloc, scenario, turns)?;
    let verdict = judge(&run);
    let (found, text) = document_of(alloc, version, &run)?;
    let lines = lines_on(alloc, &verdict, &run)?;
    let outcome = certified_under(&verdict, found);
    push_run(&mut told, verdict)?;
    append(&mut told, lines.as_slice())?;
    Ok(((outcome, text), lines_of(told)))
}

// The outcome where this was found of the cut: written only if the logs fit.
fn certified_under(verdict: &RunVerdict, found: Certified) -> Certified
    ensures { result ≡ life.certified_under verdict.now found }
{
    match verdict {
        RunVerdict::Fits(_) => found,
        RunVerdict::Misfit(_, _) => Certified::NoWinner,
    }
}

// The document of this version of the cut of the devices and links as they are.
fn document_of(
    alloc: Global,
    version: DocVersion,
    run: &RunCut,
) -> Result<(Certified, Vec<u8>), AllocError>
    ensures { IfOk result (λ answer. IsCertificate version (cut_in run.now) answer.0 answer.1.items) }
{
    certify_cut(alloc, version, run.cut())
}
