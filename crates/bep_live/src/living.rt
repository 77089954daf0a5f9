//! From a scenario to a cut of its cluster, once threads have run it.
ghost use Rattle.std.specs.Prelude.{ℕ, [], IfOk, IsUtf8};
ghost use Rattle.bep_fit.specs.Fit.{Fits};
ghost use Rattle.bep_fit.specs.Replayed.{AreQuietLogs, AreResetOf};
ghost use Rattle.bep_scenario.specs.Scenario.{said_lazily};
ghost use Rattle.bep_live.specs.Lived.{IsJudged, LeadsOn};

use bep_blocks::OpenGate;
use bep_core::reached_is_gapless;
use bep_fit::{RunVerdict, logs_have_one_verdict};
use bep_play::played;
use bep_run::run_turns;
use bep_run_cut::{RunCut, check_run};
use bep_scenario::LazyScenario;
use std::alloc::{AllocError, Global};
use std::sync::Wait;
use std::thread::Threads;

/// Makes the scenario's steps, has threads run the cluster to which they lead for so many turns each, and answers a cut of it
/// and the lines of the steps that are refused. What its devices know of each other then has no gap. May wait.
pub(crate) fn lived<R: Threads + Wait + Sync>(
    rt: &R,
    alloc: Global,
    scenario: LazyScenario,
    turns: u32,
) -> Result<(RunCut, Vec<u8>), AllocError>
    ensures leads { IfOk result (λ end. LeadsOn (said_lazily scenario) end.0 end.1.items) }
    ensures text { IfOk result (λ end. IsUtf8 end.1.items) }
{
    let (cluster, told) = played(alloc, scenario)?;
    match run_turns(rt, alloc, cluster, &OpenGate, turns) {
        Ok(run) => {
            // these are called for what their clauses say of the logs, and of what runs lead to
            run.logs();
            reached_is_gapless();
            Ok((run, told))
        }
        // Stores in memory never fail, and a cluster has one of each device and link. So only memory can be wanting.
        Err(_) => Err(AllocError),
    }
}

/// The verdict on the logs of a run cut, which fit, and in which no event is a local step or a reset: that they fit.
pub(crate) fn judge(run: &RunCut) -> RunVerdict
    requires quiet { AreQuietLogs run.now.logs }
    requires no_reset { AreResetOf run.now.logs [] }
    requires fit { (count : ℕ) × Fits run.now.logs count }
    ensures { IsJudged run.now result }
{
    // these are called for what their clauses say of the run cut, and of verdicts
    run.logs();
    run.cut();
    logs_have_one_verdict();
    check_run(run)
}
