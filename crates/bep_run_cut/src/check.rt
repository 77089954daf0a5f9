//! The run check.
ghost use Rattle.std.specs.Prelude.{◌≡◌, ℕ};
ghost use Rattle.bep_fit.specs.Fit.{IsRunVerdict};
ghost use Rattle.bep_fit.specs.declared.verdict.RunVerdict.TheVariants.{Fits};
ghost use Rattle.bep_run_cut.specs.OneRun.{IsRunOf, StaysPut};

use crate::RunCut;
use bep_fit::{RunVerdict, fitting_logs_are_one_run, settled_logs_stay_put};
use bep_run_check::check_logs;

/// Whether the logs of the run cut are those of one run. They fit where all bases have one round, tickets rise in each log, and
/// every event stands with one ticket in the log of each device and link that it touches, and nowhere else. Else the misfit
/// has the least ticket at fault, 0 for rounds, and the first object at fault, devices before links. It takes no memory.
///
/// Where they fit, there is one list of all events, each once, by rising ticket. It is a run of the machine from the cluster
/// as it was to the cluster as it is, whose cut is `RunCut::cut`, and each log is what touches its object in that list, in
/// order. So if `RunCut::base` is settled for some certificate, and no event is a local step, then every store of
/// `RunCut::cut` holds byte for byte what it held when the logs began; only a device whose reset stands in a log may lack an
/// own record of what it holds. This project's profile.
pub fn check_run(run: &RunCut) -> RunVerdict
    ensures verdict { IsRunVerdict run.now.logs result }
    ensures one_run { (count : ℕ) → result ≡ Fits count → IsRunOf run.now count }
    ensures stays { (count : ℕ) → result ≡ Fits count → StaysPut run.now }
{
    fitting_logs_are_one_run();
    settled_logs_stay_put();
    check_logs(run.logs())
}
