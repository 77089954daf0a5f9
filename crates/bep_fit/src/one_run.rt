//! Where logs fit, they are of one run. Each function does nothing; its contract is the law.
ghost use Rattle.bep_fit.specs.FitLaws.{FittingLogsAreOneRun, SettledLogsStayPut};

use bep_machine::{own_events_replay, replays_are_there, replays_run, settled_stays_put};

/// The cluster of all bases is sound, each device and each link is what its log makes of its base, and edits put nodes. If the
/// logs fit, then their merged list is a run from the cluster of all bases to the cluster of all present states.
pub fn fitting_logs_are_one_run()
    ensures { FittingLogsAreOneRun }
{
    own_events_replay();
    replays_are_there();
    replays_run();
}

/// If, moreover, the cut of the bases is settled for some rows, and no event is a local step, then each store holds byte for
/// byte what it held, and each row's name has its certified content. Only devices that were reset may lack records.
pub fn settled_logs_stay_put()
    ensures { SettledLogsStayPut }
{
    fitting_logs_are_one_run();
    settled_stays_put();
}
