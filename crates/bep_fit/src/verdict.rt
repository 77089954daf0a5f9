//! What a check of a run's logs answers.
ghost use Rattle.bep_fit.specs.FitLaws.{RunVerdictIsOne, RunVerdictIsThere};

use crate::Object;

/// Whether the logs of all devices and links are those of one run.
#[derive(Clone, Copy, Debug, PartialEq, Eq)]
pub enum RunVerdict {
    /// They are, of a run with this many events.
    Fits(u64),
    /// They aren't: the first object at fault, and the least ticket at fault. If rounds differ, the ticket is 0.
    Misfit(Object, u64),
}

/// All logs have one verdict and no other. So logs that fit have no misfit, and logs that don't have exactly one.
pub fn logs_have_one_verdict()
    ensures there { RunVerdictIsThere }
    ensures one { RunVerdictIsOne }
{}
