//! What is logged of a step.
ghost use Rattle.std.specs.Prelude.{◌≡◌, None};
ghost use Rattle.std.specs.Option.{option_copied};
ghost use Rattle.bep_log.specs.Event.{event_of, event_told};
ghost use Rattle.bep_machine.specs.Halves.{failed_told, has_answered, only_call, was_answered};

use bep_machine::{Exchanged, Logged, Moved, Step, Traffic};
use bep_peer::{PeerError, Trace};

// What is logged of a step in a folder that answered and told this: its event where it was done, or kept a copy and then
// failed; else nothing.
pub(crate) fn event_told(
    step: Step,
    answer: &Result<Moved, PeerError>,
    told: &Trace,
) -> Option<Logged>
    ensures { result ≡ event_told step answer.now told.now }
{
    match answer {
        Ok(_) => Some(event_in_folder(step, told.failed, false)),
        Err(_) => {
            if told.copied {
                Some(event_in_folder(step, told.failed, true))
            } else {
                None
            }
        }
    }
}

// The event of a step without a link, in which this call of the store failed, and which kept a copy and then failed or
// didn't.
pub(crate) fn event_in_folder(step: Step, failed: Option<u32>, kept: bool) -> Logged
    ensures { result ≡ event_of step failed kept None }
{
    event_with(step, failed, kept, None)
}

// The event of a step, with what it did over a link.
pub(crate) fn event_with(
    step: Step,
    failed: Option<u32>,
    kept: bool,
    traffic: Option<Traffic>,
) -> Logged
    ensures { result ≡ event_of step failed kept traffic }
{
    let failed = failed_told(&step, kept, traffic.as_ref(), failed);
    Logged {
        step,
        failed,
        kept,
        traffic,
    }
}

// The call of the store that failed, if the event tells of it: the read for an answer, or the last call of a pull's end, which
// has kept a copy.
fn failed_told(
    step: &Step,
    kept: bool,
    traffic: Option<&Traffic>,
    failed: Option<u32>,
) -> Option<u32>
    ensures { result ≡ failed_told step.now kept (option_copied traffic.entry) failed }
{
    match step {
        Step::Finish(_, _, _) => only_call(kept, 4, failed),
        Step::Deliver(_, _) => only_call(has_answered(traffic), 1, failed),
        _ => None,
    }
}

// Whether a message was taken and answered.
fn has_answered(traffic: Option<&Traffic>) -> bool
    ensures { result ≡ has_answered (option_copied traffic.entry) }
{
    match traffic {
        Some(traffic) => was_answered(&traffic.done),
        None => false,
    }
}

fn was_answered(done: &Exchanged) -> bool
    ensures { result ≡ was_answered done.now }
{
    match done {
        Exchanged::Took(_, Some(_)) => true,
        _ => false,
    }
}

// The number of the call that failed, if that call was made and has this number.
fn only_call(made: bool, call: u32, failed: Option<u32>) -> Option<u32>
    ensures { result ≡ only_call made call failed }
{
    match failed {
        Some(number) if made && number == call => failed,
        _ => None,
    }
}
