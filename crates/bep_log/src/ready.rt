//! What is ready before an action over a link is made, so that nothing can be refused after it; and what is logged of it then.
ghost use Rattle.std.specs.Prelude.{◌≡◌, false, option_map};
ghost use Rattle.bep_log.specs.Event.{event_of};
ghost use Rattle.bep_log.specs.Over.{exchanged, in_epoch};
ghost use Rattle.bep_log.specs.ActsOver.{event_for};

use crate::event::event_with;
use bep_machine::{Exchanged, Logged, Message, Moved, Step, Traffic};
use bep_peer::{PeerError, Trace};

// For one of the two logs: the step, the link's epoch, and the message that the action takes.
pub(crate) struct Ready {
    pub(crate) step: Step,
    pub(crate) epoch: u64,
    pub(crate) taken: Option<Message>,
}

// By hand: a caller's proof then sees one call where it lets go of one, and not each field (docs/developing.md).
impl Drop for Ready {
    fn drop(self) {
        let Ready {
            step: _,
            epoch: _,
            taken: _,
        } = self;
    }
}

impl Ready {
    // The event, where this call of the store failed, this was sent, and the link is still up or isn't.
    fn event(self, failed: Option<u32>, sent: Option<Message>, up: bool) -> Logged
        ensures { result ≡ event_of self.step failed false (in_epoch self.epoch (exchanged self.taken sent up)) }
    {
        let Ready { step, epoch, taken } = self;
        event_with(
            step,
            failed,
            false,
            traffic_in(epoch, exchanged(taken, sent, up)),
        )
    }
}

// The events for both logs, where the action was done: equal ones.
pub(crate) fn events(
    mine: Ready,
    its: Ready,
    answer: &Result<Moved, PeerError>,
    told: Trace,
    up: bool,
) -> Option<(Logged, Logged)>
    ensures mine { option_map (λ both. both.0) result ≡ event_for mine answer.now told.failed (option_map (λ put. put.0) told.put) up }
    ensures its { option_map (λ both. both.1) result ≡ event_for its answer.now told.failed (option_map (λ put. put.1) told.put) up }
{
    match answer {
        Ok(_) => {
            let failed = told.failed;
            let (sent, again) = halves(put_of(told));
            Some((mine.event(failed, sent, up), its.event(failed, again, up)))
        }
        Err(_) => None,
    }
}

// What was sent, as the trace tells it twice.
fn put_of(told: Trace) -> Option<(Message, Message)>
    ensures { result ≡ told.put }
{
    let mut told = told;
    told.put.take()
}

fn halves(put: Option<(Message, Message)>) -> (Option<Message>, Option<Message>)
    ensures first { result.0 ≡ option_map (λ both. both.0) put }
    ensures second { result.1 ≡ option_map (λ both. both.1) put }
{
    match put {
        Some((one, other)) => (Some(one), Some(other)),
        None => (None, None),
    }
}

// What was done to the link, by what was taken, what was sent, and whether the link is still up.
fn exchanged(taken: Option<Message>, sent: Option<Message>, up: bool) -> Option<Exchanged>
    ensures { result ≡ exchanged taken sent up }
{
    match (taken, sent) {
        (None, None) => None,
        (None, Some(sent)) => Some(Exchanged::Sent(sent)),
        (Some(taken), sent) => {
            if up {
                Some(Exchanged::Took(taken, sent))
            } else {
                Some(Exchanged::Broke(taken))
            }
        }
    }
}

// That traffic in the epoch.
fn traffic_in(epoch: u64, done: Option<Exchanged>) -> Option<Traffic>
    ensures { result ≡ in_epoch epoch done }
{
    match done {
        Some(done) => Some(Traffic { epoch, done }),
        None => None,
    }
}
