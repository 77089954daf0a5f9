//! What a device does over a link, under a ticket.
ghost use Rattle.std.specs.Prelude.{◌≡◌, true, OnOk, IfErr, option_map};
ghost use Rattle.bep_log.specs.ActsOver.{LogsOver, WhyNotBoth};
ghost use Rattle.bep_log.specs.History.{MayLog, last_with, with_events};
ghost use Rattle.bep_log.specs.Over.{doing_of};

use crate::error::answered;
use crate::history::History;
use crate::over::Over;
use crate::ready::events;
use crate::{LogError, LoggedLink, LoggedPeer};
use bep_machine::{Logged, Moved, actions_are_told};
use bep_store::Store;

impl<S: Store> LoggedPeer<S> {
    // Makes the action, and logs its event in both logs.
    pub(crate) fn act_over(
        &mut self,
        ticket: u64,
        link: &mut LoggedLink,
        action: Over<'_>,
    ) -> Result<Moved, LogError>
        ensures { LogsOver (doing_of action.entry) ticket self.old self.new link.old link.new result }
    {
        // each event that is logged makes the step that was made
        actions_are_told();
        open_both(&mut self.history, &mut link.history, ticket)?;
        let mine = action.ready(self.alloc, self.peer.number(), &link.link)?;
        let its = action.ready(self.alloc, self.peer.number(), &link.link)?;
        let answer = action.make(&mut self.peer, &mut link.link);
        let told = self.peer.take_trace();
        let events = events(mine, its, &answer, told, link.link.is_up());
        tell_both(&mut self.history, &mut link.history, ticket, events);
        answered(answer)
    }
}

// Whether an event can be made under the ticket in both logs, and memory for it.
fn open_both(device: &mut History, link: &mut History, ticket: u64) -> Result<(), LogError>
    ensures device { OnOk result (MayLog ticket device.old.log device.old.last × (device.new.room ≡ true)) }
    ensures link { OnOk result (MayLog ticket link.old.log link.old.last × (link.new.room ≡ true)) }
    ensures why { IfErr result (λ e. WhyNotBoth ticket device.old.log device.old.last link.old.log link.old.last e) }
    ensures same { device.new ≡ record device.old { room = device.new.room } }
    ensures unmoved { link.new ≡ record link.old { room = link.new.room } }
{
    if !device.is_below(ticket) || !link.is_below(ticket) {
        return Err(LogError::TicketOld);
    }
    if device.is_full() || link.is_full() {
        return Err(LogError::LogFull);
    }
    device.reserve()?;
    link.reserve()?;
    Ok(())
}

// The events were made under the ticket, if there are any: the first goes into the device's log, the other into the link's.
fn tell_both(
    device: &mut History,
    link: &mut History,
    ticket: u64,
    events: Option<(Logged, Logged)>,
)
    requires device { MayLog ticket device.old.log device.old.last }
    requires device_room { device.old.room ≡ true }
    requires link { MayLog ticket link.old.log link.old.last }
    requires link_room { link.old.room ≡ true }
    ensures log { device.new.log ≡ with_events device.old.log ticket (option_map (λ both. both.0) events) }
    ensures round { device.new.round ≡ device.old.round }
    ensures last { device.new.last ≡ last_with device.old.last ticket (option_map (λ both. both.0) events) }
    ensures link_log { link.new.log ≡ with_events link.old.log ticket (option_map (λ both. both.1) events) }
    ensures link_round { link.new.round ≡ link.old.round }
    ensures link_last { link.new.last ≡ last_with link.old.last ticket (option_map (λ both. both.1) events) }
{
    if let Some((one, other)) = events {
        device.tell(ticket, one);
        link.tell(ticket, other);
    }
}
