//! Starting again, under one ticket: the device by itself, and each of its links by itself.
ghost use Rattle.std.specs.Prelude.{◌≡◌, ◌⊎◌, ◌↔◌, IsTrue};
ghost use Rattle.bep_log.specs.Restart.{LinkLeaves, LinkRestarts, Restarts};
ghost use Rattle.bep_log.specs.inner.Leaving.{LosesLinks};
ghost use Rattle.bep_machine.specs.Link.{lost};

use crate::event::event_in_folder;
use crate::{LogError, LoggedLink, LoggedPeer};
use bep_links::Link;
use bep_machine::{Refusal, Step, actions_are_told};
use bep_record::DeviceId;
use bep_store::Store;

impl<S: Store> LoggedPeer<S> {
    /// The device starts again, as `Peer::restart` does, under a ticket. Each of its links, up or down, has to be restarted
    /// under the same ticket. Refuses `TicketOld` where the ticket isn't above the last one, then `LogFull` where the log has
    /// 65536 events; else only for want of memory for its event. Then nothing changed.
    pub fn restart(&mut self, ticket: u64) -> Result<(), LogError>
        ensures logs { Restarts ticket self.old self.new result }
    {
        // the event that is logged makes the step that was made
        actions_are_told();
        self.history.open(ticket)?;
        self.peer.restart();
        let event = event_in_folder(Step::Restart(self.peer.number()), None, false);
        self.history.tell(ticket, event);
        Ok(())
    }
}

impl LoggedLink {
    /// The device at one end of the link starts again, under a ticket: the link is lost if it is up. Refuses `TicketOld` where
    /// the ticket isn't above the last one, then `LogFull` where the log has 65536 events, then `NotShared` where the device
    /// is at no end of the link; else only for want of memory for its event. Then nothing changed.
    pub fn restart(&mut self, ticket: u64, device: DeviceId) -> Result<(), LogError>
        ensures logs { LinkRestarts device ticket self.old self.new result }
    {
        // the event that is logged makes the step that was made
        actions_are_told();
        self.leave(ticket, device, Step::Restart(device))
    }

    // The device at one end of the link leaves all its links in this step, under a ticket: the link is lost if it is up.
    pub(crate) fn leave(
        &mut self,
        ticket: u64,
        device: DeviceId,
        step: Step,
    ) -> Result<(), LogError>
        requires { LosesLinks device step }
        ensures logs { LinkLeaves step device ticket self.old self.new result }
    {
        self.history.open(ticket)?;
        if !is_end(&self.link, device) {
            return Err(LogError::Refused(Refusal::NotShared));
        }
        go_down(&mut self.link);
        let event = event_in_folder(step, None, false);
        self.history.tell(ticket, event);
        Ok(())
    }
}

// Whether the device is at an end of the link.
fn is_end(link: &Link, device: DeviceId) -> bool
    ensures { IsTrue result ↔ ((device ≡ link.now.ends.0) ⊎ (device ≡ link.now.ends.1)) }
{
    let (lower, upper) = link.ends();
    device == lower || device == upper
}

// The link goes down; one that is down stays so.
fn go_down(link: &mut Link)
    ensures { link.new ≡ record link.old { link = lost link.old.link } }
{
    if link.is_up() {
        let _lost = link.lose();
    }
}
