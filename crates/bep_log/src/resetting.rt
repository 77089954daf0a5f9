//! Starting over with empty indexes, under one ticket: the device by itself, and each of its links by itself.
ghost use Rattle.bep_log.specs.Restart.{LinkResets, Resets};

use crate::event::event_in_folder;
use crate::{LogError, LoggedLink, LoggedPeer};
use bep_index::IndexId;
use bep_machine::{Refusal, Step, actions_are_told};
use bep_record::DeviceId;
use bep_store::Store;

impl<S: Store> LoggedPeer<S> {
    /// The device starts over with empty indexes under this id, as `Peer::reset` does, under a ticket. Each of its links, up
    /// or down, has to be reset under the same ticket. Refuses `TicketOld` where the ticket isn't above the last one, then
    /// `LogFull` where the log has 65536 events, then `IndexIdOld` where the id isn't above that of each index of the device;
    /// else only for want of memory for its event. Then nothing changed, and nothing was logged.
    pub fn reset(&mut self, ticket: u64, id: IndexId) -> Result<(), LogError>
        ensures logs { Resets id ticket self.old self.new result }
    {
        // the event that is logged makes the step that was made
        actions_are_told();
        self.history.open(ticket)?;
        match self.peer.reset(id) {
            Err(_) => Err(LogError::Refused(Refusal::IndexIdOld)),
            Ok(()) => {
                let event = event_in_folder(Step::Reset(self.peer.number(), id), None, false);
                self.history.tell(ticket, event);
                Ok(())
            }
        }
    }
}

impl LoggedLink {
    /// The device at one end of the link starts over with empty indexes under this id, under a ticket: the link is lost if it
    /// is up. The device itself is to be reset first, since a link can't know whether the id is refused. Refuses `TicketOld`
    /// where the ticket isn't above the last one, then `LogFull` where the log has 65536 events, then `NotShared` where the
    /// device is at no end of the link; else only for want of memory for its event. Then nothing changed.
    pub fn reset(&mut self, ticket: u64, device: DeviceId, id: IndexId) -> Result<(), LogError>
        ensures logs { LinkResets device id ticket self.old self.new result }
    {
        // the event that is logged makes the step that was made
        actions_are_told();
        self.leave(ticket, device, Step::Reset(device, id))
    }
}
