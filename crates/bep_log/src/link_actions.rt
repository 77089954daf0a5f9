//! What a device does over a link, under a ticket: it begins sessions, takes messages, announces records and asks for blocks.
//!
//! Each call refuses `TicketOld` where the ticket isn't above the last one of both logs, and then `LogFull` where one of them
//! has 65536 events; then it refuses what the device's call refuses. What is done adds one event to each of the two logs, the
//! one that happened, with the very messages that were taken and sent. Anything else adds none, and leaves both as they were.
ghost use Rattle.bep_log.specs.ActsOver.{LogsOver};
ghost use Rattle.bep_log.specs.Over.{announces, asks, begins, delivers};

use crate::over::Over;
use crate::{LogError, LoggedLink, LoggedPeer};
use bep_machine::Moved;
use bep_record::{FolderName, Name};
use bep_store::Store;

impl<S: Store> LoggedPeer<S> {
    /// Begins a session over the link, as `Peer::begin` does.
    pub fn begin(&mut self, ticket: u64, link: &mut LoggedLink) -> Result<Moved, LogError>
        ensures logs { LogsOver begins ticket self.old self.new link.old link.new result }
    {
        self.act_over(ticket, link, Over::Begin)
    }

    /// Takes the first message that came over the link, as `Peer::deliver` does.
    pub fn deliver(&mut self, ticket: u64, link: &mut LoggedLink) -> Result<Moved, LogError>
        ensures logs { LogsOver delivers ticket self.old self.new link.old link.new result }
    {
        self.act_over(ticket, link, Over::Deliver)
    }

    /// Sends the next records of the folder over the link, as `Peer::announce` does.
    pub fn announce(
        &mut self,
        ticket: u64,
        link: &mut LoggedLink,
        folder: &FolderName,
    ) -> Result<Moved, LogError>
        ensures logs { LogsOver (announces folder.now) ticket self.old self.new link.old link.new result }
    {
        self.act_over(ticket, link, Over::Announce(folder))
    }

    /// Asks over the link for the next block of the name's pull, as `Peer::ask` does.
    pub fn ask(
        &mut self,
        ticket: u64,
        link: &mut LoggedLink,
        folder: &FolderName,
        name: &Name,
    ) -> Result<Moved, LogError>
        ensures logs { LogsOver (asks folder.now name.now) ticket self.old self.new link.old link.new result }
    {
        self.act_over(ticket, link, Over::Ask(folder, name))
    }
}
