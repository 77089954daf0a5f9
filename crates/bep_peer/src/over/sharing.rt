//! What a device needs to act on a folder over a link, and how it sends.
ghost use Rattle.std.specs.Prelude.{◌≡◌, ◌↔◌, true, false, Some, IsTrue, IfSome, IfNone, IfErr, OnOk, OnErr};
ghost use Rattle.bep_machine.specs.Exchange.{SharesWith};
ghost use Rattle.bep_machine.specs.Link.{end_of, sight_of, sending, after_deed};
ghost use Rattle.bep_peer.specs.Lent.{IsAtHand, Joins, NamesFolder};
ghost use Rattle.bep_peer.specs.Member.{tables_of};
ghost use Rattle.bep_peer.specs.declared.error.PeerError.TheVariants.{Memory};

use crate::over::cluster_config::is_shared_with;
use crate::over::ends::{send_copied, side_of};
use crate::{Peer, PeerError};
use bep_links::Link;
use bep_machine::Message;
use bep_record::{DeviceId, FolderName};
use bep_store::Store;

impl<S: Store> Peer<S> {
    // The other end of the link, if the link is one of the device's and both share the folder.
    pub(crate) fn sharing(&self, link: &Link, folder: &FolderName) -> Option<DeviceId>
        ensures some { IfSome result (λ other. Joins (record { member = self.now; link = link.now }) other × SharesWith other (tables_of self.now) folder.now) }
        ensures none { IfNone result (¬ IsAtHand (NamesFolder folder.now) (record { member = self.now; link = link.now })) }
    {
        let Some(other) = self.across(link) else {
            return None;
        };
        if !self.shares(folder, other) {
            return None;
        }
        Some(other)
    }

    // Whether the device shares the folder with the other one.
    pub(crate) fn shares(&self, folder: &FolderName, other: DeviceId) -> bool
        ensures { IsTrue result ↔ SharesWith other (tables_of self.now) folder.now }
    {
        match self.folders.get(folder) {
            Some(replica) => is_shared_with(replica, other),
            None => false,
        }
    }

    // Sends the message and tells of it. It fails only for want of memory, and then all is as before.
    pub(crate) fn send_told(
        &mut self,
        link: &mut Link,
        other: DeviceId,
        message: Message,
    ) -> Result<(), PeerError>
        requires up { link.old.link.up ≡ true }
        requires room { (sight_of (end_of self.old.number other) link.old.link).full ≡ false }
        ensures ok { OnOk result ((self.new ≡ record self.old { trace = record self.old.trace { put = Some (message, message) } }) × (link.new ≡ record link.old { link = after_deed (end_of self.old.number other) (sending message) link.old.link })) }
        ensures only { IfErr result (λ e. e ≡ Memory) }
        ensures err { OnErr result ((self.new ≡ self.old) × (link.new ≡ link.old)) }
    {
        let side = side_of(self.number, other);
        let told = send_copied(self.alloc, link, side, message)?;
        self.trace.tell_sent(Some(told));
        Ok(())
    }
}
