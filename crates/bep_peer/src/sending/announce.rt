//! Announcing records of a folder to another device.
ghost use Rattle.std.specs.Prelude.{◌≡◌, false, Some, IfOk, IfErr, IsErrOf, OnErr, IsSome};
ghost use Rattle.std.specs.FinMap as map;
ghost use Rattle.bep_folder.specs.Unhidden.{RefusesNone};
ghost use Rattle.bep_machine.specs.declared.moved.Moved.TheVariants.{Changed};
ghost use Rattle.bep_machine.specs.Answer.{Done};
ghost use Rattle.bep_machine.specs.Exchange.{AnnounceRow, IsNamed, ReplicaRow, SendingRow, SharesWith};
ghost use Rattle.bep_machine.specs.Link.{end_of, sight_of, sending};
ghost use Rattle.bep_machine.specs.Peer.{Session as SessionOf, with_session};
ghost use Rattle.bep_peer.specs.inner.InSession.{IsNextAnnounced, MayRefuse, with_sent};
ghost use Rattle.bep_peer.specs.Lent.{NamesFolder, StepOver, OnlySessions};
ghost use Rattle.bep_peer.specs.Member.{Remains, tables_of, untold};
ghost use Rattle.bep_peer.specs.PeerError.{Gives};
ghost use Rattle.bep_peer.specs.Unhidden.{GoesOn, IsUnrefused};

use crate::over::{is_full, side_of};
use crate::sending::batches::{index_message, is_all_sent, next_batch, sent_with};
use crate::{Peer, PeerError, Session};
use bep_index::Plan;
use bep_links::Link;
use bep_machine::{Message, Moved, Refusal};
use bep_map::DeviceMap;
use bep_record::{DeviceId, FolderName};
use bep_store::Store;

impl<S: Store> Peer<S> {
    /// Sends the other device at the link the next 1000 records of the folder's index: an Index at first, also an empty
    /// one, where it doesn't have this index yet; else an IndexUpdate. Refuses, in this order, `NotShared` where the link
    /// isn't one of the device's or the two don't share the folder, `LinkDown`, `NotBegun` where there is no session of
    /// the link's epoch or its ClusterConfig didn't name the folder, `NothingToDo` where all is sent, and `LinkFull`; else
    /// only for want of memory, which hides none of these. After an error all is as before.
    ///
    /// BEP v1, 'Index' and 'Index Update'; the limit is this project's profile.
    pub fn announce(&mut self, link: &mut Link, folder: &FolderName) -> Result<Moved, PeerError>
        ensures step { Gives (StepOver (λ other. AnnounceRow other folder.now) (NamesFolder folder.now) (record { member = self.old; link = link.old })) (record { member = self.new; link = link.new }) result }
        ensures unhidden { IsErrOf result PeerError.Memory → IsUnrefused (λ other. AnnounceRow other folder.now) (NamesFolder folder.now) (record { member = self.old; link = link.old }) }
        ensures rest { Remains self.old self.new }
        ensures only { OnlySessions self.old self.new }
        ensures err { OnErr result ((self.new ≡ untold self.old) × (link.new ≡ link.old)) }
    {
        self.tell_nothing();
        let Some(other) = self.sharing(link, folder) else {
            return Err(PeerError::Refused(Refusal::NotShared));
        };
        let (sequence, message) = self.next_announced(link, other, folder)?;
        self.send_told(link, other, message)?;
        self.keep_sent(other, folder, sequence);
        Ok(Moved::Changed)
    }

    // The next message with records, and the sequence up to which they are sent then; or the first refusal that is due.
    fn next_announced(
        &self,
        link: &Link,
        other: DeviceId,
        folder: &FolderName,
    ) -> Result<(u64, Message), PeerError>
        requires { SharesWith other (tables_of self.now) folder.now }
        ensures ok { IfOk result (λ next. IsNextAnnounced other folder.now (sight_of (end_of self.now.number other) link.now.link) (tables_of self.now) next.0 next.1) }
        ensures refused { IfErr result (λ e. MayRefuse (AnnounceRow other folder.now (sight_of (end_of self.now.number other) link.now.link) (tables_of self.now)) (tables_of self.now) e) }
        ensures unhidden { GoesOn result → RefusesNone (AnnounceRow other folder.now (sight_of (end_of self.now.number other) link.now.link) (tables_of self.now)) }
    {
        let session = self.must_be_in_session(link, other)?;
        match session.cursor(folder) {
            Some(cursor) => self.records_from(cursor, link, other, folder),
            None => Err(PeerError::Refused(Refusal::NotBegun)),
        }
    }

    // The records from the cursor on. What refuses them is tested before anything is allocated.
    fn records_from(
        &self,
        cursor: Plan,
        link: &Link,
        other: DeviceId,
        folder: &FolderName,
    ) -> Result<(u64, Message), PeerError>
        requires { SharesWith other (tables_of self.now) folder.now }
        ensures room { IfOk result (λ next. (sight_of (end_of self.now.number other) link.now.link).full ≡ false) }
        ensures ok { IfOk result (λ next. (session : SessionOf) → ReplicaRow folder.now (tables_of self.now) (SendingRow other folder.now (sight_of (end_of self.now.number other) link.now.link).full session cursor (tables_of self.now)) (record { peer = with_session (tables_of self.now) other (with_sent session folder.now next.0); deed = sending next.1 }) (Done Changed)) }
        ensures refused { IfErr result (λ e. (session : SessionOf) → MayRefuse (ReplicaRow folder.now (tables_of self.now) (SendingRow other folder.now (sight_of (end_of self.now.number other) link.now.link).full session cursor (tables_of self.now))) (tables_of self.now) e) }
        ensures unhidden { GoesOn result → (session : SessionOf) → RefusesNone (ReplicaRow folder.now (tables_of self.now) (SendingRow other folder.now (sight_of (end_of self.now.number other) link.now.link).full session cursor (tables_of self.now))) }
    {
        let Some(replica) = self.folders.get(folder) else {
            return Err(PeerError::Refused(Refusal::NotShared));
        };
        if is_all_sent(cursor, replica.index()) {
            return Err(PeerError::Refused(Refusal::NothingToDo));
        }
        if is_full(link, side_of(self.number, other)) {
            return Err(PeerError::Refused(Refusal::LinkFull));
        }
        let batch = next_batch(self.alloc, replica.index(), cursor)?;
        let named = folder.copy(self.alloc)?;
        let sequence = sent_with(cursor, &batch);
        Ok((sequence, index_message(cursor, named, batch)))
    }

    // The folder's records were sent up to this sequence.
    fn keep_sent(&mut self, other: DeviceId, folder: &FolderName, sequence: u64)
        requires { (session : SessionOf) × (map.get self.old.sessions other ≡ Some session) × IsNamed session folder.now }
        ensures { (session : SessionOf) → map.get self.old.sessions other ≡ Some session → IsNamed session folder.now → self.new ≡ record self.old { sessions = map.insert self.old.sessions other (with_sent session folder.now sequence) } }
    {
        advance(&mut self.sessions, other, folder, sequence);
    }
}

// The folder's records were sent to the other device up to this sequence.
fn advance(sessions: &mut DeviceMap<Session>, other: DeviceId, folder: &FolderName, sequence: u64)
    ensures { (session : SessionOf) → map.get sessions.old other ≡ Some session → IsNamed session folder.now → sessions.new ≡ map.insert sessions.old other (with_sent session folder.now sequence) }
{
    if let Some(session) = sessions.get_mut(other) {
        let _old = session.advance(folder, sequence);
    }
}
