//! Beginning a session.
ghost use Rattle.std.specs.Prelude.{◌≡◌, ◌≢◌, true, false, Some, IsSome, IfOk, IfErr, IsErrOf, OnOk, OnErr, Err};
ghost use Rattle.std.specs.FinMap as map;
ghost use Rattle.bep_links.specs.Side.{end_at};
ghost use Rattle.bep_machine.specs.declared.message.Message.TheVariants as messages;
ghost use Rattle.bep_machine.specs.Exchange.{BeginRow};
ghost use Rattle.bep_machine.specs.Link.{end_of, sight_of, sending, after_deed};
ghost use Rattle.bep_machine.specs.Peer.{idle, new_session};
ghost use Rattle.bep_peer.specs.inner.ClusterConfig.{config_of};
ghost use Rattle.bep_peer.specs.Lent.{NamesNone, StepOver, OnlySessions, IsOpenTo, with_before};
ghost use Rattle.bep_peer.specs.Member.{Remains, tables_of, untold};
ghost use Rattle.bep_peer.specs.PeerError.{Gives};
ghost use Rattle.bep_peer.specs.Unhidden.{IsUnrefused};
ghost use Rattle.bep_peer.specs.declared.error.PeerError.TheVariants.{Memory};

use crate::over::{config_for, is_full, send_copied, side_of};
use crate::{Peer, PeerError, Session};
use bep_links::{Link, Side};
use bep_machine::{Message, Moved, Refusal};
use bep_map::DeviceMap;
use bep_record::{DeviceId, Items};
use bep_store::Store;
use std::alloc::Global;

impl<S: Store> Peer<S> {
    /// Begins a session over the link, in place of an older one, and sends the other device a ClusterConfig. Refuses, in
    /// this order, `NotShared` where the link isn't one of the device's, `LinkDown`, `NothingToDo` where there is a
    /// session of the link's epoch, and `LinkFull`; else only for want of memory, which hides none of these. After an error
    /// all is as before.
    ///
    /// BEP v1, 'Cluster Config'.
    pub fn begin(&mut self, link: &mut Link) -> Result<Moved, PeerError>
        ensures step { Gives (StepOver BeginRow NamesNone (record { member = self.old; link = link.old })) (record { member = self.new; link = link.new }) result }
        ensures unhidden { IsErrOf result PeerError.Memory → IsUnrefused BeginRow NamesNone (record { member = self.old; link = link.old }) }
        ensures rest { Remains self.old self.new }
        ensures only { OnlySessions self.old self.new }
        ensures err { OnErr result ((self.new ≡ untold self.old) × (link.new ≡ link.old)) }
    {
        self.tell_nothing();
        let Some(other) = self.across(link) else {
            return Err(PeerError::Refused(Refusal::NotShared));
        };
        self.may_begin(link, other)?;
        self.open_session(link, other)?;
        Ok(Moved::Changed)
    }

    // The first refusal of a new session that is due.
    fn may_begin(&self, link: &Link, other: DeviceId) -> Result<(), PeerError>
        ensures ok { OnOk result (IsOpenTo other (sight_of (end_of self.now.number other) link.now.link) (tables_of self.now)) }
        ensures refused { IfErr result (λ e. Gives (BeginRow other (sight_of (end_of self.now.number other) link.now.link) (tables_of self.now)) (idle (tables_of self.now)) (Err e)) }
        ensures only { IfErr result (λ e. e ≢ Memory) }
    {
        if !link.is_up() {
            return Err(PeerError::Refused(Refusal::LinkDown));
        }
        if self.current(link, other).is_some() {
            return Err(PeerError::Refused(Refusal::NothingToDo));
        }
        if is_full(link, side_of(self.number, other)) {
            return Err(PeerError::Refused(Refusal::LinkFull));
        }
        Ok(())
    }

    // Opens the session, where nothing forbids it. It fails only for want of memory, and then all is as before.
    fn open_session(&mut self, link: &mut Link, other: DeviceId) -> Result<(), PeerError>
        requires { IsOpenTo other (sight_of (end_of self.old.number other) link.old.link) (tables_of self.old) }
        ensures ok { OnOk result (let message = messages.ClusterConfig (config_of other self.old.folders) in (self.new ≡ record self.old { sessions = map.insert self.old.sessions other (new_session link.old.link.epoch); trace = record self.old.trace { put = Some (message, message) } }) × (link.new ≡ record link.old { link = after_deed (end_of self.old.number other) (sending message) link.old.link })) }
        ensures only { IfErr result (λ e. e ≡ Memory) }
        ensures err { OnErr result ((self.new ≡ self.old) × (link.new ≡ link.old)) }
    {
        let named = Items::new(config_for(self.alloc, &self.folders, other)?);
        let session = Session::new(self.alloc, link.epoch())?;
        let told = give_and_send(
            &mut self.sessions,
            self.alloc,
            other,
            session,
            link,
            side_of(self.number, other),
            Message::ClusterConfig(named),
        )?;
        self.trace.tell_sent(Some(told));
        Ok(())
    }
}

// Opens the session with the other device, sends the message and answers two copies of it; or does nothing.
fn give_and_send(
    sessions: &mut DeviceMap<Session>,
    alloc: Global,
    other: DeviceId,
    session: Session,
    link: &mut Link,
    side: Side,
    message: Message,
) -> Result<(Message, Message), PeerError>
    requires up { link.old.link.up ≡ true }
    requires room { (sight_of (end_at side) link.old.link).full ≡ false }
    ensures copied { IfOk result (λ told. told ≡ (message, message)) }
    ensures ok { OnOk result ((sessions.new ≡ map.insert sessions.old other session) × (link.new ≡ record link.old { link = after_deed (end_at side) (sending message) link.old.link })) }
    ensures only { IfErr result (λ e. e ≡ Memory) }
    ensures err { OnErr result ((sessions.new ≡ sessions.old) × (link.new ≡ link.old)) }
{
    let before = sessions.insert(other, session)?;
    match send_copied(alloc, link, side, message) {
        Ok(told) => Ok(told),
        Err(error) => {
            give_back(sessions, other, before);
            Err(error)
        }
    }
}

// Puts back the session that there was with the other device, if there was one.
fn give_back(sessions: &mut DeviceMap<Session>, other: DeviceId, before: Option<Session>)
    requires { IsSome (map.get sessions.old other) }
    ensures { sessions.new ≡ with_before sessions.old other before }
{
    match before {
        Some(session) => {
            let _new = sessions.replace(other, session);
        }
        None => {
            let _new = sessions.remove(other);
        }
    }
}
