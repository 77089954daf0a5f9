//! Asking another device for a block of a file.
ghost use Rattle.std.specs.Prelude.{◌≡◌, ◌↔◌, false, Some, IsTrue, IfOk, IfErr, IfSome, IfNone, IsErrOf, OnErr};
ghost use Rattle.std.specs.Option.{option_copied};
ghost use Rattle.std.specs.FinMap as map;
ghost use Rattle.bep_record.specs.declared.block.Block.{Block as BlockOf};
ghost use Rattle.bep_folder.specs.Unhidden.{RefusesNone};
ghost use Rattle.bep_machine.specs.declared.message.Message.TheVariants as messages;
ghost use Rattle.bep_machine.specs.Exchange.{AskRow, CanAsk, SharesWith, next_block, request_for};
ghost use Rattle.bep_machine.specs.Link.{end_of, sight_of};
ghost use Rattle.bep_machine.specs.Peer.{Session as SessionOf};
ghost use Rattle.bep_machine.specs.Replica.{viewed_at};
ghost use Rattle.bep_peer.specs.inner.InSession.{IsNextAsked, IsOffered, MayRefuse};
ghost use Rattle.bep_peer.specs.Lent.{NamesFolder, StepOver, OnlySessions};
ghost use Rattle.bep_peer.specs.Member.{Remains, tables_of, untold};
ghost use Rattle.bep_peer.specs.PeerError.{Gives};
ghost use Rattle.bep_peer.specs.Session.{IsNext, with_request};
ghost use Rattle.bep_peer.specs.Unhidden.{GoesOn, IsUnrefused};

use crate::over::{is_full, side_of};
use crate::{Peer, PeerError, Session};
use bep_folder::{Pull, Replica, has_content_of};
use bep_links::Link;
use bep_machine::{Message, Moved, Refusal, Request};
use bep_map::DeviceMap;
use bep_record::{Block, DeviceId, FolderName, Name, Record};
use bep_store::Store;
use std::alloc::{AllocError, Global};

impl<S: Store> Peer<S> {
    /// Asks the other device at the link for the first block of the name's pull that is neither received nor asked for in
    /// this session. Refuses, in this order, `NotShared` where the link isn't one of the device's or the two don't share
    /// the folder, `LinkDown`, `NotBegun` where there is no session of the link's epoch, `NothingToDo` where there is no
    /// pull or no such block, the own record has the target's content, no more requests can be made, or the other device
    /// isn't known to have the target's content, and `LinkFull`; else only for want of memory, which hides none of these.
    /// After an error all is as before.
    ///
    /// BEP v1, 'Request'; the limits are this project's profile.
    pub fn ask(
        &mut self,
        link: &mut Link,
        folder: &FolderName,
        name: &Name,
    ) -> Result<Moved, PeerError>
        ensures step { Gives (StepOver (λ other. AskRow other folder.now name.now) (NamesFolder folder.now) (record { member = self.old; link = link.old })) (record { member = self.new; link = link.new }) result }
        ensures unhidden { IsErrOf result PeerError.Memory → IsUnrefused (λ other. AskRow other folder.now name.now) (NamesFolder folder.now) (record { member = self.old; link = link.old }) }
        ensures rest { Remains self.old self.new }
        ensures only { OnlySessions self.old self.new }
        ensures err { OnErr result ((self.new ≡ untold self.old) × (link.new ≡ link.old)) }
    {
        self.tell_nothing();
        let Some(other) = self.sharing(link, folder) else {
            return Err(PeerError::Refused(Refusal::NotShared));
        };
        let (request, message) = self.next_asked(link, other, folder, name)?;
        self.send_told(link, other, message)?;
        self.keep_request(other, request);
        Ok(Moved::Changed)
    }

    // The next request for a block of the file, with its message; or the first refusal that is due.
    fn next_asked(
        &self,
        link: &Link,
        other: DeviceId,
        folder: &FolderName,
        name: &Name,
    ) -> Result<(Request, Message), PeerError>
        requires { SharesWith other (tables_of self.now) folder.now }
        ensures ok { IfOk result (λ next. IsNextAsked other folder.now name.now (sight_of (end_of self.now.number other) link.now.link) (tables_of self.now) next.0 next.1) }
        ensures refused { IfErr result (λ e. MayRefuse (AskRow other folder.now name.now (sight_of (end_of self.now.number other) link.now.link) (tables_of self.now)) (tables_of self.now) e) }
        ensures unhidden { GoesOn result → RefusesNone (AskRow other folder.now name.now (sight_of (end_of self.now.number other) link.now.link) (tables_of self.now)) }
    {
        let session = self.must_be_in_session(link, other)?;
        let Some(replica) = self.folders.get(folder) else {
            return Err(PeerError::Refused(Refusal::NotShared));
        };
        let Some(block) = block_to_ask(session, replica, other, folder, name) else {
            return Err(PeerError::Refused(Refusal::NothingToDo));
        };
        if is_full(link, side_of(self.number, other)) {
            return Err(PeerError::Refused(Refusal::LinkFull));
        }
        Ok(request_for(self.alloc, session, folder, name, &block)?)
    }

    // The request was sent: it is outstanding from now on.
    fn keep_request(&mut self, other: DeviceId, request: Request)
        requires { (session : SessionOf) × (map.get self.old.sessions other ≡ Some session) × IsNext session request }
        ensures { (session : SessionOf) → map.get self.old.sessions other ≡ Some session → IsNext session request → self.new ≡ record self.old { sessions = map.insert self.old.sessions other (with_request session request) } }
    {
        ask_in(&mut self.sessions, other, request);
    }
}

// The session's next request for the block, with its message.
fn request_for(
    alloc: Global,
    session: &Session,
    folder: &FolderName,
    name: &Name,
    block: &Block,
) -> Result<(Request, Message), AllocError>
    ensures request { IfOk result (λ next. next.0 ≡ request_for session.now folder.now name.now block.now) }
    ensures message { IfOk result (λ next. next.1 ≡ messages.Request next.0) }
{
    let request = session.next_request(alloc, folder, name, block)?;
    let message = Message::Request(request.copy(alloc)?);
    Ok((request, message))
}

// The request was sent to the other device.
fn ask_in(sessions: &mut DeviceMap<Session>, other: DeviceId, request: Request)
    ensures { (session : SessionOf) → map.get sessions.old other ≡ Some session → IsNext session request → sessions.new ≡ map.insert sessions.old other (with_request session request) }
{
    if let Some(session) = sessions.get_mut(other) {
        let _asked = session.ask(request);
    }
}

// The block for which the other device can be asked.
fn block_to_ask<S: Store>(
    session: &Session,
    replica: &Replica<S>,
    other: DeviceId,
    folder: &FolderName,
    name: &Name,
) -> Option<Block>
    ensures some { IfSome result (λ block. CanAsk other folder.now name.now session.now replica.now.tables block) }
    ensures none { IfNone result ((block : BlockOf) → ¬ CanAsk other folder.now name.now session.now replica.now.tables block) }
{
    let Some(pull) = replica.pull(name) else {
        return None;
    };
    if !session.can_ask() {
        return None;
    }
    if has_content_of(replica.index().get(name), pull.target()) {
        return None;
    }
    if !is_offered(replica, other, name, pull.target()) {
        return None;
    }
    next_block(session, folder, name, pull)
}

// Whether the other device is known to have the target's content, not marked invalid.
fn is_offered<S: Store>(replica: &Replica<S>, other: DeviceId, name: &Name, target: &Record) -> bool
    ensures { IsTrue result ↔ IsOffered other name.now replica.now.tables target.now }
{
    match viewed(replica, other, name) {
        Some(found) => !found.entry().invalid && found.same_content(target),
        None => false,
    }
}

// The record that the other device is known to have under the name.
fn viewed<'a, S: Store>(replica: &'a Replica<S>, other: DeviceId, name: &Name) -> Option<&'a Record>
    ensures { option_copied result ≡ viewed_at replica.now.tables other name.now }
{
    match replica.view(other) {
        Some(view) => view.get(name),
        None => None,
    }
}

// The first block that is neither received nor asked for in the session.
fn next_block(session: &Session, folder: &FolderName, name: &Name, pull: &Pull) -> Option<Block>
    ensures { result ≡ next_block session.now folder.now name.now pull.now.target.blocks pull.now.received }
{
    for (place, block) in pull.target().entry().blocks.as_slice().iter().enumerate() {
        if !pull.is_received(place) && !session.is_asked(folder, name, block) {
            return Some(*block);
        }
    }
    None
}
