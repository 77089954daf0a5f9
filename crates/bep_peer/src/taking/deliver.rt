//! Taking what came over a link.
ghost use Rattle.std.specs.Prelude.{◌≡◌, true, false, Some, IsSome, IfOk, IfErr, IsErrOf, OnErr, drop};
ghost use Rattle.std.specs.FinMap as map;
ghost use Rattle.bep_folder.specs.Unhidden.{RefusesNone};
ghost use Rattle.bep_links.specs.Link.{with_queue_to};
ghost use Rattle.bep_links.specs.Side.{end_at};
ghost use Rattle.bep_machine.specs.Exchange.{DeliverRow, MessageRow, WaitingRow};
ghost use Rattle.bep_machine.specs.Link.{end_of, sight_of, after_deed, queue_to};
ghost use Rattle.bep_machine.specs.Peer.{Session as SessionOf};
ghost use Rattle.bep_peer.specs.Delivered.{TellsRead};
ghost use Rattle.bep_peer.specs.inner.Effect.{TellsAnswer, Takes, deed_of, moved_of};
ghost use Rattle.bep_peer.specs.Lent.{NamesNone, StepOver, twice};
ghost use Rattle.bep_peer.specs.Member.{Remains, nothing_told, tables_of};
ghost use Rattle.bep_peer.specs.PeerError.{Gives};
ghost use Rattle.bep_peer.specs.Unhidden.{GoesOn, IsUnrefused};
ghost use Rattle.bep_peer.specs.declared.error.PeerError.TheVariants.{Memory};

use crate::over::{is_full, send_copied, side_of};
use crate::taking::effect::Effect;
use crate::{Peer, PeerError};
use bep_links::{Link, Side};
use bep_machine::{Message, Moved, Refusal};
use bep_record::DeviceId;
use bep_store::Store;
use std::alloc::Global;

impl<S: Store> Peer<S> {
    /// Takes the first message that came over the link. A ClusterConfig sets what is sent of each folder that it names, an
    /// Index or an IndexUpdate what is known of the other device's folder, a request is answered, and a response brings a
    /// block. A message that breaks the protocol loses the link. Refuses, in this order, `NotShared` where the link isn't
    /// one of the device's, `LinkDown`, `NotBegun` where there is no session of the link's epoch, `NothingToDo` where no
    /// message waits, `IndexFull` where too many names would be known, and `LinkFull` where an answer can't be sent; else
    /// only for want of memory, which hides none of these. After an error all is as before.
    ///
    /// BEP v1, 'Cluster Config', 'Index', 'Index Update', 'Request', 'Response'.
    pub fn deliver(&mut self, link: &mut Link) -> Result<Moved, PeerError>
        ensures step { Gives (StepOver (λ other. DeliverRow other self.new.trace.failed) NamesNone (record { member = self.old; link = link.old })) (record { member = self.new; link = link.new }) result }
        ensures unhidden { IsErrOf result PeerError.Memory → IsUnrefused (λ other. DeliverRow other self.new.trace.failed) NamesNone (record { member = self.old; link = link.old }) }
        ensures rest { Remains self.old self.new }
        ensures fault { TellsRead self.new.trace result }
        ensures uncopied { self.new.trace.copied ≡ false }
        ensures err { OnErr result ((tables_of self.new ≡ tables_of self.old) × (link.new ≡ link.old)) }
    {
        self.tell_nothing();
        let Some(other) = self.across(link) else {
            return Err(PeerError::Refused(Refusal::NotShared));
        };
        self.must_be_in_session(link, other)?;
        let side = side_of(self.number, other);
        let effect = self.take_first(other, link, side)?;
        let (moved, put) = carry_out(self.alloc, link, side, effect)?;
        self.tell_sent(put);
        Ok(moved)
    }

    // Tells what was sent.
    fn tell_sent(&mut self, put: Option<(Message, Message)>)
        ensures { self.new ≡ record self.old { trace = record self.old.trace { put = put } } }
    {
        self.trace.tell_sent(put);
    }

    // Takes the first message on its way to this end.
    fn take_first(&mut self, other: DeviceId, link: &Link, side: Side) -> Result<Effect, PeerError>
        requires untold { self.old.trace ≡ nothing_told }
        ensures step { (session : SessionOf) → map.get self.old.sessions other ≡ Some session → Takes (WaitingRow other self.new.trace.failed (sight_of (end_at side) link.now.link).full session (sight_of (end_at side) link.now.link).waiting (tables_of self.old)) self.old self.new result }
        ensures unhidden { GoesOn result → (session : SessionOf) → map.get self.old.sessions other ≡ Some session → RefusesNone (WaitingRow other self.new.trace.failed (sight_of (end_at side) link.now.link).full session (sight_of (end_at side) link.now.link).waiting (tables_of self.old)) }
        ensures rest { Remains self.old self.new }
        ensures told { TellsAnswer self.new.trace result }
        ensures room { IfOk result (λ effect. IsSome (deed_of effect).sends → (sight_of (end_at side) link.now.link).full ≡ false) }
        ensures same { IfOk result (λ effect. IsSome (deed_of effect).sends → tables_of self.new ≡ tables_of self.old) }
        ensures err { OnErr result (tables_of self.new ≡ tables_of self.old) }
    {
        match link.waiting(side, 0) {
            Some(message) => self.take(other, message, is_full(link, side)),
            None => Err(PeerError::Refused(Refusal::NothingToDo)),
        }
    }

    // Takes the message, over a link on which no message more can be sent where it is full.
    fn take(&mut self, other: DeviceId, message: &Message, full: bool) -> Result<Effect, PeerError>
        requires untold { self.old.trace ≡ nothing_told }
        ensures step { (session : SessionOf) → map.get self.old.sessions other ≡ Some session → Takes (MessageRow other self.new.trace.failed full session message.now (tables_of self.old)) self.old self.new result }
        ensures unhidden { GoesOn result → (session : SessionOf) → map.get self.old.sessions other ≡ Some session → RefusesNone (MessageRow other self.new.trace.failed full session message.now (tables_of self.old)) }
        ensures rest { Remains self.old self.new }
        ensures told { TellsAnswer self.new.trace result }
        ensures room { IfOk result (λ effect. IsSome (deed_of effect).sends → full ≡ false) }
        ensures same { IfOk result (λ effect. IsSome (deed_of effect).sends → tables_of self.new ≡ tables_of self.old) }
        ensures err { OnErr result (tables_of self.new ≡ tables_of self.old) }
    {
        match message {
            Message::ClusterConfig(named) => self.take_config(other, named.as_slice()),
            Message::Index(folder, batch) => self.take_index(other, folder, batch),
            Message::IndexUpdate(folder, batch) => self.take_update(other, folder, batch),
            Message::Request(request) => self.take_request(other, request, full),
            Message::Response(response) => self.take_response(other, response),
        }
    }
}

// Does to the link what the message asks, and answers what was sent, twice. It fails only for want of memory, where an
// answer is sent, and then the link is as before.
fn carry_out(
    alloc: Global,
    link: &mut Link,
    side: Side,
    effect: Effect,
) -> Result<(Moved, Option<(Message, Message)>), PeerError>
    requires up { link.old.link.up ≡ true }
    requires room { IsSome (deed_of effect).sends → (sight_of (end_at side) link.old.link).full ≡ false }
    ensures ok { IfOk result (λ done. (done.0 ≡ moved_of effect) × (done.1 ≡ twice (deed_of effect).sends) × (link.new ≡ record link.old { link = after_deed (end_at side) (deed_of effect) link.old.link })) }
    ensures only { IfErr result (λ e. (e ≡ Memory) × IsSome (deed_of effect).sends) }
    ensures err { OnErr result (link.new ≡ link.old) }
{
    match effect {
        Effect::Taken => {
            forget_first(link, side);
            Ok((Moved::Changed, None))
        }
        Effect::Answered(response) => {
            let told = send_copied(alloc, link, side, Message::Response(response))?;
            forget_first(link, side);
            Ok((Moved::Changed, Some(told)))
        }
        Effect::Lost => match link.lose() {
            Ok(()) => Ok((Moved::LinkLost, None)),
            Err(_) => unreachable!(),
        },
    }
}

// The first message on its way to this end goes.
fn forget_first(link: &mut Link, side: Side)
    ensures { link.new ≡ record link.old { link = with_queue_to (end_at side) (drop 1 (queue_to (end_at side) link.old.link)) link.old.link } }
{
    let _message = link.pop(side);
}
