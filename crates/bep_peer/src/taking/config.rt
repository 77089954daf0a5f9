//! Taking what the other device says of the folders that both share.
ghost use Rattle.std.specs.Prelude.{◌≡◌, Bool, true, Some, IsSome, IfOk, OnErr};
ghost use Rattle.std.specs.FinMap as map;
ghost use Rattle.bep_machine.specs.Exchange.{MessageRow};
ghost use Rattle.bep_machine.specs.Peer.{Session as SessionOf};
ghost use Rattle.bep_machine.specs.declared.message.Message.TheVariants as messages;
ghost use Rattle.bep_peer.specs.inner.Effect.{SendsNone, Takes};
ghost use Rattle.bep_peer.specs.Member.{Remains, nothing_told, tables_of};

use crate::taking::effect::Effect;
use crate::taking::good_config::cursors_for;
use crate::taking::renew::renew_all;
use crate::{Peer, PeerError, Session};
use bep_index::Plan;
use bep_machine::Announced;
use bep_map::{DeviceMap, FolderMap};
use bep_record::DeviceId;
use bep_store::Store;

impl<S: Store> Peer<S> {
    // Takes a ClusterConfig. One that isn't the session's first breaks the protocol, and so does one that names a folder
    // twice, or a folder that not both devices share.
    pub(crate) fn take_config(
        &mut self,
        other: DeviceId,
        named: &[Announced],
    ) -> Result<Effect, PeerError>
        requires untold { self.old.trace ≡ nothing_told }
        ensures step { (full : Bool) (session : SessionOf) → map.get self.old.sessions other ≡ Some session → Takes (MessageRow other self.new.trace.failed full session (messages.ClusterConfig named.now) (tables_of self.old)) self.old self.new result }
        ensures rest { Remains self.old self.new }
        ensures told { self.new.trace ≡ nothing_told }
        ensures silent { IfOk result SendsNone }
        ensures err { OnErr result (tables_of self.new ≡ tables_of self.old) }
    {
        if !self.can_take(other, named) {
            return Ok(Effect::Lost);
        }
        let cursors = cursors_for(self.alloc, &self.folders, named)?;
        renew_all(&mut self.folders, self.alloc, other, named)?;
        configure(&mut self.sessions, other, cursors);
        Ok(Effect::Taken)
    }
}

// The other device's session knows what is sent next of each folder. It takes no memory.
fn configure(sessions: &mut DeviceMap<Session>, other: DeviceId, cursors: FolderMap<Plan>)
    requires { IsSome (map.get sessions.old other) }
    ensures { (session : SessionOf) → map.get sessions.old other ≡ Some session → sessions.new ≡ map.insert sessions.old other (record session { configured = true; cursors = cursors }) }
{
    match sessions.get_mut(other) {
        Some(session) => session.configure(cursors),
        None => unreachable!(),
    }
}
