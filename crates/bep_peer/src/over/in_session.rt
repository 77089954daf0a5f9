//! The session in which a device acts over a link.
ghost use Rattle.std.specs.Prelude.{◌≢◌, IfErr, IfOk, Err};
ghost use Rattle.bep_machine.specs.Exchange.{SessionRow};
ghost use Rattle.bep_machine.specs.Link.{end_of, sight_of};
ghost use Rattle.bep_machine.specs.Peer.{idle};
ghost use Rattle.bep_peer.specs.inner.InSession.{IsOver, NothingDone};
ghost use Rattle.bep_peer.specs.Member.{tables_of};
ghost use Rattle.bep_peer.specs.PeerError.{Gives};

use crate::{Peer, PeerError, Session};
use bep_links::Link;
use bep_machine::Refusal;
use bep_record::DeviceId;
use bep_store::Store;

impl<S: Store> Peer<S> {
    // The session with the other device over the link, or the first refusal that is due: `LinkDown`, then `NotBegun`.
    pub(crate) fn must_be_in_session(
        &self,
        link: &Link,
        other: DeviceId,
    ) -> Result<&Session, PeerError>
        ensures ok { IfOk result (λ session. IsOver other (sight_of (end_of self.now.number other) link.now.link) (tables_of self.now) session.now) }
        ensures refused { IfErr result (λ e. Gives (SessionRow other (sight_of (end_of self.now.number other) link.now.link) (tables_of self.now) NothingDone) (idle (tables_of self.now)) (Err e)) }
        ensures only { IfErr result (λ e. e ≢ PeerError.Memory) }
    {
        if !link.is_up() {
            return Err(PeerError::Refused(Refusal::LinkDown));
        }
        match self.current(link, other) {
            Some(session) => Ok(session),
            None => Err(PeerError::Refused(Refusal::NotBegun)),
        }
    }
}
