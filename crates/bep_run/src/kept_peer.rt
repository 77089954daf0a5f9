//! A device behind its lock.
ghost use Rattle.std.specs.Prelude.{◌≡◌, [], IfErr, IfOk, OnOk, Some, true};
ghost use Rattle.bep_cut.specs.Cut.{seen};
ghost use Rattle.bep_fit.specs.declared.object.Object.TheVariants.{Device};
ghost use Rattle.bep_log.specs.Copies.{IsCopied};
ghost use Rattle.bep_peer.specs.Contents.{NamesIn};
ghost use Rattle.bep_peer.specs.Member.{tables_of};
ghost use Rattle.bep_peer.specs.Within.{FindsWithin};
ghost use Rattle.bep_run.specs.inner.Kept.{IsSeated};
ghost use Rattle.bep_run.specs.inner.Looking.{IsOfCopy};
ghost use Rattle.bep_run.specs.Origin.{at_place, devices_in};
ghost use Rattle.bep_run.specs.Quiet.{quiet_log};
ghost use Rattle.bep_run.specs.Why.{IsOfCopies, IsOfStores};

use crate::Origin;
use bep_history::Chair;
use bep_log::{LogError, LoggedPeer, PeerCopy};
use bep_machine::Refusal;
use bep_map::NameMap;
use bep_peer::{Peer, PeerError};
use bep_record::{FolderName, Name, Node};
use bep_store::Store;
use std::alloc::Global;
use std::marker::Model;

/// A device with its log, its place among the devices of its cluster, and its seat of the cluster's history, if there is one.
/// Contracts see the device with its log.
///
/// Where it is known how the cluster began, what the device was when its log began is what stood at that place, and no event
/// is a local step or a reset. Where there is a history, the log has just those of its events that touch the device.
pub(crate) struct KeptPeer<S: Store, O: Origin> {
    place: usize,
    pub(crate) logged: LoggedPeer<S>,
    pub(crate) seat: Chair<O>,
}

// By hand: a caller's proof then sees one call where it lets go of one, and not each field (docs/developing.md).
impl<S: Store, O: Origin> Drop for KeptPeer<S, O> {
    fn drop(self) {
        let KeptPeer {
            place: _,
            logged: _,
            seat: _,
        } = self;
    }
}

impl<S: Store, O: Origin> Model for KeptPeer<S, O> {
    ghost use Rattle.bep_record.specs.contracts.folder_kind.FolderKind as folder_kind;
    ghost use Rattle.bep_record.specs.contracts.entry.Entry as entry;
    ghost use Rattle.bep_record.specs.contracts.node.NodeParts as parts;
    ghost use Rattle.bep_index.specs.contracts.send.Plan as plan;
    ghost use Rattle.bep_machine.specs.contracts.message.Request as request;
    ghost use Rattle.bep_folder.specs.Held.{held_code};
    ghost use Rattle.bep_peer.specs.Session.{session_code};
    ghost use Rattle.bep_peer.specs.Member.{member_code};
    ghost use Rattle.bep_peer.specs.contracts.trace.Trace as trace;
    ghost use Rattle.bep_fit.specs.contracts.stamped.Stamped as stamped;
    ghost use Rattle.bep_log.specs.LoggedPeer.{LoggedMember, logged_code};
    ghost use Rattle.bep_run.specs.inner.Kept.{IsKeptDevice};

    ghost Value = { LoggedMember };

    ghost coded = { logged_code (member_code (held_code folder_kind.the_row.coded entry.the_row.coded parts.the_row.coded) (session_code plan.the_row.coded request.the_row.coded) trace.the_row.coded) stamped.the_row.coded };

    ghost view = { λ inside. inside.logged };

    ghost invariant = { λ inside. IsKeptDevice O.start O.table inside.place inside.logged inside.seat };
}

impl<S: Store, O: Origin> KeptPeer<S, O> {
    // The device, which stands at this place, with an empty log, as `LoggedPeer::new` makes it.
    #[tactic(auto, using(crate::proofs::Begins::new_stands, crate::proofs::Tickets::none_taken))]
    pub(crate) fn new(
        alloc: Global,
        place: usize,
        peer: Peer<S>,
        seat: Chair<O>,
    ) -> Result<Self, LogError>
        requires stands { at_place (devices_in O.start) place (seen peer) ≡ Some (seen peer) }
        requires seated { IsSeated O.table (Device peer.number) 0 [] seat }
        ensures only { IfErr result (IsOfStores S.faults) }
    {
        let logged = LoggedPeer::new(alloc, peer)?;
        Ok(KeptPeer {
            place,
            logged,
            seat,
        })
    }

    // The device as it is.
    pub(crate) fn peer(&self) -> &Peer<S>
        ensures { result.now ≡ self.now.now }
    {
        self.logged.peer()
    }

    // The names of the folder's store and of the own records.
    pub(crate) fn names(&mut self, folder: &FolderName) -> Result<NameMap<()>, PeerError>
        ensures read { NamesIn folder.now self.old.now self.new.now result }
        ensures same { tables_of self.new.now ≡ tables_of self.old.now }
    {
        self.logged.names(folder)
    }

    // What the folder's store has at the name.
    pub(crate) fn look(
        &mut self,
        folder: &FolderName,
        name: &Name,
    ) -> Result<Option<Node>, PeerError>
        ensures found { FindsWithin folder.now name.now self.old.now self.new.now result }
        ensures same { tables_of self.new.now ≡ tables_of self.old.now }
    {
        self.logged.look(folder, name)
    }

    // A copy of it, as `LoggedPeer::copy` makes it; or `NotShared` if it stands at another place.
    #[tactic(auto, using(crate::proofs::Begins::copy_stands, crate::proofs::Begins::still_stands))]
    pub(crate) fn copy(&mut self, place: usize) -> Result<PeerCopy, LogError>
        ensures began { IfOk result (λ copy. at_place (devices_in O.start) place (seen copy.base) ≡ Some (seen copy.base)) }
        ensures quiet { IfOk result (λ copy. quiet_log O.start copy.log ≡ true) }
        ensures only { IfErr result (IsOfCopies S.faults) }
        ensures fault { IfErr result (IsOfCopy self.new.now.trace.failed) }
    {
        if self.place != place {
            return Err(LogError::Refused(Refusal::NotShared));
        }
        // called for its clause: the base has the device's number
        self.logged.log_replays();
        copy_logged(&mut self.logged)
    }

    // A copy of it, as `copy` makes it, and its seat, which knows the copy's log.
    #[tactic(auto, using(crate::proofs::Begins::copy_stands))]
    pub(crate) fn into_copy(self, place: usize) -> Result<(PeerCopy, Chair<O>), LogError>
        ensures began { IfOk result (λ end. at_place (devices_in O.start) place (seen end.0.base) ≡ Some (seen end.0.base)) }
        ensures quiet { IfOk result (λ end. quiet_log O.start end.0.log ≡ true) }
        ensures seated { IfOk result (λ end. IsSeated O.table (Device end.0.now.number) end.0.round end.0.log end.1) }
        ensures only { IfErr result (IsOfCopies S.faults) }
    {
        if self.place != place {
            return Err(LogError::Refused(Refusal::NotShared));
        }
        let KeptPeer {
            place: _,
            logged,
            seat,
        } = self;
        let mut logged = logged;
        // called for its clause: the base has the device's number
        logged.log_replays();
        let copy = copy_logged(&mut logged)?;
        Ok((copy, seat))
    }
}

// A copy of the device, as `LoggedPeer::copy` makes it. It also says that stores which never fail didn't.
fn copy_logged<S: Store>(logged: &mut LoggedPeer<S>) -> Result<PeerCopy, LogError>
    ensures copied { IfOk result (IsCopied logged.old) }
    ensures number { logged.new.now.number ≡ logged.old.now.number }
    ensures base { tables_of logged.new.base ≡ tables_of logged.old.base }
    ensures log { logged.new ≡ record logged.old { now = logged.new.now; base = logged.new.base } }
    ensures only { IfErr result (IsOfCopies S.faults) }
    ensures fault { IfErr result (IsOfCopy logged.new.now.trace.failed) }
{
    let copied = logged.copy();
    // called for what its clause says of stores that never fail
    logged.peer().failed();
    copied
}
