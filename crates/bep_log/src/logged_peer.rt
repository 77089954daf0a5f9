//! A device with its log.
ghost use Rattle.std.specs.Prelude.{◌≡◌, ◌⊎◌, ◌↔◌, IfOk, IfErr, IsErrOf, IsSome, OnOk, OnErr};
ghost use Rattle.bep_log.specs.History.{IsHistory};
ghost use Rattle.bep_log.specs.LoggedPeer.{IsBegun, IsRebased, IsReplayed, LoggedMember};
ghost use Rattle.bep_log.specs.declared.error.LogError.TheVariants.{Memory, Refused};
ghost use Rattle.bep_machine.specs.declared.refusal.Refusal.TheVariants.{StoreFault};
ghost use Rattle.bep_peer.specs.Member.{Remains, tables_of};
ghost use Rattle.bep_store.specs.Sure.{NeverFails};

use crate::LogError;
use crate::history::History;
use bep_fit::Stamped;
use bep_peer::Peer;
use bep_store::{MemStore, Store};
use std::alloc::Global;
use std::marker::Model;

/// A device with its log: what it was when the log began, and each event since, under a ticket. What it is now is what the
/// events make of what it was.
///
/// The device is changed by the calls of this type alone, and can't be taken out or copied: nothing puts another state of it
/// in its place. This project's profile.
pub struct LoggedPeer<S: Store> {
    pub(crate) peer: Peer<S>,
    pub(crate) base: Peer<MemStore>,
    pub(crate) history: History,
    pub(crate) alloc: Global,
}

// By hand: a caller's proof then sees one call where it lets go of one, and not each field (docs/developing.md).
impl<S: Store> Drop for LoggedPeer<S> {
    fn drop(self) {
        let LoggedPeer {
            peer: _,
            base: _,
            history: _,
            alloc: _,
        } = self;
    }
}

impl<S: Store> Model for LoggedPeer<S> {
    ghost use Rattle.bep_record.specs.contracts.folder_kind.FolderKind as folder_kind;
    ghost use Rattle.bep_record.specs.contracts.entry.Entry as entry;
    ghost use Rattle.bep_record.specs.contracts.node.NodeParts as parts;
    ghost use Rattle.bep_index.specs.contracts.send.Plan as plan;
    ghost use Rattle.bep_machine.specs.contracts.message.Request as request;
    ghost use Rattle.bep_folder.specs.Held.{held_code};
    ghost use Rattle.bep_peer.specs.Session.{session_code};
    ghost use Rattle.bep_peer.specs.Member.{member_code};
    ghost use Rattle.bep_peer.specs.contracts.trace.Trace as trace;
    ghost use Rattle.bep_fit.specs.contracts.stamped.Stamped as stamped;
    ghost use Rattle.bep_log.specs.LoggedPeer.{IsReplayed, LoggedMember, logged_code};

    ghost Value = { LoggedMember };

    ghost coded = { logged_code (member_code (held_code folder_kind.the_row.coded entry.the_row.coded parts.the_row.coded) (session_code plan.the_row.coded request.the_row.coded) trace.the_row.coded) stamped.the_row.coded };

    ghost view = { λ inside. record { now = inside.peer; base = inside.base; log = inside.history.log; round = inside.history.round; last = inside.history.last } };

    ghost invariant = { λ inside. IsReplayed inside.peer inside.base inside.history.log };
}

impl<S: Store> LoggedPeer<S> {
    /// The device with an empty log, in round 0: it is its own base. It is taken for good, after a refusal too. Refuses
    /// `StoreFault` where a store of its fails to list its names or to read one, and never where no store of the kind fails; else
    /// only for want of memory.
    pub fn new(alloc: Global, peer: Peer<S>) -> Result<Self, LogError>
        ensures begun { IfOk result (IsBegun peer) }
        ensures only { IfErr result (λ e. (e ≡ Refused StoreFault) ⊎ (e ≡ Memory)) }
        ensures sure { NeverFails S.faults → ¬ IsErrOf result (Refused StoreFault) }
    {
        let mut peer = peer;
        let copied = peer.copy_out();
        // called for what its clause says of stores that never fail
        peer.failed();
        let base = copied?;
        Ok(LoggedPeer {
            peer,
            base,
            history: History::new(alloc, 0),
            alloc,
        })
    }

    /// The device as it is.
    pub fn peer(&self) -> &Peer<S>
        ensures { result.now ≡ self.now.now }
    {
        &self.peer
    }

    /// The device as it was when the log began, over stores in memory.
    pub fn base(&self) -> &Peer<MemStore>
        ensures { result.now ≡ self.now.base }
    {
        &self.base
    }

    /// The events since, by rising ticket.
    pub fn log(&self) -> &[Stamped]
        ensures value { result.now ≡ self.now.log }
        ensures a_history { IsHistory self.now.log self.now.last }
    {
        self.history.log()
    }

    /// The round in which the log began.
    pub fn round(&self) -> u64
        ensures { result ≡ self.now.round }
    {
        self.history.round()
    }

    /// The ticket of the last event that was logged, in whatever round; 0 before the first.
    pub fn last(&self) -> u64
        ensures { result ≡ self.now.last }
    {
        self.history.last()
    }

    /// The device is what its events make of what it was, and each event touches it. It does nothing.
    pub fn log_replays(&self)
        ensures { IsReplayed self.now.now self.now.base self.now.log }
    {
        self.history.last();
    }

    // What it holds, for copies that are taken apart.
    pub(crate) fn into_parts(self) -> (Peer<S>, Peer<MemStore>, History)
        ensures now { result.0 ≡ self.now }
        ensures base { result.1 ≡ self.base }
        ensures log { result.2.log ≡ self.log }
        ensures round { result.2.round ≡ self.round }
        ensures last { result.2.last ≡ self.last }
        ensures replays { IsReplayed self.now self.base self.log }
    {
        let LoggedPeer {
            peer,
            base,
            history,
            alloc: _,
        } = self;
        (peer, base, history)
    }

    /// The device as it is becomes its base, and its log is empty, in this round. The last ticket stays. Refuses
    /// `StoreFault` exactly where a store fails to list its names or to read one; else only for want of memory. After an
    /// error nothing changed.
    pub fn rebase(&mut self, round: u64) -> Result<(), LogError>
        ensures rebased { OnOk result (IsRebased round self.old self.new) }
        ensures same { tables_of self.new.now ≡ tables_of self.old.now }
        ensures rest { Remains self.old.now self.new.now }
        ensures only { IfErr result (λ e. (e ≡ Refused StoreFault) ⊎ (e ≡ Memory)) }
        ensures fault { IsErrOf result (Refused StoreFault) ↔ IsSome self.new.now.trace.failed }
        ensures err { OnErr result (self.new ≡ record self.old { now = self.new.now }) }
    {
        self.base = self.peer.copy_out()?;
        self.history.restart(round);
        Ok(())
    }
}
