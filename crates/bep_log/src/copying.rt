//! Copies of devices and links with their logs: plain data, which no call changes.
ghost use Rattle.std.specs.Prelude.{◌≡◌, ◌⊎◌, ◌↔◌, IfOk, IfErr, IsErrOf, IsSome};
ghost use Rattle.bep_log.specs.Copies.{IsCopied};
ghost use Rattle.bep_log.specs.History.{IsHistory};
ghost use Rattle.bep_log.specs.LoggedLink.{IsLinkReplayed};
ghost use Rattle.bep_log.specs.LoggedPeer.{IsReplayed};
ghost use Rattle.bep_log.specs.declared.error.LogError.TheVariants.{Memory, Refused};
ghost use Rattle.bep_machine.specs.declared.refusal.Refusal.TheVariants.{StoreFault};
ghost use Rattle.bep_peer.specs.Copied.{member_copied};
ghost use Rattle.bep_peer.specs.Member.{Remains, tables_of};

use crate::history::History;
use crate::{LogError, LoggedLink, LoggedPeer};
use bep_fit::Stamped;
use bep_links::Link;
use bep_peer::Peer;
use bep_store::{MemStore, Store};
use std::alloc::{AllocError, Global};
use std::marker::Model;

/// A copy of a device with its log, over stores in memory. It only lends what it holds, so nothing changes it, and nothing
/// puts it in the place of a device.
pub struct PeerCopy {
    logged: LoggedPeer<MemStore>,
}

// By hand: a caller's proof then sees one call where it lets go of one, and not each field (docs/developing.md).
impl Drop for PeerCopy {
    fn drop(self) {
        let PeerCopy { logged: _ } = self;
    }
}

impl Model for PeerCopy {
    ghost use Rattle.bep_record.specs.contracts.folder_kind.FolderKind as folder_kind;
    ghost use Rattle.bep_record.specs.contracts.entry.Entry as entry;
    ghost use Rattle.bep_record.specs.contracts.node.NodeParts as parts;
    ghost use Rattle.bep_index.specs.contracts.send.Plan as plan;
    ghost use Rattle.bep_machine.specs.contracts.message.Request as request;
    ghost use Rattle.bep_folder.specs.Held.{held_code};
    ghost use Rattle.bep_peer.specs.Session.{session_code};
    ghost use Rattle.bep_peer.specs.Member.{member_code};
    ghost use Rattle.bep_peer.specs.contracts.trace.Trace as trace;
    ghost use Rattle.bep_fit.specs.contracts.stamped.Stamped as stamped;
    ghost use Rattle.bep_log.specs.LoggedPeer.{LoggedMember, logged_code};

    ghost Value = { LoggedMember };

    ghost coded = { logged_code (member_code (held_code folder_kind.the_row.coded entry.the_row.coded parts.the_row.coded) (session_code plan.the_row.coded request.the_row.coded) trace.the_row.coded) stamped.the_row.coded };

    ghost view = { λ inside. inside.logged };
}

impl PeerCopy {
    /// The device with its log, to be read.
    pub fn logged(&self) -> &LoggedPeer<MemStore>
        ensures { result.now ≡ self.now }
    {
        &self.logged
    }

    /// What the copy holds, for those who take it apart. The device is what its events make of its base.
    pub fn into_parts(self) -> PeerParts
        ensures now { result.now ≡ self.now }
        ensures base { result.base ≡ self.base }
        ensures log { result.log.items ≡ self.log }
        ensures round { result.round ≡ self.round }
        ensures replays { IsReplayed self.now self.base self.log }
        ensures a_history { IsHistory self.log self.last }
    {
        let PeerCopy { logged } = self;
        let (now, base, history) = logged.into_parts();
        let round = history.round();
        PeerParts {
            now,
            base,
            log: history.into_log(),
            round,
        }
    }
}

/// What a copy of a device holds.
#[derive(Drop)]
pub struct PeerParts {
    /// The device as it was copied, over stores in memory.
    pub now: Peer<MemStore>,
    /// The device as it was when its log began, over stores in memory.
    pub base: Peer<MemStore>,
    /// The events since, by rising ticket.
    pub log: Vec<Stamped>,
    /// The round in which the log began.
    pub round: u64,
}

/// A copy of a link with its log. It only lends what it holds, so nothing changes it.
pub struct LinkCopy {
    logged: LoggedLink,
}

// By hand: a caller's proof then sees one call where it lets go of one, and not each field (docs/developing.md).
impl Drop for LinkCopy {
    fn drop(self) {
        let LinkCopy { logged: _ } = self;
    }
}

impl Model for LinkCopy {
    ghost use Rattle.bep_links.specs.contracts.link.Link as between;
    ghost use Rattle.bep_fit.specs.contracts.stamped.Stamped as stamped;
    ghost use Rattle.bep_log.specs.LoggedLink.{LoggedBetween, logged_link_code};

    ghost Value = { LoggedBetween };

    ghost coded = { logged_link_code between.the_row.coded stamped.the_row.coded };

    ghost view = { λ inside. inside.logged };
}

impl LinkCopy {
    /// The link with its log, to be read.
    pub fn logged(&self) -> &LoggedLink
        ensures { result.now ≡ self.now }
    {
        &self.logged
    }

    /// What the copy holds, for those who take it apart. The link is what its events make of its base.
    pub fn into_parts(self) -> LinkParts
        ensures now { result.now ≡ self.now }
        ensures base { result.base ≡ self.base }
        ensures log { result.log.items ≡ self.log }
        ensures round { result.round ≡ self.round }
        ensures replays { IsLinkReplayed self.now self.base self.log }
        ensures a_history { IsHistory self.log self.last }
    {
        let LinkCopy { logged } = self;
        let (now, base, history) = logged.into_parts();
        let round = history.round();
        LinkParts {
            now,
            base,
            log: history.into_log(),
            round,
        }
    }
}

/// What a copy of a link holds.
#[derive(Drop)]
pub struct LinkParts {
    /// The link as it was copied.
    pub now: Link,
    /// The link as it was when its log began.
    pub base: Link,
    /// The events since, by rising ticket.
    pub log: Vec<Stamped>,
    /// The round in which the log began.
    pub round: u64,
}

impl<S: Store> LoggedPeer<S> {
    /// A copy of the device with its log. Refuses `StoreFault` exactly where a store of the device fails to list its names or
    /// to read one; else only for want of memory. It is no step, and leaves device, base and log as they are.
    pub fn copy(&mut self) -> Result<PeerCopy, LogError>
        ensures copied { IfOk result (IsCopied self.old) }
        ensures same { tables_of self.new.now ≡ tables_of self.old.now }
        ensures rest { Remains self.old.now self.new.now }
        ensures base { tables_of self.new.base ≡ tables_of self.old.base }
        ensures log { self.new ≡ record self.old { now = self.new.now; base = self.new.base } }
        ensures only { IfErr result (λ e. (e ≡ Refused StoreFault) ⊎ (e ≡ Memory)) }
        ensures fault { IsErrOf result (Refused StoreFault) ↔ IsSome self.new.now.trace.failed }
    {
        let peer = self.peer.copy_out()?;
        let base = copy_base(&mut self.base)?;
        let history = copy_of(self.alloc, &self.history)?;
        Ok(PeerCopy {
            logged: LoggedPeer {
                peer,
                base,
                history,
                alloc: self.alloc,
            },
        })
    }
}

impl LoggedLink {
    /// A copy of the link with its log, or want of memory.
    pub fn copy(&self) -> Result<LinkCopy, AllocError>
        ensures { IfOk result (λ copy. copy ≡ self.now) }
    {
        let link = self.link.copy(self.alloc)?;
        let base = self.base.copy(self.alloc)?;
        let history = copy_of(self.alloc, &self.history)?;
        Ok(LinkCopy {
            logged: LoggedLink {
                link,
                base,
                history,
                alloc: self.alloc,
            },
        })
    }
}

// A copy of a base, or want of memory: its stores are in memory, and never fail.
fn copy_base(base: &mut Peer<MemStore>) -> Result<Peer<MemStore>, AllocError>
    ensures copied { IfOk result (λ copy. copy ≡ member_copied base.old) }
    ensures tables { IfOk result (λ copy. tables_of copy ≡ tables_of base.old) }
    ensures same { tables_of base.new ≡ tables_of base.old }
    ensures rest { Remains base.old base.new }
{
    match base.copy_out() {
        Ok(copy) => Ok(copy),
        Err(_) => Err(AllocError),
    }
}

// The log with equal events of its own.
fn copy_of(alloc: Global, history: &History) -> Result<History, AllocError>
    ensures log { IfOk result (λ copy. copy.log ≡ history.now.log) }
    ensures round { IfOk result (λ copy. copy.round ≡ history.now.round) }
    ensures last { IfOk result (λ copy. copy.last ≡ history.now.last) }
{
    let log = copy_log(alloc, history.log())?;
    Ok(History::of(log, history.round(), history.last()))
}

// Equal events of their own, in order.
fn copy_log(alloc: Global, log: &[Stamped]) -> Result<Vec<Stamped>, AllocError>
    ensures { IfOk result (λ copy. copy.items ≡ log.now) }
{
    let mut copy = Vec::new(alloc);
    for one in log {
        copy.push(one.copy(alloc)?)?;
    }
    Ok(copy)
}
