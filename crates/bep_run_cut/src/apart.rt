//! Copies, taken apart: what the devices and links are, what they were, and their logs.
ghost use Rattle.std.specs.Prelude.{◌≡◌, ◌++◌, [], ◌∷◌, IfOk, OnOk, map};
ghost use Rattle.std.specs.List.{AllByRecursion};
ghost use Rattle.bep_run_cut.specs.RunCut.{IsLinkReplayedCopy, IsReplayedCopy, device_log, link_log, links_base, links_now, logs_of, members_base, members_now};

use bep_fit::Object;
use bep_links::Link;
use bep_log::{LinkCopy, LinkParts, PeerCopy, PeerParts};
use bep_peer::Peer;
use bep_run_check::ObjectLog;
use bep_store::MemStore;
use std::alloc::{AllocError, Global};

// The devices and links as they are and as they were, and their logs, devices first.
#[derive(Drop)]
pub(crate) struct Parts {
    pub(crate) peers: Vec<Peer<MemStore>>,
    pub(crate) base_peers: Vec<Peer<MemStore>>,
    pub(crate) links: Vec<Link>,
    pub(crate) base_links: Vec<Link>,
    pub(crate) logs: Vec<ObjectLog>,
}

// The parts of the copies, which it takes.
pub(crate) fn parts_of(
    alloc: Global,
    peers: Vec<PeerCopy>,
    links: Vec<LinkCopy>,
) -> Result<Parts, AllocError>
    ensures peers { IfOk result (λ parts. parts.peers.items ≡ members_now peers.items) }
    ensures base_peers { IfOk result (λ parts. parts.base_peers.items ≡ members_base peers.items) }
    ensures links { IfOk result (λ parts. parts.links.items ≡ links_now links.items) }
    ensures base_links { IfOk result (λ parts. parts.base_links.items ≡ links_base links.items) }
    ensures logs { IfOk result (λ parts. parts.logs.items ≡ logs_of peers.items links.items) }
    ensures replayed { OnOk result (AllByRecursion IsReplayedCopy peers.items) }
    ensures links_replayed { OnOk result (AllByRecursion IsLinkReplayedCopy links.items) }
{
    let mut parts = Parts {
        peers: Vec::new(alloc),
        base_peers: Vec::new(alloc),
        links: Vec::new(alloc),
        base_links: Vec::new(alloc),
        logs: Vec::new(alloc),
    };
    parts.add_peers(peers)?;
    parts.add_links(links)?;
    Ok(parts)
}

impl Parts {
    // Adds the parts of the devices' copies.
    fn add_peers(&mut self, copies: Vec<PeerCopy>) -> Result<(), AllocError>
        ensures peers { OnOk result (self.new.peers.items ≡ self.old.peers.items ++ members_now copies.items) }
        ensures base_peers { OnOk result (self.new.base_peers.items ≡ self.old.base_peers.items ++ members_base copies.items) }
        ensures links { self.new.links.items ≡ self.old.links.items }
        ensures base_links { self.new.base_links.items ≡ self.old.base_links.items }
        ensures logs { OnOk result (self.new.logs.items ≡ self.old.logs.items ++ map device_log copies.items) }
        ensures replayed { OnOk result (AllByRecursion IsReplayedCopy copies.items) }
    {
        for copy in copies {
            self.add_peer(copy)?;
        }
        Ok(())
    }

    fn add_peer(&mut self, copy: PeerCopy) -> Result<(), AllocError>
        ensures peers { OnOk result (self.new.peers.items ≡ self.old.peers.items ++ members_now (copy ∷ [])) }
        ensures base_peers { OnOk result (self.new.base_peers.items ≡ self.old.base_peers.items ++ members_base (copy ∷ [])) }
        ensures links { self.new.links.items ≡ self.old.links.items }
        ensures base_links { self.new.base_links.items ≡ self.old.base_links.items }
        ensures logs { OnOk result (self.new.logs.items ≡ self.old.logs.items ++ map device_log (copy ∷ [])) }
        ensures replayed { OnOk result (IsReplayedCopy copy) }
    {
        let PeerParts {
            now,
            base,
            log,
            round,
        } = copy.into_parts();
        let object = Object::Device(now.number());
        self.peers.push(now)?;
        self.base_peers.push(base)?;
        self.logs.push(ObjectLog::new(object, round, log))?;
        Ok(())
    }

    // Adds the parts of the links' copies.
    fn add_links(&mut self, copies: Vec<LinkCopy>) -> Result<(), AllocError>
        ensures peers { self.new.peers.items ≡ self.old.peers.items }
        ensures base_peers { self.new.base_peers.items ≡ self.old.base_peers.items }
        ensures links { OnOk result (self.new.links.items ≡ self.old.links.items ++ links_now copies.items) }
        ensures base_links { OnOk result (self.new.base_links.items ≡ self.old.base_links.items ++ links_base copies.items) }
        ensures logs { OnOk result (self.new.logs.items ≡ self.old.logs.items ++ map link_log copies.items) }
        ensures replayed { OnOk result (AllByRecursion IsLinkReplayedCopy copies.items) }
    {
        for copy in copies {
            self.add_link(copy)?;
        }
        Ok(())
    }

    fn add_link(&mut self, copy: LinkCopy) -> Result<(), AllocError>
        ensures peers { self.new.peers.items ≡ self.old.peers.items }
        ensures base_peers { self.new.base_peers.items ≡ self.old.base_peers.items }
        ensures links { OnOk result (self.new.links.items ≡ self.old.links.items ++ links_now (copy ∷ [])) }
        ensures base_links { OnOk result (self.new.base_links.items ≡ self.old.base_links.items ++ links_base (copy ∷ [])) }
        ensures logs { OnOk result (self.new.logs.items ≡ self.old.logs.items ++ map link_log (copy ∷ [])) }
        ensures replayed { OnOk result (IsLinkReplayedCopy copy) }
    {
        let LinkParts {
            now,
            base,
            log,
            round,
        } = copy.into_parts();
        let (lower, upper) = now.ends();
        let object = Object::Link(lower, upper);
        self.links.push(now)?;
        self.base_links.push(base)?;
        self.logs.push(ObjectLog::new(object, round, log))?;
        Ok(())
    }
}
