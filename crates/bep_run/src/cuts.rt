//! Cuts of the running cluster, and logs that begin anew: under all guards, by rising device and then by rising link.
ghost use Rattle.std.specs.Prelude.{◌≡◌, ◌+◌, IfErr, IfOk, IsSome, OnOk, length, map, min, true};
ghost use Rattle.bep_blocks.specs.declared.gate.Place.TheVariants.{Guarded};
ghost use Rattle.bep_log.specs.declared.error.LogError.TheVariants.{Memory, Refused};
ghost use Rattle.bep_machine.specs.declared.refusal.Refusal.TheVariants.{StoreFault};
ghost use Rattle.bep_run.specs.Origin.{AreFirst, BeginsAs, IsAll, devices_in, links_in};
ghost use Rattle.bep_run.specs.Based.{base_seen};
ghost use Rattle.bep_run.specs.Quiet.{AreStill, device_logs, link_logs, quiet_logs};
ghost use Rattle.bep_run.specs.Why.{IsOfCopies, IsOfPlaces};
ghost use Rattle.bep_run_cut.specs.RunCut.{links_base};

use crate::kept_link::KeptLink;
use crate::kept_peer::KeptPeer;
use crate::{Anywhere, Locked, Origin};
use bep_blocks::{Gate, OpenGate, Place};
use bep_log::{LinkCopy, LogError, PeerCopy};
use bep_machine::Refusal;
use bep_run_cut::RunCut;
use bep_store::Store;
use std::alloc::Global;
use std::sync::{MutexGuard, Wait};

// Copies of all devices and of all links.
type Copies = (Vec<PeerCopy>, Vec<LinkCopy>);

impl<S: Store, O: Origin> Locked<S, O> {
    /// Copies of all devices and links with their logs, made under all guards; the gate is passed at `Guarded` after each
    /// guard, with the number of those held. Refuses `StoreFault` where a store fails to list its names or to read one, and
    /// `NotShared` where these aren't one copy of each device and link that the devices know; else only for want of memory.
    /// Nothing changes, and afterwards all guards are free. Where it is known with which cluster all began, the devices and
    /// links were that cluster when their logs began, and no event in the logs is a local step or a reset. May wait.
    #[tactic(auto, using(crate::proofs::Begins::begins_so, crate::proofs::Still::still_so))]
    pub fn take_cut<R: Wait, G: Gate>(&self, rt: &R, gate: &G) -> Result<RunCut, LogError>
        ensures begins { IfOk result (λ run. BeginsAs O.start run.bases) }
        ensures still { IfOk result (λ run. AreStill O.start run.logs) }
        ensures only { IfErr result (IsOfCopies S.faults) }
    {
        let (peers, links) = self.copies(rt, gate)?;
        match RunCut::of(self.alloc, peers, links)? {
            Some(run) => Ok(run),
            None => Err(LogError::Refused(Refusal::NotShared)),
        }
    }

    // Copies of all, made while all guards are held.
    #[tactic(auto, using(crate::proofs::Begins::copies_are_all))]
    fn copies<R: Wait, G: Gate>(&self, rt: &R, gate: &G) -> Result<Copies, LogError>
        ensures devices { IfOk result (λ copies. IsAll (devices_in O.start) (map base_seen copies.0.items)) }
        ensures links { IfOk result (λ copies. IsAll (links_in O.start) (links_base copies.1.items)) }
        ensures quiet { IfOk result (λ copies. quiet_logs O.start (device_logs copies.0.items) ≡ true) }
        ensures quiet_links { IfOk result (λ copies. quiet_logs O.start (link_logs copies.1.items) ≡ true) }
        ensures only { IfErr result (IsOfCopies S.faults) }
    {
        let mut peers = self.peer_guards(rt, gate)?;
        let links = self.link_guards(rt, gate, peers.len())?;
        let peer_copies = copy_peers(self.alloc, peers.as_mut_slice())?;
        let link_copies = copy_links(self.alloc, links.as_slice())?;
        Ok((peer_copies, link_copies))
    }

    // The guards of all devices, rising.
    fn peer_guards<R: Wait, G: Gate>(
        &self,
        rt: &R,
        gate: &G,
    ) -> Result<Vec<MutexGuard<'_, KeptPeer<S, O>>>, LogError>
        ensures all { IfOk result (λ guards. length guards.items ≡ length self.now.devices.items) }
        ensures only { IfErr result (λ e. e ≡ Memory) }
    {
        let mut guards = Vec::with_capacity(self.alloc, self.devices.len())?;
        for held in self.devices.iter() {
            guards.push(held.peer.lock(rt))?;
            gate.pass(guarded(guards.len()));
        }
        Ok(guards)
    }

    // The guards of all links, rising, after so many others.
    fn link_guards<R: Wait, G: Gate>(
        &self,
        rt: &R,
        gate: &G,
        others: usize,
    ) -> Result<Vec<MutexGuard<'_, KeptLink<O>>>, LogError>
        ensures all { IfOk result (λ guards. length guards.items ≡ length self.now.links.items) }
        ensures only { IfErr result (λ e. e ≡ Memory) }
    {
        let mut guards = Vec::with_capacity(self.alloc, self.links.len())?;
        for joint in self.links.iter() {
            guards.push(joint.link.lock(rt))?;
            gate.pass(guarded(others.saturating_add(guards.len())));
        }
        Ok(guards)
    }
}

impl<S: Store> Locked<S, Anywhere> {
    /// Each device and each link as it is becomes its base, and its log is empty, in this round, under all guards. Refuses
    /// `StoreFault` where a store fails to list its names or to read one; else only for want of memory. Those before it are
    /// in the new round then, and the others in the one before. May wait.
    pub fn rebase_all<R: Wait>(&self, rt: &R, round: u64) -> Result<(), LogError> {
        let mut peers = self.peer_guards(rt, &OpenGate)?;
        let mut links = self.link_guards(rt, &OpenGate, peers.len())?;
        for guard in peers.iter_mut() {
            let peer = &mut **guard;
            peer.logged.rebase(round)?;
        }
        for guard in links.iter_mut() {
            let link = &mut **guard;
            link.logged.rebase(round)?;
        }
        Ok(())
    }
}

// Copies of the devices, each of which stands at its place.
#[tactic(auto, using(crate::proofs::Places::none_first))]
fn copy_peers<S: Store, O: Origin>(
    alloc: Global,
    peers: &mut [MutexGuard<'_, KeptPeer<S, O>>],
) -> Result<Vec<PeerCopy>, LogError>
    ensures first { IfOk result (λ copies. AreFirst (devices_in O.start) (map base_seen copies.items)) }
    ensures all { IfOk result (λ copies. length copies.items ≡ length peers.old) }
    ensures quiet { IfOk result (λ copies. quiet_logs O.start (device_logs copies.items) ≡ true) }
    ensures only { IfErr result (IsOfCopies S.faults) }
{
    let mut copies = Vec::with_capacity(alloc, peers.len())?;
    for peer in peers.iter_mut() {
        copy_peer(&mut copies, &mut **peer)?;
    }
    Ok(copies)
}

// Adds a copy of the device that stands behind those of which there are copies.
#[tactic(auto, using(crate::proofs::Begins::copied_with, crate::proofs::Still::quiet_with))]
fn copy_peer<S: Store, O: Origin>(
    copies: &mut Vec<PeerCopy>,
    peer: &mut KeptPeer<S, O>,
) -> Result<(), LogError>
    requires first { AreFirst (devices_in O.start) (map base_seen copies.old.items) }
    requires quiet { quiet_logs O.start (device_logs copies.old.items) ≡ true }
    ensures first { OnOk result (AreFirst (devices_in O.start) (map base_seen copies.new.items)) }
    ensures one_more { OnOk result (length copies.new.items ≡ length copies.old.items + 1) }
    ensures quiet { OnOk result (quiet_logs O.start (device_logs copies.new.items) ≡ true) }
    ensures only { IfErr result (IsOfCopies S.faults) }
    ensures fault { IfErr result (λ e. (e ≡ Refused StoreFault) → IsSome peer.new.now.trace.failed) }
{
    let copy = peer.copy(copies.len())?;
    copies.push(copy)?;
    Ok(())
}

// Copies of the links, each of which stands at its place.
#[tactic(auto, using(crate::proofs::Places::none_first))]
fn copy_links<O: Origin>(
    alloc: Global,
    links: &[MutexGuard<'_, KeptLink<O>>],
) -> Result<Vec<LinkCopy>, LogError>
    ensures first { IfOk result (λ copies. AreFirst (links_in O.start) (links_base copies.items)) }
    ensures all { IfOk result (λ copies. length copies.items ≡ length links.now) }
    ensures quiet { IfOk result (λ copies. quiet_logs O.start (link_logs copies.items) ≡ true) }
    ensures only { IfErr result IsOfPlaces }
{
    let mut copies = Vec::with_capacity(alloc, links.len())?;
    for link in links.iter() {
        copy_link(&mut copies, &**link)?;
    }
    Ok(copies)
}

// Adds a copy of the link that stands behind those of which there are copies.
#[tactic(auto, using(crate::proofs::Begins::copied_with, crate::proofs::Still::quiet_with))]
fn copy_link<O: Origin>(copies: &mut Vec<LinkCopy>, link: &KeptLink<O>) -> Result<(), LogError>
    requires first { AreFirst (links_in O.start) (links_base copies.old.items) }
    requires quiet { quiet_logs O.start (link_logs copies.old.items) ≡ true }
    ensures first { OnOk result (AreFirst (links_in O.start) (links_base copies.new.items)) }
    ensures one_more { OnOk result (length copies.new.items ≡ length copies.old.items + 1) }
    ensures quiet { OnOk result (quiet_logs O.start (link_logs copies.new.items) ≡ true) }
    ensures only { IfErr result IsOfPlaces }
{
    let copy = link.copy(copies.len())?;
    copies.push(copy)?;
    Ok(())
}

// The place where so many guards are held.
fn guarded(count: usize) -> Place
    ensures { result ≡ Guarded (min count u32.MAX) }
{
    Place::Guarded(count.min(u32::MAX as usize) as u32)
}
