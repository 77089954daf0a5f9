//! What a cut shows of the settled cluster, and that none is taken where a store fails.
ghost use Rattle.bep_cut.specs.Parts.{AreParts};

use crate::made::{docs, name, put, settled};
use bep_audit::{Certificate, Verdict, certify, check};
use bep_core::Cluster;
use bep_cut::{Cut, CutError, Share, clusters_are_parts, cut_of};
use bep_links::Link;
use bep_peer::Peer;
use bep_store::{FaultStore, MemStore};
use std::alloc::Global;

/// How many nodes the stores hold, how many of them are what was put last at the name, in kind, bytes and target; and how many
/// rows the cut's certificate has, and whether the cut is settled under it.
pub(crate) type Seen = (u64, u64, (usize, bool));

// Whether the store holds at the name of this letter what was put there last.
fn is_kept(alloc: Global, share: &Share, letter: u8) -> Option<bool> {
    let name = name(alloc, letter)?;
    let parts = share.store.get(&name)?.parts();
    let (kind, bytes, target, _) = put(letter);
    Some((parts.kind, parts.bytes.as_slice(), parts.target.as_bytes()) == (kind, bytes, target))
}

// At how many of the names it does.
fn kept(alloc: Global, share: &Share) -> u64 {
    let mut kept = 0u64;
    for letter in [b'd', b'f', b'l'] {
        if is_kept(alloc, share, letter) == Some(true) {
            kept = kept.saturating_add(1);
        }
    }
    kept
}

/// The same of all stores.
pub(crate) fn held(alloc: Global, cut: &Cut) -> Option<(u64, u64)> {
    let docs = docs(alloc)?;
    let (mut nodes, mut same) = (0u64, 0u64);
    for share in cut.shares(&docs) {
        nodes = nodes.saturating_add(share.store.len() as u64);
        same = same.saturating_add(kept(alloc, share));
    }
    Some((nodes, same))
}

fn told(alloc: Global, cut: &Cut, certificate: &Certificate) -> Option<(usize, bool)> {
    match check(alloc, cut, certificate) {
        Ok(verdict) => Some((certificate.rows().len(), verdict == Verdict::Settled)),
        Err(_) => None,
    }
}

fn audited(alloc: Global, cut: &Cut) -> Option<(usize, bool)> {
    match certify(alloc, cut) {
        Ok(certificate) => told(alloc, cut, &certificate),
        Err(_) => None,
    }
}

fn seen(alloc: Global, cut: &Cut) -> Option<Seen> {
    let (nodes, kept) = held(alloc, cut)?;
    Some((nodes, kept, audited(alloc, cut)?))
}

/// What the cut shows, if one was taken.
pub(crate) fn shown(alloc: Global, taken: Result<Cut, CutError>) -> Option<Seen> {
    match taken {
        Ok(cut) => seen(alloc, &cut),
        Err(_) => None,
    }
}

fn refused(taken: Result<Cut, CutError>) -> Option<u32> {
    match taken {
        Ok(_) => None,
        Err(error) => error.number(),
    }
}

// The number for which no cut is taken, if none is.
fn tried(alloc: Global, peers: &mut [Peer<FaultStore<MemStore>>], links: &[Link]) -> Option<u32>
    requires { AreParts peers.old links.now }
    ensures { AreParts peers.new links.now }
{
    refused(cut_of(alloc, peers, links))
}

// That number, and what the next cut shows.
fn taken_twice(
    alloc: Global,
    cluster: Cluster<FaultStore<MemStore>>,
) -> (Option<u32>, Option<Seen>) {
    clusters_are_parts();
    let (mut peers, links) = cluster.into_parts();
    let first = tried(alloc, peers.as_mut_slice(), links.as_slice());
    let next = cut_of(alloc, peers.as_mut_slice(), links.as_slice());
    (first, shown(alloc, next))
}

// The same where this call of the store of the device at this place fails.
fn taken_at(alloc: Global, place: u32, call: u64) -> Option<(Option<u32>, Option<Seen>)> {
    let calls = match place {
        0 => [call, 0, 0],
        1 => [0, call, 0],
        _ => [0, 0, call],
    };
    Some(taken_twice(alloc, settled(alloc, calls)?))
}

// Of each store the names are read, and then the three nodes.
#[test]
fn no_cut_is_taken_where_a_store_fails(rt: HostRuntime) {
    let seen = Some((9, 9, (3, true)));
    let fault = Some(131);
    for place in 0..3u32 {
        for (call, number) in [(0, None), (1, fault), (2, fault), (3, fault), (4, fault)] {
            assert_eq!(rt; taken_at(rt.alloc(), place, call), Some((number, seen)));
        }
    }
}
