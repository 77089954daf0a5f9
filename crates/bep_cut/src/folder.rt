//! What the devices have of a folder.
ghost use Rattle.std.specs.Prelude.{◌≡◌, ◌++◌, IfOk, OnOk, IfSome, IsSome, map};
ghost use Rattle.std.specs.List.{flat_map, AllByRecursion};
ghost use Rattle.std.specs.FinMap as finite;
ghost use Rattle.bep_cut.specs.Cut.{IsSoundIn, seen, share_at};
ghost use Rattle.bep_cut.specs.Parts.{Counts, CountsAll, error_of, faults_of, links_of};

use crate::CutError;
use crate::share::share_cut;
use bep_map::NameMap;
use bep_peer::{Peer, PeerError, tables_are_found};
use bep_record::{FolderName, Node};
use bep_store::Store;
use bep_tables::Share;
use std::alloc::{AllocError, Global};

// Adds what the device has of the folder, if it shares it.
#[tactic(auto, using(crate::proofs::FolderFacts::no_share, crate::proofs::FolderFacts::none_sound))]
pub(crate) fn add_share<S: Store>(
    shares: &mut Vec<Share>,
    alloc: Global,
    peer: &mut Peer<S>,
    folder: &FolderName,
) -> Result<(), CutError>
    ensures share { OnOk result (shares.new.items ≡ shares.old.items ++ share_at folder.now (seen peer.old)) }
    ensures sound { OnOk result (IsSoundIn folder.now (seen peer.old)) }
    ensures seen { seen peer.new ≡ seen peer.old }
    ensures linked { peer.new.linked ≡ peer.old.linked }
    ensures counts { Counts (faults_of peer.old) (faults_of peer.new) result }
{
    tables_are_found();
    if peer.replica(folder).is_none() {
        return Ok(());
    }
    let store = read_store(peer, folder)?;
    add_read(shares, alloc, peer, folder, store)?;
    Ok(())
}

// What the store of the device's folder holds.
fn read_store<S: Store>(peer: &mut Peer<S>, folder: &FolderName) -> Result<NameMap<Node>, CutError>
    requires { IsSome (finite.get peer.old.folders folder.now) }
    ensures store { IfOk result (λ nodes. IfSome (finite.get peer.new.folders folder.now) (λ held. nodes ≡ held.tables.store)) }
    ensures seen { seen peer.new ≡ seen peer.old }
    ensures linked { peer.new.linked ≡ peer.old.linked }
    ensures counts { Counts (faults_of peer.old) (faults_of peer.new) result }
{
    match peer.contents(folder) {
        Ok(nodes) => Ok(nodes),
        Err(error) => Err(error_of(error)),
    }
}

// Why no cut is taken where the store of a folder that the device has isn't read.
fn error_of(error: PeerError) -> CutError
    ensures { result ≡ error_of error }
{
    match error {
        PeerError::Memory => CutError::Memory,
        PeerError::Refused(_) | PeerError::Stale => CutError::StoreFault,
    }
}

// Adds what the device has of the folder, whose store holds this.
fn add_read<S: Store>(
    shares: &mut Vec<Share>,
    alloc: Global,
    peer: &Peer<S>,
    folder: &FolderName,
    store: NameMap<Node>,
) -> Result<(), AllocError>
    requires { IfSome (finite.get peer.now.folders folder.now) (λ held. store ≡ held.tables.store) }
    ensures share { OnOk result (shares.new.items ≡ shares.old.items ++ share_at folder.now (seen peer.now)) }
    ensures sound { OnOk result (IsSoundIn folder.now (seen peer.now)) }
{
    tables_are_found();
    peer.folders();
    match peer.replica(folder) {
        Some(replica) => {
            shares.push(share_cut(alloc, replica, store)?)?;
            Ok(())
        }
        None => Ok(()),
    }
}

// What each device has of the folder.
pub(crate) fn shares_at<S: Store>(
    alloc: Global,
    peers: &mut [Peer<S>],
    folder: &FolderName,
) -> Result<Vec<Share>, CutError>
    ensures shares { IfOk result (λ made. made.items ≡ flat_map (share_at folder.now) (map seen peers.old)) }
    ensures sound { OnOk result (AllByRecursion (IsSoundIn folder.now) (map seen peers.old)) }
    ensures seen { map seen peers.new ≡ map seen peers.old }
    ensures linked { links_of peers.new ≡ links_of peers.old }
    ensures counts { CountsAll (map faults_of peers.old) (map faults_of peers.new) result }
{
    let mut shares = Vec::new(alloc);
    for peer in peers.iter_mut() {
        add_share(&mut shares, alloc, peer, folder)?;
    }
    Ok(shares)
}
