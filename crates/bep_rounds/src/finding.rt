//! What is to be brought next: the search for a device that is behind.
ghost use Rattle.std.specs.Prelude.{◌≡◌, Some, IfOk};
ghost use Rattle.std.specs.FinMap as map;
ghost use Rattle.bep_model.specs.Tables.{FileName, Folder};
ghost use Rattle.bep_machine.specs.Replica.{own_at};
ghost use Rattle.bep_machine.specs.Said.{tables_of_cluster};
ghost use Rattle.bep_peer.specs.network.Network.{cluster_of, member_at};
ghost use Rattle.bep_converge.specs.Ended.{IsEnded};
ghost use Rattle.bep_converge.specs.Prevails.{AllPrevail};
ghost use Rattle.bep_rounds.specs.Finding.{IsFound, NoneIsBehind};

use crate::Wanted;
use crate::behind::behind_of;
use bep_core::{Cluster, sharing_is_having};
use bep_folder::Replica;
use bep_peer::{Peer, tables_are_found};
use bep_record::Record;
use bep_store::Store;
use std::alloc::{AllocError, Global};

// A device that is behind on a name, and one that has its top. None where no device is.
pub(crate) fn find_behind<S: Store>(
    cluster: &Cluster<S>,
    alloc: Global,
) -> Result<Option<Wanted>, AllocError>
    ensures { IfOk result (λ found. IsFound (cluster_of cluster.now) found (AllPrevail (tables_of_cluster (cluster_of cluster.now)) → IsEnded (tables_of_cluster (cluster_of cluster.now)))) }
{
    sharing_is_having();
    let members = cluster.peers();
    for peer in members {
        let found = behind_at(cluster, alloc, peer)?;
        if found.is_some() {
            return Ok(found);
        }
    }
    Ok(None)
}

// The same of names of which this device has the top.
fn behind_at<S: Store>(
    cluster: &Cluster<S>,
    alloc: Global,
    peer: &Peer<S>,
) -> Result<Option<Wanted>, AllocError>
    requires { member_at cluster.now.members peer.now.number ≡ Some peer.now }
    ensures { IfOk result (λ found. IsFound (cluster_of cluster.now) found ((folder : Folder) (name : FileName) → NoneIsBehind (cluster_of cluster.now) peer.now.number folder name)) }
{
    tables_are_found();
    for (_folder, replica) in peer.folders().iter() {
        let found = behind_in(cluster, alloc, replica)?;
        if found.is_some() {
            return Ok(found);
        }
    }
    Ok(None)
}

// And of names of this folder.
fn behind_in<S: Store>(
    cluster: &Cluster<S>,
    alloc: Global,
    replica: &Replica<S>,
) -> Result<Option<Wanted>, AllocError>
    requires { map.get ((cluster_of cluster.now).peer replica.now.device).replicas replica.now.folder ≡ Some replica.now.tables }
    ensures { IfOk result (λ found. IsFound (cluster_of cluster.now) found ((name : FileName) → NoneIsBehind (cluster_of cluster.now) replica.now.device replica.now.folder name)) }
{
    cluster.cluster_is_sound();
    let index = replica.index();
    index.records_are_good();
    let mut sequence = 0;
    while let Some(top) = index.at(index.place_above(sequence)) {
        let found = wanted_at(cluster, alloc, replica, top)?;
        if found.is_some() {
            return Ok(found);
        }
        sequence = top.entry().sequence;
    }
    Ok(None)
}

// And of the name of this record of the folder's.
fn wanted_at<S: Store>(
    cluster: &Cluster<S>,
    alloc: Global,
    replica: &Replica<S>,
    top: &Record,
) -> Result<Option<Wanted>, AllocError>
    requires held { map.get ((cluster_of cluster.now).peer replica.now.device).replicas replica.now.folder ≡ Some replica.now.tables }
    requires own { own_at replica.now.tables top.now.name ≡ Some top.now }
    ensures { IfOk result (λ found. IsFound (cluster_of cluster.now) found (NoneIsBehind (cluster_of cluster.now) replica.now.device replica.now.folder top.now.name)) }
{
    cluster.cluster_is_sound();
    let device = match behind_of(cluster, replica, top) {
        None => return Ok(None),
        Some(device) => device,
    };
    let owner = replica.device();
    let folder = replica.folder().copy(alloc)?;
    let name = top.entry().name.copy(alloc)?;
    Ok(Some(Wanted {
        device,
        owner,
        folder,
        name,
    }))
}
