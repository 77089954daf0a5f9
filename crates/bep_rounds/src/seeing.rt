//! What is seen of a cluster, by which the next step of a round is chosen.
ghost use Rattle.std.specs.Prelude.{◌≡◌, ◌↔◌, IsTrue, Some, length, option_map};
ghost use Rattle.std.specs.FinMap as map;
ghost use Rattle.std.specs.Option.{option_copied};
ghost use Rattle.bep_machine.specs.Replica.{Replica as ReplicaOf, own_at, pull_at, view_of};
ghost use Rattle.bep_machine.specs.Said.{tables_of_cluster};
ghost use Rattle.bep_peer.specs.network.Network.{cluster_of};
ghost use Rattle.bep_machine.specs.Pull.{IsFile};
ghost use Rattle.bep_converge.specs.Watched.{HasHeardUpTo, IsUnfinished, LacksBlocks};

use crate::Wanted;
use bep_core::Cluster;
use bep_folder::{Pull, Replica, has_content_of};
use bep_peer::tables_are_found;
use bep_record::{DeviceId, FolderName, Kind, Name, Record};
use bep_store::Store;

// The folder as the device has it, if the device shares it.
#[tactic(auto, using(crate::proofs::Seen::no_peer, crate::proofs::Seen::peer_has))]
fn replica_at<'a, S: Store>(
    cluster: &'a Cluster<S>,
    device: DeviceId,
    folder: &FolderName,
) -> Option<&'a Replica<S>>
    ensures { option_map (λ held. held.tables) (option_copied result) ≡ map.get ((cluster_of cluster.now).peer device).replicas folder.now }
{
    tables_are_found();
    cluster.peer(device)?.replica(folder)
}

// The device's own record of the name, if the device shares the folder and has one.
pub(crate) fn own_record<'a, S: Store>(
    cluster: &'a Cluster<S>,
    device: DeviceId,
    folder: &FolderName,
    name: &Name,
) -> Option<&'a Record>
    ensures { option_copied result ≡ (tables_of_cluster (cluster_of cluster.now)).own device folder.now name.now }
{
    cluster.cluster_is_sound();
    match replica_at(cluster, device, folder) {
        None => None,
        Some(replica) => replica.index().get(name),
    }
}

// The sequence number of the owner's own record of the name, and how many blocks it has.
pub(crate) fn owned<S: Store>(cluster: &Cluster<S>, wanted: &Wanted) -> Option<(u64, usize)>
    ensures { (replica : ReplicaOf) → map.get ((cluster_of cluster.now).peer wanted.now.owner).replicas wanted.now.folder ≡ Some replica → result ≡ option_map (λ own. (own.sequence, length own.blocks)) (own_at replica wanted.now.name) }
{
    let replica = replica_at(cluster, wanted.owner, &wanted.folder)?;
    let entry = replica.index().get(&wanted.name)?.entry();
    Some((entry.sequence, entry.blocks.as_slice().len()))
}

// Whether the device has heard of the owner's index up to this number.
#[tactic(auto, using(crate::proofs::Seen::not_heard, crate::proofs::Seen::heard_here))]
pub(crate) fn has_heard<S: Store>(cluster: &Cluster<S>, wanted: &Wanted, sequence: u64) -> bool
    ensures { IsTrue result ↔ HasHeardUpTo (cluster_of cluster.now) wanted.now.device wanted.now.owner wanted.now.folder sequence }
{
    match replica_at(cluster, wanted.device, &wanted.folder) {
        None => false,
        Some(replica) => sequence <= heard_of(replica, wanted.owner),
    }
}

// Up to which number the owner's index is known.
fn heard_of<S: Store>(replica: &Replica<S>, owner: DeviceId) -> u64
    ensures { result ≡ (view_of replica.now.tables owner).sequence }
{
    match replica.view(owner) {
        None => 0,
        Some(view) => view.point().1,
    }
}

// Whether the name's pull lacks blocks.
#[tactic(auto, using(crate::proofs::Seen::no_replica, crate::proofs::Seen::no_pull, crate::proofs::Seen::lacks_here))]
pub(crate) fn lacks_blocks<S: Store>(cluster: &Cluster<S>, wanted: &Wanted) -> bool
    ensures { IsTrue result ↔ LacksBlocks (cluster_of cluster.now) wanted.now.device wanted.now.folder wanted.now.name }
{
    match replica_at(cluster, wanted.device, &wanted.folder) {
        None => false,
        Some(replica) => match replica.pull(&wanted.name) {
            None => false,
            Some(pull) => is_unfinished(replica, &wanted.name, pull),
        },
    }
}

fn is_unfinished<S: Store>(replica: &Replica<S>, name: &Name, pull: &Pull) -> bool
    ensures { IsTrue result ↔ IsUnfinished replica.now.tables name.now pull.now }
{
    is_file(pull.target())
        && !has_content_of(replica.index().get(name), pull.target())
        && pull.is_missing_blocks()
}

fn is_file(target: &Record) -> bool
    ensures { IsTrue result ↔ IsFile target.now }
{
    let entry = target.entry();
    !entry.deleted && entry.kind == Kind::File
}
