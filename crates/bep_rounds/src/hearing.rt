//! The owner's records come to the device, until the one that it lacks is there.
ghost use Rattle.std.specs.Prelude.{◌++◌, ◌+◌, ◌/◌, ◌≤◌, ℕ, List, map};
ghost use Rattle.bep_index.specs.declared.limits.TheConstants.{MAX_RECORDS};
ghost use Rattle.bep_machine.specs.Cluster.{Cluster as ClusterOf};
ghost use Rattle.bep_machine.specs.Steps.{Event, IsRun};
ghost use Rattle.bep_peer.specs.network.Network.{cluster_of};
ghost use Rattle.bep_converge.specs.Bring.{done, hear};
ghost use Rattle.bep_converge.specs.Watched.{HearsTo};
ghost use Rattle.bep_rounds.specs.Rounds.{IfMade, IsQuietRun};

use crate::making::make;
use crate::seeing::has_heard;
use crate::{RoundError, Wanted};
use bep_core::{Cluster, Step};
use bep_index::MAX_RECORDS;
use bep_store::Store;
use std::alloc::Global;

// The owner's next records come.
#[tactic(auto, using(crate::proofs::QuietRuns::no_step, crate::proofs::QuietRuns::both_runs, crate::proofs::Made::memory_outside))]
fn hear<S: Store>(
    cluster: &mut Cluster<S>,
    alloc: Global,
    wanted: &Wanted,
) -> Result<(), RoundError>
    ensures quiet { IsQuietRun (cluster_of cluster.old) (cluster_of cluster.new) }
    ensures made { (more : List Event) (later : ClusterOf) → IsRun (cluster_of cluster.old) (map done (hear wanted.now.device wanted.now.owner wanted.now.folder) ++ more) later → IfMade cluster.new.members result (IsRun (cluster_of cluster.new) more later) }
{
    let folder = wanted.folder.copy(alloc)?;
    let announce = Step::Announce(wanted.owner, wanted.device, folder);
    make(cluster, Some(wanted.owner), announce)?;
    make(
        cluster,
        Some(wanted.device),
        Step::Deliver(wanted.device, wanted.owner),
    )
}

// So they come, until the record of this number is there.
pub(crate) fn hear_all<S: Store>(
    cluster: &mut Cluster<S>,
    alloc: Global,
    wanted: &Wanted,
    sequence: u64,
) -> Result<(), RoundError>
    ensures quiet { IsQuietRun (cluster_of cluster.old) (cluster_of cluster.new) }
    ensures made { (later : ClusterOf) (blocks batches : ℕ) → batches ≤ sequence / MAX_RECORDS + 1 → HearsTo wanted.now.device wanted.now.owner wanted.now.folder wanted.now.name sequence later blocks batches (cluster_of cluster.old) → IfMade cluster.new.members result (HearsTo wanted.now.device wanted.now.owner wanted.now.folder wanted.now.name sequence later blocks 0 (cluster_of cluster.new)) }
{
    let rounds = sequence / MAX_RECORDS as u64 + 1;
    for _round in 0..rounds {
        if has_heard(cluster, wanted, sequence) {
            return Ok(());
        }
        hear(cluster, alloc, wanted)?;
    }
    Ok(())
}
