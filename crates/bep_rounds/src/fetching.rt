//! The device pulls the name, block by block.
ghost use Rattle.std.specs.Prelude.{◌∷◌, ◌++◌, ◌≤◌, ℕ, List, map};
ghost use Rattle.bep_machine.specs.Cluster.{Cluster as ClusterOf};
ghost use Rattle.bep_machine.specs.Steps.{Event, IsRun};
ghost use Rattle.bep_machine.specs.declared.step.Step.TheVariants.{Finish, StartPull};
ghost use Rattle.bep_peer.specs.network.Network.{cluster_of};
ghost use Rattle.bep_converge.specs.Bring.{done, fetch};
ghost use Rattle.bep_converge.specs.Watched.{FetchesTo};
ghost use Rattle.bep_rounds.specs.Rounds.{IfMade, IsQuietRun};

use crate::making::make;
use crate::seeing::lacks_blocks;
use crate::{RoundError, Wanted};
use bep_core::{Cluster, Step};
use bep_store::Store;
use std::alloc::Global;

// The pull begins.
#[tactic(auto, using(crate::proofs::QuietRuns::no_step, crate::proofs::QuietRuns::both_runs, crate::proofs::Made::memory_outside))]
pub(crate) fn start<S: Store>(
    cluster: &mut Cluster<S>,
    alloc: Global,
    wanted: &Wanted,
) -> Result<(), RoundError>
    ensures quiet { IsQuietRun (cluster_of cluster.old) (cluster_of cluster.new) }
    ensures made { (more : List Event) (later : ClusterOf) → IsRun (cluster_of cluster.old) (done (StartPull wanted.now.device wanted.now.folder wanted.now.name) ∷ more) later → IfMade cluster.new.members result (IsRun (cluster_of cluster.new) more later) }
{
    let folder = wanted.folder.copy(alloc)?;
    let start = Step::StartPull(wanted.device, folder, wanted.name.copy(alloc)?);
    make(cluster, Some(wanted.device), start)
}

// The pull ends.
#[tactic(auto, using(crate::proofs::QuietRuns::no_step, crate::proofs::QuietRuns::both_runs, crate::proofs::Made::memory_outside))]
pub(crate) fn finish<S: Store>(
    cluster: &mut Cluster<S>,
    alloc: Global,
    wanted: &Wanted,
) -> Result<(), RoundError>
    ensures quiet { IsQuietRun (cluster_of cluster.old) (cluster_of cluster.new) }
    ensures made { (more : List Event) (later : ClusterOf) → IsRun (cluster_of cluster.old) (done (Finish wanted.now.device wanted.now.folder wanted.now.name) ∷ more) later → IfMade cluster.new.members result (IsRun (cluster_of cluster.new) more later) }
{
    let folder = wanted.folder.copy(alloc)?;
    let finish = Step::Finish(wanted.device, folder, wanted.name.copy(alloc)?);
    make(cluster, Some(wanted.device), finish)
}

// The next block of the file comes.
#[tactic(auto, using(crate::proofs::QuietRuns::no_step, crate::proofs::QuietRuns::both_runs, crate::proofs::Made::memory_outside))]
fn fetch<S: Store>(
    cluster: &mut Cluster<S>,
    alloc: Global,
    wanted: &Wanted,
) -> Result<(), RoundError>
    ensures quiet { IsQuietRun (cluster_of cluster.old) (cluster_of cluster.new) }
    ensures made { (more : List Event) (later : ClusterOf) → IsRun (cluster_of cluster.old) (map done (fetch wanted.now.device wanted.now.owner wanted.now.folder wanted.now.name) ++ more) later → IfMade cluster.new.members result (IsRun (cluster_of cluster.new) more later) }
{
    let device = wanted.device;
    let owner = wanted.owner;
    let folder = wanted.folder.copy(alloc)?;
    let ask = Step::Ask(device, owner, folder, wanted.name.copy(alloc)?);
    make(cluster, Some(device), ask)?;
    make(cluster, Some(owner), Step::Deliver(owner, device))?;
    make(cluster, Some(device), Step::Deliver(device, owner))
}

// So they come, this many at most, until none is missing.
pub(crate) fn fetch_all<S: Store>(
    cluster: &mut Cluster<S>,
    alloc: Global,
    wanted: &Wanted,
    most: usize,
) -> Result<(), RoundError>
    ensures quiet { IsQuietRun (cluster_of cluster.old) (cluster_of cluster.new) }
    ensures made { (later : ClusterOf) (blocks : ℕ) → blocks ≤ most → FetchesTo wanted.now.device wanted.now.owner wanted.now.folder wanted.now.name later blocks (cluster_of cluster.old) → IfMade cluster.new.members result (FetchesTo wanted.now.device wanted.now.owner wanted.now.folder wanted.now.name later 0 (cluster_of cluster.new)) }
{
    for _block in 0..most {
        if !lacks_blocks(cluster, wanted) {
            return Ok(());
        }
        fetch(cluster, alloc, wanted)?;
    }
    Ok(())
}
