//! Two devices are restarted and begin a session.
ghost use Rattle.std.specs.Prelude.{◌∷◌, ◌++◌, List, [], map};
ghost use Rattle.bep_machine.specs.Cluster.{Cluster as ClusterOf};
ghost use Rattle.bep_machine.specs.Steps.{Event, IsRun};
ghost use Rattle.bep_machine.specs.declared.step.Step.TheVariants.{Begin, Deliver, Restart};
ghost use Rattle.bep_peer.specs.network.Network.{cluster_of};
ghost use Rattle.bep_converge.specs.Bring.{connect, done, meet};
ghost use Rattle.bep_rounds.specs.Rounds.{IfMade, IsQuietRun};

use crate::making::make;
use crate::{RoundError, Wanted};
use bep_core::{Cluster, Step};
use bep_record::DeviceId;
use bep_store::Store;

// The link between the two comes up.
fn connect<S: Store>(
    cluster: &mut Cluster<S>,
    device: DeviceId,
    other: DeviceId,
) -> Result<(), RoundError>
    ensures quiet { IsQuietRun (cluster_of cluster.old) (cluster_of cluster.new) }
    ensures made { (more : List Event) (later : ClusterOf) → IsRun (cluster_of cluster.old) (map done (connect device other ∷ []) ++ more) later → IfMade cluster.new.members result (IsRun (cluster_of cluster.new) more later) }
{
    if device < other {
        make(cluster, None, Step::Connect(device, other))
    } else {
        make(cluster, None, Step::Connect(other, device))
    }
}

// Both are restarted, and their link comes up.
#[tactic(auto, using(crate::proofs::QuietRuns::no_step, crate::proofs::QuietRuns::both_runs))]
fn restart<S: Store>(cluster: &mut Cluster<S>, wanted: &Wanted) -> Result<(), RoundError>
    ensures quiet { IsQuietRun (cluster_of cluster.old) (cluster_of cluster.new) }
    ensures made { (more : List Event) (later : ClusterOf) → IsRun (cluster_of cluster.old) (map done (Restart wanted.now.device ∷ Restart wanted.now.owner ∷ connect wanted.now.device wanted.now.owner ∷ []) ++ more) later → IfMade cluster.new.members result (IsRun (cluster_of cluster.new) more later) }
{
    make(cluster, Some(wanted.device), Step::Restart(wanted.device))?;
    make(cluster, Some(wanted.owner), Step::Restart(wanted.owner))?;
    connect(cluster, wanted.device, wanted.owner)
}

// Each begins, and takes the other's ClusterConfig.
#[tactic(auto, using(crate::proofs::QuietRuns::no_step, crate::proofs::QuietRuns::both_runs))]
fn exchange<S: Store>(cluster: &mut Cluster<S>, wanted: &Wanted) -> Result<(), RoundError>
    ensures quiet { IsQuietRun (cluster_of cluster.old) (cluster_of cluster.new) }
    ensures made { (more : List Event) (later : ClusterOf) → IsRun (cluster_of cluster.old) (map done (Begin wanted.now.device wanted.now.owner ∷ Begin wanted.now.owner wanted.now.device ∷ Deliver wanted.now.device wanted.now.owner ∷ Deliver wanted.now.owner wanted.now.device ∷ []) ++ more) later → IfMade cluster.new.members result (IsRun (cluster_of cluster.new) more later) }
{
    let device = wanted.device;
    let owner = wanted.owner;
    make(cluster, Some(device), Step::Begin(device, owner))?;
    make(cluster, Some(owner), Step::Begin(owner, device))?;
    make(cluster, Some(device), Step::Deliver(device, owner))?;
    make(cluster, Some(owner), Step::Deliver(owner, device))
}

// The two meet.
#[tactic(auto, using(crate::proofs::QuietRuns::no_step, crate::proofs::QuietRuns::both_runs))]
pub(crate) fn meet<S: Store>(cluster: &mut Cluster<S>, wanted: &Wanted) -> Result<(), RoundError>
    ensures quiet { IsQuietRun (cluster_of cluster.old) (cluster_of cluster.new) }
    ensures made { (more : List Event) (later : ClusterOf) → IsRun (cluster_of cluster.old) (map done (meet wanted.now.device wanted.now.owner) ++ more) later → IfMade cluster.new.members result (IsRun (cluster_of cluster.new) more later) }
{
    restart(cluster, wanted)?;
    exchange(cluster, wanted)
}
