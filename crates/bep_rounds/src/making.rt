//! One step of a round.
ghost use Rattle.std.specs.Prelude.{◌≡◌, ◌∷◌, List, []};
ghost use Rattle.bep_core.specs.Applying.{failed_in, maker_of};
ghost use Rattle.bep_machine.specs.Cluster.{Cluster as ClusterOf};
ghost use Rattle.bep_machine.specs.Steps.{Event, IsQuiet, IsRun, reset_by};
ghost use Rattle.bep_peer.specs.network.Network.{cluster_of};
ghost use Rattle.bep_converge.specs.Bring.{done};
ghost use Rattle.bep_rounds.specs.Rounds.{IfMade, IsQuietRun};

use crate::RoundError;
use bep_core::{Cluster, Step, Why};
use bep_machine::steps_are_determined;
use bep_record::DeviceId;
use bep_store::Store;

// Makes the step, which this device makes, if one does. Where it can be done, only want of memory, or a call of a store that
// fails, keeps it from that.
#[tactic(auto, using(crate::proofs::QuietRuns::one_step, crate::proofs::Made::fault_of))]
pub(crate) fn make<S: Store>(
    cluster: &mut Cluster<S>,
    maker: Option<DeviceId>,
    step: Step,
) -> Result<(), RoundError>
    requires maker { maker ≡ maker_of step }
    requires quiet { IsQuiet step }
    requires unreset { reset_by step ≡ [] }
    ensures quiet { IsQuietRun (cluster_of cluster.old) (cluster_of cluster.new) }
    ensures made { (more : List Event) (later : ClusterOf) → IsRun (cluster_of cluster.old) (done step ∷ more) later → IfMade cluster.new.members result (IsRun (cluster_of cluster.new) more later) }
{
    steps_are_determined();
    cluster.cluster_is_sound();
    let answer = cluster.apply(step);
    if failed_in(cluster, maker).is_some() {
        return Err(RoundError::StoreFault);
    }
    match answer {
        Ok(_) => Ok(()),
        Err(Why::Refused(refusal)) => Err(RoundError::Refused(refusal)),
        Err(Why::ConfigBad | Why::Memory) => Err(RoundError::Memory),
    }
}

// Which call of its store failed in the last action of this device.
fn failed_in<S: Store>(cluster: &Cluster<S>, maker: Option<DeviceId>) -> Option<u32>
    ensures { result ≡ failed_in maker cluster.now.members }
{
    cluster.peer(maker?)?.failed()
}
