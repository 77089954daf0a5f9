//! A round that brings what prevails of a name to a device.
ghost use Rattle.std.specs.Prelude.{◌+◌, ℕ};
ghost use Rattle.bep_record.specs.declared.entry.Entry.{Entry as EntryOf};
ghost use Rattle.bep_peer.specs.network.Network.{cluster_of};
ghost use Rattle.bep_converge.specs.Bring.{IsReady};
ghost use Rattle.bep_converge.specs.Watched.{IsBehindOwner};
ghost use Rattle.bep_rounds.specs.Rounds.{IfMade, IsBrought, IsQuietRun};

use crate::fetching::{fetch_all, finish, start};
use crate::hearing::hear_all;
use crate::meeting::meet;
use crate::seeing::owned;
use crate::{RoundError, Wanted};
use bep_converge::{bring_is_watched, bring_keeps, fewer_are_behind};
use bep_core::Cluster;
use bep_machine::Refusal;
use bep_store::Store;
use std::alloc::Global;

/// Makes the round that brings the name from its owner to the device. Both are restarted and begin a session, the owner
/// announces its records until the device has this one, and the device pulls it, block by block.
///
/// It can be made where the cluster is ready for a round, the name prevails, and the owner has its top but not the device.
/// Then only two things are an error: want of memory, or a call of a store that failed in the last step. Without an error the
/// device is at the top, and all else is as it was; what was made is the run that `bring_is_watched` says. So one device fewer is
/// behind on a name, and the cluster is ready for one round fewer.
///
/// Whatever is answered, and wherever the cluster was, what was made is a quiet run without a reset. So what was settled, firm
/// or prevailed is so still.
#[tactic(auto, using(crate::proofs::QuietRuns::no_step, crate::proofs::QuietRuns::both_runs, crate::proofs::Made::memory_outside))]
pub fn bring<S: Store>(
    cluster: &mut Cluster<S>,
    alloc: Global,
    wanted: &Wanted,
) -> Result<(), RoundError>
    ensures quiet { IsQuietRun (cluster_of cluster.old) (cluster_of cluster.new) }
    ensures brings { (turns : ℕ) (top : EntryOf) → IsReady (turns + 1) (cluster_of cluster.old) → IsBehindOwner (cluster_of cluster.old) wanted.now.device wanted.now.owner wanted.now.folder wanted.now.name top → IfMade cluster.new.members result (IsBrought turns (cluster_of cluster.old) (cluster_of cluster.new) wanted.now top) }
{
    bring_is_watched();
    bring_keeps();
    fewer_are_behind();
    let (sequence, blocks) = match owned(cluster, wanted) {
        Some(sizes) => sizes,
        None => return Err(RoundError::Refused(Refusal::NotShared)),
    };
    meet(cluster, wanted)?;
    hear_all(cluster, alloc, wanted, sequence)?;
    start(cluster, alloc, wanted)?;
    fetch_all(cluster, alloc, wanted, blocks)?;
    finish(cluster, alloc, wanted)
}
