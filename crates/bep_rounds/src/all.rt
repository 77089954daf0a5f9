//! Round after round, until what prevails has come to all.
ghost use Rattle.std.specs.Prelude.{◌≤◌, List, length, IfOk};
ghost use Rattle.bep_machine.specs.Said.{tables_of_cluster};
ghost use Rattle.bep_peer.specs.network.Network.{cluster_of};
ghost use Rattle.bep_converge.specs.Arrival.{Behind, HasAllBehind};
ghost use Rattle.bep_converge.specs.Bring.{IsReady};
ghost use Rattle.bep_converge.specs.Ended.{IsEnded};
ghost use Rattle.bep_converge.specs.Prevails.{AllPrevail};
ghost use Rattle.bep_rounds.specs.Finding.{IsFound};
ghost use Rattle.bep_rounds.specs.Rounds.{IfAllMade, IsAllBrought, IsQuietRun};

use crate::finding::find_behind;
use crate::round::bring;
use crate::{RoundError, Wanted};
use bep_converge::prevailing_goes_on;
use bep_core::Cluster;
use bep_machine::step_has_halves;
use bep_store::Store;
use std::alloc::Global;

/// Makes round after round, each of which brings a name to a device that is behind on it, until none is; but no more than `most`.
/// Which device is behind, on which name, and which one has its top, it finds by itself. It answers what is still to be brought
/// after so many rounds, if something is.
///
/// Where the cluster is ready for as many rounds as devices are behind on names, and `most` is no less, nothing is left. Then only
/// two things are an error: want of memory, or a call of a store that failed in the last step. Without an error all devices are at
/// the top of every name, what prevailed does still, and each device has the record and file that it had, or its name rose.
///
/// Wherever the cluster was, what it answers is so: where all names prevail afterwards, `None` says that all devices are at the top,
/// and `Some` names a device that isn't. And whatever it answers, what was made is a quiet run without a reset. So what was
/// settled, firm or prevailed is so still.
#[tactic(auto, using(crate::proofs::QuietRuns::no_step, crate::proofs::QuietRuns::both_runs, crate::proofs::Made::memory_outside))]
pub fn bring_all<S: Store>(
    cluster: &mut Cluster<S>,
    alloc: Global,
    most: u64,
) -> Result<Option<Wanted>, RoundError>
    ensures quiet { IsQuietRun (cluster_of cluster.old) (cluster_of cluster.new) }
    ensures left { IfOk result (λ left. IsFound (cluster_of cluster.new) left (AllPrevail (tables_of_cluster (cluster_of cluster.new)) → IsEnded (tables_of_cluster (cluster_of cluster.new)))) }
    ensures ends { (behind : List Behind) → length behind ≤ most → IsReady (length behind) (cluster_of cluster.old) → HasAllBehind (tables_of_cluster (cluster_of cluster.old)) behind → IfAllMade cluster.new.members result (IsAllBrought (cluster_of cluster.old) (cluster_of cluster.new)) }
{
    prevailing_goes_on();
    step_has_halves();
    for _round in 0..most {
        let found = find_behind(cluster, alloc)?;
        let wanted = match found {
            None => return Ok(None),
            Some(wanted) => wanted,
        };
        bring(cluster, alloc, &wanted)?;
    }
    let left = find_behind(cluster, alloc)?;
    Ok(left)
}
