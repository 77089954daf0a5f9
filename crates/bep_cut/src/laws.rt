//! What holds of the parts of every cluster, and of their cut. The functions do nothing; their contracts are the laws.
ghost use Rattle.bep_cut.specs.Laws.{ClustersAreParts, CutSaysCluster, SameClusterSameCut};

use bep_peer::{sharing_is_having, tables_are_found};

/// The devices and the links of every cluster are such that a cut can be taken of them.
pub fn clusters_are_parts()
    ensures { ClustersAreParts }
{
    sharing_is_having();
    tables_are_found();
}

/// The cut of a cluster's devices and links says what the cluster does.
pub fn cut_says_cluster()
    ensures { CutSaysCluster }
{
    sharing_is_having();
}

/// Devices and links that are one and the same cluster have one cut.
pub fn same_cluster_same_cut()
    ensures { SameClusterSameCut }
{
    sharing_is_having();
}
