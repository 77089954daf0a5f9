//! That a cluster's tables are finite, so that they can be judged. The function does nothing; its contract is the law.
ghost use Rattle.bep_machine.specs.Laws.{ClusterIsFinite};

/// In every sound cluster only finitely many names are known, and only devices of the cluster are viewed.
pub fn clusters_are_finite()
    ensures { ClusterIsFinite }
{}
