//! That every cut is of a sound cluster. The function does nothing; its contract is the law.
ghost use Rattle.bep_origin.specs.Laws.{CutsHaveClusters};

use bep_index::batch_records_are_found;

/// Every cut whose parts are what their types keep is of a sound cluster. That cluster has no session, and its links
/// carry the cut's messages alone.
pub fn cuts_have_clusters()
    ensures { CutsHaveClusters }
{
    batch_records_are_found();
}
