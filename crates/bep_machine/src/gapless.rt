//! No gap in what a device knows of another's index. Each function does nothing; its contract is the law.
ghost use Rattle.bep_machine.specs.Laws.{FreshIsApart, RunsAreGapless, SamePointSameIndex};

use crate::steps_keep_sound;
use bep_index::{batch_records_are_found, batches_bring_the_index};

/// In every cluster that a run reaches from one without a gap whose links are all down, a view under the id of the other
/// device's own index has each of its records up to the view's sequence, and none that is newer than the index's own; and no
/// view is under a later id. That holds whatever the views of earlier indexes hold at first, and whichever devices are reset.
/// So a run may begin where nothing was exchanged yet.
pub fn runs_are_gapless()
    ensures runs { RunsAreGapless }
    ensures fresh { FreshIsApart }
{
    steps_keep_sound();
    batch_records_are_found();
}

/// A view without a gap, at the point of the index, is the index.
pub fn same_point_same_index()
    ensures { SamePointSameIndex }
{
    batches_bring_the_index();
}
