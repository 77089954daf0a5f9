//! What holds of every cluster that steps lead to. The function does nothing; its contract is the law.
ghost use Rattle.bep_core.specs.Reached.{ReachedIsGapless};

use bep_machine::{runs_are_gapless, steps_keep_sound};

/// A cluster began with stores that hold nodes, and only steps were applied to it. Then all is well formed, and no view
/// under the id of the other device's own index has a gap, and none is under a later id, whatever was lost and whenever
/// devices were restarted.
pub fn reached_is_gapless()
    ensures { ReachedIsGapless }
{
    steps_keep_sound();
    runs_are_gapless();
}
