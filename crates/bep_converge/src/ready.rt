//! Where one name alone awaits a device's override, revert or edit, the cluster is ready once that was made. Each function does
//! nothing; its contract is the law.
ghost use Rattle.bep_converge.specs.Ready.{EditMakesReady, OverrideMakesReady, RevertMakesReady};

use crate::after::{edit_makes_top, override_makes_top, revert_lets_in};
use crate::steps::steps_keep_hashes;
use bep_machine::steps_keep_sound;

/// Where all other names prevail, and one awaits a device's override, the cluster is ready once the device overrode it. So the
/// device's content comes to all.
pub fn override_makes_ready()
    ensures { OverrideMakesReady }
{
    steps_keep_sound();
    steps_keep_hashes();
    override_makes_top();
}

/// The same where it awaits that the device takes its local change back. So the top comes to the device, too.
pub fn revert_makes_ready()
    ensures { RevertMakesReady }
{
    steps_keep_sound();
    steps_keep_hashes();
    revert_lets_in();
}

/// The same where the device's own record is behind none that is known elsewhere: after an edit, as `touch` is, and a scan what the
/// device holds then comes to all.
pub fn edit_makes_ready()
    ensures { EditMakesReady }
{
    steps_keep_sound();
    steps_keep_hashes();
    edit_makes_top();
}
