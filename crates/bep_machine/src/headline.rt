//! What is settled stays put after every list of steps that no user makes. Each function does nothing; its contract is
//! the law.
ghost use Rattle.bep_machine.specs.Laws.{SettledStaysPut, SettledStaysSettled};

use crate::{quiet_steps_keep_calm, quiet_steps_keep_records, steps_keep_sound};
use bep_model::{calm_is_settled_again, calm_stays, settled_is_calm};

/// After every quiet run from a cluster with settled tables each store holds byte for byte what it held, and each row's
/// name has its certified content. Only a device that was reset in the run may lack a record of what it holds.
pub fn settled_stays_put()
    ensures { SettledStaysPut }
{
    settled_is_calm();
    calm_stays();
    quiet_steps_keep_calm();
    steps_keep_sound();
}

/// After every such run in which no device is reset the cluster is settled for its own winners, whose names and contents
/// are those of the rows.
pub fn settled_stays_settled()
    ensures { SettledStaysSettled }
{
    settled_is_calm();
    calm_is_settled_again();
    quiet_steps_keep_calm();
    quiet_steps_keep_records();
    steps_keep_sound();
}
