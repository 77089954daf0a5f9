//! This project's peers are free peers while none is reset, and what is firm stays put whatever those do. Each function does
//! nothing; its contract is the law.
ghost use Rattle.bep_machine.specs.FreeLaws.{StepsAreFree, RunsAreFree, FirmCutsStayPut};

use crate::steps_keep_sound;
use bep_index::batch_records_are_found;
use bep_model::firm_stays_firm;

/// Each quiet step of a sound cluster changes its tables only as free peers may, unless it resets a device. (What a device
/// without records may record and write, free peers are free to choose. So no leave of theirs can let records go.)
pub fn steps_are_free()
    ensures { StepsAreFree }
{
    batch_records_are_found();
}

/// So each quiet run of a sound cluster in which no device is reset is a run of free peers.
pub fn runs_are_free()
    ensures { RunsAreFree }
{
    steps_are_free();
    steps_keep_sound();
}

/// After every such run from a cluster with firm tables each sharing device has the very records and files that it had, and
/// the tables are firm for the same rows.
pub fn firm_stays_put()
    ensures { FirmCutsStayPut }
{
    runs_are_free();
    firm_stays_firm();
}
