//! What prevails comes to a device by a run that this project's peers can make. Each function does nothing; its contract is the
//! law.
ghost use Rattle.bep_converge.specs.BringLaws.{BringBrings};
ghost use Rattle.bep_converge.specs.CutReached.{CutsAreReached};
ghost use Rattle.bep_converge.specs.Watched.{BringIsWatched};

use crate::steps::{prevailing_goes_on, steps_keep_hashes};
use bep_choice::laws::choice_exists;
use bep_index::batch_records_are_found;
use bep_machine::{
    begin_opens_session, config_is_taken, finish_adopts, records_are_announced,
    request_is_answered, runs_are_gapless, start_pull_begins, steps_keep_sound,
};
use bep_record::merge_exists;

/// A device isn't at the top of a name that prevails, and another one has the record. The run that brings it from there is made of
/// steps that are all done: no call of a store fails, and memory isn't wanting. Then the device is at the top. What the devices
/// see tells when the next step is due: whether the record is still to come, and whether blocks are missing.
pub fn bring_is_watched()
    ensures { BringIsWatched }
{
    steps_keep_sound();
    steps_keep_hashes();
    runs_are_gapless();
    prevailing_goes_on();
    begin_opens_session();
    config_is_taken();
    records_are_announced();
    batch_records_are_found();
    choice_exists();
    start_pull_begins();
    request_is_answered();
    finish_adopts();
    merge_exists();
}

/// So there is a device from which the name is brought, by such a run.
pub fn bring_brings()
    ensures { BringBrings }
{
    bring_is_watched();
}

/// A cluster is ready for such a run only if it is reached from one without a gap. That of a cut is, where all links are down, no
/// view has a gap, and none is of an index that is still to come.
pub fn cuts_are_reached()
    ensures { CutsAreReached }
{}
