//! Calm is kept by every step that no user makes. Each function does nothing; its contract is the law.
ghost use Rattle.bep_machine.specs.Laws.{QuietStepsKeepCalm, QuietStepsKeepRecords};

use bep_index::batch_records_are_found;
use bep_record::cut_is_of_one_length;

/// Each quiet step of a sound cluster that is calm leaves it calm for the same contents, and each store byte for byte as
/// it was. Only devices that were reset lack records that they should have, those that the step resets among them.
pub fn quiet_steps_keep_calm()
    ensures { QuietStepsKeepCalm }
{
    batch_records_are_found();
    cut_is_of_one_length();
}

/// A quiet step that resets no device takes no own record away.
pub fn quiet_steps_keep_records()
    ensures { QuietStepsKeepRecords }
{
    batch_records_are_found();
}
