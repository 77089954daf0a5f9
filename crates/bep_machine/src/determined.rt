//! A run is determined by its steps, and by which calls of stores fail in them; a replay by its base and its events. Each
//! function does nothing; its contract is the law.
ghost use Rattle.bep_machine.specs.Determined.{DevicesReplayOneWay, LinksReplayOneWay, RunsAreDetermined, StepsAreDetermined};

use crate::steps_keep_sound;
use bep_choice::laws::choice_is_unique;
use bep_record::{bump_exists, merge_exists};

/// A step of a sound cluster leads to one cluster, with one answer, whatever record, version or batch its definition
/// lets it guess. The call of a store that fails is the same, if any, and memory isn't wanting.
pub fn steps_are_determined()
    ensures { StepsAreDetermined }
{
    choice_is_unique();
    merge_exists();
    bump_exists();
}

/// Two runs from a sound cluster make the same steps, whose edits put nodes; the same calls of the stores fail in both,
/// and memory is wanting in none. Then they lead to one cluster, and each step has the same answer in both.
pub fn runs_are_determined()
    ensures { RunsAreDetermined }
{
    steps_are_determined();
    steps_keep_sound();
}

/// Two replays of one base by one list of events end in one state. This holds of a link, and of a device that isn't
/// among the others with which it shares its folders.
pub fn replays_are_determined()
    ensures devices { DevicesReplayOneWay }
    ensures links { LinksReplayOneWay }
{
    choice_is_unique();
    merge_exists();
    bump_exists();
}
