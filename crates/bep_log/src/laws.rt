//! What logs say of the states to which they lead, as a law.
ghost use Rattle.bep_log.specs.Laws.{DevicesReplayAlike, LinksReplayAlike};

use bep_machine::replays_are_determined;

/// Two devices, or two links, that replay one base by one list of events have one state. It does nothing.
pub fn logs_have_one_state()
    ensures devices { DevicesReplayAlike }
    ensures links { LinksReplayAlike }
{
    replays_are_determined();
}
